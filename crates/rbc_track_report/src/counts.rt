//! How much a track has.

ghost use Rattle.std.specs.Prelude.{◌≡◌, ◌≤◌, ◌*◌, ◌+◌, length, All};
ghost use Rattle.rbc_model.specs.declared.limits.TheConstants.{LONGEST_TRACK};
ghost use Rattle.rbc_streams.specs.Emitting.{Emits};
ghost use Rattle.rbc_track_report.specs.Report.{counts_line, metres_in};

use rbc_streams::Sink;
use rbc_track::{Section, Track};
use rbc_words::{Word, emit_line};

/// How many metres the sections have.
pub(crate) fn metres_in(sections: &[Section]) -> u64
    requires { length sections.now ≤ 4096 }
    ensures { result ≡ metres_in sections.now }
{
    let mut metres = 0;
    for section in sections {
        section.known();
        metres += u64::from(section.length());
    }
    metres
}

/// Writes how many sections, metres, links, balise groups and routes a track has.
pub(crate) fn emit_counts<W: Sink>(track: &Track, writer: &mut W)
    ensures { Emits W.written W.failed writer.old writer.new
        (counts_line track.now) }
{
    track.known();
    let words = [
        Word::Count(track.section_count() as u64),
        Word::Text(b"metres"),
        Word::Count(metres_in(track.sections())),
        Word::Text(b"links"),
        Word::Count(track.links().len() as u64),
        Word::Text(b"groups"),
        Word::Count(track.groups().len() as u64),
        Word::Text(b"routes"),
        Word::Count(track.route_count() as u64),
    ];
    emit_line(b"sections", &words, writer);
}
