//! The lines of a track: all that its file says.

ghost use Rattle.std.specs.Prelude.{◌≡◌, ◌<◌, false, ◌∷◌, flat_map, length, map, option_map, All, IsTrue, Some};
ghost use Rattle.rbc_model.specs.GroupNames.{IsGroupName};
ghost use Rattle.rbc_model.specs.Names.{is_name};
ghost use Rattle.rbc_model.specs.Rows.{leg_or_none};
ghost use Rattle.rbc_model.specs.SessionReply.{leg_word};
ghost use Rattle.rbc_model.specs.Sessions.{Prints};
ghost use Rattle.rbc_model.specs.StepsReply.{run_words};
ghost use Rattle.rbc_model.specs.TrackLines.{format_number, track_row, named_leg, track_lines, read_track_lines};
ghost use Rattle.rbc_model.specs.Words.{line_of};
ghost use Rattle.rbc_streams.specs.Emitting.{Emits};
ghost use Rattle.rbc_words.specs.LineWords.{word_text};
ghost use Rattle.rbc_words.specs.PriceText.{spaced};
ghost use Rattle.rbc_lines.specs.TrackLaws.{TrackLinesAreReadBack, ReadLinesAreOfTracks};
ghost use Rattle.rbc_lines.specs.TrackText.{section_text, link_text, group_text, route_text};
ghost use Rattle.rbc_lines.specs.TrackText.{LinkIsOfTrack, RouteIsOfTrack, EntryIsOfTrack, LegsAreOfTrack};

use rbc_model::{BaliseGroup, Format, Leg, Link};
use rbc_steps::{Grade, Speed};
use rbc_streams::{Sink, WriteFailed, emit, outcome};
use rbc_track::{Name, Route, Section, Track};
use rbc_words::{Spelled, Word, emit_line, emit_runs, emit_words, leg_word};

/// What the lines of a track tell: each sound track whose names are names is read back from its lines, and what is read
/// is a sound track, from its own lines and no other text.
pub fn track_lines_are_read_back()
    ensures tracks { TrackLinesAreReadBack }
    ensures texts { ReadLinesAreOfTracks }
{}

/// The lines of this track are read back as this track: its names are names. It looks at each of them, and does nothing.
pub fn lines_known(track: &Track)
    ensures { read_track_lines (track_lines track.now) ≡ Some track.now }
{
    track.known();
    sections_known(track.sections());
    routes_known(track.routes());
    groups_known(track.groups());
}

fn sections_known(sections: &[Section])
    ensures { All (λ section. IsTrue (is_name section.name)) sections.now }
{
    for section in sections {
        section.name().known();
    }
}

fn routes_known(routes: &[Route])
    ensures { All (λ route. IsTrue (is_name route.name)) routes.now }
{
    for route in routes {
        route.name().known();
    }
}

fn groups_known(groups: &[BaliseGroup])
    ensures { All (λ group. IsGroupName group.name) groups.now }
{
    for group in groups {
        let _country = group.name.country();
        let _number = group.name.number();
    }
}

/// Writes the lines of a track: its format and its limits of steps, its sections, links, balise groups and routes, each
/// in the order of its file, and `done`. It takes no memory.
///
/// # Errors
///
/// `WriteFailed`, where the writer fails. Then a part of the text stands, from its start.
pub fn print_track<W: Sink>(track: &Track, writer: &mut W) -> Result<(), WriteFailed>
    requires { W.failed writer.old ≡ false }
    ensures { Prints (W.written writer.old) (W.written writer.new) (W.failed writer.new)
        (track_lines track.now) result }
{
    emit_track(track, writer);
    outcome(writer)
}

fn emit_track<W: Sink>(track: &Track, writer: &mut W)
    ensures { Emits W.written W.failed writer.old writer.new
        (track_lines track.now) }
{
    let sections = track.sections();
    emit_head(track, writer);
    emit_sections(sections, writer);
    emit_links(track, writer);
    emit_groups(track, writer);
    emit_routes(track, writer);
    emit(writer, b"done\n");
}

/// The number of a format in a track file.
fn format_number(format: Format) -> u32
    ensures { result ≡ format_number format }
{
    match format {
        Format::Near => 1,
        Format::Far => 2,
    }
}

/// Writes the first line: the format, and how many steps the profiles may have.
fn emit_head<W: Sink>(track: &Track, writer: &mut W)
    ensures { Emits W.written W.failed writer.old writer.new
        (line_of (track_row track.now.format track.now.speed_steps track.now.grade_steps)) }
{
    let words = [
        Word::Number(format_number(track.format())),
        Word::Count(track.speed_steps() as u64),
        Word::Count(track.grade_steps() as u64),
    ];
    emit_line(b"track", &words, writer);
}

/// Writes the lines of sections.
fn emit_sections<W: Sink>(sections: &[Section], writer: &mut W)
    ensures { Emits W.written W.failed writer.old writer.new
        (flat_map section_text sections.now) }
{
    for section in sections {
        emit_section(section, writer);
    }
}

/// Writes the lines of a section: its length in metres, its speeds in km/h, and its gradients in per mille.
fn emit_section<W: Sink>(section: &Section, writer: &mut W)
    ensures { Emits W.written W.failed writer.old writer.new
        (section_text section.now) }
{
    let name = section.name();
    let speeds: &[(u32, Speed)] = section.speeds().runs();
    let grades: &[(u32, Grade)] = section.grades().runs();
    let words = [Word::Name(name), Word::Number(section.length())];
    emit_line(b"section", &words, writer);
    emit_level_line(b"speeds", name, speeds, writer);
    emit_level_line(b"grades", name, grades, writer);
}

/// Writes the line of a section's speeds or of its gradients: the first word, the section's name, and the runs.
fn emit_level_line<V: Spelled, W: Sink>(first: &[u8], name: Name, runs: &[(u32, V)], writer: &mut W)
    ensures { Emits W.written W.failed writer.old writer.new
        (line_of (first.now ∷ name ∷ run_words V.kind runs.now)) }
{
    emit(writer, first);
    emit_words(&[Word::Name(name)], writer);
    emit_runs(runs, writer);
    emit(writer, b"\n");
}

/// Writes the lines of the links.
fn emit_links<W: Sink>(track: &Track, writer: &mut W)
    ensures { Emits W.written W.failed writer.old writer.new
        (flat_map (link_text track.now) track.now.links) }
{
    // A track's links are between legs of its sections.
    track.known();
    let links = track.links();
    for link in links {
        emit_link(track, link, writer);
    }
}

fn emit_link<W: Sink>(track: &Track, link: &Link, writer: &mut W)
    requires of_track { LinkIsOfTrack track.now link.now }
    ensures { Emits W.written W.failed writer.old writer.new
        (link_text track.now link.now) }
{
    let words = [leg_word(track, link.from), leg_word(track, link.to)];
    emit_line(b"link", &words, writer);
}

/// Writes the lines of the balise groups.
fn emit_groups<W: Sink>(track: &Track, writer: &mut W)
    ensures { Emits W.written W.failed writer.old writer.new
        (flat_map (group_text track.now) track.now.groups) }
{
    // A track's groups stand on its sections.
    track.known();
    let groups = track.groups();
    for group in groups {
        emit_group(track, group, writer);
    }
}

/// Writes the line of a balise group: its identity, the leg of its nominal direction, and its offset in metres.
fn emit_group<W: Sink>(track: &Track, group: &BaliseGroup, writer: &mut W)
    requires of_track { group.now.section < length track.now.sections }
    ensures { Emits W.written W.failed writer.old writer.new
        (group_text track.now group.now) }
{
    let leg = Leg {
        section: group.section,
        direction: group.nominal,
    };
    let words = [
        Word::Group(group.name),
        leg_word(track, leg),
        Word::Number(group.offset),
    ];
    emit_line(b"group", &words, writer);
}

/// Writes the lines of the routes.
fn emit_routes<W: Sink>(track: &Track, writer: &mut W)
    ensures { Emits W.written W.failed writer.old writer.new
        (flat_map (route_text track.now) track.now.routes) }
{
    // A track's routes are of legs of its sections.
    track.known();
    let routes = track.routes();
    for route in routes {
        emit_route(track, route, writer);
    }
}

/// Writes the line of a route: its name, the leg that it is entered from or `-`, and its legs.
fn emit_route<W: Sink>(track: &Track, route: &Route, writer: &mut W)
    requires of_track { RouteIsOfTrack track.now route.now }
    ensures { Emits W.written W.failed writer.old writer.new
        (route_text track.now route.now) }
{
    let words = [Word::Name(route.name()), entry_word(track, route.after())];
    let legs = route.legs();
    emit(writer, b"route");
    emit_words(&words, writer);
    emit_legs(track, legs, writer);
    emit(writer, b"\n");
}

/// The leg that a route is entered from as a word: `-` if there is none.
fn entry_word<'line>(track: &Track, entry: Option<Leg>) -> Word<'line>
    requires { EntryIsOfTrack track.now entry }
    ensures { word_text result ≡ leg_or_none (option_map (named_leg track.now) entry) }
{
    match entry {
        Some(leg) => leg_word(track, leg),
        None => Word::Text(b"-"),
    }
}

/// Writes legs, each behind a space.
pub(crate) fn emit_legs<W: Sink>(track: &Track, legs: &[Leg], writer: &mut W)
    requires of_track { LegsAreOfTrack track.now legs.now }
    ensures { Emits W.written W.failed writer.old writer.new
        (spaced (map (leg_word track.now) legs.now)) }
{
    for leg in legs {
        emit_words(&[leg_word(track, *leg)], writer);
    }
}
