//! Whether legs make a line of a track.

ghost use Rattle.std.specs.Prelude.{◌≡◌, length, nat_lt};
ghost use Rattle.std.specs.List.{list_all};
ghost use Rattle.rbc_model.specs.Lines.{has_section};
ghost use Rattle.rbc_model.specs.SoundTracks.{are_linked, sections_differ};
ghost use Rattle.rbc_good_laws.specs.Good.{is_good_line};

use rbc_model::{Leg, SectionId};
use rbc_track::Track;

/// Whether the legs make a line: there is one, each is of a section of the track, none of one section with another, and each is
/// linked to the next.
pub(crate) fn is_good_line(track: &Track, legs: &[Leg]) -> bool
    ensures { result ≡ is_good_line track.now legs.now }
{
    !legs.is_empty()
        && are_of(track.section_count(), legs)
        && sections_differ(legs)
        && are_linked(track, legs)
}

/// Whether each leg is of a section of a track with this number of sections.
fn are_of(sections: usize, legs: &[Leg]) -> bool
    ensures { result ≡ list_all (λ leg. nat_lt leg.section sections) legs.now }
{
    legs.iter().all(|leg| leg.section.index() < sections)
}

/// Whether no section stands twice on the list.
fn sections_differ(legs: &[Leg]) -> bool
    ensures { result ≡ sections_differ legs.now }
{
    for (index, leg) in legs.iter().enumerate() {
        if has_section(&legs[index + 1..], leg.section) {
            return false;
        }
    }
    true
}

/// Whether one of the legs is of the section.
fn has_section(legs: &[Leg], section: SectionId) -> bool
    ensures { result ≡ has_section legs.now section }
{
    legs.iter().any(|leg| leg.section == section)
}

/// Whether each leg has a link to the next.
fn are_linked(track: &Track, legs: &[Leg]) -> bool
    ensures { result ≡ are_linked track.now legs.now }
{
    let [first, later @ ..] = legs else {
        return true;
    };
    let mut before = first;
    for leg in later {
        if !track.linked(*before, *leg) {
            return false;
        }
        before = leg;
    }
    true
}
