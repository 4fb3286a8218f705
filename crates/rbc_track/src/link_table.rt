//! The links of a track, one judged after the other.

ghost use Rattle.std.specs.Prelude.{◌≡◌, [], ◌∷◌, ◌++◌, length, Ok, OnOk};
ghost use Rattle.rbc_model.specs.Answers.{AnswersOrMemory};
ghost use Rattle.rbc_model.specs.Results.{unless};
ghost use Rattle.rbc_model.specs.SoundTracks.{link_refusal};
ghost use Rattle.rbc_model.specs.Tracks.{Track};
ghost use Rattle.rbc_track.specs.Making.{sound_links};

use crate::LinkPart;
use crate::links::Links;
use crate::resolve::link_of;
use crate::section_table::Sections;
use rbc_model::{Link, OrMemory, TrackRefusal};
use std::alloc::Global;

/// Judges one more link of a track with this number of sections, and puts it behind the others.
fn add(links: &mut Links, sections: usize, link: Link) -> Result<(), OrMemory<TrackRefusal>>
    ensures judged { (track : Track) → length track.sections ≡ sections
        → AnswersOrMemory result (unless (link_refusal track links.old link) (Ok tt)) }
    ensures added { OnOk result (links.new ≡ links.old ++ link ∷ []) }
{
    let number = links.as_slice().len() + 1;
    if !links.is_good(sections, link) {
        return Err(OrMemory::Refused(TrackRefusal::BadLink(number)));
    }
    Ok(links.push(link)?)
}

/// The table of these links, or the first refusal of one.
pub(crate) fn links_of(
    alloc: Global,
    sections: &Sections,
    parts: &[LinkPart],
) -> Result<Links, OrMemory<TrackRefusal>>
    ensures { AnswersOrMemory result (sound_links sections.now parts.now) }
{
    let mut links = Links::new(alloc);
    for part in parts {
        add(&mut links, sections.len(), link_of(sections, part))?;
    }
    Ok(links)
}
