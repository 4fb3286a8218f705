//! How many entries the tables of a track may have.

ghost use Rattle.std.specs.Prelude.{◌≡◌, nat_le, Ok, Err, if◌then◌else◌};
ghost use Rattle.rbc_model.specs.declared.tracks.TrackRefusal.TheVariants.{TooMany};
ghost use Rattle.rbc_track.specs.Making.{sizes_of};
ghost use Rattle.rbc_track.specs.PartsView.{parts_view};

use crate::Parts;
use rbc_model::limits::{MOST_GROUPS, MOST_LINKS, MOST_ROUTES, MOST_SECTIONS};
use rbc_model::{Table, TrackRefusal};

/// Refuses a table of more entries than it may have.
fn judge_size(table: Table, entries: usize, most: usize) -> Result<(), TrackRefusal>
    ensures { result ≡ (if nat_le entries most then Ok tt else Err (TooMany table)) }
{
    if entries <= most {
        Ok(())
    } else {
        Err(TrackRefusal::TooMany(table))
    }
}

/// Refuses parts with no section, and then those with a table of too many entries.
#[tactic(auto, unfolding(crate::specs::Making::sizes_of))]
pub(crate) fn judge_sizes(parts: &Parts) -> Result<(), TrackRefusal>
    ensures { result ≡ sizes_of (parts_view parts.now) }
{
    if parts.sections.is_empty() {
        return Err(TrackRefusal::NoSection);
    }
    judge_size(Table::Sections, parts.sections.len(), MOST_SECTIONS)?;
    judge_size(Table::Links, parts.links.len(), MOST_LINKS)?;
    judge_size(Table::Groups, parts.groups.len(), MOST_GROUPS)?;
    judge_size(Table::Routes, parts.routes.len(), MOST_ROUTES)
}
