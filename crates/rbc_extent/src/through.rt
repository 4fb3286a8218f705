//! The legs that a report leaves ahead of a train.

ghost use Rattle.std.specs.Prelude.{◌≡◌};
ghost use Rattle.rbc_model.specs.Placing.{through};

use crate::counting::{leg_told, legs_before};
use rbc_line::Line;
use rbc_model::Report;

/// Drops the legs of a line that lie ahead of both the leg that the report tells and the leg with the metre before a
/// place. It takes no memory.
pub(crate) fn cut_ahead(line: &mut Line, report: &Report, place: u32)
    ensures track { line.new.track ≡ line.old.track }
    ensures legs { line.new.legs ≡ through line.old.track report.now place line.old.legs }
{
    let Some(group) = line.track().group(report.group()) else {
        return;
    };
    let leg = leg_told(&group, report);
    let kept = (legs_before(line.legs(), leg) + 1).max(line.legs_begun_before(place));
    let legs = line.legs().len();
    if kept < legs {
        line.cut_back(legs - kept);
    }
}
