//! What a train holds.

ghost use Rattle.std.specs.Prelude.{◌≡◌, IfSome, option_map};
ghost use Rattle.rbc_scene_reading.specs.Reading.{where_held};

use crate::stage::Standing;
use crate::standing::place_at;
use rbc_scene::{Places, Train};

/// The train with what it holds at these distances from its group, if that lies on its line and not behind its rear.
pub(crate) fn with_held(standing: Standing, from: i64, to: i64) -> Option<Train>
    ensures train { option_map (λ train. train.train) result ≡ where_held standing.track standing.train from to }
    ensures track { IfSome result (λ train. train.track ≡ standing.track) }
{
    let Standing {
        report,
        line,
        origin,
        rear,
        front,
    } = standing;
    let length = line.length();
    let from = place_at(length, u64::from(origin), from)?;
    let to = place_at(length, u64::from(origin), to)?;
    if from < rear || to < from {
        return None;
    }
    let places = Places {
        origin,
        rear,
        front,
        from,
        to,
    };
    Some(Train::told(&report, line, places))
}
