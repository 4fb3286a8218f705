//! Where a train stands.

ghost use Rattle.std.specs.Prelude.{◌≡◌, ◌≤◌, ◌<◌, IfNone, IfOk, IfSome, IsErrOf, IsTrue, ℕ, Some, option_map};
ghost use Rattle.std.specs.Arc.{arc_value};
ghost use Rattle.rbc_model.specs.Answers.{AnswersAs};
ghost use Rattle.rbc_model.specs.Placing.{leg_told};
ghost use Rattle.rbc_good_laws.specs.Good.{is_good_line};
ghost use Rattle.rbc_scene_reading.specs.Reading.{place_at, stands_on_line, where_told};
ghost use Rattle.rbc_scene_reading.specs.Standings.{is_extent_told, origin_told};

use crate::fault::SceneFault;
use crate::line_test::is_good_line;
use crate::stage::{Running, Standing};
use rbc_model::{BaliseGroup, Direction, Leg, OrMemory, Report};
use rbc_scene::Line;
use rbc_track::{Track, reverse};
use std::alloc::Global;
use std::sync::Arc;

/// The place at a distance from the group, in metres from the line's start, if it does not lie beyond the line's length.
pub(crate) fn place_at(length: u32, origin: u64, distance: i64) -> Option<u32>
    ensures place { IfSome result (λ place. (place_at origin distance ≡ Some place) × (place ≤ length)) }
    ensures none { IfNone result ((place : ℕ) → place_at origin distance ≡ Some place → length < place) }
{
    let place = i128::from(distance) + i128::from(origin);
    if 0 <= place && place <= i128::from(length) {
        Some(place as u32)
    } else {
        None
    }
}

/// The direction in which a train with this report from the group runs along the group's section.
fn direction_told(group: &BaliseGroup, report: &Report) -> Direction
    ensures { result ≡ (leg_told group.now report.now).direction }
{
    let nominal = Leg {
        section: group.section,
        direction: group.nominal,
    };
    if report.nominal() {
        nominal.direction
    } else {
        reverse(nominal).direction
    }
}

/// The place of the group that the report tells, if the line has its section in the direction told.
fn origin_told(line: &Line, report: &Report) -> Option<u32>
    ensures { result ≡ origin_told line.now.track line.now.legs report.now }
{
    // A track is sound: its groups stand on its sections.
    line.known();
    let group = line.track().group(report.group())?;
    line.place_of(&group, direction_told(&group, report))
}

/// Whether a train whose group stands at the origin has the extent that its report tells, and its front lies no farther from
/// the group than an end may.
fn is_extent_told(track: &Track, report: &Report, origin: u32, rear: u32, front: u32) -> bool
    ensures { result ≡ is_extent_told track.now report.now origin rear front }
{
    report.known();
    let distance = u64::from(report.distance().metres());
    let under = u64::from(report.under());
    let told = u64::from(origin) + distance;
    u64::from(front) == told + under
        && u64::from(rear) + (u64::from(report.over()) + u64::from(report.length())) == told
        && distance + under <= u64::from(track.farthest_end())
}

/// The train on its line, if it stands at these distances from its group, and where its report tells.
fn standing_on(line: Line, running: &Running, rear: i64, front: i64) -> Option<Standing>
    requires { line.legs ≡ running.now.legs }
    ensures train { option_map (λ standing. standing.train) result ≡ where_told line.track running.now rear front }
    ensures track { IfSome result (λ standing. standing.track ≡ line.track) }
{
    line.known();
    let length = line.length();
    let report = running.report;
    let origin = origin_told(&line, &report)?;
    let rear = place_at(length, running.origin, rear)?;
    let front = place_at(length, running.origin, front)?;
    if u64::from(origin) != running.origin {
        return None;
    }
    if !is_extent_told(line.track(), &report, origin, rear, front) {
        return None;
    }
    Some(Standing {
        report,
        line,
        origin,
        rear,
        front,
    })
}

/// The train whose line is whole, at these distances from its group.
///
/// # Errors
///
/// - `NoLine`: its legs make no line. This is told before any memory is asked for.
/// - `NotAsTold`: it does not stand on its line where its report tells.
/// - `Memory`, where there is none for the line.
pub(crate) fn stands_on_line(
    alloc: Global,
    track: &Arc<Track>,
    running: &Running,
    rear: i64,
    front: i64,
) -> Result<Standing, OrMemory<SceneFault>>
    ensures train { AnswersAs (λ standing. standing.train) result
        (stands_on_line (arc_value track.now) running.now rear front) }
    ensures track { IfOk result (λ standing. standing.track ≡ arc_value track.now) }
    ensures memory { IsErrOf result OrMemory.Memory → IsTrue (is_good_line (arc_value track.now) running.now.legs) }
{
    let train = running.report.train();
    if !is_good_line(track, &running.legs) {
        return Err(OrMemory::Refused(SceneFault::NoLine(train)));
    }
    let line = Line::along(alloc, track, &running.legs)?;
    match standing_on(line, running, rear, front) {
        Some(standing) => Ok(standing),
        None => Err(OrMemory::Refused(SceneFault::NotAsTold(train))),
    }
}
