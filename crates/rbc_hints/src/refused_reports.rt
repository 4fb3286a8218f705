//! Reports that are refused.

use crate::locks::leg_name;
use rbc_model::{Direction, GroupName, Leg, Memory, Report};
use rbc_track::{LegName, Track};
use std::alloc::Global;
use std::fmt::{self, Display};

/// How many groups are listed at once.
const LISTED: usize = 8;

/// A group as it is written.
#[derive(Clone, Copy)]
struct Group(GroupName);

impl Display for Group {
    fn fmt<W: fmt::Write>(&self, f: &mut fmt::Formatter<W>) -> fmt::Result {
        let (country, number) = (self.0.country(), self.0.number());
        write!(f, "{country}/{number}")
    }
}

/// The leg along which a report's train runs, by its group and direction.
fn leg_told(track: &Track, report: &Report) -> Option<LegName> {
    let group = track.group(report.group())?;
    let direction = match (group.nominal, report.nominal()) {
        (nominal, true) => nominal,
        (Direction::Rising, false) => Direction::Falling,
        (Direction::Falling, false) => Direction::Rising,
    };
    leg_name(
        track,
        Leg {
            section: group.section,
            direction,
        },
    )
}

/// That the track has no such group, and which it has.
///
/// # Errors
///
/// The allocator refused memory.
pub(crate) fn unknown_group(
    alloc: Global,
    track: &Track,
    report: &Report,
) -> Result<String, Memory> {
    let group = Group(report.group());
    let mut line = format!(in alloc; "the track has no group {group}, but")?;
    for (index, listed) in track.groups().iter().take(LISTED).enumerate() {
        let comma = if index == 0 { "" } else { "," };
        let listed = Group(listed.name);
        line.push_str(format!(in alloc; "{comma} {listed}")?.as_str())?;
    }
    let more = track.groups().len().saturating_sub(LISTED);
    if more > 0 {
        line.push_str(format!(in alloc; " and {more} more")?.as_str())?;
    }
    Ok(line)
}

/// That the train's way does not lead to where it reports from.
///
/// # Errors
///
/// The allocator refused memory.
pub(crate) fn offline(
    alloc: Global,
    track: &Track,
    report: &Report,
) -> Result<Option<String>, Memory> {
    let Some(leg) = leg_told(track, report) else {
        return Ok(None);
    };
    let (train, group) = (report.train().number(), Group(report.group()));
    Ok(Some(format!(in alloc;
        "the locked way of train {train} does not lead to {leg}, where it passes {group}"
    )?))
}

/// That the locks don't lead to where the train may stand.
///
/// # Errors
///
/// The allocator refused memory.
pub(crate) fn unplaced(
    alloc: Global,
    track: &Track,
    report: &Report,
) -> Result<Option<String>, Memory> {
    let Some(leg) = leg_told(track, report) else {
        return Ok(None);
    };
    let group = Group(report.group());
    let distance = i64::from(report.distance().metres());
    let rear = distance - i64::from(report.over()) - i64::from(report.length());
    let front = distance + i64::from(report.under());
    Ok(Some(format!(in alloc;
        "the locks have to lead along {leg} from {rear} to {front} m of {group}, where the train may stand"
    )?))
}

/// That the train's front may lie too far from its group.
///
/// # Errors
///
/// The allocator refused memory.
pub(crate) fn too_far(alloc: Global, track: &Track, report: &Report) -> Result<String, Memory> {
    let front = u64::from(report.distance().metres()) + u64::from(report.under());
    let farthest = track.farthest_end();
    Ok(format!(in alloc; "DIST and UNDER are {front} m, and {farthest} m at most are expected")?)
}
