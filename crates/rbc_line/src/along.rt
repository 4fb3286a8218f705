//! The levels along the legs of a line, one leg after the other.

ghost use Rattle.std.specs.Prelude.{◌≡◌, ℕ, ◌+◌, ◌-◌, ◌^◌, ◌<◌, ◌≤◌, length, slice_index_or, All, Option, option_map, IsTrue, IfOk, OnOk};
ghost use Rattle.rbc_line.specs.Along.{Tells, level_on, levels_from};
ghost use Rattle.rbc_model.specs.declared.limits.TheConstants.{LONGEST_TRACK};
ghost use Rattle.rbc_model.specs.declared.places.Direction.TheVariants.{Falling, Rising};
ghost use Rattle.rbc_model.specs.Lines.{line_length};
ghost use Rattle.rbc_model.specs.Profiles.{rises_from_zero, runs_over, starts_of, value_at};
ghost use Rattle.rbc_model.specs.Tracks.{metres_of};

use crate::track_level::TrackLevel;
use rbc_model::{Direction, Leg, Memory};
use rbc_steps::{Level, Runs};
use rbc_track::Track;
use std::alloc::Global;

/// The index of the run that has this metre.
fn run_at<V: Level>(runs: &[(u32, V)], offset: u32) -> usize
    requires { IsTrue (rises_from_zero (starts_of runs.now)) }
    ensures within { result < length runs.now }
    ensures begun { (d : ℕ × V) → (slice_index_or runs.now result d).0 ≤ offset }
    ensures later { (k : ℕ) (d : ℕ × V) → result < k → k < length runs.now
        → offset < (slice_index_or runs.now k d).0 }
{
    runs.partition_point(|run| run.0 <= offset) - 1
}

/// The metre at which the run of this index stops: where the next one begins, or the end where there is none.
fn stop<V: Level>(runs: &[(u32, V)], index: usize, end: u32) -> u32
    requires { index < length runs.now }
    ensures next { (d : ℕ × V) → index + 1 < length runs.now → result ≡ (slice_index_or runs.now (index + 1) d).0 }
    ensures last { length runs.now ≤ index + 1 → result ≡ end }
{
    match runs.get(index + 1) {
        Some(next) => next.0,
        None => end,
    }
}

/// Puts the levels of the metres from `low` up to `high` behind the rows, which tell of `told` metres.
fn push_rising<V: TrackLevel>(
    rows: &mut Vec<(u32, V)>,
    told: u32,
    runs: &[(u32, V)],
    low: u32,
    high: u32,
) -> Result<(), Memory>
    requires runs { IsTrue (rises_from_zero (starts_of runs.now)) }
    requires some { low < high }
    requires fits { told + (high - low) < 2 ^ 32 }
    ensures { (level : ℕ → Option V) → Tells rows.old.items told level
        → ((x : ℕ) → low ≤ x → x < high
        → level (told + (x - low)) ≡ option_map (V.met Rising) (value_at runs.now x))
        → OnOk result (Tells rows.new.items (told + (high - low)) level) }
{
    let mut reached = low;
    for index in run_at(runs, low)..runs.len() {
        if high <= reached {
            return Ok(());
        }
        rows.push((told + (reached - low), runs[index].1.met(Direction::Rising)))?;
        reached = stop(runs, index, high);
    }
    Ok(())
}

/// Puts the levels of the metres from the one below `high` down to `low` behind the rows, which tell of `told`
/// metres.
fn push_falling<V: TrackLevel>(
    rows: &mut Vec<(u32, V)>,
    told: u32,
    runs: &[(u32, V)],
    low: u32,
    high: u32,
) -> Result<(), Memory>
    requires runs { IsTrue (rises_from_zero (starts_of runs.now)) }
    requires some { low < high }
    requires fits { told + (high - low) < 2 ^ 32 }
    ensures { (level : ℕ → Option V) → Tells rows.old.items told level
        → ((x : ℕ) → low ≤ x → x < high
        → level (told + (high - 1 - x)) ≡ option_map (V.met Falling) (value_at runs.now x))
        → OnOk result (Tells rows.new.items (told + (high - low)) level) }
{
    let mut reached = high;
    for index in (0..run_at(runs, high - 1) + 1).rev() {
        if reached <= low {
            return Ok(());
        }
        let run = runs[index];
        rows.push((told + (high - reached), run.1.met(Direction::Falling)))?;
        reached = run.0;
    }
    Ok(())
}

/// Some metres of a leg: those from `low` up to `high`, counted from where the leg begins.
#[derive(Clone, Copy)]
struct LegPart {
    leg: Leg,
    low: u32,
    high: u32,
}

/// Puts the levels of a part of a leg behind the rows, which tell of `told` metres.
fn push_leg<V: TrackLevel>(
    rows: &mut Vec<(u32, V)>,
    told: u32,
    track: &Track,
    part: LegPart,
) -> Result<(), Memory>
    requires of_track { part.leg.section < length track.now.sections }
    requires some { part.low < part.high }
    requires on_leg { part.high ≤ metres_of track.now part.leg.section }
    requires fits { told + (part.high - part.low) < 2 ^ 32 }
    ensures { (level : ℕ → Option V) → Tells rows.old.items told level
        → ((x : ℕ) → part.low ≤ x → x < part.high
        → level (told + (x - part.low)) ≡ level_on V.steps_of V.met track.now part.leg x)
        → OnOk result (Tells rows.new.items (told + (part.high - part.low)) level) }
{
    let LegPart { leg, low, high } = part;
    let section = track.section_at(leg.section);
    let on_section = V::runs_of(section);
    on_section.known();
    let runs = on_section.runs();
    match leg.direction {
        Direction::Rising => push_rising(rows, told, runs, low, high),
        Direction::Falling => {
            let metres = section.length();
            push_falling(rows, told, runs, metres - high, metres - low)
        }
    }
}

/// The rows that tell the levels from one place of the legs up to another.
fn rows_along<V: TrackLevel>(
    alloc: Global,
    track: &Track,
    legs: &[Leg],
    from: u32,
    to: u32,
) -> Result<Vec<(u32, V)>, Memory>
    requires of_track { All (λ leg. leg.section < length track.now.sections) legs.now }
    requires fits { line_length track.now legs.now < 2 ^ 32 }
    requires some { from < to }
    requires on_line { to ≤ line_length track.now legs.now }
    ensures { IfOk result (λ rows.
        Tells rows.items (to - from) (levels_from V.steps_of V.met track.now legs.now from)) }
{
    let mut rows = Vec::new(alloc);
    let mut begin = 0;
    for leg in legs {
        if to <= begin {
            return Ok(rows);
        }
        let end = begin + track.metres_of(leg);
        let first = from.max(begin);
        let last = to.min(end);
        if first < last {
            let part = LegPart {
                leg: *leg,
                low: first - begin,
                high: last - begin,
            };
            push_leg(&mut rows, first - from, track, part)?;
        }
        begin = end;
    }
    Ok(rows)
}

/// The levels from one place of the legs up to another, at most 100,000 m farther on.
pub(crate) fn levels<V: TrackLevel>(
    alloc: Global,
    track: &Track,
    legs: &[Leg],
    from: u32,
    to: u32,
) -> Result<Runs<V>, Memory>
    requires of_track { All (λ leg. leg.section < length track.now.sections) legs.now }
    requires fits { line_length track.now legs.now < 2 ^ 32 }
    requires some { from < to }
    requires on_line { to ≤ line_length track.now legs.now }
    requires within_limit { to - from ≤ LONGEST_TRACK }
    ensures end { IfOk result (λ runs. runs.end ≡ to - from) }
    ensures steps { IfOk result (λ runs.
        runs.steps ≡ runs_over V.levels (to - from) (levels_from V.steps_of V.met track.now legs.now from)) }
{
    let rows = rows_along(alloc, track, legs, from, to)?;
    let runs = Runs::new(rows, to - from).unwrap();
    runs.known();
    prove!(runs.end() == to - from);
    Ok(runs)
}
