//! Whether a block certifies its profile.

ghost use Rattle.std.specs.Prelude.{◌≡◌, [], ◌==◌, Some};
ghost use Rattle.rbc_model.specs.Answers.{AnswersOrMemory};
ghost use Rattle.rbc_model.specs.CheckText.{verdict_of, with_loss, rows_of, speed_of};
ghost use Rattle.rbc_model.specs.Levels.{speed_levels, grade_levels};
ghost use Rattle.rbc_model.specs.PriceChecks.{price_check, last_price};
ghost use Rattle.rbc_model.specs.Profiles.{profile_of};
ghost use Rattle.rbc_table_laws.specs.PriceRows.{prices_of};
ghost use Rattle.rbc_words.specs.StepsLines.{request_view};
ghost use Rattle.rbc_checks.specs.Verdicts.{rows_verdict, steps_verdict, ArePartsOf};

use crate::lines::ToldProfile;
use crate::table::{ToldLevel, price_at, steps_of};
use crate::{Rows, Spare};
use rbc_model::scales::unit_of;
use rbc_model::{OrMemory, ProfileFault, Reason};
use rbc_price::{Priced, Prices, check, column_count};
use rbc_steps::{Grade, Level, Profile, Runs, Speed};
use rbc_words::StepsRequest;
use std::alloc::Global;

/// A track with the limit of steps, and the steps of a profile, if they are one.
#[derive(Drop)]
pub(crate) struct Parts<V: Level> {
    limit: usize,
    track: Runs<V>,
    steps: Vec<(u32, V)>,
}

/// Whether the rows are prices that show that the profile of speeds is a best one for the track, and that it loses
/// what is told.
///
/// # Errors
///
/// - `Refused`: the first reason why not. Runs that make no track, steps that make no profile, and rows that don't
///   count from 1 are `Shape`. A loss that is not the last price is `NotAttained`.
/// - `Memory`
pub(crate) fn certify_speeds(
    spare: &mut Spare,
    request: StepsRequest<Speed>,
    profile: &ToldProfile,
    rows: &Rows,
) -> Result<(), OrMemory<Reason>>
    ensures { AnswersOrMemory result (verdict_of speed_levels speed_of (request_view request)
        profile.now.steps.items profile.now.loss rows.now) }
{
    let parts = parts_of(spare.speeds(), request, profile.steps.as_slice())?;
    // A profile is large, and stays where it is.
    let made = Profile::new(parts.steps.as_slice(), parts.track.end());
    let certified = certify(spare.alloc(), &parts, &made, profile.loss, rows);
    spare.keep_speeds(parts.steps);
    certified
}

/// Whether the rows are prices that show that the profile of gradients is a best one for the track, and that it loses
/// what is told.
///
/// # Errors
///
/// The reasons of [`certify_speeds`].
pub(crate) fn certify_grades(
    spare: &mut Spare,
    request: StepsRequest<Grade>,
    profile: &ToldProfile,
    rows: &Rows,
) -> Result<(), OrMemory<Reason>>
    ensures { AnswersOrMemory result (verdict_of grade_levels (λ value. Some value) (request_view request)
        profile.now.steps.items profile.now.loss rows.now) }
{
    let parts = parts_of(spare.grades(), request, profile.steps.as_slice())?;
    // A profile is large, and stays where it is.
    let made = Profile::new(parts.steps.as_slice(), parts.track.end());
    let certified = certify(spare.alloc(), &parts, &made, profile.loss, rows);
    spare.keep_grades(parts.steps);
    certified
}

/// The track of a request, and the steps told, as values of its kind, which are put into an empty list.
///
/// # Errors
///
/// - `Refused`: `Shape`, where the runs make no track, or the kind has no such value.
/// - `Memory`
fn parts_of<V: ToldLevel>(
    room: Vec<(u32, V)>,
    request: StepsRequest<V>,
    steps: &[(u32, i64)],
) -> Result<Parts<V>, OrMemory<Reason>>
    requires { room.items ≡ [] }
    ensures { ArePartsOf V.levels V.value_of (request_view request) steps.now result }
{
    let StepsRequest { limit, runs, end } = request;
    let Ok(track) = Runs::new(runs, end) else {
        return Err(OrMemory::Refused(Reason::Shape));
    };
    let Some(steps) = steps_of::<V>(room, steps)? else {
        return Err(OrMemory::Refused(Reason::Shape));
    };
    Ok(Parts {
        limit,
        track,
        steps,
    })
}

/// Whether the steps are a profile, and the rows are prices that show that it is a best one for the track, and that it
/// loses what is told. `made` is the profile of the steps up to the track's end.
///
/// # Errors
///
/// As of [`certify_speeds`].
fn certify<V: Priced>(
    alloc: Global,
    parts: &Parts<V>,
    made: &Result<Profile<V>, ProfileFault>,
    loss: u64,
    rows: &Rows,
) -> Result<(), OrMemory<Reason>>
    requires { made.now ≡ profile_of V.levels parts.now.track.end parts.now.steps.items }
    ensures { AnswersOrMemory result (steps_verdict V.levels parts.now.limit parts.now.track parts.now.steps.items
        loss (rows_of 1 rows.now)) }
{
    match made {
        Ok(profile) => certify_profile(alloc, parts, profile, loss, rows),
        Err(_) => Err(OrMemory::Refused(Reason::Shape)),
    }
}

/// Whether the rows are prices that show that the profile is a best one for the track, and that it loses what is told.
///
/// # Errors
///
/// As of [`certify_speeds`].
fn certify_profile<V: Priced>(
    alloc: Global,
    parts: &Parts<V>,
    profile: &Profile<V>,
    loss: u64,
    rows: &Rows,
) -> Result<(), OrMemory<Reason>>
    ensures { AnswersOrMemory result (rows_verdict V.levels parts.now.limit parts.now.track profile.now
        loss (rows_of 1 rows.now)) }
{
    let Some(prices) = rows.table() else {
        return Err(OrMemory::Refused(Reason::Shape));
    };
    match check_told(alloc, parts, profile, prices, loss) {
        Ok(()) => Ok(()),
        Err(reason) => Err(OrMemory::Refused(reason)),
    }
}

/// The check of a price table, and that the loss told is its last price.
///
/// # Errors
///
/// The first reason; `NotAttained` also where the loss told is not the last price, before `Steps`.
fn check_told<V: Priced>(
    alloc: Global,
    parts: &Parts<V>,
    profile: &Profile<V>,
    prices: &Prices,
    loss: u64,
) -> Result<(), Reason>
    ensures { result ≡ with_loss
        (loss == last_price V.levels parts.now.limit parts.now.track (prices_of prices.now.items))
        (price_check V.levels parts.now.limit parts.now.track profile.now (prices_of prices.now.items)) }
{
    let end = parts.track.end();
    if end % unit_of(end) != 0 {
        return Err(Reason::Shape);
    }
    let columns = column_count(&parts.track);
    let is_last = loss == price_at(prices, parts.limit.min(columns), columns);
    with_loss(
        check(alloc, &parts.track, parts.limit, profile, prices),
        is_last,
    )
}

/// A check, and whether the loss told is the last price.
fn with_loss(checked: Result<(), Reason>, is_last: bool) -> Result<(), Reason>
    ensures { result ≡ with_loss is_last checked }
{
    match checked {
        Ok(()) | Err(Reason::Steps) if !is_last => Err(Reason::NotAttained),
        checked => checked,
    }
}
