//! The candidate of a view.

ghost use Rattle.std.specs.Prelude.{◌≡◌, IfOk};
ghost use Rattle.rbc_grant_laws.specs.Candidates.{IsCandidateOf};
ghost use Rattle.rbc_grant.specs.Candidates.{HasChosenProfiles};

use super::reductions::reduced;
use super::{Candidate, Made};
use crate::{Losses, Offer, PriceTables};
use rbc_model::Memory;
use rbc_packet::{Authority, write_message};
use rbc_reach::View;
use std::alloc::Global;
use std::sync::Arc;
use std::thread::Threads;

/// The candidate of a view at a version of the history: its time, group, direction, end and obstacle are the view's,
/// and both its profiles are the chosen ones for the view's speeds, gradients and limits of steps. The runtime serves
/// the reductions, which compute long rows of prices in threads.
///
/// # Errors
///
/// [`Memory`] where there is none for the reductions, the message or the offer.
pub fn candidate(
    rt: &(impl Threads + Sync),
    alloc: Global,
    view: View,
    version: u64,
) -> Result<Candidate, Memory>
    ensures view { IfOk result (λ c. c.view ≡ view) }
    ensures version { IfOk result (λ c. c.version ≡ version) }
    ensures best { IfOk result (λ c. IsCandidateOf view c.grant) }
    ensures chosen { IfOk result (λ c. HasChosenProfiles view c.grant) }
{
    let (speeds, grades) = reduced(rt, alloc, &view);
    let speeds = speeds?;
    let grades = grades?;
    let (time, group, nominal) = (view.time(), view.group(), view.nominal());
    // Both profiles end where the view does, and a message can give them.
    let authority = Authority::new(time, group, nominal, speeds.profile, grades.profile).unwrap();
    let message = write_message(alloc, &authority)?;
    let offer = Arc::new(alloc, Offer::of(&view, authority))?;
    let made = Made {
        view,
        version,
        offer,
        message,
        losses: Losses {
            speeds: speeds.loss,
            grades: grades.loss,
        },
        prices: PriceTables {
            speeds: speeds.prices,
            grades: grades.prices,
        },
    };
    Ok(Candidate {
        made: Box::new(alloc, made)?,
    })
}
