//! Seats that a sweep is made with are told what the sessions before it were told.

ghost use Rattle.std.specs.Prelude.{◌≡◌, ◌<◌, ℕ, length, slice_index_or, vec_len};
ghost use Rattle.std.specs.List.{AllZip};
ghost use Rattle.rbc_sessions.specs.Seats.{Seated};
ghost use Rattle.rbc_server.specs.Serving.{IsBrought};

use rbc_sessions::{DeskName, Seat};

/// Tells a seat all that these others were told.
#[tactic(auto, using(crate::proofs::BringingLemmas::none_brought))]
pub(crate) fn bring<L: DeskName>(seat: &mut Seat<L>, others: &[Seat<L>])
    ensures { IsBrought others.now seat.old seat.new }
{
    for other in others {
        seat.hear(other);
    }
}

/// Tells each of these seats all that those others were told.
fn bring_each<L: DeskName>(seats: &mut [Seat<L>], others: &[Seat<L>])
    ensures { (i : ℕ) (d : Seated) → i < length seats.old
        → IsBrought others.now (slice_index_or seats.old i d) (slice_index_or seats.new i d) }
{
    for seat in seats.iter_mut() {
        bring(seat, others);
    }
}

/// Tells each of these seats, which are owned, all that those others were told.
pub(crate) fn bring_all<L: DeskName>(mut seats: Vec<Seat<L>>, others: &[Seat<L>]) -> Vec<Seat<L>>
    ensures brought { AllZip (IsBrought others.now) seats.items result.items }
    ensures length { vec_len result ≡ vec_len seats }
{
    bring_each(seats.as_mut_slice(), others);
    seats
}
