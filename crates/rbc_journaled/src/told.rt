//! What a seat was told, as the group commit of its desk hears it.

ghost use Rattle.std.specs.Prelude.{◌≡◌, ℕ, List};
ghost use Rattle.rbc_journaled.specs.Entries.{TellsEntry};
ghost use Rattle.rbc_sessions.specs.Later.{IsLater};

use crate::RequestLine;
use crate::note::note_in;
use rbc_group_commit::{EntryLine, ToldHistory};
use rbc_sessions::{DeskName, Receipt, Seat, Sight};
use std::marker::{Model, PhantomData};
use std::sync::Wait;

/// What was told of the history of a desk. Contracts see that history.
#[derive(Drop)]
pub struct SeatTold<L: DeskName> {
    sight: Sight,
    of: PhantomData<L>,
}

impl<L: DeskName> Model for SeatTold<L> {
    ghost use Rattle.std.specs.Prelude.{◌≡◌};
    ghost use Rattle.rbc_sessions.specs.Records.{HistoryOnTrack};

    ghost Value = { HistoryOnTrack };

    ghost view = { λ t. t.sight.history };

    ghost invariant = { λ t. t.sight.book ≡ L.book };
}

impl<L: DeskName> SeatTold<L> {
    /// What the seat was told.
    pub fn of(seat: &Seat<L>) -> SeatTold<L>
        ensures { result ≡ seat.now.told }
    {
        SeatTold {
            sight: seat.sight(),
            of: PhantomData,
        }
    }

    /// What was seen of the desk's history.
    pub fn seen(sight: Sight) -> SeatTold<L>
        requires { sight.book ≡ L.book }
        ensures { result ≡ sight.history }
    {
        SeatTold {
            sight,
            of: PhantomData,
        }
    }

    /// Shows that the history goes on from all that was told here, where that is the earlier of the two.
    pub(crate) fn precedes<R: Wait>(&self, rt: &R, last: &SeatTold<L>)
        ensures { IsLater self.now last.now }
    {
        // The caller's is the last of all, so the first try succeeds.
        for _ in rt.forever() {
            if !last.sight.is_behind(&self.sight) {
                return;
            }
        }
        unreachable!()
    }
}

/// Goes on to the other moment, if it is a later one.
#[tactic(auto, using(crate::proofs::LaterLemmas::tells_later))]
fn go_on(sight: &mut Sight, other: &Sight)
    requires { other.now.book ≡ sight.old.book }
    ensures book { sight.new.book ≡ sight.old.book }
    ensures same { (place : ℕ) (line : List ℕ) → TellsEntry sight.old.history place line → TellsEntry sight.new.history place line }
    ensures heard { (place : ℕ) (line : List ℕ) → TellsEntry other.now.history place line → TellsEntry sight.new.history place line }
{
    if sight.is_behind(other) {
        *sight = other.again();
    }
}

impl<L: DeskName> ToldHistory for SeatTold<L> {
    ghost use Rattle.rbc_journaled.specs.Entries.{TellsEntry};

    ghost tells = { TellsEntry };

    fn hear(&mut self, other: &Self) {
        go_on(&mut self.sight, &other.sight);
    }
}

/// The line of the entry that a receipt is for, by what its seat was told, and what is noted of that entry.
#[tactic(auto, using(std::proofs::lemmas::Option::slice_get_within))]
pub fn line_of<L: DeskName>(
    seat: &Seat<L>,
    receipt: &Receipt,
    text: RequestLine,
) -> EntryLine<SeatTold<L>>
    requires { TellsEntry seat.now.told receipt.now.place text }
    ensures { result ≡ receipt.now.place }
{
    // A place is below the version, and a record has few entries.
    seat.known();
    let told = SeatTold::of(seat);
    let RequestLine { bytes, room } = text;
    let note = note_in(room, receipt);
    EntryLine::new(told, receipt.place(), bytes, note)
}
