//! Whether the receipts of all seats are the history.

ghost use Rattle.std.specs.Prelude.{◌≡◌, ◌+◌, ◌++◌, ◌-◌, ◌≤◌, [], All, List, length, vec_len};
ghost use Rattle.rbc_model.specs.Histories.{Receipt};
ghost use Rattle.rbc_snap.specs.Later.{IsLater};
ghost use Rattle.rbc_desk.specs.Closing.{all_receipts, AreMarked, FindsAll, Finds};

use crate::{DeskName, Seat};
use rbc_snap::{Press, Receipt, Record};
use std::sync::Wait;
use std::sync::ledger::Share;

/// Whether the receipt is at its place, for which no other was found yet. If so, it is marked as found.
fn find(log: &Record, start: u64, marks: &mut Vec<bool>, receipt: &Receipt) -> bool
    requires { vec_len marks.old + start ≡ length log.now.entries }
    ensures length { vec_len marks.new ≡ vec_len marks.old }
    ensures finds { (earlier : List Receipt) → AreMarked start earlier marks.old.items
        → Finds log.now.entries start earlier receipt.now marks.new.items result }
{
    let place = receipt.place();
    let Some(entry) = log.entry(place) else {
        return false;
    };
    if place < start || !receipt.is_for(entry) {
        return false;
    }
    let index = (place - start) as usize;
    let is_new = !marks[index];
    marks[index] = true;
    is_new
}

/// Finds the receipts of a seat, up to the first that is not at its place.
fn find_all(
    log: &Record,
    start: u64,
    marks: &mut Vec<bool>,
    receipts: Vec<Receipt>,
) -> Option<Receipt>
    requires { vec_len marks.old + start ≡ length log.now.entries }
    ensures length { vec_len marks.new ≡ vec_len marks.old }
    ensures finds { (earlier : List Receipt) → AreMarked start earlier marks.old.items
        → FindsAll log.now.entries start earlier receipts.items marks.new.items result }
{
    for receipt in receipts {
        if !find(log, start, marks, &receipt) {
            return Some(receipt);
        }
    }
    None
}

/// Finds the receipts of one seat more, unless one of those before it is not at its place.
fn find_more(
    log: &Record,
    start: u64,
    marks: &mut Vec<bool>,
    misplaced: Option<Receipt>,
    receipts: Vec<Receipt>,
) -> Option<Receipt>
    requires { vec_len marks.old + start ≡ length log.now.entries }
    ensures length { vec_len marks.new ≡ vec_len marks.old }
    ensures finds { (earlier : List Receipt) → FindsAll log.now.entries start [] earlier marks.old.items misplaced
        → FindsAll log.now.entries start [] (earlier ++ receipts.items) marks.new.items result }
{
    match misplaced {
        Some(found) => Some(found),
        None => find_all(log, start, marks, receipts),
    }
}

/// Adds the share of a seat to the others, and gives its receipts. What the press publishes goes on from all that the seat
/// was told.
fn take_in<L: DeskName, R: Wait>(
    rt: &R,
    press: &Press<L>,
    all: &mut Share<L>,
    seat: Seat<L>,
) -> Vec<Receipt>
    ensures parts { all.new.parts ≡ all.old.parts + 1 }
    ensures amount { all.new.amount ≡ all.old.amount + length seat.receipts }
    ensures told { IsLater seat.told press.now.told }
    ensures receipts { result.items ≡ seat.receipts }
{
    let Seat {
        receipts,
        share,
        mut eye,
        ..
    } = seat;
    press.bring(rt, &mut eye);
    all.merge(share);
    receipts
}

/// Puts the shares of all seats into one, and finds their receipts, up to the first that is not at its place: among the
/// last entries, for each of which there is a mark. What the press publishes goes on from all that each seat was told.
pub(crate) fn take_all<L: DeskName, R: Wait>(
    rt: &R,
    log: &Record,
    marks: &mut Vec<bool>,
    press: &Press<L>,
    all: &mut Share<L>,
    seats: Vec<Seat<L>>,
) -> Option<Receipt>
    requires marks { vec_len marks.old ≤ length log.now.entries }
    requires unmarked { AreMarked (length log.now.entries - vec_len marks.old) [] marks.old.items }
    requires none { all.old.parts ≡ 0 }
    requires empty { all.old.amount ≡ 0 }
    ensures finds { FindsAll log.now.entries (length log.now.entries - vec_len marks.old) [] (all_receipts seats.items)
        marks.new.items result }
    ensures parts { all.new.parts ≡ length seats.items }
    ensures amount { all.new.amount ≡ length (all_receipts seats.items) }
    ensures most { all.new.parts ≤ L.parts }
    ensures told { All (λ seat. IsLater seat.told press.now.told) seats.items }
{
    let start = log.version() - marks.len() as u64;
    let mut misplaced = None;
    for seat in seats {
        let receipts = take_in(rt, press, all, seat);
        misplaced = find_more(log, start, marks, misplaced, receipts);
    }
    // There are no more parts than the ledger has.
    let none = all.empty();
    all.merge(none);
    misplaced
}
