//! What was told or asked in a session and rests, until all of it is entered.

ghost use Rattle.std.specs.Prelude.{◌≡◌, ◌≤◌, ◌+◌, ◌||◌, ◌++◌, ◌∷◌, [], ℕ, List, All, IfSome, MatchOption, true, false, drop, is_err, length, MatchBool};
ghost use Rattle.std.specs.VecDeque.{deque_len};
ghost use Rattle.rbc_model.specs.Sessions.{Prints};
ghost use Rattle.rbc_sessions.specs.Due.{AreSaidOf, CanBeSaid, IsSaidOf};
ghost use Rattle.rbc_sessions.specs.Dues.{AskedSo, ToldSo};
ghost use Rattle.rbc_sessions.specs.Resting.{IsPrepared, command_of, commands_resting};
ghost use Rattle.rbc_sessions.specs.Sittings.{Enters, StaysKept};
ghost use Rattle.rbc_sessions.specs.declared.batch.Rested.TheVariants.{Told as RestedTold};

use crate::context::reply_to;
use crate::dues::Dues;
use crate::{Keeper, SessionContext, Sitting};
use rbc_model::{OrMemory, Told, TrainId};
use rbc_replies::{SessionRefusal, SessionReply, print};
use rbc_session_laws::Command;
use rbc_streams::{Sink, WriteFailed};
use rbc_sweep::{AskFault, DeskName, Gate, Granted, Track};
use std::alloc::Global;
use std::collections::VecDeque;
use std::marker::Model;
use std::sync::Wait;
use std::thread::Threads;

/// How many lines of a session may rest: all others wait for the desk while these are entered.
pub const MOST_RESTING: usize = 64;

/// What a line that rests asks the desk for.
#[derive(Clone, Copy)]
pub(crate) enum Rested {
    /// Something was told.
    Told(Told),
    /// A train asked for an authority.
    Asked(TrainId),
}

/// What rests, and the text of its request, ready to be kept.
#[derive(Drop)]
pub(crate) struct Resting<T> {
    pub(crate) rested: Rested,
    pub(crate) text: T,
}

/// The reply that is due to what was told.
#[derive(Clone, Copy)]
pub(crate) enum ToldReply {
    /// It is accepted, and the history has this number of entries with it.
    Accepted(u64),
    /// It is refused.
    Refused(SessionRefusal),
}

/// What is due to a train that asked: its answer.
#[derive(Drop)]
pub(crate) struct AskedReply {
    pub(crate) train: TrainId,
    pub(crate) answer: Result<Granted, OrMemory<AskFault>>,
}

/// What rests, in order, and room for the replies that are due to it then. Contracts see it as what rests.
#[derive(Drop)]
pub(crate) struct Batch<T> {
    resting: VecDeque<Resting<T>>,
    dues: Dues<ToldReply, AskedReply>,
}

impl<T> Model for Batch<T> {
    ghost use Rattle.std.specs.Prelude.{◌≡◌, ◌≤◌, List, []};
    ghost use Rattle.std.specs.VecDeque.{deque_len};
    ghost use Rattle.rbc_sessions.specs.declared.batch.Resting.{Resting};

    ghost Value = { List (Resting T) };

    ghost view = { λ r. r.resting.items };

    ghost invariant = { λ r. (r.dues.dues ≡ []) × (deque_len r.resting ≤ r.dues.room) };
}

/// What a line that asks for this may rest as: none, where it is neither told nor asks for an authority.
pub(crate) fn rested_of(command: Command) -> Option<Rested>
    ensures { IfSome result (λ rested. command_of rested ≡ command) }
{
    match command {
        Command::Event(told) => Some(Rested::Told(told)),
        Command::Authority(train) => Some(Rested::Asked(TrainId::new(train))),
        Command::Nothing | Command::Show(_) => None,
    }
}

/// Prints the reply to what was told.
///
/// # Errors
///
/// The writer failed.
fn print_told<W: Sink>(track: &Track, reply: ToldReply, writer: &mut W) -> Result<(), WriteFailed>
    requires going { W.failed writer.old ≡ false }
    requires due { CanBeSaid track.now (ToldSo reply) }
    ensures { (text : List ℕ) × IsSaidOf track.now (ToldSo reply) text
        × Prints (W.written writer.old) (W.written writer.new) (W.failed writer.new) text result }
{
    let reply = match reply {
        ToldReply::Accepted(version) => SessionReply::Accepted(version),
        ToldReply::Refused(refusal) => SessionReply::Refused(refusal),
    };
    print(track, &reply, writer)
}

/// Prints the reply to a train that asked.
///
/// # Errors
///
/// The writer failed.
fn print_asked<W: Sink>(
    track: &Track,
    asked: &AskedReply,
    writer: &mut W,
) -> Result<(), WriteFailed>
    requires going { W.failed writer.old ≡ false }
    requires due { CanBeSaid track.now (AskedSo asked.now) }
    ensures { (text : List ℕ) × IsSaidOf track.now (AskedSo asked.now) text
        × Prints (W.written writer.old) (W.written writer.new) (W.failed writer.new) text result }
{
    print(track, &reply_to(track, asked.train, &asked.answer), writer)
}

/// Prints the replies that are due, one behind another.
///
/// # Errors
///
/// The writer failed.
fn print_all<W: Sink>(
    track: &Track,
    dues: &Dues<ToldReply, AskedReply>,
    writer: &mut W,
) -> Result<(), WriteFailed>
    requires going { W.failed writer.old ≡ false }
    requires dues { All (CanBeSaid track.now) dues.now.dues }
    requires some { (text : List ℕ) × AreSaidOf track.now dues.now.dues text }
    ensures { (text : List ℕ) × AreSaidOf track.now dues.now.dues text
        × Prints (W.written writer.old) (W.written writer.new) (W.failed writer.new) text result }
{
    let (replies, mut answers) = dues.parts();
    for reply in replies {
        match reply {
            Some(told) => print_told(track, *told, writer)?,
            None => {
                if let Some((asked, more)) = answers.split_first() {
                    print_asked(track, asked, writer)?;
                    answers = more;
                }
            }
        }
    }
    Ok(())
}

/// Prints the replies that are due, once all is kept that led to the receipts at a sitting, but for this number of them, which it had before.
///
/// # Errors
///
/// It could not be kept, and nothing is printed; or the writer failed.
fn say_all<'a, L: DeskName, K: Keeper<L>, G: Gate, R: Wait, W: Sink>(
    context: &SessionContext<'a, L, K, G, R>,
    sitting: &mut Sitting<L, K::Committer>,
    had: usize,
    dues: &Dues<ToldReply, AskedReply>,
    writer: &mut W,
) -> Result<(), WriteFailed>
    requires going { W.failed writer.old ≡ false }
    requires whole { sitting.old.has_failed ≡ false }
    requires had { had ≤ length sitting.old.seat.receipts }
    requires dues { All (CanBeSaid context.now.track.now) dues.now.dues }
    requires some { (text : List ℕ) × AreSaidOf context.now.track.now dues.now.dues text }
    ensures seat { sitting.new.seat ≡ sitting.old.seat }
    ensures stays { StaysKept K.kept sitting.old.committer sitting.new.committer }
    ensures kept { sitting.new.has_failed ≡ false
        → All (λ receipt. K.kept sitting.new.committer receipt.place) (drop had sitting.old.seat.receipts) }
    ensures said { sitting.new.has_failed ≡ false → (text : List ℕ) × AreSaidOf context.now.track.now dues.now.dues text
        × Prints (W.written writer.old) (W.written writer.new) (W.failed writer.new) text result }
    ensures why { sitting.new.has_failed ≡ true → K.failed sitting.new.committer }
    ensures unsaid { sitting.new.has_failed ≡ true → (writer.new ≡ writer.old) × (is_err result ≡ true) }
{
    match context.keep_behind(sitting, had) {
        Ok(()) => print_all(context.track, dues, writer),
        Err(_) => Err(WriteFailed),
    }
}

/// Takes what was told in front of what rests, and its text, if something was.
pub(crate) fn pop_told<T: Drop>(resting: &mut VecDeque<Resting<T>>) -> Option<(Told, T)>
    ensures taken { MatchOption result (resting.new.items ≡ resting.old.items)
        (λ one. resting.old.items ≡ record { rested = RestedTold one.0; text = one.1 } ∷ resting.new.items) }
    ensures shorter { MatchOption result (deque_len resting.new ≡ deque_len resting.old)
        (λ one. deque_len resting.new + 1 ≡ deque_len resting.old) }
{
    let told = match resting.front() {
        Some(
            Resting {
                rested: Rested::Told(told),
                ..
            },
        ) => *told,
        _ => return None,
    };
    match resting.pop_front() {
        Some(one) => Some((told, one.text)),
        None => None,
    }
}

impl<T: Drop> Batch<T> {
    /// Nothing rests.
    pub(crate) fn new(alloc: Global) -> Batch<T>
        ensures { result ≡ [] }
    {
        Batch {
            resting: VecDeque::new(alloc),
            dues: Dues::new(alloc),
        }
    }

    /// How many lines rest.
    pub(crate) fn len(&self) -> usize
        ensures { result ≡ length self.now }
    {
        self.resting.len()
    }

    /// Lets what a line asks for rest behind the others, and tells whether there was memory for it.
    pub(crate) fn push(&mut self, one: Resting<T>) -> bool
        ensures { MatchBool result (self.new ≡ self.old ++ one ∷ []) (self.new ≡ self.old) }
    {
        let Batch { resting, dues } = self;
        if !dues.reserve(resting.len() + 1) || resting.reserve(1).is_err() {
            return false;
        }
        resting.push_back_reserved(one);
        true
    }

    /// Enters what rests at a sitting, in order: what was told between two that ask in one hold of the desk's lock. It is published with the last
    /// hold, unless more comes. The replies are printed once all that was entered is kept.
    ///
    /// # Errors
    ///
    /// What was entered could not be kept, and nothing is printed; or the writer failed. All is entered.
    pub(crate) fn enter<
        'a,
        L: DeskName,
        K: Keeper<L, Text = T>,
        G: Gate,
        R: Wait,
        H: Threads + Sync,
        W: Sink,
    >(
        &mut self,
        rt: &H,
        alloc: Global,
        context: &SessionContext<'a, L, K, G, R>,
        sitting: &mut Sitting<L, K::Committer>,
        more: bool,
        writer: &mut W,
    ) -> Result<(), WriteFailed>
        requires going { W.failed writer.old ≡ false }
        requires whole { sitting.old.has_failed ≡ false }
        requires each { All (IsPrepared L.opened.track K.says) self.old }
        ensures none_rests { self.new ≡ [] }
        ensures why { sitting.new.has_failed ≡ true → K.failed sitting.new.committer }
        ensures entered { (text : List ℕ) × Enters K.kept sitting.old (commands_resting self.old) text sitting.new
            × Prints (W.written writer.old) (W.written writer.new) (sitting.new.has_failed || W.failed writer.new) text result }
    {
        let Batch { resting, dues } = self;
        let had = sitting.seat.receipts().len();
        context.enter_all(rt, alloc, &mut sitting.seat, resting, more, dues);
        let said = say_all(context, sitting, had, dues, writer);
        dues.clear();
        said
    }
}
