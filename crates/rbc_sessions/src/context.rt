//! What the seats of a desk have at hand, and how a line is treated from one.

ghost use Rattle.std.specs.Prelude.{◌≡◌, ◌<◌, ◌≤◌, ◌+◌, ◌∷◌, ℕ, List, [], All, true, false, Ok, IfOk, OnOk, OnErr, drop, is_err, length};
ghost use Rattle.std.specs.VecDeque.{deque_len};
ghost use Rattle.rbc_model.specs.Scenes.{Scene};
ghost use Rattle.rbc_model.specs.Sessions.{Prints};
ghost use Rattle.rbc_model.specs.Histories.{Entry};
ghost use Rattle.rbc_model.specs.declared.limits.TheConstants.{MOST_ENTRIES};
ghost use Rattle.rbc_sweep.specs.Records.{IsRight, begin_on, history_on};
ghost use Rattle.rbc_sweep.specs.Asking.{IsAnswered};
ghost use Rattle.rbc_replies.specs.Replies.{reply_text, ReplyIsWhole};
ghost use Rattle.rbc_session_laws.specs.declared.command.Command.TheVariants.{Event, Authority, Show};
ghost use Rattle.rbc_session_laws.specs.Turns.{AnswersAuthority};
ghost use Rattle.rbc_model.specs.HistoryText.{IsToldOfTrack};
ghost use Rattle.rbc_sessions.specs.Due.{IsOwedSoFar, Owes, OwesAll, told_reply};
ghost use Rattle.rbc_sessions.specs.Dues.{AskedSo};
ghost use Rattle.rbc_sessions.specs.SeatChanges.{SeatComes, SeatReplies};
ghost use Rattle.rbc_sessions.specs.Resting.{IsPrepared, command_of, commands_resting};
ghost use Rattle.rbc_sessions.specs.SaidLines.{asked_by, IsReadOn};
ghost use Rattle.rbc_sessions.specs.Shown.{entry_granted_in};
ghost use Rattle.rbc_sessions.specs.declared.batch.Rested.TheVariants.{Told as RestedTold, Asked as RestedAsked};
ghost use Rattle.rbc_sessions.specs.Sittings.{StaysKept};

use crate::asking::told_of;
use crate::batch::{AskedReply, Rested, Resting, ToldReply, pop_told};
use crate::command::Said;
use crate::dues::Dues;
use crate::telling::refusal_of;
use crate::{Keeper, NotKept, Sitting};
use rbc_lines::{print_shown, print_state};
use rbc_model::{Inquiry, OrMemory, Refusal, Told, TrainId};
use rbc_replies::{SessionRefusal, SessionReply, print};
use rbc_session_laws::Command;
use rbc_streams::{Sink, WriteFailed};
use rbc_sweep::{AskFault, Desk, DeskName, Gate, Granted, Hold, Receipt, Seat, Track};
use std::alloc::Global;
use std::collections::VecDeque;
use std::sync::Wait;
use std::thread::Threads;

/// What the seats of a desk have at hand.
#[derive(Drop)]
pub struct SessionContext<'a, L: DeskName, K, G, R> {
    pub desk: &'a Desk<L>,
    /// Its track, which gives the names.
    pub track: &'a Track,
    /// What keeps the requests that led to entries.
    pub keeper: &'a K,
    pub gate: &'a G,
    /// What waits for locks.
    pub waiting: &'a R,
    pub ghost of_desk: { track.now ≡ L.opened.track },
}

impl<'a, L: DeskName, K, G, R> SessionContext<'a, L, K, G, R> {
    /// The context of a desk.
    pub fn new(
        desk: &'a Desk<L>,
        keeper: &'a K,
        gate: &'a G,
        waiting: &'a R,
    ) -> SessionContext<'a, L, K, G, R>
        ensures desk { result.desk.now ≡ desk.now }
        ensures keeper { result.keeper.now ≡ keeper.now }
        ensures gate { result.gate.now ≡ gate.now }
        ensures waiting { result.waiting.now ≡ waiting.now }
    {
        SessionContext {
            desk,
            track: desk.track(),
            keeper,
            gate,
            waiting,
        }
    }
}

impl<'a, L: DeskName, K: Keeper<L>, G: Gate, R: Wait> SessionContext<'a, L, K, G, R> {
    /// Returns once the requests that led to the entries of these receipts are kept, each behind the one before it. Their lines were laid.
    ///
    /// # Errors
    ///
    /// One could not be kept.
    fn keep_each(&self, committer: &mut K::Committer, receipts: &[Receipt]) -> Result<(), NotKept>
        ensures kept { OnOk result (All (λ receipt. K.kept committer.new receipt.place) receipts.now) }
        ensures failed { OnErr result (K.failed committer.new) }
        ensures stays { StaysKept K.kept committer.old committer.new }
    {
        for receipt in receipts {
            self.keeper.keep(self.waiting, committer, receipt)?;
        }
        Ok(())
    }

    /// Returns once the requests are kept that led to the entries of the receipts at a sitting, but for this number of them, which it had before.
    ///
    /// # Errors
    ///
    /// One could not be kept. Then the sitting has failed.
    pub(crate) fn keep_behind(
        &self,
        sitting: &mut Sitting<L, K::Committer>,
        had: usize,
    ) -> Result<(), NotKept>
        requires whole { sitting.old.has_failed ≡ false }
        requires had { had ≤ length sitting.old.seat.receipts }
        ensures seat { sitting.new.seat ≡ sitting.old.seat }
        ensures failed { sitting.new.has_failed ≡ is_err result }
        ensures why { sitting.new.has_failed ≡ true → K.failed sitting.new.committer }
        ensures kept { OnOk result (All (λ receipt. K.kept sitting.new.committer receipt.place) (drop had sitting.old.seat.receipts)) }
        ensures stays { StaysKept K.kept sitting.old.committer sitting.new.committer }
    {
        let kept = self.keep_each(&mut sitting.committer, &sitting.seat.receipts()[had..]);
        sitting.has_failed = kept.is_err();
        kept
    }

    /// Shows what is asked for.
    ///
    /// # Errors
    ///
    /// The writer failed.
    fn show<W: Sink>(
        &self,
        alloc: Global,
        seat: &mut Seat<L>,
        inquiry: Inquiry,
        writer: &mut W,
    ) -> Result<(), WriteFailed>
        requires going { W.failed writer.old ≡ false }
        ensures { (reply : List ℕ) × SeatReplies (Ok (Show inquiry)) seat.old reply seat.new
            × Prints (W.written writer.old) (W.written writer.new) (W.failed writer.new) reply result }
    {
        // What the seat was told is on the desk's track.
        seat.known();
        match inquiry {
            Inquiry::State => {
                let state = self.desk.state(self.waiting, seat);
                print_state(state.version, state.trains, state.locked, writer)
            }
            Inquiry::Scene => match self.desk.scene(self.waiting, alloc, seat) {
                Ok((scene, version)) => print_shown(alloc, version, &scene, writer),
                Err(_) => {
                    let refused = SessionReply::Refused(SessionRefusal::Memory);
                    print(self.track, &refused, writer)
                }
            },
        }
    }

    /// Refuses what is told, since there is no memory for it. What would refuse it at once is told first.
    ///
    /// # Errors
    ///
    /// The writer failed.
    fn refuse_told<W: Sink>(
        &self,
        seat: &mut Seat<L>,
        told: Told,
        writer: &mut W,
    ) -> Result<(), WriteFailed>
        requires going { W.failed writer.old ≡ false }
        requires of_track { IsToldOfTrack L.opened.track told }
        ensures { (reply : List ℕ) × SeatReplies (Ok (Event told)) seat.old reply seat.new
            × Prints (W.written writer.old) (W.written writer.new) (W.failed writer.new) reply result }
    {
        // What a refusal names is of the track, since the track is sound. What the seat was told is on it.
        self.track.known();
        seat.known();
        let fault = self.desk.event_in_vain(self.waiting, seat, &told);
        let refused = SessionReply::Refused(refusal_of(fault));
        print(self.track, &refused, writer)
    }

    /// Refuses a train that asks, since there is no memory for what it may be granted. That there is no such train is told first.
    ///
    /// # Errors
    ///
    /// The writer failed.
    fn refuse_asked<W: Sink>(
        &self,
        seat: &mut Seat<L>,
        train: TrainId,
        writer: &mut W,
    ) -> Result<(), WriteFailed>
        requires going { W.failed writer.old ≡ false }
        ensures { (reply : List ℕ) × SeatReplies (Ok (Authority train)) seat.old reply seat.new
            × Prints (W.written writer.old) (W.written writer.new) (W.failed writer.new) reply result }
    {
        // What a reply names is of the track, since the track is sound. What the seat was told is on it.
        self.track.known();
        seat.known();
        let fault = Err(self.desk.ask_in_vain(self.waiting, seat, train));
        print(self.track, &reply_to(self.track, train, &fault), writer)
    }

    /// Answers a line that does not rest, of which this was read. Nothing is entered for it: for what it tells, or asks for, there was no memory.
    ///
    /// # Errors
    ///
    /// The writer failed.
    pub(crate) fn reply<W: Sink>(
        &self,
        alloc: Global,
        seat: &mut Seat<L>,
        read: &Result<Said, SessionRefusal>,
        writer: &mut W,
    ) -> Result<(), WriteFailed>
        requires going { W.failed writer.old ≡ false }
        requires read { IsReadOn L.opened.track read.now }
        ensures { (reply : List ℕ) × SeatReplies (asked_by read.now) seat.old reply seat.new
            × Prints (W.written writer.old) (W.written writer.new) (W.failed writer.new) reply result }
    {
        // What the seat was told is on the desk's track.
        seat.known();
        match read {
            Ok(said) => match said.command {
                Command::Nothing => print(self.track, &SessionReply::Nothing, writer),
                Command::Event(told) => self.refuse_told(seat, told, writer),
                Command::Authority(number) => {
                    self.refuse_asked(seat, TrainId::new(number), writer)
                }
                Command::Show(inquiry) => self.show(alloc, seat, inquiry, writer),
            },
            Err(refusal) => print(self.track, &SessionReply::Refused(*refusal), writer),
        }
    }

    /// Enters what rests, in order, and gives the replies that are due. The line of each entry is laid as it is entered. There is room for the
    /// replies. What was told last is published with its hold, unless more comes.
    pub(crate) fn enter_all<T: Threads + Sync>(
        &self,
        rt: &T,
        alloc: Global,
        seat: &mut Seat<L>,
        resting: &mut VecDeque<Resting<K::Text>>,
        more: bool,
        dues: &mut Dues<ToldReply, AskedReply>,
    )
        requires each { All (IsPrepared L.opened.track K.says) resting.old.items }
        requires none { dues.old.dues ≡ [] }
        requires room { deque_len resting.old ≤ dues.old.room }
        ensures none_rests { resting.new.items ≡ [] }
        ensures owes { OwesAll self.now.track.now seat.old (commands_resting resting.old.items) dues.new.dues seat.new }
    {
        while let Some(one) = resting.pop_front() {
            self.enter_one(rt, alloc, seat, one, resting, more, dues);
        }
    }

    /// Enters what rested, and where it was told, all that was told behind it too.
    fn enter_one<T: Threads + Sync>(
        &self,
        rt: &T,
        alloc: Global,
        seat: &mut Seat<L>,
        one: Resting<K::Text>,
        resting: &mut VecDeque<Resting<K::Text>>,
        more: bool,
        dues: &mut Dues<ToldReply, AskedReply>,
    )
        requires one { IsPrepared L.opened.track K.says one }
        requires each { All (IsPrepared L.opened.track K.says) resting.old.items }
        requires room { deque_len resting.old + 1 ≤ dues.old.room }
        ensures each { All (IsPrepared L.opened.track K.says) resting.new.items }
        ensures room { deque_len resting.new ≤ dues.new.room }
        ensures shorter { deque_len resting.new ≤ deque_len resting.old }
        ensures owes { IsOwedSoFar self.now.track.now seat.old (Ok (command_of one.rested) ∷ commands_resting resting.old.items)
            dues.old.dues seat.new (commands_resting resting.new.items) dues.new.dues }
    {
        let Resting { rested, text } = one;
        match rested {
            Rested::Told(told) => self.hear_run(alloc, seat, (told, text), resting, more, dues),
            Rested::Asked(train) => {
                dues.push_asked(self.ask_at_rest(rt, alloc, seat, train, text));
            }
        }
    }

    /// Enters what is told, and all that was told behind it up to a train that asks, in one hold of the desk's lock. Where nothing rests then, it is
    /// published, unless more comes.
    fn hear_run(
        &self,
        alloc: Global,
        seat: &mut Seat<L>,
        first: (Told, K::Text),
        resting: &mut VecDeque<Resting<K::Text>>,
        more: bool,
        dues: &mut Dues<ToldReply, AskedReply>,
    )
        requires first { IsPrepared L.opened.track K.says (record { rested = RestedTold first.0; text = first.1 }) }
        requires each { All (IsPrepared L.opened.track K.says) resting.old.items }
        requires room { deque_len resting.old + 1 ≤ dues.old.room }
        ensures each { All (IsPrepared L.opened.track K.says) resting.new.items }
        ensures room { deque_len resting.new ≤ dues.new.room }
        ensures shorter { deque_len resting.new ≤ deque_len resting.old }
        ensures owes { IsOwedSoFar self.now.track.now seat.old (Ok (Event first.0) ∷ commands_resting resting.old.items)
            dues.old.dues seat.new (commands_resting resting.new.items) dues.new.dues }
    {
        let mut hold = self.desk.hold(self.waiting);
        let (told, text) = first;
        dues.push_told(self.hear(alloc, &mut hold, seat, told, text));
        while let Some((told, text)) = pop_told(resting) {
            dues.push_told(self.hear(alloc, &mut hold, seat, told, text));
        }
        if !more && resting.is_empty() {
            hold.publish(self.waiting, alloc, seat);
        }
        hold.leave();
    }

    /// Enters what was told in a hold of the desk's lock, lays the line of its entry, and gives the reply to it.
    fn hear(
        &self,
        alloc: Global,
        hold: &mut Hold<'_, L>,
        seat: &mut Seat<L>,
        told: Told,
        text: K::Text,
    ) -> ToldReply
        requires { IsPrepared L.opened.track K.says (record { rested = RestedTold told; text = text }) }
        ensures comes { SeatComes (Ok (Event told)) seat.old (reply_text self.now.track.now (told_reply result)) seat.new }
        ensures whole { ReplyIsWhole self.now.track.now (told_reply result) }
    {
        // What a refusal names is of the track, since the track is sound. What the seat was told is on it.
        self.track.known();
        seat.known();
        match hold.event(self.waiting, alloc, seat, &told) {
            Ok(receipt) => {
                self.keeper.lay(self.waiting, seat, &receipt, text);
                ToldReply::Accepted(receipt.place() + 1)
            }
            Err(fault) => ToldReply::Refused(refusal_of(fault)),
        }
    }

    /// Answers a train that asked, lays the line of what it is granted, and gives the reply that is due.
    fn ask_at_rest<T: Threads + Sync>(
        &self,
        rt: &T,
        alloc: Global,
        seat: &mut Seat<L>,
        train: TrainId,
        text: K::Text,
    ) -> AskedReply
        requires prepared { IsPrepared L.opened.track K.says (record { rested = RestedAsked train; text = text }) }
        ensures { Owes self.now.track.now seat.old (Ok (Authority train)) (AskedSo result) seat.new }
    {
        // What a reply names is of the track, since the track is sound. What the seat was told is on it.
        self.track.known();
        seat.known();
        let answer = self
            .desk
            .ask_by(rt, self.waiting, alloc, seat, train, self.gate);
        // The answer has a right reply. It is made once more where it is printed.
        let _ = reply_to(self.track, train, &answer);
        if let Ok(granted) = &answer {
            self.keeper.lay(self.waiting, seat, &granted.receipt, text);
        }
        AskedReply { train, answer }
    }

    /// Publishes what the seat was told, and is not published yet.
    pub(crate) fn publish(&self, alloc: Global, seat: &mut Seat<L>)
        ensures { seat.new ≡ seat.old }
    {
        self.desk.publish(self.waiting, alloc, seat);
    }
}

/// The reply to a train that asked at a desk.
pub(crate) fn reply_to<'a>(
    track: &Track,
    train: TrainId,
    answer: &'a Result<Granted, OrMemory<AskFault>>,
) -> SessionReply<'a>
    requires { IfOk answer.now (λ granted. granted.receipt.place < MOST_ENTRIES) }
    ensures comes { (scene : Scene) (most : ℕ) (entries : List Entry) → IsAnswered (history_on (begin_on track.now scene most) entries) train answer.now
        → AnswersAuthority (begin_on track.now scene most) entries (reply_text track.now result) (entry_granted_in answer.now) train }
    ensures whole { (scene : Scene) (most : ℕ) (entries : List Entry)
        → IsRight (history_on (begin_on track.now scene most) entries)
        → IsAnswered (history_on (begin_on track.now scene most) entries) train answer.now
        → ReplyIsWhole track.now result }
{
    // The track is sound, so what stands beyond an end, or in the way, is of the track.
    track.known();
    match answer {
        Ok(granted) => {
            let version = granted.receipt.place() + 1;
            SessionReply::Granted(told_of(&granted.candidate, version))
        }
        Err(OrMemory::Refused(AskFault::UnknownTrain)) => {
            SessionReply::Refused(SessionRefusal::BadEvent(Refusal::UnknownTrain(train)))
        }
        Err(OrMemory::Refused(AskFault::Blocked(obstacle, at, version))) => {
            SessionReply::Blocked(train, *obstacle, *at, *version)
        }
        Err(OrMemory::Refused(AskFault::Full)) => SessionReply::Refused(SessionRefusal::Full),
        Err(OrMemory::Memory) => SessionReply::Refused(SessionRefusal::Memory),
    }
}
