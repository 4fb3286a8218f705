//! A record and its journal.

ghost use Rattle.std.specs.Prelude.{◌≡◌, ◌<◌, [], false, not, is_some, IfSome, IfOk, IfErr};
ghost use Rattle.rbc_sessions.specs.Records.{begin_of};
ghost use Rattle.rbc_journal.specs.Beginnings.{beginning_of};
ghost use Rattle.rbc_journal.specs.Device.{Only, LeavesOnly};
ghost use Rattle.rbc_journal.specs.Gates.{counted};
ghost use Rattle.rbc_journal.specs.Journal.{recovered, told_of};
ghost use Rattle.rbc_journal.specs.Seals.{IsWholeText};
ghost use Rattle.rbc_session_laws.specs.Retelling.{IsRetold};
ghost use Rattle.rbc_journaled.specs.Adds.{Adds};
ghost use Rattle.rbc_journaled.specs.Journaled.{IsKept, IsReady};
ghost use Rattle.rbc_journaled.specs.Notes.{AreTrue};
ghost use Rattle.rbc_journaled.specs.Tells.{Tells};

use crate::OpeningFault;
use crate::replaying::replay;
use rbc_journal::{Device, Journal, Readable};
use rbc_sessions::Record;
use rbc_streams::Text;
use std::alloc::Global;
use std::thread::Threads;

/// How many lines are put together at most: those whose replies rest until their entries are on the disk, and one more.
pub(crate) const MOST_TOGETHER: usize = 64;

/// A record, and the journal that tells it. In a session its last lines may be staged and their replies rest.
#[derive(Drop)]
pub struct JournaledRecord<D: Device> {
    /// The record.
    pub(crate) history: Record,
    /// Its journal.
    pub(crate) journal: Journal<D>,
    /// Whether the journal has failed. Then the record may have entries that the journal does not tell, and takes no more.
    pub(crate) has_failed: bool,
    /// The replies that rest.
    pub(crate) replies: Text,
    /// How many lines they answer.
    pub(crate) batch: usize,
}

impl<D: Device> JournaledRecord<D> {
    /// Opens a journal from what was read of its file, which a crash may have left: the record, which is empty, gains the
    /// entries that its lines tell, and a new file that stands for the same takes its place. It may crash too.
    ///
    /// # Errors
    ///
    /// `Memory`, `Foreign`, `Entries`, `Differs` or `Full`, before the file is asked for anything; `Device`. The file comes back,
    /// with all that counts in it.
    pub fn open(
        rt: &(impl Threads + Sync),
        alloc: Global,
        mut history: Record,
        file: &Readable<'_>,
        device: D,
    ) -> Result<JournaledRecord<D>, (OpeningFault, D)>
        requires empty { history.entries ≡ [] }
        requires whole { IsWholeText file.now.text.now file.now.seal }
        requires same { recovered (D.seen device) ≡ recovered file.now.text.now }
        requires durable { Only (D.seen device) (D.may_leave device) }
        ensures ready { IfOk result (λ journaled. IsReady D.seen D.may_leave journaled) }
        ensures track { IfOk result (λ journaled. journaled.history.track ≡ history.track) }
        ensures begin { IfOk result (λ journaled. begin_of journaled.history ≡ begin_of history) }
        ensures same { IfOk result (λ journaled. recovered (D.seen journaled.journal.device) ≡ recovered file.now.text.now) }
        ensures beginning { IfOk result (λ journaled. beginning_of (counted (D.seen journaled.journal.device)) ≡ beginning_of (counted file.now.text.now)) }

        // No grant has come out otherwise than was noted.
        ensures noted { IfOk result (λ journaled. AreTrue (counted file.now.text.now) journaled.history.entries) }

        // A crash at any moment leaves the same lines.
        ensures any_moment { IfOk result (λ journaled. LeavesOnly D.moment D.left_since device journaled.journal.device
            (λ c. recovered c ≡ recovered file.now.text.now)) }
        ensures any_moment_err { IfErr result (λ e. LeavesOnly D.moment D.left_since device e.1
            (λ c. recovered c ≡ recovered file.now.text.now)) }

        // The file is told to have failed only where it did.
        ensures failed { IfErr result (λ e. e.0 ≡ OpeningFault.Device → D.faults device < D.faults e.1) }
    {
        if let Err(fault) = replay(rt, alloc, &mut history, file.text) {
            return Err((fault, device));
        }
        JournaledRecord::over(alloc, history, file, device)
    }

    /// Opens a journal from what was read of its file, which a crash may have left, over a record that has gained the entries
    /// that its lines tell already ([`replay`]): a new file that stands for these takes its place. It may crash too.
    ///
    /// # Errors
    ///
    /// `Full`, before the file is asked for anything; `Device`. The file comes back, with all that counts in it.
    pub fn over(
        alloc: Global,
        history: Record,
        file: &Readable<'_>,
        device: D,
    ) -> Result<JournaledRecord<D>, (OpeningFault, D)>
        requires told { Tells (Adds (begin_of history)) [] (told_of (counted file.now.text.now)) history.entries }
        requires whole { IsWholeText file.now.text.now file.now.seal }
        requires same { recovered (D.seen device) ≡ recovered file.now.text.now }
        requires durable { Only (D.seen device) (D.may_leave device) }
        ensures ready { IfOk result (λ journaled. IsReady D.seen D.may_leave journaled) }
        ensures history { IfOk result (λ journaled. journaled.history ≡ history) }
        ensures track { IfOk result (λ journaled. journaled.history.track ≡ history.track) }
        ensures begin { IfOk result (λ journaled. begin_of journaled.history ≡ begin_of history) }
        ensures same { IfOk result (λ journaled. recovered (D.seen journaled.journal.device) ≡ recovered file.now.text.now) }
        ensures beginning { IfOk result (λ journaled. beginning_of (counted (D.seen journaled.journal.device)) ≡ beginning_of (counted file.now.text.now)) }

        // A crash at any moment leaves the same lines.
        ensures any_moment { IfOk result (λ journaled. LeavesOnly D.moment D.left_since device journaled.journal.device
            (λ c. recovered c ≡ recovered file.now.text.now)) }
        ensures any_moment_err { IfErr result (λ e. LeavesOnly D.moment D.left_since device e.1
            (λ c. recovered c ≡ recovered file.now.text.now)) }

        // The file is told to have failed only where it did.
        ensures failed { IfErr result (λ e. e.0 ≡ OpeningFault.Device → D.faults device < D.faults e.1) }
    {
        match Journal::open(alloc, file.text, &file.seal, device) {
            Ok(journal) => Ok(JournaledRecord {
                history,
                journal,
                has_failed: false,
                replies: Text::new(alloc),
                batch: 0,
            }),
            Err((fault, device)) => Err((OpeningFault::from(fault), device)),
        }
    }

    /// The record, unless the journal has failed: then it may have entries that the journal does not tell.
    pub fn history(&self) -> Option<&Record>
        requires { self.now.has_failed ≡ false → IsReady D.seen D.may_leave self.now }
        ensures some { is_some result ≡ not self.now.has_failed }
        ensures history { IfSome result (λ r. r.now ≡ self.now.history) }
        ensures retold { IfSome result (λ r. IsRetold (begin_of r.now) r.now.entries) }
    {
        if self.has_failed {
            return None;
        }
        Some(&self.history)
    }

    /// The file of the journal, which may have failed.
    pub fn into_device(self) -> D
        ensures { result ≡ self.journal.device }
    {
        self.journal.into_device()
    }

    /// The record and its journal, between two sessions.
    pub fn into_parts(self) -> (Record, Journal<D>)
        requires { IsReady D.seen D.may_leave self }
        ensures history { result.0 ≡ self.history }
        ensures journal { result.1 ≡ self.journal }
        ensures kept { IsKept D.seen D.may_leave result.0 result.1 }
    {
        let JournaledRecord {
            history,
            journal,
            ..
        } = self;
        (history, journal)
    }
}
