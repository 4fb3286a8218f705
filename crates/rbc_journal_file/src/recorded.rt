//! A file of which a record is kept, as a device.

ghost use Rattle.std.specs.Prelude.{◌≡◌, is_ok};
ghost use Rattle.rbc_journal.specs.Device.{Only};
ghost use Rattle.rbc_journal_file.specs.Past.{seen, may_leave, moment, left_since, faults, syncs};
ghost use Rattle.rbc_journal_file.specs.PastLaws.{counts_now, only_now};

use crate::{Bytes, Call, CallFailed, Calls, Past, Role};
use rbc_journal::{Device, DeviceFailed};
use std::io;
use std::mem::replace;
use std::snapshot::Snapshot;

/// A file, and what was asked of it. Once it has failed it is asked for nothing more.
#[derive(Drop)]
pub struct Recorded<C: Calls> {
    calls: C,
    past: Snapshot<Past>,
    failed: Option<CallFailed>,
}

impl<C: Calls> Recorded<C> {
    ghost use Rattle.rbc_journal_file.specs.Recorded.{past_of};

    /// A file that has just been read, and has these bytes, all of them on the disk.
    pub fn opened(calls: C, bytes: &[u8]) -> Recorded<C>
        ensures seen { seen (past_of result) ≡ bytes.now }
        ensures durable { Only (seen (past_of result)) (may_leave (past_of result)) }
    {
        let opened = Past::Opened(Bytes::of(bytes));
        Recorded {
            calls,
            past: Snapshot::of(&opened),
            failed: None,
        }
    }

    /// The call that failed, if one did.
    pub fn failed(&self) -> Option<&CallFailed> {
        self.failed.as_ref()
    }

    /// The file, without its record.
    pub fn into_calls(self) -> C {
        self.calls
    }
}

/// Notes of the answer to a call whether it failed.
fn note(failed: &mut Option<CallFailed>, call: Call, answer: io::Result<()>) {
    if let Err(error) = answer {
        let role = Role::Journal;
        *failed = Some(CallFailed { call, role, error });
    }
}

/// Syncs a file that has not failed yet, and tells whether that was done.
fn sync<C: Calls>(calls: &mut C, failed: &mut Option<CallFailed>) -> bool {
    if failed.is_none() {
        note(failed, Call::Sync, calls.sync());
    }
    failed.is_none()
}

/// What was asked so far, to stand in what is asked from now on.
fn earlier(past: &mut Snapshot<Past>) -> Snapshot<Past>
    ensures { result.value ≡ past.old.value }
{
    let nothing = Past::Opened(Bytes::of(&[]));
    replace(past, Snapshot::of(&nothing))
}

/// The outcome of a call.
fn outcome(is_done: bool) -> Result<(), DeviceFailed>
    ensures { is_ok result ≡ is_done }
{
    if is_done { Ok(()) } else { Err(DeviceFailed) }
}

impl<C: Calls> Device for Recorded<C> {
    ghost seen = { λ f. seen f.past.value };

    ghost may_leave = { λ f. may_leave f.past.value };

    ghost moment = { λ f. moment f.past.value };

    ghost left_since = { λ f. left_since f.past.value };

    ghost faults = { λ f. faults f.past.value };

    ghost syncs = { λ f. syncs f.past.value };

    ghost counts_now = { λ f t c le now. counts_now f.past.value t c le now };

    ghost only_now = { λ f c left. only_now f.past.value c left };

    fn write_at(&mut self, at: usize, bytes: &[u8]) -> Result<(), DeviceFailed> {
        if self.failed.is_none() {
            note(
                &mut self.failed,
                Call::Write,
                self.calls.write(at as u64, bytes),
            );
        }
        let is_done = self.failed.is_none();
        let next = Past::Wrote(earlier(&mut self.past), at, Bytes::of(bytes), is_done);
        self.past = Snapshot::of(&next);
        outcome(is_done)
    }

    fn sync(&mut self) -> Result<(), DeviceFailed> {
        let is_done = sync(&mut self.calls, &mut self.failed);
        let next = Past::Synced(earlier(&mut self.past), is_done);
        self.past = Snapshot::of(&next);
        outcome(is_done)
    }

    fn replace(&mut self, front: &[u8], rest: &[u8]) -> Result<(), DeviceFailed> {
        if self.failed.is_none() {
            note(
                &mut self.failed,
                Call::Replace,
                self.calls.replace(front, rest),
            );
        }
        let is_done = self.failed.is_none();
        let bytes = Bytes::behind(Bytes::of(front), rest);
        let next = Past::Replaced(earlier(&mut self.past), bytes, is_done);
        self.past = Snapshot::of(&next);
        outcome(is_done)
    }
}
