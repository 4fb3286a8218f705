//! A journal: lines, each on the disk before it is acknowledged. A line counts if the byte before it, its gate, is a
//! space. Behind the last line stands a closed gate, a `#`, on the disk before anything is written behind it. Lines that
//! are put together end with a seal, which vouches for them and for all before. Behind a line may stand a note: a comment
//! in the same put.

ghost use Rattle.std.specs.Prelude.{◌≡◌, ℕ, ◌+◌, ◌-◌, ◌^◌, ◌<◌, ◌≤◌, ◌++◌, [], ◌∷◌, length, take, OnOk, OnErr, IfOk, IfErr, IsErrOf, vec_len, vec_capacity};
ghost use Rattle.rbc_journal.specs.Device.{Only, LeavesOnly};
ghost use Rattle.rbc_journal.specs.Gates.{IsLine, at_rest, behind, counted, staged_in, CountsBeforeOrAfter};
ghost use Rattle.rbc_journal.specs.Beginnings.{beginning_of};
ghost use Rattle.rbc_journal.specs.Journal.{recovered, IsTold, IsNote, IsBeforeOrAfter};
ghost use Rattle.rbc_journal.specs.Puts.{with_its_seal};
ghost use Rattle.rbc_journal.specs.Seals.{IsWholeText};
ghost use Rattle.rbc_journal.specs.Settled.{staged_lines, staged, IsSettled, HasRoom, HasCause, Waits};

use crate::seal::{DIGITS, SEAL_LINE, line_of, seal_of};
use crate::{Device, DeviceFailed, JournalFault};
use std::alloc::Global;

/// What stands in a file beside a line: its gate and its line feed, and a seal with its own gate and line feed, in bytes.
const OVERHEAD: usize = SEAL_LINE + 4;

/// The longest file that is opened, in bytes, and how long it may grow.
const MOST_BYTES: usize = 1 << 60;

/// An open journal, and the lines that wait to be written.
#[derive(Drop)]
pub struct Journal<D: Device> {
    /// The file.
    device: D,
    /// Where its closed gate stands.
    gate: usize,
    /// The last seal in it.
    seal: [u8; DIGITS],
    /// What will stand behind its gate.
    pending: Vec<u8>,
}

impl<D: Device> Journal<D> {
    /// Opens a journal of lines in whole puts, with the last of their seals: a new file with their text and a closed gate
    /// takes the place of the file, which stands for these lines too. No line is staged. It may crash too.
    ///
    /// # Errors
    /// `Full`, before the file is asked for anything, or `Device`. The file comes back, with all that counts in it.
    pub fn open(
        alloc: Global,
        text: &[u8],
        seal: &[u8; DIGITS],
        mut device: D,
    ) -> Result<Journal<D>, (JournalFault, D)>
        requires whole { IsWholeText text.now seal.now }
        requires same { recovered (D.seen device) ≡ recovered text.now }
        requires durable { Only (D.seen device) (D.may_leave device) }
        ensures settled { IfOk result (λ journal. IsSettled D.seen D.may_leave journal) }
        ensures same { IfOk result (λ journal. recovered (D.seen journal.device) ≡ recovered text.now) }
        ensures begins { IfOk result (λ journal. beginning_of (counted (D.seen journal.device))
            ≡ beginning_of (counted text.now)) }
        ensures staged { IfOk result (λ journal. staged journal ≡ []) }
        ensures lines { IfOk result (λ journal. staged_lines journal ≡ []) }

        // A crash at any moment leaves the same lines.
        ensures any_moment { IfOk result (λ journal. LeavesOnly D.moment D.left_since device journal.device
            (λ c. recovered c ≡ recovered text.now)) }
        ensures any_moment_err { IfErr result (λ e. LeavesOnly D.moment D.left_since device e.1
            (λ c. recovered c ≡ recovered text.now)) }

        // It does not give up by itself.
        ensures cause { IfErr result (λ e. HasCause (D.faults device) (D.faults e.1) text.now e.0) }
    {
        if text.len() >= MOST_BYTES {
            return Err((JournalFault::Full, device));
        }
        if device.replace(text, b"#").is_err() {
            return Err((JournalFault::Device, device));
        }
        Ok(Journal {
            device,
            gate: text.len(),
            seal: *seal,
            pending: Vec::new(alloc),
        })
    }

    /// The file. Lines that are staged are dropped.
    pub fn into_device(self) -> D
        ensures { result ≡ self.device }
    {
        self.device
    }

    /// Adds a line, where none is staged. At `Ok` it is acknowledged: from then on each crash leaves a file that has it. At
    /// `Device` the file has to be opened again.
    ///
    /// # Errors
    /// `Full` or `Memory`, where nothing changes, the file is not asked for anything, and further lines can be put; `Device`.
    pub fn put(&mut self, line: &[u8]) -> Result<(), JournalFault>
        requires settled { IsSettled D.seen D.may_leave self.old }
        requires none { staged self.old ≡ [] }
        requires line { IsTold line.now }

        ensures acknowledged { OnOk result (IsSettled D.seen D.may_leave self.new
            × (recovered (D.seen self.new.device) ≡ recovered (D.seen self.old.device) ++ line.now ∷ [])
            × (staged self.new ≡ [])) }

        // What it begins with stays as it is.
        ensures begins { OnOk result (beginning_of (counted (D.seen self.new.device))
            ≡ beginning_of (counted (D.seen self.old.device))) }

        // A crash at any moment of the call leaves the lines from before it, with the new one or without.
        ensures any_moment { LeavesOnly D.moment D.left_since self.old.device self.new.device
            (IsBeforeOrAfter (recovered (D.seen self.old.device)) (line.now ∷ [])) }

        // Unless the file failed, it goes on as it was.
        ensures refused { IfErr result (λ fault. (fault ≡ JournalFault.Device → ⊥)
            → IsSettled D.seen D.may_leave self.new × (self.new.device ≡ self.old.device) × (staged self.new ≡ [])) }

        // It does not give up by itself.
        ensures failed { IsErrOf result JournalFault.Device
            → D.faults self.old.device < D.faults self.new.device }
        ensures full { IsErrOf result JournalFault.Full
            → 2 ^ 60 < self.old.gate + vec_len self.old.pending + length line.now + 22 }
    {
        self.reserve(line.len())?;
        self.stage(line);
        self.commit()?;
        Ok(())
    }

    /// Makes room to stage a line of this length, in bytes, and for a seal behind it. The file is not asked for anything.
    ///
    /// # Errors
    /// `Full` or `Memory`. Nothing changes.
    pub fn reserve(&mut self, bytes: usize) -> Result<(), JournalFault>
        requires { IsSettled D.seen D.may_leave self.old }
        ensures settled { IsSettled D.seen D.may_leave self.new }
        ensures device { self.new.device ≡ self.old.device }
        ensures staged { staged self.new ≡ staged self.old }
        ensures lines { staged_lines self.new ≡ staged_lines self.old }
        ensures room { OnOk result (HasRoom self.new bytes) }
        ensures failed { IsErrOf result JournalFault.Device → ⊥ }
        ensures full { IsErrOf result JournalFault.Full → 2 ^ 60 < self.old.gate + vec_len self.old.pending + bytes + 22 }
    {
        let used = self.gate + self.pending.len();
        if bytes > MOST_BYTES || used + bytes + OVERHEAD > MOST_BYTES {
            return Err(JournalFault::Full);
        }
        self.pending.reserve(bytes + OVERHEAD)?;
        Ok(())
    }

    /// Stages a line. The file is not asked for anything, and no memory is.
    pub fn stage(&mut self, line: &[u8])
        requires settled { IsSettled D.seen D.may_leave self.old }
        requires room { HasRoom self.old (length line.now) }
        requires line { IsTold line.now }
        ensures settled { IsSettled D.seen D.may_leave self.new }
        ensures device { self.new.device ≡ self.old.device }
        ensures staged { staged self.new ≡ staged self.old ++ line.now ∷ [] }
        ensures lines { staged_lines self.new ≡ staged_lines self.old ++ line.now ∷ [] }
        ensures some { 0 < vec_len self.new.pending }

        // What was more than the room for it is left.
        ensures room { (bytes : ℕ) → HasRoom self.old (length line.now + 2 + bytes) → HasRoom self.new bytes }
    {
        push(&mut self.pending, line);
    }

    /// Stages a note behind the lines that are staged. The file is not asked for anything, and no memory is.
    pub fn note(&mut self, note: &[u8])
        requires settled { IsSettled D.seen D.may_leave self.old }
        requires room { HasRoom self.old (length note.now) }
        requires note { IsNote note.now }
        ensures settled { IsSettled D.seen D.may_leave self.new }
        ensures device { self.new.device ≡ self.old.device }
        ensures staged { staged self.new ≡ staged self.old }
        ensures lines { staged_lines self.new ≡ staged_lines self.old ++ note.now ∷ [] }
        ensures some { 0 < vec_len self.new.pending }

        // What was more than the room for it is left.
        ensures room { (bytes : ℕ) → HasRoom self.old (length note.now + 2 + bytes) → HasRoom self.new bytes }
    {
        push(&mut self.pending, note);
    }

    /// Makes the staged lines durable, all at once, with their seal. At `Ok` they are acknowledged: from then on each crash
    /// leaves a file that has them. At `Err` the file has to be opened again.
    ///
    /// # Errors
    /// The file failed.
    pub fn commit(&mut self) -> Result<(), DeviceFailed>
        requires { IsSettled D.seen D.may_leave self.old }

        ensures acknowledged { OnOk result (IsSettled D.seen D.may_leave self.new
            × (recovered (D.seen self.new.device) ≡ recovered (D.seen self.old.device) ++ staged self.old)
            × (staged self.new ≡ [])) }

        // All that is staged is in the file then, also the notes, and nothing is staged.
        ensures written { OnOk result (0 < vec_len self.old.pending → counted (D.seen self.new.device)
            ≡ counted (D.seen self.old.device) ++ with_its_seal self.old.seal (staged_lines self.old)) }
        ensures lines { OnOk result (staged_lines self.new ≡ []) }

        // What it begins with stays as it is.
        ensures begins { OnOk result (beginning_of (counted (D.seen self.new.device))
            ≡ beginning_of (counted (D.seen self.old.device))) }

        // A crash at any moment of the call leaves the lines from before it, with all the staged ones or with none.
        ensures any_moment { LeavesOnly D.moment D.left_since self.old.device self.new.device
            (IsBeforeOrAfter (recovered (D.seen self.old.device)) (staged self.old)) }

        // What stands before its gate is put on the disk before that is opened, and then the gate.
        ensures synced { OnOk result (0 < vec_len self.old.pending → D.syncs self.new.device ≡ D.syncs self.old.device + 2) }

        // It does not give up by itself.
        ensures later { D.faults self.old.device ≤ D.faults self.new.device }
        ensures failed { OnErr result (D.faults self.old.device < D.faults self.new.device) }
    {
        let end = self.pending.len();
        if end == 0 {
            return Ok(());
        }
        let lines = &self.pending[..end - 1];
        let seal = seal_of(&self.seal, b" ", lines);
        push(&mut self.pending, &line_of(&seal));
        write_behind(&mut self.device, self.gate, self.pending.as_slice())?;
        self.seal = seal;
        self.gate += self.pending.len();
        self.pending.clear();
        Ok(())
    }
}

/// Puts a line behind what is staged, its gate open, and a closed gate behind it.
fn push(pending: &mut Vec<u8>, line: &[u8])
    requires room { vec_len pending.old + length line.now + 2 ≤ vec_capacity pending.old }
    requires waiting { pending.old.items ≡ behind (staged_in pending.old.items) }
    requires line { IsLine line.now }
    ensures staged { staged_in pending.new.items ≡ staged_in pending.old.items ++ line.now ∷ [] }
    ensures waiting { pending.new.items ≡ behind (staged_in pending.new.items) }
    ensures len { vec_len pending.new ≡ vec_len pending.old + length line.now + 2 }
    ensures capacity { vec_capacity pending.old ≤ vec_capacity pending.new }
{
    open_last(pending);
    push_line(pending, line);
}

/// Opens the gate behind the last staged line, if there is one.
fn open_last(pending: &mut Vec<u8>)
    ensures none { length pending.old.items ≡ 0 → pending.new.items ≡ [] }
    ensures some { 0 < length pending.old.items
        → pending.new.items ≡ take (length pending.old.items - 1) pending.old.items ++ 32 ∷ [] }
    ensures len { vec_len pending.new ≡ vec_len pending.old }
    ensures capacity { vec_capacity pending.new ≡ vec_capacity pending.old }
{
    if pending.pop().is_some() {
        pending.push_reserved(b' ');
    }
}

/// Puts a line, its line feed and a closed gate behind what is staged.
fn push_line(pending: &mut Vec<u8>, line: &[u8])
    requires { vec_len pending.old + length line.now + 2 ≤ vec_capacity pending.old }
    ensures items { pending.new.items ≡ ((pending.old.items ++ line.now) ++ 10 ∷ []) ++ 35 ∷ [] }
    ensures len { vec_len pending.new ≡ vec_len pending.old + length line.now + 2 }
    ensures capacity { vec_capacity pending.old ≤ vec_capacity pending.new }
{
    let Ok(()) = pending.extend_from_slice(line) else {
        unreachable!();
    };
    pending.push_reserved(b'\n');
    pending.push_reserved(b'#');
}

/// Writes staged bytes behind the closed gate, and then opens it.
///
/// # Errors
/// The file failed.
fn write_behind<D: Device>(device: &mut D, gate: usize, bytes: &[u8]) -> Result<(), DeviceFailed>
    requires waits { Waits D.seen D.may_leave device.old gate bytes.now }
    requires fits { gate + length bytes.now ≤ 2 ^ 60 }
    ensures written { OnOk result (D.seen device.new ≡ at_rest (counted (D.seen device.old) ++ staged_in bytes.now)) }
    ensures durable { OnOk result (Only (D.seen device.new) (D.may_leave device.new)) }
    ensures any_moment { LeavesOnly D.moment D.left_since device.old device.new
        (CountsBeforeOrAfter (counted (D.seen device.old)) (staged_in bytes.now)) }
    ensures synced { OnOk result (D.syncs device.new ≡ D.syncs device.old + 2) }
    ensures later { D.faults device.old ≤ D.faults device.new }
    ensures failed { OnErr result (D.faults device.old < D.faults device.new) }
{
    device.write_at(gate + 1, bytes)?;
    device.sync()?;
    device.write_at(gate, b" ")?;
    device.sync()
}
