//! A file as the journal sees it: what stands in it, and what a crash may leave of it.

ghost use Rattle.std.specs.Prelude.{◌≡◌, ◌≤◌, ◌+◌, ◌++◌, ◌⊎◌, List, ℕ, length, OnOk};
ghost use Rattle.rbc_journal.specs.Device.{Only, Follows, Torn, Holds, Elapses, CountsFault};

/// The file failed. What it holds is then not known, and nothing more is asked of it.
#[derive(Clone, Copy, Debug, PartialEq, Eq)]
pub struct DeviceFailed;

/// A file that is written and synced, and read no more once it is open.
pub trait Device {
    /// The bytes that a read would return.
    ghost seen: { Self → List ℕ };

    /// What a crash at this moment may leave.
    ghost may_leave: { Self → List ℕ → Type 0 };

    /// The moment, as a number that does not fall.
    ghost moment: { Self → ℕ };

    /// What a crash at some moment from that one on might have left, during a call or between two.
    ghost left_since: { Self → ℕ → List ℕ → Type 0 };

    /// How often the file has failed.
    ghost faults: { Self → ℕ };

    /// How often all that stands in it was put on the disk.
    ghost syncs: { Self → ℕ };

    /// Writes over what is there, and past the end. Until a sync, a crash may leave any bytes in the range.
    ///
    /// # Errors
    /// The file failed. What stands in it is not known.
    fn write_at(&mut self, at: usize, bytes: &[u8]) -> Result<(), DeviceFailed>
        requires { at ≤ length (seen self.old) }
        ensures written { OnOk result (Holds (seen self.old) at bytes.now (seen self.new)) }
        ensures crash { Follows (Torn at (length bytes.now)) (may_leave self.old) (may_leave self.new) }
        ensures syncs { syncs self.new ≡ syncs self.old }
        ensures time { Elapses (moment self.old) (moment self.new) (left_since self.old) (left_since self.new) (may_leave self.new) }
        ensures cause { CountsFault result (faults self.old) (faults self.new) };

    /// Puts a new file with these bytes, in two parts, in place of the file, and on the disk. A crash leaves the one or the other.
    ///
    /// # Errors
    /// The file failed. What stands in it is not known.
    fn replace(&mut self, front: &[u8], rest: &[u8]) -> Result<(), DeviceFailed>
        ensures replaced { OnOk result (seen self.new ≡ front.now ++ rest.now) }
        ensures durable { OnOk result (Only (front.now ++ rest.now) (may_leave self.new)) }
        ensures crash { (c : List ℕ) → may_leave self.new c → may_leave self.old c ⊎ (c ≡ front.now ++ rest.now) }
        ensures time { Elapses (moment self.old) (moment self.new) (left_since self.old) (left_since self.new) (may_leave self.new) }
        ensures cause { CountsFault result (faults self.old) (faults self.new) };

    /// After it, a crash leaves what stands in the file.
    ///
    /// # Errors
    /// The file failed. What stands in it is not known.
    fn sync(&mut self) -> Result<(), DeviceFailed>
        ensures durable { OnOk result (Only (seen self.old) (may_leave self.new)) }
        ensures syncs { OnOk result (syncs self.new ≡ syncs self.old + 1) }
        ensures seen { seen self.new ≡ seen self.old }
        ensures crash { (c : List ℕ) → may_leave self.new c → may_leave self.old c }
        ensures time { Elapses (moment self.old) (moment self.new) (left_since self.old) (left_since self.new) (may_leave self.new) }
        ensures cause { CountsFault result (faults self.old) (faults self.new) };

    /// This moment is one of those since an earlier one.
    ghost counts_now: { (file : Self) (t : ℕ) (c : List ℕ) → t ≤ moment file → may_leave file c → left_since file t c };

    /// Since this moment there is no other.
    ghost only_now: { (file : Self) (c : List ℕ) → left_since file (moment file) c → may_leave file c };
}
