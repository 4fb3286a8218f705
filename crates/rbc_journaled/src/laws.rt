//! What a crash leaves of a history, whatever program keeps it.

ghost use Rattle.std.specs.Prelude.{ℕ, List};
ghost use Rattle.rbc_model.specs.Histories.{Beginning};
ghost use Rattle.rbc_journaled.specs.Adds.{Adds};
ghost use Rattle.rbc_journaled.specs.Entries.{TellsEntry, TellsFirst};
ghost use Rattle.rbc_journaled.specs.Lasting.{LinesLast};
ghost use Rattle.rbc_journaled.specs.Laws.{TellOne, BeginningsStand, AreRetold, JournalsAreSessions};
ghost use Rattle.rbc_group_commit.specs.Told.{HasLines};
ghost use Rattle.rbc_sessions.specs.Records.{HistoryOnTrack};

use rbc_journal::Device;

/// What journals tell: one history each, a file of the first lines the first entries, and each history is one that its own
/// lines lead to. A journal at rest is a session that leads to its history. Nothing here runs.
pub fn files_tell_one_history()
    ensures one { (begin : Beginning) → TellOne (Adds begin) }
    ensures beginnings { (begin : Beginning) → BeginningsStand (Adds begin) }
    ensures retold { AreRetold }
    ensures sessions { JournalsAreSessions }
{}

/// A file with lines each of which tells the entry at its place, and with at least the number given of them, tells the
/// first entries of the history. Nothing here runs.
pub fn lines_tell_first_entries()
    ensures { (history : HistoryOnTrack) (least : ℕ) (file : List ℕ) → HasLines (TellsEntry history) least file → TellsFirst history least file }
{}

/// What a committer has kept lasts: a crash at any moment since a stamp that has the line of an entry left a file that tells the
/// first entries of the record, this one among them. Nothing here runs.
pub fn kept_lines_last<D: Device>()
    ensures { LinesLast D.moment D.left_since }
{}
