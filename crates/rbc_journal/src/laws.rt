//! What journal files are, whatever program wrote them.

ghost use Rattle.rbc_journal.specs.Sessions.{FilesAtRestAreSessions};
ghost use Rattle.rbc_journal.specs.Beginnings.{BeginningStays};
ghost use Rattle.rbc_journal.specs.ReadingLaws.{ChangeIsTold, CrashIsRead, CutIsTold, LastSealVouches, LinesAreOne};

/// A file at rest is the input of a session: its lines are those that it stands for, each behind a space, and a comment.
/// Nothing here runs.
pub fn files_at_rest_are_sessions()
    ensures { FilesAtRestAreSessions }
{}

/// A crash is never damage: what it leaves of a put is read as the lines from before, with all of the put or with none of
/// it. The exception is named: torn bytes that happen to begin with the right seal of other lines: of shorter ones than
/// the put's, or of lines of a beginning. Nothing here runs.
pub fn crashes_are_read()
    ensures { CrashIsRead }
{}

/// A cut is told: where only a front of a journal at rest is there, it is refused as damaged, or as no journal. Nothing
/// here runs.
pub fn cuts_are_told()
    ensures { CutIsTold }
{}

/// What a journal at rest tells is one list of lines. Nothing here runs.
pub fn lines_are_one()
    ensures { LinesAreOne }
{}

/// The last seal vouches for all lines: two lists of lines with the same last seal are the same, or a put of each has one
/// seal that was made of different bytes. Nothing here runs.
pub fn last_seals_vouch()
    ensures { LastSealVouches }
{}

/// A change is told: a journal at rest in which one byte was changed is not read as a whole file of other lines, unless a
/// put of each has one seal that was made of different bytes. Nothing here runs.
pub fn changes_are_told()
    ensures { ChangeIsTold }
{}

/// A journal begins with the lines that it was begun with, whatever is put behind them that is not marked. Nothing here runs.
pub fn beginnings_stay()
    ensures { BeginningStays }
{}
