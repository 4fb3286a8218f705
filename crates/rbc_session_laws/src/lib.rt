//! What a line of a session is answered, and that all answers of a session are one function of the track, of the record at its start and of what
//! was read. Nothing here runs.
#![tactic(auto)]

mod command;

ghost use Rattle.rbc_session_laws.specs.AskedNext.{NextsAreAsked};
ghost use Rattle.rbc_session_laws.specs.CheckAnswers.{ChecksAreAnswered};
ghost use Rattle.rbc_session_laws.specs.Laws.{GrantsAreOne, GrantsAreReadBack, LinesAreAnswered, SessionsAreAnswered, SessionsAreOne, WrittenIsAnswered};
ghost use Rattle.rbc_session_laws.specs.Retelling.{EntriesAreToldAgain, HistoriesAreSessions, ReadsAreSayable};
ghost use Rattle.rbc_session_laws.specs.Retelling.{LegalHistoriesAreRetold, RequestsAreReadBack};
ghost use Rattle.rbc_session_laws.specs.Retelling.{RetoldEntriesAreOfTrack, RetoldHistoriesAreSessions, SessionsAreRetold};
ghost use Rattle.rbc_session_laws.specs.StepsAnswers.{StepsLinesAreAnswered, StepsWrittenIsAnswered};

pub use command::Command;

/// What a session answers, line by line and as a whole, where memory is not refused.
pub fn sessions_are_answered()
    ensures grants { GrantsAreOne }
    ensures read_back { GrantsAreReadBack }
    ensures lines { LinesAreAnswered }
    ensures sessions { SessionsAreAnswered }
    ensures one { SessionsAreOne }
    ensures written { WrittenIsAnswered }
    ensures nexts { NextsAreAsked }
{}

/// What a session of `rbc steps` answers, line by line and as a whole, where memory is not refused.
pub fn steps_are_answered()
    ensures lines { StepsLinesAreAnswered }
    ensures written { StepsWrittenIsAnswered }
{}

/// What `rbc check` answers, and whether it tells that each block is certified, where memory is not refused.
pub fn checks_are_answered()
    ensures written { ChecksAreAnswered }
{}

/// A history is a session: the lines of its entries are read back, and lead to the same entries again.
pub fn histories_are_sessions()
    ensures read { RequestsAreReadBack }
    ensures sayable { ReadsAreSayable }
    ensures lines { EntriesAreToldAgain }
    ensures of_track { RetoldEntriesAreOfTrack }
    ensures retold { RetoldHistoriesAreSessions }
    ensures sessions { SessionsAreRetold }
    ensures histories { HistoriesAreSessions }
    ensures legal { LegalHistoriesAreRetold }
{}
