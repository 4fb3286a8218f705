//! What every legal history is, whatever program made it.

ghost use Rattle.rbc_record.specs.Laws.{LegalHistoriesAreBest, LegalHistoriesBeginLegally, EndsAreFarthest, ProfilesAreBest, AuthoritiesStayApart};

/// What every legal history on a sound track is. Nothing here runs.
pub fn legal_histories_are_best()
    ensures best { LegalHistoriesAreBest }
    ensures beginnings { LegalHistoriesBeginLegally }
    ensures ends { EndsAreFarthest }
    ensures profiles { ProfilesAreBest }
    ensures apart { AuthoritiesStayApart }
{}
