//! How it is decided, leg by leg, whether a scene is a good one, and whether it is as what was told leaves it. Nothing here runs.
#![tactic(auto)]

ghost use Rattle.rbc_good_laws.specs.Laws.{AuthoritiesAreApartBySections, GoodScenesAreDecided, HeldAreLockedByLegs, RowsAreBehindByNext};
ghost use Rattle.rbc_good_laws.specs.Laws.{EmptyScenesAreTold, HistoriesLeadToScenesThatPass, ScenesStayTold, ToldScenesAreDecided, ToldTrainsAreDecided};

/// Whether a scene is a good one is told by a test over its rows, and over the legs and sections of its trains' lines. The parts that speak of each
/// metre are told by sections and by legs.
pub fn good_scenes_are_decided()
    ensures apart { AuthoritiesAreApartBySections }
    ensures locked { HeldAreLockedByLegs }
    ensures behind { RowsAreBehindByNext }
    ensures good { GoodScenesAreDecided }
{}

/// In each scene that is led to from the empty one each train stands where its last report tells, and each row is one that its route needs. Whether a
/// scene is so is told by a test.
pub fn scenes_stay_told()
    ensures trains { ToldTrainsAreDecided }
    ensures scenes { ToldScenesAreDecided }
    ensures empty { EmptyScenesAreTold }
    ensures kept { ScenesStayTold }
    ensures histories { HistoriesLeadToScenesThatPass }
{}
