//! How far a train may run, told by legs: what a search for its reach may walk. Nothing here runs.
#![tactic(auto)]

ghost use Rattle.rbc_reach_laws.specs.Laws.{DistancesAreGreatest, GreatestEndsAreToldByTheReach};
ghost use Rattle.rbc_reach_laws.specs.Laws.{ReachesAreNearest, TrainsAreBlockedWhereNoEndIs, WalksFindTheReach};

/// How the reach is found by legs, on every track, in every scene, for every train.
pub fn reaches_are_found_by_legs()
    ensures nearest { ReachesAreNearest }
    ensures walks { WalksFindTheReach }
{}

/// How the greatest end is found by the reach, in either format.
pub fn ends_are_found_by_the_reach()
    ensures distances { DistancesAreGreatest }
    ensures greatest { GreatestEndsAreToldByTheReach }
    ensures blocked { TrainsAreBlockedWhereNoEndIs }
{}
