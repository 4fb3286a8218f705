//! What the lines of a scene tell: that they are read back as this scene, and that what they tell of a grant is what is granted.
//! Nothing here runs.
#![tactic(auto)]

ghost use Rattle.rbc_text_laws.specs.ToldScenes.{EmptyScenesAreTellable, NextIsWhatIsShown, SceneLinesAreReadBack, ScenesOfHistoriesAreReadBack};

/// The lines of a scene tell all of it: they are read back as its version and this scene, which any history led to.
/// What is told of what a train would be granted next is what it is shown if it asks.
pub fn scene_lines_are_read_back()
    ensures scene { SceneLinesAreReadBack }
    ensures history { ScenesOfHistoriesAreReadBack }
    ensures empty { EmptyScenesAreTellable }
    ensures next { NextIsWhatIsShown }
{}
