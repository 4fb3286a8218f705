//! The situation in which a report comes.

ghost use Rattle.std.specs.Prelude.{◌≡◌};
ghost use Rattle.std.specs.Arc.{arc_value};
ghost use Rattle.std.specs.Option.{ForSome};
ghost use Rattle.rbc_scene_laws.specs.Good.{IsGoodLocks};

use rbc_line::Line;
use rbc_locks::Locks;
use rbc_track::Track;
use std::sync::Arc;

/// The situation in which a report comes: the track, the locks, and the line of its train so far, if the train is
/// known.
#[derive(Clone, Copy)]
pub(crate) struct Situation<'a> {
    pub(crate) track: &'a Arc<Track>,
    pub(crate) locks: &'a Locks,
    pub(crate) known: Option<&'a Line>,
    pub(crate) ghost locks_lead: { IsGoodLocks (arc_value track.now) locks.now },
    pub(crate) ghost of_track: { ForSome known (λ line. line.now.track ≡ arc_value track.now) },
}
