//! How far a history is.

ghost use Rattle.std.specs.Prelude.{◌≡◌};
ghost use Rattle.rbc_model.specs.Inquiries.{locked_count};
ghost use Rattle.rbc_desk.specs.States.{state_at};

use rbc_model::SectionId;
use rbc_snap::Scene;

/// How far a history is, and what there is in the scene that it leads to.
#[derive(Clone, Copy, Debug, PartialEq, Eq)]
pub struct State {
    /// The version: how many entries the history has.
    pub version: u64,
    /// How many trains have reported and not left.
    pub trains: usize,
    /// How many sections are locked.
    pub locked: usize,
}

/// How many sections are locked in the scene.
fn locked_count(scene: &Scene) -> usize
    ensures { result ≡ locked_count scene.now.scene.locks }
{
    let locks = scene.locks();
    let mut locked = 0;
    for index in 0..locks.section_count() {
        if locks.row(SectionId::new(index)).is_some() {
            locked += 1;
        }
    }
    locked
}

impl State {
    /// The state of a history of this version that leads to this scene. It takes no memory.
    pub fn of(version: u64, scene: &Scene) -> State
        ensures { result ≡ state_at version scene.now.scene }
    {
        State {
            version,
            trains: scene.book().len(),
            locked: locked_count(scene),
        }
    }
}
