//! What a train would be granted now, if it asked.

ghost use Rattle.std.specs.Prelude.{◌≡◌, ◌∷◌, ◌++◌, [], map, IfOk, OnOk};
ghost use Rattle.rbc_model.specs.declared.refusals.Obstacle.{Obstacle};
ghost use Rattle.rbc_scene_laws.specs.Good.{IsGoodLocks};
ghost use Rattle.rbc_scene.specs.Reaches.{scene_of};
ghost use Rattle.rbc_lines.specs.Nexts.{next_of};

use rbc_model::{Memory, Obstacle};
use rbc_scene::{Book, Locks, Scene, Train, reach};
use std::alloc::Global;

/// What a train would be granted now. Places are in metres from the start of its line.
#[derive(Drop)]
pub(crate) struct Next {
    /// The greatest end that is safe and that a message can give, if there is one.
    pub(crate) end: Option<u32>,
    /// The first place with an obstacle.
    pub(crate) reach: u32,
    /// What stands there.
    pub(crate) obstacle: Obstacle,
}

/// Puts what a train would be granted now behind the others.
fn push_next(
    alloc: Global,
    locks: &Locks,
    book: &Book,
    train: &Train,
    nexts: &mut Vec<Next>,
) -> Result<(), Memory>
    requires track { train.now.track ≡ book.now.track }
    requires locks { IsGoodLocks book.now.track locks.now }
    ensures { OnOk result (nexts.new.items
        ≡ nexts.old.items ++ next_of book.now.track (scene_of locks.now book.now.trains) train.now.train ∷ []) }
{
    let found = reach(alloc, locks, book, train)?;
    nexts.push(Next {
        end: found.greatest_end(train),
        reach: found.place(),
        obstacle: found.obstacle(),
    })?;
    Ok(())
}

/// What each train of the book would be granted now, in order of arrival.
fn nexts_in(alloc: Global, locks: &Locks, book: &Book) -> Result<Vec<Next>, Memory>
    requires { IsGoodLocks book.now.track locks.now }
    ensures { IfOk result (λ nexts. nexts.items
        ≡ map (next_of book.now.track (scene_of locks.now book.now.trains)) book.now.trains) }
{
    let mut nexts = Vec::new(alloc);
    for train in book.trains() {
        push_next(alloc, locks, book, train, &mut nexts)?;
    }
    Ok(nexts)
}

/// What each train of a scene would be granted now, in order of arrival.
///
/// # Errors
///
/// `Memory`, where the allocator refuses room for them, or for a search.
pub(crate) fn nexts_of(alloc: Global, scene: &Scene) -> Result<Vec<Next>, Memory>
    ensures { IfOk result (λ nexts. nexts.items
        ≡ map (next_of scene.now.track scene.now.scene) scene.now.scene.trains) }
{
    scene.known();
    let nexts = nexts_in(alloc, scene.locks(), scene.book())?;
    Ok(nexts)
}
