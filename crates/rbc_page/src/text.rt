//! Lines of tracks and scenes, as texts in memory.

ghost use Rattle.std.specs.Prelude.{◌≡◌, IfOk};
ghost use Rattle.rbc_model.specs.SceneLines.{scene_lines};
ghost use Rattle.rbc_model.specs.TrackLines.{track_lines};

use rbc_lines::{Scene, print_scene, print_track};
use rbc_model::Memory;
use rbc_streams::Text;
use rbc_track::Track;
use std::alloc::Global;

/// The lines of a scene of this version.
///
/// # Errors
///
/// [`Memory`]: there is none for them, or none to see what each train would be granted.
pub fn scene_text(alloc: Global, version: u64, scene: &Scene) -> Result<Vec<u8>, Memory>
    ensures { IfOk result (λ text. text.items ≡ scene_lines scene.now.track version scene.now.scene) }
{
    let mut text = Text::new(alloc);
    match print_scene(alloc, version, scene, &mut text) {
        Ok(()) => Ok(text.bytes),
        Err(_) => Err(Memory),
    }
}

/// The lines of a track.
///
/// # Errors
///
/// [`Memory`]: there is none for them.
pub fn track_text(alloc: Global, track: &Track) -> Result<Vec<u8>, Memory>
    ensures { IfOk result (λ text. text.items ≡ track_lines track.now) }
{
    let mut text = Text::new(alloc);
    match print_track(track, &mut text) {
        Ok(()) => Ok(text.bytes),
        Err(_) => Err(Memory),
    }
}
