//! The replies to what a session asks to be shown.

ghost use Rattle.std.specs.Prelude.{◌≡◌, ◌⊎◌, ◌∷◌, [], ℕ, List, false, codes, decimal};
ghost use Rattle.rbc_model.specs.SceneLines.{scene_lines};
ghost use Rattle.rbc_model.specs.SessionReply.{refused_reply, Memory};
ghost use Rattle.rbc_model.specs.Sessions.{Prints};
ghost use Rattle.rbc_model.specs.Words.{line_of};

use crate::scene::{LinesFault, print_scene};
use rbc_replies::{SessionRefusal, SessionReply, print};
use rbc_scene::Scene;
use rbc_streams::{Sink, WriteFailed};
use rbc_words::{Word, print_line};
use std::alloc::Global;

/// Writes how far a history is: its version, how many trains there are, and how many sections are locked. It takes no memory.
///
/// # Errors
///
/// `WriteFailed`, where the writer fails. Then a part of the line stands, from its start.
pub fn print_state<W: Sink>(
    version: u64,
    trains: usize,
    locked: usize,
    writer: &mut W,
) -> Result<(), WriteFailed>
    requires { W.failed writer.old ≡ false }
    ensures { Prints (W.written writer.old) (W.written writer.new) (W.failed writer.new)
        (line_of (codes "state" ∷ decimal version ∷ decimal trains ∷ decimal locked ∷ [])) result }
{
    let words = [
        Word::Count(version),
        Word::Count(trains as u64),
        Word::Count(locked as u64),
    ];
    print_line(b"state", &words, writer)
}

/// Writes the reply that shows a scene: its lines, as [`print_scene`] does, or that memory was refused.
///
/// # Errors
///
/// `WriteFailed`, where the writer fails. Then a part of the reply stands, from its start.
pub fn print_shown<W: Sink>(
    alloc: Global,
    version: u64,
    scene: &Scene,
    writer: &mut W,
) -> Result<(), WriteFailed>
    requires { W.failed writer.old ≡ false }
    ensures { (reply : List ℕ)
        × ((reply ≡ scene_lines scene.now.track version scene.now.scene) ⊎ (reply ≡ refused_reply scene.now.track Memory))
        × Prints (W.written writer.old) (W.written writer.new) (W.failed writer.new) reply result }
{
    match print_scene(alloc, version, scene, writer) {
        Ok(()) => Ok(()),
        Err(LinesFault::Write) => Err(WriteFailed),
        Err(LinesFault::Memory) => {
            let refused = SessionReply::Refused(SessionRefusal::Memory);
            print(scene.track(), &refused, writer)
        }
    }
}
