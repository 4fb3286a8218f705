//! What a session shows on request, and how it ends.

ghost use Rattle.std.specs.Prelude.{◌≡◌};
ghost use Rattle.rbc_model.specs.declared.sessions.SessionFault.TheVariants.{Memory as NoMemory};

use crate::Memory;
use thiserror::Error;

/// What a line of a session asks to be shown. Nothing is entered for it.
#[derive(Clone, Copy, Debug, PartialEq, Eq)]
pub enum Inquiry {
    /// How far the history is: its version, how many trains there are, and how many sections are locked.
    State,
    /// The scene, as lines.
    Scene,
}

/// Why a session over lines of text ends before the end of its input. `Memory` comes before anything is read. Then, for
/// each line in order, come `Read`, `Write` and `Overlong`, and after the last line that is treated `Read` and `Lines`.
#[derive(Clone, Copy, Debug, PartialEq, Eq, Error)]
pub enum SessionFault {
    /// The reader failed. Each line that was treated has its whole reply.
    #[error("read fault")]
    Read,
    /// The writer failed. A part of the replies is written, from their start.
    #[error("write fault")]
    Write,
    /// The input goes on after 1,000,000 lines.
    #[error("too many lines")]
    Lines,
    /// A line has more bytes than a line of the session may have. It is refused, and no line after it is treated.
    #[error("overlong line")]
    Overlong,
    /// There is no memory to keep a line in. Nothing is read or written.
    #[error("out of memory")]
    Memory,
}

impl From<Memory> for SessionFault {
    ghost from_gives = { λ _ fault. fault ≡ NoMemory };

    fn from(_refused: Memory) -> SessionFault {
        SessionFault::Memory
    }
}
