//! What a line of a session asks the centre for.

use rbc_model::{Inquiry, Told};

/// What a line asks for, its names resolved in the track.
#[derive(Clone, Copy, Debug, PartialEq, Eq)]
pub enum Command {
    /// Nothing: the line has no reply.
    Nothing,
    /// Something is told.
    Event(Told),
    /// The train of this number asks for an authority.
    Authority(u32),
    /// Something is to be shown. Nothing is entered for it.
    Show(Inquiry),
}
