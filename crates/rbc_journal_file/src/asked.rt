//! What is asked of the files of a journal, and which call failed.

use std::fmt::Display;
use std::{fmt, io};

/// What is asked of a file.
#[derive(Clone, Copy, Debug, PartialEq, Eq)]
pub enum Call {
    /// That it be opened, or found.
    Open,
    /// That it be locked.
    Lock,
    /// That all of it be read.
    Read,
    /// That bytes be written, or all of it be cut off.
    Write,
    /// That all of it be on the disk.
    Sync,
    /// That it have the name of another one.
    Rename,
    /// That a new one take its place.
    Replace,
    /// That it have other permissions.
    Permit,
}

impl Display for Call {
    fn fmt<W: fmt::Write>(&self, f: &mut fmt::Formatter<W>) -> fmt::Result {
        match self {
            Call::Open => write!(f, "open"),
            Call::Lock => write!(f, "lock"),
            Call::Read => write!(f, "read"),
            Call::Write => write!(f, "write"),
            Call::Sync => write!(f, "sync"),
            Call::Rename => write!(f, "rename"),
            Call::Replace => write!(f, "replacement"),
            Call::Permit => write!(f, "permissions"),
        }
    }
}

/// Which of the files of a journal.
#[derive(Clone, Copy, Debug, PartialEq, Eq)]
pub enum Role {
    /// The journal.
    Journal,
    /// The new file that takes its place when it is opened.
    New,
    /// The file that keeps what is dropped.
    Cut,
    /// The folder with all of them.
    Folder,
}

/// A call that failed.
#[derive(Clone, Copy, Debug)]
pub struct CallFailed {
    /// The call.
    pub call: Call,
    /// The file that it was asked of.
    pub role: Role,
    /// What the system said.
    pub error: io::Error,
}
