//! Where the file of a journal stands, and those beside it that are its own.

use crate::Role;
use std::alloc::{AllocError, AllocGlobal, Global};
use std::fs::{self, Files};
use std::io::ErrorKind;

/// The paths of a journal: its file, the new one that takes its place, what is kept of dropped bytes, and their folder.
#[derive(Debug, Drop)]
pub struct JournalPaths {
    path: String,
    new_path: String,
    cut_path: String,
    folder: String,
}

impl JournalPaths {
    /// The place of the file with this path, or of the one that a symbolic link at this path leads to.
    ///
    /// # Errors
    /// The allocator refused memory.
    pub fn at<R: Files + AllocGlobal>(rt: &R, path: &str) -> Result<JournalPaths, AllocError> {
        let alloc = rt.alloc();
        if !is_link(rt, path) {
            return JournalPaths::just_at(alloc, path);
        }
        match fs::canonicalize(rt, path) {
            Ok(end) => JournalPaths::just_at(alloc, end.as_str()),
            Err(error) if error.kind() == ErrorKind::OutOfMemory => Err(AllocError),
            Err(_) => JournalPaths::just_at(alloc, path),
        }
    }

    /// The place at just this path.
    ///
    /// # Errors
    ///
    /// There is no memory for the paths.
    fn just_at(alloc: Global, path: &str) -> Result<JournalPaths, AllocError> {
        Ok(JournalPaths {
            path: with_end(alloc, path, "")?,
            new_path: with_end(alloc, path, ".new")?,
            cut_path: with_end(alloc, path, ".cut")?,
            folder: with_end(alloc, folder_of(path), "")?,
        })
    }

    /// The path of this file.
    pub fn of(&self, role: Role) -> &str {
        match role {
            Role::Journal => self.path.as_str(),
            Role::New => self.new_path.as_str(),
            Role::Cut => self.cut_path.as_str(),
            Role::Folder => self.folder.as_str(),
        }
    }
}

/// Whether a symbolic link stands at a path.
pub(crate) fn is_link(rt: &impl Files, path: &str) -> bool {
    fs::symlink_metadata(rt, path).is_ok_and(|there| there.is_symlink())
}

/// A path with an end.
fn with_end(alloc: Global, path: &str, end: &str) -> Result<String, AllocError> {
    let mut whole = String::new(alloc);
    whole.push_str(path)?;
    whole.push_str(end)?;
    Ok(whole)
}

/// The folder in which a path ends.
fn folder_of(path: &str) -> &str {
    match path.rsplit_once('/') {
        Some(("", _)) => "/",
        Some((folder, _)) => folder,
        None => ".",
    }
}
