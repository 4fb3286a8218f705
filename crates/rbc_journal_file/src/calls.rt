//! What is asked of a file. No contract says what it does.

use std::fs::File;
use std::io;
use std::io::{Seek, SeekFrom, Write};

/// The calls on a file that is open for writing.
pub trait Calls {
    /// Writes all of these bytes at an offset.
    ///
    /// # Errors
    /// The file failed.
    fn write(&mut self, at: u64, bytes: &[u8]) -> io::Result<()>;

    /// Asks that all of it be on the disk.
    ///
    /// # Errors
    /// The file failed.
    fn sync(&mut self) -> io::Result<()>;

    /// Puts a new file with these bytes, in two parts, in place of it, and on the disk.
    ///
    /// # Errors
    /// The file, the new one or their folder failed.
    fn replace(&mut self, front: &[u8], rest: &[u8]) -> io::Result<()>;
}

/// A file of the system, which keeps its lock until it is dropped.
#[derive(Drop)]
pub struct SystemFile {
    file: File,
    is_new: bool,
}

impl SystemFile {
    /// A file that has taken the place of an older one, if there was any, and has all that counts in that.
    pub(crate) fn in_place(file: File) -> SystemFile {
        SystemFile {
            file,
            is_new: false,
        }
    }

    /// An empty file that was made just now.
    pub(crate) fn new(file: File) -> SystemFile {
        SystemFile { file, is_new: true }
    }
}

impl Calls for SystemFile {
    fn write(&mut self, at: u64, bytes: &[u8]) -> io::Result<()> {
        self.file.seek(SeekFrom::Start(at))?;
        self.file.write_all(bytes)
    }

    fn sync(&mut self) -> io::Result<()> {
        self.file.sync_data()
    }

    // A file in place of another has these bytes already: `FoundFile::replaced` has put it there.
    fn replace(&mut self, front: &[u8], rest: &[u8]) -> io::Result<()> {
        if self.is_new {
            self.write(0, front)?;
            self.file.write_all(rest)?;
            self.file.sync_all()?;
        }
        if self.file.metadata()?.len() != front.len() as u64 + rest.len() as u64 {
            return Err(io::Error::other("it has another length"));
        }
        Ok(())
    }
}
