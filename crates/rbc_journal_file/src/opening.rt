//! Opening the file of a journal, and the new file that takes its place.

use crate::paths::is_link;
use crate::{Call, CallFailed, JournalPaths, Role, SystemFile};
use std::alloc::AllocGlobal;
use std::fs::{File, Files, Metadata, OpenOptions, TryLockError};
use std::io::{ErrorKind, Read, Write};
use std::os::unix::fs::{MetadataExt, OpenOptionsExt, fchown};
use std::{fs, io};

/// Why the file of a journal is not opened.
#[derive(Clone, Copy, Debug)]
pub enum OpenFault {
    /// Another centre has it.
    InUse,
    /// It has another name, a hard link: a new file in its place would not have that.
    OtherName,
    /// The file, another one of the journal's or their folder failed.
    File(CallFailed),
    /// The allocator refused memory.
    Memory,
}

impl OpenFault {
    /// That this call on this file failed.
    fn of(call: Call, role: Role, error: io::Error) -> OpenFault {
        match error.kind() {
            ErrorKind::OutOfMemory => OpenFault::Memory,
            _ => OpenFault::File(CallFailed { call, role, error }),
        }
    }
}

/// The answer to a call on a file.
///
/// # Errors
/// `File`; `Memory`.
fn asked<T>(call: Call, role: Role, answer: io::Result<T>) -> Result<T, OpenFault> {
    match answer {
        Ok(value) => Ok(value),
        Err(error) => Err(OpenFault::of(call, role, error)),
    }
}

/// What was found where a journal stands. Until it is dropped no other centre can open the file.
#[derive(Drop)]
pub struct FoundFile<'a> {
    bytes: Option<Vec<u8>>,
    place: &'a JournalPaths,
    file: Option<File>,
}

/// Looks for the file of a journal. Nothing is written, and none is made if it is missing.
///
/// # Errors
/// `InUse` or `OtherName`, before the file is read; `File`, also where a link leads nowhere; `Memory`.
pub fn open<'a, R: Files<File = File> + AllocGlobal>(
    rt: &R,
    place: &'a JournalPaths,
) -> Result<FoundFile<'a>, OpenFault> {
    let Some(mut file) = locked(rt, place.of(Role::Journal))? else {
        return Ok(FoundFile {
            bytes: None,
            place,
            file: None,
        });
    };
    let mut bytes = Vec::new(rt.alloc());
    asked(Call::Read, Role::Journal, file.read_to_end(&mut bytes))?;
    Ok(FoundFile {
        bytes: Some(bytes),
        place,
        file: Some(file),
    })
}

/// The file of this path, locked, if there is one.
///
/// # Errors
/// The errors of [`open`].
fn locked<R: Files<File = File>>(rt: &R, path: &str) -> Result<Option<File>, OpenFault> {
    if is_link(rt, path) {
        return Err(refused("a link that leads to no file"));
    }
    let file = match OpenOptions::new().read(true).write(true).open(rt, path) {
        Ok(file) => file,
        Err(error) if error.kind() == ErrorKind::NotFound => return Ok(None),
        Err(error) => return Err(OpenFault::of(Call::Open, Role::Journal, error)),
    };
    if !metadata(&file, Role::Journal)?.is_file() {
        return Err(refused("no regular file"));
    }
    lock(&file, Role::Journal)?;
    // Between the two calls another centre may have put a new file in place of it.
    let here = metadata(&file, Role::Journal)?;
    let there = asked(Call::Open, Role::Journal, fs::symlink_metadata(rt, path))?;
    if here.dev() != there.dev() || here.ino() != there.ino() {
        return Err(OpenFault::InUse);
    }
    if here.nlink() > 1 {
        return Err(OpenFault::OtherName);
    }
    Ok(Some(file))
}

/// That a journal's file is not opened for this reason.
fn refused(reason: &str) -> OpenFault {
    let error = io::Error::new(ErrorKind::InvalidInput, reason);
    OpenFault::of(Call::Open, Role::Journal, error)
}

/// What the system knows of an open file.
fn metadata(file: &File, role: Role) -> Result<Metadata, OpenFault> {
    asked(Call::Open, role, file.metadata())
}

/// Locks a file.
///
/// # Errors
/// `InUse`, where another centre has locked it; `File`.
fn lock(file: &File, role: Role) -> Result<(), OpenFault> {
    match file.try_lock() {
        Ok(()) => Ok(()),
        Err(TryLockError::WouldBlock) => Err(OpenFault::InUse),
        Err(TryLockError::Error(error)) => Err(OpenFault::of(Call::Lock, role, error)),
    }
}

/// Puts the names in a folder on the disk.
fn sync_folder<R: Files<File = File>>(rt: &R, place: &JournalPaths) -> Result<(), OpenFault> {
    let folder = fs::open(rt, place.of(Role::Folder));
    let folder = asked(Call::Open, Role::Folder, folder)?;
    asked(Call::Sync, Role::Folder, folder.sync_all())
}

/// Makes the file of a new journal, empty and locked.
///
/// # Errors
/// `InUse`, where a file is there already; `File`.
pub fn create<R: Files<File = File>>(
    rt: &R,
    place: &JournalPaths,
) -> Result<SystemFile, OpenFault> {
    let file = match File::create_new(rt, place.of(Role::Journal)) {
        Ok(file) => file,
        Err(error) if error.kind() == ErrorKind::AlreadyExists => return Err(OpenFault::InUse),
        Err(error) => return Err(OpenFault::of(Call::Open, Role::Journal, error)),
    };
    lock(&file, Role::Journal)?;
    sync_folder(rt, place)?;
    Ok(SystemFile::new(file))
}

impl FoundFile<'_> {
    /// The bytes of the file. None where there is no file.
    pub fn bytes(&self) -> Option<&[u8]> {
        match &self.bytes {
            Some(bytes) => Some(bytes.as_slice()),
            None => None,
        }
    }

    /// Puts a new file with a journal's text and a closed gate in place of the one that was found, and on the disk. What is
    /// dropped of that is kept beside it first.
    ///
    /// # Errors
    /// `InUse`, where another centre has put a file there by now; `File`.
    pub fn replaced<R: Files<File = File>>(
        &self,
        rt: &R,
        text: &[u8],
        dropped: &[u8],
    ) -> Result<SystemFile, OpenFault> {
        self.keep(rt, dropped)?;
        let mut file = self.begin_new(rt)?;
        asked(Call::Write, Role::New, file.write_all(text))?;
        asked(Call::Write, Role::New, file.write_all(b"#"))?;
        asked(Call::Sync, Role::New, file.sync_all())?;
        let (new, path) = (self.place.of(Role::New), self.place.of(Role::Journal));
        asked(Call::Rename, Role::New, fs::rename(rt, new, path))?;
        sync_folder(rt, self.place)?;
        Ok(SystemFile::in_place(file))
    }

    /// The new file: empty, locked, and for its owner alone until it is like the one that was found.
    fn begin_new<R: Files<File = File>>(&self, rt: &R) -> Result<File, OpenFault> {
        let file = OpenOptions::new()
            .read(true)
            .write(true)
            .create(true)
            .mode(self.first_mode())
            .open(rt, self.place.of(Role::New));
        let file = asked(Call::Open, Role::New, file)?;
        lock(&file, Role::New)?;
        if self.file.is_none() && self.is_there(rt)? {
            return Err(OpenFault::InUse);
        }
        asked(Call::Write, Role::New, file.set_len(0))?;
        self.liken(&file, Role::New)?;
        Ok(file)
    }

    /// Whether a file is there by now.
    fn is_there<R: Files<File = File>>(&self, rt: &R) -> Result<bool, OpenFault> {
        let there = fs::exists(rt, self.place.of(Role::Journal));
        asked(Call::Open, Role::Journal, there)
    }

    /// The permissions with which a file is made: for its owner alone, until it is like the one that was found.
    fn first_mode(&self) -> u32 {
        if self.file.is_some() { 0o600 } else { 0o666 }
    }

    /// Gives a file the permissions of the one that was found, and its owner and group, if the system lets it.
    fn liken(&self, file: &File, role: Role) -> Result<(), OpenFault> {
        let Some(found) = &self.file else {
            return Ok(());
        };
        let (old, new) = (metadata(found, Role::Journal)?, metadata(file, role)?);
        if old.gid() != new.gid() {
            let _ = fchown(file, None, Some(old.gid()));
        }
        if old.uid() != new.uid() {
            let _ = fchown(file, Some(old.uid()), None);
        }
        if old.mode() != new.mode() {
            asked(Call::Permit, role, file.set_permissions(old.permissions()))?;
        }
        Ok(())
    }

    /// Keeps what is dropped: it is put behind what is in the file for it, and on the disk.
    fn keep<R: Files<File = File>>(&self, rt: &R, dropped: &[u8]) -> Result<(), OpenFault> {
        if dropped.is_empty() {
            return Ok(());
        }
        let file = OpenOptions::new()
            .append(true)
            .create(true)
            .mode(self.first_mode())
            .open(rt, self.place.of(Role::Cut));
        let mut file = asked(Call::Open, Role::Cut, file)?;
        self.liken(&file, Role::Cut)?;
        asked(Call::Write, Role::Cut, file.write_all(dropped))?;
        asked(Call::Sync, Role::Cut, file.sync_all())?;
        sync_folder(rt, self.place)
    }
}
