//! The file of a centre's history. What stands there is kept until a new file with the whole history takes its place.

ghost use Rattle.std.specs.Prelude.{◌≡◌, false, OnOk};
ghost use Rattle.rbc_show.specs.Records.{begin_of};
ghost use Rattle.rbc_show.specs.Retelling.{IsRetold};

use crate::failure::Failure;
use crate::reason::Reason;
use rbc_command_line::CentreOptions;
use rbc_show::sessions::{Record, print_history};
use rbc_streams::{Sink, Stream, WriteFailed};
use rbc_words::{Word, print_line};
use std::alloc::Global;
use std::fs::{File, Files, Metadata, OpenOptions};
use std::io::ErrorKind;
use std::os::unix::fs::{FileTypeExt, MetadataExt};
use std::{fs, io};
use thiserror::Error;

/// Why no history is written to the file that is named for it.
#[derive(Clone, Copy, Debug, PartialEq, Eq, Error)]
pub enum HistoryFault {
    /// It can't be made, or not be written to its end.
    #[error("history: Unwritable")]
    Unwritable,
    /// It is the journal.
    #[error("history: IsJournal")]
    IsJournal,
    /// It is the track file.
    #[error("history: IsTrack")]
    IsTrack,
    /// The standard input is read from it.
    #[error("history: IsInput")]
    IsInput,
    /// It is a folder.
    #[error("history: IsFolder")]
    IsFolder,
}

/// Where a history will be written.
#[derive(Drop)]
pub(crate) enum HistoryFile {
    /// Behind what stands at this path, as of a device or a pipe.
    Straight(String),
    /// To a new file, which then takes the place of an older one, if there is any.
    Anew(NewFile),
}

/// A new file, which is empty and locked, and where it goes.
#[derive(Drop)]
pub(crate) struct NewFile {
    file: File,
    new_path: String,
    path: String,
}

/// The fault that the system finds with the file of a path.
fn unwritable(alloc: Global, path: &str, error: &io::Error) -> Failure {
    match error.kind() {
        ErrorKind::OutOfMemory => Failure::Memory,
        _ => Failure::History(
            HistoryFault::Unwritable,
            Reason::of_file(alloc, path, error),
        ),
    }
}

/// Looks where the history of a centre can be written, if it is to be, and makes the new file for it. The centre's other files
/// have been opened, so that each has its place.
///
/// # Errors
///
/// `History`, where the file can't be written, is one of the others or a folder; `Memory`.
pub(crate) fn history_of<R: Files<File = File> + AllocGlobal>(
    rt: &R,
    centre: &CentreOptions<'_>,
) -> Result<Option<HistoryFile>, Failure> {
    match centre.history {
        Some(path) => Ok(Some(begin_history(rt, path, centre)?)),
        None => Ok(None),
    }
}

/// Looks where the history of a centre can be written at this path, and makes the new file for it.
fn begin_history<R: Files<File = File> + AllocGlobal>(
    rt: &R,
    path: &str,
    centre: &CentreOptions<'_>,
) -> Result<HistoryFile, Failure> {
    let alloc = rt.alloc();
    let found = match fs::metadata(rt, path) {
        Ok(found) => found,
        Err(error) if is_free(rt, path, &error) => return begin_new(rt, path),
        Err(error) => return Err(unwritable(alloc, path, &error)),
    };
    if found.is_dir() {
        return Err(Failure::History(HistoryFault::IsFolder, Reason::none()));
    }
    if is_written_straight(rt, &found) {
        return Ok(HistoryFile::Straight(String::from_str(alloc, path)?));
    }
    if let Some(fault) = fault_of(rt, &found, centre) {
        return Err(Failure::History(fault, Reason::none()));
    }
    begin_over(rt, path, &found)
}

/// Whether the error says that nothing stands at the path, and nothing does, not even a link to nowhere.
fn is_free(rt: &impl Files, path: &str, error: &io::Error) -> bool {
    let is_missing = error.kind() == ErrorKind::NotFound && !path.is_empty();
    is_missing && fs::symlink_metadata(rt, path).is_err()
}

/// Whether the file of the path is the one that was found.
pub(crate) fn is_at(rt: &impl Files, path: &str, found: &Metadata) -> bool {
    match fs::metadata(rt, path) {
        Ok(other) => other.dev() == found.dev() && other.ino() == found.ino(),
        Err(_) => false,
    }
}

/// Whether what was found is a device or a pipe, or what the standard output or the standard error is written to: there a
/// history stands behind what is written before.
fn is_written_straight(rt: &impl Files, found: &Metadata) -> bool {
    let kind = found.file_type();
    kind.is_char_device()
        || kind.is_fifo()
        || is_at(rt, "/proc/self/fd/1", found)
        || is_at(rt, "/proc/self/fd/2", found)
}

/// Why the file that was found may not be written anew.
fn fault_of(rt: &impl Files, found: &Metadata, centre: &CentreOptions<'_>) -> Option<HistoryFault> {
    let places = [
        (centre.journal, HistoryFault::IsJournal),
        (Some(centre.track), HistoryFault::IsTrack),
        (Some("/proc/self/fd/0"), HistoryFault::IsInput),
    ];
    for (path, fault) in places {
        if path.is_some_and(|path| is_at(rt, path, found)) {
            return Some(fault);
        }
    }
    None
}

/// Makes the new file that will take the place of the one that was found, which could be written itself.
fn begin_over<R: Files<File = File> + AllocGlobal>(
    rt: &R,
    path: &str,
    found: &Metadata,
) -> Result<HistoryFile, Failure> {
    let alloc = rt.alloc();
    if let Err(error) = OpenOptions::new().write(true).open(rt, path) {
        return Err(unwritable(alloc, path, &error));
    }
    let real = match linked_to(rt, path) {
        Ok(real) => real,
        Err(error) => return Err(unwritable(alloc, path, &error)),
    };
    let begun = begin_new(rt, real.as_str())?;
    if let HistoryFile::Anew(new) = &begun {
        // A file system that has no permissions keeps none.
        let _ = new.file.set_permissions(found.permissions());
    }
    Ok(begun)
}

/// The path itself, or the one that it leads to, where it is a link.
fn linked_to<R: Files + AllocGlobal>(rt: &R, path: &str) -> io::Result<String> {
    if fs::symlink_metadata(rt, path)?.is_symlink() {
        return Ok(fs::canonicalize(rt, path)?.into_string());
    }
    Ok(String::from_str(rt.alloc(), path)?)
}

/// Makes the new file for a path.
fn begin_new<R: Files<File = File> + AllocGlobal>(
    rt: &R,
    path: &str,
) -> Result<HistoryFile, Failure> {
    let alloc = rt.alloc();
    let new_path = format!(in alloc; "{path}.new")?;
    let file = match empty_file(rt, new_path.as_str()) {
        Ok(file) => file,
        Err(error) => return Err(unwritable(alloc, new_path.as_str(), &error)),
    };
    Ok(HistoryFile::Anew(NewFile {
        file,
        new_path,
        path: String::from_str(alloc, path)?,
    }))
}

/// An empty file, locked. One that a killed centre left empty is taken as new; what another one has is left as it is.
fn empty_file<R: Files<File = File>>(rt: &R, path: &str) -> io::Result<File> {
    let file = OpenOptions::new().write(true).create(true).open(rt, path)?;
    let is_locked = file.try_lock().is_ok();
    if !is_locked || file.metadata()?.len() != 0 {
        return Err(ErrorKind::AlreadyExists.into());
    }
    Ok(file)
}

impl HistoryFile {
    /// Writes the lines of a record's history, behind a comment that names the scene that it begins with, if a file told that.
    ///
    /// # Errors
    ///
    /// `History`, where they can't be written to their end. What stood at the file's place stands there still then. `Memory`,
    /// where there is none for the writer.
    pub(crate) fn write<R: Files<File = File> + AllocGlobal>(
        self,
        rt: &R,
        history: &Record,
        scene: Option<u64>,
    ) -> Result<(), Failure>
        requires { IsRetold (begin_of history.now) history.now.entries }
    {
        match self {
            HistoryFile::Straight(path) => write_straight(rt, path.as_str(), history, scene),
            HistoryFile::Anew(new) => new.write(rt, history, scene),
        }
    }

    /// Takes the new file away, where there is no history to be written.
    pub(crate) fn give_up(self, rt: &impl Files) {
        if let HistoryFile::Anew(new) = self {
            let _ = fs::remove_file(rt, new.new_path.as_str());
        }
    }
}

/// Writes a history behind what stands at a path.
fn write_straight<R: Files<File = File> + AllocGlobal>(
    rt: &R,
    path: &str,
    history: &Record,
    scene: Option<u64>,
) -> Result<(), Failure>
    requires { IsRetold (begin_of history.now) history.now.entries }
{
    let alloc = rt.alloc();
    match OpenOptions::new().append(true).open(rt, path) {
        Ok(file) => {
            let _ = write_lines(alloc, path, file, history, scene)?;
            Ok(())
        }
        Err(error) => Err(unwritable(alloc, path, &error)),
    }
}

/// Writes a comment that names the scene of this version as the beginning, if one is given.
fn print_beginning<W: Sink>(scene: Option<u64>, writer: &mut W) -> Result<(), WriteFailed>
    requires { W.failed writer.old ≡ false }
    ensures going { OnOk result (W.failed writer.new ≡ false) }
{
    let Some(version) = scene else {
        return Ok(());
    };
    print_line(b"# begins with scene", &[Word::Count(version)], writer)
}

/// Writes a history behind its beginning.
fn print_all<W: Sink>(
    history: &Record,
    scene: Option<u64>,
    writer: &mut W,
) -> Result<(), WriteFailed>
    requires going { W.failed writer.old ≡ false }
    requires retold { IsRetold (begin_of history.now) history.now.entries }
{
    print_beginning(scene, writer)?;
    print_history(history, writer)
}

/// Writes the lines of a history to the file of this path, and gives it back.
fn write_lines(
    alloc: Global,
    path: &str,
    file: File,
    history: &Record,
    scene: Option<u64>,
) -> Result<File, Failure>
    requires { IsRetold (begin_of history.now) history.now.entries }
{
    let mut writer = Stream::writer(alloc, file)?;
    match print_all(history, scene, &mut writer) {
        Ok(()) => Ok(writer.into_writer()),
        Err(_) => Err(Failure::History(
            HistoryFault::Unwritable,
            Reason::of_file(alloc, path, &"not written to its end"),
        )),
    }
}

impl NewFile {
    /// Writes a history to it, and puts it in its place. It is taken away again where it can't be.
    fn write<R: Files<File = File> + AllocGlobal>(
        self,
        rt: &R,
        history: &Record,
        scene: Option<u64>,
    ) -> Result<(), Failure>
        requires { IsRetold (begin_of history.now) history.now.entries }
    {
        let NewFile {
            file,
            new_path,
            path,
        } = self;
        let written = write_lines(rt.alloc(), new_path.as_str(), file, history, scene);
        let placed = match written {
            Ok(file) => place(rt, &file, new_path.as_str(), path.as_str()),
            Err(failure) => Err(failure),
        };
        if placed.is_err() {
            let _ = fs::remove_file(rt, new_path.as_str());
        }
        placed
    }
}

/// Puts a new file that is written to its end in the place of an older one, once it is on the disk.
fn place<R: Files<File = File> + AllocGlobal>(
    rt: &R,
    file: &File,
    new_path: &str,
    path: &str,
) -> Result<(), Failure> {
    let alloc = rt.alloc();
    if let Err(error) = file.sync_all() {
        return Err(unwritable(alloc, new_path, &error));
    }
    match fs::rename(rt, new_path, path) {
        Ok(()) => Ok(()),
        Err(error) => Err(unwritable(alloc, path, &error)),
    }
}
