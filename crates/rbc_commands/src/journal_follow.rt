//! A journal that is followed while its centre runs.

use crate::failure::Failure;
use crate::journal_fault::JournalFault;
use crate::output::{ended, standard_output};
use rbc_journal_report::{Doubt, FollowFault, LookFailed, Watched, follow};
use rbc_streams::SessionFault;
use std::fs::{self, Files};
use std::io::ErrorKind;
use std::sync::Wait;
use std::thread;
use std::time::{Clock, Duration};

/// How long lies between two looks at a journal, in milliseconds.
const SLICE: u64 = 100;

/// Writes the lines that the file of a journal tells, and each one more that comes to be kept, until nobody reads them or
/// the file can't be followed any more. The file is only read.
///
/// # Errors
///
/// `Journal`; `Session`, where a write fails; `Memory`.
pub(crate) fn follow_file(
    rt: &(impl Files + Print + Wait + Clock + AllocGlobal),
    path: &str,
    given: Option<[u8; 64]>,
) -> Result<(), Failure> {
    let alloc = rt.alloc();
    let mut watch = FileWatch {
        rt,
        path,
        bytes: Vec::new(alloc),
        was_read: false,
    };
    let mut output = standard_output(rt)?;
    let failure = match follow(rt, alloc, &mut watch, given, &mut output) {
        Ok(Doubt::Unread(fault)) => Failure::unread(fault, given),
        Ok(Doubt::Another) => JournalFault::Another.into(),
        Err(fault) => fault.into(),
    };
    ended(output, Err(failure))
}

/// The file at a path, which is read again and again.
#[derive(Drop)]
struct FileWatch<'a, R> {
    rt: &'a R,
    path: &'a str,
    /// What was read last.
    bytes: Vec<u8>,
    was_read: bool,
}

impl<R: Files + Clock + AllocGlobal> Watched for FileWatch<'_, R> {
    ghost found = { λ watch. watch.bytes.items };

    fn look(&mut self) -> Result<bool, LookFailed> {
        if self.was_read {
            thread::sleep(self.rt, Duration::from_millis(SLICE));
        }
        let bytes = match fs::read(self.rt, self.path) {
            Ok(bytes) => bytes,
            Err(error) if error.kind() == ErrorKind::OutOfMemory => return Err(LookFailed::Memory),
            Err(_) => return Err(LookFailed::Unreadable),
        };
        let is_new = !self.was_read || bytes.as_slice() != self.bytes.as_slice();
        self.bytes = bytes;
        self.was_read = true;
        Ok(is_new)
    }

    fn bytes(&self) -> &[u8] {
        self.bytes.as_slice()
    }
}

impl From<FollowFault> for Failure {
    fn from(fault: FollowFault) -> Failure {
        match fault {
            FollowFault::Unreadable => JournalFault::Unreadable.into(),
            FollowFault::Memory => Failure::Memory,
            FollowFault::Write => Failure::Session(SessionFault::Write),
        }
    }
}
