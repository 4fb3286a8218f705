//! How a centre that serves is watched: what it has done is counted, and told each minute, if a log is kept.

use crate::failure::Failure;
use rbc_command_line::Terms;
use rbc_duty::server::ServeFault;
use rbc_model::Memory;
use rbc_port::{Minutes, Watch};
use rbc_show::sessions::EntryLimit;
use std::io::Eprint;
use std::sync::{Arc, Mutex, Wait};
use std::thread;
use std::thread::Threads;
use std::time::{Clock, Duration};

/// How long the thread that tells minutes rests between two looks, in milliseconds.
const REST: u64 = 500;

/// The watch of a centre that serves on these terms, and whose history may have so many entries.
///
/// # Errors
///
/// `Memory`.
pub(crate) fn watch_on<T: Clock + AllocGlobal>(
    rt: &T,
    terms: Terms,
    most: EntryLimit,
) -> Result<Watch, Failure> {
    Ok(Watch::new(rt, rt.alloc(), terms.is_logged, most.entries() as u64)?)
}

/// The lines of the log that tell of minutes, if a log is kept.
#[derive(Drop)]
pub(crate) struct MinuteLog {
    minutes: Option<Arc<Mutex<Minutes>>>,
}

impl MinuteLog {
    /// Begins them, in a thread of its own. Nothing waits for that thread: it ends with the program.
    ///
    /// # Errors
    ///
    /// `Serve`, where no thread can be started; `Memory`.
    pub(crate) fn begin<T: Threads + Wait + Clock + Eprint + AllocGlobal + Copy + Send + 'static>(
        rt: &T,
        watch: &Watch,
    ) -> Result<MinuteLog, Failure> {
        if !watch.is_logged() {
            return Ok(MinuteLog { minutes: None });
        }
        let minutes = Minutes::new(rt, watch.again()?);
        let minutes = Arc::new(rt.alloc(), Mutex::new(minutes)).map_err(Memory::from)?;
        let Ok(shared) = Arc::try_clone(&minutes) else {
            return Err(Failure::Memory);
        };
        let telling = *rt;
        let teller = thread::spawn(rt, move || tell_minutes(&telling, &*shared));
        match teller.is_ok() {
            true => Ok(MinuteLog {
                minutes: Some(minutes),
            }),
            false => Err(Failure::Serve(ServeFault::Memory)),
        }
    }

    /// Tells what was done since the last line, and ends them.
    pub(crate) fn end<T: Wait + Clock + Eprint + AllocGlobal>(self, rt: &T) {
        if let Some(minutes) = self.minutes {
            let mut minutes = minutes.lock(rt);
            (*minutes).end(rt, rt.alloc());
        }
    }
}

/// Tells what was done, minute by minute, until that is ended.
fn tell_minutes<T: Wait + Clock + Eprint + AllocGlobal>(rt: &T, minutes: &Mutex<Minutes>) {
    for _ in 0..u64::MAX {
        thread::sleep(rt, Duration::from_millis(REST));
        let mut minutes = minutes.lock(rt);
        (*minutes).look(rt, rt.alloc());
        if (*minutes).has_ended() {
            return;
        }
    }
}
