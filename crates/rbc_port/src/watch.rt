//! What those who watch a centre are told: its log, and what it has done.

use crate::log::Log;
use rbc_model::Memory;
use rbc_tally::Tally;
use std::alloc::Global;
use std::sync::Arc;
use std::time::Clock;

/// What a centre is watched by: all that has to do with its clients shares it.
#[derive(Drop)]
pub struct Watch {
    pub(crate) log: Log,
    tally: Arc<Tally>,
}

impl Watch {
    /// Nothing has happened yet, at a centre whose history may have this many entries. It keeps a log, if one is wanted.
    ///
    /// # Errors
    /// There is no memory for it.
    pub fn new(
        rt: &impl Clock,
        alloc: Global,
        is_logged: bool,
        most_entries: u64,
    ) -> Result<Watch, Memory> {
        match Arc::new(alloc, Tally::new(most_entries)) {
            Ok(tally) => Ok(Watch {
                log: Log::new(rt, is_logged),
                tally,
            }),
            Err(_) => Err(Memory),
        }
    }

    /// A second watch that writes where this one does.
    ///
    /// # Errors
    /// There are too many.
    pub fn again(&self) -> Result<Watch, Memory> {
        Ok(Watch {
            log: self.log,
            tally: self.shared_tally()?,
        })
    }

    /// Whether a log is kept.
    pub fn is_logged(&self) -> bool {
        self.log.is_kept()
    }

    /// What the centre has done.
    pub fn tally(&self) -> &Tally {
        &*self.tally
    }

    /// What the centre has done, for one more who is told of it.
    ///
    /// # Errors
    /// There are too many.
    pub fn shared_tally(&self) -> Result<Arc<Tally>, Memory> {
        Ok(Arc::try_clone(&self.tally)?)
    }
}
