//! Lines that stand behind a fault.

use rbc_model::Memory;
use rbc_trackfile::MOST_FAULTS;
use std::alloc::Global;

/// The lines so far.
#[derive(Drop)]
pub(crate) struct Lines {
    text: String,
    count: usize,
}

impl Lines {
    /// No lines.
    pub(crate) fn new(alloc: Global) -> Lines {
        Lines {
            text: String::new(alloc),
            count: 0,
        }
    }

    /// Whether there are as many as are told at once.
    pub(crate) fn are_full(&self) -> bool {
        self.count >= MOST_FAULTS
    }

    /// Adds a line, indented by two spaces.
    ///
    /// # Errors
    ///
    /// The allocator refused memory.
    pub(crate) fn add(&mut self, line: String) -> Result<(), Memory> {
        self.text.push_str("  ")?;
        self.text.push_str(line.as_str())?;
        self.text.push_str("\n")?;
        self.count = self.count.saturating_add(1);
        Ok(())
    }

    /// Their text.
    pub(crate) fn into_text(self) -> String {
        self.text
    }
}
