//! What stands behind the first line of a fault: what the system says of a file, or where the fault lies.

use std::alloc::Global;
use std::fmt::{self, Display};

/// Lines behind the first line of a fault, each indented by two spaces. None where there was no memory for them.
#[derive(Debug, Drop)]
pub struct Reason {
    lines: Option<String>,
}

impl Reason {
    /// No lines.
    pub(crate) fn none() -> Reason {
        Reason { lines: None }
    }

    /// Lines that are indented already.
    pub(crate) fn of_lines(lines: String) -> Reason {
        Reason { lines: Some(lines) }
    }

    /// What is said of the file of this path.
    pub(crate) fn of_file<D: Display>(alloc: Global, path: &str, said: &D) -> Reason {
        Reason {
            lines: format!(in alloc; "  {path}: {said}\n").ok(),
        }
    }

    /// What is said of this port of the machine.
    pub(crate) fn of_port<D: Display>(alloc: Global, port: u16, said: &D) -> Reason {
        Reason {
            lines: format!(in alloc; "  port {port}: {said}\n").ok(),
        }
    }
}

impl Display for Reason {
    fn fmt<W: fmt::Write>(&self, f: &mut fmt::Formatter<W>) -> fmt::Result {
        match &self.lines {
            Some(lines) => f.write_str(lines.as_str()),
            None => Ok(()),
        }
    }
}
