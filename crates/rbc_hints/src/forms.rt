//! The requests of a session, and what their words are.

use rbc_model::limits::{
    FARTHEST_KEPT, FARTHEST_REPORT, LAST_COUNTRY, LAST_GROUP, LAST_TIME, LAST_TRAIN, LONGEST_NAME,
    LONGEST_TRAIN, MOST_DOUBT,
};
use std::fmt::{self, Display};

/// What a word behind a command is.
#[derive(Clone, Copy, Debug, PartialEq, Eq)]
pub(crate) enum Slot {
    Train,
    Group,
    Direction,
    Distance,
    Over,
    Under,
    Length,
    Time,
    Route,
    Section,
    Kept,
}

/// All of them, in the order in which help tells them.
pub(crate) const SLOTS: [Slot; 11] = [
    Slot::Train,
    Slot::Group,
    Slot::Direction,
    Slot::Distance,
    Slot::Over,
    Slot::Under,
    Slot::Length,
    Slot::Time,
    Slot::Route,
    Slot::Section,
    Slot::Kept,
];

impl Slot {
    /// How it is called in a form.
    pub(crate) fn letters(self) -> &'static str {
        match self {
            Slot::Train => "T",
            Slot::Group => "G",
            Slot::Direction => "D",
            Slot::Distance => "DIST",
            Slot::Over => "OVER",
            Slot::Under => "UNDER",
            Slot::Length => "LEN",
            Slot::Time => "TIME",
            Slot::Route => "R",
            Slot::Section => "S",
            Slot::Kept => "END",
        }
    }

    /// What it tells.
    pub(crate) fn meaning(self) -> &'static str {
        match self {
            Slot::Train => "the train's number",
            Slot::Group => "the balise group that it passed last, country and number",
            Slot::Direction => "whether it runs in the group's nominal direction",
            Slot::Distance => "from the group to its front",
            Slot::Over => "by how much that may be told too great",
            Slot::Under => "by how much that may be told too small",
            Slot::Length => "its length",
            Slot::Time => "its time, which message 3 sends back",
            Slot::Route => "a route's name",
            Slot::Section => "a section's name",
            Slot::Kept => "from the group up to where it keeps its authority",
        }
    }
}

/// What may stand there.
impl Display for Slot {
    fn fmt<W: fmt::Write>(&self, f: &mut fmt::Formatter<W>) -> fmt::Result {
        match self {
            Slot::Train => write!(f, "1 to {LAST_TRAIN}"),
            Slot::Group => write!(f, "C/B, 0 to {LAST_COUNTRY} and 0 to {LAST_GROUP}"),
            Slot::Direction => f.write_str("nominal or reverse"),
            Slot::Distance => write!(f, "0 to {FARTHEST_REPORT} m"),
            Slot::Over | Slot::Under => write!(f, "0 to {MOST_DOUBT} m"),
            Slot::Length => write!(f, "1 to {LONGEST_TRAIN} m"),
            Slot::Time => write!(f, "0 to {LAST_TIME}, in units of 10 ms"),
            Slot::Route | Slot::Section => {
                write!(f, "1 to {LONGEST_NAME} letters, digits and _")
            }
            Slot::Kept => write!(f, "0 to {FARTHEST_KEPT} m"),
        }
    }
}

/// A request: its command, the words behind it, and what it is for.
#[derive(Clone, Copy, Debug)]
pub(crate) struct Form {
    pub(crate) command: &'static str,
    pub(crate) slots: &'static [Slot],
    pub(crate) purpose: &'static str,
}

/// A form as it is written: the command, and how its words are called.
impl Display for Form {
    fn fmt<W: fmt::Write>(&self, f: &mut fmt::Formatter<W>) -> fmt::Result {
        f.write_str(self.command)?;
        for slot in self.slots {
            f.write_str(" ")?;
            f.write_str(slot.letters())?;
        }
        Ok(())
    }
}

/// The words behind `report`.
const REPORT: &[Slot] = &[
    Slot::Train,
    Slot::Group,
    Slot::Direction,
    Slot::Distance,
    Slot::Over,
    Slot::Under,
    Slot::Length,
    Slot::Time,
];

/// The requests of a session.
pub(crate) const FORMS: &[Form] = &[
    Form {
        command: "report",
        slots: REPORT,
        purpose: "a train tells where it is",
    },
    Form {
        command: "lock",
        slots: &[Slot::Route],
        purpose: "a route is locked",
    },
    Form {
        command: "free",
        slots: &[Slot::Section],
        purpose: "a section is freed",
    },
    Form {
        command: "leave",
        slots: &[Slot::Train],
        purpose: "a train leaves",
    },
    Form {
        command: "yield",
        slots: &[Slot::Train, Slot::Kept],
        purpose: "a train gives back what it holds beyond END",
    },
    Form {
        command: "ask",
        slots: &[Slot::Train],
        purpose: "a train asks for an authority",
    },
    Form {
        command: "state",
        slots: &[],
        purpose: "how many trains and locked sections there are",
    },
    Form {
        command: "scene",
        slots: &[],
        purpose: "the locks and the trains, as lines",
    },
];

/// The form of the request with this command.
pub(crate) fn form_of(command: &[u8]) -> Option<&'static Form> {
    FORMS.iter().find(|form| form.command.as_bytes() == command)
}
