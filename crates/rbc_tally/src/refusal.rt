//! Why lines are refused, as the word behind `refused` says it.

use std::fmt;
use std::fmt::Display;

/// How many kinds there are.
pub const KINDS: usize = 21;

/// The word behind `refused`.
#[derive(Clone, Copy, Debug, PartialEq, Eq)]
pub enum RefusalKind {
    /// More bytes than a line may have.
    Overlong,
    /// Bytes that are no text.
    NotText,
    /// No such command.
    Command,
    /// Too few words or too many.
    Words,
    /// A word that is no number of its range.
    Number,
    /// A word that is no name of its form.
    Name,
    /// A name that the track does not have.
    UnknownName,
    /// The history is full.
    Full,
    /// A section of the route is locked.
    Clash,
    /// The leg before the route leads on already.
    LinkTaken,
    /// The section is not locked.
    NotLocked,
    /// A train stands on the section, or holds a metre of it.
    Busy,
    /// There is no such train.
    UnknownTrain,
    /// Nothing that a train can give back.
    YieldRange,
    /// There are as many trains as there may be.
    Crowded,
    /// A group that the track does not have.
    UnknownGroup,
    /// The train's line does not lead to the group.
    Offline,
    /// The train can't be placed on a line of one way.
    Unplaced,
    /// The train is too far from its group.
    TooFar,
    /// The line found no memory.
    Memory,
    /// Any other word.
    Other,
}

impl RefusalKind {
    /// All of them, in order.
    pub const ALL: [RefusalKind; KINDS] = [
        RefusalKind::Overlong,
        RefusalKind::NotText,
        RefusalKind::Command,
        RefusalKind::Words,
        RefusalKind::Number,
        RefusalKind::Name,
        RefusalKind::UnknownName,
        RefusalKind::Full,
        RefusalKind::Clash,
        RefusalKind::LinkTaken,
        RefusalKind::NotLocked,
        RefusalKind::Busy,
        RefusalKind::UnknownTrain,
        RefusalKind::YieldRange,
        RefusalKind::Crowded,
        RefusalKind::UnknownGroup,
        RefusalKind::Offline,
        RefusalKind::Unplaced,
        RefusalKind::TooFar,
        RefusalKind::Memory,
        RefusalKind::Other,
    ];

    /// Its word.
    pub fn name(self) -> &'static str {
        match self {
            RefusalKind::Overlong => "Overlong",
            RefusalKind::NotText => "NotText",
            RefusalKind::Command => "Command",
            RefusalKind::Words => "Words",
            RefusalKind::Number => "Number",
            RefusalKind::Name => "Name",
            RefusalKind::UnknownName => "UnknownName",
            RefusalKind::Full => "Full",
            RefusalKind::Clash => "Clash",
            RefusalKind::LinkTaken => "LinkTaken",
            RefusalKind::NotLocked => "NotLocked",
            RefusalKind::Busy => "Busy",
            RefusalKind::UnknownTrain => "UnknownTrain",
            RefusalKind::YieldRange => "YieldRange",
            RefusalKind::Crowded => "Crowded",
            RefusalKind::UnknownGroup => "UnknownGroup",
            RefusalKind::Offline => "Offline",
            RefusalKind::Unplaced => "Unplaced",
            RefusalKind::TooFar => "TooFar",
            RefusalKind::Memory => "Memory",
            RefusalKind::Other => "Other",
        }
    }

    /// The one with this word.
    pub(crate) fn named(word: &[u8]) -> RefusalKind {
        for refusal in RefusalKind::ALL {
            if refusal.name().as_bytes() == word {
                return refusal;
            }
        }
        RefusalKind::Other
    }
}

impl Display for RefusalKind {
    fn fmt<W: fmt::Write>(&self, f: &mut fmt::Formatter<W>) -> fmt::Result {
        f.write_str(self.name())
    }
}
