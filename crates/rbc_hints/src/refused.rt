//! Why a line is refused, and what is expected in its place.

use crate::locks::Locks;
use crate::names::{Named, unknown};
use crate::refused_lines::{command_of, no_command, no_text, text, too_long, word, words};
use crate::refused_reports::{offline, too_far, unknown_group, unplaced};
use rbc_model::limits::MOST_TRAINS;
use rbc_model::{Memory, Report};
use rbc_track::{LegName, Name, Track};
use rbc_words::{Request, next_word, parse};
use std::alloc::Global;

/// A request that was refused: its line, and what the refusal names.
#[derive(Clone, Copy)]
pub(crate) struct Refused<'a> {
    pub(crate) alloc: Global,
    pub(crate) track: &'a Track,
    pub(crate) locks: &'a Locks,
    pub(crate) line: &'a [u8],
    pub(crate) named: &'a [u8],
}

impl Refused<'_> {
    /// The line behind a refusal of this name, if there is something to say.
    ///
    /// # Errors
    ///
    /// The allocator refused memory.
    pub(crate) fn hint(&self, refusal: &[u8]) -> Result<Option<String>, Memory> {
        let (alloc, line) = (self.alloc, self.line);
        match refusal {
            b"Overlong" => Ok(Some(too_long(alloc)?)),
            b"NotText" => no_text(alloc, line),
            b"Command" => Ok(Some(no_command(alloc, line)?)),
            b"Words" => words(alloc, line),
            b"Number" | b"Name" => word(alloc, line, self.named),
            b"UnknownName" => self.unknown_name(),
            b"UnknownGroup" | b"Offline" | b"Unplaced" | b"TooFar" => self.report(refusal),
            b"Clash" | b"LinkTaken" => self.lock(refusal),
            b"NotLocked" | b"Busy" => self.free(refusal),
            _ => self.other(refusal),
        }
    }

    /// The first word that the refusal names.
    fn first_named(&self) -> &[u8] {
        match next_word(self.named) {
            Some((word, _)) => word,
            None => &[],
        }
    }

    /// The track has no route or section of a name.
    fn unknown_name(&self) -> Result<Option<String>, Memory> {
        let Some(name) = Name::new(self.first_named()) else {
            return Ok(None);
        };
        let named = match command_of(self.line).0 {
            b"lock" => Named::Route,
            _ => Named::Section,
        };
        Ok(Some(unknown(self.alloc, self.track, named, name)?))
    }

    /// A report is refused.
    fn report(&self, refusal: &[u8]) -> Result<Option<String>, Memory> {
        match &parse(self.line) {
            Ok(Request::Report(report)) => self.of_report(refusal, report),
            _ => Ok(None),
        }
    }

    /// What was expected where this is the report that was refused.
    fn of_report(&self, refusal: &[u8], report: &Report) -> Result<Option<String>, Memory> {
        let (alloc, track) = (self.alloc, self.track);
        match refusal {
            b"UnknownGroup" => Ok(Some(unknown_group(alloc, track, report)?)),
            b"Offline" => offline(alloc, track, report),
            b"Unplaced" => unplaced(alloc, track, report),
            _ => Ok(Some(too_far(alloc, track, report)?)),
        }
    }

    /// A route is not locked.
    fn lock(&self, refusal: &[u8]) -> Result<Option<String>, Memory> {
        let alloc = self.alloc;
        let word = self.first_named();
        if let (b"Clash", Some(section)) = (refusal, Name::new(word)) {
            return match self.locks.route_of(section) {
                Some(route) => Ok(Some(format!(in alloc; "{section} is locked by {route}")?)),
                None => Ok(Some(format!(in alloc; "{section} is locked")?)),
            };
        }
        let Some(leg) = LegName::new(word) else {
            return Ok(None);
        };
        match self.locks.behind(leg) {
            Some((section, route)) => Ok(Some(format!(in alloc;
                "{leg} leads to {section}, which is locked by {route}"
            )?)),
            None => Ok(Some(format!(in alloc; "{leg} leads to another section")?)),
        }
    }

    /// A section is not freed.
    fn free(&self, refusal: &[u8]) -> Result<Option<String>, Memory> {
        let alloc = self.alloc;
        let Some((section, rest)) = next_word(self.named) else {
            return Ok(None);
        };
        let section = text(section);
        match (refusal, next_word(rest)) {
            (b"Busy", Some((train, _))) => {
                let train = text(train);
                Ok(Some(format!(in alloc;
                    "train {train} may stand on {section}, or holds a metre of it"
                )?))
            }
            _ => Ok(Some(format!(in alloc; "{section} is locked by no route")?)),
        }
    }

    /// What else a line is refused for.
    fn other(&self, refusal: &[u8]) -> Result<Option<String>, Memory> {
        let alloc = self.alloc;
        let train = text(self.first_named());
        let line = match refusal {
            b"UnknownTrain" => { format!(in alloc; "train {train} has not reported, or has left")? }
            b"YieldRange" => format!(in alloc;
                "END from the front of train {train} on, and before the end of its authority, expected: scene tells them"
            )?,
            b"Crowded" => format!(in alloc;
                "{MOST_TRAINS} other trains are there, and no more can be: one has to leave"
            )?,
            b"Full" => format!(in alloc;
                "the history has as many entries as it may have (--entries): a new one has to begin"
            )?,
            b"Memory" => format!(in alloc; "no memory for it: nothing has changed")?,
            _ => return Ok(None),
        };
        Ok(Some(line))
    }
}
