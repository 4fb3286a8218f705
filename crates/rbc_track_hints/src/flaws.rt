//! Why an entry may not stand in a track.

use rbc_track::{LegName, Name};
use thiserror::Error;

/// What is wrong with an entry of a track's parts. Other entries are named by their numbers, counted from 1.
#[derive(Clone, Copy, Debug, Error)]
pub(crate) enum Flaw {
    /// An earlier section, group or route has the name.
    #[error("{0} {1} has this name")]
    Named(&'static str, usize),
    /// A speed or a gradient lasts too few metres from this one on.
    #[error("{0} from {1} m on lasts {2} m, and 25 m at least are expected")]
    Short(&'static str, u32, u32),
    /// There is no such section.
    #[error("no section {0}")]
    NoSection(Name),
    /// Both legs of a link are of one section.
    #[error("both legs are of section {0}")]
    OneSection(Name),
    /// An earlier link joins the legs.
    #[error("link {0} joins these legs")]
    Joined(usize),
    /// A group stands beyond the end of its section.
    #[error("offset {0} lies beyond the {1} m of section {2}")]
    Beyond(u32, u32, Name),
    /// A route has too few or too many legs.
    #[error("{0} legs, and 1 to 64 are expected")]
    Legs(usize),
    /// A route has two legs of one section.
    #[error("section {0} stands there twice")]
    Twice(Name),
    /// No link joins two legs that follow one another.
    #[error("{0} and {1} have no link")]
    NoLink(LegName, LegName),
    /// A route is entered from one of its legs that is not the last.
    #[error("it is entered from its leg {0}, which is not the last")]
    Entered(LegName),
}
