//! Legs as they are written.

ghost use Rattle.std.specs.Prelude.{◌≡◌, Some};
ghost use Rattle.rbc_model.specs.Names.{leg_in, leg_text, direction_in};

use crate::Name;
use rbc_model::Direction;
use std::fmt;
use std::marker::Model;

/// A leg as it is written: its section's name, and `+` if its offsets rise or `-` if they fall.
#[derive(Clone, Copy, Debug, PartialEq, Eq)]
pub struct LegName {
    section: Name,
    direction: Direction,
}

impl Model for LegName {
    ghost use Rattle.rbc_model.specs.Names.{LegName};

    ghost Value = { LegName };

    ghost view = { λ l. record { section = l.section; direction = l.direction } };

    ghost inverse = { λ l. record { section = l.section; direction = l.direction } };
}

/// The direction that the text is, if it is one.
fn direction_in(text: &[u8]) -> Option<Direction>
    ensures { result ≡ direction_in text.now }
{
    match text {
        [b'+'] => Some(Direction::Rising),
        [b'-'] => Some(Direction::Falling),
        _ => None,
    }
}

impl LegName {
    /// The leg of this section's name and this direction.
    pub fn of(section: Name, direction: Direction) -> LegName
        ensures { result ≡ record { section = section; direction = direction } }
    {
        LegName { section, direction }
    }

    /// The leg that the text is, if it is one.
    pub fn new(text: &[u8]) -> Option<LegName>
        ensures { result ≡ leg_in text.now }
    {
        let (section, sign) = text.split_at(text.len().saturating_sub(1));
        let section = Name::new(section)?;
        let direction = direction_in(sign)?;
        Some(LegName { section, direction })
    }

    /// The name of the leg's section.
    pub fn section(&self) -> Name
        ensures { result ≡ self.now.section }
    {
        self.section
    }

    /// Which way the leg runs along its section.
    pub fn direction(&self) -> Direction
        ensures { result ≡ self.now.direction }
    {
        self.direction
    }
}

impl fmt::Display for LegName {
    ghost output = { λ leg. Some (leg_text leg) };

    fn fmt<W: fmt::Write>(&self, f: &mut fmt::Formatter<W>) -> fmt::Result {
        let section = self.section;
        match self.direction {
            Direction::Rising => write!(f, "{section}+"),
            Direction::Falling => write!(f, "{section}-"),
        }
    }
}
