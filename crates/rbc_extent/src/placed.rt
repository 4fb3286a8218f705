//! Where a report places its train.

ghost use Rattle.std.specs.Prelude.{◌≡◌, ◌≤◌, ◌*◌};
ghost use Rattle.rbc_model.specs.Lines.{line_length};
ghost use Rattle.rbc_model.specs.declared.limits.TheConstants.{LONGEST_TRACK, MOST_SECTIONS};

use rbc_line::Line;
use std::marker::Model;

/// Where a report places its train: its line, the place on it of the balise group that the report counts from (the
/// origin), and its extent from the min safe rear end to the front. Places are in metres from the line's start.
#[derive(Drop)]
pub struct Placed {
    line: Line,
    origin: u32,
    rear: u32,
    front: u32,
}

impl Model for Placed {
    ghost use Rattle.rbc_extent.specs.TrainsOnTracks.{PlacedOnTrack, placed_on_line, StandsOnLine};

    ghost Value = { PlacedOnTrack };

    ghost view = { λ p. record { track = p.line.track; placed = placed_on_line p.line p.origin p.rear p.front } };

    ghost invariant = { λ p. StandsOnLine p.line p.origin p.rear p.front };
}

impl Placed {
    ghost use Rattle.rbc_extent.specs.TrainsOnTracks.{placed_on_line, StandsOnLine};

    /// The placing on this line.
    pub(crate) fn new(line: Line, origin: u32, rear: u32, front: u32) -> Placed
        requires { StandsOnLine line origin rear front }
        ensures track { result.track ≡ line.track }
        ensures placed { result.placed ≡ placed_on_line line origin rear front }
    {
        Placed {
            line,
            origin,
            rear,
            front,
        }
    }

    /// Neither the group nor the rear lies beyond the front, and the front not beyond the line's end, at most
    /// 409,600,000 metres from its start. This does nothing.
    pub fn known(&self)
        ensures group { self.now.placed.origin ≤ self.now.placed.front }
        ensures behind { self.now.placed.rear ≤ self.now.placed.front }
        ensures on_line { self.now.placed.front ≤ line_length self.now.track self.now.placed.line }
        ensures few_metres { self.now.placed.front ≤ MOST_SECTIONS * LONGEST_TRACK }
    {
        self.line.known();
    }

    /// The legs that the train runs along.
    pub fn line(&self) -> &Line
        ensures track { result.now.track ≡ self.now.track }
        ensures legs { result.now.legs ≡ self.now.placed.line }
    {
        &self.line
    }

    /// The place of the balise group that the report counts from.
    pub fn origin(&self) -> u32
        ensures origin { result ≡ self.now.placed.origin }
    {
        self.origin
    }

    /// The place of the first metre that the train may stand on.
    pub fn rear(&self) -> u32
        ensures rear { result ≡ self.now.placed.rear }
    {
        self.rear
    }

    /// The place behind the last metre that the train may stand on.
    pub fn front(&self) -> u32
        ensures front { result ≡ self.now.placed.front }
    {
        self.front
    }

    /// The line alone.
    pub fn into_line(self) -> Line
        ensures track { result.track ≡ self.track }
        ensures legs { result.legs ≡ self.placed.line }
    {
        self.line
    }
}
