//! What the search for a train's reach finds, and the ends that the train may be granted.

ghost use Rattle.std.specs.Prelude.{◌≡◌, ◌-◌, ◌≤◌, ◌&&◌, nat_le, true, IfSome};
ghost use Rattle.rbc_model.specs.Lines.{line_length};
ghost use Rattle.rbc_model.specs.Scales.{is_expressible};
ghost use Rattle.rbc_model.specs.Scenes.{Scene};
ghost use Rattle.rbc_model.specs.Views.{greatest_end, is_expressible_end, is_safe, reach};
ghost use Rattle.rbc_reach_laws.specs.Nearest.{is_ahead};

use crate::bounds::nearest_end;
use rbc_book::{Line, Train};
use rbc_model::Obstacle;
use rbc_model::scales::is_expressible;
use std::marker::Model;

/// Whether the place lies beyond the train's front and beyond its group, and takes nothing of its authority back.
fn is_ahead(train: &Train, end: u32) -> bool
    ensures { result ≡ is_ahead train.now.train end }
{
    train.front() < end && train.to() <= end && train.origin() < end
}

/// Whether the train may be granted this end, if its reach is at this place.
fn may_end(train: &Train, place: u32, end: u32) -> bool
    ensures granted { result ≡ (is_ahead train.now.train end && nat_le end place
        && is_expressible train.now.track.format (end - train.now.train.origin)) }
    ensures reached { result ≡ true → end ≤ place }
{
    let format = train.line().track().format();
    let distance = end.saturating_sub(train.origin());
    is_ahead(train, end) && end <= place && is_expressible(format, distance)
}

/// How far the way of a train is clear, what stands there, and the legs that its way begins with: its line's,
/// and those ahead up to the reach.
#[derive(Drop)]
pub struct Reach {
    place: u32,
    obstacle: Obstacle,
    line: Line,
}

impl Model for Reach {
    ghost use Rattle.std.specs.Prelude.{◌≤◌};
    ghost use Rattle.rbc_model.specs.Lines.{line_length};
    ghost use Rattle.rbc_search.specs.Reaches.{ReachOnTrack};

    ghost Value = { ReachOnTrack };

    ghost view = { λ r. record { track = r.line.track; place = r.place; obstacle = r.obstacle; line = r.line.legs } };

    ghost invariant = { λ r. r.place ≤ line_length r.line.track r.line.legs };
}

impl Reach {
    /// The reach at this place, with this obstacle; the line has each metre before it.
    pub(crate) fn new(place: u32, obstacle: Obstacle, line: Line) -> Reach
        requires { place ≤ line_length line.track line.legs }
        ensures { result ≡ record { track = line.track; place = place; obstacle = obstacle; line = line.legs } }
    {
        Reach {
            place,
            obstacle,
            line,
        }
    }

    /// The line has each metre before the reach. This does nothing.
    pub fn known(&self)
        ensures on_line { self.now.place ≤ line_length self.now.track self.now.line }
    {
        let _ = &self.place;
    }

    /// The first place with an obstacle, counted in metres from the start of the train's line.
    pub fn place(&self) -> u32
        ensures place { result ≡ self.now.place }
    {
        self.place
    }

    /// What stands there.
    pub fn obstacle(&self) -> Obstacle
        ensures { result ≡ self.now.obstacle }
    {
        self.obstacle
    }

    /// The legs that the way begins with. They have each metre before the reach.
    pub fn line(&self) -> &Line
        ensures track { result.now.track ≡ self.now.track }
        ensures legs { result.now.legs ≡ self.now.line }
    {
        &self.line
    }

    /// The greatest end that the train may be granted, if there is one: the last place up to the reach whose distance from
    /// the train's balise group a message can give, if it lies beyond the front and takes nothing back.
    pub fn greatest_end(&self, train: &Train) -> Option<u32>
        ensures greatest { (scene : Scene) → self.now.place ≡ reach train.now.track scene train.now.train
            → result ≡ greatest_end train.now.track scene train.now.train }
        ensures on_line { IfSome result (λ end. end ≤ line_length self.now.track self.now.line) }
    {
        let end = nearest_end(train, self.place);
        if is_ahead(train, end) {
            Some(end)
        } else {
            None
        }
    }

    /// Whether the train may be granted this end: it is safe, and a message can give it.
    pub fn may_end_at(&self, train: &Train, end: u32) -> bool
        ensures granted { (scene : Scene) → self.now.place ≡ reach train.now.track scene train.now.train
            → result ≡ (is_safe train.now.track scene train.now.train end
            && is_expressible_end train.now.track train.now.train end) }
        ensures on_line { result ≡ true → end ≤ line_length self.now.track self.now.line }
    {
        train.known();
        may_end(train, self.place, end)
    }
}
