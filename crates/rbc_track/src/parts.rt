//! The parts that a track is made of.

use crate::{LegName, Name, Section, StepLimit};
use rbc_model::{Direction, Format, GroupName};
use std::marker::Model;

/// A link from one leg to another.
#[derive(Clone, Copy, Debug)]
pub struct LinkPart {
    pub from: LegName,
    pub to: LegName,
}

impl Model for LinkPart {
    ghost use Rattle.rbc_model.specs.TrackParts.{LinkPart};

    ghost Value = { LinkPart };

    ghost view = { λ l. record { from = l.from; to = l.to } };

    ghost inverse = { λ l. record { from = l.from; to = l.to } };
}

/// A balise group: its identity, its section, how many metres from the section's start it stands, and its nominal
/// direction.
#[derive(Clone, Copy, Debug)]
pub struct GroupPart {
    pub name: GroupName,
    pub section: Name,
    pub offset: u32,
    pub nominal: Direction,
}

impl Model for GroupPart {
    ghost use Rattle.rbc_model.specs.TrackParts.{GroupPart};

    ghost Value = { GroupPart };

    ghost view = { λ g. record { name = g.name; section = g.section; offset = g.offset; nominal = g.nominal } };

    ghost inverse = { λ g. record { name = g.name; section = g.section; offset = g.offset; nominal = g.nominal } };
}

/// A route: the leg that it is entered from, if it has one, and its legs in order.
#[derive(Debug, Drop)]
pub struct RoutePart {
    pub name: Name,
    pub after: Option<LegName>,
    pub legs: Vec<LegName>,
}

impl Model for RoutePart {
    ghost use Rattle.rbc_model.specs.TrackParts.{RoutePart};

    ghost Value = { RoutePart };

    ghost view = { λ r. record { name = r.name; after = r.after; legs = r.legs.items } };
}

/// The parts that a track is made of. They name sections by their names.
#[derive(Drop)]
pub struct Parts {
    /// How far from its balise group an authority may end.
    pub format: Format,
    /// How many steps a profile of speeds may have.
    pub speed_steps: StepLimit,
    /// How many steps a profile of gradients may have.
    pub grade_steps: StepLimit,
    pub sections: Vec<Section>,
    pub links: Vec<LinkPart>,
    pub groups: Vec<GroupPart>,
    pub routes: Vec<RoutePart>,
}
