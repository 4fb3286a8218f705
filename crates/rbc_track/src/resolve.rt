//! Parts with their sections by number.

ghost use Rattle.std.specs.Prelude.{◌≡◌, map, IfOk};
ghost use Rattle.rbc_model.specs.TrackParts.{leg_of, link_of, group_of, route_of};

use crate::section_table::Sections;
use crate::{GroupPart, LegName, LinkPart, Route, RoutePart};
use rbc_model::{BaliseGroup, Leg, Link, Memory};
use std::alloc::Global;

/// The leg, its section by number.
pub(crate) fn leg_of(sections: &Sections, leg: &LegName) -> Leg
    ensures { result ≡ leg_of sections.now leg.now }
{
    Leg {
        section: sections.number(leg.section()),
        direction: leg.direction(),
    }
}

/// The link, its sections by number.
pub(crate) fn link_of(sections: &Sections, link: &LinkPart) -> Link
    ensures { result ≡ link_of sections.now link.now }
{
    Link {
        from: leg_of(sections, &link.from),
        to: leg_of(sections, &link.to),
    }
}

/// The group, its section by number.
pub(crate) fn group_of(sections: &Sections, group: &GroupPart) -> BaliseGroup
    ensures { result ≡ group_of sections.now group.now }
{
    BaliseGroup {
        name: group.name,
        section: sections.number(group.section),
        offset: group.offset,
        nominal: group.nominal,
    }
}

/// The legs, their sections by number.
fn legs_of(alloc: Global, sections: &Sections, legs: &[LegName]) -> Result<Vec<Leg>, Memory>
    ensures { IfOk result (λ list. list.items ≡ map (leg_of sections.now) legs.now) }
{
    Ok(legs.iter().map(|leg| leg_of(sections, leg)).collect(alloc)?)
}

/// The route, its sections by number.
pub(crate) fn route_of(
    alloc: Global,
    sections: &Sections,
    route: &RoutePart,
) -> Result<Route, Memory>
    ensures { IfOk result (λ made. made ≡ route_of sections.now route.now) }
{
    let legs = legs_of(alloc, sections, &route.legs)?;
    let after = route.after.map(|leg| leg_of(sections, &leg));
    Ok(Route::new(route.name, after, legs))
}
