//! The routes of a track, each found by its name.

ghost use Rattle.std.specs.Prelude.{◌≡◌, [], ◌∷◌, ◌++◌, not, false, bytes_eq, length, position, Err, OnOk};
ghost use Rattle.std.specs.List.{list_any};
ghost use Rattle.rbc_model.specs.Answers.{AnswersOrMemory};
ghost use Rattle.rbc_model.specs.declared.memory.OrMemory.TheVariants.{Memory as NoMemory};
ghost use Rattle.rbc_model.specs.SoundTracks.{is_good_route};
ghost use Rattle.rbc_model.specs.declared.tracks.Table.TheVariants.{Routes as RouteTable};
ghost use Rattle.rbc_model.specs.declared.tracks.TrackRefusal.TheVariants.{TwiceNamed, BadRoute};
ghost use Rattle.rbc_track.specs.Making.{sound_routes};
ghost use Rattle.rbc_track.specs.Tables.{with_links, entry_answer};

use crate::links::Links;
use crate::lookup::Names;
use crate::resolve::route_of;
use crate::routes::is_good_route;
use crate::section_table::Sections;
use crate::{Name, Route, RoutePart};
use rbc_model::{OrMemory, RouteId, Table, TrackRefusal};
use std::alloc::Global;
use std::marker::Model;

/// The routes of a track in order, each found by its name.
#[derive(Drop)]
pub(crate) struct Routes {
    routes: Vec<Route>,
    names: Names,
}

impl Model for Routes {
    ghost use Rattle.std.specs.Prelude.{List};
    ghost use Rattle.rbc_model.specs.Tracks.{Route};
    ghost use Rattle.rbc_track.specs.Tables.{IsRouteTable};

    ghost Value = { List Route };

    ghost view = { λ table. table.routes.items };

    ghost invariant = { λ table. IsRouteTable table.routes.items table.names };
}

/// Whether the route leads over links from each of its legs to the next.
fn is_good(sections: &Sections, links: &Links, route: &Route) -> bool
    ensures { result ≡ is_good_route (with_links sections.now links.now) route.now }
{
    is_good_route(links, sections.len(), route.after(), route.legs())
}

/// Judges one more route, behind the routes of these names, and notes its name.
fn note(
    names: &mut Names,
    sections: &Sections,
    links: &Links,
    route: &Route,
    number: usize,
) -> Result<(), OrMemory<TrackRefusal>>
    ensures judged { AnswersOrMemory result (entry_answer
        (not (list_any (λ other. bytes_eq other route.now.name) names.old)) (TwiceNamed RouteTable number)
        (is_good_route (with_links sections.now links.now) route.now) (BadRoute number)) }
    ensures named { OnOk result (names.new ≡ names.old ++ route.now.name ∷ []) }
    ensures memory { result ≡ Err NoMemory → list_any (λ other. bytes_eq other route.now.name) names.old ≡ false }
{
    if !names.insert(route.name())? {
        return Err(OrMemory::Refused(TrackRefusal::TwiceNamed(Table::Routes, number)));
    }
    if !is_good(sections, links, route) {
        return Err(OrMemory::Refused(TrackRefusal::BadRoute(number)));
    }
    Ok(())
}

impl Routes {
    /// The table of these routes, or the first refusal of one.
    pub(crate) fn new(
        alloc: Global,
        sections: &Sections,
        links: &Links,
        parts: &[RoutePart],
    ) -> Result<Routes, OrMemory<TrackRefusal>>
        ensures { AnswersOrMemory result (sound_routes sections.now links.now parts.now) }
    {
        let mut routes = Vec::new(alloc);
        let mut names = Names::new(alloc);
        for part in parts {
            let route = route_of(alloc, sections, part)?;
            note(&mut names, sections, links, &route, routes.len() + 1)?;
            routes.push(route)?;
        }
        Ok(Routes { routes, names })
    }

    /// How many routes there are.
    pub(crate) fn len(&self) -> usize
        ensures { result ≡ length self.now }
    {
        self.routes.len()
    }

    /// The routes in order.
    pub(crate) fn as_slice(&self) -> &[Route]
        ensures { result.now ≡ self.now }
    {
        self.routes.as_slice()
    }

    /// The route of this name.
    pub(crate) fn find(&self, name: Name) -> Option<RouteId>
        ensures { result ≡ position (λ route. bytes_eq route.name name) self.now }
    {
        let index = self.names.position(name)?;
        Some(RouteId::new(index))
    }
}
