//! A track, and what it is asked for.

ghost use Rattle.std.specs.Prelude.{◌≡◌, ◌<◌, ◌≤◌, length, slice_get, option_map, Some, Err, IfSome, IfErr};
ghost use Rattle.rbc_model.specs.Tracks.{section_named, route_named, group_named, is_linked, metres_of};
ghost use Rattle.rbc_model.specs.Scales.{farthest};
ghost use Rattle.rbc_model.specs.SoundTracks.{IsInForm, IsSound};
ghost use Rattle.rbc_model.specs.Answers.{AnswersAs, AnswersOrMemory};
ghost use Rattle.rbc_model.specs.TrackParts.{track_of};
ghost use Rattle.rbc_model.specs.declared.limits.TheConstants.{FARTHEST_END_IN_TENS};
ghost use Rattle.rbc_model.specs.declared.memory.OrMemory.TheVariants.{Refused};
ghost use Rattle.rbc_track.specs.Making.{made_of, later_tables};
ghost use Rattle.rbc_track.specs.PartsView.{parts_view};
ghost use Rattle.rbc_track.specs.Tables.{leg_named};

use crate::group_table::Groups;
use crate::judge::told;
use crate::link_table::links_of;
use crate::links::Links;
use crate::route_table::Routes;
use crate::section_table::{Sections, names_of};
use crate::sizes::judge_sizes;
use crate::{GroupPart, LegName, LinkPart, Name, Parts, Route, RoutePart, Section};
use rbc_model::scales::farthest;
use rbc_model::{
    BaliseGroup, Format, GroupName, Leg, Link, OrMemory, RouteId, SectionId, TrackRefusal,
};
use std::alloc::Global;
use std::marker::Model;

/// A track: sections with their speeds and gradients, links between their legs, balise groups and routes. Names and
/// links are found by look-ups.
#[derive(Drop)]
pub struct Track {
    format: Format,
    speed_steps: usize,
    grade_steps: usize,
    sections: Sections,
    links: Links,
    groups: Groups,
    routes: Routes,
}

impl Model for Track {
    ghost use Rattle.rbc_model.specs.Tracks.{Track};
    ghost use Rattle.rbc_track.specs.Tables.{track_with, IsSoundInForm};

    ghost Value = { Track };

    ghost view = { λ t. track_with t.format t.speed_steps t.grade_steps t.sections t.links t.groups t.routes };

    ghost invariant = { λ t.
        IsSoundInForm (track_with t.format t.speed_steps t.grade_steps t.sections t.links t.groups t.routes) };
}

/// The tables that stand over the sections.
struct Tables {
    links: Links,
    groups: Groups,
    routes: Routes,
}

/// The tables of the links, groups and routes, or the first refusal of an entry.
#[tactic(auto, unfolding(crate::specs::Making::later_tables))]
fn tables_of(
    alloc: Global,
    sections: &Sections,
    links: &[LinkPart],
    groups: &[GroupPart],
    routes: &[RoutePart],
) -> Result<Tables, OrMemory<TrackRefusal>>
    ensures { AnswersAs (λ tables. (tables.links, tables.groups, tables.routes)) result
        (later_tables sections.now links.now groups.now routes.now) }
{
    let links = links_of(alloc, sections, links)?;
    let groups = Groups::new(alloc, sections, groups)?;
    let routes = Routes::new(alloc, sections, &links, routes)?;
    Ok(Tables {
        links,
        groups,
        routes,
    })
}

impl Track {
    /// The track that the parts make, or the first reason why they make none. Sizes are judged before all else, and
    /// then sections, links, groups and routes, one entry after the other.
    ///
    /// # Errors
    ///
    /// `Refused` with the first of these:
    /// - `NoSection` and then `TooMany`, before any memory is asked for,
    /// - `TwiceNamed` or `ShortRun` of a section,
    /// - `BadLink`,
    /// - `TwiceNamed` or `BadGroup` of a group,
    /// - `TwiceNamed` or `BadRoute` of a route.
    ///
    /// `Memory` is told of parts that make a track, and of no others: where memory is refused, the parts are judged
    /// without it.
    pub fn new(alloc: Global, parts: Parts) -> Result<Track, OrMemory<TrackRefusal>>
        ensures track { AnswersOrMemory result (track_of (parts_view parts)) }
        ensures refused { IfErr (track_of (parts_view parts)) (λ refusal. result ≡ Err (Refused refusal)) }
    {
        Track::made(alloc, parts)
    }

    /// Makes the track table by table.
    #[tactic(auto, unfolding(crate::specs::Making::made_of))]
    fn made(alloc: Global, parts: Parts) -> Result<Track, OrMemory<TrackRefusal>>
        ensures made { AnswersOrMemory result (made_of (parts_view parts)) }
        ensures refused { IfErr (made_of (parts_view parts)) (λ refusal. result ≡ Err (Refused refusal)) }
    {
        judge_sizes(&parts)?;
        let Parts {
            format,
            speed_steps,
            grade_steps,
            sections,
            links,
            groups,
            routes,
        } = parts;
        let names = match names_of(alloc, &sections) {
            Ok(names) => names,
            Err(fault) => return Err(told(fault, &sections, &links, &groups, &routes)),
        };
        let sections = Sections::of(sections, names);
        let Tables {
            links,
            groups,
            routes,
        } = match tables_of(alloc, &sections, &links, &groups, &routes) {
            Ok(tables) => tables,
            Err(fault) => return Err(told(fault, sections.as_slice(), &links, &groups, &routes)),
        };
        Ok(Track {
            format,
            speed_steps: speed_steps.steps(),
            grade_steps: grade_steps.steps(),
            sections,
            links,
            groups,
            routes,
        })
    }

    /// How many steps a profile of speeds may have: 1 to 31.
    pub fn speed_steps(&self) -> usize
        ensures { result ≡ self.now.speed_steps }
    {
        self.speed_steps
    }

    /// How many steps a profile of gradients may have: 1 to 31.
    pub fn grade_steps(&self) -> usize
        ensures { result ≡ self.now.grade_steps }
    {
        self.grade_steps
    }

    /// How many metres from its balise group an authority may end.
    pub fn farthest_end(&self) -> u32
        ensures end { result ≡ farthest self.now.format }
        ensures at_most { result ≤ FARTHEST_END_IN_TENS }
    {
        farthest(self.format)
    }

    /// Which ends a message may give to the authorities of the track.
    pub fn format(&self) -> Format
        ensures { result ≡ self.now.format }
    {
        self.format
    }

    /// The track is in form and sound. This does nothing.
    pub fn known(&self)
        ensures form { IsInForm self.now }
        ensures sound { IsSound self.now }
    {
        let _ = &self.sections;
    }

    /// How many sections the track has: 1 to 4,096.
    pub fn section_count(&self) -> usize
        ensures count { result ≡ length self.now.sections }
    {
        self.sections.len()
    }

    /// How many routes the track has: up to 4,096.
    pub fn route_count(&self) -> usize
        ensures count { result ≡ length self.now.routes }
    {
        self.routes.len()
    }

    /// The sections in order.
    pub fn sections(&self) -> &[Section]
        ensures { result.now ≡ self.now.sections }
    {
        self.sections.as_slice()
    }

    /// The links in order.
    pub fn links(&self) -> &[Link]
        ensures { result.now ≡ self.now.links }
    {
        self.links.as_slice()
    }

    /// The balise groups in order.
    pub fn groups(&self) -> &[BaliseGroup]
        ensures { result.now ≡ self.now.groups }
    {
        self.groups.as_slice()
    }

    /// The routes in order.
    pub fn routes(&self) -> &[Route]
        ensures { result.now ≡ self.now.routes }
    {
        self.routes.as_slice()
    }

    /// The section of this name.
    pub fn section(&self, name: Name) -> Option<SectionId>
        ensures section { result ≡ section_named self.now name }
        ensures within { IfSome result (λ section. section < length self.now.sections) }
    {
        self.sections.find(name)
    }

    /// The route of this name.
    pub fn route(&self, name: Name) -> Option<RouteId>
        ensures route { result ≡ route_named self.now name }
        ensures within { IfSome result (λ route. route < length self.now.routes) }
    {
        self.routes.find(name)
    }

    /// The balise group of this identity.
    pub fn group(&self, name: GroupName) -> Option<BaliseGroup>
        ensures group { result ≡ group_named self.now name }
        ensures within { IfSome result (λ group. group.section < length self.now.sections) }
    {
        self.groups.find(name)
    }

    /// Whether a train may run from the one leg onto the other.
    pub fn linked(&self, from: Leg, to: Leg) -> bool
        ensures { result ≡ is_linked self.now from to }
    {
        self.links.linked(from, to)
    }

    /// The section of this number.
    pub fn section_at(&self, section: SectionId) -> &Section
        requires { section < length self.now.sections }
        ensures { slice_get self.now.sections section ≡ Some result.now }
    {
        &self.sections.as_slice()[section.index()]
    }

    /// How many metres the leg has: 1 to 100,000.
    pub fn metres_of(&self, leg: &Leg) -> u32
        requires { leg.now.section < length self.now.sections }
        ensures { result ≡ metres_of self.now leg.now.section }
    {
        self.section_at(leg.section).length()
    }

    /// The route of this number.
    pub fn route_at(&self, route: RouteId) -> &Route
        requires { route < length self.now.routes }
        ensures { slice_get self.now.routes route ≡ Some result.now }
    {
        &self.routes.as_slice()[route.index()]
    }

    /// The legs of a route in order.
    pub fn legs_of(&self, route: RouteId) -> &[Leg]
        requires { route < length self.now.routes }
        ensures { option_map (λ r. r.legs) (slice_get self.now.routes route) ≡ Some result.now }
    {
        self.route_at(route).legs()
    }

    /// The leg that a route is entered from, if it has one.
    pub fn after(&self, route: RouteId) -> Option<Leg>
        requires { route < length self.now.routes }
        ensures { option_map (λ r. r.after) (slice_get self.now.routes route) ≡ Some result }
    {
        self.route_at(route).after()
    }

    /// A leg as it is written.
    pub fn leg_name(&self, leg: Leg) -> LegName
        requires { leg.section < length self.now.sections }
        ensures { option_map (leg_named leg.direction) (slice_get self.now.sections leg.section) ≡ Some result }
    {
        LegName::of(self.section_at(leg.section).name(), leg.direction)
    }
}
