//! Tracks: their sections, links, balise groups and routes.
//!
//! The parts that a track is made of name sections by their names; a track names them by their numbers.
#![tactic(auto)]

mod group_table;
mod judge;
mod keys;
mod leg_name;
mod legs;
mod link_table;
mod links;
mod long_runs;
mod lookup;
mod name;
mod parts;
mod resolve;
mod route;
mod route_table;
mod routes;
mod section;
mod section_table;
mod sizes;
mod step_limit;
mod track;
mod written;

pub use keys::Keys;
pub use leg_name::LegName;
pub use legs::reverse;
pub use name::Name;
pub use parts::{GroupPart, LinkPart, Parts, RoutePart};
pub use route::Route;
pub use section::Section;
pub use step_limit::StepLimit;
pub use track::Track;
