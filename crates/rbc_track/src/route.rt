//! A route.

ghost use Rattle.std.specs.Prelude.{◌≡◌};

use crate::Name;
use rbc_model::Leg;
use std::marker::Model;

/// A route: its legs in order, and the leg that it is entered from, if it has one.
#[derive(Debug, Drop)]
pub struct Route {
    name: Name,
    after: Option<Leg>,
    legs: Vec<Leg>,
}

impl Model for Route {
    ghost use Rattle.rbc_model.specs.Tracks.{Route};

    ghost Value = { Route };

    ghost view = { λ route. record { name = route.name; after = route.after; legs = route.legs.items } };
}

impl Route {
    /// The route of this name, which is entered from the leg `after` if there is one, and of these legs.
    pub(crate) fn new(name: Name, after: Option<Leg>, legs: Vec<Leg>) -> Route
        ensures { result ≡ record { name = name; after = after; legs = legs.items } }
    {
        Route { name, after, legs }
    }

    /// The route's name.
    pub fn name(&self) -> Name
        ensures { result ≡ self.now.name }
    {
        self.name
    }

    /// The leg that the route is entered from, if it has one.
    pub fn after(&self) -> Option<Leg>
        ensures { result ≡ self.now.after }
    {
        self.after
    }

    /// The legs in order.
    pub fn legs(&self) -> &[Leg]
        ensures { result.now ≡ self.now.legs }
    {
        self.legs.as_slice()
    }
}
