//! The identity of a balise group.
ghost use Rattle.std.specs.Prelude.{◌≡◌, ◌≤◌, ◌&&◌, nat_le, Some, None, if◌then◌else◌};
ghost use Rattle.rbc_model.specs.declared.limits.TheConstants.{LAST_COUNTRY, LAST_GROUP};

use crate::limits::{LAST_COUNTRY, LAST_GROUP};
use std::marker::Model;

/// The identity of a balise group: its country or region (NID_C), 0 to 1,023, and its number there (NID_BG), 0 to
/// 16,382.
#[derive(Clone, Copy, Debug, PartialEq, Eq)]
pub struct GroupName {
    country: u16,
    number: u16,
}

impl Model for GroupName {
    ghost use Rattle.rbc_model.specs.GroupNames.{GroupName, IsGroupName};

    ghost Value = { GroupName };

    ghost view = { λ g. record { country = g.country; number = g.number } };

    ghost invariant = { λ g. IsGroupName (record { country = g.country; number = g.number }) };

    ghost inverse = { λ g. record { country = g.country; number = g.number } };
}

impl GroupName {
    /// The group of this number in this country or region, if both are in range.
    pub fn new(country: u16, number: u16) -> Option<GroupName>
        ensures { result ≡ (if nat_le country LAST_COUNTRY && nat_le number LAST_GROUP
            then Some (record { country = country; number = number }) else None) }
    {
        if country <= LAST_COUNTRY && number <= LAST_GROUP {
            Some(GroupName { country, number })
        } else {
            None
        }
    }

    /// The country or region (NID_C), 0 to 1,023.
    pub fn country(self) -> u16
        ensures country { result ≡ self.country }
        ensures in_range { result ≤ LAST_COUNTRY }
    {
        self.country
    }

    /// The number in the country or region (NID_BG), 0 to 16,382.
    pub fn number(self) -> u16
        ensures number { result ≡ self.number }
        ensures in_range { result ≤ LAST_GROUP }
    {
        self.number
    }
}
