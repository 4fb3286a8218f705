//! How an entry of a track file is named to those who mend it.

use rbc_model::{FileTable, Key, key_text};
use std::fmt::{self, Display};
use toml::Table;

/// An entry, by its table, its number there, counted from 1, and what else it is known by.
#[derive(Clone, Copy)]
pub(crate) enum Label<'a> {
    /// The top table.
    Top,
    /// An entry whose name can't be read.
    Numbered(&'static str, usize),
    /// A section or a route.
    Named(&'static str, usize, &'a str),
    /// A link, by its legs.
    Link(usize, &'a str, &'a str),
    /// A balise group, by its country and its number.
    Group(usize, i64, i64),
}

impl Display for Label<'_> {
    fn fmt<W: fmt::Write>(&self, f: &mut fmt::Formatter<W>) -> fmt::Result {
        match self {
            Label::Top => write!(f, "top"),
            Label::Numbered(kind, number) => write!(f, "{kind} {number}"),
            Label::Named(kind, number, name) => write!(f, "{kind} {number} {name:?}"),
            Label::Link(number, from, to) => write!(f, "link {number} {from:?} to {to:?}"),
            Label::Group(number, country, group) => write!(f, "group {number} {country}/{group}"),
        }
    }
}

/// The text at a key of an entry, if it has one.
fn text_at<'a>(members: &'a Table, key: Key) -> Option<&'a str> {
    members.get(key_text(key))?.as_str()
}

/// The number at a key of an entry, if it has one.
fn number_at(members: &Table, key: Key) -> Option<i64> {
    members.get(key_text(key))?.as_integer()
}

/// The entry of a table, with these keys and values.
pub(crate) fn label_of(kind: FileTable, number: usize, members: &Table) -> Label<'_> {
    match kind {
        FileTable::Top => Label::Top,
        FileTable::Section => named("section", number, members),
        FileTable::Route => named("route", number, members),
        FileTable::Link => match (text_at(members, Key::From), text_at(members, Key::To)) {
            (Some(from), Some(to)) => Label::Link(number, from, to),
            _ => Label::Numbered("link", number),
        },
        FileTable::Group => {
            match (
                number_at(members, Key::Country),
                number_at(members, Key::Number),
            ) {
                (Some(country), Some(group)) => Label::Group(number, country, group),
                _ => Label::Numbered("group", number),
            }
        }
    }
}

/// A section or a route.
fn named<'a>(kind: &'static str, number: usize, members: &'a Table) -> Label<'a> {
    match text_at(members, Key::Name) {
        Some(name) => Label::Named(kind, number, name),
        None => Label::Numbered(kind, number),
    }
}
