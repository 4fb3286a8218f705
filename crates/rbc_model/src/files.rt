//! What a track file may hold: its tables, their keys, and its faults.
ghost use Rattle.std.specs.Prelude.{◌≡◌, string_bytes};

use crate::TrackRefusal;
use std::marker::Model;

/// The tables of a track file: the top table, and the lists of tables in it.
#[derive(Clone, Copy, Debug, PartialEq, Eq)]
pub enum FileTable {
    Top,
    Section,
    Link,
    Group,
    Route,
}

/// The keys of a track file's tables. Those of the lists of tables are keys of the top table.
#[derive(Clone, Copy, Debug, PartialEq, Eq)]
pub enum Key {
    Format,
    SpeedSteps,
    GradeSteps,
    Section,
    Link,
    Group,
    Route,
    Name,
    Length,
    Speeds,
    Grades,
    From,
    To,
    Country,
    Number,
    Offset,
    Nominal,
    After,
    Legs,
}

/// A key as a file spells it.
#[derive(Debug, Drop)]
pub struct KeyText {
    text: String,
}

impl Model for KeyText {
    ghost use Rattle.std.specs.Prelude.{ℕ, List, string_bytes};

    ghost Value = { List ℕ };

    ghost view = { λ key. string_bytes key.text };
}

impl KeyText {
    /// The key that is spelled so.
    pub fn new(text: String) -> KeyText
        ensures { result ≡ string_bytes text }
    {
        KeyText { text }
    }

    /// How the file spells it.
    pub fn as_str(&self) -> &str
        ensures { result.now ≡ self.now }
    {
        self.text.as_str()
    }
}

/// Why a track file tells no track: its first fault. An entry is named by its table and by its number there, counted
/// from 1; the top table has the number 1.
#[derive(Debug, Drop)]
pub enum FileFault {
    /// The file is no text, or its text is no TOML.
    Toml,
    /// The key is not there.
    Missing(FileTable, usize, Key),
    /// The key has another sort of value than asked.
    Wrong(FileTable, usize, Key),
    /// The table lists no such key.
    Unknown(FileTable, usize, KeyText),
    /// A number, a name, a leg or a direction at the key is out of its form.
    Range(FileTable, usize, Key),
    /// The speeds or the gradients at the key of this section make no function of its metres.
    Runs(usize, Key),
    /// The parts make no track.
    Track(TrackRefusal),
}
