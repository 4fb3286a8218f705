//! How keys, tables and faults of a track file are written.
ghost use Rattle.std.specs.Prelude.{◌≡◌, Some};
ghost use Rattle.std.specs.Fmt.{WritesOnOk};
ghost use Rattle.rbc_model.specs.TrackFile.{key_text};
ghost use Rattle.rbc_model.specs.FaultTexts.{fault_text, refusal_text, table_text, list_text};

use crate::{FileFault, FileTable, Key, Table, TrackRefusal};
use std::error::Error;
use std::fmt;

/// How a track file spells a key.
pub fn key_text(key: Key) -> &'static str
    ensures { result.now ≡ key_text key }
{
    match key {
        Key::Format => "format",
        Key::SpeedSteps => "speed_steps",
        Key::GradeSteps => "grade_steps",
        Key::Section => "section",
        Key::Link => "link",
        Key::Group => "group",
        Key::Route => "route",
        Key::Name => "name",
        Key::Length => "length",
        Key::Speeds => "speeds",
        Key::Grades => "grades",
        Key::From => "from",
        Key::To => "to",
        Key::Country => "country",
        Key::Number => "number",
        Key::Offset => "offset",
        Key::Nominal => "nominal",
        Key::After => "after",
        Key::Legs => "legs",
    }
}

impl fmt::Display for FileFault {
    ghost output = { λ fault. Some (fault_text fault) };

    fn fmt<W: fmt::Write>(&self, f: &mut fmt::Formatter<W>) -> fmt::Result {
        match self {
            FileFault::Toml => write!(f, "Toml"),
            FileFault::Missing(table, number, key) => {
                write!(
                    f,
                    "Missing {} {number} {}",
                    table_text(*table),
                    key_text(*key)
                )
            }
            FileFault::Wrong(table, number, key) => {
                write!(
                    f,
                    "Wrong {} {number} {}",
                    table_text(*table),
                    key_text(*key)
                )
            }
            FileFault::Unknown(table, number, key) => {
                write!(
                    f,
                    "Unknown {} {number} {}",
                    table_text(*table),
                    key.as_str()
                )
            }
            FileFault::Range(table, number, key) => {
                write!(
                    f,
                    "Range {} {number} {}",
                    table_text(*table),
                    key_text(*key)
                )
            }
            FileFault::Runs(number, key) => write!(f, "Runs section {number} {}", key_text(*key)),
            FileFault::Track(refusal) => write_refusal(*refusal, f),
        }
    }
}

impl Error for FileFault {}

fn write_refusal<W: fmt::Write>(refusal: TrackRefusal, f: &mut fmt::Formatter<W>) -> fmt::Result
    ensures { WritesOnOk W.write_str_gives f.old result (refusal_text refusal) f.new }
{
    match refusal {
        TrackRefusal::NoSection => write!(f, "NoSection"),
        TrackRefusal::TooMany(table) => write!(f, "TooMany {}", list_text(table)),
        TrackRefusal::TwiceNamed(table, number) => {
            write!(f, "TwiceNamed {} {number}", list_text(table))
        }
        TrackRefusal::ShortRun(number) => write!(f, "ShortRun section {number}"),
        TrackRefusal::BadLink(number) => write!(f, "Link link {number}"),
        TrackRefusal::BadGroup(number) => write!(f, "Group group {number}"),
        TrackRefusal::BadRoute(number) => write!(f, "Route route {number}"),
    }
}

fn table_text(table: FileTable) -> &'static str
    ensures { result.now ≡ table_text table }
{
    match table {
        FileTable::Top => "top",
        FileTable::Section => "section",
        FileTable::Link => "link",
        FileTable::Group => "group",
        FileTable::Route => "route",
    }
}

fn list_text(table: Table) -> &'static str
    ensures { result.now ≡ list_text table }
{
    match table {
        Table::Sections => "section",
        Table::Links => "link",
        Table::Groups => "group",
        Table::Routes => "route",
    }
}
