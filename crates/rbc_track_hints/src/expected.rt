//! What a track file has to have at each key.

use rbc_model::{FileTable, Key};

/// The sort of the value at a key of a table, and its form.
pub(crate) fn expected(table: FileTable, key: Key) -> &'static str {
    match key {
        Key::Format => "1 or 2",
        Key::SpeedSteps | Key::GradeSteps => "1 to 31",
        Key::Section => match table {
            FileTable::Group => NAME,
            _ => "tables, each [[section]]",
        },
        Key::Link => "tables, each [[link]]",
        Key::Group => "tables, each [[group]]",
        Key::Route => "tables, each [[route]]",
        Key::Name => NAME,
        Key::Length => "25 to 100000",
        Key::Speeds => "[[start, km/h], ..] with starts 0 to 100000 and 5 to 600 km/h",
        Key::Grades => "[[start, per mille], ..] with starts 0 to 100000 and -254 to 254 per mille",
        Key::From | Key::To | Key::After => LEG,
        Key::Country => "0 to 1023",
        Key::Number => "0 to 16382",
        Key::Offset => "0 to 100000",
        Key::Nominal => "\"+\" or \"-\"",
        Key::Legs => "legs, [\"S1+\", ..], each a section's name with + or -",
    }
}

/// What a name is.
const NAME: &str = "a name, \"S1\", of 1 to 16 letters, digits and _";

/// What a leg is.
const LEG: &str = "a leg, \"S1+\", a section's name with + or -";
