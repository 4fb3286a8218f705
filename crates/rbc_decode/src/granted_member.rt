//! What a line `granted` tells, as a member of a line of JSON.

ghost use Rattle.std.specs.Prelude.{◌≡◌, ◌+◌, ◌≤◌, ◌++◌, ◌∷◌, [], length, decimal, codes};
ghost use Rattle.json.specs.Print.{escape};
ghost use Rattle.rbc_model.specs.Names.{direction_text, leg_text};
ghost use Rattle.rbc_decode.specs.declared.out_buffer.TheConstants.{ROOM};
ghost use Rattle.rbc_decode.specs.GrantedLines.{ahead_text};
ghost use Rattle.rbc_decode.specs.JsonParts.{granted_part, member_part};
ghost use Rattle.rbc_decode.specs.JsonText.{granted_data};

use crate::granted::{Ahead, GrantedLine};
use crate::out_buffer::OutBuffer;
use rbc_model::Direction;
use rbc_track::{LegName, Name};

/// What the line before a message tells, as a member behind others: nothing, where it is no line `granted`.
pub(crate) fn granted_member(granted: Option<GrantedLine>) -> OutBuffer
    ensures { result ≡ granted_part granted }
{
    let mut buffer = OutBuffer::new();
    if let Some(granted) = granted {
        gather_granted(&granted, &mut buffer);
    }
    buffer
}

/// Puts what a line `granted` tells behind a text, as a member behind others.
fn gather_granted(granted: &GrantedLine, buffer: &mut OutBuffer)
    requires { length buffer.old + 300 ≤ ROOM }
    ensures { buffer.new ≡ buffer.old ++ member_part (codes "granted") (granted_data granted.now) }
{
    buffer.text(b",\"granted\":{\"train\":");
    buffer.number(u64::from(granted.train));
    buffer.text(b",\"version\":");
    buffer.number(granted.version);
    buffer.text(b",\"beginning\":");
    buffer.signed(granted.beginning);
    buffer.text(b",\"obstacle\":\"");
    gather_ahead(&granted.obstacle, buffer);
    buffer.text(b"\"}");
}

/// Puts the words of an obstacle behind a text. They need no escapes.
#[tactic(auto, unfolding(json::specs::Print::escape_byte))]
fn gather_ahead(obstacle: &Ahead, buffer: &mut OutBuffer)
    requires { length buffer.old + 100 ≤ ROOM }
    ensures text { buffer.new ≡ buffer.old ++ ahead_text obstacle.now }
    ensures plain { escape (ahead_text obstacle.now) ≡ ahead_text obstacle.now }
    ensures length { length buffer.new ≤ length buffer.old + 100 }
{
    match *obstacle {
        Ahead::NoLink(leg) => gather_leg(leg, buffer),
        Ahead::NotLocked(section) => gather_section(section, buffer),
        Ahead::Own => buffer.text(b"Own"),
        Ahead::Occupied(train) => gather_train(b"Occupied ", train, buffer),
        Ahead::Held(train) => gather_train(b"Held ", train, buffer),
        Ahead::Limit => buffer.text(b"Limit"),
    }
}

/// Puts the words for a leg that leads no further behind a text.
fn gather_leg(leg: LegName, buffer: &mut OutBuffer)
    requires { length buffer.old + 100 ≤ ROOM }
    ensures text { buffer.new ≡ buffer.old ++ (codes "NoLink " ++ leg_text leg) }
    ensures plain { escape (codes "NoLink " ++ leg_text leg) ≡ codes "NoLink " ++ leg_text leg }
    ensures length { length buffer.new ≤ length buffer.old + 100 }
{
    let section = leg.section();
    section.known();
    buffer.text(b"NoLink ");
    buffer.text(section.text());
    buffer.byte(direction_byte(leg.direction()));
}

fn direction_byte(direction: Direction) -> u8
    ensures { result ∷ [] ≡ direction_text direction }
{
    match direction {
        Direction::Rising => b'+',
        Direction::Falling => b'-',
    }
}

/// Puts the words for a section that is not locked behind a text.
fn gather_section(section: Name, buffer: &mut OutBuffer)
    requires { length buffer.old + 100 ≤ ROOM }
    ensures text { buffer.new ≡ buffer.old ++ (codes "NotLocked " ++ section) }
    ensures plain { escape (codes "NotLocked " ++ section) ≡ codes "NotLocked " ++ section }
    ensures length { length buffer.new ≤ length buffer.old + 100 }
{
    section.known();
    buffer.text(b"NotLocked ");
    buffer.text(section.text());
}

/// Puts the words for a train behind a text.
fn gather_train(name: &[u8], train: u32, buffer: &mut OutBuffer)
    requires short { length name.now ≤ 20 }
    requires plain { escape name.now ≡ name.now }
    requires room { length buffer.old + 100 ≤ ROOM }
    ensures text { buffer.new ≡ buffer.old ++ (name.now ++ decimal train) }
    ensures plain { escape (name.now ++ decimal train) ≡ name.now ++ decimal train }
    ensures length { length buffer.new ≤ length buffer.old + 100 }
{
    buffer.text(name);
    buffer.number(u64::from(train));
}
