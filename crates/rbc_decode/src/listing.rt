//! The fields of a message or packet, in a list.

ghost use Rattle.std.specs.Prelude.{◌≡◌, ◌<◌, ◌≤◌, length, take};
ghost use Rattle.rbc_model.specs.declared.limits.TheConstants.{LONGEST_LINE};
ghost use Rattle.rbc_decode.specs.DecodeText.{start_of, reading_kind};
ghost use Rattle.rbc_decode.specs.declared.listing.TheConstants.{LIST};

use crate::fields::{Fields, Found, Item};
use crate::row::Row;
use crate::walk::FieldWalk;
use rbc_model::FieldName;

/// How long a list is: there are 252 fields at most, 6 of the header, 12 of packet 15, and 101 and 133 of packets 21 and 27
/// with 31 steps each, and one more is tried.
pub(crate) const LIST: usize = 253;

/// What stands in a list behind its fields.
pub(crate) const NO_FIELD: Item = Item {
    walk: FieldWalk {
        row: None,
        index: 0,
        is_alone: false,
        bytes: 0,
        direction: None,
        scale: None,
        end: None,
        said: 0,
        later: 0,
        from: 0,
        uphill: 0,
    },
    row: Row::Header,
    name: FieldName::NID_MESSAGE,
    value: 0,
    bit: 0,
    is_late: false,
};

/// Puts the fields of a packet alone or of a message into a list. Answers how many these are, and the first fault that
/// was found.
pub(crate) fn list_fields(
    is_packet: bool,
    bytes: &[u8],
    items: &mut [Item; LIST],
) -> (usize, Option<Found>)
    requires { length bytes.now ≤ LONGEST_LINE }
    ensures items { take result.0 items.new ≡ (reading_kind is_packet bytes.now).items }
    ensures count { result.0 < LIST }
    ensures found { result.1 ≡ (reading_kind is_packet bytes.now).found }
{
    let mut fields = Fields::new(&start_of(is_packet, bytes), bytes);
    let mut count = 0;
    while fields.next(&mut items[count]) {
        count += 1;
    }
    (count, fields.found())
}

/// At the first field of these bytes.
fn start_of(is_packet: bool, bytes: &[u8]) -> FieldWalk
    ensures { result ≡ start_of is_packet bytes.now }
{
    if is_packet {
        FieldWalk::over_packet(bytes)
    } else {
        FieldWalk::over_message(bytes.len())
    }
}
