//! What stands before the packets of message 3 (ERA SUBSET-026 3.6.0, chapter 8): the message's number and length,
//! the time of the train's report and the balise group. No acknowledgement is asked for.

ghost use Rattle.std.specs.Prelude.{◌≡◌, ◌<◌, ◌^◌, ◌++◌, OnOk};
ghost use Rattle.rbc_model.specs.Messages.{message_length};
ghost use Rattle.rbc_model.specs.Reading.{header_at};
ghost use Rattle.rbc_packet.specs.Fields.{bits_of_fields, header};
ghost use Rattle.rbc_packet.specs.Frames.{header_view};
ghost use Rattle.rbc_packet.specs.Reads.{ReadsAs};

use crate::Authority;
use crate::encoded::Encoded;
use crate::field_reader::{any_field, expect, field_from_to, fixed_field};
use crate::fields::put_fields;
use rbc_bits::{BitReader, BitWriter};
use rbc_model::limits::{AUTHORITY_BITS, HEADER_BITS, LAST_GROUP, MESSAGE_NUMBER};
use rbc_model::{Fault, FieldName, GroupName, Memory};
use rbc_steps::{Grade, Speed};

/// What the header tells.
#[derive(Clone, Copy)]
pub(crate) struct Header {
    /// The time of the train's report (T_TRAIN), in the train's own count.
    pub(crate) time: u32,
    /// The balise group that distances count from (NID_C, NID_BG).
    pub(crate) group: GroupName,
}

/// The header of an authority's message, behind the bits so far. Where memory runs out, some of it may stand.
pub(crate) fn put_header(bits: &mut BitWriter, authority: &Authority) -> Result<(), Memory>
    ensures { OnOk result (bits.new ≡ bits.old ++ bits_of_fields (header authority.now)) }
{
    authority.known();
    let length = message_length(authority);
    let group = authority.group();
    put_fields(
        bits,
        &[
            (FieldName::NID_MESSAGE, MESSAGE_NUMBER),
            (FieldName::L_MESSAGE, length),
            (FieldName::T_TRAIN, authority.time()),
            (FieldName::M_ACK, 0),
            (FieldName::NID_C, u32::from(group.country())),
            (FieldName::NID_BG, u32::from(group.number())),
        ],
    )
}

/// How many bytes the message takes, its padding included (L_MESSAGE).
pub(crate) fn message_length(authority: &Authority) -> u32
    ensures length { result ≡ message_length authority.now }
    ensures fits { result < 2 ^ 10 }
{
    authority.known();
    let gradients = Grade::packet_bits(authority.grades().steps().len() as u32);
    let speeds = Speed::packet_bits(authority.speeds().steps().len() as u32);
    (HEADER_BITS + AUTHORITY_BITS + gradients + speeds).div_ceil(8)
}

/// Reads the header of a message of this length, in bytes.
///
/// # Errors
///
/// The first fault of a field. Where the message says that it is longer than its bytes, it is [`Fault::Short`], and
/// where they go on behind it, [`Fault::Extra`].
pub(crate) fn read_header(bits: &mut BitReader, bytes: usize) -> Result<Header, Fault>
    ensures { ReadsAs header_view (header_at bytes) bits.old bits.new result }
{
    fixed_field(bits, FieldName::NID_MESSAGE, MESSAGE_NUMBER)?;
    let said = any_field(bits, FieldName::L_MESSAGE)? as usize;
    expect(said <= bytes, Fault::Short)?;
    expect(bytes <= said, Fault::Extra)?;
    let time = any_field(bits, FieldName::T_TRAIN)?;
    fixed_field(bits, FieldName::M_ACK, 0)?;
    let country = any_field(bits, FieldName::NID_C)? as u16;
    let number = field_from_to(bits, FieldName::NID_BG, 0, u32::from(LAST_GROUP))? as u16;
    match GroupName::new(country, number) {
        Some(group) => Ok(Header { time, group }),
        None => unreachable!(),
    }
}
