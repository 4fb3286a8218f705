//! Message 3, the movement authority (ERA SUBSET-026 3.6.0, chapter 8), with packets 15, 21 and 27.

ghost use Rattle.std.specs.Prelude.{◌≡◌, [], IfOk};
ghost use Rattle.rbc_model.specs.declared.places.Format.TheVariants.{Far};
ghost use Rattle.rbc_model.specs.Messages.{message_bytes};
ghost use Rattle.rbc_model.specs.Reading.{filling_at, read_message};
ghost use Rattle.rbc_packet.specs.Reads.{Reads};
ghost use Rattle.rbc_packet.specs.Spellings.{IsOneSpelling};

use crate::Authority;
use crate::header::{message_length, put_header, read_header};
use crate::packet_15::{put_packet_15, read_packet_15};
use crate::packet_21::read_packet_21;
use crate::packet_27::read_packet_27;
use crate::profile::put_profile;
use rbc_bits::{BitReader, BitWriter};
use rbc_model::{Fault, Memory};
use std::alloc::Global;

/// The message of an authority, filled up with zeros to whole bytes: 39 to 234 bytes.
///
/// # Errors
///
/// [`Memory`] where there is none for the bytes.
pub fn write_message(alloc: Global, authority: &Authority) -> Result<Vec<u8>, Memory>
    ensures { IfOk result (λ bytes. bytes.items ≡ message_bytes authority.now) }
{
    let mut bits = BitWriter::with_room(alloc, 8 * message_length(authority))?;
    authority.known();
    let nominal = authority.nominal();
    put_header(&mut bits, authority)?;
    put_packet_15(&mut bits, authority.end(), nominal)?;
    put_profile(&mut bits, authority.grades(), nominal)?;
    put_profile(&mut bits, authority.speeds(), nominal)?;
    Ok(bits.finish())
}

/// The authority that the bytes of a message tell, in metres or in tens of metres. It takes no memory.
///
/// # Errors
///
/// The first fault, in the order in which the message stands. Of each field it is [`Fault::Short`] where its bits are
/// missing, and where its value is not allowed [`Fault::Number`] of a message or packet, and [`Fault::Field`] of any
/// other field. Between them come
///
/// 1. behind the message's length, [`Fault::Short`] where it says more bytes than there are, and [`Fault::Extra`] where it says fewer;
/// 2. behind packet 15's length, [`Fault::Length`] where it is not 66 bits;
/// 3. behind the number of steps of packet 21, and then of packet 27, [`Fault::Length`] where the packet's length does not fit it;
/// 4. behind the last packet, [`Fault::Length`] where eight bits or more are left, and [`Fault::Padding`] where one of fewer is set.
pub fn read_message(bytes: &[u8]) -> Result<Authority, Fault>
    ensures read { result ≡ read_message Far bytes.now }

    // What was written is read back, and no second spelling is accepted.
    ensures spelling { IsOneSpelling bytes.now result }
{
    read_fields(bytes)
}

/// Reads a message in metres field by field.
fn read_fields(bytes: &[u8]) -> Result<Authority, Fault>
    ensures { result ≡ read_message Far bytes.now }
{
    let mut bits = BitReader::new(bytes);
    let header = read_header(&mut bits, bytes.len())?;
    let frame = read_packet_15(&mut bits)?;
    let grades = read_packet_21(&mut bits, &frame)?;
    let speeds = read_packet_27(&mut bits, &frame)?;
    read_filling(&bits)?;
    // The profiles end with the frame, and start their steps in its units.
    Ok(Authority::new(header.time, header.group, frame.nominal, speeds, grades).unwrap())
}

/// What is left behind the last packet: fewer than eight bits, and none is set.
fn read_filling(bits: &BitReader) -> Result<(), Fault>
    ensures { Reads filling_at bits.now [] result }
{
    match bits.last_bits() {
        None => Err(Fault::Length),
        Some(0) => Ok(()),
        Some(_) => Err(Fault::Padding),
    }
}
