//! Bytes that are no message: the first fault is told.

use super::{MESSAGE, MESSAGE_IN_TENS};
use rbc_packet::{Fault, FieldName, read_message, write_message};
use std::process::Abort;

/// What comes of the message where one bit is another, any from the first to below the second: a fault, or another
/// authority.
const ONE_BIT: [(usize, usize, Option<Fault>); 45] = [
    // The header.
    (0, 8, Some(Fault::Number)),
    (8, 12, Some(Fault::Short)),
    (12, 13, Some(Fault::Extra)),
    (13, 15, Some(Fault::Short)),
    (15, 18, Some(Fault::Extra)),
    (18, 50, None),
    (50, 51, Some(Fault::Field(FieldName::M_ACK))),
    (51, 75, None),
    // Packet 15.
    (75, 83, Some(Fault::Number)),
    (83, 85, Some(Fault::Field(FieldName::Q_DIR))),
    (85, 98, Some(Fault::Length)),
    (98, 100, Some(Fault::Field(FieldName::Q_SCALE))),
    (100, 107, Some(Fault::Field(FieldName::V_LOA))),
    (107, 117, Some(Fault::Field(FieldName::T_LOA))),
    (117, 122, Some(Fault::Field(FieldName::N_ITER))),
    // Another end than the gradients have.
    (122, 137, Some(Fault::Field(FieldName::D_GRADIENT))),
    (137, 138, Some(Fault::Field(FieldName::Q_SECTIONTIMER))),
    (138, 139, Some(Fault::Field(FieldName::Q_ENDTIMER))),
    (139, 140, Some(Fault::Field(FieldName::Q_DANGERPOINT))),
    (140, 141, Some(Fault::Field(FieldName::Q_OVERLAP))),
    // Packet 21.
    (141, 149, Some(Fault::Number)),
    (149, 151, Some(Fault::Field(FieldName::Q_DIR))),
    (151, 164, Some(Fault::Length)),
    (164, 166, Some(Fault::Field(FieldName::Q_SCALE))),
    (166, 181, Some(Fault::Field(FieldName::D_GRADIENT))),
    (181, 190, None),
    // More steps than the packet has room for, and none.
    (190, 194, Some(Fault::Length)),
    (194, 195, Some(Fault::Field(FieldName::N_ITER))),
    (195, 210, Some(Fault::Field(FieldName::D_GRADIENT))),
    (210, 219, Some(Fault::Field(FieldName::G_A))),
    // Packet 27.
    (219, 227, Some(Fault::Number)),
    (227, 229, Some(Fault::Field(FieldName::Q_DIR))),
    (229, 242, Some(Fault::Length)),
    (242, 244, Some(Fault::Field(FieldName::Q_SCALE))),
    (244, 259, Some(Fault::Field(FieldName::D_STATIC))),
    (259, 266, None),
    (266, 267, Some(Fault::Field(FieldName::Q_FRONT))),
    (267, 272, Some(Fault::Field(FieldName::N_ITER))),
    (272, 276, Some(Fault::Length)),
    (276, 277, Some(Fault::Field(FieldName::N_ITER))),
    (277, 292, Some(Fault::Field(FieldName::D_STATIC))),
    (292, 299, Some(Fault::Field(FieldName::V_STATIC))),
    (299, 300, Some(Fault::Field(FieldName::Q_FRONT))),
    (300, 305, Some(Fault::Field(FieldName::N_ITER))),
    // Behind the last packet.
    (305, 312, Some(Fault::Padding)),
];

/// What comes of the message in tens of metres where one bit is another, any from the first to below the second: a fault,
/// or another authority.
const ONE_BIT_IN_TENS: [(usize, usize, Option<Fault>); 56] = [
    // The header.
    (0, 8, Some(Fault::Number)),
    (8, 12, Some(Fault::Short)),
    (12, 13, Some(Fault::Extra)),
    (13, 14, Some(Fault::Short)),
    (14, 15, Some(Fault::Extra)),
    (15, 16, Some(Fault::Short)),
    (16, 17, Some(Fault::Extra)),
    (17, 18, Some(Fault::Short)),
    (18, 50, None),
    (50, 51, Some(Fault::Field(FieldName::M_ACK))),
    (51, 75, None),
    // Packet 15.
    (75, 83, Some(Fault::Number)),
    (83, 85, Some(Fault::Field(FieldName::Q_DIR))),
    (85, 98, Some(Fault::Length)),
    (98, 100, Some(Fault::Field(FieldName::Q_SCALE))),
    (100, 107, Some(Fault::Field(FieldName::V_LOA))),
    (107, 117, Some(Fault::Field(FieldName::T_LOA))),
    (117, 122, Some(Fault::Field(FieldName::N_ITER))),
    // An end below 32,010 m or above 80,000 m, and another end than the gradients have.
    (122, 127, Some(Fault::Field(FieldName::L_ENDSECTION))),
    (127, 137, Some(Fault::Field(FieldName::D_GRADIENT))),
    (137, 138, Some(Fault::Field(FieldName::Q_SECTIONTIMER))),
    (138, 139, Some(Fault::Field(FieldName::Q_ENDTIMER))),
    (139, 140, Some(Fault::Field(FieldName::Q_DANGERPOINT))),
    (140, 141, Some(Fault::Field(FieldName::Q_OVERLAP))),
    // Packet 21.
    (141, 149, Some(Fault::Number)),
    (149, 151, Some(Fault::Field(FieldName::Q_DIR))),
    (151, 164, Some(Fault::Length)),
    (164, 166, Some(Fault::Field(FieldName::Q_SCALE))),
    (166, 181, Some(Fault::Field(FieldName::D_GRADIENT))),
    (181, 190, None),
    // More steps than the packet has room for, and none.
    (190, 194, Some(Fault::Length)),
    (194, 195, Some(Fault::Field(FieldName::N_ITER))),
    (195, 210, Some(Fault::Field(FieldName::D_GRADIENT))),
    (210, 219, Some(Fault::Field(FieldName::G_A))),
    // Packet 27.
    (219, 227, Some(Fault::Number)),
    (227, 229, Some(Fault::Field(FieldName::Q_DIR))),
    (229, 242, Some(Fault::Length)),
    (242, 244, Some(Fault::Field(FieldName::Q_SCALE))),
    (244, 259, Some(Fault::Field(FieldName::D_STATIC))),
    // Another speed, and one of 0.
    (259, 260, None),
    (260, 261, Some(Fault::Field(FieldName::V_STATIC))),
    (261, 266, None),
    (266, 267, Some(Fault::Field(FieldName::Q_FRONT))),
    (267, 272, Some(Fault::Field(FieldName::N_ITER))),
    (272, 275, Some(Fault::Length)),
    (275, 276, Some(Fault::Field(FieldName::N_ITER))),
    (276, 277, Some(Fault::Length)),
    (277, 292, Some(Fault::Field(FieldName::D_STATIC))),
    // Another speed.
    (292, 299, None),
    (299, 300, Some(Fault::Field(FieldName::Q_FRONT))),
    (300, 305, Some(Fault::Field(FieldName::N_ITER))),
    (305, 320, Some(Fault::Field(FieldName::D_STATIC))),
    (320, 327, Some(Fault::Field(FieldName::V_STATIC))),
    (327, 328, Some(Fault::Field(FieldName::Q_FRONT))),
    (328, 333, Some(Fault::Field(FieldName::N_ITER))),
    // Behind the last packet.
    (333, 336, Some(Fault::Padding)),
];

/// What comes of the message in metres where all these bits are others.
const MORE_BITS: [(&[usize], Fault); 10] = [
    // Group 16,383.
    (
        &[61, 62, 63, 64, 65, 66, 67, 68, 69, 71, 72, 73],
        Fault::Field(FieldName::NID_BG),
    ),
    // An end at 0 m, and at 32,001 m.
    (
        &[127, 128, 129, 130, 131, 133],
        Fault::Field(FieldName::L_ENDSECTION),
    ),
    (
        &[122, 123, 124, 125, 126, 127, 129, 130, 131, 133, 136],
        Fault::Field(FieldName::L_ENDSECTION),
    ),
    // 1,000 as an end in tens of metres.
    (&[98, 99], Fault::Field(FieldName::L_ENDSECTION)),
    // Gradients and speeds in tens of metres, for an end in metres.
    (&[164, 165], Fault::Field(FieldName::Q_SCALE)),
    (&[242, 243], Fault::Field(FieldName::Q_SCALE)),
    // A gradient of 0 downhill, and of 255.
    (&[187, 189], Fault::Field(FieldName::G_A)),
    (
        &[182, 183, 184, 185, 186, 188],
        Fault::Field(FieldName::G_A),
    ),
    // A speed of 0, and of 605 km/h.
    (&[261, 263], Fault::Field(FieldName::V_STATIC)),
    (
        &[259, 260, 262, 263, 265],
        Fault::Field(FieldName::V_STATIC),
    ),
];

/// What is told of the message with these bits changed.
fn fault_of(rt: &impl Abort, bits: &[usize]) -> Option<Fault> {
    let mut bytes = MESSAGE;
    for bit in bits {
        assert!(rt; *bit < 312);
        bytes[*bit / 8] ^= 0x80 >> (*bit % 8);
    }
    read_message(&bytes).err()
}

/// The bytes are no message for this reason, or an authority that is written as just these bytes.
fn are_told(rt: &(impl Abort + AllocGlobal), bytes: &[u8], outcome: Option<Fault>, bit: usize) {
    match read_message(bytes) {
        Ok(authority) => {
            assert_eq!(rt; outcome, None, "at {bit}");
            let written = write_message(rt.alloc(), &authority).expect(rt, "room");
            assert_eq!(rt; written.as_slice(), bytes, "at {bit}");
        }
        Err(fault) => assert_eq!(rt; outcome, Some(fault), "at {bit}"),
    }
}

#[test]
fn each_change_of_one_bit(rt: HostRuntime) {
    for (first, end, outcome) in &ONE_BIT {
        for bit in *first..*end {
            assert!(rt; bit < 312);
            let mut bytes = MESSAGE;
            bytes[bit / 8] ^= 0x80 >> (bit % 8);
            are_told(&rt, &bytes, *outcome, bit);
        }
    }
}

#[test]
fn each_change_of_one_bit_in_tens(rt: HostRuntime) {
    for (first, end, outcome) in &ONE_BIT_IN_TENS {
        for bit in *first..*end {
            assert!(rt; bit < 336);
            let mut bytes = MESSAGE_IN_TENS;
            bytes[bit / 8] ^= 0x80 >> (bit % 8);
            are_told(&rt, &bytes, *outcome, bit);
        }
    }
}

#[test]
fn messages_that_are_cut(rt: HostRuntime) {
    for count in 0..MESSAGE.len() {
        assert_eq!(rt;
            read_message(&MESSAGE[..count]).err(),
            Some(Fault::Short),
            "at {count}"
        );
    }
    for count in 0..MESSAGE_IN_TENS.len() {
        let cut = &MESSAGE_IN_TENS[..count];
        assert_eq!(rt; read_message(cut).err(), Some(Fault::Short), "at {count}");
    }
}

#[test]
fn values_that_are_not_allowed(rt: HostRuntime) {
    for (bits, fault) in &MORE_BITS {
        assert_eq!(rt; fault_of(&rt, bits), Some(*fault));
    }
}
