//! Fields that lie across bytes.

use rbc_bits::{BitReader, BitWriter};

/// Fields by width and value, and their bytes.
const CASES: [(&[(u32, u32)], &[u8]); 2] = [
    // The first fields of a packet 27 with two steps.
    (
        &[(8, 27), (2, 1), (13, 114), (2, 1)],
        &[0x1b, 0x40, 0xe4, 0x80],
    ),
    // The widest field and the narrowest.
    (
        &[(7, 0), (32, u32::MAX), (0, 0), (1, 0)],
        &[0x01, 0xff, 0xff, 0xff, 0xfe],
    ),
];

#[test]
fn fields_are_written_and_read_across_bytes(rt: HostRuntime) {
    for (fields, bytes) in &CASES {
        // There is room for the first byte alone.
        let mut written = BitWriter::with_room(rt.alloc(), 8).expect(&rt, "room");
        let mut left = BitReader::new(bytes);
        for (width, value) in *fields {
            assert!(rt; *width <= 32 && u64::from(*value) < 1 << *width);
            written.put(*width, *value).expect(&rt, "room");
            assert_eq!(rt; left.take(*width), Ok(*value));
        }
        assert_eq!(rt; written.finish().as_slice(), *bytes);
        assert_eq!(rt; left.last_bits(), Some(0));
    }
}
