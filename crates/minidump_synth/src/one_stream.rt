/// A dump of one stream, written by hand: a header, an entry of the unknown type 0x11223344, and
/// the stream's four bytes.
pub const ONE_STREAM: [u8; 48] = [
    0x4d, 0x44, 0x4d, 0x50, 0x93, 0xa7, 0, 0, 1, 0, 0, 0, 0x20, 0, 0, 0, 0, 0, 0, 0, 0, 0, 0, 0, 0,
    0, 0, 0, 0, 0, 0, 0, 0x44, 0x33, 0x22, 0x11, 4, 0, 0, 0, 0x2c, 0, 0, 0, 0x88, 0x77, 0x66, 0x55,
];

/// Returns [`ONE_STREAM`] with another byte at an offset, or as it is if it has no byte there.
pub fn one_stream_with_byte(offset: usize, byte: u8) -> [u8; 48] {
    let mut bytes = ONE_STREAM;
    if offset < bytes.len() {
        bytes[offset] = byte;
    }
    bytes
}
