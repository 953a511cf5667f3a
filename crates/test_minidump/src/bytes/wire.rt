use minidump_bytes::{Source, Steps, WireValue};

// A field, a number or bytes, with its number and the offset after it.
type Found = Option<(u32, Result<u64, &'static [u8]>, u64)>;

// Bytes, an offset, and the field there. A number is `Ok`, and bytes are `Err`.
#[rattlefmt::skip]
const FIELDS: &[(&'static [u8], u64, Found)] = &[
    // The tenth byte of a number has one bit.
    (&[0x18, 255, 255, 255, 255, 255, 255, 255, 255, 255, 1, 0], 0, Some((3, Ok(u64::MAX), 11))),
    (&[0x18, 255, 255, 255, 255, 255, 255, 255, 255, 255, 0, 0], 0, Some((3, Ok(u64::MAX >> 1), 11))),
    (&[0x18, 255, 255, 255, 255, 255, 255, 255, 255, 255, 2, 0], 0, None),
    (&[0x18, 255, 255, 255, 255, 255, 255, 255, 255, 255, 0x80, 0], 0, None),
    (&[0x18, 0xec, 0x76], 0, Some((3, Ok(15212), 3))),
    (&[0, 0x08, 0x81, 0], 1, Some((1, Ok(1), 4))),
    (&[0x90, 0x80, 0, 5], 0, Some((2, Ok(5), 4))),
    (&[0x09, 1, 2, 3, 4, 5, 6, 7, 8, 9], 0, Some((1, Ok(0x0807_0605_0403_0201), 9))),
    (&[0x0d, 1, 2, 3, 4], 0, Some((1, Ok(0x0403_0201), 5))),
    (&[0xf8, 0xff, 0xff, 0xff, 0x0f, 1], 0, Some((0x1fff_ffff, Ok(1), 6))),
    // Keys above 32 bits, fields numbered 0 and wire types without a meaning.
    (&[0x88, 0x80, 0x80, 0x80, 0x10, 1], 0, None),
    (&[0x00, 1], 0, None),
    (&[0x01, 1, 2, 3, 4, 5, 6, 7, 8], 0, None),
    (&[0x13, 1], 0, None),
    (&[0x14, 1], 0, None),
    (&[0x16, 1], 0, None),
    (&[0x17, 1], 0, None),
    // Fields that are cut off.
    (&[], 0, None),
    (&[0x08], 0, None),
    (&[0x08, 0x80], 0, None),
    (&[0x09, 1, 2, 3, 4, 5, 6, 7], 0, None),
    (&[0x0d, 1, 2, 3], 0, None),
    (&[0x08, 1], 2, None),
    (&[0x08, 1], u64::MAX, None),
    // Bytes.
    (&[0x12, 2, 0x18, 5, 0x12, 0], 0, Some((2, Err(&[0x18, 5]), 4))),
    (&[0x92, 0x80, 0, 0x80, 0], 0, Some((2, Err(&[]), 5))),
    (&[0x12, 0x82, 0, 7, 8], 0, Some((2, Err(&[7, 8]), 5))),
    (&[0x12, 5, 0x18], 0, None),
    (&[0x12], 0, None),
    (&[0x12, 255, 255, 255, 255, 255, 255, 255, 255, 255, 1, 7], 0, None),
];

fn field_at(bytes: &'static [u8], offset: u64) -> Found {
    let (field, next) = Source::new(bytes).wire_field(offset, &mut Steps::new())?;
    let value = match field.value {
        WireValue::Varint(number) | WireValue::Eight(number) => Ok(number),
        WireValue::Four(number) => Ok(number as u64),
        WireValue::Bytes(bytes) => Err(bytes),
    };
    Some((field.number, value, next))
}

#[test]
fn reads_wire_fields(rt: HostRuntime) {
    for row in FIELDS {
        assert!(rt; field_at(row.0, row.1) == row.2, "{:?}", row.0);
    }
}
