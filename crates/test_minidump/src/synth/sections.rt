use minidump_bytes::Endian;
use minidump_format::format::MINIDUMP_DIRECTORY;
use minidump_synth::{Section, zeroed};
use std::alloc::{AllocError, Global};

// Numbers; a text after its length; units of one that is cut and one that is filled; texts, bytes
// and zeros; bytes of another section; lists, one of which states a header that is too short; and a
// record whose fields are unset.
#[rattlefmt::skip]
const LITTLE: &[u8] = &[
    1, 3, 2, 7, 6, 5, 4, 0x0f, 0x0e, 0x0d, 0x0c, 0x0b, 0x0a, 9, 8,
    0x1f, 0x1e, 0x1d, 0x1c, 0x1b, 0x1a, 0x19, 0x18, 0x17, 0x16, 0x15, 0x14, 0x13, 0x12, 0x11, 0x10,
    0xfe, 0xff, 0xff, 0xff,
    6, 0, 0, 0, 0x61, 0, 0x3d, 0xd8, 0, 0xde,
    0x61, 0, 0x63, 0, 0, 0, 0, 0,
    2, 0, 0, 0, 0xc3, 0xa9, 0x64, 0, 0x65, 0x66, 0, 0,
    2, 1, 2, 1, 2, 1, 2, 1, 3, 4,
    2, 0, 0, 0, 2, 1, 4, 3,
    2, 0, 0, 0, 0, 0, 0, 0, 2, 1, 4, 3,
    2, 0, 0, 0, 0, 0, 0, 0, 7, 0, 0, 0, 0, 0, 0, 0, 2, 1, 4, 3,
    0x0c, 0, 0, 0, 2, 0, 0, 0, 2, 0, 0, 0, 2, 1, 4, 3,
    8, 0, 0, 0, 2, 0, 0, 0, 0, 0, 0, 0,
    0x10, 0, 0, 0, 2, 0, 0, 0, 2, 0, 0, 0, 0, 0, 0, 0, 2, 1, 4, 3,
    0, 0, 0, 0, 0, 0, 0, 0, 0, 0, 0, 0,
];

// The same in the other byte order. Bytes of another section keep their order.
#[rattlefmt::skip]
const BIG: &[u8] = &[
    1, 2, 3, 4, 5, 6, 7, 8, 9, 0x0a, 0x0b, 0x0c, 0x0d, 0x0e, 0x0f,
    0x10, 0x11, 0x12, 0x13, 0x14, 0x15, 0x16, 0x17, 0x18, 0x19, 0x1a, 0x1b, 0x1c, 0x1d, 0x1e, 0x1f,
    0xff, 0xff, 0xff, 0xfe,
    0, 0, 0, 6, 0, 0x61, 0xd8, 0x3d, 0xde, 0,
    0, 0x61, 0, 0x63, 0, 0, 0, 0,
    0, 0, 0, 2, 0xc3, 0xa9, 0x64, 0, 0x65, 0x66, 0, 0,
    2, 1, 2, 1, 2, 1, 2, 1, 3, 4,
    0, 0, 0, 2, 1, 2, 3, 4,
    0, 0, 0, 2, 0, 0, 0, 0, 1, 2, 3, 4,
    0, 0, 0, 0, 0, 0, 0, 2, 0, 0, 0, 0, 0, 0, 0, 7, 1, 2, 3, 4,
    0, 0, 0, 0x0c, 0, 0, 0, 2, 0, 0, 0, 2, 1, 2, 3, 4,
    0, 0, 0, 8, 0, 0, 0, 2, 0, 0, 0, 0,
    0, 0, 0, 0x10, 0, 0, 0, 2, 0, 0, 0, 2, 0, 0, 0, 0, 1, 2, 3, 4,
    0, 0, 0, 0, 0, 0, 0, 0, 0, 0, 0, 0,
];

const NUMBERS: [u16; 2] = [0x0102, 0x0304];

fn section_is(alloc: Global, endian: Endian, bytes: &[u8]) -> Result<bool, AllocError> {
    let none: &[u16] = &[];
    let mut little = Section::new(alloc, Endian::Little);
    little.u16(0x0102);
    let other = little.finish()?;
    let mut section = Section::new(alloc, endian);
    section
        .u8(1)
        .u16(0x0203)
        .u32(0x0405_0607)
        .u64(0x0809_0a0b_0c0d_0e0f)
        .u128(0x1011_1213_1415_1617_1819_1a1b_1c1d_1e1f)
        .i32(-2)
        .text16("a\u{1F600}")
        .units16("ab", 1)
        .units16("c", 3)
        .text8("\u{e9}")
        .cstring("d")
        .bytes(b"ef")
        .zeros(2)
        .append(&little)
        .record(&little)
        .record(&other)
        .record(&other.as_slice())
        .record(&[3, 4])
        .list(&NUMBERS)
        .aligned_list(&NUMBERS)
        .list_64(7, &NUMBERS)
        .extended_list(12, &NUMBERS)
        .extended_list(8, none)
        .handle_list(&NUMBERS)
        .record(&zeroed::<MINIDUMP_DIRECTORY>());
    Ok(section.finish()?.as_slice() == bytes)
}

#[test]
fn writes_sections(rt: HostRuntime) {
    assert!(rt; section_is(rt.alloc(), Endian::Little, LITTLE) == Ok(true));
    assert!(rt; section_is(rt.alloc(), Endian::Big, BIG) == Ok(true));
}
