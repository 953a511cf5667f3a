use minidump_bytes::Endian;
use minidump_synth::SynthMinidump;
use std::alloc::{AllocError, Global};

// A dump: a header, a text, a record and a located record, a stream of two numbers, and lists of two
// regions, of 32 and of 64 bits, after the bytes of the regions. In the directory the located record
// is a stream.
#[rattlefmt::skip]
const LITTLE: &[u8] = &[
    0x4d, 0x44, 0x4d, 0x50, 0x93, 0xa7, 0, 0, 4, 0, 0, 0, 0x93, 0, 0, 0,
    0, 0, 0, 0, 0, 0, 0, 0, 0, 0, 0, 0, 0, 0, 0, 0,
    4, 0, 0, 0, 0x61, 0, 0x62, 0,
    0x63, 0, 0xcc,
    0xd0, 0xd1,
    0x20, 0, 0, 0, 0x28, 0, 0, 0,
    0xaa, 0xab,
    0xba, 0xbb, 0xbc,
    2, 0, 0, 0,
    8, 7, 6, 5, 4, 3, 2, 1, 2, 0, 0, 0, 0x35, 0, 0, 0,
    0, 0x20, 0, 0, 0, 0, 0, 0, 3, 0, 0, 0, 0x37, 0, 0, 0,
    0xaa, 0xab, 0xba, 0xbb, 0xbc,
    2, 0, 0, 0, 0, 0, 0, 0, 0x5e, 0, 0, 0, 0, 0, 0, 0,
    8, 7, 6, 5, 4, 3, 2, 1, 2, 0, 0, 0, 0, 0, 0, 0,
    0, 0x20, 0, 0, 0, 0, 0, 0, 3, 0, 0, 0, 0, 0, 0, 0,
    6, 0, 0, 0, 8, 0, 0, 0, 0x2d, 0, 0, 0,
    7, 0, 0, 0, 2, 0, 0, 0, 0x2b, 0, 0, 0,
    5, 0, 0, 0, 0x24, 0, 0, 0, 0x3a, 0, 0, 0,
    9, 0, 0, 0, 0x30, 0, 0, 0, 0x63, 0, 0, 0,
];

// The same in the other byte order.
#[rattlefmt::skip]
const BIG: &[u8] = &[
    0x50, 0x4d, 0x44, 0x4d, 0, 0, 0xa7, 0x93, 0, 0, 0, 4, 0, 0, 0, 0x93,
    0, 0, 0, 0, 0, 0, 0, 0, 0, 0, 0, 0, 0, 0, 0, 0,
    0, 0, 0, 4, 0, 0x61, 0, 0x62,
    0x63, 0, 0xcc,
    0xd0, 0xd1,
    0, 0, 0, 0x20, 0, 0, 0, 0x28,
    0xaa, 0xab,
    0xba, 0xbb, 0xbc,
    0, 0, 0, 2,
    1, 2, 3, 4, 5, 6, 7, 8, 0, 0, 0, 2, 0, 0, 0, 0x35,
    0, 0, 0, 0, 0, 0, 0x20, 0, 0, 0, 0, 3, 0, 0, 0, 0x37,
    0xaa, 0xab, 0xba, 0xbb, 0xbc,
    0, 0, 0, 0, 0, 0, 0, 2, 0, 0, 0, 0, 0, 0, 0, 0x5e,
    1, 2, 3, 4, 5, 6, 7, 8, 0, 0, 0, 0, 0, 0, 0, 2,
    0, 0, 0, 0, 0, 0, 0x20, 0, 0, 0, 0, 0, 0, 0, 0, 3,
    0, 0, 0, 6, 0, 0, 0, 8, 0, 0, 0, 0x2d,
    0, 0, 0, 7, 0, 0, 0, 2, 0, 0, 0, 0x2b,
    0, 0, 0, 5, 0, 0, 0, 0x24, 0, 0, 0, 0x3a,
    0, 0, 0, 9, 0, 0, 0, 0x30, 0, 0, 0, 0x63,
];

fn dump_is(alloc: Global, endian: Endian, bytes: &[u8]) -> Result<bool, AllocError> {
    let mut dump = SynthMinidump::new(alloc, endian);
    let text = dump.add_text16("ab");
    let record = dump.add(dump.section().cstring("c").u8(0xcc));
    let location = dump.add_located(&[0xd0, 0xd1]);
    dump.add_stream(6, dump.section().u32(text).u32(record));
    dump.add_entry(7, location);
    let regions = [
        dump.add_memory(0x0102_0304_0506_0708, &[0xaa, 0xab]),
        dump.add_memory(0x2000, &[0xba, 0xbb, 0xbc]),
    ];
    dump.add_stream(5, dump.section().list(&regions));
    dump.add_memory64_list(&[
        (0x0102_0304_0506_0708, &[0xaa, 0xab]),
        (0x2000, &[0xba, 0xbb, 0xbc]),
    ]);
    Ok(dump.finish()?.as_slice() == bytes)
}

// Each field of the header has four bytes of 1, 2, 3, .., and the last one eight.
const FORGED: &[u8] = &[
    1, 2, 3, 4, 5, 6, 7, 8, 9, 10, 11, 12, 13, 14, 15, 16, 17, 18, 19, 20, 21, 22, 23, 24, 25, 26,
    27, 28, 29, 30, 31, 32,
];

fn forged_header_is_written(alloc: Global) -> Result<bool, AllocError> {
    let mut dump = SynthMinidump::new(alloc, Endian::Big);
    dump.signature = 0x0102_0304;
    dump.version = 0x0506_0708;
    dump.stream_count = Some(0x090a_0b0c);
    dump.stream_directory_rva = Some(0x0d0e_0f10);
    dump.checksum = 0x1112_1314;
    dump.time_date_stamp = 0x1516_1718;
    dump.flags = 0x191a_1b1c_1d1e_1f20;
    Ok(dump.finish()?.as_slice() == FORGED)
}

#[test]
fn writes_dumps(rt: HostRuntime) {
    let alloc = rt.alloc();
    assert!(rt; dump_is(alloc, Endian::Little, LITTLE) == Ok(true));
    assert!(rt; dump_is(alloc, Endian::Big, BIG) == Ok(true));
    assert!(rt; forged_header_is_written(alloc) == Ok(true));
}
