//! The streams of a dump that have no name, or are never read, and the bytes of a stream.

use minidump::format::{MINIDUMP_LOCATION_DESCRIPTOR, MINIDUMP_STREAM_TYPE};
use minidump::{Endian, Error, Minidump};
use minidump_synth::SynthMinidump;
use std::alloc::{AllocError, Global};

// Five entries: two of type 0x11223344 (0 and 3), one of a type that is not read (1), one that is
// (2), and one that ends a byte after the file (4). Four bytes are at 0x20, the directory is after
// them.
const FIVE: &[(u32, u32, u32)] = &[
    (0x1122_3344, 1, 0x20),
    (0x4767_0006, 2, 0x20),
    (7, 0, 0x60),
    (0x1122_3344, 2, 0x22),
    (0x1122_3345, 4, 0x5d),
];

fn five(alloc: Global) -> Result<Vec<u8>, AllocError> {
    let mut dump = SynthMinidump::new(alloc, Endian::Little);
    dump.add(&[0xa0, 0xa1, 0xa2, 0xa3]);
    for (stream_type, data_size, rva) in FIVE {
        let location = MINIDUMP_LOCATION_DESCRIPTOR {
            data_size: *data_size,
            rva: *rva,
        };
        dump.add_entry(*stream_type, location);
    }
    dump.finish()
}

// The type, the location and the vendor of each stream without a name.
const UNKNOWN: &[(u32, (u32, u32), &str)] = &[
    (0x1122_3344, (2, 0x22), "Unknown Extension"),
    (0x1122_3345, (4, 0x5d), "Unknown Extension"),
];

// The same of the one stream that is never read.
const NEVER_READ: (MINIDUMP_STREAM_TYPE, (u32, u32), &str) = (
    MINIDUMP_STREAM_TYPE::LinuxCmdLine,
    (2, 0x20),
    "Google Extension",
);

fn size_and_rva(location: MINIDUMP_LOCATION_DESCRIPTOR) -> (u32, u32) {
    (location.data_size, location.rva)
}

fn lists_the_unknown(dump: &Minidump<'_>) -> bool {
    let mut want = UNKNOWN.iter();
    dump.unknown_streams().all(|stream| want.next()
        == Some(&(
            stream.stream_type,
            size_and_rva(stream.location),
            stream.vendor,
        )))
        && want.next().is_none()
}

fn lists_the_never_read(dump: &Minidump<'_>) -> bool {
    let mut never_read = dump.unimplemented_streams();
    never_read.next().is_some_and(|stream| (
        stream.stream_type,
        size_and_rva(stream.location),
        stream.vendor,
    ) == NEVER_READ)
        && never_read.next().is_none()
}

// The deciding entry of a type names the bytes; those of one are cut by the file's end.
fn has_its_bytes(dump: &Minidump<'_>) -> bool {
    dump.get_raw_stream(0x1122_3344) == Ok(&[0xa2, 0xa3])
        && dump.get_raw_stream(0x1122_3345) == Err(Error::StreamReadFailure)
        && dump.get_raw_stream(0x1122_3346) == Err(Error::StreamNotFound)
}

fn lists_others(alloc: Global) -> Result<bool, Error> {
    let bytes = five(alloc)?;
    let dump = Minidump::read(alloc, &bytes)?;
    Ok(lists_the_unknown(&dump) && lists_the_never_read(&dump) && has_its_bytes(&dump))
}

#[test]
fn tells_what_is_known_of_streams(rt: HostRuntime) {
    assert!(rt; lists_others(rt.alloc()) == Ok(true));
}
