use minidump::{Endian, Error, MinidumpStream, MinidumpSystemInfo, Source, Steps};
use std::alloc::Global;

// Reads the stream of some bytes, in a file.
pub(crate) fn read_in<'a, S: MinidumpStream<'a>>(
    alloc: Global,
    stream: &'a [u8],
    file: &'a [u8],
    endian: Endian,
    steps: &mut Steps,
) -> Result<S, Error> {
    S::read(
        alloc,
        Source::new(stream),
        Source::new(file),
        endian,
        None,
        steps,
    )
}

// The system of a processor's architecture and a platform, by their numbers.
pub(crate) fn system(
    alloc: Global,
    endian: Endian,
    architecture: u16,
    platform: u32,
) -> Result<MinidumpSystemInfo, Error> {
    let mut record = [0; 56];
    let (processor, os) = match endian {
        Endian::Little => (architecture.to_le_bytes(), platform.to_le_bytes()),
        Endian::Big => (architecture.to_be_bytes(), platform.to_be_bytes()),
    };
    record[..2].copy_from_slice(&processor);
    record[20..24].copy_from_slice(&os);
    MinidumpSystemInfo::read_record(
        alloc,
        Source::new(&record),
        Source::new(&[]),
        endian,
        &mut Steps::new(),
    )
}
