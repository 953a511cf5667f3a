//! How many bytes a list has by its count, and how many there are: the lengths in an error, which no
//! program prints.

use crate::given::stream_of;
use minidump::{
    Endian, Error, MinidumpCrashpadInfo, MinidumpHandleDataStream, MinidumpMemory64List,
    MinidumpMemoryInfoList, MinidumpMemoryList, MinidumpModuleList, MinidumpStream,
    MinidumpThreadList, MinidumpThreadNames,
};
use minidump_synth::SynthMinidump;
use std::alloc::{AllocError, Global};

const CRASHPAD: u32 = 0x4350_0001;

// A type of list, the numbers at its beginning, how many bytes it has, and how many by the numbers.
// The number of entries comes first, or after the sizes of the header and of an entry.
#[rattlefmt::skip]
const LISTS: &[(u32, &[u32], usize, usize)] = &[
    // threads
    (3, &[0xffff_ffff], 4, 206_158_430_164),
    (3, &[0], 12, 4),
    (3, &[1], 55, 52),
    // modules
    (4, &[0x5600_0000], 112, 155_826_782_212),
    (4, &[0x25_0064], 120, 261_892_660),
    (4, &[2], 223, 220),
    (4, &[3], 331, 328),
    // regions of memory
    (5, &[0], 7, 4),
    (5, &[0], 56, 4),
    (5, &[1], 4, 20),
    (5, &[1], 19, 20),
    (5, &[1], 21, 20),
    (5, &[1], 23, 20),
    (5, &[1], 25, 20),
    (5, &[5], 89, 84),
    (5, &[0xffff_ffff], 8, 68_719_476_724),
    // handles
    (12, &[100, 32, 0], 12, 100),
    (12, &[12, 32, 0xffff_ffff], 12, 137_438_953_452),
    (12, &[0x69_006e, 12, 40], 132, 6_881_870),
    (12, &[4, 41, 2], 84, 86),
    (12, &[0xffff_ffff, 0xffff_ffff, 0xffff_ffff], 12, 18_446_744_069_414_584_320),
    // information on memory
    (16, &[12, 48, 1], 12, 60),
    (16, &[8, 48, 0xffff_ffff], 12, 206_158_430_168),
    (16, &[0xffff_ffff, 48, 0xffff_ffff], 12, 210_453_397_455),
    // names of threads
    (24, &[0x22_0000], 36, 26_738_692),
];

// The same of a 64-bit list, by the number of its entries.
const LISTS_64: &[(u64, usize, usize)] = &[
    (0, 20, 16),
    (1, 16, 32),
    (1, 31, 32),
    (1, 33, 32),
    (1, 36, 32),
    (0x0fff_ffff_ffff_fffe, 16, 18_446_744_073_709_551_600),
    (0x0fff_ffff_ffff_fffe, 48, 18_446_744_073_709_551_600),
];

// The error of reading a stream.
fn error_in<'a, S: MinidumpStream<'a> + Drop>(alloc: Global, bytes: &'a [u8]) -> Option<Error> {
    stream_of::<S>(alloc, bytes).err()
}

// The error of reading the stream of a type.
fn error_of(alloc: Global, bytes: &[u8], stream_type: u32) -> Option<Error> {
    match stream_type {
        3 => error_in::<MinidumpThreadList<'_>>(alloc, bytes),
        4 => error_in::<MinidumpModuleList>(alloc, bytes),
        5 => error_in::<MinidumpMemoryList<'_>>(alloc, bytes),
        9 => error_in::<MinidumpMemory64List<'_>>(alloc, bytes),
        12 => error_in::<MinidumpHandleDataStream>(alloc, bytes),
        16 => error_in::<MinidumpMemoryInfoList<'_>>(alloc, bytes),
        24 => error_in::<MinidumpThreadNames>(alloc, bytes),
        _ => error_in::<MinidumpCrashpadInfo>(alloc, bytes),
    }
}

fn mismatch(expected: usize, actual: usize) -> Option<Error> {
    Some(Error::StreamSizeMismatch { expected, actual })
}

// A dump of a list that begins with these numbers, and then has zeros.
fn list(
    alloc: Global,
    endian: Endian,
    row: &(u32, &[u32], usize, usize),
) -> Result<Vec<u8>, AllocError> {
    let mut dump = SynthMinidump::new(alloc, endian);
    let mut stream = dump.section();
    for number in row.1 {
        stream.u32(*number);
    }
    let rest = row.2.saturating_sub(stream.len());
    dump.add_stream(row.0, stream.zeros(rest));
    dump.finish()
}

// The same of a 64-bit list, whose second number is where its bytes begin.
fn list_64(
    alloc: Global,
    endian: Endian,
    row: &(u64, usize, usize),
) -> Result<Vec<u8>, AllocError> {
    let mut dump = SynthMinidump::new(alloc, endian);
    let mut stream = dump.section();
    let rest = row.1.saturating_sub(16);
    dump.add_stream(9, stream.u64(row.0).u64(0).zeros(rest));
    dump.finish()
}

// A dump of Crashpad's information, in which a number that is far too great stands at 32: it counts
// the modules, or the texts of the one module, whose record is at 36.
fn crashpad(alloc: Global, endian: Endian, has_module: bool) -> Result<Vec<u8>, AllocError> {
    let mut dump = SynthMinidump::new(alloc, endian);
    dump.add(dump.section().u32(0xffff_ffff));
    let (size, rva) = if has_module { (16, 64) } else { (4, 32) };
    if has_module {
        dump.add(dump.section().u32(1).u32(4).u32(32).zeros(16));
        dump.add(dump.section().u32(1).u32(0).u32(28).u32(36));
    }
    dump.add_stream(CRASHPAD, dump.section().u32(1).zeros(40).u32(size).u32(rva));
    dump.finish()
}

// Tells whether a list has the lengths of its row.
fn has_lengths(
    alloc: Global,
    endian: Endian,
    row: &(u32, &[u32], usize, usize),
) -> Result<bool, AllocError> {
    let bytes = list(alloc, endian, row)?;
    Ok(error_of(alloc, &bytes, row.0) == mismatch(row.3, row.2))
}

// The same of a 64-bit list.
fn has_lengths_64(
    alloc: Global,
    endian: Endian,
    row: &(u64, usize, usize),
) -> Result<bool, AllocError> {
    let bytes = list_64(alloc, endian, row)?;
    Ok(error_of(alloc, &bytes, 9) == mismatch(row.2, row.1))
}

// The same of Crashpad's information.
fn has_lengths_of_crashpad(
    alloc: Global,
    endian: Endian,
    has_module: bool,
    expected: usize,
    actual: usize,
) -> Result<bool, AllocError> {
    let bytes = crashpad(alloc, endian, has_module)?;
    Ok(error_of(alloc, &bytes, CRASHPAD) == mismatch(expected, actual))
}

fn are_lengths(alloc: Global, endian: Endian) -> bool {
    LISTS
        .iter()
        .all(|row| has_lengths(alloc, endian, row) == Ok(true))
        && LISTS_64
            .iter()
            .all(|row| has_lengths_64(alloc, endian, row) == Ok(true))
        && has_lengths_of_crashpad(alloc, endian, false, 51_539_607_540, 100) == Ok(true)
        && has_lengths_of_crashpad(alloc, endian, true, 17_179_869_180, 144) == Ok(true)
}

#[test]
fn a_length_is_that_of_the_count(rt: HostRuntime) {
    let alloc = rt.alloc();
    assert!(rt; are_lengths(alloc, Endian::Little) && are_lengths(alloc, Endian::Big));
}
