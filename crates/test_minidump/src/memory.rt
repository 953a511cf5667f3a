//! The region at an address, by `examples::region_at`, the numbers in it, and dumps without memory.

use examples::region_at::region_at;
use minidump::{Endian, Error, Minidump, UnifiedMemoryList};
use minidump_synth::{OVERLAPPING, SynthMinidump};
use std::alloc::Global;

// A header, one entry of the directory, a memory list of one region, and its four bytes, at 0x1000.
const ONE_REGION: [u8; 68] = [
    0x4d, 0x44, 0x4d, 0x50, 0x93, 0xa7, 0, 0, 1, 0, 0, 0, 0x20, 0, 0, 0, 0, 0, 0, 0, 0, 0, 0, 0, 0,
    0, 0, 0, 0, 0, 0, 0, 5, 0, 0, 0, 20, 0, 0, 0, 0x2c, 0, 0, 0, 1, 0, 0, 0, 0, 0x10, 0, 0, 0, 0,
    0, 0, 4, 0, 0, 0, 0x40, 0, 0, 0, 0xa0, 0xa1, 0xa2, 0xa3,
];

// The bytes outlive the dump and the memory that found them: they are the file's own.
#[test]
fn answers_the_region_at_an_address(rt: HostRuntime) {
    let alloc = rt.alloc();
    let region: (u64, &[u8]) = (0x1000, &[0xa0, 0xa1, 0xa2, 0xa3]);
    let found = [0xfff, 0x1000, 0x1003, 0x1004].map(|at| region_at(alloc, &ONE_REGION, at));
    assert!(rt; found == [Ok(None), Ok(Some(region)), Ok(Some(region)), Ok(None)]);
    assert!(rt; region_at(alloc, &ONE_REGION[..31], 0x1000) == Err(Error::MissingHeader));
}

// An address, and the first address of the region that contains it with the numbers of one, two and
// four bytes there, where there is one.
type Numbers = (u64, Option<(u64, Option<u8>, Option<u16>, Option<u32>)>);

// Of the regions of `OVERLAPPING` the first and the last are kept.
const AT_THREE: &[Numbers] = &[
    (0x1a00, Some((0x1000, Some(0), Some(0), Some(0)))),
    (
        0x2a00,
        Some((0x2000, Some(4), Some(0x404), Some(0x404_0404))),
    ),
    (0x9000, None),
];

const FOUR: &[(u64, &[u8])] = &[(0x1000, &[1, 2, 3, 4])];

const AT_SIX: &[Numbers] = &[
    (0xfff, None),
    (
        0x1000,
        Some((0x1000, Some(1), Some(0x201), Some(0x403_0201))),
    ),
    (0x1001, Some((0x1000, Some(2), Some(0x302), None))),
    (0x1002, Some((0x1000, Some(3), Some(0x403), None))),
    (0x1003, Some((0x1000, Some(4), None, None))),
    (0x1004, None),
];

const AT_FOUR_BIG: &[Numbers] = &[
    (
        0x1000,
        Some((0x1000, Some(1), Some(0x102), Some(0x102_0304))),
    ),
    (0x1001, Some((0x1000, Some(2), Some(0x203), None))),
    (0x1002, Some((0x1000, Some(3), Some(0x304), None))),
    (0x1003, Some((0x1000, Some(4), None, None))),
];

// Tells whether the memory of a dump has these numbers.
fn has_numbers(alloc: Global, bytes: &[u8], wanted: &[Numbers]) -> Result<bool, Error> {
    let Some(memory) = Minidump::read(alloc, bytes)?.get_memory(alloc)? else {
        return Ok(false);
    };
    Ok(wanted.iter().all(|(address, numbers)| numbers_at(&memory, *address) == *numbers))
}

fn numbers_at(
    memory: &UnifiedMemoryList<'_>,
    address: u64,
) -> Option<(u64, Option<u8>, Option<u16>, Option<u32>)> {
    let region = memory.memory_at_address(address)?;
    Some((
        region.base_address(),
        region.get_memory_at_address(address),
        region.get_memory_at_address(address),
        region.get_memory_at_address(address),
    ))
}

fn overlapping(alloc: Global) -> Result<bool, Error> {
    let mut dump = SynthMinidump::new(alloc, Endian::Little);
    dump.add_memory_list(OVERLAPPING);
    has_numbers(alloc, &dump.finish()?, AT_THREE)
}

fn four(alloc: Global) -> Result<bool, Error> {
    let mut dump = SynthMinidump::new(alloc, Endian::Little);
    dump.add_memory_list(FOUR);
    has_numbers(alloc, &dump.finish()?, AT_SIX)
}

fn four_big(alloc: Global) -> Result<bool, Error> {
    let mut dump = SynthMinidump::new(alloc, Endian::Big);
    dump.add_memory64_list(FOUR);
    has_numbers(alloc, &dump.finish()?, AT_FOUR_BIG)
}

#[test]
fn a_number_is_that_of_the_region_that_is_kept(rt: HostRuntime) {
    let alloc = rt.alloc();
    assert!(rt; [overlapping(alloc), four(alloc), four_big(alloc)] == [Ok(true); 3]);
}

// Tells whether a dump of these streams of zeros has no memory, not an empty one either.
fn has_no_memory(alloc: Global, streams: &[(u32, usize)]) -> Result<bool, Error> {
    let mut dump = SynthMinidump::new(alloc, Endian::Little);
    for (stream_type, size) in streams {
        dump.add_stream(*stream_type, dump.section().zeros(*size));
    }
    let bytes = dump.finish()?;
    Ok(Minidump::read(alloc, &bytes)?.get_memory(alloc)?.is_none())
}

// Without a list, and with lists that are too short.
#[test]
fn lists_that_cannot_be_read_are_no_memory(rt: HostRuntime) {
    let alloc = rt.alloc();
    let found = [
        has_no_memory(alloc, &[]),
        has_no_memory(alloc, &[(9, 15), (5, 3)]),
    ];
    assert!(rt; found == [Ok(true); 2]);
}
