use super::{region, region_64};
use minidump::format::{MINIDUMP_LOCATION_DESCRIPTOR, MINIDUMP_MEMORY_DESCRIPTOR};
use minidump::{
    Endian, Error, FixedRead, MinidumpMemory, MinidumpMemory64List, MinidumpMemoryList, Told,
    UnifiedMemory, UnifiedMemoryList,
};
use std::alloc::Global;

const FILE: &[u8] = &[0, 1, 2, 3, 4, 5, 6, 7];

// The descriptor of a region of `data_size` bytes at the offset `rva` of the file.
fn descriptor(base: u64, rva: u32, data_size: u32) -> MINIDUMP_MEMORY_DESCRIPTOR {
    MINIDUMP_MEMORY_DESCRIPTOR {
        start_of_memory_range: base,
        memory: MINIDUMP_LOCATION_DESCRIPTOR { data_size, rva },
    }
}

// Offsets and sizes in the file, each with the error of reading a region there.
#[rattlefmt::skip]
const ERRORS: &[(u32, u32, Error)] = &[
    (0, 2, Error::MemoryReadFailure),
    (0, 0, Error::MemoryReadFailure),
    (5, 0, Error::MemoryReadFailure),
    (9, 0, Error::MemoryReadFailure),
    (5, 4, Error::StreamReadFailure),
    (8, 1, Error::StreamReadFailure),
    (9, 1, Error::StreamReadFailure),
    (u32::MAX, u32::MAX, Error::StreamReadFailure),
];

fn is_an_error(row: &(u32, u32, Error)) -> bool {
    let (rva, data_size, error) = *row;
    let desc = descriptor(0x1000, rva, data_size);
    MinidumpMemory::read(&desc, FILE, Endian::Little).err() == Some(error)
}

fn is_read(endian: Endian) -> Result<bool, Error> {
    let desc = descriptor(0x1000, 5, 3);
    let region = MinidumpMemory::read(&desc, FILE, endian)?;
    Ok(
        region.desc == desc
            && (region.base_address, region.size) == (0x1000, 3)
            && region.bytes == [5, 6, 7].as_slice()
            && region.endian == endian,
    )
}

#[test]
fn a_region_is_read_where_its_bytes_are_in_the_file(rt: HostRuntime) {
    for row in ERRORS {
        assert!(rt; is_an_error(row), "at {}", row.0);
    }
    assert!(rt; [is_read(Endian::Little), is_read(Endian::Big)] == [Ok(true); 2]);
}

const SIXTEEN: &[u8] = &[1, 2, 3, 4, 5, 6, 7, 8, 9, 10, 11, 12, 13, 14, 15, 16];

const FOUR: &[u8] = &[1, 2, 3, 4];

// The number at an address of bytes from 0x1000 on, in a region of either kind and as a unified
// one.
fn holds<T: FixedRead + PartialEq>(
    bytes: &[u8],
    endian: Endian,
    address: u64,
    want: &Option<T>,
) -> bool {
    let plain = region(0x1000, bytes, endian);
    let long = region_64(0x1000, bytes, endian);
    plain.get_memory_at_address::<T>(address) == *want
        && long.get_memory_at_address::<T>(address) == *want
        && UnifiedMemory::Memory(&plain).get_memory_at_address::<T>(address) == *want
        && UnifiedMemory::Memory64(&long).get_memory_at_address::<T>(address) == *want
}

#[rattlefmt::skip]
const BYTES: &[(u64, Option<u8>)] = &[
    (0xfff, None), (0x1000, Some(1)), (0x100f, Some(16)), (0x1010, None), (u64::MAX, None),
];

// Numbers of 16, 32, 64 and 128 bits at an address, in both byte orders.
#[rattlefmt::skip]
const HALVES: &[(u64, Option<u16>, Option<u16>)] = &[
    (0xfff, None, None),
    (0x1002, Some(0x0403), Some(0x0304)),
    (0x100e, Some(0x100f), Some(0x0f10)),
    (0x100f, None, None),
];

#[rattlefmt::skip]
const WORDS: &[(u64, Option<u32>, Option<u32>)] = &[
    (0x1001, Some(0x0504_0302), Some(0x0203_0405)),
    (0x100d, None, None),
];

// The same of a region of four bytes.
#[rattlefmt::skip]
const WORDS_OF_FOUR: &[(u64, Option<u32>, Option<u32>)] = &[
    (0x1000, Some(0x0403_0201), Some(0x0102_0304)),
    (0x1001, None, None),
];

#[rattlefmt::skip]
const HALVES_OF_FOUR: &[(u64, Option<u16>, Option<u16>)] = &[
    (0x1002, Some(0x0403), Some(0x0304)),
    (0x1003, None, None),
];

#[rattlefmt::skip]
const LONGS: &[(u64, Option<u64>, Option<u64>)] = &[
    (0x1008, Some(0x100f_0e0d_0c0b_0a09), Some(0x090a_0b0c_0d0e_0f10)),
    (0x1009, None, None),
];

#[rattlefmt::skip]
const LONGEST: &[(u64, Option<u128>, Option<u128>)] = &[
    (
        0x1000,
        Some(0x100f_0e0d_0c0b_0a09_0807_0605_0403_0201),
        Some(0x0102_0304_0506_0708_090a_0b0c_0d0e_0f10),
    ),
    (0x1001, None, None),
];

fn all_hold<T: FixedRead + PartialEq>(bytes: &[u8], rows: &[(u64, Option<T>, Option<T>)]) -> bool {
    for (address, little, big) in rows {
        let is_held = holds(bytes, Endian::Little, *address, little);
        if !is_held || !holds(bytes, Endian::Big, *address, big) {
            return false;
        }
    }
    true
}

#[test]
fn a_number_is_read_where_the_region_holds_it_whole(rt: HostRuntime) {
    for (address, want) in BYTES {
        assert!(rt;
            holds(SIXTEEN, Endian::Little, *address, want),
            "at {address}"
        );
    }
    let found = [
        all_hold(SIXTEEN, HALVES),
        all_hold(SIXTEEN, WORDS),
        all_hold(SIXTEEN, LONGS),
        all_hold(SIXTEEN, LONGEST),
        all_hold(FOUR, HALVES_OF_FOUR),
        all_hold(FOUR, WORDS_OF_FOUR),
    ];
    assert!(rt; found == [true; 6]);
}

// A list of one region of 15 bytes, with them, of either kind.
const TEXT: &str = "MinidumpMemoryList
  region_count = 1

region[0]
MINIDUMP_MEMORY_DESCRIPTOR
  start_of_memory_range = 0x1000
  memory.data_size      = 0xf
  memory.rva            = 0x20
Memory
    00000000: 6d 65 6d 6f 72 79 5f 63 6f 6e 74 65 6e 74 73    memory_contents

";

const TEXT_64: &str = "MinidumpMemory64List
  region_count = 1

region[0]
MINIDUMP_MEMORY_DESCRIPTOR64
  start_of_memory_range = 0x1000
  memory.data_size      = 0xf
Memory
    00000000: 6d 65 6d 6f 72 79 5f 63 6f 6e 74 65 6e 74 73    memory_contents

";

fn prints(alloc: Global, list: &UnifiedMemoryList<'_>, text: &str) -> Result<bool, Error> {
    let mut f = Told::new(Vec::new(alloc));
    list.print(alloc, &mut f, false)?;
    Ok(f.into_device().as_slice() == text.as_bytes())
}

fn plain_list(alloc: Global) -> Result<UnifiedMemoryList<'static>, Error> {
    let mut plain = region(0x1000, b"memory_contents", Endian::Little);
    plain.desc = descriptor(0x1000, 0x20, 15);
    let regions = Vec::from_array(alloc, [plain])?;
    Ok(UnifiedMemoryList::Memory(MinidumpMemoryList::from_regions(alloc, regions)?))
}

fn long_list(alloc: Global) -> Result<UnifiedMemoryList<'static>, Error> {
    let mut long = region_64(0x1000, b"memory_contents", Endian::Little);
    long.desc.start_of_memory_range = 0x1000;
    long.desc.data_size = 15;
    let regions = Vec::from_array(alloc, [long])?;
    Ok(UnifiedMemoryList::Memory64(MinidumpMemory64List::from_regions(alloc, regions)?))
}

fn prints_the_plain_list(alloc: Global) -> Result<bool, Error> {
    prints(alloc, &plain_list(alloc)?, TEXT)
}

fn prints_the_long_list(alloc: Global) -> Result<bool, Error> {
    prints(alloc, &long_list(alloc)?, TEXT_64)
}

#[test]
fn a_list_prints_the_bytes_of_its_regions(rt: HostRuntime) {
    let found = [
        prints_the_plain_list(rt.alloc()),
        prints_the_long_list(rt.alloc()),
    ];
    assert!(rt; found == [Ok(true); 2]);
}
