use crate::streams::files::read_in;
use bitflags::Flags;
use minidump::format::MINIDUMP_MEMORY_INFO;
use minidump::{Endian, Error, MinidumpMemoryInfo, MinidumpMemoryInfoList, Region, Steps};
use minidump_synth::{Section, zeroed};
use std::alloc::Global;

// A protection, its bits that have a name, and whether the region may be read, written to or run.
#[rattlefmt::skip]
const ACCESS: &[(u32, u32, (bool, bool, bool))] = &[
    (0x1, 0x1, (false, false, false)),
    (0x2, 0x2, (true, false, false)),
    (0x4, 0x4, (true, true, false)),
    (0x8, 0x8, (false, true, false)),
    (0x10, 0x10, (false, false, true)),
    (0x20, 0x20, (true, false, true)),
    (0x40, 0x40, (true, true, true)),
    (0x80, 0x80, (false, true, true)),
    (0x8000_0104, 0x104, (true, true, false)),
];

// The record of a region of a protection, which ends beyond the last address.
fn raw_info(protection: u32) -> MINIDUMP_MEMORY_INFO {
    MINIDUMP_MEMORY_INFO {
        base_address: 0xa902_06ca_83eb_2852,
        region_size: 0xf80e_064a_93eb_2356,
        protection,
        ..zeroed()
    }
}

// Tests whether a region of a protection has its bits and allows what the row says. It has no range.
fn is_allowed(info: &MinidumpMemoryInfo<'_>, row: &(u32, u32, (bool, bool, bool))) -> bool {
    let (protection, bits, access) = *row;
    (info.is_readable(), info.is_writable(), info.is_executable()) == access
        && info.raw == raw_info(protection)
        && info.protection.bits() == bits
        && Region::memory_range(info).is_none()
}

// The same of the one region of a stream.
fn allows(alloc: Global, row: &(u32, u32, (bool, bool, bool))) -> Result<bool, Error> {
    let bytes = Section::new(alloc, Endian::Big)
        .extended_list(12, &[raw_info(row.0)])
        .finish()?;
    let list: MinidumpMemoryInfoList = read_in(alloc, &bytes, &[], Endian::Big, &mut Steps::new())?;
    Ok(list.iter().next().is_some_and(|info| is_allowed(info, row)))
}

#[test]
fn a_protection_says_what_its_region_allows(rt: HostRuntime) {
    for row in ACCESS {
        assert!(rt; allows(rt.alloc(), row) == Ok(true), "of {}", row.0);
    }
}
