//! The unloaded modules that had an address, by their first address.

use crate::given::stream_of;
use minidump::format::MINIDUMP_UNLOADED_MODULE;
use minidump::{Endian, Error, MinidumpUnloadedModuleList, Module};
use minidump_synth::SynthMinidump;
use std::alloc::{AllocError, Global};

// The first address, the size and the name of unloaded modules; an address, and the first addresses
// and the names of those that had it.
type Unloaded = (
    &'static [(u64, u32, &'static str)],
    u64,
    &'static [(u64, &'static str)],
);

const INNER_FIRST: &[(u64, u32, &str)] = &[(0x1800, 0x100, "inner"), (0x1000, 0x2000, "outer")];

const OUTER_FIRST: &[(u64, u32, &str)] = &[(0x1000, 0x2000, "outer"), (0x1800, 0x100, "inner")];

const LAST: &[(u64, u32, &str)] = &[(0xffff_ffff_ffff_f000, 0x1000, "last")];

#[rattlefmt::skip]
const UNLOADED: &[Unloaded] = &[
    (INNER_FIRST, 0xfff, &[]),
    (INNER_FIRST, 0x1850, &[(0x1000, "outer"), (0x1800, "inner")]),
    (INNER_FIRST, 0x2000, &[(0x1000, "outer")]),
    (INNER_FIRST, 0x3000, &[]),
    (OUTER_FIRST, 0x1850, &[(0x1000, "outer"), (0x1800, "inner")]),
    (OUTER_FIRST, 0x2000, &[(0x1000, "outer")]),
    (LAST, u64::MAX, &[(0xffff_ffff_ffff_f000, "last")]),
];

// The records of unloaded modules, whose names are put into a dump.
fn records(
    alloc: Global,
    dump: &mut SynthMinidump,
    modules: &[(u64, u32, &str)],
) -> Result<Vec<MINIDUMP_UNLOADED_MODULE>, AllocError> {
    let mut records = Vec::new(alloc);
    for (base_of_image, size_of_image, name) in modules {
        records.push(MINIDUMP_UNLOADED_MODULE {
            base_of_image: *base_of_image,
            size_of_image: *size_of_image,
            checksum: 0,
            time_date_stamp: 0xb105_4d2a,
            module_name_rva: dump.add_text16(*name),
        })?;
    }
    Ok(records)
}

// A dump of unloaded modules.
fn unloaded_dump(
    alloc: Global,
    endian: Endian,
    modules: &[(u64, u32, &str)],
) -> Result<Vec<u8>, AllocError> {
    let mut dump = SynthMinidump::new(alloc, endian);
    let records = records(alloc, &mut dump, modules)?;
    dump.add_stream(14, dump.section().extended_list(12, &records));
    dump.finish()
}

// Tells whether these modules had the address.
fn had(alloc: Global, endian: Endian, row: &Unloaded) -> Result<bool, Error> {
    let (modules, address, wanted) = *row;
    let bytes = unloaded_dump(alloc, endian, modules)?;
    let list: MinidumpUnloadedModuleList = stream_of(alloc, &bytes)?;
    Ok(are_at(&list, address, wanted))
}

fn are_at(list: &MinidumpUnloadedModuleList, address: u64, wanted: &[(u64, &str)]) -> bool {
    list.modules_at_address(address)
        .map(|module| (module.base_address(), module.code_file()))
        .eq(wanted.iter().copied())
}

#[test]
fn finds_each_unloaded_module_that_had_an_address(rt: HostRuntime) {
    let alloc = rt.alloc();
    for row in UNLOADED {
        assert!(rt;
            had(alloc, Endian::Little, row) == Ok(true) && had(alloc, Endian::Big, row) == Ok(true)
        );
    }
}
