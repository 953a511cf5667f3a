//! Finds the region of a minidump's memory that contains an address: an example of a call on
//! `minidump` alone, which the README quotes.
//!
//! # Errors
//!
//! The error that the format assigns to the bytes, or `OutOfMemory`, which comes only if the
//! directory has entries.
//!
//! # What is proved
//!
//! The region is the kept one that contains the address, of those that the format assigns to these
//! bytes, and it is `None` where no kept region contains it: `region_at`, by `IsRegionAt` and
//! `IsDumpError`. The proof uses the contracts of `minidump`, and nothing below.

ghost use Rattle.std.specs.Prelude.{◌≡◌, IfErr, IfOk};
ghost use Rattle.std.specs.Option.{option_map};
ghost use Rattle.minidump.specs.Below.MemoryLists.Unified.{unified_list};
ghost use Rattle.minidump.specs.Dump.{IsDumpError};
ghost use Rattle.examples.specs.RegionAt.{IsRegionAt, region_in};

use minidump::{Error, Minidump, UnifiedMemoryList};
use std::alloc::Global;

/// Returns the base address and the bytes of the region of memory that contains `address`, or
/// `None` if no kept region does: of overlapping regions one is kept. `bytes` are those of a
/// minidump.
///
/// Returns the errors of [`Minidump::read`], and `OutOfMemory` also where [`Minidump::get_memory`]
/// does.
pub fn region_at<'a>(
    alloc: Global,
    bytes: &'a [u8],
    address: u64,
) -> Result<Option<(u64, &'a [u8])>, Error>
    ensures found { IfOk result (λ found. IsRegionAt bytes.now address
        (option_map (λ r. (r.0, r.1.now)) found)) }
    ensures error { IfErr result (IsDumpError bytes.now) }
{
    let dump = Minidump::read(alloc, bytes)?;
    match dump.get_memory(alloc)? {
        Some(memory) => Ok(region_in(&memory, address)),
        None => Ok(None),
    }
}

fn region_in<'a>(memory: &UnifiedMemoryList<'a>, address: u64) -> Option<(u64, &'a [u8])>
    ensures { option_map (λ r. (r.0, r.1.now)) result
        ≡ region_in (unified_list memory.now) address }
{
    let region = memory.memory_at_address(address)?;
    Some((region.base_address(), region.bytes()))
}
