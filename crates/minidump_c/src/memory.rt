ghost use Rattle.std.specs.Prelude.{◌≡◌, IfErr, IfOk};
ghost use Rattle.std.specs.Option.{option_copied, option_map};
ghost use Rattle.minidump.specs.Below.MemoryLists.Unified.{unified_list, unified_region};
ghost use Rattle.minidump.specs.Below.MemoryLists.Unified.{unified_regions};
ghost use Rattle.minidump.specs.Dump.{IsDumpError};
ghost use Rattle.minidump_c.specs.Memory.{IsReadAt, IsRegionAt, IsTableOf, IsTableOfRegions};
ghost use Rattle.minidump_c.specs.Memory.{bytes_from, memory_at, row_of};
ghost use Rattle.minidump_c.specs.Status.{Ends};
ghost use Rattle.minidump_c.specs.Text.{IsFilled};

use crate::status::status_of;
use crate::text::fill;
use minidump::{Error, Minidump, UnifiedMemory, UnifiedMemoryList};
use std::alloc::{AllocError, Global};

/// A region of memory. Its size is 0 where there is none.
#[repr(C)]
#[derive(Clone, Copy)]
pub struct Region {
    /// The first address.
    pub base: u64,
    /// The number of bytes.
    pub size: u64,
}

/// Writes the region of memory that contains the address to `region`, and zeros if there is none.
#[unsafe(no_mangle)]
pub extern "C" fn minidump_memory_at(
    alloc: Global,
    bytes: &[u8],
    address: u64,
    region: &mut Region,
) -> u32
    ensures { Ends result (IsRegionAt bytes.now address region.new) (IsDumpError bytes.now)
        (region.new ≡ region.old) }
{
    match found_at(alloc, bytes, address) {
        Ok(found) => {
            *region = found.0;
            0
        }
        Err(error) => status_of(error),
    }
}

/// Copies the bytes of memory from the address on to the front of `out`, as far as they fit, and
/// writes to `count` how many bytes the region has from the address on: 0 if no region contains it.
#[unsafe(no_mangle)]
pub extern "C" fn minidump_read_memory(
    alloc: Global,
    bytes: &[u8],
    address: u64,
    out: &mut [u8],
    count: &mut usize,
) -> u32
    ensures { Ends result (IsFilled (IsReadAt bytes.now address) out.old out.new count.new)
        (IsDumpError bytes.now) ((out.new ≡ out.old) × (count.new ≡ count.old)) }
{
    match found_at(alloc, bytes, address) {
        Ok(found) => {
            *count = fill(found.1, out);
            0
        }
        Err(error) => status_of(error),
    }
}

// Returns the region of memory that contains the address, and its bytes from there on; zeros and no
// bytes if there is none.
fn found_at<'a>(alloc: Global, bytes: &'a [u8], address: u64) -> Result<(Region, &'a [u8]), Error>
    ensures region { IfOk result (λ found. IsRegionAt bytes.now address found.0) }
    ensures read { IfOk result (λ found. IsReadAt bytes.now address found.1.now) }
    ensures error { IfErr result (IsDumpError bytes.now) }
{
    let dump = Minidump::read(alloc, bytes)?;
    let memory = dump.get_memory(alloc)?;
    let found = memory_at(memory.as_ref(), address);
    Ok((row_of(found), bytes_from(found, address)))
}

// Finds the region of memory that contains the address.
fn memory_at<'s, 'a>(
    memory: Option<&'s UnifiedMemoryList<'a>>,
    address: u64,
) -> Option<UnifiedMemory<'s, 'a>>
    ensures { option_map unified_region result
        ≡ memory_at (option_map unified_list (option_copied memory.entry)) address }
{
    memory?.memory_at_address(address)
}

// Returns the addresses of a region, zeros if there is none.
fn row_of(found: Option<UnifiedMemory<'_, '_>>) -> Region
    ensures { result ≡ row_of (option_map unified_region found.entry) }
{
    match found {
        Some(region) => Region {
            base: region.base_address(),
            size: region.size(),
        },
        None => Region { base: 0, size: 0 },
    }
}

// Returns the bytes of a region from the address on.
fn bytes_from<'a>(found: Option<UnifiedMemory<'_, 'a>>, address: u64) -> &'a [u8]
    ensures { result.now ≡ bytes_from (option_map unified_region found.entry) address }
{
    let Some(region) = found else {
        return &[];
    };
    let from = address.saturating_sub(region.base_address()) as usize;
    region.bytes().get(from..).unwrap_or(&[])
}

/// Writes the regions of memory that `minidump_memory_at` finds, ascending by address, to the front
/// of `regions`, as far as they fit, and their number to `count`.
#[unsafe(no_mangle)]
pub extern "C" fn minidump_memory_table(
    alloc: Global,
    bytes: &[u8],
    regions: &mut [Region],
    count: &mut usize,
) -> u32
    ensures { Ends result (IsFilled (IsTableOf bytes.now) regions.old regions.new count.new)
        (IsDumpError bytes.now) ((regions.new ≡ regions.old) × (count.new ≡ count.old)) }
{
    match table(alloc, bytes) {
        Ok(rows) => {
            *count = fill(rows.as_slice(), regions);
            0
        }
        Err(error) => status_of(error),
    }
}

// Makes the table of the regions of memory.
fn table(alloc: Global, bytes: &[u8]) -> Result<Vec<Region>, Error>
    ensures table { IfOk result (λ rows. IsTableOf bytes.now rows.items) }
    ensures error { IfErr result (IsDumpError bytes.now) }
{
    let dump = Minidump::read(alloc, bytes)?;
    match dump.get_memory(alloc)? {
        Some(memory) => Ok(region_rows(alloc, &memory)?),
        None => Ok(Vec::new(alloc)),
    }
}

// Makes the rows of the regions of memory.
fn region_rows(alloc: Global, memory: &UnifiedMemoryList<'_>) -> Result<Vec<Region>, AllocError>
    ensures { IfOk result (λ rows. IsTableOfRegions
        (unified_regions (unified_list memory.now)) rows.items) }
{
    memory
        .by_addr()
        .map(|region| row_of(Some(region)))
        .collect(alloc)
}
