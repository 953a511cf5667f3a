ghost use Rattle.std.specs.Prelude.{◌≡◌, IfOk, length};

use minidump::Error;
use minidump_bytes::Steps;
use minidump_index::{AddressIndex, Range, Region, RegionList};
use std::alloc::{AllocError, Global};

/// Makes an index of `count` ranges, or for the verb `list` a list of ranges that ascend, and looks
/// up a million addresses in each round. Returns how many lookups found a range.
pub fn hits(alloc: Global, verb: &str, count: u32, rounds: u32) -> Result<u64, Error> {
    let (ranges, asked) = (ranges(alloc, count)?, addresses(alloc, count)?);
    if verb == "list" {
        let list = RegionList::from_regions(alloc, ranges)?;
        return Ok(hits_in(&list, &asked, rounds));
    }
    Ok(hits_in(&AddressIndex::build(alloc, &ranges)?, &asked, rounds))
}

// What tells whether one of its ranges contains an address.
trait Lookup {
    fn finds(&self, address: u64) -> bool;
}

impl Lookup for AddressIndex {
    fn finds(&self, address: u64) -> bool {
        self.find(address, &mut Steps::new()).is_some()
    }
}

impl Lookup for RegionList<Option<Range>> {
    fn finds(&self, address: u64) -> bool {
        let Some(region) = self.at_address(address, &mut Steps::new()) else {
            return false;
        };
        region
            .memory_range()
            .is_some_and(|range| address <= range.end)
    }
}

// Makes `count` ranges of 4096 addresses, each 8192 after the one before.
fn ranges(alloc: Global, count: u32) -> Result<Vec<Option<Range>>, AllocError>
    ensures { IfOk result (λ v. length v.items ≡ count) }
{
    let mut ranges = Vec::new(alloc);
    for i in 0..count {
        ranges.push(Range::from_size(65536 + 8192 * (i as u64), 4096))?;
    }
    Ok(ranges)
}

// Makes a million addresses among `count` ranges, in an order that no processor guesses.
fn addresses(alloc: Global, count: u32) -> Result<Vec<u64>, AllocError>
    ensures { IfOk result (λ v. length v.items ≡ 1000000) }
{
    let span = 8192 * (count as u64) + 1;
    let mut state = 0x9e37_79b9_7f4a_7c15u64;
    let mut asked = Vec::new(alloc);
    for i in 0..1_000_000u64 {
        state ^= state << 13;
        state ^= state >> 7;
        state ^= state << 17;
        asked.push(65536u64.wrapping_add(state.wrapping_add(i) % span))?;
    }
    Ok(asked)
}

// Counts the addresses that lie in a range, so many times.
fn hits_in<L: Lookup>(ranges: &L, asked: &[u64], rounds: u32) -> u64 {
    let mut hits = 0u64;
    for _ in 0..rounds {
        for address in asked {
            if ranges.finds(*address) {
                hits = hits.wrapping_add(1);
            }
        }
    }
    hits
}
