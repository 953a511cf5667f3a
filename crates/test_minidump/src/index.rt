// Tests of `minidump_index`.
use minidump_bytes::Steps;
use minidump_format::Error;
use minidump_index::{AddressIndex, Range, RegionList};
use std::alloc::{AllocError, Global};

// The ranges of regions, by their bases and sizes.
fn ranges_of(alloc: Global, regions: &[(u64, u64)]) -> Result<Vec<Option<Range>>, AllocError> {
    let mut ranges = Vec::new(alloc);
    for (base, size) in regions {
        ranges.push(Range::from_size(*base, *size))?;
    }
    Ok(ranges)
}

fn index_of(alloc: Global, regions: &[(u64, u64)]) -> Result<AddressIndex, Error> {
    AddressIndex::build(alloc, ranges_of(alloc, regions)?.as_slice())
}

// The second has the addresses of the first, the third and the fourth share some with it, the fifth
// has none, and the last begins where the third ends.
#[rattlefmt::skip]
const SIX: &[(u64, u64)] = &[
    (0x1000, 0x1000), (0x1000, 0x1000), (0x1001, 0x1000), (0x1001, 0x100), (0x10, 0), (0x2000, 0x1000),
];

// Regions by their bases and sizes, and the indices of those that are kept, ascending by address.
#[rattlefmt::skip]
const KEPT: &[(&[(u64, u64)], &[usize])] = &[
    (SIX, &[0, 5]),
    // A dropped region drops no other: the third shares addresses with the second alone.
    (&[(30, u64::MAX - 30), (19, 22), (10, 11)], &[2, 0]),
    // By start, then by end, then by index, and not in the order of the list.
    (&[(0x15, 8), (0x10, 8)], &[1]),
    (&[(0x10, 8), (0x10, 4), (0x10, 4)], &[1]),
    // One address before the next region, and one in it.
    (&[(0x10, 8), (0x18, 8), (0x1f, 8)], &[0, 1]),
    // No size, and ends of 2^64 and of 2^64 + 1.
    (&[(0x10, 0), (0x20, 4), (u64::MAX, 1)], &[1, 2]),
    (&[(1, 0), (u64::MAX, 2)], &[]),
    (&[(2, u64::MAX), (1, u64::MAX)], &[1]),
    // More than 2^32 addresses, after a region that has fewer.
    (&[(0x10, 8), (0x20, 1 << 33), (0x300000000, 1)], &[0, 1, 2]),
    (&[], &[]),
];

// Whether those are kept, from both ends.
fn kept_are(index: &AddressIndex, kept: &[usize]) -> bool {
    let mut ascending = index.by_addr();
    let mut holds = index.len() == kept.len();
    for kept_index in kept {
        holds = holds && ascending.next() == Some(*kept_index);
    }
    let mut descending = index.by_addr();
    for kept_index in kept.iter().rev() {
        holds = holds && descending.next_back() == Some(*kept_index);
    }
    holds
}

// An address, and the index of the region of `SIX` that contains it.
#[rattlefmt::skip]
const FOUND: &[(u64, Option<usize>)] = &[
    (0, None), (0xfff, None), (0x1000, Some(0)), (0x1a00, Some(0)), (0x1fff, Some(0)), (0x2000, Some(5)),
    (0x2fff, Some(5)), (0x3000, None), (u64::MAX, None),
];

fn keeps(alloc: Global, row: &(&[(u64, u64)], &[usize])) -> Result<bool, Error> {
    Ok(kept_are(&index_of(alloc, row.0)?, row.1))
}

fn finds(alloc: Global, row: &(u64, Option<usize>)) -> Result<bool, Error> {
    Ok(index_of(alloc, SIX)?.find(row.0, &mut Steps::new()) == row.1)
}

#[test]
fn keeps_what_shares_no_address(rt: HostRuntime) {
    for row in KEPT {
        assert!(rt; keeps(rt.alloc(), row) == Ok(true), "{:?}", row.0);
    }
    for row in FOUND {
        assert!(rt; finds(rt.alloc(), row) == Ok(true), "{}", row.0);
    }
}

// Eight regions of four addresses, ascending.
#[rattlefmt::skip]
const UP: &[(u64, u64)] = &[(0, 4), (10, 4), (20, 4), (30, 4), (40, 4), (50, 4), (60, 4), (70, 4)];

// The same, descending.
#[rattlefmt::skip]
const DOWN: &[(u64, u64)] = &[(70, 4), (60, 4), (50, 4), (40, 4), (30, 4), (20, 4), (10, 4), (0, 4)];

// How many regions a lookup compares an address with, for the base of each of the first regions of
// `UP`: one for each level of the complete tree whose last level is filled from the left, but none
// of that level where it has no region below.
const DEPTHS: &[&[u128]] = &[
    &[],
    &[1],
    &[2, 1],
    &[2, 2, 2],
    &[3, 2, 2, 2],
    &[3, 3, 3, 2, 2],
    &[3, 3, 3, 3, 3, 2],
    &[3, 3, 3, 3, 3, 3, 3],
    &[4, 3, 3, 3, 3, 3, 3, 3],
];

// Whether lookups in an index compare with so many regions.
fn index_has_depths(index: &AddressIndex, depths: &[u128]) -> bool {
    let mut holds = index.len() == depths.len();
    for ((base, _), depth) in UP.iter().zip(depths) {
        let mut steps = Steps::new();
        index.find(*base, &mut steps);
        holds = holds && steps.count() == *depth;
    }
    holds
}

// Whether lookups in a list compare with so many regions, and find those.
fn list_has_depths(list: &RegionList<Option<Range>>, depths: &[u128]) -> bool {
    let mut holds = true;
    for ((base, _), depth) in UP.iter().zip(depths) {
        let mut steps = Steps::new();
        let found = list.at_address(*base, &mut steps).copied().flatten();
        holds = holds && steps.count() == *depth && found == Range::from_size(*base, 4);
    }
    holds
}

// Whether lookups compare with so many of these regions. A list that ascends is its own order by
// address, and its lookups go down the same tree.
fn depths_are(alloc: Global, regions: &[(u64, u64)], depths: &[u128]) -> Result<bool, Error> {
    let list = RegionList::from_regions(alloc, ranges_of(alloc, regions)?)?;
    Ok(list_has_depths(&list, depths) && index_has_depths(&index_of(alloc, regions)?, depths))
}

fn up_has(alloc: Global, depths: &[u128]) -> bool {
    let regions = UP.get(..depths.len()).unwrap_or(&[]);
    depths_are(alloc, regions, depths) == Ok(true)
}

fn down_has(alloc: Global, depths: &[u128]) -> bool {
    let first = 8_usize.saturating_sub(depths.len());
    let regions = DOWN.get(first..).unwrap_or(&[]);
    depths_are(alloc, regions, depths) == Ok(true)
}

#[test]
fn finds_regions_down_a_complete_tree(rt: HostRuntime) {
    for depths in DEPTHS {
        assert!(rt; up_has(rt.alloc(), *depths), "{}", depths.len());
        assert!(rt; down_has(rt.alloc(), *depths), "{}", depths.len());
    }
}
