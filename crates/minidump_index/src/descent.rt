//! The descent of a lookup, and what makes it fast. Each form here pays from some number of kept
//! regions on:
//!
//! - The search goes down a complete tree in level order, so that the upper levels share cache
//!   lines. It makes one comparison a level, and branches on nothing but whether the tree goes on,
//!   so it takes the same steps whatever the address, but for the last level, where the tree may
//!   lack the slot that the search comes to. That pays at every size.
//! - Entries have 16 bytes where all ranges of the list fit ([`Small`](crate::stored::Small)), so
//!   four stand in a cache line. Entries of 24 bytes ([`Wide`](crate::stored::Wide)) take a tenth
//!   longer at 1,000 regions, and a third longer from 100,000 on.
//! - Entries three levels below are read in advance (`bits_ahead`), so that they come from memory
//!   while the levels between are compared. It costs up to 4 ns below 10,000 regions, and saves a
//!   quarter at 100,000 and almost half at a million.
ghost use Rattle.std.specs.Prelude.{◌≡◌, ◌+◌, ◌-◌, ◌*◌, ◌^◌, ◌<◌, ◌≤◌, Some, true, length, map, slice_get};
ghost use Rattle.minidump_bytes.specs.Steps.{after};
ghost use Rattle.minidump_index.specs.declared.index.Entry.{Entry};
ghost use Rattle.minidump_index.specs.Digits.{digits};
ghost use Rattle.minidump_index.specs.Kept.{IsFound};
ghost use Rattle.minidump_index.specs.Tree.{GoesOn, IsSearchTree, walk};

use crate::Range;
use crate::tree::Stored;
use minidump_bytes::{Steps, probe};
use std::cmp::Ordering;

// Compares the address with the range of the entry numbered `number`. Returns what `descend` does.
#[inline(always)]
fn below(
    range: Range,
    number: usize,
    found: usize,
    inside: bool,
    address: u64,
    steps: &mut Steps,
) -> (usize, usize, bool)
    requires { 2 * number + 1 < 2 ^ 64 }
    ensures left { address < range.start → result ≡ (2 * number, found, inside) }
    ensures here { range.start ≤ address → address ≤ range.end
        → result ≡ (2 * number + 1, number, true) }
    ensures right { range.end < address → result ≡ (2 * number + 1, number, inside) }
    ensures step { steps.new ≡ after steps.old 1 }
{
    // No branch, since which way the search goes can't be predicted.
    let order = probe(range.start, range.end, address, steps);
    let right = order != Ordering::Less;
    (
        2 * number + right as usize,
        if right { number } else { found },
        inside | (order == Ordering::Equal),
    )
}

// Goes on from the entry numbered `number`. Returns the number to go on at, the number where the
// lookup last went to the right, and whether a range that contains the address was met.
#[inline(always)]
fn descend<S: Stored>(
    tree: &[S],
    number: usize,
    found: usize,
    inside: bool,
    address: u64,
    steps: &mut Steps,
) -> (usize, usize, bool)
    requires few { length tree.now < 2 ^ 63 }
    requires first { 0 < number }
    requires last { number ≤ length tree.now }
    ensures next { (e : Entry) × (slice_get (map S.value tree.now) (number - 1) ≡ Some e)
        × GoesOn e.range address number found inside result }
    ensures step { steps.new ≡ after steps.old 1 }
{
    let range = tree[number - 1].entry().range;
    below(range, number, found, inside, address, steps)
}

// Reads two of the eight entries three levels below a number. Returns a number below 2^31 that
// depends on both.
#[inline(always)]
fn bits_ahead<S: Stored>(tree: &[S], number: usize) -> u32
    requires { 8 * number + 4 < length tree.now }
    ensures { result < 2 ^ 31 }
{
    tree[8 * number].bits() & tree[8 * number + 4].bits()
}

// Reads the same two entries, or the last entry where the tree ends before them. The numbers of
// their slots may wrap: then it reads other entries.
#[inline(always)]
fn bits_below<S: Stored>(tree: &[S], number: usize) -> u32
    requires { 0 < length tree.now }
    ensures { result < 2 ^ 31 }
{
    let last = tree.len() - 1;
    let lowest = number.wrapping_mul(8);
    let one = tree[lowest.min(last)].bits();
    one & tree[lowest.wrapping_add(4).min(last)].bits()
}

// Returns the index in the list of the range that contains the address, or `None` if no range does.
//
// Entries are numbered from 1 in level order: the children of `number` are `2 * number` and
// `2 * number + 1`. At most one range contains the address. At that range the lookup goes to the
// right, and below it only to the left, so it is the one where the lookup last went to the right.
//
// While the lookup is at a number, two of the eight entries three levels below are read, so that
// they are there when it gets to them. What is read is below 2^31. The compiler doesn't know that,
// so it keeps the reads.
#[inline(always)]
pub fn find<S: Stored>(tree: &[S], address: u64, steps: &mut Steps) -> Option<usize>
    requires few { length tree.now < 2 ^ 63 }
    requires tree { IsSearchTree (map S.value tree.now) }
    ensures found { IsFound (walk (map S.value tree.now)) address result }
    ensures within { steps.new ≤ steps.old + digits (length tree.now) }
    ensures grows { steps.old ≤ steps.new }
    ensures compared { 0 < length tree.now → after steps.old 1 ≤ steps.new }
{
    let len = tree.len();
    let mut ahead = tree.first()?.bits();
    // The first number of the level, and the number that the lookup is at.
    let mut first = 1;
    let mut number = 1;
    let mut found = 1;
    let mut inside = false;
    while first <= len / 16 {
        ahead &= bits_ahead(tree, number);
        (number, found, inside) = descend(tree, number, found, inside, address, steps);
        first *= 2;
    }
    ahead &= bits_below(tree, number);
    while number <= len {
        (number, found, inside) = descend(tree, number, found, inside, address, steps);
    }
    if inside && ahead < 1 << 31 {
        Some(tree[found - 1].entry().index)
    } else {
        None
    }
}
