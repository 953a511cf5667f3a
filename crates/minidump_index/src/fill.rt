ghost use Rattle.std.specs.Prelude.{◌≡◌, ◌^◌, ◌<◌, ◌≤◌, ◌+◌, ◌↔◌, IfOk, IfSome, IsTrue, MatchOption};
ghost use Rattle.std.specs.Prelude.{length, map};
ghost use Rattle.minidump_index.specs.Digits.{digits};
ghost use Rattle.minidump_index.specs.Kept.{IsIndexOf};
ghost use Rattle.minidump_index.specs.Tree.{IsSearchTree, SomeUnfit, entries_of, slot_at, walk};

use crate::index::{Entry, entries_with_range, keep_apart};
use crate::stored::{Small, Wide};
use crate::tree::{Stored, Tree};
use crate::{Range, Region};
use std::alloc::{AllocError, Global};

// Returns one more than the number of slots of the full tree that has as many levels as a complete
// tree of `len` entries.
pub fn full(len: usize) -> usize
    requires { len < 2 ^ 63 }
    ensures { result ≡ 2 ^ digits len }
{
    1 << (usize::BITS - len.leading_zeros())
}

// Returns the slot of the entry numbered `k`, from 1, in the walk of a full tree. `total` is one
// more than the number of its slots.
pub fn slot_at(total: usize, k: usize) -> usize
    requires starts { 0 < k }
    requires within { k < total }
    requires bound { total ≤ 2 ^ 63 }
    ensures { result ≡ slot_at total k }
{
    ((total + k) >> k.trailing_zeros() >> 1) - 1
}

// Fills a tree with as many entries as it has slots, so that its walk yields them in their order.
fn put_entries<S: Stored>(tree: &mut Vec<S>, entries: &[S])
    requires { length tree.old.items ≡ length entries.now }
    ensures { walk (map S.value tree.new.items) ≡ map S.value entries.now }
{
    let len = tree.len();
    let total = full(len);
    let mut rank = 0;
    for k in 1..total {
        let slot = slot_at(total, k);
        if slot < len {
            tree[slot] = entries[rank];
            rank += 1;
        }
    }
}

// Tells whether a range starts after the one before it, if there is one, has ended.
fn follows(before: Option<Range>, range: Range) -> bool
    ensures { IsTrue result ↔ IfSome before (λ r. r.end < range.start) }
{
    match before {
        None => true,
        Some(before) => before.end < range.start,
    }
}

// Fills a tree with the ranges of regions as they stand, if each region has a range that fits and
// that ends before the next one starts. Tells whether it did so; if not, the entries of the tree
// are unspecified.
fn put_in_order<S: Stored, R: Region>(tree: &mut Vec<S>, regions: &[R]) -> bool
    requires { length tree.old.items ≡ length regions.now }
    ensures { IsTrue result
        → IsIndexOf (map R.range regions.now) (walk (map S.value tree.new.items)) }
{
    let len = tree.len();
    let total = full(len);
    let mut before = None;
    let mut index = 0;
    for k in 1..total {
        let slot = slot_at(total, k);
        if slot < len {
            let Some(range) = regions[index].memory_range() else {
                return false;
            };
            let entry = Entry { range, index };
            if !follows(before, range) || !S::holds(entry) {
                return false;
            }
            tree[slot] = S::of(entry);
            before = Some(range);
            index += 1;
        }
    }
    true
}

// Builds the tree of the kept ranges of regions from entries of one type. Returns `None` if they
// can't hold one of the ranges.
fn tree_in<S: Stored, R: Region>(alloc: Global, regions: &[R]) -> Result<Option<Vec<S>>, AllocError>
    ensures tree { IfOk result (λ o. MatchOption o (SomeUnfit S.fits (map R.range regions.now))
        (λ tree. IsIndexOf (map R.range regions.now) (walk (map S.value tree.items)))) }
    ensures few { IfOk result (λ _. length regions.now < 2 ^ 63) }
{
    let mut tree = vec![in alloc; S::NONE; regions.len()]?;
    if put_in_order(&mut tree, regions) {
        return Ok(Some(tree));
    }
    let Some(mut kept) = entries_with_range::<S, R>(alloc, regions)? else {
        return Ok(None);
    };
    keep_apart(&mut kept);
    tree.resize(kept.len(), S::NONE)?;
    put_entries(&mut tree, &kept);
    Ok(Some(tree))
}

// Builds the tree of the kept ranges of regions.
pub fn tree_of<R: Region>(alloc: Global, regions: &[R]) -> Result<Tree, AllocError>
    ensures kept { IfOk result
        (λ tree. IsIndexOf (map R.range regions.now) (walk (entries_of tree))) }
    ensures tree { IfOk result (λ tree. IsSearchTree (entries_of tree)) }
{
    if let Some(tree) = tree_in::<Small, R>(alloc, regions)? {
        return Ok(Tree::Small(tree));
    }
    match tree_in::<Wide, R>(alloc, regions)? {
        Some(tree) => Ok(Tree::Wide(tree)),
        None => unreachable!(),
    }
}
