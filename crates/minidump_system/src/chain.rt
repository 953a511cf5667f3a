//! Chains of records, each of which names the offset of the next: reads the record that a link names,
//! and tells whether its offset is new in its chain.
ghost use Rattle.std.specs.Prelude.{◌≡◌, ◌+◌, ◌<◌, ◌≤◌, ℕ, true, not, cond, IfOk, IfSome, OnErr};
ghost use Rattle.std.specs.BTreeMap.{is_at};
ghost use Rattle.std.specs.BTreeSet.{IsUnchanged, contains};
ghost use Rattle.std.specs.Ordering.{nat_cmp};
ghost use Rattle.minidump_bytes.specs.Source.{bytes_of};
ghost use Rattle.minidump_bytes.specs.Steps.{after};
ghost use Rattle.minidump_system.specs.Chain.{linked, reads_at};

use minidump_bytes::{Endian, Record, Source, Steps};
use std::alloc::AllocError;
use std::collections::BTreeSet;

/// Reads the record that a link names, by its offset in the file. Returns `None` if the link is 0,
/// and if the file doesn't hold all of the record. Counts one step, but none for 0.
pub fn linked_record<R: Record>(
    link: u32,
    all: Source<'_>,
    endian: Endian,
    steps: &mut Steps,
) -> Option<R>
    ensures value { result ≡ linked R.layout endian link (bytes_of all.entry) }
    ensures within { steps.new ≤ steps.old + 1 }
    ensures grows { steps.old ≤ steps.new }
    ensures at_least { IfSome result (λ _. after steps.old 1 ≤ steps.new) }
    ensures step { steps.new ≡ after steps.old (reads_at link) }
{
    if link == 0 {
        return None;
    }
    all.record(link as u64, endian, steps)
}

/// Inserts the offset of a record into the offsets of those before it in its chain. Returns `true`
/// if it was not among them. The offset of a last record, whose `next` is 0, is only looked up: so
/// a chain of one record takes no memory for the set. The only error is that no memory is left, and
/// leaves the set as it was.
pub fn is_new(offsets: &mut BTreeSet<u32>, offset: u32, next: u32) -> Result<bool, AllocError>
    ensures new { IfOk result (λ new. new ≡ not (contains nat_cmp offsets.old offset)) }
    ensures keeps { IfOk result (λ new. 0 < next → (q : ℕ)
        → contains nat_cmp offsets.new q
        ≡ cond (is_at (nat_cmp offset) q) true (contains nat_cmp offsets.old q)) }
    ensures last { IfOk result (λ _. next ≡ 0 → IsUnchanged offsets.old offsets.new) }
    ensures refused { OnErr result (IsUnchanged offsets.old offsets.new) }
{
    if next == 0 {
        return Ok(!offsets.contains(&offset));
    }
    Ok(offsets.insert(offset)?)
}
