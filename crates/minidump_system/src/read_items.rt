//! The one loop that makes items of the entries of a list.
ghost use Rattle.std.specs.Prelude.{◌+◌, ◌*◌, ◌<◌, ◌≤◌, ⊤, ℕ, List, Option, Result, length, map, IfOk};
ghost use Rattle.std.specs.List.{sum_by};
ghost use Rattle.std.specs.Option.{option_map};
ghost use Rattle.minidump_bytes.specs.declared.endian.Endian.{Endian};
ghost use Rattle.minidump_bytes.specs.Source.{bytes_of};
ghost use Rattle.minidump_bytes.specs.Steps.{after};
ghost use Rattle.minidump_format.specs.declared.error.Error.{Error};
ghost use Rattle.minidump_format.specs.Answer.{Gives};
ghost use Rattle.minidump_system.specs.Reads.{all_kept, of_kept};

use minidump_bytes::{Endian, Entries, Record, Source, Steps};
use minidump_format::Error;
use std::alloc::Global;

/// Reads an entry of a list. The entry becomes an item, is skipped, or makes the whole list an
/// error. `self` is what the entries have in common.
pub trait ReadEntry<'a, E> {
    /// The item of an entry.
    type Item;

    // the value of an item, without addresses
    ghost Value: { Type 0 };

    ghost value: { Self.Item → Value };

    // the value of an entry's item, none where the entry is skipped, or its error, by the byte
    // order and the file
    ghost entry_value: { Self → Endian → List ℕ → E → Result (Option Value) Error };

    // the most reads of an entry, by the file's length
    ghost most: { ℕ → ℕ } = { λ _. 0 };

    // the fewest reads of an entry, also if it is skipped
    ghost fewest: { E → ℕ } = { λ _. 0 };

    // the fewest reads that an item adds to those
    ghost fewest_of: { Value → ℕ };

    /// Reads the item of an entry from the bytes of the file, `all`. Returns `Ok(None)` if the
    /// entry is skipped.
    fn read_entry(
        &self,
        alloc: Global,
        entry: E,
        all: Source<'a>,
        endian: Endian,
        steps: &mut Steps,
    ) -> Result<Option<Self::Item>, Error>
        ensures means { Gives (option_map value) ⊤ result
            (entry_value self.now endian (bytes_of all.entry) entry) }
        ensures within { steps.new ≤ steps.old + most (length (bytes_of all.entry)) }
        ensures grows { steps.old ≤ steps.new }
        ensures at_least { IfOk result (λ item. after steps.old
            (fewest entry + of_kept fewest_of (option_map value item)) ≤ steps.new) };
}

/// Reads the items of entries, in order, but for those that are skipped. Returns the error of the
/// first entry that has one. Counts one step for each entry that it reads, and the steps of its
/// item.
pub fn read_items<'a, E: Record + Drop, L: ReadEntry<'a, E>>(
    reader: &L,
    alloc: Global,
    entries: Entries<'_, E>,
    all: Source<'a>,
    endian: Endian,
    steps: &mut Steps,
) -> Result<Vec<L::Item>, Error>
where
    L::Item: Drop,
    ensures means { Gives (λ items. map L.value items.items) (0 < length entries.entry) result
        (all_kept (L.entry_value reader.now endian (bytes_of all.entry)) entries.entry) }
    ensures within { steps.new
        ≤ steps.old + length entries.entry * (1 + L.most (length (bytes_of all.entry))) }
    ensures grows { steps.old ≤ steps.new }
    ensures at_least { IfOk result (λ items. after steps.old (length entries.entry
        + (sum_by L.fewest entries.entry + sum_by L.fewest_of (map L.value items.items)))
        ≤ steps.new) }
{
    let mut items = Vec::with_capacity(alloc, entries.len())?;
    for index in 0..entries.len() {
        let raw = entries.read(index, steps);
        if let Some(item) = reader.read_entry(alloc, raw, all, endian, steps)? {
            items.push(item)?;
        }
    }
    Ok(items)
}
