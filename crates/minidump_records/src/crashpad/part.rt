ghost use Rattle.std.specs.Prelude.{⊤, ◌+◌, ◌*◌, ◌<◌, ◌≤◌, ℕ, List, Result, length, map, IfOk};
ghost use Rattle.std.specs.List.{sum_by};
ghost use Rattle.minidump_bytes.specs.declared.endian.Endian.{Endian};
ghost use Rattle.minidump_bytes.specs.Source.{bytes_of};
ghost use Rattle.minidump_bytes.specs.Steps.{after};
ghost use Rattle.minidump_format.specs.declared.error.Error.{Error};
ghost use Rattle.minidump_format.specs.Answer.{Gives};
ghost use Rattle.minidump_records.specs.Crashpad.Parts.{CountsEntry, WithinPart, WithinParts};
ghost use Rattle.minidump_records.specs.Crashpad.Parts.{list_at, list_of, list_reads, part_at, parts};
ghost use Rattle.minidump_records.specs.Crashpad.Parts.{tested_list, untested_list};

use minidump_bytes::{Endian, Record, Source, Steps};
use minidump_format::Error;
use minidump_format::format::MINIDUMP_LOCATION_DESCRIPTOR;
use std::alloc::Global;

/// The part of the file that an entry of a list names.
pub(crate) trait Part<E>: Sized {
    ghost Value: { Type 0 };

    ghost value: { Self → Value };

    // the value or the error, by the byte order, the file's bytes and the entry
    ghost part: { Endian → List ℕ → E → Result Value Error };

    // where a read may run out of memory, by the byte order, the file's bytes and the entry
    ghost memory: { Endian → List ℕ → E → Type 0 };

    // the most reads, by the file's length
    ghost most: { ℕ → ℕ };

    // the fewest reads of a value that is read
    ghost fewest: { Value → ℕ };

    /// Reads the part from the bytes of the file, `all`.
    fn read_part(
        alloc: Global,
        entry: &E,
        all: Source<'_>,
        endian: Endian,
        steps: &mut Steps,
    ) -> Result<Self, Error>
        ensures means { Gives value (memory endian (bytes_of all.entry) entry.now) result
            (part endian (bytes_of all.entry) entry.now) }
        ensures within { steps.new ≤ steps.old + most (length (bytes_of all.entry)) }
        ensures grows { steps.old ≤ steps.new }
        ensures at_least { IfOk result (λ p. after steps.old (fewest (value p)) ≤ steps.new) };
}

// Reads the bytes of the list at a location, and the count that they begin with. The count of no
// bytes is 0.
#[tactic(auto, unfolding(crate::specs::Crashpad::Parts::list_at))]
fn open_list<'a>(
    location: MINIDUMP_LOCATION_DESCRIPTOR,
    all: Source<'a>,
    endian: Endian,
    steps: &mut Steps,
) -> Result<(Source<'a>, u32), Error>
    ensures means { Gives (λ l. list_of (bytes_of l.0) l.1) ⊥ result
        (list_at endian (bytes_of all.entry) location) }
    ensures inside { IfOk result (λ l. length (bytes_of l.0) ≤ length (bytes_of all.entry)) }
    ensures within { steps.new ≤ steps.old + 2 }
    ensures grows { steps.old ≤ steps.new }
    ensures at_least { IfOk result (λ _. after steps.old (list_reads location) ≤ steps.new) }
{
    let bytes = location
        .bytes_in(all, steps)
        .ok_or(Error::StreamReadFailure)?;
    let bytes = Source::new(bytes);
    if location.data_size == 0 {
        return Ok((bytes, 0));
    }
    let count: u32 = bytes
        .record(0, endian, steps)
        .ok_or(Error::StreamReadFailure)?;
    Ok((bytes, count))
}

// Reads the parts that the `count` entries after the count name. The list grows entry by entry, so
// that a forged count reserves no memory.
fn read_parts<E: Record + Drop, P: Part<E> + Drop>(
    alloc: Global,
    bytes: Source<'_>,
    count: u32,
    all: Source<'_>,
    endian: Endian,
    steps: &mut Steps,
) -> Result<Vec<P>, Error>
    ensures means { Gives (λ v. map P.value v.items) (0 < count) result
        (parts E.layout P.part endian (bytes_of all.entry) (list_of (bytes_of bytes.entry) count)) }
    ensures few { IfOk result (λ v. 0 < length v.items → 0 < count) }
    ensures within { WithinParts E.layout.size (length (bytes_of bytes.entry))
        (P.most (length (bytes_of all.entry))) steps.old steps.new }
    ensures grows { steps.old ≤ steps.new }
    ensures at_least { IfOk result
        (λ v. after steps.old (sum_by (λ p. 1 + P.fewest p) (map P.value v.items)) ≤ steps.new) }
{
    let mut parts = Vec::new(alloc);
    for i in 0..count {
        let part = read_at::<E, P>(alloc, bytes, i, all, endian, steps)?;
        parts.push(part)?;
    }
    Ok(parts)
}

// Reads the part that the entry at an index names. The entries come after the count.
fn read_at<E: Record + Drop, P: Part<E>>(
    alloc: Global,
    bytes: Source<'_>,
    index: u32,
    all: Source<'_>,
    endian: Endian,
    steps: &mut Steps,
) -> Result<P, Error>
    ensures means { Gives P.value ⊤ result
        (part_at E.layout P.part endian (bytes_of all.entry) (bytes_of bytes.entry) index) }
    ensures inside { IfOk result
        (λ _. E.layout.size * (index + 1) ≤ length (bytes_of bytes.entry)) }
    ensures within { WithinPart (E.layout.size * (index + 1)) (length (bytes_of bytes.entry))
        (P.most (length (bytes_of all.entry))) steps.old steps.new }
    ensures grows { steps.old ≤ steps.new }
    ensures at_least { IfOk result
        (λ p. after steps.old (1 + P.fewest (P.value p)) ≤ steps.new) }
{
    let offset = 4 + E::SIZE as u64 * index as u64;
    let entry: E = bytes
        .record(offset, endian, steps)
        .ok_or(Error::StreamReadFailure)?;
    P::read_part(alloc, &entry, all, endian, steps)
}

/// Reads the parts of the list at a location. Any count is allowed.
#[tactic(auto, unfolding(crate::specs::Crashpad::Parts::untested_list))]
pub(crate) fn read_untested<E: Record + Drop, P: Part<E> + Drop>(
    alloc: Global,
    location: MINIDUMP_LOCATION_DESCRIPTOR,
    all: Source<'_>,
    endian: Endian,
    steps: &mut Steps,
) -> Result<Vec<P>, Error>
    ensures means { Gives (λ v. map P.value v.items)
        (CountsEntry endian (bytes_of all.entry) location) result
        (untested_list E.layout P.part endian (bytes_of all.entry) location) }
    ensures few { IfOk result (λ v. 0 < length v.items
        → CountsEntry endian (bytes_of all.entry) location) }
    ensures within { WithinParts E.layout.size (length (bytes_of all.entry))
        (P.most (length (bytes_of all.entry))) (steps.old + 2) steps.new }
    ensures grows { steps.old ≤ steps.new }
    ensures at_least { IfOk result (λ v. after steps.old
        (list_reads location + sum_by (λ p. 1 + P.fewest p) (map P.value v.items)) ≤ steps.new) }
{
    let (bytes, count) = open_list(location, all, endian, steps)?;
    read_parts(alloc, bytes, count, all, endian, steps)
}

/// Reads the parts of the list at a location. Returns `StreamSizeMismatch` if the entries that it
/// counts would be more bytes than the whole file has.
#[tactic(auto, unfolding(crate::specs::Crashpad::Parts::tested_list))]
pub(crate) fn read_list<E: Record + Drop, P: Part<E> + Drop>(
    alloc: Global,
    location: MINIDUMP_LOCATION_DESCRIPTOR,
    all: Source<'_>,
    endian: Endian,
    steps: &mut Steps,
) -> Result<Vec<P>, Error>
    ensures means { Gives (λ v. map P.value v.items)
        (CountsEntry endian (bytes_of all.entry) location) result
        (tested_list E.layout P.part endian (bytes_of all.entry) location) }
    ensures within { WithinParts E.layout.size (length (bytes_of all.entry))
        (P.most (length (bytes_of all.entry))) (steps.old + 2) steps.new }
    ensures grows { steps.old ≤ steps.new }
    ensures at_least { IfOk result (λ v. after steps.old
        (list_reads location + sum_by (λ p. 1 + P.fewest p) (map P.value v.items)) ≤ steps.new) }
{
    let (bytes, count) = open_list(location, all, endian, steps)?;
    let expected = E::SIZE * count as usize;
    let actual = all.len();
    if expected > actual {
        return Err(Error::StreamSizeMismatch { expected, actual });
    }
    read_parts(alloc, bytes, count, all, endian, steps)
}
