ghost use Rattle.std.specs.Prelude.{◌≡◌, ◌+◌, ◌-◌, ◌*◌, ◌^◌, ◌<◌, ◌≤◌, ◌≢◌, All, length, drop, map, IfOk, OnOk};
ghost use Rattle.std.specs.List.Sorted.{IsNonDecreasingBy, IsStrictlySortedBy};
ghost use Rattle.std.specs.Ordering.{nat_cmp};
ghost use Rattle.minidump_bytes.specs.Steps.{after};
ghost use Rattle.minidump_bytes.specs.Source.{bytes_of};
ghost use Rattle.minidump_format.specs.Answer.{Gives};
ghost use Rattle.minidump.specs.Deciding.{AreLast, Decides, Reads, bytes_of_type, ends_a_type, type_of};
ghost use Rattle.minidump.specs.Directory.{directory, with_indices, is_readable};

use minidump_bytes::{Endian, Source, Steps};
use minidump_format::Error;
use minidump_format::format::{MINIDUMP_DIRECTORY, MINIDUMP_HEADER};
use std::alloc::Global;

/// An entry with its index in the directory. Of the entries of a type the last decides.
#[derive(Clone, Copy)]
pub(crate) struct DecidingEntry {
    /// The index of the entry in the directory.
    pub(crate) index: u32,
    pub(crate) entry: MINIDUMP_DIRECTORY,
}

// Tells whether every entry is in the file. If there is none, the offset of the directory may be
// any.
fn is_readable(source: Source<'_>, header: &MINIDUMP_HEADER) -> bool
    ensures { result ≡ is_readable (bytes_of source.entry) header.now }
{
    let count = header.stream_count as u64;
    count == 0 || header.stream_directory_rva as u64 + 12 * count <= source.len() as u64
}

// Reads the directory, and returns the deciding entries, ascending by type. Takes memory only if
// every entry is in the file.
pub(crate) fn read_directory(
    alloc: Global,
    source: Source<'_>,
    endian: Endian,
    header: &MINIDUMP_HEADER,
    steps: &mut Steps,
) -> Result<Vec<DecidingEntry>, Error>
    ensures means { Reads (λ v. Decides v.items
        (directory endian (bytes_of source.entry) header.now))
        (bytes_of source.entry) header.now result }
    ensures within { 12 * (steps.new - steps.old) ≤ length (bytes_of source.entry) + 12 }
    ensures grows { steps.old ≤ steps.new }
    ensures at_least { OnOk result (after steps.old header.now.stream_count ≤ steps.new) }
{
    let mut entries = read_entries(alloc, source, endian, header, steps)?;
    entries.sort_by_key(|e| e.entry.stream_type)?;
    keep_last(&mut entries);
    Ok(entries)
}

// Reads the entries of the directory, in the order of the file.
pub(crate) fn read_entries(
    alloc: Global,
    source: Source<'_>,
    endian: Endian,
    header: &MINIDUMP_HEADER,
    steps: &mut Steps,
) -> Result<Vec<DecidingEntry>, Error>
    ensures means { Reads (λ v. v.items
        ≡ with_indices (directory endian (bytes_of source.entry) header.now))
        (bytes_of source.entry) header.now result }
    ensures small { IfOk result (λ v. All (λ d. type_of d < 2 ^ 32) v.items) }
    ensures within { 12 * (steps.new - steps.old) ≤ length (bytes_of source.entry) + 12 }
    ensures grows { steps.old ≤ steps.new }
    ensures at_least { OnOk result (after steps.old header.now.stream_count ≤ steps.new) }
{
    if !is_readable(source, header) {
        return Err(Error::MissingDirectory);
    }
    let mut entries = Vec::with_capacity(alloc, header.stream_count as usize)?;
    for index in 0..header.stream_count {
        let offset = header.stream_directory_rva as u64 + 12 * index as u64;
        let entry: MINIDUMP_DIRECTORY = source
            .record(offset, endian, steps)
            .ok_or(Error::MissingDirectory)?;
        entries.push(DecidingEntry { index, entry })?;
    }
    Ok(entries)
}

// Tells whether the next entry has another type, or there is none.
fn is_last_of_type(entries: &[DecidingEntry], index: usize) -> bool
    requires { index < length entries.now }
    ensures { result ≡ ends_a_type (drop index entries.now) }
{
    match entries.get(index + 1) {
        None => true,
        Some(next) => next.entry.stream_type != entries[index].entry.stream_type,
    }
}

// Keeps the last entry of each type, of entries that are sorted by type.
fn keep_last(entries: &mut Vec<DecidingEntry>)
    requires { IsNonDecreasingBy type_of entries.old.items }
    ensures { AreLast entries.old.items entries.new.items }
{
    let mut kept = 0;
    for i in 0..entries.len() {
        if is_last_of_type(entries.as_slice(), i) {
            entries[kept] = entries[i];
            kept += 1;
        }
    }
    entries.truncate(kept);
}

// Returns the bytes of the stream of a type, by entries that ascend by type. Returns
// `StreamNotFound` if there is no entry of the type, and counts no step then. Else it counts one
// step, and returns `StreamReadFailure` if the bytes are not all in the file.
pub(crate) fn raw_stream<'a>(
    entries: &[DecidingEntry],
    stream_type: u32,
    all: Source<'a>,
    steps: &mut Steps,
) -> Result<&'a [u8], Error>
    requires { IsStrictlySortedBy nat_cmp (map type_of entries.now) }
    ensures means { Gives (λ b. b.now) ⊥ result
        (bytes_of_type stream_type entries.now (bytes_of all.entry)) }
    ensures counted { bytes_of_type stream_type entries.now (bytes_of all.entry)
        ≢ Err Error.StreamNotFound
        → steps.new ≡ after steps.old 1 }
    ensures absent { bytes_of_type stream_type entries.now (bytes_of all.entry)
        ≡ Err Error.StreamNotFound
        → steps.new ≡ steps.old }
{
    match entries.binary_search_by_key(&stream_type, |e| e.entry.stream_type) {
        Ok(index) => {
            let location = entries[index].entry.location;
            all.span(location.rva as u64, location.data_size as u64, steps)
                .ok_or(Error::StreamReadFailure)
        }
        Err(_) => Err(Error::StreamNotFound),
    }
}
