ghost use Rattle.std.specs.Prelude.{◌≡◌, ◌+◌, ◌≤◌, ⊤, ℕ, IfOk, List, Result, length, string_bytes};
ghost use Rattle.std.specs.List.{sum_by};
ghost use Rattle.minidump_bytes.specs.declared.endian.Endian.{Endian};
ghost use Rattle.minidump_bytes.specs.Source.{bytes_of};
ghost use Rattle.minidump_bytes.specs.Steps.{after};
ghost use Rattle.minidump_format.specs.declared.error.Error.{Error};
ghost use Rattle.minidump_format.specs.Answer.{Gives};
ghost use Rattle.minidump_records.specs.Crashpad.Dictionary.{dictionary, entries_of};
ghost use Rattle.minidump_records.specs.Crashpad.Parts.{CountsEntry, list_reads, WithinParts};

use super::part::{Part, read_untested};
use super::text::read_text;
use minidump_bytes::{Endian, Record, Source, Steps};
use minidump_format::Error;
use minidump_format::format::{
    MINIDUMP_LOCATION_DESCRIPTOR, MINIDUMP_SIMPLE_STRING_DICTIONARY_ENTRY,
};
use std::alloc::Global;
use std::collections::BTreeMap;

/// The value that an entry of a dictionary names, beside its key.
pub(crate) trait DictionaryValue<E>: Sized {
    ghost Value: { Type 0 };

    ghost value: { Self → Value };

    // the RVA of the key
    ghost key: { E → ℕ };

    // the value or the error, by the byte order, the file's bytes and the entry
    ghost part: { Endian → List ℕ → E → Result Value Error };

    // the fewest reads of a value that is read
    ghost fewest: { Value → ℕ };

    /// Returns the RVA of the key.
    fn key_of(entry: &E) -> u32
        ensures { result ≡ key entry.now };

    /// Reads the value, in one read at most.
    fn read_value(
        alloc: Global,
        entry: &E,
        all: Source<'_>,
        endian: Endian,
        steps: &mut Steps,
    ) -> Result<Self, Error>
        ensures means { Gives value ⊤ result (part endian (bytes_of all.entry) entry.now) }
        ensures within { steps.new ≤ steps.old + 1 }
        ensures grows { steps.old ≤ steps.new }
        ensures at_least { IfOk result (λ v. after steps.old (fewest (value v)) ≤ steps.new) };
}

/// Reads the value of an entry of a plain dictionary, which is a text.
impl DictionaryValue<MINIDUMP_SIMPLE_STRING_DICTIONARY_ENTRY> for String {
    ghost use Rattle.std.specs.Prelude.{ℕ, List, string_bytes};
    ghost use Rattle.minidump_records.specs.Crashpad.Dictionary.{text_in};

    ghost Value = { List ℕ };

    ghost value = { string_bytes };

    ghost key = { λ e. e.key };

    ghost part = { λ order file e. text_in order file e.value };

    ghost fewest = { λ text. 1 };

    fn key_of(entry: &MINIDUMP_SIMPLE_STRING_DICTIONARY_ENTRY) -> u32 {
        entry.key
    }

    fn read_value(
        alloc: Global,
        entry: &MINIDUMP_SIMPLE_STRING_DICTIONARY_ENTRY,
        all: Source<'_>,
        endian: Endian,
        steps: &mut Steps,
    ) -> Result<Self, Error> {
        read_text(alloc, entry.value, all, endian, steps)
    }
}

/// A key with its value.
#[derive(Drop)]
pub(crate) struct Pair<V> {
    key: String,
    value: V,
}

impl<E, V: DictionaryValue<E>> Part<E> for Pair<V> {
    ghost use Rattle.std.specs.Prelude.{ℕ, ◌+◌, List};
    ghost use Rattle.minidump_records.specs.Crashpad.Dictionary.{HasText, pair_in, pair_of};

    ghost Value = { List ℕ × V.Value };

    ghost value = { pair_of V.value };

    ghost part = { pair_in V.key V.part };

    ghost memory = { λ order file e. HasText order file (V.key e) };

    ghost most = { λ n. 2 };

    ghost fewest = { λ pair. 1 + V.fewest pair.1 };

    fn read_part(
        alloc: Global,
        entry: &E,
        all: Source<'_>,
        endian: Endian,
        steps: &mut Steps,
    ) -> Result<Self, Error> {
        let key = read_text(alloc, V::key_of(entry), all, endian, steps)?;
        let value = V::read_value(alloc, entry, all, endian, steps)?;
        Ok(Pair { key, value })
    }
}

/// Reads the dictionary at a location. All entries are read; if several have one key, the last one
/// is kept.
pub(crate) fn read_dictionary<E: Record + Drop, V: DictionaryValue<E> + Drop>(
    alloc: Global,
    location: MINIDUMP_LOCATION_DESCRIPTOR,
    all: Source<'_>,
    endian: Endian,
    steps: &mut Steps,
) -> Result<BTreeMap<String, V>, Error>
    ensures means { Gives (λ m. entries_of V.value m.entries)
        (CountsEntry endian (bytes_of all.entry) location) result
        (dictionary E.layout V.key V.part endian (bytes_of all.entry) location) }
    ensures within { WithinParts E.layout.size (length (bytes_of all.entry)) 2
        (steps.old + 2) steps.new }
    ensures grows { steps.old ≤ steps.new }
    ensures at_least { IfOk result (λ m. after steps.old
        (list_reads location + sum_by (λ e. 1 + (1 + V.fewest e.1)) (entries_of V.value m.entries))
        ≤ steps.new) }
{
    let pairs: Vec<Pair<V>> = read_untested::<E, Pair<V>>(alloc, location, all, endian, steps)?;
    let mut dictionary = BTreeMap::new(alloc);
    for pair in pairs {
        let Pair { key, value } = pair;
        dictionary.insert(key, value)?;
    }
    Ok(dictionary)
}
