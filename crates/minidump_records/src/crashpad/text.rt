ghost use Rattle.std.specs.Prelude.{◌+◌, ◌≤◌, string_bytes};
ghost use Rattle.minidump_bytes.specs.Source.{bytes_of};
ghost use Rattle.minidump_bytes.specs.Steps.{after};
ghost use Rattle.minidump_format.specs.Answer.{Gives};
ghost use Rattle.minidump_records.specs.Crashpad.Dictionary.{HasText, text_in};

use super::part::Part;
use minidump_bytes::{Endian, Source, Steps};
use minidump_format::Error;
use std::alloc::Global;

// Reads the text at an RVA. A NUL has to stand after the text.
pub(crate) fn read_text(
    alloc: Global,
    rva: u32,
    all: Source<'_>,
    endian: Endian,
    steps: &mut Steps,
) -> Result<String, Error>
    ensures means { Gives string_bytes (HasText endian (bytes_of all.entry) rva) result
        (text_in endian (bytes_of all.entry) rva) }
    ensures within { steps.new ≤ steps.old + 1 }
    ensures at_least { after steps.old 1 ≤ steps.new }
{
    let text = all
        .text8_nul(rva as u64, endian, steps)
        .ok_or(Error::StreamReadFailure)?;
    Ok(String::from_str(alloc, text)?)
}

/// Reads the text that an entry of a list of texts names. The entry is the RVA of the text.
impl Part<u32> for String {
    ghost use Rattle.std.specs.Prelude.{ℕ, List, string_bytes};
    ghost use Rattle.minidump_records.specs.Crashpad.Dictionary.{HasText, text_in};

    ghost Value = { List ℕ };

    ghost value = { string_bytes };

    ghost part = { text_in };

    ghost memory = { HasText };

    ghost most = { λ n. 1 };

    ghost fewest = { λ text. 1 };

    fn read_part(
        alloc: Global,
        entry: &u32,
        all: Source<'_>,
        endian: Endian,
        steps: &mut Steps,
    ) -> Result<Self, Error> {
        read_text(alloc, *entry, all, endian, steps)
    }
}
