ghost use Rattle.std.specs.Prelude.{◌≡◌, ◌+◌, ◌≤◌, IfSome};
ghost use Rattle.minidump_bytes.specs.Source.{bytes_of};
ghost use Rattle.minidump_bytes.specs.Steps.{after};
ghost use Rattle.minidump_system.specs.Chain.{reads_at};
ghost use Rattle.minidump_records.specs.Handles.ObjectChain.{information_at};

use minidump_bytes::{Endian, Source, Steps};
use minidump_format::format::{
    MINIDUMP_HANDLE_OBJECT_INFORMATION, MINIDUMP_HANDLE_OBJECT_INFORMATION_TYPE,
};
use minidump_system::chain::linked_record;
use std::fmt;

/// The head of a piece of information on the object of a handle.
#[derive(Clone, Copy)]
pub struct MinidumpHandleObjectInformation {
    /// The record in the file.
    pub raw: MINIDUMP_HANDLE_OBJECT_INFORMATION,
    /// The type that its number names.
    pub info_type: MINIDUMP_HANDLE_OBJECT_INFORMATION_TYPE,
}

/// Formats the fields of the record: the RVA in hexadecimal, the others in decimal.
impl fmt::Display for MinidumpHandleObjectInformation {
    ghost use Rattle.std.specs.Prelude.{Some};
    ghost use Rattle.minidump_records.specs.Handles.ObjectChain.{information_text};

    ghost output = { λ information. Some (information_text information) };

    #[tactic(auto, unfolding(crate::specs::Handles::ObjectChain::information_text))]
    fn fmt<W: fmt::Write>(&self, f: &mut fmt::Formatter<W>) -> fmt::Result {
        let next = self.raw.next_info_rva;
        let kind = self.raw.info_type;
        let size = self.raw.size_of_info;
        write!(
            f,
            "{{next_info_rva: 0x{next:x}, info_type: {kind}, size_of_info: {size}}}"
        )
    }
}

// Reads the piece of information at an offset. Returns `None` if the offset is 0, if no record can
// be read there, and if its type is not known.
#[tactic(auto, unfolding(crate::specs::Handles::ObjectChain::information_at))]
pub(super) fn information_at(
    offset: u32,
    all: Source<'_>,
    endian: Endian,
    steps: &mut Steps,
) -> Option<MinidumpHandleObjectInformation>
    ensures value { result ≡ information_at endian (bytes_of all.entry) offset }
    ensures within { steps.new ≤ steps.old + 1 }
    ensures grows { steps.old ≤ steps.new }
    ensures at_least { IfSome result (λ _. after steps.old 1 ≤ steps.new) }
    ensures step { steps.new ≡ after steps.old (reads_at offset) }
{
    let raw: MINIDUMP_HANDLE_OBJECT_INFORMATION = linked_record(offset, all, endian, steps)?;
    let info_type = MINIDUMP_HANDLE_OBJECT_INFORMATION_TYPE::from_u32(raw.info_type)?;
    Some(MinidumpHandleObjectInformation { raw, info_type })
}
