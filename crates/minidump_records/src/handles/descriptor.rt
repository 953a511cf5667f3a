ghost use Rattle.std.specs.Prelude.{◌≡◌, ◌+◌, ◌≤◌, length, string_bytes, IfOk, IsOkUnless};
ghost use Rattle.std.specs.Option.{option_copied, option_map};
ghost use Rattle.minidump_bytes.specs.Source.{bytes_of};
ghost use Rattle.minidump_bytes.specs.Steps.{after};
ghost use Rattle.minidump_records.specs.Handles.{handle_in, handle_of, handle_reads, name_at_rva, or_zero};
ghost use Rattle.minidump_system.specs.Chain.{reads_at};

use super::chain::read_chain;
use super::{MinidumpHandleObjectInformation, RawHandleDescriptor};
use minidump_bytes::{Endian, Source, Steps, copy_text};
use minidump_format::Error;
use std::alloc::{AllocError, Global};

/// An open handle of the process, with its names and the information on its object.
#[derive(Drop)]
pub struct MinidumpHandleDescriptor {
    /// The entry in the stream.
    pub raw: RawHandleDescriptor,
    /// The name of its type, or `None` if the RVA is 0 or no text is there.
    pub type_name: Option<String>,
    /// The name of its object, or `None` if the RVA is 0 or no text is there.
    pub object_name: Option<String>,
    /// The pieces of information on its object. Each piece names the next; the list ends before the
    /// first one that is repeated, cannot be read or has an unknown type.
    pub object_infos: Vec<MinidumpHandleObjectInformation>,
}

impl MinidumpHandleDescriptor {
    /// Copies the handle. The only error is [`Error::OutOfMemory`].
    pub fn try_clone(&self, alloc: Global) -> Result<MinidumpHandleDescriptor, Error>
        ensures same { IfOk result (λ h. handle_of h ≡ handle_of self.now) }
        ensures memory { IsOkUnless result Error.OutOfMemory }
    {
        Ok(MinidumpHandleDescriptor {
            raw: self.raw,
            type_name: copy_text(alloc, &self.type_name)?,
            object_name: copy_text(alloc, &self.object_name)?,
            object_infos: Vec::from_slice(alloc, &self.object_infos)?,
        })
    }
}

// Reads the names of a descriptor and the information on its object.
// Inlined, so that a handle is made where it stays.
#[inline(always)]
pub(super) fn read_handle(
    alloc: Global,
    raw: RawHandleDescriptor,
    all: Source<'_>,
    endian: Endian,
    steps: &mut Steps,
) -> Result<MinidumpHandleDescriptor, AllocError>
    ensures value { IfOk result (λ h. handle_of h ≡ handle_in endian (bytes_of all.entry) raw) }
    ensures within { steps.new ≤ steps.old + (length (bytes_of all.entry) + 3) }
    ensures grows { steps.old ≤ steps.new }
    ensures at_least { IfOk result (λ h. after steps.old (handle_reads (handle_of h)) ≤ steps.new) }
{
    let type_name = read_name(alloc, raw.type_name_rva(), all, endian, steps)?;
    let object_name = read_name(alloc, raw.object_name_rva(), all, endian, steps)?;
    let link = raw.object_info_rva().copied().unwrap_or(0);
    let object_infos = read_chain(alloc, link, all, endian, steps)?;
    Ok(MinidumpHandleDescriptor {
        raw,
        type_name,
        object_name,
        object_infos,
    })
}

// Reads the name at an RVA. Returns `Ok(None)` if the RVA is 0 or no text is there.
#[inline(always)]
#[tactic(auto, unfolding(crate::specs::Handles::name_at_rva))]
fn read_name(
    alloc: Global,
    rva: Option<&u32>,
    all: Source<'_>,
    endian: Endian,
    steps: &mut Steps,
) -> Result<Option<String>, AllocError>
    ensures value { IfOk result
        (λ text. option_map string_bytes text
        ≡ name_at_rva endian (bytes_of all.entry) (or_zero (option_copied rva.entry))) }
    ensures step { steps.new ≡ after steps.old (reads_at (or_zero (option_copied rva.entry))) }
{
    let rva = rva.copied().unwrap_or(0);
    if rva == 0 {
        return Ok(None);
    }
    all.text16(alloc, rva as u64, endian, steps)
}
