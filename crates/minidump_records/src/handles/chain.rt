ghost use Rattle.std.specs.Prelude.{◌≡◌, ◌+◌, ◌≤◌, ◌++◌, ◌∷◌, [], length, IfOk, OnOk};
ghost use Rattle.minidump_bytes.specs.Source.{bytes_of};
ghost use Rattle.minidump_bytes.specs.Steps.{after};
ghost use Rattle.minidump_records.specs.Handles.{object_chain};
ghost use Rattle.minidump_records.specs.Handles.ObjectChain.{chain_reads};

use super::information::{MinidumpHandleObjectInformation, information_at};
use minidump_bytes::{Endian, Source, Steps};
use minidump_system::chain::is_new;
use std::alloc::{AllocError, Global};
use std::collections::BTreeSet;

// Reads the pieces of information from the offset `link` on. Each piece names the offset of the
// next; the chain ends at an offset that came before, and at one where no piece can be read. Counts
// one step for each piece, and one more if the chain ends at another offset than 0.
pub(super) fn read_chain(
    alloc: Global,
    link: u32,
    all: Source<'_>,
    endian: Endian,
    steps: &mut Steps,
) -> Result<Vec<MinidumpHandleObjectInformation>, AllocError>
    ensures infos { IfOk result (λ v. v.items ≡ object_chain endian (bytes_of all.entry) link) }
    ensures within { steps.new ≤ steps.old + length (bytes_of all.entry) + 1 }
    ensures grows { steps.old ≤ steps.new }
    ensures at_least { IfOk result (λ v. after steps.old (chain_reads link v.items) ≤ steps.new) }
{
    let mut infos = Vec::new(alloc);
    let mut offsets = BTreeSet::new(alloc);
    let mut offset = link;
    while let Some(info) = information_at(offset, all, endian, steps) {
        let next = info.raw.next_info_rva;
        if !is_new(&mut offsets, offset, next)? {
            break;
        }
        push_piece(&mut infos, info)?;
        offset = next;
    }
    Ok(infos)
}

// Appends a piece of information. Most objects have only one, so the first piece reserves room for
// itself alone.
fn push_piece(
    infos: &mut Vec<MinidumpHandleObjectInformation>,
    info: MinidumpHandleObjectInformation,
) -> Result<(), AllocError>
    ensures items { OnOk result (infos.new.items ≡ infos.old.items ++ info ∷ []) }
{
    if infos.is_empty() {
        infos.reserve_exact(1)?;
    }
    Ok(infos.push(info)?)
}
