//! The kinds of the handles of a process.
ghost use Rattle.std.specs.Prelude.{◌≡◌, IfOk, map};
ghost use Rattle.minidump.specs.Below.Contexts.Context.{map_ok};
ghost use Rattle.minidump.specs.Below.Records.Handles.{handle_of};
ghost use Rattle.minidump.specs.Promise.{handle_data_stream};
ghost use Rattle.crash_process.specs.HandleKinds.{kind_by, kind_of, kinds_in, tally};

use minidump::{Error, MinidumpHandleDataStream, MinidumpHandleDescriptor};
use std::alloc::{AllocError, Global};
use std::collections::BTreeMap;

/// A kind of handles.
#[derive(Drop)]
pub struct HandleKind {
    /// The name of their type, as `File`.
    pub type_name: String,
    /// How many handles have it.
    pub count: usize,
}

// Returns the kinds of handles, or none if their stream can't be read.
pub(crate) fn kinds_of(
    alloc: Global,
    handles: &Result<MinidumpHandleDataStream, Error>,
) -> Result<Vec<HandleKind>, AllocError>
    ensures { IfOk result (λ kinds. map kind_of kinds.items
        ≡ kinds_in (map_ok handle_data_stream.value handles.now)) }
{
    let Ok(stream) = handles else {
        return Ok(Vec::new(alloc));
    };
    let table = tally_of(alloc, stream.handles.as_slice())?;
    let mut kinds = Vec::new(alloc);
    for (name, count) in &table {
        let type_name = String::from_str(alloc, *name)?;
        let count = *count;
        kinds.push(HandleKind { type_name, count })?;
    }
    Ok(kinds)
}

// Counts the handles of each name of a type.
fn tally_of<'h>(
    alloc: Global,
    handles: &'h [MinidumpHandleDescriptor],
) -> Result<BTreeMap<&'h str, usize>, AllocError>
    ensures { IfOk result (λ table. map (λ e. kind_by e.0.now e.1) table.entries
        ≡ tally (map handle_of handles.now)) }
{
    let mut table = BTreeMap::new(alloc);
    for handle in handles {
        if let Some(name) = &handle.type_name {
            *table.entry(name.as_str())?.or_insert(0) += 1;
        }
    }
    Ok(table)
}
