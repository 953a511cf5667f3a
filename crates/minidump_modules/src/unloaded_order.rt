ghost use Rattle.std.specs.Prelude.{◌≡◌, IfOk, map};
ghost use Rattle.std.specs.List.{position};
ghost use Rattle.std.specs.List.Sorted.{IsPermutation};
ghost use Rattle.minidump_modules.specs.UnloadedModule.{range_of_unloaded_struct};
ghost use Rattle.minidump_modules.specs.UnloadedOrder.{IsByIndex, IsInOrder, IsInside, IsOrderOf, has};

use crate::MinidumpUnloadedModule;
use minidump_index::{Range, Region};
use std::alloc::{AllocError, Global};

/// The range of a module and its index in the list.
#[derive(Clone, Copy, PartialEq, Eq, PartialOrd, Ord)]
pub struct IndexedRange {
    /// The range.
    pub range: Range,
    /// The index of the module in the list.
    pub index: usize,
}

// Collects the modules that have a range, as that range and their index.
fn collect_ranges(
    alloc: Global,
    modules: &[MinidumpUnloadedModule],
) -> Result<Vec<IndexedRange>, AllocError>
    ensures { IfOk result (λ v. IsByIndex (map range_of_unloaded_struct modules.now) v.items) }
{
    let mut order = Vec::with_capacity(alloc, modules.len())?;
    for (index, module) in modules.iter().enumerate() {
        if let Some(range) = module.memory_range() {
            order.push(IndexedRange { range, index })?;
        }
    }
    Ok(order)
}

// Sorts ranges by start, then by end, then by index.
fn sort(order: &mut Vec<IndexedRange>)
    ensures sorted { IsInOrder order.new.items }
    ensures same { IsPermutation order.old.items order.new.items }
{
    order.sort_unstable();
}

// Makes the order of modules by their ranges.
pub(crate) fn order_of(
    alloc: Global,
    modules: &[MinidumpUnloadedModule],
) -> Result<Vec<IndexedRange>, AllocError>
    ensures order { IfOk result (λ v. IsOrderOf
        (map range_of_unloaded_struct modules.now) v.items) }
    ensures inside { IfOk result (λ v. IsInside modules.now v.items) }
{
    let mut order = collect_ranges(alloc, modules)?;
    sort(&mut order);
    Ok(order)
}

// Returns the index of the first range that contains the address.
pub(crate) fn first_at(order: &[IndexedRange], address: u64) -> Option<usize>
    ensures { result ≡ position (has address) order.now }
{
    order
        .iter()
        .position(|e| e.range.start <= address && address <= e.range.end)
}
