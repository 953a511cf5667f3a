ghost use Rattle.std.specs.Prelude.{◌≡◌, ◌<◌, [], ◌↔◌, IfOk, IsOkUnless, IsTrue, OnErr, length, map};
ghost use Rattle.std.specs.Slice.Iter.{iter_rest};
ghost use Rattle.minidump_modules.specs.UnloadedModule.{unloaded_of};
ghost use Rattle.minidump_modules.specs.UnloadedModuleList.{unloaded_module_list_of};
ghost use Rattle.minidump_modules.specs.UnloadedOrder.{AreAt, IsByStart};

use crate::unloaded_order::{IndexedRange, order_of};
use crate::{MinidumpUnloadedModule, ModulesAtAddress, UnloadedModulesByAddress};
use minidump_bytes::{Endian, Source, Steps};
use minidump_format::Error;
use minidump_format::format::MINIDUMP_UNLOADED_MODULE;
use minidump_index::Range;
use minidump_system::framing::extended_entries;
use minidump_system::read_items::{ReadEntry, read_items};
use minidump_system::{MinidumpStream, MinidumpSystemInfo};
use std::alloc::Global;
use std::marker::Model;
use std::slice;

/// The unloaded modules of a process, which may overlap, with lookups by address.
#[derive(Drop)]
pub struct MinidumpUnloadedModuleList {
    modules: Vec<MinidumpUnloadedModule>,
    // those that have a range, by start, then by end, then by index
    order: Vec<IndexedRange>,
}

impl Model for MinidumpUnloadedModuleList {
    ghost use Rattle.std.specs.Prelude.{List, map};
    ghost use Rattle.minidump_modules.specs.declared.unloaded_module.MinidumpUnloadedModule.{MinidumpUnloadedModule};
    ghost use Rattle.minidump_modules.specs.UnloadedModule.{range_of_unloaded_struct};
    ghost use Rattle.minidump_modules.specs.UnloadedOrder.{IsInside, IsOrderOf};

    ghost Value = { List MinidumpUnloadedModule };

    ghost view = { λ s. s.modules.items };

    ghost invariant = { λ s. IsOrderOf (map range_of_unloaded_struct s.modules.items) s.order.items
        × IsInside s.modules.items s.order.items };
}

impl MinidumpUnloadedModuleList {
    /// Makes an empty list. Takes no memory.
    pub fn new(alloc: Global) -> MinidumpUnloadedModuleList
        ensures { result ≡ [] }
    {
        MinidumpUnloadedModuleList {
            modules: Vec::new(alloc),
            order: Vec::new(alloc),
        }
    }

    /// Makes a list of modules. The only error is [`Error::OutOfMemory`], and only if there is a
    /// module; after it they are dropped.
    pub fn from_modules(
        alloc: Global,
        modules: Vec<MinidumpUnloadedModule>,
    ) -> Result<MinidumpUnloadedModuleList, Error>
        ensures list { IfOk result (λ list. list ≡ modules.items) }
        ensures memory { IsOkUnless result Error.OutOfMemory }
        ensures some { OnErr result (0 < length modules.items) }
    {
        if modules.is_empty() {
            return Ok(MinidumpUnloadedModuleList::new(alloc));
        }
        let order = order_of(alloc, &modules)?;
        Ok(MinidumpUnloadedModuleList { modules, order })
    }

    /// Returns the number of modules.
    pub fn len(&self) -> usize
        ensures { result ≡ length self.now }
    {
        self.modules.len()
    }

    /// Tells whether the list has no module.
    pub fn is_empty(&self) -> bool
        ensures { IsTrue result ↔ (length self.now ≡ 0) }
    {
        self.modules.is_empty()
    }

    /// Returns an iterator over all modules, in the order of the list.
    pub fn iter(&self) -> slice::Iter<'_, MinidumpUnloadedModule>
        ensures { iter_rest result ≡ self.now }
    {
        self.modules.iter()
    }

    /// Returns an iterator over the modules that contain `address`, by start, then by end, then by
    /// index.
    pub fn modules_at_address(&self, address: u64) -> ModulesAtAddress<'_>
        ensures { AreAt (unloaded_module_list_of self.now) address (map unloaded_of result) }
    {
        ModulesAtAddress::new(&self.order, &self.modules, address)
    }

    /// Returns an iterator over the modules that have a range, by start, then by end, then by
    /// index.
    pub fn by_addr(&self) -> UnloadedModulesByAddress<'_>
        ensures { IsByStart (unloaded_module_list_of self.now) (map unloaded_of result) }
    {
        UnloadedModulesByAddress::new(&self.order, &self.modules)
    }

    /// Copies the list. The only error is [`Error::OutOfMemory`], and only if there is a module.
    pub fn try_clone(&self, alloc: Global) -> Result<MinidumpUnloadedModuleList, Error>
        ensures same { IfOk result (λ list. unloaded_module_list_of list
            ≡ unloaded_module_list_of self.now) }
        ensures memory { IsOkUnless result Error.OutOfMemory }
        ensures some { OnErr result (0 < length self.now) }
    {
        let modules = copy_modules(alloc, &self.modules)?;
        MinidumpUnloadedModuleList::from_modules(alloc, modules)
    }
}

impl<'l> IntoIterator for &'l MinidumpUnloadedModuleList {
    ghost use Rattle.std.specs.Prelude.{◌≡◌};
    ghost use Rattle.std.specs.Slice.Iter.{iter_rest};

    type Item = &'l MinidumpUnloadedModule;

    type IntoIter = slice::Iter<'l, MinidumpUnloadedModule>;

    ghost into_iter_gives = { λ list it. iter_rest it ≡ list.now };

    fn into_iter(self) -> slice::Iter<'l, MinidumpUnloadedModule> {
        self.iter()
    }
}

/// Reads Microsoft's `MINIDUMP_UNLOADED_MODULE_LIST`: an extended list of entries. Returns
/// `ModuleReadFailure` if an entry has no addresses, `DataError` if a name is malformed.
impl<'a> MinidumpStream<'a> for MinidumpUnloadedModuleList {
    ghost use Rattle.std.specs.Prelude.{List};
    ghost use Rattle.minidump_modules.specs.UnloadedModule.{UnloadedValue};
    ghost use Rattle.minidump_modules.specs.UnloadedModuleList.{unloaded_module_list_stream};

    ghost Value = { List UnloadedValue };

    ghost spec = { unloaded_module_list_stream };

    const STREAM_TYPE: u32 = 14;

    fn number_of_type() -> u32 {
        Self::STREAM_TYPE
    }

    #[tactic(auto, using(crate::proofs::ListLemmas::kept_unloaded, crate::proofs::ListLemmas::some_kept, minidump_system::proofs::KeptLemmas::sum_of_ones))]
    fn read(
        alloc: Global,
        bytes: Source<'a>,
        all: Source<'a>,
        endian: Endian,
        _system_info: Option<&MinidumpSystemInfo>,
        steps: &mut Steps,
    ) -> Result<Self, Error> {
        let raws = extended_entries::<MINIDUMP_UNLOADED_MODULE>(bytes, endian, steps)?;
        let modules = read_items(&UnloadedModules, alloc, raws, all, endian, steps)?;
        MinidumpUnloadedModuleList::from_modules(alloc, modules)
    }
}

// Reads the module of each entry.
#[derive(Clone, Copy)]
struct UnloadedModules;

impl<'a> ReadEntry<'a, MINIDUMP_UNLOADED_MODULE> for UnloadedModules {
    ghost use Rattle.minidump_system.specs.Reads.{read_each};
    ghost use Rattle.minidump_modules.specs.UnloadedModule.{UnloadedValue, unloaded_with_range, unloaded_of};

    type Item = MinidumpUnloadedModule;

    ghost Value = { UnloadedValue };

    ghost value = { unloaded_of };

    ghost entry_value = { λ _ order file raw. read_each (unloaded_with_range order file) raw };

    ghost most = { λ _. 1 };

    ghost fewest = { λ _. 1 };

    ghost fewest_of = { λ _. 0 };

    #[tactic(auto, unfolding(crate::specs::UnloadedModule::unloaded_with_range))]
    fn read_entry(
        &self,
        alloc: Global,
        entry: MINIDUMP_UNLOADED_MODULE,
        all: Source<'a>,
        endian: Endian,
        steps: &mut Steps,
    ) -> Result<Option<MinidumpUnloadedModule>, Error> {
        if Range::from_size(entry.base_of_image, entry.size_of_image as u64).is_none() {
            return Err(Error::ModuleReadFailure);
        }
        let module = MinidumpUnloadedModule::read_counted(alloc, &entry, all, endian, steps)?;
        Ok(Some(module))
    }
}

// Copies modules.
fn copy_modules(
    alloc: Global,
    modules: &[MinidumpUnloadedModule],
) -> Result<Vec<MinidumpUnloadedModule>, Error>
    ensures same { IfOk result (λ copies. map unloaded_of copies.items
        ≡ map unloaded_of modules.now) }
    ensures memory { IsOkUnless result Error.OutOfMemory }
    ensures some { OnErr result (0 < length modules.now) }
{
    let mut copies = Vec::with_capacity(alloc, modules.len())?;
    for module in modules {
        copies.push(module.try_clone(alloc)?)?;
    }
    Ok(copies)
}
