ghost use Rattle.std.specs.Prelude.{◌≡◌, IfSome, Some, filter, length};
ghost use Rattle.std.specs.Iterator.{UpTo, YieldsFirstRef, at_most, item_count};
ghost use Rattle.std.specs.Iterator.SizeHint.{IsWithinCount};
ghost use Rattle.minidump_modules.specs.UnloadedOrder.{IsInside, has, modules_of_order};

use crate::MinidumpUnloadedModule;
use crate::unloaded_order::{IndexedRange, first_at};
use std::marker::Model;

/// An iterator over the unloaded modules that have a range, by start, then by end, then by index.
#[derive(Drop)]
pub struct UnloadedModulesByAddress<'a> {
    order: &'a [IndexedRange],
    modules: &'a [MinidumpUnloadedModule],
}

impl<'a> UnloadedModulesByAddress<'a> {
    // Makes the iterator over the modules at these indices.
    pub(crate) fn new(
        order: &'a [IndexedRange],
        modules: &'a [MinidumpUnloadedModule],
    ) -> UnloadedModulesByAddress<'a>
        requires { IsInside modules.now order.now }
        ensures { result ≡ modules_of_order modules.now order.now }
    {
        UnloadedModulesByAddress { order, modules }
    }
}

impl<'a> Model for UnloadedModulesByAddress<'a> {
    ghost use Rattle.std.specs.Prelude.{List};
    ghost use Rattle.minidump_modules.specs.declared.unloaded_module.MinidumpUnloadedModule.{MinidumpUnloadedModule};
    ghost use Rattle.minidump_modules.specs.UnloadedOrder.{IsInside, modules_of_order};

    ghost Value = { List MinidumpUnloadedModule };

    ghost view = { λ s. modules_of_order s.modules.now s.order.now };

    ghost invariant = { λ s. IsInside s.modules.now s.order.now };
}

impl<'a> Iterator for UnloadedModulesByAddress<'a> {
    type Item = &'a MinidumpUnloadedModule;

    ghost next_gives = { YieldsFirstRef (λ rest. rest) };

    ghost remaining = { item_count (λ rest. rest) };

    fn next(&mut self) -> Option<&'a MinidumpUnloadedModule> {
        let (first, rest) = self.order.split_first()?;
        self.order = rest;
        let modules = self.modules;
        Some(&modules[first.index])
    }

    fn size_hint(&self) -> (usize, Option<usize>)
        ensures lower { IsWithinCount result.0 (at_most (length self.now)) }
        ensures upper { IfSome result.1 (UpTo (at_most (length self.now))) }
        ensures exact { result ≡ (length self.now, Some (length self.now)) }
    {
        (self.order.len(), Some(self.order.len()))
    }
}

/// An iterator over the unloaded modules that contain an address, by start, then by end, then by
/// index.
#[derive(Drop)]
pub struct ModulesAtAddress<'a> {
    order: &'a [IndexedRange],
    modules: &'a [MinidumpUnloadedModule],
    address: u64,
}

impl<'a> ModulesAtAddress<'a> {
    // Makes the iterator over those of the modules at these indices that contain the address.
    pub(crate) fn new(
        order: &'a [IndexedRange],
        modules: &'a [MinidumpUnloadedModule],
        address: u64,
    ) -> ModulesAtAddress<'a>
        requires { IsInside modules.now order.now }
        ensures { result ≡ modules_of_order modules.now (filter (has address) order.now) }
    {
        ModulesAtAddress {
            order,
            modules,
            address,
        }
    }
}

impl<'a> Model for ModulesAtAddress<'a> {
    ghost use Rattle.std.specs.Prelude.{List, filter};
    ghost use Rattle.minidump_modules.specs.declared.unloaded_module.MinidumpUnloadedModule.{MinidumpUnloadedModule};
    ghost use Rattle.minidump_modules.specs.UnloadedOrder.{IsInside, has, modules_of_order};

    ghost Value = { List MinidumpUnloadedModule };

    ghost view = { λ s. modules_of_order s.modules.now (filter (has s.address) s.order.now) };

    ghost invariant = { λ s. IsInside s.modules.now s.order.now };
}

impl<'a> Iterator for ModulesAtAddress<'a> {
    type Item = &'a MinidumpUnloadedModule;

    ghost next_gives = { YieldsFirstRef (λ rest. rest) };

    ghost remaining = { item_count (λ rest. rest) };

    fn next(&mut self) -> Option<&'a MinidumpUnloadedModule> {
        let order = self.order;
        let Some(at) = first_at(order, self.address) else {
            self.order = &[];
            return None;
        };
        self.order = &order[at + 1..];
        let modules = self.modules;
        Some(&modules[order[at].index])
    }
}
