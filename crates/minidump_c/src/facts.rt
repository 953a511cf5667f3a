ghost use Rattle.std.specs.Prelude.{◌≡◌};
ghost use Rattle.std.specs.Option.{option_and_then};
ghost use Rattle.crash_threads.specs.Addresses.{rights_of};
ghost use Rattle.minidump_c.specs.Facts.{facts_row, state_number};

use crate::spans::{bit, flag};
use crash::{AddressFacts, AddressMemory, MemoryRights};

/// What is known of an address. A number that is absent is 0.
#[repr(C)]
#[derive(Clone, Copy, Default)]
pub struct FactsRow {
    /// The address.
    pub address: u64,
    /// The same if it is below 0x10000: an offset from a null pointer.
    pub null_offset: u64,
    /// The offset of the address in its module.
    pub module_offset: u64,
    /// The index of the module that contains it.
    pub module: usize,
    /// The index of the last unloaded module that contains it.
    pub unloaded: usize,
    /// The index of the last thread whose stack contains it.
    pub stack_of: usize,
    /// The index of the last thread whose stack begins above it, by at most 4,096 bytes.
    pub below_stack: usize,
    /// The state of the memory that contains it: 1 for free, 2 for reserved, 3 for committed; 0 if
    /// it isn't known.
    pub memory_state: u32,
    /// 1 if there is an address, else 0.
    pub has_address: u8,
    /// 1 if it is below 0x10000, else 0.
    pub has_null_offset: u8,
    /// 0 for an address of x86-64 whose bits 47 to 63 differ, and if there is no address; else 1.
    pub is_canonical: u8,
    /// 1 if a module contains it, else 0.
    pub has_module: u8,
    /// 1 if an unloaded module contains it, else 0.
    pub has_unloaded: u8,
    /// 1 if a stack contains it, else 0.
    pub has_stack_of: u8,
    /// 1 if a stack begins above it, by at most 4,096 bytes, else 0.
    pub has_below_stack: u8,
    /// 1 if the dump has information on the memory that contains it, else 0.
    pub has_memory: u8,
    /// 1 if that memory is committed and may be read, else 0.
    pub is_readable: u8,
    /// 1 if it is committed and may be written, else 0.
    pub is_writable: u8,
    /// 1 if it is committed and may be run as code, else 0.
    pub is_executable: u8,
    /// 1 if it is committed and the first access to it raises an exception, else 0.
    pub is_guarded: u8,
}

// Returns the numbers of the address of a crash, zeros without one.
pub(crate) fn facts_row(given: Option<AddressFacts>) -> FactsRow
    ensures { result ≡ facts_row given }
{
    let Some(facts) = given else {
        return FactsRow::default();
    };
    let (module, module_offset) = facts.module.unwrap_or((0, 0));
    let rights = known_rights(facts.memory);
    FactsRow {
        address: facts.address,
        null_offset: facts.null_offset.unwrap_or(0),
        module_offset,
        module,
        unloaded: facts.unloaded.unwrap_or(0),
        stack_of: facts.stack_of.unwrap_or(0),
        below_stack: facts.below_stack.unwrap_or(0),
        memory_state: facts.memory.map_or(0, |memory| state_number(memory)),
        has_address: 1,
        has_null_offset: flag(&facts.null_offset),
        is_canonical: bit(facts.is_canonical),
        has_module: flag(&facts.module),
        has_unloaded: flag(&facts.unloaded),
        has_stack_of: flag(&facts.stack_of),
        has_below_stack: flag(&facts.below_stack),
        has_memory: flag(&facts.memory),
        is_readable: rights.map_or(0, |rights| bit(rights.is_readable)),
        is_writable: rights.map_or(0, |rights| bit(rights.is_writable)),
        is_executable: rights.map_or(0, |rights| bit(rights.is_executable)),
        is_guarded: rights.map_or(0, |rights| bit(rights.is_guarded)),
    }
}

// Returns the rights of memory, if it is known and committed.
fn known_rights(memory: Option<AddressMemory>) -> Option<MemoryRights>
    ensures { result ≡ option_and_then rights_of memory }
{
    memory?.rights()
}

// Returns the number of the state of memory.
fn state_number(memory: AddressMemory) -> u32
    ensures { result ≡ state_number memory }
{
    match memory {
        AddressMemory::Free => 1,
        AddressMemory::Reserved => 2,
        AddressMemory::Committed(_) => 3,
    }
}
