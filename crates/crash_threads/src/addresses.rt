//! What is known of an address.
ghost use Rattle.std.specs.Prelude.{◌≡◌, [], unwrap_or};
ghost use Rattle.std.specs.Result.{result_ok};
ghost use Rattle.minidump.specs.Below.Contexts.Context.{map_ok};
ghost use Rattle.minidump.specs.Promise.{thread_list_stream, unloaded_module_list_stream};
ghost use Rattle.crash_threads.specs.Addresses.{facts_of, is_canonical, is_executable};
ghost use Rattle.crash_threads.specs.Addresses.{is_placed, memory_at, memory_in, rights_of, stack_above};
ghost use Rattle.crash_threads.specs.Addresses.{stack_at, unloaded_at};
ghost use Rattle.crash_streams.specs.Contents.{contents_of};
ghost use Rattle.crash_threads.specs.Contexts.{system_of};

use crate::last::last_index;
use crate::stacks::named_stack;
use crate::threads::entries_of;
use bitflags::Flags;
use crash_streams::{Contents, unloaded_entries};
use minidump::format::{MemoryProtection, MemoryState};
use minidump::system_info::Cpu;
use minidump::{Error, MinidumpThreadList, MinidumpUnloadedModuleList, Region, UnifiedMemoryInfo};
use stack_walk::module_place;

/// What is known of an address.
#[derive(Clone, Copy)]
pub struct AddressFacts {
    /// The address.
    pub address: u64,
    /// The same if it is below 0x10000, where Windows maps no memory, nor Linux by default but on
    /// ARM: an offset from a null pointer.
    pub null_offset: Option<u64>,
    /// Whether the processor can access it: on x86-64, with 48-bit addresses, whether bits 47 to 63 are
    /// alike; true on other processors, and without system information. For an access to an address that
    /// isn't canonical, the exception often has 0 or 2^64 - 1 in its place.
    pub is_canonical: bool,
    /// The index in the list of modules of the kept one that contains it, and the offset in that.
    pub module: Option<(usize, u64)>,
    /// The index in the list of unloaded modules of the last one that contains it.
    pub unloaded: Option<usize>,
    /// The index of the last thread whose stack, as its entry names it, contains it.
    pub stack_of: Option<usize>,
    /// The index of the last thread whose stack, as its entry names it, begins above it, by at most a
    /// page of 4,096 bytes, as where a stack has overflowed.
    pub below_stack: Option<usize>,
    /// The memory that contains it, by the memory information, else by the maps of Linux.
    pub memory: Option<AddressMemory>,
}

impl AddressFacts {
    /// Tells whether it lies in a module, an unloaded module, or the stack of a thread.
    pub fn is_placed(&self) -> bool
        ensures { result ≡ is_placed self.now }
    {
        self.module.is_some() || self.unloaded.is_some() || self.stack_of.is_some()
    }
}

/// The state of the memory that contains an address.
#[derive(Clone, Copy, PartialEq, Eq)]
pub enum AddressMemory {
    /// Nothing is there: Microsoft's `MEM_FREE`.
    Free,
    /// Addresses are kept for later, without memory: `MEM_RESERVE`.
    Reserved,
    /// Memory is there, with these rights: any other state, as `MEM_COMMIT`, or a line of the maps.
    Committed(MemoryRights),
}

impl AddressMemory {
    /// Returns the rights of committed memory. Microsoft leaves those of other memory undefined.
    pub fn rights(self) -> Option<MemoryRights>
        ensures { result ≡ rights_of self }
    {
        match self {
            AddressMemory::Committed(rights) => Some(rights),
            AddressMemory::Free | AddressMemory::Reserved => None,
        }
    }

    /// Tells whether it is committed and may be run as code.
    pub fn is_executable(self) -> bool
        ensures { result ≡ is_executable self }
    {
        self.rights().is_some_and(|rights| rights.is_executable)
    }
}

/// How committed memory may be accessed.
#[derive(Clone, Copy, PartialEq, Eq)]
pub struct MemoryRights {
    /// Whether it may be read.
    pub is_readable: bool,
    /// Whether it may be written.
    pub is_writable: bool,
    /// Whether it may be run as code.
    pub is_executable: bool,
    /// Whether the first access raises an exception: Microsoft's `PAGE_GUARD`.
    pub is_guarded: bool,
}

// Returns what is known of an address.
pub(crate) fn facts_of(contents: &Contents<'_>, address: u64) -> AddressFacts
    ensures { result ≡ facts_of (contents_of contents.now) address }
{
    AddressFacts {
        address,
        null_offset: (address < 0x1_0000).then_some(address),
        is_canonical: is_canonical(contents, address),
        module: module_place(&contents.space.modules, address),
        unloaded: unloaded_at(&contents.space.unloaded, address),
        stack_of: stack_at(&contents.threads.threads, address),
        below_stack: stack_above(&contents.threads.threads, address),
        memory: memory_at(contents, address),
    }
}

// Tells whether the processor can access an address.
fn is_canonical(contents: &Contents<'_>, address: u64) -> bool
    ensures { result ≡ is_canonical (system_of (contents_of contents.now)) address }
{
    contents
        .system
        .system
        .as_ref()
        .map_or(true, |system| match system.cpu {
            Cpu::X86_64 => address < 0x8000_0000_0000 || address >= 0xffff_8000_0000_0000,
            _ => true,
        })
}

// Returns the index of the last unloaded module that contains an address.
fn unloaded_at(list: &Result<MinidumpUnloadedModuleList, Error>, address: u64) -> Option<usize>
    ensures { result ≡ unloaded_at (unwrap_or
        (result_ok (map_ok unloaded_module_list_stream.value list.now)) []) address }
{
    last_index(
        unloaded_entries(list),
        |unloaded| match unloaded.memory_range() {
            Some(range) => range.start <= address && address <= range.end,
            None => false,
        },
    )
}

// ---- stacks

// Returns the index of the last thread whose stack contains an address.
fn stack_at(threads: &Result<MinidumpThreadList<'_>, Error>, address: u64) -> Option<usize>
    ensures { result ≡ stack_at
        (unwrap_or (result_ok (map_ok thread_list_stream.value threads.now)) []) address }
{
    last_index(
        entries_of(threads),
        |thread| match named_stack(&thread.raw.stack) {
            Some(stack) => stack.base <= address && address - stack.base < stack.size,
            None => false,
        },
    )
}

// Returns the index of the last thread whose stack begins a little above an address.
fn stack_above(threads: &Result<MinidumpThreadList<'_>, Error>, address: u64) -> Option<usize>
    ensures { result ≡ stack_above
        (unwrap_or (result_ok (map_ok thread_list_stream.value threads.now)) []) address }
{
    last_index(
        entries_of(threads),
        |thread| match named_stack(&thread.raw.stack) {
            Some(stack) => address < stack.base && stack.base - address <= 4096,
            None => false,
        },
    )
}

// ---- memory

// Returns the state of the memory that contains an address, if it is known.
fn memory_at(contents: &Contents<'_>, address: u64) -> Option<AddressMemory>
    ensures { result ≡ memory_at (contents_of contents.now) address }
{
    let region = contents.space.infos.memory_info_at_address(address)?;
    let (is_guarded, is_copied) = match region {
        UnifiedMemoryInfo::Info(info) => (
            info.protection.contains(MemoryProtection::PAGE_GUARD),
            info.protection.contains(MemoryProtection::PAGE_WRITECOPY)
                || info
                    .protection
                    .contains(MemoryProtection::PAGE_EXECUTE_WRITECOPY),
        ),
        UnifiedMemoryInfo::Map(_) => (false, false),
    };
    let rights = MemoryRights {
        is_readable: region.is_readable() || is_copied,
        is_writable: region.is_writable(),
        is_executable: region.is_executable(),
        is_guarded,
    };
    match region {
        UnifiedMemoryInfo::Info(info) => Some(memory_in(info.raw.state, rights)),
        UnifiedMemoryInfo::Map(_) => Some(AddressMemory::Committed(rights)),
    }
}

// Returns memory in a state by its number, with these rights if it is committed.
fn memory_in(state: u32, rights: MemoryRights) -> AddressMemory
    ensures { result ≡ memory_in state rights }
{
    if state == MemoryState::MEM_FREE.bits() {
        AddressMemory::Free
    } else if state == MemoryState::MEM_RESERVE.bits() {
        AddressMemory::Reserved
    } else {
        AddressMemory::Committed(rights)
    }
}
