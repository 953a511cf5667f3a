ghost use Rattle.std.specs.Prelude.{◌≡◌};
ghost use Rattle.std.specs.Option.{option_copied, option_map};
ghost use Rattle.minidump.specs.Below.MemoryLists.UnifiedInfo.{info_list, info_region, info_regions};
ghost use Rattle.minidump.specs.Below.Modules.Module.{module_of};
ghost use Rattle.minidump.specs.Below.Modules.ModuleList.{module_list_of};
ghost use Rattle.stack_walk.specs.Evidence.{evidence_address};
ghost use Rattle.stack_walk.specs.Lookups.{call_site, has_code, is_code, is_code_alone};
ghost use Rattle.stack_walk.specs.Lookups.{is_committed, is_past_headers, is_runnable};
ghost use Rattle.stack_walk.specs.Lookups.{lookup_address, may_be_run, module_at, module_offset_at};
ghost use Rattle.stack_walk.specs.Lookups.{module_place};

use bitflags::Flags;
use minidump::format::MemoryState;
use minidump::system_info::{Cpu, PointerWidth};
use minidump::{
    MinidumpModule, MinidumpModuleList, Module, UnifiedMemoryInfo, UnifiedMemoryInfoList,
};

/// How a frame was found.
#[derive(Clone, Copy, PartialEq, Eq)]
pub enum FrameTrust {
    /// The registers of the thread's context.
    Context,
    /// The STACK CFI rules that the symbol file of a module has for the frame before. No walk of
    /// this crate finds such a frame.
    Cfi,
    /// The frame pointer of the frame before.
    FramePointer,
    /// A word of the stack that may be a return address.
    Scan,
    /// The link register of the context: the return address of a function that hasn't saved it.
    /// Such a frame is a candidate, never one of the walk itself.
    Link,
}

/// A frame of a stack.
#[derive(Clone, Copy, PartialEq, Eq)]
pub struct StackFrame {
    /// The instruction pointer of the context, or else the return address by which the frame was
    /// found, on ARM64 without the bits that may sign it.
    pub instruction: u64,
    /// The stack pointer, as the context or the rules give it. A frame by a frame pointer or by a
    /// scan has the address after its return address, and that of the link register has the stack
    /// pointer of the context: the lowest that its stack pointer can be.
    pub stack_pointer: u64,
    /// The frame pointer, or `None` if it isn't known: as the context or the rules give it, or as
    /// the frame record has it, without the mark of Swift.
    pub frame_pointer: Option<u64>,
    /// How the frame was found.
    pub trust: FrameTrust,
}

impl StackFrame {
    /// Returns the address by which the frame is looked up: the instruction pointer of the context,
    /// or else the address below its return address, which lies in the call. On ARM of 32 bits the
    /// lowest bit of the return address, which stands for Thumb code, is cleared first. Returns
    /// `None` where nothing lies below.
    pub fn lookup_address(&self, cpu: Cpu) -> Option<u64>
        ensures { result ≡ lookup_address cpu self.now }
    {
        match self.trust {
            FrameTrust::Context => Some(self.instruction),
            FrameTrust::Cfi | FrameTrust::FramePointer | FrameTrust::Scan | FrameTrust::Link => {
                call_site(cpu, self.instruction)
            }
        }
    }

    /// Returns the kept module of the frame, the one that contains its lookup address, or `None` if
    /// no kept module does.
    pub fn module<'l>(
        &self,
        cpu: Cpu,
        modules: &'l MinidumpModuleList,
    ) -> Option<&'l MinidumpModule>
        ensures { option_map module_of (option_copied result)
            ≡ module_at (module_list_of modules.now) (lookup_address cpu self.now) }
    {
        modules.module_at_address(self.lookup_address(cpu)?)
    }

    /// Returns the offset of the frame's lookup address in its module, or `None` if it has no
    /// module.
    pub fn module_offset(&self, cpu: Cpu, modules: &MinidumpModuleList) -> Option<u64>
        ensures { result ≡ module_offset_at (module_list_of modules.now)
            (lookup_address cpu self.now) }
    {
        let (_, offset) = module_place(modules, self.lookup_address(cpu)?)?;
        Some(offset)
    }

    /// Returns the address in the stack at which the frame's return address stands, that of the
    /// word below its stack pointer. Returns `None` for [`FrameTrust::Context`],
    /// [`FrameTrust::Cfi`] and [`FrameTrust::Link`], if the width of an address is unknown, or if
    /// no word lies below the stack pointer.
    pub fn evidence(&self, width: PointerWidth) -> Option<u64>
        ensures { result ≡ evidence_address width self.now }
    {
        let size = width.size_in_bytes()?;
        match self.trust {
            FrameTrust::Context | FrameTrust::Cfi | FrameTrust::Link => None,
            FrameTrust::FramePointer | FrameTrust::Scan => {
                self.stack_pointer.checked_sub(size as u64)
            }
        }
    }
}

// ---- what an address is looked up in

// Returns the address below the one that a return address returns to: it lies in the call. On ARM
// of 32 bits bit 0 of the return address is cleared first. Returns `None` where nothing lies below.
pub(crate) fn call_site(cpu: Cpu, address: u64) -> Option<u64>
    ensures { result ≡ call_site cpu address }
{
    match cpu {
        Cpu::Arm => (address - address % 2).checked_sub(1),
        _ => address.checked_sub(1),
    }
}

/// Returns the index in the list of modules of the kept one that contains an address, and the
/// offset of the address from its base. Returns `None` if no kept module contains the address.
pub fn module_place(modules: &MinidumpModuleList, address: u64) -> Option<(usize, u64)>
    ensures { result ≡ module_place (module_list_of modules.now) address }
{
    let (index, module) = modules.numbered_module_at_address(address)?;
    Some((index, address.saturating_sub(module.base_address())))
}

/// Tells whether a kept module contains an address.
pub fn is_code(modules: &MinidumpModuleList, address: u64) -> bool
    ensures { result ≡ is_code (module_list_of modules.now) address }
{
    modules.module_at_address(address).is_some()
}

/// Tells whether code is known to be at an address: whether a kept module contains it, or memory
/// that may be run, as that of code that was compiled while the process ran.
pub fn has_code(
    modules: &MinidumpModuleList,
    infos: &UnifiedMemoryInfoList<'_>,
    address: u64,
) -> bool
    ensures { result ≡ has_code (module_list_of modules.now)
        (info_regions (info_list infos.now)) address }
{
    is_code(modules, address)
        || infos
            .memory_info_at_address(address)
            .is_some_and(|region| is_runnable(region))
}

// Tells whether the memory at an address may be run, by what is known of it.
pub(crate) fn may_be_run(infos: &UnifiedMemoryInfoList<'_>, address: u64) -> bool
    ensures { result ≡ may_be_run (info_regions (info_list infos.now)) address }
{
    let region = infos.memory_info_at_address(address);
    region.map_or(true, |region| is_runnable(region))
}

// Tells whether an address lies in a kept module, past its first page, which has the module's
// headers, or in no module, in memory that may be run and not be written.
pub(crate) fn is_past_headers(
    modules: &MinidumpModuleList,
    infos: &UnifiedMemoryInfoList<'_>,
    address: u64,
) -> bool
    ensures { result ≡ is_past_headers (module_list_of modules.now)
        (info_regions (info_list infos.now)) address }
{
    match module_place(modules, address) {
        Some((_, offset)) => offset >= 4096,
        None => infos
            .memory_info_at_address(address)
            .is_some_and(|region| is_code_alone(region)),
    }
}

// Tells whether a region may be run, and not be written.
fn is_code_alone(region: UnifiedMemoryInfo<'_, '_>) -> bool
    ensures { result ≡ is_code_alone (info_region region.entry) }
{
    is_runnable(region) && !region.is_writable()
}

// Tells whether a region is committed and may be run.
fn is_runnable(region: UnifiedMemoryInfo<'_, '_>) -> bool
    ensures { result ≡ is_runnable (info_region region.entry) }
{
    is_committed(region) && region.is_executable()
}

// Tells whether a region is committed. The rights of any other one say nothing.
fn is_committed(region: UnifiedMemoryInfo<'_, '_>) -> bool
    ensures { result ≡ is_committed (info_region region.entry) }
{
    match region {
        UnifiedMemoryInfo::Info(info) => {
            info.raw.state != MemoryState::MEM_FREE.bits()
                && info.raw.state != MemoryState::MEM_RESERVE.bits()
        }
        UnifiedMemoryInfo::Map(_) => true,
    }
}
