ghost use Rattle.std.specs.Prelude.{◌≡◌, ◌+◌, IfSome, Some};
ghost use Rattle.std.specs.Option.{option_copied, option_map};
ghost use Rattle.minidump_bytes.specs.Source.{bytes_of};
ghost use Rattle.minidump_bytes.specs.Steps.{after};
ghost use Rattle.minidump_context.specs.declared.validity.MinidumpContextValidity.TheVariants.{All};
ghost use Rattle.minidump_memory.specs.Memory.{memory_of, spans_read};
ghost use Rattle.minidump_memory.specs.Unified.{unified_list, unified_region};
ghost use Rattle.minidump.specs.Thread.{IsErrorIn, IsStack, accepted_context, error_at, error_in};
ghost use Rattle.minidump.specs.Thread.{known_context, last_error_address, stack_of, thread_at, thread_of};
ghost use Rattle.minidump_system.specs.SystemInfo.{system_info_of};

mod print;
mod stack;

use minidump_bytes::{Endian, Source, Steps};
use minidump_context::MinidumpContext;
use minidump_format::format::MINIDUMP_THREAD;
use minidump_memory::{MinidumpMemory, UnifiedMemory, UnifiedMemoryList};
use minidump_reason::{CodeNames, CrashReason};
use minidump_system::{Cpu, MinidumpMiscInfo, MinidumpSystemInfo};

/// A thread, with the bytes of its context and of its stack as they lie in the file.
#[derive(Drop)]
pub struct MinidumpThread<'a> {
    /// The entry in the stream.
    pub raw: MINIDUMP_THREAD,
    context: Option<&'a [u8]>,
    stack: Option<MinidumpMemory<'a>>,
    endian: Endian,
}

impl<'a> MinidumpThread<'a> {
    // Reads the thread of an entry: the span of its context, and that of its stack.
    pub(crate) fn read(
        raw: MINIDUMP_THREAD,
        all: Source<'a>,
        endian: Endian,
        steps: &mut Steps,
    ) -> MinidumpThread<'a>
        ensures value { thread_of result ≡ thread_at endian (bytes_of all.entry) raw }
        ensures step { steps.new ≡ after steps.old (1 + spans_read raw.stack) }
    {
        MinidumpThread {
            raw,
            context: raw.thread_context.bytes_in(all, steps),
            stack: MinidumpMemory::read_counted(&raw.stack, all, endian, steps).ok(),
            endian,
        }
    }

    /// Returns the bytes of the context as they lie in the file, or `None` if they are not in it.
    pub fn context_bytes(&self) -> Option<&'a [u8]>
        ensures { option_copied result ≡ (thread_of self.now).context }
    {
        self.context
    }

    /// Returns the thread's own stack, or `None` if its RVA or its size is 0, or its bytes are not
    /// in the file.
    pub fn own_stack(&self) -> Option<&MinidumpMemory<'a>>
        ensures { option_map memory_of (option_copied result) ≡ (thread_of self.now).stack }
    {
        self.stack.as_ref()
    }

    /// Returns the byte order of the dump, which is that of the context too.
    pub fn endian(&self) -> Endian
        ensures { result ≡ (thread_of self.now).order }
    {
        self.endian
    }

    /// Decodes the registers that the thread had when the dump was written. For the thread that
    /// crashed call [`MinidumpException::context`](crate::MinidumpException::context) first, and
    /// this if it returns `None`: when the dump was written that thread was often within the
    /// handler of the exception.
    ///
    /// Returns `None` if the bytes of the context are not in the file, or [`MinidumpContext::read`]
    /// returns an error for them. `misc` is not used. Takes no memory.
    pub fn context(
        &self,
        system_info: &MinidumpSystemInfo,
        misc: Option<&MinidumpMiscInfo>,
    ) -> Option<MinidumpContext>
        ensures raw { option_map (λ c. c.raw) result
            ≡ accepted_context system_info.now.raw.processor_architecture (thread_of self.now).order
            (thread_of self.now).context }
        ensures valid { IfSome result (λ c. c.valid ≡ All) }
    {
        accepted_context(self.context, self.endian, system_info, misc)
    }

    /// Returns the memory of the stack: the thread's own, else the kept region of `memory_list`
    /// that contains the address where the stack begins, or `None` if no kept region does. A stack
    /// whose RVA or size is 0, or whose bytes are not in the file, is not the thread's own. The
    /// region may begin below the stack pointer: what lies there is not in use.
    pub fn stack_memory<'mem>(
        &'mem self,
        memory_list: &'mem UnifiedMemoryList<'a>,
    ) -> Option<UnifiedMemory<'mem, 'a>>
        ensures stack { IsStack (thread_of self.now) (unified_list memory_list.now)
            (option_map unified_region result) }
        ensures answer { option_map unified_region result
            ≡ stack_of (Some (unified_list memory_list.now)) (thread_of self.now) }
    {
        match &self.stack {
            Some(stack) => Some(UnifiedMemory::Memory(stack)),
            None => memory_list.memory_at_address(self.raw.stack.start_of_memory_range),
        }
    }

    /// Returns the last error of the thread as Windows keeps it, whatever the system of the dump:
    /// the number at `LastErrorValue` of its thread environment block, in the kept region of
    /// `memory` that contains the address of that field. Returns `None` if the width of a pointer
    /// is unknown, the address is 2^64 or more, no kept region contains it, or the region doesn't
    /// hold all four bytes. Ignores the thread's own stack. Takes no memory.
    pub fn last_error(
        &self,
        cpu: Cpu,
        memory: &UnifiedMemoryList<'_>,
        names: &CodeNames<'_>,
    ) -> Option<CrashReason>
        ensures error { IsErrorIn names.now (unified_list memory.now)
            (last_error_address cpu self.now.raw.teb) result }
        ensures answer { result ≡ error_in names.now (unified_list memory.now)
            (last_error_address cpu self.now.raw.teb) }
    {
        let address = last_error_address(cpu, self.raw.teb)?;
        error_at(names, address, memory.memory_at_address(address))
    }
}

// Returns the address of `LastErrorValue` in a thread environment block, 13 pointers after its
// start.
fn last_error_address(cpu: Cpu, teb: u64) -> Option<u64>
    ensures { result ≡ last_error_address cpu teb }
{
    let width = cpu.pointer_width().size_in_bytes()?;
    teb.checked_add(13 * width as u64)
}

// Returns the error that a region holds at an address.
fn error_at(
    names: &CodeNames<'_>,
    address: u64,
    region: Option<UnifiedMemory<'_, '_>>,
) -> Option<CrashReason>
    ensures { result ≡ error_at names.now address (option_map unified_region region.entry) }
{
    let code = region?.get_memory_at_address(address)?;
    Some(CrashReason::from_windows_error(code, names))
}

// Decodes the bytes of a context. Returns `None` if there are none, if they are no context, or
// without system information.
pub(crate) fn known_context(
    bytes: Option<&[u8]>,
    endian: Endian,
    system: Option<&MinidumpSystemInfo>,
    misc: Option<&MinidumpMiscInfo>,
) -> Option<MinidumpContext>
    ensures { option_map (λ c. c.raw) result
        ≡ known_context (option_map system_info_of (option_copied system.entry)) endian
        (option_copied bytes.entry) }
{
    accepted_context(bytes, endian, system?, misc)
}

// Decodes the bytes of a context. Returns `None` if there are none, or they are no context.
pub(crate) fn accepted_context(
    bytes: Option<&[u8]>,
    endian: Endian,
    system_info: &MinidumpSystemInfo,
    misc: Option<&MinidumpMiscInfo>,
) -> Option<MinidumpContext>
    ensures raw { option_map (λ c. c.raw) result
        ≡ accepted_context system_info.now.raw.processor_architecture endian
        (option_copied bytes.entry) }
    ensures valid { IfSome result (λ c. c.valid ≡ All) }
{
    MinidumpContext::read(bytes?, endian, system_info, misc).ok()
}
