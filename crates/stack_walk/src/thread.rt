ghost use Rattle.std.specs.Prelude.{◌≡◌, IfOk, IfSome, IsOkUnless, IsSome, OnErr};
ghost use Rattle.std.specs.Option.{option_map};
ghost use Rattle.minidump.specs.declared.MinidumpContextValidity.TheVariants.{All};
ghost use Rattle.minidump.specs.Below.MemoryLists.Unified.{unified_list, unified_region};
ghost use Rattle.minidump.specs.Thread.{thread_of};
ghost use Rattle.stack_walk.specs.Frames as walked;
ghost use Rattle.stack_walk.specs.Frames.{stack_pointer_in};
ghost use Rattle.stack_walk.specs.Threads.{process_of, stack_in, thread_context, thread_frames_in};
ghost use Rattle.stack_walk.specs.Threads.{thread_stack, thread_walk_in};
ghost use Rattle.stack_walk.specs.Walk.{walk_in, walk_of};

use crate::{Stack, StackFrame, Walk, walk_stack};
use minidump::{
    Error, MinidumpContext, MinidumpException, MinidumpModuleList, MinidumpSystemInfo,
    MinidumpThread, UnifiedMemory, UnifiedMemoryInfoList, UnifiedMemoryList,
};
use std::alloc::Global;

/// What walking a thread needs of the process.
#[derive(Clone, Copy)]
pub struct Process<'l, 'a> {
    /// The system information.
    pub system: &'l MinidumpSystemInfo,
    /// The exception, if there is one.
    pub exception: Option<&'l MinidumpException<'a>>,
    /// The modules.
    pub modules: &'l MinidumpModuleList,
    /// The memory.
    pub memory: &'l UnifiedMemoryList<'a>,
    /// What is known of the regions of the memory.
    pub infos: &'l UnifiedMemoryInfoList<'a>,
    /// How many of the low bits of a return address are its address, as
    /// [`code_bits`](crate::code_bits) returns it for the system and the modules. With another
    /// number callers are lost.
    pub code_bits: u32,
}

/// Walks the stack of a thread, as [`walk_stack`] does with its context and its stack. Returns
/// `None` if it has no context.
///
/// The context is the exception's, if that happened on the thread and its context is accepted, and
/// else the thread's own. The stack is the region that holds the byte at the context's stack
/// pointer: [`MinidumpThread::stack_memory`], if it does, else the kept region of the memory, as
/// for a handler or a coroutine. Where neither does, it is `stack_memory` all the same. The only
/// error is `OutOfMemory`, which comes only if there is a context.
pub fn walk_thread<'a>(
    alloc: Global,
    process: &Process<'_, 'a>,
    thread: &MinidumpThread<'a>,
    limit: usize,
) -> Result<Option<Walk>, Error>
    ensures walk { IfOk result (λ walk. option_map walk_of walk
        ≡ thread_walk_in (process_of process.now) (thread_of thread.now) limit) }
    ensures memory { IsOkUnless result Error.OutOfMemory }
    ensures some { OnErr result (IsSome (thread_context (process_of process.now)
        (thread_of thread.now))) }
{
    match thread_context(process, thread) {
        Some(context) => Ok(Some(walk_context(alloc, process, thread, &context, limit)?)),
        None => Ok(None),
    }
}

/// Returns the frames of a thread and after them the candidates, as [`walk_thread`] finds them;
/// none if it has no context. The only error is that of [`walk_thread`].
pub fn thread_frames<'a>(
    alloc: Global,
    process: &Process<'_, 'a>,
    thread: &MinidumpThread<'a>,
    limit: usize,
) -> Result<Vec<StackFrame>, Error>
    ensures frames { IfOk result (λ frames. frames.items
        ≡ thread_frames_in (process_of process.now) (thread_of thread.now) limit) }
    ensures memory { IsOkUnless result Error.OutOfMemory }
    ensures some { OnErr result (IsSome (thread_context (process_of process.now)
        (thread_of thread.now))) }
{
    match walk_thread(alloc, process, thread, limit)? {
        Some(walk) => Ok(walk.into_frames()?),
        None => Ok(Vec::new(alloc)),
    }
}

// Returns the context of a thread.
fn thread_context(process: &Process<'_, '_>, thread: &MinidumpThread<'_>) -> Option<MinidumpContext>
    ensures raw { option_map (λ c. c.raw) result ≡ thread_context (process_of process.now)
        (thread_of thread.now) }
    ensures valid { IfSome result (λ c. c.valid ≡ All) }
{
    if let Some(exception) = process.exception {
        if exception.thread_id == thread.raw.thread_id {
            if let Some(context) = exception.context(process.system, None) {
                return Some(context);
            }
        }
    }
    thread.context(process.system, None)
}

// Returns the memory of the stack of a thread whose context has this stack pointer.
fn stack_memory<'l, 'a>(
    memory: &'l UnifiedMemoryList<'a>,
    thread: &'l MinidumpThread<'a>,
    stack_pointer: u64,
) -> Option<UnifiedMemory<'l, 'a>>
    ensures { option_map unified_region result ≡ thread_stack (unified_list memory.now)
        (thread_of thread.now) stack_pointer }
{
    let own = thread.stack_memory(memory);
    if let Some(region) = own {
        let base = region.base_address();
        if base <= stack_pointer && stack_pointer - base < region.bytes().len() as u64 {
            return own;
        }
    }
    match memory.memory_at_address(stack_pointer) {
        Some(found) => Some(found),
        None => own,
    }
}

/// Walks the stack of a thread by a context, which need not be the one that [`walk_thread`] takes:
/// its own stack, if that holds the stack pointer, else the dump's region that does, else its own
/// all the same. The only error is `OutOfMemory`.
pub fn walk_context<'a>(
    alloc: Global,
    process: &Process<'_, 'a>,
    thread: &MinidumpThread<'a>,
    context: &MinidumpContext,
    limit: usize,
) -> Result<Walk, Error>
    ensures walk { IfOk result (λ walk. walk_of walk ≡ walk_in
        (stack_in (process_of process.now) (thread_stack (process_of process.now).memory
        (thread_of thread.now) (stack_pointer_in context.now.raw))) context.now limit) }
    ensures memory { IsOkUnless result Error.OutOfMemory }
{
    walk_stack(alloc, &process.stack_of(thread, context), context, limit)
}

impl<'l, 'a> Process<'l, 'a> {
    /// Returns the stack by which [`walk_context`] walks a context of a thread.
    pub fn stack_of(
        &self,
        thread: &'l MinidumpThread<'a>,
        context: &MinidumpContext,
    ) -> Stack<'l, 'a>
        ensures { walked.stack_of result ≡ stack_in (process_of self.now) (thread_stack
            (process_of self.now).memory (thread_of thread.now) (stack_pointer_in context.now.raw)) }
    {
        self.stack_on(stack_memory(self.memory, thread, context.get_stack_pointer()))
    }

    /// Returns the stack that a region of memory holds, or for `None` one without memory.
    pub fn stack_on(&self, memory: Option<UnifiedMemory<'l, 'a>>) -> Stack<'l, 'a>
        ensures { walked.stack_of result ≡ stack_in (process_of self.now)
            (option_map unified_region memory.entry) }
    {
        Stack {
            memory,
            modules: self.modules,
            code: self.memory,
            infos: self.infos,
            cpu: self.system.cpu,
            width: self.system.cpu.pointer_width(),
            code_bits: self.code_bits,
        }
    }
}
