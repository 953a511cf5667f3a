ghost use Rattle.std.specs.Prelude.{◌≡◌, ◌-◌, ◌++◌, IfOk, IsOkUnless, length, map, take};
ghost use Rattle.std.specs.Option.{option_copied, option_map};
ghost use Rattle.minidump.specs.Promise.{exception_stream};
ghost use Rattle.minidump.specs.Thread.{thread_of};
ghost use Rattle.stack_walk.specs.Frames.{stack_of};
ghost use Rattle.stack_walk.specs.Walk.{walk_of as found_of};
ghost use Rattle.stack_walk.specs.Threads.{process_of};
ghost use Rattle.crash_streams.specs.Contents.{contents_of};
ghost use Rattle.crash_threads.specs.Frames.{all_frames, code_bits_in, crash_walk_of};
ghost use Rattle.crash_threads.specs.Frames.{exception_walked, frame_in, process_in, thread_walked};
ghost use Rattle.crash_threads.specs.Frames.{walk_from, walk_on, walked_of};

use crate::contexts::{context_at, found_context};
use crash_streams::Contents;
use minidump::{Error, MinidumpContext, MinidumpException, MinidumpThread};
use stack_walk::{
    FrameTrust, Process, Stack, StackFrame, Walk, WalkEnd, code_bits, module_place, walk_stack,
};
use std::alloc::{AllocError, Global};

/// What is found in the stack of a thread.
#[derive(Drop)]
pub struct CrashWalk {
    /// The frames: that of the context, and then its callers.
    pub frames: Vec<CrashFrame>,
    /// The link register, and words of the stack that may be return addresses, each of these once.
    pub candidates: Vec<CrashFrame>,
    /// Why the last of the frames has no caller.
    pub end: WalkEnd,
}

impl CrashWalk {
    /// Finds the module of each frame of a walk of a stack.
    ///
    /// Returns `AllocError` if an allocation fails.
    pub fn new(alloc: Global, stack: &Stack<'_, '_>, walk: &Walk) -> Result<CrashWalk, AllocError>
        ensures { IfOk result (λ w. crash_walk_of w
            ≡ walk_on (stack_of stack.now) (found_of walk.now)) }
    {
        Ok(CrashWalk {
            frames: frames_in(alloc, stack, walk.frames.as_slice())?,
            candidates: frames_in(alloc, stack, walk.candidates.as_slice())?,
            end: walk.end,
        })
    }

    /// Returns the first frames, and then the first candidates, at most `limit` in all.
    #[tactic(auto, using(crate::proofs::FirstLemmas::first_of_both, std::proofs::lemmas::List::take_min))]
    pub fn first(&self, limit: usize) -> (&[CrashFrame], &[CrashFrame])
        ensures all { result.0.now ++ result.1.now
            ≡ take limit (all_frames (crash_walk_of self.now)) }
        ensures frames { result.0.now ≡ take limit (crash_walk_of self.now).frames }
        ensures candidates { result.1.now ≡ take (limit - length (crash_walk_of self.now).frames)
            (crash_walk_of self.now).candidates }
    {
        let (frames, candidates) = (self.frames.as_slice(), self.candidates.as_slice());
        let rest = limit.saturating_sub(frames.len());
        (
            &frames[..limit.min(frames.len())],
            &candidates[..rest.min(candidates.len())],
        )
    }
}

/// A frame of a stack.
#[derive(Clone, Copy)]
pub struct CrashFrame {
    /// The address by which it is looked up: the instruction pointer of the context, or else the
    /// address below its return address, which lies in the call. On ARM of 32 bits bit 0 of the return
    /// address, which stands for Thumb code, is cleared first. `None` where nothing lies below.
    pub address: Option<u64>,
    /// The instruction pointer of the context, or else the return address by which the frame was
    /// found, on ARM64 without the bits that may sign it.
    pub instruction: u64,
    /// The stack pointer, as [`StackFrame::stack_pointer`] has it.
    pub stack_pointer: u64,
    /// The frame pointer, or `None` if it isn't known.
    pub frame_pointer: Option<u64>,
    /// How the frame was found.
    pub trust: FrameTrust,
    /// The index in the list of modules of the kept one that contains the address, and the offset in
    /// that.
    pub module: Option<(usize, u64)>,
}

// Returns the stack and the context by which a thread of the list is walked: none without system
// information or a context.
pub(crate) fn walked_thread<'l, 'a>(
    contents: &'l Contents<'a>,
    code_bits: u32,
    exception: Option<&'l MinidumpException<'a>>,
    thread: &'l MinidumpThread<'a>,
) -> Option<(Stack<'l, 'a>, MinidumpContext)>
    ensures { option_map walked_of result ≡ thread_walked (contents_of contents.now) code_bits
        (option_map exception_stream.value (option_copied exception.entry)) (thread_of thread.now) }
{
    let process = process_of(contents, code_bits, exception)?;
    let (_, found) = found_context(contents, exception, thread)?;
    let context = MinidumpContext::from_raw(found.raw);
    Some((process.stack_of(thread, &context), context))
}

// Returns the stack and the context by which the thread of an exception is walked, which the list
// lacks: the memory at the stack pointer of the exception's context.
pub(crate) fn walked_exception<'l, 'a>(
    contents: &'l Contents<'a>,
    code_bits: u32,
    exception: &'l MinidumpException<'a>,
) -> Option<(Stack<'l, 'a>, MinidumpContext)>
    ensures { option_map walked_of result ≡ exception_walked (contents_of contents.now) code_bits
        (exception_stream.value exception.now) }
{
    let process = process_of(contents, code_bits, Some(exception))?;
    let found = context_at(contents, exception)?;
    let context = MinidumpContext::from_raw(found.raw);
    let memory = process
        .memory
        .memory_at_address(context.get_stack_pointer());
    Some((process.stack_on(memory), context))
}

// Returns what is found in a stack by a context, each frame with its module, with at most `scan`
// candidates, where there are both.
pub(crate) fn walk_of(
    alloc: Global,
    walked: Option<(Stack<'_, '_>, MinidumpContext)>,
    scan: usize,
) -> Result<Option<CrashWalk>, Error>
    ensures walk { IfOk result (λ walk. option_map crash_walk_of walk
        ≡ option_map (walk_from scan) (option_map walked_of walked.entry)) }
    ensures memory { IsOkUnless result Error.OutOfMemory }
{
    let Some((stack, context)) = walked else {
        return Ok(None);
    };
    let walk = walk_stack(alloc, &stack, &context, scan)?;
    Ok(Some(CrashWalk::new(alloc, &stack, &walk)?))
}

// Returns frames, each with its module.
fn frames_in(
    alloc: Global,
    stack: &Stack<'_, '_>,
    frames: &[StackFrame],
) -> Result<Vec<CrashFrame>, AllocError>
    ensures { IfOk result (λ fs. fs.items ≡ map (frame_in (stack_of stack.now)) frames.now) }
{
    frames
        .iter()
        .map(|frame| frame_in(stack, frame))
        .collect(alloc)
}

// Returns a frame of a stack with the address by which it is looked up, and its place in a module.
fn frame_in(stack: &Stack<'_, '_>, frame: &StackFrame) -> CrashFrame
    ensures { result ≡ frame_in (stack_of stack.now) frame.now }
{
    let address = frame.lookup_address(stack.cpu);
    CrashFrame {
        address,
        instruction: frame.instruction,
        stack_pointer: frame.stack_pointer,
        frame_pointer: frame.frame_pointer,
        trust: frame.trust,
        module: address.and_then(|address| module_place(stack.modules, address)),
    }
}

// Returns how many of the low bits of a return address are its address: 64 without system information.
pub(crate) fn code_bits_of(contents: &Contents<'_>) -> u32
    ensures { result ≡ code_bits_in (contents_of contents.now) }
{
    match &contents.system.system {
        Ok(system) => code_bits(system.os, system.cpu, &contents.space.modules),
        Err(_) => 64,
    }
}

// Returns the process with such an exception, or `None` without system information. Of a return address
// the low `code_bits` bits are its address.
fn process_of<'l, 'a>(
    contents: &'l Contents<'a>,
    code_bits: u32,
    exception: Option<&'l MinidumpException<'a>>,
) -> Option<Process<'l, 'a>>
    ensures { option_map process_of result ≡ process_in (contents_of contents.now) code_bits
        (option_map exception_stream.value (option_copied exception.entry)) }
{
    let space = &contents.space;
    Some(Process {
        system: contents.system.system.as_ref().ok()?,
        exception,
        modules: &space.modules,
        memory: &space.memory,
        infos: &space.infos,
        code_bits,
    })
}
