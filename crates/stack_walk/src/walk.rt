ghost use Rattle.std.specs.Prelude.{◌≡◌, ◌∷◌, IfOk, IsOkUnless};
ghost use Rattle.stack_walk.specs.Frames.{context_frame, frame_register, outermost, stack_of};
ghost use Rattle.stack_walk.specs.Walk.{all_frames, callers_in, walk_in, walk_of};

use crate::{FrameTrust, Stack, StackFrame, WalkEnd, link_of};
use minidump::{Error, MinidumpContext, MinidumpRawContext};
use std::alloc::{AllocError, Global};

/// The frames of a context, the candidates, and why there are no more callers.
#[derive(Drop)]
pub struct Walk {
    /// The frame of the context and its callers, the innermost first.
    pub frames: Vec<StackFrame>,
    /// The candidates: the link register of the context and words of the stack that may be return
    /// addresses, as [`frames`](crate::frames) says.
    pub candidates: Vec<StackFrame>,
    /// Why the last frame has no caller.
    pub end: WalkEnd,
}

impl Walk {
    /// Returns the frames and after them the candidates. The only error is that no memory is left.
    pub fn into_frames(self) -> Result<Vec<StackFrame>, AllocError>
        ensures { IfOk result (λ frames. frames.items ≡ all_frames (walk_of self)) }
    {
        let mut frames = self.frames;
        frames.extend_from_slice(self.candidates.as_slice())?;
        Ok(frames)
    }
}

/// Walks a stack as [`frames`](crate::frames) does, and tells the callers by frame pointers apart
/// from the candidates, and why there are no more callers. The only error is `OutOfMemory`.
pub fn walk_stack(
    alloc: Global,
    stack: &Stack<'_, '_>,
    context: &MinidumpContext,
    limit: usize,
) -> Result<Walk, Error>
    ensures walk { IfOk result
        (λ walk. walk_of walk ≡ walk_in (stack_of stack.now) context.now limit) }
    ensures memory { IsOkUnless result Error.OutOfMemory }
{
    let (frames, last) = climb(alloc, stack, StackFrame::of_context(context))?;
    let candidates = stack.candidates(alloc, frames.as_slice(), link_of(context), limit)?;
    Ok(Walk {
        frames,
        candidates,
        end: stack.end_at(&last),
    })
}

impl StackFrame {
    /// Returns the frame of a context: its instruction pointer, stack pointer and frame pointer.
    pub fn of_context(context: &MinidumpContext) -> StackFrame
        ensures { result ≡ context_frame context.now }
    {
        StackFrame {
            instruction: context.get_instruction_pointer(),
            stack_pointer: context.get_stack_pointer(),
            frame_pointer: context.get_register(frame_register(&context.raw)),
            trust: FrameTrust::Context,
        }
    }
}

// Returns the name of the register that holds the frame pointer.
fn frame_register(raw: &MinidumpRawContext) -> &'static str
    ensures { result.now ≡ frame_register raw.now }
{
    match raw {
        MinidumpRawContext::X86(_) => "ebp",
        MinidumpRawContext::Amd64(_) => "rbp",
        MinidumpRawContext::Arm(_)
        | MinidumpRawContext::Arm64(_)
        | MinidumpRawContext::OldArm64(_) => "fp",
    }
}

// Returns a frame with its callers, and the last of them.
fn climb(
    alloc: Global,
    stack: &Stack<'_, '_>,
    first: StackFrame,
) -> Result<(Vec<StackFrame>, StackFrame), AllocError>
    ensures frames { IfOk result (λ climbed. climbed.0.items
        ≡ first ∷ callers_in (stack_of stack.now) first) }
    ensures last { IfOk result (λ climbed. climbed.1
        ≡ outermost first (callers_in (stack_of stack.now) first)) }
{
    let mut frames = Vec::new(alloc);
    frames.push(first)?;
    let mut last = first;
    while let Some(caller) = stack.caller_of(&last) {
        frames.push(caller)?;
        last = caller;
    }
    Ok((frames, last))
}
