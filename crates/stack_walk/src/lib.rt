//! Walks the stack of a thread: its frames without symbols, each with its evidence.
//!
//! - The first frame is that of the thread's context: [`FrameTrust::Context`].
//! - Its callers follow by frame pointers: [`FrameTrust::FramePointer`].
//! - Words of the stack that may be return addresses, and that no record leads to, are candidates:
//!   [`FrameTrust::Scan`]. On ARM and ARM64 so is the link register: [`FrameTrust::Link`].
//!
//! [`walk_stack`] finds them by a context and a [`Stack`], [`walk_thread`] those of a thread, by
//! what a dump has of its [`Process`]; [`frames`] and [`thread_frames`] return them in one list. A
//! walk stays on one stack: it ends where the frames of a handler lead back to the interrupted
//! stack.
//!
//! # What is proved
//!
//! - A walk is the one that the definition `walk_in` assigns to a stack and a context: the frames,
//!   the candidates, and why there is no further caller ([`WalkEnd`]): [`walk_stack`]. [`frames`]
//!   returns the first two in one list. The walk of a thread is that of its stack and of its
//!   context, which on the thread of the exception is the exception's: [`walk_thread`],
//!   [`thread_frames`], by `thread_walk_in` and `thread_frames_in`.
//! - These frames are those of `AreFrames`, and the only ones: each caller is that of the frame
//!   before it, and the last frame has none: [`laws::one_list_of_frames`]. Out of memory is an
//!   error, never a shorter list.
//! - Each context has both pointers: [`laws::a_context_has_both_pointers`].
//! - Each frame but the first has a return address that stands in the stack right below its stack
//!   pointer, or is the link register, on ARM64 with bits that may sign it:
//!   [`laws::each_caller_has_its_evidence`].
//! - The walk ends on every stack, and its length is bounded by that of the stack:
//!   [`laws::frames_are_few`].
//! - The scan takes the first candidates, as many as are asked for, and leaves out no return
//!   address if as many are asked for as the stack has bytes:
//!   [`laws::each_aligned_word_is_scanned`]. None is there twice:
//!   [`laws::each_return_address_is_once`].
//! - The candidate of the link register comes first, where a call may return to it and the first
//!   caller, if there is one, isn't found by rules and has another return address. No other
//!   candidate is of [`FrameTrust::Link`]: [`laws::the_link_register_comes_first`].
//! - The module of a frame and the offset in it are looked up by the instruction pointer of a
//!   context, or by the address below a return address, whose bit for Thumb code is cleared first
//!   on ARM: [`StackFrame::module`], [`StackFrame::module_offset`]. [`module_place`] gives the
//!   index of a module for an address.
//!
//! The proofs use the contracts and the laws of `minidump`, and nothing below.
#![tactic(auto)]

ghost use Rattle.std.specs.Prelude.{◌≡◌, IfOk, IsOkUnless};
ghost use Rattle.stack_walk.specs.Frames.{AreFrames, stack_of};
ghost use Rattle.stack_walk.specs.Walk.{frames_in};

mod addresses;
mod calls;
mod end;
mod frame;
pub mod laws;
mod scan;
mod stack;
mod thread;
mod walk;

pub use addresses::{code_bits, is_address};
pub use end::WalkEnd;
pub use frame::{FrameTrust, StackFrame, has_code, is_code, module_place};
use minidump::{Error, MinidumpContext};
pub use scan::link_of;
pub use stack::Stack;
use std::alloc::Global;
pub use thread::{Process, thread_frames, walk_context, walk_thread};
pub use walk::{Walk, walk_stack};

/// Returns the frames of the thread that has this context and this stack: that of the context, its
/// callers by frame pointers, and after them at most `limit` candidates, in the order of the stack.
///
/// - The frame pointer is `ebp`, `rbp`, or ARM's `fp`. It points to the frame record, two words of
///   the stack: the saved frame pointer, and the return address, where code is known to be: a kept
///   module contains it, or memory that may be run, as that of code that was compiled while the
///   process ran. A record lies at or above the stack pointer of its frame, which for a caller is
///   the address after the record that leads to it. The last frame is the one whose frame pointer
///   leads to no record. On Apple's systems an async function of Swift marks the frame pointer that
///   it saves, by bit 60: where that bit alone of the highest four is set, the record stands at the
///   address without the mark, and a caller by a record has its frame pointer without it.
/// - A candidate is an aligned word that may be a return address: a kept module contains it, past
///   its first page, which has the module's headers, or in no module memory that may be run and not
///   be written; the memory there may be run, as far as is known of it; and on x86, x86-64 and ARM64
///   a call ends before it, as far as the dump has these bytes.
/// - The link register of ARM and ARM64 is a candidate, too, and the first: the return address of a
///   function that hasn't saved it, as one that calls no other. Code is known to be there, also in
///   a module's first page, the memory may be run, and a call ends before it, as for a word. It is
///   none if it is the return address by which the first caller was found. No walk goes on from it,
///   since the register may be left from an earlier call.
/// - The words from the last frame's stack pointer on are looked at, and before them those of the
///   first frame below its record, if it has a caller: the frame pointer of a function without a
///   record of its own is that of a caller further out, and the return addresses of the callers
///   between them stand there.
/// - Of words that hold the same return address only the lowest is a candidate, and not even that
///   if the link register is a candidate and holds it, too. `limit` counts candidates alone.
///   [`Stack::candidates`] finds them in one pass over these words, and looks up the return address
///   of each among those that it has.
///
/// Code is at a return address if it is at the address below it, which lies in the call.
/// On ARM of 32 bits bit 0 of the return address is cleared first. On ARM64, whose functions may
/// sign a return address, a word of the stack and the link register are read without the bits above
/// those of [`code_bits`], and the frame has the address that is left. One whose bit 55 is set is
/// read as it is: no address of a process has that bit. The only error is `OutOfMemory`.
#[tactic(auto, using(crate::proofs::CallerLemmas::frames_by))]
pub fn frames(
    alloc: Global,
    stack: &Stack<'_, '_>,
    context: &MinidumpContext,
    limit: usize,
) -> Result<Vec<StackFrame>, Error>
    ensures frames { IfOk result
        (λ frames. AreFrames (stack_of stack.now) context.now limit frames.items) }
    ensures answer { IfOk result
        (λ frames. frames.items ≡ frames_in (stack_of stack.now) context.now limit) }
    ensures memory { IsOkUnless result Error.OutOfMemory }
{
    let walk = walk_stack(alloc, stack, context, limit)?;
    Ok(walk.into_frames()?)
}
