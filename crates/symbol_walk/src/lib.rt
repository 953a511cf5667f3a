//! Walks the stack of a thread by the symbols of its modules: its frames, the candidates of these,
//! and why there is no further caller.
//!
//! - The first frame is that of the thread's context.
//! - Its callers follow by the rules of their modules' symbol files: [`FrameTrust::Cfi`]. Where a
//!   frame is in no module, or its module has no symbols, or its rules give no caller, the caller is
//!   that by the frame pointer, as in [`stack_walk`]; or else the walk starts again at the first of the next words of the
//!   stack that may be a return address into a function of the symbols: [`FrameTrust::Scan`].
//! - The walk ends where the rules say that a frame has no caller, or where neither its rules nor
//!   its frame pointer nor the next words give one.
//!
//! [`walk_by_symbols`] finds the [`Walk`] of a context on a [`Stack`].
//!
//! [`FrameTrust::Cfi`]: stack_walk::FrameTrust::Cfi
//! [`FrameTrust::Scan`]: stack_walk::FrameTrust::Scan
//! [`Stack`]: stack_walk::Stack
//! [`Walk`]: stack_walk::Walk
//!
//! # The caller by rules
//!
//! The rules of a frame are those that its module's symbols have for the address by which it is
//! looked up ([`StackFrame::lookup_address`]). They refer to the known registers, and to the words
//! of the stack. `.ra` gives the instruction pointer of the caller, on ARM64 without the bits that
//! may sign it, and `.cfa` its stack pointer, unless the stack pointer has a rule of its own. Each
//! other register has the value of its rule. Without a rule, a register that functions keep for
//! their callers has its value in the callee, and any other isn't known.
//!
//! The stack pointer of a caller lies on the stack or right after it, and above that of its callee.
//! Only the caller of a context's frame, whose return address may be in a register, may have the
//! stack pointer of its callee.
//!
//! Where the walk starts again, it does so at one of the 40 aligned words from the stack pointer of
//! a context's frame on, or of the 30 from that of another frame.
//!
//! # The candidates
//!
//! The candidates of a walk are those that [`stack_walk`] finds for its frames and the link
//! register of the context: the link register; words from the last frame's stack pointer on; and,
//! where the caller of the first frame is by its frame pointer, words of the first frame below its
//! record. Where that caller is by rules, which say where its return address is, neither the link
//! register nor a word of the first frame is a candidate.
//!
//! [`StackFrame::lookup_address`]: stack_walk::StackFrame::lookup_address
//!
//! # What is proved
//!
//! - A walk is the one that the definition `symbol_walk_in` assigns to a stack, the symbols of the
//!   modules and a context: [`walk_by_symbols`]. Out of memory is an error, never a shorter list.
//! - Its callers are those of `AreCallers`, which is `stack_walk`'s, and the only ones: each is the
//!   caller of the frame before it, and the last frame has none: [`laws::one_list_of_callers`].
//! - A frame by rules has the instruction and the registers that the rules of its callee give:
//!   [`laws::rules_give_the_registers`].
//! - The walk ends on every stack, and its length is bounded by that of the stack:
//!   [`laws::frames_are_few`].
//! - Without symbols it is the walk of [`stack_walk`]:
//!   [`laws::without_symbols_a_walk_is_by_frame_pointers`].
#![tactic(auto)]

pub mod laws;
mod registers;
mod rules;
mod scan;
mod walk;

pub use walk::{function_at, walk_by_symbols};
