//! What the streams of a minidump say of a crash: the exceptions, the threads, and where the thread
//! that crashed stands.
//!
//! - [`CrashCause`] has the exceptions, with the text that LLDB writes in them, and the address of the
//!   crash.
//! - [`CrashThreads`] has the threads with their registers and frames.
//! - [`CrashPoint`] has the code and the words of the stack where the thread that crashed stands, what
//!   is known of the value of each of its registers as an address, and which flags of its processor are
//!   set.
//!
//! The exception that counts is the last that can be read and whose code isn't 0, else the last that
//! can be read. The address of the crash is its address. The thread that crashed is the last of its
//! id. Its registers are those of the exception's context, if that is whole, else of the thread's own,
//! if that is. A context that its writer cut after the general registers, as LLDB does, gives these
//! where neither is whole, the exception's first: [`ShortContext`]. If the list of threads lacks
//! the thread, it follows the others, with the registers and the frames of the exception's context
//! alone.
//!
//! A frame's place in a module is the index of the module in its list, and the offset in it. The
//! frames by frame pointers stand apart from the words of the stack that may be return addresses.
//!
//! # Errors
//!
//! If an allocation fails, `OutOfMemory`; of calls without another error, `AllocError`. What a stream
//! that can't be read would say is absent.
//!
//! # What is proved
//!
//! - The cause, the threads and the point are those of `cause_in`, `threads_in` and `point_in`:
//!   [`cause_of`], [`threads_of`], [`point_of`].
//! - The last exception, thread or unloaded module that meets a test is the one after which none does:
//!   [`laws`].
//! - The other calls have no laws. The contract of each equates its result with the definition that it
//!   names.
#![tactic(auto)]

mod addresses;
mod cause;
mod contexts;
mod frames;
mod last;
pub mod laws;
mod point;
mod stacks;
mod threads;

pub use addresses::{AddressFacts, AddressMemory, MemoryRights};
pub use cause::{CrashCause, CrashException, cause_of};
pub use contexts::{ContextOrigin, ContextProblem, CrashContext, ShortContext, unaccepted_size};
pub use frames::{CrashFrame, CrashWalk};
pub use point::{CrashPoint, StackWord, point_of};
pub use stacks::StackRange;
pub use threads::{CrashThread, CrashThreads, threads_of, walked_at};
