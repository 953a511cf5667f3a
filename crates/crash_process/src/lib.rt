//! What the streams of a minidump say of its directory, of the process and its system, and of the
//! modules.
//!
//! - [`CrashDirectory`] has the entries that decide, each with the error of its stream.
//! - [`CrashProcess`] has the process and the system on which it ran.
//! - [`CrashModules`] has the modules, and their order by address.
//! - [`variables_of`] and [`limits_of`] read the environment and the limits of a process of Linux.
//!
//! # Errors
//!
//! If an allocation fails, `OutOfMemory`; of calls without another error, `AllocError`. What a stream
//! that can't be read would say is absent.
//!
//! # What is proved
//!
//! - The directory, the process and the modules are those of `directory_in`, `process_in` and
//!   `modules_in`: [`directory_of`], [`process_of`], [`modules_of`].
//! - The entry of the exception has the error of its stream, though all exceptions are read at
//!   once: [`laws`].
//! - [`CrashModules::by_address`] has the index of each module once, ascending by base address, then
//!   by index: [`laws::modules_are_by_address`].
//! - [`CrashProcess::handle_kinds`] has each name of a type that a handle has once, ascending by its
//!   bytes, with the number of handles that have it: [`laws::handles_are_counted_by_type`].
//! - The other calls have no laws. The contract of each equates its result with the definition that it
//!   names.
#![tactic(auto)]

mod directory;
mod handle_kinds;
pub mod laws;
mod linux;
mod modules;
mod process;
mod process_texts;
mod unreadable_modules;

pub use directory::{CrashDirectory, StreamEntry, directory_of};
pub use handle_kinds::HandleKind;
pub use linux::{LsbRelease, ProcessLimit, limits_of, variables_of};
pub use modules::{CrashModule, CrashModules, UnloadedModule, file_name, modules_of};
pub use process::{CrashProcess, CrashSystem, process_of};
pub use process_texts::Comments;
pub use unreadable_modules::{ModulePart, UnreadableModule};
