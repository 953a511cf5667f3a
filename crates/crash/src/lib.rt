//! What a minidump says of a crash, as one value: [`Crash`].
//!
//! [`Crash::read`] reads the streams, and finds in them which exception counts, where and why the
//! process crashed, its threads, its modules, and what of the dump can't be read. Text, JSON and
//! tables can be made of this value alone, without looking up a name of a code or an address, and
//! without reading a stream again.
//!
//! - [`Contents`] has the streams, as [`crash_streams`] reads them.
//! - [`CrashDirectory`] has the entries of the directory, [`CrashProcess`] the process and the system
//!   on which it ran, and [`CrashModules`] the modules, as [`crash_process`] finds them.
//! - [`CrashCause`] has the exceptions and the address of the crash, [`CrashThreads`] the threads, and
//!   [`CrashPoint`] where the thread that crashed stands, as [`crash_threads`] finds them.
//! - [`Damage`] is something that is there and can't be read. [`status_of`] is the status with which
//!   a dump ends a program.
//!
//! This crate passes on the types of those crates, and the calls on them.
//!
//! # Errors
//!
//! The error of [`minidump::Minidump::read`], else `OutOfMemory`. A stream that is missing or
//! malformed is no error: its own error stands in its place.
//!
//! # What is proved
//!
//! - The crash is the one that the definition `crash_in` assigns to the bytes and to the names of
//!   codes, and so is each error, but for `OutOfMemory`: [`Crash::read`].
//! - The status is that of the definition of its name: [`status_of`].
//! - The laws of the definitions are those of `crash_process` and of `crash_threads`: [`laws`].
//! - The calls on parts of a crash, such as [`annotation_text`], [`regions_of`] and
//!   [`CrashThread::short_context`], have no laws. The contract of each equates its result with the
//!   definition that it names.
#![tactic(auto)]

mod crash;
mod damage;

pub use crash::{Crash, status_of};
pub use crash_process::{
    Comments, CrashDirectory, CrashModule, CrashModules, CrashProcess, CrashSystem, HandleKind,
    LsbRelease, ModulePart, ProcessLimit, StreamEntry, UnloadedModule, UnreadableModule, file_name,
    limits_of, variables_of,
};
pub use crash_streams::{
    Access, Contents, MessageStreams, ProcessStreams, Sender, SignalCode, SpaceStreams,
    SystemStreams, ThreadStreams, annotation_text, is_missing, regions_of,
};
pub use crash_threads::{
    AddressFacts, AddressMemory, ContextOrigin, ContextProblem, CrashCause, CrashContext,
    CrashException, CrashFrame, CrashPoint, CrashThread, CrashThreads, CrashWalk, MemoryRights,
    ShortContext, StackRange, StackWord, unaccepted_size,
};
pub use damage::Damage;

/// Laws of the definitions.
pub mod laws {
    pub use crash_process::laws::the_last_exception_has_the_error_of_the_stream;
    pub use crash_threads::laws::the_last_index_is_that_of_the_last_chosen;
}
