//! Reads minidumps, the crash files that Windows, Breakpad and Crashpad write.
//!
//! - [`Minidump`] is a dump: `read` takes its bytes, `read_from` a reader, `read_path` a path.
//!   `header` and `endian` are its fields.
//! - `get_stream` reads a stream by its type: each type below that implements [`MinidumpStream`],
//!   as [`MinidumpSystemInfo`], [`MinidumpModuleList`] or [`MinidumpThreadNames`], or a caller's
//!   own, of any number. `get_raw_stream` lends the bytes of any stream, `get_memory` the memory of
//!   the dump by either list.
//! - [`MinidumpThread`] has the context, the stack and the last error of a thread,
//!   [`MinidumpException`] the address and the reason of the crash.
//! - [`CrashReason`] is why a process crashed, in the words of the caller's own lists of names.
//! - [`MinidumpContext`] decodes the registers of a thread from the bytes of its context.
//! - `all_streams`, `unknown_streams` and `unimplemented_streams` list the streams. `print` writes
//!   the header and the directory.
//! - [`write_report`] writes all that is read of a dump. [`read_all`] reads any [`ToldReader`] to
//!   its end, [`read_file`] the file of a path, which an [`OpenPath`] opens.
//! - [`laws`] states what follows from the definitions, apart from any single call.
//!
//! # Errors
//!
//! `read` returns the first of `MissingHeader`, `HeaderMismatch`, `VersionMismatch` and
//! `MissingDirectory` that holds, or `OutOfMemory`; `read_from` also `IoError`, and `read_path`
//! also `FileNotFound` and `IoError`. Reading a stream returns `StreamNotFound` if the directory
//! has no entry of its type, `StreamReadFailure` if its bytes are not all in the file, else the
//! errors of its type.
//!
//! # What is proved
//!
//! - Which files are dumps, and the error of every other: `Minidump::read`, by `dump_in`.
//!   `OutOfMemory` only where the file is a dump whose directory has an entry. One read at least
//!   and at most n + 8 for n bytes, however it ends, and at least `least_reads` where it succeeds:
//!   `read_counted`.
//! - The last entry of a type decides its bytes, and what `get_stream` returns: `get_raw_stream`;
//!   `laws::last_entry_decides`, `last_entry_decides_the_bytes`, `last_entry_decides_the_stream`.
//! - A stream is what its type assigns to its bytes, the file, the byte order and the dump's system
//!   information, which is present exactly where its own stream parses; at most one read more than
//!   the type takes: `get_stream`, `get_stream_counted`. The same, with `OutOfMemory` apart from
//!   the errors of the stream: `try_stream`, `try_stream_counted`; with `None` for a stream that is
//!   missing or malformed: `find_stream`, `find_stream_counted`. Each type that is read:
//!   `laws::streams_are_read_as_promised`. What contexts, modules and `Display` state of themselves
//!   is as defined: `laws::contexts_are_as_defined`, `modules_are_identified_as_defined`,
//!   `texts_are_as_defined`.
//! - The exceptions of all entries of their type, each read or its error: `exceptions`, by
//!   `exceptions_in`. The last is the stream: `laws::last_exception_is_the_stream`.
//! - The memory is the 64-bit list, else, where that is missing or malformed, the memory list:
//!   `get_memory`, by `memories_of_dump`. `OutOfMemory` is no reason to take the other list.
//! - A directory without entries has no stream and no memory, so that no read of either is
//!   `OutOfMemory` there: `get_stream`, `find_stream`, `get_memory`;
//!   `laws::a_found_stream_has_an_entry`, `found_memory_has_an_entry`.
//! - The threads, in the order of the file, each with the bytes of its context and its stack:
//!   `laws::streams_are_read_as_promised`, by `thread_list_in`; the last one of an id:
//!   `get_thread`, `laws::one_last_thread`. A context: `MinidumpThread::context`,
//!   `MinidumpException::context`. A stack is the thread's own, else a region of the list:
//!   `stack_memory`. The last error: `last_error`. The address and the reason of a crash:
//!   `get_crash_address`, `get_crash_reason`. The printed texts, with contexts and stacks: `print`
//!   of these types, by `thread_text`, `thread_list_text` and `exception_text`.
//! - The deciding entries, ascending by type: `all_streams`; `laws::listed_streams_ascend`,
//!   `listed_streams_decide`. Those without a name, and those that are never read:
//!   `unknown_streams`, `unimplemented_streams`. The printed text: `print`.
//! - The report is the text that `report_text` assigns to the dump and the names: all of it on
//!   `Ok`, a prefix on `Err`. Of bytes that are no dump nothing is written: `write_report`, by
//!   `Reports`.
//! - On `Ok` the vector holds all bytes that the reader had left, if its contract names them; on
//!   `Err` it is empty. The error is `IoError` exactly if the reader has failed by then, else
//!   `OutOfMemory`: `read_all`. The minidump is the one that these bytes are, and each other error
//!   is theirs: `read_from`, by `ReadsFrom`.
//! - The bytes are those of the file that the path opened, from its start; `FileNotFound` comes
//!   only where it opened none, and `IoError` only where a read failed: `read_file`, by
//!   `ReadsFile`, which also says what is left in the vector, and `read_path`, by `ReadsPath`.
//!
//! What isn't: what the open of [`std::rt::Files`] returns, of which its contract says nothing. A
//! contract can't say what `read_from` and `read_path` leave in the vector that their result
//! borrows: call [`read_all`] or [`read_file`], and then `read`.
#![tactic(auto)]

mod crash;
mod directory;
mod dump;
mod each_stream;
mod exception;
mod exceptions;
mod file;
mod header;
pub mod laws;
mod memory;
mod print;
mod reader;
mod report;
mod section;
mod shared;
mod stream;
mod streams;
mod system;
mod thread;
mod thread_list;

pub use dump::Minidump;
pub use exception::MinidumpException;
pub use file::read_file;
pub use reader::{OpenPath, ToldReader, read_all};
pub use report::write_report;
pub use streams::{
    MinidumpImplementedStream, MinidumpUnimplementedStream, MinidumpUnknownStream, Streams,
    UnimplementedStreams, UnknownStreams,
};
pub use thread::MinidumpThread;
pub use thread_list::MinidumpThreadList;

// What the crates below have.
pub use minidump_bytes::{
    DeviceFailed, Endian, FixedRead, Readable, Record, Source, Steps, Told, WireField, WireValue,
    probe, write_bytes,
};
pub use minidump_context::{
    ContextError, ContextRegisters, CpuContext, CpuRegisterNames, CpuRegisters, MinidumpContext,
    MinidumpContextValidity, MinidumpRawContext, RegisterNumber,
};
pub use minidump_format::{Error, format, stream_vendor};
pub use minidump_index::{AddressIndex, ByAddress, Range, Region, RegionsByAddress};
pub use minidump_memory::{
    MMPermissions, MMapPath, MemoryMap, MinidumpLinuxMapInfo, MinidumpLinuxMaps, MinidumpMemory,
    MinidumpMemory64, MinidumpMemory64List, MinidumpMemoryBase, MinidumpMemoryInfo,
    MinidumpMemoryInfoList, MinidumpMemoryList, MinidumpMemoryListBase, UnifiedMemory,
    UnifiedMemoryByAddress, UnifiedMemoryInfo, UnifiedMemoryInfoByAddress, UnifiedMemoryInfoIter,
    UnifiedMemoryInfoList, UnifiedMemoryIter, UnifiedMemoryList,
};
pub use minidump_modules::{
    BreakpadFormat, CodeId, CodeView, DebugId, MinidumpModule, MinidumpModuleList,
    MinidumpUnloadedModule, MinidumpUnloadedModuleList, Module, ModulesAtAddress,
    UnloadedModulesByAddress,
};
pub use minidump_reason::{CodeFamily, CodeNames, CodeNamesError, CrashReason};
pub use minidump_records::{
    LinuxPairs, MinidumpAnnotation, MinidumpAssertion, MinidumpBreakpadInfo, MinidumpCrashpadInfo,
    MinidumpHandleDataStream, MinidumpHandleDescriptor, MinidumpHandleObjectInformation,
    MinidumpLinuxCpuInfo, MinidumpLinuxEnviron, MinidumpLinuxLsbRelease, MinidumpLinuxProcLimits,
    MinidumpLinuxProcStatus, MinidumpMacBootargs, MinidumpMacCrashInfo, MinidumpModuleCrashpadInfo,
    MinidumpSoftErrors, MinidumpThreadInfo, MinidumpThreadInfoList, MinidumpThreadNames,
    RawHandleDescriptor, RawMacCrashInfo,
};
pub use minidump_stability::{
    ProcessState, StabilityReport, SystemMemoryState, process_state, system_memory_state,
};
pub use minidump_system::{
    MinidumpMiscInfo, MinidumpStream, MinidumpSystemInfo, RawMiscInfo, date_text,
};

/// Text that is made out of pieces, and printed.
pub mod text {
    pub use minidump_bytes::{Piece, format_pieces, push_pieces};
    pub use minidump_format::{Pushed, no_memory, print_item, put_text};
}

/// Texts of Linux, which need not be UTF-8.
pub mod strings {
    pub use minidump_bytes::{Lines, LinuxOsStr, LinuxOsString, Split, SplitAsciiWhitespace};
}

/// What a caller's own type of stream may be read by, beside [`Source`] and [`Record`]: framings of
/// lists, and regions with lookups.
pub mod own_streams {
    pub use minidump_bytes::{Entries, Exact, array_at, before_nul, copy_text, text_before_nul};
    pub use minidump_index::RegionList;
    pub use minidump_system::framing;
}

/// The names of operating systems and processors.
pub mod system_info {
    pub use minidump_system::{Cpu, Os, PointerWidth};
}
