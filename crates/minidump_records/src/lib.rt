//! The streams of a minidump that are lists of records or texts: names of threads, thread
//! information, handles, Crashpad's and macOS's information, boot arguments, Breakpad's
//! information, assertions, Linux texts, soft errors.
//!
//! - [`MinidumpThreadNames`] has the names of threads by their ids.
//! - [`MinidumpThreadInfoList`] has a [`MinidumpThreadInfo`] for each thread.
//! - [`MinidumpHandleDataStream`] has a [`MinidumpHandleDescriptor`] for each open handle, with its
//!   names and each [`MinidumpHandleObjectInformation`] on its object.
//! - [`MinidumpCrashpadInfo`] is Crashpad's information on a process, with a
//!   [`MinidumpModuleCrashpadInfo`] for each link to a module; a [`MinidumpAnnotation`] is the
//!   value of a named annotation.
//! - [`MinidumpBreakpadInfo`], [`MinidumpAssertion`] and [`MinidumpMacBootargs`] are one record
//!   each, [`MinidumpSoftErrors`] is one text.
//! - [`MinidumpLinuxCpuInfo`], [`MinidumpLinuxProcStatus`], [`MinidumpLinuxLsbRelease`],
//!   [`MinidumpLinuxEnviron`] and [`MinidumpLinuxProcLimits`] are texts that Linux wrote;
//!   [`LinuxPairs`] yields the pairs of one.
//! - [`MinidumpMacCrashInfo`] is what the modules of a process said of a crash on macOS: a
//!   [`RawMacCrashInfo`] for each record.
//! - [`laws`] has what holds of all this beyond single calls.
//!
//! # Errors
//!
//! Reading returns `StreamReadFailure` or `StreamSizeMismatch` if the stream is malformed,
//! `VersionMismatch` for Crashpad's information of version 0 and for a record of macOS that has
//! another version than the one before it, `DataError` for soft errors that are not UTF-8, and
//! `OutOfMemory` if an allocation fails. A name of a thread that is no text is skipped and, if its
//! RVA isn't 0, counted; one of a handle is `None`. Reading a Linux text has no error. Printing
//! returns `IoError` if the writer has failed by then, and otherwise `OutOfMemory` if an allocation
//! fails.
//!
//! # What is proved
//!
//! - The name of a thread is the last text that an entry with its id names, and `None` if there is
//!   no such text; the entries that name a text where none is, at an RVA other than 0, are counted:
//!   `MinidumpThreadNames::read`, by `thread_names_in`; `get_name`; `unreadable_names`;
//!   `laws::last_name_of_a_thread_is_kept`. A read takes at least one step for the count, for each
//!   entry and for its name.
//! - All thread information stays in the order of the file, and the last entry of an id is found:
//!   `MinidumpThreadInfoList::read`, by `thread_info_list_in`; `get_thread_info`;
//!   `laws::last_info_of_a_thread_is_found`.
//! - A handle has the names at its RVAs. A name is `None` if the RVA is 0 or no text is there. Its
//!   pieces of information are the longest chain of distinct pieces from its descriptor on:
//!   `MinidumpHandleDataStream::read`, by `handle_data_in`; `laws::object_chain_is_the_longest`,
//!   `object_chain_is_one`. A read takes at least one step for the header, for each entry, name and
//!   piece, and for the end of a chain at another RVA than 0. `OutOfMemory` comes only if the list
//!   is well formed and has entries.
//! - Crashpad's dictionaries, lists and modules are what their locations hold, or the first error
//!   in the order of the records: `MinidumpCrashpadInfo::read`, by `crashpad_info_in`;
//!   `MinidumpModuleCrashpadInfo::read`, by `module_in`. A key has its last value:
//!   `laws::dictionaries_have_the_last_values`. A read takes at least one step for each record,
//!   location, count, entry that is kept and text. Copies of annotations are the same: `try_clone`.
//!   `same_as` is no equality: `laws::an_annotation_need_not_be_the_same_as_itself`.
//! - Breakpad's information, an assertion and the boot arguments are their records, with the fields
//!   whose flags are set, the texts up to a NUL, and the text at the RVA: `breakpad_info_in`,
//!   `assertion_in`, `mac_bootargs_in`; `MinidumpAssertion::expression`, `function`, `file`. Soft
//!   errors are the stream as UTF-8: `soft_errors_in`.
//! - The records of macOS are those at the locations that the stream counts, 20 at most, without
//!   those of version 0; how many more it counts is known: `unreadable_records`. Each is read by
//!   its version, and its texts lie within its bytes: `MinidumpMacCrashInfo::read`, by
//!   `mac_crash_info_in`. A read takes at least one step for the stream, for the bytes and the head
//!   of each record, and for the fixed part and each text from version 4 on. Numbers that are 0 and
//!   empty texts are absent: the accessors of `RawMacCrashInfo`.
//! - A Linux text is its stream. Its iterator yields exactly the pairs of its lines, or the lines,
//!   and ends: `iter` of each, by `pairs_of`; `LinuxPairs::next`.
//! - Streams whose value depends on their bytes and the byte order alone:
//!   `laws::streams_depend_on_their_bytes_alone`. Copies are the same: `try_clone`,
//!   `laws::breakpad_info_clones_are_the_same`.
//! - The length of the file bounds how many handles there are, how many pieces of information on an
//!   object, how many links to modules, and how many texts in the list of a module:
//!   `laws::values_are_bounded_by_the_file`.
//! - Each read takes at most n + 7 steps, where n is the length of the stream or of the file,
//!   whichever is longer; of handles and of Crashpad's information at most (n + 8)² - 1: `most` of
//!   each table. Of the latter, the information that a link names takes at most 2n + 16:
//!   `most_of_link`.
//! - Handles, thread information, thread names, assertions and Breakpad's information print the
//!   text of their value, thread names ascending by the ids of the threads: `print` of each, by
//!   `handle_data_text`, `handle_text`, `thread_info_list_text`, `thread_info_text`,
//!   `thread_names_text`, `assertion_text`, `breakpad_info_text`.
//! - Crashpad's information, the crash information and the boot arguments of macOS, Linux texts and
//!   soft errors print their texts: `print` of each, by `crashpad_info_text`,
//!   `mac_crash_info_text`, `mac_bootargs_text`, `linux_pairs_text`, `linux_proc_limits_text`,
//!   `soft_errors_text`.
//!
//! It is not proved that a forged count reserves no memory. The contracts show that no
//! `OutOfMemory` is returned because of one, with two exceptions: Crashpad's lists, which grow
//! entry by entry, and the count of records on macOS, of which at most 20 are read.
#![tactic(auto)]

mod assertion;
mod boot_args;
mod breakpad_info;
mod crashpad;
mod handles;
pub mod laws;
mod linux;
mod mac_crash_info;
mod soft_errors;
mod thread_info;
mod thread_names;

pub use assertion::MinidumpAssertion;
pub use boot_args::MinidumpMacBootargs;
pub use breakpad_info::MinidumpBreakpadInfo;
pub use crashpad::{MinidumpAnnotation, MinidumpCrashpadInfo, MinidumpModuleCrashpadInfo};
pub use handles::{
    MinidumpHandleDataStream, MinidumpHandleDescriptor, MinidumpHandleObjectInformation,
    RawHandleDescriptor,
};
pub use linux::{
    LinuxPairs, MinidumpLinuxCpuInfo, MinidumpLinuxEnviron, MinidumpLinuxLsbRelease,
    MinidumpLinuxProcLimits, MinidumpLinuxProcStatus,
};
pub use mac_crash_info::{MinidumpMacCrashInfo, RawMacCrashInfo};
pub use soft_errors::MinidumpSoftErrors;
pub use thread_info::{MinidumpThreadInfo, MinidumpThreadInfoList};
pub use thread_names::MinidumpThreadNames;
