//! The streams of a minidump, each read once, and what the record of an exception says by itself.
//!
//! - [`read_contents`] reads them into [`Contents`], which has each as the format has it: the stream,
//!   or the error for which there is none. Of the exceptions it has those of all entries of the
//!   directory. [`SpaceStreams`] chooses between the lists of memory, and between the lists of what is
//!   known of its regions.
//! - [`description_of`], [`access_of`] and [`sender_of`] say what the record of an exception holds
//!   beside its code, [`lacks_address`] and [`may_be_instruction`] what its address is,
//!   [`crash_address`] that address. [`ending_signal`] and [`mac_signal_name`] say by which signal a
//!   process of macOS ended, [`has_signal_codes`] whether the flags of such a record are known to be
//!   a signal's code.
//!
//! `crash_process` says what the streams tell of the process and its modules, `crash_threads` of its
//! threads and the crash.
//!
//! # Errors
//!
//! `OutOfMemory` alone, if an allocation fails. A stream that is missing or malformed is no error: its
//! own error stands in its place.
//!
//! # What is proved
//!
//! - The streams are those that the definition `contents_in` assigns to the dump: [`read_contents`].
//! - The other calls have no laws. The contract of each equates its result with the definition that it
//!   names.
#![tactic(auto)]

mod contents;
mod records;
mod texts;

pub use contents::{
    Contents, MessageStreams, ProcessStreams, SpaceStreams, SystemStreams, ThreadStreams,
    annotation_text, error_of, has_signal_codes, is_missing, read_contents, regions_of,
    unloaded_entries,
};
pub use records::{
    Access, Sender, SignalCode, access_of, crash_address, description_of, ending_signal,
    lacks_address, mac_signal_name, may_be_instruction, parameters_of, sender_of,
};
pub use texts::owned_text;
