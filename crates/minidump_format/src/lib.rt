//! The records of a minidump, the types of its streams, the errors of reading one, and the calls
//! that print.
//!
//! - [`format`] has the records, enumerations and sets of flags that Microsoft's, Breakpad's,
//!   Crashpad's and Mozilla's headers define. Each record of a fixed size is a
//!   `minidump_bytes::Record`.
//! - [`Error`] is the error of reading a file or a stream, and of printing. [`stream_vendor`] names
//!   the vendor of a stream type.
//! - [`put_text`] prints a text, [`print_line_end`] a line feed. A value that appends its text to
//!   bytes is [`Pushed`]: [`print_item`] prints it, and [`print_all`] prints what an iterator
//!   yields, in blocks. [`print_numbered`] prints a [`Heading`] with the number of items of a
//!   slice, and each item after a line of a name and its index, as a [`Numbered`] value;
//!   [`print_numbered_all`] does so for an iterator.
//!
//! # Errors
//!
//! Printing returns [`Error::IoError`] where the writer has failed by then, and else
//! [`Error::OutOfMemory`]. [`put_text`] and [`print_line_end`] return the first alone; so does
//! [`print_all`] where there is no item. After either, a prefix of the text was written.
//!
//! # What is proved
//!
//! - Each record is its table of offsets and widths in `specs/`: `Record::decode` of each,
//!   `laws::records_are_as_defined`.
//! - The bytes at a location are those of the file from its RVA on, and reading them counts one
//!   step: `MINIDUMP_LOCATION_DESCRIPTOR::bytes_in`.
//! - The enumerations have the format's numbers: `MINIDUMP_STREAM_TYPE::from_u32`,
//!   `PlatformId::from_u32`, `ProcessorArchitecture::from_u16`, `XstateFeatureIndex::from_index`,
//!   `CvSignature::from_u32`, `MINIDUMP_HANDLE_OBJECT_INFORMATION_TYPE::from_u32`, and `number` of
//!   each. Each is the one that has its number: `laws::numbers_name_their_values`. The stream types
//!   have their names, whether they are read, and their vendors: `name`, `is_unimplemented`,
//!   `stream_vendor`.
//! - A set of flags contains a flag exactly where all of its bits are set, by its table: `Flags` of
//!   `MiscInfoFlags`, `ArmElfHwCaps`, `MemoryProtection`, `MemoryState`, `MemoryType`,
//!   `BreakpadInfoValid`, `ContextFlagsCpu`; `laws::flags_are_as_defined`. What their operators
//!   return, as `|`, has no contract.
//! - The enabled features of the extended state, ascending: `XSTATE_CONFIG_FEATURE_MSC_INFO::iter`.
//!   The bytes of a GUID, as RFC 9562 orders them, and its text: `uuid_of`, its `Display`.
//! - `==` holds of the same value alone and a clone is the same value: `Exact` of each type;
//!   `laws::large_records_are_exact` for records with long arrays or other records, and
//!   `laws::contexts_are_copied` for contexts, which have no `==`.
//! - The constants: `laws::header_numbers`, `file_info_numbers`, `annotation_numbers`. The name of
//!   an error: `Error::name`.
//! - A call that prints wrote all of its text, or a prefix, and returned the error above: the word
//!   `Prints` at `put_text`, `print_line_end`, `print_item`, `print_all`, `print_numbered`,
//!   `print_numbered_all`.
//!
//! What isn't: the messages of the errors, which tests show. `CV_INFO_PDB70`, `CV_INFO_PDB20` and
//! `CV_INFO_ELF` are no records: `minidump_modules` reads them.
#![tactic(auto)]

mod error;
mod exact;
pub mod format;
pub mod laws;
mod memory_text;
mod print;
mod sequence;
mod vendor;

pub use error::Error;
pub use print::{Pushed, no_memory, print_item, print_line_end, push_line_end, put_text};
pub use sequence::{Heading, Numbered, print_all, print_numbered, print_numbered_all};
pub use vendor::stream_vendor;
