//! The modules of a minidump, loaded and unloaded, and the identifiers that symbol tools know them
//! by.
//!
//! - [`MinidumpModuleList`] is the list of loaded modules, with lookups by address;
//!   [`MinidumpModule`] is one of them, with its name and its [`CodeView`] record.
//! - [`MinidumpUnloadedModuleList`] and [`MinidumpUnloadedModule`] are the same of unloaded
//!   modules, which may overlap: [`ModulesAtAddress`] yields each that contains an address.
//! - [`Module`] is what both are known by: names, version, [`CodeId`] and [`DebugId`].
//!
//! # Errors
//!
//! Reading a list returns `StreamReadFailure` or `StreamSizeMismatch` where the stream is
//! malformed, `CodeViewReadFailure` for a malformed name or CodeView record of a loaded module,
//! `ModuleReadFailure` for an unloaded module without addresses, `DataError` for a malformed name
//! of one, and `OutOfMemory` where an allocation fails. A loaded module without addresses is
//! skipped and counted, its name and its record unread. Printing returns `IoError` where the writer
//! has failed by then, else `OutOfMemory` where an allocation fails.
//!
//! # What is proved
//!
//! - Each list has the modules that the format assigns to its stream, in its order, or returns the
//!   error that it assigns, in at most n + 7 reads, where n is the length of the stream or of the
//!   file, whichever is longer, and at least one for the count and for each entry and name, and for
//!   the span, the signature and each field of a CodeView record: `MinidumpStream::read` of both
//!   lists, by `module_list_in` and `unloaded_module_list_in`. The number of entries without
//!   addresses is theirs: `entries_without_addresses`. One module by its entry:
//!   `MinidumpModule::read`, by `read_module`; `MinidumpUnloadedModule::read`, by `read_unloaded`.
//! - The identifiers, the debug file and the version are those of the CodeView record, the system,
//!   the build id and the version record: the functions of `Module`, by `identity_of` and
//!   `unloaded_identity`: `laws::modules_are_identified_as_defined`. Their texts: `CodeId::new`,
//!   `from_binary`, `Display`; `DebugId::from_breakpad`, `Display`, and `breakpad` with the
//!   `Display` of [`BreakpadFormat`], by `breakpad_text`; `from_breakpad` reads that of a GUID
//!   back: `laws::breakpad_texts_are_read_back`.
//! - A lookup returns the kept module, by the rule of [`minidump_index`], that contains the
//!   address: `module_at_address`, and `module_at_address_counted`, which compares it with at most
//!   as many modules as the number of kept ones has binary digits; with its index in the list:
//!   `numbered_module_at_address`. The kept ones by address, from both ends: `by_addr`. How these
//!   fit together: `laws::region_laws`.
//! - Of unloaded modules all that contain an address are returned, by start, then by end, then by
//!   index: `modules_at_address`, by `AreAt`; all that have a range: `by_addr`, by `IsByStart`.
//!   There is one such order and one such answer, each with exactly these modules, ascending:
//!   `laws::unloaded_laws`.
//! - A copy is the same module, record or list: each `try_clone`. `==` of `DebugId` holds of equal
//!   values alone: `Exact`; of `CodeId` of equal digits: `laws::code_ids_compare_by_their_digits`.
//! - Each print, byte by byte: `print` of the modules and of their lists, by `module_text`,
//!   `unloaded_text`, `module_list_text` and `unloaded_module_list_text`.
//!
//! It is not proved that a forged count reserves no memory. The contracts show that no
//! `OutOfMemory` is returned for it.
#![tactic(auto)]

mod code_id;
mod code_view;
mod debug_id;
mod identity;
pub mod laws;
mod module;
mod module_list;
mod print;
mod text;
mod unloaded_iter;
mod unloaded_module;
mod unloaded_module_list;
mod unloaded_order;
mod version;

pub use code_id::CodeId;
pub use code_view::CodeView;
pub use debug_id::{BreakpadFormat, DebugId};
pub use identity::Module;
pub use module::MinidumpModule;
pub use module_list::MinidumpModuleList;
pub use unloaded_iter::{ModulesAtAddress, UnloadedModulesByAddress};
pub use unloaded_module::MinidumpUnloadedModule;
pub use unloaded_module_list::MinidumpUnloadedModuleList;
