//! Names of codes, from a text: lines `FAMILY NUMBER NAME`, as in the files of `names/`.
//!
//! - [`NameTable`] holds the names of a text, borrowed from it.
//! - [`NameLists`] borrows the lists of a table, and lends them as
//!   [`CodeNames`](minidump_reason::CodeNames), which `minidump` takes wherever it names a code.
//! - [`listing_in`] reads one line, for a program that puts several texts together.
//!
//! ```text
//! # Exceptions of Windows, and the kinds of access of the first of them.
//! Windows 0xc0000005 EXCEPTION_ACCESS_VIOLATION
//! WindowsAccess 0 READ
//! ```
//!
//! # Errors
//!
//! [`NameTable::read`] returns a [`NamesError`]: what is wrong with the first line that has an
//! error, or `OutOfMemory` if an allocation fails. `lists` fails only if an allocation fails.
//! `code_names` takes no memory.
//!
//! # What is proved
//!
//! - A table has, for each family, the codes and the names that the lines of the text list, in
//!   their order: `NameTable::read`, by `IsNames`. The lists and the lent names are the same:
//!   `NameTable::lists`, `NameLists::code_names`.
//! - An error of a text is that of its first malformed line: one that is no line of names, or whose
//!   number is not above each earlier one of its family. The error has the number of that line:
//!   `NameTable::read`, by `IsNamesTextError`.
//! - A line lists what its grammar says: `listing_in`, `laws::lines_are_the_grammar`.
//!
//! What isn't: where memory may run out.
#![tactic(auto)]

mod error;
mod family;
pub mod laws;
mod line;
mod table;
mod text;

pub use error::NamesError;
pub use family::family_name;
pub use line::{Listing, listing_in};
pub use table::{NameLists, NameTable};
