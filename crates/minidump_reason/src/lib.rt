//! Crash reasons: what an exception record says, with the names of codes in the caller's own lists.
//!
//! - [`CrashReason`] is a reason, as codes. Its `from_` functions find the reason for an exception
//!   record or an error code. [`CrashReason::text`] returns its text, [`CrashReason::write_to`]
//!   writes it.
//! - [`CodeNames`] holds the names of codes, in one borrowed, sorted list for each [`CodeFamily`].
//!   A code is known exactly where the list of its family has it.
//!
//! # Errors
//!
//! [`CodeNames::new`] returns a [`CodeNamesError`]. `write_to` returns `IoError` if the writer has
//! failed, and otherwise `OutOfMemory` if an allocation fails; `text` returns `OutOfMemory` if an
//! allocation fails. No other call takes memory.
//!
//! # What is proved
//!
//! - A reason is the row of the decision table that its system, its processor, its exception record
//!   and the listed codes pick: `CrashReason::from_exception`, by `crash_reason`, and each other
//!   `from_` function by its part of the table.
//! - The text is that of the reason, for any lists, with each unlisted code in hexadecimal:
//!   `CrashReason::write_to` and `text`, by `reason_text`.
//! - `CodeNames::new` returns `Ok` exactly if each list is strictly ascending and no family comes
//!   twice. Otherwise it returns the error of the first list that breaks this, `Repeated` if both
//!   apply: by `AreCodeNames` and `IsFirstListError`.
//! - A code has the name that its family's list holds beside it, and a code of more than 32 bits is
//!   in no list: `laws::codes_have_their_listed_names`, `wide_codes_are_unlisted`.
//! - Reasons, errors and families are equal where they are the same, and copies are the same:
//!   `laws::reasons_compare_and_copy_exactly`, `errors_compare_and_copy_exactly`.
//!
//! It is not proved that a code is found by binary search, since any search meets the contract, nor
//! where memory may run out within a text.
#![tactic(auto)]

mod bits;
mod family;
mod flavor;
mod guard;
pub mod laws;
mod linux;
mod mac;
mod names;
mod reason;
mod resource;
mod text;
mod windows;

pub use family::CodeFamily;
pub use names::{CodeNames, CodeNamesError};
pub use reason::CrashReason;
