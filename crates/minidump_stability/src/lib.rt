//! The stability report that Chromium keeps in its dumps: messages in the wire format of Protocol
//! Buffers.
//!
//! - [`StabilityReport`] is the stream, which `Minidump::get_stream` reads by its type.
//! - [`ProcessState`] and [`SystemMemoryState`] are its messages, and [`process_state`] and
//!   [`system_memory_state`] have theirs. Each field may be absent.
//!
//! # Errors
//!
//! A read returns `DataError` where the bytes of the stream, or of a message in it, aren't fields
//! one after another, or where a known field has another wire type, and `OutOfMemory` where an
//! allocation fails. A print returns `IoError` where its writer has failed by then, else
//! `OutOfMemory` where an allocation fails.
//!
//! # What is proved
//!
//! - A stream has the report that its fields mean, or `DataError`: a number has its last value,
//!   occurrences of a nested message are merged, those of a repeated one are listed, and
//!   other fields are skipped: `StabilityReport::read`, by `stability_report_in`;
//!   `laws::fields_are_what_bytes_spell`, `report_is_what_its_fields_mean`.
//! - It depends on its stream alone: `laws::report_depends_on_its_stream_alone`.
//! - A read takes at most n + 7 steps, where n is the length of the stream or of the file,
//!   whichever is longer, and, where it succeeds, at least one for each field, nested ones
//!   included: `most` and `fewest` of `stability_report_stream`.
//! - A line is printed for each number that the report has: `StabilityReport::print`, by
//!   `stability_report_text`.
//! - A copy is the same report, and reports are equal where they hold the same:
//!   `StabilityReport::try_clone`, `laws::reports_compare_by_what_they_hold`; each message copies
//!   and compares exactly.
//! - Memory may run out only where a process state is among the fields that the stream begins with:
//!   `memory` of `stability_report_stream`.
#![tactic(auto)]

pub mod laws;
mod message;
pub mod process_state;
mod report;
mod report_print;
pub mod system_memory_state;

pub use report::{ProcessState, StabilityReport, SystemMemoryState};
