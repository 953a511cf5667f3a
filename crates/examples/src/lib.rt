//! Examples of callers of `minidump`, each a module that needs no crate below it:
//!
//! - [`region_at`]: the region of memory that contains an address. The README quotes it.
//! - [`thread_ids`]: the ids of the threads, a call over a list, of bytes or of a file.
//! - [`own_stream`]: a stream whose type is the caller's own.
//! - [`public_values`]: the value of each type of stream with private fields, by public calls
//!   alone.
//!
//! # What is proved
//!
//! Each call of the first three returns the value or the error that a definition of `specs/`
//! assigns to the bytes, as the page of its module says; each of the last one the value of a
//! stream's table.
#![tactic(auto)]

pub mod own_stream;
pub mod public_values;
pub mod region_at;
pub mod thread_ids;
