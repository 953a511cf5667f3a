//! Builds minidumps for tests, so that a test states records instead of bytes. Also has readers and
//! writers that move one byte a call, fail at a call, or take nothing. It is for tests alone.
//!
//! ```
//! let mut dump = SynthMinidump::new(alloc, Endian::Little);
//! let text = dump.add_text16("Linux 5.0.0");
//! let info = MINIDUMP_SYSTEM_INFO { csd_version_rva: text, ..zeroed() };
//! dump.add_stream(MINIDUMP_STREAM_TYPE::SystemInfoStream as u32, &info);
//! dump.add_stream(0x1122_3344, dump.section().u32(1).cstring("a"));
//! let bytes = dump.finish()?;
//! ```
//!
//! - [`SynthMinidump`] builds a dump: header, what was added, directory.
//! - [`every_stream`] is a dump with a stream of each type that is read.
//! - [`ONE_STREAM`] is a dump written by hand, and [`one_stream_with_byte`] the dump with another
//!   byte.
//! - [`Section`] is bytes that grow, with a byte order, and [`BOTH`] has the two orders. [`Encode`]
//!   is what has bytes in a minidump, and [`zeroed`] the record of zeros.
//! - [`OneByte`], [`FailsAt`] and [`TakesNone`] are readers and writers.
//!
//! # Errors
//!
//! `finish` and [`every_stream`] return `AllocError` where an allocation failed. No other call
//! reports that.
//!
//! # What is proved
//!
//! That every call is safe and returns. What the bytes are, tests show: each record is written back
//! as the bytes that it was read from, in both byte orders.
#![tactic(auto)]

mod device;
mod dump;
mod encode;
mod every;
mod memory;
mod one_stream;
mod section;

pub use device::{FailsAt, OneByte, TakesNone};
pub use dump::SynthMinidump;
pub use encode::{Encode, zeroed};
pub use every::every_stream;
pub use memory::OVERLAPPING;
pub use one_stream::{ONE_STREAM, one_stream_with_byte};
pub use section::{BOTH, Section};
