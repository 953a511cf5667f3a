//! The bytes of records.
mod breakpad;
mod context;
mod crashpad;
mod exception;
mod handle;
mod header;
mod mac;
mod memory;
mod memory_info;
mod misc;
mod module;
mod plain;
mod system;
mod thread;

ghost use Rattle.std.specs.Prelude.{◌≤◌};

use crate::Section;
use minidump_bytes::{Endian, Record};

/// A value that has bytes in a minidump.
pub trait Encode {
    /// Appends the value's bytes, in the section's byte order.
    fn encode(&self, into: &mut Section);
}

// More than any record has.
static ZEROS: [u8; 4096] = [0; 4096];

/// Returns the record of zeros, for literals as
/// `MINIDUMP_DIRECTORY { stream_type: 7, ..zeroed() }`.
pub fn zeroed<R: Record>() -> R
    requires { R.SIZE ≤ 4096 }
{
    R::decode(&ZEROS[..R::SIZE], Endian::Little)
}
