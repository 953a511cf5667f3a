//! How a stream of a dump is read.

use minidump::{Error, Minidump, MinidumpStream};
use std::alloc::Global;

// The stream of a dump.
pub(crate) fn stream_of<'a, S: MinidumpStream<'a>>(
    alloc: Global,
    bytes: &'a [u8],
) -> Result<S, Error> {
    Minidump::read(alloc, bytes)?.get_stream(alloc)
}
