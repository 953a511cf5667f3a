use crate::assert_text;
use minidump_format::Error;
use std::alloc::AllocError;

const SIZE: Error = Error::StreamSizeMismatch {
    expected: 20,
    actual: 25,
};

#[rattlefmt::skip]
const ERRORS: &[Error] = &[
    Error::FileNotFound, Error::IoError, Error::MissingHeader, Error::HeaderMismatch, Error::VersionMismatch,
    Error::MissingDirectory, Error::StreamReadFailure, SIZE, Error::StreamNotFound, Error::ModuleReadFailure,
    Error::MemoryReadFailure, Error::DataError, Error::CodeViewReadFailure, Error::UknownElementType,
    Error::OutOfMemory,
];

// The name and the message of each.
const SHOWN: &str = "\
FileNotFound: File not found
IoError: I/O error
MissingHeader: Missing minidump header (empty minidump?)
HeaderMismatch: Header mismatch
VersionMismatch: Minidump version mismatch
MissingDirectory: Missing stream directory (heavily truncated minidump?)
StreamReadFailure: Error reading stream
StreamSizeMismatch: Stream size mismatch: expected 20 bytes, found 25 bytes
StreamNotFound: Stream not found
ModuleReadFailure: Module read failure
MemoryReadFailure: Memory read failure
DataError: Data error
CodeViewReadFailure: Error reading CodeView data
UnknownElementType: Uknown element type
OutOfMemory: Out of memory
";

fn push_errors(out: &mut String) -> Result<(), AllocError> {
    for error in ERRORS {
        write!(out, "{}: {error}\n", error.name())?;
    }
    Ok(())
}

#[test]
fn shows_errors(rt: HostRuntime) {
    let mut found = String::new(rt.alloc());
    let _ = push_errors(&mut found);
    assert_text(&rt, found.as_str(), SHOWN);
}
