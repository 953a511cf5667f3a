ghost use Rattle.std.specs.Prelude.{◌≡◌};
ghost use Rattle.minidump_format.specs.Error.{name_of_error};

use std::alloc::{AllocError, AllocFailed};
use thiserror::Error;

/// The error of reading or printing a minidump or a part of it.
#[derive(Clone, Copy, Debug, PartialEq, Eq, Error)]
pub enum Error {
    /// The file could not be opened.
    #[error("File not found")]
    FileNotFound,
    /// A read of the file, or a write of the output, failed.
    #[error("I/O error")]
    IoError,
    /// The file is shorter than a header.
    #[error("Missing minidump header (empty minidump?)")]
    MissingHeader,
    /// The file does not begin with the signature, in either byte order.
    #[error("Header mismatch")]
    HeaderMismatch,
    /// The version of the header, or of a record, is not one that is read, or differs from that of
    /// the record before.
    #[error("Minidump version mismatch")]
    VersionMismatch,
    /// An entry of the directory is not in the file.
    #[error("Missing stream directory (heavily truncated minidump?)")]
    MissingDirectory,
    /// A part of a stream, or the span that the directory gives it, is not in the file, or is
    /// malformed.
    #[error("Error reading stream")]
    StreamReadFailure,
    /// The count of a list doesn't fit the length of the stream, or asks for more bytes than the
    /// file has.
    #[error("Stream size mismatch: expected {expected} bytes, found {actual} bytes")]
    StreamSizeMismatch {
        /// The number of bytes that the count asks for.
        expected: usize,
        /// The number of bytes of the stream, or of the file.
        actual: usize,
    },
    /// No entry of the directory has the type.
    #[error("Stream not found")]
    StreamNotFound,
    /// An unloaded module has no range of addresses.
    #[error("Module read failure")]
    ModuleReadFailure,
    /// A descriptor of memory has no RVA or no size.
    #[error("Memory read failure")]
    MemoryReadFailure,
    /// A text or a message is malformed.
    #[error("Data error")]
    DataError,
    /// A module's name or its CodeView record is malformed.
    #[error("Error reading CodeView data")]
    CodeViewReadFailure,
    /// An element has an unknown type. No call of this library returns it.
    #[error("Uknown element type")]
    UknownElementType,
    /// An allocation failed.
    #[error("Out of memory")]
    OutOfMemory,
}

impl Error {
    /// Returns the name of the variant. That of `UknownElementType` is `UnknownElementType`.
    pub fn name(&self) -> &'static str
        ensures { result.now ≡ name_of_error self.now }
    {
        match self {
            Error::FileNotFound => "FileNotFound",
            Error::IoError => "IoError",
            Error::MissingHeader => "MissingHeader",
            Error::HeaderMismatch => "HeaderMismatch",
            Error::VersionMismatch => "VersionMismatch",
            Error::MissingDirectory => "MissingDirectory",
            Error::StreamReadFailure => "StreamReadFailure",
            Error::StreamSizeMismatch { .. } => "StreamSizeMismatch",
            Error::StreamNotFound => "StreamNotFound",
            Error::ModuleReadFailure => "ModuleReadFailure",
            Error::MemoryReadFailure => "MemoryReadFailure",
            Error::DataError => "DataError",
            Error::CodeViewReadFailure => "CodeViewReadFailure",
            Error::UknownElementType => "UnknownElementType",
            Error::OutOfMemory => "OutOfMemory",
        }
    }
}

impl From<AllocError> for Error {
    ghost use Rattle.std.specs.Prelude.{◌≡◌};
    ghost use Rattle.minidump_format.specs.declared.error.Error.TheVariants.{OutOfMemory};

    ghost from_gives = { λ _ e. e ≡ OutOfMemory };

    fn from(_: AllocError) -> Error {
        Error::OutOfMemory
    }
}

impl<T: Drop> From<AllocFailed<T>> for Error {
    ghost use Rattle.std.specs.Prelude.{◌≡◌};
    ghost use Rattle.minidump_format.specs.declared.error.Error.TheVariants.{OutOfMemory};

    ghost from_gives = { λ _ e. e ≡ OutOfMemory };

    fn from(_: AllocFailed<T>) -> Error {
        Error::OutOfMemory
    }
}
