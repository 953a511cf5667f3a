use std::alloc::{AllocError, AllocFailed};
use thiserror::Error;

/// The error of reading a text of names.
#[derive(Clone, Copy, Debug, PartialEq, Eq, Error)]
pub enum NamesError {
    /// The line with this number is not a line of names. Lines are numbered from 1.
    #[error("line {0} is no line of names")]
    NotALine(u64),
    /// The code of the line with this number isn't above each earlier code of its family.
    #[error("the number of line {0} is out of order")]
    OutOfOrder(u64),
    /// An allocation failed.
    #[error("Out of memory")]
    OutOfMemory,
}

impl From<AllocError> for NamesError {
    ghost use Rattle.std.specs.Prelude.{◌≡◌};
    ghost use Rattle.minidump_names.specs.declared.error.NamesError.TheVariants.{OutOfMemory};

    ghost from_gives = { λ _ e. e ≡ OutOfMemory };

    fn from(_: AllocError) -> NamesError {
        NamesError::OutOfMemory
    }
}

impl<T: Drop> From<AllocFailed<T>> for NamesError {
    ghost use Rattle.std.specs.Prelude.{◌≡◌};
    ghost use Rattle.minidump_names.specs.declared.error.NamesError.TheVariants.{OutOfMemory};

    ghost from_gives = { λ _ e. e ≡ OutOfMemory };

    fn from(_: AllocFailed<T>) -> NamesError {
        NamesError::OutOfMemory
    }
}
