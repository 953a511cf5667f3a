//! Messages of the files of a process.
ghost use Rattle.std.proofs.Common.{rules};

use crate::message::{Message, Plain, uint32};
use minidump_bytes::{Exact, Steps, WireField};
use minidump_format::Error;
use std::alloc::Global;

/// The files of a process on a POSIX system.
#[derive(Clone, Copy, PartialEq, Eq)]
pub struct PosixFileSystemState {
    /// The number of open file descriptors.
    pub open_file_descriptors: Option<u32>,
}

impl Message for PosixFileSystemState {
    ghost use Rattle.minidump_stability.specs.declared.process_state.file_system_state.PosixFileSystemState.{};
    ghost use Rattle.minidump_stability.specs.declared.process_state.file_system_state.PosixFileSystemState.{PosixFileSystemState};
    ghost use Rattle.minidump_stability.specs.ReportRows.{no_posix_file_system_state, put_posix_file_system_state};
    ghost use Rattle.minidump_stability.specs.Fields.{none_within};
    ghost use Rattle.minidump_stability.specs.StabilityReport.{NoField};

    ghost Value = { PosixFileSystemState };

    ghost value = { λ m. m };

    ghost empty = { no_posix_file_system_state };

    ghost put = { put_posix_file_system_state };

    ghost memory = { NoField };

    ghost inside = { none_within };

    fn none(_alloc: Global) -> Self {
        PosixFileSystemState {
            open_file_descriptors: None,
        }
    }

    #[tactic(auto, unfolding(crate::specs::ReportRows::put_posix_file_system_state))]
    fn put(self, alloc: Global, field: WireField<'_>, steps: &mut Steps) -> Result<Self, Error> {
        let mut new = self;
        match field.number {
            1 => new.open_file_descriptors = uint32(field.value)?,
            _ => {}
        }
        Ok(new)
    }
}

impl Plain for PosixFileSystemState {
    ghost plain = { λ f none. none };
}

impl Exact for PosixFileSystemState {
    ghost exact = { Prim.search rules };
}

/// The files of a process on Windows.
#[derive(Clone, Copy, PartialEq, Eq)]
pub struct WindowsFileSystemState {
    /// The number of open handles.
    pub process_handle_count: Option<u32>,
}

impl Message for WindowsFileSystemState {
    ghost use Rattle.minidump_stability.specs.declared.process_state.file_system_state.WindowsFileSystemState.{};
    ghost use Rattle.minidump_stability.specs.declared.process_state.file_system_state.WindowsFileSystemState.{WindowsFileSystemState};
    ghost use Rattle.minidump_stability.specs.ReportRows.{no_windows_file_system_state, put_windows_file_system_state};
    ghost use Rattle.minidump_stability.specs.Fields.{none_within};
    ghost use Rattle.minidump_stability.specs.StabilityReport.{NoField};

    ghost Value = { WindowsFileSystemState };

    ghost value = { λ m. m };

    ghost empty = { no_windows_file_system_state };

    ghost put = { put_windows_file_system_state };

    ghost memory = { NoField };

    ghost inside = { none_within };

    fn none(_alloc: Global) -> Self {
        WindowsFileSystemState {
            process_handle_count: None,
        }
    }

    #[tactic(auto, unfolding(crate::specs::ReportRows::put_windows_file_system_state))]
    fn put(self, alloc: Global, field: WireField<'_>, steps: &mut Steps) -> Result<Self, Error> {
        let mut new = self;
        match field.number {
            1 => new.process_handle_count = uint32(field.value)?,
            _ => {}
        }
        Ok(new)
    }
}

impl Plain for WindowsFileSystemState {
    ghost plain = { λ f none. none };
}

impl Exact for WindowsFileSystemState {
    ghost exact = { Prim.search rules };
}
