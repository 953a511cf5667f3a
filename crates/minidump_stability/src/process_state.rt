//! Messages of the state of a process.
pub mod file_system_state;
pub mod memory_state;

ghost use Rattle.std.proofs.Common.{rules};

use crate::message::{Message, Plain, nested};
use file_system_state::{PosixFileSystemState, WindowsFileSystemState};
use memory_state::WindowsMemory;
use minidump_bytes::{Exact, Steps, WireField};
use minidump_format::Error;
use std::alloc::Global;

/// The memory of a process.
#[derive(Clone, Copy, PartialEq, Eq)]
pub struct MemoryState {
    /// The counters of Windows.
    pub windows_memory: Option<WindowsMemory>,
}

impl Message for MemoryState {
    ghost use Rattle.minidump_stability.specs.declared.process_state.MemoryState.{MemoryState};
    ghost use Rattle.minidump_stability.specs.ReportRows.{no_memory_state, put_memory_state};
    ghost use Rattle.minidump_stability.specs.StabilityReport.{NoField, memory_state_fields};

    ghost Value = { MemoryState };

    ghost value = { λ m. m };

    ghost empty = { no_memory_state };

    ghost put = { put_memory_state };

    ghost memory = { NoField };

    ghost inside = { memory_state_fields };

    fn none(_alloc: Global) -> Self {
        MemoryState {
            windows_memory: None,
        }
    }

    #[tactic(auto, unfolding(crate::specs::ReportRows::put_memory_state, crate::specs::StabilityReport::memory_state_fields))]
    fn put(self, alloc: Global, field: WireField<'_>, steps: &mut Steps) -> Result<Self, Error> {
        let mut new = self;
        match field.number {
            1 => new.windows_memory = nested(alloc, new.windows_memory, field.value, steps)?,
            _ => {}
        }
        Ok(new)
    }
}

impl Plain for MemoryState {
    ghost plain = { λ f none. none };
}

impl Exact for MemoryState {
    ghost exact = { record {
      equal = λ x y. ((λ h. Prim.search rules), (λ h. Prim.search rules));
      copy = λ x y h. Prim.search rules;
    } };
}

/// The files of a process.
#[derive(Clone, Copy, PartialEq, Eq)]
pub struct FileSystemState {
    /// The counters of a POSIX system.
    pub posix_file_system_state: Option<PosixFileSystemState>,
    /// The counters of Windows.
    pub windows_file_system_state: Option<WindowsFileSystemState>,
}

impl Message for FileSystemState {
    ghost use Rattle.minidump_stability.specs.declared.process_state.FileSystemState.{FileSystemState};
    ghost use Rattle.minidump_stability.specs.ReportRows.{no_file_system_state, put_file_system_state};
    ghost use Rattle.minidump_stability.specs.StabilityReport.{NoField, file_system_state_fields};

    ghost Value = { FileSystemState };

    ghost value = { λ m. m };

    ghost empty = { no_file_system_state };

    ghost put = { put_file_system_state };

    ghost memory = { NoField };

    ghost inside = { file_system_state_fields };

    fn none(_alloc: Global) -> Self {
        FileSystemState {
            posix_file_system_state: None,
            windows_file_system_state: None,
        }
    }

    #[tactic(auto, unfolding(crate::specs::ReportRows::put_file_system_state, crate::specs::StabilityReport::file_system_state_fields))]
    fn put(self, alloc: Global, field: WireField<'_>, steps: &mut Steps) -> Result<Self, Error> {
        let mut new = self;
        match field.number {
            1 => new.posix_file_system_state = nested(
                alloc,
                new.posix_file_system_state,
                field.value,
                steps,
            )?,
            2 => new.windows_file_system_state = nested(
                alloc,
                new.windows_file_system_state,
                field.value,
                steps,
            )?,
            _ => {}
        }
        Ok(new)
    }
}

impl Plain for FileSystemState {
    ghost plain = { λ f none. none };
}

impl Exact for FileSystemState {
    ghost exact = { Prim.search rules };
}
