//! Messages of the memory of a system.
ghost use Rattle.std.proofs.Common.{rules};

use crate::message::{Message, Plain, uint32};
use minidump_bytes::{Exact, Steps, WireField};
use minidump_format::Error;
use std::alloc::Global;

/// The memory of a Windows system.
#[derive(Clone, Copy, PartialEq, Eq)]
pub struct WindowsMemory {
    /// The most memory that can be committed, in pages.
    pub system_commit_limit: Option<u32>,
    /// How much of that is left, in pages.
    pub system_commit_remaining: Option<u32>,
    /// The number of open handles in the system.
    pub system_handle_count: Option<u32>,
}

impl Message for WindowsMemory {
    ghost use Rattle.minidump_stability.specs.declared.system_memory_state.WindowsMemory.{WindowsMemory};
    ghost use Rattle.minidump_stability.specs.ReportRows.{no_system_windows_memory, put_system_windows_memory};
    ghost use Rattle.minidump_stability.specs.Fields.{none_within};
    ghost use Rattle.minidump_stability.specs.StabilityReport.{NoField};

    ghost Value = { WindowsMemory };

    ghost value = { λ m. m };

    ghost empty = { no_system_windows_memory };

    ghost put = { put_system_windows_memory };

    ghost memory = { NoField };

    ghost inside = { none_within };

    fn none(_alloc: Global) -> Self {
        WindowsMemory {
            system_commit_limit: None,
            system_commit_remaining: None,
            system_handle_count: None,
        }
    }

    #[tactic(auto, unfolding(crate::specs::ReportRows::put_system_windows_memory))]
    fn put(self, alloc: Global, field: WireField<'_>, steps: &mut Steps) -> Result<Self, Error> {
        let mut new = self;
        match field.number {
            1 => new.system_commit_limit = uint32(field.value)?,
            2 => new.system_commit_remaining = uint32(field.value)?,
            3 => new.system_handle_count = uint32(field.value)?,
            _ => {}
        }
        Ok(new)
    }
}

impl Plain for WindowsMemory {
    ghost plain = { λ f none. none };
}

impl Exact for WindowsMemory {
    ghost exact = { Prim.search rules };
}
