//! Messages of the memory of a process.
ghost use Rattle.std.proofs.Common.{rules};

use crate::message::{Message, Plain, uint32};
use minidump_bytes::{Exact, Steps, WireField};
use minidump_format::Error;
use std::alloc::Global;

/// The memory of a process on Windows.
#[derive(Clone, Copy, PartialEq, Eq)]
pub struct WindowsMemory {
    /// The private memory of the process, in pages.
    pub process_private_usage: Option<u32>,
    /// The largest size of the working set of the process, in pages.
    pub process_peak_workingset_size: Option<u32>,
    /// The most that the process used of the page file, in pages.
    pub process_peak_pagefile_usage: Option<u32>,
    /// The size of the allocation that failed, in bytes.
    pub process_allocation_attempt: Option<u32>,
}

impl Message for WindowsMemory {
    ghost use Rattle.minidump_stability.specs.declared.process_state.memory_state.WindowsMemory.{WindowsMemory};
    ghost use Rattle.minidump_stability.specs.ReportRows.{no_windows_memory, put_windows_memory};
    ghost use Rattle.minidump_stability.specs.Fields.{none_within};
    ghost use Rattle.minidump_stability.specs.StabilityReport.{NoField};

    ghost Value = { WindowsMemory };

    ghost value = { λ m. m };

    ghost empty = { no_windows_memory };

    ghost put = { put_windows_memory };

    ghost memory = { NoField };

    ghost inside = { none_within };

    fn none(_alloc: Global) -> Self {
        WindowsMemory {
            process_private_usage: None,
            process_peak_workingset_size: None,
            process_peak_pagefile_usage: None,
            process_allocation_attempt: None,
        }
    }

    #[tactic(auto, unfolding(crate::specs::ReportRows::put_windows_memory))]
    fn put(self, alloc: Global, field: WireField<'_>, steps: &mut Steps) -> Result<Self, Error> {
        let mut new = self;
        match field.number {
            1 => new.process_private_usage = uint32(field.value)?,
            2 => new.process_peak_workingset_size = uint32(field.value)?,
            3 => new.process_peak_pagefile_usage = uint32(field.value)?,
            4 => new.process_allocation_attempt = uint32(field.value)?,
            _ => {}
        }
        Ok(new)
    }
}

impl Plain for WindowsMemory {
    ghost plain = { λ f none. none };
}

impl Exact for WindowsMemory {
    ghost exact = { record {
      equal = λ x y. ((λ h. Prim.search rules), (λ h. Prim.search rules));
      copy = λ x y h. Prim.search rules;
    } };
}
