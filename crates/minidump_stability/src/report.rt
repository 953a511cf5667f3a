ghost use Rattle.std.specs.Prelude.{◌≡◌, IfOk, IsOkUnless};
ghost use Rattle.std.proofs.Common.{rules};
ghost use Rattle.minidump_stability.specs.StabilityReport.{no_report, stability_report_of};

use crate::message::{Message, Plain, int64, merge, merge_plain, nested};
use crate::process_state::{FileSystemState, MemoryState};
use crate::system_memory_state;
use minidump_bytes::{Endian, Exact, Source, Steps, WireField, WireValue};
use minidump_format::Error;
use minidump_system::{MinidumpStream, MinidumpSystemInfo};
use std::alloc::Global;

/// The state of a process.
#[derive(Clone, Copy, PartialEq, Eq)]
pub struct ProcessState {
    /// The id of the process.
    pub process_id: Option<i64>,
    /// Its memory.
    pub memory_state: Option<MemoryState>,
    /// Its files.
    pub file_system_state: Option<FileSystemState>,
}

impl Message for ProcessState {
    ghost use Rattle.minidump_stability.specs.declared.report.ProcessState.{ProcessState};
    ghost use Rattle.minidump_stability.specs.ReportRows.{no_process_state, put_process_state};
    ghost use Rattle.minidump_stability.specs.StabilityReport.{NoField, process_state_fields};

    ghost Value = { ProcessState };

    ghost value = { λ m. m };

    ghost empty = { no_process_state };

    ghost put = { put_process_state };

    ghost memory = { NoField };

    ghost inside = { process_state_fields };

    fn none(_alloc: Global) -> Self {
        ProcessState {
            process_id: None,
            memory_state: None,
            file_system_state: None,
        }
    }

    #[tactic(auto, unfolding(crate::specs::ReportRows::put_process_state, crate::specs::StabilityReport::process_state_fields))]
    fn put(self, alloc: Global, field: WireField<'_>, steps: &mut Steps) -> Result<Self, Error> {
        let mut new = self;
        match field.number {
            3 => new.process_id = int64(field.value)?,
            4 => new.memory_state = nested(alloc, new.memory_state, field.value, steps)?,
            7 => new.file_system_state = nested(alloc, new.file_system_state, field.value, steps)?,
            _ => {}
        }
        Ok(new)
    }
}

impl Plain for ProcessState {
    ghost plain = { λ f none. none };
}

/// The memory of a system.
#[derive(Clone, Copy, PartialEq, Eq)]
pub struct SystemMemoryState {
    /// The counters of Windows.
    pub windows_memory: Option<system_memory_state::WindowsMemory>,
}

impl Message for SystemMemoryState {
    ghost use Rattle.minidump_stability.specs.declared.report.SystemMemoryState.{SystemMemoryState};
    ghost use Rattle.minidump_stability.specs.ReportRows.{no_system_memory_state, put_system_memory_state};
    ghost use Rattle.minidump_stability.specs.StabilityReport.{NoField, system_memory_state_fields};

    ghost Value = { SystemMemoryState };

    ghost value = { λ m. m };

    ghost empty = { no_system_memory_state };

    ghost put = { put_system_memory_state };

    ghost memory = { NoField };

    ghost inside = { system_memory_state_fields };

    fn none(_alloc: Global) -> Self {
        SystemMemoryState {
            windows_memory: None,
        }
    }

    #[tactic(auto, unfolding(crate::specs::ReportRows::put_system_memory_state, crate::specs::StabilityReport::system_memory_state_fields))]
    fn put(self, alloc: Global, field: WireField<'_>, steps: &mut Steps) -> Result<Self, Error> {
        let mut new = self;
        match field.number {
            1 => new.windows_memory = nested(alloc, new.windows_memory, field.value, steps)?,
            _ => {}
        }
        Ok(new)
    }
}

impl Plain for SystemMemoryState {
    ghost plain = { λ f none. none };
}

impl Exact for SystemMemoryState {
    ghost exact = { Prim.search rules };
}

/// Chromium's report of what a browser and its system were like when it crashed.
#[derive(PartialEq, Eq, Drop)]
pub struct StabilityReport {
    /// The processes.
    pub process_states: Vec<ProcessState>,
    /// The memory of the system.
    pub system_memory_state: Option<SystemMemoryState>,
}

impl StabilityReport {
    /// Makes an empty report. Takes no memory.
    pub fn new(alloc: Global) -> StabilityReport
        ensures { stability_report_of result ≡ no_report }
    {
        StabilityReport {
            process_states: Vec::new(alloc),
            system_memory_state: None,
        }
    }

    /// Copies the report. The only error is [`Error::OutOfMemory`].
    pub fn try_clone(&self, alloc: Global) -> Result<StabilityReport, Error>
        ensures report { IfOk result
            (λ copy. stability_report_of copy ≡ stability_report_of self.now) }
        ensures memory { IsOkUnless result Error.OutOfMemory }
    {
        let mut process_states = Vec::new(alloc);
        process_states.extend_from_slice(&self.process_states)?;
        Ok(StabilityReport {
            process_states,
            system_memory_state: self.system_memory_state,
        })
    }
}

impl Message for StabilityReport {
    ghost use Rattle.minidump_stability.specs.StabilityReport.{IsState, Report, no_report, report_fields};
    ghost use Rattle.minidump_stability.specs.StabilityReport.{stability_report_of};
    ghost use Rattle.minidump_stability.specs.ReportRows.{put_report};

    ghost Value = { Report };

    ghost value = { stability_report_of };

    ghost empty = { no_report };

    ghost put = { put_report };

    ghost memory = { IsState };

    ghost inside = { report_fields };

    fn none(alloc: Global) -> Self {
        StabilityReport::new(alloc)
    }

    #[tactic(auto, unfolding(crate::specs::ReportRows::put_report, crate::specs::StabilityReport::report_fields))]
    fn put(self, alloc: Global, field: WireField<'_>, steps: &mut Steps) -> Result<Self, Error> {
        let mut new = self;
        match field.number {
            2 => {
                let WireValue::Bytes(bytes) = field.value else {
                    return Err(Error::DataError);
                };
                let state = merge_plain(alloc, ProcessState::none(alloc), bytes, steps)?;
                new.process_states.push(state)?;
            }
            7 => {
                new.system_memory_state = nested(
                    alloc,
                    new.system_memory_state,
                    field.value,
                    steps,
                )?;
            }
            _ => {}
        }
        Ok(new)
    }
}

/// Reads Chromium's stability report. Returns `DataError` if the bytes of the stream, or of a
/// message in it, aren't fields one after another, or if a known field has another wire type.
impl<'a> MinidumpStream<'a> for StabilityReport {
    ghost use Rattle.minidump_stability.specs.StabilityReport.{Report, stability_report_stream};

    ghost Value = { Report };

    ghost spec = { stability_report_stream };

    const STREAM_TYPE: u32 = 0x4b6b_0002;

    fn number_of_type() -> u32 {
        Self::STREAM_TYPE
    }

    fn read(
        alloc: Global,
        bytes: Source<'a>,
        _all: Source<'a>,
        _endian: Endian,
        _system_info: Option<&MinidumpSystemInfo>,
        steps: &mut Steps,
    ) -> Result<Self, Error> {
        merge(alloc, StabilityReport::new(alloc), bytes.bytes(), steps)
    }
}
