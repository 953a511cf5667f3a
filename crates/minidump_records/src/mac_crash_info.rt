ghost use Rattle.std.specs.Prelude.{◌≡◌, ◌+◌, ◌*◌, ◌≤◌, ◌<◌, IfOk, IsOkUnless, OnErr, length, map};
ghost use Rattle.std.specs.List.{sum_by};
ghost use Rattle.minidump_bytes.specs.Source.{bytes_of};
ghost use Rattle.minidump_bytes.specs.Steps.{after};
ghost use Rattle.minidump_format.specs.Answer.{Gives};
ghost use Rattle.minidump_records.specs.MacCrashInfo.Record.{mac_record_of, record_reads};
ghost use Rattle.minidump_records.specs.MacCrashInfo.{located_records, mac_crash_info_of};

mod print;
mod raw;
mod record;

use minidump_bytes::{Endian, Source, Steps};
use minidump_format::Error;
use minidump_format::format::{MINIDUMP_LOCATION_DESCRIPTOR, MINIDUMP_MAC_CRASH_INFO};
use minidump_system::{MinidumpStream, MinidumpSystemInfo};
pub use raw::RawMacCrashInfo;
use record::{VersionAndRecord, read_located};
use std::alloc::Global;

/// The crash information of macOS: what the modules of the process said of the crash.
#[derive(Drop)]
pub struct MinidumpMacCrashInfo {
    /// The records. Those of version 0 are left out.
    pub raw: Vec<RawMacCrashInfo>,
    unreadable: u64,
}

impl MinidumpMacCrashInfo {
    /// Returns how many records the stream counts that are not in `raw`: those of version 0, and those
    /// beyond the 20 whose locations it has room for. They are damage.
    pub fn unreadable_records(&self) -> u64
        ensures { result ≡ (mac_crash_info_of self.now).unreadable }
    {
        self.unreadable
    }

    /// Copies the information. The only error is [`Error::OutOfMemory`], and only if there is a
    /// record.
    pub fn try_clone(&self, alloc: Global) -> Result<MinidumpMacCrashInfo, Error>
        ensures same { IfOk result (λ copy. mac_crash_info_of copy ≡ mac_crash_info_of self.now) }
        ensures memory { IsOkUnless result Error.OutOfMemory }
        ensures some { OnErr result (0 < length self.now.raw.items) }
    {
        let mut raw = Vec::with_capacity(alloc, self.raw.len())?;
        for record in &self.raw {
            raw.push(record.try_clone(alloc)?)?;
        }
        Ok(MinidumpMacCrashInfo {
            raw,
            unreadable: self.unreadable,
        })
    }
}

/// Reads Mozilla's `MDRawMacCrashInfo`: of the records that it counts, the first 20. Records of
/// version 0 are left out; [`unreadable_records`](MinidumpMacCrashInfo::unreadable_records) counts
/// what is not read.
///
/// Returns `StreamReadFailure` if the stream is shorter than 172 bytes, if the bytes of a record,
/// its fixed part or one of its texts is missing, or if the texts would begin within the fixed
/// part, or one is not UTF-8. Returns `VersionMismatch` if a record has another version than the
/// record before it.
impl<'a> MinidumpStream<'a> for MinidumpMacCrashInfo {
    ghost use Rattle.minidump_records.specs.MacCrashInfo.{MacRecords, mac_crash_info_stream};

    ghost Value = { MacRecords };

    ghost spec = { mac_crash_info_stream };

    const STREAM_TYPE: u32 = 0x4d7a_0001;

    fn number_of_type() -> u32 {
        Self::STREAM_TYPE
    }

    fn read(
        alloc: Global,
        bytes: Source<'a>,
        all: Source<'a>,
        endian: Endian,
        _system_info: Option<&MinidumpSystemInfo>,
        steps: &mut Steps,
    ) -> Result<Self, Error> {
        let info: MINIDUMP_MAC_CRASH_INFO = bytes
            .record(0, endian, steps)
            .ok_or(Error::StreamReadFailure)?;
        let count = info.record_count as usize;
        let locations = &info.records[..count.min(20)];
        let start = info.record_start_size;
        let raw = read_records(alloc, locations, start, all, endian, steps)?;
        let unreadable = (count - raw.len()) as u64;
        Ok(MinidumpMacCrashInfo { raw, unreadable })
    }
}

// Reads the records at locations. The texts of each begin `start` bytes after the start of the
// record.
fn read_records(
    alloc: Global,
    locations: &[MINIDUMP_LOCATION_DESCRIPTOR],
    start: u32,
    all: Source<'_>,
    endian: Endian,
    steps: &mut Steps,
) -> Result<Vec<RawMacCrashInfo>, Error>
    ensures means { Gives (λ v. map mac_record_of v.items) (0 < length locations.now) result
        (located_records endian (bytes_of all.entry) start locations.now) }
    ensures few { IfOk result (λ v. length v.items ≤ length locations.now) }
    ensures within { steps.new ≤ steps.old + 8 * length locations.now }
    ensures grows { steps.old ≤ steps.new }
    ensures at_least { IfOk result
        (λ v. after steps.old (2 * length locations.now
        + sum_by record_reads (map mac_record_of v.items)) ≤ steps.new) }
{
    let mut records = Vec::with_capacity(alloc, locations.len())?;
    let mut before = None;
    for location in locations {
        let VersionAndRecord { version, record } = read_located(
            alloc, location, start, before, all, endian, steps,
        )?;
        before = Some(version);
        if let Some(record) = record {
            records.push(record)?;
        }
    }
    Ok(records)
}
