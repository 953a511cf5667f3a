ghost use Rattle.std.specs.Prelude.{◌≡◌, ◌+◌, ◌≤◌, ◌<◌, IfOk, IfErr, OnErr, OnOk};
ghost use Rattle.minidump_bytes.specs.Source.{bytes_of};
ghost use Rattle.minidump_bytes.specs.Steps.{after};
ghost use Rattle.minidump_context.specs.Context.{map_ok};
ghost use Rattle.minidump_system.specs.SystemInfo.{system_info_of};
ghost use Rattle.minidump.specs.Deciding.{Decides};
ghost use Rattle.minidump.specs.Directory.{directory};
ghost use Rattle.minidump.specs.Dump.{own_system, system_memory, system_reads};

use crate::directory::{DecidingEntry, raw_stream};
use minidump_bytes::{Endian, Source, Steps};
use minidump_format::Error;
use minidump_format::format::MINIDUMP_HEADER;
use minidump_system::{MinidumpStream, MinidumpSystemInfo};
use std::alloc::Global;

// Reads the system information, or returns the error of its stream. The outer error is
// `OutOfMemory` alone, where the stream's table says that memory may run out.
pub(crate) fn read_system_info(
    alloc: Global,
    source: Source<'_>,
    endian: Endian,
    header: &MINIDUMP_HEADER,
    entries: &[DecidingEntry],
    steps: &mut Steps,
) -> Result<Result<MinidumpSystemInfo, Error>, Error>
    requires { Decides entries.now (directory endian (bytes_of source) header.now) }
    ensures value { IfOk result (λ s. map_ok system_info_of s ≡ own_system
        (record { file = bytes_of source.entry; order = endian; header = header.now })) }
    ensures memory { IfErr result (λ e. (e ≡ Error.OutOfMemory) × (0 < header.now.stream_count)) }
    ensures taken { OnErr result (system_memory
        (record { file = bytes_of source.entry; order = endian; header = header.now })) }
    ensures within { steps.new ≤ steps.old + 3 }
    ensures grows { steps.old ≤ steps.new }
    ensures counted { OnOk result (after steps.old (system_reads
        (record { file = bytes_of source.entry; order = endian; header = header.now }))
        ≤ steps.new) }
{
    let bytes = match raw_stream(entries, MinidumpSystemInfo::STREAM_TYPE, source, steps) {
        Ok(bytes) => bytes,
        Err(error) => return Ok(Err(error)),
    };
    match MinidumpSystemInfo::read_record(alloc, Source::new(bytes), source, endian, steps) {
        Ok(system_info) => Ok(Ok(system_info)),
        Err(Error::OutOfMemory) => Err(Error::OutOfMemory),
        Err(error) => Ok(Err(error)),
    }
}
