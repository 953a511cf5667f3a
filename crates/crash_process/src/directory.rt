ghost use Rattle.std.specs.Prelude.{◌≡◌, IfOk};
ghost use Rattle.minidump.specs.DumpValue.{dump_of};
ghost use Rattle.crash_streams.specs.Contents.{contents_of};
ghost use Rattle.crash_process.specs.Directory.{directory_in, directory_of, error_of_number};
ghost use Rattle.crash_process.specs.Directory.{outside_in, raw_error};

use crash_streams::{Contents, error_of};
use minidump::format::MINIDUMP_STREAM_TYPE;
use minidump::{Error, Minidump, MinidumpException, MinidumpStream, Source, Steps};
use std::alloc::{AllocError, Global};

/// What the header and the directory of a dump say.
#[derive(Drop)]
pub struct CrashDirectory {
    /// When the dump was written, in seconds since 1970, as the time stamp of its header has it; 0
    /// says nothing.
    pub written: u32,
    /// The streams, ascending by type.
    pub entries: Vec<StreamEntry>,
    /// How many entries of the directory have bytes that are not all in the file, where the entry
    /// that decides their type has its bytes there. Exceptions don't count: each is read.
    pub entries_outside: u64,
}

/// A stream, by the entry of the directory that decides it.
#[derive(Clone, Copy)]
pub struct StreamEntry {
    /// The number of its type.
    pub number: u32,
    /// How many bytes it has.
    pub size: u32,
    /// Where its bytes begin in the file.
    pub rva: u32,
    /// The error if the stream can't be read; for a type that is never read, the error if its bytes
    /// can't be.
    pub error: Option<Error>,
}

/// Returns what the header and the directory of a dump say.
pub fn directory_of(
    alloc: Global,
    dump: &Minidump<'_>,
    contents: &Contents<'_>,
) -> Result<CrashDirectory, AllocError>
    ensures { IfOk result (λ directory. directory_of directory
        ≡ directory_in (dump_of dump.now) (contents_of contents.now)) }
{
    let mut entries = Vec::new(alloc);
    for entry in dump.all_streams() {
        entries.push(StreamEntry {
            number: entry.stream_type,
            size: entry.location.data_size,
            rva: entry.location.rva,
            error: error_of_number(dump, contents, entry.stream_type),
        })?;
    }
    Ok(CrashDirectory {
        written: dump.header.time_date_stamp,
        entries,
        entries_outside: outside_of(dump),
    })
}

// Returns the error for which the stream of a type can't be read. Of a type that is never read that
// is the error of its bytes.
fn error_of_number(dump: &Minidump<'_>, contents: &Contents<'_>, number: u32) -> Option<Error>
    ensures { result ≡ error_of_number (dump_of dump.now) (contents_of contents.now) number }
{
    let Some(known_type) = MINIDUMP_STREAM_TYPE::from_u32(number) else {
        return raw_error(dump, number);
    };
    let Contents {
        system,
        threads,
        space,
        messages,
        process,
        ..
    } = contents;
    match known_type {
        MINIDUMP_STREAM_TYPE::SystemInfoStream => error_of(&system.system),
        MINIDUMP_STREAM_TYPE::MiscInfoStream => error_of(&system.misc),
        MINIDUMP_STREAM_TYPE::BreakpadInfoStream => error_of(&system.breakpad),
        MINIDUMP_STREAM_TYPE::LinuxCpuInfo => error_of(&system.cpu_info),
        MINIDUMP_STREAM_TYPE::LinuxLsbRelease => error_of(&system.lsb_release),
        // The exception stream is the last exception.
        MINIDUMP_STREAM_TYPE::ExceptionStream => match threads.exceptions.as_slice().last() {
            Some(exception) => error_of(exception),
            None => Some(Error::StreamNotFound),
        },
        MINIDUMP_STREAM_TYPE::ThreadListStream => error_of(&threads.threads),
        MINIDUMP_STREAM_TYPE::ThreadNamesStream => error_of(&threads.names),
        MINIDUMP_STREAM_TYPE::ThreadInfoListStream => error_of(&threads.infos),
        MINIDUMP_STREAM_TYPE::ModuleListStream => space.modules_error,
        MINIDUMP_STREAM_TYPE::UnloadedModuleListStream => error_of(&space.unloaded),
        MINIDUMP_STREAM_TYPE::Memory64ListStream => space.memory_errors.0,
        MINIDUMP_STREAM_TYPE::MemoryListStream => space.memory_errors.1,
        MINIDUMP_STREAM_TYPE::MemoryInfoListStream => space.infos_errors.0,
        MINIDUMP_STREAM_TYPE::LinuxMaps => space.infos_errors.1,
        MINIDUMP_STREAM_TYPE::AssertionInfoStream => error_of(&messages.assertion),
        MINIDUMP_STREAM_TYPE::CrashpadInfoStream => error_of(&messages.crashpad),
        MINIDUMP_STREAM_TYPE::MozMacosCrashInfoStream => error_of(&messages.mac_crash_info),
        MINIDUMP_STREAM_TYPE::MozMacosBootargsStream => error_of(&messages.mac_boot_args),
        MINIDUMP_STREAM_TYPE::MozSoftErrors => error_of(&messages.soft_errors),
        MINIDUMP_STREAM_TYPE::StabilityReportStream => error_of(&messages.stability),
        MINIDUMP_STREAM_TYPE::HandleDataStream => error_of(&process.handles),
        MINIDUMP_STREAM_TYPE::LinuxProcStatus => error_of(&process.status),
        MINIDUMP_STREAM_TYPE::LinuxEnviron => error_of(&process.environ),
        MINIDUMP_STREAM_TYPE::MozLinuxLimits => error_of(&process.limits),
        _ => raw_error(dump, number),
    }
}

// Returns the error for which the bytes of a stream can't be had.
fn raw_error(dump: &Minidump<'_>, number: u32) -> Option<Error>
    ensures { result ≡ raw_error (dump_of dump.now) number }
{
    match dump.get_raw_stream(number) {
        Ok(_) => None,
        Err(error) => Some(error),
    }
}

// Returns the number of entries that are lost: their bytes are not all in the file, but those of the
// entry that decides their type are. Exceptions don't count, since each is read.
fn outside_of(dump: &Minidump<'_>) -> u64
    ensures { result ≡ outside_in (dump_of dump.now) }
{
    let mut count = 0;
    let (file, entries) = (Source::new(dump.bytes()), dump.all_entries());
    for index in 0..entries.len() {
        let entry = entries.read(index, &mut Steps::new());
        let bytes = entry.location.bytes_in(file, &mut Steps::new());
        let is_lost = bytes.is_none()
            && raw_error(dump, entry.stream_type).is_none()
            && entry.stream_type != MinidumpException::number_of_type();
        count += u64::from(is_lost);
    }
    count
}
