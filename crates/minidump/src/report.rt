ghost use Rattle.std.specs.Prelude.{◌++◌};
ghost use Rattle.minidump_format.specs.Print.{Prints};
ghost use Rattle.minidump.specs.Crash.{crash_text};
ghost use Rattle.minidump.specs.DumpValue.{dump_of};
ghost use Rattle.minidump.specs.Report.{Reports, report_text, section_text, sections_text};
ghost use Rattle.minidump.specs.Shared.{AreShared};

use crate::crash::print_crash;
use crate::section::{print_error, print_stream, print_unread};
use crate::shared::SharedStreams;
use crate::{
    Minidump, MinidumpAssertion, MinidumpBreakpadInfo, MinidumpCrashpadInfo, MinidumpException,
    MinidumpHandleDataStream, MinidumpLinuxCpuInfo, MinidumpLinuxEnviron, MinidumpLinuxLsbRelease,
    MinidumpLinuxMaps, MinidumpLinuxProcLimits, MinidumpLinuxProcStatus, MinidumpMacBootargs,
    MinidumpMacCrashInfo, MinidumpMemory64List, MinidumpMemoryInfoList, MinidumpMemoryList,
    MinidumpMiscInfo, MinidumpModuleList, MinidumpSoftErrors, MinidumpThreadInfoList,
    MinidumpThreadList, MinidumpThreadNames, MinidumpUnloadedModuleList, StabilityReport,
    each_stream,
};
use minidump_bytes::Told;
use minidump_format::{Error, no_memory};
use minidump_reason::CodeNames;
use minidump_system::{MinidumpStream, MinidumpSystemInfo};
use std::alloc::Global;
use std::io::Write;

// A section of the report: a type of stream.
#[derive(Clone, Copy)]
pub(crate) enum Section {
    SystemInfoStream,
    MiscInfoStream,
    ExceptionStream,
    ThreadListStream,
    ThreadNamesStream,
    ThreadInfoListStream,
    ModuleListStream,
    UnloadedModuleListStream,
    Memory64ListStream,
    MemoryListStream,
    MemoryInfoListStream,
    LinuxMaps,
    HandleDataStream,
    BreakpadInfoStream,
    AssertionInfoStream,
    CrashpadInfoStream,
    MozMacosCrashInfoStream,
    MozMacosBootargsStream,
    LinuxCpuInfo,
    LinuxProcStatus,
    LinuxLsbRelease,
    LinuxEnviron,
    MozLinuxLimits,
    MozSoftErrors,
    StabilityReportStream,
}

macro_rules! all_sections {
    ($($name:ident: $type:ty, $reads:ident;)*) => {
        [$(Section::$name,)*]
    };
}

const SECTIONS: [Section; 25] = each_stream!(all_sections);

/// Writes the report on a minidump: its header and its directory, each stream that is read, and
/// last where and why the process crashed, in the words of `names`.
///
/// A stream adds what its type prints; an absent one adds nothing; a malformed one adds a line with
/// the names of its type and of its error. Threads are printed with their stacks, by
/// [`Minidump::get_memory`]; both lists of memory without their bytes. Each stream is read once;
/// the system information, the exception, the threads and the lists of memory are kept until the
/// end. The text is written piece by piece, so that at most one block and one item of the text are
/// in memory.
///
/// Returns the errors of [`Minidump::read`] before anything is written; then `IoError` if the
/// writer fails, and `OutOfMemory`, after which the writer took a prefix of the report.
#[tactic(auto, using(minidump_format::proofs::Printing::prints_then, minidump_format::proofs::Printing::prints_exit))]
pub fn write_report<W: Write>(
    alloc: Global,
    bytes: &[u8],
    names: &CodeNames<'_>,
    f: &mut Told<W>,
) -> Result<(), Error>
    ensures { Reports W.contents f.old f.new names.now bytes.now result }
{
    let dump = match Minidump::read(alloc, bytes) {
        Ok(dump) => dump,
        Err(Error::OutOfMemory) => return Err(no_memory(f)),
        Err(error) => return Err(error),
    };
    dump.print(alloc, f)?;
    let streams = SharedStreams::read(&dump, alloc);
    print_streams(&dump, &streams, names, alloc, f)
}

// Prints the sections in order, and then the crash. Stops at the first error of the writer or of an
// allocation.
fn print_streams<W: Write>(
    dump: &Minidump<'_>,
    streams: &SharedStreams<'_>,
    names: &CodeNames<'_>,
    alloc: Global,
    f: &mut Told<W>,
) -> Result<(), Error>
    requires { AreShared (dump_of dump.now) streams.now }
    ensures { Prints W.contents f.old f.new
        (sections_text (dump_of dump.now) ++ crash_text names.now (dump_of dump.now)) result }
{
    if f.failed() {
        return Err(Error::IoError);
    }
    for section in SECTIONS {
        print_section(section, dump, streams, alloc, f)?;
    }
    print_crash(dump, streams, names, alloc, f)
}

// Prints a section: its stream, or what it adds to the report if it can't be read.
#[tactic(auto, using(crate::proofs::ReportLemmas::section_unread))]
fn print_section<W: Write>(
    section: Section,
    dump: &Minidump<'_>,
    streams: &SharedStreams<'_>,
    alloc: Global,
    f: &mut Told<W>,
) -> Result<(), Error>
    requires { AreShared (dump_of dump.now) streams.now }
    ensures { Prints W.contents f.old f.new (section_text (dump_of dump.now) section) result }
{
    match section {
        Section::SystemInfoStream => print_system_info(dump, alloc, f),
        Section::MiscInfoStream => print_stream(section, dump, alloc, f, MinidumpMiscInfo::print),
        Section::ExceptionStream => print_exception(dump, streams, alloc, f),
        Section::ThreadListStream => print_threads(dump, streams, alloc, f),
        Section::ThreadNamesStream => {
            print_stream(section, dump, alloc, f, MinidumpThreadNames::print)
        }
        Section::ThreadInfoListStream => {
            print_stream(section, dump, alloc, f, MinidumpThreadInfoList::print)
        }
        Section::ModuleListStream => {
            print_stream(section, dump, alloc, f, MinidumpModuleList::print)
        }
        Section::UnloadedModuleListStream => {
            print_stream(section, dump, alloc, f, MinidumpUnloadedModuleList::print)
        }
        Section::Memory64ListStream => print_memory64_list(dump, streams, alloc, f),
        Section::MemoryListStream => print_memory_list(dump, streams, alloc, f),
        Section::MemoryInfoListStream => {
            print_stream(section, dump, alloc, f, MinidumpMemoryInfoList::print)
        }
        Section::LinuxMaps => print_stream(section, dump, alloc, f, MinidumpLinuxMaps::print),
        Section::HandleDataStream => {
            print_stream(section, dump, alloc, f, MinidumpHandleDataStream::print)
        }
        Section::BreakpadInfoStream => {
            print_stream(section, dump, alloc, f, MinidumpBreakpadInfo::print)
        }
        Section::AssertionInfoStream => {
            print_stream(section, dump, alloc, f, MinidumpAssertion::print)
        }
        Section::CrashpadInfoStream => {
            print_stream(section, dump, alloc, f, MinidumpCrashpadInfo::print)
        }
        Section::MozMacosCrashInfoStream => {
            print_stream(section, dump, alloc, f, MinidumpMacCrashInfo::print)
        }
        Section::MozMacosBootargsStream => {
            print_stream(section, dump, alloc, f, MinidumpMacBootargs::print)
        }
        Section::LinuxCpuInfo => print_stream(section, dump, alloc, f, MinidumpLinuxCpuInfo::print),
        Section::LinuxProcStatus => {
            print_stream(section, dump, alloc, f, MinidumpLinuxProcStatus::print)
        }
        Section::LinuxLsbRelease => {
            print_stream(section, dump, alloc, f, MinidumpLinuxLsbRelease::print)
        }
        Section::LinuxEnviron => print_stream(section, dump, alloc, f, MinidumpLinuxEnviron::print),
        Section::MozLinuxLimits => {
            print_stream(section, dump, alloc, f, MinidumpLinuxProcLimits::print)
        }
        Section::MozSoftErrors => print_stream(section, dump, alloc, f, MinidumpSoftErrors::print),
        Section::StabilityReportStream => {
            print_stream(section, dump, alloc, f, StabilityReport::print)
        }
    }
}

// Prints the system information as the dump has it: it was read with the dump.
fn print_system_info<W: Write>(
    dump: &Minidump<'_>,
    alloc: Global,
    f: &mut Told<W>,
) -> Result<(), Error>
    ensures { Prints W.contents f.old f.new
        (section_text (dump_of dump.now) Section.SystemInfoStream) result }
{
    match &dump.system {
        Ok(system) => system.print(alloc, f),
        Err(error) => print_error(MinidumpSystemInfo::STREAM_TYPE, *error, alloc, f),
    }
}

// Prints the exception.
#[tactic(auto, using(crate::proofs::ReportLemmas::section_unread))]
fn print_exception<W: Write>(
    dump: &Minidump<'_>,
    streams: &SharedStreams<'_>,
    alloc: Global,
    f: &mut Told<W>,
) -> Result<(), Error>
    requires { AreShared (dump_of dump.now) streams.now }
    ensures { Prints W.contents f.old f.new
        (section_text (dump_of dump.now) Section.ExceptionStream) result }
{
    let section = Section::ExceptionStream;
    match &streams.exception {
        Ok(exception) => exception.print(alloc, f, dump.system_info(), None),
        Err(error) => print_unread::<MinidumpException, W>(section, dump, *error, alloc, f),
    }
}

// Prints the 64-bit list of memory, without its bytes.
#[tactic(auto, using(crate::proofs::ReportLemmas::section_unread))]
fn print_memory64_list<W: Write>(
    dump: &Minidump<'_>,
    streams: &SharedStreams<'_>,
    alloc: Global,
    f: &mut Told<W>,
) -> Result<(), Error>
    requires { AreShared (dump_of dump.now) streams.now }
    ensures { Prints W.contents f.old f.new
        (section_text (dump_of dump.now) Section.Memory64ListStream) result }
{
    let section = Section::Memory64ListStream;
    match &streams.memory64 {
        Ok(list) => list.print(alloc, f, true),
        Err(error) => print_unread::<MinidumpMemory64List, W>(section, dump, *error, alloc, f),
    }
}

// Prints the list of memory, without its bytes.
#[tactic(auto, using(crate::proofs::ReportLemmas::section_unread))]
fn print_memory_list<W: Write>(
    dump: &Minidump<'_>,
    streams: &SharedStreams<'_>,
    alloc: Global,
    f: &mut Told<W>,
) -> Result<(), Error>
    requires { AreShared (dump_of dump.now) streams.now }
    ensures { Prints W.contents f.old f.new
        (section_text (dump_of dump.now) Section.MemoryListStream) result }
{
    let section = Section::MemoryListStream;
    match &streams.memory {
        Ok(list) => list.print(alloc, f, true),
        Err(error) => print_unread::<MinidumpMemoryList, W>(section, dump, *error, alloc, f),
    }
}

// Prints the threads with their stacks.
#[tactic(auto, using(crate::proofs::ReportLemmas::section_unread))]
fn print_threads<W: Write>(
    dump: &Minidump<'_>,
    streams: &SharedStreams<'_>,
    alloc: Global,
    f: &mut Told<W>,
) -> Result<(), Error>
    requires { AreShared (dump_of dump.now) streams.now }
    ensures { Prints W.contents f.old f.new
        (section_text (dump_of dump.now) Section.ThreadListStream) result }
{
    let section = Section::ThreadListStream;
    match &streams.threads {
        Ok(threads) => match streams.get_memory() {
            Ok(memory) => threads.print(alloc, f, memory, dump.system_info(), None, false),
            Err(_) => Err(no_memory(f)),
        },
        Err(error) => print_unread::<MinidumpThreadList, W>(section, dump, *error, alloc, f),
    }
}
