ghost use Rattle.std.specs.Prelude.{◌≡◌, [], IfOk, IsOkUnless, map, unwrap_or};
ghost use Rattle.std.specs.Result.{result_err, result_ok};
ghost use Rattle.minidump.specs.Below.Contexts.Context.{map_ok};
ghost use Rattle.minidump.specs.Below.MemoryLists.Unified.{unified_list, unified_region, unified_regions};
ghost use Rattle.minidump.specs.Below.MemoryLists.UnifiedInfo.{info_list};
ghost use Rattle.minidump.specs.Below.Modules.UnloadedModule.{unloaded_of};
ghost use Rattle.minidump.specs.Below.Records.Annotations.{annotation_of};
ghost use Rattle.minidump.specs.Below.Records.CrashpadText.{annotation_text};
ghost use Rattle.minidump.specs.DumpValue.{dump_of};
ghost use Rattle.minidump.specs.Promise.{unloaded_module_list_stream};
ghost use Rattle.crash_streams.specs.Contents.{contents_in, contents_of, has_signal_codes, is_there};
ghost use Rattle.crash_streams.specs.Contents.{message_streams_of, process_streams_of, space_streams_of};
ghost use Rattle.crash_streams.specs.Contents.{system_streams_of, thread_streams_of};
ghost use Rattle.crash_streams.specs.Missing.{is_missing};

use minidump::{
    Error, Minidump, MinidumpAnnotation, MinidumpAssertion, MinidumpBreakpadInfo,
    MinidumpCrashpadInfo, MinidumpException, MinidumpHandleDataStream, MinidumpLinuxCpuInfo,
    MinidumpLinuxEnviron, MinidumpLinuxLsbRelease, MinidumpLinuxMaps, MinidumpLinuxProcLimits,
    MinidumpLinuxProcStatus, MinidumpMacBootargs, MinidumpMacCrashInfo, MinidumpMemory64List,
    MinidumpMemoryInfoList, MinidumpMemoryList, MinidumpMiscInfo, MinidumpModuleList,
    MinidumpSoftErrors, MinidumpStream, MinidumpSystemInfo, MinidumpThreadInfoList,
    MinidumpThreadList, MinidumpThreadNames, MinidumpUnloadedModule, MinidumpUnloadedModuleList,
    StabilityReport, UnifiedMemory, UnifiedMemoryInfoList, UnifiedMemoryList,
};
use std::alloc::{AllocError, Global};

/// The streams of the system, each as the format has it: the stream, or the error for which there
/// is none.
#[derive(Drop)]
pub struct SystemStreams<'a> {
    /// The system information.
    pub system: Result<MinidumpSystemInfo, Error>,
    /// The misc information.
    pub misc: Result<MinidumpMiscInfo, Error>,
    /// Breakpad's information.
    pub breakpad: Result<MinidumpBreakpadInfo, Error>,
    /// Linux's `/proc/cpuinfo`.
    pub cpu_info: Result<MinidumpLinuxCpuInfo<'a>, Error>,
    /// Linux's `/etc/lsb-release`.
    pub lsb_release: Result<MinidumpLinuxLsbRelease<'a>, Error>,
}

/// The streams of the crash and its threads, each as the format has it: the stream, or the error
/// for which there is none.
#[derive(Drop)]
pub struct ThreadStreams<'a> {
    /// The exceptions of all entries of the directory that have their type, in its order, each or
    /// why it can't be read. The last is the stream.
    pub exceptions: Vec<Result<MinidumpException<'a>, Error>>,
    /// The threads.
    pub threads: Result<MinidumpThreadList<'a>, Error>,
    /// The names of threads.
    pub names: Result<MinidumpThreadNames, Error>,
    /// What is known of the threads.
    pub infos: Result<MinidumpThreadInfoList, Error>,
}

/// The streams of the address space. A list that can't be read is empty, and its error is beside
/// it. The memory is that of the 64-bit list, else of the plain one; what is known of its regions is
/// the memory information, else the maps of Linux.
#[derive(Drop)]
pub struct SpaceStreams<'a> {
    /// The modules, with how many entries of their list have no addresses.
    pub modules: MinidumpModuleList,
    /// Why their list can't be read, or `None` if it can be.
    pub modules_error: Option<Error>,
    /// The unloaded modules.
    pub unloaded: Result<MinidumpUnloadedModuleList, Error>,
    /// The memory.
    pub memory: UnifiedMemoryList<'a>,
    /// Why the 64-bit list (Memory64ListStream) and the plain list (MemoryListStream) can't be read,
    /// each `None` if it can be.
    pub memory_errors: (Option<Error>, Option<Error>),
    /// How many regions of the plain list of memory name bytes that are not all in the file, also where
    /// the memory is that of the 64-bit list. `memory` has none of them. 0 if the plain list can't be
    /// read.
    pub regions_outside: u64,
    /// What is known of the regions of memory.
    pub infos: UnifiedMemoryInfoList<'a>,
    /// Why the memory information (MemoryInfoListStream) and the maps (LinuxMaps) can't be read, each
    /// `None` if it can be.
    pub infos_errors: (Option<Error>, Option<Error>),
    /// How many lines the maps have, or `None` if they can't be read.
    pub map_count: Option<usize>,
}

/// The streams of what the process itself said, each as the format has it: the stream, or the error
/// for which there is none.
#[derive(Drop)]
pub struct MessageStreams<'a> {
    /// The assertion that failed.
    pub assertion: Result<MinidumpAssertion, Error>,
    /// Crashpad's information.
    pub crashpad: Result<MinidumpCrashpadInfo, Error>,
    /// What macOS says of the crash.
    pub mac_crash_info: Result<MinidumpMacCrashInfo, Error>,
    /// The arguments with which macOS was booted.
    pub mac_boot_args: Result<MinidumpMacBootargs, Error>,
    /// Mozilla's soft errors.
    pub soft_errors: Result<MinidumpSoftErrors<'a>, Error>,
    /// The stability report.
    pub stability: Result<StabilityReport, Error>,
}

/// The streams of the process, each as the format has it: the stream, or the error for which there
/// is none.
#[derive(Drop)]
pub struct ProcessStreams<'a> {
    /// The handles.
    pub handles: Result<MinidumpHandleDataStream, Error>,
    /// Linux's `/proc/PID/status`.
    pub status: Result<MinidumpLinuxProcStatus<'a>, Error>,
    /// Linux's `/proc/PID/environ`.
    pub environ: Result<MinidumpLinuxEnviron<'a>, Error>,
    /// Linux's `/proc/PID/limits`.
    pub limits: Result<MinidumpLinuxProcLimits<'a>, Error>,
}

/// The streams of a minidump.
#[derive(Drop)]
pub struct Contents<'a> {
    /// The streams of the system.
    pub system: SystemStreams<'a>,
    /// The streams of the crash and its threads.
    pub threads: ThreadStreams<'a>,
    /// The streams of the address space.
    pub space: SpaceStreams<'a>,
    /// The streams of what the process itself said.
    pub messages: MessageStreams<'a>,
    /// The streams of the process.
    pub process: ProcessStreams<'a>,
}

/// Returns the regions of memory, in the order of their list.
///
/// Returns `AllocError` if an allocation fails.
pub fn regions_of<'l, 'a>(
    alloc: Global,
    memory: &'l UnifiedMemoryList<'a>,
) -> Result<Vec<UnifiedMemory<'l, 'a>>, AllocError>
    ensures { IfOk result
        (λ regions. map unified_region regions.items ≡ unified_regions (unified_list memory.now)) }
{
    memory.iter().collect(alloc)
}

/// Returns the text of a Crashpad annotation that is a string, or the kind of any other:
/// `<invalid>`, `<user defined>` or `<unsupported>`.
pub fn annotation_text(annotation: &MinidumpAnnotation) -> &str
    ensures { result.now ≡ annotation_text (annotation_of annotation.now) }
{
    match annotation {
        MinidumpAnnotation::Invalid => "<invalid>",
        MinidumpAnnotation::String(text) => text.as_str(),
        MinidumpAnnotation::UserDefined(_) => "<user defined>",
        MinidumpAnnotation::Unsupported(_) => "<unsupported>",
    }
}

/// Reads the streams of a dump, each once. The only error is [`Error::OutOfMemory`].
pub fn read_contents<'a>(alloc: Global, dump: &Minidump<'a>) -> Result<Contents<'a>, Error>
    ensures contents { IfOk result (λ c. contents_of c ≡ contents_in (dump_of dump.now)) }
    ensures memory { IsOkUnless result Error.OutOfMemory }
{
    let (system, threads) = crash_streams(alloc, dump)?;
    let space = space_streams(alloc, dump)?;
    let (messages, process) = said_streams(alloc, dump)?;
    Ok(Contents {
        system,
        threads,
        space,
        messages,
        process,
    })
}

// Reads the streams of the system, and those of the crash and its threads.
fn crash_streams<'a>(
    alloc: Global,
    dump: &Minidump<'a>,
) -> Result<(SystemStreams<'a>, ThreadStreams<'a>), Error>
    ensures system { IfOk result (λ s. system_streams_of s.0 ≡ (contents_in (dump_of dump.now)).system) }
    ensures threads { IfOk result (λ s. thread_streams_of s.1 ≡ (contents_in (dump_of dump.now)).threads) }
    ensures memory { IsOkUnless result Error.OutOfMemory }
{
    let system = SystemStreams {
        system: dump.try_stream(alloc)?,
        misc: dump.try_stream(alloc)?,
        breakpad: dump.try_stream(alloc)?,
        cpu_info: dump.try_stream(alloc)?,
        lsb_release: dump.try_stream(alloc)?,
    };
    let threads = ThreadStreams {
        exceptions: dump.exceptions(alloc)?,
        threads: dump.try_stream(alloc)?,
        names: dump.try_stream(alloc)?,
        infos: dump.try_stream(alloc)?,
    };
    Ok((system, threads))
}

// Reads the streams of what the process itself said, and those of the process.
fn said_streams<'a>(
    alloc: Global,
    dump: &Minidump<'a>,
) -> Result<(MessageStreams<'a>, ProcessStreams<'a>), Error>
    ensures messages { IfOk result
        (λ s. message_streams_of s.0 ≡ (contents_in (dump_of dump.now)).messages) }
    ensures process { IfOk result
        (λ s. process_streams_of s.1 ≡ (contents_in (dump_of dump.now)).process) }
    ensures memory { IsOkUnless result Error.OutOfMemory }
{
    let messages = MessageStreams {
        assertion: dump.try_stream(alloc)?,
        crashpad: dump.try_stream(alloc)?,
        mac_crash_info: dump.try_stream(alloc)?,
        mac_boot_args: dump.try_stream(alloc)?,
        soft_errors: dump.try_stream(alloc)?,
        stability: dump.try_stream(alloc)?,
    };
    let process = ProcessStreams {
        handles: dump.try_stream(alloc)?,
        status: dump.try_stream(alloc)?,
        environ: dump.try_stream(alloc)?,
        limits: dump.try_stream(alloc)?,
    };
    Ok((messages, process))
}

// ---- the address space

// Reads the streams of the address space.
fn space_streams<'a>(alloc: Global, dump: &Minidump<'a>) -> Result<SpaceStreams<'a>, Error>
    ensures streams { IfOk result (λ s. space_streams_of s ≡ (contents_in (dump_of dump.now)).space) }
    ensures memory { IsOkUnless result Error.OutOfMemory }
{
    let modules: Result<MinidumpModuleList, Error> = dump.try_stream(alloc)?;
    let modules_error = error_of(&modules);
    let modules = modules.unwrap_or(MinidumpModuleList::new(alloc));
    let unloaded = dump.try_stream(alloc)?;
    let (memory, memory_errors, regions_outside) = memory_streams(alloc, dump)?;
    let (infos, infos_errors, map_count) = info_streams(alloc, dump)?;
    Ok(SpaceStreams {
        modules,
        modules_error,
        unloaded,
        memory,
        memory_errors,
        regions_outside,
        infos,
        infos_errors,
        map_count,
    })
}

// Reads the memory, and returns it with the errors of both lists and the number of regions of the
// plain list that are outside the file.
fn memory_streams<'a>(
    alloc: Global,
    dump: &Minidump<'a>,
) -> Result<(UnifiedMemoryList<'a>, (Option<Error>, Option<Error>), u64), Error>
    ensures list { IfOk result (λ s. unified_list s.0 ≡ (contents_in (dump_of dump.now)).space.memory) }
    ensures errors { IfOk result (λ s. s.1 ≡ (contents_in (dump_of dump.now)).space.memory_errors) }
    ensures outside { IfOk result
        (λ s. s.2 ≡ (contents_in (dump_of dump.now)).space.regions_outside) }
    ensures memory { IsOkUnless result Error.OutOfMemory }
{
    let memory64: Result<MinidumpMemory64List<'_>, Error> = dump.try_stream(alloc)?;
    let plain: Result<MinidumpMemoryList<'_>, Error> = dump.try_stream(alloc)?;
    let errors = (error_of(&memory64), error_of(&plain));
    let outside = plain.as_ref().map_or(0, |plain| plain.regions_outside());
    let memory = match (memory64, plain) {
        (Ok(list), _) => UnifiedMemoryList::Memory64(list),
        (Err(_), Ok(list)) => UnifiedMemoryList::Memory(list),
        (Err(_), Err(_)) => UnifiedMemoryList::new(alloc),
    };
    Ok((memory, errors, outside))
}

// Reads what is known of the regions of memory, and returns it with the errors of both streams and
// the number of lines of the maps.
fn info_streams<'a>(
    alloc: Global,
    dump: &Minidump<'a>,
) -> Result<
    (
        UnifiedMemoryInfoList<'a>,
        (Option<Error>, Option<Error>),
        Option<usize>,
    ),
    Error,
>
    ensures list { IfOk result (λ s. info_list s.0 ≡ (contents_in (dump_of dump.now)).space.infos) }
    ensures errors { IfOk result (λ s. s.1 ≡ (contents_in (dump_of dump.now)).space.infos_errors) }
    ensures count { IfOk result (λ s. s.2 ≡ (contents_in (dump_of dump.now)).space.map_count) }
    ensures memory { IsOkUnless result Error.OutOfMemory }
{
    let infos: Result<MinidumpMemoryInfoList<'_>, Error> = dump.try_stream(alloc)?;
    let maps: Result<MinidumpLinuxMaps<'_>, Error> = dump.try_stream(alloc)?;
    let errors = (error_of(&infos), error_of(&maps));
    let map_count = maps.as_ref().ok().map(|maps| maps.memory_map_count());
    let infos = match (infos, maps) {
        (Ok(list), _) => UnifiedMemoryInfoList::Info(list),
        (Err(_), Ok(list)) => UnifiedMemoryInfoList::Maps(list),
        (Err(_), Err(_)) => UnifiedMemoryInfoList::empty(alloc),
    };
    Ok((infos, errors, map_count))
}

/// Returns the error for which a stream can't be read.
pub fn error_of<'a, S: MinidumpStream<'a>>(found: &Result<S, Error>) -> Option<Error>
    ensures { result ≡ result_err (map_ok S.spec.value found.now) }
{
    found.as_ref().err().copied()
}

/// Returns the entries of the list of modules that were unloaded: none if it can't be read.
pub fn unloaded_entries(
    list: &Result<MinidumpUnloadedModuleList, Error>,
) -> &[MinidumpUnloadedModule]
    ensures { map unloaded_of result.now
        ≡ unwrap_or (result_ok (map_ok unloaded_module_list_stream.value list.now)) [] }
{
    list.as_ref().map_or(&[], |list| list.iter().as_slice())
}

// ---- what the streams say of their writer

/// Tells whether the writer of the dump is known to have the `si_code` of each signal of Linux: it is
/// Crashpad, or that of Mozilla, by the streams that they alone write.
pub fn has_signal_codes(contents: &Contents<'_>) -> bool
    ensures { result ≡ has_signal_codes (contents_of contents.now) }
{
    is_there(&contents.messages.crashpad)
        || is_there(&contents.messages.soft_errors)
        || is_there(&contents.process.limits)
}

// Tells whether a stream is in the dump, whether it can be read or not.
fn is_there<'a, S: MinidumpStream<'a>>(stream: &Result<S, Error>) -> bool
    ensures { result ≡ is_there (map_ok S.spec.value stream.now) }
{
    !error_of(stream).is_some_and(|error| is_missing(error))
}

/// Tells whether an error is that of a stream that is missing, and not of one that can't be read.
pub fn is_missing(error: Error) -> bool
    ensures { result ≡ is_missing error }
{
    error == Error::StreamNotFound
}
