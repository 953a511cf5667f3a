ghost use Rattle.std.specs.Prelude.{◌≡◌, ◌≤◌, IfOk, IsOkUnless};
ghost use Rattle.std.specs.Option.{option_copied};
ghost use Rattle.minidump.specs.Below.Contexts.Context.{map_ok};
ghost use Rattle.minidump.specs.Below.Records.Handles.{handle_of};
ghost use Rattle.minidump.specs.Below.Records.NamedText.{lacks_text};
ghost use Rattle.minidump.specs.Promise.{assertion_stream, exception_stream, handle_data_stream};
ghost use Rattle.minidump.specs.Promise.{mac_bootargs_stream, system_info_stream};
ghost use Rattle.crash_threads.specs.Cause.{cause_of, exception_of};
ghost use Rattle.crash_streams.specs.Contents.{contents_of};
ghost use Rattle.crash.specs.Damage.{assertion_lacking, boot_args_lacking, context_damage, counted_damage, damage_in};
ghost use Rattle.crash.specs.Damage.{exception_damage, exception_error, handles_lacking, if_any, names_lacking};
ghost use Rattle.crash.specs.Damage.{parameters_damage, stack_damage, stream_damage, system_lacking, texts_damage};
ghost use Rattle.crash_process.specs.Directory.{directory_of};
ghost use Rattle.crash_process.specs.ProcessTexts.{comments_of};
ghost use Rattle.crash_process.specs.Process.{process_of};
ghost use Rattle.crash_threads.specs.Threads.{thread_value, threads_of};

use crash_process::{Comments, CrashDirectory, CrashProcess, StreamEntry};
use crash_streams::Contents;
use crash_threads::{ContextProblem, CrashCause, CrashException, CrashThread, CrashThreads};
use minidump::format::MINIDUMP_STREAM_TYPE;
use minidump::{
    Error, MinidumpAssertion, MinidumpException, MinidumpHandleDataStream,
    MinidumpHandleDescriptor, MinidumpMacBootargs, MinidumpMacCrashInfo, MinidumpStream,
    MinidumpSystemInfo, MinidumpThreadNames,
};
use minidump_bytes::as_text;
use std::alloc::Global;

/// Something of a dump that is there and can't be read, whether anything else stands in for it or
/// not: a list of memory that can't be read is damage also where the other list can be, and a stack
/// outside the file also where a list of memory holds it.
#[derive(Clone, Copy)]
pub enum Damage {
    /// A stream, by the entry of the directory that decides its type.
    Stream {
        /// The number of its type, as the directory has it.
        number: u32,
        /// Why it can't be read.
        error: Error,
    },
    /// Entries of the directory whose bytes are not all in the file, where the entry that decides their
    /// type has its bytes there. Exceptions don't count: each is told by itself.
    Entries {
        /// How many there are.
        count: u64,
    },
    /// Regions of the plain list of memory (MemoryListStream), of an RVA other than 0, whose bytes are
    /// not all in the file. The memory has none of them.
    Regions {
        /// How many there are.
        count: u64,
    },
    /// Entries of the list of modules (ModuleListStream) that have no addresses: their size is 0, or
    /// their end is beyond 2^64. The modules have none of them.
    Modules {
        /// How many there are.
        count: u64,
    },
    /// Texts of a stream that can't be read: an entry names a text by an RVA other than 0 and there is
    /// none, or a surrogate of its UTF-16 lacks its partner. They are the text of the service pack
    /// (SystemInfoStream), the comment of CommentStreamW, the names of handles, of their types and of
    /// threads, the texts of an assertion, and the arguments of macOS's boot. Such a text is absent; a
    /// thread may have an earlier name. A comment of CommentStreamW also counts, once in all, if its last
    /// byte is half a code unit and no code unit before it is 0; the text before that byte is then there,
    /// unless a surrogate lacks its partner.
    Texts {
        /// The number of the stream's type.
        number: u32,
        /// How many there are.
        count: u64,
    },
    /// Records that a stream counts and that can't be read: those of macOS's crash information
    /// (MozMacosCrashInfoStream) whose version is 0, and those beyond the 20 that it has room for.
    Records {
        /// The number of the stream's type.
        number: u32,
        /// How many there are.
        count: u64,
    },
    /// The exception of an entry of the directory before the last one of its type. The error of the
    /// last one is that of the stream.
    Exception {
        /// Why it can't be read.
        error: Error,
    },
    /// The parameters of an exception beyond the 15 that its record has room for, where
    /// `number_parameters` is greater. Told of each exception that can be read, also of one that tells of
    /// no crash.
    Parameters {
        /// The id of the thread on which the exception happened.
        thread: u32,
        /// How many there are.
        count: u64,
    },
    /// The context of an exception on a thread, whose bytes are not all in the file. Each exception
    /// that can be read counts, also one that tells of no crash.
    ExceptionContext {
        /// The id of the thread.
        thread: u32,
    },
    /// The own context of a thread of the list, whose bytes are not all in the file.
    ThreadContext {
        /// The id of the thread.
        thread: u32,
    },
    /// The stack that the entry of a thread names, whose bytes are not all in the file.
    Stack {
        /// The id of the thread.
        thread: u32,
    },
}

// Returns what is there and can't be read: streams, what is told by its number, exceptions, their
// parameters and contexts, contexts of threads and stacks.
pub(crate) fn damage_of(
    alloc: Global,
    contents: &Contents<'_>,
    directory: &CrashDirectory,
    process: &CrashProcess,
    cause: &CrashCause,
    threads: &CrashThreads,
) -> Result<Vec<Damage>, Error>
    ensures damage { IfOk result (λ damage. damage.items
        ≡ damage_in (contents_of contents.now) (directory_of directory.now)
        (process_of process.now) (cause_of cause.now) (threads_of threads.now)) }
    ensures memory { IsOkUnless result Error.OutOfMemory }
{
    let counted = counted_damage(alloc, contents, directory, &process.comments)?;
    let streams = directory.entries.as_slice();
    let records = contents.threads.exceptions.as_slice();
    let exceptions = cause.exceptions.as_slice();
    let before_last = &exceptions[..exceptions.len().saturating_sub(1)];
    let threads = threads.threads.as_slice();
    let damage: Vec<Damage> = streams
        .iter()
        .filter_map(|each| stream_damage(each))
        .chain(counted.iter().filter_map(|each| *each))
        .chain(before_last.iter().filter_map(|each| exception_error(each)))
        .chain(records.iter().filter_map(|each| parameters_damage(each)))
        .chain(exceptions.iter().filter_map(|each| exception_damage(each)))
        .chain(threads.iter().filter_map(|each| context_damage(each)))
        .chain(threads.iter().filter_map(|each| stack_damage(each)))
        .collect(alloc)?;
    Ok(damage)
}

// Returns a stream that can't be read.
fn stream_damage(entry: &StreamEntry) -> Option<Damage>
    ensures { result ≡ stream_damage entry.now }
{
    Some(Damage::Stream {
        number: entry.number,
        error: entry.error?,
    })
}

// Returns what is told by its number: entries and regions outside the file, modules without addresses,
// and texts and records by their streams, ascending by type.
fn counted_damage(
    alloc: Global,
    contents: &Contents<'_>,
    directory: &CrashDirectory,
    comments: &Comments,
) -> Result<[Option<Damage>; 10], Error>
    ensures counted { IfOk result (λ counted. counted ≡ counted_damage (contents_of contents.now)
        (directory_of directory.now) (comments_of comments.now)) }
    ensures memory { IsOkUnless result Error.OutOfMemory }
{
    let entries = directory.entries_outside;
    let regions = contents.space.regions_outside;
    let modules = contents.space.modules.entries_without_addresses();
    let system = system_lacking(&contents.system.system);
    let comment = u64::from(comments.is_wide_damaged);
    let handles = handles_lacking(&contents.process.handles);
    let names = &contents.threads.names;
    let threads = names.as_ref().map_or(0, |names| names.unreadable_names());
    let assertion = assertion_lacking(alloc, &contents.messages.assertion)?;
    let info = &contents.messages.mac_crash_info;
    let records = info.as_ref().map_or(0, |info| info.unreadable_records());
    let records_number = MinidumpMacCrashInfo::number_of_type();
    let boot_args = boot_args_lacking(&contents.messages.mac_boot_args);
    Ok([
        if_any(entries, Damage::Entries { count: entries }),
        if_any(regions, Damage::Regions { count: regions }),
        if_any(modules, Damage::Modules { count: modules }),
        texts_damage(MinidumpSystemInfo::number_of_type(), system),
        texts_damage(MINIDUMP_STREAM_TYPE::CommentStreamW.number(), comment),
        texts_damage(MinidumpHandleDataStream::number_of_type(), handles),
        texts_damage(MinidumpThreadNames::number_of_type(), threads),
        texts_damage(MinidumpAssertion::number_of_type(), assertion),
        if_any(
            records,
            Damage::Records {
                number: records_number,
                count: records,
            },
        ),
        texts_damage(MinidumpMacBootargs::number_of_type(), boot_args),
    ])
}

// Returns damage, or `None` if there is none of it.
fn if_any(count: u64, damage: Damage) -> Option<Damage>
    ensures { result ≡ if_any count damage }
{
    (count != 0).then_some(damage)
}

// Returns the texts of a stream that can't be read, if there are any.
fn texts_damage(number: u32, count: u64) -> Option<Damage>
    ensures { result ≡ texts_damage number count }
{
    if_any(count, Damage::Texts { number, count })
}

// Returns an exception that can't be read.
fn exception_error(exception: &Result<CrashException, Error>) -> Option<Damage>
    ensures { result ≡ exception_error (map_ok exception_of exception.now) }
{
    let error = *exception.as_ref().err()?;
    Some(Damage::Exception { error })
}

// Returns the parameters that the record of an exception counts and has no room for, if there are any.
fn parameters_damage(exception: &Result<MinidumpException<'_>, Error>) -> Option<Damage>
    ensures { result ≡ parameters_damage (map_ok exception_stream.value exception.now) }
{
    let exception = exception.as_ref().ok()?;
    let record = &exception.raw.exception_record;
    let count = record.number_parameters.saturating_sub(15) as u64;
    let thread = exception.thread_id;
    if_any(count, Damage::Parameters { thread, count })
}

// Returns the context of an exception if it is outside the file.
fn exception_damage(exception: &Result<CrashException, Error>) -> Option<Damage>
    ensures { result ≡ exception_damage (map_ok exception_of exception.now) }
{
    let exception = exception.as_ref().ok()?;
    match exception.context_problem {
        Some(ContextProblem::Outside) => Some(Damage::ExceptionContext {
            thread: exception.thread,
        }),
        _ => None,
    }
}

// Returns the own context of a thread if it is outside the file.
fn context_damage(thread: &CrashThread) -> Option<Damage>
    ensures { result ≡ context_damage (thread_value thread.now) }
{
    match thread.context_problem {
        Some(ContextProblem::Outside) => Some(Damage::ThreadContext { thread: thread.id }),
        _ => None,
    }
}

// Returns the stack of a thread if it is outside the file.
fn stack_damage(thread: &CrashThread) -> Option<Damage>
    ensures { result ≡ stack_damage (thread_value thread.now) }
{
    let damage = Damage::Stack { thread: thread.id };
    thread.is_stack_outside.then_some(damage)
}

// ---- texts that can't be read

// Returns how many texts of the system information can't be read: that of the service pack.
fn system_lacking(system: &Result<MinidumpSystemInfo, Error>) -> u64
    ensures { result ≡ system_lacking (map_ok system_info_stream.value system.now) }
{
    system.as_ref().map_or(0, |system| {
        u64::from(lacks_text(system.raw.csd_version_rva as u64, system.csd_version()))
    })
}

// Returns how many names of handles and of their types can't be read.
fn handles_lacking(found: &Result<MinidumpHandleDataStream, Error>) -> u64
    ensures { result ≡ handles_lacking (map_ok handle_data_stream.value found.now) }
{
    let Ok(stream) = found else {
        return 0;
    };
    let handles = stream.handles.as_slice();
    let mut count = 0;
    for handle in handles {
        count += names_lacking(handle);
    }
    count
}

// Returns how many texts of an assertion can't be read: its expression, its function and its file.
fn assertion_lacking(
    alloc: Global,
    assertion: &Result<MinidumpAssertion, Error>,
) -> Result<u64, Error>
    ensures count { IfOk result
        (λ count. count ≡ assertion_lacking (map_ok assertion_stream.value assertion.now)) }
    ensures memory { IsOkUnless result Error.OutOfMemory }
{
    let Ok(assertion) = assertion else {
        return Ok(0);
    };
    let expression = assertion.expression(alloc)?;
    let function = assertion.function(alloc)?;
    let file = assertion.file(alloc)?;
    Ok(u64::from(expression.is_none()) + u64::from(function.is_none()) + u64::from(file.is_none()))
}

// Returns how many texts of macOS's boot arguments can't be read.
fn boot_args_lacking(arguments: &Result<MinidumpMacBootargs, Error>) -> u64
    ensures { result ≡ boot_args_lacking (map_ok mac_bootargs_stream.value arguments.now) }
{
    arguments.as_ref().map_or(0, |found| {
        u64::from(lacks_text(found.raw.bootargs, as_text(&found.bootargs)))
    })
}

// Returns how many names of a handle can't be read: that of its type, and its own.
fn names_lacking(handle: &MinidumpHandleDescriptor) -> u64
    ensures count { result ≡ names_lacking (handle_of handle.now) }
    ensures few { result ≤ 2 }
{
    let type_rva = handle.raw.type_name_rva().copied().unwrap_or(0);
    let object_rva = handle.raw.object_name_rva().copied().unwrap_or(0);
    u64::from(lacks_text(type_rva as u64, as_text(&handle.type_name)))
        + u64::from(lacks_text(object_rva as u64, as_text(&handle.object_name)))
}

// Tells whether no text is where an RVA names one.
fn lacks_text(rva: u64, text: Option<&str>) -> bool
    ensures { result ≡ lacks_text rva (option_copied text.entry) }
{
    text.is_none() && rva != 0
}
