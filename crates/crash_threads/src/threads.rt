ghost use Rattle.std.specs.Prelude.{◌≡◌, IfOk, IsOkUnless, map, string_bytes};
ghost use Rattle.std.specs.Option.{option_copied, option_map};
ghost use Rattle.minidump.specs.Below.Contexts.Context.{map_ok};
ghost use Rattle.minidump.specs.Promise.{exception_stream, thread_list_stream, thread_names_stream};
ghost use Rattle.minidump.specs.Thread.{thread_of};
ghost use Rattle.crash_streams.specs.Contents.{contents_of};
ghost use Rattle.crash_threads.specs.Frames.{walked_of};
ghost use Rattle.crash_threads.specs.Threads.{all_threads, crashed_thread, crashing_at, entries_in, extra_in};
ghost use Rattle.crash_threads.specs.Threads.{extra_walked, last_error_in, name_in, short_context, thread_in};
ghost use Rattle.crash_threads.specs.Threads.{thread_value, threads_in, threads_of, unlisted, walked_at};

use crate::cause::{counting_exception, exception_at};
use crate::contexts::{
    ContextOrigin, ContextProblem, CrashContext, ShortContext, context_at, found_context,
    named_bytes, problem_in, registers_of,
};
use crate::frames::{CrashWalk, code_bits_of, walk_of, walked_exception, walked_thread};
use crate::last::last_index;
use crate::stacks::{StackRange, named_stack, stack_memory};
use crash_streams::{Contents, owned_text};
use minidump::system_info::Os;
use minidump::{
    CodeNames, Error, MinidumpContext, MinidumpException, MinidumpThread, MinidumpThreadList,
    MinidumpThreadNames,
};
use stack_walk::Stack;
use std::alloc::Global;

/// The threads of a process.
#[derive(Drop)]
pub struct CrashThreads {
    /// The threads, in the order of their list, and after them that of the exception that counts if
    /// the list lacks it.
    pub threads: Vec<CrashThread>,
    /// The index in `threads` of the thread that crashed: the last of the id of the exception that
    /// counts, or `None` if none counts.
    pub crashing: Option<usize>,
    /// How many of the low bits of a return address are its address, as [`stack_walk::code_bits`] returns
    /// it for the system and the modules; 64 without system information. All walks have it.
    pub code_bits: u32,
}

impl CrashThreads {
    /// Returns the thread that crashed, with its index in `threads`.
    pub fn crashed(&self) -> Option<(usize, &CrashThread)>
        ensures { option_map (λ p. (p.0, thread_value p.1.now)) result
            ≡ crashed_thread (threads_of self.now) }
    {
        let index = self.crashing?;
        Some((index, self.threads.get(index)?))
    }
}

/// A thread.
#[derive(Drop)]
pub struct CrashThread {
    /// Its id.
    pub id: u32,
    /// Whether it is in the list of threads. What isn't is the thread of the exception that counts,
    /// of which only the exception's context and a name are known.
    pub is_listed: bool,
    /// Its name, by its id in the names of threads.
    pub name: Option<String>,
    /// Its registers: of the context of the exception that counts, if that happened on this thread,
    /// or of the thread's own, by the first of these that is whole, else by the first that is cut
    /// after its general registers.
    pub context: Option<CrashContext>,
    /// Why its own context can't give registers, or `None` if it can, whole or cut short, and for a
    /// thread that the list lacks.
    pub context_problem: Option<ContextProblem>,
    /// Where its stack is, as its entry names it; `None` if that has no bytes.
    pub stack: Option<StackRange>,
    /// The memory of its stack: its own, else the kept region of the memory in which it begins, and
    /// `None` if neither is in the file.
    pub stack_memory: Option<StackRange>,
    /// Whether its entry names bytes of a stack that are not all in the file.
    pub is_stack_outside: bool,
    /// What is found in its stack, or `None` without system information or a context.
    pub walk: Option<CrashWalk>,
    /// Its last error in words, which Windows alone keeps, or `None` on another system or without
    /// system information, or if the memory lacks it: [`MinidumpThread::last_error`].
    pub last_error: Option<String>,
}

impl CrashThread {
    /// Returns how much there is of the context of its registers, if that is cut.
    pub fn short_context(&self) -> Option<ShortContext>
        ensures { result ≡ short_context (thread_value self.now) }
    {
        self.context.as_ref()?.short
    }
}

/// Returns the threads of a process, by the streams of its dump. The names of codes are those of
/// `names`. At most `scan` words of each stack are taken for candidates.
pub fn threads_of(
    alloc: Global,
    contents: &Contents<'_>,
    names: &CodeNames<'_>,
    scan: usize,
) -> Result<CrashThreads, Error>
    ensures threads { IfOk result (λ threads. threads_of threads
        ≡ threads_in names.now scan (contents_of contents.now)) }
    ensures memory { IsOkUnless result Error.OutOfMemory }
{
    let exception = counting_exception(contents);
    let code_bits = code_bits_of(contents);
    let threads = all_threads(alloc, contents, names, scan, code_bits, exception)?;
    let crashing = crashing_at(threads.as_slice(), exception);
    Ok(CrashThreads {
        threads,
        crashing,
        code_bits,
    })
}

// Returns the index of the thread that crashed: the last of the exception's id.
fn crashing_at(threads: &[CrashThread], exception: Option<&MinidumpException<'_>>) -> Option<usize>
    ensures { result ≡ crashing_at (map thread_value threads.now)
        (option_map exception_stream.value (option_copied exception.entry)) }
{
    let id = exception?.thread_id;
    last_index(threads, |thread| thread.id == id)
}

// Returns the threads of the list, and after them that of the exception if the list lacks it.
fn all_threads<'a>(
    alloc: Global,
    contents: &Contents<'a>,
    names: &CodeNames<'_>,
    scan: usize,
    code_bits: u32,
    exception: Option<&MinidumpException<'a>>,
) -> Result<Vec<CrashThread>, Error>
    ensures threads { IfOk result (λ threads. map thread_value threads.items
        ≡ all_threads names.now scan (contents_of contents.now) code_bits
        (option_map exception_stream.value (option_copied exception.entry))) }
    ensures memory { IsOkUnless result Error.OutOfMemory }
{
    let entries = entries_of(&contents.threads.threads);
    let mut threads = Vec::new(alloc);
    for item in entries {
        threads.push(thread_in(alloc, contents, names, scan, code_bits, exception, item)?)?;
    }
    if let Some(exception) = unlisted(contents, exception) {
        threads.push(extra(alloc, contents, exception, scan, code_bits)?)?;
    }
    Ok(threads)
}

// Returns a thread of the list.
fn thread_in<'a>(
    alloc: Global,
    contents: &Contents<'a>,
    names: &CodeNames<'_>,
    scan: usize,
    code_bits: u32,
    exception: Option<&MinidumpException<'a>>,
    item: &MinidumpThread<'a>,
) -> Result<CrashThread, Error>
    ensures thread { IfOk result (λ thread. thread_value thread
        ≡ thread_in names.now scan (contents_of contents.now) code_bits
        (option_map exception_stream.value (option_copied exception.entry)) (thread_of item.now)) }
    ensures memory { IsOkUnless result Error.OutOfMemory }
{
    let id = item.raw.thread_id;
    let bytes = named_bytes(&item.raw.thread_context, item.context_bytes());
    let location = &item.raw.stack.memory;
    let is_stack_outside = location.rva != 0
        && location.data_size != 0
        && item.own_stack().is_none();
    let walked = walked_thread(contents, code_bits, exception, item);
    Ok(CrashThread {
        id,
        is_listed: true,
        name: owned_text(alloc, name_of(&contents.threads.names, id))?,
        context: registers_of(alloc, found_context(contents, exception, item))?,
        context_problem: problem_in(contents, item.endian(), bytes),
        stack: named_stack(&item.raw.stack),
        stack_memory: stack_memory(contents, item),
        is_stack_outside,
        walk: walk_of(alloc, walked, scan)?,
        last_error: last_error_of(alloc, contents, names, item)?,
    })
}

// Returns an exception if the list lacks its thread.
fn unlisted<'l, 'a>(
    contents: &Contents<'a>,
    exception: Option<&'l MinidumpException<'a>>,
) -> Option<&'l MinidumpException<'a>>
    ensures { option_map exception_stream.value (option_copied result)
        ≡ unlisted (contents_of contents.now)
        (option_map exception_stream.value (option_copied exception.entry)) }
{
    let exception = exception?;
    match &contents.threads.threads {
        Ok(list) if list.get_thread(exception.thread_id).is_some() => None,
        _ => Some(exception),
    }
}

// Returns the thread of an exception, which the list lacks.
fn extra<'l, 'a>(
    alloc: Global,
    contents: &'l Contents<'a>,
    exception: &'l MinidumpException<'a>,
    scan: usize,
    code_bits: u32,
) -> Result<CrashThread, Error>
    ensures thread { IfOk result (λ t. thread_value t
        ≡ extra_in scan (contents_of contents.now) code_bits (exception_stream.value exception.now)) }
    ensures memory { IsOkUnless result Error.OutOfMemory }
{
    let id = exception.thread_id;
    let found = context_at(contents, exception).map(|context| (
        ContextOrigin::OfException,
        context,
    ));
    let walked = walked_exception(contents, code_bits, exception);
    Ok(CrashThread {
        id,
        is_listed: false,
        name: owned_text(alloc, name_of(&contents.threads.names, id))?,
        context: registers_of(alloc, found)?,
        context_problem: None,
        stack: None,
        stack_memory: None,
        is_stack_outside: false,
        walk: walk_of(alloc, walked, scan)?,
        last_error: None,
    })
}

// ---- how they are walked

/// Returns the stack and the context by which the thread of an index is walked, or `None` if it has no
/// walk, or there is no such thread. Of a return address the low `code_bits` bits are its address, and
/// `counts` is the index of the exception that counts.
pub fn walked_at<'l, 'a>(
    contents: &'l Contents<'a>,
    code_bits: u32,
    counts: Option<usize>,
    index: usize,
) -> Option<(Stack<'l, 'a>, MinidumpContext)>
    ensures { option_map walked_of result
        ≡ walked_at (contents_of contents.now) code_bits counts index }
{
    let exception = exception_at(contents, counts);
    let threads = entries_of(&contents.threads.threads);
    match threads.get(index) {
        Some(thread) => walked_thread(contents, code_bits, exception, thread),
        None if index == threads.len() => extra_walked(contents, code_bits, exception),
        None => None,
    }
}

// Returns the stack and the context by which the thread of an exception is walked, if the list lacks
// it.
fn extra_walked<'l, 'a>(
    contents: &'l Contents<'a>,
    code_bits: u32,
    exception: Option<&'l MinidumpException<'a>>,
) -> Option<(Stack<'l, 'a>, MinidumpContext)>
    ensures { option_map walked_of result ≡ extra_walked (contents_of contents.now) code_bits
        (option_map exception_stream.value (option_copied exception.entry)) }
{
    walked_exception(contents, code_bits, unlisted(contents, exception)?)
}

// ---- what is known of a thread

// Returns the entries of the list of threads: none if it can't be read.
pub(crate) fn entries_of<'l, 'a>(
    threads: &'l Result<MinidumpThreadList<'a>, Error>,
) -> &'l [MinidumpThread<'a>]
    ensures { map thread_of result.now ≡ entries_in (map_ok thread_list_stream.value threads.now) }
{
    match threads {
        Ok(list) => list.threads.as_slice(),
        Err(_) => &[],
    }
}

// Returns the name of a thread.
fn name_of(names: &Result<MinidumpThreadNames, Error>, id: u32) -> Option<&str>
    ensures { option_copied result ≡ name_in (map_ok thread_names_stream.value names.now) id }
{
    names.as_ref().ok()?.get_name(id)
}

// Makes the words for the last error of a thread, which Windows alone keeps.
fn last_error_of<'a>(
    alloc: Global,
    contents: &Contents<'a>,
    names: &CodeNames<'_>,
    thread: &MinidumpThread<'a>,
) -> Result<Option<String>, Error>
    ensures error { IfOk result (λ error. option_map string_bytes error
        ≡ last_error_in names.now (contents_of contents.now) (thread_of thread.now)) }
    ensures memory { IsOkUnless result Error.OutOfMemory }
{
    match &contents.system.system {
        Ok(system) if matches!(system.os, Os::Windows) => {
            match thread.last_error(system.cpu, &contents.space.memory, names) {
                Some(error) => Ok(Some(error.text(alloc, names)?)),
                None => Ok(None),
            }
        }
        _ => Ok(None),
    }
}
