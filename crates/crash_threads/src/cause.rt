ghost use Rattle.std.specs.Prelude.{◌≡◌, IfOk, IsOkUnless, map, string_bytes};
ghost use Rattle.std.specs.Option.{option_and_then, option_copied, option_map};
ghost use Rattle.minidump.specs.Below.Contexts.Context.{map_ok};
ghost use Rattle.minidump.specs.Promise.{exception_stream, system_info_stream};
ghost use Rattle.crash_threads.specs.Cause.{address_at, address_unless, cause_in, cause_of, counted_exception};
ghost use Rattle.crash_threads.specs.Cause.{exception_in, exception_of, is_instruction, reason_in};
ghost use Rattle.crash_threads.specs.Cause.{signal_words};
ghost use Rattle.crash_streams.specs.Contents.{contents_of};
ghost use Rattle.crash_threads.specs.Counting.{counted, counting, counting_exception};

use crate::addresses::{AddressFacts, facts_of};
use crate::contexts::{ContextProblem, context_on, named_bytes, problem_in};
use crate::last::last_index;
use crash_streams::{
    Access, Contents, Sender, access_of, crash_address, description_of, ending_signal,
    has_signal_codes, lacks_address, mac_signal_name, may_be_instruction, parameters_of, sender_of,
};
use minidump::text::Piece::{Decimal, Words};
use minidump::text::format_pieces;
use minidump::{CodeNames, Error, MinidumpContext, MinidumpException, MinidumpSystemInfo};
use minidump_bytes::as_text;
use stack_walk::has_code;
use std::alloc::{AllocError, Global};

/// Where and why a process crashed.
#[derive(Drop)]
pub struct CrashCause {
    /// The exceptions of all entries of the directory that have their type, in its order, each or
    /// why it can't be read. The last is that of the entry that decides.
    pub exceptions: Vec<Result<CrashException, Error>>,
    /// The index in `exceptions` of the one that counts: the last that can be read and whose code
    /// isn't 0, else the last that can be read, and `None` if none can be.
    pub counts: Option<usize>,
    /// What is known of the address of the crash, or `None` if no exception counts, or the one that
    /// counts has no address.
    pub address: Option<AddressFacts>,
}

impl CrashCause {
    /// Returns the exception that counts.
    pub fn counted(&self) -> Option<&CrashException>
        ensures { option_map exception_of (option_copied result)
            ≡ counted_exception (cause_of self.now) }
    {
        counted(self.exceptions.as_slice(), self.counts)
    }

    /// Returns the words for the reason of the crash, that of the exception that counts.
    pub fn reason(&self) -> Option<&str>
        ensures { option_copied result
            ≡ option_and_then (λ e. e.reason) (counted_exception (cause_of self.now)) }
    {
        as_text(&self.counted()?.reason)
    }
}

/// An exception.
#[derive(Drop)]
pub struct CrashException {
    /// The id of the thread on which it happened, as its stream has it.
    pub thread: u32,
    /// The code of its record: on Linux and Android the number of the signal.
    pub code: u32,
    /// The flags of its record: on Linux and Android the `si_code` of the signal.
    pub flags: u32,
    /// The address of its record, at which it happened.
    pub at: u64,
    /// The address of the record of another exception, during which it happened; 0 if there is none.
    pub nested: u64,
    /// The parameters of its record, as many as it says, but at most the 15 that it has.
    pub parameters: Vec<u64>,
    /// What LLDB says of the exception. It writes a text over the parameters, whose numbers then mean
    /// nothing, and `LLDB` (0x4c4c4442) in the flags; `None` for other flags, and for an empty text. The
    /// text ends before its first NUL, or has all 120 bytes; U+FFFD stands for what isn't UTF-8.
    pub description: Option<String>,
    /// How memory was accessed, if it is an access violation, an in-page error or an access to a guard
    /// page of Windows, as a stack overflow, and `None` for a general protection, whose record has no
    /// access.
    pub access: Option<Access>,
    /// The process that sent the signal, if one did, on Linux and Android. The address of the
    /// record then has the id of the process in the low 32 bits and that of its user in the high
    /// ones. If it is 0, the first two parameters have them, or of SIGPOLL and SIGSYS the first
    /// alone, unless a pointer has 32 bits.
    ///
    /// SI_USER is 0, as the flags are where there is no `si_code`. By SI_USER a signal therefore
    /// has no sender if the id of the process isn't from 1 to 0x3fffff, as of one outside of the
    /// receiver's namespace, or if the signal is SIGSEGV or SIGBUS and the address of the record is
    /// in that range: that is taken for the address of an access. Where the writer is known to have
    /// the `si_code` of each signal ([`has_signal_codes`]), it has none only if that id is above
    /// 0x3fffff.
    pub sender: Option<Sender>,
    /// The address of the crash: the one that was accessed where the record has it, else that of
    /// the record, in as many bits as a pointer has. `None` without system information, for a signal
    /// that a process sent, and on Linux and Android if it is 0, but for SIGILL, SIGTRAP, SIGBUS,
    /// SIGFPE and SIGSEGV, which have an address unless the kernel sent them without one: any of them
    /// by SI_KERNEL, as for an access to an address that isn't canonical, SIGSEGV by SEGV_MTEAERR or
    /// SEGV_CPERR, SIGBUS by BUS_ADRALN. On macOS an access to such an address is an EXC_BAD_ACCESS
    /// with EXC_I386_GPFLT, which has no address either, nor has a process that a signal ended
    /// ([`crash_streams::ending_signal`]). On Windows it is an access violation that
    /// reads the last address, which has none on x86 and x86-64.
    ///
    /// `None` also for an access, or on Linux and Android a code that is no fault's, as SIGABRT, whose
    /// flags don't say why it was raised, if its address is the instruction pointer of its own context
    /// and code is known to be there, in a module or in memory that may be run: LLDB writes that
    /// address, whatever was accessed. Such flags are LLDB's and, but on Windows, 0; the accesses are
    /// SIGSEGV and SIGBUS, EXC_BAD_ACCESS of macOS and iOS, and the access violations, in-page errors and
    /// accesses to guard pages of Windows. On Windows LLDB's flags also say that a text stands in the
    /// place of an address in the parameters.
    pub address: Option<u64>,
    /// The reason of the crash in words, or `None` without system information. Of a process of macOS that
    /// a signal ended it is as `EXC_CRASH / SIGABRT`, or `EXC_CRASH / signal 2` for a signal without a
    /// name here.
    pub reason: Option<String>,
    /// Why its context can't give registers, or `None` if it can, whole or cut short: also where
    /// those of the thread's own are used, as beside one that is cut short.
    pub context_problem: Option<ContextProblem>,
}

/// Returns where and why a process crashed, by the streams of its dump. The names of codes are those
/// of `names`.
pub fn cause_of(
    alloc: Global,
    contents: &Contents<'_>,
    names: &CodeNames<'_>,
) -> Result<CrashCause, Error>
    ensures cause { IfOk result
        (λ cause. cause_of cause ≡ cause_in names.now (contents_of contents.now)) }
    ensures memory { IsOkUnless result Error.OutOfMemory }
{
    let mut exceptions = Vec::new(alloc);
    for item in contents.threads.exceptions.as_slice() {
        exceptions.push(exception_of(alloc, contents, names, item)?)?;
    }
    let counts = counting(contents.threads.exceptions.as_slice());
    let address = address_of(contents, exceptions.as_slice(), counts);
    Ok(CrashCause {
        exceptions,
        counts,
        address,
    })
}

// Returns an exception, or why it can't be read.
fn exception_of(
    alloc: Global,
    contents: &Contents<'_>,
    names: &CodeNames<'_>,
    item: &Result<MinidumpException<'_>, Error>,
) -> Result<Result<CrashException, Error>, Error>
    ensures exception { IfOk result (λ e. map_ok exception_of e
        ≡ map_ok (exception_in names.now (contents_of contents.now))
        (map_ok exception_stream.value item.now)) }
    ensures memory { IsOkUnless result Error.OutOfMemory }
{
    let exception = match item {
        Ok(exception) => exception,
        Err(error) => return Ok(Err(*error)),
    };
    let system = contents.system.system.as_ref().ok();
    let record = &exception.raw.exception_record;
    let sender = sender_of(has_signal_codes(contents), system, record);
    let bytes = named_bytes(&exception.raw.thread_context, exception.context_bytes());
    Ok(Ok(CrashException {
        thread: exception.thread_id,
        code: record.exception_code,
        flags: record.exception_flags,
        at: record.exception_address,
        nested: record.exception_record,
        parameters: parameters_of(alloc, record)?,
        description: description_of(alloc, record)?,
        access: access_of(system, record),
        sender,
        address: address_unless(contents, sender, exception, system),
        reason: reason_of(alloc, exception, system, names)?,
        context_problem: problem_in(contents, exception.endian(), bytes),
    }))
}

// Returns the address of the crash where the system is known, unless a process sent the signal, or the
// record has none: none at all, or one that says only where the thread stood.
fn address_unless(
    contents: &Contents<'_>,
    sender: Option<Sender>,
    exception: &MinidumpException<'_>,
    system: Option<&MinidumpSystemInfo>,
) -> Option<u64>
    ensures { result ≡ address_unless (contents_of contents.now) sender
        (option_map system_info_stream.value (option_copied system.entry))
        (exception_stream.value exception.now) }
{
    let (None, Some(system)) = (sender, system) else {
        return None;
    };
    let record = &exception.raw.exception_record;
    let address = crash_address(system, exception);
    let has_no_address = lacks_address(system.os, system.cpu, record)
        || may_be_instruction(system.os, record)
            && is_instruction(exception, system, address)
            && has_code(&contents.space.modules, &contents.space.infos, address);
    if has_no_address { None } else { Some(address) }
}

// Tells whether an address is the instruction pointer of an exception's own context.
fn is_instruction(
    exception: &MinidumpException<'_>,
    system: &MinidumpSystemInfo,
    address: u64,
) -> bool
    ensures { result ≡ is_instruction (system_info_stream.value system.now)
        (exception_stream.value exception.now) address }
{
    let Some(bytes) = exception.context_bytes() else {
        return false;
    };
    context_on(system, exception.endian(), bytes).is_some_and(|found| {
        MinidumpContext::from_raw(found.raw).get_instruction_pointer() == address
    })
}

// Makes the words for the reason of the crash.
fn reason_of(
    alloc: Global,
    exception: &MinidumpException<'_>,
    system: Option<&MinidumpSystemInfo>,
    names: &CodeNames<'_>,
) -> Result<Option<String>, Error>
    ensures reason { IfOk result (λ reason. option_map string_bytes reason ≡ reason_in names.now
        (option_map system_info_stream.value (option_copied system.entry))
        (exception_stream.value exception.now)) }
    ensures memory { IsOkUnless result Error.OutOfMemory }
{
    let Some(system) = system else {
        return Ok(None);
    };
    match ending_signal(system.os, &exception.raw.exception_record) {
        Some(signal) => Ok(Some(signal_words(alloc, signal)?)),
        None => {
            let reason = exception.get_crash_reason(system.os, system.cpu, names);
            Ok(Some(reason.text(alloc, names)?))
        }
    }
}

// Makes the words for a signal that ended a process of macOS.
fn signal_words(alloc: Global, signal: u8) -> Result<String, AllocError>
    ensures { IfOk result (λ text. string_bytes text ≡ signal_words signal) }
{
    match mac_signal_name(signal) {
        Some(name) => format_pieces(alloc, &[Words("EXC_CRASH / "), Words(name)]),
        None => format_pieces(
            alloc,
            &[Words("EXC_CRASH / signal "), Decimal(signal as u64)],
        ),
    }
}

// Returns what is known of the address of the crash.
fn address_of(
    contents: &Contents<'_>,
    exceptions: &[Result<CrashException, Error>],
    counts: Option<usize>,
) -> Option<AddressFacts>
    ensures { result ≡ address_at (contents_of contents.now)
        (counted (map (map_ok exception_of) exceptions.now) counts) }
{
    let address = counted(exceptions, counts)?.address?;
    Some(facts_of(contents, address))
}

// Returns the exception of an index, if it can be read.
fn counted(
    exceptions: &[Result<CrashException, Error>],
    counts: Option<usize>,
) -> Option<&CrashException>
    ensures { option_map exception_of (option_copied result)
        ≡ counted (map (map_ok exception_of) exceptions.now) counts }
{
    exceptions.get(counts?)?.as_ref().ok()
}

// ---- which exception counts

// Returns the exception that counts.
pub(crate) fn counting_exception<'l, 'a>(
    contents: &'l Contents<'a>,
) -> Option<&'l MinidumpException<'a>>
    ensures { option_map exception_stream.value (option_copied result)
        ≡ counting_exception (contents_of contents.now) }
{
    exception_at(contents, counting(contents.threads.exceptions.as_slice()))
}

// Returns the exception of an index, if it can be read.
pub(crate) fn exception_at<'l, 'a>(
    contents: &'l Contents<'a>,
    index: Option<usize>,
) -> Option<&'l MinidumpException<'a>>
    ensures { option_map exception_stream.value (option_copied result)
        ≡ counted (contents_of contents.now).threads.exceptions index }
{
    contents.threads.exceptions.get(index?)?.as_ref().ok()
}

// Returns the index of the exception that counts: the last whose code isn't 0, else the last that can
// be read.
fn counting(exceptions: &[Result<MinidumpException<'_>, Error>]) -> Option<usize>
    ensures { result ≡ counting (map (map_ok exception_stream.value) exceptions.now) }
{
    let with_code = last_index(exceptions, |exception| match exception {
        Ok(exception) => exception.raw.exception_record.exception_code != 0,
        Err(_) => false,
    });
    let read = last_index(exceptions, |exception| exception.is_ok());
    with_code.or(read)
}
