//! Summarises a crash: which thread, where, why, in which module and on which stack.
//!
//! # Errors
//!
//! The error of [`minidump::Minidump::read`], or that of the exception's stream, or `OutOfMemory`.
//! Any other stream that is missing or malformed counts as absent.
//!
//! # What is proved
//!
//! The summary is the one that the definition `summary_in` assigns to the bytes and the names, and
//! so is each error, but for `OutOfMemory`, which comes only at a directory with entries:
//! [`summarise`]. The proofs use the contracts and the laws of `minidump`, and nothing below.
#![tactic(auto)]

ghost use Rattle.std.specs.Prelude.{◌≡◌, IfOk, IsOkUnless, string_bytes};
ghost use Rattle.std.specs.Option.{option_copied, option_map};
ghost use Rattle.minidump.specs.Below.Format.Answer.{Gives};
ghost use Rattle.minidump.specs.Dump.{HasEntries, dump_system};
ghost use Rattle.minidump.specs.DumpValue.{dump_of};
ghost use Rattle.minidump.specs.Promise.{exception_stream, system_info_stream};
ghost use Rattle.minidump.specs.Thread.{thread_of};
ghost use Rattle.crash_summary.specs.Summary.{address_in, crash_pointer, loaded_of, memory_in};
ghost use Rattle.crash_summary.specs.Summary.{module_at, modules_in, reason_in, stack_in};
ghost use Rattle.crash_summary.specs.Summary.{summary_at, summary_in, summary_of};

pub mod laws;

use minidump::{
    CodeNames, Error, Minidump, MinidumpException, MinidumpModuleList, MinidumpSystemInfo,
    MinidumpThread, MinidumpThreadList, Module, Told, UnifiedMemoryList,
};
use std::alloc::Global;

/// The summary of a crash.
#[derive(Drop)]
pub struct CrashSummary {
    /// The id of the thread on which the exception happened.
    pub thread: u32,
    /// The address of the crash, or `None` without system information.
    pub address: Option<u64>,
    /// The reason of the crash in words, or `None` without system information.
    pub reason: Option<String>,
    /// The kept module that contains the instruction pointer of the exception's context, or, if
    /// that can't be decoded, of the thread's own. `None` if neither can be decoded, as without
    /// system information, or if no kept module contains the instruction pointer.
    pub module: Option<ModuleHit>,
    /// The stack of the thread, or `None` if there is no such thread or no memory of its stack.
    pub stack: Option<StackHit>,
}

/// A module, by its addresses and its name.
#[derive(Drop)]
pub struct ModuleHit {
    /// The base address.
    pub base: u64,
    /// The number of bytes of memory that the module takes.
    pub size: u64,
    /// The name of its file.
    pub name: String,
}

/// A region of memory, by its addresses.
#[derive(Clone, Copy, PartialEq, Eq)]
pub struct StackHit {
    /// The address of the first byte.
    pub base: u64,
    /// The number of bytes.
    pub size: u64,
}

/// Summarises the crash of a minidump, whose bytes are `bytes`. The names of codes are those of
/// `names`.
///
/// Returns the error of [`Minidump::read`], else `StreamNotFound` or `StreamReadFailure` if the
/// exception is missing or malformed, else `OutOfMemory` if an allocation fails. A directory
/// without entries takes no memory.
pub fn summarise(alloc: Global, bytes: &[u8], names: &CodeNames<'_>) -> Result<CrashSummary, Error>
    ensures { Gives summary_of (HasEntries bytes.now) result (summary_in bytes.now names.now) }
{
    let dump = Minidump::read(alloc, bytes)?;
    let exception = dump.get_stream::<MinidumpException>(alloc)?;
    summary_at(alloc, &dump, &exception, names)
}

// Summarises the crash of an exception.
fn summary_at<'a>(
    alloc: Global,
    dump: &Minidump<'a>,
    exception: &MinidumpException<'a>,
    names: &CodeNames<'_>,
) -> Result<CrashSummary, Error>
    ensures value { IfOk result (λ s. summary_of s ≡ summary_at names.now (dump_of dump.now)
        (exception_stream.value exception.now)) }
    ensures memory { IsOkUnless result Error.OutOfMemory }
{
    let system = system_of(alloc, dump)?;
    let system = system.as_ref();
    let threads: Option<MinidumpThreadList<'a>> = dump.find_stream(alloc)?;
    let threads = threads.unwrap_or(MinidumpThreadList {
        threads: Vec::new(alloc),
    });
    let thread = threads.get_thread(exception.thread_id);
    let pointer = crash_pointer(system, exception, thread);
    Ok(CrashSummary {
        thread: exception.thread_id,
        address: address_of(system, exception),
        reason: reason_of(alloc, system, exception, names)?,
        module: module_at(alloc, dump, pointer)?,
        stack: stack_of(alloc, dump, thread)?,
    })
}

// Returns the system information, or `None` if it is missing or malformed.
fn system_of(alloc: Global, dump: &Minidump<'_>) -> Result<Option<MinidumpSystemInfo>, Error>
    ensures value { IfOk result (λ system. option_map system_info_stream.value system
        ≡ dump_system (dump_of dump.now)) }
    ensures memory { IsOkUnless result Error.OutOfMemory }
{
    minidump::laws::system_information_is_the_dumps();
    dump.find_stream(alloc)
}

// Returns the instruction pointer of a crash: that of the exception's context, or, if that can't be
// decoded, of the thread's. Returns `None` if neither can, as without system information.
fn crash_pointer(
    system: Option<&MinidumpSystemInfo>,
    exception: &MinidumpException<'_>,
    thread: Option<&MinidumpThread<'_>>,
) -> Option<u64>
    ensures { result
        ≡ crash_pointer (option_map system_info_stream.value (option_copied system.entry))
        (exception_stream.value exception.now) (option_map thread_of (option_copied thread.entry)) }
{
    let system = system?;
    if let Some(context) = exception.context(system, None) {
        return Some(context.get_instruction_pointer());
    }
    Some(thread?.context(system, None)?.get_instruction_pointer())
}

// Returns the address of a crash, or `None` without system information.
fn address_of(system: Option<&MinidumpSystemInfo>, exception: &MinidumpException<'_>) -> Option<u64>
    ensures { result ≡ address_in (option_map system_info_stream.value (option_copied system.entry))
        (exception_stream.value exception.now) }
{
    let system = system?;
    Some(exception.get_crash_address(system.os, system.cpu))
}

// Returns the reason of a crash in words, or `None` without system information.
fn reason_of(
    alloc: Global,
    system: Option<&MinidumpSystemInfo>,
    exception: &MinidumpException<'_>,
    names: &CodeNames<'_>,
) -> Result<Option<String>, Error>
    ensures value { IfOk result (λ text. option_map string_bytes text
        ≡ reason_in names.now (option_map system_info_stream.value (option_copied system.entry))
        (exception_stream.value exception.now)) }
    ensures memory { IsOkUnless result Error.OutOfMemory }
{
    let Some(system) = system else {
        return Ok(None);
    };
    let reason = exception.get_crash_reason(system.os, system.cpu, names);
    // A vector takes all bytes unless memory runs out.
    let mut out = Told::new(Vec::new(alloc));
    if reason.write_to(alloc, names, &mut out).is_err() {
        return Err(Error::OutOfMemory);
    }
    Ok(Some(String::from_utf8(out.into_device()).unwrap()))
}

// Returns the kept module that contains an address. Returns `None` without an address, or if the
// modules are missing or malformed, or none that is kept contains the address.
fn module_at(
    alloc: Global,
    dump: &Minidump<'_>,
    address: Option<u64>,
) -> Result<Option<ModuleHit>, Error>
    ensures value { IfOk result (λ hit. option_map loaded_of hit
        ≡ module_at (modules_in (dump_of dump.now)) address) }
    ensures memory { IsOkUnless result Error.OutOfMemory }
{
    let modules: Option<MinidumpModuleList> = dump.find_stream(alloc)?;
    let modules = modules.unwrap_or(MinidumpModuleList::new(alloc));
    match address.and_then(|address| modules.module_at_address(address)) {
        Some(found) => Ok(Some(ModuleHit {
            base: found.base_address(),
            size: found.size(),
            name: String::from_str(alloc, found.code_file())?,
        })),
        None => Ok(None),
    }
}

// Returns the stack of a thread: its own, else the kept region of the memory in which it begins.
// Returns `None` without a thread, or if it has neither.
fn stack_of<'a>(
    alloc: Global,
    dump: &Minidump<'a>,
    thread: Option<&MinidumpThread<'a>>,
) -> Result<Option<StackHit>, Error>
    ensures value { IfOk result (λ stack. stack ≡ stack_in (memory_in (dump_of dump.now))
        (option_map thread_of (option_copied thread.entry))) }
    ensures memory { IsOkUnless result Error.OutOfMemory }
{
    let memory = dump.get_memory(alloc)?;
    let memory = memory.unwrap_or(UnifiedMemoryList::new(alloc));
    let Some(thread) = thread else {
        return Ok(None);
    };
    Ok(
        thread.stack_memory(&memory).map(|region| StackHit {
            base: region.base_address(),
            size: region.size(),
        }),
    )
}
