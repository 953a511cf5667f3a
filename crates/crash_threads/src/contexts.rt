ghost use Rattle.std.specs.Prelude.{◌≡◌, ◌≤◌, ◌<◌, IfOk, IfSome, Some, length, map};
ghost use Rattle.std.specs.Option.{option_copied, option_map};
ghost use Rattle.minidump.specs.Promise.{exception_stream, system_info_stream};
ghost use Rattle.minidump.specs.Thread.{accepted_context, thread_of};
ghost use Rattle.crash_streams.specs.Contents.{contents_of};
ghost use Rattle.crash_threads.specs.Contexts.{any_context, context_at, context_by, context_of, context_on, found_in};
ghost use Rattle.crash_threads.specs.Contexts.{lengths, named_bytes, old_on, padded, problem_in, register_values};
ghost use Rattle.crash_threads.specs.Contexts.{short_context, system_of, unaccepted_size};

use crash_streams::Contents;
use minidump::format::{CONTEXT_ARM64_OLD, MINIDUMP_LOCATION_DESCRIPTOR};
use minidump::system_info::Cpu;
use minidump::{
    Endian, MinidumpContext, MinidumpException, MinidumpRawContext, MinidumpSystemInfo,
    MinidumpThread, Source, Steps,
};
use std::alloc::{AllocError, Global};

/// The registers of a thread, as its context has them.
#[derive(Drop)]
pub struct CrashContext {
    /// The registers, each its name and its value, in the order of the processor.
    pub registers: Vec<(&'static str, u64)>,
    /// How many bytes a register has.
    pub size: usize,
    /// Whose context it is.
    pub origin: ContextOrigin,
    /// How much of the context there is, if its writer cut it after the general registers, and
    /// `None` if it is whole.
    pub short: Option<ShortContext>,
}

/// Whose context the registers are of.
#[derive(Clone, Copy, PartialEq, Eq)]
pub enum ContextOrigin {
    /// That of the exception, which happened on the thread.
    OfException,
    /// That of the thread, from when the dump was written.
    OfThread,
}

/// How much there is of a context that its writer cut after the general registers.
#[derive(Clone, Copy, PartialEq, Eq)]
pub struct ShortContext {
    /// How many bytes it has.
    pub size: usize,
    /// How many bytes a whole context of the processor has.
    pub whole: usize,
}

/// Why there are no registers in a context.
#[derive(Clone, Copy, PartialEq, Eq)]
pub enum ContextProblem {
    /// Its bytes are not in the file. One of no bytes is never outside.
    Outside,
    /// The system is unknown, whose processor says how to read it.
    NoSystem,
    /// It isn't a context of the processor, nor the front of one with all general registers.
    NotAccepted {
        /// How many bytes it has.
        size: usize,
    },
}

/// Returns how many bytes there are of a context that isn't accepted, if there are any.
pub fn unaccepted_size(problem: Option<ContextProblem>) -> Option<u64>
    ensures { result ≡ unaccepted_size problem }
{
    match problem {
        Some(ContextProblem::NotAccepted { size: 0 }) => None,
        Some(ContextProblem::NotAccepted { size }) => Some(size as u64),
        Some(ContextProblem::Outside | ContextProblem::NoSystem) | None => None,
    }
}

// The registers that the bytes of a context hold, and how much of it there is if it is cut.
#[derive(Clone, Copy)]
pub(crate) struct FoundContext {
    pub(crate) raw: MinidumpRawContext,
    pub(crate) short: Option<ShortContext>,
}

// ---- contexts that are whole

// Returns the context that bytes hold in the layout of a system's processor.
fn read_raw(system: &MinidumpSystemInfo, endian: Endian, bytes: &[u8]) -> Option<MinidumpRawContext>
    ensures { result ≡ accepted_context
        (system_info_stream.value system.now).raw.processor_architecture endian (Some bytes.now) }
{
    let context = MinidumpContext::read(bytes, endian, system, None).ok()?;
    Some(context.raw)
}

// Returns the context at the start of the bytes in Breakpad's first layout of ARM64, on a processor of
// the layout that came after it.
fn old_on(cpu: Cpu, endian: Endian, bytes: &[u8]) -> Option<MinidumpRawContext>
    ensures { result ≡ old_on cpu endian bytes.now }
{
    let Cpu::Arm64 = cpu else {
        return None;
    };
    let context: CONTEXT_ARM64_OLD = Source::new(bytes).record(0, endian, &mut Steps::new())?;
    let has_registers = context.context_flags & 0x8000_0006 == 0x8000_0006;
    has_registers.then_some(MinidumpRawContext::OldArm64(context))
}

// ---- contexts that are cut after the general registers

// Returns the context of which bytes are the front, which ends with the general registers or after
// them.
fn short_context(system: &MinidumpSystemInfo, endian: Endian, bytes: &[u8]) -> Option<FoundContext>
    ensures { result ≡ short_context (system_info_stream.value system.now) endian bytes.now }
{
    let (least, whole) = lengths(system.cpu)?;
    let size = bytes.len();
    if size < least || size >= whole {
        return None;
    }
    let raw = read_padded(system, endian, bytes, whole)?;
    // Whether its flags say that it has the control and the integer registers.
    let has_general = match &raw {
        MinidumpRawContext::Amd64(context) => context.context_flags & 3 == 3,
        MinidumpRawContext::Arm64(context) => context.context_flags & 3 == 3,
        _ => false,
    };
    let short = Some(ShortContext { size, whole });
    has_general.then_some(FoundContext { raw, short })
}

// Returns how many bytes of a processor's context end with its general registers, and how many it
// has.
fn lengths(cpu: Cpu) -> Option<(usize, usize)>
    ensures lengths { result ≡ lengths cpu }
    ensures most { IfSome result (λ l. l.1 ≤ 1232) }
{
    match cpu {
        Cpu::X86_64 => Some((0x100, 1232)),
        Cpu::Arm64 => Some((0x110, 912)),
        _ => None,
    }
}

// Returns the context that bytes hold with zeros after them, so many in all.
fn read_padded(
    system: &MinidumpSystemInfo,
    endian: Endian,
    bytes: &[u8],
    whole: usize,
) -> Option<MinidumpRawContext>
    requires fits { length bytes.now < whole }
    requires most { whole ≤ 1232 }
    ensures { result ≡ accepted_context
        (system_info_stream.value system.now).raw.processor_architecture endian
        (Some (padded bytes.now whole)) }
{
    let mut padded = [0; 1232];
    padded[..bytes.len()].copy_from_slice(bytes);
    read_raw(system, endian, &padded[..whole])
}

// ---- the context of a thread

// Returns the context that bytes hold: whole, in any layout, or cut after its general registers.
pub(crate) fn context_on(
    system: &MinidumpSystemInfo,
    endian: Endian,
    bytes: &[u8],
) -> Option<FoundContext>
    ensures { result ≡ context_on (system_info_stream.value system.now) endian bytes.now }
{
    match read_raw(system, endian, bytes).or(old_on(system.cpu, endian, bytes)) {
        Some(raw) => Some(FoundContext { raw, short: None }),
        None => short_context(system, endian, bytes),
    }
}

// Returns the same, if the system is known and the bytes are in the file.
fn any_context(
    contents: &Contents<'_>,
    endian: Endian,
    bytes: Option<&[u8]>,
) -> Option<FoundContext>
    ensures { result ≡ any_context (system_of (contents_of contents.now)) endian
        (option_copied bytes.entry) }
{
    let system = contents.system.system.as_ref().ok()?;
    context_on(system, endian, bytes?)
}

// Returns the context of an exception.
pub(crate) fn context_at(
    contents: &Contents<'_>,
    exception: &MinidumpException<'_>,
) -> Option<FoundContext>
    ensures { result ≡ context_at (contents_of contents.now) (exception_stream.value exception.now) }
{
    any_context(contents, exception.endian(), exception.context_bytes())
}

// Returns the context by which the registers of a thread are known, and whose it is: that of the
// exception that counts, if it happened on the thread, else its own, one that is whole first.
pub(crate) fn found_context(
    contents: &Contents<'_>,
    exception: Option<&MinidumpException<'_>>,
    thread: &MinidumpThread<'_>,
) -> Option<(ContextOrigin, FoundContext)>
    ensures { result ≡ found_in (contents_of contents.now)
        (option_map exception_stream.value (option_copied exception.entry)) (thread_of thread.now) }
{
    let excepted = match exception {
        Some(exception) if exception.thread_id == thread.raw.thread_id => {
            context_at(contents, exception)
        }
        _ => None,
    };
    let own = any_context(contents, thread.endian(), thread.context_bytes());
    match (excepted, own) {
        (Some(excepted), Some(own)) if excepted.short.is_some() && own.short.is_none() => {
            Some((ContextOrigin::OfThread, own))
        }
        (Some(excepted), _) => Some((ContextOrigin::OfException, excepted)),
        (None, own) => Some((ContextOrigin::OfThread, own?)),
    }
}

// Returns the registers of a context, whosever it is.
pub(crate) fn registers_of(
    alloc: Global,
    context: Option<(ContextOrigin, FoundContext)>,
) -> Result<Option<CrashContext>, AllocError>
    ensures { IfOk result (λ c. option_map context_of c ≡ option_map context_by context) }
{
    let Some((origin, found)) = context else {
        return Ok(None);
    };
    let context = MinidumpContext::from_raw(found.raw);
    Ok(Some(CrashContext {
        registers: register_values(alloc, &context)?,
        size: context.register_size(),
        origin,
        short: found.short,
    }))
}

// Returns the values of the registers of a context, each with its name, in the order of the processor.
pub(crate) fn register_values(
    alloc: Global,
    context: &MinidumpContext,
) -> Result<Vec<(&'static str, u64)>, AllocError>
    ensures { IfOk result (λ registers. map (λ r. (r.0.now, r.1)) registers.items
        ≡ register_values context.now.raw) }
{
    context.registers().collect(alloc)
}

// ---- why there are none

// Returns the bytes of a context at a location: none if that has no size, wherever it is.
pub(crate) fn named_bytes<'a>(
    location: &MINIDUMP_LOCATION_DESCRIPTOR,
    bytes: Option<&'a [u8]>,
) -> Option<&'a [u8]>
    ensures { option_copied result ≡ named_bytes location.now (option_copied bytes.entry) }
{
    if location.data_size == 0 {
        Some(&[])
    } else {
        bytes
    }
}

// Returns why there are no registers in the bytes of a context.
pub(crate) fn problem_in(
    contents: &Contents<'_>,
    endian: Endian,
    bytes: Option<&[u8]>,
) -> Option<ContextProblem>
    ensures { result ≡ problem_in (system_of (contents_of contents.now)) endian
        (option_copied bytes.entry) }
{
    match (bytes, &contents.system.system) {
        (None, _) => Some(ContextProblem::Outside),
        (Some(_), Err(_)) => Some(ContextProblem::NoSystem),
        (Some(bytes), Ok(system)) => match context_on(system, endian, bytes) {
            Some(_) => None,
            None => Some(ContextProblem::NotAccepted { size: bytes.len() }),
        },
    }
}
