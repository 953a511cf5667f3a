ghost use Rattle.std.specs.Prelude.{◌≡◌, [], IfOk, OnOk, map};
ghost use Rattle.std.specs.Option.{option_copied, option_map};
ghost use Rattle.crash_threads.specs.Contexts.{context_of};
ghost use Rattle.crash.specs.Crash.{crash_of};
ghost use Rattle.crash_threads.specs.Frames.{crash_walk_of};
ghost use Rattle.crash_threads.specs.Threads.{thread_value};
ghost use Rattle.minidump_c.specs.Numbers.{cpu_number, crash_row, crashed, origin_number, os_number};
ghost use Rattle.minidump_c.specs.Numbers.{own_texts, registers_of};
ghost use Rattle.minidump_c.specs.Numbers as c;

use crate::exceptions::{ExceptionRow, exception_row};
use crate::facts::{FactsRow, facts_row};
use crate::frames::end_number;
use crate::spans::{Span, bytes_of, flag, push_text};
use crash::{ContextOrigin, Crash, CrashContext, CrashThread, CrashWalk};
use minidump::system_info::{Cpu, Os};
use std::alloc::AllocError;

/// What a dump says of a crash, in numbers. One that is absent is 0.
#[repr(C)]
#[derive(Clone, Copy)]
pub struct CrashRow {
    /// The exception that counts.
    pub exception: ExceptionRow,
    /// What is known of the address of the crash.
    pub facts: FactsRow,
    /// For how many seconds the process had run when the dump was written.
    pub uptime: u64,
    /// The index of the thread that crashed.
    pub thread_index: usize,
    /// The number of items of `Crash::damage`: of what is there and can't be read.
    pub damage_count: usize,
    /// How many bytes a register has.
    pub register_size: usize,
    /// The number of frames and candidates of the thread that crashed.
    pub frame_count: usize,
    /// The number of its registers.
    pub register_count: usize,
    /// The number of threads.
    pub thread_count: usize,
    /// The number of modules.
    pub module_count: usize,
    /// The number of unloaded modules.
    pub unloaded_count: usize,
    /// The number of bytes of all texts.
    pub texts_len: usize,
    /// The reason of the crash in words.
    pub reason: Span,
    /// The version of the operating system.
    pub version: Span,
    /// The build of that version.
    pub build: Span,
    /// The description of the processor.
    pub cpu_model: Span,
    /// The id of the thread that crashed.
    pub thread: u32,
    /// The id of the process.
    pub process_id: u32,
    /// When the dump was written, in seconds since 1970; 0 says nothing.
    pub written: u32,
    /// The number of the operating system, 0 of an unknown one.
    pub os: u16,
    /// The number of the architecture of the processors, 0 of an unknown one.
    pub cpu: u16,
    /// The number of processors.
    pub processors: u16,
    /// 1 if there is a thread that crashed, else 0.
    pub has_thread: u8,
    /// 1 if there is system information, else 0.
    pub has_system: u8,
    /// 1 if there is the id of the process, else 0.
    pub has_process_id: u8,
    /// 1 if it is known for how long the process had run, else 0.
    pub has_uptime: u8,
    /// Whose context the registers are of, as a number; 0 without registers.
    pub context: u8,
    /// Why the last frame has no caller, as a number; 0 without frames.
    pub walk_end: u8,
}

// Returns the thread that crashed.
fn crashed<'l>(crash: &'l Crash<'_>) -> Option<&'l CrashThread>
    ensures { option_map thread_value (option_copied result) ≡ crashed (crash_of crash.now) }
{
    Some(crash.threads.crashed()?.1)
}

// Returns what is found in the stack of the thread that crashed.
pub(crate) fn walk_of<'l>(crash: &'l Crash<'_>) -> Option<&'l CrashWalk>
    ensures { option_map crash_walk_of (option_copied result) ≡ c.walk_of (crash_of crash.now) }
{
    crashed(crash)?.walk.as_ref()
}

// Returns its registers, and how they are known.
fn context_of<'l>(crash: &'l Crash<'_>) -> Option<&'l CrashContext>
    ensures { option_map context_of (option_copied result) ≡ c.context_of (crash_of crash.now) }
{
    crashed(crash)?.context.as_ref()
}

// Returns its registers, none without a context.
pub(crate) fn registers_of<'l>(crash: &'l Crash<'_>) -> &'l [(&'static str, u64)]
    ensures { map (λ r. (r.0.now, r.1)) result.now ≡ registers_of (crash_of crash.now) }
{
    match context_of(crash) {
        Some(context) => context.registers.as_slice(),
        None => &[],
    }
}

// Returns the numbers of a crash, with `frames` rows of frames, and appends its texts to none. Its
// caller writes the size of all texts.
pub(crate) fn crash_row(
    crash: &Crash<'_>,
    frames: usize,
    texts: &mut Vec<u8>,
) -> Result<CrashRow, AllocError>
    requires { texts.old.items ≡ [] }
    ensures row { IfOk result (λ row. row ≡ crash_row (crash_of crash.now) frames 0) }
    ensures texts { OnOk result (texts.new.items ≡ own_texts (crash_of crash.now)) }
{
    let exception = crash.cause.counted();
    let system = crash.process.system.as_ref();
    let thread = crashed(crash);
    let context = context_of(crash);
    let reason = push_text(texts, exception.map_or(&[], |e| bytes_of(&e.reason)))?;
    let version = push_text(texts, system.map_or(&[], |s| s.version.as_bytes()))?;
    let build = push_text(texts, system.map_or(&[], |s| bytes_of(&s.build)))?;
    let cpu_model = push_text(texts, system.map_or(&[], |s| bytes_of(&s.cpu_model)))?;
    Ok(CrashRow {
        exception: exception_row(exception),
        facts: facts_row(crash.cause.address),
        uptime: crash.process.uptime.unwrap_or(0),
        thread_index: crash.threads.crashing.unwrap_or(0),
        damage_count: crash.damage.len(),
        register_size: context.map_or(0, |c| c.size),
        frame_count: frames,
        register_count: registers_of(crash).len(),
        thread_count: crash.threads.threads.len(),
        module_count: crash.modules.loaded.len(),
        unloaded_count: crash.modules.unloaded.len(),
        texts_len: 0,
        reason,
        version,
        build,
        cpu_model,
        thread: thread.map_or(0, |t| t.id),
        process_id: crash.process.id.unwrap_or(0),
        written: crash.directory.written,
        os: system.map_or(0, |s| os_number(s.os)),
        cpu: system.map_or(0, |s| cpu_number(s.cpu)),
        processors: system.map_or(0, |s| s.processors as u16),
        has_thread: flag(&thread),
        has_system: flag(&system),
        has_process_id: flag(&crash.process.id),
        has_uptime: flag(&crash.process.uptime),
        context: context.map_or(0, |c| origin_number(c.origin)),
        walk_end: walk_of(crash).map_or(0, |w| end_number(w.end)),
    })
}

// Returns the number of whose context the registers are of.
fn origin_number(origin: ContextOrigin) -> u8
    ensures { result ≡ origin_number origin }
{
    match origin {
        ContextOrigin::OfException => 1,
        ContextOrigin::OfThread => 2,
    }
}

// Returns the number of an operating system.
fn os_number(os: Os) -> u16
    ensures { result ≡ os_number os }
{
    match os {
        Os::Unknown(_) => 0,
        Os::Windows => 1,
        Os::MacOs => 2,
        Os::Ios => 3,
        Os::Linux => 4,
        Os::Solaris => 5,
        Os::Android => 6,
        Os::Ps3 => 7,
        Os::NaCl => 8,
    }
}

// Returns the number of an architecture.
fn cpu_number(cpu: Cpu) -> u16
    ensures { result ≡ cpu_number cpu }
{
    match cpu {
        Cpu::Unknown(_) => 0,
        Cpu::X86 => 1,
        Cpu::X86_64 => 2,
        Cpu::Ppc => 3,
        Cpu::Ppc64 => 4,
        Cpu::Sparc => 5,
        Cpu::Arm => 6,
        Cpu::Arm64 => 7,
        Cpu::Mips => 8,
        Cpu::Mips64 => 9,
    }
}
