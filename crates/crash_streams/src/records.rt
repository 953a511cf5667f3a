//! What the record of an exception says, by itself and by its system.
ghost use Rattle.std.specs.Prelude.{◌≡◌, ◌%◌, ◌^◌, IfOk, string_bytes};
ghost use Rattle.std.specs.Option.{option_copied, option_map};
ghost use Rattle.minidump.specs.Promise.{system_info_stream};
ghost use Rattle.crash_streams.specs.Records.{access_in, address_on, description_in, is_access, is_guard_access};
ghost use Rattle.crash_streams.specs.Records.{ending_signal, mac_signal_name};
ghost use Rattle.crash_streams.specs.Records.{is_no_fault, is_process, is_protection, is_sent, lacks_address};
ghost use Rattle.crash_streams.specs.Records.{may_be_instruction, parameters_in, sender_by};
ghost use Rattle.crash_streams.specs.Records.{sender_in, signal_code, signal_code_name, user_at};

use minidump::format::MINIDUMP_EXCEPTION;
use minidump::own_streams::before_nul;
use minidump::strings::LinuxOsStr;
use minidump::system_info::{Cpu, Os, PointerWidth};
use minidump::{MinidumpException, MinidumpSystemInfo};
use std::alloc::{AllocError, Global};

// Codes of winnt.h.
const EXCEPTION_ACCESS_VIOLATION: u32 = 0xc000_0005;

const EXCEPTION_IN_PAGE_ERROR: u32 = 0xc000_0006;

const EXCEPTION_STACK_OVERFLOW: u32 = 0xc000_00fd;

const EXCEPTION_GUARD_PAGE: u32 = 0x8000_0001;

// The flags of a record of LLDB, which is llvm's `LLDB_FLAG`.
const LLDB_FLAG: u32 = 0x4c4c_4442;

// Signals of Linux.
const SIGILL: u32 = 4;

const SIGTRAP: u32 = 5;

const SIGBUS: u32 = 7;

const SIGFPE: u32 = 8;

const SIGSEGV: u32 = 11;

const SIGPOLL: u32 = 29;

const SIGSYS: u32 = 31;

// The `si_code` of faults of Linux.
const SI_KERNEL: u32 = 0x80;

const SEGV_MTEAERR: u32 = 8;

const SEGV_CPERR: u32 = 10;

const BUS_ADRALN: u32 = 1;

// Of macOS: a code, its flags for a general protection, and the code of a process that ended by a signal.
const EXC_BAD_ACCESS: u32 = 1;

const EXC_I386_GPFLT: u32 = 13;

const EXC_CRASH: u64 = 10;

/// How memory was accessed.
#[derive(Clone, Copy, PartialEq, Eq)]
pub enum Access {
    /// It was read: 0 in the record.
    Read,
    /// It was written: 1.
    Write,
    /// It was run as code: 8.
    Execute,
}

/// The `si_code` of a signal that a process sent.
#[derive(Clone, Copy, PartialEq, Eq)]
pub enum SignalCode {
    /// It was sent by `kill`: SI_USER, 0.
    User,
    /// It was sent by `sigqueue`: SI_QUEUE, -1.
    Queue,
    /// It was sent to a thread, as by `tgkill` or `raise`: SI_TKILL, -6.
    Tkill,
}

impl SignalCode {
    /// Returns its name in Linux's headers, as `SI_USER`.
    pub fn name(self) -> &'static str
        ensures { result.now ≡ signal_code_name self }
    {
        match self {
            SignalCode::User => "SI_USER",
            SignalCode::Queue => "SI_QUEUE",
            SignalCode::Tkill => "SI_TKILL",
        }
    }
}

/// The process that sent a signal.
#[derive(Clone, Copy, PartialEq, Eq)]
pub struct Sender {
    /// The `si_code`, which is the flags of the record.
    pub code: SignalCode,
    /// The id of the process, `si_pid`: 0 if it is outside of the receiver's namespace, and `None`
    /// where the record has no bytes of it. By SI_USER it is neither, but where the writer is known
    /// to have the `si_code` of each signal: any other record may have 0 for want of one.
    pub process: Option<u32>,
    /// The id of its user, `si_uid`, or `None` where the record has no bytes of it, as in an address of
    /// 32 bits.
    pub user: Option<u32>,
}

/// Returns the parameters of a record.
pub fn parameters_of(alloc: Global, raw: &MINIDUMP_EXCEPTION) -> Result<Vec<u64>, AllocError>
    ensures { IfOk result (λ parameters. parameters.items ≡ parameters_in raw.now) }
{
    let count = raw.number_parameters.min(15) as usize;
    let mut parameters = Vec::new(alloc);
    parameters.extend_from_slice(&raw.exception_information[..count])?;
    Ok(parameters)
}

/// Makes the text that LLDB writes in the parameters of a record, if it wrote the record and the text
/// isn't empty.
pub fn description_of(alloc: Global, raw: &MINIDUMP_EXCEPTION) -> Result<Option<String>, AllocError>
    ensures { IfOk result (λ text. option_map string_bytes text ≡ description_in raw.now) }
{
    if raw.exception_flags != LLDB_FLAG {
        return Ok(None);
    }
    let mut bytes = Vec::new(alloc);
    for parameter in &raw.exception_information {
        bytes.extend_from_slice(&parameter.to_le_bytes())?;
    }
    let text = before_nul(bytes.as_slice());
    if text.is_empty() {
        return Ok(None);
    }
    Ok(Some(LinuxOsStr::from_bytes(text).to_string_lossy(alloc)?))
}

/// Returns how memory was accessed, if the record says it: by the first parameter of an access of
/// Windows, also to a guard page.
pub fn access_of(system: Option<&MinidumpSystemInfo>, raw: &MINIDUMP_EXCEPTION) -> Option<Access>
    ensures { result ≡ access_in
        (option_map system_info_stream.value (option_copied system.entry)) raw.now }
{
    let system = system?;
    let has_access = matches!(system.os, Os::Windows)
        && is_access(Os::Windows, raw.exception_code)
        && raw.number_parameters >= 1
        && raw.exception_flags != LLDB_FLAG
        && !is_protection(system.cpu, raw);
    match raw.exception_information[0] {
        0 if has_access => Some(Access::Read),
        1 if has_access => Some(Access::Write),
        8 if has_access => Some(Access::Execute),
        _ => None,
    }
}

// Tells whether an exception of an operating system is an access to memory, by its code.
fn is_access(os: Os, code: u32) -> bool
    ensures { result ≡ is_access os code }
{
    match os {
        Os::Linux | Os::Android => code == SIGBUS || code == SIGSEGV,
        Os::MacOs | Os::Ios => code == EXC_BAD_ACCESS,
        Os::Windows => {
            code == EXCEPTION_ACCESS_VIOLATION
                || code == EXCEPTION_IN_PAGE_ERROR
                || is_guard_access(code)
        }
        _ => false,
    }
}

// Tells whether an exception of Windows is an access to a guard page, as to that at the end of a stack.
fn is_guard_access(code: u32) -> bool
    ensures { result ≡ is_guard_access code }
{
    code == EXCEPTION_GUARD_PAGE || code == EXCEPTION_STACK_OVERFLOW
}

// Tells whether a record of Windows is that of a general protection: a read of the last address.
fn is_protection(cpu: Cpu, raw: &MINIDUMP_EXCEPTION) -> bool
    ensures { result ≡ is_protection cpu raw.now }
{
    let address = raw.exception_information[1];
    let is_last = match cpu {
        Cpu::X86 => address % 0x1_0000_0000 == 0xffff_ffff,
        Cpu::X86_64 => address == 0xffff_ffff_ffff_ffff,
        _ => false,
    };
    raw.exception_code == EXCEPTION_ACCESS_VIOLATION
        && raw.number_parameters >= 2
        && raw.exception_information[0] == 0
        && is_last
}

/// Returns the signal that ended a process of macOS without an exception of the processor, as SIGABRT by
/// `abort`. Crashpad then has no code, but the parameters of EXC_CRASH.
pub fn ending_signal(os: Os, raw: &MINIDUMP_EXCEPTION) -> Option<u8>
    ensures { result ≡ ending_signal os raw.now }
{
    let has_signal = matches!(os, Os::MacOs)
        && raw.exception_code == 0
        && raw.number_parameters >= 2
        && raw.exception_information[0] == EXC_CRASH;
    let signal = (raw.exception_information[1] / 0x100_0000 % 0x100) as u8;
    has_signal.then_some(signal)
}

/// Returns the name of a signal of macOS that ends a process with EXC_CRASH.
pub fn mac_signal_name(signal: u8) -> Option<&'static str>
    ensures { option_copied result ≡ mac_signal_name signal }
{
    match signal {
        3 => Some("SIGQUIT"),
        4 => Some("SIGILL"),
        5 => Some("SIGTRAP"),
        6 => Some("SIGABRT"),
        7 => Some("SIGEMT"),
        8 => Some("SIGFPE"),
        9 => Some("SIGKILL"),
        10 => Some("SIGBUS"),
        11 => Some("SIGSEGV"),
        12 => Some("SIGSYS"),
        _ => None,
    }
}

/// Returns the address of a crash: the one that was accessed where the record has it, else that of the
/// record, in as many bits as a pointer has. Unlike [`MinidumpException::get_crash_address`] it also
/// knows the address that an access of Windows to a guard page has, as a stack overflow.
pub fn crash_address(system: &MinidumpSystemInfo, exception: &MinidumpException<'_>) -> u64
    ensures { result ≡ address_on system.now.os system.now.cpu exception.now.raw.exception_record }
{
    let record = &exception.raw.exception_record;
    let has_guard_address = matches!(system.os, Os::Windows)
        && is_guard_access(record.exception_code)
        && record.number_parameters >= 2;
    let accessed = record.exception_information[1];
    match system.cpu.pointer_width() {
        _ if !has_guard_address => exception.get_crash_address(system.os, system.cpu),
        PointerWidth::Bits32 => accessed % 0x1_0000_0000,
        _ => accessed,
    }
}

/// Tells whether the record of an exception has no address of a crash.
pub fn lacks_address(os: Os, cpu: Cpu, raw: &MINIDUMP_EXCEPTION) -> bool
    ensures { result ≡ lacks_address os cpu raw.now }
{
    let (code, flags) = (raw.exception_code, raw.exception_flags);
    let is_0 = raw.exception_address == 0;
    match os {
        Os::Linux | Os::Android => is_0
            && match code {
                SIGILL | SIGTRAP | SIGFPE => flags == SI_KERNEL,
                SIGBUS => flags == SI_KERNEL || flags == BUS_ADRALN,
                SIGSEGV => flags == SI_KERNEL || flags == SEGV_MTEAERR || flags == SEGV_CPERR,
                _ => true,
            },
        Os::MacOs => {
            let is_protection = code == EXC_BAD_ACCESS && flags == EXC_I386_GPFLT;
            is_protection || ending_signal(os, raw).is_some()
        }
        Os::Windows => {
            let has_text = flags == LLDB_FLAG && is_access(os, code) && raw.number_parameters >= 2;
            has_text || is_protection(cpu, raw)
        }
        _ => false,
    }
}

/// Tells whether the address of an access, or of a code of Linux that is no fault's, may be that of the
/// instruction: whether the flags don't say why it was raised.
pub fn may_be_instruction(os: Os, raw: &MINIDUMP_EXCEPTION) -> bool
    ensures { result ≡ may_be_instruction os raw.now }
{
    let flags = raw.exception_flags;
    (is_access(os, raw.exception_code) || is_no_fault(os, raw.exception_code))
        && (flags == LLDB_FLAG || flags == 0 && !matches!(os, Os::Windows))
}

// Tells whether a code of Linux is that of no fault: of another signal, or of a dump without a crash.
fn is_no_fault(os: Os, signal: u32) -> bool
    ensures { result ≡ is_no_fault os signal }
{
    matches!(os, Os::Linux | Os::Android)
        && !matches!(signal, SIGILL | SIGTRAP | SIGBUS | SIGFPE | SIGSEGV)
}

/// Returns the process that sent the signal, if one did. `has_codes` says whether the writer of the
/// dump is known to have the `si_code` of each signal, as
/// [`has_signal_codes`](crate::has_signal_codes) tells.
pub fn sender_of(
    has_codes: bool,
    system: Option<&MinidumpSystemInfo>,
    raw: &MINIDUMP_EXCEPTION,
) -> Option<Sender>
    ensures { result ≡ sender_in has_codes
        (option_map system_info_stream.value (option_copied system.entry)) raw.now }
{
    let system = system?;
    let is_signal = raw.exception_code >= 1 && raw.exception_code <= 64;
    match (system.os, signal_code(raw.exception_flags)) {
        (Os::Linux | Os::Android, Some(code)) if is_signal => {
            let sender = sender_by(code, system.cpu.pointer_width(), raw);
            is_sent(has_codes, code, raw, sender.process).then_some(sender)
        }
        _ => None,
    }
}

// Returns the code of a signal that a process sends: SI_USER, SI_QUEUE or SI_TKILL.
fn signal_code(si_code: u32) -> Option<SignalCode>
    ensures { result ≡ signal_code si_code }
{
    match si_code {
        0 => Some(SignalCode::User),
        0xffff_ffff => Some(SignalCode::Queue),
        0xffff_fffa => Some(SignalCode::Tkill),
        _ => None,
    }
}

// Tells whether a process sent the signal of a record. By SI_USER it did only if the number can be
// that of a process, and, where the writer may have no codes, the record can't be that of an access
// near 0.
fn is_sent(
    has_codes: bool,
    code: SignalCode,
    raw: &MINIDUMP_EXCEPTION,
    process: Option<u32>,
) -> bool
    ensures { result ≡ is_sent has_codes code raw.now process }
{
    let is_low_access = is_access(Os::Linux, raw.exception_code)
        && is_process(raw.exception_address);
    match (code, process) {
        (SignalCode::User, Some(number)) if has_codes => number < 0x40_0000,
        (SignalCode::User, Some(number)) => is_process(number as u64) && !is_low_access,
        (SignalCode::User, None) => has_codes,
        (SignalCode::Queue | SignalCode::Tkill, _) => true,
    }
}

// Tells whether Linux can have given a process this number.
fn is_process(number: u64) -> bool
    ensures { result ≡ is_process number }
{
    number >= 1 && number < 0x40_0000
}

// Returns the sender of a signal, if it was sent: by the address, else by the parameters.
fn sender_by(code: SignalCode, width: PointerWidth, raw: &MINIDUMP_EXCEPTION) -> Sender
    ensures { result ≡ sender_by code width raw.now }
{
    let (first, second) = (raw.exception_information[0], raw.exception_information[1]);
    let is_poll_or_sys = raw.exception_code == SIGPOLL || raw.exception_code == SIGSYS;
    let address = raw.exception_address;
    let (process, user) = if address != 0 {
        (Some(low(address)), high(width, address))
    } else if raw.number_parameters < 2 {
        (None, None)
    } else if is_poll_or_sys && !matches!(width, PointerWidth::Bits32) {
        (Some(low(first)), high(width, first))
    } else {
        (Some(low(first)), Some(low(second)))
    };
    Sender {
        code,
        process,
        user,
    }
}

// Returns the low half of a number.
fn low(number: u64) -> u32
    ensures { result ≡ number % 2 ^ 32 }
{
    (number % 0x1_0000_0000) as u32
}

// Returns the high half of an address, if it has one.
fn high(width: PointerWidth, address: u64) -> Option<u32>
    ensures { result ≡ user_at width address }
{
    match width {
        PointerWidth::Bits32 => None,
        _ => Some((address / 0x1_0000_0000) as u32),
    }
}
