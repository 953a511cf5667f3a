ghost use Rattle.std.specs.Prelude.{◌≡◌};
ghost use Rattle.minidump_reason.specs.Reason.{linux_reason, linux_signal_reason};

use crate::{CodeFamily, CodeNames, CrashReason};
use minidump_format::format::MINIDUMP_EXCEPTION_STREAM;
use minidump_system::Cpu;

const SIGILL: u32 = 4;

const SIGTRAP: u32 = 5;

const SIGBUS: u32 = 7;

const SIGFPE: u32 = 8;

const SIGSEGV: u32 = 11;

const SIGSYS: u32 = 31;

impl CrashReason {
    /// Returns the reason for a signal of Linux or Android, or `None` if its number is unlisted.
    pub fn from_linux_exception(
        raw: &MINIDUMP_EXCEPTION_STREAM,
        _cpu: Cpu,
        names: &CodeNames<'_>,
    ) -> Option<CrashReason>
        ensures { result ≡ linux_reason names.now raw.now.exception_record }
    {
        let record = &raw.exception_record;
        if !names.has(CodeFamily::Linux, record.exception_code) {
            return None;
        }
        Some(signal_reason(record.exception_code, record.exception_flags, names))
    }
}

// Returns the reason for a listed signal.
fn signal_reason(signal: u32, flags: u32, names: &CodeNames<'_>) -> CrashReason
    ensures { result ≡ linux_signal_reason names.now signal flags }
{
    match signal {
        SIGILL if names.has(CodeFamily::LinuxSigill, flags) => CrashReason::LinuxSigill(flags),
        SIGTRAP if names.has(CodeFamily::LinuxSigtrap, flags) => CrashReason::LinuxSigtrap(flags),
        SIGBUS if names.has(CodeFamily::LinuxSigbus, flags) => CrashReason::LinuxSigbus(flags),
        SIGFPE if names.has(CodeFamily::LinuxSigfpe, flags) => CrashReason::LinuxSigfpe(flags),
        SIGSEGV if names.has(CodeFamily::LinuxSigsegv, flags) => CrashReason::LinuxSigsegv(flags),
        SIGSYS if names.has(CodeFamily::LinuxSigsys, flags) => CrashReason::LinuxSigsys(flags),
        _ => CrashReason::LinuxGeneral(signal, flags),
    }
}
