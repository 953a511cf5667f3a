ghost use Rattle.std.specs.Prelude.{◌≡◌};
ghost use Rattle.minidump_reason.specs.Reason.{crash_reason};

use crate::CodeNames;
use minidump_format::format::MINIDUMP_EXCEPTION_STREAM;
use minidump_system::{Cpu, Os};

/// The reason of a crash, as codes. [`CrashReason::text`] returns its text,
/// [`CrashReason::write_to`] writes it.
#[derive(Clone, Copy, PartialEq, Eq)]
pub enum CrashReason {
    /// An exception on macOS or iOS: its code and flags.
    MacGeneral(u32, u32),
    /// A bad access, by the kernel return code in its flags.
    MacBadAccessKern(u32),
    /// A bad access on ARM64, by its flags.
    MacBadAccessArm(u32),
    /// A bad access on 32-bit PowerPC, by its flags.
    MacBadAccessPpc(u32),
    /// A bad access on x86 or x86-64, by its flags.
    MacBadAccessX86(u32),
    /// A bad instruction on ARM64, by its flags.
    MacBadInstructionArm(u32),
    /// A bad instruction on 32-bit PowerPC, by its flags.
    MacBadInstructionPpc(u32),
    /// A bad instruction on x86 or x86-64, by its flags.
    MacBadInstructionX86(u32),
    /// An arithmetic exception on ARM64, by its flags.
    MacArithmeticArm(u32),
    /// An arithmetic exception on 32-bit PowerPC, by its flags.
    MacArithmeticPpc(u32),
    /// An arithmetic exception on x86 or x86-64, by its flags.
    MacArithmeticX86(u32),
    /// A software exception, by its flags.
    MacSoftware(u32),
    /// A breakpoint on ARM64, by its flags.
    MacBreakpointArm(u32),
    /// A breakpoint on 32-bit PowerPC, by its flags.
    MacBreakpointPpc(u32),
    /// A breakpoint on x86 or x86-64, by its flags.
    MacBreakpointX86(u32),
    /// A limit of a resource that was exceeded: the type of the resource, the code and the subcode.
    MacResource(u32, u64, u64),
    /// A guard that was violated: the type of the guard, the code and the subcode.
    MacGuard(u32, u64, u64),
    /// A signal of Linux or Android: its number and its `si_code`.
    LinuxGeneral(u32, u32),
    /// SIGILL, by its `si_code`.
    LinuxSigill(u32),
    /// SIGTRAP, by its `si_code`.
    LinuxSigtrap(u32),
    /// SIGBUS, by its `si_code`.
    LinuxSigbus(u32),
    /// SIGFPE, by its `si_code`.
    LinuxSigfpe(u32),
    /// SIGSEGV, by its `si_code`.
    LinuxSigsegv(u32),
    /// SIGSYS, by its `si_code`.
    LinuxSigsys(u32),
    /// An exception on Windows, by its code.
    WindowsGeneral(u32),
    /// A Win32 error.
    WindowsWinError(u32),
    /// A Win32 error of a facility: the facility and the error.
    WindowsWinErrorWithFacility(u32, u32),
    /// An NTSTATUS value.
    WindowsNtStatus(u32),
    /// An access violation, by the kind of access.
    WindowsAccessViolation(u32),
    /// A page that could not be loaded: the kind of access, and the NTSTATUS value of the failure.
    WindowsInPageError(u32, u64),
    /// A fast fail of a program that detected its own corruption, by the fast fail code.
    WindowsStackBufferOverrun(u64),
    /// A code of Windows that is in no list.
    WindowsUnknown(u32),
    /// An exception on an unsupported system, or with an unlisted code on one other than Windows:
    /// its code and flags.
    Unknown(u32, u32),
}

impl CrashReason {
    /// Returns the reason for an exception on any system. It is [`CrashReason::Unknown`] if the
    /// system is none of Windows, macOS, iOS, Linux and Android, or if the code is unlisted; on
    /// Windows an unlisted code is [`CrashReason::WindowsUnknown`].
    ///
    /// The lists of `names` decide which reason it is: a code belongs to a family only if the
    /// family's list has it.
    pub fn from_exception(
        raw: &MINIDUMP_EXCEPTION_STREAM,
        os: Os,
        cpu: Cpu,
        names: &CodeNames<'_>,
    ) -> CrashReason
        ensures { result ≡ crash_reason names.now os cpu raw.now.exception_record }
    {
        let record = &raw.exception_record;
        let reason = match os {
            Os::MacOs | Os::Ios => CrashReason::from_mac_exception(raw, cpu, names),
            Os::Linux | Os::Android => CrashReason::from_linux_exception(raw, cpu, names),
            Os::Windows => CrashReason::from_windows_exception(raw, cpu, names),
            _ => None,
        };
        reason.unwrap_or(CrashReason::Unknown(record.exception_code, record.exception_flags))
    }
}
