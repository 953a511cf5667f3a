ghost use Rattle.std.proofs.Common.{rules};

use minidump_bytes::Exact;

/// A family of codes. Each family may have a list of names in a [`CodeNames`](crate::CodeNames).
#[derive(Clone, Copy, Debug, PartialEq, Eq)]
pub enum CodeFamily {
    /// The exceptions of macOS and iOS.
    Mac,
    /// The flags of a bad access: kernel return codes.
    MacBadAccessKern,
    /// The flags of a bad access on ARM64.
    MacBadAccessArm,
    /// The flags of a bad access on 32-bit PowerPC.
    MacBadAccessPpc,
    /// The flags of a bad access on x86 and x86-64.
    MacBadAccessX86,
    /// The flags of a bad instruction on ARM64.
    MacBadInstructionArm,
    /// The flags of a bad instruction on 32-bit PowerPC.
    MacBadInstructionPpc,
    /// The flags of a bad instruction on x86 and x86-64.
    MacBadInstructionX86,
    /// The flags of an arithmetic exception on ARM64.
    MacArithmeticArm,
    /// The flags of an arithmetic exception on 32-bit PowerPC.
    MacArithmeticPpc,
    /// The flags of an arithmetic exception on x86 and x86-64.
    MacArithmeticX86,
    /// The flags of a breakpoint on ARM64.
    MacBreakpointArm,
    /// The flags of a breakpoint on 32-bit PowerPC.
    MacBreakpointPpc,
    /// The flags of a breakpoint on x86 and x86-64.
    MacBreakpointX86,
    /// The flags of a software exception.
    MacSoftware,
    /// The types of resources that have limits.
    MacResource,
    /// The flavors of limits of CPU time.
    MacResourceCpu,
    /// The flavors of limits of wakeups.
    MacResourceWakeups,
    /// The flavors of limits of memory.
    MacResourceMemory,
    /// The flavors of limits of input and output.
    MacResourceIo,
    /// The flavors of limits of threads.
    MacResourceThreads,
    /// The types of guards.
    MacGuard,
    /// The flavors of guards of Mach ports.
    MacGuardMachPort,
    /// The flavors of guards of file descriptors.
    MacGuardFd,
    /// The flavors of guards of vnodes.
    MacGuardVn,
    /// The flavors of guards of virtual memory.
    MacGuardVirtMemory,
    /// The flavors of guards of rejected system calls.
    MacGuardRejectedSysCall,
    /// The signals of Linux and Android.
    Linux,
    /// The `si_code` values of any signal.
    LinuxSicode,
    /// The `si_code` values of SIGILL.
    LinuxSigill,
    /// The `si_code` values of SIGTRAP.
    LinuxSigtrap,
    /// The `si_code` values of SIGBUS.
    LinuxSigbus,
    /// The `si_code` values of SIGFPE.
    LinuxSigfpe,
    /// The `si_code` values of SIGSEGV.
    LinuxSigsegv,
    /// The `si_code` values of SIGSYS.
    LinuxSigsys,
    /// The exception codes of Windows.
    Windows,
    /// The Win32 error codes.
    WinError,
    /// The facilities of Windows errors.
    WinErrorFacility,
    /// The NTSTATUS values.
    NtStatus,
    /// The fast fail codes of Windows.
    FastFail,
    /// The kinds of access of an access violation.
    WindowsAccess,
    /// The kinds of access of an in-page error.
    WindowsInPageError,
}

impl Exact for CodeFamily {
    ghost exact = { Prim.search rules };
}
