use super::{Lists, has_text};
use minidump::{CodeFamily, CodeNames, CrashReason};
use std::alloc::Global;

#[rattlefmt::skip]
const NAMES: Lists = &[
    (CodeFamily::Mac, &[(2, "EXC_BAD_INSTRUCTION")]),
    (CodeFamily::MacBadAccessKern, &[(1, "KERN_INVALID_ADDRESS")]),
    (CodeFamily::MacBadAccessArm, &[(257, "EXC_ARM_DA_ALIGN")]),
    (CodeFamily::MacBadAccessPpc, &[(257, "EXC_PPC_VM_PROT_READ")]),
    (CodeFamily::MacBadAccessX86, &[(13, "EXC_I386_GPFLT")]),
    (CodeFamily::MacBadInstructionArm, &[(1, "EXC_ARM_UNDEFINED")]),
    (CodeFamily::MacBadInstructionPpc, &[(1, "EXC_PPC_INVALID_SYSCALL")]),
    (CodeFamily::MacBadInstructionX86, &[(1, "EXC_I386_INVOP")]),
    (CodeFamily::MacArithmeticArm, &[(1, "EXC_ARM_FP_IO")]),
    (CodeFamily::MacArithmeticPpc, &[(1, "EXC_PPC_OVERFLOW")]),
    (CodeFamily::MacArithmeticX86, &[(1, "EXC_I386_DIV")]),
    (CodeFamily::MacBreakpointArm, &[(1, "EXC_ARM_BREAKPOINT")]),
    (CodeFamily::MacBreakpointPpc, &[(1, "EXC_PPC_BREAKPOINT")]),
    (CodeFamily::MacBreakpointX86, &[(2, "EXC_I386_BPT")]),
    (CodeFamily::MacSoftware, &[(0x0001_0003, "EXC_SOFT_SIGNAL")]),
    (CodeFamily::MacResource, &[(1, "RESOURCE_TYPE_CPU"), (2, "RESOURCE_TYPE_WAKEUPS"), (3, "RESOURCE_TYPE_MEMORY"), (4, "RESOURCE_TYPE_IO"), (5, "RESOURCE_TYPE_THREADS")]),
    (CodeFamily::MacResourceCpu, &[(1, "FLAVOR_CPU_MONITOR")]),
    (CodeFamily::MacResourceWakeups, &[(1, "FLAVOR_WAKEUPS_MONITOR")]),
    (CodeFamily::MacResourceMemory, &[(1, "FLAVOR_HIGH_WATERMARK")]),
    (CodeFamily::MacResourceIo, &[(1, "FLAVOR_IO_PHYSICAL_WRITES")]),
    (CodeFamily::MacResourceThreads, &[(1, "FLAVOR_THREADS_HIGH_WATERMARK")]),
    (CodeFamily::MacGuard, &[(0, "GUARD_TYPE_NONE"), (1, "GUARD_TYPE_MACH_PORT"), (2, "GUARD_TYPE_FD"), (3, "GUARD_TYPE_USER"), (4, "GUARD_TYPE_VN"), (5, "GUARD_TYPE_VIRT_MEMORY"), (6, "GUARD_TYPE_REJECTED_SC")]),
    (CodeFamily::MacGuardMachPort, &[(1, "GUARD_EXC_DESTROY")]),
    (CodeFamily::MacGuardFd, &[(1, "GUARD_EXC_CLOSE")]),
    (CodeFamily::MacGuardVn, &[(1, "GUARD_EXC_RENAME")]),
    (CodeFamily::MacGuardVirtMemory, &[(1, "GUARD_EXC_DEALLOC_GAP")]),
    (CodeFamily::MacGuardRejectedSysCall, &[(1, "GUARD_EXC_MACH_TRAP")]),
    (CodeFamily::Linux, &[(6, "SIGABRT")]),
    (CodeFamily::LinuxSicode, &[(0, "SI_USER"), (128, "SI_KERNEL")]),
    (CodeFamily::LinuxSigill, &[(1, "ILL_ILLOPC")]),
    (CodeFamily::LinuxSigtrap, &[(1, "TRAP_BRKPT")]),
    (CodeFamily::LinuxSigbus, &[(1, "BUS_ADRALN")]),
    (CodeFamily::LinuxSigfpe, &[(1, "FPE_INTDIV")]),
    (CodeFamily::LinuxSigsegv, &[(1, "SEGV_MAPERR")]),
    (CodeFamily::LinuxSigsys, &[(1, "SYS_SECCOMP")]),
    (CodeFamily::Windows, &[(0x8000_0003, "EXCEPTION_BREAKPOINT"), (0xe000_0008, "OUT_OF_MEMORY")]),
    (CodeFamily::WinError, &[(5, "ERROR_ACCESS_DENIED")]),
    (CodeFamily::WinErrorFacility, &[(7, "FACILITY_WIN32")]),
    (CodeFamily::NtStatus, &[(0xc000_0022, "STATUS_ACCESS_DENIED")]),
    (CodeFamily::FastFail, &[(2, "FAST_FAIL_STACK_COOKIE_CHECK_FAILURE")]),
    (CodeFamily::WindowsAccess, &[(8, "EXEC")]),
    (CodeFamily::WindowsInPageError, &[(0, "READ")]),
];

// The text of each reason, with these names.
#[rattlefmt::skip]
const WITH_NAMES: &[(CrashReason, &str)] = &[
    (CrashReason::MacGeneral(2, 0x1f), "EXC_BAD_INSTRUCTION / 0x0000001f"),
    (CrashReason::MacGeneral(0x4350_7378, 1), "Simulated Exception"),
    (CrashReason::MacBadAccessKern(1), "EXC_BAD_ACCESS / KERN_INVALID_ADDRESS"),
    (CrashReason::MacBadAccessArm(0x101), "EXC_BAD_ACCESS / EXC_ARM_DA_ALIGN"),
    (CrashReason::MacBadAccessPpc(0x101), "EXC_BAD_ACCESS / EXC_PPC_VM_PROT_READ"),
    (CrashReason::MacBadAccessX86(13), "EXC_BAD_ACCESS / EXC_I386_GPFLT"),
    (CrashReason::MacBadInstructionArm(1), "EXC_BAD_INSTRUCTION / EXC_ARM_UNDEFINED"),
    (CrashReason::MacBadInstructionPpc(1), "EXC_BAD_INSTRUCTION / EXC_PPC_INVALID_SYSCALL"),
    (CrashReason::MacBadInstructionX86(1), "EXC_BAD_INSTRUCTION / EXC_I386_INVOP"),
    (CrashReason::MacArithmeticArm(1), "EXC_ARITHMETIC / EXC_ARM_FP_IO"),
    (CrashReason::MacArithmeticPpc(1), "EXC_ARITHMETIC / EXC_PPC_OVERFLOW"),
    (CrashReason::MacArithmeticX86(1), "EXC_ARITHMETIC / EXC_I386_DIV"),
    (CrashReason::MacSoftware(0x1_0003), "EXC_SOFTWARE / EXC_SOFT_SIGNAL"),
    (CrashReason::MacBreakpointArm(1), "EXC_BREAKPOINT / EXC_ARM_BREAKPOINT"),
    (CrashReason::MacBreakpointPpc(1), "EXC_BREAKPOINT / EXC_PPC_BREAKPOINT"),
    (CrashReason::MacBreakpointX86(2), "EXC_BREAKPOINT / EXC_I386_BPT"),
    (CrashReason::MacResource(1, 0x0400_0000_0000_057d, 0xfb), "EXC_RESOURCE / RESOURCE_TYPE_CPU / FLAVOR_CPU_MONITOR interval: 10s CPU limit: 5% CPU consumed: 3%"),
    (CrashReason::MacResource(1, 0x0400_0001_8000_0005, 3), "EXC_RESOURCE / RESOURCE_TYPE_CPU / FLAVOR_CPU_MONITOR interval: 16777216s CPU limit: 5% CPU consumed: 3%"),
    (CrashReason::MacResource(2, 0x0400_0000_0010_0096, 0x1097), "EXC_RESOURCE / RESOURCE_TYPE_WAKEUPS / FLAVOR_WAKEUPS_MONITOR interval: 1s wakeups permitted: 150 wakeups observed: 151"),
    (CrashReason::MacResource(2, 0x0400_0001_3880_0096, 0x97), "EXC_RESOURCE / RESOURCE_TYPE_WAKEUPS / FLAVOR_WAKEUPS_MONITOR interval: 5000s wakeups permitted: 150 wakeups observed: 151"),
    (CrashReason::MacResource(3, 0x0400_0000_0000_2032, 0), "EXC_RESOURCE / RESOURCE_TYPE_MEMORY / FLAVOR_HIGH_WATERMARK high watermark limit: 50MiB"),
    (CrashReason::MacResource(4, 0x0400_0000_0001_8003, 0x8004), "EXC_RESOURCE / RESOURCE_TYPE_IO / FLAVOR_IO_PHYSICAL_WRITES interval: 3s I/O limit: 3% I/O observed: 4%"),
    (CrashReason::MacResource(5, 0x0400_0000_0000_8064, 0), "EXC_RESOURCE / RESOURCE_TYPE_THREADS / FLAVOR_THREADS_HIGH_WATERMARK high watermark limit: 100"),
    (CrashReason::MacGuard(0, 1, 2), "EXC_GUARD / GUARD_TYPE_NONE"),
    (CrashReason::MacGuard(1, 0x1_1000_0003, 0), "EXC_GUARD / GUARD_TYPE_MACH_PORT / GUARD_EXC_DESTROY port name: 3"),
    (CrashReason::MacGuard(1, 0x1_1000_0003, 4), "EXC_GUARD / GUARD_TYPE_MACH_PORT / GUARD_EXC_DESTROY port name: 3 subcode: 4"),
    (CrashReason::MacGuard(2, 0x2000_0001_1000_0003, 4), "EXC_GUARD / GUARD_TYPE_FD / GUARD_EXC_CLOSE file descriptor: 3 guard identifier: 4"),
    (CrashReason::MacGuard(3, 0x5_8000_0007, 9), "EXC_GUARD / GUARD_TYPE_USER/ namespace: 2147483655 guard identifier: 9"),
    (CrashReason::MacGuard(4, 0x1_1000_0003, 4), "EXC_GUARD / GUARD_TYPE_VN / GUARD_EXC_RENAME pid: 3 guard identifier: 4"),
    (CrashReason::MacGuard(5, 0x1_0000_0003, 4), "EXC_GUARD / GUARD_TYPE_VIRT_MEMORY / GUARD_EXC_DEALLOC_GAP offset: 4"),
    (CrashReason::MacGuard(6, 0x1_0000_0003, 4), "EXC_GUARD / GUARD_TYPE_REJECTED_SC / GUARD_EXC_MACH_TRAP syscall: 4"),
    (CrashReason::LinuxGeneral(6, 0), "SIGABRT"),
    (CrashReason::LinuxGeneral(6, 0x80), "SIGABRT / SI_KERNEL"),
    (CrashReason::LinuxSigill(1), "SIGILL / ILL_ILLOPC"),
    (CrashReason::LinuxSigtrap(1), "SIGTRAP / TRAP_BRKPT"),
    (CrashReason::LinuxSigbus(1), "SIGBUS / BUS_ADRALN"),
    (CrashReason::LinuxSigfpe(1), "SIGFPE / FPE_INTDIV"),
    (CrashReason::LinuxSigsegv(1), "SIGSEGV / SEGV_MAPERR"),
    (CrashReason::LinuxSigsys(1), "SIGSYS / SYS_SECCOMP"),
    (CrashReason::WindowsGeneral(0x8000_0003), "EXCEPTION_BREAKPOINT"),
    (CrashReason::WindowsGeneral(0xe000_0008), "Out of Memory"),
    (CrashReason::WindowsGeneral(0xe06d_7363), "Unhandled C++ Exception"),
    (CrashReason::WindowsGeneral(0x0517_a7ed), "Simulated Exception"),
    (CrashReason::WindowsWinError(5), "ERROR_ACCESS_DENIED"),
    (CrashReason::WindowsWinErrorWithFacility(7, 5), "FACILITY_WIN32 / ERROR_ACCESS_DENIED"),
    (CrashReason::WindowsNtStatus(0xc000_0022), "STATUS_ACCESS_DENIED"),
    (CrashReason::WindowsAccessViolation(8), "EXCEPTION_ACCESS_VIOLATION_EXEC"),
    (CrashReason::WindowsInPageError(0, 0xc000_0022), "EXCEPTION_IN_PAGE_ERROR_READ / STATUS_ACCESS_DENIED"),
    (CrashReason::WindowsStackBufferOverrun(2), "EXCEPTION_STACK_BUFFER_OVERRUN / FAST_FAIL_STACK_COOKIE_CHECK_FAILURE"),
    (CrashReason::WindowsUnknown(0x8007_0005), "unknown 0x80070005"),
    (CrashReason::Unknown(11, 1), "unknown 0x0000000b / 0x00000001"),
];

// The same without names.
#[rattlefmt::skip]
const WITHOUT_NAMES: &[(CrashReason, &str)] = &[
    (CrashReason::MacGeneral(1, 2), "0x00000001 / 0x00000002"),
    (CrashReason::MacSoftware(2), "EXC_SOFTWARE / 0x00000002"),
    (CrashReason::MacResource(6, 1, 2), "EXC_RESOURCE / 0x00000006 / 0x0000000000000001 / 0x0000000000000002"),
    (CrashReason::MacResource(3, 1, 2), "EXC_RESOURCE / 0x00000003 / 0x0000000000000001 / 0x0000000000000002"),
    (CrashReason::MacGuard(0, 1, 2), "EXC_GUARD / 0x00000000"),
    (CrashReason::MacGuard(4, 1, 2), "EXC_GUARD / 0x00000004 / 0x0000000000000001 / 0x0000000000000002"),
    (CrashReason::MacGuard(7, 1, 2), "EXC_GUARD / 0x00000007 / 0x0000000000000001 / 0x0000000000000002"),
    (CrashReason::LinuxGeneral(6, 0), "0x00000006 / 0x00000000"),
    (CrashReason::LinuxSigsys(2), "SIGSYS / 0x00000002"),
    (CrashReason::WindowsGeneral(1), "0x00000001"),
    (CrashReason::WindowsWinErrorWithFacility(1, 2), "0x00000001 / 0x00000002"),
    (CrashReason::WindowsAccessViolation(2), "EXCEPTION_ACCESS_VIOLATION_0x00000002"),
    (CrashReason::WindowsInPageError(2, 3), "EXCEPTION_IN_PAGE_ERROR_0x00000002 / 0x00000003"),
    (CrashReason::WindowsStackBufferOverrun(0x1_2345_6789), "EXCEPTION_STACK_BUFFER_OVERRUN / 0x123456789"),
];

fn has_text_with_names(alloc: Global, row: &(CrashReason, &str)) -> bool {
    let names = CodeNames::new(NAMES).unwrap_or(CodeNames::empty());
    has_text(alloc, row.0, &names, row.1) == Ok(true)
}

fn has_text_without_names(alloc: Global, row: &(CrashReason, &str)) -> bool {
    has_text(alloc, row.0, &CodeNames::empty(), row.1) == Ok(true)
}

#[test]
fn every_reason_has_a_text(rt: HostRuntime) {
    for row in WITH_NAMES {
        assert!(rt; has_text_with_names(rt.alloc(), row), "{}", row.1);
    }
    for row in WITHOUT_NAMES {
        assert!(rt; has_text_without_names(rt.alloc(), row), "{}", row.1);
    }
}
