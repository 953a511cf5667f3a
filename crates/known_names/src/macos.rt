//! The names of macOS, of `names/macos.names`. `names/compile` made this file.

ghost use Rattle.std.specs.Prelude.{◌≡◌, ◌++◌, OnOk, string_bytes};
ghost use Rattle.known_names.specs.KnownNames.{macos_lines, macos_1};

use std::alloc::AllocError;

// Appends the lines.
#[tactic(auto, unfolding(crate::specs::KnownNames::macos_lines))]
pub(crate) fn push_lines(out: &mut String) -> Result<(), AllocError>
    ensures { OnOk result (string_bytes out.new ≡ string_bytes out.old ++ macos_lines) }
{
    out.push_str(macos_1())?;
    Ok(())
}

#[tactic(auto, unfolding(crate::specs::KnownNames::macos_1))]
fn macos_1() -> &'static str
    ensures { result.now ≡ macos_1 }
{
    MACOS_1
}

const MACOS_1: &str = "\
Mac 1 EXC_BAD_ACCESS\n\
Mac 2 EXC_BAD_INSTRUCTION\n\
Mac 3 EXC_ARITHMETIC\n\
Mac 4 EXC_EMULATION\n\
Mac 5 EXC_SOFTWARE\n\
Mac 6 EXC_BREAKPOINT\n\
Mac 7 EXC_SYSCALL\n\
Mac 8 EXC_MACH_SYSCALL\n\
Mac 9 EXC_RPC_ALERT\n\
Mac 10 EXC_CRASH\n\
Mac 11 EXC_RESOURCE\n\
Mac 12 EXC_GUARD\n\
Mac 13 EXC_CORPSE_NOTIFY\n\
Mac 0x43507378 SIMULATED\n\
MacBadAccessKern 1 KERN_INVALID_ADDRESS\n\
MacBadAccessKern 2 KERN_PROTECTION_FAILURE\n\
MacBadAccessKern 3 KERN_NO_SPACE\n\
MacBadAccessKern 4 KERN_INVALID_ARGUMENT\n\
MacBadAccessKern 5 KERN_FAILURE\n\
MacBadAccessKern 6 KERN_RESOURCE_SHORTAGE\n\
MacBadAccessKern 7 KERN_NOT_RECEIVER\n\
MacBadAccessKern 8 KERN_NO_ACCESS\n\
MacBadAccessKern 9 KERN_MEMORY_FAILURE\n\
MacBadAccessKern 10 KERN_MEMORY_ERROR\n\
MacBadAccessKern 11 KERN_ALREADY_IN_SET\n\
MacBadAccessKern 12 KERN_NOT_IN_SET\n\
MacBadAccessKern 14 KERN_ABORTED\n\
MacBadAccessKern 50 KERN_CODESIGN_ERROR\n\
MacBadAccessArm 0x101 EXC_ARM_DA_ALIGN\n\
MacBadAccessArm 0x102 EXC_ARM_DA_DEBUG\n\
MacBadAccessArm 0x103 EXC_ARM_SP_ALIGN\n\
MacBadAccessArm 0x104 EXC_ARM_SWP\n\
MacBadAccessArm 0x105 EXC_ARM_PAC_FAIL\n\
MacBadAccessPpc 0x101 EXC_PPC_VM_PROT_READ\n\
MacBadAccessPpc 0x102 EXC_PPC_BADSPACE\n\
MacBadAccessPpc 0x103 EXC_PPC_UNALIGNED\n\
MacBadAccessX86 13 EXC_I386_GPFLT\n\
MacBadInstructionArm 1 EXC_ARM_UNDEFINED\n\
MacBadInstructionPpc 1 EXC_PPC_INVALID_SYSCALL\n\
MacBadInstructionPpc 2 EXC_PPC_UNIPL_INST\n\
MacBadInstructionPpc 3 EXC_PPC_PRIVINST\n\
MacBadInstructionPpc 4 EXC_PPC_PRIVREG\n\
MacBadInstructionPpc 5 EXC_PPC_TRACE\n\
MacBadInstructionPpc 6 EXC_PPC_PERFMON\n\
MacBadInstructionX86 1 EXC_I386_INVOP\n\
MacBadInstructionX86 10 EXC_I386_INVTSSFLT\n\
MacBadInstructionX86 11 EXC_I386_SEGNPFLT\n\
MacBadInstructionX86 12 EXC_I386_STKFLT\n\
MacBadInstructionX86 13 EXC_I386_GPFLT\n\
MacBadInstructionX86 17 EXC_I386_ALIGNFLT\n\
MacArithmeticArm 0 EXC_ARM_FP_UNDEFINED\n\
MacArithmeticArm 1 EXC_ARM_FP_IO\n\
MacArithmeticArm 2 EXC_ARM_FP_DZ\n\
MacArithmeticArm 3 EXC_ARM_FP_OF\n\
MacArithmeticArm 4 EXC_ARM_FP_UF\n\
MacArithmeticArm 5 EXC_ARM_FP_IX\n\
MacArithmeticArm 6 EXC_ARM_FP_ID\n\
MacArithmeticPpc 1 EXC_PPC_OVERFLOW\n\
MacArithmeticPpc 2 EXC_PPC_ZERO_DIVIDE\n\
MacArithmeticPpc 3 EXC_PPC_FLT_INEXACT\n\
MacArithmeticPpc 4 EXC_PPC_FLT_ZERO_DIVIDE\n\
MacArithmeticPpc 5 EXC_PPC_FLT_UNDERFLOW\n\
MacArithmeticPpc 6 EXC_PPC_FLT_OVERFLOW\n\
MacArithmeticPpc 7 EXC_PPC_FLT_NOT_A_NUMBER\n\
MacArithmeticPpc 8 EXC_PPC_NOEMULATION\n\
MacArithmeticPpc 9 EXC_PPC_ALTIVECASSIST\n\
MacArithmeticX86 1 EXC_I386_DIV\n\
MacArithmeticX86 2 EXC_I386_INTO\n\
MacArithmeticX86 5 EXC_I386_NOEXT\n\
MacArithmeticX86 6 EXC_I386_EXTOVR\n\
MacArithmeticX86 7 EXC_I386_EXTERR\n\
MacArithmeticX86 8 EXC_I386_EMERR\n\
MacArithmeticX86 9 EXC_I386_BOUND\n\
MacArithmeticX86 10 EXC_I386_SSEEXTERR\n\
MacBreakpointArm 1 EXC_ARM_BREAKPOINT\n\
MacBreakpointArm 0x101 EXC_ARM_DA_ALIGN\n\
MacBreakpointArm 0x102 EXC_ARM_DA_DEBUG\n\
MacBreakpointPpc 1 EXC_PPC_BREAKPOINT\n\
MacBreakpointX86 1 EXC_I386_SGL\n\
MacBreakpointX86 2 EXC_I386_BPT\n\
MacSoftware 1 EXC_PPC_TRAP\n\
MacSoftware 0x10000 EXC_UNIX_BAD_SYSCALL\n\
MacSoftware 0x10001 EXC_UNIX_BAD_PIPE\n\
MacSoftware 0x10002 SIGABRT\n\
MacSoftware 0x10003 EXC_SOFT_SIGNAL\n\
MacSoftware 0x10100 EXC_PPC_MIGRATE\n\
MacSoftware 0xdeadc0de UNCAUGHT_NS_EXCEPTION\n\
MacResource 1 RESOURCE_TYPE_CPU\n\
MacResource 2 RESOURCE_TYPE_WAKEUPS\n\
MacResource 3 RESOURCE_TYPE_MEMORY\n\
MacResource 4 RESOURCE_TYPE_IO\n\
MacResource 5 RESOURCE_TYPE_THREADS\n\
MacResourceCpu 1 FLAVOR_CPU_MONITOR\n\
MacResourceCpu 2 FLAVOR_CPU_MONITOR_FATAL\n\
MacResourceWakeups 1 FLAVOR_WAKEUPS_MONITOR\n\
MacResourceMemory 1 FLAVOR_HIGH_WATERMARK\n\
MacResourceIo 1 FLAVOR_IO_PHYSICAL_WRITES\n\
MacResourceIo 2 FLAVOR_IO_LOGICAL_WRITES\n\
MacResourceThreads 1 FLAVOR_THREADS_HIGH_WATERMARK\n\
MacGuard 0 GUARD_TYPE_NONE\n\
MacGuard 1 GUARD_TYPE_MACH_PORT\n\
MacGuard 2 GUARD_TYPE_FD\n\
MacGuard 3 GUARD_TYPE_USER\n\
MacGuard 4 GUARD_TYPE_VN\n\
MacGuard 5 GUARD_TYPE_VIRT_MEMORY\n\
MacGuard 6 GUARD_TYPE_REJECTED_SC\n\
MacGuardMachPort 0x1 GUARD_EXC_DESTROY\n\
MacGuardMachPort 0x2 GUARD_EXC_MOD_REFS\n\
MacGuardMachPort 0x3 GUARD_EXC_INVALID_OPTIONS\n\
MacGuardMachPort 0x4 GUARD_EXC_SET_CONTEXT\n\
MacGuardMachPort 0x8 GUARD_EXC_UNGUARDED\n\
MacGuardMachPort 0x10 GUARD_EXC_INCORRECT_GUARD\n\
MacGuardMachPort 0x20 GUARD_EXC_IMMOVABLE\n\
MacGuardMachPort 0x40 GUARD_EXC_STRICT_REPLY\n\
MacGuardMachPort 0x80 GUARD_EXC_MSG_FILTERED\n\
MacGuardMachPort 0x100 GUARD_EXC_INVALID_RIGHT\n\
MacGuardMachPort 0x200 GUARD_EXC_INVALID_NAME\n\
MacGuardMachPort 0x400 GUARD_EXC_INVALID_VALUE\n\
MacGuardMachPort 0x800 GUARD_EXC_INVALID_ARGUMENT\n\
MacGuardMachPort 0x1000 GUARD_EXC_RIGHT_EXISTS\n\
MacGuardMachPort 0x2000 GUARD_EXC_KERN_NO_SPACE\n\
MacGuardMachPort 0x4000 GUARD_EXC_KERN_FAILURE\n\
MacGuardMachPort 0x8000 GUARD_EXC_KERN_RESOURCE\n\
MacGuardMachPort 0x10000 GUARD_EXC_SEND_INVALID_REPLY\n\
MacGuardMachPort 0x20000 GUARD_EXC_SEND_INVALID_VOUCHER\n\
MacGuardMachPort 0x40000 GUARD_EXC_SEND_INVALID_RIGHT\n\
MacGuardMachPort 0x80000 GUARD_EXC_RCV_INVALID_NAME\n\
MacGuardFd 0x1 GUARD_EXC_CLOSE\n\
MacGuardFd 0x2 GUARD_EXC_DUP\n\
MacGuardFd 0x4 GUARD_EXC_NOCLOEXEC\n\
MacGuardFd 0x8 GUARD_EXC_SOCKET_IPC\n\
MacGuardFd 0x10 GUARD_EXC_FILEPORT\n\
MacGuardFd 0x20 GUARD_EXC_MISMATCH\n\
MacGuardFd 0x40 GUARD_EXC_WRITE\n\
MacGuardVn 0x1 GUARD_EXC_RENAME_TO\n\
MacGuardVn 0x2 GUARD_EXC_RENAME_FROM\n\
MacGuardVn 0x4 GUARD_EXC_UNLINK\n\
MacGuardVn 0x8 GUARD_EXC_WRITE_OTHER\n\
MacGuardVn 0x10 GUARD_EXC_TRUNC_OTHER\n\
MacGuardVn 0x20 GUARD_EXC_LINK\n\
MacGuardVn 0x40 GUARD_EXC_EXCHDATA\n\
MacGuardVirtMemory 0x1 GUARD_EXC_DEALLOC_GAP\n\
MacGuardRejectedSysCall 0x0 GUARD_EXC_MACH_TRAP\n\
MacGuardRejectedSysCall 0x1 GUARD_EXC_UNIX_SYSCALL\n\
";
