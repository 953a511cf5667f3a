// Each flag with its bit, and two flags together, by sets: those of minidumpapiset.h, winnt.h, Linux's asm/hwcap.h and
// Breakpad's headers.
use crate::assert_text;
use bitflags::Flags;
use minidump_format::format::{
    ArmElfHwCaps, BreakpadInfoValid, ContextFlagsCpu, MemoryProtection, MemoryState, MemoryType,
    MiscInfoFlags,
};
use std::alloc::AllocError;

const FLAGS: &str = "\
0x1 MINIDUMP_MISC1_PROCESS_ID
0x2 MINIDUMP_MISC1_PROCESS_TIMES
0x4 MINIDUMP_MISC1_PROCESSOR_POWER_INFO
0x10 MINIDUMP_MISC3_PROCESS_INTEGRITY
0x20 MINIDUMP_MISC3_PROCESS_EXECUTE_FLAGS
0x40 MINIDUMP_MISC3_TIMEZONE
0x80 MINIDUMP_MISC3_PROTECTED_PROCESS
0x100 MINIDUMP_MISC4_BUILDSTRING
0x200 MINIDUMP_MISC5_PROCESS_COOKIE

0x1 HWCAP_SWP
0x2 HWCAP_HALF
0x4 HWCAP_THUMB
0x8 HWCAP_26BIT
0x10 HWCAP_FAST_MULT
0x20 HWCAP_FPA
0x40 HWCAP_VFP
0x80 HWCAP_EDSP
0x100 HWCAP_JAVA
0x200 HWCAP_IWMMXT
0x400 HWCAP_CRUNCH
0x800 HWCAP_THUMBEE
0x1000 HWCAP_NEON
0x2000 HWCAP_VFPv3
0x4000 HWCAP_VFPv3D16
0x8000 HWCAP_TLS
0x10000 HWCAP_VFPv4
0x20000 HWCAP_IDIVA
0x40000 HWCAP_IDIVT

0x1 PAGE_NOACCESS
0x2 PAGE_READONLY
0x4 PAGE_READWRITE
0x8 PAGE_WRITECOPY
0x10 PAGE_EXECUTE
0x20 PAGE_EXECUTE_READ
0x40 PAGE_EXECUTE_READWRITE
0x80 PAGE_EXECUTE_WRITECOPY
0x100 PAGE_GUARD
0x200 PAGE_NOCACHE
0x400 PAGE_WRITECOMBINE

0x1000 MEM_COMMIT
0x2000 MEM_RESERVE
0x10000 MEM_FREE

0x20000 MEM_PRIVATE
0x40000 MEM_MAPPED
0x1000000 MEM_IMAGE

0x1 DumpThreadId
0x2 RequestingThreadId

0x10000 CONTEXT_X86
0x40000 CONTEXT_MIPS
0x80000 CONTEXT_MIPS64
0x100000 CONTEXT_AMD64
0x400000 CONTEXT_ARM64
0x1000000 CONTEXT_PPC64
0x10000000 CONTEXT_SPARC
0x20000000 CONTEXT_PPC
0x40000000 CONTEXT_ARM
0x80000000 CONTEXT_ARM64_OLD

0x104 PAGE_READWRITE | PAGE_GUARD
";

// Appends a line for each flag of a set, and an empty line.
fn push_flags<F: Flags<Bits = u32> + Drop>(out: &mut String) -> Result<(), AllocError> {
    for flag in F::flags() {
        write!(out, "{:#x} {}\n", flag.value().bits(), flag.name())?;
    }
    out.push_str("\n")
}

fn push_sets(out: &mut String) -> Result<(), AllocError> {
    push_flags::<MiscInfoFlags>(out)?;
    push_flags::<ArmElfHwCaps>(out)?;
    push_flags::<MemoryProtection>(out)?;
    push_flags::<MemoryState>(out)?;
    push_flags::<MemoryType>(out)?;
    push_flags::<BreakpadInfoValid>(out)?;
    push_flags::<ContextFlagsCpu>(out)?;
    let both = MemoryProtection::PAGE_READWRITE | MemoryProtection::PAGE_GUARD;
    write!(out, "{:#x} PAGE_READWRITE | PAGE_GUARD\n", both.bits())
}

#[test]
fn flags_have_their_bits(rt: HostRuntime) {
    let mut found = String::new(rt.alloc());
    let _ = push_sets(&mut found);
    assert_text(&rt, found.as_str(), FLAGS);
}
