ghost use Rattle.std.proofs.Common.{rules};

use minidump_bytes::{Endian, Record, array_at};

/// The registers of a thread on an ARM64 processor: Microsoft's `ARM64_NT_CONTEXT`, Breakpad's
/// `MDRawContextARM64`.
#[derive(Clone, Copy)]
pub struct CONTEXT_ARM64 {
    /// The processor, as [`ContextFlagsCpu`](super::ContextFlagsCpu) names it, and which registers
    /// are set.
    pub context_flags: u32,
    /// The program status register `cpsr`.
    pub cpsr: u32,
    /// The registers x0 to x30; x29 is the frame pointer, x30 the link register.
    pub iregs: [u64; 31],
    /// The stack pointer `sp`.
    pub sp: u64,
    /// The instruction pointer `pc`.
    pub pc: u64,
    /// The registers v0 to v31.
    pub float_regs: [u128; 32],
    /// The floating-point control register `fpcr`.
    pub fpcr: u32,
    /// The floating-point status register `fpsr`.
    pub fpsr: u32,
    /// The control registers of the breakpoints.
    pub bcr: [u32; 8],
    /// The addresses of the breakpoints.
    pub bvr: [u64; 8],
    /// The control registers of the watchpoints.
    pub wcr: [u32; 2],
    /// The addresses of the watchpoints.
    pub wvr: [u64; 2],
}

impl Record for CONTEXT_ARM64 {
    ghost use Rattle.minidump_format.specs.ContextArm64.{context_arm64};

    ghost SIZE = { 912 };

    const SIZE: usize = 912;

    ghost layout = { context_arm64 };

    fn decode(bytes: &[u8], endian: Endian) -> Self {
        CONTEXT_ARM64 {
            context_flags: endian.u32_at(bytes, 0),
            cpsr: endian.u32_at(bytes, 4),
            iregs: array_at(bytes, 8, endian),
            sp: endian.u64_at(bytes, 256),
            pc: endian.u64_at(bytes, 264),
            float_regs: array_at(bytes, 272, endian),
            fpcr: endian.u32_at(bytes, 784),
            fpsr: endian.u32_at(bytes, 788),
            bcr: array_at(bytes, 792, endian),
            bvr: array_at(bytes, 824, endian),
            wcr: array_at(bytes, 888, endian),
            wvr: array_at(bytes, 896, endian),
        }
    }

    ghost fits = { Prim.search rules };
}

/// The registers of a thread on an ARM64 processor, in Breakpad's first layout:
/// `MDRawContextARM64_Old`.
#[derive(Clone, Copy)]
pub struct CONTEXT_ARM64_OLD {
    /// The processor, as [`ContextFlagsCpu`](super::ContextFlagsCpu) names it, and which registers
    /// are set.
    pub context_flags: u64,
    /// The registers x0 to x30; x29 is the frame pointer, x30 the link register.
    pub iregs: [u64; 31],
    /// The stack pointer `sp`.
    pub sp: u64,
    /// The instruction pointer `pc`.
    pub pc: u64,
    /// The program status register `cpsr`.
    pub cpsr: u32,
    /// The floating-point status register `fpsr`.
    pub fpsr: u32,
    /// The floating-point control register `fpcr`.
    pub fpcr: u32,
    /// The registers v0 to v31.
    pub float_regs: [u128; 32],
}

impl Record for CONTEXT_ARM64_OLD {
    ghost use Rattle.minidump_format.specs.ContextArm64.{context_arm64_old};

    ghost SIZE = { 796 };

    const SIZE: usize = 796;

    ghost layout = { context_arm64_old };

    fn decode(bytes: &[u8], endian: Endian) -> Self {
        CONTEXT_ARM64_OLD {
            context_flags: endian.u64_at(bytes, 0),
            iregs: array_at(bytes, 8, endian),
            sp: endian.u64_at(bytes, 256),
            pc: endian.u64_at(bytes, 264),
            cpsr: endian.u32_at(bytes, 272),
            fpsr: endian.u32_at(bytes, 276),
            fpcr: endian.u32_at(bytes, 280),
            float_regs: array_at(bytes, 284, endian),
        }
    }

    ghost fits = { Prim.search rules };
}
