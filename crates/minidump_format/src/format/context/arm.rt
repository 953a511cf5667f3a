ghost use Rattle.std.proofs.Common.{rules};

use minidump_bytes::{Endian, Record, array_at};

/// The floating-point state of an ARM processor: Breakpad's `MDFloatingSaveAreaARM`.
#[derive(Clone, Copy)]
pub struct FLOATING_SAVE_AREA_ARM {
    /// The floating-point status and control register `fpscr`.
    pub fpscr: u64,
    /// The registers d0 to d31.
    pub regs: [u64; 32],
    /// Eight further words, Breakpad's `extra`.
    pub extra: [u32; 8],
}

impl Record for FLOATING_SAVE_AREA_ARM {
    ghost use Rattle.minidump_format.specs.ContextArm.{arm_float_save};

    ghost SIZE = { 296 };

    const SIZE: usize = 296;

    ghost layout = { arm_float_save };

    fn decode(bytes: &[u8], endian: Endian) -> Self {
        FLOATING_SAVE_AREA_ARM {
            fpscr: endian.u64_at(bytes, 0),
            regs: array_at(bytes, 8, endian),
            extra: array_at(bytes, 264, endian),
        }
    }

    ghost fits = { Prim.search rules };
}

/// The registers of a thread on an ARM processor: Breakpad's `MDRawContextARM`.
#[derive(Clone, Copy)]
pub struct CONTEXT_ARM {
    /// The processor, as [`ContextFlagsCpu`](super::ContextFlagsCpu) names it, and which registers
    /// are set.
    pub context_flags: u32,
    /// The registers r0 to r15; r11 is the frame pointer, r13 the stack pointer, r14 the link
    /// register, r15 the instruction pointer.
    pub iregs: [u32; 16],
    /// The program status register `cpsr`.
    pub cpsr: u32,
    /// The floating-point registers.
    pub float_save: FLOATING_SAVE_AREA_ARM,
}

impl Record for CONTEXT_ARM {
    ghost use Rattle.minidump_format.specs.ContextArm.{context_arm};

    ghost SIZE = { 368 };

    const SIZE: usize = 368;

    ghost layout = { context_arm };

    fn decode(bytes: &[u8], endian: Endian) -> Self {
        CONTEXT_ARM {
            context_flags: endian.u32_at(bytes, 0),
            iregs: array_at(bytes, 4, endian),
            cpsr: endian.u32_at(bytes, 68),
            float_save: FLOATING_SAVE_AREA_ARM::decode(&bytes[72..368], endian),
        }
    }

    ghost fits = { Prim.search rules };
}
