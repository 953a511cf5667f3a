ghost use Rattle.std.proofs.Common.{rules};

use minidump_bytes::{Endian, Record, array_at};

/// The floating-point state of an x86 processor: Microsoft's `FLOATING_SAVE_AREA`.
#[derive(Clone, Copy)]
pub struct FLOATING_SAVE_AREA_X86 {
    /// The x87 control word.
    pub control_word: u32,
    /// The x87 status word.
    pub status_word: u32,
    /// The x87 tag word: which registers are in use.
    pub tag_word: u32,
    /// The offset of the last x87 instruction.
    pub error_offset: u32,
    /// The segment selector of the last x87 instruction.
    pub error_selector: u32,
    /// The offset of its operand in memory.
    pub data_offset: u32,
    /// The segment selector of its operand in memory.
    pub data_selector: u32,
    /// The eight x87 registers, ten bytes each.
    pub register_area: [u8; 80],
    /// The control register `cr0`, as it was for the x87.
    pub cr0_npx_state: u32,
}

impl Record for FLOATING_SAVE_AREA_X86 {
    ghost use Rattle.minidump_format.specs.ContextX86.{x86_float_save};

    ghost SIZE = { 112 };

    const SIZE: usize = 112;

    ghost layout = { x86_float_save };

    fn decode(bytes: &[u8], endian: Endian) -> Self {
        FLOATING_SAVE_AREA_X86 {
            control_word: endian.u32_at(bytes, 0),
            status_word: endian.u32_at(bytes, 4),
            tag_word: endian.u32_at(bytes, 8),
            error_offset: endian.u32_at(bytes, 12),
            error_selector: endian.u32_at(bytes, 16),
            data_offset: endian.u32_at(bytes, 20),
            data_selector: endian.u32_at(bytes, 24),
            register_area: array_at(bytes, 28, endian),
            cr0_npx_state: endian.u32_at(bytes, 108),
        }
    }

    ghost fits = { Prim.search rules };
}

/// The registers of a thread on an x86 processor: Microsoft's `CONTEXT` of x86, Breakpad's
/// `MDRawContextX86`.
#[derive(Clone, Copy)]
pub struct CONTEXT_X86 {
    /// The processor, as [`ContextFlagsCpu`](super::ContextFlagsCpu) names it, and which registers
    /// are set.
    pub context_flags: u32,
    /// Debug register `dr0`.
    pub dr0: u32,
    /// Debug register `dr1`.
    pub dr1: u32,
    /// Debug register `dr2`.
    pub dr2: u32,
    /// Debug register `dr3`.
    pub dr3: u32,
    /// Debug register `dr6`.
    pub dr6: u32,
    /// Debug register `dr7`.
    pub dr7: u32,
    /// The x87 registers.
    pub float_save: FLOATING_SAVE_AREA_X86,
    /// Segment register `gs`.
    pub gs: u32,
    /// Segment register `fs`.
    pub fs: u32,
    /// Segment register `es`.
    pub es: u32,
    /// Segment register `ds`.
    pub ds: u32,
    /// General register `edi`.
    pub edi: u32,
    /// General register `esi`.
    pub esi: u32,
    /// General register `ebx`.
    pub ebx: u32,
    /// General register `edx`.
    pub edx: u32,
    /// General register `ecx`.
    pub ecx: u32,
    /// General register `eax`.
    pub eax: u32,
    /// General register `ebp`.
    pub ebp: u32,
    /// The instruction pointer `eip`.
    pub eip: u32,
    /// Segment register `cs`.
    pub cs: u32,
    /// The flags register `eflags`.
    pub eflags: u32,
    /// The stack pointer `esp`.
    pub esp: u32,
    /// Segment register `ss`.
    pub ss: u32,
    /// The x87 and SSE registers, as `FXSAVE` writes them.
    pub extended_registers: [u8; 512],
}

impl Record for CONTEXT_X86 {
    ghost use Rattle.minidump_format.specs.ContextX86.{context_x86};

    ghost SIZE = { 716 };

    const SIZE: usize = 716;

    ghost layout = { context_x86 };

    fn decode(bytes: &[u8], endian: Endian) -> Self {
        CONTEXT_X86 {
            context_flags: endian.u32_at(bytes, 0),
            dr0: endian.u32_at(bytes, 4),
            dr1: endian.u32_at(bytes, 8),
            dr2: endian.u32_at(bytes, 12),
            dr3: endian.u32_at(bytes, 16),
            dr6: endian.u32_at(bytes, 20),
            dr7: endian.u32_at(bytes, 24),
            float_save: FLOATING_SAVE_AREA_X86::decode(&bytes[28..140], endian),
            gs: endian.u32_at(bytes, 140),
            fs: endian.u32_at(bytes, 144),
            es: endian.u32_at(bytes, 148),
            ds: endian.u32_at(bytes, 152),
            edi: endian.u32_at(bytes, 156),
            esi: endian.u32_at(bytes, 160),
            ebx: endian.u32_at(bytes, 164),
            edx: endian.u32_at(bytes, 168),
            ecx: endian.u32_at(bytes, 172),
            eax: endian.u32_at(bytes, 176),
            ebp: endian.u32_at(bytes, 180),
            eip: endian.u32_at(bytes, 184),
            cs: endian.u32_at(bytes, 188),
            eflags: endian.u32_at(bytes, 192),
            esp: endian.u32_at(bytes, 196),
            ss: endian.u32_at(bytes, 200),
            extended_registers: array_at(bytes, 204, endian),
        }
    }

    ghost fits = { Prim.search rules };
}
