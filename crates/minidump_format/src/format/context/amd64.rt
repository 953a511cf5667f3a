ghost use Rattle.std.proofs.Common.{rules};

use minidump_bytes::{Endian, Record, array_at};

/// The registers of a thread on an x86-64 processor: Microsoft's `CONTEXT` of x64, Breakpad's
/// `MDRawContextAMD64`.
#[derive(Clone, Copy)]
pub struct CONTEXT_AMD64 {
    /// The home space of a call's first parameter; the next five fields likewise.
    pub p1_home: u64,
    /// The home space of a call's second parameter.
    pub p2_home: u64,
    /// The home space of a call's third parameter.
    pub p3_home: u64,
    /// The home space of a call's fourth parameter.
    pub p4_home: u64,
    /// The home space of a call's fifth parameter.
    pub p5_home: u64,
    /// The home space of a call's sixth parameter.
    pub p6_home: u64,
    /// The processor, as [`ContextFlagsCpu`](super::ContextFlagsCpu) names it, and which registers
    /// are set.
    pub context_flags: u32,
    /// The control and status register of SSE, `mxcsr`.
    pub mx_csr: u32,
    /// Segment register `cs`.
    pub cs: u16,
    /// Segment register `ds`.
    pub ds: u16,
    /// Segment register `es`.
    pub es: u16,
    /// Segment register `fs`.
    pub fs: u16,
    /// Segment register `gs`.
    pub gs: u16,
    /// Segment register `ss`.
    pub ss: u16,
    /// The flags register `eflags`.
    pub eflags: u32,
    /// Debug register `dr0`.
    pub dr0: u64,
    /// Debug register `dr1`.
    pub dr1: u64,
    /// Debug register `dr2`.
    pub dr2: u64,
    /// Debug register `dr3`.
    pub dr3: u64,
    /// Debug register `dr6`.
    pub dr6: u64,
    /// Debug register `dr7`.
    pub dr7: u64,
    /// General register `rax`.
    pub rax: u64,
    /// General register `rcx`.
    pub rcx: u64,
    /// General register `rdx`.
    pub rdx: u64,
    /// General register `rbx`.
    pub rbx: u64,
    /// The stack pointer `rsp`.
    pub rsp: u64,
    /// General register `rbp`.
    pub rbp: u64,
    /// General register `rsi`.
    pub rsi: u64,
    /// General register `rdi`.
    pub rdi: u64,
    /// General register `r8`.
    pub r8: u64,
    /// General register `r9`.
    pub r9: u64,
    /// General register `r10`.
    pub r10: u64,
    /// General register `r11`.
    pub r11: u64,
    /// General register `r12`.
    pub r12: u64,
    /// General register `r13`.
    pub r13: u64,
    /// General register `r14`.
    pub r14: u64,
    /// General register `r15`.
    pub r15: u64,
    /// The instruction pointer `rip`.
    pub rip: u64,
    /// The x87 and SSE registers, as `FXSAVE` writes them.
    pub unused1: [u8; 512],
    /// The vector registers, Microsoft's `VectorRegister`.
    pub unused2: [u128; 26],
    /// Microsoft's `VectorControl`, `DebugControl`, and the addresses of the last branch and the
    /// last exception, to and from.
    pub unused3: [u64; 6],
}

impl Record for CONTEXT_AMD64 {
    ghost use Rattle.minidump_format.specs.ContextAmd64.{context_amd64};

    ghost SIZE = { 1232 };

    const SIZE: usize = 1232;

    ghost layout = { context_amd64 };

    fn decode(bytes: &[u8], endian: Endian) -> Self {
        CONTEXT_AMD64 {
            p1_home: endian.u64_at(bytes, 0),
            p2_home: endian.u64_at(bytes, 8),
            p3_home: endian.u64_at(bytes, 16),
            p4_home: endian.u64_at(bytes, 24),
            p5_home: endian.u64_at(bytes, 32),
            p6_home: endian.u64_at(bytes, 40),
            context_flags: endian.u32_at(bytes, 48),
            mx_csr: endian.u32_at(bytes, 52),
            cs: endian.u16_at(bytes, 56),
            ds: endian.u16_at(bytes, 58),
            es: endian.u16_at(bytes, 60),
            fs: endian.u16_at(bytes, 62),
            gs: endian.u16_at(bytes, 64),
            ss: endian.u16_at(bytes, 66),
            eflags: endian.u32_at(bytes, 68),
            dr0: endian.u64_at(bytes, 72),
            dr1: endian.u64_at(bytes, 80),
            dr2: endian.u64_at(bytes, 88),
            dr3: endian.u64_at(bytes, 96),
            dr6: endian.u64_at(bytes, 104),
            dr7: endian.u64_at(bytes, 112),
            rax: endian.u64_at(bytes, 120),
            rcx: endian.u64_at(bytes, 128),
            rdx: endian.u64_at(bytes, 136),
            rbx: endian.u64_at(bytes, 144),
            rsp: endian.u64_at(bytes, 152),
            rbp: endian.u64_at(bytes, 160),
            rsi: endian.u64_at(bytes, 168),
            rdi: endian.u64_at(bytes, 176),
            r8: endian.u64_at(bytes, 184),
            r9: endian.u64_at(bytes, 192),
            r10: endian.u64_at(bytes, 200),
            r11: endian.u64_at(bytes, 208),
            r12: endian.u64_at(bytes, 216),
            r13: endian.u64_at(bytes, 224),
            r14: endian.u64_at(bytes, 232),
            r15: endian.u64_at(bytes, 240),
            rip: endian.u64_at(bytes, 248),
            unused1: array_at(bytes, 256, endian),
            unused2: array_at(bytes, 768, endian),
            unused3: array_at(bytes, 1184, endian),
        }
    }

    ghost fits = { Prim.search rules };
}
