ghost use Rattle.std.proofs.Common.{rules};
ghost use Rattle.std.specs.Prelude.{⊤, ◌≡◌, bit_and};
ghost use Rattle.bitflags.specs.Sets.{known_bits};
ghost use Rattle.minidump_format.specs.ContextFlags.{context_flags};

use bitflags::{Flag, Flags, bitflag_items};
use minidump_bytes::Exact;

/// The processor of a context, as bits of its flags: Microsoft's `CONTEXT_i386` and so on,
/// Breakpad's `MD_CONTEXT_` numbers.
#[derive(Clone, Copy, PartialEq, Eq)]
pub struct ContextFlagsCpu(u32);

bitflag_items! {
    impl ContextFlagsCpu: u32 {
        /// x86.
        const CONTEXT_X86 = 0x1_0000;
        /// MIPS, 32 bits.
        const CONTEXT_MIPS = 0x4_0000;
        /// MIPS, 64 bits.
        const CONTEXT_MIPS64 = 0x8_0000;
        /// x86-64.
        const CONTEXT_AMD64 = 0x10_0000;
        /// ARM64.
        const CONTEXT_ARM64 = 0x40_0000;
        /// PowerPC, 64 bits.
        const CONTEXT_PPC64 = 0x100_0000;
        /// SPARC.
        const CONTEXT_SPARC = 0x1000_0000;
        /// PowerPC, 32 bits.
        const CONTEXT_PPC = 0x2000_0000;
        /// ARM, 32 bits.
        const CONTEXT_ARM = 0x4000_0000;
        /// ARM64, in Breakpad's first layout.
        const CONTEXT_ARM64_OLD = 0x8000_0000;
    }
}

impl Flags for ContextFlagsCpu {
    type Bits = u32;

    ghost exact = { ⊤ };

    ghost table = { context_flags };

    ghost set_of = { λ s. s.0 };

    #[tactic(auto, unfolding(crate::specs::ContextFlags::context_flags))]
    fn flags<'a>() -> &'a [Flag<ContextFlagsCpu>] {
        ContextFlagsCpu::FLAGS
    }

    fn bits(&self) -> u32 {
        self.0
    }

    fn from_bits_retain(bits: u32) -> ContextFlagsCpu {
        ContextFlagsCpu(bits)
    }
}

impl ContextFlagsCpu {
    /// Keeps the bits of a context's flags that name a processor.
    pub fn from_flags(flags: u32) -> ContextFlagsCpu
        ensures { result.0 ≡ bit_and flags (known_bits context_flags) }
    {
        ContextFlagsCpu::from_bits_truncate(flags)
    }
}

impl Exact for ContextFlagsCpu {
    ghost exact = { Prim.search rules };
}
