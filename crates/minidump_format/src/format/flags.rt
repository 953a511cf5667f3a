ghost use Rattle.std.specs.Prelude.{⊤};
ghost use Rattle.minidump_format.specs.Flags.{misc_info_flags, arm_features};

use bitflags::{Flag, Flags, bitflag_items};

/// Which fields of the misc information are set: Microsoft's `MINIDUMP_MISC1_PROCESS_ID` and so on.
#[derive(Clone, Copy, PartialEq, Eq)]
pub struct MiscInfoFlags(u32);

bitflag_items! {
    impl MiscInfoFlags: u32 {
        /// The id of the process.
        const MINIDUMP_MISC1_PROCESS_ID = 0x1;
        /// The times of the process.
        const MINIDUMP_MISC1_PROCESS_TIMES = 0x2;
        /// The clock rates and the idle states of the processors.
        const MINIDUMP_MISC1_PROCESSOR_POWER_INFO = 0x4;
        /// The integrity level of the process.
        const MINIDUMP_MISC3_PROCESS_INTEGRITY = 0x10;
        /// The execute flags of the process.
        const MINIDUMP_MISC3_PROCESS_EXECUTE_FLAGS = 0x20;
        /// The time zone and its id.
        const MINIDUMP_MISC3_TIMEZONE = 0x40;
        /// Whether the process is protected.
        const MINIDUMP_MISC3_PROTECTED_PROCESS = 0x80;
        /// `build_string` and `dbg_bld_str`.
        const MINIDUMP_MISC4_BUILDSTRING = 0x100;
        /// The cookie of the process.
        const MINIDUMP_MISC5_PROCESS_COOKIE = 0x200;
    }
}

impl Flags for MiscInfoFlags {
    type Bits = u32;

    ghost exact = { ⊤ };

    ghost table = { misc_info_flags };

    ghost set_of = { λ s. s.0 };

    #[tactic(auto, unfolding(crate::specs::Flags::misc_info_flags))]
    fn flags<'a>() -> &'a [Flag<MiscInfoFlags>] {
        MiscInfoFlags::FLAGS
    }

    fn bits(&self) -> u32 {
        self.0
    }

    fn from_bits_retain(bits: u32) -> MiscInfoFlags {
        MiscInfoFlags(bits)
    }
}

/// The features of an ARM processor, as Linux reports them: the `HWCAP_` numbers of its
/// `asm/hwcap.h`.
#[derive(Clone, Copy, PartialEq, Eq)]
pub struct ArmElfHwCaps(u32);

bitflag_items! {
    impl ArmElfHwCaps: u32 {
        /// The `SWP` instruction.
        const HWCAP_SWP = 0x1;
        /// Loads and stores of half-words.
        const HWCAP_HALF = 0x2;
        /// The Thumb instruction set.
        const HWCAP_THUMB = 0x4;
        /// The 26-bit address model.
        const HWCAP_26BIT = 0x8;
        /// Multiplication of 32 by 32 bits to 64.
        const HWCAP_FAST_MULT = 0x10;
        /// The floating-point accelerator, FPA.
        const HWCAP_FPA = 0x20;
        /// Vector floating point, VFP.
        const HWCAP_VFP = 0x40;
        /// The DSP extensions.
        const HWCAP_EDSP = 0x80;
        /// Jazelle, which runs Java bytecode.
        const HWCAP_JAVA = 0x100;
        /// Intel's Wireless MMX.
        const HWCAP_IWMMXT = 0x200;
        /// The MaverickCrunch coprocessor.
        const HWCAP_CRUNCH = 0x400;
        /// The ThumbEE instruction set.
        const HWCAP_THUMBEE = 0x800;
        /// Advanced SIMD, NEON.
        const HWCAP_NEON = 0x1000;
        /// VFP version 3.
        const HWCAP_VFPv3 = 0x2000;
        /// VFP version 3 with 16 double-precision registers.
        const HWCAP_VFPv3D16 = 0x4000;
        /// The register for thread-local storage.
        const HWCAP_TLS = 0x8000;
        /// VFP version 4.
        const HWCAP_VFPv4 = 0x1_0000;
        /// Integer division in ARM state.
        const HWCAP_IDIVA = 0x2_0000;
        /// Integer division in Thumb state.
        const HWCAP_IDIVT = 0x4_0000;
    }
}

impl Flags for ArmElfHwCaps {
    type Bits = u32;

    ghost exact = { ⊤ };

    ghost table = { arm_features };

    ghost set_of = { λ s. s.0 };

    #[tactic(auto, unfolding(crate::specs::Flags::arm_features))]
    fn flags<'a>() -> &'a [Flag<ArmElfHwCaps>] {
        ArmElfHwCaps::FLAGS
    }

    fn bits(&self) -> u32 {
        self.0
    }

    fn from_bits_retain(bits: u32) -> ArmElfHwCaps {
        ArmElfHwCaps(bits)
    }
}
