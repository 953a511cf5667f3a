ghost use Rattle.std.proofs.Common.{rules};
ghost use Rattle.std.specs.Prelude.{⊤};
ghost use Rattle.minidump_format.specs.Breakpad.{breakpad_info_valid};

use bitflags::{Flag, Flags, bitflag_items};
use minidump_bytes::{Endian, Exact, Record};

/// The threads that wrote and requested the dump: Breakpad's `MDRawBreakpadInfo`.
#[derive(Clone, Copy, PartialEq, Eq)]
pub struct MINIDUMP_BREAKPAD_INFO {
    /// Which of the other fields are set: [`BreakpadInfoValid`], as a number.
    pub validity: u32,
    /// The id of the thread that wrote the dump.
    pub dump_thread_id: u32,
    /// The id of the thread that requested the dump.
    pub requesting_thread_id: u32,
}

impl Record for MINIDUMP_BREAKPAD_INFO {
    ghost use Rattle.minidump_format.specs.Breakpad.{breakpad_info};

    ghost SIZE = { 12 };

    const SIZE: usize = 12;

    ghost layout = { breakpad_info };

    fn decode(bytes: &[u8], endian: Endian) -> Self {
        MINIDUMP_BREAKPAD_INFO {
            validity: endian.u32_at(bytes, 0),
            dump_thread_id: endian.u32_at(bytes, 4),
            requesting_thread_id: endian.u32_at(bytes, 8),
        }
    }

    ghost fits = { Prim.search rules };
}

impl Exact for MINIDUMP_BREAKPAD_INFO {
    ghost exact = { Prim.search rules };
}

/// Which fields of the Breakpad information are set: Breakpad's `MD_BREAKPAD_INFO_VALID_` numbers.
#[derive(Clone, Copy, PartialEq, Eq)]
pub struct BreakpadInfoValid(u32);

bitflag_items! {
    impl BreakpadInfoValid: u32 {
        /// The thread that wrote the dump.
        const DumpThreadId = 0x1;
        /// The thread that requested the dump.
        const RequestingThreadId = 0x2;
    }
}

impl Flags for BreakpadInfoValid {
    type Bits = u32;

    ghost exact = { ⊤ };

    ghost table = { breakpad_info_valid };

    ghost set_of = { λ s. s.0 };

    #[tactic(auto, unfolding(crate::specs::Breakpad::breakpad_info_valid))]
    fn flags<'a>() -> &'a [Flag<BreakpadInfoValid>] {
        BreakpadInfoValid::FLAGS
    }

    fn bits(&self) -> u32 {
        self.0
    }

    fn from_bits_retain(bits: u32) -> BreakpadInfoValid {
        BreakpadInfoValid(bits)
    }
}

impl Exact for BreakpadInfoValid {
    ghost exact = { Prim.search rules };
}
