ghost use Rattle.std.proofs.Common.{rules};
ghost use Rattle.std.specs.Prelude.{⊤};
ghost use Rattle.minidump_format.specs.MemoryInfo.{memory_protection, memory_state, memory_type};

use bitflags::{Flag, Flags, bitflag_items};
use minidump_bytes::{Endian, Exact, Record};

/// Information on a region of memory: Microsoft's `MINIDUMP_MEMORY_INFO`.
#[derive(Clone, Copy, PartialEq, Eq)]
pub struct MINIDUMP_MEMORY_INFO {
    /// The base address.
    pub base_address: u64,
    /// The base address of the allocation that the region is part of.
    pub allocation_base: u64,
    /// The protection when the region was allocated: [`MemoryProtection`], as a number.
    pub allocation_protection: u32,
    /// Padding, Microsoft's `__alignment1`.
    pub unused1: u32,
    /// The number of bytes.
    pub region_size: u64,
    /// The state: [`MemoryState`], as a number.
    pub state: u32,
    /// The protection when the dump was written: [`MemoryProtection`], as a number.
    pub protection: u32,
    /// The type: [`MemoryType`], as a number.
    pub _type: u32,
    /// Padding, Microsoft's `__alignment2`.
    pub unused2: u32,
}

impl Record for MINIDUMP_MEMORY_INFO {
    ghost use Rattle.minidump_format.specs.MemoryInfo.{memory_info};

    ghost SIZE = { 48 };

    const SIZE: usize = 48;

    ghost layout = { memory_info };

    fn decode(bytes: &[u8], endian: Endian) -> Self {
        MINIDUMP_MEMORY_INFO {
            base_address: endian.u64_at(bytes, 0),
            allocation_base: endian.u64_at(bytes, 8),
            allocation_protection: endian.u32_at(bytes, 16),
            unused1: endian.u32_at(bytes, 20),
            region_size: endian.u64_at(bytes, 24),
            state: endian.u32_at(bytes, 32),
            protection: endian.u32_at(bytes, 36),
            _type: endian.u32_at(bytes, 40),
            unused2: endian.u32_at(bytes, 44),
        }
    }

    ghost fits = { Prim.search rules };
}

impl Exact for MINIDUMP_MEMORY_INFO {
    ghost exact = { Prim.search rules };
}

/// The access that pages allow: Microsoft's `PAGE_` numbers.
#[derive(Clone, Copy, PartialEq, Eq)]
pub struct MemoryProtection(u32);

bitflag_items! {
    impl MemoryProtection: u32 {
        /// No access.
        const PAGE_NOACCESS = 0x1;
        /// Reads.
        const PAGE_READONLY = 0x2;
        /// Reads and writes.
        const PAGE_READWRITE = 0x4;
        /// Reads, and writes to a private copy.
        const PAGE_WRITECOPY = 0x8;
        /// Execution.
        const PAGE_EXECUTE = 0x10;
        /// Execution and reads.
        const PAGE_EXECUTE_READ = 0x20;
        /// Execution, reads and writes.
        const PAGE_EXECUTE_READWRITE = 0x40;
        /// Execution, reads, and writes to a private copy.
        const PAGE_EXECUTE_WRITECOPY = 0x80;
        /// The first access raises an exception.
        const PAGE_GUARD = 0x100;
        /// The pages are not cached.
        const PAGE_NOCACHE = 0x200;
        /// Writes may be combined.
        const PAGE_WRITECOMBINE = 0x400;
    }
}

impl Flags for MemoryProtection {
    type Bits = u32;

    ghost exact = { ⊤ };

    ghost table = { memory_protection };

    ghost set_of = { λ s. s.0 };

    #[tactic(auto, unfolding(crate::specs::MemoryInfo::memory_protection))]
    fn flags<'a>() -> &'a [Flag<MemoryProtection>] {
        MemoryProtection::FLAGS
    }

    fn bits(&self) -> u32 {
        self.0
    }

    fn from_bits_retain(bits: u32) -> MemoryProtection {
        MemoryProtection(bits)
    }
}

impl Exact for MemoryProtection {
    ghost exact = { Prim.search rules };
}

/// The state of memory: Microsoft's `MEM_COMMIT`, `MEM_RESERVE` and `MEM_FREE`.
#[derive(Clone, Copy, PartialEq, Eq)]
pub struct MemoryState(u32);

bitflag_items! {
    impl MemoryState: u32 {
        /// Committed: memory is allocated for it.
        const MEM_COMMIT = 0x1000;
        /// Reserved: no memory is allocated for it yet.
        const MEM_RESERVE = 0x2000;
        /// Free: not in use.
        const MEM_FREE = 0x1_0000;
    }
}

impl Flags for MemoryState {
    type Bits = u32;

    ghost exact = { ⊤ };

    ghost table = { memory_state };

    ghost set_of = { λ s. s.0 };

    #[tactic(auto, unfolding(crate::specs::MemoryInfo::memory_state))]
    fn flags<'a>() -> &'a [Flag<MemoryState>] {
        MemoryState::FLAGS
    }

    fn bits(&self) -> u32 {
        self.0
    }

    fn from_bits_retain(bits: u32) -> MemoryState {
        MemoryState(bits)
    }
}

impl Exact for MemoryState {
    ghost exact = { Prim.search rules };
}

/// The type of memory: Microsoft's `MEM_PRIVATE`, `MEM_MAPPED` and `MEM_IMAGE`.
#[derive(Clone, Copy, PartialEq, Eq)]
pub struct MemoryType(u32);

bitflag_items! {
    impl MemoryType: u32 {
        /// Private to the process.
        const MEM_PRIVATE = 0x2_0000;
        /// Mapped from a section.
        const MEM_MAPPED = 0x4_0000;
        /// Mapped from the image of a module.
        const MEM_IMAGE = 0x100_0000;
    }
}

impl Flags for MemoryType {
    type Bits = u32;

    ghost exact = { ⊤ };

    ghost table = { memory_type };

    ghost set_of = { λ s. s.0 };

    #[tactic(auto, unfolding(crate::specs::MemoryInfo::memory_type))]
    fn flags<'a>() -> &'a [Flag<MemoryType>] {
        MemoryType::FLAGS
    }

    fn bits(&self) -> u32 {
        self.0
    }

    fn from_bits_retain(bits: u32) -> MemoryType {
        MemoryType(bits)
    }
}

impl Exact for MemoryType {
    ghost exact = { Prim.search rules };
}
