ghost use Rattle.std.proofs.Common.{rules};

use super::MINIDUMP_LOCATION_DESCRIPTOR;
use minidump_bytes::{Endian, Record};

/// A memory region, and the location of its bytes: Microsoft's `MINIDUMP_MEMORY_DESCRIPTOR`.
#[derive(Clone, Copy, PartialEq, Eq)]
pub struct MINIDUMP_MEMORY_DESCRIPTOR {
    /// The base address.
    pub start_of_memory_range: u64,
    /// The location of its bytes.
    pub memory: MINIDUMP_LOCATION_DESCRIPTOR,
}

impl Record for MINIDUMP_MEMORY_DESCRIPTOR {
    ghost use Rattle.minidump_format.specs.Memory.{memory_descriptor};

    ghost SIZE = { 16 };

    const SIZE: usize = 16;

    ghost layout = { memory_descriptor };

    fn decode(bytes: &[u8], endian: Endian) -> Self {
        MINIDUMP_MEMORY_DESCRIPTOR {
            start_of_memory_range: endian.u64_at(bytes, 0),
            memory: MINIDUMP_LOCATION_DESCRIPTOR::decode(&bytes[8..16], endian),
        }
    }

    ghost fits = { Prim.search rules };
}

/// A memory region of a list whose regions' bytes are consecutive in the file: Microsoft's
/// `MINIDUMP_MEMORY_DESCRIPTOR64`.
#[derive(Clone, Copy, PartialEq, Eq)]
pub struct MINIDUMP_MEMORY_DESCRIPTOR64 {
    /// The base address.
    pub start_of_memory_range: u64,
    /// The number of bytes.
    pub data_size: u64,
}

impl Record for MINIDUMP_MEMORY_DESCRIPTOR64 {
    ghost use Rattle.minidump_format.specs.Memory.{memory_descriptor_64};

    ghost SIZE = { 16 };

    const SIZE: usize = 16;

    ghost layout = { memory_descriptor_64 };

    fn decode(bytes: &[u8], endian: Endian) -> Self {
        MINIDUMP_MEMORY_DESCRIPTOR64 {
            start_of_memory_range: endian.u64_at(bytes, 0),
            data_size: endian.u64_at(bytes, 8),
        }
    }

    ghost fits = { Prim.search rules };
}
