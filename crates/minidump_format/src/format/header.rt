ghost use Rattle.std.specs.Prelude.{◌≡◌};
ghost use Rattle.std.specs.Option.{option_copied};
ghost use Rattle.std.proofs.Common.{rules};
ghost use Rattle.minidump_bytes.specs.Source.{bytes_of};
ghost use Rattle.minidump_bytes.specs.Steps.{after};
ghost use Rattle.minidump_format.specs.Header.{located};

use minidump_bytes::{Endian, Record, Source, Steps};

/// An offset in the file, in bytes from its start.
pub type RVA = u32;

/// The signature of a minidump, its first four bytes: `MDMP`, as a number.
pub const MINIDUMP_SIGNATURE: u32 = 0x504d_444d;

/// The low 16 bits of a header's `version`.
pub const MINIDUMP_VERSION: u32 = 0xa793;

/// The header of a minidump, its first 32 bytes: Microsoft's `MINIDUMP_HEADER`.
#[derive(Clone, Copy, PartialEq, Eq)]
pub struct MINIDUMP_HEADER {
    /// [`MINIDUMP_SIGNATURE`].
    pub signature: u32,
    /// The low 16 bits are [`MINIDUMP_VERSION`]; the others are the writer's own.
    pub version: u32,
    /// The number of entries of the directory.
    pub stream_count: u32,
    /// The RVA of the directory.
    pub stream_directory_rva: RVA,
    /// The checksum of the file, which may be 0.
    pub checksum: u32,
    /// When the dump was written, in seconds since 1970.
    pub time_date_stamp: u32,
    /// Which information was asked for: Microsoft's `MINIDUMP_TYPE`, as a number.
    pub flags: u64,
}

impl Record for MINIDUMP_HEADER {
    ghost use Rattle.minidump_format.specs.Header.{header};

    ghost SIZE = { 32 };

    const SIZE: usize = 32;

    ghost layout = { header };

    fn decode(bytes: &[u8], endian: Endian) -> Self {
        MINIDUMP_HEADER {
            signature: endian.u32_at(bytes, 0),
            version: endian.u32_at(bytes, 4),
            stream_count: endian.u32_at(bytes, 8),
            stream_directory_rva: endian.u32_at(bytes, 12),
            checksum: endian.u32_at(bytes, 16),
            time_date_stamp: endian.u32_at(bytes, 20),
            flags: endian.u64_at(bytes, 24),
        }
    }

    ghost fits = { Prim.search rules };
}

/// The location of a part of the file: Microsoft's `MINIDUMP_LOCATION_DESCRIPTOR`.
#[derive(Clone, Copy, PartialEq, Eq)]
pub struct MINIDUMP_LOCATION_DESCRIPTOR {
    /// The number of bytes.
    pub data_size: u32,
    /// The offset at which it begins.
    pub rva: RVA,
}

impl MINIDUMP_LOCATION_DESCRIPTOR {
    /// Returns the bytes of the file at this location, or `None` if the file ends before they do.
    /// Counts one step either way.
    pub fn bytes_in<'a>(&self, all: Source<'a>, steps: &mut Steps) -> Option<&'a [u8]>
        ensures value { option_copied result ≡ located (bytes_of all.entry) self.now }
        ensures step { steps.new ≡ after steps.old 1 }
    {
        all.span(self.rva as u64, self.data_size as u64, steps)
    }
}

impl Record for MINIDUMP_LOCATION_DESCRIPTOR {
    ghost use Rattle.minidump_format.specs.Header.{location};

    ghost SIZE = { 8 };

    const SIZE: usize = 8;

    ghost layout = { location };

    fn decode(bytes: &[u8], endian: Endian) -> Self {
        MINIDUMP_LOCATION_DESCRIPTOR {
            data_size: endian.u32_at(bytes, 0),
            rva: endian.u32_at(bytes, 4),
        }
    }

    ghost fits = { Prim.search rules };
}

/// An entry of the directory: Microsoft's `MINIDUMP_DIRECTORY`.
#[derive(Clone, Copy, PartialEq, Eq)]
pub struct MINIDUMP_DIRECTORY {
    /// The type of the stream, as a number.
    pub stream_type: u32,
    /// The location of its bytes.
    pub location: MINIDUMP_LOCATION_DESCRIPTOR,
}

impl Record for MINIDUMP_DIRECTORY {
    ghost use Rattle.minidump_format.specs.Header.{directory_entry};

    ghost SIZE = { 12 };

    const SIZE: usize = 12;

    ghost layout = { directory_entry };

    fn decode(bytes: &[u8], endian: Endian) -> Self {
        MINIDUMP_DIRECTORY {
            stream_type: endian.u32_at(bytes, 0),
            location: MINIDUMP_LOCATION_DESCRIPTOR::decode(&bytes[4..12], endian),
        }
    }

    ghost fits = { Prim.search rules };
}
