ghost use Rattle.std.proofs.Common.{rules};

use super::{MINIDUMP_LOCATION_DESCRIPTOR, RVA};
use minidump_bytes::{Endian, Exact, Record, array_at};

/// The version of a file: Microsoft's `VS_FIXEDFILEINFO`.
#[derive(Clone, Copy, PartialEq, Eq)]
pub struct VS_FIXEDFILEINFO {
    /// [`VS_FFI_SIGNATURE`] where the version is set.
    pub signature: u32,
    /// [`VS_FFI_STRUCVERSION`] where the version is set.
    pub struct_version: u32,
    /// The first two parts of the file's version, 16 bits each.
    pub file_version_hi: u32,
    /// The last two parts of the file's version, 16 bits each.
    pub file_version_lo: u32,
    /// The first two parts of the product's version, 16 bits each.
    pub product_version_hi: u32,
    /// The last two parts of the product's version, 16 bits each.
    pub product_version_lo: u32,
    /// The bits of `file_flags` that are valid.
    pub file_flags_mask: u32,
    /// The attributes of the file: Microsoft's `VS_FF_` numbers.
    pub file_flags: u32,
    /// The system that the file was built for.
    pub file_os: u32,
    /// The type of the file: Microsoft's `VFT_` numbers.
    pub file_type: u32,
    /// The function of the file, by its type: Microsoft's `VFT2_` numbers.
    pub file_subtype: u32,
    /// The high half of the file's date.
    pub file_date_hi: u32,
    /// The low half of the file's date.
    pub file_date_lo: u32,
}

impl Record for VS_FIXEDFILEINFO {
    ghost use Rattle.minidump_format.specs.Module.{fixed_file_info};

    ghost SIZE = { 52 };

    const SIZE: usize = 52;

    ghost layout = { fixed_file_info };

    fn decode(bytes: &[u8], endian: Endian) -> Self {
        VS_FIXEDFILEINFO {
            signature: endian.u32_at(bytes, 0),
            struct_version: endian.u32_at(bytes, 4),
            file_version_hi: endian.u32_at(bytes, 8),
            file_version_lo: endian.u32_at(bytes, 12),
            product_version_hi: endian.u32_at(bytes, 16),
            product_version_lo: endian.u32_at(bytes, 20),
            file_flags_mask: endian.u32_at(bytes, 24),
            file_flags: endian.u32_at(bytes, 28),
            file_os: endian.u32_at(bytes, 32),
            file_type: endian.u32_at(bytes, 36),
            file_subtype: endian.u32_at(bytes, 40),
            file_date_hi: endian.u32_at(bytes, 44),
            file_date_lo: endian.u32_at(bytes, 48),
        }
    }

    ghost fits = { Prim.search rules };
}

impl Exact for VS_FIXEDFILEINFO {
    ghost exact = { record {
      equal = λ x y. ((λ h. Prim.grind rules), (λ h. Prim.grind rules));
      copy = λ x y h. Prim.search rules;
    } };
}

/// A loaded module: Microsoft's `MINIDUMP_MODULE`.
#[derive(Clone, Copy, PartialEq, Eq)]
pub struct MINIDUMP_MODULE {
    /// The base address.
    pub base_of_image: u64,
    /// The number of bytes of memory that it takes.
    pub size_of_image: u32,
    /// The checksum in the header of the module's image.
    pub checksum: u32,
    /// The time at which it was linked, in seconds since 1970.
    pub time_date_stamp: u32,
    /// The RVA of its name.
    pub module_name_rva: RVA,
    /// The version.
    pub version_info: VS_FIXEDFILEINFO,
    /// The location of its CodeView record.
    pub cv_record: MINIDUMP_LOCATION_DESCRIPTOR,
    /// The location of its miscellaneous debug record.
    pub misc_record: MINIDUMP_LOCATION_DESCRIPTOR,
    /// Microsoft's `Reserved0` and `Reserved1`.
    pub unused1: [u8; 16],
}

impl Record for MINIDUMP_MODULE {
    ghost use Rattle.minidump_format.specs.Module.{module_entry};

    ghost SIZE = { 108 };

    const SIZE: usize = 108;

    ghost layout = { module_entry };

    fn decode(bytes: &[u8], endian: Endian) -> Self {
        MINIDUMP_MODULE {
            base_of_image: endian.u64_at(bytes, 0),
            size_of_image: endian.u32_at(bytes, 8),
            checksum: endian.u32_at(bytes, 12),
            time_date_stamp: endian.u32_at(bytes, 16),
            module_name_rva: endian.u32_at(bytes, 20),
            version_info: VS_FIXEDFILEINFO::decode(&bytes[24..76], endian),
            cv_record: MINIDUMP_LOCATION_DESCRIPTOR::decode(&bytes[76..84], endian),
            misc_record: MINIDUMP_LOCATION_DESCRIPTOR::decode(&bytes[84..92], endian),
            unused1: array_at(bytes, 92, endian),
        }
    }

    ghost fits = { Prim.search rules };
}

/// An unloaded module: Microsoft's `MINIDUMP_UNLOADED_MODULE`.
#[derive(Clone, Copy, PartialEq, Eq)]
pub struct MINIDUMP_UNLOADED_MODULE {
    /// The base address.
    pub base_of_image: u64,
    /// The number of bytes of memory that it took.
    pub size_of_image: u32,
    /// The checksum in the header of the module's image.
    pub checksum: u32,
    /// The time at which it was linked, in seconds since 1970.
    pub time_date_stamp: u32,
    /// The RVA of its name.
    pub module_name_rva: RVA,
}

impl Record for MINIDUMP_UNLOADED_MODULE {
    ghost use Rattle.minidump_format.specs.Module.{unloaded_module_entry};

    ghost SIZE = { 24 };

    const SIZE: usize = 24;

    ghost layout = { unloaded_module_entry };

    fn decode(bytes: &[u8], endian: Endian) -> Self {
        MINIDUMP_UNLOADED_MODULE {
            base_of_image: endian.u64_at(bytes, 0),
            size_of_image: endian.u32_at(bytes, 8),
            checksum: endian.u32_at(bytes, 12),
            time_date_stamp: endian.u32_at(bytes, 16),
            module_name_rva: endian.u32_at(bytes, 20),
        }
    }

    ghost fits = { Prim.search rules };
}

impl Exact for MINIDUMP_UNLOADED_MODULE {
    ghost exact = { Prim.search rules };
}

/// The signature of a [`VS_FIXEDFILEINFO`] that is set.
pub const VS_FFI_SIGNATURE: u32 = 0xfeef_04bd;

/// The version of the structure of a [`VS_FIXEDFILEINFO`] that is set.
pub const VS_FFI_STRUCVERSION: u32 = 0x1_0000;
