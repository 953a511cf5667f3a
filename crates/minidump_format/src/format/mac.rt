ghost use Rattle.std.proofs.Common.{rules};

use super::MINIDUMP_LOCATION_DESCRIPTOR;
use minidump_bytes::{Endian, Exact, Record, array_at};

/// The crash information of macOS: Mozilla's `MDRawMacCrashInfo`.
#[derive(Clone, Copy, PartialEq, Eq)]
pub struct MINIDUMP_MAC_CRASH_INFO {
    /// The type of the stream, as a number.
    pub stream_type: u32,
    /// The number of records that are set.
    pub record_count: u32,
    /// The number of bytes of a record in front of its texts.
    pub record_start_size: u32,
    /// The locations of the records.
    pub records: [MINIDUMP_LOCATION_DESCRIPTOR; 20],
}

impl Record for MINIDUMP_MAC_CRASH_INFO {
    ghost use Rattle.minidump_format.specs.Mac.{mac_crash_info};

    ghost SIZE = { 172 };

    const SIZE: usize = 172;

    ghost layout = { mac_crash_info };

    fn decode(bytes: &[u8], endian: Endian) -> Self {
        MINIDUMP_MAC_CRASH_INFO {
            stream_type: endian.u32_at(bytes, 0),
            record_count: endian.u32_at(bytes, 4),
            record_start_size: endian.u32_at(bytes, 8),
            records: array_at(bytes, 12, endian),
        }
    }

    ghost fits = { Prim.search rules };
}

/// The head of each record of crash information, and all that is read of one of version 1 to 3:
/// Mozilla's `MDRawMacCrashInfoRecord`.
#[derive(Clone, Copy, PartialEq, Eq)]
pub struct MINIDUMP_MAC_CRASH_INFO_RECORD {
    /// The type of the stream, as a number.
    pub stream_type: u64,
    /// The version of the record.
    pub version: u64,
}

impl Record for MINIDUMP_MAC_CRASH_INFO_RECORD {
    ghost use Rattle.minidump_format.specs.Mac.{mac_record};

    ghost SIZE = { 16 };

    const SIZE: usize = 16;

    ghost layout = { mac_record };

    fn decode(bytes: &[u8], endian: Endian) -> Self {
        MINIDUMP_MAC_CRASH_INFO_RECORD {
            stream_type: endian.u64_at(bytes, 0),
            version: endian.u64_at(bytes, 8),
        }
    }

    ghost fits = { Prim.search rules };
}

impl Exact for MINIDUMP_MAC_CRASH_INFO_RECORD {
    ghost exact = { Prim.search rules };
}

/// A record of crash information of version 4, before its texts.
#[derive(Clone, Copy, PartialEq, Eq)]
pub struct MINIDUMP_MAC_CRASH_INFO_RECORD_4 {
    /// The type of the stream, as a number.
    pub stream_type: u64,
    /// The version of the record.
    pub version: u64,
    /// The thread that crashed.
    pub thread: u64,
    /// The dialog mode that the module set for the crash report.
    pub dialog_mode: u64,
}

impl Record for MINIDUMP_MAC_CRASH_INFO_RECORD_4 {
    ghost use Rattle.minidump_format.specs.Mac.{mac_record_4};

    ghost SIZE = { 32 };

    const SIZE: usize = 32;

    ghost layout = { mac_record_4 };

    fn decode(bytes: &[u8], endian: Endian) -> Self {
        MINIDUMP_MAC_CRASH_INFO_RECORD_4 {
            stream_type: endian.u64_at(bytes, 0),
            version: endian.u64_at(bytes, 8),
            thread: endian.u64_at(bytes, 16),
            dialog_mode: endian.u64_at(bytes, 24),
        }
    }

    ghost fits = { Prim.search rules };
}

impl Exact for MINIDUMP_MAC_CRASH_INFO_RECORD_4 {
    ghost exact = { Prim.search rules };
}

/// A record of crash information of version 5 or above, before its texts.
#[derive(Clone, Copy, PartialEq, Eq)]
pub struct MINIDUMP_MAC_CRASH_INFO_RECORD_5 {
    /// The type of the stream, as a number.
    pub stream_type: u64,
    /// The version of the record.
    pub version: u64,
    /// The thread that crashed.
    pub thread: u64,
    /// The dialog mode that the module set for the crash report.
    pub dialog_mode: u64,
    /// The cause of an abort that the module set for the crash report.
    pub abort_cause: u64,
}

impl Record for MINIDUMP_MAC_CRASH_INFO_RECORD_5 {
    ghost use Rattle.minidump_format.specs.Mac.{mac_record_5};

    ghost SIZE = { 40 };

    const SIZE: usize = 40;

    ghost layout = { mac_record_5 };

    fn decode(bytes: &[u8], endian: Endian) -> Self {
        MINIDUMP_MAC_CRASH_INFO_RECORD_5 {
            stream_type: endian.u64_at(bytes, 0),
            version: endian.u64_at(bytes, 8),
            thread: endian.u64_at(bytes, 16),
            dialog_mode: endian.u64_at(bytes, 24),
            abort_cause: endian.u64_at(bytes, 32),
        }
    }

    ghost fits = { Prim.search rules };
}

impl Exact for MINIDUMP_MAC_CRASH_INFO_RECORD_5 {
    ghost exact = { Prim.search rules };
}

/// The boot arguments of macOS: Mozilla's `MDRawMacBootargs`.
#[derive(Clone, Copy, PartialEq, Eq)]
pub struct MINIDUMP_MAC_BOOTARGS {
    /// The type of the stream, as a number.
    pub stream_type: u32,
    /// The RVA of the text.
    pub bootargs: u64,
}

impl Record for MINIDUMP_MAC_BOOTARGS {
    ghost use Rattle.minidump_format.specs.Mac.{mac_boot_args};

    ghost SIZE = { 12 };

    const SIZE: usize = 12;

    ghost layout = { mac_boot_args };

    fn decode(bytes: &[u8], endian: Endian) -> Self {
        MINIDUMP_MAC_BOOTARGS {
            stream_type: endian.u32_at(bytes, 0),
            bootargs: endian.u64_at(bytes, 4),
        }
    }

    ghost fits = { Prim.search rules };
}

impl Exact for MINIDUMP_MAC_BOOTARGS {
    ghost exact = { Prim.search rules };
}

/// The texts of a record of version 1 to 3: none.
#[derive(Clone, Copy, PartialEq, Eq)]
pub struct MINIDUMP_MAC_CRASH_INFO_RECORD_STRINGS {}

impl Exact for MINIDUMP_MAC_CRASH_INFO_RECORD_STRINGS {
    ghost exact = { Prim.search rules };
}

/// The texts of a record of version 4, in their order.
#[derive(Drop)]
pub struct MINIDUMP_MAC_CRASH_INFO_RECORD_STRINGS_4 {
    /// The path of the module that the record belongs to.
    pub module_path: String,
    /// The message that the module set for the crash report.
    pub message: String,
    /// The signature that the module set for the crash report.
    pub signature_string: String,
    /// The backtrace that the module set for the crash report.
    pub backtrace: String,
    /// The second message that the module set for the crash report.
    pub message2: String,
}

/// The texts of a record of version 5 or above, in their order.
#[derive(Drop)]
pub struct MINIDUMP_MAC_CRASH_INFO_RECORD_STRINGS_5 {
    /// The path of the module that the record belongs to.
    pub module_path: String,
    /// The message that the module set for the crash report.
    pub message: String,
    /// The signature that the module set for the crash report.
    pub signature_string: String,
    /// The backtrace that the module set for the crash report.
    pub backtrace: String,
    /// The second message that the module set for the crash report.
    pub message2: String,
}
