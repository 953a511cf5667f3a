ghost use Rattle.std.specs.Prelude.{◌≡◌, refl};
ghost use Rattle.minidump_bytes.specs.LinuxOsStr.{text_lines};
ghost use Rattle.minidump_format.specs.declared.format.stream_type.MINIDUMP_STREAM_TYPE.TheVariants.{LinuxCpuInfo};
ghost use Rattle.minidump_format.specs.declared.format.stream_type.MINIDUMP_STREAM_TYPE.TheVariants.{LinuxEnviron};
ghost use Rattle.minidump_format.specs.declared.format.stream_type.MINIDUMP_STREAM_TYPE.TheVariants.{LinuxLsbRelease};
ghost use Rattle.minidump_format.specs.declared.format.stream_type.MINIDUMP_STREAM_TYPE.TheVariants.{LinuxProcStatus};
ghost use Rattle.minidump_format.specs.declared.format.stream_type.MINIDUMP_STREAM_TYPE.TheVariants.{MozLinuxLimits};
ghost use Rattle.minidump_format.specs.StreamType.{number_of};

use super::text::{LinuxFile, LinuxPairsFile, LinuxText};
use minidump_bytes::{Lines, LinuxOsStr};
use minidump_format::format::MINIDUMP_STREAM_TYPE;

/// The text of `/proc/cpuinfo`. Each line is a key and a value around a colon.
pub type MinidumpLinuxCpuInfo<'a> = LinuxText<'a, CpuInfo>;

/// The text of `/proc/PID/status`. Each line is a key and a value around a colon.
pub type MinidumpLinuxProcStatus<'a> = LinuxText<'a, ProcStatus>;

/// The text of `/etc/lsb-release`. Each line is a key and a value around an equals sign.
pub type MinidumpLinuxLsbRelease<'a> = LinuxText<'a, LsbRelease>;

/// The text of `/proc/PID/environ`. Each entry is a key and a value around an equals sign, and ends
/// with a NUL. As in the other texts, a line feed ends an entry, too.
pub type MinidumpLinuxEnviron<'a> = LinuxText<'a, Environ>;

/// The text of `/proc/PID/limits`. Each line is a limit.
pub type MinidumpLinuxProcLimits<'a> = LinuxText<'a, ProcLimits>;

/// Breakpad's `MD_LINUX_CPU_INFO`, the text of `/proc/cpuinfo`.
pub struct CpuInfo;

impl LinuxFile for CpuInfo {
    ghost stream_type = { LinuxCpuInfo };

    ghost STREAM_TYPE = { number_of LinuxCpuInfo };

    const STREAM_TYPE: u32 = 0x4767_0003;

    fn name_of_type() -> &'static str {
        MINIDUMP_STREAM_TYPE::LinuxCpuInfo.name()
    }

    ghost is_its_number = { refl };
}

impl LinuxPairsFile for CpuInfo {
    ghost SEPARATOR = { 58 };

    const SEPARATOR: u8 = b':';
}

/// Breakpad's `MD_LINUX_PROC_STATUS`, the text of `/proc/PID/status`.
pub struct ProcStatus;

impl LinuxFile for ProcStatus {
    ghost stream_type = { LinuxProcStatus };

    ghost STREAM_TYPE = { number_of LinuxProcStatus };

    const STREAM_TYPE: u32 = 0x4767_0004;

    fn name_of_type() -> &'static str {
        MINIDUMP_STREAM_TYPE::LinuxProcStatus.name()
    }

    ghost is_its_number = { refl };
}

impl LinuxPairsFile for ProcStatus {
    ghost SEPARATOR = { 58 };

    const SEPARATOR: u8 = b':';
}

/// Breakpad's `MD_LINUX_LSB_RELEASE`, the text of `/etc/lsb-release`.
pub struct LsbRelease;

impl LinuxFile for LsbRelease {
    ghost stream_type = { LinuxLsbRelease };

    ghost STREAM_TYPE = { number_of LinuxLsbRelease };

    const STREAM_TYPE: u32 = 0x4767_0005;

    fn name_of_type() -> &'static str {
        MINIDUMP_STREAM_TYPE::LinuxLsbRelease.name()
    }

    ghost is_its_number = { refl };
}

impl LinuxPairsFile for LsbRelease {
    ghost SEPARATOR = { 61 };

    const SEPARATOR: u8 = b'=';
}

/// Breakpad's `MD_LINUX_ENVIRON`, the text of `/proc/PID/environ`.
pub struct Environ;

impl LinuxFile for Environ {
    ghost stream_type = { LinuxEnviron };

    ghost STREAM_TYPE = { number_of LinuxEnviron };

    const STREAM_TYPE: u32 = 0x4767_0007;

    fn name_of_type() -> &'static str {
        MINIDUMP_STREAM_TYPE::LinuxEnviron.name()
    }

    ghost is_its_number = { refl };
}

impl LinuxPairsFile for Environ {
    ghost SEPARATOR = { 61 };

    const SEPARATOR: u8 = b'=';
}

/// Mozilla's `MozLinuxLimits`, the text of `/proc/PID/limits`.
pub struct ProcLimits;

impl LinuxFile for ProcLimits {
    ghost stream_type = { MozLinuxLimits };

    ghost STREAM_TYPE = { number_of MozLinuxLimits };

    const STREAM_TYPE: u32 = 0x4d7a_0003;

    fn name_of_type() -> &'static str {
        MINIDUMP_STREAM_TYPE::MozLinuxLimits.name()
    }

    ghost is_its_number = { refl };
}

impl<'a> LinuxText<'a, ProcLimits> {
    ghost use Rattle.minidump_records.specs.Linux.{linux_text_of};

    /// Returns an iterator over its lines.
    pub fn iter(&self) -> Lines<'a>
        ensures { result ≡ text_lines (linux_text_of self.now) }
    {
        LinuxOsStr::from_bytes(self.raw_bytes()).lines()
    }
}
