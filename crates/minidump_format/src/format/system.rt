ghost use Rattle.std.proofs.Common.{rules};
ghost use Rattle.std.specs.Prelude.{◌≡◌};
ghost use Rattle.minidump_format.specs.System.{architecture_number, architecture_of};
ghost use Rattle.minidump_format.specs.System.{platform_number, platform_of};

use super::RVA;
use minidump_bytes::{Endian, Record, array_at};

/// The system information: Microsoft's `MINIDUMP_SYSTEM_INFO`.
#[derive(Clone, Copy, PartialEq, Eq)]
pub struct MINIDUMP_SYSTEM_INFO {
    /// The architecture: [`ProcessorArchitecture`], as a number.
    pub processor_architecture: u16,
    /// The processor level, by the architecture; on x86 the family.
    pub processor_level: u16,
    /// The processor revision, by the architecture; on x86 the model and the stepping.
    pub processor_revision: u16,
    /// The number of processors.
    pub number_of_processors: u8,
    /// The kind of system: 1 workstation, 2 domain controller, 3 server.
    pub product_type: u8,
    /// The system's major version.
    pub major_version: u32,
    /// The system's minor version.
    pub minor_version: u32,
    /// The system's build number.
    pub build_number: u32,
    /// The platform: [`PlatformId`], as a number.
    pub platform_id: u32,
    /// The RVA of the text of the service pack.
    pub csd_version_rva: RVA,
    /// The product suites of the system: Microsoft's `VER_SUITE_` numbers.
    pub suite_mask: u16,
    /// Reserved, Microsoft's `Reserved2`.
    pub reserved: u16,
    /// The CPU information: an [`X86CpuInfo`] or an [`ARMCpuInfo`], by the architecture.
    pub cpu: [u8; 24],
}

impl Record for MINIDUMP_SYSTEM_INFO {
    ghost use Rattle.minidump_format.specs.System.{system_info};

    ghost SIZE = { 56 };

    const SIZE: usize = 56;

    ghost layout = { system_info };

    fn decode(bytes: &[u8], endian: Endian) -> Self {
        MINIDUMP_SYSTEM_INFO {
            processor_architecture: endian.u16_at(bytes, 0),
            processor_level: endian.u16_at(bytes, 2),
            processor_revision: endian.u16_at(bytes, 4),
            number_of_processors: bytes[6],
            product_type: bytes[7],
            major_version: endian.u32_at(bytes, 8),
            minor_version: endian.u32_at(bytes, 12),
            build_number: endian.u32_at(bytes, 16),
            platform_id: endian.u32_at(bytes, 20),
            csd_version_rva: endian.u32_at(bytes, 24),
            suite_mask: endian.u16_at(bytes, 28),
            reserved: endian.u16_at(bytes, 30),
            cpu: array_at(bytes, 32, endian),
        }
    }

    ghost fits = { Prim.search rules };
}

/// The CPU information of x86, 24 bytes: Microsoft's `X86CpuInfo` of `CPU_INFORMATION`.
#[derive(Clone, Copy, PartialEq, Eq)]
pub struct X86CpuInfo {
    /// The vendor's 12 characters, the lowest byte of each number first.
    pub vendor_id: [u32; 3],
    /// Microsoft's `VersionInformation`, `FeatureInformation` and `AMDExtendedCpuFeatures`.
    pub unused1: [u32; 3],
}

impl Record for X86CpuInfo {
    ghost use Rattle.minidump_format.specs.System.{x86_cpu_info};

    ghost SIZE = { 24 };

    const SIZE: usize = 24;

    ghost layout = { x86_cpu_info };

    fn decode(bytes: &[u8], endian: Endian) -> Self {
        X86CpuInfo {
            vendor_id: array_at(bytes, 0, endian),
            unused1: array_at(bytes, 12, endian),
        }
    }

    ghost fits = { Prim.search rules };
}

/// The CPU information of ARM, the first 8 of the 24 bytes: Breakpad's `arm_cpu_info` of
/// `MDCPUInformation`.
#[derive(Clone, Copy, PartialEq, Eq)]
pub struct ARMCpuInfo {
    /// The main id register, which names the implementer and the part.
    pub cpuid: u32,
    /// The features that the kernel reports: [`ArmElfHwCaps`](super::ArmElfHwCaps), as a number.
    pub elf_hwcaps: u32,
}

impl Record for ARMCpuInfo {
    ghost use Rattle.minidump_format.specs.System.{arm_cpu_info};

    ghost SIZE = { 8 };

    const SIZE: usize = 8;

    ghost layout = { arm_cpu_info };

    fn decode(bytes: &[u8], endian: Endian) -> Self {
        ARMCpuInfo {
            cpuid: endian.u32_at(bytes, 0),
            elf_hwcaps: endian.u32_at(bytes, 4),
        }
    }

    ghost fits = { Prim.search rules };
}

/// The named processor architectures: Microsoft's, with Breakpad's extensions.
#[allow(non_camel_case_types)]
#[derive(Clone, Copy, Debug, PartialEq, Eq)]
pub enum ProcessorArchitecture {
    /// x86.
    PROCESSOR_ARCHITECTURE_INTEL = 0,
    /// MIPS, 32 bits.
    PROCESSOR_ARCHITECTURE_MIPS = 1,
    /// PowerPC, 32 bits.
    PROCESSOR_ARCHITECTURE_PPC = 3,
    /// ARM, 32 bits.
    PROCESSOR_ARCHITECTURE_ARM = 5,
    /// x86-64.
    PROCESSOR_ARCHITECTURE_AMD64 = 9,
    /// x86, on Windows of 64 bits.
    PROCESSOR_ARCHITECTURE_IA32_ON_WIN64 = 10,
    /// ARM64.
    PROCESSOR_ARCHITECTURE_ARM64 = 12,
    /// SPARC, Breakpad's number.
    PROCESSOR_ARCHITECTURE_SPARC = 0x8001,
    /// PowerPC, 64 bits, Breakpad's number.
    PROCESSOR_ARCHITECTURE_PPC64 = 0x8002,
    /// ARM64, the number that Breakpad had first.
    PROCESSOR_ARCHITECTURE_ARM64_OLD = 0x8003,
    /// MIPS, 64 bits, Breakpad's number.
    PROCESSOR_ARCHITECTURE_MIPS64 = 0x8004,
}

impl ProcessorArchitecture {
    /// Returns the architecture with the number `n`, or `None` if there is none.
    pub fn from_u16(n: u16) -> Option<ProcessorArchitecture>
        ensures { result ≡ architecture_of n }
    {
        Some(match n {
            0 => ProcessorArchitecture::PROCESSOR_ARCHITECTURE_INTEL,
            1 => ProcessorArchitecture::PROCESSOR_ARCHITECTURE_MIPS,
            3 => ProcessorArchitecture::PROCESSOR_ARCHITECTURE_PPC,
            5 => ProcessorArchitecture::PROCESSOR_ARCHITECTURE_ARM,
            9 => ProcessorArchitecture::PROCESSOR_ARCHITECTURE_AMD64,
            10 => ProcessorArchitecture::PROCESSOR_ARCHITECTURE_IA32_ON_WIN64,
            12 => ProcessorArchitecture::PROCESSOR_ARCHITECTURE_ARM64,
            0x8001 => ProcessorArchitecture::PROCESSOR_ARCHITECTURE_SPARC,
            0x8002 => ProcessorArchitecture::PROCESSOR_ARCHITECTURE_PPC64,
            0x8003 => ProcessorArchitecture::PROCESSOR_ARCHITECTURE_ARM64_OLD,
            0x8004 => ProcessorArchitecture::PROCESSOR_ARCHITECTURE_MIPS64,
            _ => return None,
        })
    }

    /// Returns the number of the architecture.
    pub fn number(self) -> u16
        ensures { result ≡ architecture_number self }
    {
        self as u16
    }
}

/// The named platforms: Microsoft's, with Breakpad's extensions.
#[allow(non_camel_case_types)]
#[derive(Clone, Copy, Debug, PartialEq, Eq)]
pub enum PlatformId {
    /// Windows 95, 98 and Me.
    VER_PLATFORM_WIN32_WINDOWS = 1,
    /// Windows NT and later.
    VER_PLATFORM_WIN32_NT = 2,
    /// macOS.
    MacOs = 0x8101,
    /// iOS.
    Ios = 0x8102,
    /// Linux.
    Linux = 0x8201,
    /// Solaris.
    Solaris = 0x8202,
    /// Android.
    Android = 0x8203,
    /// PlayStation 3.
    Ps3 = 0x8204,
    /// Native Client.
    NaCl = 0x8205,
}

impl PlatformId {
    /// Returns the platform with the number `n`, or `None` if there is none.
    pub fn from_u32(n: u32) -> Option<PlatformId>
        ensures { result ≡ platform_of n }
    {
        Some(match n {
            1 => PlatformId::VER_PLATFORM_WIN32_WINDOWS,
            2 => PlatformId::VER_PLATFORM_WIN32_NT,
            0x8101 => PlatformId::MacOs,
            0x8102 => PlatformId::Ios,
            0x8201 => PlatformId::Linux,
            0x8202 => PlatformId::Solaris,
            0x8203 => PlatformId::Android,
            0x8204 => PlatformId::Ps3,
            0x8205 => PlatformId::NaCl,
            _ => return None,
        })
    }

    /// Returns the number of the platform.
    pub fn number(self) -> u32
        ensures { result ≡ platform_number self }
    {
        self as u32
    }
}
