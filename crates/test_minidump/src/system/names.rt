// What numbers name: platforms and processors, and the enumerations that have the same numbers.
use crate::assert_text;
use minidump_format::Error;
use minidump_format::format::{
    CvSignature, MINIDUMP_HANDLE_OBJECT_INFORMATION_TYPE, PlatformId, ProcessorArchitecture,
};
use minidump_system::{Cpu, Os};
use std::alloc::{AllocError, Global};

// The first and the last number of each run.
#[rattlefmt::skip]
const PLATFORMS: &[(u32, u32)] = &[
    (0, 10), (0x8100, 0x8102), (0x8200, 0x8206), (0x1_0001, 0x1_0001), (0x12ab_34cd, 0x12ab_34cd),
    (0x3031_424e, 0x3031_424e), (0x4270_454c, 0x4270_454c), (0x5344_5352, 0x5344_5352), (u32::MAX, u32::MAX),
];

// Each number with the information on an object, the CodeView record and the platform of that
// number, and with the names of the system.
const SYSTEMS: &str = "\
0x0 Some(MiniHandleObjectInformationNone) None None unknown 0x000000
0x1 Some(MiniThreadInformation1) None Some(VER_PLATFORM_WIN32_WINDOWS) windows Windows NT
0x2 Some(MiniMutantInformation1) None Some(VER_PLATFORM_WIN32_NT) windows Windows NT
0x3 Some(MiniMutantInformation2) None None unknown 0x000003
0x4 Some(MiniProcessInformation1) None None unknown 0x000004
0x5 Some(MiniProcessInformation2) None None unknown 0x000005
0x6 Some(MiniEventInformation1) None None unknown 0x000006
0x7 Some(MiniSectionInformation1) None None unknown 0x000007
0x8 Some(MiniSemaphoreInformation1) None None unknown 0x000008
0x9 None None None unknown 0x000009
0xa None None None unknown 0x00000a
0x8100 None None None unknown 0x008100
0x8101 None None Some(MacOs) mac Mac OS X
0x8102 None None Some(Ios) ios iOS
0x8200 None None None unknown 0x008200
0x8201 None None Some(Linux) linux Linux
0x8202 None None Some(Solaris) solaris Solaris
0x8203 None None Some(Android) android Android
0x8204 None None Some(Ps3) ps3 PS3
0x8205 None None Some(NaCl) nacl NaCl
0x8206 None None None unknown 0x008206
0x10001 None None None unknown 0x010001
0x12ab34cd None None None unknown 0x12ab34cd
0x3031424e None Some(Pdb20) None unknown 0x3031424e
0x4270454c None Some(Elf) None unknown 0x4270454c
0x53445352 None Some(Pdb70) None unknown 0x53445352
0xffffffff None None None unknown 0xffffffff
";

// Appends the line of a number.
fn push_platform(alloc: Global, out: &mut String, number: u32) -> Result<(), Error> {
    let information = MINIDUMP_HANDLE_OBJECT_INFORMATION_TYPE::from_u32(number);
    let record = CvSignature::from_u32(number);
    let platform = PlatformId::from_u32(number);
    let os = Os::from_platform_id(number);
    let name = os.long_name(alloc)?;
    write!(
        out,
        "{number:#x} {information:?} {record:?} {platform:?} {os} {name}\n"
    )?;
    Ok(())
}

fn push_platforms(alloc: Global, out: &mut String) -> Result<(), Error> {
    for (first, last) in PLATFORMS {
        for number in *first..=*last {
            push_platform(alloc, out, number)?;
        }
    }
    Ok(())
}

const ARCHITECTURES: &[(u16, u16)] = &[(0, 14), (77, 77), (0x8000, 0x8005), (u16::MAX, u16::MAX)];

// Each number with its architecture, the name of the processor, and the size of an address.
const PROCESSORS: &str = "\
0x0 Some(PROCESSOR_ARCHITECTURE_INTEL) x86 Some(4)
0x1 Some(PROCESSOR_ARCHITECTURE_MIPS) mips Some(4)
0x2 None unknown None
0x3 Some(PROCESSOR_ARCHITECTURE_PPC) ppc Some(4)
0x4 None unknown None
0x5 Some(PROCESSOR_ARCHITECTURE_ARM) arm Some(4)
0x6 None unknown None
0x7 None unknown None
0x8 None unknown None
0x9 Some(PROCESSOR_ARCHITECTURE_AMD64) amd64 Some(8)
0xa Some(PROCESSOR_ARCHITECTURE_IA32_ON_WIN64) x86 Some(4)
0xb None unknown None
0xc Some(PROCESSOR_ARCHITECTURE_ARM64) arm64 Some(8)
0xd None unknown None
0xe None unknown None
0x4d None unknown None
0x8000 None unknown None
0x8001 Some(PROCESSOR_ARCHITECTURE_SPARC) sparc Some(4)
0x8002 Some(PROCESSOR_ARCHITECTURE_PPC64) ppc64 Some(8)
0x8003 Some(PROCESSOR_ARCHITECTURE_ARM64_OLD) arm64 Some(8)
0x8004 Some(PROCESSOR_ARCHITECTURE_MIPS64) mips64 Some(8)
0x8005 None unknown None
0xffff None unknown None
";

// Appends the line of each number.
fn push_processors(out: &mut String) -> Result<(), AllocError> {
    for (first, last) in ARCHITECTURES {
        for number in *first..=*last {
            let architecture = ProcessorArchitecture::from_u16(number);
            let cpu = Cpu::from_processor_architecture(number);
            let size = cpu.pointer_width().size_in_bytes();
            write!(out, "{number:#x} {architecture:?} {cpu} {size:?}\n")?;
        }
    }
    Ok(())
}

#[test]
fn names_systems_and_processors(rt: HostRuntime) {
    let mut systems = String::new(rt.alloc());
    let _ = push_platforms(rt.alloc(), &mut systems);
    assert_text(&rt, systems.as_str(), SYSTEMS);
    let mut processors = String::new(rt.alloc());
    let _ = push_processors(&mut processors);
    assert_text(&rt, processors.as_str(), PROCESSORS);
}
