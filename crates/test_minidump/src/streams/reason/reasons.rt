use super::{Lists, has_text};
use minidump::format::{
    MINIDUMP_EXCEPTION, MINIDUMP_EXCEPTION_STREAM, MINIDUMP_LOCATION_DESCRIPTOR,
};
use minidump::system_info::{Cpu, Os};
use minidump::{CodeFamily, CodeNames, CrashReason};
use std::alloc::Global;

// An exception with `count` parameters, and the first three of them.
fn exception(code: u32, flags: u32, count: u32, first: [u64; 3]) -> MINIDUMP_EXCEPTION_STREAM {
    let mut parameters = [0; 15];
    parameters[0] = first[0];
    parameters[1] = first[1];
    parameters[2] = first[2];
    MINIDUMP_EXCEPTION_STREAM {
        thread_id: 1,
        unused1: 0,
        exception_record: MINIDUMP_EXCEPTION {
            exception_code: code,
            exception_flags: flags,
            exception_record: 0,
            exception_address: 0,
            number_parameters: count,
            unused1: 0,
            exception_information: parameters,
        },
        thread_context: MINIDUMP_LOCATION_DESCRIPTOR {
            data_size: 0,
            rva: 0,
        },
    }
}

// The names of the first `count` lists.
fn first_of(lists: Lists, count: usize) -> CodeNames<'static> {
    let count = count.min(lists.len());
    CodeNames::new(&lists[..count]).unwrap_or(CodeNames::empty())
}

const LINUX: Lists = &[
    (
        CodeFamily::Linux,
        &[
            (4, "SIGILL"),
            (5, "SIGTRAP"),
            (6, "SIGABRT"),
            (7, "SIGBUS"),
            (8, "SIGFPE"),
            (11, "SIGSEGV"),
            (31, "SIGSYS"),
        ],
    ),
    (CodeFamily::LinuxSigsegv, &[(1, "SEGV_MAPERR")]),
    (CodeFamily::LinuxSicode, &[(0, "SI_USER"), (2, "SI_QUEUE")]),
    (CodeFamily::LinuxSigill, &[(1, "ILL_ILLOPC")]),
    (CodeFamily::LinuxSigtrap, &[(1, "TRAP_BRKPT")]),
    (CodeFamily::LinuxSigbus, &[(1, "BUS_ADRALN")]),
    (CodeFamily::LinuxSigfpe, &[(1, "FPE_INTDIV")]),
    (CodeFamily::LinuxSigsys, &[(1, "SYS_SECCOMP")]),
];

// The number of lists, a signal, its flags, and the reason's text.
#[rattlefmt::skip]
const SIGNALS: &[(usize, u32, u32, &str)] = &[
    (2, 11, 1, "SIGSEGV / SEGV_MAPERR"),
    (1, 11, 1, "SIGSEGV / 0x00000001"),
    (0, 11, 1, "unknown 0x0000000b / 0x00000001"),
    (3, 6, 0, "SIGABRT"),
    (1, 6, 0, "SIGABRT / 0x00000000"),
    (3, 6, 2, "SIGABRT / SI_QUEUE"),
    (3, 9, 0, "unknown 0x00000009 / 0x00000000"),
    (8, 4, 1, "SIGILL / ILL_ILLOPC"),
    (8, 5, 1, "SIGTRAP / TRAP_BRKPT"),
    (8, 7, 1, "SIGBUS / BUS_ADRALN"),
    (8, 8, 1, "SIGFPE / FPE_INTDIV"),
    (8, 11, 1, "SIGSEGV / SEGV_MAPERR"),
    (8, 31, 1, "SIGSYS / SYS_SECCOMP"),
    (8, 31, 2, "SIGSYS / SI_QUEUE"),
];

fn is_of_linux(alloc: Global, os: Os, row: &(usize, u32, u32, &str)) -> bool {
    let (lists, code, flags, text) = *row;
    let names = first_of(LINUX, lists);
    let raw = exception(code, flags, 0, [0; 3]);
    let reason = CrashReason::from_exception(&raw, os, Cpu::X86_64, &names);
    has_text(alloc, reason, &names, text) == Ok(true)
}

#[test]
fn signals_have_reasons(rt: HostRuntime) {
    for row in SIGNALS {
        assert!(rt;
            is_of_linux(rt.alloc(), Os::Linux, row) && is_of_linux(rt.alloc(), Os::Android, row),
            "{}",
            row.3
        );
    }
}

const MAC: Lists = &[
    (
        CodeFamily::Mac,
        &[
            (1, "EXC_BAD_ACCESS"),
            (2, "EXC_BAD_INSTRUCTION"),
            (3, "EXC_ARITHMETIC"),
            (5, "EXC_SOFTWARE"),
            (6, "EXC_BREAKPOINT"),
            (11, "EXC_RESOURCE"),
            (12, "EXC_GUARD"),
        ],
    ),
    (CodeFamily::MacGuard, &[(3, "GUARD_TYPE_USER")]),
    (CodeFamily::MacResource, &[(1, "RESOURCE_TYPE_CPU")]),
    (CodeFamily::MacBadAccessKern, &[(1, "KERN_INVALID_ADDRESS")]),
    (
        CodeFamily::MacBadAccessX86,
        &[(1, "EXC_I386_DIVERR"), (13, "EXC_I386_GPFLT")],
    ),
    (CodeFamily::MacResourceCpu, &[(1, "FLAVOR_CPU_MONITOR")]),
    (CodeFamily::MacBadAccessArm, &[(257, "EXC_ARM_DA_ALIGN")]),
    (CodeFamily::MacBadAccessPpc, &[(259, "EXC_PPC_UNALIGNED")]),
    (
        CodeFamily::MacBadInstructionArm,
        &[(1, "EXC_ARM_UNDEFINED")],
    ),
    (
        CodeFamily::MacBadInstructionPpc,
        &[(2, "EXC_PPC_UNIPL_INST")],
    ),
    (
        CodeFamily::MacBadInstructionX86,
        &[(10, "EXC_I386_INVTSSFLT")],
    ),
    (CodeFamily::MacArithmeticArm, &[(4, "EXC_ARM_FP_UF")]),
    (
        CodeFamily::MacArithmeticPpc,
        &[(5, "EXC_PPC_FLT_UNDERFLOW")],
    ),
    (CodeFamily::MacArithmeticX86, &[(6, "EXC_I386_EMERR")]),
    (CodeFamily::MacSoftware, &[(0x1_0003, "EXC_SOFT_SIGNAL")]),
    (CodeFamily::MacBreakpointArm, &[(1, "EXC_ARM_BREAKPOINT")]),
    (CodeFamily::MacBreakpointPpc, &[(1, "EXC_PPC_BREAKPOINT")]),
    (CodeFamily::MacBreakpointX86, &[(2, "EXC_I386_BPT")]),
];

// The number of lists, a code, its flags, the processor, and the reason's text. The parameters are
// 0, 7 and 9.
#[rattlefmt::skip]
const MAC_CODES: &[(usize, u32, u32, Cpu, &str)] = &[
    (6, 12, 0x6000_0000, Cpu::Arm64, "EXC_GUARD / GUARD_TYPE_USER/ namespace: 7 guard identifier: 9"),
    (6, 12, 0x3fff_ffff, Cpu::Arm64, "EXC_GUARD / 0x3fffffff"),
    (6, 1, 1, Cpu::X86, "EXC_BAD_ACCESS / KERN_INVALID_ADDRESS"),
    (6, 1, 13, Cpu::X86_64, "EXC_BAD_ACCESS / EXC_I386_GPFLT"),
    (6, 1, 13, Cpu::Arm64, "EXC_BAD_ACCESS / 0x0000000d"),
    (6, 4, 13, Cpu::X86, "unknown 0x00000004 / 0x0000000d"),
    (18, 1, 257, Cpu::Arm64, "EXC_BAD_ACCESS / EXC_ARM_DA_ALIGN"),
    (18, 1, 259, Cpu::Ppc, "EXC_BAD_ACCESS / EXC_PPC_UNALIGNED"),
    (18, 1, 259, Cpu::Ppc64, "EXC_BAD_ACCESS / 0x00000103"),
    (18, 1, 257, Cpu::Arm, "EXC_BAD_ACCESS / 0x00000101"),
    (18, 2, 1, Cpu::Arm64, "EXC_BAD_INSTRUCTION / EXC_ARM_UNDEFINED"),
    (18, 2, 2, Cpu::Ppc, "EXC_BAD_INSTRUCTION / EXC_PPC_UNIPL_INST"),
    (18, 2, 2, Cpu::Ppc64, "EXC_BAD_INSTRUCTION / 0x00000002"),
    (18, 2, 10, Cpu::X86, "EXC_BAD_INSTRUCTION / EXC_I386_INVTSSFLT"),
    (18, 2, 10, Cpu::X86_64, "EXC_BAD_INSTRUCTION / EXC_I386_INVTSSFLT"),
    (18, 3, 4, Cpu::Arm64, "EXC_ARITHMETIC / EXC_ARM_FP_UF"),
    (18, 3, 5, Cpu::Ppc, "EXC_ARITHMETIC / EXC_PPC_FLT_UNDERFLOW"),
    (18, 3, 5, Cpu::Ppc64, "EXC_ARITHMETIC / 0x00000005"),
    (18, 3, 6, Cpu::X86, "EXC_ARITHMETIC / EXC_I386_EMERR"),
    (18, 3, 6, Cpu::X86_64, "EXC_ARITHMETIC / EXC_I386_EMERR"),
    (18, 5, 0x1_0003, Cpu::Arm64, "EXC_SOFTWARE / EXC_SOFT_SIGNAL"),
    (18, 5, 9, Cpu::X86, "EXC_SOFTWARE / 0x00000009"),
    (18, 6, 1, Cpu::Arm64, "EXC_BREAKPOINT / EXC_ARM_BREAKPOINT"),
    (18, 6, 1, Cpu::Ppc, "EXC_BREAKPOINT / EXC_PPC_BREAKPOINT"),
    (18, 6, 1, Cpu::Ppc64, "EXC_BREAKPOINT / 0x00000001"),
    (18, 6, 2, Cpu::X86, "EXC_BREAKPOINT / EXC_I386_BPT"),
    (18, 6, 2, Cpu::X86_64, "EXC_BREAKPOINT / EXC_I386_BPT"),
];

fn is_of_mac(
    alloc: Global,
    os: Os,
    parameters: [u64; 3],
    row: &(usize, u32, u32, Cpu, &str),
) -> bool {
    let (lists, code, flags, cpu, text) = *row;
    let names = first_of(MAC, lists);
    let raw = exception(code, flags, 0, parameters);
    let reason = CrashReason::from_exception(&raw, os, cpu, &names);
    has_text(alloc, reason, &names, text) == Ok(true)
}

// A limit of CPU time, with and without the list of its flavors. Its parameters are other ones.
const LIMIT: [u64; 3] = [0, 0x0400_0000_0000_0505, 3];

#[rattlefmt::skip]
const LIMITS: &[(usize, u32, u32, Cpu, &str)] = &[
    (
        6, 11, 0x2000_0000, Cpu::Arm64,
        "EXC_RESOURCE / RESOURCE_TYPE_CPU / FLAVOR_CPU_MONITOR interval: 10s CPU limit: 5% CPU consumed: 3%",
    ),
    (5, 11, 0x2000_0000, Cpu::Arm64, "EXC_RESOURCE / RESOURCE_TYPE_CPU / 0x0400000000000505 / 0x0000000000000003"),
];

#[test]
fn mac_exceptions_have_reasons(rt: HostRuntime) {
    for row in MAC_CODES {
        assert!(rt;
            is_of_mac(rt.alloc(), Os::MacOs, [0, 7, 9], row)
                && is_of_mac(rt.alloc(), Os::Ios, [0, 7, 9], row),
            "{}",
            row.4
        );
    }
    for row in LIMITS {
        assert!(rt; is_of_mac(rt.alloc(), Os::MacOs, LIMIT, row), "{}", row.4);
    }
}

const WINDOWS: Lists = &[
    (
        CodeFamily::WinErrorFacility,
        &[
            (1, "FACILITY_RPC"),
            (7, "FACILITY_WIN32"),
            (0x801, "FACILITY_TOP"),
        ],
    ),
    (
        CodeFamily::WinError,
        &[
            (1, "ERROR_INVALID_FUNCTION"),
            (5, "ERROR_ACCESS_DENIED"),
            (0x8001, "ERROR_TOP"),
        ],
    ),
    (
        CodeFamily::Windows,
        &[
            (0xc000_0005, "EXCEPTION_ACCESS_VIOLATION"),
            (0xc000_0006, "EXCEPTION_IN_PAGE_ERROR"),
        ],
    ),
    (CodeFamily::WindowsAccess, &[(0, "READ"), (1, "WRITE")]),
    (CodeFamily::WindowsInPageError, &[(0, "READ")]),
    (
        CodeFamily::NtStatus,
        &[(0xc000_0409, "STATUS_STACK_BUFFER_OVERRUN")],
    ),
];

// The number of lists, an error, and the reason's text: the severity is the four highest bits, the
// facility the twelve after them, and the error the low 16.
#[rattlefmt::skip]
const ERRORS: &[(usize, u32, &str)] = &[
    (2, 0x8007_0005, "FACILITY_WIN32 / ERROR_ACCESS_DENIED"),
    (0, 0x8007_0005, "unknown 0x80070005"),
    (2, 0x0007_0005, "unknown 0x00070005"),
    (2, 5, "ERROR_ACCESS_DENIED"),
    (2, 0x1001_0001, "FACILITY_RPC / ERROR_INVALID_FUNCTION"),
    (2, 0x1801_8001, "FACILITY_TOP / ERROR_TOP"),
    (2, 0x8801_0001, "FACILITY_TOP / ERROR_INVALID_FUNCTION"),
    (2, 0x0801_0001, "unknown 0x08010001"),
    (2, 0x8001_8001, "FACILITY_RPC / ERROR_TOP"),
];

fn is_of_windows(alloc: Global, row: &(usize, u32, &str)) -> bool {
    let names = first_of(WINDOWS, row.0);
    let reason = CrashReason::from_windows_error(row.1, &names);
    has_text(alloc, reason, &names, row.2) == Ok(true)
}

// A code, the number of its parameters, three of them, and the reason's text.
#[rattlefmt::skip]
const EXCEPTIONS: &[(u32, u32, [u64; 3], &str)] = &[
    (0xc000_0005, 2, [1, 0xffff_ffff_8000_1234, 0], "EXCEPTION_ACCESS_VIOLATION_WRITE"),
    (0xc000_0005, 1, [1, 0, 0], "EXCEPTION_ACCESS_VIOLATION_WRITE"),
    (0xc000_0005, 0, [1, 0, 0], "EXCEPTION_ACCESS_VIOLATION"),
    (0xc000_0005, 1, [0x1_0000_0001, 0, 0], "EXCEPTION_ACCESS_VIOLATION"),
    (0xc000_0006, 3, [0, 0, 0x1_c000_0409], "EXCEPTION_IN_PAGE_ERROR_READ / STATUS_STACK_BUFFER_OVERRUN"),
    (0xc000_0006, 2, [0, 0, 0], "EXCEPTION_IN_PAGE_ERROR"),
    (0xc000_0409, 1, [0x1_0000_0002, 0, 0], "EXCEPTION_STACK_BUFFER_OVERRUN / 0x00000002"),
    (0xc000_0409, 0, [2, 0, 0], "STATUS_STACK_BUFFER_OVERRUN"),
];

fn is_raised(alloc: Global, row: &(u32, u32, [u64; 3], &str)) -> bool {
    let (code, count, parameters, text) = *row;
    let names = first_of(WINDOWS, 6);
    let raw = exception(code, 0, count, parameters);
    let reason = CrashReason::from_exception(&raw, Os::Windows, Cpu::X86, &names);
    has_text(alloc, reason, &names, text) == Ok(true)
}

// Other systems have no reasons.
fn is_unknown_on(os: Os) -> bool {
    let raw = exception(0xc000_0005, 7, 1, [0; 3]);
    let names = first_of(WINDOWS, 6);
    CrashReason::from_exception(&raw, os, Cpu::X86, &names) == CrashReason::Unknown(0xc000_0005, 7)
}

#[test]
fn windows_codes_have_reasons(rt: HostRuntime) {
    for row in ERRORS {
        assert!(rt; is_of_windows(rt.alloc(), row), "{}", row.2);
    }
    for row in EXCEPTIONS {
        assert!(rt; is_raised(rt.alloc(), row), "{}", row.3);
    }
    let found = [
        is_unknown_on(Os::Solaris),
        is_unknown_on(Os::Ps3),
        is_unknown_on(Os::NaCl),
        is_unknown_on(Os::Unknown(0)),
    ];
    assert!(rt; found == [true; 4]);
}
