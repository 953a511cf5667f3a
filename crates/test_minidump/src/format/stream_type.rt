// Numbers of types of streams, and numbers beside them.
use crate::assert_text;
use minidump_format::format::MINIDUMP_STREAM_TYPE;
use minidump_format::stream_vendor;
use std::alloc::AllocError;

// The first and the last number of each run.
#[rattlefmt::skip]
const RUNS: &[(u32, u32)] = &[
    (0, 25), (0x7fff, 0x800d), (0xfffe, 0x1_0000), (0x434f_ffff, 0x4350_0002), (0x4350_ffff, 0x4351_0000),
    (0x4766_ffff, 0x4767_000b), (0x4767_ffff, 0x4768_0000), (0x4b6b_0001, 0x4b6b_0003),
    (0x4d79_ffff, 0x4d7a_0005), (0x4d7a_ffff, 0x4d7b_0000), (u32::MAX, u32::MAX),
];

// Each number with its vendor, the name of its type, and whether that is read.
const TYPES: &str = "\
0x0: UnusedStream, Official
0x1: ReservedStream0, Official
0x2: ReservedStream1, Official
0x3: ThreadListStream, Official, read
0x4: ModuleListStream, Official, read
0x5: MemoryListStream, Official, read
0x6: ExceptionStream, Official, read
0x7: SystemInfoStream, Official, read
0x8: ThreadExListStream, Official
0x9: Memory64ListStream, Official, read
0xa: CommentStreamA, Official
0xb: CommentStreamW, Official
0xc: HandleDataStream, Official, read
0xd: FunctionTable, Official
0xe: UnloadedModuleListStream, Official, read
0xf: MiscInfoStream, Official, read
0x10: MemoryInfoListStream, Official, read
0x11: ThreadInfoListStream, Official, read
0x12: HandleOperationListStream, Official
0x13: TokenStream, Official
0x14: JavaScriptDataStream, Official
0x15: SystemMemoryInfoStream, Official
0x16: ProcessVmCountersStream, Official
0x17: IptTraceStream, Official
0x18: ThreadNamesStream, Official, read
0x19: none, Official
0x7fff: none, Official
0x8000: ceStreamNull, Official
0x8001: ceStreamSystemInfo, Official
0x8002: ceStreamException, Official
0x8003: ceStreamModuleList, Official
0x8004: ceStreamProcessList, Official
0x8005: ceStreamThreadList, Official
0x8006: ceStreamThreadContextList, Official
0x8007: ceStreamThreadCallStackList, Official
0x8008: ceStreamMemoryVirtualList, Official
0x8009: ceStreamMemoryPhysicalList, Official
0x800a: ceStreamBucketParameters, Official
0x800b: ceStreamProcessModuleMap, Official
0x800c: ceStreamDiagnosisList, Official
0x800d: none, Official
0xfffe: none, Official
0xffff: LastReservedStream, Official
0x10000: none, Unknown Extension
0x434fffff: none, Unknown Extension
0x43500000: none, Crashpad Extension
0x43500001: CrashpadInfoStream, Crashpad Extension, read
0x43500002: none, Crashpad Extension
0x4350ffff: none, Crashpad Extension
0x43510000: none, Unknown Extension
0x4766ffff: none, Unknown Extension
0x47670000: none, Google Extension
0x47670001: BreakpadInfoStream, Google Extension, read
0x47670002: AssertionInfoStream, Google Extension, read
0x47670003: LinuxCpuInfo, Google Extension, read
0x47670004: LinuxProcStatus, Google Extension, read
0x47670005: LinuxLsbRelease, Google Extension, read
0x47670006: LinuxCmdLine, Google Extension
0x47670007: LinuxEnviron, Google Extension, read
0x47670008: LinuxAuxv, Google Extension
0x47670009: LinuxMaps, Google Extension, read
0x4767000a: LinuxDsoDebug, Google Extension
0x4767000b: none, Google Extension
0x4767ffff: none, Google Extension
0x47680000: none, Unknown Extension
0x4b6b0001: none, Unknown Extension
0x4b6b0002: StabilityReportStream, Unknown Extension, read
0x4b6b0003: none, Unknown Extension
0x4d79ffff: none, Unknown Extension
0x4d7a0000: none, Mozilla Extension
0x4d7a0001: MozMacosCrashInfoStream, Mozilla Extension, read
0x4d7a0002: MozMacosBootargsStream, Mozilla Extension, read
0x4d7a0003: MozLinuxLimits, Mozilla Extension, read
0x4d7a0004: MozSoftErrors, Mozilla Extension, read
0x4d7a0005: none, Mozilla Extension
0x4d7affff: none, Mozilla Extension
0x4d7b0000: none, Unknown Extension
0xffffffff: none, Unknown Extension
";

// Appends the line of each number.
fn push_types(out: &mut String) -> Result<(), AllocError> {
    for (first, last) in RUNS {
        for number in *first..=*last {
            let (name, read) = match MINIDUMP_STREAM_TYPE::from_u32(number) {
                Some(kind) if kind.is_unimplemented() => (kind.name(), ""),
                Some(kind) => (kind.name(), ", read"),
                None => ("none", ""),
            };
            let vendor = stream_vendor(number);
            write!(out, "{number:#x}: {name}, {vendor}{read}\n")?;
        }
    }
    Ok(())
}

#[test]
fn names_types_of_streams_and_vendors(rt: HostRuntime) {
    let mut found = String::new(rt.alloc());
    let _ = push_types(&mut found);
    assert_text(&rt, found.as_str(), TYPES);
}
