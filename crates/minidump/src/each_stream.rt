/// Calls a macro with each type of stream that is read, in the order of the report: the name of the
/// stream type, the type that reads it, and how many reads
/// [`get_stream`](crate::Minidump::get_stream) makes of a file of n bytes at most: 8 (`constant`),
/// n + 8 (`linear`) or (n + 8)² (`square`).
#[macro_export]
#[rattlefmt::skip]
macro_rules! each_stream {
    ($each:ident) => {
        $each! {
            SystemInfoStream: $crate::MinidumpSystemInfo, constant;
            MiscInfoStream: $crate::MinidumpMiscInfo, linear;
            ExceptionStream: $crate::MinidumpException<'_>, linear;
            ThreadListStream: $crate::MinidumpThreadList<'_>, linear;
            ThreadNamesStream: $crate::MinidumpThreadNames, linear;
            ThreadInfoListStream: $crate::MinidumpThreadInfoList, linear;
            ModuleListStream: $crate::MinidumpModuleList, linear;
            UnloadedModuleListStream: $crate::MinidumpUnloadedModuleList, linear;
            Memory64ListStream: $crate::MinidumpMemory64List<'_>, linear;
            MemoryListStream: $crate::MinidumpMemoryList<'_>, linear;
            MemoryInfoListStream: $crate::MinidumpMemoryInfoList<'_>, linear;
            LinuxMaps: $crate::MinidumpLinuxMaps<'_>, linear;
            HandleDataStream: $crate::MinidumpHandleDataStream, square;
            BreakpadInfoStream: $crate::MinidumpBreakpadInfo, linear;
            AssertionInfoStream: $crate::MinidumpAssertion, linear;
            CrashpadInfoStream: $crate::MinidumpCrashpadInfo, square;
            MozMacosCrashInfoStream: $crate::MinidumpMacCrashInfo, linear;
            MozMacosBootargsStream: $crate::MinidumpMacBootargs, linear;
            LinuxCpuInfo: $crate::MinidumpLinuxCpuInfo<'_>, linear;
            LinuxProcStatus: $crate::MinidumpLinuxProcStatus<'_>, linear;
            LinuxLsbRelease: $crate::MinidumpLinuxLsbRelease<'_>, linear;
            LinuxEnviron: $crate::MinidumpLinuxEnviron<'_>, linear;
            MozLinuxLimits: $crate::MinidumpLinuxProcLimits<'_>, linear;
            MozSoftErrors: $crate::MinidumpSoftErrors<'_>, linear;
            StabilityReportStream: $crate::StabilityReport, linear;
        }
    };
}
