ghost use Rattle.std.specs.Prelude.{◌≡◌};
ghost use Rattle.minidump_format.specs.StreamType.{is_unimplemented, number_of, type_name};
ghost use Rattle.minidump_format.specs.StreamType.{stream_type_of};

/// The named types of stream: Microsoft's `MINIDUMP_STREAM_TYPE`, with the extensions of Breakpad,
/// Crashpad, Chromium and Mozilla. The types from `ceStreamNull` to `ceStreamDiagnosisList` are
/// those of Windows CE.
#[allow(non_camel_case_types)]
#[derive(Clone, Copy, Debug, PartialEq, Eq)]
pub enum MINIDUMP_STREAM_TYPE {
    /// Reserved.
    UnusedStream = 0,
    /// Reserved.
    ReservedStream0 = 1,
    /// Reserved.
    ReservedStream1 = 2,
    /// The threads: Microsoft's `MINIDUMP_THREAD_LIST`.
    ThreadListStream = 3,
    /// The loaded modules: Microsoft's `MINIDUMP_MODULE_LIST`.
    ModuleListStream = 4,
    /// Regions of memory: Microsoft's `MINIDUMP_MEMORY_LIST`.
    MemoryListStream = 5,
    /// The exception: Microsoft's `MINIDUMP_EXCEPTION_STREAM`.
    ExceptionStream = 6,
    /// The system information: Microsoft's `MINIDUMP_SYSTEM_INFO`.
    SystemInfoStream = 7,
    /// The threads with their backing stores: Microsoft's `MINIDUMP_THREAD_EX_LIST`.
    ThreadExListStream = 8,
    /// Regions of memory of a full dump: Microsoft's `MINIDUMP_MEMORY64_LIST`.
    Memory64ListStream = 9,
    /// A comment in ANSI.
    CommentStreamA = 10,
    /// A comment in UTF-16.
    CommentStreamW = 11,
    /// The open handles: Microsoft's `MINIDUMP_HANDLE_DATA_STREAM`.
    HandleDataStream = 12,
    /// The function tables: Microsoft's `MINIDUMP_FUNCTION_TABLE_STREAM`.
    FunctionTable = 13,
    /// The unloaded modules: Microsoft's `MINIDUMP_UNLOADED_MODULE_LIST`.
    UnloadedModuleListStream = 14,
    /// The misc information: Microsoft's `MINIDUMP_MISC_INFO` and its later layouts.
    MiscInfoStream = 15,
    /// Information on regions of memory: Microsoft's `MINIDUMP_MEMORY_INFO_LIST`.
    MemoryInfoListStream = 16,
    /// The states of the threads: Microsoft's `MINIDUMP_THREAD_INFO_LIST`.
    ThreadInfoListStream = 17,
    /// Operations on handles: Microsoft's `MINIDUMP_HANDLE_OPERATION_LIST`.
    HandleOperationListStream = 18,
    /// Security tokens: Microsoft's `MINIDUMP_TOKEN_INFO_LIST`.
    TokenStream = 19,
    /// Data of JavaScript.
    JavaScriptDataStream = 20,
    /// The memory of the system: Microsoft's `MINIDUMP_SYSTEM_MEMORY_INFO_1`.
    SystemMemoryInfoStream = 21,
    /// The virtual memory of the process: Microsoft's `MINIDUMP_PROCESS_VM_COUNTERS_1`.
    ProcessVmCountersStream = 22,
    /// A trace of Intel Processor Trace.
    IptTraceStream = 23,
    /// The names of the threads: Microsoft's `MINIDUMP_THREAD_NAME_LIST`.
    ThreadNamesStream = 24,
    ceStreamNull = 0x8000,
    ceStreamSystemInfo = 0x8001,
    ceStreamException = 0x8002,
    ceStreamModuleList = 0x8003,
    ceStreamProcessList = 0x8004,
    ceStreamThreadList = 0x8005,
    ceStreamThreadContextList = 0x8006,
    ceStreamThreadCallStackList = 0x8007,
    ceStreamMemoryVirtualList = 0x8008,
    ceStreamMemoryPhysicalList = 0x8009,
    ceStreamBucketParameters = 0x800a,
    ceStreamProcessModuleMap = 0x800b,
    ceStreamDiagnosisList = 0x800c,
    /// The last number that is reserved for Microsoft.
    LastReservedStream = 0xffff,
    /// The threads that wrote and requested the dump: Breakpad's `MDRawBreakpadInfo`.
    BreakpadInfoStream = 0x4767_0001,
    /// An assertion that failed: Breakpad's `MDRawAssertionInfo`.
    AssertionInfoStream = 0x4767_0002,
    /// The text of `/proc/cpuinfo`.
    LinuxCpuInfo = 0x4767_0003,
    /// The text of `/proc/PID/status`.
    LinuxProcStatus = 0x4767_0004,
    /// The text of `/etc/lsb-release`.
    LinuxLsbRelease = 0x4767_0005,
    /// The bytes of `/proc/PID/cmdline`.
    LinuxCmdLine = 0x4767_0006,
    /// The text of `/proc/PID/environ`.
    LinuxEnviron = 0x4767_0007,
    /// The bytes of `/proc/PID/auxv`.
    LinuxAuxv = 0x4767_0008,
    /// The text of `/proc/PID/maps`.
    LinuxMaps = 0x4767_0009,
    /// The loaded shared objects: Breakpad's `MDRawDebug32` or `MDRawDebug64`.
    LinuxDsoDebug = 0x4767_000a,
    /// Crashpad's information on the process: `MinidumpCrashpadInfo`.
    CrashpadInfoStream = 0x4350_0001,
    /// The crash information of macOS: Mozilla's `MDRawMacCrashInfo`.
    MozMacosCrashInfoStream = 0x4d7a_0001,
    /// The boot arguments of macOS: Mozilla's `MDRawMacBootargs`.
    MozMacosBootargsStream = 0x4d7a_0002,
    /// The text of `/proc/PID/limits`.
    MozLinuxLimits = 0x4d7a_0003,
    /// The errors that the dump's writer met and got over, in JSON.
    MozSoftErrors = 0x4d7a_0004,
    /// Chromium's `StabilityReport`, a message in Protocol Buffers.
    StabilityReportStream = 0x4b6b_0002,
}

impl MINIDUMP_STREAM_TYPE {
    /// Returns the type with the number `n`, or `None` if there is none.
    pub fn from_u32(n: u32) -> Option<MINIDUMP_STREAM_TYPE>
        ensures { result ≡ stream_type_of n }
    {
        Some(match n {
            0 => MINIDUMP_STREAM_TYPE::UnusedStream,
            1 => MINIDUMP_STREAM_TYPE::ReservedStream0,
            2 => MINIDUMP_STREAM_TYPE::ReservedStream1,
            3 => MINIDUMP_STREAM_TYPE::ThreadListStream,
            4 => MINIDUMP_STREAM_TYPE::ModuleListStream,
            5 => MINIDUMP_STREAM_TYPE::MemoryListStream,
            6 => MINIDUMP_STREAM_TYPE::ExceptionStream,
            7 => MINIDUMP_STREAM_TYPE::SystemInfoStream,
            8 => MINIDUMP_STREAM_TYPE::ThreadExListStream,
            9 => MINIDUMP_STREAM_TYPE::Memory64ListStream,
            10 => MINIDUMP_STREAM_TYPE::CommentStreamA,
            11 => MINIDUMP_STREAM_TYPE::CommentStreamW,
            12 => MINIDUMP_STREAM_TYPE::HandleDataStream,
            13 => MINIDUMP_STREAM_TYPE::FunctionTable,
            14 => MINIDUMP_STREAM_TYPE::UnloadedModuleListStream,
            15 => MINIDUMP_STREAM_TYPE::MiscInfoStream,
            16 => MINIDUMP_STREAM_TYPE::MemoryInfoListStream,
            17 => MINIDUMP_STREAM_TYPE::ThreadInfoListStream,
            18 => MINIDUMP_STREAM_TYPE::HandleOperationListStream,
            19 => MINIDUMP_STREAM_TYPE::TokenStream,
            20 => MINIDUMP_STREAM_TYPE::JavaScriptDataStream,
            21 => MINIDUMP_STREAM_TYPE::SystemMemoryInfoStream,
            22 => MINIDUMP_STREAM_TYPE::ProcessVmCountersStream,
            23 => MINIDUMP_STREAM_TYPE::IptTraceStream,
            24 => MINIDUMP_STREAM_TYPE::ThreadNamesStream,
            0x8000 => MINIDUMP_STREAM_TYPE::ceStreamNull,
            0x8001 => MINIDUMP_STREAM_TYPE::ceStreamSystemInfo,
            0x8002 => MINIDUMP_STREAM_TYPE::ceStreamException,
            0x8003 => MINIDUMP_STREAM_TYPE::ceStreamModuleList,
            0x8004 => MINIDUMP_STREAM_TYPE::ceStreamProcessList,
            0x8005 => MINIDUMP_STREAM_TYPE::ceStreamThreadList,
            0x8006 => MINIDUMP_STREAM_TYPE::ceStreamThreadContextList,
            0x8007 => MINIDUMP_STREAM_TYPE::ceStreamThreadCallStackList,
            0x8008 => MINIDUMP_STREAM_TYPE::ceStreamMemoryVirtualList,
            0x8009 => MINIDUMP_STREAM_TYPE::ceStreamMemoryPhysicalList,
            0x800a => MINIDUMP_STREAM_TYPE::ceStreamBucketParameters,
            0x800b => MINIDUMP_STREAM_TYPE::ceStreamProcessModuleMap,
            0x800c => MINIDUMP_STREAM_TYPE::ceStreamDiagnosisList,
            0xffff => MINIDUMP_STREAM_TYPE::LastReservedStream,
            0x4767_0001 => MINIDUMP_STREAM_TYPE::BreakpadInfoStream,
            0x4767_0002 => MINIDUMP_STREAM_TYPE::AssertionInfoStream,
            0x4767_0003 => MINIDUMP_STREAM_TYPE::LinuxCpuInfo,
            0x4767_0004 => MINIDUMP_STREAM_TYPE::LinuxProcStatus,
            0x4767_0005 => MINIDUMP_STREAM_TYPE::LinuxLsbRelease,
            0x4767_0006 => MINIDUMP_STREAM_TYPE::LinuxCmdLine,
            0x4767_0007 => MINIDUMP_STREAM_TYPE::LinuxEnviron,
            0x4767_0008 => MINIDUMP_STREAM_TYPE::LinuxAuxv,
            0x4767_0009 => MINIDUMP_STREAM_TYPE::LinuxMaps,
            0x4767_000a => MINIDUMP_STREAM_TYPE::LinuxDsoDebug,
            0x4350_0001 => MINIDUMP_STREAM_TYPE::CrashpadInfoStream,
            0x4d7a_0001 => MINIDUMP_STREAM_TYPE::MozMacosCrashInfoStream,
            0x4d7a_0002 => MINIDUMP_STREAM_TYPE::MozMacosBootargsStream,
            0x4d7a_0003 => MINIDUMP_STREAM_TYPE::MozLinuxLimits,
            0x4d7a_0004 => MINIDUMP_STREAM_TYPE::MozSoftErrors,
            0x4b6b_0002 => MINIDUMP_STREAM_TYPE::StabilityReportStream,
            _ => return None,
        })
    }

    /// Returns the number of the type.
    pub fn number(self) -> u32
        ensures { result ≡ number_of self }
    {
        self as u32
    }

    /// Returns the name of the type, as it stands in this enum.
    pub fn name(self) -> &'static str
        ensures { result.now ≡ type_name self }
    {
        match self {
            MINIDUMP_STREAM_TYPE::UnusedStream => "UnusedStream",
            MINIDUMP_STREAM_TYPE::ReservedStream0 => "ReservedStream0",
            MINIDUMP_STREAM_TYPE::ReservedStream1 => "ReservedStream1",
            MINIDUMP_STREAM_TYPE::ThreadListStream => "ThreadListStream",
            MINIDUMP_STREAM_TYPE::ModuleListStream => "ModuleListStream",
            MINIDUMP_STREAM_TYPE::MemoryListStream => "MemoryListStream",
            MINIDUMP_STREAM_TYPE::ExceptionStream => "ExceptionStream",
            MINIDUMP_STREAM_TYPE::SystemInfoStream => "SystemInfoStream",
            MINIDUMP_STREAM_TYPE::ThreadExListStream => "ThreadExListStream",
            MINIDUMP_STREAM_TYPE::Memory64ListStream => "Memory64ListStream",
            MINIDUMP_STREAM_TYPE::CommentStreamA => "CommentStreamA",
            MINIDUMP_STREAM_TYPE::CommentStreamW => "CommentStreamW",
            MINIDUMP_STREAM_TYPE::HandleDataStream => "HandleDataStream",
            MINIDUMP_STREAM_TYPE::FunctionTable => "FunctionTable",
            MINIDUMP_STREAM_TYPE::UnloadedModuleListStream => "UnloadedModuleListStream",
            MINIDUMP_STREAM_TYPE::MiscInfoStream => "MiscInfoStream",
            MINIDUMP_STREAM_TYPE::MemoryInfoListStream => "MemoryInfoListStream",
            MINIDUMP_STREAM_TYPE::ThreadInfoListStream => "ThreadInfoListStream",
            MINIDUMP_STREAM_TYPE::HandleOperationListStream => "HandleOperationListStream",
            MINIDUMP_STREAM_TYPE::TokenStream => "TokenStream",
            MINIDUMP_STREAM_TYPE::JavaScriptDataStream => "JavaScriptDataStream",
            MINIDUMP_STREAM_TYPE::SystemMemoryInfoStream => "SystemMemoryInfoStream",
            MINIDUMP_STREAM_TYPE::ProcessVmCountersStream => "ProcessVmCountersStream",
            MINIDUMP_STREAM_TYPE::IptTraceStream => "IptTraceStream",
            MINIDUMP_STREAM_TYPE::ThreadNamesStream => "ThreadNamesStream",
            MINIDUMP_STREAM_TYPE::ceStreamNull => "ceStreamNull",
            MINIDUMP_STREAM_TYPE::ceStreamSystemInfo => "ceStreamSystemInfo",
            MINIDUMP_STREAM_TYPE::ceStreamException => "ceStreamException",
            MINIDUMP_STREAM_TYPE::ceStreamModuleList => "ceStreamModuleList",
            MINIDUMP_STREAM_TYPE::ceStreamProcessList => "ceStreamProcessList",
            MINIDUMP_STREAM_TYPE::ceStreamThreadList => "ceStreamThreadList",
            MINIDUMP_STREAM_TYPE::ceStreamThreadContextList => "ceStreamThreadContextList",
            MINIDUMP_STREAM_TYPE::ceStreamThreadCallStackList => "ceStreamThreadCallStackList",
            MINIDUMP_STREAM_TYPE::ceStreamMemoryVirtualList => "ceStreamMemoryVirtualList",
            MINIDUMP_STREAM_TYPE::ceStreamMemoryPhysicalList => "ceStreamMemoryPhysicalList",
            MINIDUMP_STREAM_TYPE::ceStreamBucketParameters => "ceStreamBucketParameters",
            MINIDUMP_STREAM_TYPE::ceStreamProcessModuleMap => "ceStreamProcessModuleMap",
            MINIDUMP_STREAM_TYPE::ceStreamDiagnosisList => "ceStreamDiagnosisList",
            MINIDUMP_STREAM_TYPE::LastReservedStream => "LastReservedStream",
            MINIDUMP_STREAM_TYPE::BreakpadInfoStream => "BreakpadInfoStream",
            MINIDUMP_STREAM_TYPE::AssertionInfoStream => "AssertionInfoStream",
            MINIDUMP_STREAM_TYPE::LinuxCpuInfo => "LinuxCpuInfo",
            MINIDUMP_STREAM_TYPE::LinuxProcStatus => "LinuxProcStatus",
            MINIDUMP_STREAM_TYPE::LinuxLsbRelease => "LinuxLsbRelease",
            MINIDUMP_STREAM_TYPE::LinuxCmdLine => "LinuxCmdLine",
            MINIDUMP_STREAM_TYPE::LinuxEnviron => "LinuxEnviron",
            MINIDUMP_STREAM_TYPE::LinuxAuxv => "LinuxAuxv",
            MINIDUMP_STREAM_TYPE::LinuxMaps => "LinuxMaps",
            MINIDUMP_STREAM_TYPE::LinuxDsoDebug => "LinuxDsoDebug",
            MINIDUMP_STREAM_TYPE::CrashpadInfoStream => "CrashpadInfoStream",
            MINIDUMP_STREAM_TYPE::MozMacosCrashInfoStream => "MozMacosCrashInfoStream",
            MINIDUMP_STREAM_TYPE::MozMacosBootargsStream => "MozMacosBootargsStream",
            MINIDUMP_STREAM_TYPE::MozLinuxLimits => "MozLinuxLimits",
            MINIDUMP_STREAM_TYPE::MozSoftErrors => "MozSoftErrors",
            MINIDUMP_STREAM_TYPE::StabilityReportStream => "StabilityReportStream",
        }
    }

    /// Tells whether streams of the type are listed as unimplemented, since they are never read.
    pub fn is_unimplemented(self) -> bool
        ensures { result ≡ is_unimplemented self }
    {
        match self {
            MINIDUMP_STREAM_TYPE::UnusedStream
            | MINIDUMP_STREAM_TYPE::ReservedStream0
            | MINIDUMP_STREAM_TYPE::ReservedStream1
            | MINIDUMP_STREAM_TYPE::ThreadExListStream
            | MINIDUMP_STREAM_TYPE::CommentStreamA
            | MINIDUMP_STREAM_TYPE::CommentStreamW
            | MINIDUMP_STREAM_TYPE::FunctionTable
            | MINIDUMP_STREAM_TYPE::HandleOperationListStream
            | MINIDUMP_STREAM_TYPE::TokenStream
            | MINIDUMP_STREAM_TYPE::JavaScriptDataStream
            | MINIDUMP_STREAM_TYPE::SystemMemoryInfoStream
            | MINIDUMP_STREAM_TYPE::ProcessVmCountersStream
            | MINIDUMP_STREAM_TYPE::IptTraceStream
            | MINIDUMP_STREAM_TYPE::ceStreamNull
            | MINIDUMP_STREAM_TYPE::ceStreamSystemInfo
            | MINIDUMP_STREAM_TYPE::ceStreamException
            | MINIDUMP_STREAM_TYPE::ceStreamModuleList
            | MINIDUMP_STREAM_TYPE::ceStreamProcessList
            | MINIDUMP_STREAM_TYPE::ceStreamThreadList
            | MINIDUMP_STREAM_TYPE::ceStreamThreadContextList
            | MINIDUMP_STREAM_TYPE::ceStreamThreadCallStackList
            | MINIDUMP_STREAM_TYPE::ceStreamMemoryVirtualList
            | MINIDUMP_STREAM_TYPE::ceStreamMemoryPhysicalList
            | MINIDUMP_STREAM_TYPE::ceStreamBucketParameters
            | MINIDUMP_STREAM_TYPE::ceStreamProcessModuleMap
            | MINIDUMP_STREAM_TYPE::ceStreamDiagnosisList
            | MINIDUMP_STREAM_TYPE::LastReservedStream
            | MINIDUMP_STREAM_TYPE::LinuxCmdLine
            | MINIDUMP_STREAM_TYPE::LinuxAuxv
            | MINIDUMP_STREAM_TYPE::LinuxDsoDebug => true,
            _ => false,
        }
    }
}
