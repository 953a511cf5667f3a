//! The records of a minidump, and the enumerations and sets of flags of their fields, as
//! Microsoft's, Breakpad's, Crashpad's and Mozilla's headers define them. Records are packed, and
//! in the byte order of the file.
mod assertion;
mod breakpad;
mod code_view;
mod context;
mod crashpad;
mod exception;
mod flags;
mod guid;
mod handle;
mod header;
mod mac;
mod memory;
mod memory_info;
mod misc;
mod module;
mod stream_type;
mod system;
mod thread;
mod xstate;

pub use assertion::MINIDUMP_ASSERTION_INFO;
pub use breakpad::{BreakpadInfoValid, MINIDUMP_BREAKPAD_INFO};
pub use code_view::{CV_INFO_ELF, CV_INFO_PDB20, CV_INFO_PDB70, CvSignature};
pub use context::{
    CONTEXT_AMD64, CONTEXT_ARM, CONTEXT_ARM64, CONTEXT_ARM64_OLD, CONTEXT_X86, ContextFlagsCpu,
    FLOATING_SAVE_AREA_ARM, FLOATING_SAVE_AREA_X86,
};
pub use crashpad::{
    MINIDUMP_ANNOTATION, MINIDUMP_CRASHPAD_INFO, MINIDUMP_MODULE_CRASHPAD_INFO,
    MINIDUMP_MODULE_CRASHPAD_INFO_LINK, MINIDUMP_SIMPLE_STRING_DICTIONARY_ENTRY,
};
pub use exception::{MINIDUMP_EXCEPTION, MINIDUMP_EXCEPTION_STREAM};
pub use flags::{ArmElfHwCaps, MiscInfoFlags};
pub use guid::{GUID, uuid_of};
pub use handle::{
    MINIDUMP_HANDLE_DESCRIPTOR, MINIDUMP_HANDLE_DESCRIPTOR_2, MINIDUMP_HANDLE_OBJECT_INFORMATION,
    MINIDUMP_HANDLE_OBJECT_INFORMATION_TYPE,
};
pub use header::{
    MINIDUMP_DIRECTORY, MINIDUMP_HEADER, MINIDUMP_LOCATION_DESCRIPTOR, MINIDUMP_SIGNATURE,
    MINIDUMP_VERSION, RVA,
};
pub use mac::{
    MINIDUMP_MAC_BOOTARGS, MINIDUMP_MAC_CRASH_INFO, MINIDUMP_MAC_CRASH_INFO_RECORD,
    MINIDUMP_MAC_CRASH_INFO_RECORD_4, MINIDUMP_MAC_CRASH_INFO_RECORD_5,
    MINIDUMP_MAC_CRASH_INFO_RECORD_STRINGS, MINIDUMP_MAC_CRASH_INFO_RECORD_STRINGS_4,
    MINIDUMP_MAC_CRASH_INFO_RECORD_STRINGS_5,
};
pub use memory::{MINIDUMP_MEMORY_DESCRIPTOR, MINIDUMP_MEMORY_DESCRIPTOR64};
pub use memory_info::{MINIDUMP_MEMORY_INFO, MemoryProtection, MemoryState, MemoryType};
pub use misc::{
    MINIDUMP_MISC_INFO, MINIDUMP_MISC_INFO_2, MINIDUMP_MISC_INFO_3, MINIDUMP_MISC_INFO_4,
    MINIDUMP_MISC_INFO_5, SYSTEMTIME, TIME_ZONE_INFORMATION, XSTATE_CONFIG_FEATURE_MSC_INFO,
    XSTATE_FEATURE,
};
pub use module::{
    MINIDUMP_MODULE, MINIDUMP_UNLOADED_MODULE, VS_FFI_SIGNATURE, VS_FFI_STRUCVERSION,
    VS_FIXEDFILEINFO,
};
pub use stream_type::MINIDUMP_STREAM_TYPE;
pub use system::{ARMCpuInfo, MINIDUMP_SYSTEM_INFO, PlatformId, ProcessorArchitecture, X86CpuInfo};
pub use thread::{MINIDUMP_THREAD, MINIDUMP_THREAD_INFO, MINIDUMP_THREAD_NAME};
pub use xstate::{XstateFeatureIndex, XstateFeatures};
