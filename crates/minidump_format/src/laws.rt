//! Laws of the records and constants: each is a call that does nothing, and says what holds.
ghost use Rattle.std.specs.Prelude.{◌≡◌, Some};
ghost use Rattle.minidump_bytes.specs.Exact.{IsExact};
ghost use Rattle.minidump_format.specs.Assertion.{assertion_info};
ghost use Rattle.minidump_format.specs.Breakpad.{breakpad_info, breakpad_info_valid};
ghost use Rattle.minidump_format.specs.CodeView.{signature_number, signature_of};
ghost use Rattle.minidump_format.specs.ContextAmd64.{context_amd64};
ghost use Rattle.minidump_format.specs.ContextArm.{arm_float_save, context_arm};
ghost use Rattle.minidump_format.specs.ContextArm64.{context_arm64, context_arm64_old};
ghost use Rattle.minidump_format.specs.ContextX86.{context_x86, x86_float_save};
ghost use Rattle.minidump_format.specs.Crashpad.{annotation, crashpad_info, dictionary_entry};
ghost use Rattle.minidump_format.specs.Crashpad.{module_crashpad_info, module_link};
ghost use Rattle.minidump_format.specs.ContextFlags.{context_flags};
ghost use Rattle.minidump_format.specs.Exception.{exception, exception_layout};
ghost use Rattle.minidump_format.specs.Flags.{arm_features, misc_info_flags};
ghost use Rattle.minidump_format.specs.Guid.{guid};
ghost use Rattle.minidump_format.specs.Handle.{handle_descriptor, handle_descriptor_2};
ghost use Rattle.minidump_format.specs.Handle.{information_type_number, information_type_of};
ghost use Rattle.minidump_format.specs.Handle.{object_information};
ghost use Rattle.minidump_format.specs.Header.{directory_entry, header, location};
ghost use Rattle.minidump_format.specs.Mac.{mac_boot_args, mac_crash_info, mac_record};
ghost use Rattle.minidump_format.specs.Mac.{mac_record_4, mac_record_5};
ghost use Rattle.minidump_format.specs.Memory.{memory_descriptor, memory_descriptor_64};
ghost use Rattle.minidump_format.specs.MemoryInfo.{memory_info, memory_protection, memory_state};
ghost use Rattle.minidump_format.specs.MemoryInfo.{memory_type};
ghost use Rattle.minidump_format.specs.Misc.{misc_info, misc_info_2, misc_info_3, misc_info_4};
ghost use Rattle.minidump_format.specs.Misc.{misc_info_5, system_time, time_zone, xstate_config};
ghost use Rattle.minidump_format.specs.Misc.{xstate_feature};
ghost use Rattle.minidump_format.specs.Module.{fixed_file_info, module_entry};
ghost use Rattle.minidump_format.specs.Module.{unloaded_module_entry};
ghost use Rattle.minidump_format.specs.StreamType.{number_of, stream_type_of};
ghost use Rattle.minidump_format.specs.System.{architecture_number, architecture_of, arm_cpu_info};
ghost use Rattle.minidump_format.specs.System.{platform_number, platform_of, system_info};
ghost use Rattle.minidump_format.specs.System.{x86_cpu_info};
ghost use Rattle.minidump_format.specs.Thread.{thread, thread_info, thread_name};
ghost use Rattle.minidump_format.specs.Xstate.{feature_of, index_of};

use crate::format::{
    ARMCpuInfo, ArmElfHwCaps, BreakpadInfoValid, CONTEXT_AMD64, CONTEXT_ARM, CONTEXT_ARM64,
    CONTEXT_ARM64_OLD, CONTEXT_X86, ContextFlagsCpu, CvSignature, FLOATING_SAVE_AREA_ARM,
    FLOATING_SAVE_AREA_X86, GUID, MINIDUMP_ANNOTATION, MINIDUMP_ASSERTION_INFO,
    MINIDUMP_BREAKPAD_INFO, MINIDUMP_CRASHPAD_INFO, MINIDUMP_DIRECTORY, MINIDUMP_EXCEPTION,
    MINIDUMP_EXCEPTION_STREAM, MINIDUMP_HANDLE_DESCRIPTOR, MINIDUMP_HANDLE_DESCRIPTOR_2,
    MINIDUMP_HANDLE_OBJECT_INFORMATION, MINIDUMP_HANDLE_OBJECT_INFORMATION_TYPE, MINIDUMP_HEADER,
    MINIDUMP_LOCATION_DESCRIPTOR, MINIDUMP_MAC_BOOTARGS, MINIDUMP_MAC_CRASH_INFO,
    MINIDUMP_MAC_CRASH_INFO_RECORD, MINIDUMP_MAC_CRASH_INFO_RECORD_4,
    MINIDUMP_MAC_CRASH_INFO_RECORD_5, MINIDUMP_MEMORY_DESCRIPTOR, MINIDUMP_MEMORY_DESCRIPTOR64,
    MINIDUMP_MEMORY_INFO, MINIDUMP_MISC_INFO, MINIDUMP_MISC_INFO_2, MINIDUMP_MISC_INFO_3,
    MINIDUMP_MISC_INFO_4, MINIDUMP_MISC_INFO_5, MINIDUMP_MODULE, MINIDUMP_MODULE_CRASHPAD_INFO,
    MINIDUMP_MODULE_CRASHPAD_INFO_LINK, MINIDUMP_SIGNATURE,
    MINIDUMP_SIMPLE_STRING_DICTIONARY_ENTRY, MINIDUMP_STREAM_TYPE, MINIDUMP_SYSTEM_INFO,
    MINIDUMP_THREAD, MINIDUMP_THREAD_INFO, MINIDUMP_THREAD_NAME, MINIDUMP_UNLOADED_MODULE,
    MINIDUMP_VERSION, MemoryProtection, MemoryState, MemoryType, MiscInfoFlags, PlatformId,
    ProcessorArchitecture, SYSTEMTIME, TIME_ZONE_INFORMATION, VS_FFI_SIGNATURE,
    VS_FFI_STRUCVERSION, VS_FIXEDFILEINFO, X86CpuInfo, XSTATE_CONFIG_FEATURE_MSC_INFO,
    XSTATE_FEATURE, XstateFeatureIndex,
};
use bitflags::Flags;
use minidump_bytes::Record;

/// The layout of each record is the one that the crate defines for it: its size, and the offset,
/// the width and the meaning of each field.
pub fn records_are_as_defined()
    ensures assertion_info { ⟦<MINIDUMP_ASSERTION_INFO as Record>⟧.layout ≡ assertion_info }
    ensures breakpad_info { ⟦<MINIDUMP_BREAKPAD_INFO as Record>⟧.layout ≡ breakpad_info }
    ensures context_amd64 { ⟦<CONTEXT_AMD64 as Record>⟧.layout ≡ context_amd64 }
    ensures arm_float_save { ⟦<FLOATING_SAVE_AREA_ARM as Record>⟧.layout ≡ arm_float_save }
    ensures context_arm { ⟦<CONTEXT_ARM as Record>⟧.layout ≡ context_arm }
    ensures context_arm64 { ⟦<CONTEXT_ARM64 as Record>⟧.layout ≡ context_arm64 }
    ensures context_arm64_old { ⟦<CONTEXT_ARM64_OLD as Record>⟧.layout ≡ context_arm64_old }
    ensures x86_float_save { ⟦<FLOATING_SAVE_AREA_X86 as Record>⟧.layout ≡ x86_float_save }
    ensures context_x86 { ⟦<CONTEXT_X86 as Record>⟧.layout ≡ context_x86 }
    ensures crashpad_info { ⟦<MINIDUMP_CRASHPAD_INFO as Record>⟧.layout ≡ crashpad_info }
    ensures module_link { ⟦<MINIDUMP_MODULE_CRASHPAD_INFO_LINK as Record>⟧.layout ≡ module_link }
    ensures module_crashpad_info { ⟦<MINIDUMP_MODULE_CRASHPAD_INFO as Record>⟧.layout
        ≡ module_crashpad_info }
    ensures dictionary_entry { ⟦<MINIDUMP_SIMPLE_STRING_DICTIONARY_ENTRY as Record>⟧.layout
        ≡ dictionary_entry }
    ensures annotation { ⟦<MINIDUMP_ANNOTATION as Record>⟧.layout ≡ annotation }
    ensures exception { ⟦<MINIDUMP_EXCEPTION as Record>⟧.layout ≡ exception }
    ensures exception_layout { ⟦<MINIDUMP_EXCEPTION_STREAM as Record>⟧.layout ≡ exception_layout }
    ensures guid { ⟦<GUID as Record>⟧.layout ≡ guid }
    ensures handle_descriptor { ⟦<MINIDUMP_HANDLE_DESCRIPTOR as Record>⟧.layout
        ≡ handle_descriptor }
    ensures handle_descriptor_2 { ⟦<MINIDUMP_HANDLE_DESCRIPTOR_2 as Record>⟧.layout
        ≡ handle_descriptor_2 }
    ensures object_information { ⟦<MINIDUMP_HANDLE_OBJECT_INFORMATION as Record>⟧.layout
        ≡ object_information }
    ensures header { ⟦<MINIDUMP_HEADER as Record>⟧.layout ≡ header }
    ensures location { ⟦<MINIDUMP_LOCATION_DESCRIPTOR as Record>⟧.layout ≡ location }
    ensures directory_entry { ⟦<MINIDUMP_DIRECTORY as Record>⟧.layout ≡ directory_entry }
    ensures mac_crash_info { ⟦<MINIDUMP_MAC_CRASH_INFO as Record>⟧.layout ≡ mac_crash_info }
    ensures mac_record { ⟦<MINIDUMP_MAC_CRASH_INFO_RECORD as Record>⟧.layout ≡ mac_record }
    ensures mac_record_4 { ⟦<MINIDUMP_MAC_CRASH_INFO_RECORD_4 as Record>⟧.layout ≡ mac_record_4 }
    ensures mac_record_5 { ⟦<MINIDUMP_MAC_CRASH_INFO_RECORD_5 as Record>⟧.layout ≡ mac_record_5 }
    ensures mac_boot_args { ⟦<MINIDUMP_MAC_BOOTARGS as Record>⟧.layout ≡ mac_boot_args }
    ensures memory_descriptor { ⟦<MINIDUMP_MEMORY_DESCRIPTOR as Record>⟧.layout
        ≡ memory_descriptor }
    ensures memory_descriptor_64 { ⟦<MINIDUMP_MEMORY_DESCRIPTOR64 as Record>⟧.layout
        ≡ memory_descriptor_64 }
    ensures memory_info { ⟦<MINIDUMP_MEMORY_INFO as Record>⟧.layout ≡ memory_info }
    ensures misc_info { ⟦<MINIDUMP_MISC_INFO as Record>⟧.layout ≡ misc_info }
    ensures misc_info_2 { ⟦<MINIDUMP_MISC_INFO_2 as Record>⟧.layout ≡ misc_info_2 }
    ensures system_time { ⟦<SYSTEMTIME as Record>⟧.layout ≡ system_time }
    ensures time_zone { ⟦<TIME_ZONE_INFORMATION as Record>⟧.layout ≡ time_zone }
    ensures misc_info_3 { ⟦<MINIDUMP_MISC_INFO_3 as Record>⟧.layout ≡ misc_info_3 }
    ensures misc_info_4 { ⟦<MINIDUMP_MISC_INFO_4 as Record>⟧.layout ≡ misc_info_4 }
    ensures xstate_feature { ⟦<XSTATE_FEATURE as Record>⟧.layout ≡ xstate_feature }
    ensures xstate_config { ⟦<XSTATE_CONFIG_FEATURE_MSC_INFO as Record>⟧.layout ≡ xstate_config }
    ensures misc_info_5 { ⟦<MINIDUMP_MISC_INFO_5 as Record>⟧.layout ≡ misc_info_5 }
    ensures fixed_file_info { ⟦<VS_FIXEDFILEINFO as Record>⟧.layout ≡ fixed_file_info }
    ensures module_entry { ⟦<MINIDUMP_MODULE as Record>⟧.layout ≡ module_entry }
    ensures unloaded_module_entry { ⟦<MINIDUMP_UNLOADED_MODULE as Record>⟧.layout
        ≡ unloaded_module_entry }
    ensures system_info { ⟦<MINIDUMP_SYSTEM_INFO as Record>⟧.layout ≡ system_info }
    ensures x86_cpu_info { ⟦<X86CpuInfo as Record>⟧.layout ≡ x86_cpu_info }
    ensures arm_cpu_info { ⟦<ARMCpuInfo as Record>⟧.layout ≡ arm_cpu_info }
    ensures thread { ⟦<MINIDUMP_THREAD as Record>⟧.layout ≡ thread }
    ensures thread_name { ⟦<MINIDUMP_THREAD_NAME as Record>⟧.layout ≡ thread_name }
    ensures thread_info { ⟦<MINIDUMP_THREAD_INFO as Record>⟧.layout ≡ thread_info }
{}

/// The names and the bits of each set of flags are those that the crate defines for it.
pub fn flags_are_as_defined()
    ensures misc_info { ⟦<MiscInfoFlags as Flags>⟧.table ≡ misc_info_flags }
    ensures arm_features { ⟦<ArmElfHwCaps as Flags>⟧.table ≡ arm_features }
    ensures breakpad_info { ⟦<BreakpadInfoValid as Flags>⟧.table ≡ breakpad_info_valid }
    ensures contexts { ⟦<ContextFlagsCpu as Flags>⟧.table ≡ context_flags }
    ensures protection { ⟦<MemoryProtection as Flags>⟧.table ≡ memory_protection }
    ensures state { ⟦<MemoryState as Flags>⟧.table ≡ memory_state }
    ensures kind { ⟦<MemoryType as Flags>⟧.table ≡ memory_type }
{}

/// Of the records that hold other records or long arrays, `==` holds of equal values alone, and
/// clones are equal values. The other types are [`Exact`](minidump_bytes::Exact).
#[tactic(auto, using(crate::proofs::Equality::zone_same, crate::proofs::Equality::config_same, crate::proofs::Equality::misc_3_same, crate::proofs::Equality::misc_4_same, crate::proofs::Equality::misc_5_same, crate::proofs::Equality::image_same, crate::proofs::Equality::mac_same))]
pub fn large_records_are_exact()
    ensures time_zone { IsExact ⟦<TIME_ZONE_INFORMATION as PartialEq>⟧.eq
        ⟦<TIME_ZONE_INFORMATION as Clone>⟧.is_clone }
    ensures xstate { IsExact ⟦<XSTATE_CONFIG_FEATURE_MSC_INFO as PartialEq>⟧.eq
        ⟦<XSTATE_CONFIG_FEATURE_MSC_INFO as Clone>⟧.is_clone }
    ensures misc_info_3 { IsExact ⟦<MINIDUMP_MISC_INFO_3 as PartialEq>⟧.eq
        ⟦<MINIDUMP_MISC_INFO_3 as Clone>⟧.is_clone }
    ensures misc_info_4 { IsExact ⟦<MINIDUMP_MISC_INFO_4 as PartialEq>⟧.eq
        ⟦<MINIDUMP_MISC_INFO_4 as Clone>⟧.is_clone }
    ensures misc_info_5 { IsExact ⟦<MINIDUMP_MISC_INFO_5 as PartialEq>⟧.eq
        ⟦<MINIDUMP_MISC_INFO_5 as Clone>⟧.is_clone }
    ensures module { IsExact ⟦<MINIDUMP_MODULE as PartialEq>⟧.eq
        ⟦<MINIDUMP_MODULE as Clone>⟧.is_clone }
    ensures mac_crash_info { IsExact ⟦<MINIDUMP_MAC_CRASH_INFO as PartialEq>⟧.eq
        ⟦<MINIDUMP_MAC_CRASH_INFO as Clone>⟧.is_clone }
{}

/// Clones of contexts are equal values. Contexts have no `==`.
pub fn contexts_are_copied()
    ensures x86 { (x y : CONTEXT_X86) → ⟦<CONTEXT_X86 as Clone>⟧.is_clone x y → y ≡ x }
    ensures x86_float_save { (x y : FLOATING_SAVE_AREA_X86)
        → ⟦<FLOATING_SAVE_AREA_X86 as Clone>⟧.is_clone x y → y ≡ x }
    ensures amd64 { (x y : CONTEXT_AMD64) → ⟦<CONTEXT_AMD64 as Clone>⟧.is_clone x y → y ≡ x }
    ensures arm { (x y : CONTEXT_ARM) → ⟦<CONTEXT_ARM as Clone>⟧.is_clone x y → y ≡ x }
    ensures arm_float_save { (x y : FLOATING_SAVE_AREA_ARM)
        → ⟦<FLOATING_SAVE_AREA_ARM as Clone>⟧.is_clone x y → y ≡ x }
    ensures arm64 { (x y : CONTEXT_ARM64) → ⟦<CONTEXT_ARM64 as Clone>⟧.is_clone x y → y ≡ x }
    ensures arm64_old { (x y : CONTEXT_ARM64_OLD) → ⟦<CONTEXT_ARM64_OLD as Clone>⟧.is_clone x y
        → y ≡ x }
{}

/// Each type of stream, platform, architecture, feature of the extended state, CodeView signature
/// and type of information is the one that has its number.
pub fn numbers_name_their_values()
    ensures stream_type { (t : MINIDUMP_STREAM_TYPE) → stream_type_of (number_of t) ≡ Some t }
    ensures platform { (p : PlatformId) → platform_of (platform_number p) ≡ Some p }
    ensures architecture { (a : ProcessorArchitecture)
        → architecture_of (architecture_number a) ≡ Some a }
    ensures feature { (f : XstateFeatureIndex) → feature_of (index_of f) ≡ Some f }
    ensures signature { (s : CvSignature) → signature_of (signature_number s) ≡ Some s }
    ensures information_type { (t : MINIDUMP_HANDLE_OBJECT_INFORMATION_TYPE)
        → information_type_of (information_type_number t) ≡ Some t }
{}

/// The constants of a file's version are Microsoft's `VS_FFI_SIGNATURE` and `VS_FFI_STRUCVERSION`.
pub fn file_info_numbers()
    ensures signature { VS_FFI_SIGNATURE ≡ 0xfeef04bd }
    ensures version { VS_FFI_STRUCVERSION ≡ 0x10000 }
{}

/// The constants of types of annotations are those of Crashpad's `Annotation`.
pub fn annotation_numbers()
    ensures invalid { MINIDUMP_ANNOTATION.TYPE_INVALID ≡ 0 }
    ensures text { MINIDUMP_ANNOTATION.TYPE_STRING ≡ 1 }
    ensures user_defined { MINIDUMP_ANNOTATION.TYPE_USER_DEFINED ≡ 0x8000 }
{}

/// The constants of a header are Microsoft's `MINIDUMP_SIGNATURE` and `MINIDUMP_VERSION`.
pub fn header_numbers()
    ensures signature { MINIDUMP_SIGNATURE ≡ 0x504d444d }
    ensures version { MINIDUMP_VERSION ≡ 0xa793 }
{}
