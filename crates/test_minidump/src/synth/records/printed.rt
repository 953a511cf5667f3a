// The records of which each field is printed: dumps of `samples/` have these, with a value of its own
// for each.
use super::is_written_back;
use minidump_format::format::{
    ARMCpuInfo, GUID, MINIDUMP_ASSERTION_INFO, MINIDUMP_BREAKPAD_INFO, MINIDUMP_CRASHPAD_INFO,
    MINIDUMP_DIRECTORY, MINIDUMP_HANDLE_DESCRIPTOR, MINIDUMP_HANDLE_OBJECT_INFORMATION,
    MINIDUMP_HEADER, MINIDUMP_LOCATION_DESCRIPTOR, MINIDUMP_MAC_BOOTARGS, MINIDUMP_MAC_CRASH_INFO,
    MINIDUMP_MAC_CRASH_INFO_RECORD, MINIDUMP_MAC_CRASH_INFO_RECORD_4,
    MINIDUMP_MAC_CRASH_INFO_RECORD_5, MINIDUMP_MEMORY_DESCRIPTOR, MINIDUMP_MEMORY_DESCRIPTOR64,
    MINIDUMP_MISC_INFO, MINIDUMP_MISC_INFO_2, MINIDUMP_MISC_INFO_3, MINIDUMP_MISC_INFO_4,
    MINIDUMP_MISC_INFO_5, MINIDUMP_MODULE_CRASHPAD_INFO, MINIDUMP_MODULE_CRASHPAD_INFO_LINK,
    MINIDUMP_SIMPLE_STRING_DICTIONARY_ENTRY, MINIDUMP_THREAD, MINIDUMP_THREAD_INFO,
    MINIDUMP_THREAD_NAME, MINIDUMP_UNLOADED_MODULE, TIME_ZONE_INFORMATION, VS_FIXEDFILEINFO,
    XSTATE_FEATURE,
};
use std::alloc::Global;

fn of_the_system_are_written_back(alloc: Global) -> bool {
    let found = [
        is_written_back::<MINIDUMP_LOCATION_DESCRIPTOR>(alloc),
        is_written_back::<MINIDUMP_HEADER>(alloc),
        is_written_back::<MINIDUMP_DIRECTORY>(alloc),
        is_written_back::<MINIDUMP_MEMORY_DESCRIPTOR>(alloc),
        is_written_back::<MINIDUMP_MEMORY_DESCRIPTOR64>(alloc),
        is_written_back::<ARMCpuInfo>(alloc),
        is_written_back::<MINIDUMP_MISC_INFO>(alloc),
        is_written_back::<MINIDUMP_MISC_INFO_2>(alloc),
        is_written_back::<TIME_ZONE_INFORMATION>(alloc),
        is_written_back::<MINIDUMP_MISC_INFO_3>(alloc),
        is_written_back::<MINIDUMP_MISC_INFO_4>(alloc),
        is_written_back::<XSTATE_FEATURE>(alloc),
        is_written_back::<MINIDUMP_MISC_INFO_5>(alloc),
    ];
    found == [true; 13]
}

fn of_the_process_are_written_back(alloc: Global) -> bool {
    let found = [
        is_written_back::<GUID>(alloc),
        is_written_back::<VS_FIXEDFILEINFO>(alloc),
        is_written_back::<MINIDUMP_UNLOADED_MODULE>(alloc),
        is_written_back::<MINIDUMP_THREAD>(alloc),
        is_written_back::<MINIDUMP_THREAD_NAME>(alloc),
        is_written_back::<MINIDUMP_THREAD_INFO>(alloc),
        is_written_back::<MINIDUMP_HANDLE_DESCRIPTOR>(alloc),
        is_written_back::<MINIDUMP_HANDLE_OBJECT_INFORMATION>(alloc),
    ];
    found == [true; 8]
}

fn of_extensions_are_written_back(alloc: Global) -> bool {
    let found = [
        is_written_back::<MINIDUMP_ASSERTION_INFO>(alloc),
        is_written_back::<MINIDUMP_BREAKPAD_INFO>(alloc),
        is_written_back::<MINIDUMP_CRASHPAD_INFO>(alloc),
        is_written_back::<MINIDUMP_MODULE_CRASHPAD_INFO_LINK>(alloc),
        is_written_back::<MINIDUMP_MODULE_CRASHPAD_INFO>(alloc),
        is_written_back::<MINIDUMP_SIMPLE_STRING_DICTIONARY_ENTRY>(alloc),
        is_written_back::<MINIDUMP_MAC_CRASH_INFO>(alloc),
        is_written_back::<MINIDUMP_MAC_CRASH_INFO_RECORD>(alloc),
        is_written_back::<MINIDUMP_MAC_CRASH_INFO_RECORD_4>(alloc),
        is_written_back::<MINIDUMP_MAC_CRASH_INFO_RECORD_5>(alloc),
        is_written_back::<MINIDUMP_MAC_BOOTARGS>(alloc),
    ];
    found == [true; 11]
}

#[test]
fn records_are_written_back(rt: HostRuntime) {
    let alloc = rt.alloc();
    let found = [
        of_the_system_are_written_back(alloc),
        of_the_process_are_written_back(alloc),
        of_extensions_are_written_back(alloc),
    ];
    assert!(rt; found == [true; 3]);
}
