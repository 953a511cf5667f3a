//! What a caller sees of a stream is its value: a function for each type of stream with private
//! fields, which gives the value by public calls alone.
//!
//! # What is proved
//!
//! The answers of the public calls, with the public fields, are the value of the table that
//! `minidump/specs/Promise.antt` names for the type. A list is its `iter`, with a function for an
//! item that has private fields; the names of threads are those that `get_name` returns by the ids.
//! The proofs know only what the contracts of public calls say. If a table's value had a component
//! that no public call returns, they would fail.
//!
//! Every other type of stream has public fields alone.
ghost use Rattle.std.specs.Prelude.{◌≡◌, map, string_bytes};
ghost use Rattle.std.specs.Option.{option_copied, option_map};
ghost use Rattle.std.specs.Slice.Iter.{iter_rest};
ghost use Rattle.minidump.specs.Below.MemoryLists.LinuxMaps.{map_info_of, path_of};
ghost use Rattle.minidump.specs.Below.MemoryLists.Memory.{memory_of};
ghost use Rattle.minidump.specs.Below.MemoryLists.MemoryInfo.{info_of};
ghost use Rattle.minidump.specs.Below.Modules.CodeView.{view_of};
ghost use Rattle.minidump.specs.Below.Modules.Module.{module_of};
ghost use Rattle.minidump.specs.Below.Modules.UnloadedModule.{unloaded_of};
ghost use Rattle.minidump.specs.Below.Records.Record.{mac_record_of};
ghost use Rattle.minidump.specs.Promise.{exception_stream, linux_cpu_info_stream};
ghost use Rattle.minidump.specs.Promise.{linux_environ_stream, linux_lsb_release_stream};
ghost use Rattle.minidump.specs.Promise.{linux_maps_stream, linux_proc_limits_stream};
ghost use Rattle.minidump.specs.Promise.{linux_proc_status_stream, mac_crash_info_stream};
ghost use Rattle.minidump.specs.Promise.{memory64_list_stream};
ghost use Rattle.minidump.specs.Promise.{memory_info_list_stream, memory_list_stream};
ghost use Rattle.minidump.specs.Promise.{module_list_stream, soft_errors_stream};
ghost use Rattle.minidump.specs.Promise.{system_info_stream, thread_list_stream};
ghost use Rattle.minidump.specs.Promise.{thread_names_stream, unloaded_module_list_stream};
ghost use Rattle.minidump.specs.Below.Records.ThreadNames.{name_of_thread};
ghost use Rattle.minidump.specs.Thread.{thread_of};

use bitflags::Flags;
use minidump::system_info::Os;
use minidump::{
    Endian, MinidumpException, MinidumpLinuxCpuInfo, MinidumpLinuxEnviron, MinidumpLinuxLsbRelease,
    MinidumpLinuxMapInfo, MinidumpLinuxMaps, MinidumpLinuxProcLimits, MinidumpLinuxProcStatus,
    MinidumpMacCrashInfo, MinidumpMemory, MinidumpMemory64, MinidumpMemory64List,
    MinidumpMemoryInfo, MinidumpMemoryInfoList, MinidumpMemoryList, MinidumpModule,
    MinidumpModuleList, MinidumpSoftErrors, MinidumpSystemInfo, MinidumpThread, MinidumpThreadList,
    MinidumpThreadNames, MinidumpUnloadedModule, MinidumpUnloadedModuleList,
};
use std::slice;

/// Returns the service pack and the processor's description of the system information.
pub fn system_info(info: &MinidumpSystemInfo) -> (Option<&str>, Option<&str>)
    ensures { system_info_stream.value info.now ≡ record {
      raw = info.now.raw;
      os = info.now.os;
      cpu = info.now.cpu;
      csd_version = option_copied result.0;
      cpu_info = option_copied result.1;
    } }
{
    (info.csd_version(), info.cpu_info())
}

/// Returns the regions of a memory list, and how many of its descriptors name bytes outside the
/// file.
pub fn memory_list<'l, 'a>(
    list: &'l MinidumpMemoryList<'a>,
) -> (slice::Iter<'l, MinidumpMemory<'a>>, u64)
    ensures { memory_list_stream.value list.now ≡ record {
      regions = map memory_of (iter_rest result.0);
      outside = result.1;
    } }
{
    (list.iter(), list.regions_outside())
}

/// Returns the regions of a 64-bit memory list.
pub fn memory64_list<'l, 'a>(
    list: &'l MinidumpMemory64List<'a>,
) -> slice::Iter<'l, MinidumpMemory64<'a>>
    ensures { map memory_of (iter_rest result) ≡ memory64_list_stream.value list.now }
{
    list.iter()
}

/// Returns the regions of the memory information.
pub fn memory_info_list<'l, 'a>(
    list: &'l MinidumpMemoryInfoList<'a>,
) -> slice::Iter<'l, MinidumpMemoryInfo<'a>>
    ensures { map info_of (iter_rest result) ≡ memory_info_list_stream.value list.now }
{
    list.iter()
}

/// Returns the bits of a region of the memory information: of its protection when it was allocated,
/// its state, its protection and its type.
pub fn memory_info(info: &MinidumpMemoryInfo<'_>) -> (u32, u32, u32, u32)
    ensures { info_of info.now ≡ record {
      raw = info.now.raw;
      allocation_protection = result.0;
      state = result.1;
      protection = result.2;
      ty = result.3;
    } }
{
    (
        info.allocation_protection.bits(),
        info.state.bits(),
        info.protection.bits(),
        info.ty.bits(),
    )
}

/// Returns the regions of the maps of a Linux process.
pub fn linux_maps<'l, 'a>(
    list: &'l MinidumpLinuxMaps<'a>,
) -> slice::Iter<'l, MinidumpLinuxMapInfo<'a>>
    ensures { map map_info_of (iter_rest result) ≡ linux_maps_stream.value list.now }
{
    list.iter()
}

/// Returns the bits of the permissions of a region of the maps.
pub fn linux_map(region: &MinidumpLinuxMapInfo<'_>) -> u8
    ensures { map_info_of region.now ≡ record {
      address = region.now.map.address;
      perms = result;
      offset = region.now.map.offset;
      dev = region.now.map.dev;
      inode = region.now.map.inode;
      pathname = path_of region.now.map.pathname;
    } }
{
    region.map.perms.bits()
}

/// Returns the modules of a module list, and how many entries of its stream have no addresses.
pub fn module_list(list: &MinidumpModuleList) -> (slice::Iter<'_, MinidumpModule>, u64)
    ensures { module_list_stream.value list.now ≡ record {
      modules = map module_of (iter_rest result.0);
      without_addresses = result.1;
    } }
{
    (list.iter(), list.entries_without_addresses())
}

/// Returns the byte order and the operating system of a module's dump.
pub fn module(loaded: &MinidumpModule) -> (Endian, Option<Os>)
    ensures { module_of loaded.now ≡ record {
      raw = loaded.now.raw;
      name = string_bytes loaded.now.name;
      view = option_map view_of loaded.now.codeview_info;
      order = result.0;
      os = result.1;
    } }
{
    (loaded.endian(), loaded.os())
}

/// Returns the modules of an unloaded module list.
pub fn unloaded_module_list(
    list: &MinidumpUnloadedModuleList,
) -> slice::Iter<'_, MinidumpUnloadedModule>
    ensures { map unloaded_of (iter_rest result) ≡ unloaded_module_list_stream.value list.now }
{
    list.iter()
}

/// Returns the threads of a thread list.
pub fn thread_list<'l, 'a>(list: &'l MinidumpThreadList<'a>) -> slice::Iter<'l, MinidumpThread<'a>>
    ensures { map thread_of (iter_rest result) ≡ thread_list_stream.value list.now }
{
    list.threads.iter()
}

/// Returns the bytes of a thread's context, its own stack and the byte order of its dump.
pub fn thread<'t, 'a>(
    thread: &'t MinidumpThread<'a>,
) -> (Option<&'a [u8]>, Option<&'t MinidumpMemory<'a>>, Endian)
    ensures { thread_of thread.now ≡ record {
      raw = thread.now.raw;
      context = option_copied result.0;
      stack = option_map memory_of (option_copied result.1);
      order = result.2;
    } }
{
    (thread.context_bytes(), thread.own_stack(), thread.endian())
}

/// Returns the bytes of the context at an exception, and the byte order of its dump.
pub fn exception<'a>(exception: &MinidumpException<'a>) -> (Option<&'a [u8]>, Endian)
    ensures { exception_stream.value exception.now ≡ record {
      raw = exception.now.raw;
      thread_id = exception.now.thread_id;
      context = option_copied result.0;
      order = result.1;
    } }
{
    (exception.context_bytes(), exception.endian())
}

/// Returns the name of a thread.
pub fn thread_name(names: &MinidumpThreadNames, thread_id: u32) -> Option<&str>
    ensures { option_copied result ≡ name_of_thread
        (thread_names_stream.value names.now).names thread_id }
{
    names.get_name(thread_id)
}

/// Returns how many entries of a list of names name a text where none is.
pub fn unreadable_names(names: &MinidumpThreadNames) -> u64
    ensures { result ≡ (thread_names_stream.value names.now).unreadable }
{
    names.unreadable_names()
}

/// Returns how many records macOS's crash information counts that can't be read.
pub fn unreadable_records(info: &MinidumpMacCrashInfo) -> u64
    ensures { mac_crash_info_stream.value info.now ≡ record {
      records = map mac_record_of info.now.raw.items;
      unreadable = result;
    } }
{
    info.unreadable_records()
}

/// Returns the text of the soft errors.
pub fn soft_errors<'a>(errors: &MinidumpSoftErrors<'a>) -> &'a str
    ensures { result.now ≡ soft_errors_stream.value errors.now }
{
    errors.as_ref()
}

/// Returns the text of `/proc/cpuinfo`.
pub fn linux_cpu_info<'a>(text: &MinidumpLinuxCpuInfo<'a>) -> &'a [u8]
    ensures { result.now ≡ linux_cpu_info_stream.value text.now }
{
    text.raw_bytes()
}

/// Returns the text of `/proc/PID/status`.
pub fn linux_proc_status<'a>(text: &MinidumpLinuxProcStatus<'a>) -> &'a [u8]
    ensures { result.now ≡ linux_proc_status_stream.value text.now }
{
    text.raw_bytes()
}

/// Returns the text of `/etc/lsb-release`.
pub fn linux_lsb_release<'a>(text: &MinidumpLinuxLsbRelease<'a>) -> &'a [u8]
    ensures { result.now ≡ linux_lsb_release_stream.value text.now }
{
    text.raw_bytes()
}

/// Returns the text of `/proc/PID/environ`.
pub fn linux_environ<'a>(text: &MinidumpLinuxEnviron<'a>) -> &'a [u8]
    ensures { result.now ≡ linux_environ_stream.value text.now }
{
    text.raw_bytes()
}

/// Returns the text of `/proc/PID/limits`.
pub fn linux_proc_limits<'a>(text: &MinidumpLinuxProcLimits<'a>) -> &'a [u8]
    ensures { result.now ≡ linux_proc_limits_stream.value text.now }
{
    text.raw_bytes()
}
