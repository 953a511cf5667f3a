//! Laws of the directory, of the streams and of lists of regions, over the definitions that the
//! contracts of this crate name. Each is a call that does nothing; its contract says what holds.
//! Those of reading are in `reading`, those of the records of the format in `records`.
ghost use Rattle.std.specs.Prelude.{◌≡◌, ◌≢◌, ◌↔◌, ◌<◌, ◌^◌, ◌+◌, ℕ, ◌++◌, ◌∷◌, All, Contains, IsOk, IsOkAnd, IsSome};
ghost use Rattle.std.specs.Prelude.{List, length, map, Option, Some};
ghost use Rattle.std.specs.List.{last_or};
ghost use Rattle.std.specs.List.Sorted.{IsStrictlyIncreasing};
ghost use Rattle.std.specs.Result.{result_ok};
ghost use Rattle.minidump_format.specs.declared.format.header.MINIDUMP_DIRECTORY.{MINIDUMP_DIRECTORY};
ghost use Rattle.minidump_format.specs.Guid.{guid_text};
ghost use Rattle.minidump_format.specs.Header.{located};
ghost use Rattle.minidump_format.specs.declared.format.memory.MINIDUMP_MEMORY_DESCRIPTOR.{MINIDUMP_MEMORY_DESCRIPTOR};
ghost use Rattle.minidump_format.specs.declared.format.memory.MINIDUMP_MEMORY_DESCRIPTOR64.{MINIDUMP_MEMORY_DESCRIPTOR64};
ghost use Rattle.minidump_format.specs.declared.format.thread.MINIDUMP_THREAD_INFO.{MINIDUMP_THREAD_INFO};
ghost use Rattle.minidump_system.specs.Cpu.{cpu_name};
ghost use Rattle.minidump_system.specs.Os.{os_name};
ghost use Rattle.minidump_system.specs.Reads.{and_then};
ghost use Rattle.minidump_system.specs.StreamSpec.{IsSame};
ghost use Rattle.minidump_memory.specs.declared.linux_maps.MinidumpLinuxMaps.{MinidumpLinuxMaps};
ghost use Rattle.minidump_memory.specs.declared.memory_list.MinidumpMemoryListBase.{MinidumpMemoryListBase};
ghost use Rattle.minidump_memory.specs.declared.memory_info.MinidumpMemoryInfoList.{MinidumpMemoryInfoList};
ghost use Rattle.minidump_memory.specs.LinuxMaps.{map_info_of, maps_of};
ghost use Rattle.minidump_memory.specs.MapLine.{MapRegion};
ghost use Rattle.minidump_memory.specs.Memory.{MemoryRegion, memory_of};
ghost use Rattle.minidump_memory.specs.MemoryInfo.{MemoryInfo, info_of, infos_of};
ghost use Rattle.minidump_memory.specs.MemoryList.{regions_of};
ghost use Rattle.minidump_modules.specs.declared.module_list.MinidumpModuleList.{MinidumpModuleList};
ghost use Rattle.minidump_modules.specs.declared.unloaded_module.MinidumpUnloadedModule.{MinidumpUnloadedModule};
ghost use Rattle.minidump_modules.specs.CodeId.{text_of};
ghost use Rattle.minidump_modules.specs.DebugId.{breakpad_text, debug_id_text};
ghost use Rattle.minidump_modules.specs.Module.{ModuleValue, module_of};
ghost use Rattle.minidump_modules.specs.ModuleList.{modules_of};
ghost use Rattle.minidump_modules.specs.UnloadedModule.{UnloadedValue, unloaded_of};
ghost use Rattle.minidump_records.specs.declared.handles.data_stream.MinidumpHandleDataStream.{MinidumpHandleDataStream};
ghost use Rattle.minidump_records.specs.declared.mac_crash_info.MinidumpMacCrashInfo.{MinidumpMacCrashInfo};
ghost use Rattle.minidump_records.specs.declared.thread_info.MinidumpThreadInfoList.{MinidumpThreadInfoList};
ghost use Rattle.minidump_records.specs.Handles.{Handle, handle_of};
ghost use Rattle.minidump_records.specs.Handles.ObjectChain.{information_text};
ghost use Rattle.minidump_records.specs.MacCrashInfo.Record.{MacRecord, mac_record_of};
ghost use Rattle.minidump.specs.declared.directory.DecidingEntry.{DecidingEntry};
ghost use Rattle.minidump.specs.Directory.{deciding_entry, directory};
ghost use Rattle.minidump.specs.Dump.{Dump, raw_stream, bytes_of_span, stream_memory, stream_of, streams_of};
ghost use Rattle.minidump.specs.Dump.{dump_system};
ghost use Rattle.minidump.specs.Exceptions.{exceptions_in};
ghost use Rattle.minidump.specs.Memory.{TakesMemory, memories_of_dump};
ghost use Rattle.minidump.specs.Promise.{assertion_stream, breakpad_info_stream, crashpad_info_stream};
ghost use Rattle.minidump.specs.Promise.{exception_stream, handle_data_stream, linux_cpu_info_stream};
ghost use Rattle.minidump.specs.Promise.{linux_environ_stream, linux_lsb_release_stream, linux_maps_stream};
ghost use Rattle.minidump.specs.Promise.{linux_proc_limits_stream, linux_proc_status_stream, mac_bootargs_stream};
ghost use Rattle.minidump.specs.Promise.{mac_crash_info_stream, memory64_list_stream, memory_info_list_stream};
ghost use Rattle.minidump.specs.Promise.{memory_list_stream, misc_info_stream, module_list_stream, soft_errors_stream};
ghost use Rattle.minidump.specs.Promise.{stability_report_stream, system_info_stream, thread_info_list_stream};
ghost use Rattle.minidump.specs.Promise.{thread_list_stream, thread_names_stream, unloaded_module_list_stream};
ghost use Rattle.minidump.specs.Streams.{unimplemented_of, unknown_of};
ghost use Rattle.minidump.specs.Thread.{IsLastThread, Thread, thread_of};
ghost use Rattle.minidump.specs.declared.thread_list.MinidumpThreadList.{MinidumpThreadList};

use crate::directory::DecidingEntry;
use crate::exception::MinidumpException;
use crate::streams::{MinidumpUnimplementedStream, MinidumpUnknownStream};
use crate::thread_list::MinidumpThreadList;
pub use minidump_bytes::laws as reading;
pub use minidump_context::laws::{
    a_change_is_seen_under_all_names, any_name_makes_a_register_valid,
    clones_are_the_same as context_clones_are_the_same, contexts_are_as_defined,
    names_name_their_registers, nothing_else_is_changed, registers_are_at_their_offsets,
    sets_are_equal_by_their_names,
};
use minidump_format::Error;
use minidump_format::format::GUID;
pub use minidump_format::laws as records;
pub use minidump_index::laws::{
    a_kept_set, a_lookup, an_address_order, digits_lie_between_powers_of_two, one_address_order,
    one_kept_set, one_region_at_an_address, ranges_are_ordered, region_laws as laws_of_regions,
    regions_by_address, trees_in_level_order,
};
pub use minidump_memory::laws::{
    clones_are_the_same as memory_clones_are_the_same, information_compares_and_copies_exactly,
    information_depends_on_its_stream_alone, map_lines_are_the_grammar,
    maps_compare_by_what_their_lines_say, region_laws, unified_list_is_its_list,
};
use minidump_memory::{
    MinidumpLinuxMaps, MinidumpMemory64List, MinidumpMemoryInfoList, MinidumpMemoryList,
};
pub use minidump_modules::laws::{
    breakpad_texts_are_read_back, code_ids_compare_by_their_digits,
    modules_are_identified_as_defined, region_laws as module_laws, unloaded_laws,
};
use minidump_modules::{
    BreakpadFormat, CodeId, DebugId, MinidumpModuleList, MinidumpUnloadedModuleList,
};
pub use minidump_reason::laws::{
    codes_have_their_listed_names, errors_compare_and_copy_exactly,
    reasons_compare_and_copy_exactly, wide_codes_are_unlisted,
};
pub use minidump_records::laws::{
    an_annotation_need_not_be_the_same_as_itself, breakpad_info_clones_are_the_same,
    dictionaries_have_the_last_values, handle_clones_are_the_same, last_info_of_a_thread_is_found,
    last_name_of_a_thread_is_kept, linux_pairs_have_their_separators, object_chain_is_one,
    object_chain_is_the_longest, streams_depend_on_their_bytes_alone,
    values_are_bounded_by_the_file,
};
use minidump_records::{
    MinidumpAssertion, MinidumpBreakpadInfo, MinidumpCrashpadInfo, MinidumpHandleDataStream,
    MinidumpHandleObjectInformation, MinidumpLinuxCpuInfo, MinidumpLinuxEnviron,
    MinidumpLinuxLsbRelease, MinidumpLinuxProcLimits, MinidumpLinuxProcStatus, MinidumpMacBootargs,
    MinidumpMacCrashInfo, MinidumpSoftErrors, MinidumpThreadInfoList, MinidumpThreadNames,
};
use minidump_stability::StabilityReport;
pub use minidump_stability::laws::{
    fields_are_what_bytes_spell, process_states_compare_and_copy_exactly,
    report_depends_on_its_stream_alone, report_is_what_its_fields_mean,
    reports_compare_by_what_they_hold,
};
pub use minidump_system::laws::{
    dates_are_the_calendars, misc_info_clones_are_the_same, misc_info_depends_on_its_stream_alone,
};
use minidump_system::{Cpu, MinidumpMiscInfo, MinidumpStream, MinidumpSystemInfo, Os};
use std::fmt;

/// The last entry of a type decides it. The index of that entry is the number of entries before it.
pub fn last_entry_decides()
    ensures { (es later : List MINIDUMP_DIRECTORY) (e : MINIDUMP_DIRECTORY)
        → All (λ x. x.stream_type ≢ e.stream_type) later
        → deciding_entry e.stream_type (es ++ (e ∷ later))
        ≡ Some (record { index = length es; entry = e }) }
{}

/// The last entry of a type decides the bytes of the stream.
pub fn last_entry_decides_the_bytes()
    ensures { (d : Dump) (es later : List MINIDUMP_DIRECTORY) (e : MINIDUMP_DIRECTORY)
        → directory d.order d.file d.header ≡ es ++ (e ∷ later)
        → All (λ x. x.stream_type ≢ e.stream_type) later
        → raw_stream e.stream_type d ≡ bytes_of_span (located d.file e.location) }
{}

/// The last entry of a type decides what `get_stream` returns. `answer`: it is what the type makes
/// of the bytes at the entry's location, or `StreamReadFailure` if they are not all in the file.
/// `memory`: it may run out of memory exactly if the type may for these bytes. `none`: if no entry
/// has the type, it is `StreamNotFound`, and takes no memory.
pub fn last_entry_decides_the_stream<'a, S: MinidumpStream<'a>>()
    ensures answer { (d : Dump) (es later : List MINIDUMP_DIRECTORY) (e : MINIDUMP_DIRECTORY)
        → directory d.order d.file d.header ≡ es ++ (e ∷ later)
        → e.stream_type ≡ S.spec.stream_type
        → All (λ x. x.stream_type ≢ e.stream_type) later
        → stream_of S.spec d
        ≡ and_then (bytes_of_span (located d.file e.location))
        (λ bytes. S.spec.meaning d.order d.file bytes (dump_system d)) }
    ensures memory { (d : Dump) (es later : List MINIDUMP_DIRECTORY) (e : MINIDUMP_DIRECTORY)
        → directory d.order d.file d.header ≡ es ++ (e ∷ later)
        → e.stream_type ≡ S.spec.stream_type
        → All (λ x. x.stream_type ≢ e.stream_type) later
        → stream_memory S.spec d
        ↔ IsOkAnd (bytes_of_span (located d.file e.location))
        (λ bytes. S.spec.memory d.order d.file bytes (dump_system d)) }
    ensures none { (d : Dump) → All (λ x. x.stream_type ≢ S.spec.stream_type)
        (directory d.order d.file d.header)
        → (stream_of S.spec d ≡ Err Error.StreamNotFound) × ¬ (stream_memory S.spec d) }
{}

/// The listed streams ascend by type, so that each type is listed at most once.
pub fn listed_streams_ascend()
    ensures { (d : Dump) → IsStrictlyIncreasing (map (λ s. s.entry.stream_type) (streams_of d)) }
{}

/// The listed streams are exactly the deciding entries.
pub fn listed_streams_decide()
    ensures each { (d : Dump)
        → All (λ s. deciding_entry s.entry.stream_type (directory d.order d.file d.header) ≡ Some s)
        (streams_of d) }
    ensures all { (d : Dump) (stream_type : ℕ) (s : DecidingEntry) → stream_type < 2 ^ 32
        → deciding_entry stream_type (directory d.order d.file d.header) ≡ Some s
        → Contains (streams_of d) s }
{}

/// A directory in which the bytes of a stream, or a stream of type `S`, are found has an entry. The
/// same holds if reading that stream may run out of memory.
pub fn a_found_stream_has_an_entry<'a, S: MinidumpStream<'a>>()
    ensures bytes { (d : Dump) (stream_type : ℕ) → IsOk (raw_stream stream_type d)
        → 0 < d.header.stream_count }
    ensures found { (d : Dump) → IsOk (stream_of S.spec d) → 0 < d.header.stream_count }
    ensures memory { (d : Dump) → stream_memory S.spec d → 0 < d.header.stream_count }
{}

/// A directory of a dump whose memory is found, or where reading it may run out of memory, has an
/// entry.
pub fn found_memory_has_an_entry()
    ensures found { (d : Dump) → IsSome (memories_of_dump d) → 0 < d.header.stream_count }
    ensures memory { (d : Dump) → TakesMemory d → 0 < d.header.stream_count }
{}

/// Exactly one thread, or none, is the last of an id: it has the id, and no later thread has.
pub fn one_last_thread()
    ensures one { (id : ℕ) (threads : List Thread) (last other : Option Thread)
        → IsLastThread id threads last → IsLastThread id threads other → last ≡ other }
    ensures exists { (id : ℕ) (threads : List Thread) → (last : Option Thread)
        × IsLastThread id threads last }
{}

/// The last of a dump's exceptions is its exception stream. Where it has none, that stream is
/// `StreamNotFound`.
pub fn last_exception_is_the_stream()
    ensures { (d : Dump) → last_or (Some (Err Error.StreamNotFound)) (exceptions_in d)
        ≡ Some (stream_of exception_stream d) }
{}

/// The system information of a dump is the value of its stream, if that parses.
pub fn system_information_is_the_dumps()
    ensures { (d : Dump) → result_ok (stream_of system_info_stream d) ≡ dump_system d }
{}

/// Each type of stream that is read has the table that is promised of it: its number, its value,
/// its meaning, at most `n + 7` reads, or `(n + 8)² - 1` of handles and Crashpad's information, the
/// fewest reads, and where it may take memory.
pub fn streams_are_read_as_promised()
    ensures system_info { IsSame ⟦<MinidumpSystemInfo as MinidumpStream<'static>>⟧.spec system_info_stream }
    ensures misc_info { IsSame ⟦<MinidumpMiscInfo as MinidumpStream<'static>>⟧.spec misc_info_stream }
    ensures memory_list { IsSame ⟦<MinidumpMemoryList<'static> as MinidumpStream<'static>>⟧.spec memory_list_stream }
    ensures memory64_list { IsSame ⟦<MinidumpMemory64List<'static> as MinidumpStream<'static>>⟧.spec memory64_list_stream }
    ensures module_list { IsSame ⟦<MinidumpModuleList as MinidumpStream<'static>>⟧.spec module_list_stream }
    ensures unloaded_module_list { IsSame ⟦<MinidumpUnloadedModuleList as MinidumpStream<'static>>⟧.spec unloaded_module_list_stream }
    ensures thread_names { IsSame ⟦<MinidumpThreadNames as MinidumpStream<'static>>⟧.spec thread_names_stream }
    ensures thread_info_list { IsSame ⟦<MinidumpThreadInfoList as MinidumpStream<'static>>⟧.spec thread_info_list_stream }
    ensures crashpad_info { IsSame ⟦<MinidumpCrashpadInfo as MinidumpStream<'static>>⟧.spec crashpad_info_stream }
    ensures breakpad_info { IsSame ⟦<MinidumpBreakpadInfo as MinidumpStream<'static>>⟧.spec breakpad_info_stream }
    ensures assertion { IsSame ⟦<MinidumpAssertion as MinidumpStream<'static>>⟧.spec assertion_stream }
    ensures mac_bootargs { IsSame ⟦<MinidumpMacBootargs as MinidumpStream<'static>>⟧.spec mac_bootargs_stream }
    ensures soft_errors { IsSame ⟦<MinidumpSoftErrors<'static> as MinidumpStream<'static>>⟧.spec soft_errors_stream }
    ensures linux_cpu_info { IsSame ⟦<MinidumpLinuxCpuInfo<'static> as MinidumpStream<'static>>⟧.spec linux_cpu_info_stream }
    ensures linux_proc_status { IsSame ⟦<MinidumpLinuxProcStatus<'static> as MinidumpStream<'static>>⟧.spec linux_proc_status_stream }
    ensures linux_lsb_release { IsSame ⟦<MinidumpLinuxLsbRelease<'static> as MinidumpStream<'static>>⟧.spec linux_lsb_release_stream }
    ensures linux_environ { IsSame ⟦<MinidumpLinuxEnviron<'static> as MinidumpStream<'static>>⟧.spec linux_environ_stream }
    ensures linux_proc_limits { IsSame ⟦<MinidumpLinuxProcLimits<'static> as MinidumpStream<'static>>⟧.spec linux_proc_limits_stream }
    ensures handle_data { IsSame ⟦<MinidumpHandleDataStream as MinidumpStream<'static>>⟧.spec handle_data_stream }
    ensures thread_list { IsSame ⟦<MinidumpThreadList<'static> as MinidumpStream<'static>>⟧.spec thread_list_stream }
    ensures exception { IsSame ⟦<MinidumpException<'static> as MinidumpStream<'static>>⟧.spec exception_stream }
    ensures memory_info_list { IsSame ⟦<MinidumpMemoryInfoList<'static> as MinidumpStream<'static>>⟧.spec memory_info_list_stream }
    ensures linux_maps { IsSame ⟦<MinidumpLinuxMaps<'static> as MinidumpStream<'static>>⟧.spec linux_maps_stream }
    ensures mac_crash_info { IsSame ⟦<MinidumpMacCrashInfo as MinidumpStream<'static>>⟧.spec mac_crash_info_stream }
    ensures stability_report { IsSame ⟦<StabilityReport as MinidumpStream<'static>>⟧.spec stability_report_stream }
{}

/// What `Display` writes is the text of the definitions.
pub fn texts_are_as_defined()
    ensures guid { ⟦<GUID as fmt::Display>⟧.output ≡ (λ g. Some (guid_text g)) }
    ensures os { ⟦<Os as fmt::Display>⟧.output ≡ (λ os. Some (os_name os)) }
    ensures cpu { ⟦<Cpu as fmt::Display>⟧.output ≡ (λ cpu. Some (cpu_name cpu)) }
    ensures code_id { ⟦<CodeId as fmt::Display>⟧.output ≡ (λ id. Some (text_of id)) }
    ensures debug_id { ⟦<DebugId as fmt::Display>⟧.output ≡ (λ id. Some (debug_id_text id)) }
    ensures breakpad { ⟦<BreakpadFormat as fmt::Display>⟧.output ≡ (λ id. Some (breakpad_text id)) }
    ensures information { ⟦<MinidumpHandleObjectInformation as fmt::Display>⟧.output
        ≡ (λ information. Some (information_text information)) }
{}

/// Clones of a deciding entry, of an unknown stream and of an unimplemented one are equal values.
pub fn clones_are_the_same()
    ensures entry { (entry other : DecidingEntry) → ⟦<DecidingEntry as Clone>⟧.is_clone entry other
        → other ≡ entry }
    ensures unknown { (stream other : MinidumpUnknownStream)
        → ⟦<MinidumpUnknownStream as Clone>⟧.is_clone stream other
        → unknown_of other ≡ unknown_of stream }
    ensures unimplemented { (stream other : MinidumpUnimplementedStream)
        → ⟦<MinidumpUnimplementedStream as Clone>⟧.is_clone stream other
        → unimplemented_of other ≡ unimplemented_of stream }
{}

/// The value of a list's stream is the list of its entries' values. So a function `f` of each
/// value, such as one of its fields, can be applied to the entries instead, and a clause over the
/// value of a stream follows from one over the entries. `T` is the type of the function's results.
#[tactic(auto, using(crate::proofs::ListRules::entries))]
pub fn values_are_those_of_the_entries<T>()
    ensures handles { (list : MinidumpHandleDataStream) (f : Handle → T)
        → map f (handle_data_stream.value list) ≡ map (λ h. f (handle_of h)) list.handles.items }
    ensures mac_records { (list : MinidumpMacCrashInfo) (f : MacRecord → T)
        → map f (mac_crash_info_stream.value list).records ≡ map (λ r. f (mac_record_of r)) list.raw.items }
    ensures maps { (list : MinidumpLinuxMaps) (f : MapRegion → T)
        → map f (linux_maps_stream.value list) ≡ map (λ m. f (map_info_of m)) (maps_of list) }
    ensures memory { (list : MinidumpMemoryListBase MINIDUMP_MEMORY_DESCRIPTOR)
        (f : MemoryRegion MINIDUMP_MEMORY_DESCRIPTOR → T)
        → map f (memory_list_stream.value list).regions ≡ map (λ m. f (memory_of m)) (regions_of list) }
    ensures memory64 { (list : MinidumpMemoryListBase MINIDUMP_MEMORY_DESCRIPTOR64)
        (f : MemoryRegion MINIDUMP_MEMORY_DESCRIPTOR64 → T)
        → map f (memory64_list_stream.value list) ≡ map (λ m. f (memory_of m)) (regions_of list) }
    ensures memory_info { (list : MinidumpMemoryInfoList) (f : MemoryInfo → T)
        → map f (memory_info_list_stream.value list) ≡ map (λ i. f (info_of i)) (infos_of list) }
    ensures modules { (list : MinidumpModuleList) (f : ModuleValue → T)
        → map f (module_list_stream.value list).modules ≡ map (λ m. f (module_of m)) (modules_of list) }
    ensures threads { (list : MinidumpThreadList) (f : Thread → T)
        → map f (thread_list_stream.value list) ≡ map (λ t. f (thread_of t)) list.threads.items }
    ensures thread_infos { (list : MinidumpThreadInfoList) (f : MINIDUMP_THREAD_INFO → T)
        → map f (thread_info_list_stream.value list) ≡ map (λ i. f i.raw) list.thread_infos.items }
    ensures unloaded { (list : List MinidumpUnloadedModule) (f : UnloadedValue → T)
        → map f (unloaded_module_list_stream.value list) ≡ map (λ m. f (unloaded_of m)) list }
{}
