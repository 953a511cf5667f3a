use crate::{Encode, SynthMinidump, zeroed};
use minidump_bytes::Endian;
use minidump_format::format::{
    CONTEXT_AMD64, GUID, MINIDUMP_ANNOTATION, MINIDUMP_ASSERTION_INFO, MINIDUMP_BREAKPAD_INFO,
    MINIDUMP_CRASHPAD_INFO, MINIDUMP_EXCEPTION, MINIDUMP_EXCEPTION_STREAM,
    MINIDUMP_HANDLE_DESCRIPTOR_2, MINIDUMP_HANDLE_OBJECT_INFORMATION, MINIDUMP_LOCATION_DESCRIPTOR,
    MINIDUMP_MAC_BOOTARGS, MINIDUMP_MAC_CRASH_INFO, MINIDUMP_MAC_CRASH_INFO_RECORD_5,
    MINIDUMP_MEMORY_INFO, MINIDUMP_MISC_INFO_5, MINIDUMP_MODULE, MINIDUMP_MODULE_CRASHPAD_INFO,
    MINIDUMP_MODULE_CRASHPAD_INFO_LINK, MINIDUMP_SIMPLE_STRING_DICTIONARY_ENTRY,
    MINIDUMP_STREAM_TYPE as Type, MINIDUMP_SYSTEM_INFO, MINIDUMP_THREAD, MINIDUMP_THREAD_INFO,
    MINIDUMP_THREAD_NAME, MINIDUMP_UNLOADED_MODULE, RVA, VS_FIXEDFILEINFO,
};
use std::alloc::{AllocError, Global};

// The number of the streams, and room for their bytes.
const COUNT: u32 = 25;

const ROOM: u32 = 4096;

/// Returns a dump with a stream of each type that is read. Each has entries, and what it names is
/// there. The directory is first, then come the streams, then what they name.
pub fn every_stream(alloc: Global, endian: Endian) -> Result<Vec<u8>, AllocError> {
    let mut dump = SynthMinidump::with_streams_first(alloc, endian, COUNT, ROOM);
    add_system(&mut dump);
    add_memory(&mut dump);
    add_threads(&mut dump);
    add_modules(&mut dump);
    add_handles(&mut dump);
    add_crashpad(&mut dump);
    add_breakpad(&mut dump);
    add_mac(&mut dump);
    add_texts(&mut dump);
    dump.finish()
}

// Adds `pieces` pieces of information on an object, each with the RVA of the next one, and the last
// with that of the first, which is returned.
fn add_circle(dump: &mut SynthMinidump, pieces: u32) -> RVA {
    let first = dump.rva();
    for piece in 1..pieces {
        add_piece(dump, first.saturating_add(piece.saturating_mul(12)));
    }
    add_piece(dump, first);
    first
}

fn add_piece(dump: &mut SynthMinidump, next_info_rva: RVA) {
    dump.add(&MINIDUMP_HANDLE_OBJECT_INFORMATION {
        next_info_rva,
        info_type: 1,
        size_of_info: 12,
    });
}

// Windows 10 on an x86-64 processor.
fn add_system(dump: &mut SynthMinidump) {
    let csd_version_rva = dump.add_text16("Service Pack 1");
    let system = MINIDUMP_SYSTEM_INFO {
        processor_architecture: 9,
        number_of_processors: 4,
        major_version: 10,
        build_number: 19041,
        platform_id: 2,
        csd_version_rva,
        ..zeroed()
    };
    dump.add_stream(Type::SystemInfoStream as u32, &system);
    let mut misc = MINIDUMP_MISC_INFO_5 {
        size_of_info: 1364,
        flags1: 0x3f7,
        process_id: 0x1234,
        process_create_time: 0x45d3_5f73,
        time_zone_id: 1,
        ..zeroed()
    };
    misc.time_zone.standard_name[0] = 0x55;
    misc.build_string[0] = 0x62;
    misc.dbg_bld_str[0] = 0x64;
    misc.xstate_data.enabled_features = 3;
    dump.add_stream(Type::MiscInfoStream as u32, &misc);
}

// Two regions in each list of memory. That at 0x2000 has the environment block of a thread.
fn add_memory(dump: &mut SynthMinidump) {
    let regions: [(u64, &[u8]); 2] = [(0x1000, &[1; 16]), (0x2000, &[2; 0x70])];
    dump.add_memory_list(&regions);
    dump.add_memory64_list(&regions);
    let info = MINIDUMP_MEMORY_INFO {
        base_address: 0x1000,
        allocation_base: 0x1000,
        allocation_protection: 4,
        region_size: 0x1000,
        state: 0x1000,
        protection: 4,
        _type: 0x2_0000,
        ..zeroed()
    };
    let next = MINIDUMP_MEMORY_INFO {
        base_address: 0x2000,
        ..info
    };
    let mut list = dump.section();
    list.extended_list(16, &[info, next]);
    dump.add_stream(Type::MemoryInfoListStream as u32, &list);
}

// A thread that has crashed, with its stack, and one without a context.
fn add_threads(dump: &mut SynthMinidump) {
    let thread_context = dump.add_located(&CONTEXT_AMD64 {
        context_flags: 0x10_001f,
        rsp: 0x3000,
        rip: 0x1_0000_1000,
        ..zeroed()
    });
    let first = MINIDUMP_THREAD {
        thread_id: 0x1234,
        teb: 0x2000,
        stack: dump.add_memory(0x3000, &[3; 16]),
        thread_context,
        ..zeroed()
    };
    let second = MINIDUMP_THREAD {
        thread_id: 7,
        ..zeroed()
    };
    dump.add_stream(
        Type::ThreadListStream as u32,
        dump.section().list(&[first, second]),
    );
    let crash = MINIDUMP_EXCEPTION_STREAM {
        thread_id: 0x1234,
        exception_record: MINIDUMP_EXCEPTION {
            exception_code: 0xc000_0005,
            exception_address: 0x1_0000_1000,
            number_parameters: 2,
            ..zeroed()
        },
        thread_context,
        ..zeroed()
    };
    dump.add_stream(Type::ExceptionStream as u32, &crash);
    add_thread_lists(dump);
}

// The names of threads, and their times.
fn add_thread_lists(dump: &mut SynthMinidump) {
    let name = |thread_id: u32, rva: RVA| MINIDUMP_THREAD_NAME {
        thread_id,
        thread_name_rva: u64::from(rva),
    };
    let names = [
        name(0x1234, dump.add_text16("main")),
        name(7, dump.add_text16("worker")),
    ];
    dump.add_stream(Type::ThreadNamesStream as u32, dump.section().list(&names));
    let info = MINIDUMP_THREAD_INFO {
        thread_id: 0x1234,
        create_time: 0x1d5_0000_0000_0000,
        start_address: 0x1_0000_1000,
        ..zeroed()
    };
    let next = MINIDUMP_THREAD_INFO {
        thread_id: 7,
        ..info
    };
    dump.add_stream(
        Type::ThreadInfoListStream as u32,
        dump.section().extended_list(12, &[info, next]),
    );
}

// Two modules, with CodeView records of two kinds, and two that were unloaded.
fn add_modules(dump: &mut SynthMinidump) {
    let signature = GUID {
        data1: 0xabcd_1234,
        data2: 0xf00d,
        data3: 0xbeef,
        data4: [1, 2, 3, 4, 5, 6, 7, 8],
    };
    let mut pdb = dump.section();
    pdb.u32(0x5344_5352)
        .record(&signature)
        .u32(1)
        .cstring("app.pdb");
    let mut elf = dump.section();
    elf.u32(0x4270_454c).bytes(&[1, 2, 3, 4]);
    let app = MINIDUMP_MODULE {
        base_of_image: 0x1_0000_0000,
        size_of_image: 0x4000,
        time_date_stamp: 0xb105_4d2a,
        module_name_rva: dump.add_text16("app.exe"),
        version_info: VS_FIXEDFILEINFO {
            signature: 0xfeef_04bd,
            struct_version: 0x1_0000,
            file_version_hi: 0x1_0002,
            ..zeroed()
        },
        cv_record: dump.add_located(&pdb),
        ..zeroed()
    };
    let library = MINIDUMP_MODULE {
        base_of_image: 0x2_0000_0000,
        module_name_rva: dump.add_text16("lib.so"),
        cv_record: dump.add_located(&elf),
        ..app
    };
    dump.add_stream(
        Type::ModuleListStream as u32,
        dump.section().list(&[app, library]),
    );
    add_unloaded(dump);
}

fn add_unloaded(dump: &mut SynthMinidump) {
    let first = MINIDUMP_UNLOADED_MODULE {
        base_of_image: 0x3_0000_0000,
        size_of_image: 0x2000,
        module_name_rva: dump.add_text16("old.dll"),
        ..zeroed()
    };
    let second = MINIDUMP_UNLOADED_MODULE {
        base_of_image: 0x3_0000_0800,
        module_name_rva: dump.add_text16("older.dll"),
        ..first
    };
    dump.add_stream(
        Type::UnloadedModuleListStream as u32,
        dump.section().extended_list(12, &[first, second]),
    );
}

// Two handles with names, whose objects share a circle.
fn add_handles(dump: &mut SynthMinidump) {
    let first = MINIDUMP_HANDLE_DESCRIPTOR_2 {
        handle: 0x1c,
        type_name_rva: dump.add_text16("Event"),
        object_name_rva: dump.add_text16("done"),
        object_info_rva: add_circle(dump, 4),
        ..zeroed()
    };
    let second = MINIDUMP_HANDLE_DESCRIPTOR_2 {
        handle: 0x20,
        ..first
    };
    dump.add_stream(
        Type::HandleDataStream as u32,
        dump.section().handle_list(&[first, second]),
    );
}

// A text with its NUL.
fn text8(dump: &mut SynthMinidump, text: &str) -> RVA {
    let mut section = dump.section();
    section.text8(text).u8(0);
    dump.add(&section)
}

fn list<R: Encode>(dump: &mut SynthMinidump, records: &[R]) -> MINIDUMP_LOCATION_DESCRIPTOR {
    let mut section = dump.section();
    section.list(records);
    dump.add_located(&section)
}

// Information on a process, and twice the same on a module.
fn add_crashpad(dump: &mut SynthMinidump) {
    let key = text8(dump, "key");
    let value = text8(dump, "value");
    let pair = MINIDUMP_SIMPLE_STRING_DICTIONARY_ENTRY { key, value };
    let object = MINIDUMP_ANNOTATION {
        name: key,
        ty: 1,
        reserved: 0,
        value,
    };
    let module = MINIDUMP_MODULE_CRASHPAD_INFO {
        version: 1,
        list_annotations: list(dump, &[key, value]),
        simple_annotations: list(dump, &[pair]),
        annotation_objects: list(dump, &[object]),
    };
    let link = MINIDUMP_MODULE_CRASHPAD_INFO_LINK {
        minidump_module_list_index: 0,
        location: dump.add_located(&module),
    };
    let info = MINIDUMP_CRASHPAD_INFO {
        version: 1,
        simple_annotations: list(dump, &[pair]),
        module_list: list(dump, &[link, link]),
        ..zeroed()
    };
    dump.add_stream(Type::CrashpadInfoStream as u32, &info);
}

fn add_breakpad(dump: &mut SynthMinidump) {
    let info = MINIDUMP_BREAKPAD_INFO {
        validity: 3,
        dump_thread_id: 7,
        requesting_thread_id: 0x1234,
    };
    dump.add_stream(Type::BreakpadInfoStream as u32, &info);
    let mut assertion = MINIDUMP_ASSERTION_INFO {
        line: 9,
        _type: 1,
        ..zeroed()
    };
    assertion.expression[0] = 0x65;
    assertion.function[0] = 0x66;
    assertion.file[0] = 0x67;
    dump.add_stream(Type::AssertionInfoStream as u32, &assertion);
}

// Two records of a crash of macOS, with five texts each, and the arguments of its boot.
fn add_mac(dump: &mut SynthMinidump) {
    let mut section = dump.section();
    section
        .record(&MINIDUMP_MAC_CRASH_INFO_RECORD_5 {
            stream_type: 0x4d7a_0001,
            version: 5,
            thread: 1,
            dialog_mode: 2,
            abort_cause: 3,
        })
        .bytes(b"/bin/x\0first\0sign\0trace\0second\0");
    let record = dump.add_located(&section);
    let mut info = MINIDUMP_MAC_CRASH_INFO {
        stream_type: 0x4d7a_0001,
        record_count: 2,
        record_start_size: 40,
        ..zeroed()
    };
    info.records[0] = record;
    info.records[1] = record;
    dump.add_stream(Type::MozMacosCrashInfoStream as u32, &info);
    let arguments = MINIDUMP_MAC_BOOTARGS {
        stream_type: 0x4d7a_0002,
        bootargs: u64::from(dump.add_text16("-v")),
    };
    dump.add_stream(Type::MozMacosBootargsStream as u32, &arguments);
}

// The texts of Linux, those of Mozilla, and Chromium's report, of one process.
#[rattlefmt::skip]
const TEXTS: &[(Type, &[u8])] = &[
    (Type::LinuxCpuInfo, b"processor : 0\nmodel name : x\n"),
    (Type::LinuxProcStatus, b"Name:\tapp\nPid:\t4660\n"),
    (Type::LinuxLsbRelease, b"DISTRIB_ID=\"Debian\"\n"),
    (Type::LinuxEnviron, b"HOME=/root\0LANG=C\0"),
    (Type::LinuxMaps, b"10a00-10b00 r-xp 0 fd:05 1 /bin/app\n10b00-10c00 rw-p 0 fd:05 2 [heap]\n"),
    (Type::MozLinuxLimits, b"Limit Soft Hard Units\nMax open files 1024 4096 files\n"),
    (Type::MozSoftErrors, b"[\"late\"]"),
    (Type::StabilityReportStream, &[0x12, 12, 0x22, 4, 0x0a, 2, 0x20, 9, 0x3a, 4, 0x0a, 2, 8, 7]),
];

fn add_texts(dump: &mut SynthMinidump) {
    for (stream_type, text) in TEXTS {
        dump.add_stream(*stream_type as u32, text);
    }
}
