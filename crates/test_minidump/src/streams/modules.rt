use crate::streams::files::system;
use minidump::format::MINIDUMP_MODULE;
use minidump::{CodeId, DebugId, Endian, Error, MinidumpModule, Module};
use minidump_bytes::as_text;
use minidump_synth::{SynthMinidump, zeroed};
use std::alloc::{AllocError, Global};

// The record of a module with a CodeView record, which is put into a dump.
fn raw_module(dump: &mut SynthMinidump, view: &[u8]) -> MINIDUMP_MODULE {
    MINIDUMP_MODULE {
        base_of_image: 0x1000,
        size_of_image: 0x4000,
        time_date_stamp: 0xb105_4d2a,
        module_name_rva: dump.add_text16("mod"),
        cv_record: dump.add_located(&view),
        ..zeroed()
    }
}

// A module of a file, read on a platform by its number, or on an unknown one.
fn read(
    alloc: Global,
    platform: Option<u32>,
    raw: MINIDUMP_MODULE,
    file: &[u8],
) -> Result<MinidumpModule, Error> {
    let Some(number) = platform else {
        return MinidumpModule::read(alloc, raw, file, Endian::Little, None);
    };
    let system = system(alloc, Endian::Little, 0, number)?;
    MinidumpModule::read(alloc, raw, file, Endian::Little, Some(&system))
}

// The same of a module with a CodeView record.
fn module(alloc: Global, platform: Option<u32>, view: &[u8]) -> Result<MinidumpModule, Error> {
    let mut dump = SynthMinidump::new(alloc, Endian::Little);
    let raw = raw_module(&mut dump, view);
    read(alloc, platform, raw, &dump.finish()?)
}

const WINDOWS: Option<u32> = Some(2);

const LINUX: Option<u32> = Some(0x8201);

fn debug_id_text(alloc: Global, id: Option<DebugId>) -> Result<Option<String>, AllocError> {
    match id {
        None => Ok(None),
        Some(id) => Ok(Some(format!(in alloc; "{id}")?)),
    }
}

fn is_text(text: &Option<String>, want: Option<&str>) -> bool {
    as_text(text) == want
}

// `RSDS` with a GUID of zeros, a build id of zeros, one of no bytes, and a record of another
// signature.
const RSDS_NIL: &[u8] = b"RSDS\0\0\0\0\0\0\0\0\0\0\0\0\0\0\0\0\x01\0\0\0a.b";

const ELF_ZEROS: &[u8] = b"LEpB\0\0\0\0\0\0\0\0";

const ELF_EMPTY: &[u8] = b"LEpB";

const OTHER: &[u8] = b"MTOCxyz";

// A platform and a record, and whether the module has identifiers of its code and of its debug
// file, and its name.
#[rattlefmt::skip]
const ABSENT: &[(Option<u32>, &[u8], (bool, bool, bool))] = &[
    (None, RSDS_NIL, (true, false, true)),
    (LINUX, ELF_ZEROS, (false, false, true)),
    (LINUX, ELF_EMPTY, (false, false, true)),
    (WINDOWS, OTHER, (false, false, false)),
    (WINDOWS, b"", (true, false, false)),
    (LINUX, b"", (false, false, false)),
    (None, b"", (false, false, false)),
];

fn parts_of(alloc: Global, module: &MinidumpModule) -> Result<(bool, bool, bool), Error> {
    let has_code = module.code_identifier(alloc)?.is_some();
    let has_file = module.debug_file(alloc)?.is_some();
    Ok((has_code, module.debug_identifier().is_some(), has_file))
}

fn has(alloc: Global, row: &(Option<u32>, &[u8], (bool, bool, bool))) -> Result<bool, Error> {
    Ok(parts_of(alloc, &module(alloc, row.0, row.1)?)? == row.2)
}

#[test]
fn a_module_may_have_no_identifier(rt: HostRuntime) {
    for row in ABSENT {
        assert!(rt;
            has(rt.alloc(), row) == Ok(true),
            "{:?} on {:?}",
            row.1,
            row.0
        );
    }
}

// Breakpad's texts, and what they are.
#[rattlefmt::skip]
const BREAKPAD: &[(&str, Option<&str>)] = &[
    ("ABCD1234F00DBEEF01020304050607081", Some("abcd1234-f00d-beef-0102-030405060708-1")),
    ("ABCD1234F00DBEEF0102030405060708ffffffff", Some("abcd1234-f00d-beef-0102-030405060708-ffffffff")),
    ("AABBCCDDEEFF001122334455667788990", Some("aabbccdd-eeff-0011-2233-445566778899")),
    ("030201000504070600000000000000000", Some("03020100-0504-0706-0000-000000000000")),
    ("ABCD1234F00DBEEF0102030405060708", None),
    ("ABCD1234F00DBEEF0102030405060708+1", None),
    ("ABCD1234F00DBEEF0102030405060708123456789", None),
    ("ABCD1234F00DBEEF01020304050607g81", None),
];

fn has_debug_id(alloc: Global, row: &(&str, Option<&str>)) -> Result<bool, AllocError> {
    Ok(is_text(&debug_id_text(alloc, DebugId::from_breakpad(row.0))?, row.1))
}

fn old_id_has_texts(alloc: Global) -> Result<bool, Error> {
    let old = DebugId::from_pdb20(0xabcd, 0x1f);
    let is_shown = is_text(&debug_id_text(alloc, Some(old))?, Some("0000ABCD-1f"));
    Ok(is_shown && breakpad_text(alloc, old)?.as_str() == "ABCD1f")
}

fn code_id_has_digits(alloc: Global) -> Result<bool, Error> {
    Ok(CodeId::new(alloc, "B1-05 4D2g")?.as_str() == "b1054d2")
}

// Breakpad's texts in another case, and as Breakpad writes them.
#[rattlefmt::skip]
const BREAKPAD_FORMS: &[(&str, &str)] = &[
    ("dfb8e43af2423d73a453aeb6a777ef75A", "DFB8E43AF2423D73A453AEB6A777EF75a"),
    ("abcd1234f00dbeef01020304050607080", "ABCD1234F00DBEEF01020304050607080"),
];

fn breakpad_text(alloc: Global, id: DebugId) -> Result<String, AllocError> {
    let form = id.breakpad();
    format!(in alloc; "{form}")
}

fn has_breakpad_form(alloc: Global, row: &(&str, &str)) -> Result<bool, AllocError> {
    match DebugId::from_breakpad(row.0) {
        None => Ok(false),
        Some(id) => {
            let text = breakpad_text(alloc, id)?;
            Ok(text.as_str() == row.1 && DebugId::from_breakpad(text.as_str()) == Some(id))
        }
    }
}

#[test]
fn identifiers_are_texts(rt: HostRuntime) {
    for row in BREAKPAD {
        assert!(rt; has_debug_id(rt.alloc(), row) == Ok(true), "{}", row.0);
    }
    for row in BREAKPAD_FORMS {
        assert!(rt; has_breakpad_form(rt.alloc(), row) == Ok(true), "{}", row.1);
    }
    let found = [old_id_has_texts(rt.alloc()), code_id_has_digits(rt.alloc())];
    assert!(rt; found == [Ok(true); 2]);
}
