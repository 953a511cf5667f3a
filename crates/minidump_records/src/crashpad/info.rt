ghost use Rattle.std.specs.Prelude.{◌≡◌};
ghost use Rattle.minidump_bytes.specs.Source.{bytes_of};
ghost use Rattle.minidump_bytes.specs.Steps.{after};
ghost use Rattle.minidump_format.specs.Answer.{Gives};
ghost use Rattle.minidump_records.specs.Crashpad.{crashpad_record};

use super::MinidumpModuleCrashpadInfo;
use super::dictionary::read_dictionary;
use super::part::read_list;
use minidump_bytes::{Endian, Source, Steps};
use minidump_format::Error;
use minidump_format::format::{
    MINIDUMP_CRASHPAD_INFO, MINIDUMP_MODULE_CRASHPAD_INFO_LINK,
    MINIDUMP_SIMPLE_STRING_DICTIONARY_ENTRY,
};
use minidump_system::{MinidumpStream, MinidumpSystemInfo};
use std::alloc::Global;
use std::collections::BTreeMap;

/// Crashpad's information on a process and its modules: `MinidumpCrashpadInfo`.
#[derive(Drop)]
pub struct MinidumpCrashpadInfo {
    /// The record at the start of the stream.
    pub raw: MINIDUMP_CRASHPAD_INFO,
    /// The texts of the process's dictionary, by key.
    pub simple_annotations: BTreeMap<String, String>,
    /// The information on modules, one for each link, in the order of the links.
    pub module_list: Vec<MinidumpModuleCrashpadInfo>,
}

// Reads the record. Returns `VersionMismatch` if its version is 0.
#[tactic(auto, unfolding(crate::specs::Crashpad::crashpad_record))]
fn read_record(
    bytes: Source<'_>,
    endian: Endian,
    steps: &mut Steps,
) -> Result<MINIDUMP_CRASHPAD_INFO, Error>
    ensures means { Gives (λ raw. raw) ⊥ result (crashpad_record endian (bytes_of bytes.entry)) }
    ensures step { steps.new ≡ after steps.old 1 }
{
    let raw: MINIDUMP_CRASHPAD_INFO = bytes
        .record(0, endian, steps)
        .ok_or(Error::StreamReadFailure)?;
    if raw.version == 0 {
        return Err(Error::VersionMismatch);
    }
    Ok(raw)
}

/// Reads Crashpad's `MinidumpCrashpadInfo`: a record, then its dictionary and its list of links to
/// modules.
///
/// Returns `StreamReadFailure` if a record, a location or a text is not in the file, if a list ends
/// before its count or one of its entries, if a text is not UTF-8, or if no NUL follows a text
/// other than the value of an annotation. Returns `StreamSizeMismatch` if the entries that a list
/// of texts or of links counts would be more bytes than the file has, and `VersionMismatch` if the
/// version of the record is 0.
impl<'a> MinidumpStream<'a> for MinidumpCrashpadInfo {
    ghost use Rattle.minidump_records.specs.Crashpad.{Crashpad, crashpad_info_stream};

    ghost Value = { Crashpad };

    ghost spec = { crashpad_info_stream };

    const STREAM_TYPE: u32 = 0x4350_0001;

    fn number_of_type() -> u32 {
        Self::STREAM_TYPE
    }

    #[tactic(auto, unfolding(crate::specs::Crashpad::crashpad_info_in))]
    fn read(
        alloc: Global,
        bytes: Source<'a>,
        all: Source<'a>,
        endian: Endian,
        _system_info: Option<&MinidumpSystemInfo>,
        steps: &mut Steps,
    ) -> Result<Self, Error> {
        let raw = read_record(bytes, endian, steps)?;
        let simple_annotations = read_dictionary::<MINIDUMP_SIMPLE_STRING_DICTIONARY_ENTRY, String>(
            alloc,
            raw.simple_annotations,
            all,
            endian,
            steps,
        )?;
        let module_list = read_list::<
            MINIDUMP_MODULE_CRASHPAD_INFO_LINK,
            MinidumpModuleCrashpadInfo,
        >(alloc, raw.module_list, all, endian, steps)?;
        Ok(MinidumpCrashpadInfo {
            raw,
            simple_annotations,
            module_list,
        })
    }
}
