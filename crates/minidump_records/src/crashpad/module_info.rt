ghost use Rattle.minidump_format.specs.Answer.{Gives};
ghost use Rattle.minidump_records.specs.Crashpad.{ModuleTakesMemory, module_in, module_of};

use super::MinidumpAnnotation;
use super::dictionary::read_dictionary;
use super::part::{Part, read_list};
use minidump_bytes::{Endian, Source, Steps};
use minidump_format::Error;
use minidump_format::format::{
    MINIDUMP_ANNOTATION, MINIDUMP_MODULE_CRASHPAD_INFO, MINIDUMP_MODULE_CRASHPAD_INFO_LINK,
    MINIDUMP_SIMPLE_STRING_DICTIONARY_ENTRY,
};
use std::alloc::Global;
use std::collections::BTreeMap;

/// Crashpad's information on a module: `MinidumpModuleCrashpadInfo`.
#[derive(Drop)]
pub struct MinidumpModuleCrashpadInfo {
    /// Its record.
    pub raw: MINIDUMP_MODULE_CRASHPAD_INFO,
    /// The index of the module in the module list, which the link states.
    pub module_index: usize,
    /// The texts of its list, in the order of the list.
    pub list_annotations: Vec<String>,
    /// The texts of its dictionary, by key.
    pub simple_annotations: BTreeMap<String, String>,
    /// Its annotations, by name.
    pub annotation_objects: BTreeMap<String, MinidumpAnnotation>,
}

impl MinidumpModuleCrashpadInfo {
    /// Reads the information that a link names from the bytes of the file, `all`: the record, and
    /// then its three lists in the order of the record. Ignores the size that the link states, and
    /// the version of the record.
    ///
    /// Returns `StreamReadFailure` if a record, a location or a text is not in the file, if a list
    /// ends before its count or one of its entries, if a text is not UTF-8, or if no NUL follows a
    /// text other than the value of an annotation. Returns `StreamSizeMismatch` if the entries that
    /// the list of texts counts would be more bytes than the file has, and `OutOfMemory` if an
    /// allocation fails. Memory is taken only if one of the lists counts an entry.
    pub fn read(
        alloc: Global,
        link: MINIDUMP_MODULE_CRASHPAD_INFO_LINK,
        all: &[u8],
        endian: Endian,
    ) -> Result<MinidumpModuleCrashpadInfo, Error>
        ensures { Gives module_of (ModuleTakesMemory endian all.now link) result
            (module_in endian all.now link) }
    {
        MinidumpModuleCrashpadInfo::read_part(
            alloc,
            &link,
            Source::new(all),
            endian,
            &mut Steps::new(),
        )
    }
}

/// Reads the information on a module that a link of the list names.
impl Part<MINIDUMP_MODULE_CRASHPAD_INFO_LINK> for MinidumpModuleCrashpadInfo {
    ghost use Rattle.minidump_records.specs.Crashpad.{ModuleTakesMemory, Module, module_in, module_of, module_reads};
    ghost use Rattle.minidump_records.specs.Crashpad.{most_of_link};

    ghost Value = { Module };

    ghost value = { module_of };

    ghost part = { module_in };

    ghost memory = { ModuleTakesMemory };

    ghost most = { most_of_link };

    ghost fewest = { module_reads };

    #[tactic(auto, unfolding(crate::specs::Crashpad::module_in))]
    fn read_part(
        alloc: Global,
        entry: &MINIDUMP_MODULE_CRASHPAD_INFO_LINK,
        all: Source<'_>,
        endian: Endian,
        steps: &mut Steps,
    ) -> Result<Self, Error> {
        let raw: MINIDUMP_MODULE_CRASHPAD_INFO = all
            .record(entry.location.rva as u64, endian, steps)
            .ok_or(Error::StreamReadFailure)?;
        let list_annotations = read_list::<u32, String>(
            alloc,
            raw.list_annotations,
            all,
            endian,
            steps,
        )?;
        let simple_annotations = read_dictionary::<MINIDUMP_SIMPLE_STRING_DICTIONARY_ENTRY, String>(
            alloc,
            raw.simple_annotations,
            all,
            endian,
            steps,
        )?;
        let annotation_objects = read_dictionary::<MINIDUMP_ANNOTATION, MinidumpAnnotation>(
            alloc,
            raw.annotation_objects,
            all,
            endian,
            steps,
        )?;
        Ok(MinidumpModuleCrashpadInfo {
            raw,
            module_index: entry.minidump_module_list_index as usize,
            list_annotations,
            simple_annotations,
            annotation_objects,
        })
    }
}
