ghost use Rattle.std.specs.Prelude.{◌≡◌, ◌+◌, ◌-◌, ◌<◌, ◌≤◌, ◌&&◌, [], IfOk, IsOkUnless, None, OnErr, Some};
ghost use Rattle.std.specs.Prelude.{if◌then◌else◌, length, nat_le, nat_lt, string_bytes};
ghost use Rattle.std.specs.Option.{ok_or, option_copied, option_map};
ghost use Rattle.minidump_bytes.specs.declared.endian.Endian.TheVariants.{Little};
ghost use Rattle.minidump_bytes.specs.Source.{bytes_of};
ghost use Rattle.minidump_bytes.specs.Steps.{after};
ghost use Rattle.minidump_bytes.specs.Text16.{TakesMemory16, text16};
ghost use Rattle.minidump_format.specs.Answer.{Gives};
ghost use Rattle.minidump_format.specs.declared.error.Error.TheVariants.{CodeViewReadFailure};
ghost use Rattle.minidump_format.specs.Guid.{guid, guid_bytes};
ghost use Rattle.minidump_modules.specs.Identity.{is_all_zeros, pad_to_16};
ghost use Rattle.minidump_modules.specs.Module.{ModuleTakesMemory, identity_of, new_module, module_of};
ghost use Rattle.minidump_modules.specs.Module.{range_of_module_struct, module_reads, read_module, source_text};

use crate::code_view::{code_view_at, lossy_name};
use crate::text::copy_text;
use crate::version::version_of;
use crate::{CodeId, CodeView, DebugId, Module};
use minidump_bytes::{Endian, Record, Source, Steps};
use minidump_format::Error;
use minidump_format::format::{
    GUID, MINIDUMP_LOCATION_DESCRIPTOR, MINIDUMP_MODULE, VS_FIXEDFILEINFO, uuid_of,
};
use minidump_index::{Range, Region};
use minidump_system::{MinidumpSystemInfo, Os};
use std::alloc::Global;
use uuid::Uuid;

/// A loaded module: the program itself, or a library.
#[derive(Drop)]
pub struct MinidumpModule {
    /// The entry in the stream.
    pub raw: MINIDUMP_MODULE,
    /// The name of its file.
    pub name: String,
    /// The CodeView record, or `None` if the entry names none.
    pub codeview_info: Option<CodeView>,
    endian: Endian,
    os: Option<Os>,
}

// What the identifier of a module's code is made of: its time stamp and its size, the GUID of its
// debug file, or its build id.
#[derive(Clone, Copy)]
pub(crate) enum CodeSource<'a> {
    Stamp,
    Guid([u8; 16]),
    BuildId(&'a [u8]),
}

impl MinidumpModule {
    /// Makes a module of a base address, a size and a name, with nothing else. The only error is
    /// [`Error::OutOfMemory`], which comes only if the name isn't empty.
    pub fn new(alloc: Global, base: u64, size: u32, name: &str) -> Result<MinidumpModule, Error>
        ensures value { IfOk result (λ m. module_of m ≡ new_module base size name.now) }
        ensures memory { IsOkUnless result Error.OutOfMemory }
        ensures some { OnErr result (0 < length name.now) }
    {
        Ok(MinidumpModule {
            raw: empty_entry(base, size),
            name: copy_text(alloc, name)?,
            codeview_info: None,
            endian: Endian::Little,
            os: None,
        })
    }

    /// Reads the name and the CodeView record of an entry from the bytes of the file. Returns
    /// `CodeViewReadFailure` if one of them is malformed, and `OutOfMemory` if an allocation fails,
    /// which can happen only if the name has a code unit, or the record has a name, a build id or
    /// an unknown kind.
    pub fn read(
        alloc: Global,
        raw: MINIDUMP_MODULE,
        bytes: &[u8],
        endian: Endian,
        system_info: Option<&MinidumpSystemInfo>,
    ) -> Result<MinidumpModule, Error>
        ensures { Gives module_of (ModuleTakesMemory endian bytes.now raw) result
            (read_module endian (option_map (λ s. s.os)
            (option_copied system_info.entry)) bytes.now raw) }
    {
        let os = system_info.map(|system| system.os);
        MinidumpModule::read_counted(
            alloc,
            &raw,
            Source::new(bytes),
            endian,
            os,
            &mut Steps::new(),
        )
    }

    // Reads as `read` does, and counts the reads of the name and of the CodeView record.
    #[tactic(auto, unfolding(crate::specs::Module::read_module))]
    pub(crate) fn read_counted(
        alloc: Global,
        raw: &MINIDUMP_MODULE,
        all: Source<'_>,
        endian: Endian,
        os: Option<Os>,
        steps: &mut Steps,
    ) -> Result<MinidumpModule, Error>
        ensures means { Gives module_of
            (ModuleTakesMemory endian (bytes_of all.entry) raw.now) result
            (read_module endian os (bytes_of all.entry) raw.now) }
        ensures within { steps.new ≤ steps.old + 7 }
        ensures grows { steps.old ≤ steps.new }
        ensures steps { IfOk result (λ m. steps.new
            ≡ after steps.old (module_reads (module_of m))) }
    {
        let name = name_at(alloc, raw.module_name_rva, all, endian, steps)?;
        let codeview_info = code_view_at(alloc, &raw.cv_record, all, endian, steps)?;
        Ok(MinidumpModule {
            raw: *raw,
            name,
            codeview_info,
            endian,
            os,
        })
    }

    /// Returns the byte order of the dump, by which the build id of an ELF file gives its
    /// identifier.
    pub fn endian(&self) -> Endian
        ensures { result ≡ (module_of self.now).order }
    {
        self.endian
    }

    /// Returns the operating system of the dump, or `None` if it is not known.
    pub fn os(&self) -> Option<Os>
        ensures { result ≡ (module_of self.now).os }
    {
        self.os
    }

    /// Returns the offset of `address` from the base address, or `None` if the address is below the
    /// base address or the offset is not below the size. A module that would go on beyond the last
    /// address has offsets too, though no lookup finds it.
    pub fn offset_of(&self, address: u64) -> Option<u64>
        ensures { result ≡ (if nat_le self.now.raw.base_of_image address
            && nat_lt address (self.now.raw.base_of_image + self.now.raw.size_of_image)
            then Some (address - self.now.raw.base_of_image) else None) }
    {
        let offset = address.checked_sub(self.raw.base_of_image)?;
        if offset < self.raw.size_of_image as u64 {
            return Some(offset);
        }
        None
    }

    // Returns what the identifier of the code is made of, or `None` if there is none.
    pub(crate) fn code_source(&self) -> Option<CodeSource<'_>>
        ensures { option_map (source_text self.now.raw) result
            ≡ (identity_of (module_of self.now)).code_identifier }
    {
        match &self.codeview_info {
            Some(CodeView::Pdb70(record)) => match self.os {
                Some(Os::MacOs | Os::Ios) => Some(CodeSource::Guid(guid_bytes_of(
                    &record.signature,
                ))),
                _ => Some(CodeSource::Stamp),
            },
            Some(CodeView::Pdb20(_)) => Some(CodeSource::Stamp),
            Some(CodeView::Elf(record)) => {
                if is_all_zeros(&record.build_id) {
                    return None;
                }
                Some(CodeSource::BuildId(&record.build_id))
            }
            Some(CodeView::Unknown(_)) => None,
            None => match self.os {
                Some(Os::Windows) => Some(CodeSource::Stamp),
                _ => None,
            },
        }
    }

    /// Copies the module. The only error is [`Error::OutOfMemory`].
    pub fn try_clone(&self, alloc: Global) -> Result<MinidumpModule, Error>
        ensures same { IfOk result (λ m. module_of m ≡ module_of self.now) }
        ensures memory { IsOkUnless result Error.OutOfMemory }
    {
        let codeview_info = match &self.codeview_info {
            Some(view) => Some(view.try_clone(alloc)?),
            None => None,
        };
        Ok(MinidumpModule {
            raw: self.raw,
            name: String::from_str(alloc, self.name.as_str())?,
            codeview_info,
            endian: self.endian,
            os: self.os,
        })
    }
}

impl Module for MinidumpModule {
    ghost use Rattle.minidump_modules.specs.Module.{module_identity};

    ghost identity = { module_identity };

    fn base_address(&self) -> u64 {
        self.raw.base_of_image
    }

    fn size(&self) -> u64 {
        self.raw.size_of_image as u64
    }

    fn code_file(&self) -> &str {
        self.name.as_str()
    }

    fn code_identifier(&self, alloc: Global) -> Result<Option<CodeId>, Error> {
        let raw = &self.raw;
        let id = match self.code_source() {
            Some(CodeSource::Stamp) => {
                CodeId::from_stamp(alloc, raw.time_date_stamp, raw.size_of_image)
            }
            Some(CodeSource::Guid(guid)) => CodeId::from_binary(alloc, &guid),
            Some(CodeSource::BuildId(id)) => CodeId::from_binary(alloc, id),
            None => return Ok(None),
        };
        Ok(Some(id?))
    }

    fn debug_file(&self, alloc: Global) -> Result<Option<String>, Error> {
        let name = match &self.codeview_info {
            Some(CodeView::Pdb70(record)) => lossy_name(alloc, &record.pdb_file_name),
            Some(CodeView::Pdb20(record)) => lossy_name(alloc, &record.pdb_file_name),
            Some(CodeView::Elf(_)) => String::from_str(alloc, self.name.as_str()),
            Some(CodeView::Unknown(_)) | None => return Ok(None),
        };
        Ok(Some(name?))
    }

    fn debug_identifier(&self) -> Option<DebugId> {
        match &self.codeview_info {
            Some(CodeView::Pdb70(record)) => {
                let uuid = uuid_of(&record.signature);
                if uuid.is_nil() {
                    return None;
                }
                Some(DebugId::from_parts(uuid, record.age))
            }
            Some(CodeView::Pdb20(record)) => Some(DebugId::from_pdb20(
                record.signature,
                record.age,
            )),
            Some(CodeView::Elf(record)) => {
                if is_all_zeros(&record.build_id) {
                    return None;
                }
                Some(DebugId::from_uuid(build_uuid(&record.build_id, self.endian)))
            }
            Some(CodeView::Unknown(_)) | None => None,
        }
    }

    fn version(&self, alloc: Global) -> Result<Option<String>, Error> {
        Ok(version_of(alloc, self.os, &self.raw.version_info)?)
    }
}

impl Region for MinidumpModule {
    ghost range = { range_of_module_struct };

    fn memory_range(&self) -> Option<Range> {
        Range::from_size(self.raw.base_of_image, self.raw.size_of_image as u64)
    }
}

// Returns the bytes of a GUID, the highest of each number first.
fn guid_bytes_of(guid: &GUID) -> [u8; 16]
    ensures { result ≡ guid_bytes guid.now }
{
    *uuid_of(guid).as_bytes()
}

// Makes the entry of a base address and a size, with zeros everywhere else.
fn empty_entry(base: u64, size: u32) -> MINIDUMP_MODULE
    ensures { result ≡ (new_module base size []).raw }
{
    let nowhere = MINIDUMP_LOCATION_DESCRIPTOR {
        data_size: 0,
        rva: 0,
    };
    MINIDUMP_MODULE {
        base_of_image: base,
        size_of_image: size,
        checksum: 0,
        time_date_stamp: 0,
        module_name_rva: 0,
        version_info: VS_FIXEDFILEINFO {
            signature: 0,
            struct_version: 0,
            file_version_hi: 0,
            file_version_lo: 0,
            product_version_hi: 0,
            product_version_lo: 0,
            file_flags_mask: 0,
            file_flags: 0,
            file_os: 0,
            file_type: 0,
            file_subtype: 0,
            file_date_hi: 0,
            file_date_lo: 0,
        },
        cv_record: nowhere,
        misc_record: nowhere,
        unused1: [0; 16],
    }
}

// Reads the name at an RVA.
fn name_at(
    alloc: Global,
    rva: u32,
    all: Source<'_>,
    endian: Endian,
    steps: &mut Steps,
) -> Result<String, Error>
    ensures means { Gives string_bytes (TakesMemory16 endian rva (bytes_of all.entry)) result
        (ok_or (text16 endian rva (bytes_of all.entry)) CodeViewReadFailure) }
    ensures step { steps.new ≡ after steps.old 1 }
{
    match all.text16(alloc, rva as u64, endian, steps)? {
        Some(name) => Ok(name),
        None => Err(Error::CodeViewReadFailure),
    }
}

// Tells whether a build id is empty or all zeros.
#[tactic(auto, unfolding(crate::specs::Identity::is_all_zeros))]
fn is_all_zeros(build_id: &[u8]) -> bool
    ensures { result ≡ is_all_zeros build_id.now }
{
    build_id.iter().all(|b| *b == 0)
}

// Makes the UUID that a build id begins with, in the byte order of the dump.
fn build_uuid(build_id: &[u8], endian: Endian) -> Uuid
    ensures { result ≡ guid_bytes (guid.value endian (pad_to_16 build_id.now)) }
{
    uuid_of(&GUID::decode(&pad_to_16(build_id), endian))
}

// Copies the first 16 bytes, with zeros after them where there are fewer.
fn pad_to_16(build_id: &[u8]) -> [u8; 16]
    ensures { result ≡ pad_to_16 build_id.now }
{
    let mut bytes = [0; 16];
    let len = build_id.len().min(16);
    bytes[..len].copy_from_slice(&build_id[..len]);
    bytes
}
