ghost use Rattle.std.specs.Prelude.{◌≡◌, ◌++◌, IfOk, OnOk, Some, string_bytes};
ghost use Rattle.std.specs.Option.{option_map};
ghost use Rattle.minidump_format.specs.Print.{Prints};
ghost use Rattle.minidump_system.specs.Dates.{date_text_of};
ghost use Rattle.minidump_modules.specs.CodeView.{view_of};
ghost use Rattle.minidump_modules.specs.Module.{module_identity, module_of};
ghost use Rattle.minidump_modules.specs.ModuleList.{module_list_of};
ghost use Rattle.minidump_modules.specs.ModuleText.{code_text, debug_text, entry_text, module_list_text};
ghost use Rattle.minidump_modules.specs.ModuleText.{module_text, or_empty, or_nil, pdb20_text, pdb70_text};
ghost use Rattle.minidump_modules.specs.ModuleText.{locations_text, raw_text, unknown_text};
ghost use Rattle.minidump_modules.specs.ModuleText.{unloaded_module_list_text, unloaded_text, version_info_text};
ghost use Rattle.minidump_modules.specs.ModuleText.{view_text};
ghost use Rattle.minidump_modules.specs.UnloadedModule.{unloaded_of};
ghost use Rattle.minidump_modules.specs.UnloadedModuleList.{unloaded_module_list_of};

use crate::code_view::lossy_name;
use crate::debug_id::guid_of;
use crate::{
    CodeView, DebugId, MinidumpModule, MinidumpModuleList, MinidumpUnloadedModule,
    MinidumpUnloadedModuleList, Module,
};
use minidump_bytes::{Piece, Told, push_pieces};
use minidump_format::format::{
    CV_INFO_ELF, CV_INFO_PDB20, CV_INFO_PDB70, MINIDUMP_MODULE, MINIDUMP_UNLOADED_MODULE,
    VS_FIXEDFILEINFO, uuid_of,
};
use minidump_format::{Error, Pushed, print_item, print_numbered};
use minidump_system::date_text;
use std::alloc::{AllocError, Global};
use std::io::Write;

impl MinidumpModule {
    /// Prints the entry, the CodeView record, and what symbol tools ask of the module.
    pub fn print<W: Write>(&self, alloc: Global, f: &mut Told<W>) -> Result<(), Error>
        ensures { Prints W.contents f.old f.new (module_text (module_of self.now)) result }
    {
        print_item(self, alloc, f)
    }
}

impl MinidumpUnloadedModule {
    /// Prints the entry, the name and the identifier of the code.
    pub fn print<W: Write>(&self, alloc: Global, f: &mut Told<W>) -> Result<(), Error>
        ensures { Prints W.contents f.old f.new (unloaded_text (unloaded_of self.now)) result }
    {
        print_item(self, alloc, f)
    }
}

impl MinidumpModuleList {
    /// Prints the number of modules, and each module with its index.
    pub fn print<W: Write>(&self, alloc: Global, f: &mut Told<W>) -> Result<(), Error>
        ensures { Prints W.contents f.old f.new
            (module_list_text (module_list_of self.now)) result }
    {
        print_numbered(
            "MinidumpModuleList\n  module_count = ",
            "module",
            self.as_slice(),
            alloc,
            f,
        )
    }
}

impl MinidumpUnloadedModuleList {
    /// Prints the number of modules, and each module with its index.
    pub fn print<W: Write>(&self, alloc: Global, f: &mut Told<W>) -> Result<(), Error>
        ensures { Prints W.contents f.old f.new
            (unloaded_module_list_text (unloaded_module_list_of self.now)) result }
    {
        print_numbered(
            "MinidumpUnloadedModuleList\n  module_count = ",
            "module",
            self.iter().as_slice(),
            alloc,
            f,
        )
    }
}

impl Pushed for MinidumpModule {
    ghost text = { λ m. module_text (module_of m) };

    #[tactic(auto, unfolding(crate::specs::ModuleText::module_text))]
    fn push(&self, out: &mut Vec<u8>) -> Result<(), AllocError> {
        push_raw(out, &self.raw)?;
        push_code(out, self)?;
        push_view(out, &self.codeview_info)?;
        push_debug(out, self)
    }
}

impl Pushed for MinidumpUnloadedModule {
    ghost text = { λ m. unloaded_text (unloaded_of m) };

    #[tactic(auto, unfolding(crate::specs::ModuleText::unloaded_text))]
    fn push(&self, out: &mut Vec<u8>) -> Result<(), AllocError> {
        out.extend_from_slice(b"MINIDUMP_UNLOADED_MODULE\n")?;
        push_unloaded_entry(out, &self.raw)?;
        push_code(out, self)
    }
}

#[tactic(auto, unfolding(crate::specs::ModuleText::raw_text))]
fn push_raw(out: &mut Vec<u8>, raw: &MINIDUMP_MODULE) -> Result<(), AllocError>
    ensures { OnOk result (out.new.items ≡ out.old.items ++ raw_text raw.now) }
{
    out.extend_from_slice(b"MINIDUMP_MODULE\n")?;
    push_entry(
        out,
        raw.base_of_image,
        raw.size_of_image,
        raw.checksum,
        raw.time_date_stamp,
        raw.module_name_rva,
    )?;
    push_version_info(out, &raw.version_info)?;
    push_locations(out, raw)
}

fn push_unloaded_entry(out: &mut Vec<u8>, raw: &MINIDUMP_UNLOADED_MODULE) -> Result<(), AllocError>
    ensures { OnOk result (out.new.items
        ≡ out.old.items ++ entry_text raw.now.base_of_image raw.now.size_of_image raw.now.checksum
        raw.now.time_date_stamp raw.now.module_name_rva) }
{
    push_entry(
        out,
        raw.base_of_image,
        raw.size_of_image,
        raw.checksum,
        raw.time_date_stamp,
        raw.module_name_rva,
    )
}

// Appends the lines that the entries of both kinds begin with.
#[rattlefmt::skip]
#[tactic(auto, unfolding(crate::specs::ModuleText::entry_text))]
fn push_entry(
    out: &mut Vec<u8>,
    base: u64,
    size: u32,
    checksum: u32,
    stamp: u32,
    name_rva: u32,
) -> Result<(), AllocError>
    ensures { OnOk result (out.new.items ≡ out.old.items
        ++ entry_text base size checksum stamp name_rva) }
{
    let date = date_of(*out.allocator(), stamp)?;
    push_pieces(out, &[
        Piece::Words("  base_of_image                   = "), Piece::Hex(base), Piece::Words("\n"),
        Piece::Words("  size_of_image                   = "), Piece::Hex(size as u64), Piece::Words("\n"),
        Piece::Words("  checksum                        = "), Piece::Hex(checksum as u64), Piece::Words("\n"),
        Piece::Words("  time_date_stamp                 = "),
            Piece::Hex(stamp as u64), Piece::Words(" "), Piece::Words(date.as_str()), Piece::Words("\n"),
        Piece::Words("  module_name_rva                 = "), Piece::Hex(name_rva as u64), Piece::Words("\n"),
    ])
}

#[rattlefmt::skip]
#[tactic(auto, unfolding(crate::specs::ModuleText::version_info_text))]
fn push_version_info(out: &mut Vec<u8>, v: &VS_FIXEDFILEINFO) -> Result<(), AllocError>
    ensures { OnOk result (out.new.items ≡ out.old.items ++ version_info_text v.now) }
{
    push_pieces(out, &[
        Piece::Words("  version_info.signature          = "), Piece::Hex(v.signature as u64), Piece::Words("\n"),
        Piece::Words("  version_info.struct_version     = "), Piece::Hex(v.struct_version as u64), Piece::Words("\n"),
        Piece::Words("  version_info.file_version       = "),
            Piece::Hex(v.file_version_hi as u64), Piece::Words(":"), Piece::Hex(v.file_version_lo as u64), Piece::Words("\n"),
        Piece::Words("  version_info.product_version    = "),
            Piece::Hex(v.product_version_hi as u64), Piece::Words(":"), Piece::Hex(v.product_version_lo as u64), Piece::Words("\n"),
        Piece::Words("  version_info.file_flags_mask    = "), Piece::Hex(v.file_flags_mask as u64), Piece::Words("\n"),
        Piece::Words("  version_info.file_flags         = "), Piece::Hex(v.file_flags as u64), Piece::Words("\n"),
        Piece::Words("  version_info.file_os            = "), Piece::Hex(v.file_os as u64), Piece::Words("\n"),
        Piece::Words("  version_info.file_type          = "), Piece::Hex(v.file_type as u64), Piece::Words("\n"),
        Piece::Words("  version_info.file_subtype       = "), Piece::Hex(v.file_subtype as u64), Piece::Words("\n"),
        Piece::Words("  version_info.file_date          = "),
            Piece::Hex(v.file_date_hi as u64), Piece::Words(":"), Piece::Hex(v.file_date_lo as u64), Piece::Words("\n"),
    ])
}

#[rattlefmt::skip]
#[tactic(auto, unfolding(crate::specs::ModuleText::locations_text))]
fn push_locations(out: &mut Vec<u8>, raw: &MINIDUMP_MODULE) -> Result<(), AllocError>
    ensures { OnOk result (out.new.items ≡ out.old.items ++ locations_text raw.now) }
{
    push_pieces(out, &[
        Piece::Words("  cv_record.data_size             = "), Piece::Decimal(raw.cv_record.data_size as u64), Piece::Words("\n"),
        Piece::Words("  cv_record.rva                   = "), Piece::Hex(raw.cv_record.rva as u64), Piece::Words("\n"),
        Piece::Words("  misc_record.data_size           = "), Piece::Decimal(raw.misc_record.data_size as u64), Piece::Words("\n"),
        Piece::Words("  misc_record.rva                 = "), Piece::Hex(raw.misc_record.rva as u64), Piece::Words("\n"),
    ])
}

// Appends the name of the file and the identifier of the code of a module, loaded or unloaded.
fn push_code<M: Module>(out: &mut Vec<u8>, m: &M) -> Result<(), AllocError>
    ensures { OnOk result (out.new.items ≡ out.old.items
        ++ code_text (M.identity m.now).code_file (or_empty (M.identity m.now).code_identifier)) }
{
    match m.code_identifier(*out.allocator()) {
        Ok(Some(id)) => push_code_lines(out, m.code_file(), id.as_str()),
        Ok(None) => push_code_lines(out, m.code_file(), ""),
        Err(_) => Err(AllocError),
    }
}

#[rattlefmt::skip]
#[tactic(auto, unfolding(crate::specs::ModuleText::code_text))]
fn push_code_lines<'t>(out: &mut Vec<u8>, file: &'t str, identifier: &'t str) -> Result<(), AllocError>
    ensures { OnOk result (out.new.items ≡ out.old.items ++ code_text file.now identifier.now) }
{
    push_pieces(out, &[
        Piece::Words("  (code_file)                     = \""), Piece::Words(file), Piece::Words("\"\n"),
        Piece::Words("  (code_identifier)               = \""), Piece::Words(identifier), Piece::Words("\"\n"),
    ])
}

// Appends the CodeView record.
fn push_view(out: &mut Vec<u8>, view: &Option<CodeView>) -> Result<(), AllocError>
    ensures { OnOk result (out.new.items ≡ out.old.items
        ++ view_text (option_map view_of view.now)) }
{
    match view {
        Some(CodeView::Pdb70(record)) => push_pdb70(out, record),
        Some(CodeView::Pdb20(record)) => push_pdb20(out, record),
        Some(CodeView::Elf(record)) => push_elf(out, record),
        Some(CodeView::Unknown(bytes)) => push_unknown(out, bytes),
        None => out.extend_from_slice(b"  (cv_record)                     = (null)\n"),
    }
}

fn push_pdb70(out: &mut Vec<u8>, cv: &CV_INFO_PDB70) -> Result<(), AllocError>
    ensures { OnOk result (out.new.items ≡ out.old.items
        ++ view_text (Some (view_of (CodeView.Pdb70 cv.now)))) }
{
    let mut buffer = [0; 45];
    let guid = guid_of(uuid_of(&cv.signature), &mut buffer);
    let name = lossy_name(*out.allocator(), &cv.pdb_file_name)?;
    push_pdb70_lines(out, cv, guid, name.as_str())
}

#[rattlefmt::skip]
#[tactic(auto, unfolding(crate::specs::ModuleText::pdb70_text))]
fn push_pdb70_lines<'t>(out: &mut Vec<u8>, cv: &CV_INFO_PDB70, guid: &'t str, name: &'t str) -> Result<(), AllocError>
    ensures { OnOk result (out.new.items ≡ out.old.items
        ++ pdb70_text cv.now.cv_signature guid.now cv.now.age name.now) }
{
    push_pieces(out, &[
        Piece::Words("  (cv_record).cv_signature        = "), Piece::Hex(cv.cv_signature as u64), Piece::Words("\n"),
        Piece::Words("  (cv_record).signature           = "), Piece::Words(guid), Piece::Words("\n"),
        Piece::Words("  (cv_record).age                 = "), Piece::Decimal(cv.age as u64), Piece::Words("\n"),
        Piece::Words("  (cv_record).pdb_file_name       = \""), Piece::Words(name), Piece::Words("\"\n"),
    ])
}

fn push_pdb20(out: &mut Vec<u8>, cv: &CV_INFO_PDB20) -> Result<(), AllocError>
    ensures { OnOk result (out.new.items ≡ out.old.items
        ++ view_text (Some (view_of (CodeView.Pdb20 cv.now)))) }
{
    let date = date_of(*out.allocator(), cv.signature)?;
    let name = lossy_name(*out.allocator(), &cv.pdb_file_name)?;
    push_pdb20_lines(out, cv, date.as_str(), name.as_str())
}

#[rattlefmt::skip]
#[tactic(auto, unfolding(crate::specs::ModuleText::pdb20_text))]
fn push_pdb20_lines<'t>(out: &mut Vec<u8>, cv: &CV_INFO_PDB20, date: &'t str, name: &'t str) -> Result<(), AllocError>
    ensures { OnOk result (out.new.items
        ≡ out.old.items ++ pdb20_text cv.now.cv_signature cv.now.cv_offset cv.now.signature date.now
        cv.now.age name.now) }
{
    push_pieces(out, &[
        Piece::Words("  (cv_record).cv_header.signature = "), Piece::Hex(cv.cv_signature as u64), Piece::Words("\n"),
        Piece::Words("  (cv_record).cv_header.offset    = "), Piece::Hex(cv.cv_offset as u64), Piece::Words("\n"),
        Piece::Words("  (cv_record).signature           = "),
            Piece::Hex(cv.signature as u64), Piece::Words(" "), Piece::Words(date), Piece::Words("\n"),
        Piece::Words("  (cv_record).age                 = "), Piece::Decimal(cv.age as u64), Piece::Words("\n"),
        Piece::Words("  (cv_record).pdb_file_name       = \""), Piece::Words(name), Piece::Words("\"\n"),
    ])
}

#[rattlefmt::skip]
#[tactic(auto, unfolding(crate::specs::ModuleText::elf_text))]
fn push_elf(out: &mut Vec<u8>, cv: &CV_INFO_ELF) -> Result<(), AllocError>
    ensures { OnOk result (out.new.items ≡ out.old.items
        ++ view_text (Some (view_of (CodeView.Elf cv.now)))) }
{
    let id = hex::encode(*out.allocator(), &cv.build_id)?;
    push_pieces(out, &[
        Piece::Words("  (cv_record).cv_signature        = "), Piece::Hex(cv.cv_signature as u64), Piece::Words("\n"),
        Piece::Words("  (cv_record).build_id            = "), Piece::Words(id.as_str()), Piece::Words("\n"),
    ])
}

#[rattlefmt::skip]
#[tactic(auto, unfolding(crate::specs::ModuleText::unknown_text))]
fn push_unknown(out: &mut Vec<u8>, bytes: &[u8]) -> Result<(), AllocError>
    ensures { OnOk result (out.new.items ≡ out.old.items ++ unknown_text bytes.now) }
{
    let digits = hex::encode(*out.allocator(), bytes)?;
    push_pieces(out, &[
        Piece::Words("  (cv_record)                     = "), Piece::Words(digits.as_str()), Piece::Words("\n"),
    ])
}

// Appends what symbol tools ask of a loaded module, after the misc record, which isn't read.
fn push_debug(out: &mut Vec<u8>, m: &MinidumpModule) -> Result<(), AllocError>
    ensures { OnOk result (out.new.items ≡ out.old.items
        ++ debug_text (or_empty (module_identity m.now).debug_file)
        (or_nil (module_identity m.now).debug_identifier)
        (or_empty (module_identity m.now).version)) }
{
    let alloc = *out.allocator();
    let file = debug_file_of(alloc, m)?;
    let identifier = or_nil(alloc, m.debug_identifier())?;
    let version = version_text(alloc, m)?;
    push_debug_lines(out, file.as_str(), identifier.as_str(), version.as_str())
}

#[rattlefmt::skip]
#[tactic(auto, unfolding(crate::specs::ModuleText::debug_text))]
fn push_debug_lines<'t>(
    out: &mut Vec<u8>,
    file: &'t str,
    identifier: &'t str,
    version: &'t str,
) -> Result<(), AllocError>
    ensures { OnOk result (out.new.items ≡ out.old.items
        ++ debug_text file.now identifier.now version.now) }
{
    push_pieces(out, &[
        Piece::Words("  (misc_record)                   = (null)\n"),
        Piece::Words("  (debug_file)                    = \""), Piece::Words(file), Piece::Words("\"\n"),
        Piece::Words("  (debug_identifier)              = \""), Piece::Words(identifier), Piece::Words("\"\n"),
        Piece::Words("  (version)                       = \""), Piece::Words(version), Piece::Words("\"\n"),
        Piece::Words("\n"),
    ])
}

// Makes the name of the debug file, or an empty text if there is none.
fn debug_file_of(alloc: Global, m: &MinidumpModule) -> Result<String, AllocError>
    ensures { IfOk result (λ t. string_bytes t ≡ or_empty (module_identity m.now).debug_file) }
{
    match m.debug_file(alloc) {
        Ok(Some(name)) => Ok(name),
        Ok(None) => Ok(String::new(alloc)),
        Err(_) => Err(AllocError),
    }
}

// Makes the text of the version, or an empty one if there is none.
fn version_text(alloc: Global, m: &MinidumpModule) -> Result<String, AllocError>
    ensures { IfOk result (λ t. string_bytes t ≡ or_empty (module_identity m.now).version) }
{
    match m.version(alloc) {
        Ok(Some(text)) => Ok(text),
        Ok(None) => Ok(String::new(alloc)),
        Err(_) => Err(AllocError),
    }
}

// Makes the text of a debug identifier, or that of the nil GUID if there is none.
fn or_nil(alloc: Global, id: Option<DebugId>) -> Result<String, AllocError>
    ensures { IfOk result (λ t. string_bytes t ≡ or_nil id) }
{
    match id {
        Some(id) => format!(in alloc; "{id}"),
        None => String::from_str(alloc, "00000000-0000-0000-0000-000000000000"),
    }
}

// Makes the date of a time stamp.
fn date_of(alloc: Global, stamp: u32) -> Result<String, AllocError>
    ensures { IfOk result (λ t. string_bytes t ≡ date_text_of stamp) }
{
    match date_text(alloc, stamp) {
        Ok(date) => Ok(date),
        Err(_) => Err(AllocError),
    }
}
