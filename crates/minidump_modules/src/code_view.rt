ghost use Rattle.std.specs.Prelude.{◌≡◌, ◌↔◌, ◌+◌, ◌<◌, ◌≤◌, ◌==◌, Ok, IfErr, IfOk, IsOk, IsOkUnless, drop, length};
ghost use Rattle.std.specs.Prelude.{string_bytes};
ghost use Rattle.std.specs.Option.{option_map};
ghost use Rattle.minidump_bytes.specs.Number.{number_at};
ghost use Rattle.minidump_bytes.specs.Source.{bytes_of};
ghost use Rattle.minidump_bytes.specs.Steps.{after};
ghost use Rattle.minidump_format.specs.Answer.{Gives};
ghost use Rattle.minidump_format.specs.declared.error.Error.TheVariants.{CodeViewReadFailure};
ghost use Rattle.minidump_modules.specs.CodeView.{RecordTakesMemory, ViewTakesMemory, code_view, code_view_at};
ghost use Rattle.minidump_modules.specs.CodeView.{lossy_name, pdb20_in, pdb70_in, record_reads, view_of, view_reads};

use crate::text::copy_bytes;
use minidump_bytes::{Endian, Source, Steps, before_nul};
use minidump_format::Error;
use minidump_format::format::{
    CV_INFO_ELF, CV_INFO_PDB20, CV_INFO_PDB70, CvSignature, GUID, MINIDUMP_LOCATION_DESCRIPTOR,
};
use std::alloc::{AllocError, Global};

/// The CodeView record of a module, which says what its debug file is.
#[derive(Drop)]
pub enum CodeView {
    /// A program database identified by a time stamp: Microsoft's record `NB10`.
    Pdb20(CV_INFO_PDB20),
    /// A program database identified by a GUID: Microsoft's record `RSDS`.
    Pdb70(CV_INFO_PDB70),
    /// An ELF file identified by its build id: Breakpad's `MDCVInfoELF`.
    Elf(CV_INFO_ELF),
    /// The bytes of a record with another signature, its signature among them.
    Unknown(Vec<u8>),
}

impl CodeView {
    /// Copies the record. The only error is [`Error::OutOfMemory`].
    pub fn try_clone(&self, alloc: Global) -> Result<CodeView, Error>
        ensures same { IfOk result (λ view. view_of view ≡ view_of self.now) }
        ensures memory { IsOkUnless result Error.OutOfMemory }
    {
        Ok(match self {
            CodeView::Pdb70(record) => CodeView::Pdb70(CV_INFO_PDB70 {
                cv_signature: record.cv_signature,
                signature: record.signature,
                age: record.age,
                pdb_file_name: Vec::from_slice(alloc, &record.pdb_file_name)?,
            }),
            CodeView::Pdb20(record) => CodeView::Pdb20(CV_INFO_PDB20 {
                cv_signature: record.cv_signature,
                cv_offset: record.cv_offset,
                signature: record.signature,
                age: record.age,
                pdb_file_name: Vec::from_slice(alloc, &record.pdb_file_name)?,
            }),
            CodeView::Elf(record) => CodeView::Elf(CV_INFO_ELF {
                cv_signature: record.cv_signature,
                build_id: Vec::from_slice(alloc, &record.build_id)?,
            }),
            CodeView::Unknown(bytes) => CodeView::Unknown(Vec::from_slice(alloc, bytes)?),
        })
    }
}

// Reads the record at a location, or returns `None` if that has no size.
#[tactic(auto, unfolding(crate::specs::CodeView::code_view_at))]
pub(crate) fn code_view_at(
    alloc: Global,
    location: &MINIDUMP_LOCATION_DESCRIPTOR,
    all: Source<'_>,
    endian: Endian,
    steps: &mut Steps,
) -> Result<Option<CodeView>, Error>
    ensures means { Gives (option_map view_of)
        (ViewTakesMemory (code_view_at endian (bytes_of all.entry) location.now)) result
        (code_view_at endian (bytes_of all.entry) location.now) }
    ensures within { steps.new ≤ steps.old + 6 }
    ensures grows { steps.old ≤ steps.new }
    ensures steps { IfOk result (λ view. steps.new
        ≡ after steps.old (view_reads (option_map view_of view))) }
{
    if location.data_size == 0 {
        return Ok(None);
    }
    let bytes = location
        .bytes_in(all, steps)
        .ok_or(Error::CodeViewReadFailure)?;
    Ok(Some(read_code_view(alloc, Source::new(bytes), endian, steps)?))
}

// Reads the record in bytes: its signature, and then each of its fields.
#[tactic(auto, unfolding(crate::specs::CodeView::code_view))]
fn read_code_view(
    alloc: Global,
    bytes: Source<'_>,
    endian: Endian,
    steps: &mut Steps,
) -> Result<CodeView, Error>
    ensures means { Gives view_of (RecordTakesMemory (code_view endian (bytes_of bytes.entry))) result
        (code_view endian (bytes_of bytes.entry)) }
    ensures within { steps.new ≤ steps.old + 5 }
    ensures grows { steps.old ≤ steps.new }
    ensures steps { IfOk result (λ view. steps.new
        ≡ after steps.old (record_reads (view_of view))) }
{
    let cv_signature = number(bytes, 0, endian, steps)?;
    match CvSignature::from_u32(cv_signature) {
        Some(CvSignature::Pdb70) => read_pdb70(alloc, cv_signature, bytes, endian, steps),
        Some(CvSignature::Pdb20) => read_pdb20(alloc, cv_signature, bytes, endian, steps),
        Some(CvSignature::Elf) => {
            let build_id = bytes_from(alloc, 4, bytes, steps)?;
            Ok(CodeView::Elf(CV_INFO_ELF {
                cv_signature,
                build_id,
            }))
        }
        None => {
            let all = bytes_from(alloc, 0, bytes, steps)?;
            Ok(CodeView::Unknown(all))
        }
    }
}

// Reads the fields of a Pdb70 record that follow its signature, `RSDS`.
#[tactic(auto, unfolding(crate::specs::CodeView::pdb70_in, crate::specs::CodeView::pdb70_guid))]
fn read_pdb70(
    alloc: Global,
    cv_signature: u32,
    bytes: Source<'_>,
    endian: Endian,
    steps: &mut Steps,
) -> Result<CodeView, Error>
    requires { cv_signature ≡ number_at endian 4 0 (bytes_of bytes) }
    ensures means { Gives view_of (RecordTakesMemory (pdb70_in endian (bytes_of bytes.entry)))
        result (pdb70_in endian (bytes_of bytes.entry)) }
    ensures within { steps.new ≤ steps.old + 3 }
    ensures grows { steps.old ≤ steps.new }
    ensures steps { IfOk result (λ view. (steps.new ≡ after steps.old 3)
        × (record_reads (view_of view) ≡ 4)) }
{
    let signature: GUID = bytes
        .record(4, endian, steps)
        .ok_or(Error::CodeViewReadFailure)?;
    let age = number(bytes, 20, endian, steps)?;
    let pdb_file_name = bytes_from(alloc, 24, bytes, steps)?;
    Ok(CodeView::Pdb70(CV_INFO_PDB70 {
        cv_signature,
        signature,
        age,
        pdb_file_name,
    }))
}

// Reads the fields of a Pdb20 record that follow its signature, `NB10`.
#[tactic(auto, unfolding(crate::specs::CodeView::pdb20_in))]
fn read_pdb20(
    alloc: Global,
    cv_signature: u32,
    bytes: Source<'_>,
    endian: Endian,
    steps: &mut Steps,
) -> Result<CodeView, Error>
    requires { cv_signature ≡ number_at endian 4 0 (bytes_of bytes) }
    ensures means { Gives view_of (RecordTakesMemory (pdb20_in endian (bytes_of bytes.entry)))
        result (pdb20_in endian (bytes_of bytes.entry)) }
    ensures within { steps.new ≤ steps.old + 4 }
    ensures grows { steps.old ≤ steps.new }
    ensures steps { IfOk result (λ view. (steps.new ≡ after steps.old 4)
        × (record_reads (view_of view) ≡ 5)) }
{
    let cv_offset = number(bytes, 4, endian, steps)?;
    let signature = number(bytes, 8, endian, steps)?;
    let age = number(bytes, 12, endian, steps)?;
    let pdb_file_name = bytes_from(alloc, 16, bytes, steps)?;
    Ok(CodeView::Pdb20(CV_INFO_PDB20 {
        cv_signature,
        cv_offset,
        signature,
        age,
        pdb_file_name,
    }))
}

// Reads the 32-bit number at an offset of a record.
#[tactic(auto, using(crate::proofs::FieldLemmas::number_inside))]
fn number(bytes: Source<'_>, offset: u64, endian: Endian, steps: &mut Steps) -> Result<u32, Error>
    ensures value { IfOk result (λ n. n ≡ number_at endian 4 offset (bytes_of bytes.entry)) }
    ensures inside { IsOk result ↔ (offset + 4 ≤ length (bytes_of bytes.entry)) }
    ensures error { IfErr result (λ e. e ≡ CodeViewReadFailure) }
    ensures step { steps.new ≡ after steps.old 1 }
{
    bytes
        .record(offset, endian, steps)
        .ok_or(Error::CodeViewReadFailure)
}

// Reads the bytes from an offset of a record to its end.
fn bytes_from(
    alloc: Global,
    offset: u64,
    bytes: Source<'_>,
    steps: &mut Steps,
) -> Result<Vec<u8>, Error>
    requires { offset ≤ length (bytes_of bytes) }
    ensures means { Gives (λ v. v.items) (0 < length (drop offset (bytes_of bytes.entry))) result
        (Ok (drop offset (bytes_of bytes.entry))) }
    ensures step { steps.new ≡ after steps.old 1 }
{
    let rest = bytes
        .span(offset, bytes.len() as u64 - offset, steps)
        .ok_or(Error::CodeViewReadFailure)?;
    Ok(copy_bytes(alloc, rest)?)
}

// Makes a text of the bytes before the first NUL, with U+FFFD for what is not UTF-8.
#[tactic(auto, unfolding(crate::specs::CodeView::lossy_name))]
pub(crate) fn lossy_name(alloc: Global, bytes: &[u8]) -> Result<String, AllocError>
    ensures { IfOk result (λ t. string_bytes t ≡ lossy_name bytes.now) }
{
    String::from_utf8_lossy(alloc, before_nul(bytes))
}
