ghost use Rattle.std.proofs.Common.{rules};
ghost use Rattle.std.specs.Prelude.{◌≡◌};
ghost use Rattle.minidump_format.specs.CodeView.{signature_number, signature_of};

use super::GUID;
use minidump_bytes::Exact;

/// The named kinds of CodeView record, by the signature in their first four bytes.
#[derive(Clone, Copy, Debug, PartialEq, Eq)]
pub enum CvSignature {
    /// `NB10`: a program database identified by a time stamp, [`CV_INFO_PDB20`].
    Pdb20 = 0x3031_424e,
    /// `RSDS`: a program database identified by a GUID, [`CV_INFO_PDB70`].
    Pdb70 = 0x5344_5352,
    /// Breakpad's: an ELF file identified by its build id, [`CV_INFO_ELF`].
    Elf = 0x4270_454c,
}

impl CvSignature {
    /// Returns the kind with the number `n`, or `None` if there is none.
    pub fn from_u32(n: u32) -> Option<CvSignature>
        ensures { result ≡ signature_of n }
    {
        Some(match n {
            0x3031_424e => CvSignature::Pdb20,
            0x5344_5352 => CvSignature::Pdb70,
            0x4270_454c => CvSignature::Elf,
            _ => return None,
        })
    }

    /// Returns the number of the kind.
    pub fn number(self) -> u32
        ensures { result ≡ signature_number self }
    {
        self as u32
    }
}

impl Exact for CvSignature {
    ghost exact = { Prim.search rules };
}

/// A program database identified by a GUID: the CodeView record `CV_INFO_PDB70`, of 24 bytes and a
/// name.
#[derive(Drop)]
pub struct CV_INFO_PDB70 {
    /// [`CvSignature::Pdb70`], as a number.
    pub cv_signature: u32,
    /// The identifier of the program database.
    pub signature: GUID,
    /// The age: how often the program database was written.
    pub age: u32,
    /// The record's bytes from here to its end: the path of the program database, ended by a NUL.
    pub pdb_file_name: Vec<u8>,
}

/// A program database identified by a time stamp: the CodeView record `CV_INFO_PDB20`, of 16 bytes
/// and a name.
#[derive(Drop)]
pub struct CV_INFO_PDB20 {
    /// [`CvSignature::Pdb20`], as a number.
    pub cv_signature: u32,
    /// The offset of the debug information; 0 where it is in a file of its own.
    pub cv_offset: u32,
    /// When the program database was created, in seconds since 1970.
    pub signature: u32,
    /// The age: how often the program database was written.
    pub age: u32,
    /// The record's bytes from here to its end: the path of the program database, ended by a NUL.
    pub pdb_file_name: Vec<u8>,
}

/// An ELF file identified by its build id: Breakpad's `MDCVInfoELF`, of 4 bytes and the build id.
#[derive(Drop)]
pub struct CV_INFO_ELF {
    /// [`CvSignature::Elf`], as a number.
    pub cv_signature: u32,
    /// The record's bytes from here to its end: the build id.
    pub build_id: Vec<u8>,
}
