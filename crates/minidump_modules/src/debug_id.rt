ghost use Rattle.std.proofs.Common.{rules};
ghost use Rattle.std.specs.Prelude.{◌≡◌, length};
ghost use Rattle.minidump_format.specs.Guid.{uuid_text};
ghost use Rattle.minidump_modules.specs.DebugId.{breakpad_digits, by_guid, by_stamp, from_breakpad, sixteen_bytes};

use minidump_bytes::{Exact, number_32};
use std::fmt;
use std::marker::Model;
use uuid::Uuid;

/// The identifier of a module's debug file: a GUID and an appendix, such as the age of a program
/// database, or the time stamp and the age of an old one.
#[derive(Clone, Copy, Debug, PartialEq, Eq)]
pub struct DebugId {
    kind: Kind,
}

#[derive(Clone, Copy, Debug, PartialEq, Eq)]
enum Kind {
    Guid(Uuid, u32),
    Stamp(u32, u32),
}

impl DebugId {
    /// Reads Breakpad's form: the 32 hexadecimal digits of a GUID, then 1 to 8 of the appendix.
    /// Returns `None` for any other text.
    pub fn from_breakpad(text: &str) -> Option<DebugId>
        ensures { result ≡ from_breakpad text.now }
    {
        let bytes = text.as_bytes();
        if bytes.len() < 33 || bytes.len() > 40 {
            return None;
        }
        let uuid = sixteen_bytes(&bytes[..32])?;
        let appendix = number_32(&bytes[32..], 16)?;
        Some(DebugId::from_parts(uuid, appendix))
    }

    /// Makes the identifier of a GUID with an appendix.
    pub fn from_parts(uuid: Uuid, appendix: u32) -> DebugId
        ensures { result ≡ by_guid uuid appendix }
    {
        DebugId {
            kind: Kind::Guid(uuid, appendix),
        }
    }

    /// Makes the identifier of an old program database, by its time stamp and its age.
    pub fn from_pdb20(timestamp: u32, age: u32) -> DebugId
        ensures { result ≡ by_stamp timestamp age }
    {
        DebugId {
            kind: Kind::Stamp(timestamp, age),
        }
    }

    /// Makes the identifier of a GUID with the appendix 0.
    pub fn from_uuid(uuid: Uuid) -> DebugId
        ensures { result ≡ by_guid uuid 0 }
    {
        DebugId::from_parts(uuid, 0)
    }

    /// Returns this identifier as Breakpad writes it, by which symbol servers name their folders.
    pub fn breakpad(&self) -> BreakpadFormat
        ensures { result ≡ self.now }
    {
        BreakpadFormat { id: *self }
    }
}

impl Exact for DebugId {
    ghost exact = { Prim.search rules };
}

/// Formats a GUID in lower case with hyphens, and a time stamp as eight digits in upper case; an
/// appendix other than 0 follows a hyphen.
impl fmt::Display for DebugId {
    ghost use Rattle.std.specs.Prelude.{Some};
    ghost use Rattle.minidump_modules.specs.DebugId.{debug_id_text};

    ghost output = { λ id. Some (debug_id_text id) };

    fn fmt<W: fmt::Write>(&self, f: &mut fmt::Formatter<W>) -> fmt::Result {
        match self.kind {
            Kind::Guid(uuid, appendix) => {
                if appendix == 0 {
                    write!(f, "{uuid}")
                } else {
                    write!(f, "{uuid}-{appendix:x}")
                }
            }
            Kind::Stamp(stamp, age) => {
                if age == 0 {
                    write!(f, "{stamp:08X}")
                } else {
                    write!(f, "{stamp:08X}-{age:x}")
                }
            }
        }
    }
}

/// A debug identifier as Breakpad writes it.
#[derive(Clone, Copy)]
pub struct BreakpadFormat {
    id: DebugId,
}

impl Model for BreakpadFormat {
    ghost use Rattle.minidump_modules.specs.declared.debug_id.DebugId.{DebugId};

    ghost Value = { DebugId };

    ghost view = { λ form. form.id };

    ghost inverse = { λ id. record { id = id } };
}

/// Formats a GUID as its 32 digits and a time stamp as its digits, both in upper case; the appendix
/// or the age follows in lower case, also where it is 0.
impl fmt::Display for BreakpadFormat {
    ghost use Rattle.std.specs.Prelude.{Some};
    ghost use Rattle.minidump_modules.specs.DebugId.{breakpad_text};

    ghost output = { λ id. Some (breakpad_text id) };

    fn fmt<W: fmt::Write>(&self, f: &mut fmt::Formatter<W>) -> fmt::Result {
        match self.id.kind {
            Kind::Guid(uuid, appendix) => {
                let mut buffer = Uuid::encode_buffer();
                let digits = breakpad_digits(uuid, &mut buffer);
                write!(f, "{digits}{appendix:x}")
            }
            Kind::Stamp(stamp, age) => write!(f, "{stamp:X}{age:x}"),
        }
    }
}

// Writes a GUID to a buffer, in lower case with hyphens, and returns its text.
#[tactic(auto, unfolding(minidump_format::specs::Guid::uuid_text))]
pub(crate) fn guid_of(uuid: Uuid, buffer: &mut [u8; 45]) -> &str
    ensures { result.now ≡ uuid_text uuid }
{
    uuid.hyphenated().encode_lower(buffer)
}

// Writes the 32 digits of a GUID to a buffer, in upper case, and returns their text.
#[tactic(auto, unfolding(crate::specs::DebugId::breakpad_digits))]
fn breakpad_digits(uuid: Uuid, buffer: &mut [u8; 45]) -> &str
    ensures { result.now ≡ breakpad_digits uuid }
{
    uuid.simple().encode_upper(buffer)
}

// Reads the GUID of 32 digits.
fn sixteen_bytes(digits: &[u8]) -> Option<Uuid>
    requires { length digits.now ≡ 32 }
    ensures { result ≡ sixteen_bytes digits.now }
{
    Uuid::try_parse_ascii(digits).ok()
}
