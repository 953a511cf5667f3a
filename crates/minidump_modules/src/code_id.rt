ghost use Rattle.std.specs.Prelude.{◌≡◌, ◌<◌, IfOk, IsOkUnless, OnErr, length, string_bytes};
ghost use Rattle.hex.specs.Hex.{encode_lower};
ghost use Rattle.minidump_modules.specs.CodeId.{kept_digits, stamp_form, text_of};

use crate::text::copy_text;
use minidump_format::Error;
use std::alloc::{AllocError, Global};
use std::fmt;

/// The identifier of a module's code: hexadecimal digits in lower case.
#[derive(Debug, Drop, PartialEq, Eq)]
pub struct CodeId {
    text: String,
}

impl CodeId {
    /// Makes the identifier of the hexadecimal digits in a text, in lower case; other characters
    /// are left out. The only error is [`Error::OutOfMemory`], which comes only if there is a
    /// digit.
    pub fn new(alloc: Global, text: &str) -> Result<CodeId, Error>
        ensures digits { IfOk result (λ id. text_of id ≡ kept_digits text.now) }
        ensures memory { IsOkUnless result Error.OutOfMemory }
        ensures some { OnErr result (0 < length (kept_digits text.now)) }
    {
        Ok(CodeId {
            text: kept_digits(alloc, text.as_bytes())?,
        })
    }

    /// Makes the identifier of bytes, two digits each. The only error is [`Error::OutOfMemory`],
    /// which comes only if there is a byte.
    pub fn from_binary(alloc: Global, bytes: &[u8]) -> Result<CodeId, Error>
        ensures digits { IfOk result (λ id. text_of id ≡ encode_lower bytes.now) }
        ensures memory { IsOkUnless result Error.OutOfMemory }
        ensures some { OnErr result (0 < length bytes.now) }
    {
        if bytes.is_empty() {
            return Ok(CodeId {
                text: String::new(alloc),
            });
        }
        Ok(CodeId {
            text: hex::encode(alloc, bytes)?,
        })
    }

    // Makes the identifier of a time stamp, in eight digits, and a size.
    pub(crate) fn from_stamp(alloc: Global, stamp: u32, size: u32) -> Result<CodeId, Error>
        ensures digits { IfOk result (λ id. text_of id ≡ stamp_form stamp size) }
        ensures memory { IsOkUnless result Error.OutOfMemory }
    {
        Ok(CodeId {
            text: stamp_text(alloc, stamp, size)?,
        })
    }

    /// Returns the digits.
    pub fn as_str(&self) -> &str
        ensures { result.now ≡ text_of self.now }
    {
        self.text.as_str()
    }

    /// Copies the identifier. The only error is [`Error::OutOfMemory`], which comes only if it has
    /// a digit.
    pub fn try_clone(&self, alloc: Global) -> Result<CodeId, Error>
        ensures same { IfOk result (λ id. text_of id ≡ text_of self.now) }
        ensures memory { IsOkUnless result Error.OutOfMemory }
        ensures some { OnErr result (0 < length (text_of self.now)) }
    {
        Ok(CodeId {
            text: copy_text(alloc, self.text.as_str())?,
        })
    }
}

/// Formats the digits.
impl fmt::Display for CodeId {
    ghost use Rattle.std.specs.Prelude.{Some};
    ghost use Rattle.minidump_modules.specs.CodeId.{text_of};

    ghost output = { λ id. Some (text_of id) };

    fn fmt<W: fmt::Write>(&self, f: &mut fmt::Formatter<W>) -> fmt::Result {
        f.write_str(self.text.as_str())
    }
}

fn stamp_text(alloc: Global, stamp: u32, size: u32) -> Result<String, AllocError>
    ensures { IfOk result (λ t. string_bytes t ≡ stamp_form stamp size) }
{
    format!(in alloc; "{stamp:08x}{size:x}")
}

fn kept_digits(alloc: Global, bytes: &[u8]) -> Result<String, AllocError>
    ensures digits { IfOk result (λ t. string_bytes t ≡ kept_digits bytes.now) }
    ensures some { OnErr result (0 < length (kept_digits bytes.now)) }
{
    let mut digits = String::new(alloc);
    for byte in bytes {
        if byte.is_ascii_hexdigit() {
            digits.push(byte.to_ascii_lowercase() as char)?;
        }
    }
    Ok(digits)
}
