ghost use Rattle.std.specs.Prelude.{◌≡◌, ◌++◌, ◌==◌, ◌<◌, IfOk, IsOkUnless, OnErr, OnOk, length, string_bytes};
ghost use Rattle.std.specs.List.{before_first};
ghost use Rattle.std.specs.Option.{option_map};
ghost use Rattle.minidump_format.specs.Print.{Prints};
ghost use Rattle.minidump_records.specs.Assertion.{assertion_of, assertion_text, fields_text, text_or_empty};
ghost use Rattle.minidump_bytes.specs.Text16.{text_before_nul};

use minidump_bytes::{Endian, Piece, Source, Steps, Told, push_pieces, text_before_nul};
use minidump_format::format::MINIDUMP_ASSERTION_INFO;
use minidump_format::{Error, Pushed, print_item};
use minidump_system::{MinidumpStream, MinidumpSystemInfo};
use std::alloc::{AllocError, Global};
use std::io::Write;

/// An assertion that failed, which Breakpad writes.
#[derive(Drop)]
pub struct MinidumpAssertion {
    /// The record of the stream.
    pub raw: MINIDUMP_ASSERTION_INFO,
}

/// The texts. Each ends before its first NUL, or after its 128 code units if there is none, and is
/// `Ok(None)` if a surrogate in it lacks its partner. The only error is [`Error::OutOfMemory`], and
/// only if the text is not empty.
impl MinidumpAssertion {
    /// Returns the expression that was false.
    pub fn expression(&self, alloc: Global) -> Result<Option<String>, Error>
        ensures value { IfOk result
            (λ text. option_map string_bytes text ≡ text_before_nul self.now.raw.expression) }
        ensures memory { IsOkUnless result Error.OutOfMemory }
        ensures some { OnErr result
            (0 < length (before_first (λ unit. unit == 0) self.now.raw.expression)) }
    {
        Ok(text_before_nul(alloc, &self.raw.expression)?)
    }

    /// Returns the name of the function in which the assertion stands.
    pub fn function(&self, alloc: Global) -> Result<Option<String>, Error>
        ensures value { IfOk result
            (λ text. option_map string_bytes text ≡ text_before_nul self.now.raw.function) }
        ensures memory { IsOkUnless result Error.OutOfMemory }
        ensures some { OnErr result
            (0 < length (before_first (λ unit. unit == 0) self.now.raw.function)) }
    {
        Ok(text_before_nul(alloc, &self.raw.function)?)
    }

    /// Returns the name of the source file in which the assertion stands.
    pub fn file(&self, alloc: Global) -> Result<Option<String>, Error>
        ensures value { IfOk result
            (λ text. option_map string_bytes text ≡ text_before_nul self.now.raw.file) }
        ensures memory { IsOkUnless result Error.OutOfMemory }
        ensures some { OnErr result
            (0 < length (before_first (λ unit. unit == 0) self.now.raw.file)) }
    {
        Ok(text_before_nul(alloc, &self.raw.file)?)
    }
}

impl MinidumpAssertion {
    /// Prints the record. What is no text is printed as an empty one.
    pub fn print<W: Write>(&self, alloc: Global, f: &mut Told<W>) -> Result<(), Error>
        ensures { Prints W.contents f.old f.new (assertion_text (assertion_of self.now)) result }
    {
        print_item(self, alloc, f)
    }
}

impl Pushed for MinidumpAssertion {
    ghost text = { λ a. assertion_text (assertion_of a) };

    fn push(&self, out: &mut Vec<u8>) -> Result<(), AllocError> {
        let alloc = *out.allocator();
        let expression = text_or_empty(alloc, &self.raw.expression)?;
        let function = text_or_empty(alloc, &self.raw.function)?;
        let file = text_or_empty(alloc, &self.raw.file)?;
        push_fields(
            out,
            &self.raw,
            expression.as_str(),
            function.as_str(),
            file.as_str(),
        )
    }
}

/// Reads Breakpad's `MDRawAssertionInfo`. Returns `StreamReadFailure` if the stream is shorter than
/// the record. Takes no memory.
impl<'a> MinidumpStream<'a> for MinidumpAssertion {
    ghost use Rattle.minidump_format.specs.declared.format.assertion.MINIDUMP_ASSERTION_INFO.{MINIDUMP_ASSERTION_INFO};
    ghost use Rattle.minidump_records.specs.Assertion.{assertion_stream};

    ghost Value = { MINIDUMP_ASSERTION_INFO };

    ghost spec = { assertion_stream };

    const STREAM_TYPE: u32 = 0x4767_0002;

    fn number_of_type() -> u32 {
        Self::STREAM_TYPE
    }

    fn read(
        _alloc: Global,
        bytes: Source<'a>,
        _all: Source<'a>,
        endian: Endian,
        _system_info: Option<&MinidumpSystemInfo>,
        steps: &mut Steps,
    ) -> Result<Self, Error> {
        let raw = bytes
            .record(0, endian, steps)
            .ok_or(Error::StreamReadFailure)?;
        Ok(MinidumpAssertion { raw })
    }
}

// Returns the text before the first NUL, or an empty one if that is no text.
fn text_or_empty(alloc: Global, units: &[u16]) -> Result<String, AllocError>
    ensures { IfOk result (λ text. string_bytes text ≡ text_or_empty units.now) }
{
    match text_before_nul(alloc, units)? {
        Some(text) => Ok(text),
        None => Ok(String::new(alloc)),
    }
}

#[rattlefmt::skip]
#[tactic(auto, unfolding(crate::specs::Assertion::fields_text))]
fn push_fields<'t>(
    out: &mut Vec<u8>,
    raw: &MINIDUMP_ASSERTION_INFO,
    expression: &'t str,
    function: &'t str,
    file: &'t str,
) -> Result<(), AllocError>
    ensures { OnOk result (out.new.items ≡ out.old.items
        ++ fields_text raw.now expression.now function.now file.now) }
{
    push_pieces(out, &[
        Piece::Words("MDAssertion\n"),
        Piece::Words("  expression                                 = "), Piece::Words(expression), Piece::Words("\n"),
        Piece::Words("  function                                   = "), Piece::Words(function), Piece::Words("\n"),
        Piece::Words("  file                                       = "), Piece::Words(file), Piece::Words("\n"),
        Piece::Words("  line                                       = "), Piece::Decimal(raw.line as u64), Piece::Words("\n"),
        Piece::Words("  type                                       = "), Piece::Decimal(raw._type as u64), Piece::Words("\n\n"),
    ])
}
