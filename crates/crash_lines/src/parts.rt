//! The parts of a row, which write themselves.
ghost use Rattle.std.specs.Prelude.{◌≡◌, ◌++◌, [], ◌∷◌, IfOk, OnOk, Some, map, string_bytes};
ghost use Rattle.std.specs.List.{concat, flat_map};
ghost use Rattle.std.specs.Option.{option_map};
ghost use Rattle.minidump_bytes.specs.LinuxOsStr.{text_of};
ghost use Rattle.minidump.specs.Below.Bytes.Piece.{piece_text};
ghost use Rattle.minidump.specs.Below.Records.Assertion.{text_or_empty};
ghost use Rattle.crash_threads.specs.Cause.{exception_of};
ghost use Rattle.crash_process.specs.Modules.{loaded_of};
ghost use Rattle.crash_lines.specs.Point.{code_at, flag_words, memory_words, names_after};
ghost use Rattle.crash_lines.specs.Point.{register_words, short_if};
ghost use Rattle.crash_lines.specs.Parts.{part_text};
ghost use Rattle.crash_lines.specs.Exceptions.{access_words, context_words, parameters_words};
ghost use Rattle.crash_lines.specs.Exceptions.{process_words, record_text, sender_words};
ghost use Rattle.crash_lines.specs.Words.{hex_unless, id_if, line_text, lossy_if, place_text};
ghost use Rattle.crash_lines.specs.Words.{stream_text, text_after, words_or};

use crate::lines::Added;
use crash::{
    Access, AddressMemory, ContextProblem, CrashException, CrashModule, Sender, ShortContext,
};
use minidump::Error;
use minidump::format::{GUID, MINIDUMP_STREAM_TYPE};
use minidump::own_streams::text_before_nul;
use minidump::system_info::{Cpu, Os};
use minidump::text::Piece::{Decimal, Hex, Left, Wide, WideDigits, Words};
use minidump::text::{Piece, push_pieces};
use minidump_bytes::LinuxOsStr;
use std::alloc::{AllocError, Global};

/// A part of a row, and what it writes. The words before a number or a text, and those after it, are
/// left out with it.
#[derive(Clone, Copy)]
pub enum Part<'a> {
    /// Words, as they are.
    Words(&'a str),
    /// Words if something is so.
    If(bool, &'a str),
    /// A number in decimal.
    Decimal(u64),
    /// A number in decimal between words, if there is one.
    DecimalIf(&'a str, Option<u64>, &'a str),
    /// A count between words, unless it is 0.
    Count(&'a str, usize, &'a str),
    /// A number in hexadecimal.
    Hex(u64),
    /// A number in hexadecimal after words, if there is one.
    HexIf(&'a str, Option<u64>),
    /// The same, unless it is this one.
    HexUnless(u64, &'a str, Option<u64>),
    /// The id of a process or a thread after words, in decimal and in hexadecimal, if it is known.
    Id(&'a str, Option<u32>),
    /// A text between words, if there is one.
    Text(&'a str, &'a Option<String>, &'a str),
    /// A text after words, unless it is absent or empty.
    TextAfter(&'a str, &'a Option<String>),
    /// A text after words, if there is one.
    Said(&'a str, Option<&'a str>),
    /// The text of UTF-16 up to its first 0 after words, unless it is empty or malformed.
    Units(&'a str, &'a [u16]),
    /// A text of Linux after words, if there is one, with U+FFFD for what isn't UTF-8.
    Lossy(&'a str, Option<LinuxOsStr<'a>>),
    /// An identifier of 128 bits.
    Guid(&'a GUID),
    /// The name of an operating system, with its number if it is unknown.
    Os(Os),
    /// The name of a processor.
    Cpu(Cpu),
    /// The name of the stream of a type, or its number if it has none.
    Stream(u32),
    /// The name of an error, if there is one.
    Failed(Option<Error>),
    /// The name of a file and its identifier after words, if it has one.
    Key(&'a str, &'a str, &'a Option<String>),
    /// The module of an index and the offset in it, or words if there is none.
    Place(&'a [CrashModule], &'a str, Option<(usize, u64)>),
    /// The state of memory, or its rights if it is committed.
    Memory(Option<AddressMemory>),
    /// What the record of an exception says beside its code and where it happened, and why its context
    /// can't be read.
    Record(&'a CrashException),
    /// A line of a source file, or of one that isn't known.
    Line(Option<LinuxOsStr<'a>>, u32),
    /// How much there is of a context after words, if it is cut.
    Short(&'a str, Option<ShortContext>),
    /// Flags and segments, each its name and its value.
    Flags(&'a [(&'static str, u64)]),
    /// Names after words, if there are any.
    Names(&'a str, &'a [&'static str]),
    /// Registers of this many bytes: the name of each in three columns, and its value.
    Registers(usize, &'a [(&'static str, u64)]),
    /// The bytes at an address, if there are any.
    Code(u64, &'a [u8]),
}

impl Part<'_> {
    // Appends what the part writes.
    #[rattlefmt::skip]
    pub(crate) fn push(&self, out: &mut String) -> Added
        ensures { OnOk result (string_bytes out.new ≡ string_bytes out.old ++ part_text self.now) }
    {
        match *self {
            Part::DecimalIf(_, None, _) | Part::Count(_, 0, _) | Part::HexIf(_, None)
            | Part::Id(_, None) | Part::Text(_, None, _) | Part::TextAfter(_, None)
            | Part::Said(_, None) | Part::Lossy(_, None) | Part::Failed(None)
            | Part::Key(_, _, None) => Ok(()),
            Part::Words(words) => out.push_str(words),
            Part::If(is_so, words) => out.push_str(words_or(is_so, words, "")),
            Part::Decimal(n) => push_pieces(out, &[Decimal(n)]),
            Part::DecimalIf(before, Some(n), after) => push_between(out, before, Decimal(n), after),
            Part::Count(before, n, after) => push_between(out, before, Decimal(n as u64), after),
            Part::Hex(n) => push_pieces(out, &[Hex(n)]),
            Part::HexIf(words, Some(n)) => push_between(out, words, Hex(n), ""),
            Part::HexUnless(known, words, n) => push_unless(out, known, words, n),
            Part::Id(words, Some(id)) => push_id(out, words, id),
            Part::Text(before, Some(text), after) =>
                push_between(out, before, Words(text.as_str()), after),
            Part::TextAfter(words, Some(text)) => push_after(out, words, text.as_str()),
            Part::Said(words, Some(text)) => push_between(out, words, Words(text), ""),
            Part::Units(words, units) => push_units(out, words, units),
            Part::Lossy(words, Some(text)) => push_lossy(out, words, text),
            Part::Guid(guid) => write!(out, "{guid}"),
            Part::Os(Os::Unknown(n)) => push_pieces(out, &[Words("unknown "), Hex(n as u64)]),
            Part::Os(os) => write!(out, "{os}"),
            Part::Cpu(cpu) => write!(out, "{cpu}"),
            Part::Stream(number) => push_stream(out, number),
            Part::Failed(Some(error)) => push_between(out, ": ", Words(error.name()), ""),
            Part::Key(words, file, Some(id)) =>
                push_pieces(out, &[Words(words), Words(file), Words("/"), Words(id.as_str())]),
            Part::Place(modules, nowhere, place) => push_place(out, modules, nowhere, place),
            Part::Memory(memory) => push_memory(out, memory),
            Part::Record(exception) => push_record(out, exception),
            Part::Line(file, line) => push_source(out, file, line),
            Part::Short(words, short) => push_short(out, words, short),
            Part::Flags(flags) => push_flags(out, flags),
            Part::Names(words, names) => push_names(out, words, names),
            Part::Registers(size, registers) => push_registers(out, size, registers),
            Part::Code(address, code) => push_code(out, address, code),
        }
    }
}

// Makes the text of parts.
pub(crate) fn format_parts(alloc: Global, parts: &[Part<'_>]) -> Result<String, AllocError>
    ensures { IfOk result (λ text. string_bytes text ≡ flat_map part_text parts.now) }
{
    let mut text = String::new(alloc);
    for part in parts {
        part.push(&mut text)?;
    }
    Ok(text)
}

// ---- numbers

// Appends a number or a text between words.
fn push_between(out: &mut String, before: &str, piece: Piece<'_>, after: &str) -> Added
    ensures { OnOk result (string_bytes out.new ≡ string_bytes out.old
        ++ concat (before.now ∷ piece_text piece.entry ∷ after.now ∷ [])) }
{
    push_pieces(out, &[Words(before), piece, Words(after)])
}

// Appends a number in hexadecimal after words, if there is one, unless it is this one.
fn push_unless(out: &mut String, known: u64, words: &str, n: Option<u64>) -> Added
    ensures { OnOk result
        (string_bytes out.new ≡ string_bytes out.old ++ hex_unless known words.now n) }
{
    match n {
        Some(n) if n != known => push_between(out, words, Hex(n), ""),
        _ => Ok(()),
    }
}

// Appends the id of a process or a thread after words.
#[rattlefmt::skip]
fn push_id(out: &mut String, words: &str, id: u32) -> Added
    ensures { OnOk result
        (string_bytes out.new ≡ string_bytes out.old ++ id_if words.now (Some id)) }
{
    push_pieces(out, &[
        Words(words), Decimal(id as u64), Words(" ("), Hex(id as u64), Words(")"),
    ])
}

// ---- texts

// Returns words if something is so, or else the others.
fn words_or<'x>(is_so: bool, words: &'x str, others: &'x str) -> &'x str
    ensures { result.now ≡ words_or is_so words.now others.now }
{
    if is_so { words } else { others }
}

// Appends a text after words, unless it is empty.
fn push_after(out: &mut String, words: &str, text: &str) -> Added
    ensures { OnOk result
        (string_bytes out.new ≡ string_bytes out.old ++ text_after words.now text.now) }
{
    match text.as_bytes() {
        [] => Ok(()),
        _ => push_pieces(out, &[Words(words), Words(text)]),
    }
}

// Appends a text of Linux after words.
fn push_lossy(out: &mut String, words: &str, text: LinuxOsStr<'_>) -> Added
    ensures { OnOk result (string_bytes out.new
        ≡ string_bytes out.old ++ lossy_if words.now (Some (text_of text.entry))) }
{
    let text = text.to_string_lossy(*out.allocator())?;
    push_between(out, words, Words(text.as_str()), "")
}

// Appends the text of UTF-16 up to its first 0 after words, unless it is empty or malformed.
fn push_units(out: &mut String, words: &str, units: &[u16]) -> Added
    ensures { OnOk result (string_bytes out.new
        ≡ string_bytes out.old ++ text_after words.now (text_or_empty units.now)) }
{
    match text_before_nul(*out.allocator(), units)? {
        Some(text) => push_after(out, words, text.as_str()),
        None => Ok(()),
    }
}

// Appends the name of the stream of a type, or its number if it has none.
fn push_stream(out: &mut String, number: u32) -> Added
    ensures { OnOk result (string_bytes out.new ≡ string_bytes out.old ++ stream_text number) }
{
    match MINIDUMP_STREAM_TYPE::from_u32(number) {
        Some(known_type) => out.push_str(known_type.name()),
        None => push_pieces(out, &[Words("stream "), Hex(number as u64)]),
    }
}

// Appends a line of a source file, or of one that isn't known.
fn push_source(out: &mut String, file: Option<LinuxOsStr<'_>>, line: u32) -> Added
    ensures { OnOk result (string_bytes out.new
        ≡ string_bytes out.old ++ line_text (option_map text_of file.entry) line) }
{
    match file {
        Some(file) => {
            push_lossy(out, " at ", file)?;
            push_between(out, ":", Decimal(line as u64), "")
        }
        None => push_between(out, " at line ", Decimal(line as u64), ""),
    }
}

// Appends how much there is of a context after words, if it is cut.
#[rattlefmt::skip]
fn push_short(out: &mut String, words: &str, short: Option<ShortContext>) -> Added
    ensures { OnOk result (string_bytes out.new ≡ string_bytes out.old ++ short_if words.now short) }
{
    match short {
        Some(short) => push_pieces(out, &[
            Words(words), Words("context of "), Decimal(short.size as u64), Words(" of "),
            Decimal(short.whole as u64), Words(" bytes"),
        ]),
        None => Ok(()),
    }
}

// ---- modules and memory

// Appends the module of an index with an offset in it, or words if there is none.
#[rattlefmt::skip]
fn push_place(
    out: &mut String,
    modules: &[CrashModule],
    nowhere: &str,
    place: Option<(usize, u64)>,
) -> Added
    ensures { OnOk result (string_bytes out.new ≡ string_bytes out.old
        ++ place_text (map loaded_of modules.now) nowhere.now place) }
{
    if let Some((index, offset)) = place && let Some(module) = modules.get(index) {
        push_pieces(out, &[
            Words(" in "), Words(module.path.as_str()), Words("+"), Hex(offset),
        ])
    } else {
        out.push_str(nowhere)
    }
}

// Appends the state of memory, or its rights if it is committed.
#[rattlefmt::skip]
fn push_memory(out: &mut String, memory: Option<AddressMemory>) -> Added
    ensures { OnOk result (string_bytes out.new ≡ string_bytes out.old ++ memory_words memory) }
{
    match memory {
        Some(AddressMemory::Free) => out.push_str(", memory free"),
        Some(AddressMemory::Reserved) => out.push_str(", memory reserved"),
        Some(AddressMemory::Committed(rights)) => push_pieces(out, &[
            Words(", memory "), Words(words_or(rights.is_readable, "r", "-")),
            Words(words_or(rights.is_writable, "w", "-")),
            Words(words_or(rights.is_executable, "x", "-")),
            Words(words_or(rights.is_guarded, " guarded", "")),
        ]),
        None => Ok(()),
    }
}

// ---- lists

// Appends flags and segments, each its name and its value.
fn push_flags(out: &mut String, flags: &[(&'static str, u64)]) -> Added
    ensures { OnOk result (string_bytes out.new ≡ string_bytes out.old
        ++ flat_map flag_words (map (λ r. (r.0.now, r.1)) flags.now)) }
{
    for flag in flags {
        push_pieces(out, &[Words("  "), Words(flag.0), Words(" "), Hex(flag.1)])?;
    }
    Ok(())
}

// Appends names after words, if there are any.
fn push_names(out: &mut String, words: &str, names: &[&'static str]) -> Added
    ensures { OnOk result (string_bytes out.new ≡ string_bytes out.old
        ++ names_after words.now (map (λ name. name.now) names.now)) }
{
    if names.is_empty() {
        return Ok(());
    }
    out.push_str(words)?;
    for name in names {
        push_pieces(out, &[Words(" "), Words(name)])?;
    }
    Ok(())
}

// Appends registers of `size` bytes each: the name of each in three columns, and its value.
#[rattlefmt::skip]
fn push_registers(out: &mut String, size: usize, registers: &[(&'static str, u64)]) -> Added
    ensures { OnOk result (string_bytes out.new ≡ string_bytes out.old
        ++ flat_map (register_words size) (map (λ r. (r.0.now, r.1)) registers.now)) }
{
    let digits = 2 * size.min(8);
    for register in registers {
        push_pieces(out, &[
            Words("  "), Left(3, register.0), Words(" "), Wide(register.1, digits),
        ])?;
    }
    Ok(())
}

// Appends the bytes at an address, if there are any.
fn push_code(out: &mut String, address: u64, code: &[u8]) -> Added
    ensures { OnOk result
        (string_bytes out.new ≡ string_bytes out.old ++ code_at address code.now) }
{
    if code.is_empty() {
        return Ok(());
    }
    push_pieces(out, &[Words("bytes at "), Hex(address), Words(":")])?;
    for byte in code {
        push_pieces(out, &[Words(" "), WideDigits(*byte as u64, 2)])?;
    }
    Ok(())
}

// ---- the record of an exception

// Appends what the record of an exception says beside its code and where it happened, and why the
// context can't be read.
fn push_record(out: &mut String, exception: &CrashException) -> Added
    ensures { OnOk result (string_bytes out.new
        ≡ string_bytes out.old ++ record_text (exception_of exception.now)) }
{
    push_unless(out, 0, ", flags ", Some(exception.flags as u64))?;
    push_unless(out, 0, ", nested record at ", Some(exception.nested))?;
    out.push_str(access_words(exception.access))?;
    push_sender(out, exception.sender)?;
    push_parameters(out, exception.parameters.as_slice())?;
    push_problem(out, exception.context_problem)
}

// Returns the words for how memory was accessed.
fn access_words(access: Option<Access>) -> &'static str
    ensures { result.now ≡ access_words access }
{
    match access {
        Some(Access::Read) => ", access read",
        Some(Access::Write) => ", access write",
        Some(Access::Execute) => ", access execute",
        None => "",
    }
}

// Appends the process that sent a signal with its user and how, if one did.
fn push_sender(out: &mut String, sender: Option<Sender>) -> Added
    ensures { OnOk result (string_bytes out.new ≡ string_bytes out.old ++ sender_words sender) }
{
    match sender {
        Some(sender) => {
            push_process(out, sender.process)?;
            if let Some(user) = sender.user {
                push_pieces(out, &[Words(", user "), Decimal(user as u64)])?;
            }
            push_pieces(out, &[Words(", "), Words(sender.code.name())])
        }
        None => Ok(()),
    }
}

// Appends the process that sent a signal.
fn push_process(out: &mut String, id: Option<u32>) -> Added
    ensures { OnOk result (string_bytes out.new ≡ string_bytes out.old ++ process_words id) }
{
    match id {
        Some(id) => push_id(out, ", sent by process ", id),
        None => out.push_str(", sent by an unknown process"),
    }
}

// Appends the parameters, if there are any.
fn push_parameters(out: &mut String, parameters: &[u64]) -> Added
    ensures { OnOk result
        (string_bytes out.new ≡ string_bytes out.old ++ parameters_words parameters.now) }
{
    match parameters {
        [first, others @ ..] => {
            push_pieces(out, &[Words(", parameters "), Hex(*first)])?;
            for other in others {
                push_pieces(out, &[Words(", "), Hex(*other)])?;
            }
            Ok(())
        }
        [] => Ok(()),
    }
}

// Appends why the context of an exception can't be read: that it is outside the file, or that it isn't
// accepted, and then its size, unless that is 0.
fn push_problem(out: &mut String, problem: Option<ContextProblem>) -> Added
    ensures { OnOk result (string_bytes out.new ≡ string_bytes out.old ++ context_words problem) }
{
    match problem {
        Some(ContextProblem::Outside) => out.push_str(", its context is outside the file"),
        Some(ContextProblem::NotAccepted { size: 0 }) => {
            out.push_str(", no context that can be read")
        }
        Some(ContextProblem::NotAccepted { size }) => {
            let size = Decimal(size as u64);
            push_between(out, ", no context that can be read, ", size, " bytes")
        }
        Some(ContextProblem::NoSystem) | None => Ok(()),
    }
}
