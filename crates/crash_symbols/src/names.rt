ghost use Rattle.std.specs.Prelude.{◌≡◌, IfOk, map, reverse};
ghost use Rattle.std.specs.Option.{option_copied, option_map};
ghost use Rattle.breakpad_symbols.specs.Function.{function_of};
ghost use Rattle.breakpad_symbols.specs.SymbolFile.{symbols_of};
ghost use Rattle.crash_symbols.specs.NameParts.{call_of, function_of as name_value, named_of, source_of};
ghost use Rattle.crash_symbols.specs.Names.{calls_in, inlines_by, line_around};
ghost use Rattle.crash_symbols.specs.Names.{line_at, named_at, named_in, public_name, source_of_call};
ghost use Rattle.crash_symbols.specs.Symbols.{files_of, known_of};

use crate::Symbols;
use breakpad_symbols::{Function, InlineCall, SymbolFile};
use crash::CrashFrame;
use minidump_bytes::LinuxOsStr;
use std::alloc::{AllocError, Global};
use symbol_walk::function_at;

// How many calls in one another are looked for at most.
const MAX_DEPTH: u32 = 1_000;

/// A frame with what the symbol file of its module says of it.
#[derive(Drop)]
pub struct NamedFrame<'l> {
    /// The frame.
    pub frame: CrashFrame,
    /// The function that the frame's address lies in.
    pub function: Option<FrameFunction<'l>>,
    /// The source line in that function: where calls were put in place, the line of the outermost
    /// of them.
    pub line: Option<SourceLine<'l>>,
    /// The calls that the compiler put in place at the frame's address, the innermost first.
    pub inlines: Vec<InlinedCall<'l>>,
}

/// A function, or a public symbol where no function is known.
#[derive(Clone, Copy)]
pub struct FrameFunction<'l> {
    /// The name.
    pub name: LinuxOsStr<'l>,
    /// The offset of the frame's address from the first address of the function or symbol.
    pub offset: u64,
}

/// A line of a source file.
#[derive(Clone, Copy)]
pub struct SourceLine<'l> {
    /// The name of the file, or `None` if the symbol file lacks it.
    pub file: Option<LinuxOsStr<'l>>,
    /// The number of the line.
    pub line: u32,
}

/// A call that the compiler put in place: the code of the function that was called stands in that
/// of the caller.
#[derive(Clone, Copy)]
pub struct InlinedCall<'l> {
    /// The function that was called, or `None` if the symbol file lacks its name.
    pub function: Option<LinuxOsStr<'l>>,
    /// The source line in that function: of the frame's address in the innermost call, and in each
    /// other one of the call in it.
    pub source: Option<SourceLine<'l>>,
}

// Returns a frame with what the symbol file of its module says of it.
#[tactic(auto, unfolding(crate::specs::Names::named_in))]
pub(crate) fn named_in<'l>(
    alloc: Global,
    symbols: Option<&Symbols<'l>>,
    frame: CrashFrame,
) -> Result<NamedFrame<'l>, AllocError>
    ensures { IfOk result (λ f. named_of f
        ≡ named_in (files_of (option_map known_of (option_copied symbols.entry))) frame) }
{
    if let (Some((index, offset)), Some(symbols)) = (frame.module, symbols) {
        if let Some(file) = symbols.file(index) {
            return named_at(alloc, file, frame, offset);
        }
    }
    Ok(NamedFrame {
        frame,
        function: None,
        line: None,
        inlines: Vec::new(alloc),
    })
}

// Returns a frame with what a symbol file says of an offset.
fn named_at<'l>(
    alloc: Global,
    file: &'l SymbolFile<'l>,
    frame: CrashFrame,
    offset: u64,
) -> Result<NamedFrame<'l>, AllocError>
    ensures { IfOk result (λ f. named_of f ≡ named_at (symbols_of file.now) frame offset) }
{
    let Some(function) = function_at(file, offset) else {
        return Ok(NamedFrame {
            frame,
            function: public_name(file, offset),
            line: None,
            inlines: Vec::new(alloc),
        });
    };
    let calls = calls_in(alloc, function, offset)?;
    let (line, inlines) = inlines_by(alloc, file, line_at(file, function, offset), calls)?;
    let name = FrameFunction {
        name: function.name,
        offset: offset.saturating_sub(function.address),
    };
    Ok(NamedFrame {
        frame,
        function: Some(name),
        line,
        inlines,
    })
}

// Returns the name of the public symbol of an offset.
fn public_name<'l>(file: &'l SymbolFile<'l>, offset: u64) -> Option<FrameFunction<'l>>
    ensures { option_map name_value result ≡ public_name (symbols_of file.now) offset }
{
    let symbol = file.public_at(offset)?;
    Some(FrameFunction {
        name: symbol.name,
        offset: offset.saturating_sub(symbol.address),
    })
}

// Returns the source line of the line record of an offset in a function.
fn line_at<'l>(
    file: &'l SymbolFile<'l>,
    function: &Function<'l>,
    offset: u64,
) -> Option<SourceLine<'l>>
    ensures { option_map source_of result
        ≡ line_at (symbols_of file.now) (function_of function.now) offset }
{
    let record = function.line_at(offset)?;
    Some(SourceLine {
        file: file.file_name(record.file),
        line: record.line,
    })
}

// Returns the source line of a call put in place.
fn source_of_call<'l>(file: &'l SymbolFile<'l>, call: &InlineCall) -> SourceLine<'l>
    ensures { source_of result ≡ source_of_call (symbols_of file.now) call.now }
{
    let file = match call.file {
        Some(number) => file.file_name(number),
        None => None,
    };
    SourceLine {
        file,
        line: call.line,
    }
}

// Returns the calls put in place at an offset of a function, by their depths from 0 on.
#[tactic(auto, unfolding(crate::specs::Names::by_depth))]
fn calls_in(
    alloc: Global,
    function: &Function<'_>,
    offset: u64,
) -> Result<Vec<InlineCall>, AllocError>
    ensures { IfOk result (λ calls. calls.items ≡ calls_in (function_of function.now) offset) }
{
    let calls = function.inlines_at(alloc, offset)?;
    (0..MAX_DEPTH)
        .map(|depth| calls.at_depth(depth))
        .take_while(|call| call.is_some())
        .filter_map(|call| call)
        .collect(alloc)
}

// Returns calls with their source lines, the innermost first, and the source line around all of
// them. The calls are given by their depths, and the innermost stands at the given line.
#[tactic(auto, using(crate::proofs::ListLemmas::last_first), unfolding(crate::specs::Names::inlines_by, crate::specs::Names::line_around))]
fn inlines_by<'l>(
    alloc: Global,
    file: &'l SymbolFile<'l>,
    innermost: Option<SourceLine<'l>>,
    mut calls: Vec<InlineCall>,
) -> Result<(Option<SourceLine<'l>>, Vec<InlinedCall<'l>>), AllocError>
    ensures line { IfOk result (λ r. option_map source_of r.0
        ≡ line_around (symbols_of file.now) (option_map source_of innermost.entry)
        (reverse calls.items)) }
    ensures inlines { IfOk result (λ r. map call_of r.1.items
        ≡ inlines_by (symbols_of file.now) (option_map source_of innermost.entry)
        (reverse calls.items)) }
{
    let mut line = innermost;
    let mut inlines = Vec::new(alloc);
    while let Some(call) = calls.pop() {
        inlines.push(InlinedCall {
            function: file.origin_name(call.origin),
            source: line,
        })?;
        line = Some(source_of_call(file, &call));
    }
    Ok((line, inlines))
}
