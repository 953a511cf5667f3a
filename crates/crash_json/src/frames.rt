//! The frames of a thread, the registers of the first one, and the names that symbols give.
ghost use Rattle.std.specs.Prelude.{◌≡◌};
ghost use Rattle.std.specs.Option.{option_copied, option_map};
ghost use Rattle.json.specs.Json.{string};
ghost use Rattle.crash.specs.Crash.{crash_of};
ghost use Rattle.crash_threads.specs.Threads.{thread_value};
ghost use Rattle.crash_symbols.specs.NameParts.{call_of, function_of, named_of, source_of};
ghost use Rattle.crash_symbols.specs.Shown.{symbolized_of};
ghost use Rattle.crash_json.specs.Tree.{Adds, Puts, or_null};
ghost use Rattle.crash_json.specs.ReportValue.{report_of};
ghost use Rattle.crash_json.specs.Frames.{file_at, frame_members, function_members};
ghost use Rattle.crash_json.specs.Frames.{inline_json, name_members, registers_json, shown_registers};
ghost use Rattle.crash_json.specs.Frames.{source_members, trust_name};

use crate::report::Report;
use crate::tree::{Members, NumberedJson, Put, ToJson, members};
use crash::{Crash, CrashFrame, CrashThread};
use crash_symbols::{FrameFunction, InlinedCall, NamedFrame, SourceLine, Symbolized};
use json::Writer;
use stack_walk::FrameTrust;
use std::alloc::Global;

/// What the frames of a thread are written by: the report, the thread, and whether it is written as the
/// one that crashed.
#[derive(Clone, Copy)]
pub(crate) struct EachFrame<'l, 'a, 's, 'n> {
    pub(crate) report: Report<'l, 'a, 's, 'n>,
    pub(crate) thread: &'l CrashThread,
    pub(crate) is_crashing: bool,
}

impl<'n> NumberedJson<NamedFrame<'n>> for EachFrame<'_, '_, '_, 'n> {
    ghost use Rattle.crash_json.specs.Frames.{frame_json};

    ghost json_at = { λ e n f. frame_json (report_of e.report) e.is_crashing
        (thread_value e.thread.now) n (named_of f) };

    fn put_at(&self, number: usize, item: &NamedFrame<'n>, out: &mut Writer, alloc: Global) -> Put {
        out.begin_object()?;
        out.key("frame")?;
        number.put(out, alloc)?;
        add_place(self.report.crash, &item.frame, out, alloc)?;
        out.key("registers")?;
        put_registers(self.thread, self.is_crashing, number, out, alloc)?;
        add_names(self.report.symbols, item, out, alloc)?;
        out.end_object()
    }
}

// Adds where a frame is, and how it was found.
fn add_place(crash: &Crash<'_>, frame: &CrashFrame, out: &mut Writer, alloc: Global) -> Put
    ensures { Adds result out.old out.new (frame_members (crash_of crash.now).modules.loaded
        frame.now) }
{
    members! {
        "trust": frame.trust,
        "module": file_at(crash, frame.module),
        "module_offset": offset_of(frame.module),
        "offset": frame.address,
        "instruction": frame.instruction,
        "stack_pointer": frame.stack_pointer,
        "frame_pointer": frame.frame_pointer,
    }
    .add(out, alloc)
}

impl ToJson for FrameTrust {
    ghost json = { λ trust. string (trust_name trust) };

    fn put(&self, out: &mut Writer, _alloc: Global) -> Put {
        out.string(trust_name(*self))
    }
}

// Returns the word for how a frame was found.
fn trust_name(trust: FrameTrust) -> &'static str
    ensures { result.now ≡ trust_name trust }
{
    match trust {
        FrameTrust::Context => "context",
        FrameTrust::Cfi => "cfi",
        FrameTrust::FramePointer => "frame_pointer",
        FrameTrust::Scan => "scan",
        FrameTrust::Link => "link_register",
    }
}

// Returns the file of the module of a place.
fn file_at<'l>(crash: &'l Crash<'_>, place: Option<(usize, u64)>) -> Option<&'l str>
    ensures { option_copied result ≡ file_at (crash_of crash.now).modules.loaded place }
{
    let (index, _) = place?;
    Some(crash.modules.loaded.as_slice().get(index)?.file.as_str())
}

// Returns the offset of a place in its module.
fn offset_of(place: Option<(usize, u64)>) -> Option<u64>
    ensures { result ≡ option_map (λ p. p.1) place }
{
    Some(place?.1)
}

// Puts the registers of a thread, for the first frame of the one that crashed, or `null`.
fn put_registers(
    thread: &CrashThread,
    is_crashing: bool,
    number: usize,
    out: &mut Writer,
    alloc: Global,
) -> Put
    ensures { Puts result out.old out.new (or_null registers_json
        (shown_registers is_crashing number (thread_value thread.now))) }
{
    match &thread.context {
        Some(context) if is_crashing && number == 0 => context.registers.put(out, alloc),
        _ => out.null(),
    }
}

// ---- names

// Adds the names of a frame, if symbols are known.
#[tactic(auto, unfolding(crate::specs::Tree::member_list_tokens), using(crate::proofs::Tokens::views))]
fn add_names(
    symbols: Option<&Symbolized<'_, '_>>,
    frame: &NamedFrame<'_>,
    out: &mut Writer,
    alloc: Global,
) -> Put
    ensures { Adds result out.old out.new (name_members
        (option_map symbolized_of (option_copied symbols.entry)) (named_of frame.now)) }
{
    match symbols {
        Some(_) => members! {
            ..frame.function,
            ..frame.line,
            "inlines": frame.inlines.as_slice(),
            "missing_symbols": frame.function.is_none(),
        }
        .add(out, alloc),
        None => Ok(()),
    }
}

// A function and the offset of a frame in it, or none.
impl Members for Option<FrameFunction<'_>> {
    ghost members = { λ f. function_members (option_map function_of f) };

    fn add(&self, out: &mut Writer, alloc: Global) -> Put {
        match self {
            Some(function) => members! {
                "function": function.name,
                "function_offset": function.offset,
            }
            .add(out, alloc),
            None => members! { "function": (), "function_offset": (), }.add(out, alloc),
        }
    }
}

// A source line, or none.
impl Members for Option<SourceLine<'_>> {
    ghost members = { λ s. source_members (option_map source_of s) };

    fn add(&self, out: &mut Writer, alloc: Global) -> Put {
        match self {
            Some(source) => {
                members! { "file": source.file, "line": source.line, }.add(out, alloc)
            }
            None => members! { "file": (), "line": (), }.add(out, alloc),
        }
    }
}

impl ToJson for InlinedCall<'_> {
    ghost json = { λ c. inline_json (call_of c) };

    #[tactic(auto, unfolding(crate::specs::Frames::inline_json))]
    fn put(&self, out: &mut Writer, alloc: Global) -> Put {
        members! { "function": self.function, ..self.source }.put_object(out, alloc)
    }
}
