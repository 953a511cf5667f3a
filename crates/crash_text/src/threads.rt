//! The lines of threads, of their frames, and of the inlined calls in the functions of these.
ghost use Rattle.std.specs.Prelude.{◌≡◌, [], ◌∷◌, ◌++◌, IfOk, OnOk, if◌then◌else◌, map};
ghost use Rattle.std.specs.Option.{option_map};
ghost use Rattle.crash_process.specs.Process.{system_of};
ghost use Rattle.crash_threads.specs.Frames.{crash_walk_of};
ghost use Rattle.crash_threads.specs.Threads.{thread_value};
ghost use Rattle.crash_process.specs.Modules.{loaded_of};
ghost use Rattle.crash_symbols.specs.NameParts.{function_of, named_of, source_of};
ghost use Rattle.minidump_bytes.specs.LinuxOsStr.{text_of};
ghost use Rattle.crash_lines.specs.Lines.{Adds};
ghost use Rattle.crash_text.specs.Page.{page_of};
ghost use Rattle.crash_text.specs.Threads.{call_entries, crashed_lines, each_entry, each_other};
ghost use Rattle.crash_text.specs.Threads.{end_text, entries_in, entry_line, entry_of, found_text};
ghost use Rattle.crash_text.specs.Threads.{frame_limit, frames_at, heading_lines, is_index};
ghost use Rattle.crash_text.specs.Threads.{is_range, no_walk_words, other_lines, own_words};
ghost use Rattle.crash_text.specs.Threads.{range_row, rest_lines, shows_all, source_text};
ghost use Rattle.crash_text.specs.Threads.{stack_lines, thread_lines, context_lines, walk_lines};
ghost use Rattle.crash_lines.specs.Parts.{part_text};

use crate::limits::TextLimits;
use crate::text::{Page, if_asked};
use crash::{
    ContextProblem, CrashFrame, CrashModule, CrashSystem, CrashThread, CrashWalk, StackRange,
    unaccepted_size,
};
use crash_lines::Part::{
    Count, Decimal, DecimalIf, Hex, HexIf, HexUnless, Id, If, Lossy, Place, Short, Text, Words,
};
use crash_lines::{Added, Part, push_if_missing, push_row, push_table};
use crash_symbols::{FrameFunction, InlinedCall, NamedFrame, SourceLine, first_frames, shown_walk};
use minidump_bytes::LinuxOsStr;
use stack_walk::{FrameTrust, WalkEnd};
use std::alloc::{AllocError, Global};

// Appends the lines of the thread that crashed, or that there are no threads.
pub(crate) fn push_crashed(out: &mut String, page: Page<'_, '_, '_, '_>) -> Added
    ensures { Adds out.old out.new (crashed_lines (page_of page.entry)) result }
{
    if let Err(error) = &page.crash.contents.threads.threads {
        push_if_missing(out, "no threads", *error)?;
    }
    match page.crash.threads.crashed() {
        Some((number, thread)) => push_thread(out, page, true, number, thread),
        None => Ok(()),
    }
}

// Appends the lines of those of the threads that didn't crash.
pub(crate) fn push_others(
    out: &mut String,
    page: Page<'_, '_, '_, '_>,
    threads: &[CrashThread],
) -> Added
    ensures { Adds out.old out.new
        (each_other (page_of page.entry) (map thread_value threads.now)) result }
{
    for (number, thread) in threads.iter().enumerate() {
        push_other(out, page, number, thread)?;
    }
    Ok(())
}

// Appends the lines of a thread with its index, if it isn't the one that crashed.
fn push_other(
    out: &mut String,
    page: Page<'_, '_, '_, '_>,
    number: usize,
    thread: &CrashThread,
) -> Added
    ensures { Adds out.old out.new
        (other_lines (page_of page.entry) number (thread_value thread.now)) result }
{
    let crashing = page.crash.threads.crashing;
    if is_index(crashing, number) {
        Ok(())
    } else {
        push_thread(out, page, shows_all(page.limits, crashing), number, thread)
    }
}

// Tells whether all frames of each thread are printed: if they are asked for, or none crashed.
fn shows_all(limits: &TextLimits, crashing: Option<usize>) -> bool
    ensures { result ≡ shows_all limits.now crashing }
{
    limits.all_threads || crashing.is_none()
}

// Tells whether an index is this one.
fn is_index(index: Option<usize>, number: usize) -> bool
    ensures { result ≡ is_index index number }
{
    index == Some(number)
}

// Appends the lines of a thread with its index.
fn push_thread(
    out: &mut String,
    page: Page<'_, '_, '_, '_>,
    is_whole: bool,
    number: usize,
    thread: &CrashThread,
) -> Added
    ensures { Adds out.old out.new
        (thread_lines (page_of page.entry) is_whole number (thread_value thread.now)) result }
{
    push_heading(out, thread)?;
    push_stack(out, is_whole, thread)?;
    match shown_walk(thread, number, page.symbols) {
        Some(walk) => {
            push_context(
                out,
                own_words(thread.context_problem),
                thread.context_problem,
            )?;
            push_walk(out, page, is_whole, walk)
        }
        None => {
            let why = no_walk_words(&page.crash.process.system, thread.context_problem);
            push_context(out, why, thread.context_problem)
        }
    }
}

// Appends the line of a thread, its last error, and how much there is of the context of its
// registers if that is cut.
#[rattlefmt::skip]
#[tactic(auto, unfolding(crate::specs::Threads::heading_lines))]
fn push_heading(out: &mut String, thread: &CrashThread) -> Added
    ensures { Adds out.old out.new (heading_lines (thread_value thread.now)) result }
{
    push_table(out, &[
        &[
            Id("thread ", Some(thread.id)), Text(" \"", &thread.name, "\""),
            If(!thread.is_listed, ", not in the list of threads"),
        ],
        &[Text("    last error ", &thread.last_error, "")],
        &[Short("    ", thread.short_context())],
    ])
}

// Appends the line of the stack of a thread as its entry names it, if it does, which also says if the
// dump has no memory where it begins, and the line of the stack's memory, if it isn't the same: neither
// unless all frames of the thread are asked for.
fn push_stack(out: &mut String, is_whole: bool, thread: &CrashThread) -> Added
    ensures { Adds out.old out.new (if is_whole
        then stack_lines thread.now.stack thread.now.stack_memory else []) result }
{
    if !is_whole {
        return Ok(());
    }
    if let Some(range) = &thread.stack {
        push_range(out, "    stack ", range, thread.stack_memory.is_none())?;
    }
    match &thread.stack_memory {
        Some(range) if is_range(range, &thread.stack) => Ok(()),
        Some(range) => push_range(out, "    stack memory ", range, false),
        None => Ok(()),
    }
}

// Tells whether a range is another.
fn is_range(range: &StackRange, other: &Option<StackRange>) -> bool
    ensures { result ≡ is_range range.now other.now }
{
    matches!(other, Some(other) if other.base == range.base && other.size == range.size)
}

// Appends the line of a range of addresses after words, and that no memory is where it begins, if so.
#[rattlefmt::skip]
#[tactic(auto, unfolding(crate::specs::Threads::range_row))]
fn push_range(out: &mut String, what: &str, range: &StackRange, is_absent: bool) -> Added
    ensures { Adds out.old out.new (range_row what.now range.now is_absent ∷ []) result }
{
    push_row(out, &[
        Words(what), Hex(range.base), Words(", "), Hex(range.size), Words(" bytes"),
        If(is_absent, ", no memory where it begins"),
    ])
}

// Returns the words for why the own context of a thread isn't used, if its frames are those of the
// exception's.
fn own_words(problem: Option<ContextProblem>) -> &'static str
    ensures { result.now ≡ own_words problem }
{
    match problem {
        Some(ContextProblem::Outside) => "    its own context is outside the file",
        Some(ContextProblem::NotAccepted { .. }) => "    its own context can't be read",
        Some(ContextProblem::NoSystem) | None => "",
    }
}

// Returns the words for why a thread has no frames.
fn no_walk_words(system: &Option<CrashSystem>, problem: Option<ContextProblem>) -> &'static str
    ensures { result.now ≡ no_walk_words (option_map system_of system.now) problem }
{
    match (system, problem) {
        (None, _) => "    no frames without system information",
        (Some(_), Some(ContextProblem::Outside)) => "    its context is outside the file",
        (Some(_), _) => "    no context that can be read",
    }
}

// Appends words on a context, and how many bytes there are of it if it isn't accepted.
#[tactic(auto, unfolding(crate::specs::Threads::context_lines))]
fn push_context(out: &mut String, words: &str, problem: Option<ContextProblem>) -> Added
    ensures { Adds out.old out.new (context_lines words.now problem) result }
{
    let size = unaccepted_size(problem);
    push_table(out, &[&[Words(words), DecimalIf(", ", size, " bytes")]])
}

// Returns the frames and candidates of a thread with its index that are printed, in two parts.
pub(crate) fn frames_at<'x>(
    page: Page<'x, '_, '_, '_>,
    number: usize,
    thread: &'x CrashThread,
) -> (&'x [CrashFrame], &'x [CrashFrame])
    ensures { result.0.now ++ result.1.now
        ≡ frames_at (page_of page.entry) number (thread_value thread.now) }
{
    let crashing = page.crash.threads.crashing;
    let is_whole = is_index(crashing, number) || shows_all(page.limits, crashing);
    match shown_walk(thread, number, page.symbols) {
        Some(walk) => walk.first(frame_limit(page.limits, is_whole)),
        None => (&[], &[]),
    }
}

// Appends what is found in the stack of a thread, and why there is no more if all of its frames are
// asked for.
fn push_walk(
    out: &mut String,
    page: Page<'_, '_, '_, '_>,
    is_whole: bool,
    walk: &CrashWalk,
) -> Added
    ensures { Adds out.old out.new
        (walk_lines (page_of page.entry) is_whole (crash_walk_of walk.now)) result }
{
    let alloc = *out.allocator();
    let symbols = page.symbols.map(|shown| shown.symbols);
    let frames = first_frames(alloc, walk, symbols, frame_limit(page.limits, is_whole))?;
    let entries = entries_in(alloc, frames.as_slice())?;
    let modules = page.crash.modules.loaded.as_slice();
    push_entries(out, page.limits.lists, modules, entries.as_slice())?;
    if is_whole {
        push_rest(out, page.limits, walk)
    } else {
        Ok(())
    }
}

// Returns how many frames of a walk are printed at most.
fn frame_limit(limits: &TextLimits, is_whole: bool) -> usize
    ensures { result ≡ frame_limit limits.now is_whole }
{
    if is_whole { limits.frames } else { 1 }
}

// ---- frames and the inlined calls there

// A frame, or an inlined call there.
#[derive(Clone, Copy)]
struct FrameEntry<'x> {
    frame: &'x NamedFrame<'x>,
    call: Option<&'x InlinedCall<'x>>,
}

// Returns frames, before each the inlined calls there.
#[tactic(auto, unfolding(crate::specs::Threads::entries_in))]
fn entries_in<'x>(
    alloc: Global,
    frames: &'x [NamedFrame<'x>],
) -> Result<Vec<FrameEntry<'x>>, AllocError>
    ensures { IfOk result
        (λ entries. map entry_of entries.items ≡ entries_in (map named_of frames.now)) }
{
    let mut entries = Vec::new(alloc);
    for frame in frames {
        push_calls(&mut entries, frame)?;
        entries.push(FrameEntry { frame, call: None })?;
    }
    Ok(entries)
}

// Appends the inlined calls at a frame to a list.
fn push_calls<'x>(entries: &mut Vec<FrameEntry<'x>>, frame: &'x NamedFrame<'x>) -> Added
    ensures { OnOk result (map entry_of entries.new.items
        ≡ map entry_of entries.old.items ++ call_entries (named_of frame.now)) }
{
    for call in frame.inlines.as_slice() {
        entries.push(FrameEntry {
            frame,
            call: Some(call),
        })?;
    }
    Ok(())
}

// Appends the lines of frames and calls, each with its number.
fn push_entries<'x>(
    out: &mut String,
    is_asked: bool,
    modules: &'x [CrashModule],
    entries: &[FrameEntry<'x>],
) -> Added
    ensures { Adds out.old out.new
        (each_entry is_asked (map loaded_of modules.now) (map entry_of entries.now)) result }
{
    for (number, entry) in entries.iter().enumerate() {
        push_entry(out, is_asked, modules, number, entry)?;
    }
    Ok(())
}

// Appends the line of a frame or a call: of a frame with its other addresses, if they are asked for.
#[rattlefmt::skip]
#[tactic(auto, unfolding(crate::specs::Threads::call_line, crate::specs::Threads::frame_line))]
fn push_entry<'x>(
    out: &mut String,
    is_asked: bool,
    modules: &'x [CrashModule],
    number: usize,
    entry: &FrameEntry<'x>,
) -> Added
    ensures { Adds out.old out.new (entry_line is_asked (map loaded_of modules.now) number
        (entry_of entry.now).0 (entry_of entry.now).1 ∷ []) result }
{
    let (shown, frame) = (entry.frame, &entry.frame.frame);
    let address = frame.address.unwrap_or(frame.instruction);
    match entry.call {
        Some(call) => {
            let place = source_part(call.source);
            push_row(out, &[
                Words("    #"), Decimal(number as u64), Words(" "), Hex(address),
                Lossy(" ", call.function), place, Place(modules, " in no module", frame.module),
                Words(", inline"),
            ])
        }
        None => {
            let name = name_of(shown.function);
            let offset = offset_of(shown.function);
            let source = source_part(shown.line);
            let found = found_text(frame.trust);
            let instruction = if_asked(is_asked, Some(frame.instruction));
            let stack = if_asked(is_asked, Some(frame.stack_pointer));
            let base = if_asked(is_asked, frame.frame_pointer);
            push_row(out, &[
                Words("    #"), Decimal(number as u64), Words(" "), Hex(address),
                Lossy(" ", name), HexIf(" + ", offset), source,
                Place(modules, " in no module", frame.module), Words(found),
                HexUnless(address, ", instruction ", instruction),
                HexIf(", stack pointer ", stack), HexIf(", frame pointer ", base),
            ])
        }
    }
}

// Returns the name of a function.
fn name_of<'x>(function: Option<FrameFunction<'x>>) -> Option<LinuxOsStr<'x>>
    ensures { option_map text_of result
        ≡ option_map (λ f. f.name) (option_map function_of function.entry) }
{
    function.map(|function| function.name)
}

// Returns how far a frame is behind the first of its function.
fn offset_of(function: Option<FrameFunction<'_>>) -> Option<u64>
    ensures { result ≡ option_map (λ f. f.offset) (option_map function_of function.entry) }
{
    function.map(|function| function.offset)
}

// Returns the part that writes a source line.
fn source_part<'x>(source: Option<SourceLine<'x>>) -> Part<'x>
    ensures { part_text result ≡ source_text (option_map source_of source.entry) }
{
    source.map_or(Words(""), |source| Part::Line(source.file, source.line))
}

// Returns the words for how a frame was found.
fn found_text(trust: FrameTrust) -> &'static str
    ensures { result.now ≡ found_text trust }
{
    match trust {
        FrameTrust::Context => ", context",
        FrameTrust::Cfi => ", call frame information",
        FrameTrust::FramePointer => ", frame pointer",
        FrameTrust::Scan => ", scan",
        FrameTrust::Link => ", link register",
    }
}

// ---- after the frames

// Appends how many frames are not printed, why the walk ends, and how many candidates follow.
#[rattlefmt::skip]
#[tactic(auto, unfolding(crate::specs::Threads::rest_lines))]
fn push_rest(out: &mut String, limits: &TextLimits, walk: &CrashWalk) -> Added
    ensures { Adds out.old out.new (rest_lines limits.now (crash_walk_of walk.now)) result }
{
    let count = walk.frames.len() + walk.candidates.len();
    let hidden = count.saturating_sub(limits.frames);
    push_table(out, &[
        &[Count("    and ", hidden, " more")],
        &[Words("    end: "), Words(end_text(walk.end))],
        &[Count("    candidates: ", walk.candidates.len(), "")],
    ])
}

// Returns why a walk ends, in words.
fn end_text(end: WalkEnd) -> &'static str
    ensures { result.now ≡ end_text end }
{
    match end {
        WalkEnd::NoMemory => "no memory of its stack",
        WalkEnd::UnknownWidth => "unknown width of an address",
        WalkEnd::NoFramePointer => "no frame pointer",
        WalkEnd::ZeroFramePointer => "frame pointer of 0",
        WalkEnd::BelowStackPointer => "frame pointer below the stack pointer",
        WalkEnd::NoRecord => "no frame record at the frame pointer",
        WalkEnd::NoCode => "no code at the return address",
        WalkEnd::NoReturnRule => "no rule for the return address",
        WalkEnd::ZeroReturnAddress => "return address of 0",
    }
}
