//! The threads, and the one that crashed.
ghost use Rattle.std.specs.Prelude.{◌≡◌, IfOk, length, map};
ghost use Rattle.std.specs.Option.{option_copied, option_map};
ghost use Rattle.json.specs.Json.{string};
ghost use Rattle.crash_threads.specs.Frames.{crash_walk_of};
ghost use Rattle.crash_threads.specs.Threads.{thread_value, threads_of};
ghost use Rattle.crash_symbols.specs.NameParts.{named_of};
ghost use Rattle.crash_symbols.specs.Shown.{symbolized_of};
ghost use Rattle.crash_json.specs.Tree.{Adds, Puts};
ghost use Rattle.crash_json.specs.ReportValue.{report_of};
ghost use Rattle.crash_json.specs.Threads.{candidates_in, crashing_json, end_name, frames_in};
ghost use Rattle.crash_json.specs.Threads.{index_members, named_frames, range_json, registers_of};
ghost use Rattle.crash_json.specs.Threads.{short_json, thread_members, threads_json};

use crate::frames::EachFrame;
use crate::report::Report;
use crate::tree::{Decimal, Members, Numbered, NumberedJson, Put, ToJson, members};
use crash::{
    ContextOrigin, CrashThread, CrashThreads, CrashWalk, ShortContext, StackRange, unaccepted_size,
};
use crash_symbols::{NamedFrame, Symbolized, first_frames, shown_walk};
use json::Writer;
use stack_walk::WalkEnd;
use std::alloc::{AllocError, Global};

// What the values of threads are made by. With `is_crashing` a thread is written with its index,
// and its first frame with its registers: so is `crashing_thread`, and no item of `threads`.
#[derive(Clone, Copy)]
struct EachThread<'l, 'a, 's, 'n> {
    report: Report<'l, 'a, 's, 'n>,
    is_crashing: bool,
}

impl NumberedJson<CrashThread> for EachThread<'_, '_, '_, '_> {
    ghost use Rattle.crash_json.specs.Threads.{thread_json};

    ghost json_at = { λ e n t. thread_json (report_of e.report) e.is_crashing n (thread_value t) };

    fn put_at(&self, number: usize, item: &CrashThread, out: &mut Writer, alloc: Global) -> Put {
        let (report, is_crashing) = (self.report, self.is_crashing);
        let walk = shown_walk(item, number, report.symbols);
        let frames = named_frames(alloc, walk, report.symbols, report.limits.frames)?;
        let by = EachFrame {
            report,
            thread: item,
            is_crashing,
        };
        out.begin_object()?;
        add_index(is_crashing, number, out, alloc)?;
        add_thread(item, walk, out, alloc)?;
        out.key("frames")?;
        Numbered(&frames, &by).put(out, alloc)?;
        out.end_object()
    }
}

// Adds the index of a thread, if it is written as the one that crashed.
#[tactic(auto, unfolding(crate::specs::Tree::member_list_tokens))]
fn add_index(is_crashing: bool, number: usize, out: &mut Writer, alloc: Global) -> Put
    ensures { Adds result out.old out.new (index_members is_crashing number) }
{
    if is_crashing {
        members! { "threads_index": number, }.add(out, alloc)
    } else {
        Ok(())
    }
}

// Adds a thread and what is shown of it, but for the frames.
fn add_thread(
    thread: &CrashThread,
    walk: Option<&CrashWalk>,
    out: &mut Writer,
    alloc: Global,
) -> Put
    ensures { Adds result out.old out.new (thread_members (thread_value thread.now)
        (option_map crash_walk_of (option_copied walk.entry))) }
{
    members! {
        "thread_id": thread.id,
        "thread_name": &thread.name,
        "is_listed": thread.is_listed,
        "last_error_value": &thread.last_error,
        "frame_count": frame_count(walk),
        "candidate_count": candidate_count(walk),
        "stack": thread.stack,
        "stack_memory": thread.stack_memory,
        "context_problem": thread.context_problem,
        "context_size": Decimal(unaccepted_size(thread.context_problem)),
        "short_context": thread.short_context(),
        "end": end_of(walk),
    }
    .add(out, alloc)
}

// Returns the first frames of what is shown of a thread, or none if nothing is.
fn named_frames<'n>(
    alloc: Global,
    walk: Option<&CrashWalk>,
    symbols: Option<&Symbolized<'_, 'n>>,
    limit: usize,
) -> Result<Vec<NamedFrame<'n>>, AllocError>
    ensures { IfOk result (λ frames. map named_of frames.items ≡ named_frames limit
        (option_map symbolized_of (option_copied symbols.entry))
        (option_map crash_walk_of (option_copied walk.entry))) }
{
    let symbols = symbols.map(|shown| shown.symbols);
    match walk {
        Some(walk) => first_frames(alloc, walk, symbols, limit),
        None => Ok(Vec::new(alloc)),
    }
}

// Returns how many frames there are, with the candidates.
fn frame_count(walk: Option<&CrashWalk>) -> usize
    ensures { result ≡ length (frames_in (option_map crash_walk_of (option_copied walk.entry))) }
{
    walk.map_or(0, |walk| walk.frames.len() + walk.candidates.len())
}

// Returns how many candidates there are.
fn candidate_count(walk: Option<&CrashWalk>) -> usize
    ensures { result
        ≡ length (candidates_in (option_map crash_walk_of (option_copied walk.entry))) }
{
    walk.map_or(0, |walk| walk.candidates.len())
}

// Returns why the last frame has no caller.
fn end_of(walk: Option<&CrashWalk>) -> Option<WalkEnd>
    ensures { result
        ≡ option_map (λ w. w.end) (option_map crash_walk_of (option_copied walk.entry)) }
{
    Some(walk?.end)
}

impl ToJson for WalkEnd {
    ghost json = { λ end. string (end_name end) };

    fn put(&self, out: &mut Writer, _alloc: Global) -> Put {
        out.string(end_name(*self))
    }
}

// Returns the word for why the last frame has no caller.
fn end_name(end: WalkEnd) -> &'static str
    ensures { result.now ≡ end_name end }
{
    match end {
        WalkEnd::NoMemory => "no_memory",
        WalkEnd::UnknownWidth => "unknown_width",
        WalkEnd::NoFramePointer => "no_frame_pointer",
        WalkEnd::ZeroFramePointer => "zero_frame_pointer",
        WalkEnd::BelowStackPointer => "below_stack_pointer",
        WalkEnd::NoRecord => "no_record",
        WalkEnd::NoCode => "no_code",
        WalkEnd::NoReturnRule => "no_return_rule",
        WalkEnd::ZeroReturnAddress => "zero_return_address",
    }
}

impl ToJson for StackRange {
    ghost json = { range_json };

    #[tactic(auto, unfolding(crate::specs::Threads::range_json))]
    fn put(&self, out: &mut Writer, alloc: Global) -> Put {
        members! { "base_addr": self.base, "size": Decimal(Some(self.size)), }.put_object(
            out, alloc,
        )
    }
}

impl ToJson for ShortContext {
    ghost json = { short_json };

    #[tactic(auto, unfolding(crate::specs::Threads::short_json))]
    fn put(&self, out: &mut Writer, alloc: Global) -> Put {
        members! { "size": self.size, "whole": self.whole, }.put_object(out, alloc)
    }
}

/// Puts the threads.
#[tactic(auto, unfolding(crate::specs::Threads::threads_json), using(crate::proofs::Tokens::numbered_values))]
pub(crate) fn put_threads(report: &Report<'_, '_, '_, '_>, out: &mut Writer, alloc: Global) -> Put
    ensures { Puts result out.old out.new (threads_json (report_of report.now)) }
{
    let by = EachThread {
        report: *report,
        is_crashing: false,
    };
    Numbered(&report.crash.threads.threads, &by).put(out, alloc)
}

// ---- the thread that crashed

/// Puts the thread that crashed, or `null`.
pub(crate) fn put_crashing(report: &Report<'_, '_, '_, '_>, out: &mut Writer, alloc: Global) -> Put
    ensures { Puts result out.old out.new (crashing_json (report_of report.now)) }
{
    let by = EachThread {
        report: *report,
        is_crashing: true,
    };
    match report.crash.threads.crashed() {
        Some((number, thread)) => by.put_at(number, thread, out, alloc),
        None => out.null(),
    }
}

/// Returns the word for the context that the registers of the thread that crashed come from.
pub(crate) fn registers_of(threads: &CrashThreads) -> Option<&'static str>
    ensures { option_copied result ≡ registers_of (threads_of threads.now) }
{
    let (_, thread) = threads.crashed()?;
    match thread.context.as_ref()?.origin {
        ContextOrigin::OfException => Some("exception"),
        ContextOrigin::OfThread => Some("thread"),
    }
}
