//! The signature of a crash: why it crashed, and in which functions.
ghost use Rattle.std.specs.Prelude.{◌≡◌, ◌++◌, IfOk, codes, flat_map, map, string_bytes};
ghost use Rattle.std.specs.Option.{option_copied, option_map};
ghost use Rattle.crash.specs.Crash.{crash_of};
ghost use Rattle.crash_process.specs.Modules.{loaded_of};
ghost use Rattle.crash_symbols.specs.Shown.{symbolized_of};
ghost use Rattle.crash_symbols.specs.Symbols.{files_of, known_of};
ghost use Rattle.crash_symbols.specs.Signature.{crashed_marks, joined, mark_of, marks_in};
ghost use Rattle.crash_symbols.specs.Signature.{signature_in, with_reason};

use crate::names::named_in;
use crate::shown::shown_walk;
use crate::{Symbolized, Symbols};
use crash::{Crash, CrashFrame, CrashModule};
use minidump::text::Piece::{Hex, Words};
use minidump::text::format_pieces;
use std::alloc::{AllocError, Global};

// How many frames a signature has at most.
const FRAMES: usize = 3;

/// Makes the signature of a crash, which crashes of one kind share: its reason, and the first three
/// frames of the thread that crashed that are in a module, with ` | ` between; candidates are left
/// out. A frame is the name of its function by `symbols`, else the file of its module and the
/// offset in it. Returns `None` if there is neither a reason nor such a frame.
///
/// Returns `AllocError` if an allocation fails.
#[tactic(auto, unfolding(crate::specs::Signature::signature_in))]
pub fn signature_of(
    alloc: Global,
    crash: &Crash<'_>,
    symbols: Option<&Symbolized<'_, '_>>,
) -> Result<Option<String>, AllocError>
    ensures { IfOk result (λ text. option_map string_bytes text ≡ signature_in
        (option_map symbolized_of (option_copied symbols.entry)) (crash_of crash.now)) }
{
    let marks = crashed_marks(alloc, crash, symbols)?;
    joined(alloc, crash.cause.reason(), marks.as_slice())
}

// Makes the words for the first frames of the thread that crashed that are in a module; candidates
// are left out.
#[tactic(auto, unfolding(crate::specs::Signature::marks_in))]
fn crashed_marks(
    alloc: Global,
    crash: &Crash<'_>,
    symbols: Option<&Symbolized<'_, '_>>,
) -> Result<Vec<String>, AllocError>
    ensures { IfOk result (λ marks. map string_bytes marks.items
        ≡ crashed_marks (option_map symbolized_of (option_copied symbols.entry))
        (crash_of crash.now)) }
{
    let Some((index, thread)) = crash.threads.crashed() else {
        return Ok(Vec::new(alloc));
    };
    match shown_walk(thread, index, symbols) {
        Some(walk) => marks_in(
            alloc,
            crash.modules.loaded.as_slice(),
            symbols.map(|shown| shown.symbols),
            walk.frames.as_slice(),
        ),
        None => Ok(Vec::new(alloc)),
    }
}

// Makes the words for the first frames that are in a module.
fn marks_in(
    alloc: Global,
    modules: &[CrashModule],
    symbols: Option<&Symbols<'_>>,
    frames: &[CrashFrame],
) -> Result<Vec<String>, AllocError>
    ensures { IfOk result (λ marks. map string_bytes marks.items
        ≡ marks_in (map loaded_of modules.now)
        (files_of (option_map known_of (option_copied symbols.entry))) frames.now) }
{
    let mut marks = Vec::new(alloc);
    for frame in frames {
        if marks.len() >= FRAMES {
            return Ok(marks);
        }
        if let Some(mark) = mark_of(alloc, modules, symbols, frame)? {
            marks.push(mark)?;
        }
    }
    Ok(marks)
}

// Makes the words for a frame: the name of its function or, if that isn't known, the file of its
// module with the offset in it. Returns `None` if it is in no module.
fn mark_of(
    alloc: Global,
    modules: &[CrashModule],
    symbols: Option<&Symbols<'_>>,
    frame: &CrashFrame,
) -> Result<Option<String>, AllocError>
    ensures { IfOk result (λ mark. option_map string_bytes mark
        ≡ mark_of (map loaded_of modules.now)
        (files_of (option_map known_of (option_copied symbols.entry))) frame.now) }
{
    let Some((index, offset)) = frame.module else {
        return Ok(None);
    };
    let Some(module) = modules.get(index) else {
        return Ok(None);
    };
    let mark = match named_in(alloc, symbols, *frame)?.function {
        Some(function) => function.name.to_string_lossy(alloc)?,
        None => format_pieces(
            alloc,
            &[Words(module.file.as_str()), Words("+"), Hex(offset)],
        )?,
    };
    Ok(Some(mark))
}

// Joins the reason, if there is one, and the words for frames. Returns `None` if there is neither.
fn joined(
    alloc: Global,
    reason: Option<&str>,
    marks: &[String],
) -> Result<Option<String>, AllocError>
    ensures { IfOk result (λ text. option_map string_bytes text
        ≡ joined (with_reason (option_copied reason.entry) (map string_bytes marks.now))) }
{
    match (reason, marks) {
        (Some(reason), marks) => Ok(Some(text_after(alloc, reason, marks)?)),
        (None, [first, rest @ ..]) => Ok(Some(text_after(alloc, first.as_str(), rest)?)),
        (None, []) => Ok(None),
    }
}

// Joins texts, the first one and the rest, with ` | ` between.
fn text_after(alloc: Global, first: &str, rest: &[String]) -> Result<String, AllocError>
    ensures { IfOk result (λ text. string_bytes text
        ≡ first.now ++ flat_map (λ t. codes " | " ++ t) (map string_bytes rest.now)) }
{
    let mut text = String::from_str(alloc, first)?;
    for part in rest {
        text.push_str(" | ")?;
        text.push_str(part.as_str())?;
    }
    Ok(text)
}
