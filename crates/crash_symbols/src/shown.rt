ghost use Rattle.std.specs.Prelude.{◌≡◌, ◌++◌, IfOk, OnOk, map};
ghost use Rattle.std.specs.Option.{option_copied, option_map};
ghost use Rattle.crash_threads.specs.Frames.{crash_walk_of};
ghost use Rattle.crash_threads.specs.Threads.{thread_value};
ghost use Rattle.crash_symbols.specs.NameParts.{named_of};
ghost use Rattle.crash_symbols.specs.Names.{named_in};
ghost use Rattle.crash_symbols.specs.Shown.{first_frames, shown_in, symbolized_of};
ghost use Rattle.crash_symbols.specs.Symbols.{files_of, known_of};

use crate::names::named_in;
use crate::{NamedFrame, Symbolized, Symbols};
use crash::{CrashFrame, CrashThread, CrashWalk};
use std::alloc::{AllocError, Global};

/// Returns what is shown of a thread: its backtrace by `symbols`, or without `symbols` its walk.
/// `number` is its index among the threads of the crash. Returns `None` if it has none.
pub fn shown_walk<'s>(
    thread: &'s CrashThread,
    number: usize,
    symbols: Option<&'s Symbolized<'_, '_>>,
) -> Option<&'s CrashWalk>
    ensures { option_map crash_walk_of (option_copied result)
        ≡ shown_in (option_map symbolized_of (option_copied symbols.entry)) number
        (thread_value thread.now) }
{
    match symbols {
        Some(symbols) => symbols.backtraces.threads.get(number)?.as_ref(),
        None => thread.walk.as_ref(),
    }
}

/// Returns the first frames of a walk, with the candidates after them, at most `limit` in all, each
/// with what `symbols` say of it.
///
/// Returns `AllocError` if an allocation fails.
pub fn first_frames<'l>(
    alloc: Global,
    walk: &CrashWalk,
    symbols: Option<&Symbols<'l>>,
    limit: usize,
) -> Result<Vec<NamedFrame<'l>>, AllocError>
    ensures { IfOk result (λ frames. map named_of frames.items
        ≡ first_frames limit (option_map known_of (option_copied symbols.entry))
        (crash_walk_of walk.now)) }
{
    let mut named = Vec::new(alloc);
    let (frames, candidates) = walk.first(limit);
    push_named(&mut named, symbols, frames)?;
    push_named(&mut named, symbols, candidates)?;
    Ok(named)
}

// Appends frames, each with its names.
fn push_named<'l>(
    named: &mut Vec<NamedFrame<'l>>,
    symbols: Option<&Symbols<'l>>,
    frames: &[CrashFrame],
) -> Result<(), AllocError>
    ensures { OnOk result (map named_of named.new.items ≡ map named_of named.old.items
        ++ map (named_in (files_of (option_map known_of (option_copied symbols.entry))))
        frames.now) }
{
    let alloc = *named.allocator();
    for frame in frames {
        named.push(named_in(alloc, symbols, *frame)?)?;
    }
    Ok(())
}
