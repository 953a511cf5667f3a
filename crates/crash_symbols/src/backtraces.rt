ghost use Rattle.std.specs.Prelude.{◌≡◌, IfOk};
ghost use Rattle.std.specs.Option.{option_map};
ghost use Rattle.crash.specs.Crash.{crash_of};
ghost use Rattle.crash_threads.specs.Frames.{crash_walk_of};
ghost use Rattle.crash_symbols.specs.Backtraces.{backtrace_in, backtraces_in, backtraces_of};
ghost use Rattle.crash_symbols.specs.Symbols.{known_of};

use crate::Symbols;
use crash::{Crash, CrashWalk};
use std::alloc::{AllocError, Global};
use symbol_walk::walk_by_symbols;

/// The backtraces of a crash.
#[derive(Drop)]
pub struct Backtraces {
    /// That of each thread of the crash, in the order of its threads; `None` where it has no walk.
    pub threads: Vec<Option<CrashWalk>>,
}

/// Symbols and the backtraces that they give, for what prints them: the names of frames are made by
/// the symbols when they are shown, so both have to belong together.
#[derive(Clone, Copy)]
pub struct Symbolized<'s, 'l> {
    /// The symbols.
    pub symbols: &'s Symbols<'l>,
    /// The backtraces by these symbols.
    pub backtraces: &'s Backtraces,
}

impl Backtraces {
    /// Finds the backtraces of all threads of a crash by symbols, with at most `scan` candidates
    /// each.
    ///
    /// Returns `AllocError` if an allocation fails.
    #[tactic(auto, using(crate::proofs::ListLemmas::numbered_next))]
    pub fn find(
        alloc: Global,
        crash: &Crash<'_>,
        symbols: &Symbols<'_>,
        scan: usize,
    ) -> Result<Backtraces, AllocError>
        ensures { IfOk result (λ b. backtraces_of b
            ≡ backtraces_in (crash_of crash.now) (known_of symbols.now) scan) }
    {
        let mut threads = Vec::new(alloc);
        for thread in 0..crash.threads.threads.len() {
            threads.push(backtrace_in(alloc, crash, symbols, scan, thread)?)?;
        }
        Ok(Backtraces { threads })
    }
}

// Returns the backtrace of the thread of an index, or `None` if it has no walk.
#[tactic(auto, unfolding(crate::specs::Backtraces::backtrace_in))]
fn backtrace_in(
    alloc: Global,
    crash: &Crash<'_>,
    symbols: &Symbols<'_>,
    scan: usize,
    thread: usize,
) -> Result<Option<CrashWalk>, AllocError>
    ensures { IfOk result (λ b. option_map crash_walk_of b
        ≡ backtrace_in (crash_of crash.now) (known_of symbols.now) scan thread) }
{
    let Some((stack, context)) = crash.walked(thread) else {
        return Ok(None);
    };
    match walk_by_symbols(alloc, &stack, &context, symbols.files.as_slice(), scan) {
        Ok(walk) => Ok(Some(CrashWalk::new(alloc, &stack, &walk)?)),
        Err(_) => Err(AllocError),
    }
}
