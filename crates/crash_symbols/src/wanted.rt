ghost use Rattle.std.specs.Prelude.{◌≡◌, ◌&&◌, ◌||◌, ◌<◌, ℕ, IfOk, false, length, map, slice_index_or};
ghost use Rattle.std.specs.List.{list_any};
ghost use Rattle.std.specs.Option.{option_map};
ghost use Rattle.crash.specs.Crash.{crash_of};
ghost use Rattle.crash_threads.specs.Frames.{crash_walk_of};
ghost use Rattle.crash_symbols.specs.Backtraces.{backtraces_of, is_unwanted, lies_in, visits};
ghost use Rattle.crash_symbols.specs.Backtraces.{wanted_in};
ghost use Rattle.crash_symbols.specs.Symbols.{known_of};

use crate::{Backtraces, SymbolState, Symbols};
use crash::{Crash, CrashFrame, CrashWalk};
use std::alloc::{AllocError, Global};

impl Backtraces {
    /// Returns the indices of the modules whose symbol files are wanted, ascending: a frame or a
    /// candidate lies in the module, and nothing is known of the file.
    pub fn wanted(
        &self,
        alloc: Global,
        crash: &Crash<'_>,
        symbols: &Symbols<'_>,
    ) -> Result<Vec<usize>, AllocError>
        ensures { IfOk result (λ wanted. wanted.items ≡ wanted_in (backtraces_of self.now)
            (known_of symbols.now).states (length (crash_of crash.now).modules.loaded)) }
    {
        let visited = visited(alloc, self.threads.as_slice(), crash.modules.loaded.len())?;
        let mut wanted = Vec::new(alloc);
        for (index, is_visited) in visited.iter().enumerate() {
            if is_wanted(symbols.state(index), *is_visited) {
                wanted.push(index)?;
            }
        }
        Ok(wanted)
    }
}

// Tells whether the symbol file of a module is wanted: nothing is known of it, and a frame or a
// candidate lies in the module.
fn is_wanted(state: SymbolState, is_visited: bool) -> bool
    ensures { result ≡ (is_unwanted state && is_visited) }
{
    matches!(state, SymbolState::Unwanted) && is_visited
}

// Tells of each of so many modules whether a frame or a candidate lies in it.
#[tactic(auto, using(std::proofs::lemmas::List::take_all))]
fn visited(
    alloc: Global,
    threads: &[Option<CrashWalk>],
    count: usize,
) -> Result<Vec<bool>, AllocError>
    ensures len { IfOk result (λ marks. length marks.items ≡ count) }
    ensures marks { IfOk result (λ marks. (k : ℕ) → k < count → slice_index_or marks.items k false
        ≡ list_any (visits k) (map (option_map crash_walk_of) threads.now)) }
{
    let mut marks = vec![in alloc; false; count]?;
    for thread in threads {
        if let Some(walk) = thread {
            mark_frames(marks.as_mut_slice(), walk.frames.as_slice());
            mark_frames(marks.as_mut_slice(), walk.candidates.as_slice());
        }
    }
    Ok(marks)
}

/// Marks the modules in which frames lie, by their indices. A mark that is set stays, and a module
/// beyond the marks has none.
pub fn mark_frames(marks: &mut [bool], frames: &[CrashFrame])
    ensures { (k : ℕ) → k < length marks.old → slice_index_or marks.new k false
        ≡ (slice_index_or marks.old k false || list_any (lies_in k) frames.now) }
{
    for frame in frames {
        if let Some((index, _)) = frame.module {
            if index < marks.len() {
                marks[index] = true;
            }
        }
    }
}
