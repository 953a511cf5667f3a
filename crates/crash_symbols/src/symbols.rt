ghost use Rattle.std.specs.Prelude.{◌≡◌, []};
ghost use Rattle.std.specs.Option.{option_map};
ghost use Rattle.breakpad_symbols.specs.SymbolFile.{symbols_of};
ghost use Rattle.crash_symbols.specs.Symbols.{known_of, state_at};
ghost use Rattle.symbol_walk.specs.Symbols.{symbols_of_module};

use breakpad_symbols::SymbolFile;
use std::alloc::Global;

/// What is known of the symbol file of a module.
#[derive(Clone, Copy, PartialEq, Eq)]
pub enum SymbolState {
    /// Nothing: it wasn't looked for.
    Unwanted,
    /// There is none.
    Missing,
    /// It is read, and is the module's.
    Loaded,
    /// It can't be read, or is that of another module.
    Corrupt,
    /// Memory ran out while it was read.
    OutOfMemory,
}

/// The symbol files of the modules of a process, by the index of the module in its list. A list
/// that is shorter than that of the modules has nothing of the rest.
#[derive(Drop)]
pub struct Symbols<'l> {
    /// What the file of each module says, or `None` if that isn't known.
    pub files: Vec<Option<&'l SymbolFile<'l>>>,
    /// What is known of each file; `Unwanted` beyond the list.
    pub states: Vec<SymbolState>,
}

impl<'l> Symbols<'l> {
    /// Makes the symbols of no module.
    pub fn new(alloc: Global) -> Symbols<'l>
        ensures files { (known_of result).files ≡ [] }
        ensures states { (known_of result).states ≡ [] }
    {
        Symbols {
            files: Vec::new(alloc),
            states: Vec::new(alloc),
        }
    }

    /// Returns the symbols of the module of an index, or `None` if they aren't known.
    pub fn file(&self, index: usize) -> Option<&'l SymbolFile<'l>>
        ensures { option_map (λ s. symbols_of s.now) result
            ≡ symbols_of_module (known_of self.now).files index }
    {
        *self.files.get(index)?
    }

    /// Returns what is known of the symbol file of the module of an index.
    pub fn state(&self, index: usize) -> SymbolState
        ensures { result ≡ state_at (known_of self.now).states index }
    {
        self.states
            .get(index)
            .map_or(SymbolState::Unwanted, |state| *state)
    }
}
