ghost use Rattle.std.specs.Prelude.{◌≡◌, ◌<◌, ◌≤◌, ◌++◌, ℕ, Contains, IfErr, IfOk, None, Some};
ghost use Rattle.std.specs.Prelude.{codes, length, map, replicate, slice_get, slice_index};
ghost use Rattle.std.specs.Prelude.{string_bytes, true, vec_len};
ghost use Rattle.std.specs.List.{slice_set};
ghost use Rattle.breakpad_symbols.specs.SymbolFile.{symbols_in, symbols_of};
ghost use Rattle.crash_process.specs.Modules.{LoadedValue, loaded_of};
ghost use Rattle.crash_symbols.specs.Modules.{is_of_module};
ghost use Rattle.crash_symbols.specs.Symbols.{known_of};
ghost use Rattle.whocrashed_inputs.specs.Symbols.{IsAsked, IsKept, IsNoFile, IsSound, of_module};
ghost use Rattle.whocrashed_inputs.specs.Symbols.{state_of_kind, state_read, state_without};

use crate::input::read_file;
use crate::options::Options;
use breakpad_symbols::{SymbolError, SymbolFile};
use crash::CrashModule;
use crash_symbols::{SymbolState, Symbols, is_of_module, symbol_path};
use std::alloc::{AllocError, Global};
use std::collections::BTreeMap;
use std::io;

/// Why a module whose symbol file was looked for has none.
#[derive(Clone, Copy)]
pub enum NoSymbols {
    /// There is none.
    Missing,
    /// It can't be read, has more bytes than the limit, is no symbol file, or is that of another
    /// module.
    Corrupt,
    /// Memory ran out for it.
    OutOfMemory,
}

// A symbol file, which is kept until the run ends, or why there is none.
type Found = Result<&'static SymbolFile<'static>, NoSymbols>;

/// The symbol files that a run has read, each of them once.
#[derive(Drop)]
pub struct SymbolCache<'l> {
    rt: &'l HostRuntime,
    /// The directories in which they are looked for, of which the first that has a file counts.
    pub dirs: &'l [&'l str],
    /// The most bytes of a file.
    pub limit: usize,
    // by their paths below a directory; those that are missing are left out, and those for which
    // memory ran out before they were read or put here
    files: BTreeMap<String, Found>,
}

impl<'l> SymbolCache<'l> {
    /// Makes a cache without files, for the directories and the limit of the options.
    pub fn new(rt: &'l HostRuntime, options: &'l Options<'_>) -> SymbolCache<'l>
        ensures dirs { result.dirs.now ≡ options.now.symbols.items }
        ensures limit { result.limit ≡ options.now.symbols_limit }
    {
        SymbolCache {
            rt,
            dirs: options.symbols.as_slice(),
            limit: options.symbols_limit,
            files: BTreeMap::new(rt.alloc()),
        }
    }

    /// Looks for the symbol files of the modules with these indices, and puts what is found into
    /// `symbols`. Afterwards none of these modules is `Unwanted`. If before each known file is that
    /// of its module, and exactly the modules with a known file are `Loaded`, so it is afterwards.
    /// What is known of other modules stays.
    pub fn find(
        &mut self,
        modules: &[CrashModule],
        wanted: &[usize],
        symbols: &mut Symbols<'static>,
    )
        ensures sound { IsSound (map loaded_of modules.now) (known_of symbols.old)
            → IsSound (map loaded_of modules.now) (known_of symbols.new) }
        ensures asked { (j : ℕ) → j < length wanted.now
            → IsAsked (known_of symbols.new).states (slice_index wanted.now j) }
        ensures others { (k : ℕ) → ¬ Contains wanted.now k
            → IsKept (known_of symbols.old) (known_of symbols.new) k }
        ensures dirs { self.new.dirs ≡ self.old.dirs }
        ensures limit { self.new.limit ≡ self.old.limit }
    {
        for index in wanted {
            let found = self.file_of(modules, *index);
            set_at(&mut symbols.files, *index, found.ok());
            set_at(&mut symbols.states, *index, state_read(found));
        }
    }

    // Returns the symbol file of the module of an index, or why there is none.
    fn file_of(&mut self, modules: &[CrashModule], index: usize) -> Found
        ensures dirs { self.new.dirs ≡ self.old.dirs }
        ensures limit { self.new.limit ≡ self.old.limit }
        ensures file { IfOk result (λ file. (m : LoadedValue)
            → slice_get (map loaded_of modules.now) index ≡ Some m
            → is_of_module (symbols_of file.now) m ≡ true) }
    {
        let Some(loaded) = modules.get(index) else {
            return Err(NoSymbols::Missing);
        };
        match symbol_path(self.rt.alloc(), loaded) {
            Ok(Some(path)) => of_module(self.file_at(path), loaded),
            Ok(None) => Err(NoSymbols::Missing),
            Err(_) => Err(NoSymbols::OutOfMemory),
        }
    }

    // Returns the symbol file that has this path below a directory. One that is missing, or for
    // which memory ran out before it was read or kept, is looked for again the next time.
    fn file_at(&mut self, path: String) -> Found
        ensures dirs { self.new.dirs ≡ self.old.dirs }
        ensures limit { self.new.limit ≡ self.old.limit }
    {
        if let Some(found) = self.files.get(path.as_str()) {
            return *found;
        }
        let found = match self.read(path.as_str()) {
            Ok(text) => kept(self.rt.alloc(), text.leak()),
            Err(NoSymbols::Corrupt) => Err(NoSymbols::Corrupt),
            Err(reason) => return Err(reason),
        };
        match self.files.insert(path, found) {
            Ok(_) => found,
            Err(_) => Err(NoSymbols::OutOfMemory),
        }
    }

    // Reads the file that has this path below the first directory that has one.
    fn read(&self, path: &str) -> Result<Vec<u8>, NoSymbols>
        ensures { IfOk result (λ text. vec_len text ≤ self.now.limit) }
    {
        for dir in self.dirs {
            let Ok(path) = path_in(self.rt.alloc(), dir, path) else {
                return Err(NoSymbols::OutOfMemory);
            };
            match read_file(self.rt, path.as_str(), self.limit) {
                Ok(Some(text)) => return Ok(text),
                Ok(None) => return Err(NoSymbols::Corrupt),
                Err(error) => match reason_of(error.kind()) {
                    NoSymbols::Missing => (),
                    reason => return Err(reason),
                },
            }
        }
        Err(NoSymbols::Missing)
    }
}

// Returns the path of what has a path below a directory.
fn path_in(alloc: Global, dir: &str, path: &str) -> Result<String, AllocError>
    ensures { IfOk result (λ joined. string_bytes joined ≡ dir.now ++ (codes "/" ++ path.now)) }
{
    format!(in alloc; "{dir}/{path}")
}

// Reads a symbol file from a text, which is kept until the run ends, as it is itself.
fn kept(alloc: Global, text: &'static [u8]) -> Found
    ensures means { IfOk result (λ file. Some (symbols_of file.now) ≡ symbols_in text.now) }
    ensures why { IfErr result (IsNoFile (symbols_in text.now)) }
{
    match SymbolFile::read(alloc, text) {
        Ok(file) => match Box::new(alloc, file) {
            Ok(file) => Ok(Box::leak(file)),
            Err(_) => Err(NoSymbols::OutOfMemory),
        },
        Err(SymbolError::MissingModule) => Err(NoSymbols::Corrupt),
        Err(SymbolError::OutOfMemory) => Err(NoSymbols::OutOfMemory),
    }
}

// Returns why a module has no symbol file, if opening or reading it has an error of this kind.
fn reason_of(kind: io::ErrorKind) -> NoSymbols
    ensures { state_without result ≡ state_of_kind kind }
{
    match kind {
        io::ErrorKind::NotFound | io::ErrorKind::NotADirectory | io::ErrorKind::InvalidFilename =>
            NoSymbols::Missing,
        io::ErrorKind::OutOfMemory => NoSymbols::OutOfMemory,
        _ => NoSymbols::Corrupt,
    }
}

// Returns a symbol file that was found if it is the module's, and else that it is corrupt.
fn of_module(found: Found, loaded: &CrashModule) -> Found
    ensures { result ≡ of_module found.entry (loaded_of loaded.now) }
{
    match found {
        Ok(file) if is_of_module(file, loaded) => Ok(file),
        Ok(_) => Err(NoSymbols::Corrupt),
        Err(reason) => Err(reason),
    }
}

/// Makes the symbols of modules before any of their files is looked for.
#[tactic(auto, using(crate::proofs::SymbolLemmas::replicated))]
pub fn unknown(alloc: Global, modules: &[CrashModule]) -> Result<Symbols<'static>, AllocError>
    ensures files { IfOk result (λ symbols. (known_of symbols).files
        ≡ replicate (length modules.now) None) }
    ensures states { IfOk result (λ symbols. (known_of symbols).states
        ≡ replicate (length modules.now) SymbolState.Unwanted) }
{
    Ok(Symbols {
        files: vec![in alloc; None; modules.len()]?,
        states: vec![in alloc; SymbolState::Unwanted; modules.len()]?,
    })
}

// Returns the state of a symbol file that was looked for.
fn state_read(found: Found) -> SymbolState
    ensures { result ≡ state_read found.entry }
{
    match found {
        Ok(_) => SymbolState::Loaded,
        Err(NoSymbols::Missing) => SymbolState::Missing,
        Err(NoSymbols::Corrupt) => SymbolState::Corrupt,
        Err(NoSymbols::OutOfMemory) => SymbolState::OutOfMemory,
    }
}

// Replaces the item of an index, if there is one.
fn set_at<T: Copy>(items: &mut Vec<T>, index: usize, item: T)
    ensures { items.new.items ≡ slice_set items.old.items index item }
{
    if index < items.len() {
        items[index] = item;
    }
}
