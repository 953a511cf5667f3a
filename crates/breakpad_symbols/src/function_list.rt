ghost use Rattle.std.specs.Prelude.{◌≡◌, List, IfOk, map};
ghost use Rattle.std.specs.List.{list_any};
ghost use Rattle.std.specs.Option.{option_copied};
ghost use Rattle.minidump_index.specs.Lookup.{IsCountedLookup};
ghost use Rattle.breakpad_symbols.specs.Function.{function_of, range_of_function};
ghost use Rattle.breakpad_symbols.specs.SymbolFile.{parts};

use crate::Function;
use crate::numbered::{Numbered, NumberedList};
use minidump_bytes::Steps;
use minidump_index::RegionList;
use std::alloc::{AllocError, Global};
use std::marker::Model;

// The functions of a file, by their ranges and by where they begin.
#[derive(Drop)]
pub(crate) struct FunctionList<'a> {
    regions: RegionList<Function<'a>>,
    starts: NumberedList<u64>,
}

impl<'a> Model for FunctionList<'a> {
    ghost use Rattle.std.specs.Prelude.{◌≡◌, List, map};
    ghost use Rattle.breakpad_symbols.specs.declared.function.Function.{Function};

    ghost Value = { List Function };

    ghost view = { λ s. s.regions };

    ghost invariant = { λ s. s.starts ≡ map (λ (f : Function). f.address) s.regions };
}

// An address by itself.
impl Numbered for u64 {
    ghost number_of = { λ n. n };

    fn number(&self) -> u64 {
        *self
    }
}

impl<'a> FunctionList<'a> {
    // Makes the list of some functions.
    pub(crate) fn from_functions(
        alloc: Global,
        functions: Vec<Function<'a>>,
    ) -> Result<FunctionList<'a>, AllocError>
        ensures { IfOk result (λ list. list ≡ functions.entry.items) }
    {
        let starts = NumberedList::from_records(alloc, starts_of(alloc, &functions)?)?;
        let Ok(regions) = RegionList::from_regions(alloc, functions) else {
            return Err(AllocError);
        };
        Ok(FunctionList { regions, starts })
    }

    // Returns all functions, in the order of the file.
    pub(crate) fn as_slice(&self) -> &[Function<'a>]
        ensures { result.now ≡ self.now }
    {
        self.regions.as_slice()
    }

    // Returns the kept function whose range has an address. Counts its comparisons.
    pub(crate) fn at_address(&self, address: u64, steps: &mut Steps) -> Option<&Function<'a>>
        ensures { IsCountedLookup range_of_function self.now address steps.old steps.new
            (option_copied result) }
    {
        self.regions.at_address(address, steps)
    }

    // Tells whether a function begins neither below a symbol nor above an address.
    pub(crate) fn parts(&self, symbol: u64, address: u64) -> bool
        ensures { result ≡ list_any (parts symbol address) (map function_of self.now) }
    {
        match self.starts.nearest(address) {
            Some(start) => symbol <= *start,
            None => false,
        }
    }
}

// Returns where functions begin.
fn starts_of(alloc: Global, functions: &[Function<'_>]) -> Result<Vec<u64>, AllocError>
    ensures { IfOk result (λ starts. starts.items
        ≡ map (λ (f : Function). f.address) functions.now) }
{
    let mut starts = Vec::new(alloc);
    for function in functions {
        starts.push(function.address)?;
    }
    Ok(starts)
}
