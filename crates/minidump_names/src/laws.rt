//! Laws of lines, over the definitions that the contract of
//! [`NameTable::read`](crate::NameTable::read) names, and of errors.
ghost use Rattle.std.specs.Prelude.{◌≡◌, ◌↔◌, ℕ, List, Some};
ghost use Rattle.minidump_bytes.specs.Exact.{IsExact};
ghost use Rattle.minidump_names.specs.NameLine.{IsLine, Listing, line_in};

use crate::NamesError;

/// A line lists codes exactly if the grammar `IsLine` relates it to them.
pub fn lines_are_the_grammar()
    ensures { (line : List ℕ) (listings : List Listing) → (line_in line ≡ Some listings)
        ↔ IsLine line listings }
{}

/// An error equals the same error alone, and a clone of it is the same error.
pub fn errors_compare_and_copy_exactly()
    ensures { IsExact ⟦<NamesError as PartialEq>⟧.eq ⟦<NamesError as Clone>⟧.is_clone }
{}
