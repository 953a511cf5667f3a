ghost use Rattle.std.specs.Prelude.{◌≡◌, IfErr, IfOk, map};
ghost use Rattle.minidump_reason.specs.Names.{IsAscending, entries_of};
ghost use Rattle.minidump_names.specs.NameLine.{listing_of};
ghost use Rattle.minidump_names.specs.NamesText.{InOrder, IsNames, IsNamesTextError, entries_of_family};

use crate::NamesError;
use crate::family::FAMILIES;
use crate::line::Listing;
use crate::text::read_lines;
use minidump_reason::{CodeFamily, CodeNames};
use std::alloc::{AllocError, Global};
use std::marker::Model;

/// The names of codes that a text lists, borrowed from it.
#[derive(Drop)]
pub struct NameTable<'t> {
    lists: Vec<(CodeFamily, Vec<(u32, &'t str)>)>,
}

impl<'t> Model for NameTable<'t> {
    ghost use Rattle.std.specs.Prelude.{◌≢◌, All, AllPairs, map};
    ghost use Rattle.minidump_reason.specs.Names.{IsAscending, Lists, entries_of};

    ghost Value = { Lists };

    ghost view = { λ s. map (λ l. (l.0, entries_of l.1.items)) s.lists.items };

    ghost invariant = { λ s. All (λ l. IsAscending l.1.items) s.lists.items
        × AllPairs (λ a b. a.0 ≢ b.0) s.lists.items };
}

impl<'t> NameTable<'t> {
    /// Reads a text of names. A line is a code, `FAMILY NUMBER NAME` with one space between the
    /// parts; a comment, which begins with `#`; or empty. FAMILY is the name of a [`CodeFamily`].
    /// NUMBER is below 2^32, in decimal, or in hexadecimal after `0x`. NAME is one byte or more of
    /// UTF-8, without ASCII white space and without `#`. The numbers of a family ascend strictly. A
    /// line ends at a line feed, so a carriage return before it makes the line malformed, unless it
    /// is a comment.
    ///
    /// Returns the error of the first line that breaks these rules: [`NamesError::NotALine`] if it
    /// isn't such a line, and [`NamesError::OutOfOrder`] if an earlier number of its family isn't
    /// below its own. Returns [`NamesError::OutOfMemory`] if an allocation fails.
    pub fn read(alloc: Global, text: &'t [u8]) -> Result<NameTable<'t>, NamesError>
        ensures names { IfOk result (λ table. IsNames text.entry.now table) }
        ensures error { IfErr result (λ e. IsNamesTextError text.entry.now e) }
    {
        let listings = read_lines(alloc, text)?;
        let mut lists = Vec::new(alloc);
        for family in FAMILIES {
            lists.push((family, entries_of_family(alloc, &listings, family)?))?;
        }
        Ok(NameTable { lists })
    }

    /// Borrows the lists of the families.
    pub fn lists<'n>(&'n self, alloc: Global) -> Result<NameLists<'n>, AllocError>
        ensures { IfOk result (λ lists. lists ≡ self.entry.now) }
    {
        let mut lists: Vec<(CodeFamily, &'n [(u32, &'n str)])> = Vec::new(alloc);
        for list in &self.lists {
            lists.push((list.0, list.1.as_slice()))?;
        }
        Ok(NameLists { lists })
    }
}

// Copies the codes of a family, in their order.
fn entries_of_family<'t>(
    alloc: Global,
    listings: &[Listing<'t>],
    family: CodeFamily,
) -> Result<Vec<(u32, &'t str)>, AllocError>
    requires { InOrder (map listing_of listings.now) }
    ensures entries { IfOk result (λ v. entries_of v.items
        ≡ entries_of_family (map listing_of listings.now) family) }
    ensures ascending { IfOk result (λ v. IsAscending v.items) }
{
    let mut entries = Vec::new(alloc);
    for next in listings {
        if next.family == family {
            entries.push((next.number, next.name))?;
        }
    }
    Ok(entries)
}

/// The lists of a [`NameTable`], which lend themselves as [`CodeNames`].
#[derive(Drop)]
pub struct NameLists<'n> {
    lists: Vec<(CodeFamily, &'n [(u32, &'n str)])>,
}

impl<'n> Model for NameLists<'n> {
    ghost use Rattle.minidump_reason.specs.Names.{AreCodeNames, Lists, lists_of};

    ghost Value = { Lists };

    ghost view = { λ s. lists_of s.lists.items };

    ghost invariant = { λ s. AreCodeNames s.lists.items };
}

impl<'n> NameLists<'n> {
    /// Lends the names. Takes no memory.
    pub fn code_names(&self) -> CodeNames<'_>
        ensures { result ≡ self.now }
    {
        match CodeNames::new(&self.lists) {
            Ok(names) => names,
            Err(_) => CodeNames::empty(),
        }
    }
}
