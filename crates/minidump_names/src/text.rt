ghost use Rattle.std.specs.Prelude.{◌≡◌, ◌≤◌, ◌<◌, All, Any, MatchBool, MatchResult, Some, map};
ghost use Rattle.minidump_names.specs.NameLine.{line_in, listing_of};
ghost use Rattle.minidump_names.specs.NamesText.{AreLines, InOrder, IsAbove, IsNotAbove, IsLineError, IsNamesTextError};
ghost use Rattle.minidump_names.specs.NamesText.{AddsLine, lines_in, listings_in};

use crate::NamesError;
use crate::line::{Listing, listing_in, says_nothing};
use minidump_bytes::LinuxOsStr;
use minidump_bytes::laws::parts_make_the_text;
use minidump_reason::CodeFamily;
use std::alloc::Global;

// Reads the codes that the lines of a text list.
pub(crate) fn read_lines<'t>(alloc: Global, text: &'t [u8]) -> Result<Vec<Listing<'t>>, NamesError>
    ensures { MatchResult result
        (λ v. AreLines (lines_in text.now)
        × (map listing_of v.items ≡ listings_in (lines_in text.now)))
        (λ e. IsNamesTextError text.now e) }
{
    parts_make_the_text();
    let mut listings = Vec::new(alloc);
    let mut number: u64 = 0;
    for line in LinuxOsStr(text).split(b'\n') {
        number += 1;
        read_line(&mut listings, line.as_bytes(), number)?;
    }
    Ok(listings)
}

// Reads a line after others.
#[tactic(auto, unfolding(crate::specs::NameLine::line_in))]
fn read_line<'t>(
    listings: &mut Vec<Listing<'t>>,
    line: &'t [u8],
    number: u64,
) -> Result<(), NamesError>
    requires { InOrder (map listing_of listings.old.items) }
    ensures { MatchResult result
        (λ _. AddsLine (map listing_of listings.old.items) line.entry.now
        (map listing_of listings.new.items))
        (λ e. IsLineError (map listing_of listings.old.items) line.entry.now number e) }
{
    if says_nothing(line) {
        return Ok(());
    }
    let Some(next) = listing_in(line) else {
        return Err(NamesError::NotALine(number));
    };
    in_order(listings, next, number)?;
    listings.push(next)?;
    Ok(())
}

// Returns an error if the code of a line isn't above each earlier one of its family. `number` is
// that of the line.
fn in_order(listings: &[Listing<'_>], next: Listing<'_>, number: u64) -> Result<(), NamesError>
    requires { InOrder (map listing_of listings.now) }
    ensures { MatchResult result
        (λ _. IsAbove (map listing_of listings.now) (listing_of next.entry))
        (λ e. (e ≡ NamesError.OutOfOrder number)
        × IsNotAbove (map listing_of listings.now) (listing_of next.entry)) }
{
    if is_above(listings, next.family, next.number) {
        Ok(())
    } else {
        Err(NamesError::OutOfOrder(number))
    }
}

// Tests whether a number is above each number of a family, whose last one is the highest.
fn is_above(listings: &[Listing<'_>], family: CodeFamily, number: u32) -> bool
    requires { InOrder (map listing_of listings.now) }
    ensures { MatchBool result
        (All (λ e. e.family ≡ family → e.number < number) (map listing_of listings.now))
        (Any (λ e. (e.family ≡ family) × (number ≤ e.number)) (map listing_of listings.now)) }
{
    for i in (0..listings.len()).rev() {
        if listings[i].family == family {
            return listings[i].number < number;
        }
    }
    true
}
