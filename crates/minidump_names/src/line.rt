ghost use Rattle.std.specs.Prelude.{◌≡◌, ◌||◌, ◌==◌};
ghost use Rattle.std.specs.List.{list_any};
ghost use Rattle.std.specs.Option.{option_copied, option_map};
ghost use Rattle.minidump_names.specs.NameLine.{code_in, is_outside, listing_in, listing_of, name_in, says_nothing};

use crate::family::family_in;
use minidump_bytes::{LinuxOsStr, number_32};
use minidump_reason::CodeFamily;

/// A code with its name, which is borrowed from its line.
#[derive(Clone, Copy)]
pub struct Listing<'t> {
    /// The family of the code.
    pub family: CodeFamily,
    /// The code.
    pub number: u32,
    /// Its name.
    pub name: &'t str,
}

/// Reads the code that a line lists. The line is passed without the line feed that ends it. Returns
/// `None` if it lists no code: it is a comment, empty, or malformed.
#[tactic(auto, unfolding(crate::specs::NameLine::listing_in))]
pub fn listing_in(line: &[u8]) -> Option<Listing<'_>>
    ensures { option_map listing_of result ≡ listing_in line.now }
{
    let (family, rest) = LinuxOsStr(line).split_once(b' ')?;
    let (number, name) = rest.split_once(b' ')?;
    let family = family_in(family.as_bytes())?;
    let number = code_in(number.as_bytes())?;
    let name = name_in(name.as_bytes())?;
    Some(Listing {
        family,
        number,
        name,
    })
}

// Reads a number below 2^32, in decimal digits or, after `0x`, in hexadecimal ones.
#[tactic(auto, unfolding(crate::specs::NameLine::code_in))]
fn code_in(text: &[u8]) -> Option<u32>
    ensures { result ≡ code_in text.now }
{
    if let Some(number) = number_32(text, 10) {
        return Some(number);
    }
    let digits = LinuxOsStr(text).strip_prefix(b"0x")?;
    number_32(digits.as_bytes(), 16)
}

// Returns the name of a code, or `None` if the text isn't one.
#[tactic(auto, unfolding(crate::specs::NameLine::name_in))]
fn name_in(text: &[u8]) -> Option<&str>
    ensures { option_copied result ≡ name_in text.now }
{
    if text.is_empty() || has_outside(text) {
        return None;
    }
    LinuxOsStr(text).to_str()
}

// Tests whether a text has ASCII white space or `#`.
fn has_outside(text: &[u8]) -> bool
    ensures { result ≡ list_any is_outside text.now }
{
    text.iter().any(|b| b.is_ascii_whitespace() || *b == b'#')
}

// Tests whether a line is empty or a comment.
pub(crate) fn says_nothing(line: &[u8]) -> bool
    ensures { result ≡ says_nothing line.now }
{
    match line {
        [first, ..] => *first == b'#',
        [] => true,
    }
}
