ghost use Rattle.std.specs.Prelude.{◌≡◌};
ghost use Rattle.std.specs.Option.{option_map};
ghost use Rattle.std.specs.Iterator.{YieldsFirstBy, item_count};
ghost use Rattle.minidump_bytes.specs.LinuxOsStr.{parts_of, text_of};
ghost use Rattle.minidump_records.specs.Linux.Pairs.{pair_of, pair_side, pairs_of, without_quotes};

use minidump_bytes::{Lines, LinuxOsStr};
use std::marker::Model;

/// An iterator over the pairs of a text that Linux wrote. Each line is cut at its first separator
/// into a key and a value; a line without one is skipped. Both are trimmed of ASCII white space,
/// and then lose their quotes if they have one at each end.
#[derive(Drop)]
pub struct LinuxPairs<'a> {
    lines: Lines<'a>,
    separator: u8,
}

impl<'a> Model for LinuxPairs<'a> {
    ghost use Rattle.std.specs.Prelude.{ℕ, List};
    ghost use Rattle.std.specs.List.{filter_map};
    ghost use Rattle.minidump_records.specs.Linux.Pairs.{pair_of};

    ghost Value = { List (List ℕ × List ℕ) };

    ghost view = { λ s. filter_map (pair_of s.separator) s.lines };
}

impl<'a> LinuxPairs<'a> {
    // Makes an iterator over the pairs of a text.
    pub(crate) fn new(text: &'a [u8], separator: u8) -> Self
        ensures { result ≡ pairs_of separator text.now }
    {
        LinuxPairs {
            lines: LinuxOsStr::from_bytes(text).lines(),
            separator,
        }
    }
}

impl<'a> Iterator for LinuxPairs<'a> {
    type Item = (LinuxOsStr<'a>, LinuxOsStr<'a>);

    ghost next_gives = { YieldsFirstBy parts_of (λ left. left) };

    ghost remaining = { item_count (λ left. left) };

    fn next(&mut self) -> Option<(LinuxOsStr<'a>, LinuxOsStr<'a>)> {
        while let Some(line) = self.lines.next() {
            if let Some(pair) = pair_in(line, self.separator) {
                return Some(pair);
            }
        }
        None
    }
}

// Returns the pair of a line, or `None` if the line lacks the separator.
fn pair_in(line: LinuxOsStr<'_>, separator: u8) -> Option<(LinuxOsStr<'_>, LinuxOsStr<'_>)>
    ensures { option_map parts_of result ≡ pair_of separator (text_of line.entry) }
{
    let (key, value) = line.split_once(separator)?;
    Some((side(key), side(value)))
}

// Returns a key or a value trimmed, and then without its quotes.
fn side(text: LinuxOsStr<'_>) -> LinuxOsStr<'_>
    ensures { text_of result ≡ pair_side (text_of text.entry) }
{
    without_quotes(text.trim_ascii_whitespace())
}

// Returns a text without the quotes at its ends, or as it is if one of them is missing.
#[tactic(auto, unfolding(crate::specs::Linux::Pairs::without_quotes))]
fn without_quotes(text: LinuxOsStr<'_>) -> LinuxOsStr<'_>
    ensures { text_of result ≡ without_quotes (text_of text.entry) }
{
    let bytes = text.as_bytes();
    let end = bytes.len();
    if end >= 2 && bytes[0] == b'"' && bytes[end - 1] == b'"' {
        LinuxOsStr::from_bytes(&bytes[1..end - 1])
    } else {
        text
    }
}
