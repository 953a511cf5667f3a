ghost use Rattle.std.specs.Prelude.{◌≡◌};
ghost use Rattle.std.specs.Option.{option_map};
ghost use Rattle.minidump_bytes.specs.LinuxOsStr.{text_of};
ghost use Rattle.breakpad_symbols.specs.NumberedName.{file_line, name_of, numbered_name, origin_line};

use crate::numbered::Numbered;
use minidump_bytes::{LinuxOsStr, number_32};

// A FILE or INLINE_ORIGIN line: a number, by which other lines name a source file or a function, and
// its name.
#[derive(Clone, Copy)]
pub(crate) struct NumberedName<'a> {
    pub(crate) number: u32,
    pub(crate) name: LinuxOsStr<'a>,
}

impl Numbered for NumberedName<'_> {
    ghost number_of = { λ n. n.number };

    fn number(&self) -> u64 {
        self.number as u64
    }
}

// Reads a FILE line.
pub(crate) fn file_line(line: LinuxOsStr<'_>) -> Option<NumberedName<'_>>
    ensures { option_map name_of result ≡ file_line (text_of line.entry) }
{
    numbered_name(b"FILE ", line)
}

// Reads an INLINE_ORIGIN line.
pub(crate) fn origin_line(line: LinuxOsStr<'_>) -> Option<NumberedName<'_>>
    ensures { option_map name_of result ≡ origin_line (text_of line.entry) }
{
    numbered_name(b"INLINE_ORIGIN ", line)
}

// Reads a line of a keyword, a number and a name.
#[tactic(auto, unfolding(crate::specs::NumberedName::numbered_name))]
fn numbered_name<'a>(keyword: &[u8], line: LinuxOsStr<'a>) -> Option<NumberedName<'a>>
    ensures { option_map name_of result ≡ numbered_name keyword.now (text_of line.entry) }
{
    let fields = line.strip_prefix(keyword)?;
    let (number, name) = fields.split_once(b' ')?;
    let number = number_32(number.as_bytes(), 10)?;
    Some(NumberedName { number, name })
}
