//! Lines of a text, whose control characters are escapes, so that no text begins a line.
ghost use Rattle.std.specs.Prelude.{◌≡◌, [], ◌∷◌, OnErr, string_bytes, ◌++◌, OnOk, chars};
ghost use Rattle.std.specs.Prelude.{encode_utf8_all, false};
ghost use Rattle.std.specs.List.{flat_map, list_any};
ghost use Rattle.minidump.specs.Below.Bytes.Piece.{piece_text};
ghost use Rattle.crash_lines.specs.Lines.{Adds, escape_char, escaped_text, is_control, row_of};
ghost use Rattle.crash_lines.specs.Parts.{part_text};
ghost use Rattle.crash_lines.specs.Words.{count_row, if_missing};

use crate::parts::Part::{Decimal, Words};
use crate::parts::{Part, format_parts};
use crash::is_missing;
use minidump::Error;
use minidump::text::{Piece, format_pieces};
use std::alloc::AllocError;

/// What a call that appends returns: `AllocError` if an allocation fails.
pub type Added = Result<(), AllocError>;

/// Appends a line of the pieces, their control characters as escapes, and the end of the line.
///
/// Returns `AllocError` if an allocation fails, and then the text is as it was.
pub fn push_line(out: &mut String, pieces: &[Piece<'_>]) -> Result<(), AllocError>
    ensures ok { Adds out.old out.new (flat_map piece_text pieces.now ∷ []) result }
    ensures err { OnErr result (string_bytes out.new ≡ string_bytes out.old) }
{
    let text = format_pieces(*out.allocator(), pieces)?;
    push_text_line(out, text.as_str())
}

/// Appends the line of a row. If an allocation fails, the text is as it was.
pub fn push_row(out: &mut String, parts: &[Part<'_>]) -> Added
    ensures ok { Adds out.old out.new (flat_map part_text parts.now ∷ []) result }
    ensures err { OnErr result (string_bytes out.new ≡ string_bytes out.old) }
{
    let text = format_parts(*out.allocator(), parts)?;
    push_text_line(out, text.as_str())
}

/// Appends the lines of rows: none for a row without a text.
pub fn push_table(out: &mut String, rows: &[&[Part<'_>]]) -> Added
    ensures { Adds out.old out.new
        (flat_map (λ parts. row_of (flat_map part_text parts.now)) rows.now) result }
{
    for row in rows {
        let text = format_parts(*out.allocator(), row)?;
        if !text.is_empty() {
            push_text_line(out, text.as_str())?;
        }
    }
    Ok(())
}

/// Appends the line of a text, its control characters as escapes. If an allocation fails, what there
/// was is left as it was.
#[tactic(auto, unfolding(crate::specs::Lines::line_of))]
pub(crate) fn push_text_line(out: &mut String, text: &str) -> Added
    ensures ok { Adds out.old out.new (text.now ∷ []) result }
    ensures err { OnErr result (string_bytes out.new ≡ string_bytes out.old) }
{
    let mut line = String::new(*out.allocator());
    push_escaped(&mut line, text)?;
    line.push('\n')?;
    out.push_str(line.as_str())
}

/// Appends the line of the number of something. If an allocation fails, the text is as it was.
#[tactic(auto, unfolding(crate::specs::Words::count_row))]
pub fn push_count(out: &mut String, what: &str, count: usize) -> Added
    ensures ok { Adds out.old out.new (count_row what.now count ∷ []) result }
    ensures err { OnErr result (string_bytes out.new ≡ string_bytes out.old) }
{
    push_row(out, &[Words(what), Words(" "), Decimal(count as u64)])
}

/// Appends a line of words if an error says that something is missing. If an allocation fails, the
/// text is as it was.
pub fn push_if_missing(out: &mut String, words: &str, error: Error) -> Added
    ensures ok { Adds out.old out.new (if_missing words.now error) result }
    ensures err { OnErr result (string_bytes out.new ≡ string_bytes out.old) }
{
    if is_missing(error) {
        push_text_line(out, words)
    } else {
        Ok(())
    }
}

// ---- escapes

// Appends a text, each of its control characters as an escape, as `\u{1b}`. A text without control
// characters is appended as it is.
fn push_escaped(out: &mut String, text: &str) -> Result<(), AllocError>
    ensures escaped_text { OnOk result (string_bytes out.new ≡ string_bytes out.old ++ escaped_text
        text.now) }
    ensures plain { OnOk result (list_any is_control (chars text.now) ≡ false
        → escaped_text text.now ≡ text.now) }
{
    for c in text.chars() {
        push_char(out, c)?;
    }
    Ok(())
}

// Appends a character, or its escape.
fn push_char(out: &mut String, c: char) -> Result<(), AllocError>
    ensures { OnOk result (string_bytes out.new ≡ string_bytes out.old ++ encode_utf8_all
        (flat_map escape_char (c ∷ []))) }
{
    if is_control(c) {
        let number = u32::from(c);
        write!(out, "\\u{{{number:x}}}")
    } else {
        out.push(c)
    }
}

// Tells whether a character is shown as an escape: one of the control characters, a line or
// paragraph separator, or a mark that changes the direction of text.
fn is_control(c: char) -> bool
    ensures { result ≡ is_control c }
{
    matches!(
        c,
        '\0'..='\u{1f}'
            | '\u{7f}'..='\u{9f}'
            | '\u{61c}'
            | '\u{200e}'..='\u{200f}'
            | '\u{2028}'..='\u{202e}'
            | '\u{2066}'..='\u{2069}'
    )
}
