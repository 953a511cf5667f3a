ghost use Rattle.std.specs.Prelude.{◌≡◌, ◌++◌, ℕ, OnOk};
ghost use Rattle.std.specs.List.{enumerate_from, flat_map};
ghost use Rattle.minidump_bytes.specs.Piece.{hex};
ghost use Rattle.minidump_format.specs.Text.{line_end};
ghost use Rattle.minidump_context.specs.Text.{bytes_line, front_text, left_front, register_line};

use itoa::Buffer;
use minidump_bytes::{Piece, push_bytes, push_pieces};
use minidump_format::push_line_end;
use std::alloc::AllocError;

// The value of a register, 32 to 128 bits wide.
pub(crate) trait RegisterValue {
    // the number that it is
    ghost number: { Self → ℕ };

    // Appends it in hexadecimal.
    fn push_hex(&self, out: &mut Vec<u8>) -> Result<(), AllocError>
        ensures { OnOk result (out.new.items ≡ out.old.items ++ hex (number self.now)) };
}

impl RegisterValue for u32 {
    ghost number = { λ n. n };

    fn push_hex(&self, out: &mut Vec<u8>) -> Result<(), AllocError> {
        push_pieces(out, &[Piece::Hex(*self as u64)])
    }
}

impl RegisterValue for u64 {
    ghost number = { λ n. n };

    fn push_hex(&self, out: &mut Vec<u8>) -> Result<(), AllocError> {
        push_pieces(out, &[Piece::Hex(*self)])
    }
}

impl RegisterValue for u128 {
    ghost number = { λ n. n };

    fn push_hex(&self, out: &mut Vec<u8>) -> Result<(), AllocError> {
        push_wide(out, *self)
    }
}

// Appends a number of 128 bits in hexadecimal.
fn push_wide(out: &mut Vec<u8>, value: u128) -> Result<(), AllocError>
    ensures { OnOk result (out.new.items ≡ out.old.items ++ hex value) }
{
    let high = (value / 0x1_0000_0000_0000_0000) as u64;
    let low = (value % 0x1_0000_0000_0000_0000) as u64;
    if high == 0 {
        return push_pieces(out, &[Piece::Hex(low)]);
    }
    push_pieces(out, &[Piece::Hex(high), Piece::WideDigits(low, 16)])
}

// The text in front of the value of a numbered register: a text before the number, the number at
// the left or at the right of two columns, and a text after it.
#[derive(Clone, Copy)]
pub(crate) enum Front<'a> {
    Left(&'a str, &'a str),
    Right(&'a str, &'a str),
}

#[rattlefmt::skip]
fn push_front(out: &mut Vec<u8>, front: Front<'_>, number: usize) -> Result<(), AllocError>
    ensures { OnOk result (out.new.items ≡ out.old.items ++ front_text front.entry number) }
{
    match front {
        Front::Left(before, after) => push_left(out, before, number, after),
        Front::Right(before, after) => push_pieces(out, &[
            Piece::Words(before), Piece::Right(number as u64, 2), Piece::Words(after),
        ]),
    }
}

#[rattlefmt::skip]
fn push_left(out: &mut Vec<u8>, before: &str, number: usize, after: &str) -> Result<(), AllocError>
    ensures { OnOk result (out.new.items ≡ out.old.items
        ++ left_front before.now after.now number) }
{
    let mut buffer = Buffer::new();
    push_pieces(out, &[Piece::Words(before), Piece::Left(2, buffer.format(number)), Piece::Words(after)])
}

// Appends a value and the end of its line.
fn push_value<T: RegisterValue>(out: &mut Vec<u8>, value: &T) -> Result<(), AllocError>
    ensures { OnOk result (out.new.items ≡ out.old.items
        ++ (hex (T.number value.now) ++ line_end)) }
{
    value.push_hex(out)?;
    push_line_end(out)
}

// Appends the line of a register.
#[tactic(auto, unfolding(crate::specs::Text::register_line))]
pub(crate) fn push_register<T: RegisterValue>(
    out: &mut Vec<u8>,
    front: &str,
    value: &T,
) -> Result<(), AllocError>
    ensures { OnOk result (out.new.items ≡ out.old.items
        ++ register_line front.now (T.number value.now)) }
{
    out.extend_from_slice(front.as_bytes())?;
    push_value(out, value)
}

// Appends a line for each register: the text in front of its value, and the value.
pub(crate) fn push_registers(out: &mut Vec<u8>, rows: &[(&str, u64)]) -> Result<(), AllocError>
    ensures { OnOk result (out.new.items ≡ out.old.items
        ++ flat_map (λ r. register_line r.0.now r.1) rows.now) }
{
    for row in rows {
        push_register(out, row.0, &row.1)?;
    }
    Ok(())
}

// Appends a line for each of the numbered registers.
pub(crate) fn push_numbered<T: RegisterValue>(
    out: &mut Vec<u8>,
    front: Front<'_>,
    values: &[T],
) -> Result<(), AllocError>
    ensures { OnOk result (out.new.items ≡ out.old.items
        ++ flat_map (λ r. register_line (front_text front.entry r.0) (T.number r.1))
        (enumerate_from 0 values.now)) }
{
    for number in 0..values.len() {
        push_numbered_register(out, front, number, &values[number])?;
    }
    Ok(())
}

#[tactic(auto, unfolding(crate::specs::Text::register_line))]
fn push_numbered_register<T: RegisterValue>(
    out: &mut Vec<u8>,
    front: Front<'_>,
    number: usize,
    value: &T,
) -> Result<(), AllocError>
    ensures { OnOk result (out.new.items ≡ out.old.items
        ++ register_line (front_text front.entry number) (T.number value.now)) }
{
    push_front(out, front, number)?;
    push_value(out, value)
}

// Appends the line of a register of many bytes.
#[tactic(auto, unfolding(crate::specs::Text::bytes_line))]
pub(crate) fn push_bytes_line(
    out: &mut Vec<u8>,
    front: &str,
    bytes: &[u8],
) -> Result<(), AllocError>
    ensures { OnOk result (out.new.items ≡ out.old.items ++ bytes_line front.now bytes.now) }
{
    out.extend_from_slice(front.as_bytes())?;
    push_bytes(out, bytes)?;
    push_line_end(out)
}
