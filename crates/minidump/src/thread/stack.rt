ghost use Rattle.std.specs.Prelude.{◌≡◌, ◌≤◌, ◌++◌, OnOk, codes};
ghost use Rattle.minidump_bytes.specs.FixedHex.{fixed_hex};
ghost use Rattle.minidump_format.specs.Print.{Prints};
ghost use Rattle.minidump.specs.ThreadText.{word_line, stack_words_text};

use minidump_bytes::{Endian, Piece, Told, last_digit, push_pieces};
use minidump_format::{Error, Pushed, print_all};
use minidump_system::PointerWidth;
use std::alloc::{AllocError, Global};
use std::io::Write;

// Prints the whole words of a stack, one a line. A word has 8 bytes if the width of a pointer is
// unknown.
#[tactic(auto, unfolding(crate::specs::ThreadText::stack_words_text))]
pub(crate) fn print_words<W: Write>(
    bytes: &[u8],
    endian: Endian,
    width: PointerWidth,
    alloc: Global,
    f: &mut Told<W>,
) -> Result<(), Error>
    ensures { Prints W.contents f.old f.new (stack_words_text endian width bytes.now) result }
{
    match width {
        PointerWidth::Bits32 => {
            let words = (0..bytes.len() / 4).map(|index| Word::Bits32(
                4 * index,
                endian.u32_at(bytes, 4 * index),
            ));
            print_all(words, alloc, f)
        }
        PointerWidth::Bits64 | PointerWidth::Unknown => {
            let words = (0..bytes.len() / 8).map(|index| Word::Bits64(
                8 * index,
                endian.u64_at(bytes, 8 * index),
            ));
            print_all(words, alloc, f)
        }
    }
}

// A word of four or eight bytes after its offset in the stack.
#[derive(Clone, Copy)]
pub(crate) enum Word {
    Bits32(usize, u32),
    Bits64(usize, u64),
}

impl Pushed for Word {
    ghost use Rattle.minidump.specs.ThreadText.{text_of_word};

    ghost text = { text_of_word };

    fn push(&self, out: &mut Vec<u8>) -> Result<(), AllocError> {
        match *self {
            Word::Bits32(offset, word) => push_word_32(out, offset, word),
            Word::Bits64(offset, word) => push_word_64(out, offset, word),
        }
    }
}

fn push_word_32(out: &mut Vec<u8>, offset: usize, word: u32) -> Result<(), AllocError>
    ensures { OnOk result (out.new.items ≡ out.old.items ++ word_line 4 offset word) }
{
    if offset < 0x1_0000_0000 {
        return out.extend_from_slice(&near_word_32(offset as u64, word as u64));
    }
    push_far_word(out, 4, offset, word as u64)
}

fn push_word_64(out: &mut Vec<u8>, offset: usize, word: u64) -> Result<(), AllocError>
    ensures { OnOk result (out.new.items ≡ out.old.items ++ word_line 8 offset word) }
{
    if offset < 0x1_0000_0000 {
        return out.extend_from_slice(&near_word_64(offset as u64, word));
    }
    push_far_word(out, 8, offset, word)
}

// Appends a word of some bytes, whose offset may take more than eight digits.
#[rattlefmt::skip]
#[tactic(auto, unfolding(crate::specs::ThreadText::word_line))]
fn push_far_word(out: &mut Vec<u8>, size: usize, offset: usize, word: u64) -> Result<(), AllocError>
    requires { size ≤ 8 }
    ensures { OnOk result (out.new.items ≡ out.old.items ++ word_line size offset word) }
{
    push_pieces(out, &[
        Piece::Words("    "), Piece::Wide(offset as u64, 8), Piece::Words(": "), Piece::Wide(word, 2 * size), Piece::Words("\n"),
    ])
}

// Returns the line of a word whose offset takes at most eight digits.
#[rattlefmt::skip]
fn near_word_32(offset: u64, word: u64) -> [u8; 27]
    ensures { result ≡ codes "    0x" ++ (fixed_hex 8 offset
        ++ (codes ": 0x" ++ (fixed_hex 8 word ++ codes "\n"))) }
{
    [
        b' ', b' ', b' ', b' ', b'0', b'x',
        last_digit(offset / 16 / 16 / 16 / 16 / 16 / 16 / 16),
        last_digit(offset / 16 / 16 / 16 / 16 / 16 / 16),
        last_digit(offset / 16 / 16 / 16 / 16 / 16), last_digit(offset / 16 / 16 / 16 / 16),
        last_digit(offset / 16 / 16 / 16), last_digit(offset / 16 / 16), last_digit(offset / 16),
        last_digit(offset),
        b':', b' ', b'0', b'x',
        last_digit(word / 16 / 16 / 16 / 16 / 16 / 16 / 16),
        last_digit(word / 16 / 16 / 16 / 16 / 16 / 16), last_digit(word / 16 / 16 / 16 / 16 / 16),
        last_digit(word / 16 / 16 / 16 / 16), last_digit(word / 16 / 16 / 16),
        last_digit(word / 16 / 16), last_digit(word / 16), last_digit(word),
        b'\n',
    ]
}

#[rattlefmt::skip]
fn near_word_64(offset: u64, word: u64) -> [u8; 35]
    ensures { result ≡ codes "    0x" ++ (fixed_hex 8 offset
        ++ (codes ": 0x" ++ (fixed_hex 16 word ++ codes "\n"))) }
{
    [
        b' ', b' ', b' ', b' ', b'0', b'x',
        last_digit(offset / 16 / 16 / 16 / 16 / 16 / 16 / 16),
        last_digit(offset / 16 / 16 / 16 / 16 / 16 / 16),
        last_digit(offset / 16 / 16 / 16 / 16 / 16), last_digit(offset / 16 / 16 / 16 / 16),
        last_digit(offset / 16 / 16 / 16), last_digit(offset / 16 / 16), last_digit(offset / 16),
        last_digit(offset),
        b':', b' ', b'0', b'x',
        last_digit(word / 16 / 16 / 16 / 16 / 16 / 16 / 16 / 16 / 16 / 16 / 16 / 16 / 16 / 16 / 16),
        last_digit(word / 16 / 16 / 16 / 16 / 16 / 16 / 16 / 16 / 16 / 16 / 16 / 16 / 16 / 16),
        last_digit(word / 16 / 16 / 16 / 16 / 16 / 16 / 16 / 16 / 16 / 16 / 16 / 16 / 16),
        last_digit(word / 16 / 16 / 16 / 16 / 16 / 16 / 16 / 16 / 16 / 16 / 16 / 16),
        last_digit(word / 16 / 16 / 16 / 16 / 16 / 16 / 16 / 16 / 16 / 16 / 16),
        last_digit(word / 16 / 16 / 16 / 16 / 16 / 16 / 16 / 16 / 16 / 16),
        last_digit(word / 16 / 16 / 16 / 16 / 16 / 16 / 16 / 16 / 16),
        last_digit(word / 16 / 16 / 16 / 16 / 16 / 16 / 16 / 16),
        last_digit(word / 16 / 16 / 16 / 16 / 16 / 16 / 16),
        last_digit(word / 16 / 16 / 16 / 16 / 16 / 16), last_digit(word / 16 / 16 / 16 / 16 / 16),
        last_digit(word / 16 / 16 / 16 / 16), last_digit(word / 16 / 16 / 16),
        last_digit(word / 16 / 16), last_digit(word / 16), last_digit(word),
        b'\n',
    ]
}
