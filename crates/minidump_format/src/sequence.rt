ghost use Rattle.std.specs.Prelude.{◌≡◌, ◌++◌, ℕ, List, [], IfErr, false, length};
ghost use Rattle.std.specs.Iterator.{IsFinite};
ghost use Rattle.std.specs.List.{enumerate_from, flat_map};
ghost use Rattle.std.proofs.lemmas.Iterator.{YieldsList};
ghost use Rattle.minidump_bytes.specs.Told.{has_failed};
ghost use Rattle.minidump_format.specs.Numbered.{numbered_list};
ghost use Rattle.minidump_format.specs.Print.{Prints};

use crate::print::{ITEM, put_bytes};
use crate::{Error, Pushed};
use minidump_bytes::{Piece, Told, push_pieces};
use std::alloc::{AllocError, Global};
use std::io::Write;

// The number of bytes at which a block is written. What waits is shorter.
const BLOCK: usize = 32768;

// The room that is made for a block: for what waits, and for one item more.
const ROOM: usize = BLOCK + ITEM;

/// Prints what an iterator yields, in blocks of some 32 KiB. Stops at the first error. If there is
/// nothing, the only error is [`Error::IoError`].
pub fn print_all<I: Iterator + Drop, W: Write>(
    items: I,
    alloc: Global,
    f: &mut Told<W>,
) -> Result<(), Error>
where
    I::Item: Pushed + Drop,
    requires can { I.can_next items }
    requires ends { IsFinite (I.remaining items) }
    ensures prints { (texts : List (List ℕ)) → YieldsList I.next_gives I.Item.text items texts
        → Prints W.contents f.old f.new (flat_map (λ t. t) texts) result }
    ensures none { YieldsList I.next_gives I.Item.text items []
        → IfErr result (λ e. e ≡ Error.IoError) }
{
    if f.failed() {
        return Err(Error::IoError);
    }
    print_after(Vec::new(alloc), items, f)
}

// Prints a block, and then what an iterator yields, in blocks of some 32 KiB. Stops at the first
// error. If the iterator yields nothing, the only error is `IoError`.
fn print_after<I: Iterator + Drop, W: Write>(
    mut block: Vec<u8>,
    items: I,
    f: &mut Told<W>,
) -> Result<(), Error>
where
    I::Item: Pushed + Drop,
    requires alive { has_failed f.old ≡ false }
    requires can { I.can_next items }
    requires ends { IsFinite (I.remaining items) }
    ensures prints { (texts : List (List ℕ)) → YieldsList I.next_gives I.Item.text items texts
        → Prints W.contents f.old f.new (block.items ++ flat_map (λ t. t) texts) result }
    ensures none { YieldsList I.next_gives I.Item.text items []
        → IfErr result (λ e. e ≡ Error.IoError) }
{
    for item in items {
        // Room for all of a block at once, so that it isn't copied as it grows.
        block.reserve(ROOM.saturating_sub(block.len()))?;
        item.push(&mut block)?;
        if block.len() >= BLOCK {
            put_bytes(f, block.as_slice())?;
            block.clear();
        }
    }
    put_bytes(f, block.as_slice())
}

/// Prints a heading with the number of items, and then the items in order, each after a line of the
/// name and its index.
pub fn print_numbered<'a, T: Pushed, W: Write>(
    heading: &str,
    name: &'a str,
    items: &'a [T],
    alloc: Global,
    f: &mut Told<W>,
) -> Result<(), Error>
    ensures { Prints W.contents f.old f.new
        (numbered_list heading.now name.now T.text items.now) result }
{
    let numbered = items.iter().enumerate();
    print_numbered_all(heading, name, items.len(), numbered, alloc, f)
}

/// Prints a heading with a count, and then the values that an iterator yields with their indices,
/// each after a line of the name and its index. `count` has to be the number of the values, and the
/// indices have to count from 0; else the text is unspecified.
pub fn print_numbered_all<T: Pushed + Drop, I: Iterator<Item = (usize, T)> + Drop, W: Write>(
    heading: &str,
    name: &str,
    count: usize,
    items: I,
    alloc: Global,
    f: &mut Told<W>,
) -> Result<(), Error>
    requires can { I.can_next items }
    requires ends { IsFinite (I.remaining items) }
    ensures { (texts : List (List ℕ))
        → YieldsList {B = ℕ × List ℕ} I.next_gives (λ p. (p.0, T.text p.1)) items
        (enumerate_from 0 texts)
        → count ≡ length texts
        → Prints W.contents f.old f.new (numbered_list heading.now name.now (λ t. t) texts) result }
{
    if f.failed() {
        return Err(Error::IoError);
    }
    let mut block = Vec::with_capacity(alloc, ROOM)?;
    let heading = Heading {
        words: heading,
        count,
    };
    heading.push(&mut block)?;
    let lines = items.map(|(index, value)| Numbered { name, index, value });
    print_after(block, lines, f)
}

/// A heading that ends with a count, and an empty line.
#[derive(Drop)]
pub struct Heading<'a> {
    /// The words before the count.
    pub words: &'a str,
    /// The count.
    pub count: usize,
}

impl<'a> Pushed for Heading<'a> {
    ghost use Rattle.minidump_format.specs.Numbered.{count_text};

    ghost text = { λ h. count_text h.words.now h.count };

    #[rattlefmt::skip]
    #[tactic(auto, unfolding(crate::specs::Numbered::count_text))]
    fn push(&self, out: &mut Vec<u8>) -> Result<(), AllocError> {
        push_pieces(out, &[Piece::Words(self.words), Piece::Decimal(self.count as u64), Piece::Words("\n\n")])
    }
}

/// A value with its index in a list: the line `name[index]`, and then the value's text.
#[derive(Drop)]
pub struct Numbered<'a, T> {
    /// The name before the index.
    pub name: &'a str,
    /// The index of the value.
    pub index: usize,
    /// The value.
    pub value: T,
}

impl<'a, T: Pushed> Pushed for Numbered<'a, T> {
    ghost use Rattle.minidump_format.specs.Numbered.{index_line, numbered_item};

    ghost text = { λ n. numbered_item n.name.now T.text (n.index, n.value) };

    #[rattlefmt::skip]
    #[tactic(auto, unfolding(crate::specs::Numbered::index_line))]
    fn push(&self, out: &mut Vec<u8>) -> Result<(), AllocError> {
        push_pieces(out, &[Piece::Words(self.name), Piece::Words("["), Piece::Decimal(self.index as u64), Piece::Words("]\n")])?;
        self.value.push(out)
    }
}

impl<'r, T: Pushed> Pushed for &'r T {
    ghost text = { λ r. T.text r.now };

    fn push(&self, out: &mut Vec<u8>) -> Result<(), AllocError> {
        (**self).push(out)
    }
}

/// Pieces of text, one after another.
impl<'r, 'p> Pushed for &'r [Piece<'p>] {
    ghost use Rattle.std.specs.List.{flat_map};
    ghost use Rattle.minidump_bytes.specs.Piece.{piece_text};

    ghost text = { λ pieces. flat_map piece_text pieces.now };

    fn push(&self, out: &mut Vec<u8>) -> Result<(), AllocError> {
        push_pieces(out, self)
    }
}
