//! Texts, one after another in one buffer, and rows with the places of their texts.
ghost use Rattle.std.specs.Prelude.{◌≡◌, ◌++◌, IfOk, List, OnOk, map, string_bytes, ℕ};
ghost use Rattle.std.specs.Option.{option_map};
ghost use Rattle.minidump_c.specs.Spans.{bit, flag, rows_after, span_after, text_in, texts_after};

use std::alloc::{AllocError, Global};

/// Where a text lies in the buffer of texts. An absent text has a `len` of 0.
#[repr(C)]
#[derive(Clone, Copy)]
pub struct Span {
    /// The offset of its first byte.
    pub offset: usize,
    /// The number of its bytes.
    pub len: usize,
}

// Appends a text, and returns where it lies.
pub(crate) fn push_text(texts: &mut Vec<u8>, text: &[u8]) -> Result<Span, AllocError>
    ensures span { IfOk result (λ span. span ≡ span_after texts.old.items text.now) }
    ensures texts { OnOk result (texts.new.items ≡ texts.old.items ++ text.now) }
{
    let span = Span {
        offset: texts.len(),
        len: text.len(),
    };
    texts.extend_from_slice(text)?;
    Ok(span)
}

// Returns the bytes of a text, none if it is absent.
pub(crate) fn bytes_of(text: &Option<String>) -> &[u8]
    ensures { result.now ≡ text_in (option_map string_bytes text.now) }
{
    text.as_ref().map_or(&[], |text| text.as_bytes())
}

// Returns 1 for what is there, 0 for what is absent.
pub(crate) fn flag<T>(part: &Option<T>) -> u8
    ensures { result ≡ flag part.now }
{
    part.is_some() as u8
}

// Returns 1 for what is so, 0 for what isn't.
pub(crate) fn bit(is_so: bool) -> u8
    ensures { result ≡ bit is_so }
{
    is_so as u8
}

/// An item of which a row is made, and whose texts are appended to those before.
pub(crate) trait MakeRow {
    /// A row.
    type Row;

    // the value of an item
    ghost Value: { Type 0 };

    ghost value_of: { Self → Value };

    // the row of an item by the texts before its own, and those texts with its own
    ghost row_after: { List ℕ → Value → Self.Row × List ℕ };

    /// Makes the row of the item, and appends its texts.
    fn make_row(&self, texts: &mut Vec<u8>) -> Result<Self::Row, AllocError>
        ensures row { IfOk result
            (λ row. row ≡ (row_after texts.old.items (value_of self.now)).0) }
        ensures texts { OnOk result
            (texts.new.items ≡ (row_after texts.old.items (value_of self.now)).1) };
}

/// Makes the rows of items, and appends their texts.
#[tactic(auto, using(std::proofs::lemmas::List::drop_more))]
pub(crate) fn make_rows<X: MakeRow>(
    alloc: Global,
    items: &[X],
    texts: &mut Vec<u8>,
) -> Result<Vec<X::Row>, AllocError>
where
    X::Row: Drop,
    ensures rows { IfOk result (λ rows. rows.items
        ≡ rows_after X.row_after texts.old.items (map X.value_of items.now)) }
    ensures texts { OnOk result (texts.new.items
        ≡ texts_after X.row_after texts.old.items (map X.value_of items.now)) }
{
    let mut rows = Vec::new(alloc);
    for item in items {
        rows.push(item.make_row(texts)?)?;
    }
    Ok(rows)
}
