// Each record is read of the bytes 0, 1, 2, .. in both byte orders, and what was read is written as
// these bytes. Where a record has a field that no report prints, each field has the number of the
// bytes at its offset in the format's table. Of a record within a record the first field shows the
// offset: the rest is the table of the inner one.
mod contexts;
mod others;
mod printed;

use minidump_bytes::{Endian, Record};
use minidump_synth::{Encode, Section};
use std::alloc::{AllocError, Global};

// A record whose fields are known to stand at offsets.
trait Fields {
    // Whether each field has the number of its bytes, which are 0, 1, 2, ..
    fn stand(&self, endian: Endian) -> bool;
}

// The bytes 0, 1, 2, .. 250, 0, 1, .. so that each field of a record has a value of its own.
fn count_up() -> [u8; 2048] {
    let mut bytes = [0; 2048];
    let mut next = 0;
    for byte in &mut bytes {
        *byte = next;
        next = if next < 250 { next + 1 } else { 0 };
    }
    bytes
}

// Whether the values are the numbers of a width in bytes that stand one after another from an
// offset on.
fn follow<T: Copy + Into<u128>>(endian: Endian, offset: usize, width: usize, values: &[T]) -> bool {
    let bytes = count_up();
    let mut rest = bytes.get(offset..).unwrap_or(&[]);
    for value in values {
        let number: u128 = (*value).into();
        let little = number.to_le_bytes();
        let big = number.to_be_bytes();
        let digits = match endian {
            Endian::Little => little.get(..width),
            Endian::Big => big.get(16_usize.saturating_sub(width)..),
        };
        match rest.strip_prefix(digits.unwrap_or(&[])) {
            Some(after) => rest = after,
            None => return false,
        }
    }
    true
}

// Whether what is read of these bytes is written as them.
fn is_written<R: Record + Encode + Drop>(
    alloc: Global,
    endian: Endian,
) -> Result<bool, AllocError> {
    let bytes = count_up();
    let Some(bytes) = bytes.get(..R::SIZE) else {
        return Ok(false);
    };
    let record = R::decode(bytes, endian);
    let written = Section::new(alloc, endian).record(&record).finish()?;
    Ok(written.as_slice() == bytes)
}

// The same in both byte orders.
fn is_written_back<R: Record + Encode + Drop>(alloc: Global) -> bool {
    is_written::<R>(alloc, Endian::Little) == Ok(true)
        && is_written::<R>(alloc, Endian::Big) == Ok(true)
}

fn stands<R: Record + Fields + Drop>(endian: Endian) -> bool {
    match count_up().get(..R::SIZE) {
        Some(bytes) => R::decode(bytes, endian).stand(endian),
        None => false,
    }
}

// Whether the fields stand at their offsets and are written back there, in both byte orders.
fn is_exact<R: Record + Encode + Fields + Drop>(alloc: Global) -> bool {
    is_written_back::<R>(alloc) && stands::<R>(Endian::Little) && stands::<R>(Endian::Big)
}
