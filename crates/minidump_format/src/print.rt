ghost use Rattle.std.specs.Prelude.{◌≡◌, ◌++◌, ℕ, List, IfErr, OnErr, OnOk};
ghost use Rattle.minidump_format.specs.Print.{Prints, out_of_memory};
ghost use Rattle.minidump_format.specs.Text.{line_end};

use crate::Error;
use minidump_bytes::Told;
use std::alloc::{AllocError, Global};
use std::io::Write;

// The room that is made for the text of an item. Few are longer.
pub(crate) const ITEM: usize = 4096;

/// A value that can append its text to bytes.
pub trait Pushed {
    // its text
    ghost text: { Self → List ℕ };

    /// Appends the text. Returns `AllocError` if memory runs out, and then the contents of
    /// `out` are unspecified.
    fn push(&self, out: &mut Vec<u8>) -> Result<(), AllocError>
        ensures { OnOk result (out.new.items ≡ out.old.items ++ text self.now) };
}

/// Prints the text of an item.
pub fn print_item<T: Pushed, W: Write>(
    item: &T,
    alloc: Global,
    f: &mut Told<W>,
) -> Result<(), Error>
    ensures { Prints W.contents f.old f.new (T.text item.now) result }
{
    if f.failed() {
        return Err(Error::IoError);
    }
    let mut text = Vec::with_capacity(alloc, ITEM)?;
    item.push(&mut text)?;
    put_bytes(f, text.as_slice())
}

/// Prints a text. The only error is [`Error::IoError`].
pub fn put_text<W: Write>(f: &mut Told<W>, text: &str) -> Result<(), Error>
    ensures prints { Prints W.contents f.old f.new text.now result }
    ensures error { IfErr result (λ e. e ≡ Error.IoError) }
{
    put_bytes(f, text.as_bytes())
}

/// Prints a line feed. The only error is [`Error::IoError`].
#[tactic(auto, unfolding(crate::specs::Text::line_end))]
pub fn print_line_end<W: Write>(f: &mut Told<W>) -> Result<(), Error>
    ensures prints { Prints W.contents f.old f.new line_end result }
    ensures error { IfErr result (λ e. e ≡ Error.IoError) }
{
    put_text(f, "\n")
}

/// Appends a line feed to bytes. Returns `AllocError` if memory runs out, and then appends nothing.
#[tactic(auto, unfolding(crate::specs::Text::line_end))]
pub fn push_line_end(out: &mut Vec<u8>) -> Result<(), AllocError>
    ensures pushed { OnOk result (out.new.items ≡ out.old.items ++ line_end) }
    ensures kept { OnErr result (out.new.items ≡ out.old.items) }
{
    out.extend_from_slice(b"\n")
}

// Prints bytes.
pub(crate) fn put_bytes<W: Write>(f: &mut Told<W>, bytes: &[u8]) -> Result<(), Error>
    ensures prints { Prints W.contents f.old f.new bytes.now result }
    ensures error { IfErr result (λ e. e ≡ Error.IoError) }
{
    match f.put(bytes) {
        Ok(()) => Ok(()),
        Err(_) => Err(Error::IoError),
    }
}

/// Returns the error of a call that prints and ran out of memory: [`Error::IoError`] if the writer
/// has failed, and else [`Error::OutOfMemory`].
pub fn no_memory<W: Write>(f: &Told<W>) -> Error
    ensures { result ≡ out_of_memory f.now }
{
    if f.failed() {
        Error::IoError
    } else {
        Error::OutOfMemory
    }
}
