ghost use Rattle.std.specs.Prelude.{◌≡◌, ◌≢◌, ◌↔◌, ℕ, Bool, List, Option, [], IfErr, IfSome, IsTrue, OnErr, OnOk};
ghost use Rattle.std.specs.Prelude.{false, true};
ghost use Rattle.minidump.specs.File.{IsLater, IsWhole};
ghost use Rattle.minidump.specs.Reader.{TakesLeft};

use minidump_bytes::{DeviceFailed, Told};
use minidump_format::Error;
use std::fs;
use std::io::Read;
use std::rt::Files;

/// A reader that remembers a failure: a [`Told`] over any reader.
pub trait ToldReader {
    // the bytes that are left, where they are known
    ghost left: { Self → Option (List ℕ) };

    // whether a read has failed
    ghost failed: { Self → Bool };

    /// Reads some bytes to the front of the buffer, as [`Told::take`] does.
    fn take(&mut self, buf: &mut [u8]) -> Result<usize, DeviceFailed>
        ensures takes { TakesLeft left failed self.old self.new buf.new result }
        ensures dead { IsTrue (failed self.old) → self.new ≡ self.old };
}

impl<R: Read> ToldReader for Told<R> {
    ghost use Rattle.minidump_bytes.specs.Told.{device_of, has_failed};

    ghost left = { λ told. R.remaining (device_of told) };

    ghost failed = { has_failed };

    fn take(&mut self, buf: &mut [u8]) -> Result<usize, DeviceFailed> {
        Told::take(self, buf)
    }
}

/// Opens files by their paths. Every type that implements [`Files`] does.
pub trait OpenPath {
    /// An opened file, at its start.
    type File: ToldReader + Drop;

    // what opening a path returns
    ghost opens: { Self → List ℕ → Option Self.File → Type 0 };

    /// Opens a file for reading. Returns `None` if that fails.
    fn open_path(&self, path: &str) -> Option<Self::File>
        ensures opens { opens self.now path.now result }
        ensures ready { IfSome result (λ file. Self.File.failed file ≡ false) };
}

impl<R: Files> OpenPath for R {
    ghost use Rattle.std.specs.Prelude.{⊤};

    type File = Told<R::File>;

    // the contracts of `Files` don't say which file a path opens
    ghost opens = { λ _ _ _. ⊤ };

    fn open_path(&self, path: &str) -> Option<Told<R::File>> {
        Some(Told::new(fs::open(self, path).ok()?))
    }
}

/// Empties `into`, and reads into it up to the end of the reader.
///
/// Returns `IoError` if a read fails, and `OutOfMemory` if an allocation fails. Either leaves
/// `into` empty. A reader that has failed before isn't called: the error is `IoError`.
pub fn read_all<R: ToldReader>(reader: &mut R, into: &mut Vec<u8>) -> Result<(), Error>
    ensures all { OnOk result (IsWhole R.left reader.old into.new.items) }
    ensures later { IsLater R.left reader.old reader.new }
    ensures alive { OnOk result (R.failed reader.new ≡ false) }
    ensures failed { IfErr result (λ e. (e ≡ Error.IoError) ↔ (R.failed reader.new ≡ true)) }
    ensures other { IfErr result (λ e. e ≢ Error.IoError → e ≡ Error.OutOfMemory) }
    ensures empty { OnErr result (into.new.items ≡ []) }
    ensures dead { IsTrue (R.failed reader.old) → reader.new ≡ reader.old }
{
    into.clear();
    let mut buffer = [0; 65536];
    loop {
        match reader.take(&mut buffer) {
            Ok(0) => return Ok(()),
            Ok(n) => {
                if into.extend_from_slice(&buffer[..n]).is_err() {
                    into.clear();
                    return Err(Error::OutOfMemory);
                }
            }
            Err(_) => {
                into.clear();
                return Err(Error::IoError);
            }
        }
    }
}
