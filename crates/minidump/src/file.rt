ghost use Rattle.std.specs.Prelude.{◌≡◌, IsTrue};
ghost use Rattle.minidump.specs.File.{ReadsFile};

use crate::Minidump;
use crate::reader::{OpenPath, ToldReader, read_all};
use minidump_format::Error;
use std::alloc::Global;

/// Reads a file into `into`, whose bytes it replaces, as [`read_all`] does.
///
/// Returns `FileNotFound` if the file can't be opened, which leaves `into` as it was; `IoError` if
/// a read fails, and `OutOfMemory` if an allocation fails, which leave it empty.
pub fn read_file<R: OpenPath>(rt: &R, path: &str, into: &mut Vec<u8>) -> Result<(), Error>
    ensures { ReadsFile (R.opens rt.now) R.File.left R.File.failed path.now into.old.items
        into.new.items result }
{
    match rt.open_path(path) {
        Some(mut file) => read_all(&mut file, into),
        None => Err(Error::FileNotFound),
    }
}

impl<'a> Minidump<'a> {
    ghost use Rattle.minidump.specs.File.{IsLater, ReadsFrom, ReadsPath};

    /// Replaces the bytes of `into` by all that the reader has left, and reads the minidump that
    /// they are, as [`Minidump::read`] does.
    ///
    /// Returns `IoError` exactly if the reader has failed, in this call or before it. To state in a
    /// contract what `into` holds afterwards, call [`read_all`] and then [`Minidump::read`].
    pub fn read_from<R: ToldReader>(
        alloc: Global,
        reader: &mut R,
        into: &'a mut Vec<u8>,
    ) -> Result<Minidump<'a>, Error>
        ensures means { ReadsFrom R.left R.failed reader.old reader.new result }
        ensures later { IsLater R.left reader.old reader.new }
        ensures dead { IsTrue (R.failed reader.old) → reader.new ≡ reader.old }
    {
        read_all(reader, into)?;
        Minidump::read(alloc, into.as_slice())
    }

    /// Reads a file into `into` by [`read_file`], and then as [`Minidump::read`] does.
    ///
    /// Returns `FileNotFound` if the file can't be opened, `IoError` if a read of it fails, and
    /// else what [`Minidump::read`] does. `FileNotFound` leaves `into` as it was; `IoError`, and
    /// `OutOfMemory` while the file is read, leave it empty. After every other result `into` holds
    /// the bytes of the file. To state that in a contract, call [`read_file`] and then
    /// [`Minidump::read`].
    pub fn read_path<R: OpenPath>(
        rt: &R,
        alloc: Global,
        path: &str,
        into: &'a mut Vec<u8>,
    ) -> Result<Minidump<'a>, Error>
        ensures { ReadsPath (R.opens rt.now) R.File.left R.File.failed path.now result }
    {
        read_file(rt, path, into)?;
        Minidump::read(alloc, into.as_slice())
    }
}
