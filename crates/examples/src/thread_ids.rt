//! Lists the ids of a minidump's threads: an example of a call on `minidump` alone, over a list.
//!
//! # Errors
//!
//! The error that the format assigns to the bytes or to their list of threads, or `OutOfMemory`,
//! which comes only if the directory has entries.
//!
//! # What is proved
//!
//! The ids are those of the threads that the format assigns to these bytes, one for each, in the
//! order of the list, or the error is the one that it assigns to them: `thread_ids`, by `ids_in`.
//! Of a file, its bytes are in the vector whether they are a dump or not; it stays where the file
//! can't be opened, and is empty where a read fails or finds no memory: `thread_ids_of_file`. The
//! proofs use the contracts and a law of `minidump`, and nothing below.

ghost use Rattle.std.specs.Prelude.{◌≡◌, Err, IfErr, IfOk, OnOk, map};
ghost use Rattle.minidump.specs.Below.Format.Answer.{Gives};
ghost use Rattle.minidump.specs.Dump.{HasEntries};
ghost use Rattle.minidump.specs.File.{IsFile, ReadsFile};
ghost use Rattle.minidump.specs.Promise.{thread_list_stream};
ghost use Rattle.examples.specs.ThreadIds.{ids_in, ids_of};

use minidump::{Error, Minidump, MinidumpThreadList, OpenPath, laws, read_file};
use std::alloc::{AllocError, Global};

/// Returns the ids of the threads of a minidump, in the order of its list. `bytes` are those of the
/// minidump.
///
/// Returns the errors of [`Minidump::read`] and [`Minidump::get_stream`].
pub fn thread_ids(alloc: Global, bytes: &[u8]) -> Result<Vec<u32>, Error>
    ensures { Gives (λ ids. ids.items) (HasEntries bytes.now) result (ids_in bytes.now) }
{
    let dump = Minidump::read(alloc, bytes)?;
    let threads = dump.get_stream(alloc)?;
    Ok(ids_of(alloc, &threads)?)
}

/// Reads a file into `bytes`, and returns the ids of its threads, or the error of [`thread_ids`].
///
/// The outer error is that of reading the file: after `FileNotFound` `bytes` are as they were,
/// after `IoError` and `OutOfMemory` there are none. Else they are those of the file, whatever the
/// inner result is.
pub fn thread_ids_of_file<R: OpenPath>(
    rt: &R,
    alloc: Global,
    path: &str,
    bytes: &mut Vec<u8>,
) -> Result<Result<Vec<u32>, Error>, Error>
    ensures error { IfErr result (λ e. ReadsFile
        (R.opens rt.now) R.File.left R.File.failed path.now bytes.old.items
        bytes.new.items (Err e)) }
    ensures read { OnOk result (IsFile (R.opens rt.now) R.File.left path.now bytes.new.items) }
    ensures ids { IfOk result (λ ids. Gives (λ v. v.items) (HasEntries bytes.new.items) ids
        (ids_in bytes.new.items)) }
{
    read_file(rt, path, bytes)?;
    Ok(thread_ids(alloc, bytes.as_slice()))
}

// Returns the ids of threads. The law takes the clause from the entries to the value of the stream.
fn ids_of(alloc: Global, threads: &MinidumpThreadList<'_>) -> Result<Vec<u32>, AllocError>
    ensures { IfOk result (λ ids. ids.items ≡ ids_of (thread_list_stream.value threads.now)) }
{
    laws::values_are_those_of_the_entries::<u32>();
    ids_of_entries(alloc, threads)
}

// Returns the ids of entries.
fn ids_of_entries(alloc: Global, threads: &MinidumpThreadList<'_>) -> Result<Vec<u32>, AllocError>
    ensures { IfOk result (λ ids. ids.items ≡ map
        (λ t. t.raw.thread_id) threads.now.threads.items) }
{
    threads
        .iter()
        .map(|thread| thread.raw.thread_id)
        .collect(alloc)
}
