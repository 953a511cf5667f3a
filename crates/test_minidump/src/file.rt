//! Files and readers: what `read_path` and `read_from` answer, and what they leave in the vector
//! that they are lent.

use minidump::{Endian, Error, Minidump, Told};
use minidump_synth::{ONE_STREAM, SynthMinidump, one_stream_with_byte};
use std::alloc::{AllocError, Global};
use std::{fs, io};

// Tells whether this is the error of reading a file into a vector of three bytes, and what is left
// in it.
fn leaves(
    rt: &HostRuntime,
    path: &str,
    error: Option<Error>,
    left: &[u8],
) -> Result<bool, AllocError> {
    let mut bytes = Vec::from_array(rt.alloc(), [1, 2, 3])?;
    let found = Minidump::read_path(rt, rt.alloc(), path, &mut bytes).err();
    Ok(found == error && bytes.as_slice() == left)
}

// Where nothing can be opened the vector stays; a folder can be opened, but not read, and empties
// it.
#[test]
fn leaves_the_vector_of_a_file_that_is_missing(rt: HostRuntime) {
    let missing = leaves(&rt, "no/such.dmp", Some(Error::FileNotFound), &[1, 2, 3]);
    let folder = leaves(&rt, ".", Some(Error::IoError), &[]);
    assert!(rt; missing == Ok(true) && folder == Ok(true));
}

// The same of a file of these bytes, which are left.
fn fills(rt: &HostRuntime, file: &[u8], error: Option<Error>) -> io::Result<bool> {
    let path = "fills_the_vector_with_the_file.dmp";
    fs::write(rt, path, file)?;
    let holds = leaves(rt, path, error, file)?;
    fs::remove_file(rt, path)?;
    Ok(holds)
}

fn does_fill(rt: &HostRuntime, file: &[u8], error: Option<Error>) -> bool {
    matches!(fills(rt, file, error), Ok(true))
}

// A dump that is too long for one read of a file.
fn long(alloc: Global) -> Result<Vec<u8>, AllocError> {
    let mut dump = SynthMinidump::new(alloc, Endian::Little);
    dump.add_stream(0x1122_3344, dump.section().zeros(70_000));
    dump.finish()
}

fn long_fills(rt: &HostRuntime) -> bool {
    match long(rt.alloc()) {
        Ok(bytes) => does_fill(rt, &bytes, None),
        Err(_) => false,
    }
}

// After each error of the format, and after none, the vector holds the bytes of the file.
#[test]
fn fills_the_vector_with_the_file(rt: HostRuntime) {
    let version = one_stream_with_byte(4, 0x94);
    let directory = one_stream_with_byte(12, 0x25);
    assert!(rt;
        long_fills(&rt)
            && does_fill(&rt, &ONE_STREAM[..31], Some(Error::MissingHeader))
            && does_fill(&rt, &ONE_STREAM[1..], Some(Error::HeaderMismatch))
            && does_fill(&rt, &version, Some(Error::VersionMismatch))
            && does_fill(&rt, &directory, Some(Error::MissingDirectory))
    );
}

// Tells whether this is the error of reading a reader of these bytes into a vector of three bytes,
// which holds them then.
fn takes_all(alloc: Global, file: &[u8], error: Option<Error>) -> Result<bool, AllocError> {
    let mut bytes = Vec::from_array(alloc, [1, 2, 3])?;
    let mut told = Told::new(file);
    let found = Minidump::read_from(alloc, &mut told, &mut bytes).err();
    Ok(found == error && bytes.as_slice() == file)
}

#[test]
fn fills_the_vector_with_what_a_reader_gives(rt: HostRuntime) {
    let alloc = rt.alloc();
    let version = one_stream_with_byte(4, 0x94);
    let bad = takes_all(alloc, &version, Some(Error::VersionMismatch));
    assert!(rt; takes_all(alloc, &ONE_STREAM, None) == Ok(true) && bad == Ok(true));
}
