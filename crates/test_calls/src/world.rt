use minidump::{Error, Minidump, MinidumpStream};
use std::alloc::Global;
use std::io;
use std::io::Write;

/// The dump that the calls are made on, and what some of them are passed.
#[derive(Drop)]
pub struct World<'a> {
    /// The allocator that each call is passed.
    pub alloc: Global,
    /// The bytes of the dump.
    pub bytes: &'a [u8],
    /// The dump.
    pub dump: Minidump<'a>,
}

impl<'a> World<'a> {
    /// Reads the dump.
    pub fn read(alloc: Global, bytes: &'a [u8]) -> Result<World<'a>, Error> {
        let dump = Minidump::read(alloc, bytes)?;
        Ok(World { alloc, bytes, dump })
    }
}

/// Reads a stream.
pub fn stream<'a, S: MinidumpStream<'a>>(world: &World<'a>) -> Result<S, Error> {
    world.dump.get_stream(world.alloc)
}

/// A writer that takes all bytes and keeps none.
#[derive(Drop)]
pub struct Sink;

impl Write for Sink {
    fn write(&mut self, buf: &[u8]) -> io::Result<usize> {
        Ok(buf.len())
    }

    fn flush(&mut self) -> io::Result<()> {
        Ok(())
    }
}
