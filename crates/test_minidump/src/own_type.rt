//! A stream of a caller's own type, which has no name: that of `examples::own_stream`.

use examples::own_stream::{Build, read_build};
use minidump::{Endian, Error};
use minidump_synth::SynthMinidump;
use std::alloc::Global;

const BUILD: u32 = 0x1122_3344;

fn is_nightly(build: &Build) -> bool {
    build.number == 4711 && build.time == 0x5f00_0001 && build.name.as_str() == "nightly"
}

// A dump with two streams of the type, of which the first is malformed.
fn is_read(alloc: Global, endian: Endian) -> Result<bool, Error> {
    let mut dump = SynthMinidump::new(alloc, endian);
    dump.add_stream(BUILD, &[0; 11]);
    let name = dump.add_text16("nightly");
    dump.add_stream(BUILD, dump.section().u32(4711).u32(0x5f00_0001).u32(name));
    let bytes = dump.finish()?;
    Ok(is_nightly(&read_build(alloc, &bytes)?))
}

// The error of reading a dump of one stream.
fn error_of(alloc: Global, stream_type: u32, stream: &[u8]) -> Option<Error> {
    let mut dump = SynthMinidump::new(alloc, Endian::Little);
    dump.add_stream(stream_type, &stream);
    match dump.finish() {
        Ok(bytes) => read_build(alloc, &bytes).err(),
        Err(_) => None,
    }
}

#[test]
fn reads_a_stream_of_an_own_type(rt: HostRuntime) {
    let alloc = rt.alloc();
    assert!(rt;
        is_read(alloc, Endian::Little) == Ok(true) && is_read(alloc, Endian::Big) == Ok(true)
    );
    assert!(rt;
        error_of(alloc, BUILD, &[0; 11]) == Some(Error::StreamReadFailure)
            && error_of(alloc, BUILD, &[0xff; 12]) == Some(Error::DataError)
            && error_of(alloc, BUILD + 1, &[0; 12]) == Some(Error::StreamNotFound)
    );
}
