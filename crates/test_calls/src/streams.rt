use anyhow::{Result, bail};
use minidump::{
    Error, Minidump, MinidumpHandleDataStream, MinidumpMemory64List, MinidumpMemoryInfoList,
    MinidumpMemoryList, MinidumpModuleList, MinidumpStream, MinidumpThreadList,
    MinidumpUnloadedModuleList,
};
use std::alloc::Global;

/// Reads a minidump, whose bytes are `bytes`, or the stream that a verb names, so many times.
/// Returns how often a list has an entry of number or address 65536; for `read`, how many headers
/// have 65536 streams.
pub fn read_often(alloc: Global, verb: &str, bytes: &[u8], rounds: u32) -> Result<u32> {
    let dump = Minidump::read(alloc, bytes)?;
    let found = match verb {
        "read" => read_dump(alloc, bytes, rounds)?,
        "handles" => read_stream::<MinidumpHandleDataStream>(alloc, &dump, rounds)?,
        "memory" => read_stream::<MinidumpMemoryList<'_>>(alloc, &dump, rounds)?,
        "memory64" => read_stream::<MinidumpMemory64List<'_>>(alloc, &dump, rounds)?,
        "memory-info" => read_stream::<MinidumpMemoryInfoList<'_>>(alloc, &dump, rounds)?,
        "modules" => read_stream::<MinidumpModuleList>(alloc, &dump, rounds)?,
        "threads" => read_stream::<MinidumpThreadList<'_>>(alloc, &dump, rounds)?,
        "unloaded" => read_stream::<MinidumpUnloadedModuleList>(alloc, &dump, rounds)?,
        _ => bail!("no such verb"),
    };
    Ok(found)
}

// Reads a dump so many times.
fn read_dump(alloc: Global, bytes: &[u8], rounds: u32) -> Result<u32, Error> {
    let mut found = 0u32;
    for _ in 0..rounds {
        if has_streams(alloc, bytes)? {
            found = found.wrapping_add(1);
        }
    }
    Ok(found)
}

// Reads a dump, and tells whether it has 65536 streams.
fn has_streams(alloc: Global, bytes: &[u8]) -> Result<bool, Error> {
    let dump = Minidump::read(alloc, bytes)?;
    Ok(dump.header.stream_count == 65536)
}

// Reads a stream of a dump so many times.
fn read_stream<'a, S: ReadEntry<'a>>(
    alloc: Global,
    dump: &Minidump<'a>,
    rounds: u32,
) -> Result<u32, Error> {
    let mut found = 0u32;
    for _ in 0..rounds {
        if dump.get_stream::<S>(alloc)?.has(65536) {
            found = found.wrapping_add(1);
        }
    }
    Ok(found)
}

// A list that tells whether it has an entry of a number or an address: so the whole list has to be
// there.
trait ReadEntry<'a>: MinidumpStream<'a> + Drop {
    fn has(&self, number: u32) -> bool;
}

impl<'a> ReadEntry<'a> for MinidumpHandleDataStream {
    fn has(&self, number: u32) -> bool {
        self.iter().any(|handle| handle.raw.handle().copied() == Some(number as u64))
    }
}

impl<'a> ReadEntry<'a> for MinidumpMemoryList<'a> {
    fn has(&self, number: u32) -> bool {
        self.memory_at_address(number as u64).is_some()
    }
}

impl<'a> ReadEntry<'a> for MinidumpMemory64List<'a> {
    fn has(&self, number: u32) -> bool {
        self.memory_at_address(number as u64).is_some()
    }
}

impl<'a> ReadEntry<'a> for MinidumpMemoryInfoList<'a> {
    fn has(&self, number: u32) -> bool {
        self.memory_info_at_address(number as u64).is_some()
    }
}

impl<'a> ReadEntry<'a> for MinidumpModuleList {
    fn has(&self, number: u32) -> bool {
        self.module_at_address(number as u64).is_some()
    }
}

impl<'a> ReadEntry<'a> for MinidumpThreadList<'a> {
    fn has(&self, number: u32) -> bool {
        self.get_thread(number).is_some()
    }
}

impl<'a> ReadEntry<'a> for MinidumpUnloadedModuleList {
    fn has(&self, number: u32) -> bool {
        self.iter()
            .any(|module| module.raw.base_of_image == number as u64)
    }
}
