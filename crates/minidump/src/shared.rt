ghost use Rattle.std.specs.Prelude.{◌≡◌, ◌≢◌, Err, IfOk};
ghost use Rattle.std.specs.Option.{option_copied, option_map};
ghost use Rattle.std.specs.Result.{result_ok};
ghost use Rattle.minidump_memory.specs.Unified.{Memory64, plain_regions, unified_list};
ghost use Rattle.minidump.specs.Dump.{Dump};
ghost use Rattle.minidump.specs.DumpValue.{dump_of};
ghost use Rattle.minidump.specs.Memory.{memories_of_dump};
ghost use Rattle.minidump.specs.Promise.{memory64_list_stream, memory_list_stream};
ghost use Rattle.minidump.specs.Shared.{AreShared, IsListOf};

use crate::{Minidump, MinidumpException, MinidumpThreadList};
use minidump_format::Error;
use minidump_memory::{MinidumpMemory64List, MinidumpMemoryList, UnifiedMemoryList};
use std::alloc::Global;

// The streams that several parts of a report print, each read once.
#[derive(Drop)]
pub(crate) struct SharedStreams<'a> {
    pub(crate) exception: Result<MinidumpException<'a>, Error>,
    pub(crate) threads: Result<MinidumpThreadList<'a>, Error>,
    pub(crate) memory64: Result<UnifiedMemoryList<'a>, Error>,
    pub(crate) memory: Result<UnifiedMemoryList<'a>, Error>,
}

impl<'a> SharedStreams<'a> {
    pub(crate) fn read(dump: &Minidump<'a>, alloc: Global) -> SharedStreams<'a>
        ensures { AreShared (dump_of dump.now) result }
    {
        SharedStreams {
            exception: dump.get_stream(alloc),
            threads: dump.get_stream(alloc),
            memory64: read_memory64(dump, alloc),
            memory: read_memory(dump, alloc),
        }
    }

    // Returns the memory of the dump, as `Minidump::get_memory` does.
    pub(crate) fn get_memory(&self) -> Result<Option<&UnifiedMemoryList<'a>>, Error>
        ensures { (dump : Dump) → AreShared dump self.now
            → IfOk result (λ found. option_map unified_list (option_copied found)
            ≡ memories_of_dump dump) }
    {
        match as_found(&self.memory64)? {
            Some(list) => Ok(Some(list)),
            None => as_found(&self.memory),
        }
    }
}

// Reads the 64-bit list of memory, the stream of type Memory64ListStream.
fn read_memory64<'a>(dump: &Minidump<'a>, alloc: Global) -> Result<UnifiedMemoryList<'a>, Error>
    ensures { IsListOf memory64_list_stream Memory64 (dump_of dump.now) result }
{
    match dump.get_stream::<MinidumpMemory64List<'a>>(alloc) {
        Ok(list) => Ok(UnifiedMemoryList::Memory64(list)),
        Err(error) => Err(error),
    }
}

// Reads the plain list of memory, the stream of type MemoryListStream.
fn read_memory<'a>(dump: &Minidump<'a>, alloc: Global) -> Result<UnifiedMemoryList<'a>, Error>
    ensures { IsListOf memory_list_stream plain_regions (dump_of dump.now) result }
{
    match dump.get_stream::<MinidumpMemoryList<'a>>(alloc) {
        Ok(list) => Ok(UnifiedMemoryList::Memory(list)),
        Err(error) => Err(error),
    }
}

// Returns a stream that was read, or `None` if it is missing or malformed. The only error is
// `OutOfMemory`.
pub(crate) fn as_found<T>(read: &Result<T, Error>) -> Result<Option<&T>, Error>
    ensures { IfOk result (λ found. (option_copied found ≡ result_ok read.now)
        × (read.now ≢ Err Error.OutOfMemory)) }
{
    match read {
        Ok(stream) => Ok(Some(stream)),
        Err(Error::OutOfMemory) => Err(Error::OutOfMemory),
        Err(_) => Ok(None),
    }
}
