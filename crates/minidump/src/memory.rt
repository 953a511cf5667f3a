ghost use Rattle.std.specs.Prelude.{◌≡◌, ◌<◌, IfErr, IfOk, OnSome, Ok};
ghost use Rattle.std.specs.Option.{option_map};
ghost use Rattle.minidump_format.specs.Answer.{Gives};
ghost use Rattle.minidump_memory.specs.Unified.{unified_list};
ghost use Rattle.minidump.specs.Memory.{TakesMemory, memories_of_dump};
ghost use Rattle.minidump.specs.DumpValue.{dump_of};

use crate::Minidump;
use minidump_format::Error;
use minidump_memory::{MinidumpMemory64List, MinidumpMemoryList, UnifiedMemoryList};
use std::alloc::Global;

impl<'a> Minidump<'a> {
    /// Returns the memory of the dump: its [`MinidumpMemory64List`], or, if that is missing or
    /// malformed, its [`MinidumpMemoryList`], or `None` if neither can be read. The only error is
    /// [`Error::OutOfMemory`], after which the other list is not tried. A directory without entries
    /// takes no memory.
    #[tactic(auto, using(crate::proofs::EntryLemmas::memory_of_plain))]
    pub fn get_memory(&self, alloc: Global) -> Result<Option<UnifiedMemoryList<'a>>, Error>
        ensures means { Gives (option_map unified_list) (TakesMemory (dump_of self.now)) result
            (Ok (memories_of_dump (dump_of self.now))) }
        ensures entry { IfOk result
            (λ found. OnSome found (0 < (dump_of self.now).header.stream_count)) }
        ensures memory { IfErr result
            (λ e. (e ≡ Error.OutOfMemory) × (0 < (dump_of self.now).header.stream_count)) }
    {
        if let Some(list) = self.find_stream::<MinidumpMemory64List<'a>>(alloc)? {
            return Ok(Some(UnifiedMemoryList::Memory64(list)));
        }
        match self.find_stream::<MinidumpMemoryList<'a>>(alloc)? {
            Some(list) => Ok(Some(UnifiedMemoryList::Memory(list))),
            None => Ok(None),
        }
    }
}
