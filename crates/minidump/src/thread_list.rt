ghost use Rattle.std.specs.Prelude.{◌≡◌, ◌==◌, ◌↔◌, IsTrue, find, length, reverse};
ghost use Rattle.std.specs.Option.{option_copied, option_map};
ghost use Rattle.std.specs.Slice.Iter.{iter_rest};
ghost use Rattle.minidump_format.specs.Print.{Prints};
ghost use Rattle.minidump_system.specs.SystemInfo.{system_info_of};
ghost use Rattle.minidump_memory.specs.Unified.{unified_list};
ghost use Rattle.minidump.specs.Thread.{IsLastThread, last_with, thread_of, thread_list_of, thread_list_stream};
ghost use Rattle.minidump.specs.ThreadText.{thread_list_text};

use crate::MinidumpThread;
use minidump_bytes::{Endian, Source, Steps, Told};
use minidump_format::format::MINIDUMP_THREAD;
use minidump_format::{Error, Heading, print_item};
use minidump_memory::UnifiedMemoryList;
use minidump_system::framing::plain_entries;
use minidump_system::read_items::{ReadEntry, read_items};
use minidump_system::{MinidumpMiscInfo, MinidumpStream, MinidumpSystemInfo};
use std::alloc::Global;
use std::io::Write;
use std::slice;

/// The threads of a process, in the order of the file.
#[derive(Drop)]
pub struct MinidumpThreadList<'a> {
    /// The threads. Several may have one id.
    pub threads: Vec<MinidumpThread<'a>>,
}

impl<'a> MinidumpThreadList<'a> {
    /// Returns the number of threads.
    pub fn len(&self) -> usize
        ensures { result ≡ length self.now.threads.items }
    {
        self.threads.len()
    }

    /// Tells whether the list has no thread.
    pub fn is_empty(&self) -> bool
        ensures { IsTrue result ↔ (length self.now.threads.items ≡ 0) }
    {
        self.threads.is_empty()
    }

    /// Returns an iterator over the threads, in the order of the list.
    pub fn iter(&self) -> slice::Iter<'_, MinidumpThread<'a>>
        ensures { iter_rest result ≡ self.now.threads.items }
    {
        self.threads.iter()
    }

    /// Returns the last thread with an id, or `None` if no thread has it. Searches from the end of
    /// the list.
    pub fn get_thread(&self, id: u32) -> Option<&MinidumpThread<'a>>
        ensures last { IsLastThread id (thread_list_of self.now)
            (option_map thread_of (option_copied result)) }
        ensures answer { option_map thread_of (option_copied result)
            ≡ last_with id (thread_list_of self.now) }
    {
        self.first_from_the_end(id)
    }

    // Returns the first thread with an id, from the end of the list on.
    fn first_from_the_end(&self, id: u32) -> Option<&MinidumpThread<'a>>
        ensures { option_copied result
            ≡ find (λ t. t.raw.thread_id == id) (reverse self.now.threads.items) }
    {
        self.threads.iter().rev().find(|t| t.raw.thread_id == id)
    }

    /// Prints the number of threads, and each thread after a line with its index, as
    /// [`MinidumpThread::print`] does.
    pub fn print<W: Write>(
        &self,
        alloc: Global,
        f: &mut Told<W>,
        memory: Option<&UnifiedMemoryList<'a>>,
        system: Option<&MinidumpSystemInfo>,
        misc: Option<&MinidumpMiscInfo>,
        brief: bool,
    ) -> Result<(), Error>
        ensures { Prints W.contents f.old f.new
            (thread_list_text (option_map unified_list (option_copied memory.entry))
            (option_map system_info_of (option_copied system.entry)) brief
            (thread_list_stream.value self.now)) result }
    {
        let threads = self.threads.as_slice();
        let heading = Heading {
            words: "MinidumpThreadList\n  thread_count = ",
            count: threads.len(),
        };
        print_item(&heading, alloc, f)?;
        for (index, thread) in threads.iter().enumerate() {
            thread.print_numbered(index, alloc, f, memory, system, misc, brief)?;
        }
        Ok(())
    }
}

impl<'l, 'a> IntoIterator for &'l MinidumpThreadList<'a> {
    ghost use Rattle.std.specs.Prelude.{◌≡◌};
    ghost use Rattle.std.specs.Slice.Iter.{iter_rest};

    type Item = &'l MinidumpThread<'a>;

    type IntoIter = slice::Iter<'l, MinidumpThread<'a>>;

    ghost into_iter_gives = { λ list it. iter_rest it ≡ list.now.threads.items };

    fn into_iter(self) -> slice::Iter<'l, MinidumpThread<'a>> {
        self.iter()
    }
}

/// Microsoft's `MINIDUMP_THREAD_LIST`: a plain list of entries. No context is decoded. Returns
/// `StreamReadFailure` if the stream has no count, `StreamSizeMismatch` if it has another length
/// than its count asks for, and `OutOfMemory` if an allocation fails.
impl<'a> MinidumpStream<'a> for MinidumpThreadList<'a> {
    ghost use Rattle.std.specs.Prelude.{List};
    ghost use Rattle.minidump.specs.Thread.{Thread, thread_list_stream};

    ghost Value = { List Thread };

    ghost spec = { thread_list_stream };

    const STREAM_TYPE: u32 = 3;

    fn number_of_type() -> u32
        ensures { result ≡ thread_list_stream.stream_type }
    {
        Self::STREAM_TYPE
    }

    #[tactic(auto, using(crate::proofs::ThreadLemmas::kept_threads))]
    fn read(
        alloc: Global,
        bytes: Source<'a>,
        all: Source<'a>,
        endian: Endian,
        _system_info: Option<&MinidumpSystemInfo>,
        steps: &mut Steps,
    ) -> Result<Self, Error> {
        let entries = plain_entries::<MINIDUMP_THREAD>(bytes, endian, steps)?;
        Ok(MinidumpThreadList {
            threads: read_items(&Threads, alloc, entries, all, endian, steps)?,
        })
    }
}

// An entry becomes its thread. None is skipped, and none is an error.
#[derive(Clone, Copy)]
struct Threads;

impl<'a> ReadEntry<'a, MINIDUMP_THREAD> for Threads {
    ghost use Rattle.std.specs.Prelude.{Ok, Some};
    ghost use Rattle.minidump.specs.Thread.{Thread, thread_at, thread_of, thread_reads};

    type Item = MinidumpThread<'a>;

    ghost Value = { Thread };

    ghost value = { thread_of };

    ghost entry_value = { λ _ order file raw. Ok (Some (thread_at order file raw)) };

    ghost most = { λ _. 2 };

    ghost fewest_of = { thread_reads };

    fn read_entry(
        &self,
        _alloc: Global,
        entry: MINIDUMP_THREAD,
        all: Source<'a>,
        endian: Endian,
        steps: &mut Steps,
    ) -> Result<Option<MinidumpThread<'a>>, Error> {
        Ok(Some(MinidumpThread::read(entry, all, endian, steps)))
    }
}
