ghost use Rattle.std.specs.Prelude.{◌≡◌, ◌++◌, ◌↔◌, [], IsTrue, OnOk, length};
ghost use Rattle.std.specs.Option.{option_copied};
ghost use Rattle.minidump_format.specs.Print.{Prints};
ghost use Rattle.minidump_records.specs.ThreadInfo.{thread_info_list_of, last_info, thread_info_text};
ghost use Rattle.minidump_records.specs.ThreadInfo.{thread_info_list_text};

use minidump_bytes::{Endian, Piece, Source, Steps, Told, push_pieces};
use minidump_format::format::MINIDUMP_THREAD_INFO;
use minidump_format::{Error, Pushed, print_item, print_numbered};
use minidump_system::framing::extended_entries;
use minidump_system::read_items::{ReadEntry, read_items};
use minidump_system::{MinidumpStream, MinidumpSystemInfo};
use std::alloc::{AllocError, Global};
use std::io::Write;
use std::slice;

/// The state of a thread: its times, its exit status and where it began.
#[derive(Drop)]
pub struct MinidumpThreadInfo {
    /// The entry in the stream.
    pub raw: MINIDUMP_THREAD_INFO,
}

impl MinidumpThreadInfo {
    /// Prints the entry. Its text ends with an empty line and two spaces.
    pub fn print<W: Write>(&self, alloc: Global, f: &mut Told<W>) -> Result<(), Error>
        ensures { Prints W.contents f.old f.new (thread_info_text self.now.raw) result }
    {
        print_item(self, alloc, f)
    }
}

impl Pushed for MinidumpThreadInfo {
    ghost text = { λ info. thread_info_text info.raw };

    fn push(&self, out: &mut Vec<u8>) -> Result<(), AllocError> {
        push_info(out, &self.raw)
    }
}

/// The state of each thread, in the order of the file.
#[derive(Drop)]
pub struct MinidumpThreadInfoList {
    /// The entries, in the order of the stream.
    pub thread_infos: Vec<MinidumpThreadInfo>,
}

impl<'l> IntoIterator for &'l MinidumpThreadInfoList {
    ghost use Rattle.std.specs.Prelude.{◌≡◌};
    ghost use Rattle.std.specs.Slice.Iter.{iter_rest};

    type Item = &'l MinidumpThreadInfo;

    type IntoIter = slice::Iter<'l, MinidumpThreadInfo>;

    ghost into_iter_gives = { λ list it. iter_rest it ≡ list.now.thread_infos.items };

    fn into_iter(self) -> slice::Iter<'l, MinidumpThreadInfo> {
        self.thread_infos.iter()
    }
}

impl MinidumpThreadInfoList {
    /// Makes an empty list. Takes no memory.
    pub fn new(alloc: Global) -> MinidumpThreadInfoList
        ensures { thread_info_list_of result ≡ [] }
    {
        MinidumpThreadInfoList {
            thread_infos: Vec::new(alloc),
        }
    }

    /// Returns the number of entries.
    pub fn len(&self) -> usize
        ensures { result ≡ length self.now.thread_infos.items }
    {
        self.thread_infos.len()
    }

    /// Tells whether the list has no entry.
    pub fn is_empty(&self) -> bool
        ensures { IsTrue result ↔ (length self.now.thread_infos.items ≡ 0) }
    {
        self.thread_infos.is_empty()
    }

    /// Returns the last entry whose thread id is `id`, or `None` if there is none.
    pub fn get_thread_info(&self, id: u32) -> Option<&MinidumpThreadInfo>
        ensures { option_copied result ≡ last_info self.now.thread_infos.items id }
    {
        let infos = self.thread_infos.as_slice();
        infos.iter().rev().find(|info| info.raw.thread_id == id)
    }

    /// Prints the number of entries, and each of them after its index.
    pub fn print<W: Write>(&self, alloc: Global, f: &mut Told<W>) -> Result<(), Error>
        ensures { Prints W.contents f.old f.new
            (thread_info_list_text (thread_info_list_of self.now)) result }
    {
        let heading = "MinidumpThreadInfoList\n  thread_info_count = ";
        print_numbered(
            heading,
            "thread info",
            self.thread_infos.as_slice(),
            alloc,
            f,
        )
    }
}

/// Reads Microsoft's `MINIDUMP_THREAD_INFO_LIST`: an extended list of entries.
impl<'a> MinidumpStream<'a> for MinidumpThreadInfoList {
    ghost use Rattle.std.specs.Prelude.{List};
    ghost use Rattle.minidump_format.specs.declared.format.thread.MINIDUMP_THREAD_INFO.{MINIDUMP_THREAD_INFO};
    ghost use Rattle.minidump_records.specs.ThreadInfo.{thread_info_list_stream};

    ghost Value = { List MINIDUMP_THREAD_INFO };

    ghost spec = { thread_info_list_stream };

    const STREAM_TYPE: u32 = 17;

    fn number_of_type() -> u32 {
        Self::STREAM_TYPE
    }

    #[tactic(auto, using(minidump_system::proofs::KeptLemmas::kept_all))]
    fn read(
        alloc: Global,
        bytes: Source<'a>,
        all: Source<'a>,
        endian: Endian,
        _system_info: Option<&MinidumpSystemInfo>,
        steps: &mut Steps,
    ) -> Result<Self, Error> {
        let raws = extended_entries::<MINIDUMP_THREAD_INFO>(bytes, endian, steps)?;
        Ok(MinidumpThreadInfoList {
            thread_infos: read_items(&Infos, alloc, raws, all, endian, steps)?,
        })
    }
}

// The information of an entry is the entry.
#[derive(Clone, Copy)]
struct Infos;

impl<'a> ReadEntry<'a, MINIDUMP_THREAD_INFO> for Infos {
    ghost use Rattle.std.specs.Prelude.{Ok, Some};
    ghost use Rattle.minidump_format.specs.declared.format.thread.MINIDUMP_THREAD_INFO.{MINIDUMP_THREAD_INFO};

    type Item = MinidumpThreadInfo;

    ghost Value = { MINIDUMP_THREAD_INFO };

    ghost value = { λ info. info.raw };

    ghost entry_value = { λ _ order file raw. Ok (Some raw) };

    ghost fewest_of = { λ _. 0 };

    fn read_entry(
        &self,
        _alloc: Global,
        entry: MINIDUMP_THREAD_INFO,
        _all: Source<'a>,
        _endian: Endian,
        _steps: &mut Steps,
    ) -> Result<Option<MinidumpThreadInfo>, Error> {
        Ok(Some(MinidumpThreadInfo { raw: entry }))
    }
}

#[rattlefmt::skip]
#[tactic(auto, unfolding(crate::specs::ThreadInfo::thread_info_text))]
fn push_info(out: &mut Vec<u8>, raw: &MINIDUMP_THREAD_INFO) -> Result<(), AllocError>
    ensures { OnOk result (out.new.items ≡ out.old.items ++ thread_info_text raw.now) }
{
    push_pieces(out, &[
        Piece::Words("MINIDUMP_THREAD_INFO\n"),
        Piece::Words("  thread_id                   = "), Piece::Hex(raw.thread_id as u64), Piece::Words("\n"),
        Piece::Words("  dump_flags                  = "), Piece::Hex(raw.dump_flags as u64), Piece::Words("\n"),
        Piece::Words("  dump_error                  = "), Piece::Hex(raw.dump_error as u64), Piece::Words("\n"),
        Piece::Words("  exit_status                 = "), Piece::Hex(raw.exit_status as u64), Piece::Words("\n"),
        Piece::Words("  create_time                 = "), Piece::Hex(raw.create_time), Piece::Words("\n"),
        Piece::Words("  exit_time                   = "), Piece::Hex(raw.exit_time), Piece::Words("\n"),
        Piece::Words("  kernel_time                 = "), Piece::Hex(raw.kernel_time), Piece::Words("\n"),
        Piece::Words("  user_time                   = "), Piece::Hex(raw.user_time), Piece::Words("\n"),
        Piece::Words("  start_address               = "), Piece::Hex(raw.start_address), Piece::Words("\n"),
        Piece::Words("  affinity                    = "), Piece::Hex(raw.affinity), Piece::Words("\n\n"),
        Piece::Words("  "),
    ])
}
