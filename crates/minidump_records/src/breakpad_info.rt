ghost use Rattle.std.specs.Prelude.{◌≡◌, ◌++◌, OnOk};
ghost use Rattle.minidump_format.specs.Print.{Prints};
ghost use Rattle.minidump_records.specs.BreakpadInfo.{breakpad_in, breakpad_info_stream, breakpad_info_text};
ghost use Rattle.minidump_records.specs.BreakpadInfo.{where_valid};

use minidump_bytes::{Endian, Piece, Source, Steps, Told, push_pieces};
use minidump_format::format::MINIDUMP_BREAKPAD_INFO;
use minidump_format::{Error, Pushed, print_item};
use minidump_system::{MinidumpStream, MinidumpSystemInfo};
use std::alloc::{AllocError, Global};
use std::io::Write;

// The flags of `BreakpadInfoValid`, as numbers.
const DUMP_THREAD_ID: u32 = 0x1;

const REQUESTING_THREAD_ID: u32 = 0x2;

/// The ids of the threads that wrote and requested the dump, as Breakpad writes them.
#[derive(Clone, Copy)]
pub struct MinidumpBreakpadInfo {
    /// The record of the stream.
    pub raw: MINIDUMP_BREAKPAD_INFO,
    /// The id of the thread that wrote the dump, or `None` if its flag is not set.
    pub dump_thread_id: Option<u32>,
    /// The id of the thread that requested the dump, or `None` if its flag is not set.
    pub requesting_thread_id: Option<u32>,
}

impl MinidumpBreakpadInfo {
    /// Prints the record, with `(invalid)` for an id whose flag is not set.
    pub fn print<W: Write>(&self, alloc: Global, f: &mut Told<W>) -> Result<(), Error>
        ensures { Prints W.contents f.old f.new
            (breakpad_info_text (breakpad_info_stream.value self.now)) result }
    {
        print_item(self, alloc, f)
    }
}

impl Pushed for MinidumpBreakpadInfo {
    ghost text = { breakpad_info_text };

    fn push(&self, out: &mut Vec<u8>) -> Result<(), AllocError> {
        push_info(out, self)
    }
}

/// Reads Breakpad's `MDRawBreakpadInfo`. Returns `StreamReadFailure` if the stream is shorter than
/// the record. Takes no memory.
impl<'a> MinidumpStream<'a> for MinidumpBreakpadInfo {
    ghost use Rattle.minidump_records.specs.declared.breakpad_info.MinidumpBreakpadInfo.{MinidumpBreakpadInfo};
    ghost use Rattle.minidump_records.specs.BreakpadInfo.{breakpad_info_stream};

    ghost Value = { MinidumpBreakpadInfo };

    ghost spec = { breakpad_info_stream };

    const STREAM_TYPE: u32 = 0x4767_0001;

    fn number_of_type() -> u32 {
        Self::STREAM_TYPE
    }

    fn read(
        _alloc: Global,
        bytes: Source<'a>,
        _all: Source<'a>,
        endian: Endian,
        _system_info: Option<&MinidumpSystemInfo>,
        steps: &mut Steps,
    ) -> Result<Self, Error> {
        let raw = bytes
            .record(0, endian, steps)
            .ok_or(Error::StreamReadFailure)?;
        Ok(info_of(raw))
    }
}

// Returns the record with the ids whose flags are set.
fn info_of(raw: MINIDUMP_BREAKPAD_INFO) -> MinidumpBreakpadInfo
    ensures { result ≡ breakpad_in raw }
{
    MinidumpBreakpadInfo {
        raw,
        dump_thread_id: where_valid(raw.validity, DUMP_THREAD_ID, raw.dump_thread_id),
        requesting_thread_id: where_valid(
            raw.validity,
            REQUESTING_THREAD_ID,
            raw.requesting_thread_id,
        ),
    }
}

// Returns a field if its flag is set.
fn where_valid(validity: u32, flag: u32, id: u32) -> Option<u32>
    ensures { result ≡ where_valid validity flag id }
{
    if validity & flag == flag {
        Some(id)
    } else {
        None
    }
}

#[rattlefmt::skip]
#[tactic(auto, unfolding(crate::specs::BreakpadInfo::breakpad_info_text))]
fn push_info(out: &mut Vec<u8>, info: &MinidumpBreakpadInfo) -> Result<(), AllocError>
    ensures { OnOk result (out.new.items ≡ out.old.items ++ breakpad_info_text info.now) }
{
    push_pieces(out, &[
        Piece::Words("MINIDUMP_BREAKPAD_INFO\n"),
        Piece::Words("  validity             = "), Piece::Hex(info.raw.validity as u64), Piece::Words("\n"),
        Piece::Words("  dump_thread_id       = "), Piece::OptionalHex(info.dump_thread_id), Piece::Words("\n"),
        Piece::Words("  requesting_thread_id = "), Piece::OptionalHex(info.requesting_thread_id), Piece::Words("\n\n"),
    ])
}
