//! Reads a stream whose type is a vendor's own and has no name: an example of a type of stream on
//! `minidump` alone.
//!
//! # Errors
//!
//! The error that the format assigns to the bytes, or that the table of the type assigns to their
//! stream, or `OutOfMemory`, which comes only if the directory has entries.
//!
//! # What is proved
//!
//! - A stream is read as its table says: the impl of `MinidumpStream` for `Build`, by
//!   `build_stream`.
//! - The build is the one that the table assigns to the stream of type 0x11223344 in these bytes,
//!   or the error is the one that is assigned to them: `read_build`, by `build_of_file`. The proof
//!   uses the contracts of `minidump`, and nothing below.

ghost use Rattle.std.proofs.Common.{rules};
ghost use Rattle.minidump.specs.Below.Format.Answer.{Gives};
ghost use Rattle.minidump.specs.Dump.{HasEntries};
ghost use Rattle.examples.specs.OwnStream.{build_of, build_of_file};

use minidump::{
    Endian, Error, Minidump, MinidumpStream, MinidumpSystemInfo, Record, Source, Steps,
};
use std::alloc::Global;

/// The build of the program that crashed, as a vendor's own writer of dumps keeps it.
#[derive(Drop)]
pub struct Build {
    /// The number of the build.
    pub number: u32,
    /// When it was made, in seconds since 1970.
    pub time: u32,
    /// Its name.
    pub name: String,
}

// The record of the stream.
#[derive(Clone, Copy)]
struct RawBuild {
    number: u32,
    time: u32,
    name_rva: u32,
}

impl Record for RawBuild {
    ghost use Rattle.examples.specs.OwnStream.{raw_build};

    ghost SIZE = { 12 };

    const SIZE: usize = 12;

    ghost layout = { raw_build };

    fn decode(bytes: &[u8], endian: Endian) -> Self {
        RawBuild {
            number: endian.u32_at(bytes, 0),
            time: endian.u32_at(bytes, 4),
            name_rva: endian.u32_at(bytes, 8),
        }
    }

    ghost fits = { Prim.search rules };
}

/// Reads the stream. Returns `StreamReadFailure` if it is shorter than 12 bytes, `DataError` if no
/// text is at the RVA of the name.
impl<'a> MinidumpStream<'a> for Build {
    ghost use Rattle.examples.specs.OwnStream.{BuildValue, build_stream};

    ghost Value = { BuildValue };

    ghost spec = { build_stream };

    const STREAM_TYPE: u32 = 0x1122_3344;

    fn number_of_type() -> u32 {
        Self::STREAM_TYPE
    }

    fn read(
        alloc: Global,
        bytes: Source<'a>,
        all: Source<'a>,
        endian: Endian,
        _system_info: Option<&MinidumpSystemInfo>,
        steps: &mut Steps,
    ) -> Result<Self, Error> {
        let raw: RawBuild = bytes
            .record(0, endian, steps)
            .ok_or(Error::StreamReadFailure)?;
        let name = all.text16(alloc, raw.name_rva as u64, endian, steps)?;
        let name = name.ok_or(Error::DataError)?;
        Ok(Build {
            number: raw.number,
            time: raw.time,
            name,
        })
    }
}

/// Returns the build that a minidump tells of. `bytes` are those of the minidump.
///
/// Returns the errors of [`Minidump::read`] and [`Minidump::get_stream`].
pub fn read_build(alloc: Global, bytes: &[u8]) -> Result<Build, Error>
    ensures { Gives build_of (HasEntries bytes.now) result (build_of_file bytes.now) }
{
    let dump = Minidump::read(alloc, bytes)?;
    dump.get_stream(alloc)
}
