ghost use Rattle.std.specs.Prelude.{◌≡◌, true};
ghost use Rattle.std.proofs.Props.{props};
ghost use Rattle.minidump_bytes.specs.Source.{bytes_of};
ghost use Rattle.minidump_context.specs.Context.{map_ok};
ghost use Rattle.minidump_system.specs.SystemInfo.{system_info_of};
ghost use Rattle.minidump.specs.Directory.{directory, is_readable};
ghost use Rattle.minidump.specs.Deciding.{Decides};
ghost use Rattle.minidump.specs.Dump.{own_system};

use crate::directory::{DecidingEntry, read_directory};
use crate::header::read_header;
use crate::streams::{Streams, UnimplementedStreams, UnknownStreams};
use crate::system::read_system_info;
use minidump_bytes::{Endian, Entries, Source, Steps};
use minidump_format::Error;
use minidump_format::format::{MINIDUMP_DIRECTORY, MINIDUMP_HEADER};
use minidump_system::MinidumpSystemInfo;
use std::alloc::Global;

/// A minidump: its header, its directory and its system information. Other streams are read when
/// they are asked for.
#[derive(Drop)]
pub struct Minidump<'a> {
    /// The header.
    pub header: MINIDUMP_HEADER,
    /// The byte order of the whole file.
    pub endian: Endian,
    pub(crate) source: Source<'a>,
    pub(crate) entries: Vec<DecidingEntry>,
    // the system information, or the error of its stream
    pub(crate) system: Result<MinidumpSystemInfo, Error>,
    ghost decides: { Decides entries.items
        (directory endian (bytes_of source) header) } by { Prim.hlevel props },
    ghost readable: { is_readable (bytes_of source) header ≡ true },
    ghost knows: { map_ok system_info_of system
        ≡ own_system (record { file = bytes_of source; order = endian; header = header }) },
}

impl<'a> Minidump<'a> {
    ghost use Rattle.std.specs.Prelude.{◌+◌, ◌<◌, ◌≤◌, ◌^◌, length, IfOk};
    ghost use Rattle.std.specs.List.{filter_map};
    ghost use Rattle.std.specs.Option.{option_copied, option_map};
    ghost use Rattle.minidump_bytes.specs.Steps.{after};
    ghost use Rattle.minidump_format.specs.Answer.{Gives};
    ghost use Rattle.minidump.specs.Dump.{HasEntries, all_entries, dump_in, dump_system, least_reads};
    ghost use Rattle.minidump.specs.Dump.{streams_of};
    ghost use Rattle.minidump.specs.DumpValue.{dump_of};
    ghost use Rattle.minidump.specs.Streams.{as_unknown, as_unimplemented, entries_of, streams_left, unknown_left};
    ghost use Rattle.minidump.specs.Streams.{unimplemented_left};

    /// Reads the header, the directory and the system information of a minidump.
    ///
    /// Returns the first of these errors that holds: `MissingHeader` if there are fewer than 32
    /// bytes, `HeaderMismatch` if they don't begin with the signature `MDMP` in either byte order,
    /// `VersionMismatch` if the low 16 bits of the version are not 0xa793, `MissingDirectory` if an
    /// entry of the directory is not in the file. Returns `OutOfMemory` only if none of them holds
    /// and there is at least one entry. A missing or malformed SystemInfo stream is no error.
    pub fn read(alloc: Global, bytes: &'a [u8]) -> Result<Minidump<'a>, Error>
        ensures { Gives dump_of (HasEntries bytes.now) result (dump_in bytes.now) }
    {
        Minidump::read_counted(alloc, bytes, &mut Steps::new())
    }

    /// Reads as [`Minidump::read`] does, and counts the reads: at least one, and at most `n + 8`
    /// for `n` bytes.
    pub fn read_counted(
        alloc: Global,
        bytes: &'a [u8],
        steps: &mut Steps,
    ) -> Result<Minidump<'a>, Error>
        ensures means { Gives dump_of (HasEntries bytes.now) result (dump_in bytes.now) }
        ensures within { steps.new ≤ steps.old + length bytes.now + 8 }
        ensures grows { steps.old ≤ steps.new }
        ensures begun { after steps.old 1 ≤ steps.new }
        ensures at_least { IfOk result
            (λ d. after steps.old (least_reads (dump_of d)) ≤ steps.new) }
    {
        let source = Source::new(bytes);
        let (endian, header) = read_header(source, steps)?;
        let entries = read_directory(alloc, source, endian, &header, steps)?;
        let system = read_system_info(alloc, source, endian, &header, entries.as_slice(), steps)?;
        Ok(Minidump {
            header,
            endian,
            source,
            entries,
            system,
        })
    }

    /// Returns an iterator over the deciding entries of the directory, ascending by type. Of
    /// several entries of a type the last decides.
    pub fn all_streams(&self) -> Streams<'_>
        ensures { streams_left result ≡ entries_of (streams_of (dump_of self.now)) }
    {
        Streams {
            entries: self.deciding_entries().iter(),
        }
    }

    /// Returns the bytes of the file.
    pub fn bytes(&self) -> &'a [u8]
        ensures { result.now ≡ (dump_of self.now).file }
    {
        self.source.bytes()
    }

    /// Returns all entries of the directory in its order, also those that don't decide a type. A
    /// dump keeps only those that do, since few callers ask for the others.
    pub fn all_entries(&self) -> Entries<'a, MINIDUMP_DIRECTORY>
        ensures entries { result ≡ all_entries (dump_of self.now) }
        ensures few { length result < 2 ^ 32 }
    {
        let count = self.header.stream_count as u64;
        let start = if count == 0 {
            0
        } else {
            self.header.stream_directory_rva as u64
        };
        self.source.entries(start, count, self.endian)
    }

    // Returns the system information, or `None` if its stream is missing or malformed.
    pub(crate) fn system_info(&self) -> Option<&MinidumpSystemInfo>
        ensures { option_map system_info_of (option_copied result)
            ≡ dump_system (dump_of self.now) }
    {
        match &self.system {
            Ok(system) => Some(system),
            Err(_) => None,
        }
    }

    // Returns the deciding entries, each with its index.
    pub(crate) fn deciding_entries(&self) -> &[DecidingEntry]
        ensures { result.now ≡ streams_of (dump_of self.now) }
    {
        self.entries.as_slice()
    }

    /// Returns an iterator over the streams of [`Minidump::all_streams`] whose type has no name in
    /// [`MINIDUMP_STREAM_TYPE`](crate::format::MINIDUMP_STREAM_TYPE).
    pub fn unknown_streams(&self) -> UnknownStreams<'_>
        ensures { unknown_left result
            ≡ filter_map as_unknown (entries_of (streams_of (dump_of self.now))) }
    {
        UnknownStreams {
            streams: self.all_streams(),
        }
    }

    /// Returns an iterator over the streams of [`Minidump::all_streams`] whose type has a name in
    /// [`MINIDUMP_STREAM_TYPE`](crate::format::MINIDUMP_STREAM_TYPE), but is never read.
    pub fn unimplemented_streams(&self) -> UnimplementedStreams<'_>
        ensures { unimplemented_left result
            ≡ filter_map as_unimplemented (entries_of (streams_of (dump_of self.now))) }
    {
        UnimplementedStreams {
            streams: self.all_streams(),
        }
    }
}
