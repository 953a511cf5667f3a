ghost use Rattle.std.specs.Prelude.{◌≡◌};
ghost use Rattle.std.specs.Option.{option_map};
ghost use Rattle.std.specs.Iterator.{YieldsFirstRef, YieldsFirstBy, item_count};
ghost use Rattle.minidump.specs.Streams.{streams_left, unknown_left, unimplemented_left, unknown_of, unimplemented_of};
ghost use Rattle.minidump.specs.Streams.{as_unknown, as_unimplemented};

use crate::directory::DecidingEntry;
use minidump_format::format::{
    MINIDUMP_DIRECTORY, MINIDUMP_LOCATION_DESCRIPTOR, MINIDUMP_STREAM_TYPE,
};
use minidump_format::stream_vendor;
use std::slice;

/// A stream whose type this crate reads. No call returns one.
#[derive(Drop)]
pub struct MinidumpImplementedStream {
    /// The type.
    pub stream_type: MINIDUMP_STREAM_TYPE,
    /// The location of its bytes.
    pub location: MINIDUMP_LOCATION_DESCRIPTOR,
    /// The vendor of the type, as [`stream_vendor`] returns it.
    pub vendor: &'static str,
}

/// A stream whose type has no name in [`MINIDUMP_STREAM_TYPE`].
#[derive(Clone, Drop)]
pub struct MinidumpUnknownStream {
    /// The type, as a number.
    pub stream_type: u32,
    /// The location of its bytes.
    pub location: MINIDUMP_LOCATION_DESCRIPTOR,
    /// The vendor of the type, as [`stream_vendor`] returns it.
    pub vendor: &'static str,
}

/// A stream whose type has a name in [`MINIDUMP_STREAM_TYPE`], but is never read.
#[derive(Clone, Drop)]
pub struct MinidumpUnimplementedStream {
    /// The type.
    pub stream_type: MINIDUMP_STREAM_TYPE,
    /// The location of its bytes.
    pub location: MINIDUMP_LOCATION_DESCRIPTOR,
    /// The vendor of the type, as [`stream_vendor`] returns it.
    pub vendor: &'static str,
}

/// An iterator over the deciding entries of a directory, ascending by type.
#[derive(Drop)]
pub struct Streams<'a> {
    pub(crate) entries: slice::Iter<'a, DecidingEntry>,
}

impl<'a> Iterator for Streams<'a> {
    type Item = &'a MINIDUMP_DIRECTORY;

    ghost next_gives = { YieldsFirstRef streams_left };

    ghost remaining = { item_count streams_left };

    fn next(&mut self) -> Option<&'a MINIDUMP_DIRECTORY> {
        let deciding_entry = self.entries.next()?;
        Some(&deciding_entry.entry)
    }
}

/// An iterator over the streams whose type has no name, ascending by type.
#[derive(Drop)]
pub struct UnknownStreams<'a> {
    pub(crate) streams: Streams<'a>,
}

impl<'a> Iterator for UnknownStreams<'a> {
    type Item = MinidumpUnknownStream;

    ghost next_gives = { YieldsFirstBy unknown_of unknown_left };

    ghost remaining = { item_count unknown_left };

    fn next(&mut self) -> Option<MinidumpUnknownStream> {
        while let Some(entry) = self.streams.next() {
            if let Some(stream) = unknown_stream(entry) {
                return Some(stream);
            }
        }
        None
    }
}

// Returns the stream of an entry, if its type has no name.
fn unknown_stream(entry: &MINIDUMP_DIRECTORY) -> Option<MinidumpUnknownStream>
    ensures { option_map unknown_of result ≡ as_unknown entry.now }
{
    match MINIDUMP_STREAM_TYPE::from_u32(entry.stream_type) {
        Some(_) => None,
        None => Some(MinidumpUnknownStream {
            stream_type: entry.stream_type,
            location: entry.location,
            vendor: stream_vendor(entry.stream_type),
        }),
    }
}

/// An iterator over the streams whose type has a name, but is never read, ascending by type.
#[derive(Drop)]
pub struct UnimplementedStreams<'a> {
    pub(crate) streams: Streams<'a>,
}

impl<'a> Iterator for UnimplementedStreams<'a> {
    type Item = MinidumpUnimplementedStream;

    ghost next_gives = { YieldsFirstBy unimplemented_of unimplemented_left };

    ghost remaining = { item_count unimplemented_left };

    fn next(&mut self) -> Option<MinidumpUnimplementedStream> {
        while let Some(entry) = self.streams.next() {
            if let Some(stream) = unimplemented_stream(entry) {
                return Some(stream);
            }
        }
        None
    }
}

// Returns the stream of an entry, if its type has a name, but is never read.
fn unimplemented_stream(entry: &MINIDUMP_DIRECTORY) -> Option<MinidumpUnimplementedStream>
    ensures { option_map unimplemented_of result ≡ as_unimplemented entry.now }
{
    match MINIDUMP_STREAM_TYPE::from_u32(entry.stream_type) {
        Some(stream_type) if stream_type.is_unimplemented() => Some(MinidumpUnimplementedStream {
            stream_type,
            location: entry.location,
            vendor: stream_vendor(entry.stream_type),
        }),
        _ => None,
    }
}
