use crate::section::saturate;
use crate::{Encode, Section};
use minidump_bytes::Endian;
use minidump_format::format::{
    MINIDUMP_DIRECTORY, MINIDUMP_HEADER, MINIDUMP_LOCATION_DESCRIPTOR, MINIDUMP_SIGNATURE,
    MINIDUMP_VERSION, RVA,
};
use std::alloc::{AllocError, Global};

/// Builds a minidump: the header, what was added in order, and then the directory.
///
/// One made by [`SynthMinidump::with_streams_first`] has the directory after the header, then the
/// streams, then what else was added.
///
/// The public fields are those of the header, so that tests can forge them. Calls that run out of
/// memory don't say so; [`SynthMinidump::finish`] does.
#[derive(Drop)]
pub struct SynthMinidump {
    /// The signature.
    pub signature: u32,
    /// The version.
    pub version: u32,
    /// The number of entries that the header states, if it isn't the number that there are.
    pub stream_count: Option<u32>,
    /// The RVA of the directory that the header states, if it isn't after all that was added.
    pub stream_directory_rva: Option<RVA>,
    /// The checksum.
    pub checksum: u32,
    /// When the dump was written, in seconds since 1970.
    pub time_date_stamp: u32,
    /// The flags.
    pub flags: u64,
    alloc: Global,
    endian: Endian,
    data: Section,
    entries: u32,
    directory: Section,
    // The numbers of bytes that are kept for the directory and for the streams, and the streams.
    directory_room: u32,
    streams_room: u32,
    streams: Section,
}

impl SynthMinidump {
    /// Makes a minidump with no streams.
    pub fn new(alloc: Global, endian: Endian) -> SynthMinidump {
        SynthMinidump {
            signature: MINIDUMP_SIGNATURE,
            version: MINIDUMP_VERSION,
            stream_count: None,
            stream_directory_rva: None,
            checksum: 0,
            time_date_stamp: 0,
            flags: 0,
            alloc,
            endian,
            data: Section::new(alloc, endian),
            entries: 0,
            directory: Section::new(alloc, endian),
            directory_room: 0,
            streams_room: 0,
            streams: Section::new(alloc, endian),
        }
    }

    /// Makes a minidump with no streams that has room for `entries` entries of the directory after
    /// the header, and then for `streams_room` bytes of streams, so that prefixes of the file are
    /// dumps too. With more than `entries` entries the RVAs are wrong.
    pub fn with_streams_first(
        alloc: Global,
        endian: Endian,
        entries: u32,
        streams_room: u32,
    ) -> SynthMinidump {
        SynthMinidump {
            stream_directory_rva: Some(32),
            directory_room: entries.saturating_mul(12),
            streams_room,
            ..SynthMinidump::new(alloc, endian)
        }
    }

    /// Returns an empty section in the dump's byte order.
    pub fn section(&self) -> Section {
        Section::new(self.alloc, self.endian)
    }

    /// Returns the RVA of what is added next.
    pub fn rva(&self) -> RVA {
        let front = self.directory_room.saturating_add(self.streams_room);
        saturate(self.data.len())
            .saturating_add(front)
            .saturating_add(32)
    }

    /// Adds the bytes of a record, a section or an array, and returns their RVA.
    pub fn add<E: Encode>(&mut self, what: &E) -> RVA {
        let rva = self.rva();
        self.data.record(what);
        rva
    }

    /// Adds the bytes of a record, a section or an array, and returns their location.
    pub fn add_located<E: Encode>(&mut self, what: &E) -> MINIDUMP_LOCATION_DESCRIPTOR {
        let rva = self.add(what);
        MINIDUMP_LOCATION_DESCRIPTOR {
            data_size: self.rva().saturating_sub(rva),
            rva,
        }
    }

    /// Adds a UTF-16 text after its length, and returns its RVA.
    pub fn add_text16(&mut self, text: &str) -> RVA {
        let rva = self.rva();
        self.data.text16(text);
        rva
    }

    /// Adds the bytes of a stream, and an entry for it. They stand in the room for streams while it
    /// has as many.
    pub fn add_stream<E: Encode>(&mut self, stream_type: u32, what: &E) {
        let mut stream = self.section();
        stream.record(what);
        let rva = saturate(self.streams.len());
        let data_size = saturate(stream.len());
        let location = if data_size <= self.streams_room.saturating_sub(rva) && data_size > 0 {
            self.streams.append(&stream);
            MINIDUMP_LOCATION_DESCRIPTOR {
                data_size,
                rva: rva.saturating_add(self.directory_room).saturating_add(32),
            }
        } else {
            self.add_located(&stream)
        };
        self.add_entry(stream_type, location);
    }

    /// Adds an entry of the directory alone.
    pub fn add_entry(&mut self, stream_type: u32, location: MINIDUMP_LOCATION_DESCRIPTOR) {
        self.entries = self.entries.saturating_add(1);
        self.directory.record(&MINIDUMP_DIRECTORY {
            stream_type,
            location,
        });
    }

    /// Returns the bytes of the file, or `AllocError` if an earlier call ran out of memory or this
    /// one does.
    pub fn finish(&self) -> Result<Vec<u8>, AllocError> {
        let mut file = self.section();
        file.record(&self.header());
        if self.directory_room > 0 {
            self.append_front(&mut file);
            file.append(&self.data);
        } else {
            file.append(&self.data).append(&self.directory);
        }
        file.finish()
    }

    // Appends the directory and the streams, each with zeros up to its room.
    fn append_front(&self, file: &mut Section) {
        let rest = (self.directory_room as usize).saturating_sub(self.directory.len());
        file.append(&self.directory).zeros(rest);
        let rest = (self.streams_room as usize).saturating_sub(self.streams.len());
        file.append(&self.streams).zeros(rest);
    }

    // Returns the header of the file.
    fn header(&self) -> MINIDUMP_HEADER {
        MINIDUMP_HEADER {
            signature: self.signature,
            version: self.version,
            stream_count: self.stream_count.unwrap_or(self.entries),
            stream_directory_rva: self.stream_directory_rva.unwrap_or(self.rva()),
            checksum: self.checksum,
            time_date_stamp: self.time_date_stamp,
            flags: self.flags,
        }
    }
}
