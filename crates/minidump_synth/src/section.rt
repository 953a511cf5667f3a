use crate::Encode;
use minidump_bytes::{Endian, Record};
use std::alloc::{AllocError, Global};

/// Both byte orders.
pub const BOTH: &[Endian] = &[Endian::Little, Endian::Big];

/// Bytes that grow at their end, with a byte order for their numbers.
///
/// Calls that append return the section, so that they chain. Calls that run out of memory don't say
/// so; [`Section::finish`] does.
#[derive(Drop)]
pub struct Section {
    endian: Endian,
    bytes: Vec<u8>,
    failed: bool,
}

impl Section {
    /// Makes an empty section.
    pub fn new(alloc: Global, endian: Endian) -> Section {
        Section {
            endian,
            bytes: Vec::new(alloc),
            failed: false,
        }
    }

    /// Returns the number of bytes.
    pub fn len(&self) -> usize {
        self.bytes.len()
    }

    /// Returns the bytes, or `AllocError` if an earlier call ran out of memory or this one does.
    pub fn finish(&self) -> Result<Vec<u8>, AllocError> {
        if self.failed {
            return Err(AllocError);
        }
        self.bytes.clone()
    }

    /// Appends `bytes`.
    pub fn bytes(&mut self, bytes: &[u8]) -> &mut Section {
        if self.bytes.extend_from_slice(bytes).is_err() {
            self.failed = true;
        }
        self
    }

    /// Appends `count` zeros.
    pub fn zeros(&mut self, count: usize) -> &mut Section {
        for _ in 0..count {
            self.u8(0);
        }
        self
    }

    /// Appends the bytes of another section, as they are.
    pub fn append(&mut self, other: &Section) -> &mut Section {
        if other.failed {
            self.failed = true;
        }
        self.bytes(&other.bytes)
    }

    /// Appends a `u8`.
    pub fn u8(&mut self, n: u8) -> &mut Section {
        self.bytes(&[n])
    }

    /// Appends a `u16`.
    pub fn u16(&mut self, n: u16) -> &mut Section {
        match self.endian {
            Endian::Little => self.bytes(&n.to_le_bytes()),
            Endian::Big => self.bytes(&n.to_be_bytes()),
        }
    }

    /// Appends a `u32`.
    pub fn u32(&mut self, n: u32) -> &mut Section {
        match self.endian {
            Endian::Little => self.bytes(&n.to_le_bytes()),
            Endian::Big => self.bytes(&n.to_be_bytes()),
        }
    }

    /// Appends a `u64`.
    pub fn u64(&mut self, n: u64) -> &mut Section {
        match self.endian {
            Endian::Little => self.bytes(&n.to_le_bytes()),
            Endian::Big => self.bytes(&n.to_be_bytes()),
        }
    }

    /// Appends a `u128`.
    pub fn u128(&mut self, n: u128) -> &mut Section {
        match self.endian {
            Endian::Little => self.bytes(&n.to_le_bytes()),
            Endian::Big => self.bytes(&n.to_be_bytes()),
        }
    }

    /// Appends an `i32`.
    pub fn i32(&mut self, n: i32) -> &mut Section {
        self.u32(n.cast_unsigned())
    }

    /// Appends a UTF-16 text: its length in bytes as a `u32`, then its code units, with no NUL.
    pub fn text16(&mut self, text: &str) -> &mut Section {
        let count = text.encode_utf16().count();
        self.u32(saturate(count.saturating_mul(2)))
            .units16(text, count)
    }

    /// Appends an array of `count` UTF-16 code units: those of the text, cut to `count`, then
    /// zeros.
    pub fn units16(&mut self, text: &str, count: usize) -> &mut Section {
        let mut units = text.encode_utf16();
        for _ in 0..count {
            self.u16(units.next().unwrap_or(0));
        }
        self
    }

    /// Appends a UTF-8 text: its length in bytes as a `u32`, then its bytes, with no NUL.
    pub fn text8(&mut self, text: &str) -> &mut Section {
        self.u32(saturate(text.len())).bytes(text.as_bytes())
    }

    /// Appends the bytes of a text and a NUL.
    pub fn cstring(&mut self, text: &str) -> &mut Section {
        self.bytes(text.as_bytes()).u8(0)
    }

    /// Appends a record, in the byte order of the section.
    pub fn record<R: Encode>(&mut self, record: &R) -> &mut Section {
        record.encode(self);
        self
    }

    /// Appends consecutive records.
    pub fn records<R: Encode>(&mut self, records: &[R]) -> &mut Section {
        for record in records {
            record.encode(self);
        }
        self
    }

    /// Appends the count of the records as a `u32`, then the records.
    pub fn list<R: Encode>(&mut self, records: &[R]) -> &mut Section {
        self.u32(saturate(records.len())).records(records)
    }

    /// Appends the count of the records as a `u32`, four zeros that align what follows, then the
    /// records.
    pub fn aligned_list<R: Encode>(&mut self, records: &[R]) -> &mut Section {
        self.u32(saturate(records.len())).u32(0).records(records)
    }

    /// Appends the count of the records and an RVA, each a `u64`, then the records.
    pub fn list_64<R: Encode>(&mut self, rva: u64, records: &[R]) -> &mut Section {
        self.u64(records.len() as u64).u64(rva).records(records)
    }

    /// Appends the size of the list's header, the size of a record and the count of the records,
    /// each a `u32`; zeros up to the end of the header; then the records.
    pub fn extended_list<R: Encode + Record>(
        &mut self,
        size_of_header: u32,
        records: &[R],
    ) -> &mut Section {
        self.u32(size_of_header)
            .u32(saturate(R::SIZE))
            .u32(saturate(records.len()))
            .zeros((size_of_header as usize).saturating_sub(12))
            .records(records)
    }

    /// Appends a handle list: an extended list with a header of 16 bytes.
    pub fn handle_list<R: Encode + Record>(&mut self, records: &[R]) -> &mut Section {
        self.extended_list(16, records)
    }
}

/// Cuts a number to 32 bits: a greater one becomes `u32::MAX`.
pub(crate) fn saturate(n: usize) -> u32 {
    n.min(u32::MAX as usize) as u32
}
