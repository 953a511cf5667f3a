ghost use Rattle.std.specs.Prelude.{◌≡◌, [], ℕ};
ghost use Rattle.minidump_format.specs.declared.format.stream_type.MINIDUMP_STREAM_TYPE.{MINIDUMP_STREAM_TYPE};
ghost use Rattle.minidump_format.specs.StreamType.{number_of, type_name};
ghost use Rattle.minidump_records.specs.Linux.Pairs.{pairs_of};

use crate::LinuxPairs;
use minidump_bytes::{Endian, Source, Steps};
use minidump_format::Error;
use minidump_system::{MinidumpStream, MinidumpSystemInfo};
use std::alloc::Global;
use std::marker::PhantomData;

/// A file of Linux whose text is a stream of its own.
pub trait LinuxFile {
    // the type of the stream
    ghost stream_type: { MINIDUMP_STREAM_TYPE };

    ghost STREAM_TYPE: { ℕ };

    /// The number of the type in the directory.
    const STREAM_TYPE: u32;

    /// Returns the name of the type.
    fn name_of_type() -> &'static str
        ensures { result.now ≡ type_name stream_type };

    // the constant is the number of the type
    ghost is_its_number: { STREAM_TYPE ≡ number_of stream_type };
}

/// A file of Linux whose text is pairs of a key and a value.
pub trait LinuxPairsFile: LinuxFile {
    ghost SEPARATOR: { ℕ };

    /// The byte between a key and its value.
    const SEPARATOR: u8;
}

/// The text of a file of Linux.
#[derive(Drop)]
pub struct LinuxText<'a, F> {
    pub(super) data: &'a [u8],
    file: PhantomData<F>,
}

impl<'a, F> LinuxText<'a, F> {
    ghost use Rattle.minidump_records.specs.Linux.{linux_text_of};

    /// Makes an empty text.
    pub fn new() -> Self
        ensures { linux_text_of result ≡ [] }
    {
        LinuxText {
            data: &[],
            file: PhantomData,
        }
    }

    /// Returns the bytes of the stream.
    pub fn raw_bytes(&self) -> &'a [u8]
        ensures { result.now ≡ linux_text_of self.now }
    {
        self.data
    }
}

impl<'a, F: LinuxPairsFile> LinuxText<'a, F> {
    ghost use Rattle.minidump_records.specs.Linux.{linux_text_of};

    /// Returns an iterator over the pairs of its lines. Each line is cut at its first separator,
    /// and one without a separator is skipped.
    pub fn iter(&self) -> LinuxPairs<'a>
        ensures { result ≡ pairs_of F.SEPARATOR (linux_text_of self.now) }
    {
        LinuxPairs::new(self.data, F::SEPARATOR)
    }
}

/// Reads the text, which is the whole stream. Any bytes are allowed. Counts no step, takes no
/// memory, and has no error.
impl<'a, F: LinuxFile> MinidumpStream<'a> for LinuxText<'a, F> {
    ghost use Rattle.std.specs.Prelude.{List, ℕ};
    ghost use Rattle.minidump_records.specs.Linux.{linux_text_stream};

    ghost Value = { List ℕ };

    ghost spec = { linux_text_stream F.stream_type };

    const STREAM_TYPE: u32 = F::STREAM_TYPE;

    fn number_of_type() -> u32
        ensures { result ≡ number_of F.stream_type }
    {
        F::STREAM_TYPE
    }

    fn read(
        _alloc: Global,
        bytes: Source<'a>,
        _all: Source<'a>,
        _endian: Endian,
        _system_info: Option<&MinidumpSystemInfo>,
        _steps: &mut Steps,
    ) -> Result<Self, Error> {
        Ok(LinuxText {
            data: bytes.bytes(),
            file: PhantomData,
        })
    }
}
