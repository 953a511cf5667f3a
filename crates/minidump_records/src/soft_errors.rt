ghost use Rattle.std.specs.Prelude.{◌≡◌, [], IfErr};
ghost use Rattle.minidump_format.specs.Print.{Prints};
ghost use Rattle.minidump_records.specs.SoftErrors.{soft_errors_stream, soft_errors_text};

use minidump_bytes::{Endian, LinuxOsStr, Source, Steps, Told};
use minidump_format::{Error, print_line_end, put_text};
use minidump_system::{MinidumpStream, MinidumpSystemInfo};
use std::alloc::Global;
use std::io::Write;

/// The errors that the dump's writer met and got over, as a text in JSON.
#[derive(Drop)]
pub struct MinidumpSoftErrors<'a> {
    text: &'a str,
}

impl<'a> MinidumpSoftErrors<'a> {
    /// Makes an empty text.
    pub fn new() -> Self
        ensures { soft_errors_stream.value result ≡ [] }
    {
        MinidumpSoftErrors { text: "" }
    }

    /// Returns the text, which lives as long as the file.
    pub fn as_ref(&self) -> &'a str
        ensures { result.now ≡ soft_errors_stream.value self.now }
    {
        self.text
    }

    /// Prints the name of the type of stream and the text, each with a line feed. The Rust crate
    /// has no such call: this is the text that a report has for the stream. The only error is
    /// [`Error::IoError`].
    pub fn print<W: Write>(&self, _alloc: Global, f: &mut Told<W>) -> Result<(), Error>
        ensures prints { Prints W.contents f.old f.new
            (soft_errors_text (soft_errors_stream.value self.now)) result }
        ensures error { IfErr result (λ e. e ≡ Error.IoError) }
    {
        put_text(f, "MozSoftErrors\n")?;
        put_text(f, self.text)?;
        print_line_end(f)
    }
}

/// Reads Mozilla's soft errors: the stream is one text. Returns `DataError` if its bytes are not
/// UTF-8. Counts no step, and takes no memory.
impl<'a> MinidumpStream<'a> for MinidumpSoftErrors<'a> {
    ghost use Rattle.std.specs.Prelude.{List, ℕ};
    ghost use Rattle.minidump_records.specs.SoftErrors.{soft_errors_stream};

    ghost Value = { List ℕ };

    ghost spec = { soft_errors_stream };

    const STREAM_TYPE: u32 = 0x4d7a_0004;

    fn number_of_type() -> u32
        ensures { result ≡ soft_errors_stream.stream_type }
    {
        Self::STREAM_TYPE
    }

    fn read(
        _alloc: Global,
        bytes: Source<'a>,
        _all: Source<'a>,
        _endian: Endian,
        _system_info: Option<&MinidumpSystemInfo>,
        _steps: &mut Steps,
    ) -> Result<Self, Error> {
        let text = LinuxOsStr::from_bytes(bytes.bytes())
            .to_str()
            .ok_or(Error::DataError)?;
        Ok(MinidumpSoftErrors { text })
    }
}
