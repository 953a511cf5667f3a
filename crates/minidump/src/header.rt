ghost use Rattle.std.specs.Prelude.{◌+◌, ◌≤◌, length, OnOk};
ghost use Rattle.minidump_bytes.specs.Steps.{after};
ghost use Rattle.minidump_bytes.specs.Source.{bytes_of};
ghost use Rattle.minidump_format.specs.Answer.{Gives};
ghost use Rattle.minidump.specs.Header.{header_of};

use minidump_bytes::{Endian, Source, Steps};
use minidump_format::Error;
use minidump_format::format::{MINIDUMP_HEADER, MINIDUMP_SIGNATURE, MINIDUMP_VERSION};

// Reads the header, and finds the byte order in which it has the signature.
pub(crate) fn read_header(
    source: Source<'_>,
    steps: &mut Steps,
) -> Result<(Endian, MINIDUMP_HEADER), Error>
    ensures means { Gives (λ x. x) ⊥ result (header_of (bytes_of source.entry)) }
    ensures within { steps.new ≤ steps.old + 2 }
    ensures grows { steps.old ≤ steps.new }
    ensures begun { after steps.old 1 ≤ steps.new }
    ensures long { OnOk result (32 ≤ length (bytes_of source.entry)) }
{
    let little: MINIDUMP_HEADER = source
        .record(0, Endian::Little, steps)
        .ok_or(Error::MissingHeader)?;
    let (endian, header) = if little.signature == MINIDUMP_SIGNATURE {
        (Endian::Little, little)
    } else {
        let big: MINIDUMP_HEADER = source
            .record(0, Endian::Big, steps)
            .ok_or(Error::MissingHeader)?;
        if big.signature != MINIDUMP_SIGNATURE {
            return Err(Error::HeaderMismatch);
        }
        (Endian::Big, big)
    };
    if header.version % 0x1_0000 != MINIDUMP_VERSION {
        return Err(Error::VersionMismatch);
    }
    Ok((endian, header))
}
