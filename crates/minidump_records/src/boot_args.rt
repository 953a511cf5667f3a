ghost use Rattle.std.specs.Prelude.{◌≡◌, ◌≤◌, IfErr, IfOk, IsOkUnless, IfSome, IsSome, OnErr, length, nat_le};
ghost use Rattle.std.specs.Prelude.{if◌then◌else◌};
ghost use Rattle.std.proofs.Common.{rules};
ghost use Rattle.minidump_bytes.specs.Source.{bytes_of};
ghost use Rattle.minidump_bytes.specs.Steps.{after};
ghost use Rattle.minidump_format.specs.Print.{Prints};
ghost use Rattle.minidump_records.specs.BootArgs.{boot_args_record, mac_bootargs_of, mac_bootargs_text};
ghost use Rattle.minidump_records.specs.Print.{text_or_nothing};

use minidump_bytes::{Endian, Record, Source, Steps, Told, copy_text};
use minidump_format::format::MINIDUMP_MAC_BOOTARGS;
use minidump_format::{Error, put_text};
use minidump_system::{MinidumpStream, MinidumpSystemInfo};
use std::alloc::Global;
use std::io::Write;

/// The arguments that macOS was booted with.
#[derive(Drop)]
pub struct MinidumpMacBootargs {
    /// The record of the stream. The RVA of the short form has 32 bits, and is widened to 64.
    pub raw: MINIDUMP_MAC_BOOTARGS,
    /// The arguments, or `None` if no text is at their RVA.
    pub bootargs: Option<String>,
}

impl MinidumpMacBootargs {
    /// Copies the arguments. The only error is [`Error::OutOfMemory`], and only if there are some.
    pub fn try_clone(&self, alloc: Global) -> Result<MinidumpMacBootargs, Error>
        ensures same { IfOk result (λ copy. mac_bootargs_of copy ≡ mac_bootargs_of self.now) }
        ensures memory { IsOkUnless result Error.OutOfMemory }
        ensures some { OnErr result (IsSome self.now.bootargs) }
    {
        Ok(MinidumpMacBootargs {
            raw: self.raw,
            bootargs: copy_text(alloc, &self.bootargs)?,
        })
    }

    /// Prints the arguments, or nothing after their label if they are `None`. The only error is
    /// [`Error::IoError`].
    pub fn print<W: Write>(&self, _alloc: Global, f: &mut Told<W>) -> Result<(), Error>
        ensures prints { Prints W.contents f.old f.new
            (mac_bootargs_text (mac_bootargs_of self.now)) result }
        ensures error { IfErr result (λ e. e ≡ Error.IoError) }
    {
        put_text(f, "mac_boot_args = ")?;
        put_text(f, self.arguments())?;
        put_text(f, "\n\n")
    }

    // Returns the arguments, or an empty text if they are `None`.
    fn arguments(&self) -> &str
        ensures { result.now ≡ text_or_nothing (mac_bootargs_of self.now).text }
    {
        match &self.bootargs {
            Some(text) => text.as_str(),
            None => "",
        }
    }
}

// The short form of the record.
#[derive(Clone, Copy)]
struct ShortBootArgs {
    stream_type: u32,
    bootargs: u32,
}

impl Record for ShortBootArgs {
    ghost use Rattle.minidump_records.specs.BootArgs.{short_boot_args};

    ghost SIZE = { 8 };

    const SIZE: usize = 8;

    ghost layout = { short_boot_args };

    fn decode(bytes: &[u8], endian: Endian) -> Self {
        ShortBootArgs {
            stream_type: endian.u32_at(bytes, 0),
            bootargs: endian.u32_at(bytes, 4),
        }
    }

    ghost fits = { Prim.search rules };
}

/// Reads Mozilla's `MDRawMacBootargs`: the form of 12 bytes, or the form of 8 bytes if the stream
/// is shorter than 12. Returns `StreamReadFailure` if the stream is shorter than 8 bytes.
impl<'a> MinidumpStream<'a> for MinidumpMacBootargs {
    ghost use Rattle.minidump_records.specs.BootArgs.{BootArgs, mac_bootargs_stream};

    ghost Value = { BootArgs };

    ghost spec = { mac_bootargs_stream };

    const STREAM_TYPE: u32 = 0x4d7a_0002;

    fn number_of_type() -> u32 {
        Self::STREAM_TYPE
    }

    fn read(
        alloc: Global,
        bytes: Source<'a>,
        all: Source<'a>,
        endian: Endian,
        _system_info: Option<&MinidumpSystemInfo>,
        steps: &mut Steps,
    ) -> Result<Self, Error> {
        let raw = read_record(bytes, endian, steps).ok_or(Error::StreamReadFailure)?;
        let bootargs = all.text16(alloc, raw.bootargs, endian, steps)?;
        Ok(MinidumpMacBootargs { raw, bootargs })
    }
}

// Reads the record in the form that the stream holds.
fn read_record(
    bytes: Source<'_>,
    endian: Endian,
    steps: &mut Steps,
) -> Option<MINIDUMP_MAC_BOOTARGS>
    ensures value { result ≡ boot_args_record endian (bytes_of bytes.entry) }
    ensures long_enough { IfSome result (λ _. 8 ≤ length (bytes_of bytes.entry)) }
    ensures steps { steps.new ≡ after steps.old
        (if nat_le 12 (length (bytes_of bytes.entry)) then 1 else 2) }
{
    if let Some(raw) = bytes.record(0, endian, steps) {
        return Some(raw);
    }
    let short: ShortBootArgs = bytes.record(0, endian, steps)?;
    Some(MINIDUMP_MAC_BOOTARGS {
        stream_type: short.stream_type,
        bootargs: short.bootargs as u64,
    })
}
