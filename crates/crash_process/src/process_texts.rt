//! The texts of a process: what Linux's files say of it, its command line, and the comments of the
//! dump.
ghost use Rattle.std.specs.Prelude.{◌≡◌, ◌/◌, ◌==◌, IfOk, length, not, string_bytes};
ghost use Rattle.std.specs.List.{list_all};
ghost use Rattle.std.specs.Option.{option_map};
ghost use Rattle.minidump.specs.Below.Bytes.LinuxOsStr.{text_of};
ghost use Rattle.minidump.specs.Below.Bytes.Text16.{units_at};
ghost use Rattle.minidump.specs.Below.Contexts.Context.{map_ok};
ghost use Rattle.minidump.specs.DumpValue.{dump_of};
ghost use Rattle.minidump.specs.Promise.{linux_cpu_info_stream, linux_proc_status_stream};
ghost use Rattle.crash_process.specs.ProcessTexts.{command_line_in, command_text, comments_in, comments_of, cpu_text};
ghost use Rattle.crash_process.specs.ProcessTexts.{spaced, status_number, status_size, value_in};

use minidump::format::MINIDUMP_STREAM_TYPE;
use minidump::own_streams::{before_nul, text_before_nul};
use minidump::strings::LinuxOsStr;
use minidump::{
    Endian, Error, LinuxPairs, Minidump, MinidumpLinuxCpuInfo, MinidumpLinuxProcStatus, Source,
    Steps,
};
use minidump_bytes::{number_32, number_64};
use std::alloc::{AllocError, Global};

/// The comments of a dump, by whoever wrote it.
#[derive(Drop)]
pub struct Comments {
    /// The text of the stream CommentStreamA before its first 0, with U+FFFD for what isn't UTF-8;
    /// `None` if its bytes can't be read.
    pub narrow: Option<String>,
    /// The text of CommentStreamW: its code units before the first that is 0, or all of them; a last
    /// byte that is half a code unit is left out. `None` if its bytes can't be read, or a surrogate
    /// lacks its partner.
    pub wide: Option<String>,
    /// Whether the bytes of CommentStreamW can be read, but not all of its text: a surrogate lacks its
    /// partner, or the last byte is half a code unit and no code unit before it is 0.
    pub is_wide_damaged: bool,
}

// ---- Linux's files

// Returns the number that a value of Linux's status writes.
pub(crate) fn status_number(
    status: &Result<MinidumpLinuxProcStatus<'_>, Error>,
    key: &[u8],
) -> Option<u32>
    ensures { result ≡ status_number key.now (map_ok linux_proc_status_stream.value status.now) }
{
    let value = value_in(status.as_ref().ok()?.iter(), key)?;
    number_32(value.as_bytes(), 10)
}

// Returns the number of bytes that a value of Linux's status writes in kB.
pub(crate) fn status_size(
    status: &Result<MinidumpLinuxProcStatus<'_>, Error>,
    key: &[u8],
) -> Option<u64>
    ensures { result ≡ status_size key.now (map_ok linux_proc_status_stream.value status.now) }
{
    let value = value_in(status.as_ref().ok()?.iter(), key)?;
    let digits = value.strip_suffix(b" kB")?;
    number_64(digits.as_bytes(), 10)?.checked_mul(1024)
}

// Copies a value of Linux's description of the processors.
pub(crate) fn cpu_text(
    alloc: Global,
    cpu: &Result<MinidumpLinuxCpuInfo<'_>, Error>,
    key: &[u8],
) -> Result<Option<String>, AllocError>
    ensures { IfOk result (λ text. option_map string_bytes text
        ≡ cpu_text key.now (map_ok linux_cpu_info_stream.value cpu.now)) }
{
    let Ok(cpu) = cpu else {
        return Ok(None);
    };
    match value_in(cpu.iter(), key) {
        Some(value) => Ok(Some(value.to_string_lossy(alloc)?)),
        None => Ok(None),
    }
}

// Returns the value of the first pair that has a key.
fn value_in<'a>(pairs: LinuxPairs<'a>, key: &[u8]) -> Option<LinuxOsStr<'a>>
    ensures { option_map text_of result ≡ value_in key.now pairs.entry }
{
    for (name, value) in pairs {
        if name.as_bytes() == key {
            return Some(value);
        }
    }
    None
}

// ---- the command line

// Makes the text of the command line.
pub(crate) fn command_line_of(
    alloc: Global,
    dump: &Minidump<'_>,
) -> Result<Option<String>, AllocError>
    ensures { IfOk result (λ text. option_map string_bytes text
        ≡ command_line_in (dump_of dump.now)) }
{
    match dump.get_raw_stream(0x4767_0006) {
        Ok(bytes) => Ok(Some(command_text(alloc, bytes)?)),
        Err(_) => Ok(None),
    }
}

// Makes the text of arguments, each of which a 0 ends.
fn command_text(alloc: Global, bytes: &[u8]) -> Result<String, AllocError>
    ensures { IfOk result (λ text. string_bytes text ≡ command_text bytes.now) }
{
    let spaced: Vec<u8> = bytes.iter().map(|byte| spaced(*byte)).collect(alloc)?;
    LinuxOsStr::from_bytes(spaced.as_slice())
        .trim_ascii_whitespace()
        .to_string_lossy(alloc)
}

// Returns a byte, or a space for a 0.
fn spaced(byte: u8) -> u8
    ensures { result ≡ spaced byte }
{
    if byte == 0 { b' ' } else { byte }
}

// ---- the comments

// Makes the comments of a dump: the text of each stream before its first 0.
pub(crate) fn comments_of(alloc: Global, dump: &Minidump<'_>) -> Result<Comments, AllocError>
    ensures { IfOk result (λ comments. comments_of comments ≡ comments_in (dump_of dump.now)) }
{
    let narrow = match dump.get_raw_stream(MINIDUMP_STREAM_TYPE::CommentStreamA.number()) {
        Ok(bytes) => Some(LinuxOsStr::from_bytes(before_nul(bytes)).to_string_lossy(alloc)?),
        Err(_) => None,
    };
    let (wide, is_wide_damaged) = wide_comment(alloc, dump)?;
    Ok(Comments {
        narrow,
        wide,
        is_wide_damaged,
    })
}

// Makes the comment in UTF-16, its text before the first 0, and tells whether it is damaged.
fn wide_comment(alloc: Global, dump: &Minidump<'_>) -> Result<(Option<String>, bool), AllocError>
    ensures text { IfOk result (λ found. option_map string_bytes found.0
        ≡ (comments_in (dump_of dump.now)).wide) }
    ensures damaged { IfOk result (λ found. found.1
        ≡ (comments_in (dump_of dump.now)).is_wide_damaged) }
{
    let Ok(bytes) = dump.get_raw_stream(MINIDUMP_STREAM_TYPE::CommentStreamW.number()) else {
        return Ok((None, false));
    };
    let units = units_of(alloc, bytes, dump.endian)?;
    let text = text_before_nul(alloc, units.as_slice())?;
    let is_cut = bytes.len() % 2 == 1 && none_is_0(units.as_slice());
    let is_damaged = text.is_none() || is_cut;
    Ok((text, is_damaged))
}

// Tells whether no code unit is 0.
fn none_is_0(units: &[u16]) -> bool
    ensures { result ≡ list_all (λ u. not (u == 0)) units.now }
{
    units.iter().all(|unit| *unit != 0)
}

// Returns the code units of bytes.
fn units_of(alloc: Global, bytes: &[u8], endian: Endian) -> Result<Vec<u16>, AllocError>
    ensures { IfOk result (λ units. units.items
        ≡ units_at endian 0 (length bytes.now / 2) bytes.now) }
{
    let count = bytes.len() / 2;
    let entries = Source::new(bytes).entries::<u16>(0, count as u64, endian);
    let mut units = Vec::new(alloc);
    for index in 0..count {
        units.push(entries.read(index, &mut Steps::new()))?;
    }
    Ok(units)
}
