ghost use Rattle.std.specs.Prelude.{◌≡◌, ◌+◌, ◌≤◌, ⊤, Some, string_bytes, IfOk};
ghost use Rattle.minidump_bytes.specs.Source.{bytes_of};
ghost use Rattle.minidump_bytes.specs.Steps.{after};
ghost use Rattle.minidump_format.specs.Answer.{Gives};
ghost use Rattle.minidump_records.specs.MacCrashInfo.Record.{end_of_text, by_version, fixed_part, item_reads, text_at};
ghost use Rattle.minidump_records.specs.MacCrashInfo.Record.{texts_4, texts_5, texts_in, texts_of};
ghost use Rattle.minidump_records.specs.MacCrashInfo.{record_after_version, located_record, located_version, record_if};
ghost use Rattle.minidump_records.specs.MacCrashInfo.{stated_version};

use super::RawMacCrashInfo;
use minidump_bytes::{Endian, Record, Source, Steps};
use minidump_format::Error;
use minidump_format::format::{
    MINIDUMP_LOCATION_DESCRIPTOR, MINIDUMP_MAC_CRASH_INFO_RECORD, MINIDUMP_MAC_CRASH_INFO_RECORD_4,
    MINIDUMP_MAC_CRASH_INFO_RECORD_5, MINIDUMP_MAC_CRASH_INFO_RECORD_STRINGS,
    MINIDUMP_MAC_CRASH_INFO_RECORD_STRINGS_4, MINIDUMP_MAC_CRASH_INFO_RECORD_STRINGS_5,
};
use std::alloc::{AllocError, Global};

// The version of a record, and the record, or `None` for version 0.
#[derive(Drop)]
pub(super) struct VersionAndRecord {
    pub(super) version: u64,
    pub(super) record: Option<RawMacCrashInfo>,
}

// The texts of a record of version 4 and above.
#[derive(Drop)]
pub(super) struct Texts {
    module_path: String,
    message: String,
    signature_string: String,
    backtrace: String,
    message2: String,
}

impl Texts {
    pub(super) fn strings_4(self) -> MINIDUMP_MAC_CRASH_INFO_RECORD_STRINGS_4
        ensures { texts_4 result ≡ texts_of self }
    {
        MINIDUMP_MAC_CRASH_INFO_RECORD_STRINGS_4 {
            module_path: self.module_path,
            message: self.message,
            signature_string: self.signature_string,
            backtrace: self.backtrace,
            message2: self.message2,
        }
    }

    pub(super) fn strings_5(self) -> MINIDUMP_MAC_CRASH_INFO_RECORD_STRINGS_5
        ensures { texts_5 result ≡ texts_of self }
    {
        MINIDUMP_MAC_CRASH_INFO_RECORD_STRINGS_5 {
            module_path: self.module_path,
            message: self.message,
            signature_string: self.signature_string,
            backtrace: self.backtrace,
            message2: self.message2,
        }
    }
}

// Copies five texts.
pub(super) fn copy_texts<'t>(
    alloc: Global,
    module_path: &'t str,
    message: &'t str,
    signature_string: &'t str,
    backtrace: &'t str,
    message2: &'t str,
) -> Result<Texts, AllocError>
    ensures { IfOk result (λ copy. texts_of copy ≡ record {
      module_path = module_path.now;
      message = message.now;
      signature_string = signature_string.now;
      backtrace = backtrace.now;
      message2 = message2.now;
    }) }
{
    Ok(Texts {
        module_path: String::from_str(alloc, module_path)?,
        message: String::from_str(alloc, message)?,
        signature_string: String::from_str(alloc, signature_string)?,
        backtrace: String::from_str(alloc, backtrace)?,
        message2: String::from_str(alloc, message2)?,
    })
}

// Reads the record at a location. `before` is the version of the record before it, which it has to
// have too.
#[tactic(auto, unfolding(crate::specs::MacCrashInfo::located_record, crate::specs::MacCrashInfo::located_version))]
pub(super) fn read_located(
    alloc: Global,
    location: &MINIDUMP_LOCATION_DESCRIPTOR,
    start: u32,
    before: Option<u64>,
    all: Source<'_>,
    endian: Endian,
    steps: &mut Steps,
) -> Result<VersionAndRecord, Error>
    ensures means { Gives (λ v. record_if v.record) ⊤ result
        (located_record endian (bytes_of all.entry) start before location.now) }
    ensures version { IfOk result
        (λ v. Some v.version ≡ located_version endian (bytes_of all.entry) location.now) }
    ensures within { steps.new ≤ steps.old + 8 }
    ensures grows { steps.old ≤ steps.new }
    ensures at_least { IfOk result
        (λ v. after steps.old (2 + item_reads (record_if v.record)) ≤ steps.new) }
{
    let bytes = location
        .bytes_in(all, steps)
        .ok_or(Error::StreamReadFailure)?;
    read_after_version(alloc, Source::new(bytes), start, before, endian, steps)
}

// Reads the record of these bytes. `before` is the version of the record before it.
fn read_after_version(
    alloc: Global,
    bytes: Source<'_>,
    start: u32,
    before: Option<u64>,
    endian: Endian,
    steps: &mut Steps,
) -> Result<VersionAndRecord, Error>
    ensures means { Gives (λ v. record_if v.record) ⊤ result
        (record_after_version endian start before (bytes_of bytes.entry)) }
    ensures version { IfOk result
        (λ v. Some v.version ≡ stated_version endian (bytes_of bytes.entry)) }
    ensures within { steps.new ≤ steps.old + 7 }
    ensures grows { steps.old ≤ steps.new }
    ensures at_least { IfOk result
        (λ v. after steps.old (1 + item_reads (record_if v.record)) ≤ steps.new) }
{
    let head: MINIDUMP_MAC_CRASH_INFO_RECORD = bytes
        .record(0, endian, steps)
        .ok_or(Error::StreamReadFailure)?;
    if let Some(before) = before {
        if head.version != before {
            return Err(Error::VersionMismatch);
        }
    }
    let version = head.version;
    let record = read_by_version(alloc, head, start, bytes, endian, steps)?;
    Ok(VersionAndRecord { version, record })
}

// Reads the record of a head by its version. The texts begin at `start`.
fn read_by_version(
    alloc: Global,
    head: MINIDUMP_MAC_CRASH_INFO_RECORD,
    start: u32,
    bytes: Source<'_>,
    endian: Endian,
    steps: &mut Steps,
) -> Result<Option<RawMacCrashInfo>, Error>
    ensures means { Gives record_if ⊤ result (by_version endian start head (bytes_of bytes.entry)) }
    ensures within { steps.new ≤ steps.old + 6 }
    ensures grows { steps.old ≤ steps.new }
    ensures at_least { IfOk result (λ r. after steps.old (item_reads (record_if r)) ≤ steps.new) }
{
    match head.version {
        0 => Ok(None),
        1..=3 => {
            if start < 16 {
                return Err(Error::StreamReadFailure);
            }
            let texts = MINIDUMP_MAC_CRASH_INFO_RECORD_STRINGS {};
            Ok(Some(RawMacCrashInfo::V1(head, texts)))
        }
        4 => {
            let raw: MINIDUMP_MAC_CRASH_INFO_RECORD_4 = fixed_part(start, bytes, endian, steps)?;
            let texts = read_texts(alloc, start, bytes, steps)?;
            Ok(Some(RawMacCrashInfo::V4(raw, texts.strings_4())))
        }
        _ => {
            let raw: MINIDUMP_MAC_CRASH_INFO_RECORD_5 = fixed_part(start, bytes, endian, steps)?;
            let texts = read_texts(alloc, start, bytes, steps)?;
            Ok(Some(RawMacCrashInfo::V5(raw, texts.strings_5())))
        }
    }
}

// Reads the fixed part of a record, which has to end at `start` or before.
#[tactic(auto, unfolding(crate::specs::MacCrashInfo::Record::fixed_part))]
fn fixed_part<R: Record>(
    start: u32,
    bytes: Source<'_>,
    endian: Endian,
    steps: &mut Steps,
) -> Result<R, Error>
    ensures means { result ≡ fixed_part R.layout endian start (bytes_of bytes.entry) }
    ensures within { steps.new ≤ steps.old + 1 }
    ensures grows { steps.old ≤ steps.new }
    ensures at_least { IfOk result (λ _. after steps.old 1 ≤ steps.new) }
{
    if (start as usize) < R::SIZE {
        return Err(Error::StreamReadFailure);
    }
    bytes
        .record(0, endian, steps)
        .ok_or(Error::StreamReadFailure)
}

// Reads the five texts, of which the first begins at `start`.
#[tactic(auto, unfolding(crate::specs::MacCrashInfo::Record::texts_in))]
fn read_texts(
    alloc: Global,
    start: u32,
    bytes: Source<'_>,
    steps: &mut Steps,
) -> Result<Texts, Error>
    ensures means { Gives texts_of ⊤ result (texts_in start (bytes_of bytes.entry)) }
    ensures within { steps.new ≤ steps.old + 5 }
    ensures grows { steps.old ≤ steps.new }
    ensures at_least { IfOk result (λ _. after steps.old 5 ≤ steps.new) }
{
    let mut offset = start as u64;
    let module_path = next_text(alloc, bytes, &mut offset, steps)?;
    let message = next_text(alloc, bytes, &mut offset, steps)?;
    let signature_string = next_text(alloc, bytes, &mut offset, steps)?;
    let backtrace = next_text(alloc, bytes, &mut offset, steps)?;
    let message2 = next_text(alloc, bytes, &mut offset, steps)?;
    Ok(Texts {
        module_path,
        message,
        signature_string,
        backtrace,
        message2,
    })
}

// Reads the text at `offset`, and moves `offset` past the text and its NUL.
fn next_text(
    alloc: Global,
    bytes: Source<'_>,
    offset: &mut u64,
    steps: &mut Steps,
) -> Result<String, Error>
    ensures means { Gives string_bytes ⊤ result (text_at offset.old (bytes_of bytes.entry)) }
    ensures moves { IfOk result (λ text. offset.new ≡ end_of_text offset.old (string_bytes text)) }
    ensures step { steps.new ≡ after steps.old 1 }
{
    let text = bytes
        .cstring(*offset, steps)
        .ok_or(Error::StreamReadFailure)?;
    *offset = *offset + text.len() as u64 + 1;
    Ok(String::from_str(alloc, text)?)
}
