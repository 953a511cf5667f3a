ghost use Rattle.std.specs.Prelude.{◌≡◌, IfOk, IsOkUnless, OnErr};
ghost use Rattle.std.specs.Option.{option_copied};
ghost use Rattle.minidump_system.specs.OsParts.{unless_empty};
ghost use Rattle.minidump_records.specs.MacCrashInfo.Record.{HasTexts, abort_cause, dialog_mode, if_nonzero};
ghost use Rattle.minidump_records.specs.MacCrashInfo.Record.{mac_record_of, text_of, texts_4, texts_5, thread, version};

use super::record::copy_texts;
use minidump_format::Error;
use minidump_format::format::{
    MINIDUMP_MAC_CRASH_INFO_RECORD, MINIDUMP_MAC_CRASH_INFO_RECORD_4,
    MINIDUMP_MAC_CRASH_INFO_RECORD_5, MINIDUMP_MAC_CRASH_INFO_RECORD_STRINGS,
    MINIDUMP_MAC_CRASH_INFO_RECORD_STRINGS_4, MINIDUMP_MAC_CRASH_INFO_RECORD_STRINGS_5,
};
use std::alloc::{AllocError, Global};

/// A record of the crash information of macOS, with its texts. Before version 4 there are none.
#[derive(Drop)]
pub enum RawMacCrashInfo {
    /// A record of version 1 to 3.
    V1(MINIDUMP_MAC_CRASH_INFO_RECORD, MINIDUMP_MAC_CRASH_INFO_RECORD_STRINGS),
    /// A record of version 4.
    V4(MINIDUMP_MAC_CRASH_INFO_RECORD_4, MINIDUMP_MAC_CRASH_INFO_RECORD_STRINGS_4),
    /// A record of version 5 or above.
    V5(MINIDUMP_MAC_CRASH_INFO_RECORD_5, MINIDUMP_MAC_CRASH_INFO_RECORD_STRINGS_5),
}

// One body for the layouts of version 4 and above. Those of versions 1 to 3 have no such field.
macro_rules! from_version_4 {
    ($record:expr, ($raw:pat, $texts:pat) => $body:expr) => {
        match $record {
            RawMacCrashInfo::V1(_, _) => None,
            RawMacCrashInfo::V4($raw, $texts) => $body,
            RawMacCrashInfo::V5($raw, $texts) => $body,
        }
    };
}

/// The fields. Each is `None` if the version doesn't have it, and if it is 0 or an empty text.
impl RawMacCrashInfo {
    /// Returns the version of the record.
    pub fn version(&self) -> Option<&u64>
        ensures { option_copied result ≡ version (mac_record_of self.now) }
    {
        match self {
            RawMacCrashInfo::V1(raw, _) => if_nonzero(&raw.version),
            RawMacCrashInfo::V4(raw, _) => if_nonzero(&raw.version),
            RawMacCrashInfo::V5(raw, _) => if_nonzero(&raw.version),
        }
    }

    /// Returns the thread that crashed.
    pub fn thread(&self) -> Option<&u64>
        ensures { option_copied result ≡ thread (mac_record_of self.now) }
    {
        from_version_4!(self, (raw, _) => if_nonzero(&raw.thread))
    }

    /// Returns the mode of the dialog that was shown.
    pub fn dialog_mode(&self) -> Option<&u64>
        ensures { option_copied result ≡ dialog_mode (mac_record_of self.now) }
    {
        from_version_4!(self, (raw, _) => if_nonzero(&raw.dialog_mode))
    }

    /// Returns the cause of an abort.
    pub fn abort_cause(&self) -> Option<&u64>
        ensures { option_copied result ≡ abort_cause (mac_record_of self.now) }
    {
        match self {
            RawMacCrashInfo::V5(raw, _) => if_nonzero(&raw.abort_cause),
            _ => None,
        }
    }

    /// Returns the path of the module that the record belongs to.
    pub fn module_path(&self) -> Option<&str>
        ensures { option_copied result ≡ text_of (λ t. t.module_path) (mac_record_of self.now) }
    {
        from_version_4!(self, (_, texts) => unless_empty(texts.module_path.as_str()))
    }

    /// Returns the first message.
    pub fn message(&self) -> Option<&str>
        ensures { option_copied result ≡ text_of (λ t. t.message) (mac_record_of self.now) }
    {
        from_version_4!(self, (_, texts) => unless_empty(texts.message.as_str()))
    }

    /// Returns the signature.
    pub fn signature_string(&self) -> Option<&str>
        ensures { option_copied result
            ≡ text_of (λ t. t.signature_string) (mac_record_of self.now) }
    {
        from_version_4!(self, (_, texts) => unless_empty(texts.signature_string.as_str()))
    }

    /// Returns the backtrace.
    pub fn backtrace(&self) -> Option<&str>
        ensures { option_copied result ≡ text_of (λ t. t.backtrace) (mac_record_of self.now) }
    {
        from_version_4!(self, (_, texts) => unless_empty(texts.backtrace.as_str()))
    }

    /// Returns the second message.
    pub fn message2(&self) -> Option<&str>
        ensures { option_copied result ≡ text_of (λ t. t.message2) (mac_record_of self.now) }
    {
        from_version_4!(self, (_, texts) => unless_empty(texts.message2.as_str()))
    }

    /// Copies the record. The only error is [`Error::OutOfMemory`], and only if its version has
    /// texts.
    pub fn try_clone(&self, alloc: Global) -> Result<RawMacCrashInfo, Error>
        ensures same { IfOk result (λ copy. mac_record_of copy ≡ mac_record_of self.now) }
        ensures memory { IsOkUnless result Error.OutOfMemory }
        ensures some { OnErr result (HasTexts (mac_record_of self.now)) }
    {
        Ok(match self {
            RawMacCrashInfo::V1(raw, _) => {
                RawMacCrashInfo::V1(*raw, MINIDUMP_MAC_CRASH_INFO_RECORD_STRINGS {})
            }
            RawMacCrashInfo::V4(raw, texts) => RawMacCrashInfo::V4(
                *raw,
                copy_strings_4(alloc, texts)?,
            ),
            RawMacCrashInfo::V5(raw, texts) => RawMacCrashInfo::V5(
                *raw,
                copy_strings_5(alloc, texts)?,
            ),
        })
    }
}

// Returns a number, or `None` if it is 0.
fn if_nonzero(n: &u64) -> Option<&u64>
    ensures { option_copied result ≡ if_nonzero n.now }
{
    if *n == 0 { None } else { Some(n) }
}

// Returns a text, or `None` if it is empty.
fn unless_empty(text: &str) -> Option<&str>
    ensures { option_copied result ≡ unless_empty text.now }
{
    if text.len() == 0 { None } else { Some(text) }
}

// Copies the texts of a record of version 4.
fn copy_strings_4(
    alloc: Global,
    texts: &MINIDUMP_MAC_CRASH_INFO_RECORD_STRINGS_4,
) -> Result<MINIDUMP_MAC_CRASH_INFO_RECORD_STRINGS_4, AllocError>
    ensures { IfOk result (λ copy. texts_4 copy ≡ texts_4 texts.now) }
{
    let copy = copy_texts(
        alloc,
        texts.module_path.as_str(),
        texts.message.as_str(),
        texts.signature_string.as_str(),
        texts.backtrace.as_str(),
        texts.message2.as_str(),
    )?;
    Ok(copy.strings_4())
}

// Copies the texts of a record of version 5.
fn copy_strings_5(
    alloc: Global,
    texts: &MINIDUMP_MAC_CRASH_INFO_RECORD_STRINGS_5,
) -> Result<MINIDUMP_MAC_CRASH_INFO_RECORD_STRINGS_5, AllocError>
    ensures { IfOk result (λ copy. texts_5 copy ≡ texts_5 texts.now) }
{
    let copy = copy_texts(
        alloc,
        texts.module_path.as_str(),
        texts.message.as_str(),
        texts.signature_string.as_str(),
        texts.backtrace.as_str(),
        texts.message2.as_str(),
    )?;
    Ok(copy.strings_5())
}
