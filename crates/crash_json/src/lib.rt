//! Writes a crash as one line of JSON, in the schema of `minidump-stackwalk --json` of
//! rust-minidump.
//!
//! [`json_of`] makes the line of a [`Crash`], [`crash_json`] that of the bytes of a minidump, and
//! [`error_json`] that of a file that is none, so that every file has a line. No line feed follows.
//!
//! # The members
//!
//! A line is one object. `docs/JSON.md` lists its members, and says what each has. All are always
//! there, but for `path` if the caller has none, and for what needs symbols if there are none.
//! [`JsonLimits`] bounds the frames of a thread, and asks for the environment. If the text of the
//! soft errors is JSON that nests at most 127 deep, `soft_errors` is its value, and else the text.
//!
//! # What is proved
//!
//! - The text is the tokens of the value that the definition `json_of` has for the crash, with
//!   nothing between them. Read by the grammar of `json` it is that value, and it is UTF-8, whatever
//!   the dump says: [`json_of`].
//! - The same of the bytes of a file, by the definition `crash_in` of the crash, and the error is
//!   that of [`minidump::Minidump::read`], or `OutOfMemory`: [`crash_json`].
//! - The line of a file that is no dump reads as its path and its status: [`error_json`].
//!
//! What isn't: that no byte of the text is a line feed, which holds since the toolchain's writer escapes
//! control characters.
//!
//! The text is whole in memory.
#![tactic(auto)]

ghost use Rattle.std.specs.Prelude.{◌≡◌, ⊤, IfOk, None, Some};
ghost use Rattle.std.specs.Option.{option_copied, option_map};
ghost use Rattle.std.specs.Str.{IsUtf8};
ghost use Rattle.json.specs.Json.{document};
ghost use Rattle.minidump.specs.Below.Contexts.Context.{map_ok};
ghost use Rattle.minidump.specs.Below.Format.Answer.{Gives};
ghost use Rattle.crash.specs.Crash.{crash_in, crash_of};
ghost use Rattle.crash_symbols.specs.Shown.{symbolized_of};
ghost use Rattle.crash_json.specs.Report.{error_json, error_text, json_of, text_of};

mod cause;
mod crashpad;
mod dump;
mod frames;
mod modules;
mod point;
mod records;
mod report;
mod system;
mod threads;
mod tree;

use crash::Crash;
use crash_symbols::Symbolized;
use json::Writer;
use minidump::{CodeNames, Error};
use report::Report;
use std::alloc::{AllocError, Global};
use tree::{Members, ToJson, members};

/// How much of a crash is written.
#[derive(Clone, Copy, PartialEq, Eq)]
pub struct JsonLimits {
    /// The most frames of a thread that are written, candidates included. With 0 the registers of
    /// the thread that crashed are left out, too: its first frame has them.
    pub frames: usize,
    /// Whether the variables of the environment are written. They may hold secrets, such as
    /// passwords.
    pub environment: bool,
}

/// Makes the JSON text of the crash of a minidump, whose bytes are `bytes`. The names of codes are
/// those of `names`, and at most `scan` words of each stack are taken for candidates. `path` is
/// written as it is.
///
/// Returns the error of [`minidump::Minidump::read`], else `OutOfMemory` if an allocation fails.
pub fn crash_json(
    alloc: Global,
    path: Option<&str>,
    bytes: &[u8],
    names: &CodeNames<'_>,
    scan: usize,
    limits: &JsonLimits,
) -> Result<Vec<u8>, Error>
    ensures text { Gives (λ text. text.items) ⊤ result
        (map_ok (text_of limits.now (option_copied path.entry) None)
        (crash_in bytes.now names.now scan)) }
    ensures reads { Gives (λ text. document text.items) ⊤ result
        (map_ok (λ c. Some (json_of limits.now (option_copied path.entry) None c))
        (crash_in bytes.now names.now scan)) }
    ensures utf8 { IfOk result (λ text. IsUtf8 text.items) }
{
    let crash = Crash::read(alloc, bytes, names, scan)?;
    let text = json_of(alloc, path, &crash, limits, None);
    crash.close();
    Ok(text?)
}

/// Makes the JSON text of a crash. With symbols the frames of a thread are those of its backtrace,
/// with the names that symbols give, and without symbols those of its walk by frame pointers.
/// `path` is written as it is.
///
/// Returns `AllocError` if an allocation fails.
pub fn json_of<'l>(
    alloc: Global,
    path: Option<&'l str>,
    crash: &'l Crash<'_>,
    limits: &JsonLimits,
    symbols: Option<&'l Symbolized<'_, '_>>,
) -> Result<Vec<u8>, AllocError>
    ensures text { IfOk result (λ text. text.items ≡ text_of limits.now (option_copied path.entry)
        (option_map symbolized_of (option_copied symbols.entry)) (crash_of crash.now)) }
    ensures reads { IfOk result (λ text. document text.items ≡ Some (json_of limits.now
        (option_copied path.entry) (option_map symbolized_of (option_copied symbols.entry))
        (crash_of crash.now))) }
    ensures utf8 { IfOk result (λ text. IsUtf8 text.items) }
{
    let report = Report {
        path,
        crash,
        limits: *limits,
        symbols,
    };
    let mut out = Writer::new(Vec::new(alloc));
    report.put(&mut out, alloc)?;
    Ok(out.into_inner())
}

/// Makes the line of a file that is no minidump: its path, and a word for why.
///
/// Returns `AllocError` if an allocation fails.
#[tactic(auto, unfolding(crate::specs::Report::error_json))]
pub fn error_json(alloc: Global, path: &str, status: &str) -> Result<Vec<u8>, AllocError>
    ensures text { IfOk result
        (λ text. document text.items ≡ Some (error_json path.now status.now)) }
    ensures compact { IfOk result (λ text. text.items ≡ error_text path.now status.now) }
    ensures utf8 { IfOk result (λ text. IsUtf8 text.items) }
{
    let mut out = Writer::new(Vec::new(alloc));
    members! { "path": path, "status": status, }.put_object(&mut out, alloc)?;
    Ok(out.into_inner())
}
