//! Texts in a caller's buffer.
ghost use Rattle.std.specs.Prelude.{◌≡◌, ⊤, [], IfErr, IfOk, Ok, length};
ghost use Rattle.minidump.specs.Below.Format.Answer.{GivesError};
ghost use Rattle.minidump_c.specs.Status.{Ends, EndsNamed, IsNamed, IsNamedError, IsTextError};
ghost use Rattle.minidump_c.specs.Text.{IsDirectoryOf, IsFilled, IsReportOf, buffer_with, json_in};
ghost use Rattle.minidump_c.specs.Text.{limits_by};

use crate::status::{CallError, status_of};
use crash_json::{JsonLimits, crash_json};
use minidump::{CodeNames, Error, Minidump, Told, write_report};
use minidump_names::NameTable;
use std::alloc::Global;

/// Writes the text of the header and the directory to the front of `out`, as far as it fits, and
/// the size of the whole text to `size`.
#[unsafe(no_mangle)]
pub extern "C" fn minidump_dir(alloc: Global, bytes: &[u8], out: &mut [u8], size: &mut usize) -> u32
    ensures { Ends result (IsFilled (IsDirectoryOf bytes.now) out.old out.new size.new)
        (IsTextError bytes.now) ((out.new ≡ out.old) × (size.new ≡ size.old)) }
{
    match dir_text(alloc, bytes) {
        Ok(text) => {
            *size = fill(text.as_slice(), out);
            0
        }
        Err(error) => status_of(error),
    }
}

/// Writes the report on a minidump to the front of `out`, as far as it fits, and the size of the
/// whole report to `size`. Codes have no names.
#[unsafe(no_mangle)]
pub extern "C" fn minidump_report(
    alloc: Global,
    bytes: &[u8],
    out: &mut [u8],
    size: &mut usize,
) -> u32
    ensures { Ends result (IsFilled (IsReportOf bytes.now []) out.old out.new size.new)
        (IsTextError bytes.now) ((out.new ≡ out.old) × (size.new ≡ size.old)) }
{
    match report(alloc, bytes, &CodeNames::empty()) {
        Ok(text) => {
            *size = fill(text.as_slice(), out);
            0
        }
        Err(error) => status_of(error),
    }
}

/// Writes the report, as [`minidump_report`] does, with the names of codes that the text `names`
/// lists.
#[unsafe(no_mangle)]
pub extern "C" fn minidump_report_named(
    alloc: Global,
    bytes: &[u8],
    names: &[u8],
    out: &mut [u8],
    size: &mut usize,
    line: &mut u64,
) -> u32
    ensures { EndsNamed result names.now line.old line.new
        (λ lists. IsFilled (IsReportOf bytes.now lists) out.old out.new size.new)
        (λ _. IsTextError bytes.now) ((out.new ≡ out.old) × (size.new ≡ size.old)) }
{
    match named_report(alloc, bytes, names) {
        Ok(text) => {
            *size = fill(text.as_slice(), out);
            0
        }
        Err(error) => error.tell(line),
    }
}

/// Reads the crash of a minidump, with the names of codes that the text `names` lists and at most
/// `scan` candidates, and writes its JSON text to the front of `out`, as far as it fits, and the
/// size of the whole text to `size`. The text has no path, at most `frames` frames of a thread, and
/// the variables of the environment unless `environment` is 0. With 0 frames it lacks the registers
/// of the thread that crashed, too.
#[unsafe(no_mangle)]
pub extern "C" fn minidump_crash_json(
    alloc: Global,
    bytes: &[u8],
    names: &[u8],
    scan: usize,
    frames: usize,
    environment: u8,
    out: &mut [u8],
    size: &mut usize,
    line: &mut u64,
) -> u32
    ensures { EndsNamed result names.now line.old line.new
        (λ lists. IsFilled
        (λ text. json_in bytes.now scan (limits_by frames environment) lists ≡ Ok text)
        out.old out.new size.new)
        (λ lists e. GivesError ⊤ e (json_in bytes.now scan (limits_by frames environment) lists))
        ((out.new ≡ out.old) × (size.new ≡ size.old)) }
{
    let limits = JsonLimits {
        frames,
        environment: environment != 0,
    };
    match named_json(alloc, bytes, names, scan, &limits) {
        Ok(text) => {
            *size = fill(text.as_slice(), out);
            0
        }
        Err(error) => error.tell(line),
    }
}

// Makes the text of the header and the directory.
fn dir_text(alloc: Global, bytes: &[u8]) -> Result<Vec<u8>, Error>
    ensures text { IfOk result (λ text. IsDirectoryOf bytes.now text.items) }
    ensures error { IfErr result (IsTextError bytes.now) }
{
    let dump = Minidump::read(alloc, bytes)?;
    let mut out = Told::new(Vec::new(alloc));
    match dump.print(alloc, &mut out) {
        Ok(()) => Ok(out.into_device()),
        Err(_) => Err(Error::OutOfMemory),
    }
}

// Makes the report with the names of a text.
fn named_report(alloc: Global, bytes: &[u8], names: &[u8]) -> Result<Vec<u8>, CallError>
    ensures text { IfOk result (λ text. IsNamed names.now (IsReportOf bytes.now) text.items) }
    ensures error { IfErr result (IsNamedError names.now (λ _. IsTextError bytes.now)) }
{
    let table = NameTable::read(alloc, names)?;
    let lists = table.lists(alloc)?;
    Ok(report(alloc, bytes, &lists.code_names())?)
}

// Makes the JSON text with the names of a text.
fn named_json(
    alloc: Global,
    bytes: &[u8],
    names: &[u8],
    scan: usize,
    limits: &JsonLimits,
) -> Result<Vec<u8>, CallError>
    ensures text { IfOk result (λ text. IsNamed names.now
        (λ lists text. json_in bytes.now scan limits.now lists ≡ Ok text) text.items) }
    ensures error { IfErr result (IsNamedError names.now
        (λ lists e. GivesError ⊤ e (json_in bytes.now scan limits.now lists))) }
{
    let table = NameTable::read(alloc, names)?;
    let lists = table.lists(alloc)?;
    Ok(crash_json(alloc, None, bytes, &lists.code_names(), scan, limits)?)
}

// Makes the report. A vector fails to take bytes only where memory runs out.
fn report(alloc: Global, bytes: &[u8], names: &CodeNames<'_>) -> Result<Vec<u8>, Error>
    ensures text { IfOk result (λ text. IsReportOf bytes.now names.now text.items) }
    ensures error { IfErr result (IsTextError bytes.now) }
{
    let mut out = Told::new(Vec::new(alloc));
    match write_report(alloc, bytes, names, &mut out) {
        Ok(()) => Ok(out.into_device()),
        Err(_) if out.failed() => Err(Error::OutOfMemory),
        Err(error) => Err(error),
    }
}

// Copies items to the front of a buffer, as far as they fit, and returns their number.
pub(crate) fn fill<T: Copy>(items: &[T], out: &mut [T]) -> usize
    ensures count { result ≡ length items.now }
    ensures contents { out.new ≡ buffer_with items.now out.old }
{
    let n = items.len().min(out.len());
    out[..n].copy_from_slice(&items[..n]);
    items.len()
}
