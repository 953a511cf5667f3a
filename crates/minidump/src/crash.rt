ghost use Rattle.std.specs.Prelude.{◌≡◌, ◌++◌, IfOk, OnOk, Some};
ghost use Rattle.minidump_format.specs.Print.{Prints};
ghost use Rattle.minidump.specs.Crash.{crash_lines, crash_text, last_error_line, last_error_of, number_line};
ghost use Rattle.minidump.specs.Crash.{reason_line, system_lines, values_lines, values_text};
ghost use Rattle.minidump.specs.Dump.{dump_system};
ghost use Rattle.minidump.specs.DumpValue.{dump_of};
ghost use Rattle.minidump.specs.Exception.{exception_of};
ghost use Rattle.minidump.specs.Shared.{AreShared};

use crate::shared::{SharedStreams, as_found};
use crate::{Minidump, MinidumpException};
use minidump_bytes::{Piece, Told, push_pieces};
use minidump_format::{Error, Pushed, no_memory, print_item, put_text};
use minidump_reason::{CodeNames, CrashReason};
use minidump_system::Cpu;
use std::alloc::{AllocError, Global};
use std::io::Write;

// Prints where and why the process crashed, or nothing if no exception can be read.
#[tactic(auto, unfolding(crate::specs::Crash::crash_text))]
pub(crate) fn print_crash<W: Write>(
    dump: &Minidump<'_>,
    streams: &SharedStreams<'_>,
    names: &CodeNames<'_>,
    alloc: Global,
    f: &mut Told<W>,
) -> Result<(), Error>
    requires { AreShared (dump_of dump.now) streams.now }
    ensures { Prints W.contents f.old f.new (crash_text names.now (dump_of dump.now)) result }
{
    match as_found(&streams.exception) {
        Ok(Some(exception)) => print_exception(exception, dump, streams, names, alloc, f),
        Ok(None) => put_text(f, ""),
        Err(_) => Err(no_memory(f)),
    }
}

fn print_exception<W: Write>(
    exception: &MinidumpException<'_>,
    dump: &Minidump<'_>,
    streams: &SharedStreams<'_>,
    names: &CodeNames<'_>,
    alloc: Global,
    f: &mut Told<W>,
) -> Result<(), Error>
    requires { AreShared (dump_of dump.now) streams.now }
    ensures { Prints W.contents f.old f.new
        (crash_lines names.now (dump_of dump.now) (Some (exception_of exception.now))) result }
{
    let thread_id = exception.thread_id;
    match crash_values(exception, dump, streams, names) {
        Ok(values) => {
            let crash = Crash {
                thread_id,
                values,
                names,
            };
            print_item(&crash, alloc, f)
        }
        Err(_) => Err(no_memory(f)),
    }
}

// Returns what of a crash takes the system information, or `None` if there is none. The only error
// is `OutOfMemory`.
fn crash_values(
    exception: &MinidumpException<'_>,
    dump: &Minidump<'_>,
    streams: &SharedStreams<'_>,
    names: &CodeNames<'_>,
) -> Result<Option<CrashValues>, Error>
    requires { AreShared (dump_of dump.now) streams.now }
    ensures { IfOk result (λ values. values_lines names.now values
        ≡ system_lines names.now (dump_of dump.now) (exception_of exception.now)
        (dump_system (dump_of dump.now))) }
{
    let Some(system) = dump.system_info() else {
        return Ok(None);
    };
    let last_error = last_error(dump, streams, system.cpu, exception.thread_id, names)?;
    Ok(Some(CrashValues {
        address: exception.get_crash_address(system.os, system.cpu),
        reason: exception.get_crash_reason(system.os, system.cpu, names),
        last_error,
    }))
}

// Returns the last error of the last thread with an id. The only error is `OutOfMemory`.
fn last_error(
    dump: &Minidump<'_>,
    streams: &SharedStreams<'_>,
    cpu: Cpu,
    id: u32,
    names: &CodeNames<'_>,
) -> Result<Option<CrashReason>, Error>
    requires { AreShared (dump_of dump.now) streams.now }
    ensures { IfOk result (λ error. error ≡ last_error_of names.now (dump_of dump.now) cpu id) }
{
    let Some(list) = as_found(&streams.threads)? else {
        return Ok(None);
    };
    let Some(thread) = list.get_thread(id) else {
        return Ok(None);
    };
    let Some(memory) = streams.get_memory()? else {
        return Ok(None);
    };
    Ok(thread.last_error(cpu, memory, names))
}

// The address and the reason of a crash, and the last error of its thread.
#[derive(Clone, Copy)]
pub(crate) struct CrashValues {
    pub(crate) address: u64,
    pub(crate) reason: CrashReason,
    pub(crate) last_error: Option<CrashReason>,
}

// What is printed of a crash.
#[derive(Drop)]
struct Crash<'n> {
    thread_id: u32,
    values: Option<CrashValues>,
    names: &'n CodeNames<'n>,
}

impl<'n> Pushed for Crash<'n> {
    ghost use Rattle.std.specs.Prelude.{codes};
    ghost use Rattle.minidump.specs.Crash.{number_line, values_lines};

    ghost text = { λ c. number_line (codes "crash_thread = ") c.thread_id
        ++ values_lines c.names.now c.values };

    fn push(&self, out: &mut Vec<u8>) -> Result<(), AllocError> {
        push_number(out, "crash_thread = ", self.thread_id as u64)?;
        match &self.values {
            Some(values) => push_values(out, values, self.names),
            None => Ok(()),
        }
    }
}

fn push_values(
    out: &mut Vec<u8>,
    values: &CrashValues,
    names: &CodeNames<'_>,
) -> Result<(), AllocError>
    ensures { OnOk result (out.new.items ≡ out.old.items
        ++ values_text names.now values.now.address values.now.reason values.now.last_error) }
{
    push_number(out, "crash_address = ", values.address)?;
    push_reason(out, "crash_reason = ", &values.reason, names)?;
    push_last_error(out, &values.last_error, names)
}

fn push_last_error(
    out: &mut Vec<u8>,
    found: &Option<CrashReason>,
    names: &CodeNames<'_>,
) -> Result<(), AllocError>
    ensures { OnOk result (out.new.items ≡ out.old.items ++ last_error_line names.now found.now) }
{
    match found {
        Some(error) => push_reason(out, "last_error = ", error, names),
        None => Ok(()),
    }
}

#[rattlefmt::skip]
#[tactic(auto, unfolding(crate::specs::Crash::number_line))]
fn push_number(out: &mut Vec<u8>, words: &'static str, n: u64) -> Result<(), AllocError>
    ensures { OnOk result (out.new.items ≡ out.old.items ++ number_line words.now n) }
{
    push_pieces(out, &[Piece::Words(words), Piece::Hex(n), Piece::Words("\n")])
}

#[tactic(auto, unfolding(crate::specs::Crash::reason_line))]
fn push_reason(
    out: &mut Vec<u8>,
    words: &'static str,
    reason: &CrashReason,
    names: &CodeNames<'_>,
) -> Result<(), AllocError>
    ensures { OnOk result (out.new.items ≡ out.old.items
        ++ reason_line words.now names.now reason.now) }
{
    out.extend_from_slice(words.as_bytes())?;
    match reason.text(*out.allocator(), names) {
        Ok(text) => push_pieces(out, &[Piece::Words(text.as_str()), Piece::Words("\n")]),
        Err(_) => Err(AllocError),
    }
}
