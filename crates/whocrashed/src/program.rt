ghost use Rattle.std.specs.Prelude.{◌≡◌, ◌≢◌, ◌⊎◌, ◌<◌, ℕ, IfErr, IfNone, IfOk, IsSome, List};
ghost use Rattle.std.specs.Prelude.{[], None, OnErr, OnOk, OnSome, map, take};
ghost use Rattle.std.specs.IoError.{error_kind};
ghost use Rattle.clap.specs.Words.{kind_of};
ghost use Rattle.whocrashed_inputs.specs.Input.{asked_of};
ghost use Rattle.whocrashed.specs.Output.{Gains, GainsBy, Writes, failure_of};
ghost use Rattle.whocrashed.specs.Run.{AreReports, IsListOf, IsOfDumps, IsOfOptions, IsRunOf};
ghost use Rattle.whocrashed.specs.Run.{IsRunBy, MayHave};
ghost use Rattle.whocrashed.specs.Status.{status_after, status_of_kind, status_without};

use crate::complain::{complain, complain_in_any_case, say};
use crate::names::names_text;
use crate::output::{Output, OutputFailed, Stopped};
use crate::report::Reporter;
use clap::Error;
use clap::error::ErrorKind;
use crash_text::push_line;
use minidump::text::Piece;
use minidump_names::NameTable;
use std::alloc::AllocError;
use std::io;
use std::io::Write;
use whocrashed_inputs::{Dump, Files, Options, ReadDumps, SymbolCache, dumps_in};

/// Runs the program with its arguments, without its own name, and returns the status: 0; 1 where a
/// dump, the list of paths, names of codes or the output failed, where something of a dump is there
/// and can't be read, and where memory ran out; 2 for arguments that are malformed or refused. A pipe
/// that is closed ends it quietly.
pub(crate) fn run<O: Write>(rt: &HostRuntime, words: &[String], out: &mut Output<O>) -> u8
    requires { failure_of out.old ≡ None }
    ensures { IsRunOf O.contents out.old out.new words.now result }
{
    let read = Options::read(rt.alloc(), words);
    let limit = match &read {
        Ok(options) => options.limit,
        Err(_) => 0,
    };
    run_by(rt, &read, &Files { rt, limit }, out)
}

// Runs the program by what reading its arguments returned, where `source` reads dumps.
fn run_by<S: ReadDumps, O: Write>(
    rt: &HostRuntime,
    read: &Result<Options<'_>, Error>,
    source: &S,
    out: &mut Output<O>,
) -> u8
    requires { failure_of out.old ≡ None }
    ensures { IsRunBy O.contents out.old out.new (S.reads source.now) read.now result }
{
    let status = match read {
        Ok(options) => obey(rt, options, source, out),
        Err(error) => answer(rt, error, out),
    };
    match (status, out.failure()) {
        (Ok(status), None) => status,
        (Ok(status), Some(error)) => end(rt, status, &error),
        (Err(error), _) => {
            complain_in_any_case(rt, "whocrashed", &error);
            1
        }
    }
}

// Returns the status of a run whose output failed, if `status` is that of the dumps before. Says
// why it failed, unless it was closed.
fn end(rt: &HostRuntime, status: u8, error: &io::Error) -> u8
    ensures { result ≡ status_after (error_kind error.now) status }
{
    match error.kind() {
        io::ErrorKind::BrokenPipe => status,
        _ => {
            complain_in_any_case(rt, "whocrashed", error);
            1
        }
    }
}

/// Prints why the arguments can't be had, and returns the status.
pub(crate) fn complain_of_arguments(rt: &HostRuntime, error: &io::Error) -> u8
    ensures { result ≡ status_without (error_kind error.now) }
{
    match error.kind() {
        io::ErrorKind::OutOfMemory => {
            complain_in_any_case(rt, "whocrashed", error);
            1
        }
        _ => {
            let _ = complain(rt, "whocrashed", &"an argument isn't UTF-8");
            2
        }
    }
}

// Prints the help or the version that was asked for, or why the arguments are malformed or refused.
// Returns the status. Running out of memory is an error.
fn answer<O: Write>(rt: &HostRuntime, error: &Error, out: &mut Output<O>) -> io::Result<u8>
    ensures status { IfOk result (λ status. status ≡ status_of_kind (kind_of error.now)) }
    ensures printed { IfOk result (λ status. IfNone (failure_of out.new)
        (Gains O.contents out.old out.new (λ text. status ≢ 0 → text ≡ []))) }
    ensures nothing { OnErr result (Writes O.contents out.old out.new []) }
{
    let mut text = String::new(rt.alloc());
    for line in format!(in rt.alloc(); "{error}")?.lines() {
        push_line(&mut text, &[Piece::Words(line)])?;
    }
    if error.use_stderr() {
        say(rt, text.as_str());
    } else {
        let _ = out.put(text.as_bytes());
    }
    match error.kind() {
        ErrorKind::DisplayHelp | ErrorKind::DisplayVersion => Ok(0),
        ErrorKind::OutOfMemory => Ok(1),
        _ => Ok(2),
    }
}

// Reports on the dumps, with the names that the options ask for. Returns the status: after a
// failure of the output that of the dumps before. Running out of memory is an error.
fn obey<'o, S: ReadDumps, O: Write>(
    rt: &'o HostRuntime,
    options: &'o Options<'_>,
    source: &S,
    out: &mut Output<O>,
) -> io::Result<u8>
    requires { failure_of out.old ≡ None }
    ensures whole { IfOk result (λ status. IfNone (failure_of out.new) (((status ≡ 1)
        × Writes O.contents out.old out.new []) ⊎ Gains O.contents out.old out.new
        (IsOfOptions (S.reads source.now) (λ dumps. dumps) options.now status))) }
    ensures failed { IfOk result (λ status. OnSome (failure_of out.new) ((count : ℕ)
        × (text : List ℕ)
        × IsOfOptions (S.reads source.now) (take count) options.now status text)) }
    ensures nothing { OnErr result (Writes O.contents out.old out.new []) }
{
    let Some(text) = names_text(rt, options)? else {
        return Ok(1);
    };
    match NameTable::read(rt.alloc(), text.as_bytes()) {
        Ok(table) => {
            let lists = table.lists(rt.alloc())?;
            let names = lists.code_names();
            let reporter = Reporter {
                rt,
                names: &names,
                options,
            };
            let mut worst = 0;
            match report_dumps(&reporter, source, out, &mut worst) {
                Ok(()) => Ok(worst),
                Err(Stopped::NoMemory(error)) => Err(error),
                Err(Stopped::NoOutput) => Ok(worst),
            }
        }
        Err(error) => {
            complain(rt, "names of codes", &error)?;
            Ok(1)
        }
    }
}

// Reports on the dumps of the arguments, and on those of the list on standard input if one is asked
// for. Makes `worst`, which is 0, the greatest of their statuses, and of 1 if the list can't be read
// or is too large. After a failure of the output only the dumps before it count.
fn report_dumps<S: ReadDumps, O: Write>(
    reporter: &Reporter<'_, '_, '_>,
    source: &S,
    out: &mut Output<O>,
    worst: &mut u8,
) -> Result<(), Stopped>
    requires { worst.old ≡ 0 }
    ensures bound { worst.new < 2 }
    ensures all { GainsBy O.contents out.old out.new (λ _. IsOfDumps (S.reads source.now)
        (λ dumps. dumps) reporter.now.names.now reporter.now.options.now worst.new)
        (λ text. text ≡ []) result }
    ensures before { IfErr result (λ why. why ≡ Stopped.NoOutput → (count : ℕ)
        × (text : List ℕ) × IsOfDumps (S.reads source.now) (take count) reporter.now.names.now
        reporter.now.options.now worst.new text) }
{
    let list = list_of(reporter, source, worst)?;
    let dumps = dumps_in(
        reporter.rt.alloc(),
        reporter.options.dumps.as_slice(),
        &list,
    )?;
    match report_each(reporter, source, dumps.as_slice(), out, worst) {
        Ok(()) => Ok(()),
        Err(OutputFailed) => Err(Stopped::NoOutput),
    }
}

// Reads the list of paths on standard input. Returns an empty one if the options ask for none. If
// the list can't be read or is too large, says so, makes `worst` 1 and returns an empty one.
fn list_of<S: ReadDumps>(
    reporter: &Reporter<'_, '_, '_>,
    source: &S,
    worst: &mut u8,
) -> Result<Vec<u8>, AllocError>
    requires { worst.old ≡ 0 }
    ensures bound { worst.new < 2 }
    ensures list { IfOk result (λ list. IsListOf (S.reads source.now)
        reporter.now.options.now.are_listed list.items worst.new) }
{
    if !reporter.options.are_listed {
        return Ok(Vec::new(reporter.rt.alloc()));
    }
    let name = "standard input";
    match source.read_input() {
        Ok(Some(list)) => return Ok(list),
        Ok(None) => complain(reporter.rt, name, &"the list of paths is too large")?,
        Err(error) => complain(reporter.rt, name, &error)?,
    }
    *worst = 1;
    Ok(Vec::new(reporter.rt.alloc()))
}

// Reports on each of the dumps, which `source` reads. Makes `worst` the greatest of their statuses
// and of what it was. After a failure of the output only the dumps before it count.
fn report_each<S: ReadDumps, O: Write>(
    reporter: &Reporter<'_, '_, '_>,
    source: &S,
    dumps: &[Dump<'_>],
    out: &mut Output<O>,
    worst: &mut u8,
) -> Result<(), OutputFailed>
    requires { worst.old < 2 }
    ensures bound { worst.new < 2 }
    ensures all { OnOk result (Gains O.contents out.old out.new (AreReports (MayHave
        (S.reads source.now) reporter.now.names.now reporter.now.options.now) worst.old
        (map asked_of dumps.now) worst.new)) }
    ensures before { OnErr result ((count : ℕ) × (text : List ℕ) × AreReports (MayHave
        (S.reads source.now) reporter.now.names.now reporter.now.options.now) worst.old
        (map asked_of (take count dumps.now)) worst.new text) }
    ensures failed { OnErr result (IsSome (failure_of out.new)) }
{
    let mut cache = SymbolCache::new(reporter.rt, reporter.options);
    for (i, dump) in dumps.iter().enumerate() {
        let status = reporter.report(source, *dump, &mut cache, out)?;
        *worst = (*worst).max(status);
        if reporter.options.shows_progress {
            show_progress(reporter.rt, i, dumps.len());
        }
    }
    Ok(())
}

// Prints how many dumps are done of how many, after about each hundredth part of them and the last
// one. `last` is the index of the dump that was done last.
fn show_progress(rt: &HostRuntime, last: usize, all: usize) {
    let done = last.saturating_add(1);
    if done == all || done % (all / 100 + 1) == 0 {
        let _ = eprintln!(rt; "{done} of {all}");
    }
}
