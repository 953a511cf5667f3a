ghost use Rattle.std.specs.Prelude.{◌≡◌, ◌≢◌, IfErr, IfNone, IfOk, IfSome, IsErrAnd, None, codes};
ghost use Rattle.std.specs.Prelude.{drop, map, string_bytes};
ghost use Rattle.std.specs.IoError.{error_kind};
ghost use Rattle.std.specs.Iterator.{Drains};
ghost use Rattle.std.specs.Option.{option_map};
ghost use Rattle.std.specs.Process.{exit_status};
ghost use Rattle.std.specs.Vec.Iter.{into_iter_steps};
ghost use Rattle.minidump.specs.Below.Format.Print.{Prints};
ghost use Rattle.mdump.specs.Command.{IsCommand};
ghost use Rattle.mdump.specs.Done.{IsAnswered, IsDone, IsRun, IsTold, error_line};
ghost use Rattle.mdump.specs.Done.{subject_of, told_of, usage};

use crate::command::{Command, Task};
use crate::lines::print_lines;
use minidump::text::put_text;
use minidump::{CodeNames, Error, Minidump, OpenPath, Told, read_file, write_report};
use std::alloc::{AllocError, Global};
use std::env::Args;
use std::io;
use std::io::{ErrorKind, Write};
use std::process::ExitCode;

const USAGE: &str = "usage: mdump dir FILE | at FILE HEXADDRESS | report FILE\n";

const VERSION: &str = "mdump 0.27.0+rattle.1\n";

/// Runs the program with its arguments, without its own name, and returns the status.
///
/// - No arguments, or `--help`: writes the usage to `out`. The status is 0.
/// - `--version`: writes the name of the program and its version to `out`. The status is 0.
/// - `dir FILE`: writes the header and the directory of the file to `out`. The status is 0.
/// - `at FILE HEXADDRESS`: writes the region of memory that contains the address to `out`, then the
///   module, and then the region by the memory information or the maps, each as a line. The address
///   is 1 to 16 hexadecimal digits, alone or after `0x`. The status is 0.
/// - `report FILE`: writes the report on the file to `out`, as [`minidump::write_report`] does
///   without names of codes. The status is 0.
/// - An error: writes `FILE: NAME` with its name to `err`, without a file `mdump: NAME`. The status
///   is 1. A failure of `out` is the error `IoError`.
/// - Any other arguments: writes the usage to `err`. The status is 2.
///
/// A failure of `err` does not change the status.
#[tactic(auto, unfolding(crate::specs::Done::IsRun))]
pub fn run<R: OpenPath + AllocGlobal, O: Write, E: Write>(
    rt: &R,
    words: &[String],
    out: &mut Told<O>,
    err: &mut Told<E>,
) -> u8
    ensures { IsRun (R.opens rt.now) R.File.left R.File.failed O.contents E.contents
        (map string_bytes words.now)
        out.old out.new err.old err.new result }
{
    match answer(rt, words, out) {
        Some(Ok(())) => 0,
        Some(Err(error)) => fail_with(subject_of(words), error, err),
        None => bad_arguments(err),
    }
}

/// Runs the program with the arguments of its process, of which the first is its own name, and
/// returns the status. If memory ran out for the arguments, that is the error `OutOfMemory`. Any
/// other error of `args` stands for arguments that are no command.
pub(crate) fn run_arguments<R: OpenPath + AllocGlobal, O: Write, E: Write>(
    rt: &R,
    args: io::Result<Vec<String>>,
    out: &mut Told<O>,
    err: &mut Told<E>,
) -> ExitCode
    ensures ran { IfOk args
        (λ a. IsRun (R.opens rt.now) R.File.left R.File.failed O.contents E.contents
        (drop 1 (map string_bytes a.items)) out.old out.new err.old err.new (exit_status result)) }
    ensures no_memory { IfErr args (λ e. error_kind e ≡ ErrorKind.OutOfMemory
        → (exit_status result ≡ 1) × IsTold E.contents err.old err.new
        (error_line (codes "mdump") Error.OutOfMemory)) }
    ensures no_text { IfErr args (λ e. error_kind e ≢ ErrorKind.OutOfMemory
        → (exit_status result ≡ 2) × IsTold E.contents err.old err.new usage) }
    ensures kept { IfErr args (λ _. out.new ≡ out.old) }
{
    let status = match args {
        Ok(args) => run(rt, args.get(1..).unwrap_or(&[]), out, err),
        Err(error) if error.kind() == ErrorKind::OutOfMemory => {
            fail_with("mdump", Error::OutOfMemory, err)
        }
        // An argument that is not UTF-8 is part of no command.
        Err(_) => bad_arguments(err),
    };
    ExitCode::from(status)
}

/// Returns the arguments of the process, its own name included, or the error if they can't be read.
pub(crate) fn arguments(alloc: Global, args: io::Result<Args>) -> io::Result<Vec<String>>
    ensures all { IfOk args (λ a. IfOk result (λ v. Drains into_iter_steps a v.items)) }
    ensures memory { IfOk args (λ _. IfErr result (λ e. error_kind e ≡ ErrorKind.OutOfMemory)) }
    ensures error { IfErr args (λ e. IsErrAnd result (λ found. found ≡ e)) }
{
    Ok(collect_arguments(alloc, args?)?)
}

// Returns all that an iterator yields.
#[tactic(auto, using(crate::proofs::ProgramLemmas::collect_drains))]
fn collect_arguments(alloc: Global, args: Args) -> Result<Vec<String>, AllocError>
    ensures { IfOk result (λ v. Drains into_iter_steps args v.items) }
{
    args.collect(alloc)
}

// Returns what an error is said of: the path of the command that the words mean, or the program if
// they ask for the usage or the version.
fn subject_of(words: &[String]) -> &str
    ensures { result.now ≡ subject_of (map string_bytes words.now) }
{
    match words {
        [_word, path, ..] => path.as_str(),
        _ => "mdump",
    }
}

// Returns the text that words ask for without a file: the usage or the version.
fn told_of(words: &[String]) -> Option<&'static str>
    ensures { option_map (λ text. text.now) result ≡ told_of (map string_bytes words.now) }
{
    match words {
        [] => Some(USAGE),
        [word] if word.as_str() == "--help" => Some(USAGE),
        [word] if word.as_str() == "--version" => Some(VERSION),
        _ => None,
    }
}

// Does what the words ask for. Returns `None` if they are no command, and ask for neither the usage
// nor the version.
#[tactic(auto, unfolding(crate::specs::Done::IsAnswered))]
fn answer<R: OpenPath + AllocGlobal, O: Write>(
    rt: &R,
    words: &[String],
    out: &mut Told<O>,
) -> Option<Result<(), Error>>
    ensures some { IfSome result (IsAnswered (R.opens rt.now) R.File.left R.File.failed
        O.contents out.old out.new (map string_bytes words.now)) }
    ensures none { IfNone result ((told_of (map string_bytes words.now) ≡ None)
        × ¬ (IsCommand (map string_bytes words.now)) × (out.new ≡ out.old)) }
{
    if let Some(text) = told_of(words) {
        return Some(put_text(out, text));
    }
    let command = Command::parse(words)?;
    Some(obey(rt, command, out))
}

// Obeys a command.
#[tactic(auto, using(crate::proofs::ProgramLemmas::reported))]
fn obey<R: OpenPath + AllocGlobal, O: Write>(
    rt: &R,
    command: Command<'_>,
    out: &mut Told<O>,
) -> Result<(), Error>
    ensures { IsDone (R.opens rt.now) R.File.left R.File.failed O.contents out.old out.new
        command.entry result }
{
    let alloc = rt.alloc();
    let mut bytes = Vec::new(alloc);
    read_file(rt, command.path, &mut bytes)?;
    match command.task {
        Task::Dir => Minidump::read(alloc, &bytes)?.print(alloc, out),
        Task::At(address) => print_lines(&Minidump::read(alloc, &bytes)?, alloc, address, out),
        Task::Report => write_report(alloc, &bytes, &CodeNames::empty(), out),
    }
}

// Writes the name of an error to `err`, after what it is said of, and returns the status.
fn fail_with<E: Write>(subject: &str, error: Error, err: &mut Told<E>) -> u8
    ensures status { result ≡ 1 }
    ensures named { IsTold E.contents err.old err.new (error_line subject.now error) }
{
    let _ = put_error(subject, error, err);
    1
}

// Writes the line of an error.
fn put_error<E: Write>(subject: &str, error: Error, err: &mut Told<E>) -> Result<(), Error>
    ensures prints { Prints E.contents err.old err.new (error_line subject.now error) result }
    ensures error { IfErr result (λ e. e ≡ Error.IoError) }
{
    put_text(err, subject)?;
    put_text(err, ": ")?;
    put_text(err, error.name())?;
    put_text(err, "\n")
}

// Writes the usage to `err`, and returns the status of arguments that are no command.
fn bad_arguments<E: Write>(err: &mut Told<E>) -> u8
    ensures status { result ≡ 2 }
    ensures told { IsTold E.contents err.old err.new usage }
{
    let _ = put_text(err, USAGE);
    2
}
