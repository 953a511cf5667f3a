ghost use Rattle.std.specs.Prelude.{[], ◌∷◌, map};
ghost use Rattle.minidump.specs.Below.Contexts.Context.{map_ok};
ghost use Rattle.crash_threads.specs.Cause.{exception_of};
ghost use Rattle.crash.specs.Crash.{crash_of};
ghost use Rattle.crash_lines.specs.Exceptions.{counted_lines, crash_lines, exception_line, none_lines};
ghost use Rattle.crash_lines.specs.Exceptions.{several_lines, several_row};
ghost use Rattle.crash_lines.specs.Lines.{Adds};

use crate::lines::{Added, push_row, push_table, push_text_line};
use crate::parts::Part::{Decimal, Failed, Hex, HexUnless, Id, If, Record, Text, TextAfter, Words};
use crate::point::{push_address_line, push_point, push_registers};
use crash::{Crash, CrashException};
use minidump::Error;

/// Appends the lines of the crash, and those of the exceptions if there are several.
pub fn push_crash(out: &mut String, crash: &Crash<'_>) -> Added
    ensures { Adds out.old out.new (crash_lines (crash_of crash.now)) result }
{
    if let Some(exception) = crash.cause.counted() {
        push_counted(out, crash, exception)?;
    }
    push_several(out, crash.cause.exceptions.as_slice(), crash.cause.counts)
}

/// Appends that there is no exception, if there is none.
pub fn push_none(out: &mut String, exceptions: &[Result<CrashException, Error>]) -> Added
    ensures { Adds out.old out.new (none_lines (map (map_ok exception_of) exceptions.now)) result }
{
    match exceptions {
        [] => push_text_line(out, "no exception"),
        _ => Ok(()),
    }
}

// Appends the lines of the crash by the exception that counts.
#[rattlefmt::skip]
#[tactic(auto, unfolding(crate::specs::Exceptions::counted_lines))]
fn push_counted(out: &mut String, crash: &Crash<'_>, exception: &CrashException) -> Added
    ensures { Adds out.old out.new
        (counted_lines (crash_of crash.now) (exception_of exception.now)) result }
{
    push_row(out, &[Id("crashed thread ", Some(exception.thread))])?;
    if let Some(facts) = &crash.cause.address {
        push_address_line(out, crash, "", "address", "", facts)?;
    }
    push_table(out, &[
        &[Text("reason  ", &exception.reason, "")],
        &[
            Words("code    "), Hex(exception.code as u64), Words(" at "), Hex(exception.at),
            Record(exception),
        ],
        &[Text("description ", &exception.description, "")],
    ])?;
    push_registers(out, crash)?;
    push_point(out, crash)
}

// Appends the exceptions, below their number and which of them counts, if there are several.
fn push_several(
    out: &mut String,
    exceptions: &[Result<CrashException, Error>],
    counts: Option<usize>,
) -> Added
    ensures { Adds out.old out.new
        (several_lines (map (map_ok exception_of) exceptions.now) counts) result }
{
    if exceptions.len() > 1 {
        push_several_row(out, exceptions.len(), counts)?;
        for (number, exception) in exceptions.iter().enumerate() {
            push_exception(out, number, exception)?;
        }
    }
    Ok(())
}

// Appends the number of exceptions, and which of them counts.
#[rattlefmt::skip]
#[tactic(auto, unfolding(crate::specs::Exceptions::several_row))]
fn push_several_row(out: &mut String, count: usize, counts: Option<usize>) -> Added
    ensures { Adds out.old out.new (several_row count counts ∷ []) result }
{
    match counts {
        Some(counts) => push_row(out, &[
            Words("exceptions "), Decimal(count as u64), Words(", of which number "),
            Decimal(counts as u64), Words(" counts"),
        ]),
        None => push_row(out, &[Words("exceptions "), Decimal(count as u64)]),
    }
}

// Appends the line of an exception, or of why it can't be read.
#[rattlefmt::skip]
#[tactic(auto, unfolding(crate::specs::Exceptions::exception_line))]
fn push_exception(
    out: &mut String,
    number: usize,
    exception: &Result<CrashException, Error>,
) -> Added
    ensures { Adds out.old out.new
        (exception_line number (map_ok exception_of exception.now) ∷ []) result }
{
    match exception {
        Ok(exception) => push_row(out, &[
            Words("    #"), Decimal(number as u64), Id(" thread ", Some(exception.thread)),
            Words(", code "), Hex(exception.code as u64), Words(" at "), Hex(exception.at),
            HexUnless(exception.at, ", address ", exception.address),
            If(exception.address.is_none(), ", no address"), TextAfter(", ", &exception.reason),
            Text(", ", &exception.description, ""), Record(exception),
        ]),
        Err(error) => push_row(out, &[
            Words("    #"), Decimal(number as u64), Words(" can't be read"), Failed(Some(*error)),
        ]),
    }
}
