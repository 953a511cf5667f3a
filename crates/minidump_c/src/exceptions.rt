ghost use Rattle.std.specs.Prelude.{◌≡◌};
ghost use Rattle.std.specs.Option.{option_copied, option_map, option_map_or};
ghost use Rattle.crash_threads.specs.Cause.{exception_of};
ghost use Rattle.minidump_c.specs.Exceptions.{access_number, exception_row, problem_number};

use crate::spans::flag;
use crate::text::fill;
use crash::{Access, ContextProblem, CrashException};

/// An exception. A number that is absent is 0.
#[repr(C)]
#[derive(Clone, Copy, Default)]
pub struct ExceptionRow {
    /// The address at which it happened, as its record has it.
    pub address: u64,
    /// The address of the record of another exception, during which it happened; 0 if there is
    /// none.
    pub nested: u64,
    /// The parameters of its record, as far as 15 fit, with zeros after them.
    pub parameters: [u64; 15],
    /// The id of the thread on which it happened.
    pub thread: u32,
    /// The code: on Linux and Android the number of the signal.
    pub code: u32,
    /// The flags: on Linux and Android the `si_code` of the signal.
    pub flags: u32,
    /// The number of parameters, at most 15.
    pub parameter_count: u32,
    /// The id of the process that sent the signal.
    pub sender: u32,
    /// The id of the user of that process.
    pub sender_user: u32,
    /// How memory was accessed, as a number.
    pub access: u16,
    /// Why its context gives no registers, as a number; 0 if it gives some.
    pub context_problem: u16,
    /// 1 if there is an exception, else 0.
    pub has_exception: u8,
    /// 1 if a process sent the signal, else 0.
    pub is_sent: u8,
    /// 1 if the id of that process is known, else 0.
    pub has_sender: u8,
    /// 1 if the user of that process is known, else 0.
    pub has_sender_user: u8,
}

// Returns the numbers of the exception that counts, zeros if there is none.
pub(crate) fn exception_row(exception: Option<&CrashException>) -> ExceptionRow
    ensures { result ≡ exception_row (option_map exception_of (option_copied exception.entry)) }
{
    let Some(exception) = exception else {
        return ExceptionRow::default();
    };
    let sender = exception.sender;
    let mut parameters = [0; 15];
    let parameter_count = fill(exception.parameters.as_slice(), &mut parameters).min(15) as u32;
    ExceptionRow {
        address: exception.at,
        nested: exception.nested,
        parameters,
        thread: exception.thread,
        code: exception.code,
        flags: exception.flags,
        parameter_count,
        sender: sender.map_or(0, |s| s.process.unwrap_or(0)),
        sender_user: sender.map_or(0, |s| s.user.unwrap_or(0)),
        access: access_number(exception.access),
        context_problem: problem_number(exception.context_problem),
        has_exception: 1,
        is_sent: flag(&sender),
        has_sender: sender.map_or(0, |s| flag(&s.process)),
        has_sender_user: sender.map_or(0, |s| flag(&s.user)),
    }
}

// Returns the number of how memory was accessed.
fn access_number(access: Option<Access>) -> u16
    ensures { result ≡ option_map_or access_number access 0 }
{
    match access {
        None => 0,
        Some(Access::Read) => 1,
        Some(Access::Write) => 2,
        Some(Access::Execute) => 3,
    }
}

// Returns the number of why a context gives no registers.
fn problem_number(problem: Option<ContextProblem>) -> u16
    ensures { result ≡ option_map_or problem_number problem 0 }
{
    match problem {
        None => 0,
        Some(ContextProblem::Outside) => 1,
        Some(ContextProblem::NoSystem) => 2,
        Some(ContextProblem::NotAccepted { .. }) => 3,
    }
}
