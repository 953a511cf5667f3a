ghost use Rattle.std.specs.Prelude.{◌≡◌, [], ◌∷◌, codes};
ghost use Rattle.std.specs.Option.{option_copied, option_map};
ghost use Rattle.minidump.specs.Below.Contexts.Context.{map_ok};
ghost use Rattle.minidump.specs.Promise.{breakpad_info_stream, mac_bootargs_stream, system_info_stream};
ghost use Rattle.crash.specs.Crash.{crash_of};
ghost use Rattle.crash_process.specs.Process.{system_of};
ghost use Rattle.crash_process.specs.Release.{release_of};
ghost use Rattle.crash_lines.specs.Lines.{Adds, if_ok, if_some};
ghost use Rattle.crash_lines.specs.System.{boot_lines, breakpad_lines, date_lines, head_lines};
ghost use Rattle.crash_lines.specs.System.{process_lines, program_in, release_line, system_lines};
ghost use Rattle.crash_lines.specs.Words.{missing_lines};

use crate::lines::{Added, push_if_missing, push_row, push_table};
use crate::parts::Part::{Cpu, Decimal, DecimalIf, Id, Os, Said, Text, TextAfter, Words};
use crash::{Crash, CrashSystem, LsbRelease};
use minidump::{Error, MinidumpBreakpadInfo, MinidumpMacBootargs, MinidumpSystemInfo, date_text};
use std::alloc::AllocError;

/// Appends the lines of the system, of the date of the dump, of the program, and of the process.
pub fn push_head(out: &mut String, crash: &Crash<'_>) -> Added
    ensures { Adds out.old out.new (head_lines (crash_of crash.now)) result }
{
    push_system(out, &crash.process.system)?;
    push_missing_system(out, &crash.contents.system.system)?;
    push_release(out, &crash.process.release)?;
    push_boot(out, &crash.contents.messages.mac_boot_args)?;
    push_date(out, crash.directory.written)?;
    push_breakpad(out, &crash.contents.system.breakpad)?;
    push_process(out, crash)
}

// Appends the lines of the system, if it is known.
#[rattlefmt::skip]
#[tactic(auto, unfolding(crate::specs::System::system_lines))]
fn push_system(out: &mut String, system: &Option<CrashSystem>) -> Added
    ensures { Adds out.old out.new
        (if_some system_lines (option_map system_of system.now)) result }
{
    match system {
        Some(system) => push_table(out, &[
            &[
                Words("system  "), Os(system.os), Words(" "), Words(system.version.as_str()),
                TextAfter(" ", &system.build), Words(" on "), Cpu(system.cpu),
                Words(", processors: "), Decimal(system.processors as u64),
            ],
            &[Text("processor ", &system.cpu_model, "")],
            &[Text("microcode ", &system.microcode, "")],
        ]),
        None => Ok(()),
    }
}

// Appends that the system information is missing, if it is.
fn push_missing_system(out: &mut String, system: &Result<MinidumpSystemInfo, Error>) -> Added
    ensures { Adds out.old out.new (missing_lines (codes "no system information")
        (map_ok system_info_stream.value system.now)) result }
{
    match system {
        Ok(_) => Ok(()),
        Err(error) => push_if_missing(out, "no system information", *error),
    }
}

// Appends the release of Linux, if it is there.
#[rattlefmt::skip]
#[tactic(auto, unfolding(crate::specs::System::release_line))]
fn push_release(out: &mut String, release: &Option<LsbRelease>) -> Added
    ensures { Adds out.old out.new
        (if_some (λ r. release_line r ∷ []) (option_map release_of release.now)) result }
{
    match release {
        Some(release) => push_row(out, &[
            Words("release"), TextAfter(" ", &release.id), TextAfter(" ", &release.release),
            TextAfter(" ", &release.codename), TextAfter(" ", &release.description),
        ]),
        None => Ok(()),
    }
}

// Appends the arguments with which macOS was booted, if they are there.
#[tactic(auto, unfolding(crate::specs::System::boot_lines))]
fn push_boot(out: &mut String, arguments: &Result<MinidumpMacBootargs, Error>) -> Added
    ensures { Adds out.old out.new
        (if_ok boot_lines (map_ok mac_bootargs_stream.value arguments.now)) result }
{
    match arguments {
        Ok(arguments) => push_table(out, &[&[Text("boot arguments ", &arguments.bootargs, "")]]),
        Err(_) => Ok(()),
    }
}

// Appends the date of the dump, unless its time stamp is 0.
#[tactic(auto, unfolding(crate::specs::System::date_lines))]
fn push_date(out: &mut String, stamp: u32) -> Added
    ensures { Adds out.old out.new (date_lines stamp) result }
{
    if stamp == 0 {
        return Ok(());
    }
    match date_text(*out.allocator(), stamp) {
        Ok(date) => push_row(out, &[Words("dumped  "), Words(date.as_str())]),
        Err(_) => Err(AllocError),
    }
}

// Appends the threads that requested and wrote the dump, if Breakpad's information has them.
#[rattlefmt::skip]
#[tactic(auto, unfolding(crate::specs::System::breakpad_lines))]
fn push_breakpad(out: &mut String, info: &Result<MinidumpBreakpadInfo, Error>) -> Added
    ensures { Adds out.old out.new
        (if_ok breakpad_lines (map_ok breakpad_info_stream.value info.now)) result }
{
    match info {
        Ok(info) => push_table(out, &[
            &[Id("dump requested by thread ", info.requesting_thread_id)],
            &[Id("dump written by thread ", info.dump_thread_id)],
        ]),
        Err(_) => Ok(()),
    }
}

// Returns the path of the program, the first of the modules, if there are any.
fn program_in<'l>(crash: &'l Crash<'_>) -> Option<&'l str>
    ensures { option_copied result ≡ program_in (crash_of crash.now) }
{
    Some(crash.modules.loaded.get(0)?.path.as_str())
}

// Appends the lines of the program, of its process, and of the comments of the dump.
#[rattlefmt::skip]
#[tactic(auto, unfolding(crate::specs::System::process_lines))]
fn push_process(out: &mut String, crash: &Crash<'_>) -> Added
    ensures { Adds out.old out.new (process_lines (crash_of crash.now)) result }
{
    let process = &crash.process;
    push_table(out, &[
        &[Said("program ", program_in(crash))],
        &[Id("process ", process.id)],
        &[Id("parent  ", process.parent)],
        &[DecimalIf("uptime  ", process.uptime, " s")],
        &[DecimalIf("resident ", process.resident, " bytes")],
        &[Text("command ", &process.command_line, "")],
        &[Text("comment ", &process.comments.narrow, "")],
        &[Text("wide comment ", &process.comments.wide, "")],
    ])
}
