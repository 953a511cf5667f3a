//! `mdump`, which writes what a minidump holds as text.
//!
//! - `mdump dir FILE` writes the header and the directory.
//! - `mdump at FILE HEXADDRESS` writes three lines: the base address and the size of the region of
//!   memory that contains the address, or `memory none`; the base address, the size and the name of
//!   the module that contains it, or `module none`; the first and the last address of the region
//!   that contains it by the memory information, or by the maps, where that is missing or
//!   malformed, or `info none`.
//! - `mdump report FILE` writes all that is read of the dump: the header and the directory, each
//!   stream, and where and why the process crashed, without names of codes.
//! - `mdump --help` and `mdump` alone write the usage, `mdump --version` the version.
//!
//! # Errors
//!
//! Status 1: the dump, the file or the output failed, and a line `FILE: NAME` with the name of the
//! error goes to standard error, or `mdump: NAME` where there is no file. Status 2: the arguments
//! are none of these, and the usage goes to standard error.
//!
//! # What is proved
//!
//! - The status is 0, 1 or 2, and 2 exactly where the arguments are none of these. At 0 the output
//!   took the text that they ask for; at 1 a prefix of it; at 2 nothing: `run`, by `IsRun`.
//! - Standard error took the line of one error at 1, the usage at 2, and nothing at 0; only its own
//!   failure cuts it short.
//! - At 1 the error is that of the path, and the output is as it was: `FileNotFound` only if it
//!   opens no file, `IoError` only if a read of the file failed, `MissingHeader` and the like only
//!   if its bytes have that error, or `OutOfMemory`. Or the file is a minidump, and the error is
//!   `IoError` only if the output has failed, else `OutOfMemory`. Or the usage or the version was
//!   asked for, and the error is `IoError`, since the output has failed: `IsAnswered`.
//! - Which command the arguments mean, and how an address is spelled: `Command::parse`,
//!   `hex_address`.
//! - The status and the texts of a run from the arguments of the process: `run_arguments`; the
//!   arguments are all that the standard library's iterator yields: `arguments`.
//!
//! What isn't: what opening a path returns, what files and standard output hold, since the standard
//! library tells none of their bytes, and that `main` passes on its arguments and its devices. The
//! runs of `.ci/mdump` show these. That no file is opened if the arguments are no command is
//! reviewed.
#![tactic(auto)]

mod command;
mod lines;
mod program;

use minidump::Told;
pub use program::run;
use program::{arguments, run_arguments};
use std::env;
use std::process::ExitCode;

fn main(rt: HostRuntime) -> ExitCode {
    let mut out = Told::new(rt.stdout());
    let mut err = Told::new(rt.stderr());
    let args = arguments(rt.alloc(), env::args(&rt));
    run_arguments(&rt, args, &mut out, &mut err)
}
