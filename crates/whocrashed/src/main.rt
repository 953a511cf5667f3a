//! `whocrashed [OPTIONS] DUMP..`, which prints who crashed, where, why and by whom called: an
//! example of a program on `minidump`, the crates above it and `clap`. The README shows its output.
//! `whocrashed --help` prints its options.
//!
//! Of each dump, in the order of the arguments, and then of the paths that `--stdin-paths` takes
//! from standard input, it prints
//!
//! - the lines of [`crash_text::text_of`], under the dump's path if there are several arguments,
//!   and always with `--stdin-paths`;
//! - with `--json` the line of JSON of [`crash_json::json_of`]. A file that can't be read, is too
//!   large, or is no dump, has a line too, whose `status` says why, so that there are as many lines
//!   as dumps;
//! - with `--html`, which takes one dump, the page of [`crash_html::page`].
//!
//! A dump is read once, into a [`crash::Crash`], and all three are made of that. `-` is the dump on
//! standard input. Codes have the names of [`known_names::text`], unless `--only-names` leaves
//! these out, and those of the files of `--names`.
//!
//! With `--symbols` frames have functions and source lines, by [`crash_symbols`]. The backtraces
//! are found with the symbol files that are known so far, the files of the modules in which frames
//! or candidates then lie are read, and so on until none is wanted, at most 64 times. A word at a
//! module says that its file is missing or damaged. A symbol file that was read is kept until the
//! run ends.
//!
//! # Errors
//!
//! Status 1: a file can't be read, has more bytes than `--limit`, or is no dump, which is said on
//! standard error, or in its line of JSON; or something of a dump is there and can't be read,
//! whatever the form; or the list of paths can't be read or is too large, or a path in it isn't
//! UTF-8; or memory ran out for a dump. The other dumps are printed all the same. Status 1 also if
//! a file of `--names` can't be read or is malformed, and then no dump is read; and if memory ran
//! out for anything else, or the output failed, which ends the program. Status 2: the arguments are
//! malformed or refused, or one isn't UTF-8. A closed pipe ends the program quietly, with the
//! status of the dumps before.
//!
//! # What is proved
//!
//! What is said of printing holds for a writer whose bytes are known. The options, the dumps and
//! the symbol files are those of [`whocrashed_inputs`]. What is made of a crash is its text, its
//! JSON or its page, by the options and by symbol files of its modules: `form_of`. That is printed
//! of a dump; in text below its path, unless it is the only one and no list is asked for. Of a file
//! that is no dump only that path is printed in text, in JSON a line with its path and why, and
//! nothing as a page; of one that can't be read or is too large, or whose path isn't UTF-8, that
//! line in JSON, and else nothing: `report_bytes`, `report_file`, `try_report`. The status of a
//! dump is that of the crash that its bytes hold, whatever the form, and else 1: the same calls.
//! Where memory ran out for a dump, its status is 1, and of it only its path may be printed, or in
//! JSON the line that memory ran out: `report`, which allows this at any dump. The line
//! `{"path":null,"status":"OutOfMemory"}` may stand for any line with a path and why:
//! `print_error`.
//!
//! A run prints the texts of its dumps, those of the arguments and then of the list, one after
//! another, and has the greatest of their statuses, and of 1 if the list can't be read or is too
//! large, for whatever reads them: `report_each`, `report_dumps`, `obey`, `run_by`. The names of
//! codes are those that are compiled in, or none, unless files of names are asked for:
//! `names_text`. A run may also print nothing and have the status 1, since memory may run out and
//! names may not be read. If a write of the output failed, the status is that of some first dumps
//! where the failure that was kept is that of a closed pipe, and else 1, and nothing is said of
//! what was printed: `Output::put`, `end`. Arguments that give no options have status 0 if they ask
//! for the help or the version, 1 if memory ran out, and else 2: `answer`, `complain_of_arguments`;
//! nothing is printed unless it is 0: `answer`. The options are those that the words ask for, if
//! they have no fault and these options aren't refused, and an error has a kind that the words may
//! have; files are read by the limit of the options: `run`.
//!
//! What isn't: that standard output has what was written to it; the texts of the help and of
//! errors, and what is said on standard error; the names in files; that `main` passes on its
//! arguments, its output and the status; and what reading a file returns but for its length, so
//! that `run`, which reads files, doesn't say that a report is that of their bytes.
#![tactic(auto)]

mod complain;
mod form;
mod names;
mod output;
mod program;
mod report;

use std::process::ExitCode;
use std::{env, io};

fn main(rt: HostRuntime) -> ExitCode {
    let mut out = output::Output::new(rt.stdout());
    ExitCode::from(match words_of(&rt) {
        Ok(words) => match words.as_slice() {
            [_name, words @ ..] => program::run(&rt, words, &mut out),
            [] => 2,
        },
        Err(error) => program::complain_of_arguments(&rt, &error),
    })
}

// Returns the words that the program is called by, its own name first.
fn words_of(rt: &HostRuntime) -> io::Result<Vec<String>> {
    let words: Vec<String> = env::args(rt)?.collect(rt.alloc())?;
    Ok(words)
}
