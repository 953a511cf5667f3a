//! `test_calls`, for tests: it makes calls that no other program makes, prints the summaries of
//! crashes, and does work to be timed.
//!
//! - `test_calls` and `test_calls call NAME` show what the library returns where memory runs out.
//!   On a dump with a stream of each type they make calls that may find no memory, all or that of
//!   a name, and write a line for each: its name, and `ok` if it returned. The line is
//!   `NAME: OutOfMemory, ok` if the call found no memory, and returned when it was made again.
//!   `.ci/refusals` uses this to fail each allocation of each call, before and after which the
//!   program takes memory of a size of its own. What a call returns, and what it writes, its
//!   contract says.
//! - `test_calls summary FILE` prints the summary of a crash, for `.ci/golden`.
//! - `test_calls VERB WHAT ROUNDS` does the same work so many times, for `.ci/bench` to time it.
//!   With no rounds it only makes or reads what the rounds work on.
//!   - `lookup COUNT ROUNDS` makes an index of COUNT ranges, and looks up a million addresses in
//!     each round. Half of the addresses lie in a range. It writes how many lookups found a range.
//!     `list COUNT ROUNDS` does so with a list of ranges that ascend, and reads each range that is
//!     found.
//!   - `read FILE ROUNDS` reads the header, the directory and the system information of a
//!     minidump. It writes how many of the headers have 65536 streams.
//!   - `handles FILE ROUNDS` reads the stream of that name; so do `memory`, `memory64`,
//!     `memory-info`, `modules`, `threads` and `unloaded`. It writes how many of the lists have an
//!     entry of number or address 65536.
//!
//! The status is 1 if it ends by an error, as if a call answered otherwise, and 0 if by none.
#![tactic(auto)]

mod calls;
mod check;
mod copies;
mod lookup;
mod prints;
mod read;
mod streams;
mod summary;
mod walks;
mod world;

use anyhow::{Result, bail};
use std::{env, fs};

fn main(rt: HostRuntime) -> Result<()> {
    let words: Vec<String> = env::args(&rt)?.collect(rt.alloc())?;
    let words = words.as_slice();
    match (word(words, 1), word(words, 2), word(words, 3)) {
        ("", _, _) => check::make_calls(&rt, ""),
        ("call", name, _) => check::make_calls(&rt, name),
        ("summary", path, _) => summary::print_file(&rt, path),
        (verb, what, rounds) => work(&rt, verb, what, rounds),
    }
}

// Returns the word of a number, or an empty one if there is none.
fn word(words: &[String], number: usize) -> &str {
    match words.get(number) {
        Some(word) => word.as_str(),
        None => "",
    }
}

// Does the work of a verb so many times, and writes what it found.
fn work(rt: &HostRuntime, verb: &str, what: &str, rounds: &str) -> Result<()> {
    let Ok(rounds) = rounds.parse::<u32>() else {
        bail!("usage: test_calls [call NAME | summary FILE | VERB WHAT ROUNDS]");
    };
    if verb == "lookup" || verb == "list" {
        let Ok(count) = what.parse::<u32>() else {
            bail!("COUNT is a number");
        };
        let hits = lookup::hits(rt.alloc(), verb, count, rounds)?;
        println!(rt; "{hits}")?;
        return Ok(());
    }
    let bytes = fs::read(rt, what)?;
    let found = streams::read_often(rt.alloc(), verb, &bytes, rounds)?;
    println!(rt; "{found}")?;
    Ok(())
}
