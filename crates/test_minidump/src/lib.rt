//! Tests of `minidump` and of the crates below it, of `minidump_synth`, of the modules `region_at`
//! and `own_stream` of `examples` and of the page of `crash_html`, on their public calls. They
//! stand apart from them, since a library with a test is proved twice.
//!
//! They show what no contract says, or no program prints: that a call succeeds where there is
//! memory, what becomes of files, which streams have no name or are never read, the bytes of a
//! stream, numbers in memory, unloaded modules at an address, the lengths in an error, values that
//! are made by hand, and the escapes of a page. Each expected value is written from the format's own
//! tables, not from a definition here. The samples and the rows of `samples/` show what is printed
//! of a dump's header, directory and streams, the bytes and the errors of streams, what is at an
//! address, and what a dump says of a crash.
#![tactic(auto)]

#[cfg(test)]
use std::process::Abort;

#[cfg(test)]
mod bytes;
#[cfg(test)]
mod directory;
#[cfg(test)]
mod file;
#[cfg(test)]
mod format;
#[cfg(test)]
mod given;
#[cfg(test)]
mod index;
#[cfg(test)]
mod memory;
#[cfg(test)]
mod own_type;
#[cfg(test)]
mod page;
#[cfg(test)]
mod sizes;
#[cfg(test)]
mod streams;
#[cfg(test)]
mod synth;
#[cfg(test)]
mod system;
#[cfg(test)]
mod unloaded;

// Stops a test whose text is another one, and shows both. A text is also short where memory ran out.
#[cfg(test)]
fn assert_text(rt: &impl Abort, found: &str, want: &str) {
    assert_eq!(rt; found, want);
}
