//! `minidump` for programs in C: `include/minidump.h` declares these functions.
//!
//! # Errors
//!
//! A call about a dump returns 0, or the number of an error: from 1 to 15 in the order of
//! [`minidump::Error`], 16 and 17 for the lines of a text of names, in the order of
//! [`minidump_names::NamesError`]. On an error nothing that the caller passed has changed, except
//! that the number of such a line is written.
//!
//! # Installing
//!
//! `crates/minidump_c/install PREFIX` makes the library, if it isn't there yet, and puts into the
//! folder PREFIX the header, the library and the toolchain's heap, on which it stands, as two static
//! libraries, both of them as the shared object `libminidump.so`, if there is a C compiler, and
//! `minidump.pc`. With `PREFIX/lib/pkgconfig` in `PKG_CONFIG_PATH` a program is then built by
//!
//! ```text
//! cc program.c $(pkg-config --cflags --libs minidump)
//! ```
//!
//! The folder `examples` has programs in C, Rust and Python that print a backtrace. That in Python
//! takes the JSON text from the shared object; those in C and Rust take the tables.
//!
//! # What is proved
//!
//! Of each call, by the bytes of the dump: the status, and what the caller's memory holds after it.
//!
//! - The text of the directory and the report, with the size of the whole text: `minidump_dir`,
//!   `minidump_report`, by `IsDirectoryOf` and `IsReportOf`. The report with the names of codes of a
//!   text, or the error of that text and the number of its line: `minidump_report_named`, by
//!   `EndsNamed`.
//! - The crash, in numbers, tables and texts, by one read of the dump: `minidump_crash`, by
//!   `EndsNamed` and `IsTold`. They are the rows that `rows_of` makes of the crash that the crate
//!   `crash` defines, and each span is where its text lies in the buffer of texts.
//! - The JSON text of the crash, which is the one that the crate `crash_json` defines:
//!   `minidump_crash_json`, by `EndsNamed` and `json_in`.
//! - The memory at an address: `minidump_memory_at`, `minidump_read_memory`, by `IsRegionAt` and
//!   `IsReadAt`. The regions that lookups find, ascending by address: `minidump_memory_table`, by
//!   `IsTableOf`.
//! - The name of an error: `minidump_error_name`, by `IsNameOf`. The version: `minidump_version`.
//!
//! The proofs use the contracts of `minidump`, `crash`, `crash_json` and `minidump_names`, and nothing
//! below.
//!
//! What isn't: that the header says what these functions are, that an empty slice may come as a
//! null pointer, which the compiler sees to and a test shows, and that a caller passes true
//! lengths, aligned pointers that aren't null otherwise, and buffers that don't overlap and that
//! nothing else writes meanwhile.
#![tactic(auto)]

mod exceptions;
mod facts;
mod frames;
mod memory;
mod numbers;
mod rows;
mod spans;
mod status;
mod tables;
mod text;
mod version;
