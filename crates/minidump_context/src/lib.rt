//! The contexts of threads: the registers of a processor by name.
//!
//! - [`CpuContext`] is the trait of one processor's context. `CONTEXT_X86`, `CONTEXT_AMD64`,
//!   `CONTEXT_ARM`, `CONTEXT_ARM64` and `CONTEXT_ARM64_OLD` implement it. [`CpuRegisters`] iterates
//!   over the registers.
//! - [`MinidumpContext`] is the context of any of these processors: its record, a
//!   [`MinidumpRawContext`], and which registers are valid, a [`MinidumpContextValidity`].
//!   [`ContextRegisters`] iterates over the registers.
//!
//! # Errors
//!
//! Reading a context returns a [`ContextError`]: `UnknownCpuContext` if the crate has no layout for
//! the system's architecture, `ReadFailure` if there are too few bytes or the flags aren't those of
//! the processor. It takes no memory. `format_register`, `try_clone` and `print` return
//! `OutOfMemory` if an allocation fails, and `print` returns `IoError` if the writer has failed.
//!
//! # What is proved
//!
//! - A context is read exactly if the architecture has a layout, the bytes begin with its record,
//!   and the flags have the processor's bit and no other processor's below 0x10000000:
//!   `MinidumpContext::read`, by `context_in`.
//! - A register is found by each of its names, and its value is the number at its offset in the
//!   record: `get_register_always`, `memoize_register`; `laws::registers_are_at_their_offsets`,
//!   `names_name_their_registers`.
//! - A register is valid if all are, or if the set has any of its names. A name of no register is
//!   never valid: `register_is_valid`, `get_register`, by `is_valid`;
//!   `laws::any_name_makes_a_register_valid`. The iterators yield the valid registers in the order
//!   of the list of names: `registers`, `valid_registers`.
//! - `set_register` changes one register, under all of its names, and nothing else. With a name of
//!   no register it changes nothing: by `IsChanged`; `laws::a_change_is_seen_under_all_names`,
//!   `nothing_else_is_changed`. What the table, the values, the flags and the rest of each context
//!   are: `laws::contexts_are_as_defined`.
//! - The printed text is that of the record, a line for each register: `print`, by `context_text`.
//! - A copy equals what it copies, and two sets of valid registers are equal if they have the same
//!   names: `try_clone`, `laws::clones_are_the_same`, `sets_are_equal_by_their_names`.
//!
//! It is not proved that the tables of names and offsets are those of the processors' makers: tests
//! compare each register.
//!
//! A new processor needs a record in `minidump_format`, a table of names and offsets in `specs/`,
//! an `impl` of `CpuRegisterNames` and of `CpuContext`, its text, and a variant of
//! `MinidumpRawContext`.
#![tactic(auto)]

mod amd64;
mod arm;
mod arm64;
mod context;
mod context_registers;
mod cpu_context;
mod cpu_registers;
pub mod laws;
mod names;
mod print;
mod raw_context;
mod validity;
mod x86;

pub use context::{ContextError, MinidumpContext};
pub use context_registers::ContextRegisters;
pub use cpu_context::{CpuContext, CpuRegisterNames, RegisterNumber};
pub use cpu_registers::CpuRegisters;
pub use raw_context::MinidumpRawContext;
pub use validity::MinidumpContextValidity;
