//! Breakpad's symbol files: which function, source file and line an offset in a module belongs to, and
//! how the registers of its caller are recovered.
//!
//! - [`SymbolFile::read`] reads the records of a text. All names are borrowed from it.
//! - [`SymbolFile::function_at`], or else [`SymbolFile::public_at`], is what an offset belongs to;
//!   [`Function::line_at`] is its source line, [`Function::inline_at`] a call that the compiler put in
//!   place there, of one depth, and [`Function::inlines_at`] those of all depths.
//!   [`SymbolFile::file_name`] and [`SymbolFile::origin_name`] are their names.
//! - [`SymbolFile::cfi_at`] has the rules of an offset. [`CfiRecord::frame_address`] and
//!   [`CfiRecord::caller_register`] evaluate them over the registers and the memory of an
//!   [`UnwindState`].
//!
//! An offset is an address less its module's base, and so is each address in a symbol file. The
//! offset of a caller is that of the address below its return address, which lies in the call.
//!
//!     let symbols = SymbolFile::read(alloc, text)?;
//!     let function = symbols.function_at(offset, &mut Steps::new())?;
//!     let line = function.line_at(offset)?;
//!     let file = symbols.file_name(line.file)?;
//!
//! # The format
//!
//!     MODULE os architecture id name                     the first line
//!     FILE number name
//!     INLINE_ORIGIN number name
//!     FUNC [m] address size parameter_size name
//!     address size line file                             a line record, of the function before it
//!     INLINE depth line file origin (address size)..     of the function before it
//!     PUBLIC [m] address parameter_size name
//!     STACK CFI INIT address size rules
//!     STACK CFI address rules                            changes the rules before it
//!
//! A line ends at a line feed, before which a carriage return may stand. Fields are separated by
//! one space, and the last one is the rest of the line; the words of ranges and rules are separated
//! by white space. Addresses and sizes are hexadecimal numbers of 64 bits, other fields that are
//! numbers decimal ones of 32 bits. The file of an INLINE line may be -1, for one that isn't known,
//! and the line has at least one range. The next FUNC, PUBLIC or STACK line ends the records of a
//! function, the next STACK CFI INIT line the changes of rules.
//!
//! Rules are words: a register and a colon, and then its expression in postfix form, of decimal
//! numbers as wide as an address, also negative ones, registers, `.cfa`, the operators
//! `+ - * / % @`, and `^`, which reads the word at an address. STACK WIN lines aren't read.
//!
//! # Errors
//!
//! Reading returns `MissingModule` for a text that doesn't begin with a MODULE line, and
//! `OutOfMemory` if an allocation fails. Malformed lines, and those of no known kind, are skipped:
//! [`malformed_lines`] counts the malformed ones. A rule has no value, and gives `None`, if a word
//! is unknown, an operand, a register or memory is missing, a divisor is 0, or not exactly one
//! value is left.
//!
//! # What is proved
//!
//! - The lists are the records of all lines: `SymbolFile::read`, by `symbols_in`. Each line is read as a
//!   record exactly if the grammar has that record for it: `laws::lines_are_the_grammar`.
//! - Lookups return the kept function or rules, by the rule of [`minidump_index`], that contain the
//!   offset: `function_at`, `cfi_at`, by `IsCountedLookup`; `laws::region_laws`.
//! - A public symbol is the nearest at or below the offset, the first of two at one address, unless a
//!   function begins between them: `public_at`; `laws::nearest_symbol_is_nearest`. Names are the first
//!   of a number: `file_name`, `origin_name`; lines and calls the first that have the offset: `line_at`,
//!   `inline_at`, `inlines_at`.
//! - A register's rule is that of the last change that isn't above the offset and has one: `rule_at`.
//!   Which lines count is `laws::lines_that_count`. The value of a rule is that of its words one after
//!   the other: `evaluate`, by `value_of`; which is the value of the expression tree with these words:
//!   `laws::expressions_are_trees`.
//! - Malformed lines are counted: `malformed_lines`, by `is_malformed`.
//!
//! What isn't: how long a call takes, but for the comparisons that `function_at` and `cfi_at`
//! count. Reading passes over the text once, and makes the indices. A lookup of a name or of a
//! public symbol is one in an ordered map. `line_at`, `inline_at` and `inlines_at` read the lines
//! of the function, `rule_at` those after the STACK CFI INIT line.
#![tactic(auto)]

mod address_width;
mod caller;
mod cfi;
mod expression;
mod function;
mod function_list;
mod inline;
mod inline_calls;
pub mod laws;
mod line_record;
mod lines;
mod malformed;
mod module_record;
mod numbered;
mod numbered_name;
mod public;
mod record_lists;
mod symbol_file;
mod value_stack;
mod words;

pub use address_width::AddressWidth;
pub use cfi::CfiRecord;
pub use expression::{UnwindState, evaluate};
pub use function::Function;
pub use inline::InlineCall;
pub use inline_calls::InlineCalls;
pub use line_record::LineRecord;
pub use malformed::malformed_lines;
pub use module_record::ModuleRecord;
pub use public::PublicSymbol;
pub use symbol_file::{SymbolError, SymbolFile};
