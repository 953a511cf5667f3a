//! What `whocrashed` is given: its arguments, dumps, lists of paths, and symbol files.
//!
//! - [`Options::read`] reads the arguments, by `clap`. [`Form`] is what they ask to be printed.
//! - [`dumps_in`] returns the dumps that are asked for, and [`ReadDumps`] reads them, as [`Files`]
//!   does from the system and from standard input.
//! - [`SymbolCache`] reads the symbol files of modules from directories, and keeps them.
//!   [`unknown`] makes the symbols of modules before any file is looked for.
//!
//! # Errors
//!
//! [`Options::read`] returns clap's error for arguments that are malformed or refused, and if they
//! ask for the help or the version. Reading a file returns its error, or `None` if it has more
//! bytes than the limit. What is wrong with a symbol file is its state.
//!
//! # What is proved
//!
//! - The options are those that the arguments ask for, by clap's rules and the options that clap is
//!   told of, `whocrashed_app`: each is what its name has in `rows_in`. These arguments have no
//!   fault, and these options aren't refused: [`Options::read`], by `AreOptions`, `faults_in` and
//!   `refusal_in`. An error has the kind of a fault of the arguments, such as the help that they
//!   ask for, or that with which the options are refused; or memory ran out: `IsErrorOf`.
//! - The dumps are the values of the argument `DUMP`, and after them the paths of the list, both in
//!   their order: [`dumps_in`].
//! - What is read of a file or of standard input has no more bytes than the limit, and a symbol
//!   file no more than its own: the `reads` of [`Files`], `SymbolCache::read`. Of a reader whose
//!   bytes are known it is all of them, or nothing if they are more than the limit:
//!   `read_to_limit`.
//! - A symbol file says what its text says, and stands only at modules whose file it is; what is
//!   known of modules that aren't looked for stays: `kept`, [`SymbolCache::find`]. The cache goes
//!   on to look in the same directories, with the same limit. The path of a file in a directory is
//!   that of the directory, a slash, and the file's: `path_in`.
//!
//! What isn't: the texts of the help, which file a path opens and which bytes it has, and in which
//! directory a symbol file is found.
#![tactic(auto)]

mod input;
mod options;
mod symbols;

pub use input::{Dump, Files, ReadDumps, dumps_in};
pub use options::{Form, Options};
pub use symbols::{SymbolCache, unknown};
