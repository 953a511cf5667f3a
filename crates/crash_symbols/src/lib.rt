//! The backtraces of a crash by Breakpad's symbol files: each frame with its function, its source
//! line and the calls that the compiler put in place there; and the signature of a crash.
//!
//! - [`Symbols`] has the symbol file of each module that is known, and what is known of each file.
//! - [`Backtraces::find`] walks each thread of a [`crash::Crash`] by the rules of these files, as
//!   [`symbol_walk`] does.
//! - [`Backtraces::wanted`] returns the modules whose files are still to be read. Their rules may
//!   lead to further frames, and so to further modules.
//! - [`shown_walk`] is what a form shows of a thread: its backtrace, or without symbols its walk.
//!   [`first_frames`] returns the first frames of it, each with its names. [`mark_frames`] marks the
//!   modules that frames lie in, for a form that lists these.
//! - [`signature_of`] makes the signature of a crash, which crashes of one kind share.
//! - [`symbol_path`] is where the file of a module lies below a directory of symbol files, and
//!   [`is_of_module`] tells whether a file is the module's.
//!
//! Begin with [`Symbols::new`]; find the backtraces, read the wanted files, and go on so until none
//! is wanted.
//!
//! A frame is looked up by its address, which for a caller is the one below its return address, in
//! the call; on ARM of 32 bits bit 0 of the return address is cleared first. Its function is the
//! kept one whose range has the address, else the nearest public symbol at or below it, unless that
//! is at the module's base, or a function begins between the two or at one of them. Where the
//! compiler put calls in place, the line record of the address is the innermost call's; each other
//! function is at the line of the call in it. At most 1,000 calls in one another are looked for.
//! All names are borrowed from the symbol files.
//!
//! # Errors
//!
//! `AllocError` alone. What a symbol file lacks is `None` in its place.
//!
//! # What is proved
//!
//! - The backtraces are those that `backtraces_in` assigns to the crash and to what the symbol
//!   files say: [`Backtraces::find`].
//! - The modules whose files are wanted are those of `wanted_in`: [`Backtraces::wanted`].
//! - What is shown of a thread is `shown_in` of the backtraces and the thread: [`shown_walk`]. The
//!   first of its frames, with their names, are `first_frames` of that: [`first_frames`].
//! - A signature is the text that `signature_in` assigns to the crash: [`signature_of`].
//! - A file is a module's by `is_of_module`, and lies at `symbol_path`: [`is_of_module`],
//!   [`symbol_path`].
#![tactic(auto)]

mod backtraces;
mod modules;
mod names;
mod shown;
mod signature;
mod symbols;
mod wanted;

pub use backtraces::{Backtraces, Symbolized};
pub use modules::{is_of_module, symbol_path};
pub use names::{FrameFunction, InlinedCall, NamedFrame, SourceLine};
pub use shown::{first_frames, shown_walk};
pub use signature::signature_of;
pub use symbols::{SymbolState, Symbols};
pub use wanted::mark_frames;
