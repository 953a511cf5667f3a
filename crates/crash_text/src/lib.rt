//! The text of a crash: who crashed, where, why and by whom called, as a function of its value.
//!
//! [`text_of`] makes the text of a [`crash::Crash`], and [`crash_text`] that of the bytes of a
//! minidump. Its lines are, in this order:
//!
//! - `no exception`, if the dump has none;
//! - the system with its processor and the microcode of that, the release of Linux, the arguments
//!   with which macOS was booted, the date of the dump in UTC, the path of the program, the id of
//!   the process and that of its parent, for how long it ran, how much of it was in memory, its
//!   command line, and the comments of the dump;
//! - of the exception that counts the thread, the address with its module, the reason, the code,
//!   where it happened, what else its record says, why its context can't be read, and LLDB's
//!   description; how much of the registers' context there is if it is cut, and the registers of
//!   the thread, four a row; its flags and segments, the flags that are set, the registers whose
//!   values lie in a module or a stack, its instruction pointer, unless it is in a module and may
//!   be run, the bytes there, and the words at its stack pointer; then, if there are several, all
//!   exceptions, each with its address, unless it happened there, or that it has none, and with the
//!   same;
//! - the signature of the crash: its reason, and the first three frames in a module, each by its
//!   function, else by its module and the offset in it;
//! - what is there and can't be read, as `can't be read: ThreadListStream: StreamReadFailure`, the
//!   modules for which their list can't be read, and how many entries of the directory have bytes
//!   outside the file;
//! - the thread that crashed, with its name, its last error, its stack, and whether the dump has no
//!   memory where that begins, why its own context can't be read, its frames, and why the last of
//!   them has no caller;
//! - what the process itself said: an assertion, the identifiers of Crashpad's report and of its
//!   client with the annotations of the process and of each module, macOS's crash information and
//!   Mozilla's soft errors;
//! - each other thread with its name, its last error and its first frame, or as the one that
//!   crashed if all threads are asked for, or none crashed;
//! - the number of modules; then each module that has the address of the crash or a printed frame,
//!   in the order of their addresses: its base address, its path, its version, and what a symbol
//!   server needs: the name of its debug file, with its identifier if there is one, and the name and
//!   the identifier of its code file, if there is one. Where all modules are asked for, each has a
//!   line, which ends with its index in the list, and each unloaded one has a line below their number;
//!   the address after a module follows its base address there, as in `0x400000-0x410000`;
//! - the numbers of unloaded modules, streams, regions of memory, maps and handles, with a line for
//!   each kind of handles, and Linux's numbers of limits and of variables of the environment.
//!
//! A frame's line has its number, its address, its module with the offset in it, and how it was
//! found. Where lists are asked for, its stack pointer and its frame pointer follow, and before them
//! its instruction, if that isn't the address: of a caller its return address. The address of a
//! caller lies in its call, below the return address. The candidates of the stack follow the frames,
//! numbered on.
//!
//! By symbols the frames are those of the backtraces that they give. A frame's line has its
//! function, with the offset in it, and its source line, where they are known. Before it comes a
//! line for each inlined call there, with the same address, numbered too. A module's line says if
//! its symbols were read, are missing, damaged or another module's, or if memory ran out for them. A
//! name that isn't UTF-8 has U+FFFD in place of what is malformed.
//!
//! Where the system information, the exception, the threads or the modules are missing, that is a
//! line, as `no exception`; any other missing stream has none. Where [`TextLimits`] leaves out items
//! of a list, or frames of a thread that is printed as the one that crashed, their number is told; of
//! the frames behind the first one of another thread it isn't.
//!
//! A text of the dump can't begin a line: control characters, ends of lines and marks of direction
//! are printed as escapes, as `\u{1b}`. A backslash stays as it is, so that paths of Windows can be
//! read: a text may look like an escape, and a name may hold quotation marks.
//!
//! # Errors
//!
//! [`text_of`] and [`push_line`] return `AllocError` if an allocation fails: there is no text then,
//! and [`push_line`] leaves its text as it was. [`crash_text`] returns the error of
//! [`minidump::Minidump::read`], else `OutOfMemory`.
//!
//! # What is proved
//!
//! - The text is the one that the definition `text_of` assigns to the value of the crash, and so to
//!   the bytes: [`text_of`], [`crash_text`].
//! - It has no control character below 0x20 but the ends of its lines, and no 0x7f: [`text_of`].
#![tactic(auto)]

mod limits;
mod lists;
mod modules;
mod text;
mod threads;

pub use crash_lines::push_line;
pub use limits::TextLimits;
pub use text::{crash_text, text_of};
