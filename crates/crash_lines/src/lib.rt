//! Lines of the text of a crash: how a row of parts becomes a line, and the lines that no symbols
//! change. `crash_text` puts them together with those of frames, threads, modules, lists and damage.
//!
//! - A [`Part`] of a row writes itself; [`push_row`] appends the line of a row, and [`push_table`] those
//!   of rows, without those that have no text.
//! - [`push_none`] and [`push_head`] append the head of the text, [`push_crash`] the exceptions and where
//!   the thread that crashed stands, and [`push_messages`] what the process itself said.
//!
//! Control characters are printed as escapes: a line has none but its line feed.
//!
//! # Errors
//!
//! `AllocError` alone, if an allocation fails. A call that appends one line then leaves the text as it
//! was; of several lines some may be there.
//!
//! # What is proved
//!
//! - Each call appends the lines that a definition assigns to its arguments: `Adds` in the contract of
//!   each. What a part writes is `part_text`. What the text has after an error is proved of
//!   [`push_line`], [`push_row`], [`push_count`] and [`push_if_missing`].
//! - A line is its text, with control characters as escapes, and a line feed: `line_of`.
#![tactic(auto)]

mod exceptions;
mod lines;
mod messages;
mod parts;
mod point;
mod system;

pub use exceptions::{push_crash, push_none};
pub use lines::{Added, push_count, push_if_missing, push_line, push_row, push_table};
pub use messages::push_messages;
pub use parts::Part;
pub use system::push_head;
