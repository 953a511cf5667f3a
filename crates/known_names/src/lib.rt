//! The names of codes that the files of `names/` list, for a program that has none of these files
//! beside it.
//!
//! [`text`] returns them as one text, which `minidump_names` reads: lines `FAMILY NUMBER NAME`,
//! those of Windows, then those of Linux, then those of macOS, without comments and empty lines.
//!
//! # Errors
//!
//! [`text`] returns `AllocError` if an allocation fails.
//!
//! # What is proved
//!
//! The text is the constants of the modules, in their order: [`text`], by `all_lines`. It is not
//! proved that these are the lines of the files: `names/compile` makes the modules, and
//! `names/compile --check` compares them.
#![tactic(auto)]

ghost use Rattle.std.specs.Prelude.{◌≡◌, IfOk, string_bytes};
ghost use Rattle.known_names.specs.KnownNames.{all_lines};

mod linux;
mod macos;
mod nt_status;
mod win_error;
mod windows;

use std::alloc::{AllocError, Global};

/// Returns the lines of names of all systems.
#[tactic(auto, unfolding(crate::specs::KnownNames::all_lines))]
pub fn text(alloc: Global) -> Result<String, AllocError>
    ensures { IfOk result (λ text. string_bytes text ≡ all_lines) }
{
    let mut text = String::new(alloc);
    windows::push_lines(&mut text)?;
    nt_status::push_lines(&mut text)?;
    win_error::push_lines(&mut text)?;
    linux::push_lines(&mut text)?;
    macos::push_lines(&mut text)?;
    Ok(text)
}
