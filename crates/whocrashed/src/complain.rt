use crash_text::push_line;
use minidump::text::Piece;
use std::alloc::AllocError;
use std::{fmt, io};

/// Prints a text to standard error. Its failure changes nothing of the run.
pub(crate) fn say(rt: &HostRuntime, text: &str) {
    let _ = eprint!(rt; "{text}");
}

/// Prints a line on a path and an error, or words on it, to standard error.
pub(crate) fn complain<E: fmt::Display>(
    rt: &HostRuntime,
    path: &str,
    error: &E,
) -> Result<(), AllocError> {
    let words = format!(in rt.alloc(); "{path}: {error}")?;
    let mut text = String::new(rt.alloc());
    push_line(&mut text, &[Piece::Words(words.as_str())])?;
    say(rt, text.as_str());
    Ok(())
}

/// Prints a line on a path and an error to standard error, or that memory ran out if it did for
/// that line too.
pub(crate) fn complain_in_any_case(rt: &HostRuntime, path: &str, error: &io::Error) {
    if complain(rt, path, error).is_err() {
        say(rt, "whocrashed: Out of memory\n");
    }
}
