mod names;
mod reasons;
mod texts;

use minidump::{CodeFamily, CodeNames, CrashReason, Error, Told};
use std::alloc::Global;

type Lists = &'static [(CodeFamily, &'static [(u32, &'static str)])];

// The text of a reason as it is written.
fn written(alloc: Global, reason: CrashReason, names: &CodeNames<'_>) -> Result<Vec<u8>, Error> {
    let mut f = Told::new(Vec::new(alloc));
    reason.write_to(alloc, names, &mut f)?;
    Ok(f.into_device())
}

// Tests whether the text of a reason, written or returned, is this one.
fn has_text(
    alloc: Global,
    reason: CrashReason,
    names: &CodeNames<'_>,
    text: &str,
) -> Result<bool, Error> {
    let is_written = written(alloc, reason, names)?.as_slice() == text.as_bytes();
    Ok(is_written && reason.text(alloc, names)?.as_str() == text)
}
