ghost use Rattle.std.specs.Prelude.{◌≡◌, ⊤, IfOk, None, string_bytes, true};
ghost use Rattle.std.specs.List.{list_all};
ghost use Rattle.std.specs.Option.{option_copied, option_map};
ghost use Rattle.minidump.specs.Below.Contexts.Context.{map_ok};
ghost use Rattle.minidump.specs.Below.Format.Answer.{Gives};
ghost use Rattle.crash.specs.Crash.{crash_in, crash_of};
ghost use Rattle.crash_symbols.specs.Shown.{symbolized_of};
ghost use Rattle.crash_lines.specs.Lines.{Adds, is_printed};
ghost use Rattle.crash_text.specs.Page.{if_asked};
ghost use Rattle.crash_text.specs.Text.{signature_lines, text_of};

use crate::limits::TextLimits;
use crate::lists::{push_damage, push_lists};
use crate::modules::push_modules;
use crate::threads::{push_crashed, push_others};
use crash::Crash;
use crash_lines::Part::Text;
use crash_lines::{Added, push_crash, push_head, push_messages, push_none, push_table};
use crash_symbols::{Symbolized, signature_of};
use minidump::{CodeNames, Error};
use std::alloc::{AllocError, Global};

// What a text is made of: a crash, how much of it is printed, and its symbols if they are known.
#[derive(Clone, Copy)]
pub(crate) struct Page<'l, 'a, 's, 'n> {
    pub(crate) crash: &'l Crash<'a>,
    pub(crate) limits: &'l TextLimits,
    pub(crate) symbols: Option<&'l Symbolized<'s, 'n>>,
}

// Returns a number, if it is asked for.
pub(crate) fn if_asked(is_asked: bool, number: Option<u64>) -> Option<u64>
    ensures { result ≡ if_asked is_asked number }
{
    if is_asked { number } else { None }
}

/// Makes the text of the crash of a minidump, whose bytes are `bytes`. The names of codes are those
/// of `names`, and at most `scan` words of each stack are taken for candidates.
///
/// Returns the error of [`minidump::Minidump::read`], else `OutOfMemory` if an allocation fails.
pub fn crash_text(
    alloc: Global,
    bytes: &[u8],
    names: &CodeNames<'_>,
    scan: usize,
    limits: &TextLimits,
) -> Result<String, Error>
    ensures { Gives string_bytes ⊤ result
        (map_ok (text_of limits.now None) (crash_in bytes.now names.now scan)) }
{
    let crash = Crash::read(alloc, bytes, names, scan)?;
    let text = text_of(alloc, &crash, limits, None);
    crash.close();
    Ok(text?)
}

/// Makes the text of a crash. With symbols the frames of a thread are those of its backtrace, with
/// the names that symbols give, and without symbols those of its walk by frame pointers.
///
/// Returns `AllocError` if an allocation fails.
pub fn text_of<'l>(
    alloc: Global,
    crash: &'l Crash<'_>,
    limits: &'l TextLimits,
    symbols: Option<&'l Symbolized<'_, '_>>,
) -> Result<String, AllocError>
    ensures text { IfOk result (λ text. string_bytes text ≡ text_of limits.now
        (option_map symbolized_of (option_copied symbols.entry)) (crash_of crash.now)) }
    // it has no byte below 0x20 but the ends of its lines, and no 0x7f
    ensures printed { IfOk result (λ text. list_all is_printed (string_bytes text) ≡ true) }
{
    let mut text = String::new(alloc);
    let page = Page {
        crash,
        limits,
        symbols,
    };
    let signature = signature_of(alloc, crash, symbols)?;
    push_none(&mut text, crash.cause.exceptions.as_slice())?;
    push_head(&mut text, crash)?;
    push_crash(&mut text, crash)?;
    push_signature(&mut text, &signature)?;
    push_damage(&mut text, crash)?;
    push_crashed(&mut text, page)?;
    push_messages(&mut text, &crash.contents.messages)?;
    push_others(&mut text, page, crash.threads.threads.as_slice())?;
    push_modules(&mut text, page, crash.contents.space.modules_error)?;
    push_lists(&mut text, page)?;
    Ok(text)
}

// Appends the signature of the crash, if it has one.
#[tactic(auto, unfolding(crate::specs::Text::signature_lines))]
fn push_signature(out: &mut String, signature: &Option<String>) -> Added
    ensures { Adds out.old out.new
        (signature_lines (option_map string_bytes signature.now)) result }
{
    push_table(out, &[&[Text("signature ", signature, "")]])
}
