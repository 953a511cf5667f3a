ghost use Rattle.std.specs.Prelude.{◌≡◌, IfOk, map};
ghost use Rattle.std.specs.Option.{option_copied, option_map};
ghost use Rattle.crash_threads.specs.Threads.{thread_value};
ghost use Rattle.crash_symbols.specs.Shown.{symbolized_of};
ghost use Rattle.crash_lines.specs.Lines.{Adds};
ghost use Rattle.crash_text.specs.Modules.{HasMarks, is_marked, module_at};
ghost use Rattle.crash_text.specs.Modules.{modules_lines, named_modules, symbols_text};
ghost use Rattle.crash_text.specs.Page.{page_of};
ghost use Rattle.crash_text.specs.Threads.{frames_in};

use crate::text::{Page, if_asked};
use crate::threads::frames_at;
use crash::{AddressFacts, CrashThread};
use crash_lines::Part::{DecimalIf, Hex, HexIf, Key, Text, Words};
use crash_lines::{Added, push_count, push_if_missing, push_row};
use crash_symbols::{SymbolState, Symbolized, mark_frames};
use minidump::Error;
use std::alloc::{AllocError, Global};

// Appends the number of modules and those that are listed, or that their list is missing.
pub(crate) fn push_modules(
    out: &mut String,
    page: Page<'_, '_, '_, '_>,
    error: Option<Error>,
) -> Added
    ensures { Adds out.old out.new (modules_lines (page_of page.entry) error) result }
{
    match error {
        None => {
            push_count(out, "modules", page.crash.modules.loaded.len())?;
            push_named(out, page)
        }
        Some(error) => push_if_missing(out, "no modules", error),
    }
}

// Appends the lines of the modules that are listed.
fn push_named(out: &mut String, page: Page<'_, '_, '_, '_>) -> Added
    ensures { Adds out.old out.new (named_modules (page_of page.entry)) result }
{
    let loaded = page.crash.modules.loaded.as_slice();
    let threads = page.crash.threads.threads.as_slice();
    let marks = marks_of(*out.allocator(), loaded.len(), page, threads)?;
    for index in page.crash.modules.by_address.as_slice() {
        push_at(out, page, marks.as_slice(), *index)?;
    }
    Ok(())
}

// Marks the modules that the printed frames of threads are in, by their indices.
fn marks_of(
    alloc: Global,
    count: usize,
    page: Page<'_, '_, '_, '_>,
    threads: &[CrashThread],
) -> Result<Vec<bool>, AllocError>
    ensures { IfOk result (λ marks. HasMarks marks.items count
        (frames_in (page_of page.entry) (map thread_value threads.now))) }
{
    let mut marks = vec![in alloc; false; count]?;
    for (number, thread) in threads.iter().enumerate() {
        let (frames, candidates) = frames_at(page, number, thread);
        mark_frames(marks.as_mut_slice(), frames);
        mark_frames(marks.as_mut_slice(), candidates);
    }
    Ok(marks)
}

// Appends the line of the module of an index, if all modules are asked for, or if it has the
// address of the crash or a mark: with its end and its index if all are asked for.
#[rattlefmt::skip]
#[tactic(auto, unfolding(crate::specs::Modules::module_line))]
fn push_at(out: &mut String, page: Page<'_, '_, '_, '_>, marks: &[bool], index: usize) -> Added
    ensures { Adds out.old out.new (module_at (page_of page.entry)
        (is_marked page.entry.crash.now.cause.address marks.now) index) result }
{
    let is_asked = page.limits.lists || page.limits.modules;
    let is_named = is_marked(page.crash.cause.address, marks, index);
    let symbols = symbols_text(page.symbols, index);
    match page.crash.modules.loaded.get(index) {
        Some(module) if is_asked || is_named => push_row(out, &[
            Words("    "), Hex(module.base), HexIf("-", if_asked(is_asked, module.end)), Words(" "),
            Words(module.path.as_str()), Text(", version ", &module.version, ""),
            Text(", debug ", &module.debug_file, ""), Text("/", &module.debug_id, ""),
            Key(", code ", module.file.as_str(), &module.code_id), Words(symbols),
            DecimalIf(", index ", if_asked(is_asked, Some(index as u64)), ""),
        ]),
        _ => Ok(()),
    }
}

// Returns the words for the symbols of the module of an index, if they were looked for.
fn symbols_text(symbols: Option<&Symbolized<'_, '_>>, index: usize) -> &'static str
    ensures { result.now ≡ symbols_text
        (option_map symbolized_of (option_copied symbols.entry)) index }
{
    match symbols {
        Some(known) => match known.symbols.state(index) {
            SymbolState::Unwanted => "",
            SymbolState::Loaded => ", symbols read",
            SymbolState::Missing => ", no symbols",
            SymbolState::Corrupt => ", symbols of another module or damaged",
            SymbolState::OutOfMemory => ", no memory for its symbols",
        },
        None => "",
    }
}

// Tells whether the address of the crash is in the module of an index, or it has a mark.
fn is_marked(address: Option<AddressFacts>, marks: &[bool], index: usize) -> bool
    ensures { result ≡ is_marked address marks.now index }
{
    address.is_some_and(|facts| matches!(facts.module, Some((place, _)) if place == index))
        || matches!(marks.get(index), Some(true))
}
