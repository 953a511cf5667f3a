//! The lines of where the thread that crashed stands: an address, its registers, its code and the
//! words of its stack.
ghost use Rattle.std.specs.Prelude.{◌≡◌, ◌∷◌, [], map};
ghost use Rattle.std.specs.List.{list_any};
ghost use Rattle.std.specs.Option.{option_copied, option_map};
ghost use Rattle.crash_threads.specs.Addresses.{is_placed};
ghost use Rattle.crash_threads.specs.Contexts.{context_of};
ghost use Rattle.crash.specs.Crash.{crash_of};
ghost use Rattle.crash_process.specs.Modules.{loaded_of};
ghost use Rattle.crash_threads.specs.Point.{point_of};
ghost use Rattle.crash_lines.specs.Point.{address_line, crashed_context, heading_of, heading_row};
ghost use Rattle.crash_lines.specs.Point.{if_placed, instruction_lines, is_ordinary, known_lines};
ghost use Rattle.crash_lines.specs.Point.{memory_lines, placed_lines, point_lines};
ghost use Rattle.crash_lines.specs.Point.{processor_lines, register_row, registers_lines, rows};
ghost use Rattle.crash_lines.specs.Point.{thread_id, unloaded_path, words_lines};
ghost use Rattle.crash_lines.specs.Lines.{Adds};

use crate::lines::{Added, push_row, push_table, push_text_line};
use crate::parts::Part::{
    Code, Flags, Hex, HexIf, Id, If, Memory, Names, Place, Registers, Said, Short, Words,
};
use crash::{
    AddressFacts, ContextOrigin, Crash, CrashContext, CrashModule, CrashPoint, ShortContext,
    StackWord,
};

// ---- an address

// Appends the line of an address after its name, with `nowhere` if no module has it.
#[rattlefmt::skip]
#[tactic(auto, unfolding(crate::specs::Point::address_line))]
pub(crate) fn push_address_line<'t>(
    out: &mut String,
    crash: &'t Crash<'_>,
    indent: &'t str,
    name: &'t str,
    nowhere: &'t str,
    facts: &AddressFacts,
) -> Added
    ensures { Adds out.old out.new (address_line (crash_of crash.now) indent.now name.now
        nowhere.now facts.now ∷ []) result }
{
    let modules = crash.modules.loaded.as_slice();
    let unloaded = unloaded_path(crash, facts.unloaded);
    let (inside, below) = (thread_id(crash, facts.stack_of), thread_id(crash, facts.below_stack));
    push_row(out, &[
        Words(indent), Words(name), Words(" "), Hex(facts.address),
        Place(modules, nowhere, facts.module), HexIf(", null + ", facts.null_offset),
        If(!facts.is_canonical, ", not canonical"), Said(", in unloaded ", unloaded),
        Id(", in the stack of thread ", inside), Id(", below the stack of thread ", below),
        Memory(facts.memory),
    ])
}

// Returns the path of the unloaded module of an index.
fn unloaded_path<'l>(crash: &'l Crash<'_>, index: Option<usize>) -> Option<&'l str>
    ensures { option_copied result ≡ unloaded_path (crash_of crash.now) index }
{
    Some(crash.modules.unloaded.get(index?)?.path.as_str())
}

// Returns the id of the thread of an index.
fn thread_id(crash: &Crash<'_>, index: Option<usize>) -> Option<u32>
    ensures { result ≡ thread_id (crash_of crash.now) index }
{
    Some(crash.threads.threads.get(index?)?.id)
}

// ---- the registers

// Appends the registers of the thread that crashed, or that there are none; nothing without the
// system.
pub(crate) fn push_registers(out: &mut String, crash: &Crash<'_>) -> Added
    ensures { Adds out.old out.new (registers_lines (crash_of crash.now)) result }
{
    match &crash.process.system {
        Some(_) => push_known(out, crashed_context(crash)),
        None => Ok(()),
    }
}

// Appends registers below their heading, or that there are none.
fn push_known(out: &mut String, context: Option<&CrashContext>) -> Added
    ensures { Adds out.old out.new
        (known_lines (option_map context_of (option_copied context.entry))) result }
{
    match context {
        Some(context) => {
            push_heading(out, context.origin, context.short)?;
            push_rows(out, context.registers.as_slice(), context.size)
        }
        None => push_text_line(out, "no registers that can be read"),
    }
}

// Returns the registers of the thread that crashed.
fn crashed_context<'l>(crash: &'l Crash<'_>) -> Option<&'l CrashContext>
    ensures { option_map context_of (option_copied result) ≡ crashed_context (crash_of crash.now) }
{
    crash.threads.crashed()?.1.context.as_ref()
}

// Appends the line of whose registers they are, and how much of their context there is, if it is
// cut.
#[tactic(auto, unfolding(crate::specs::Point::heading_row))]
fn push_heading(out: &mut String, origin: ContextOrigin, short: Option<ShortContext>) -> Added
    ensures { Adds out.old out.new (heading_row origin short ∷ []) result }
{
    push_row(out, &[Words(heading_of(origin)), Short(", from a ", short)])
}

// Returns the words for whose registers they are.
fn heading_of(origin: ContextOrigin) -> &'static str
    ensures { result.now ≡ heading_of origin }
{
    match origin {
        ContextOrigin::OfException => "registers at the exception",
        ContextOrigin::OfThread => "registers of the thread when the dump was written",
    }
}

// Appends the rows of registers of `size` bytes each, four a row.
fn push_rows(out: &mut String, registers: &[(&'static str, u64)], size: usize) -> Added
    ensures { Adds out.old out.new (map (register_row size)
        (rows (map (λ r. (r.0.now, r.1)) registers.now))) result }
{
    for row in registers.chunks(4) {
        push_row(out, &[Words("  "), Registers(size, row)])?;
    }
    Ok(())
}

// ---- where the thread stands

// Appends the lines of where the thread that crashed stands, if that is known.
pub(crate) fn push_point(out: &mut String, crash: &Crash<'_>) -> Added
    ensures { Adds out.old out.new (point_lines (crash_of crash.now)) result }
{
    match &crash.point {
        Some(point) => {
            push_processor(out, crash, point)?;
            push_instruction(out, crash, &point.instruction)?;
            push_memory(out, crash.modules.loaded.as_slice(), point)
        }
        None => Ok(()),
    }
}

// Appends the line of the flags and the segments, that of the flags that are set, if there are any, and
// the registers whose values lie in a module or a stack.
#[rattlefmt::skip]
#[tactic(auto, unfolding(crate::specs::Point::flags_lines))]
fn push_processor(out: &mut String, crash: &Crash<'_>, point: &CrashPoint<'_>) -> Added
    ensures { Adds out.old out.new
        (processor_lines (crash_of crash.now) (point_of point.now)) result }
{
    push_table(out, &[
        &[Words("  "), Flags(point.flags.as_slice())],
        &[Names("    flags set:", point.set_flags.as_slice())],
    ])?;
    push_placed(out, crash, point)
}

// Appends the registers whose values lie in a module or a stack, below a heading, if there are any.
fn push_placed(out: &mut String, crash: &Crash<'_>, point: &CrashPoint<'_>) -> Added
    ensures { Adds out.old out.new
        (placed_lines (crash_of crash.now) (point_of point.now).registers) result }
{
    let registers = point.registers.as_slice();
    if !any_placed(registers) {
        return Ok(());
    }
    push_text_line(out, "registers in a module or a stack")?;
    for register in registers {
        push_if_placed(out, crash, register.0, &register.1)?;
    }
    Ok(())
}

// Tells whether the value of one of registers lies in a module or a stack.
fn any_placed(registers: &[(&'static str, AddressFacts)]) -> bool
    ensures { result ≡ list_any (λ r. is_placed r.1) registers.now }
{
    registers.iter().any(|register| register.1.is_placed())
}

// Appends the line of a register, if its value lies in a module or a stack.
fn push_if_placed(out: &mut String, crash: &Crash<'_>, name: &str, facts: &AddressFacts) -> Added
    ensures { Adds out.old out.new
        (if_placed (crash_of crash.now) (name.now, facts.now)) result }
{
    if facts.is_placed() {
        push_address_line(out, crash, "    ", name, "", facts)
    } else {
        Ok(())
    }
}

// Appends the line of an instruction pointer, unless it is ordinary.
fn push_instruction(out: &mut String, crash: &Crash<'_>, facts: &AddressFacts) -> Added
    ensures { Adds out.old out.new (instruction_lines (crash_of crash.now) facts.now) result }
{
    if is_ordinary(facts) {
        Ok(())
    } else {
        push_address_line(out, crash, "", "instruction", " in no module", facts)
    }
}

// Tells whether an address is ordinary for code: a module has it, and its memory may be run as code
// or isn't known.
fn is_ordinary(facts: &AddressFacts) -> bool
    ensures { result ≡ is_ordinary facts.now }
{
    facts.module.is_some() && facts.memory.map_or(true, |memory| memory.is_executable())
}

// Appends the line of the bytes at the instruction pointer, if there are any, and the words of the stack.
#[tactic(auto, unfolding(crate::specs::Point::code_lines))]
fn push_memory(out: &mut String, modules: &[CrashModule], point: &CrashPoint<'_>) -> Added
    ensures { Adds out.old out.new
        (memory_lines (map loaded_of modules.now) (point_of point.now)) result }
{
    push_table(out, &[&[Code(point.instruction.address, point.code)]])?;
    push_words(out, modules, point.words.as_slice())
}

// Appends the words of the stack, below a heading, if there are any.
#[rattlefmt::skip]
#[tactic(auto, unfolding(crate::specs::Point::word_line))]
fn push_words(out: &mut String, modules: &[CrashModule], words: &[StackWord]) -> Added
    ensures { Adds out.old out.new (words_lines (map loaded_of modules.now) words.now) result }
{
    if words.is_empty() {
        return Ok(());
    }
    push_text_line(out, "words at the stack pointer")?;
    for word in words {
        push_row(out, &[
            Words("    "), Hex(word.address), Words(" "), Hex(word.value),
            Place(modules, "", word.module),
        ])?;
    }
    Ok(())
}
