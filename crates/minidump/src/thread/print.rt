ghost use Rattle.std.specs.Prelude.{◌≡◌, ◌++◌, OnOk, codes};
ghost use Rattle.std.specs.Option.{option_copied, option_map};
ghost use Rattle.minidump_format.specs.Numbered.{numbered_item};
ghost use Rattle.minidump_format.specs.Print.{Prints};
ghost use Rattle.minidump_format.specs.Text.{line_end};
ghost use Rattle.minidump_system.specs.SystemInfo.{system_info_of};
ghost use Rattle.minidump_memory.specs.Unified.{unified_list, unified_region};
ghost use Rattle.minidump.specs.Thread.{known_context, stack_in_list, stack_of, thread_of};
ghost use Rattle.minidump.specs.ThreadText.{no_stack, no_thread_context, pointer_width, stack_heading};
ghost use Rattle.minidump.specs.ThreadText.{stack_text, thread_context_text, thread_end, thread_head};
ghost use Rattle.minidump.specs.ThreadText.{thread_head_of, thread_text, stack_words_text};

use super::stack::print_words;
use super::{MinidumpThread, known_context};
use minidump_bytes::{Endian, Piece, Told, push_pieces};
use minidump_context::MinidumpContext;
use minidump_format::format::MINIDUMP_THREAD;
use minidump_format::{Error, Numbered, Pushed, print_item, print_line_end, put_text};
use minidump_memory::{UnifiedMemory, UnifiedMemoryList};
use minidump_system::{MinidumpMiscInfo, MinidumpSystemInfo, PointerWidth};
use std::alloc::{AllocError, Global};
use std::io::Write;

impl<'a> MinidumpThread<'a> {
    /// Prints the entry; then the context, if `system` has an architecture by which it can be
    /// decoded; and then, unless `brief` is set, the whole words of the stack that
    /// [`stack_memory`](MinidumpThread::stack_memory) finds in `memory`, or without `memory` those
    /// of the thread's own. A word has the size of a pointer on the processor of `system`, and 8
    /// bytes if that is unknown. `misc` is not used.
    pub fn print<W: Write>(
        &self,
        alloc: Global,
        f: &mut Told<W>,
        memory: Option<&UnifiedMemoryList<'a>>,
        system: Option<&MinidumpSystemInfo>,
        misc: Option<&MinidumpMiscInfo>,
        brief: bool,
    ) -> Result<(), Error>
        ensures { Prints W.contents f.old f.new
            (thread_text (option_map unified_list (option_copied memory.entry))
            (option_map system_info_of (option_copied system.entry)) brief
            (thread_of self.now)) result }
    {
        self.print_after(&self.head(system, misc), alloc, f, memory, system, brief)
    }

    // Prints as `print` does, after a line with the index in the list.
    pub(crate) fn print_numbered<W: Write>(
        &self,
        index: usize,
        alloc: Global,
        f: &mut Told<W>,
        memory: Option<&UnifiedMemoryList<'a>>,
        system: Option<&MinidumpSystemInfo>,
        misc: Option<&MinidumpMiscInfo>,
        brief: bool,
    ) -> Result<(), Error>
        ensures { Prints W.contents f.old f.new
            (numbered_item (codes "thread")
            (thread_text (option_map unified_list (option_copied memory.entry))
            (option_map system_info_of (option_copied system.entry)) brief)
            (index, thread_of self.now)) result }
    {
        let head = Numbered {
            name: "thread",
            index,
            value: self.head(system, misc),
        };
        self.print_after(&head, alloc, f, memory, system, brief)
    }

    // Returns the entry, and the context, if `system` has an architecture by which it can be
    // decoded.
    pub(crate) fn head(
        &self,
        system: Option<&MinidumpSystemInfo>,
        misc: Option<&MinidumpMiscInfo>,
    ) -> ThreadHead<'_>
        ensures { thread_head_of result ≡ thread_head (thread_of self.now).raw
            ++ thread_context_text
            (known_context (option_map system_info_of (option_copied system.entry))
            (thread_of self.now).order (thread_of self.now).context) }
    {
        ThreadHead {
            raw: &self.raw,
            context: known_context(self.context, self.endian, system, misc),
        }
    }

    // Prints the head, and then the stack, or an empty line if `brief` is set.
    #[tactic(auto, using(minidump_format::proofs::Printing::prints_then, minidump_format::proofs::Printing::prints_exit))]
    pub(crate) fn print_after<H: Pushed, W: Write>(
        &self,
        head: &H,
        alloc: Global,
        f: &mut Told<W>,
        memory: Option<&UnifiedMemoryList<'a>>,
        system: Option<&MinidumpSystemInfo>,
        brief: bool,
    ) -> Result<(), Error>
        ensures { Prints W.contents f.old f.new
            (H.text head.now ++ thread_end brief (thread_of self.now).order
            (pointer_width (option_map system_info_of (option_copied system.entry)))
            (stack_of (option_map unified_list (option_copied memory.entry))
            (thread_of self.now))) result }
    {
        print_item(head, alloc, f)?;
        let width = pointer_width(system);
        let stack = self.stack_in(memory);
        print_end(brief, self.endian, width, stack, alloc, f)
    }

    // Returns the memory of the stack.
    fn stack_in<'mem>(
        &'mem self,
        memory: Option<&'mem UnifiedMemoryList<'a>>,
    ) -> Option<UnifiedMemory<'mem, 'a>>
        ensures { option_map unified_region result
            ≡ stack_of (option_map unified_list (option_copied memory.entry)) (thread_of self.now) }
    {
        match &self.stack {
            Some(stack) => Some(UnifiedMemory::Memory(stack)),
            None => stack_in_list(memory, self.raw.stack.start_of_memory_range),
        }
    }
}

// Returns the kept region of a list of memory that contains an address.
fn stack_in_list<'mem, 'a>(
    memory: Option<&'mem UnifiedMemoryList<'a>>,
    address: u64,
) -> Option<UnifiedMemory<'mem, 'a>>
    ensures { option_map unified_region result
        ≡ stack_in_list (option_map unified_list (option_copied memory.entry)) address }
{
    match memory {
        Some(list) => list.memory_at_address(address),
        None => None,
    }
}

// Returns the width of a pointer on the processor of `system`.
fn pointer_width(system: Option<&MinidumpSystemInfo>) -> PointerWidth
    ensures { result ≡ pointer_width (option_map system_info_of (option_copied system.entry)) }
{
    match system {
        Some(system) => system.cpu.pointer_width(),
        None => PointerWidth::Unknown,
    }
}

// The entry of a thread, and its context.
#[derive(Drop)]
pub(crate) struct ThreadHead<'a> {
    raw: &'a MINIDUMP_THREAD,
    context: Option<MinidumpContext>,
}

impl<'a> Pushed for ThreadHead<'a> {
    ghost text = { thread_head_of };

    fn push(&self, out: &mut Vec<u8>) -> Result<(), AllocError> {
        push_entry(out, self.raw)?;
        push_context(out, &self.context)
    }
}

#[rattlefmt::skip]
#[tactic(auto, unfolding(crate::specs::ThreadText::thread_head))]
fn push_entry(out: &mut Vec<u8>, t: &MINIDUMP_THREAD) -> Result<(), AllocError>
    ensures { OnOk result (out.new.items ≡ out.old.items ++ thread_head t.now) }
{
    push_pieces(out, &[
        Piece::Words("MINIDUMP_THREAD\n"),
        Piece::Words("  thread_id                   = "), Piece::Hex(t.thread_id as u64), Piece::Words("\n"),
        Piece::Words("  suspend_count               = "), Piece::Decimal(t.suspend_count as u64), Piece::Words("\n"),
        Piece::Words("  priority_class              = "), Piece::Hex(t.priority_class as u64), Piece::Words("\n"),
        Piece::Words("  priority                    = "), Piece::Hex(t.priority as u64), Piece::Words("\n"),
        Piece::Words("  teb                         = "), Piece::Hex(t.teb), Piece::Words("\n"),
        Piece::Words("  stack.start_of_memory_range = "), Piece::Hex(t.stack.start_of_memory_range), Piece::Words("\n"),
        Piece::Words("  stack.memory.data_size      = "), Piece::Hex(t.stack.memory.data_size as u64), Piece::Words("\n"),
        Piece::Words("  stack.memory.rva            = "), Piece::Hex(t.stack.memory.rva as u64), Piece::Words("\n"),
        Piece::Words("  thread_context.data_size    = "), Piece::Hex(t.thread_context.data_size as u64), Piece::Words("\n"),
        Piece::Words("  thread_context.rva          = "), Piece::Hex(t.thread_context.rva as u64), Piece::Words("\n\n"),
    ])
}

fn push_context(out: &mut Vec<u8>, context: &Option<MinidumpContext>) -> Result<(), AllocError>
    ensures { OnOk result (out.new.items ≡ out.old.items
        ++ thread_context_text (option_map (λ c. c.raw) context.now)) }
{
    match context {
        Some(context) => context.push(out),
        None => push_no_context(out),
    }
}

#[tactic(auto, unfolding(crate::specs::ThreadText::no_thread_context))]
fn push_no_context(out: &mut Vec<u8>) -> Result<(), AllocError>
    ensures { OnOk result (out.new.items ≡ out.old.items ++ no_thread_context) }
{
    out.extend_from_slice(b"  (no context)\n\n")
}

fn print_end<W: Write>(
    brief: bool,
    endian: Endian,
    width: PointerWidth,
    stack: Option<UnifiedMemory<'_, '_>>,
    alloc: Global,
    f: &mut Told<W>,
) -> Result<(), Error>
    ensures { Prints W.contents f.old f.new
        (thread_end brief endian width (option_map unified_region stack.entry)) result }
{
    if brief {
        print_line_end(f)
    } else {
        print_stack(endian, width, stack, alloc, f)
    }
}

fn print_stack<W: Write>(
    endian: Endian,
    width: PointerWidth,
    stack: Option<UnifiedMemory<'_, '_>>,
    alloc: Global,
    f: &mut Told<W>,
) -> Result<(), Error>
    ensures { Prints W.contents f.old f.new
        (stack_text endian width (option_map unified_region stack.entry)) result }
{
    match stack {
        Some(stack) => print_found_stack(stack.bytes(), endian, width, alloc, f),
        None => print_no_stack(f),
    }
}

#[tactic(auto, using(minidump_format::proofs::Printing::prints_then, minidump_format::proofs::Printing::prints_exit))]
fn print_found_stack<W: Write>(
    bytes: &[u8],
    endian: Endian,
    width: PointerWidth,
    alloc: Global,
    f: &mut Told<W>,
) -> Result<(), Error>
    ensures { Prints W.contents f.old f.new
        (stack_heading ++ (stack_words_text endian width bytes.now ++ line_end)) result }
{
    print_stack_heading(f)?;
    print_stack_lines(bytes, endian, width, alloc, f)
}

#[tactic(auto, using(minidump_format::proofs::Printing::prints_then, minidump_format::proofs::Printing::prints_exit))]
fn print_stack_lines<W: Write>(
    bytes: &[u8],
    endian: Endian,
    width: PointerWidth,
    alloc: Global,
    f: &mut Told<W>,
) -> Result<(), Error>
    ensures { Prints W.contents f.old f.new
        (stack_words_text endian width bytes.now ++ line_end) result }
{
    print_words(bytes, endian, width, alloc, f)?;
    print_line_end(f)
}

#[tactic(auto, unfolding(crate::specs::ThreadText::stack_heading))]
fn print_stack_heading<W: Write>(f: &mut Told<W>) -> Result<(), Error>
    ensures { Prints W.contents f.old f.new stack_heading result }
{
    put_text(f, "Stack\n")
}

#[tactic(auto, unfolding(crate::specs::ThreadText::no_stack))]
fn print_no_stack<W: Write>(f: &mut Told<W>) -> Result<(), Error>
    ensures { Prints W.contents f.old f.new no_stack result }
{
    put_text(f, "No stack\n\n")
}
