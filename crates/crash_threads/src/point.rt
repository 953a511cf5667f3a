//! Where a thread stands.
ghost use Rattle.std.specs.Prelude.{◌≡◌, IfOk, map};
ghost use Rattle.std.specs.Option.{option_map};
ghost use Rattle.minidump.specs.Below.MemoryLists.Unified.{unified_list};
ghost use Rattle.stack_walk.specs.Frames.{stack_of};
ghost use Rattle.crash_streams.specs.Contents.{contents_of};
ghost use Rattle.crash_threads.specs.Point.{arm64_flags, arm_flags, code_at, flags_of, names_in, point_in, point_of};
ghost use Rattle.crash_threads.specs.Point.{register_facts, set_flags, word_at, words_from, x86_flags};

use crate::addresses::{AddressFacts, facts_of};
use crate::contexts::register_values;
use crate::threads::walked_at;
use crash_streams::Contents;
use minidump::{MinidumpContext, MinidumpRawContext, UnifiedMemoryList};
use stack_walk::{Stack, is_address, module_place};
use std::alloc::{AllocError, Global};

/// Where a thread stands, and what its memory has there.
#[derive(Drop)]
pub struct CrashPoint<'a> {
    /// What is known of its instruction pointer.
    pub instruction: AddressFacts,
    /// What is known of the value of each register that may hold an address, which on x86 `eflags`
    /// can't, each with its name, in the order of the processor. The registers are those of the context
    /// by which the thread is walked.
    pub registers: Vec<(&'static str, AddressFacts)>,
    /// The bytes from the instruction pointer on, at most 16; none if the dump lacks them.
    pub code: &'a [u8],
    /// Those of the 16 words from its stack pointer up that its stack has.
    pub words: Vec<StackWord>,
    /// The flags of its processor and the segments, each its name and its value: on x86-64 `eflags`,
    /// `cs`, `ss`, `ds`, `es`, `fs` and `gs`, on x86 those without `eflags`, which is among the
    /// registers, on ARM and ARM64 `cpsr`.
    pub flags: Vec<(&'static str, u64)>,
    /// The names of the flags of its processor that are set. On x86 and x86-64 those of `eflags`, by
    /// Intel's names, from the lowest bit up: CF, PF, AF, ZF, SF, TF, IF, DF, OF, NT, RF, VM, AC, VIF,
    /// VIP and ID. On ARM and ARM64 those of `cpsr`, by Arm's names, from the highest bit down: N, Z, C
    /// and V, then on ARM Q, J, SSBS, PAN, DIT, E, A, I, F and T, and on ARM64 TCO, DIT, UAO, PAN, SS,
    /// IL, ALLINT, SSBS, D, A, I and F. Fields of more bits, as IOPL and the mode, are none.
    pub set_flags: Vec<&'static str>,
}

/// A word of a stack.
#[derive(Clone, Copy)]
pub struct StackWord {
    /// Where it stands.
    pub address: u64,
    /// What it holds.
    pub value: u64,
    /// The index in the list of modules of the kept one that contains the value, as an address, and
    /// the offset in that.
    pub module: Option<(usize, u64)>,
}

/// Returns where the thread of an index stands, or `None` if it has no walk, or there is no such thread.
/// Of a return address the low `code_bits` bits are its address, and `counts` is the index of the
/// exception that counts.
pub fn point_of<'a>(
    alloc: Global,
    contents: &Contents<'a>,
    code_bits: u32,
    counts: Option<usize>,
    thread: Option<usize>,
) -> Result<Option<CrashPoint<'a>>, AllocError>
    ensures { IfOk result (λ point. option_map point_of point
        ≡ point_in (contents_of contents.now) code_bits counts thread) }
{
    let Some(thread) = thread else {
        return Ok(None);
    };
    let Some((stack, context)) = walked_at(contents, code_bits, counts, thread) else {
        return Ok(None);
    };
    let instruction = context.get_instruction_pointer();
    Ok(Some(CrashPoint {
        instruction: facts_of(contents, instruction),
        registers: register_facts(alloc, contents, &context)?,
        code: code_at(&contents.space.memory, instruction),
        words: words_from(alloc, &stack, context.get_stack_pointer(), 16)?,
        flags: flags_of(alloc, &context.raw)?,
        set_flags: set_flags_of(alloc, &context.raw)?,
    }))
}

// ---- the registers

// Returns what is known of the value of each register of a context that may hold an address.
fn register_facts(
    alloc: Global,
    contents: &Contents<'_>,
    context: &MinidumpContext,
) -> Result<Vec<(&'static str, AddressFacts)>, AllocError>
    ensures { IfOk result (λ registers. map (λ r. (r.0.now, r.1)) registers.items
        ≡ register_facts (contents_of contents.now) context.now.raw) }
{
    let registers = register_values(alloc, context)?;
    let mut facts = Vec::new(alloc);
    for register in registers.as_slice() {
        if register.0 != "eflags" {
            facts.push((register.0, facts_of(contents, register.1)))?;
        }
    }
    Ok(facts)
}

// ---- the code

// Returns the bytes that the memory has from an address on, at most 16.
fn code_at<'a>(memory: &UnifiedMemoryList<'a>, address: u64) -> &'a [u8]
    ensures { result.now ≡ code_at (unified_list memory.now) address }
{
    let Some(region) = memory.memory_at_address(address) else {
        return &[];
    };
    let from = address.saturating_sub(region.base_address()) as usize;
    let code = region.bytes().get(from..).unwrap_or(&[]);
    &code[..code.len().min(16)]
}

// ---- the words

// Returns those of `limit` words from an address up that a stack has.
fn words_from(
    alloc: Global,
    stack: &Stack<'_, '_>,
    from: u64,
    limit: usize,
) -> Result<Vec<StackWord>, AllocError>
    ensures { IfOk result (λ words. words.items ≡ words_from (stack_of stack.now) from limit) }
{
    (0..limit)
        .filter_map(|index| word_at(stack, from, index))
        .collect(alloc)
}

// Returns the word of a number from an address up, if the stack has it.
#[tactic(auto, using(crate::proofs::PointLemmas::no_word), unfolding(crate::specs::Point::word_at))]
fn word_at(stack: &Stack<'_, '_>, from: u64, index: usize) -> Option<StackWord>
    ensures { result ≡ word_at (stack_of stack.now) from index }
{
    let size = stack.width.size_in_bytes()? as u64;
    let address = from.checked_add((index as u64).checked_mul(size)?)?;
    if !is_address(stack.width, address) {
        return None;
    }
    let value = stack.word_at(address)?;
    let module = module_place(stack.modules, value);
    Some(StackWord {
        address,
        value,
        module,
    })
}

// ---- the flags

// Returns the flags and the segments of a context.
#[rattlefmt::skip]
fn flags_of(alloc: Global, raw: &MinidumpRawContext) -> Result<Vec<(&'static str, u64)>, AllocError>
    ensures { IfOk result (λ flags. map (λ r. (r.0.now, r.1)) flags.items ≡ flags_of raw.now) }
{
    match raw {
        MinidumpRawContext::X86(c) => Ok(vec![in alloc;
            ("cs", c.cs as u64), ("ss", c.ss as u64), ("ds", c.ds as u64),
            ("es", c.es as u64), ("fs", c.fs as u64), ("gs", c.gs as u64),
        ]?),
        MinidumpRawContext::Amd64(c) => Ok(vec![in alloc;
            ("eflags", c.eflags as u64), ("cs", c.cs as u64), ("ss", c.ss as u64), ("ds", c.ds as u64),
            ("es", c.es as u64), ("fs", c.fs as u64), ("gs", c.gs as u64),
        ]?),
        MinidumpRawContext::Arm(c) => Ok(vec![in alloc; ("cpsr", c.cpsr as u64)]?),
        MinidumpRawContext::Arm64(c) => Ok(vec![in alloc; ("cpsr", c.cpsr as u64)]?),
        MinidumpRawContext::OldArm64(c) => Ok(vec![in alloc; ("cpsr", c.cpsr as u64)]?),
    }
}

// ---- the flags that are set

// A flag: its name and its bit.
type Flag = (&'static str, u32);

// Returns the names of the flags that are set in a context.
fn set_flags_of(alloc: Global, raw: &MinidumpRawContext) -> Result<Vec<&'static str>, AllocError>
    ensures { IfOk result (λ names. map (λ n. n.now) names.items ≡ set_flags raw.now) }
{
    match raw {
        MinidumpRawContext::X86(context) => x86_names(alloc, context.eflags),
        MinidumpRawContext::Amd64(context) => x86_names(alloc, context.eflags),
        MinidumpRawContext::Arm(context) => arm_names(alloc, context.cpsr),
        MinidumpRawContext::Arm64(context) => arm64_names(alloc, context.cpsr),
        MinidumpRawContext::OldArm64(context) => arm64_names(alloc, context.cpsr),
    }
}

// Returns the names of the flags that are set in eflags.
#[rattlefmt::skip]
#[tactic(auto, unfolding(crate::specs::Point::x86_flags))]
fn x86_names(alloc: Global, flags: u32) -> Result<Vec<&'static str>, AllocError>
    ensures { IfOk result (λ names. map (λ n. n.now) names.items ≡ names_in x86_flags flags) }
{
    names_in(alloc, &[
        ("CF", 0x1), ("PF", 0x4), ("AF", 0x10), ("ZF", 0x40), ("SF", 0x80), ("TF", 0x100),
        ("IF", 0x200), ("DF", 0x400), ("OF", 0x800), ("NT", 0x4000), ("RF", 0x1_0000),
        ("VM", 0x2_0000), ("AC", 0x4_0000), ("VIF", 0x8_0000), ("VIP", 0x10_0000), ("ID", 0x20_0000),
    ], flags)
}

// Returns the names of the flags that are set in cpsr of ARM.
#[rattlefmt::skip]
#[tactic(auto, unfolding(crate::specs::Point::arm_flags))]
fn arm_names(alloc: Global, flags: u32) -> Result<Vec<&'static str>, AllocError>
    ensures { IfOk result (λ names. map (λ n. n.now) names.items ≡ names_in arm_flags flags) }
{
    names_in(alloc, &[
        ("N", 0x8000_0000), ("Z", 0x4000_0000), ("C", 0x2000_0000), ("V", 0x1000_0000),
        ("Q", 0x800_0000), ("J", 0x100_0000), ("SSBS", 0x80_0000), ("PAN", 0x40_0000),
        ("DIT", 0x20_0000), ("E", 0x200), ("A", 0x100), ("I", 0x80), ("F", 0x40), ("T", 0x20),
    ], flags)
}

// Returns the names of the flags that are set in cpsr of ARM64.
#[rattlefmt::skip]
#[tactic(auto, unfolding(crate::specs::Point::arm64_flags))]
fn arm64_names(alloc: Global, flags: u32) -> Result<Vec<&'static str>, AllocError>
    ensures { IfOk result (λ names. map (λ n. n.now) names.items ≡ names_in arm64_flags flags) }
{
    names_in(alloc, &[
        ("N", 0x8000_0000), ("Z", 0x4000_0000), ("C", 0x2000_0000), ("V", 0x1000_0000),
        ("TCO", 0x200_0000), ("DIT", 0x100_0000), ("UAO", 0x80_0000), ("PAN", 0x40_0000),
        ("SS", 0x20_0000), ("IL", 0x10_0000), ("ALLINT", 0x2000), ("SSBS", 0x1000),
        ("D", 0x200), ("A", 0x100), ("I", 0x80), ("F", 0x40),
    ], flags)
}

// Returns the names of the flags of a table that a number has.
#[tactic(auto, unfolding(crate::specs::Point::names_in))]
fn names_in(alloc: Global, table: &[Flag], number: u32) -> Result<Vec<&'static str>, AllocError>
    ensures { IfOk result (λ names. map (λ n. n.now) names.items
        ≡ names_in (map (λ f. (f.0.now, f.1)) table.now) number) }
{
    let mut names = Vec::new(alloc);
    for flag in table {
        if number & flag.1 == flag.1 {
            names.push(flag.0)?;
        }
    }
    Ok(names)
}
