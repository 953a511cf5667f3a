//! The candidates of a walk: the link register and words of the stack.
ghost use Rattle.std.specs.Prelude.{◌≡◌, ◌+◌, ◌++◌, [], List, IfOk, OnOk};
ghost use Rattle.std.specs.List.{cons_option, fold};
ghost use Rattle.stack_walk.specs.Found.{IsFound, IsSeen, up_to};
ghost use Rattle.stack_walk.specs.Frames.{lacks, link_candidate, link_in};
ghost use Rattle.stack_walk.specs.Frames.{may_hold_call, scan, stack_of, word_candidate};
ghost use Rattle.stack_walk.specs.Frames.{word_candidates, words_above, words_below};
ghost use Rattle.stack_walk.specs.Frames.{words_between, words_from};
ghost use Rattle.stack_walk.specs.declared.frame.StackFrame.{StackFrame};

use crate::addresses::address_after;
use crate::calls::may_end_call;
use crate::frame::{call_site, has_code, is_past_headers, may_be_run};
use crate::stack::record_of;
use crate::{FrameTrust, Stack, StackFrame};
use minidump::{MinidumpContext, MinidumpRawContext};
use std::alloc::{AllocError, Global};
use std::collections::BTreeSet;

impl Stack<'_, '_> {
    /// Returns the candidate of an aligned word: the frame whose return address the word may be.
    /// The word has the number `first + index`: as many words lie below it in the address space.
    ///
    /// Returns `None` if the stack doesn't hold the word, if no address lies after it, or if it
    /// can't be a return address, as [`frames`](crate::frames) says.
    #[tactic(auto, using(crate::proofs::AddressLemmas::none_after), unfolding(crate::specs::Frames::word_candidate))]
    pub fn word_candidate(&self, first: u64, index: usize) -> Option<StackFrame>
        ensures { result ≡ word_candidate (stack_of self.now) (first + index) }
    {
        let size = self.width.size_in_bytes()? as u64;
        let address = first.checked_add(index as u64)?.checked_mul(size)?;
        let stack_pointer = address_after(self.width, address, size)?;
        let instruction = self.return_address(self.word_at(address)?);
        let call = call_site(self.cpu, instruction)?;
        let is_place = is_past_headers(self.modules, self.infos, call);
        (is_place && may_hold_call(self, call)).then_some(StackFrame {
            instruction,
            stack_pointer,
            frame_pointer: None,
            trust: FrameTrust::Scan,
        })
    }

    /// Returns at most `limit` candidates of a walk with these frames, from a context with this
    /// link register ([`link_of`](crate::link_of)). Each return address is there once: by the link
    /// register, if the walk may lack its caller; else by the lowest word that holds it, of the
    /// aligned words of the first frame below its record, if its caller is by that, and then of
    /// those from the last frame's stack pointer on. The only error is that no memory is left.
    pub fn candidates(
        &self,
        alloc: Global,
        frames: &[StackFrame],
        link: Option<u64>,
        limit: usize,
    ) -> Result<Vec<StackFrame>, AllocError>
        ensures { IfOk result
            (λ found. found.items ≡ scan (stack_of self.now) link frames.now limit) }
    {
        let mut found = Found {
            frames: Vec::new(alloc),
            seen: BTreeSet::new(alloc),
        };
        found.add(link_candidate(self, link, frames), limit)?;
        found.add_words(self, words_below(self, frames), limit)?;
        found.add_words(self, words_above(self, frames), limit)?;
        Ok(found.frames)
    }
}

// The candidates so far, and their return addresses.
#[derive(Drop)]
struct Found {
    frames: Vec<StackFrame>,
    seen: BTreeSet<u64>,
}

impl Found {
    // Adds the candidates of aligned words, until there are `limit` candidates in all. The words
    // are given by the number of the first and how many there are.
    fn add_words(
        &mut self,
        stack: &Stack<'_, '_>,
        words: (u64, usize),
        limit: usize,
    ) -> Result<(), AllocError>
        ensures { OnOk result ((before : List StackFrame) → IsFound limit before self.old
            → IsFound limit (before ++ word_candidates (stack_of stack.now) words) self.new) }
    {
        let (first, count) = words;
        for index in 0..count {
            if self.frames.len() >= limit {
                return Ok(());
            }
            self.add(stack.word_candidate(first, index), limit)?;
        }
        Ok(())
    }

    // Adds a candidate, if there is one, unless one with its return address is there, or there are
    // `limit` already.
    fn add(&mut self, candidate: Option<StackFrame>, limit: usize) -> Result<(), AllocError>
        ensures { OnOk result (IsSeen self.old → IsSeen self.new × (self.new.frames.items
            ≡ fold (up_to limit) self.old.frames.items (cons_option candidate []))) }
    {
        if let Some(candidate) = candidate {
            if self.frames.len() < limit && self.seen.insert(candidate.instruction)? {
                self.frames.push(candidate)?;
            }
        }
        Ok(())
    }
}

// ---- the words

// Returns the aligned words of the first frame of a walk below its record, if its caller is by
// that: the number of the first word, and how many there are.
#[tactic(auto, unfolding(crate::specs::Frames::words_below))]
fn words_below(stack: &Stack<'_, '_>, frames: &[StackFrame]) -> (u64, usize)
    ensures { result ≡ words_below (stack_of stack.now) frames.now }
{
    match frames {
        [first, caller, ..] => match (caller.trust, record_of(first)) {
            (FrameTrust::FramePointer, Some(record)) => {
                words_between(stack, first.stack_pointer, record)
            }
            _ => (0, 0),
        },
        _ => (0, 0),
    }
}

// Returns the aligned words from the last frame's stack pointer on.
fn words_above(stack: &Stack<'_, '_>, frames: &[StackFrame]) -> (u64, usize)
    ensures { result ≡ words_above (stack_of stack.now) frames.now }
{
    match frames.last() {
        Some(last) => words_from(stack, last.stack_pointer),
        None => (0, 0),
    }
}

// Returns the aligned words from an address on that lie below another.
#[tactic(auto, using(crate::proofs::AddressLemmas::some_bytes))]
fn words_between(stack: &Stack<'_, '_>, from: u64, until: u64) -> (u64, usize)
    ensures { result ≡ words_between (stack_of stack.now) from until }
{
    let (first, count) = words_from(stack, from);
    let below = match stack.width.size_in_bytes() {
        Some(size) => until / size as u64,
        None => 0,
    };
    let most = below.saturating_sub(first);
    (first, (count as u64).min(most) as usize)
}

// Returns the number of the first aligned word of a stack from an address on, and at most how many
// words the stack has from there.
#[tactic(auto, using(crate::proofs::AddressLemmas::some_bytes))]
fn words_from(stack: &Stack<'_, '_>, from: u64) -> (u64, usize)
    ensures { result ≡ words_from (stack_of stack.now) from }
{
    match (stack.memory, stack.width.size_in_bytes()) {
        (Some(memory), Some(size)) => {
            let from = from.max(memory.base_address());
            let len = memory.bytes().len();
            (from.div_ceil(size as u64), len / size as usize)
        }
        _ => (0, 0),
    }
}

// ---- the candidate of the link register

/// Returns the link register of a context, the return address of a function that hasn't saved it.
/// Returns `None` if it isn't valid, and for x86 and x86-64, which have none.
pub fn link_of(context: &MinidumpContext) -> Option<u64>
    ensures { result ≡ link_in context.now }
{
    match &context.raw {
        MinidumpRawContext::X86(_) | MinidumpRawContext::Amd64(_) => None,
        MinidumpRawContext::Arm(_)
        | MinidumpRawContext::Arm64(_)
        | MinidumpRawContext::OldArm64(_) => context.get_register("lr"),
    }
}

// Returns the candidate of the link register of a walk's context, if it has one: the frame that the
// first one may return to, where the walk lacks it.
#[tactic(auto, unfolding(crate::specs::Frames::link_candidate))]
fn link_candidate(
    stack: &Stack<'_, '_>,
    link: Option<u64>,
    frames: &[StackFrame],
) -> Option<StackFrame>
    ensures { result ≡ link_candidate (stack_of stack.now) link frames.now }
{
    let instruction = stack.return_address(link?);
    let first = frames.first()?;
    let call = call_site(stack.cpu, instruction)?;
    let is_candidate = lacks(frames, instruction)
        && has_code(stack.modules, stack.infos, call)
        && may_hold_call(stack, call);
    is_candidate.then_some(StackFrame {
        instruction,
        stack_pointer: first.stack_pointer,
        frame_pointer: first.frame_pointer,
        trust: FrameTrust::Link,
    })
}

// Tells whether a walk lacks the frame with a return address after its first frame: whether the
// caller of that, if there is one, isn't found by rules, and has another return address.
fn lacks(frames: &[StackFrame], address: u64) -> bool
    ensures { result ≡ lacks frames.now address }
{
    frames.get(1).map_or(true, |caller| {
        !matches!(caller.trust, FrameTrust::Cfi) && caller.instruction != address
    })
}

// ---- calls

// Tells whether the last byte of a call may stand at an address: whether the memory there may be
// run, and a call ends there, as far as is known of both.
fn may_hold_call(stack: &Stack<'_, '_>, call: u64) -> bool
    ensures { result ≡ may_hold_call (stack_of stack.now) call }
{
    may_be_run(stack.infos, call) && may_end_call(stack.cpu, stack.code, call)
}
