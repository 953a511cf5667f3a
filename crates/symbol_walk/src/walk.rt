//! The walk of a context.
ghost use Rattle.std.specs.Prelude.{◌≡◌, ◌∷◌, IfOk, IsOkUnless, map};
ghost use Rattle.std.specs.Option.{option_copied, option_map};
ghost use Rattle.stack_walk.specs.Frames.{outermost, stack_of};
ghost use Rattle.stack_walk.specs.Walk.{walk_of};
ghost use Rattle.breakpad_symbols.specs.Cfi.{cfi_of};
ghost use Rattle.breakpad_symbols.specs.Function.{function_of};
ghost use Rattle.breakpad_symbols.specs.SymbolFile.{symbols_of};
ghost use Rattle.symbol_walk.specs.Symbols.{cfi_at, function_at, symbols_at};
ghost use Rattle.symbol_walk.specs.Unwinder.{frame_of, pointer_frame, unwinder_of};
ghost use Rattle.symbol_walk.specs.Walk.{caller_of, caller_without, callers_in, end_by_rules};
ghost use Rattle.symbol_walk.specs.Walk.{end_of, plain_frames, symbol_walk_in, walk_from};

use crate::registers::{KnownRegister, Register, RegisterSource, known_by, register_table};
use breakpad_symbols::{CfiRecord, Function, SymbolFile};
use minidump::{Error, MinidumpContext, Steps};
use stack_walk::{Stack, StackFrame, Walk, WalkEnd, link_of, module_place};
use std::alloc::{AllocError, Global};

// A frame, and the registers whose values are known, in the order of the processor.
#[derive(Drop)]
pub(crate) struct KnownFrame {
    pub(crate) frame: StackFrame,
    pub(crate) registers: Vec<KnownRegister>,
}

/// Walks a stack from a context by the symbols of the modules. Returns the frame of the context,
/// its callers, at most `limit` candidates of these, and why there are no more callers: by its rules
/// (`NoReturnRule`, `ZeroReturnAddress`), or else by its frame pointer.
///
/// `symbols` has the symbols of each module at the index that the module has in the list of
/// modules, or `None` if they aren't known. A shorter slice has none for the rest. The only error
/// is `OutOfMemory`.
pub fn walk_by_symbols(
    alloc: Global,
    stack: &Stack<'_, '_>,
    context: &MinidumpContext,
    symbols: &[Option<&SymbolFile<'_>>],
    limit: usize,
) -> Result<Walk, Error>
    ensures walk { IfOk result (λ walk. walk_of walk ≡ symbol_walk_in (stack_of stack.now)
        (map (option_map (λ s. symbols_of s.now)) symbols.now) context.now limit) }
    ensures memory { IsOkUnless result Error.OutOfMemory }
{
    let by = Unwinder {
        stack,
        symbols,
        registers: register_table(&context.raw),
    };
    let first = KnownFrame {
        frame: StackFrame::of_context(context),
        registers: known_by(alloc, &RegisterSource::Context(context), by.registers)?,
    };
    Ok(by.walk(alloc, first, link_of(context), limit)?)
}

// ---- what the frames are found by

// The stack of a thread, the symbols of its modules by their index, and the registers of its
// processor.
#[derive(Clone, Copy)]
pub(crate) struct Unwinder<'w, 'l, 'a, 's> {
    pub(crate) stack: &'w Stack<'l, 'a>,
    pub(crate) symbols: &'w [Option<&'w SymbolFile<'s>>],
    pub(crate) registers: &'static [Register],
}

impl<'w, 's> Unwinder<'w, '_, '_, 's> {
    // Returns the symbols of the kept module that contains an address, and the offset of the
    // address in it, or `None` if they aren't known.
    #[tactic(auto, unfolding(crate::specs::Symbols::symbols_at))]
    pub(crate) fn symbols_at(&self, address: u64) -> Option<(&'w SymbolFile<'s>, u64)>
        ensures { option_map (λ p. (symbols_of p.0.now, p.1)) result ≡ symbols_at
            (unwinder_of self.now).stack.modules (unwinder_of self.now).symbols address }
    {
        let (index, offset) = module_place(self.stack.modules, address)?;
        let symbols = (*self.symbols.get(index)?)?;
        Some((symbols, offset))
    }
}

// Returns the kept rules of an offset, or `None` if none have it.
pub(crate) fn cfi_at<'w, 's>(symbols: &'w SymbolFile<'s>, offset: u64) -> Option<&'w CfiRecord<'s>>
    ensures { option_map cfi_of (option_copied result) ≡ cfi_at (symbols_of symbols.now) offset }
{
    symbols.cfi_at(offset, &mut Steps::new())
}

/// Returns the kept function of a symbol file that contains an offset, or `None` if none does.
pub fn function_at<'w, 's>(symbols: &'w SymbolFile<'s>, offset: u64) -> Option<&'w Function<'s>>
    ensures { option_map function_of (option_copied result)
        ≡ function_at (symbols_of symbols.now) offset }
{
    symbols.function_at(offset, &mut Steps::new())
}

// ---- callers

impl Unwinder<'_, '_, '_, '_> {
    // Walks from the frame of a context that has this link register.
    fn walk(
        &self,
        alloc: Global,
        first: KnownFrame,
        link: Option<u64>,
        limit: usize,
    ) -> Result<Walk, AllocError>
        ensures { IfOk result (λ walk. walk_of walk
            ≡ walk_from (unwinder_of self.now) (frame_of first) link limit) }
    {
        let (frames, last) = self.climb(alloc, first)?;
        let candidates = self
            .stack
            .candidates(alloc, frames.as_slice(), link, limit)?;
        Ok(Walk {
            frames,
            candidates,
            end: self.end_of(alloc, &last)?,
        })
    }

    // Returns a frame with its callers, and the last of them with its registers.
    fn climb(
        &self,
        alloc: Global,
        first: KnownFrame,
    ) -> Result<(Vec<StackFrame>, KnownFrame), AllocError>
        ensures frames { IfOk result (λ climbed. climbed.0.items ≡ plain_frames (frame_of first
            ∷ callers_in (unwinder_of self.now) (frame_of first))) }
        ensures last { IfOk result (λ climbed. frame_of climbed.1 ≡ outermost (frame_of first)
            (callers_in (unwinder_of self.now) (frame_of first))) }
    {
        let mut frames = Vec::new(alloc);
        frames.push(first.frame)?;
        let mut last = first;
        while let Some(caller) = self.caller_of(alloc, &last)? {
            frames.push(caller.frame)?;
            last = caller;
        }
        Ok((frames, last))
    }

    // Returns the caller of a frame: that by its rules, or else that without them. Where the rules
    // end the walk, there is none.
    #[tactic(auto, unfolding(crate::specs::Walk::caller_of, crate::specs::Walk::caller_by_rules))]
    fn caller_of(&self, alloc: Global, known: &KnownFrame) -> Result<Option<KnownFrame>, AllocError>
        ensures { IfOk result (λ caller. option_map frame_of caller
            ≡ caller_of (unwinder_of self.now) (frame_of known.now)) }
    {
        if self.end_by_rules(alloc, known)?.is_some() {
            return Ok(None);
        }
        if let Some(rules) = self.rules_at(known) {
            let caller = rules.caller(alloc, self, &known.frame)?;
            if caller.is_some() {
                return Ok(caller);
            }
        }
        self.caller_without(alloc, known)
    }

    // Returns the caller by the frame pointer, or else the candidate from which the walk starts
    // again.
    fn caller_without(
        &self,
        alloc: Global,
        known: &KnownFrame,
    ) -> Result<Option<KnownFrame>, AllocError>
        ensures { IfOk result (λ caller. option_map frame_of caller
            ≡ caller_without (unwinder_of self.now) (frame_of known.now)) }
    {
        if let Some(caller) = self.stack.caller_of(&known.frame) {
            return Ok(Some(self.pointer_frame(alloc, caller)?));
        }
        match self.restart_of(&known.frame) {
            Some(caller) => Ok(Some(self.pointer_frame(alloc, caller)?)),
            None => Ok(None),
        }
    }

    // Returns a frame of whose registers only the pointers are known.
    fn pointer_frame(&self, alloc: Global, frame: StackFrame) -> Result<KnownFrame, AllocError>
        ensures { IfOk result (λ f. frame_of f ≡ pointer_frame (unwinder_of self.now) frame) }
    {
        let registers = known_by(alloc, &RegisterSource::Pointers(frame), self.registers)?;
        Ok(KnownFrame { frame, registers })
    }

    // Returns why the walk ends by the rules of a frame.
    #[tactic(auto, unfolding(crate::specs::Walk::end_by_rules))]
    fn end_by_rules(&self, alloc: Global, known: &KnownFrame) -> Result<Option<WalkEnd>, AllocError>
        ensures { IfOk result
            (λ end. end ≡ end_by_rules (unwinder_of self.now) (frame_of known.now)) }
    {
        match self.rules_at(known) {
            Some(rules) => rules.end(alloc),
            None => Ok(None),
        }
    }

    // Returns why a frame has no caller.
    fn end_of(&self, alloc: Global, known: &KnownFrame) -> Result<WalkEnd, AllocError>
        ensures { IfOk result (λ end. end ≡ end_of (unwinder_of self.now) (frame_of known.now)) }
    {
        match self.end_by_rules(alloc, known)? {
            Some(end) => Ok(end),
            None => Ok(self.stack.end_at(&known.frame)),
        }
    }
}
