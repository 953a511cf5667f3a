//! Laws of walks by symbols, over the definitions that the contract of [`crate::walk_by_symbols`]
//! names.
ghost use Rattle.std.specs.Prelude.{◌≡◌, ◌↔◌, ◌≤◌, ◌+◌, ℕ, List, Option, Some, length};
ghost use Rattle.minidump.specs.declared.MinidumpContext.{MinidumpContext};
ghost use Rattle.stack_walk.specs.declared.frame.FrameTrust.TheVariants.{Cfi};
ghost use Rattle.stack_walk.specs.Frames.{AreCallers, StackValue, outermost, stack_bytes};
ghost use Rattle.stack_walk.specs.Walk.{walk_in};
ghost use Rattle.breakpad_symbols.specs.SymbolFile.{SymbolsValue};
ghost use Rattle.symbol_walk.specs.Rules.{IsByRules};
ghost use Rattle.symbol_walk.specs.Symbols.{HaveNone};
ghost use Rattle.symbol_walk.specs.Unwinder.{FrameValue, UnwinderValue};
ghost use Rattle.symbol_walk.specs.Walk.{caller_of, callers_in, symbol_walk_in};

/// Without symbols a walk is that of [`stack_walk`].
pub fn without_symbols_a_walk_is_by_frame_pointers()
    ensures { (s : StackValue) (symbols : List (Option SymbolsValue)) (c : MinidumpContext)
        (limit : ℕ) → HaveNone symbols
        → symbol_walk_in s symbols c limit ≡ walk_in s c limit }
{}

/// A frame has exactly one list of callers: each is the caller of the one before it, and the last
/// has none.
#[tactic(auto, using(crate::proofs::ReachLemmas::callers_by))]
pub fn one_list_of_callers()
    ensures { (u : UnwinderValue) (f : FrameValue) (callers : List FrameValue) (last : FrameValue)
        → AreCallers (caller_of u) f callers last
        ↔ ((callers ≡ callers_in u f) × (last ≡ outermost f (callers_in u f))) }
{}

/// A frame by rules has the instruction and the registers that the rules of its callee give by the
/// registers of that.
#[tactic(auto, using(crate::proofs::ReachLemmas::is_by_rules))]
pub fn rules_give_the_registers()
    ensures { (u : UnwinderValue) (f g : FrameValue) → caller_of u f ≡ Some g → g.frame.trust ≡ Cfi
        → IsByRules u f g }
{}

/// A walk has the context's frame, and at most one caller more than the stack has bytes.
#[tactic(auto, using(stack_walk::proofs::CallerLemmas::few_callers, std::proofs::lemmas::Grind::common_steps))]
pub fn frames_are_few()
    ensures { (s : StackValue) (symbols : List (Option SymbolsValue)) (c : MinidumpContext)
        (limit : ℕ) → length (symbol_walk_in s symbols c limit).frames
        ≤ length (stack_bytes s) + 2 }
{}
