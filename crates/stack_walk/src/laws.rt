//! Laws of frames, over the definitions that the contract of [`crate::frames`] names.
ghost use Rattle.std.specs.Prelude.{◌≡◌, ◌↔◌, ◌<◌, ◌≤◌, ◌+◌, ◌-◌, ◌*◌, ◌==◌, ℕ, All, Contains, List, ◌∷◌};
ghost use Rattle.std.specs.Prelude.{Option, Some, length, map, slice_get};
ghost use Rattle.std.specs.List.{IsDistinct};
ghost use Rattle.minidump.specs.declared.MinidumpContext.{MinidumpContext};
ghost use Rattle.minidump.specs.Below.Bytes.Exact.{IsExact};
ghost use Rattle.minidump.specs.Below.System.Cpu.{pointer_bytes};
ghost use Rattle.minidump.specs.Below.Contexts.Context.{registers_of, value_in};
ghost use Rattle.minidump.specs.declared.MinidumpRawContext.{MinidumpRawContext};
ghost use Rattle.stack_walk.specs.Frames.{AreFrames, StackValue, instruction_pointer_in, scan, stack_bytes};
ghost use Rattle.stack_walk.specs.Frames.{link_candidate, record_of, stack_pointer_in, word_candidate};
ghost use Rattle.stack_walk.specs.Evidence.{IsLinkCandidate, IsShown};
ghost use Rattle.stack_walk.specs.Walk.{frames_in};
ghost use Rattle.stack_walk.specs.declared.frame.FrameTrust.TheVariants.{FramePointer, Link};
ghost use Rattle.stack_walk.specs.declared.frame.StackFrame.{StackFrame};

use crate::{FrameTrust, StackFrame, WalkEnd};

/// A context has exactly one list of frames on a stack: the frame of the context, each caller of
/// the one before it until one has none, and the candidates. It is what [`crate::frames`] returns.
pub fn one_list_of_frames()
    ensures { (s : StackValue) (c : MinidumpContext) (limit : ℕ) (frames : List StackFrame)
        → AreFrames s c limit frames ↔ (frames ≡ frames_in s c limit) }
{}

/// Each context has an instruction pointer and a stack pointer.
pub fn a_context_has_both_pointers()
    ensures instruction { (raw : MinidumpRawContext)
        → value_in (registers_of raw) (registers_of raw).instruction_pointer
        ≡ Some (instruction_pointer_in raw) }
    ensures stack { (raw : MinidumpRawContext)
        → value_in (registers_of raw) (registers_of raw).stack_pointer
        ≡ Some (stack_pointer_in raw) }
{}

/// Each frame but the first has its evidence: the word right below its stack pointer is its return
/// address, or it is of [`FrameTrust::Link`] and the link register of the context is. On ARM64 the
/// word or the register may have bits that sign the address.
pub fn each_caller_has_its_evidence()
    ensures { (s : StackValue) (c : MinidumpContext) (limit : ℕ) (first : StackFrame)
        (rest : List StackFrame)
        → AreFrames s c limit (first ∷ rest) → All (IsShown s c) rest }
{}

/// There is at most one caller for every eight bytes of the stack, and beside these the frame of
/// the context and the candidates, as many as are asked for.
pub fn frames_are_few()
    ensures { (s : StackValue) (c : MinidumpContext) (limit : ℕ) (frames : List StackFrame)
        → AreFrames s c limit frames
        → 8 * length frames ≤ length (stack_bytes s) + 8 * (1 + limit) }
{}

/// If as many candidates are asked for as the stack has bytes, those of a walk have the return
/// address of each aligned word that may be one, from the last frame's stack pointer on. The same
/// holds of such words of the first frame below its record, if its caller is by that record.
pub fn each_aligned_word_is_scanned()
    ensures above { (s : StackValue) (link : Option ℕ) (frames : List StackFrame)
        (last : StackFrame) (limit number size : ℕ) (f : StackFrame)
        → slice_get frames (length frames - 1) ≡ Some last → pointer_bytes s.width ≡ Some size
        → last.stack_pointer ≤ number * size → word_candidate s number ≡ Some f
        → length (stack_bytes s) ≤ limit
        → Contains (map (λ g. g.instruction) (scan s link frames limit)) f.instruction }
    ensures below { (s : StackValue) (link : Option ℕ) (first caller : StackFrame)
        (callers : List StackFrame) (record_address limit number size : ℕ) (f : StackFrame)
        → caller.trust ≡ FramePointer → record_of first ≡ Some record_address
        → pointer_bytes s.width ≡ Some size → first.stack_pointer ≤ number * size
        → number * size + size ≤ record_address → word_candidate s number ≡ Some f
        → length (stack_bytes s) ≤ limit
        → Contains (map (λ g. g.instruction) (scan s link (first ∷ caller ∷ callers) limit))
        f.instruction }
{}

/// No two candidates of a walk have the same return address.
pub fn each_return_address_is_once()
    ensures { (s : StackValue) (link : Option ℕ) (frames : List StackFrame) (limit : ℕ)
        → IsDistinct ◌==◌ (map (λ g. g.instruction) (scan s link frames limit)) }
{}

/// The candidate of the link register is the frame of `IsLinkCandidate`: its return address is the
/// register, a call may return to it, and the first caller, if there is one, isn't found by rules
/// and has another return address. It is the first candidate, if any is asked for, and the only one
/// of [`FrameTrust::Link`].
pub fn the_link_register_comes_first()
    ensures exact { (s : StackValue) (link : Option ℕ) (frames : List StackFrame) (f : StackFrame)
        → IsLinkCandidate s link frames f ↔ (link_candidate s link frames ≡ Some f) }
    ensures first { (s : StackValue) (link : Option ℕ) (frames : List StackFrame) (limit : ℕ)
        (f : StackFrame) → IsLinkCandidate s link frames f → 0 < limit
        → slice_get (scan s link frames limit) 0 ≡ Some f }
    ensures only { (s : StackValue) (link : Option ℕ) (frames : List StackFrame) (limit : ℕ)
        (f : StackFrame) → Contains (scan s link frames limit) f → f.trust ≡ Link
        → IsLinkCandidate s link frames f }
{}

/// A frame equals the same frame alone, and a clone of it is the same frame. The same holds of how
/// a frame was found, and of why a walk ended.
pub fn frames_compare_and_copy_exactly()
    ensures frame { IsExact ⟦<StackFrame as PartialEq>⟧.eq ⟦<StackFrame as Clone>⟧.is_clone }
    ensures trust { IsExact ⟦<FrameTrust as PartialEq>⟧.eq ⟦<FrameTrust as Clone>⟧.is_clone }
    ensures end { IsExact ⟦<WalkEnd as PartialEq>⟧.eq ⟦<WalkEnd as Clone>⟧.is_clone }
{}
