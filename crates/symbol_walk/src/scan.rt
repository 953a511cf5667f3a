//! Where a walk starts again.
ghost use Rattle.std.specs.Prelude.{◌≡◌, ◌+◌};
ghost use Rattle.symbol_walk.specs.Walk.{restart_at, restart_of, scanned_words};
ghost use Rattle.symbol_walk.specs.Unwinder.{unwinder_of};

use crate::rules::goes_on;
use crate::walk::{Unwinder, function_at};
use stack_walk::{FrameTrust, StackFrame};

impl Unwinder<'_, '_, '_, '_> {
    // Returns the first candidate after a frame from which the walk goes on.
    #[tactic(auto, using(stack_walk::proofs::AddressLemmas::some_bytes), unfolding(crate::specs::Walk::restart_of))]
    pub(crate) fn restart_of(&self, frame: &StackFrame) -> Option<StackFrame>
        ensures { result ≡ restart_of (unwinder_of self.now) frame.now }
    {
        let size = self.stack.width.size_in_bytes()?;
        let first = frame.stack_pointer.div_ceil(size as u64);
        for index in 0..scanned_words(frame) {
            if let Some(candidate) = self.restart_at(frame, first, index) {
                return Some(candidate);
            }
        }
        None
    }

    // Returns the candidate of the aligned word with the number `first + index`, if the walk goes
    // on from it: if the stack goes on at its stack pointer, and its call lies in a function of the
    // symbols.
    #[tactic(auto, unfolding(crate::specs::Walk::restarts, crate::specs::Walk::in_function))]
    fn restart_at(&self, frame: &StackFrame, first: u64, index: usize) -> Option<StackFrame>
        ensures { result ≡ restart_at (unwinder_of self.now) frame.now (first + index) }
    {
        let candidate = self.stack.word_candidate(first, index)?;
        if !goes_on(self.stack, frame, candidate.stack_pointer) {
            return None;
        }
        let call = candidate.lookup_address(self.stack.cpu)?;
        let (symbols, offset) = self.symbols_at(call)?;
        function_at(symbols, offset).is_some().then_some(candidate)
    }
}

// Returns how many words from the stack pointer of a frame on are looked at.
fn scanned_words(frame: &StackFrame) -> usize
    ensures { result ≡ scanned_words frame.now.trust }
{
    match frame.trust {
        FrameTrust::Context => 40,
        FrameTrust::Cfi | FrameTrust::FramePointer | FrameTrust::Scan | FrameTrust::Link => 30,
    }
}
