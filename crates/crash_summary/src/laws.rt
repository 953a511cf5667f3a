//! Laws of the values of a summary.
ghost use Rattle.minidump.specs.Below.Bytes.Exact.{IsExact};

use crate::StackHit;

/// A stack equals only itself, and a clone of it is the same stack.
pub fn stacks_compare_and_copy_exactly()
    ensures { IsExact ⟦<StackHit as PartialEq>⟧.eq ⟦<StackHit as Clone>⟧.is_clone }
{}
