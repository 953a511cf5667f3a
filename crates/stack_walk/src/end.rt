ghost use Rattle.std.specs.Prelude.{◌≡◌};
ghost use Rattle.stack_walk.specs.Frames.{stack_of};
ghost use Rattle.stack_walk.specs.Walk.{has_record, walk_end};

use crate::addresses::address_after;
use crate::stack::record_of;
use crate::{Stack, StackFrame};

/// Why the last frame of a walk has no caller. The last two are said of the rules of its symbol
/// file, and go before the others. Those are said of its frame pointer, which is taken without the
/// mark of Swift: the first of them that holds.
#[derive(Clone, Copy, PartialEq, Eq)]
pub enum WalkEnd {
    /// The dump has no memory of the stack.
    NoMemory,
    /// The width of an address is unknown.
    UnknownWidth,
    /// The frame pointer isn't known.
    NoFramePointer,
    /// The frame pointer is 0, as a thread's first function finds it.
    ZeroFramePointer,
    /// The frame pointer lies below the stack pointer, where no frame record can be: it is something
    /// else, or an address of another stack, as where the frames of a handler lead back to the
    /// interrupted one.
    BelowStackPointer,
    /// The memory of the stack doesn't hold both words of the frame record, or no address lies
    /// after the record: its end is 2^64 or more, or 2^32 or more where an address has 32 bits.
    NoRecord,
    /// The return address is 0, or no code is known to be at the address below it: neither does a
    /// kept module contain it nor memory that may be run. On ARM of 32 bits bit 0 of the return
    /// address is cleared first, and on ARM64 the bits that may sign it.
    NoCode,
    /// The symbol file of its module has rules for its address, but none for the return address, as
    /// a thread's first function has none. No walk of this crate ends so.
    NoReturnRule,
    /// The return address is 0 by these rules. No walk of this crate ends so.
    ZeroReturnAddress,
}

impl Stack<'_, '_> {
    /// Returns why a frame without a caller by its frame pointer has none.
    pub fn end_at(&self, frame: &StackFrame) -> WalkEnd
        ensures { result ≡ walk_end (stack_of self.now) frame.now }
    {
        if self.memory.is_none() {
            return WalkEnd::NoMemory;
        }
        let Some(size) = self.width.size_in_bytes() else {
            return WalkEnd::UnknownWidth;
        };
        let Some(address) = record_of(frame) else {
            return WalkEnd::NoFramePointer;
        };
        if address == 0 {
            WalkEnd::ZeroFramePointer
        } else if address < frame.stack_pointer {
            WalkEnd::BelowStackPointer
        } else if has_record(self, size as u64, address) {
            WalkEnd::NoCode
        } else {
            WalkEnd::NoRecord
        }
    }
}

// Tells whether the stack holds both words of a record at an address, and an address lies after it.
#[tactic(auto, using(crate::proofs::AddressLemmas::none_after))]
fn has_record(stack: &Stack<'_, '_>, size: u64, address: u64) -> bool
    ensures { result ≡ has_record (stack_of stack.now) size address }
{
    let Some(both) = size.checked_mul(2) else {
        return false;
    };
    match address_after(stack.width, address, both) {
        Some(_) => stack.word_at(address).is_some() && stack.word_at(address + size).is_some(),
        None => false,
    }
}
