ghost use Rattle.std.specs.Prelude.{◌≡◌};
ghost use Rattle.stack_walk.specs.Addresses.{unsigned};
ghost use Rattle.stack_walk.specs.Frames.{caller_of, pointer_at, record_of, stack_of};

use crate::addresses::{address_after, unmarked};
use crate::frame::{call_site, has_code};
use crate::{FrameTrust, StackFrame};
use minidump::system_info::{Cpu, PointerWidth};
use minidump::{MinidumpModuleList, UnifiedMemory, UnifiedMemoryInfoList, UnifiedMemoryList};

/// The stack of a thread, and what decides which of its words may be return addresses.
#[derive(Clone, Copy)]
pub struct Stack<'l, 'a> {
    /// The region of memory that holds it, or `None` if the dump has none.
    pub memory: Option<UnifiedMemory<'l, 'a>>,
    /// The modules of the process.
    pub modules: &'l MinidumpModuleList,
    /// The memory of the process, which may hold the code of the modules.
    pub code: &'l UnifiedMemoryList<'a>,
    /// What is known of the regions of that memory.
    pub infos: &'l UnifiedMemoryInfoList<'a>,
    /// The processor.
    pub cpu: Cpu,
    /// The width of an address.
    pub width: PointerWidth,
    /// How many of the low bits of a return address are its address, as
    /// [`code_bits`](crate::code_bits) returns it. With another number callers are lost.
    pub code_bits: u32,
}

impl Stack<'_, '_> {
    /// Returns the word that the stack holds at an address, as wide as an address. Returns `None`
    /// if the stack doesn't hold all of it, or the width of an address is unknown.
    pub fn word_at(&self, address: u64) -> Option<u64>
        ensures { result ≡ pointer_at (stack_of self.now) address }
    {
        let memory = self.memory?;
        match self.width {
            PointerWidth::Bits32 => {
                let word: u32 = memory.get_memory_at_address(address)?;
                Some(word as u64)
            }
            PointerWidth::Bits64 => memory.get_memory_at_address(address),
            PointerWidth::Unknown => None,
        }
    }

    /// Returns the return address that a word stands for: the word without the bits by which ARM64
    /// may sign it. A word whose bit 55 is set stays as it is: no address of a process has that
    /// bit.
    #[tactic(auto, using(crate::proofs::AddressLemmas::all_bits))]
    pub fn return_address(&self, word: u64) -> u64
        ensures { result ≡ unsigned (stack_of self.now).code_bits word }
    {
        match 1u64.checked_shl(self.code_bits) {
            Some(limit) if word / (1 << 55) % 2 != 1 => word % limit,
            _ => word,
        }
    }

    /// Returns the caller of a frame by its frame pointer, or `None` if that isn't known or leads
    /// to no record, or if no code is known to be at the return address there.
    #[tactic(auto, using(crate::proofs::AddressLemmas::none_after), unfolding(crate::specs::Frames::caller_at))]
    pub fn caller_of(&self, frame: &StackFrame) -> Option<StackFrame>
        ensures { result ≡ caller_of (stack_of self.now) frame.now }
    {
        let size = self.width.size_in_bytes()? as u64;
        let address = record_of(frame)?;
        if address < frame.stack_pointer {
            return None;
        }
        let stack_pointer = address_after(self.width, address, size.checked_mul(2)?)?;
        let saved = self.word_at(address)?;
        let instruction = self.return_address(self.word_at(address + size)?);
        let call = call_site(self.cpu, instruction)?;
        has_code(self.modules, self.infos, call).then_some(StackFrame {
            instruction,
            stack_pointer,
            frame_pointer: Some(unmarked(saved)),
            trust: FrameTrust::FramePointer,
        })
    }
}

// Returns where the record of a frame stands: at its frame pointer without the mark of Swift.
pub(crate) fn record_of(frame: &StackFrame) -> Option<u64>
    ensures { result ≡ record_of frame.now }
{
    Some(unmarked(frame.frame_pointer?))
}
