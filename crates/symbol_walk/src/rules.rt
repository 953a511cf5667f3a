//! The caller of a frame by the rules of its module's symbols.
ghost use Rattle.std.specs.Prelude.{◌≡◌, IfOk, map};
ghost use Rattle.std.specs.Option.{option_map};
ghost use Rattle.stack_walk.specs.Frames.{stack_of};
ghost use Rattle.breakpad_symbols.specs.AddressWidth.{bits_of};
ghost use Rattle.symbol_walk.specs.Registers.{known_of, row_of};
ghost use Rattle.symbol_walk.specs.Rules.{address_bits, caller_by, caller_value, end_by, goes_on};
ghost use Rattle.symbol_walk.specs.Rules.{returns, rules_at, rules_of, unruled_value};
ghost use Rattle.symbol_walk.specs.Unwinder.{frame_of, unwinder_of};

use crate::registers::{
    KnownRegister, Register, RegisterRole, RegisterSource, known_by, known_frame_pointer,
    known_stack_pointer, known_value, labelled_value,
};
use crate::walk::{KnownFrame, Unwinder, cfi_at};
use breakpad_symbols::{AddressWidth, CfiRecord, UnwindState, evaluate};
use minidump::system_info::PointerWidth;
use stack_walk::{FrameTrust, Stack, StackFrame, WalkEnd};
use std::alloc::{AllocError, Global};

// What rules refer to in a frame: its known registers, by their labels, and the words of the stack.
#[derive(Clone, Copy)]
struct FrameState<'f, 'l, 'a> {
    stack: &'f Stack<'l, 'a>,
    table: &'static [Register],
    known: &'f [KnownRegister],
    width: AddressWidth,
}

impl UnwindState for FrameState<'_, '_, '_> {
    ghost use Rattle.symbol_walk.specs.Rules.{state_of};

    ghost value = { state_of };

    fn width(&self) -> AddressWidth {
        self.width
    }

    fn register(&self, name: &[u8]) -> Option<u64> {
        labelled_value(self.table, self.known, name)
    }

    fn word_at(&self, address: u64) -> Option<u64> {
        self.stack.word_at(address)
    }
}

// Returns the width of an address, if it is known.
fn address_width(width: PointerWidth) -> Option<AddressWidth>
    ensures { option_map bits_of result ≡ address_bits width }
{
    match width {
        PointerWidth::Bits32 => Some(AddressWidth::Bits32),
        PointerWidth::Bits64 => Some(AddressWidth::Bits64),
        PointerWidth::Unknown => None,
    }
}

// ---- the rules of a frame

// The rules of a frame: the unwind information, the offset in the module at which it is read, and
// what the rules refer to.
#[derive(Clone, Copy)]
pub(crate) struct Rules<'f, 'l, 'a, 's> {
    cfi: &'f CfiRecord<'s>,
    offset: u64,
    state: FrameState<'f, 'l, 'a>,
}

// Where the rules of a frame return to.
#[derive(Clone, Copy)]
pub(crate) struct Return {
    // the canonical frame address
    frame_address: u64,
    // without the bits that may sign it
    return_address: u64,
}

impl<'w, 'l, 'a, 's> Unwinder<'w, 'l, 'a, 's> {
    // Returns the rules of a frame: those of the address by which it is looked up.
    #[tactic(auto, unfolding(crate::specs::Rules::rules_at))]
    pub(crate) fn rules_at<'f>(&self, known: &'f KnownFrame) -> Option<Rules<'f, 'l, 'a, 's>>
    where
        'w: 'f,
        ensures { option_map rules_of result ≡ rules_at (unwinder_of self.now) (frame_of known.now) }
    {
        let width = address_width(self.stack.width)?;
        let address = known.frame.lookup_address(self.stack.cpu)?;
        let (symbols, offset) = self.symbols_at(address)?;
        let cfi = cfi_at(symbols, offset)?;
        let state = FrameState {
            stack: self.stack,
            table: self.registers,
            known: known.registers.as_slice(),
            width,
        };
        Some(Rules { cfi, offset, state })
    }
}

impl Rules<'_, '_, '_, '_> {
    // Returns where the rules return to.
    #[tactic(auto, unfolding(crate::specs::Rules::returns))]
    fn returns(&self, alloc: Global) -> Result<Option<Return>, AllocError>
        ensures { IfOk result (λ back. back ≡ returns (rules_of self.now)) }
    {
        let found = self.cfi.frame_address(alloc, self.offset, &self.state)?;
        let Some(frame_address) = found else {
            return Ok(None);
        };
        let found = self
            .cfi
            .caller_register(alloc, self.offset, &self.state, frame_address, b".ra")?;
        let Some(word) = found else {
            return Ok(None);
        };
        Ok(Some(Return {
            frame_address,
            return_address: self.state.stack.return_address(word),
        }))
    }

    // Returns why the walk ends by the rules.
    pub(crate) fn end(&self, alloc: Global) -> Result<Option<WalkEnd>, AllocError>
        ensures { IfOk result (λ end. end ≡ end_by (rules_of self.now)) }
    {
        if self.cfi.rule_at(b".ra", self.offset).is_none() {
            return Ok(Some(WalkEnd::NoReturnRule));
        }
        match self.returns(alloc)? {
            Some(back) if back.return_address == 0 => Ok(Some(WalkEnd::ZeroReturnAddress)),
            _ => Ok(None),
        }
    }

    // Returns the caller of a frame by its rules.
    pub(crate) fn caller(
        &self,
        alloc: Global,
        by: &Unwinder<'_, '_, '_, '_>,
        frame: &StackFrame,
    ) -> Result<Option<KnownFrame>, AllocError>
        ensures { IfOk result (λ caller. option_map frame_of caller
            ≡ caller_by (unwinder_of by.now) frame.now (rules_of self.now)) }
    {
        let Some(back) = self.returns(alloc)? else {
            return Ok(None);
        };
        let registers = known_by(alloc, &RegisterSource::Rules(self, back), by.registers)?;
        let Some(stack_pointer) = known_stack_pointer(by.registers, registers.as_slice()) else {
            return Ok(None);
        };
        if !goes_on(by.stack, frame, stack_pointer) {
            return Ok(None);
        }
        let frame_pointer = known_frame_pointer(by.registers, registers.as_slice());
        let frame = StackFrame {
            instruction: back.return_address,
            stack_pointer,
            frame_pointer,
            trust: FrameTrust::Cfi,
        };
        Ok(Some(KnownFrame { frame, registers }))
    }

    // Returns the value of a register in the caller: the return address, or that by its rule, or
    // else by the calling convention.
    pub(crate) fn caller_value(
        &self,
        alloc: Global,
        back: Return,
        register: &Register,
    ) -> Result<Option<u64>, AllocError>
        ensures { IfOk result
            (λ v. v ≡ caller_value (rules_of self.now) back (row_of register.now)) }
    {
        if matches!(register.role, RegisterRole::InstructionPointer) {
            return Ok(Some(back.return_address));
        }
        match self.cfi.rule_at(register.label.as_bytes(), self.offset) {
            Some(rule) => evaluate(alloc, rule, &self.state, Some(back.frame_address)),
            None => Ok(unruled_value(self.state.known, back, register)),
        }
    }
}

// Returns what the calling convention says of a register that has no rule.
fn unruled_value(known: &[KnownRegister], back: Return, register: &Register) -> Option<u64>
    ensures { result ≡ unruled_value (map known_of known.now) back register.now.name.now
        register.now.role }
{
    match register.role {
        RegisterRole::InstructionPointer => Some(back.return_address),
        RegisterRole::StackPointer => Some(back.frame_address),
        RegisterRole::FramePointer | RegisterRole::Saved => known_value(known, register.name),
        RegisterRole::Scratch => None,
    }
}

// Tells whether the stack of a frame goes on at an address, as the stack pointer of its caller: the
// address lies on the stack, or is the one after it, and is above the frame.
#[tactic(auto, unfolding(crate::specs::Rules::goes_on))]
pub(crate) fn goes_on(stack: &Stack<'_, '_>, frame: &StackFrame, address: u64) -> bool
    ensures { result ≡ goes_on (stack_of stack.now) frame.now address }
{
    let Some(memory) = stack.memory else {
        return false;
    };
    // a context's frame may have its caller's stack pointer
    let is_above = match frame.trust {
        FrameTrust::Context => frame.stack_pointer <= address,
        FrameTrust::Cfi | FrameTrust::FramePointer | FrameTrust::Scan | FrameTrust::Link => {
            frame.stack_pointer < address
        }
    };
    let base = memory.base_address();
    base <= address && address - base <= memory.bytes().len() as u64 && is_above
}
