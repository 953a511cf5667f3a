ghost use Rattle.std.specs.Prelude.{◌≡◌, IfOk};
ghost use Rattle.breakpad_symbols.specs.Caller.{caller_register_at, frame_address_at};
ghost use Rattle.breakpad_symbols.specs.Cfi.{cfi_of};

use crate::{CfiRecord, UnwindState, evaluate};
use std::alloc::{AllocError, Global};

impl CfiRecord<'_> {
    /// Returns the canonical frame address, by the rule of `.cfa` at an address from the module's
    /// base. It is the stack pointer of the caller, unless that has a rule of its own. Returns
    /// `None` if there is no rule, or its expression has no value.
    pub fn frame_address<S: UnwindState>(
        &self,
        alloc: Global,
        address: u64,
        state: &S,
    ) -> Result<Option<u64>, AllocError>
        ensures { IfOk result (λ v. v ≡ frame_address_at (S.value state.now) (cfi_of self.now) address) }
    {
        let Some(rule) = self.rule_at(b".cfa", address) else {
            return Ok(None);
        };
        evaluate(alloc, rule, state, None)
    }

    /// Returns the value of a register in the caller, or for `.ra` the return address into it, by
    /// its rule at an address from the module's base. `frame_address` is the canonical frame
    /// address, for which `.cfa` stands in the rule. Returns `None` if there is no rule, or its
    /// expression has no value.
    pub fn caller_register<S: UnwindState>(
        &self,
        alloc: Global,
        address: u64,
        state: &S,
        frame_address: u64,
        name: &[u8],
    ) -> Result<Option<u64>, AllocError>
        ensures { IfOk result (λ v. v ≡ caller_register_at (S.value state.now) (cfi_of self.now) address
            frame_address name.now) }
    {
        let Some(rule) = self.rule_at(name, address) else {
            return Ok(None);
        };
        evaluate(alloc, rule, state, Some(frame_address))
    }
}
