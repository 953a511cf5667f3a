ghost use Rattle.std.specs.Prelude.{◌≡◌, IfOk};
ghost use Rattle.breakpad_symbols.specs.Numbered.{first_numbered};

use crate::InlineCall;
use crate::numbered::{Numbered, NumberedList};
use std::alloc::{AllocError, Global};
use std::marker::Model;

/// The calls that the compiler put in place at an address, by their depth.
#[derive(Drop)]
pub struct InlineCalls {
    calls: NumberedList<InlineCall>,
}

impl Model for InlineCalls {
    ghost use Rattle.std.specs.Prelude.{List};
    ghost use Rattle.breakpad_symbols.specs.declared.inline.InlineCall.{InlineCall};

    ghost Value = { List InlineCall };

    ghost view = { λ s. s.calls };
}

impl Numbered for InlineCall {
    ghost number_of = { λ c. c.depth };

    fn number(&self) -> u64 {
        self.depth as u64
    }
}

impl InlineCalls {
    // Makes the list of some calls.
    pub(crate) fn from_calls(
        alloc: Global,
        calls: Vec<InlineCall>,
    ) -> Result<InlineCalls, AllocError>
        ensures { IfOk result (λ list. list ≡ calls.items) }
    {
        let calls = NumberedList::from_records(alloc, calls)?;
        Ok(InlineCalls { calls })
    }

    /// Returns the first call of a depth, or `None` if there is none. The outermost call has depth 0.
    pub fn at_depth(&self, depth: u32) -> Option<InlineCall>
        ensures { result ≡ first_numbered (λ c. c.depth) depth self.now }
    {
        let call = self.calls.first(depth as u64)?;
        Some(*call)
    }
}
