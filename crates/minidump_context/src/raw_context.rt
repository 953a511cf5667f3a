ghost use Rattle.std.specs.Prelude.{◌≡◌, map};
ghost use Rattle.minidump_context.specs.Register.{names_of};
ghost use Rattle.minidump_context.specs.Context.{registers_of, valid_value_in};

use crate::{CpuContext, MinidumpContextValidity, RegisterNumber};
use minidump_format::format::{
    CONTEXT_AMD64, CONTEXT_ARM, CONTEXT_ARM64, CONTEXT_ARM64_OLD, CONTEXT_X86,
};

/// The context of a thread, in the record of its processor.
#[derive(Clone, Copy)]
pub enum MinidumpRawContext {
    /// x86: Microsoft's `CONTEXT`, of 716 bytes.
    X86(CONTEXT_X86),
    /// x86-64: Microsoft's `CONTEXT`, of 1232 bytes.
    Amd64(CONTEXT_AMD64),
    /// ARM: Breakpad's `MDRawContextARM`, of 368 bytes.
    Arm(CONTEXT_ARM),
    /// ARM64: Microsoft's `ARM64_NT_CONTEXT`, of 912 bytes.
    Arm64(CONTEXT_ARM64),
    /// ARM64 in Breakpad's old layout: `MDRawContextARM64_Old`, of 796 bytes.
    OldArm64(CONTEXT_ARM64_OLD),
}

// Evaluates an expression with the context record, whichever processor's it is.
macro_rules! with_context {
    ($raw:expr, $context:ident => $body:expr) => {
        match $raw {
            MinidumpRawContext::X86($context) => $body,
            MinidumpRawContext::Amd64($context) => $body,
            MinidumpRawContext::Arm($context) => $body,
            MinidumpRawContext::Arm64($context) => $body,
            MinidumpRawContext::OldArm64($context) => $body,
        }
    };
}

pub(crate) use with_context;

impl MinidumpRawContext {
    // Returns the canonical names of the registers.
    pub(crate) fn names(&self) -> &'static [&'static str]
        ensures { map (λ n. n.now) result.now ≡ (registers_of self.now).names }
    {
        with_context!(self, context => names_of(context))
    }

    // Returns the value of a register, or `None` if it isn't valid.
    pub(crate) fn get_register(&self, reg: &str, valid: &MinidumpContextValidity) -> Option<u64>
        ensures { result ≡ valid_value_in valid.now (registers_of self.now) reg.now }
    {
        with_context!(self, context => context.get_register(reg, valid).map(|n| n.to_u64()))
    }
}

// Returns the names of the registers of a processor, which a macro can't name.
fn names_of<C: CpuContext>(_context: &C) -> &'static [&'static str]
    ensures { map (λ n. n.now) result.now ≡ names_of C.table }
{
    C::names()
}
