ghost use Rattle.std.specs.Prelude.{◌≡◌, ◌++◌, OnOk};
ghost use Rattle.minidump_format.specs.Print.{Prints};
ghost use Rattle.minidump_context.specs.Text.{context_text};

mod amd64;
mod arm;
mod arm64;
mod lines;
mod x86;

use crate::{MinidumpContext, MinidumpRawContext};
use minidump_bytes::Told;
use minidump_format::{Error, Pushed, print_item};
use std::alloc::{AllocError, Global};
use std::io::Write;

impl MinidumpContext {
    /// Prints every field of the record, valid or not; of x86-64 all but `unused1` to `unused3`,
    /// which follow `rip`.
    pub fn print<W: Write>(&self, alloc: Global, f: &mut Told<W>) -> Result<(), Error>
        ensures { Prints W.contents f.old f.new (context_text self.now.raw) result }
    {
        print_item(self, alloc, f)
    }
}

impl Pushed for MinidumpContext {
    ghost text = { λ c. context_text c.raw };

    fn push(&self, out: &mut Vec<u8>) -> Result<(), AllocError> {
        push_raw(out, &self.raw)
    }
}

fn push_raw(out: &mut Vec<u8>, raw: &MinidumpRawContext) -> Result<(), AllocError>
    ensures { OnOk result (out.new.items ≡ out.old.items ++ context_text raw.now) }
{
    match raw {
        MinidumpRawContext::X86(c) => x86::push_context(out, c),
        MinidumpRawContext::Amd64(c) => amd64::push_context(out, c),
        MinidumpRawContext::Arm(c) => arm::push_context(out, c),
        MinidumpRawContext::Arm64(c) => arm64::push_context(out, c),
        MinidumpRawContext::OldArm64(c) => arm64::push_old_context(out, c),
    }
}
