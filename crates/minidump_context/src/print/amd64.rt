ghost use Rattle.std.specs.Prelude.{◌≡◌, ◌++◌, OnOk};
ghost use Rattle.minidump_context.specs.Text.{amd64_lines, amd64_text};

use crate::print::lines::push_registers;
use minidump_format::format::CONTEXT_AMD64;
use minidump_format::push_line_end;
use std::alloc::AllocError;

#[tactic(auto, unfolding(crate::specs::Text::amd64_text))]
pub(crate) fn push_context(out: &mut Vec<u8>, c: &CONTEXT_AMD64) -> Result<(), AllocError>
    ensures { OnOk result (out.new.items ≡ out.old.items ++ amd64_text c.now) }
{
    out.extend_from_slice(b"CONTEXT_AMD64\n")?;
    push_lines(out, c)?;
    push_line_end(out)
}

#[tactic(auto, unfolding(crate::specs::Text::amd64_lines))]
fn push_lines(out: &mut Vec<u8>, c: &CONTEXT_AMD64) -> Result<(), AllocError>
    ensures { OnOk result (out.new.items ≡ out.old.items ++ amd64_lines c.now) }
{
    push_registers(
        out,
        &[
            ("  p1_home       = ", c.p1_home),
            ("  p2_home       = ", c.p2_home),
            ("  p3_home       = ", c.p3_home),
            ("  p4_home       = ", c.p4_home),
            ("  p5_home       = ", c.p5_home),
            ("  p6_home       = ", c.p6_home),
            ("  context_flags = ", c.context_flags as u64),
            ("  mx_csr        = ", c.mx_csr as u64),
            ("  cs            = ", c.cs as u64),
            ("  ds            = ", c.ds as u64),
            ("  es            = ", c.es as u64),
            ("  fs            = ", c.fs as u64),
            ("  gs            = ", c.gs as u64),
            ("  ss            = ", c.ss as u64),
            ("  eflags        = ", c.eflags as u64),
            ("  dr0           = ", c.dr0),
            ("  dr1           = ", c.dr1),
            ("  dr2           = ", c.dr2),
            ("  dr3           = ", c.dr3),
            ("  dr6           = ", c.dr6),
            ("  dr7           = ", c.dr7),
            ("  rax           = ", c.rax),
            ("  rcx           = ", c.rcx),
            ("  rdx           = ", c.rdx),
            ("  rbx           = ", c.rbx),
            ("  rsp           = ", c.rsp),
            ("  rbp           = ", c.rbp),
            ("  rsi           = ", c.rsi),
            ("  rdi           = ", c.rdi),
            ("  r8            = ", c.r8),
            ("  r9            = ", c.r9),
            ("  r10           = ", c.r10),
            ("  r11           = ", c.r11),
            ("  r12           = ", c.r12),
            ("  r13           = ", c.r13),
            ("  r14           = ", c.r14),
            ("  r15           = ", c.r15),
            ("  rip           = ", c.rip),
        ],
    )
}
