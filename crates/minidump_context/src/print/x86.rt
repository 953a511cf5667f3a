ghost use Rattle.std.specs.Prelude.{◌≡◌, ◌++◌, OnOk};
ghost use Rattle.minidump_context.specs.Text.{x86_debug_lines, x86_lines, x86_text};

use crate::print::lines::{push_bytes_line, push_registers};
use minidump_format::format::CONTEXT_X86;
use minidump_format::push_line_end;
use std::alloc::AllocError;

#[rattlefmt::skip]
#[tactic(auto, unfolding(crate::specs::Text::x86_text))]
pub(crate) fn push_context(out: &mut Vec<u8>, c: &CONTEXT_X86) -> Result<(), AllocError>
    ensures { OnOk result (out.new.items ≡ out.old.items ++ x86_text c.now) }
{
    out.extend_from_slice(b"CONTEXT_X86\n")?;
    push_debug(out, c)?;
    push_bytes_line(out, "  float_save.register_area[80] = 0x", &c.float_save.register_area)?;
    push_rest(out, c)?;
    push_bytes_line(out, "  extended_registers[512]      = 0x", &c.extended_registers)?;
    push_line_end(out)
}

#[rattlefmt::skip]
#[tactic(auto, unfolding(crate::specs::Text::x86_debug_lines))]
fn push_debug(out: &mut Vec<u8>, c: &CONTEXT_X86) -> Result<(), AllocError>
    ensures { OnOk result (out.new.items ≡ out.old.items ++ x86_debug_lines c.now) }
{
    push_registers(out, &[
        ("  context_flags                = ", c.context_flags as u64),
        ("  dr0                          = ", c.dr0 as u64),
        ("  dr1                          = ", c.dr1 as u64),
        ("  dr2                          = ", c.dr2 as u64),
        ("  dr3                          = ", c.dr3 as u64),
        ("  dr6                          = ", c.dr6 as u64),
        ("  dr7                          = ", c.dr7 as u64),
        ("  float_save.control_word      = ", c.float_save.control_word as u64),
        ("  float_save.status_word       = ", c.float_save.status_word as u64),
        ("  float_save.tag_word          = ", c.float_save.tag_word as u64),
        ("  float_save.error_offset      = ", c.float_save.error_offset as u64),
        ("  float_save.error_selector    = ", c.float_save.error_selector as u64),
        ("  float_save.data_offset       = ", c.float_save.data_offset as u64),
        ("  float_save.data_selector     = ", c.float_save.data_selector as u64),
    ])
}

#[rattlefmt::skip]
#[tactic(auto, unfolding(crate::specs::Text::x86_lines))]
fn push_rest(out: &mut Vec<u8>, c: &CONTEXT_X86) -> Result<(), AllocError>
    ensures { OnOk result (out.new.items ≡ out.old.items ++ x86_lines c.now) }
{
    push_registers(out, &[
        ("  float_save.cr0_npx_state     = ", c.float_save.cr0_npx_state as u64),
        ("  gs                           = ", c.gs as u64),
        ("  fs                           = ", c.fs as u64),
        ("  es                           = ", c.es as u64),
        ("  ds                           = ", c.ds as u64),
        ("  edi                          = ", c.edi as u64),
        ("  esi                          = ", c.esi as u64),
        ("  ebx                          = ", c.ebx as u64),
        ("  edx                          = ", c.edx as u64),
        ("  ecx                          = ", c.ecx as u64),
        ("  eax                          = ", c.eax as u64),
        ("  ebp                          = ", c.ebp as u64),
        ("  eip                          = ", c.eip as u64),
        ("  cs                           = ", c.cs as u64),
        ("  eflags                       = ", c.eflags as u64),
        ("  esp                          = ", c.esp as u64),
        ("  ss                           = ", c.ss as u64),
    ])
}
