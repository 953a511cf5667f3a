ghost use Rattle.std.specs.Prelude.{◌≡◌, ◌++◌, OnOk};
ghost use Rattle.minidump_context.specs.Text.{arm_flags_line, arm_float_lines, arm_iregs_lines, arm_status_lines};
ghost use Rattle.minidump_context.specs.Text.{arm_text};

use crate::print::lines::{Front, push_numbered, push_register};
use minidump_format::format::CONTEXT_ARM;
use std::alloc::AllocError;

#[tactic(auto, unfolding(crate::specs::Text::arm_text))]
pub(crate) fn push_context(out: &mut Vec<u8>, c: &CONTEXT_ARM) -> Result<(), AllocError>
    ensures { OnOk result (out.new.items ≡ out.old.items ++ arm_text c.now) }
{
    out.extend_from_slice(b"CONTEXT_ARM\n")?;
    push_flags(out, c)?;
    push_iregs(out, c)?;
    push_status(out, c)?;
    push_float(out, c)
}

#[tactic(auto, unfolding(crate::specs::Text::arm_flags_line))]
fn push_flags(out: &mut Vec<u8>, c: &CONTEXT_ARM) -> Result<(), AllocError>
    ensures { OnOk result (out.new.items ≡ out.old.items ++ arm_flags_line c.now) }
{
    push_register(out, "  context_flags       = ", &c.context_flags)
}

#[tactic(auto, unfolding(crate::specs::Text::arm_iregs_lines))]
fn push_iregs(out: &mut Vec<u8>, c: &CONTEXT_ARM) -> Result<(), AllocError>
    ensures { OnOk result (out.new.items ≡ out.old.items ++ arm_iregs_lines c.now) }
{
    push_numbered(out, Front::Right("  iregs[", "]            = "), &c.iregs)
}

#[tactic(auto, unfolding(crate::specs::Text::arm_status_lines))]
fn push_status(out: &mut Vec<u8>, c: &CONTEXT_ARM) -> Result<(), AllocError>
    ensures { OnOk result (out.new.items ≡ out.old.items ++ arm_status_lines c.now) }
{
    push_register(out, "  cpsr                = ", &c.cpsr)?;
    push_register(out, "  float_save.fpscr     = ", &c.float_save.fpscr)
}

#[rattlefmt::skip]
#[tactic(auto, unfolding(crate::specs::Text::arm_float_lines))]
fn push_float(out: &mut Vec<u8>, c: &CONTEXT_ARM) -> Result<(), AllocError>
    ensures { OnOk result (out.new.items ≡ out.old.items ++ arm_float_lines c.now) }
{
    push_numbered(out, Front::Right("  float_save.regs[", "] = "), &c.float_save.regs)?;
    push_numbered(out, Front::Right("  float_save.extra[", "] = "), &c.float_save.extra)
}
