ghost use Rattle.std.specs.Prelude.{◌≡◌, ◌++◌, OnOk};
ghost use Rattle.minidump_context.specs.Text.{arm64_lines, arm64_old_text, arm64_text, d_lines, state_lines};
ghost use Rattle.minidump_context.specs.Text.{watch_lines, x_lines};

use crate::print::lines::{Front, push_numbered, push_register, push_registers};
use minidump_format::format::{CONTEXT_ARM64, CONTEXT_ARM64_OLD};
use std::alloc::AllocError;

#[rattlefmt::skip]
#[tactic(auto, unfolding(crate::specs::Text::arm64_text))]
pub(crate) fn push_context(out: &mut Vec<u8>, c: &CONTEXT_ARM64) -> Result<(), AllocError>
    ensures { OnOk result (out.new.items ≡ out.old.items ++ arm64_text c.now) }
{
    out.extend_from_slice(b"CONTEXT_ARM64\n")?;
    push_register(out, "  context_flags        = ", &c.context_flags)?;
    push_common(out, &c.iregs, c.sp, c.pc, c.cpsr, c.fpsr, c.fpcr, &c.float_regs)?;
    push_watch(out, c)
}

#[rattlefmt::skip]
#[tactic(auto, unfolding(crate::specs::Text::arm64_old_text))]
pub(crate) fn push_old_context(out: &mut Vec<u8>, c: &CONTEXT_ARM64_OLD) -> Result<(), AllocError>
    ensures { OnOk result (out.new.items ≡ out.old.items ++ arm64_old_text c.now) }
{
    out.extend_from_slice(b"CONTEXT_ARM64_OLD\n")?;
    push_register(out, "  context_flags        = ", &c.context_flags)?;
    push_common(out, &c.iregs, c.sp, c.pc, c.cpsr, c.fpsr, c.fpcr, &c.float_regs)
}

// Appends the lines that the two layouts have in common.
#[rattlefmt::skip]
#[tactic(auto, unfolding(crate::specs::Text::arm64_lines))]
fn push_common(
    out: &mut Vec<u8>,
    iregs: &[u64; 31],
    sp: u64,
    pc: u64,
    cpsr: u32,
    fpsr: u32,
    fpcr: u32,
    float_regs: &[u128; 32],
) -> Result<(), AllocError>
    ensures { OnOk result (out.new.items ≡ out.old.items
        ++ arm64_lines iregs.now sp pc cpsr fpsr fpcr float_regs.now) }
{
    push_x(out, iregs)?;
    push_state(out, iregs, sp, pc, cpsr, fpsr, fpcr)?;
    push_d(out, float_regs)
}

#[rattlefmt::skip]
#[tactic(auto, unfolding(crate::specs::Text::x_lines))]
fn push_x(out: &mut Vec<u8>, iregs: &[u64; 31]) -> Result<(), AllocError>
    ensures { OnOk result (out.new.items ≡ out.old.items ++ x_lines iregs.now) }
{
    push_numbered(out, Front::Left("  x", "                  = "), &iregs[..29])
}

#[rattlefmt::skip]
#[tactic(auto, unfolding(crate::specs::Text::state_lines))]
fn push_state(
    out: &mut Vec<u8>,
    iregs: &[u64; 31],
    sp: u64,
    pc: u64,
    cpsr: u32,
    fpsr: u32,
    fpcr: u32,
) -> Result<(), AllocError>
    ensures { OnOk result (out.new.items ≡ out.old.items
        ++ state_lines iregs.now sp pc cpsr fpsr fpcr) }
{
    push_registers(out, &[
        ("  x29 (fp)             = ", iregs[29]),
        ("  x30 (lr)             = ", iregs[30]),
        ("  sp                   = ", sp),
        ("  pc                   = ", pc),
        ("  cpsr                 = ", cpsr as u64),
        ("  fpsr                 = ", fpsr as u64),
        ("  fpcr                 = ", fpcr as u64),
    ])
}

#[tactic(auto, unfolding(crate::specs::Text::d_lines))]
fn push_d(out: &mut Vec<u8>, float_regs: &[u128; 32]) -> Result<(), AllocError>
    ensures { OnOk result (out.new.items ≡ out.old.items ++ d_lines float_regs.now) }
{
    push_numbered(out, Front::Left("  d", " = "), float_regs)
}

#[rattlefmt::skip]
#[tactic(auto, unfolding(crate::specs::Text::watch_lines))]
fn push_watch(out: &mut Vec<u8>, c: &CONTEXT_ARM64) -> Result<(), AllocError>
    ensures { OnOk result (out.new.items ≡ out.old.items ++ watch_lines c.now) }
{
    push_numbered(out, Front::Right("  bcr[", "] = "), &c.bcr)?;
    push_numbered(out, Front::Right("  bvr[", "] = "), &c.bvr)?;
    push_numbered(out, Front::Right("  wcr[", "] = "), &c.wcr)?;
    push_numbered(out, Front::Right("  wvr[", "] = "), &c.wvr)
}
