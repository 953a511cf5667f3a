//! The registers of each processor, and those of a frame whose values are known.
ghost use Rattle.std.specs.Prelude.{◌≡◌, IfOk, map};
ghost use Rattle.std.specs.List.{find};
ghost use Rattle.std.specs.Option.{option_copied};
ghost use Rattle.std.specs.Str.{bytes_eq};
ghost use Rattle.symbol_walk.specs.Registers.{is_frame_pointer, is_stack_pointer};
ghost use Rattle.symbol_walk.specs.Registers.{known_by, known_frame_pointer, known_of};
ghost use Rattle.symbol_walk.specs.Registers.{known_stack_pointer, known_value};
ghost use Rattle.symbol_walk.specs.Registers.{labelled_value, register_table, row_of};
ghost use Rattle.symbol_walk.specs.Rules.{value_by};
ghost use Rattle.symbol_walk.specs.Unwinder.{pointer_value};

use crate::rules::{Return, Rules};
use minidump::{MinidumpContext, MinidumpRawContext};
use stack_walk::StackFrame;
use std::alloc::{AllocError, Global};

// A register of a frame whose value is known.
#[derive(Clone, Copy)]
pub(crate) struct KnownRegister {
    // the name that a context has for it
    name: &'static str,
    value: u64,
}

// A register of a processor.
#[derive(Clone, Copy)]
pub(crate) struct Register {
    // how rules call it
    pub(crate) label: &'static str,
    // how a context calls it
    pub(crate) name: &'static str,
    pub(crate) role: RegisterRole,
}

// What a register is for, by the calling convention of its processor.
#[derive(Clone, Copy)]
pub(crate) enum RegisterRole {
    InstructionPointer,
    StackPointer,
    // a function keeps its value for the caller, as that of a saved register
    FramePointer,
    // a function keeps its value for the caller
    Saved,
    // a function may change it
    Scratch,
}

// The registers of a table, in its order: the role of some, and their labels and names.
macro_rules! registers {
    ($($role:ident: $($label:literal $name:literal),*;)*) => {
        &[$($(Register { label: $label, name: $name, role: RegisterRole::$role },)*)*]
    };
}

#[rattlefmt::skip]
const X86: &[Register] = registers! {
    InstructionPointer: "$eip" "eip";
    StackPointer: "$esp" "esp";
    FramePointer: "$ebp" "ebp";
    Saved: "$ebx" "ebx", "$esi" "esi", "$edi" "edi";
    Scratch: "$eax" "eax", "$ecx" "ecx", "$edx" "edx";
};

#[rattlefmt::skip]
const AMD64: &[Register] = registers! {
    Scratch: "$rax" "rax", "$rdx" "rdx", "$rcx" "rcx";
    Saved: "$rbx" "rbx";
    Scratch: "$rsi" "rsi", "$rdi" "rdi";
    FramePointer: "$rbp" "rbp";
    StackPointer: "$rsp" "rsp";
    Scratch: "$r8" "r8", "$r9" "r9", "$r10" "r10", "$r11" "r11";
    Saved: "$r12" "r12", "$r13" "r13", "$r14" "r14", "$r15" "r15";
    InstructionPointer: "$rip" "rip";
};

#[rattlefmt::skip]
const ARM: &[Register] = registers! {
    Scratch: "r0" "r0", "r1" "r1", "r2" "r2", "r3" "r3";
    Saved: "r4" "r4", "r5" "r5", "r6" "r6", "r7" "r7", "r8" "r8", "r9" "r9", "r10" "r10";
    FramePointer: "r11" "fp";
    Scratch: "r12" "r12";
    StackPointer: "sp" "sp";
    Scratch: "lr" "lr";
    InstructionPointer: "pc" "pc";
};

#[rattlefmt::skip]
const ARM64: &[Register] = registers! {
    Scratch: "x0" "x0", "x1" "x1", "x2" "x2", "x3" "x3", "x4" "x4", "x5" "x5", "x6" "x6", "x7" "x7",
        "x8" "x8", "x9" "x9", "x10" "x10", "x11" "x11", "x12" "x12", "x13" "x13", "x14" "x14",
        "x15" "x15", "x16" "x16", "x17" "x17", "x18" "x18";
    Saved: "x19" "x19", "x20" "x20", "x21" "x21", "x22" "x22", "x23" "x23", "x24" "x24",
        "x25" "x25", "x26" "x26", "x27" "x27", "x28" "x28";
    FramePointer: "x29" "fp";
    Scratch: "x30" "lr";
    StackPointer: "sp" "sp";
    InstructionPointer: "pc" "pc";
};

// Returns the registers of the processor of a context.
#[tactic(auto, unfolding(crate::specs::Registers::x86_table, crate::specs::Registers::amd64_table, crate::specs::Registers::arm_table, crate::specs::Registers::arm64_table))]
pub(crate) fn register_table(raw: &MinidumpRawContext) -> &'static [Register]
    ensures { map row_of result.now ≡ register_table raw.now }
{
    match raw {
        MinidumpRawContext::X86(_) => X86,
        MinidumpRawContext::Amd64(_) => AMD64,
        MinidumpRawContext::Arm(_) => ARM,
        MinidumpRawContext::Arm64(_) | MinidumpRawContext::OldArm64(_) => ARM64,
    }
}

// ---- values

// What the values of a frame's registers are found by.
#[derive(Clone, Copy)]
pub(crate) enum RegisterSource<'r, 'f, 'l, 'a, 's> {
    // a context, by its valid registers
    Context(&'r MinidumpContext),
    // a frame of whose registers only the pointers are known
    Pointers(StackFrame),
    // the rules of the callee, and where they return to
    Rules(&'r Rules<'f, 'l, 'a, 's>, Return),
}

// Returns the registers of a table that have a value. The only error is that no memory is left.
#[tactic(auto, unfolding(crate::specs::Registers::known_by))]
pub(crate) fn known_by(
    alloc: Global,
    by: &RegisterSource<'_, '_, '_, '_, '_>,
    table: &[Register],
) -> Result<Vec<KnownRegister>, AllocError>
    ensures { IfOk result (λ known. map known_of known.items
        ≡ known_by (value_by by.now) (map row_of table.now)) }
{
    let mut known = Vec::new(alloc);
    for register in table {
        let value = value_by(alloc, by, register)?;
        if let Some(value) = value {
            let name = register.name;
            known.push(KnownRegister { name, value })?;
        }
    }
    Ok(known)
}

// Returns the value of a register, or `None` if it isn't known.
fn value_by(
    alloc: Global,
    by: &RegisterSource<'_, '_, '_, '_, '_>,
    register: &Register,
) -> Result<Option<u64>, AllocError>
    ensures { IfOk result (λ v. v ≡ value_by by.now (row_of register.now)) }
{
    match by {
        RegisterSource::Context(context) => Ok(context.get_register(register.name)),
        RegisterSource::Pointers(frame) => Ok(pointer_value(frame, register.role)),
        RegisterSource::Rules(rules, back) => rules.caller_value(alloc, *back, register),
    }
}

// Returns the value that the pointers of a frame give a register with a role, or `None` if they
// give none.
fn pointer_value(frame: &StackFrame, role: RegisterRole) -> Option<u64>
    ensures { result ≡ pointer_value frame.now role }
{
    match role {
        RegisterRole::InstructionPointer => Some(frame.instruction),
        RegisterRole::StackPointer => Some(frame.stack_pointer),
        RegisterRole::FramePointer => frame.frame_pointer,
        RegisterRole::Saved | RegisterRole::Scratch => None,
    }
}

// Returns the value of the register with a name, if it is known.
#[tactic(auto, using(crate::proofs::KnownLemmas::known_found))]
pub(crate) fn known_value(known: &[KnownRegister], name: &str) -> Option<u64>
    ensures { result ≡ known_value (map known_of known.now) name.now }
{
    let register = known_at(known, name)?;
    Some(register.value)
}

fn known_at<'k>(known: &'k [KnownRegister], name: &str) -> Option<&'k KnownRegister>
    ensures { option_copied result ≡ find (λ k. bytes_eq k.name.now name.now) known.now }
{
    known.iter().find(|k| k.name == name)
}

// Returns the known value of the register with a label.
#[tactic(auto, using(crate::proofs::KnownLemmas::found_where))]
pub(crate) fn labelled_value(
    table: &[Register],
    known: &[KnownRegister],
    label: &[u8],
) -> Option<u64>
    ensures { result ≡ labelled_value (map row_of table.now) (map known_of known.now) label.now }
{
    let register = labelled(table, label)?;
    known_value(known, register.name)
}

fn labelled<'t>(table: &'t [Register], label: &[u8]) -> Option<&'t Register>
    ensures { option_copied result ≡ find (λ r. bytes_eq r.label.now label.now) table.now }
{
    table.iter().find(|r| r.label.as_bytes() == label)
}

// Returns the known value of the stack pointer.
#[tactic(auto, using(crate::proofs::KnownLemmas::found_where))]
pub(crate) fn known_stack_pointer(table: &[Register], known: &[KnownRegister]) -> Option<u64>
    ensures { result ≡ known_stack_pointer (map row_of table.now) (map known_of known.now) }
{
    let register = stack_pointer(table)?;
    known_value(known, register.name)
}

fn stack_pointer(table: &[Register]) -> Option<&Register>
    ensures { option_copied result ≡ find (λ r. is_stack_pointer r.role) table.now }
{
    table
        .iter()
        .find(|r| matches!(r.role, RegisterRole::StackPointer))
}

// Returns the known value of the frame pointer.
#[tactic(auto, using(crate::proofs::KnownLemmas::found_where))]
pub(crate) fn known_frame_pointer(table: &[Register], known: &[KnownRegister]) -> Option<u64>
    ensures { result ≡ known_frame_pointer (map row_of table.now) (map known_of known.now) }
{
    let register = frame_pointer(table)?;
    known_value(known, register.name)
}

fn frame_pointer(table: &[Register]) -> Option<&Register>
    ensures { option_copied result ≡ find (λ r. is_frame_pointer r.role) table.now }
{
    table
        .iter()
        .find(|r| matches!(r.role, RegisterRole::FramePointer))
}
