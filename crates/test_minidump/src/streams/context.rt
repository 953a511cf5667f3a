use crate::streams::files::system;
use minidump::format::{CONTEXT_AMD64, CONTEXT_ARM, CONTEXT_ARM64, CONTEXT_ARM64_OLD, CONTEXT_X86};
use minidump::{
    ContextError, CpuContext, CpuRegisterNames, Endian, Error, MinidumpContext,
    MinidumpContextValidity, Record,
};
use std::alloc::{AllocError, Global};
use std::collections::HashSet;

// Reads the context of an architecture, in a dump of some byte order.
fn read(
    alloc: Global,
    bytes: &[u8],
    endian: Endian,
    architecture: u16,
) -> Result<Result<MinidumpContext, ContextError>, Error> {
    let system = system(alloc, endian, architecture, 0)?;
    Ok(MinidumpContext::read(bytes, endian, &system, None))
}

// In each row: an architecture, the flags and the length of a context, and the error of reading it,
// if any.
#[rattlefmt::skip]
const ERRORS: &[(u16, u64, usize, Option<ContextError>)] = &[
    (0, 0x1003f, 715, Some(ContextError::ReadFailure)),
    (0, 0x1003f, 716, None),
    (0, 0x1003f, 717, None),
    (0, 0x1003f, 0, Some(ContextError::ReadFailure)),
    (0, 0x5001_003f, 716, None),
    (0, 0x11_0000, 716, Some(ContextError::ReadFailure)),
    (0, 0x3f, 716, Some(ContextError::ReadFailure)),
    (10, 0x1003f, 716, None),
    (3, 0x1003f, 716, Some(ContextError::UnknownCpuContext)),
    (0xffff, 0x1003f, 716, Some(ContextError::UnknownCpuContext)),
    (5, 0x4000_0006, 368, None),
    (5, 0x4000_0006, 367, Some(ContextError::ReadFailure)),
    (5, 0x4001_0000, 368, Some(ContextError::ReadFailure)),
    (12, 0x40_001f, 912, None),
    (12, 0x40_001f, 911, Some(ContextError::ReadFailure)),
    (0x8003, 0x8000_0006, 796, None),
    (0x8003, 0x8000_0006, 795, Some(ContextError::ReadFailure)),
    (0x8003, 0x10000_8000_0006, 796, None),
    (0x8003, 0x8000_0006_0000_0000, 796, Some(ContextError::ReadFailure)),
];

// Tests whether reading a context that is zero but for its flags gives the row's error, or none.
fn has_error(alloc: Global, row: &(u16, u64, usize, Option<ContextError>)) -> Result<bool, Error> {
    let (architecture, flags, len, want) = *row;
    let mut bytes = [0; 1000];
    bytes[..8].copy_from_slice(&flags.to_le_bytes());
    let result = read(alloc, &bytes[..len.min(1000)], Endian::Little, architecture)?;
    Ok(result.err() == want)
}

#[test]
fn a_context_of_too_few_bytes_or_other_flags_is_an_error(rt: HostRuntime) {
    for row in ERRORS {
        assert!(rt; has_error(rt.alloc(), row) == Ok(true), "{row:?}");
    }
}

// The registers of each context, in their order.
type Table = &'static [&'static str];

#[rattlefmt::skip]
const X86: Table = &[
    "eip", "esp", "ebp", "ebx", "esi", "edi", "eax",
    "ecx", "edx", "eflags",
];

#[rattlefmt::skip]
const AMD64: Table = &[
    "rax", "rdx", "rcx", "rbx", "rsi", "rdi", "rbp",
    "rsp", "r8", "r9", "r10", "r11", "r12", "r13",
    "r14", "r15", "rip",
];

#[rattlefmt::skip]
const ARM: Table = &[
    "r0", "r1", "r2", "r3", "r4", "r5", "r6", "r7",
    "r8", "r9", "r10", "r12", "fp", "sp", "lr", "pc",
];

#[rattlefmt::skip]
const ARM64: Table = &[
    "x0", "x1", "x2", "x3", "x4", "x5", "x6", "x7",
    "x8", "x9", "x10", "x11", "x12", "x13", "x14",
    "x15", "x16", "x17", "x18", "x19", "x20", "x21",
    "x22", "x23", "x24", "x25", "x26", "x27", "x28",
    "fp", "lr", "sp", "pc",
];

// Tests whether the names of a context are those of a table.
fn has_names<C: CpuRegisterNames>(table: Table) -> bool {
    C::REGISTERS == table
}

#[test]
fn each_context_names_its_registers(rt: HostRuntime) {
    let found = [
        has_names::<CONTEXT_X86>(X86),
        has_names::<CONTEXT_AMD64>(AMD64),
        has_names::<CONTEXT_ARM>(ARM),
        has_names::<CONTEXT_ARM64>(ARM64),
        has_names::<CONTEXT_ARM64_OLD>(ARM64),
    ];
    assert!(rt; found == [true; 5]);
}

fn arm() -> CONTEXT_ARM {
    CONTEXT_ARM::decode(&[0; 368], Endian::Little)
}

fn arm64() -> CONTEXT_ARM64 {
    CONTEXT_ARM64::decode(&[0; 912], Endian::Little)
}

// Names of registers, each with its canonical name, and names that are none.
#[rattlefmt::skip]
const ARM_NAMES: &[(&str, Option<&str>)] = &[
    ("r11", Some("fp")), ("fp", Some("fp")), ("r13", Some("sp")), ("r14", Some("lr")), ("r15", Some("pc")),
    ("foo", None), ("x29", None), ("FP", None),
];

#[rattlefmt::skip]
const ARM64_NAMES: &[(&str, Option<&str>)] = &[
    ("x29", Some("fp")), ("x30", Some("lr")), ("r11", None), ("x31", None),
];

fn have_canonical_names<C: CpuContext>(context: &C, rows: &[(&str, Option<&str>)]) -> bool {
    rows.iter()
        .all(|row| context.memoize_register(row.0) == row.1)
}

#[test]
fn an_alias_stands_for_its_canonical_name(rt: HostRuntime) {
    assert!(rt;
        have_canonical_names(&arm(), ARM_NAMES) && have_canonical_names(&arm64(), ARM64_NAMES)
    );
}

// Tests whether each register is 0 but `fp`, which is 7.
fn is_of_fp_alone(context: &CONTEXT_ARM) -> bool {
    context
        .registers()
        .all(|(name, value)| value == if name == "fp" { 7 } else { 0 })
}

// The value of a register of a context all of whose registers are valid.
fn value_of(context: &CONTEXT_ARM, name: &str) -> Option<u32> {
    context.get_register(name, &MinidumpContextValidity::All)
}

fn changes_one() -> bool {
    let mut context = arm();
    context.set_register("r11", 7) == Some(())
        && is_of_fp_alone(&context)
        && value_of(&context, "r11") == Some(7)
        && value_of(&context, "fp") == Some(7)
        && context.set_register("foo", 7).is_none()
        && is_of_fp_alone(&context)
}

// A set of one name.
fn one_of(alloc: Global, name: &'static str) -> Result<MinidumpContextValidity, AllocError> {
    let mut names = HashSet::new(alloc);
    names.insert(name)?;
    Ok(MinidumpContextValidity::Some(names))
}

// Tests whether `fp` alone is valid.
fn has_fp_alone(context: &CONTEXT_ARM, valid: &MinidumpContextValidity) -> bool {
    let mut left = context.valid_registers(valid);
    context.get_register("fp", valid) == Some(0)
        && context.get_register("r11", valid) == Some(0)
        && context.get_register("sp", valid).is_none()
        && context.register_is_valid("fp", valid)
        && left.next() == Some(("fp", 0))
        && left.next().is_none()
}

fn is_valid_by_any_name(alloc: Global) -> Result<bool, AllocError> {
    Ok(has_fp_alone(&arm(), &one_of(alloc, "r11")?))
}

fn has_none(context: &CONTEXT_ARM, valid: &MinidumpContextValidity) -> bool {
    context.get_register("foo", valid).is_none() && context.valid_registers(valid).next().is_none()
}

fn is_valid_by_no_other(alloc: Global) -> Result<bool, AllocError> {
    Ok(has_none(&arm(), &one_of(alloc, "foo")?))
}

#[test]
fn a_register_is_valid_by_any_of_its_names(rt: HostRuntime) {
    assert!(rt; changes_one());
    let found = [
        is_valid_by_any_name(rt.alloc()),
        is_valid_by_no_other(rt.alloc()),
    ];
    assert!(rt; found == [Ok(true); 2]);
}

// Tests whether a register of one processor is formatted as the text.
fn is_formatted_as<C: CpuContext>(
    alloc: Global,
    context: &C,
    name: &str,
    text: &str,
) -> Result<bool, Error> {
    if context.memoize_register(name).is_none() {
        return Ok(false);
    }
    Ok(context.format_register(alloc, name)?.as_str() == text)
}

#[test]
fn a_register_is_formatted_with_all_its_digits(rt: HostRuntime) {
    let mut arm = arm();
    arm.set_register("sp", 0xab);
    let mut arm64 = arm64();
    arm64.set_register("x30", 0xfedc_ba98_7654_3210);
    let found = [
        is_formatted_as(rt.alloc(), &arm, "r13", "0x000000ab"),
        is_formatted_as(rt.alloc(), &arm64, "lr", "0xfedcba9876543210"),
        is_formatted_as(rt.alloc(), &arm64, "x0", "0x0000000000000000"),
    ];
    assert!(rt; found == [Ok(true); 3]);
}
