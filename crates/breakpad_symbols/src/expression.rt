ghost use Rattle.std.specs.Prelude.{◌≡◌, Some, None, IfOk, if◌then◌else◌};
ghost use Rattle.minidump_bytes.specs.LinuxOsStr.{text_of};
ghost use Rattle.breakpad_symbols.specs.AddressWidth.{bits_of};
ghost use Rattle.breakpad_symbols.specs.CfiParts.{expression_at};
ghost use Rattle.breakpad_symbols.specs.Expression.{StateValue, apply, apply_on, literal, operand};
ghost use Rattle.breakpad_symbols.specs.Expression.{operator, read_on, step, value_of};

use crate::AddressWidth;
use crate::value_stack::ValueStack;
use crate::words::is_label;
use minidump_bytes::{LinuxOsStr, first_word};
use std::alloc::{AllocError, Global};

/// The registers of a frame, and the memory of its process.
pub trait UnwindState {
    // what rules can refer to
    ghost value: { Self → StateValue };

    /// Returns the width of an address. Each value is cut to it.
    fn width(&self) -> AddressWidth
        ensures { bits_of result ≡ (value self.now).bits };

    /// Returns the value of a register, by the name that rules have for it, as `$rsp`. Returns `None`
    /// if it isn't known.
    fn register(&self, name: &[u8]) -> Option<u64>
        ensures { result ≡ (value self.now).register name.now };

    /// Returns the word at an address, as wide as an address, or `None` if the memory isn't known.
    fn word_at(&self, address: u64) -> Option<u64>
        ensures { result ≡ (value self.now).word address };
}

// An operator of two values.
#[derive(Clone, Copy, PartialEq, Eq)]
pub(crate) enum Operator {
    Add,
    Subtract,
    Multiply,
    Divide,
    Remainder,
    Align,
}

/// Returns the value of a rule's expression, which ends before the first word that ends with a
/// colon. Returns `None` if a word has no meaning there, or if not exactly one value is left.
/// `frame_address` is the canonical frame address, if it is known.
pub fn evaluate<S: UnwindState>(
    alloc: Global,
    expression: LinuxOsStr<'_>,
    state: &S,
    frame_address: Option<u64>,
) -> Result<Option<u64>, AllocError>
    ensures { IfOk result (λ v. v ≡ value_of (S.value state.now) frame_address
        (expression_at expression.entry)) }
{
    let mut values = ValueStack::new(alloc);
    let mut rest = expression;
    while let Some((word, after)) = first_word(rest) {
        if is_label(word) {
            return Ok(values.only());
        }
        if !step(word, state, frame_address, &mut values)? {
            return Ok(None);
        }
        rest = after;
    }
    Ok(values.only())
}

// Does what a word says, or returns false if it has no meaning there.
fn step<S: UnwindState>(
    word: LinuxOsStr<'_>,
    state: &S,
    frame_address: Option<u64>,
    values: &mut ValueStack,
) -> Result<bool, AllocError>
    ensures { IfOk result (λ done. step (S.value state.now) frame_address (text_of word.entry) values.old
        ≡ (if done then Some values.new else None)) }
{
    if let Some(op) = operator_of(word.as_bytes()) {
        return apply_on(op, state.width(), values);
    }
    if word.as_bytes() == b"^".as_slice() {
        return read_on(state, values);
    }
    let Some(value) = operand(word, state, frame_address) else {
        return Ok(false);
    };
    values.push(value)?;
    Ok(true)
}

// Replaces the last two values by what an operator makes of them.
fn apply_on(op: Operator, width: AddressWidth, values: &mut ValueStack) -> Result<bool, AllocError>
    ensures { IfOk result (λ done. apply_on (bits_of width) op values.old
        ≡ (if done then Some values.new else None)) }
{
    let Some(b) = values.pop() else {
        return Ok(false);
    };
    let Some(a) = values.pop() else {
        return Ok(false);
    };
    let Some(value) = apply(op, width, a, b) else {
        return Ok(false);
    };
    values.push(value)?;
    Ok(true)
}

// Replaces the last value by the word of memory at that address.
fn read_on<S: UnwindState>(state: &S, values: &mut ValueStack) -> Result<bool, AllocError>
    ensures { IfOk result (λ done. read_on (S.value state.now) values.old
        ≡ (if done then Some values.new else None)) }
{
    let Some(address) = values.pop() else {
        return Ok(false);
    };
    let Some(word) = state.word_at(address) else {
        return Ok(false);
    };
    values.push(state.width().cut(word))?;
    Ok(true)
}

// Returns the number that a word is.
#[tactic(auto, unfolding(crate::specs::Expression::literal))]
fn literal(width: AddressWidth, word: LinuxOsStr<'_>) -> Option<u64>
    ensures { result ≡ literal (bits_of width) (text_of word.entry) }
{
    if let Some(number) = width.number(word.as_bytes()) {
        return Some(number);
    }
    let digits = word.strip_prefix(b"-")?;
    let number = width.number(digits.as_bytes())?;
    Some(width.negative(number))
}

// Returns the value of a word: a number, the canonical frame address or a register.
#[tactic(auto, unfolding(crate::specs::Expression::operand))]
fn operand<S: UnwindState>(
    word: LinuxOsStr<'_>,
    state: &S,
    frame_address: Option<u64>,
) -> Option<u64>
    ensures { result ≡ operand (S.value state.now) frame_address (text_of word.entry) }
{
    let width = state.width();
    if let Some(number) = literal(width, word) {
        return Some(number);
    }
    let value = if word.as_bytes() == b".cfa".as_slice() {
        frame_address?
    } else {
        state.register(word.as_bytes())?
    };
    Some(width.cut(value))
}

// Returns the operator that a word is.
#[tactic(auto, unfolding(crate::specs::Expression::operator))]
fn operator_of(word: &[u8]) -> Option<Operator>
    ensures { result ≡ operator word.now }
{
    if word == b"+".as_slice() {
        Some(Operator::Add)
    } else if word == b"-".as_slice() {
        Some(Operator::Subtract)
    } else if word == b"*".as_slice() {
        Some(Operator::Multiply)
    } else if word == b"/".as_slice() {
        Some(Operator::Divide)
    } else if word == b"%".as_slice() {
        Some(Operator::Remainder)
    } else if word == b"@".as_slice() {
        Some(Operator::Align)
    } else {
        None
    }
}

// Returns what an operator makes of two values, or `None` if it would divide by 0.
#[tactic(auto, unfolding(crate::specs::Expression::apply), using(crate::proofs::WidthLemmas::cut_twice))]
fn apply(op: Operator, width: AddressWidth, a: u64, b: u64) -> Option<u64>
    ensures { result ≡ apply (bits_of width) op a b }
{
    match op {
        Operator::Add => Some(width.cut(a.wrapping_add(b))),
        Operator::Subtract => Some(width.cut(a.wrapping_add(width.negative(b)))),
        Operator::Multiply => Some(width.cut(a.wrapping_mul(b))),
        Operator::Divide => { if b > 0 { Some(a / b) } else { None } }
        Operator::Remainder => { if b > 0 { Some(a % b) } else { None } }
        Operator::Align => { if b > 0 { Some(a - a % b) } else { None } }
    }
}
