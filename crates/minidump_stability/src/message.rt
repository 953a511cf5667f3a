ghost use Rattle.std.specs.Prelude.{◌≡◌, ◌+◌, ◌≤◌, ℕ, [], Option, length, unwrap_or, IfOk};
ghost use Rattle.std.specs.Option.{ok_or, option_map};
ghost use Rattle.minidump_bytes.specs.Steps.{after};
ghost use Rattle.minidump_bytes.specs.Wire.{Field, field_of, payload_of, room};
ghost use Rattle.minidump_format.specs.declared.error.Error.TheVariants.{DataError};
ghost use Rattle.minidump_format.specs.Answer.{Gives};
ghost use Rattle.minidump_stability.specs.Fields.{HasField, count_in, field_count, fields_in, int64_in, uint32_in};
ghost use Rattle.minidump_stability.specs.Rows.{put_bytes, one_nested, one_scalar};

use minidump_bytes::{Source, Steps, WireField, WireValue};
use minidump_format::Error;
use std::alloc::Global;

/// A message, which is read field by field.
pub trait Message: Sized {
    ghost Value: { Type 0 };

    ghost value: { Self → Value };

    // the message without fields
    ghost empty: { Value };

    // the message with one field more
    ghost put: { Field → Value → Option Value };

    // the fields for which memory may be taken
    ghost memory: { Field → Type 0 };

    // how many fields are inside one of its fields
    ghost inside: { Field → ℕ };

    /// Makes the message without fields.
    fn none(alloc: Global) -> Self
        ensures { value result ≡ empty };

    /// Adds a field to the message. Returns `DataError` if the field is known and has another type,
    /// or if it holds a message that can't be read.
    fn put(self, alloc: Global, field: WireField<'_>, steps: &mut Steps) -> Result<Self, Error>
        ensures means { Gives value (memory (field_of field.entry)) result
            (ok_or (put (field_of field.entry) (value self)) DataError) }
        ensures within { steps.new ≤ steps.old + room (payload_of field.entry.value) }
        ensures grows { steps.old ≤ steps.new }
        ensures steps { IfOk result
            (λ _. steps.new ≡ after steps.old (inside (field_of field.entry))) };
}

/// A message that takes no memory.
pub trait Plain: Message {
    // memory is taken for no field
    ghost plain: { (f : Field) → Self.memory f → ⊥ };
}

/// Adds the fields that the bytes encode to the message `old`. Returns `DataError` if they don't
/// encode fields, or a field can't be added.
pub fn merge<M: Message + Drop>(
    alloc: Global,
    old: M,
    bytes: &[u8],
    steps: &mut Steps,
) -> Result<M, Error>
    ensures means { Gives M.value (HasField M.memory bytes.now) result
        (ok_or (put_bytes M.put bytes.now (M.value old)) DataError) }
    ensures within { steps.new ≤ steps.old + length bytes.now }
    ensures grows { steps.old ≤ steps.new }
    ensures steps { IfOk result
        (λ _. steps.new ≡ after steps.old
        (field_count M.inside (unwrap_or (fields_in bytes.now) []))) }
{
    let source = Source::new(bytes);
    let mut message = old;
    let mut offset = 0;
    while offset < source.len() as u64 {
        let (field, next) = source.wire_field(offset, steps).ok_or(Error::DataError)?;
        message = message.put(alloc, field, steps)?;
        offset = next;
    }
    Ok(message)
}

/// Adds fields to a message that takes no memory, as [`merge`] does.
pub fn merge_plain<M: Plain + Drop>(
    alloc: Global,
    old: M,
    bytes: &[u8],
    steps: &mut Steps,
) -> Result<M, Error>
    ensures means { Gives M.Message.value ⊥ result
        (ok_or (put_bytes M.Message.put bytes.now (M.Message.value old)) DataError) }
    ensures within { steps.new ≤ steps.old + length bytes.now }
    ensures grows { steps.old ≤ steps.new }
    ensures steps { IfOk result
        (λ _. steps.new ≡ after steps.old
        (field_count M.Message.inside (unwrap_or (fields_in bytes.now) []))) }
{
    merge(alloc, old, bytes, steps)
}

/// Adds the fields in the payload of a field to the nested message that it holds, which is empty at
/// first.
pub fn nested<M: Plain + Drop>(
    alloc: Global,
    old: Option<M>,
    value: WireValue<'_>,
    steps: &mut Steps,
) -> Result<Option<M>, Error>
    ensures means { Gives (option_map M.Message.value) ⊥ result (ok_or
        (one_nested M.Message.put M.Message.empty (payload_of value.entry)
        (option_map M.Message.value old)) DataError) }
    ensures within { steps.new ≤ steps.old + room (payload_of value.entry) }
    ensures grows { steps.old ≤ steps.new }
    ensures steps { IfOk result
        (λ _. steps.new ≡ after steps.old (count_in M.Message.inside (payload_of value.entry))) }
{
    let WireValue::Bytes(bytes) = value else {
        return Err(Error::DataError);
    };
    let old = match old {
        Some(old) => old,
        None => M::none(alloc),
    };
    Ok(Some(merge_plain(alloc, old, bytes, steps)?))
}

/// Returns the low 32 bits of a varint, always in `Some`. Returns `DataError` if the value is no
/// varint.
pub fn uint32(value: WireValue<'_>) -> Result<Option<u32>, Error>
    ensures { result ≡ ok_or (one_scalar uint32_in (payload_of value.entry)) DataError }
{
    match value {
        WireValue::Varint(number) => Ok(Some((number & 0xffff_ffff) as u32)),
        _ => Err(Error::DataError),
    }
}

/// Returns a varint as a 64-bit number in two's complement, always in `Some`. Returns `DataError`
/// if the value is no varint.
pub fn int64(value: WireValue<'_>) -> Result<Option<i64>, Error>
    ensures { result ≡ ok_or (one_scalar int64_in (payload_of value.entry)) DataError }
{
    match value {
        WireValue::Varint(number) if number < 1 << 63 => Ok(Some(number as i64)),
        WireValue::Varint(number) => Ok(Some(-((u64::MAX - number) as i64) - 1)),
        _ => Err(Error::DataError),
    }
}
