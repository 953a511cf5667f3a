//! Laws of registers, for the context of every processor.
ghost use Rattle.std.specs.Prelude.{◌≡◌, ◌≢◌, ◌↔◌, ◌%◌, ◌^◌, ℕ, [], codes, IsSome, IsTrue, List, Some, None, is_some};
ghost use Rattle.std.specs.Prelude.{true, length, map, position};
ghost use Rattle.std.specs.List.{range_with_len, list_all};
ghost use Rattle.std.specs.Str.{bytes_eq};
ghost use Rattle.minidump_bytes.specs.declared.endian.Endian.{Endian};
ghost use Rattle.minidump_bytes.specs.Number.{number_at};
ghost use Rattle.minidump_context.specs.Amd64.{amd64_registers, amd64_rest, amd64_values};
ghost use Rattle.minidump_context.specs.Arm.{arm_aliases, arm_registers, arm_rest, arm_values};
ghost use Rattle.minidump_context.specs.Arm64.{arm64_aliases, arm64_old_rest, arm64_old_values, arm64_registers};
ghost use Rattle.minidump_context.specs.Arm64.{arm64_rest, arm64_values};
ghost use Rattle.minidump_context.specs.X86.{x86_registers, x86_rest, x86_values};
ghost use Rattle.minidump_context.specs.Register.{names_of, register_index, value_of, holds, is_valid, IsChanged};
ghost use Rattle.minidump_context.specs.Register.{IsSameValidity};

use crate::{
    ContextRegisters, CpuContext, CpuRegisterNames, CpuRegisters, MinidumpContextValidity,
    MinidumpRawContext,
};
use minidump_format::format::{
    CONTEXT_AMD64, CONTEXT_ARM, CONTEXT_ARM64, CONTEXT_ARM64_OLD, CONTEXT_X86,
};

/// A register that was changed has its new value under each of its names.
pub fn a_change_is_seen_under_all_names<T: CpuContext>()
    ensures { (before after : T) (value : T.Register) (index : ℕ) (name : List ℕ)
        → IsChanged T.values T.rest before after value (Some index)
        → register_index (names_of T.table) T.aliases name ≡ Some index
        → value_of (names_of T.table) T.aliases (T.values after) name ≡ Some value }
{}

/// Every other register keeps its value, and so does what the context holds beside registers.
/// Setting a name of no register changes nothing.
pub fn nothing_else_is_changed<T: CpuContext>()
    ensures registers { (before after : T) (value : T.Register) (index : ℕ) (name : List ℕ)
        → IsChanged T.values T.rest before after value (Some index)
        → register_index (names_of T.table) T.aliases name ≢ Some index
        → value_of (names_of T.table) T.aliases (T.values after) name
        ≡ value_of (names_of T.table) T.aliases (T.values before) name }
    ensures rest { (before after : T) (value : T.Register) (index : ℕ)
        → IsChanged T.values T.rest before after value (Some index) → T.rest after ≡ T.rest before }
    ensures unnamed { (before after : T) (value : T.Register)
        → IsChanged T.values T.rest before after value None → after ≡ before }
{}

/// The value of each register that is read is the number at its offset in the record.
pub fn registers_are_at_their_offsets<T: CpuContext>()
    ensures { (order : Endian) (bytes : List ℕ)
        → map T.Register.number (T.values (T.layout.value order bytes))
        ≡ map (λ row. number_at order T.Register.SIZE row.1 bytes) T.table }
{}

/// Each canonical name stands for the register of its own row, and each alias for that of its
/// canonical name. The names of the stack pointer and of the instruction pointer are names of
/// registers.
pub fn names_name_their_registers<T: CpuContext>()
    ensures canonical { map (register_index (names_of T.table) T.aliases) (names_of T.table)
        ≡ map Some (range_with_len 0 (length T.table)) }
    ensures aliases { map (λ a. register_index (names_of T.table) T.aliases a.0) T.aliases
        ≡ map (λ a. position (λ n. bytes_eq n a.1) (names_of T.table)) T.aliases }
    ensures aliases_known { list_all
        (λ a. is_some (register_index (names_of T.table) T.aliases a.0)) T.aliases ≡ true }
    ensures stack_pointer { IsSome (register_index (names_of T.table) T.aliases T.stack_pointer) }
    ensures instruction_pointer { IsSome
        (register_index (names_of T.table) T.aliases T.instruction_pointer) }
{}

/// A register is valid under each of its names if the set has any of them.
pub fn any_name_makes_a_register_valid<T: CpuContext>()
    ensures { (valid : MinidumpContextValidity) (name member : List ℕ) (index : ℕ)
        → register_index (names_of T.table) T.aliases name ≡ Some index
        → register_index (names_of T.table) T.aliases member ≡ Some index
        → holds valid member ≡ true → is_valid valid (names_of T.table) T.aliases name ≡ true }
{}

/// Two sets of valid registers are equal exactly if both are all, or both have the same names.
pub fn sets_are_equal_by_their_names()
    ensures { (x y : MinidumpContextValidity)
        → IsTrue (⟦<MinidumpContextValidity as PartialEq>⟧.eq x y) ↔ IsSameValidity x y }
{}

/// A clone of a context is the same context, and a clone of an iterator over registers is the same
/// iterator.
pub fn clones_are_the_same<T: CpuContext + Clone + 'static>()
    ensures raw { (context other : MinidumpRawContext)
        → ⟦<MinidumpRawContext as Clone>⟧.is_clone context other → other ≡ context }
    ensures registers { (registers other : CpuRegisters T)
        → ⟦<CpuRegisters<'static, T> as Clone>⟧.is_clone registers other → other ≡ registers }
    ensures context_registers { (registers other : ContextRegisters)
        → ⟦<ContextRegisters<'static> as Clone>⟧.is_clone registers other → other ≡ registers }
{}

/// The table, the aliases, the values and the rest of each processor's context are those that the
/// crate defines for that processor, and so are the processor's bit in the flags, the flags, and
/// the names of the stack pointer and of the instruction pointer.
pub fn contexts_are_as_defined()
    ensures x86_table { ⟦<CONTEXT_X86 as CpuRegisterNames>⟧.table ≡ x86_registers }
    ensures x86_aliases { ⟦<CONTEXT_X86 as CpuContext>⟧.aliases ≡ [] }
    ensures x86_values { ⟦<CONTEXT_X86 as CpuContext>⟧.values ≡ x86_values }
    ensures x86_rest { ⟦<CONTEXT_X86 as CpuContext>⟧.rest ≡ x86_rest }
    ensures x86_processor { ⟦<CONTEXT_X86 as CpuContext>⟧.processor ≡ 0x1_0000 }
    ensures x86_flags { ⟦<CONTEXT_X86 as CpuContext>⟧.flags ≡ (λ c. c.context_flags) }
    ensures x86_stack { ⟦<CONTEXT_X86 as CpuContext>⟧.stack_pointer ≡ codes "esp" }
    ensures x86_instruction { ⟦<CONTEXT_X86 as CpuContext>⟧.instruction_pointer ≡ codes "eip" }
    ensures amd64_table { ⟦<CONTEXT_AMD64 as CpuRegisterNames>⟧.table ≡ amd64_registers }
    ensures amd64_aliases { ⟦<CONTEXT_AMD64 as CpuContext>⟧.aliases ≡ [] }
    ensures amd64_values { ⟦<CONTEXT_AMD64 as CpuContext>⟧.values ≡ amd64_values }
    ensures amd64_rest { ⟦<CONTEXT_AMD64 as CpuContext>⟧.rest ≡ amd64_rest }
    ensures amd64_processor { ⟦<CONTEXT_AMD64 as CpuContext>⟧.processor ≡ 0x10_0000 }
    ensures amd64_flags { ⟦<CONTEXT_AMD64 as CpuContext>⟧.flags ≡ (λ c. c.context_flags) }
    ensures amd64_stack { ⟦<CONTEXT_AMD64 as CpuContext>⟧.stack_pointer ≡ codes "rsp" }
    ensures amd64_instruction { ⟦<CONTEXT_AMD64 as CpuContext>⟧.instruction_pointer ≡ codes "rip" }
    ensures arm_table { ⟦<CONTEXT_ARM as CpuRegisterNames>⟧.table ≡ arm_registers }
    ensures arm_aliases { ⟦<CONTEXT_ARM as CpuContext>⟧.aliases ≡ arm_aliases }
    ensures arm_values { ⟦<CONTEXT_ARM as CpuContext>⟧.values ≡ arm_values }
    ensures arm_rest { ⟦<CONTEXT_ARM as CpuContext>⟧.rest ≡ arm_rest }
    ensures arm_processor { ⟦<CONTEXT_ARM as CpuContext>⟧.processor ≡ 0x4000_0000 }
    ensures arm_flags { ⟦<CONTEXT_ARM as CpuContext>⟧.flags ≡ (λ c. c.context_flags) }
    ensures arm_stack { ⟦<CONTEXT_ARM as CpuContext>⟧.stack_pointer ≡ codes "sp" }
    ensures arm_instruction { ⟦<CONTEXT_ARM as CpuContext>⟧.instruction_pointer ≡ codes "pc" }
    ensures arm64_table { ⟦<CONTEXT_ARM64 as CpuRegisterNames>⟧.table ≡ arm64_registers }
    ensures arm64_aliases { ⟦<CONTEXT_ARM64 as CpuContext>⟧.aliases ≡ arm64_aliases }
    ensures arm64_values { ⟦<CONTEXT_ARM64 as CpuContext>⟧.values ≡ arm64_values }
    ensures arm64_rest { ⟦<CONTEXT_ARM64 as CpuContext>⟧.rest ≡ arm64_rest }
    ensures arm64_processor { ⟦<CONTEXT_ARM64 as CpuContext>⟧.processor ≡ 0x40_0000 }
    ensures arm64_flags { ⟦<CONTEXT_ARM64 as CpuContext>⟧.flags ≡ (λ c. c.context_flags) }
    ensures arm64_stack { ⟦<CONTEXT_ARM64 as CpuContext>⟧.stack_pointer ≡ codes "sp" }
    ensures arm64_instruction { ⟦<CONTEXT_ARM64 as CpuContext>⟧.instruction_pointer ≡ codes "pc" }
    ensures arm64_old_table { ⟦<CONTEXT_ARM64_OLD as CpuRegisterNames>⟧.table ≡ arm64_registers }
    ensures arm64_old_aliases { ⟦<CONTEXT_ARM64_OLD as CpuContext>⟧.aliases ≡ arm64_aliases }
    ensures arm64_old_values { ⟦<CONTEXT_ARM64_OLD as CpuContext>⟧.values ≡ arm64_old_values }
    ensures arm64_old_rest { ⟦<CONTEXT_ARM64_OLD as CpuContext>⟧.rest ≡ arm64_old_rest }
    ensures arm64_old_processor { ⟦<CONTEXT_ARM64_OLD as CpuContext>⟧.processor ≡ 0x8000_0000 }
    ensures arm64_old_flags { ⟦<CONTEXT_ARM64_OLD as CpuContext>⟧.flags
        ≡ (λ c. c.context_flags % 2 ^ 32) }
    ensures arm64_old_stack { ⟦<CONTEXT_ARM64_OLD as CpuContext>⟧.stack_pointer ≡ codes "sp" }
    ensures arm64_old_instruction { ⟦<CONTEXT_ARM64_OLD as CpuContext>⟧.instruction_pointer
        ≡ codes "pc" }
{}
