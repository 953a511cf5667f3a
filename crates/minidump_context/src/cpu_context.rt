ghost use Rattle.std.specs.Prelude.{◌≡◌, ◌↔◌, ◌<◌, ◌*◌, ℕ, List, Option, Some, None, IsSome, if◌then◌else◌, IfOk};
ghost use Rattle.std.specs.Prelude.{IsOkUnless, IfSome, string_bytes, length, map, slice_set};
ghost use Rattle.std.specs.List.{slice_get};
ghost use Rattle.std.specs.Option.{option_copied};
ghost use Rattle.minidump_bytes.specs.declared.endian.Endian.{Endian};
ghost use Rattle.minidump_bytes.specs.Number.{number_at};
ghost use Rattle.minidump_context.specs.Register.{register_index, register_name, value_of, is_valid, names_of};
ghost use Rattle.minidump_context.specs.Register.{valid_from, registers_left, register_text, IsChanged};
ghost use Rattle.minidump_context.specs.Register.{AreRegisterNames};

use crate::names::register_index;
use crate::{CpuRegisters, MinidumpContextValidity};
use minidump_bytes::{FixedRead, Piece, Record, format_pieces};
use minidump_format::Error;
use std::alloc::Global;

/// The type of a register's value: an unsigned integer.
pub trait RegisterNumber: FixedRead {
    ghost number: { Self → ℕ };

    /// Converts the value to 64 bits.
    fn to_u64(self) -> u64
        ensures { result ≡ number self };

    /// Returns the number of hexadecimal digits that a value has at most.
    fn hex_digits() -> usize
        ensures { result ≡ 2 * Self.SIZE };
}

impl RegisterNumber for u32 {
    ghost number = { λ n. n };

    fn to_u64(self) -> u64 {
        self as u64
    }

    fn hex_digits() -> usize {
        8
    }
}

impl RegisterNumber for u64 {
    ghost number = { λ n. n };

    fn to_u64(self) -> u64 {
        self
    }

    fn hex_digits() -> usize {
        16
    }
}

/// The names of the registers of a context.
pub trait CpuRegisterNames {
    // the canonical name of each register and its offset in the record
    ghost table: { List (List ℕ × ℕ) };

    /// The canonical names of the general-purpose registers.
    const REGISTERS: &'static [&'static str];

    /// Returns [`REGISTERS`](CpuRegisterNames::REGISTERS), which a contract can't name.
    fn names() -> &'static [&'static str]
        ensures { map (λ n. n.now) result.now ≡ names_of table };
}

/// The context of a processor: its registers by name.
pub trait CpuContext: CpuRegisterNames + Record {
    /// The type of a register's value: `u32` or `u64`.
    type Register: RegisterNumber;

    // each alias with the canonical name that it stands for
    ghost aliases: { List (List ℕ × List ℕ) };

    // the values of the registers, in the order of the table
    ghost values: { Self → List Self.Register };

    // the context without the values of its registers
    ghost rest: { Self → Self };

    // the processor's bit in the flags, and the flags of a context
    ghost processor: { ℕ };

    ghost flags: { Self → ℕ };

    // the names of the stack pointer and of the instruction pointer
    ghost stack_pointer: { List ℕ };

    ghost instruction_pointer: { List ℕ };

    /// Returns each alias with the canonical name that it stands for.
    fn aliases() -> &'static [(&'static str, &'static str)]
        ensures { map (λ a. (a.0.now, a.1.now)) result.now ≡ aliases };

    /// Returns the value of the register at an index of the list of names.
    fn register_at(&self, index: usize) -> Self::Register
        requires { index < length Self.table }
        ensures { slice_get (values self.now) index ≡ Some result };

    /// Sets the register at an index of the list of names, and changes nothing else.
    fn set_register_at(&mut self, index: usize, value: Self::Register)
        requires { index < length Self.table }
        ensures set { values self.new ≡ slice_set (values self.old) index value }
        ensures rest { rest self.new ≡ rest self.old };

    /// Returns the processor's bit in the flags of its contexts.
    fn processor() -> u32
        ensures { result ≡ processor };

    /// Returns the low 32 bits of the context's flags.
    fn flags(&self) -> u32
        ensures { result ≡ flags self.now };

    /// Returns the name of the stack pointer.
    fn stack_pointer_register_name(&self) -> &'static str
        ensures { result.now ≡ stack_pointer };

    /// Returns the name of the instruction pointer.
    fn instruction_pointer_register_name(&self) -> &'static str
        ensures { result.now ≡ instruction_pointer };

    /// Returns the canonical name of a register, or `None` if `reg` is not one.
    final fn memoize_register(&self, reg: &str) -> Option<&'static str>
        ensures { option_copied result ≡ register_name (names_of Self.table) aliases reg.now }
    {
        let names = Self::names();
        match register_index(names, Self::aliases(), reg) {
            Some(index) => Some(names[index]),
            None => None,
        }
    }

    /// Returns whether `reg` is a name of a valid register. A register is valid if `valid` has any
    /// of its names.
    final fn register_is_valid(&self, reg: &str, valid: &MinidumpContextValidity) -> bool
        ensures { result ≡ is_valid valid.now (names_of Self.table) aliases reg.now }
    {
        match self.memoize_register(reg) {
            Some(canonical) => valid.holds_any(Self::aliases(), canonical),
            None => false,
        }
    }

    /// Returns the value of a register. `memoize_register` must know its name.
    final fn get_register_always(&self, reg: &str) -> Self::Register
        requires { IsSome (register_name (names_of Self.table) aliases reg.now) }
        ensures { value_of (names_of Self.table) aliases (values self.now) reg.now ≡ Some result }
    {
        let index = register_index(Self::names(), Self::aliases(), reg).unwrap();
        self.register_at(index)
    }

    /// Returns the value of a register, or `None` if it isn't valid or `reg` is no register's name.
    final fn get_register(
        &self,
        reg: &str,
        valid: &MinidumpContextValidity,
    ) -> Option<Self::Register>
        ensures { result ≡ (if is_valid valid.now (names_of Self.table) aliases reg.now
            then value_of (names_of Self.table) aliases (values self.now) reg.now else None) }
    {
        if self.register_is_valid(reg, valid) {
            Some(self.get_register_always(reg))
        } else {
            None
        }
    }

    /// Sets a register, under all of its names, and changes nothing else. Returns `None`, and
    /// changes nothing, if `reg` is not a register.
    final fn set_register(&mut self, reg: &str, val: Self::Register) -> Option<()>
        ensures some { IsSome result
            ↔ IsSome (register_index (names_of Self.table) aliases reg.now) }
        ensures change { IsChanged values rest self.old self.new val
            (register_index (names_of Self.table) aliases reg.now) }
    {
        let index = register_index(Self::names(), Self::aliases(), reg)?;
        self.set_register_at(index, val);
        Some(())
    }

    /// Formats the value of a register as `0x` and two hexadecimal digits for each byte.
    /// `memoize_register` must know its name. The only error is `OutOfMemory`.
    final fn format_register(&self, alloc: Global, reg: &str) -> Result<String, Error>
        requires { IsSome (register_name (names_of Self.table) aliases reg.now) }
        ensures text { IfOk result (λ text. IfSome
            (value_of (names_of Self.table) aliases (values self.now) reg.now)
            (λ value. string_bytes text
            ≡ register_text Self.Register.SIZE (Self.Register.number value))) }
        ensures memory { IsOkUnless result Error.OutOfMemory }
    {
        let value = self.get_register_always(reg).to_u64();
        Ok(format_pieces(alloc, &[Piece::Wide(value, Self::Register::hex_digits())])?)
    }

    /// Returns an iterator over the names and values of all registers, in the order of the list of
    /// names.
    final fn registers(&self) -> CpuRegisters<'_, Self>
        ensures { registers_left (names_of Self.table) aliases values result
            ≡ valid_from MinidumpContextValidity.All (names_of Self.table) aliases
            (values self.now) 0 }
    {
        CpuRegisters {
            context: self,
            valid: None,
            index: 0,
        }
    }

    /// Returns an iterator over the names and values of the valid registers, in the order of the
    /// list of names.
    final fn valid_registers<'a>(
        &'a self,
        valid: &'a MinidumpContextValidity,
    ) -> CpuRegisters<'a, Self>
        ensures { registers_left (names_of Self.table) aliases values result
            ≡ valid_from valid.now (names_of Self.table) aliases (values self.now) 0 }
    {
        CpuRegisters {
            context: self,
            valid: Some(valid),
            index: 0,
        }
    }

    // each row of the table has a value
    ghost as_many: { (c : Self) → length (values c) ≡ length Self.table };

    // each canonical name stands for the register of its own row, each alias for that of its
    // canonical name, and both pointers are registers
    ghost register_names: { AreRegisterNames Self.table aliases stack_pointer instruction_pointer };

    // the value of each register that is read is the number at its offset in the record
    ghost at_offsets: { (order : Endian) (bytes : List ℕ)
        → map Self.Register.number (values (Self.layout.value order bytes))
        ≡ map (λ row. number_at order Self.Register.SIZE row.1 bytes) Self.table };
}
