ghost use Rattle.std.proofs.Common.{rules};
ghost use Rattle.std.specs.Prelude.{◌≡◌, IfOk, IfSome, IsOkUnless, IsSome, OnErr, Some, map, string_bytes};
ghost use Rattle.std.specs.Option.{option_copied};
ghost use Rattle.minidump_context.specs.Register.{names_of, register_text, set_names, value_of};
ghost use Rattle.minidump_context.specs.Context.{processor_context, context_in, context_of, context_registers_left};
ghost use Rattle.minidump_context.specs.Context.{value_in, is_of, map_ok, register_name_in, registers_of};
ghost use Rattle.minidump_context.specs.Context.{valid_value_in, valid_registers_from};

use crate::raw_context::with_context;
use crate::{
    ContextRegisters, CpuContext, MinidumpContextValidity, MinidumpRawContext, RegisterNumber,
};
use minidump_bytes::{Endian, Exact, Record, Source, Steps};
use minidump_format::Error;
use minidump_format::format::ProcessorArchitecture;
use minidump_system::{MinidumpMiscInfo, MinidumpSystemInfo};
use std::alloc::Global;

/// Why a context can't be read.
#[derive(Clone, Copy, PartialEq, Eq, Debug)]
pub enum ContextError {
    /// There are too few bytes, or the flags aren't those of the processor.
    ReadFailure,
    /// No layout of contexts is known for the architecture of the system.
    UnknownCpuContext,
}

impl Exact for ContextError {
    ghost exact = { Prim.search rules };
}

/// The registers of a thread, and which of them are valid.
#[derive(Drop)]
pub struct MinidumpContext {
    /// The record, in the layout of its processor.
    pub raw: MinidumpRawContext,
    /// Which registers are valid.
    pub valid: MinidumpContextValidity,
}

impl MinidumpContext {
    /// Creates a context whose registers are all valid.
    pub fn from_raw(raw: MinidumpRawContext) -> MinidumpContext
        ensures raw { result.raw ≡ raw }
        ensures valid { result.valid ≡ MinidumpContextValidity.All }
    {
        MinidumpContext {
            raw,
            valid: MinidumpContextValidity::All,
        }
    }

    /// Reads the context at the start of the bytes, in the layout of the system's architecture. All
    /// of its registers are valid. The misc information is not used. Takes no memory.
    ///
    /// Returns `UnknownCpuContext` if no layout is known for the architecture. Returns
    /// `ReadFailure` if there are too few bytes, or if the low 32 bits of the flags lack the
    /// processor's bit or have another processor's bit below 0x10000000.
    pub fn read(
        bytes: &[u8],
        endian: Endian,
        system_info: &MinidumpSystemInfo,
        _misc: Option<&MinidumpMiscInfo>,
    ) -> Result<MinidumpContext, ContextError>
        ensures raw { map_ok (λ c. c.raw) result
            ≡ context_in endian bytes.now system_info.now.raw.processor_architecture }
        ensures valid { IfOk result (λ c. c.valid ≡ MinidumpContextValidity.All) }
    {
        let architecture = ProcessorArchitecture::from_u16(system_info.raw.processor_architecture);
        Ok(MinidumpContext::from_raw(read_raw(bytes, endian, architecture)?))
    }

    /// Returns the value of the instruction pointer.
    pub fn get_instruction_pointer(&self) -> u64
        ensures { value_in (registers_of self.now.raw)
            (registers_of self.now.raw).instruction_pointer ≡ Some result }
    {
        with_context!(&self.raw, context => instruction_pointer_of(context).to_u64())
    }

    /// Returns the value of the stack pointer.
    pub fn get_stack_pointer(&self) -> u64
        ensures { value_in (registers_of self.now.raw) (registers_of self.now.raw).stack_pointer
            ≡ Some result }
    {
        with_context!(&self.raw, context => stack_pointer_of(context).to_u64())
    }

    /// Returns the canonical name of a register, or `None` if `reg` is not one.
    pub fn memoize_register(&self, reg: &str) -> Option<&'static str>
        ensures { option_copied result ≡ register_name_in (registers_of self.now.raw) reg.now }
    {
        with_context!(&self.raw, context => context.memoize_register(reg))
    }

    /// Returns the value of a register. `memoize_register` must know its name.
    ///
    /// A caller has to prove that the name belongs to the processor of this context, so a literal
    /// such as `"rip"` isn't enough. Use [`MinidumpContext::get_register`] where that isn't known.
    pub fn get_register_always(&self, reg: &str) -> u64
        requires { IsSome (register_name_in (registers_of self.now.raw) reg.now) }
        ensures { value_in (registers_of self.now.raw) reg.now ≡ Some result }
    {
        with_context!(&self.raw, context => context.get_register_always(reg).to_u64())
    }

    /// Returns the value of a register, or `None` if it isn't valid or `reg` is no register's name.
    pub fn get_register(&self, reg: &str) -> Option<u64>
        ensures { result ≡ valid_value_in self.now.valid (registers_of self.now.raw) reg.now }
    {
        self.raw.get_register(reg, &self.valid)
    }

    /// Formats the value of a register as `0x` and two hexadecimal digits for each byte.
    /// `memoize_register` must know its name. The only error is `OutOfMemory`.
    pub fn format_register(&self, alloc: Global, reg: &str) -> Result<String, Error>
        requires { IsSome (register_name_in (registers_of self.now.raw) reg.now) }
        ensures text { IfOk result (λ text. IfSome (value_in (registers_of self.now.raw) reg.now)
            (λ value. string_bytes text ≡ register_text (registers_of self.now.raw).size value)) }
        ensures memory { IsOkUnless result Error.OutOfMemory }
    {
        with_context!(&self.raw, context => context.format_register(alloc, reg))
    }

    /// Returns the canonical names of the registers.
    pub fn general_purpose_registers(&self) -> &'static [&'static str]
        ensures { map (λ n. n.now) result.now ≡ (registers_of self.now.raw).names }
    {
        self.raw.names()
    }

    /// Returns an iterator over the names and values of all registers, in the order of
    /// `general_purpose_registers`.
    pub fn registers(&self) -> ContextRegisters<'_>
        ensures { context_registers_left result
            ≡ valid_registers_from MinidumpContextValidity.All (registers_of self.now.raw) 0 }
    {
        ContextRegisters {
            raw: &self.raw,
            valid: None,
            index: 0,
        }
    }

    /// Returns an iterator over the names and values of the valid registers, in the order of
    /// `general_purpose_registers`.
    pub fn valid_registers(&self) -> ContextRegisters<'_>
        ensures { context_registers_left result
            ≡ valid_registers_from self.now.valid (registers_of self.now.raw) 0 }
    {
        ContextRegisters {
            raw: &self.raw,
            valid: Some(&self.valid),
            index: 0,
        }
    }

    /// Returns the size of a register in bytes.
    pub fn register_size(&self) -> usize
        ensures { result ≡ (registers_of self.now.raw).size }
    {
        with_context!(&self.raw, context => register_size_of(context))
    }

    /// Copies the context. The only error is `OutOfMemory`, and only if not all registers are
    /// valid.
    pub fn try_clone(&self, alloc: Global) -> Result<Self, Error>
        ensures raw { IfOk result (λ copy. copy.raw ≡ self.now.raw) }
        ensures valid { IfOk result (λ copy. set_names copy.valid ≡ set_names self.now.valid) }
        ensures memory { IsOkUnless result Error.OutOfMemory }
        ensures some { OnErr result (IsSome (set_names self.now.valid)) }
    {
        Ok(MinidumpContext {
            raw: self.raw,
            valid: self.valid.try_clone(alloc)?,
        })
    }
}

// Returns the value of the instruction pointer of one processor.
fn instruction_pointer_of<C: CpuContext>(context: &C) -> C::Register
    ensures { value_of (names_of C.table) C.aliases (C.values context.now) C.instruction_pointer
        ≡ Some result }
{
    context.get_register_always(context.instruction_pointer_register_name())
}

// Returns the value of the stack pointer of one processor.
fn stack_pointer_of<C: CpuContext>(context: &C) -> C::Register
    ensures { value_of (names_of C.table) C.aliases (C.values context.now) C.stack_pointer
        ≡ Some result }
{
    context.get_register_always(context.stack_pointer_register_name())
}

// Returns the size of a register of one processor in bytes.
fn register_size_of<C: CpuContext>(_context: &C) -> usize
    ensures { result ≡ C.Register.SIZE }
{
    <C::Register as Record>::SIZE
}

// Reads the context of an architecture at the start of the bytes.
fn read_raw(
    bytes: &[u8],
    endian: Endian,
    architecture: Option<ProcessorArchitecture>,
) -> Result<MinidumpRawContext, ContextError>
    ensures { result ≡ context_of endian bytes.now architecture }
{
    match architecture {
        Some(
            ProcessorArchitecture::PROCESSOR_ARCHITECTURE_INTEL
            | ProcessorArchitecture::PROCESSOR_ARCHITECTURE_IA32_ON_WIN64,
        ) => Ok(MinidumpRawContext::X86(read_context(bytes, endian)?)),
        Some(ProcessorArchitecture::PROCESSOR_ARCHITECTURE_AMD64) => {
            Ok(MinidumpRawContext::Amd64(read_context(bytes, endian)?))
        }
        Some(ProcessorArchitecture::PROCESSOR_ARCHITECTURE_ARM) => {
            Ok(MinidumpRawContext::Arm(read_context(bytes, endian)?))
        }
        Some(ProcessorArchitecture::PROCESSOR_ARCHITECTURE_ARM64) => {
            Ok(MinidumpRawContext::Arm64(read_context(bytes, endian)?))
        }
        Some(ProcessorArchitecture::PROCESSOR_ARCHITECTURE_ARM64_OLD) => {
            Ok(MinidumpRawContext::OldArm64(read_context(bytes, endian)?))
        }
        _ => Err(ContextError::UnknownCpuContext),
    }
}

// Reads the context of one processor at the start of the bytes, and checks its flags.
#[tactic(auto, unfolding(crate::specs::Context::processor_context))]
fn read_context<C: CpuContext + Drop>(bytes: &[u8], endian: Endian) -> Result<C, ContextError>
    ensures { result ≡ processor_context C.layout C.processor C.flags endian bytes.now }
{
    let context: C = Source::new(bytes)
        .record(0, endian, &mut Steps::new())
        .ok_or(ContextError::ReadFailure)?;
    if is_of(C::processor(), context.flags()) {
        Ok(context)
    } else {
        Err(ContextError::ReadFailure)
    }
}

// Returns whether flags have the bit of `processor`, and of no other processor below 0x1000_0000:
// X86, MIPS, MIPS64, AMD64, ARM64 and PPC64, in this order.
#[tactic(auto, unfolding(minidump_format::specs::ContextFlags::context_flags))]
fn is_of(processor: u32, flags: u32) -> bool
    ensures { result ≡ is_of processor flags }
{
    flags & processor == processor
        && (processor == 0x1_0000 || flags & 0x1_0000 != 0x1_0000)
        && (processor == 0x4_0000 || flags & 0x4_0000 != 0x4_0000)
        && (processor == 0x8_0000 || flags & 0x8_0000 != 0x8_0000)
        && (processor == 0x10_0000 || flags & 0x10_0000 != 0x10_0000)
        && (processor == 0x40_0000 || flags & 0x40_0000 != 0x40_0000)
        && (processor == 0x100_0000 || flags & 0x100_0000 != 0x100_0000)
}
