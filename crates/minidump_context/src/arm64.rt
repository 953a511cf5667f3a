use crate::{CpuContext, CpuRegisterNames};
use minidump_format::format::{CONTEXT_ARM64, CONTEXT_ARM64_OLD};

// The canonical names of the registers, the same for both layouts.
const REGISTERS: &'static [&'static str] = &[
    "x0", "x1", "x2", "x3", "x4", "x5", "x6", "x7", "x8", "x9", "x10", "x11", "x12", "x13", "x14",
    "x15", "x16", "x17", "x18", "x19", "x20", "x21", "x22", "x23", "x24", "x25", "x26", "x27",
    "x28", "fp", "lr", "sp", "pc",
];

// Each alias with the canonical name that it stands for, the same for both layouts.
const ALIASES: &'static [(&'static str, &'static str)] = &[("x29", "fp"), ("x30", "lr")];

impl CpuRegisterNames for CONTEXT_ARM64 {
    ghost use Rattle.minidump_context.specs.Arm64.{arm64_registers};

    ghost table = { arm64_registers };

    const REGISTERS: &'static [&'static str] = REGISTERS;

    #[tactic(auto, unfolding(crate::specs::Arm64::arm64_registers))]
    fn names() -> &'static [&'static str] {
        Self::REGISTERS
    }
}

impl CpuContext for CONTEXT_ARM64 {
    ghost use Rattle.std.specs.Prelude.{codes, refl, map};
    ghost use Rattle.minidump_context.specs.Arm64.{arm64_aliases, arm64_registers, arm64_rest, arm64_values};
    ghost use Rattle.minidump_context.specs.Register.{canonical_name, register_index};
    ghost use Rattle.std.proofs.Common.{ap};
    ghost use Rattle.minidump_bytes.proofs.ArrayLemmas.{numbers_by_offset};
    ghost use Rattle.minidump_format.specs.ContextArm64.{context_arm64};

    type Register = u64;

    ghost aliases = { arm64_aliases };

    ghost values = { arm64_values };

    ghost rest = { arm64_rest };

    ghost processor = { 0x40_0000 };

    ghost flags = { λ c. c.context_flags };

    ghost stack_pointer = { codes "sp" };

    ghost instruction_pointer = { codes "pc" };

    #[tactic(auto, unfolding(crate::specs::Arm64::arm64_aliases))]
    fn aliases() -> &'static [(&'static str, &'static str)] {
        ALIASES
    }

    #[tactic(auto, unfolding(crate::specs::Arm64::arm64_registers, crate::specs::Arm64::arm64_values))]
    fn register_at(&self, index: usize) -> u64 {
        match index {
            31 => self.sp,
            32 => self.pc,
            _ => self.iregs[index],
        }
    }

    #[tactic(auto, unfolding(crate::specs::Arm64::arm64_registers, crate::specs::Arm64::arm64_values, crate::specs::Arm64::arm64_rest))]
    fn set_register_at(&mut self, index: usize, value: u64) {
        match index {
            31 => self.sp = value,
            32 => self.pc = value,
            _ => self.iregs[index] = value,
        }
    }

    fn processor() -> u32 {
        0x40_0000
    }

    fn flags(&self) -> u32 {
        self.context_flags
    }

    fn stack_pointer_register_name(&self) -> &'static str {
        "sp"
    }

    fn instruction_pointer_register_name(&self) -> &'static str {
        "pc"
    }

    ghost as_many = { unfold arm64_registers arm64_values in λ c. refl };

    ghost register_names = { unfold arm64_registers arm64_aliases canonical_name register_index in record {
      canonical = refl;
      alias = refl;
      aliases_known = refl;
      stack_pointer_known = refl;
      instruction_pointer_known = refl;
    } };

    ghost at_offsets = { unfold arm64_registers arm64_values in λ order bytes. ap
        (λ numbers. map (λ n. n)
        (arm64_values (record (context_arm64.value order bytes) { iregs = numbers })))
        (numbers_by_offset order 8 bytes 8 31) };
}

impl CpuRegisterNames for CONTEXT_ARM64_OLD {
    ghost use Rattle.minidump_context.specs.Arm64.{arm64_registers};

    ghost table = { arm64_registers };

    const REGISTERS: &'static [&'static str] = REGISTERS;

    #[tactic(auto, unfolding(crate::specs::Arm64::arm64_registers))]
    fn names() -> &'static [&'static str] {
        Self::REGISTERS
    }
}

impl CpuContext for CONTEXT_ARM64_OLD {
    ghost use Rattle.std.specs.Prelude.{codes, ◌%◌, ◌^◌, refl, map};
    ghost use Rattle.minidump_context.specs.Arm64.{arm64_aliases, arm64_old_rest, arm64_old_values, arm64_registers};
    ghost use Rattle.minidump_context.specs.Register.{canonical_name, register_index};
    ghost use Rattle.std.proofs.Common.{ap};
    ghost use Rattle.minidump_bytes.proofs.ArrayLemmas.{numbers_by_offset};
    ghost use Rattle.minidump_format.specs.ContextArm64.{context_arm64_old};

    type Register = u64;

    ghost aliases = { arm64_aliases };

    ghost values = { arm64_old_values };

    ghost rest = { arm64_old_rest };

    ghost processor = { 0x8000_0000 };

    ghost flags = { λ c. c.context_flags % 2 ^ 32 };

    ghost stack_pointer = { codes "sp" };

    ghost instruction_pointer = { codes "pc" };

    #[tactic(auto, unfolding(crate::specs::Arm64::arm64_aliases))]
    fn aliases() -> &'static [(&'static str, &'static str)] {
        ALIASES
    }

    #[tactic(auto, unfolding(crate::specs::Arm64::arm64_registers, crate::specs::Arm64::arm64_old_values))]
    fn register_at(&self, index: usize) -> u64 {
        match index {
            31 => self.sp,
            32 => self.pc,
            _ => self.iregs[index],
        }
    }

    #[tactic(auto, unfolding(crate::specs::Arm64::arm64_registers, crate::specs::Arm64::arm64_old_values, crate::specs::Arm64::arm64_old_rest))]
    fn set_register_at(&mut self, index: usize, value: u64) {
        match index {
            31 => self.sp = value,
            32 => self.pc = value,
            _ => self.iregs[index] = value,
        }
    }

    fn processor() -> u32 {
        0x8000_0000
    }

    fn flags(&self) -> u32 {
        (self.context_flags & 0xffff_ffff) as u32
    }

    fn stack_pointer_register_name(&self) -> &'static str {
        "sp"
    }

    fn instruction_pointer_register_name(&self) -> &'static str {
        "pc"
    }

    ghost as_many = { unfold arm64_registers arm64_old_values in λ c. refl };

    ghost register_names = { unfold arm64_registers arm64_aliases canonical_name register_index in record {
      canonical = refl;
      alias = refl;
      aliases_known = refl;
      stack_pointer_known = refl;
      instruction_pointer_known = refl;
    } };

    ghost at_offsets = { unfold arm64_registers arm64_old_values in λ order bytes. ap
        (λ numbers. map (λ n. n)
        (arm64_old_values (record (context_arm64_old.value order bytes) { iregs = numbers })))
        (numbers_by_offset order 8 bytes 8 31) };
}
