ghost use Rattle.std.specs.Prelude.{◌≡◌, ◌<◌, slice_index};
ghost use Rattle.minidump_context.specs.Arm.{arm_numbers};

use crate::{CpuContext, CpuRegisterNames};
use minidump_format::format::CONTEXT_ARM;

// The number of each register of the list: its index in `iregs`.
const NUMBERS: [usize; 16] = [0, 1, 2, 3, 4, 5, 6, 7, 8, 9, 10, 12, 11, 13, 14, 15];

#[tactic(auto, unfolding(crate::specs::Arm::arm_numbers))]
fn number_of(index: usize) -> usize
    requires { index < 16 }
    ensures value { result ≡ slice_index arm_numbers index }
    ensures within { result < 16 }
{
    NUMBERS[index]
}

impl CpuRegisterNames for CONTEXT_ARM {
    ghost use Rattle.minidump_context.specs.Arm.{arm_registers};

    ghost table = { arm_registers };

    const REGISTERS: &'static [&'static str] = &[
        "r0", "r1", "r2", "r3", "r4", "r5", "r6", "r7", "r8", "r9", "r10", "r12", "fp", "sp", "lr",
        "pc",
    ];

    #[tactic(auto, unfolding(crate::specs::Arm::arm_registers))]
    fn names() -> &'static [&'static str] {
        Self::REGISTERS
    }
}

impl CpuContext for CONTEXT_ARM {
    ghost use Rattle.std.specs.Prelude.{codes, refl, map};
    ghost use Rattle.minidump_context.specs.Arm.{arm_aliases, arm_numbers, arm_registers, arm_rest, arm_values};
    ghost use Rattle.minidump_context.specs.Register.{canonical_name, register_index};
    ghost use Rattle.std.proofs.Common.{ap};
    ghost use Rattle.minidump_bytes.proofs.ArrayLemmas.{numbers_by_offset};
    ghost use Rattle.minidump_format.specs.ContextArm.{context_arm};

    type Register = u32;

    ghost aliases = { arm_aliases };

    ghost values = { arm_values };

    ghost rest = { arm_rest };

    ghost processor = { 0x4000_0000 };

    ghost flags = { λ c. c.context_flags };

    ghost stack_pointer = { codes "sp" };

    ghost instruction_pointer = { codes "pc" };

    #[tactic(auto, unfolding(crate::specs::Arm::arm_aliases))]
    fn aliases() -> &'static [(&'static str, &'static str)] {
        &[("r11", "fp"), ("r13", "sp"), ("r14", "lr"), ("r15", "pc")]
    }

    #[tactic(auto, unfolding(crate::specs::Arm::arm_registers, crate::specs::Arm::arm_values))]
    fn register_at(&self, index: usize) -> u32 {
        self.iregs[number_of(index)]
    }

    #[tactic(auto, unfolding(crate::specs::Arm::arm_registers, crate::specs::Arm::arm_values, crate::specs::Arm::arm_rest))]
    fn set_register_at(&mut self, index: usize, value: u32) {
        self.iregs[number_of(index)] = value;
    }

    fn processor() -> u32 {
        0x4000_0000
    }

    fn flags(&self) -> u32 {
        self.context_flags
    }

    fn stack_pointer_register_name(&self) -> &'static str {
        "sp"
    }

    fn instruction_pointer_register_name(&self) -> &'static str {
        "pc"
    }

    ghost as_many = { unfold arm_registers arm_values arm_numbers in λ c. refl };

    ghost register_names = { unfold arm_registers arm_aliases canonical_name register_index in record {
      canonical = refl;
      alias = refl;
      aliases_known = refl;
      stack_pointer_known = refl;
      instruction_pointer_known = refl;
    } };

    ghost at_offsets = { unfold arm_registers arm_values arm_numbers in λ order bytes. ap
        (λ numbers. map (λ n. n)
        (arm_values (record (context_arm.value order bytes) { iregs = numbers })))
        (numbers_by_offset order 4 bytes 4 16) };
}
