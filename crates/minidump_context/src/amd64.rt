use crate::{CpuContext, CpuRegisterNames};
use minidump_format::format::CONTEXT_AMD64;

impl CpuRegisterNames for CONTEXT_AMD64 {
    ghost use Rattle.minidump_context.specs.Amd64.{amd64_registers};

    ghost table = { amd64_registers };

    const REGISTERS: &'static [&'static str] = &[
        "rax", "rdx", "rcx", "rbx", "rsi", "rdi", "rbp", "rsp", "r8", "r9", "r10", "r11", "r12",
        "r13", "r14", "r15", "rip",
    ];

    #[tactic(auto, unfolding(crate::specs::Amd64::amd64_registers))]
    fn names() -> &'static [&'static str] {
        Self::REGISTERS
    }
}

impl CpuContext for CONTEXT_AMD64 {
    ghost use Rattle.std.specs.Prelude.{[], codes, refl};
    ghost use Rattle.minidump_context.specs.Amd64.{amd64_registers, amd64_rest, amd64_values};
    ghost use Rattle.minidump_context.specs.Register.{canonical_name, register_index};

    type Register = u64;

    ghost aliases = { [] };

    ghost values = { amd64_values };

    ghost rest = { amd64_rest };

    ghost processor = { 0x10_0000 };

    ghost flags = { λ c. c.context_flags };

    ghost stack_pointer = { codes "rsp" };

    ghost instruction_pointer = { codes "rip" };

    fn aliases() -> &'static [(&'static str, &'static str)] {
        &[]
    }

    #[tactic(auto, unfolding(crate::specs::Amd64::amd64_registers, crate::specs::Amd64::amd64_values))]
    fn register_at(&self, index: usize) -> u64 {
        match index {
            0 => self.rax,
            1 => self.rdx,
            2 => self.rcx,
            3 => self.rbx,
            4 => self.rsi,
            5 => self.rdi,
            6 => self.rbp,
            7 => self.rsp,
            8 => self.r8,
            9 => self.r9,
            10 => self.r10,
            11 => self.r11,
            12 => self.r12,
            13 => self.r13,
            14 => self.r14,
            15 => self.r15,
            _ => self.rip,
        }
    }

    #[tactic(auto, unfolding(crate::specs::Amd64::amd64_registers, crate::specs::Amd64::amd64_values, crate::specs::Amd64::amd64_rest))]
    fn set_register_at(&mut self, index: usize, value: u64) {
        match index {
            0 => self.rax = value,
            1 => self.rdx = value,
            2 => self.rcx = value,
            3 => self.rbx = value,
            4 => self.rsi = value,
            5 => self.rdi = value,
            6 => self.rbp = value,
            7 => self.rsp = value,
            8 => self.r8 = value,
            9 => self.r9 = value,
            10 => self.r10 = value,
            11 => self.r11 = value,
            12 => self.r12 = value,
            13 => self.r13 = value,
            14 => self.r14 = value,
            15 => self.r15 = value,
            _ => self.rip = value,
        }
    }

    fn processor() -> u32 {
        0x10_0000
    }

    fn flags(&self) -> u32 {
        self.context_flags
    }

    fn stack_pointer_register_name(&self) -> &'static str {
        "rsp"
    }

    fn instruction_pointer_register_name(&self) -> &'static str {
        "rip"
    }

    ghost as_many = { unfold amd64_registers amd64_values in λ c. refl };

    ghost register_names = { unfold amd64_registers canonical_name register_index in record {
      canonical = refl;
      alias = refl;
      aliases_known = refl;
      stack_pointer_known = refl;
      instruction_pointer_known = refl;
    } };

    ghost at_offsets = { unfold amd64_registers amd64_values in λ order bytes. refl };
}
