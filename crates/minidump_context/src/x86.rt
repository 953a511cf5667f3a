use crate::{CpuContext, CpuRegisterNames};
use minidump_format::format::CONTEXT_X86;

impl CpuRegisterNames for CONTEXT_X86 {
    ghost use Rattle.minidump_context.specs.X86.{x86_registers};

    ghost table = { x86_registers };

    const REGISTERS: &'static [&'static str] = &[
        "eip", "esp", "ebp", "ebx", "esi", "edi", "eax", "ecx", "edx", "eflags",
    ];

    #[tactic(auto, unfolding(crate::specs::X86::x86_registers))]
    fn names() -> &'static [&'static str] {
        Self::REGISTERS
    }
}

impl CpuContext for CONTEXT_X86 {
    ghost use Rattle.std.specs.Prelude.{[], codes, refl};
    ghost use Rattle.minidump_context.specs.X86.{x86_registers, x86_rest, x86_values};
    ghost use Rattle.minidump_context.specs.Register.{canonical_name, register_index};

    type Register = u32;

    ghost aliases = { [] };

    ghost values = { x86_values };

    ghost rest = { x86_rest };

    ghost processor = { 0x1_0000 };

    ghost flags = { λ c. c.context_flags };

    ghost stack_pointer = { codes "esp" };

    ghost instruction_pointer = { codes "eip" };

    fn aliases() -> &'static [(&'static str, &'static str)] {
        &[]
    }

    #[tactic(auto, unfolding(crate::specs::X86::x86_registers, crate::specs::X86::x86_values))]
    fn register_at(&self, index: usize) -> u32 {
        match index {
            0 => self.eip,
            1 => self.esp,
            2 => self.ebp,
            3 => self.ebx,
            4 => self.esi,
            5 => self.edi,
            6 => self.eax,
            7 => self.ecx,
            8 => self.edx,
            _ => self.eflags,
        }
    }

    #[tactic(auto, unfolding(crate::specs::X86::x86_registers, crate::specs::X86::x86_values, crate::specs::X86::x86_rest))]
    fn set_register_at(&mut self, index: usize, value: u32) {
        match index {
            0 => self.eip = value,
            1 => self.esp = value,
            2 => self.ebp = value,
            3 => self.ebx = value,
            4 => self.esi = value,
            5 => self.edi = value,
            6 => self.eax = value,
            7 => self.ecx = value,
            8 => self.edx = value,
            _ => self.eflags = value,
        }
    }

    fn processor() -> u32 {
        0x1_0000
    }

    fn flags(&self) -> u32 {
        self.context_flags
    }

    fn stack_pointer_register_name(&self) -> &'static str {
        "esp"
    }

    fn instruction_pointer_register_name(&self) -> &'static str {
        "eip"
    }

    ghost as_many = { unfold x86_registers x86_values in λ c. refl };

    ghost register_names = { unfold x86_registers canonical_name register_index in record {
      canonical = refl;
      alias = refl;
      aliases_known = refl;
      stack_pointer_known = refl;
      instruction_pointer_known = refl;
    } };

    ghost at_offsets = { unfold x86_registers x86_values in λ order bytes. refl };
}
