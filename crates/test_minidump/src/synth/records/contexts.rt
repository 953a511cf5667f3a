use super::{Fields, follow, is_exact};
use minidump_bytes::Endian;
use minidump_format::format::{
    CONTEXT_AMD64, CONTEXT_ARM, CONTEXT_ARM64, CONTEXT_ARM64_OLD, CONTEXT_X86,
    FLOATING_SAVE_AREA_ARM, FLOATING_SAVE_AREA_X86,
};

impl Fields for FLOATING_SAVE_AREA_X86 {
    #[rattlefmt::skip]
    fn stand(&self, endian: Endian) -> bool {
        follow(endian, 0, 4, &[self.control_word, self.status_word, self.tag_word, self.error_offset])
            && follow(endian, 16, 4, &[self.error_selector, self.data_offset, self.data_selector])
            && follow(endian, 28, 1, &self.register_area)
            && follow(endian, 108, 4, &[self.cr0_npx_state])
    }
}

impl Fields for CONTEXT_X86 {
    #[rattlefmt::skip]
    fn stand(&self, endian: Endian) -> bool {
        follow(endian, 0, 4, &[self.context_flags, self.dr0, self.dr1, self.dr2, self.dr3, self.dr6, self.dr7])
            && follow(endian, 28, 4, &[self.float_save.control_word])
            && follow(endian, 140, 4, &[self.gs, self.fs, self.es, self.ds, self.edi, self.esi, self.ebx, self.edx])
            && follow(endian, 172, 4, &[self.ecx, self.eax, self.ebp, self.eip, self.cs, self.eflags, self.esp, self.ss])
            && follow(endian, 204, 1, &self.extended_registers)
    }
}

impl Fields for CONTEXT_AMD64 {
    #[rattlefmt::skip]
    fn stand(&self, endian: Endian) -> bool {
        follow(endian, 0, 8, &[self.p1_home, self.p2_home, self.p3_home, self.p4_home, self.p5_home, self.p6_home])
            && follow(endian, 48, 4, &[self.context_flags, self.mx_csr])
            && follow(endian, 56, 2, &[self.cs, self.ds, self.es, self.fs, self.gs, self.ss])
            && follow(endian, 68, 4, &[self.eflags])
            && follow(endian, 72, 8, &[self.dr0, self.dr1, self.dr2, self.dr3, self.dr6, self.dr7])
            && follow(endian, 120, 8, &[self.rax, self.rcx, self.rdx, self.rbx, self.rsp, self.rbp, self.rsi, self.rdi])
            && follow(endian, 184, 8, &[self.r8, self.r9, self.r10, self.r11, self.r12, self.r13, self.r14, self.r15])
            && follow(endian, 248, 8, &[self.rip])
            && follow(endian, 256, 1, &self.unused1)
            && follow(endian, 768, 16, &self.unused2)
            && follow(endian, 1184, 8, &self.unused3)
    }
}

impl Fields for FLOATING_SAVE_AREA_ARM {
    fn stand(&self, endian: Endian) -> bool {
        follow(endian, 0, 8, &[self.fpscr])
            && follow(endian, 8, 8, &self.regs)
            && follow(endian, 264, 4, &self.extra)
    }
}

impl Fields for CONTEXT_ARM {
    fn stand(&self, endian: Endian) -> bool {
        follow(endian, 0, 4, &[self.context_flags])
            && follow(endian, 4, 4, &self.iregs)
            && follow(endian, 68, 4, &[self.cpsr])
            && follow(endian, 72, 8, &[self.float_save.fpscr])
    }
}

impl Fields for CONTEXT_ARM64 {
    fn stand(&self, endian: Endian) -> bool {
        follow(endian, 0, 4, &[self.context_flags, self.cpsr])
            && follow(endian, 8, 8, &self.iregs)
            && follow(endian, 256, 8, &[self.sp, self.pc])
            && follow(endian, 272, 16, &self.float_regs)
            && follow(endian, 784, 4, &[self.fpcr, self.fpsr])
            && follow(endian, 792, 4, &self.bcr)
            && follow(endian, 824, 8, &self.bvr)
            && follow(endian, 888, 4, &self.wcr)
            && follow(endian, 896, 8, &self.wvr)
    }
}

impl Fields for CONTEXT_ARM64_OLD {
    fn stand(&self, endian: Endian) -> bool {
        follow(endian, 0, 8, &[self.context_flags])
            && follow(endian, 8, 8, &self.iregs)
            && follow(endian, 256, 8, &[self.sp, self.pc])
            && follow(endian, 272, 4, &[self.cpsr, self.fpsr, self.fpcr])
            && follow(endian, 284, 16, &self.float_regs)
    }
}

#[test]
fn contexts_have_their_fields(rt: HostRuntime) {
    let alloc = rt.alloc();
    let found = [
        is_exact::<FLOATING_SAVE_AREA_X86>(alloc),
        is_exact::<CONTEXT_X86>(alloc),
        is_exact::<CONTEXT_AMD64>(alloc),
        is_exact::<FLOATING_SAVE_AREA_ARM>(alloc),
        is_exact::<CONTEXT_ARM>(alloc),
        is_exact::<CONTEXT_ARM64>(alloc),
        is_exact::<CONTEXT_ARM64_OLD>(alloc),
    ];
    assert!(rt; found == [true; 7]);
}
