use super::Encode;
use crate::Section;
use minidump_format::format::{
    CONTEXT_AMD64, CONTEXT_ARM, CONTEXT_ARM64, CONTEXT_ARM64_OLD, CONTEXT_X86,
    FLOATING_SAVE_AREA_ARM, FLOATING_SAVE_AREA_X86,
};

impl Encode for FLOATING_SAVE_AREA_X86 {
    fn encode(&self, into: &mut Section) {
        into.u32(self.control_word)
            .u32(self.status_word)
            .u32(self.tag_word)
            .u32(self.error_offset)
            .u32(self.error_selector)
            .u32(self.data_offset)
            .u32(self.data_selector)
            .bytes(&self.register_area)
            .u32(self.cr0_npx_state);
    }
}

impl Encode for CONTEXT_X86 {
    fn encode(&self, into: &mut Section) {
        into.u32(self.context_flags)
            .records(&[self.dr0, self.dr1, self.dr2, self.dr3, self.dr6, self.dr7])
            .record(&self.float_save)
            .records(&[self.gs, self.fs, self.es, self.ds])
            .records(&[self.edi, self.esi, self.ebx, self.edx, self.ecx, self.eax])
            .records(&[self.ebp, self.eip, self.cs, self.eflags, self.esp, self.ss])
            .bytes(&self.extended_registers);
    }
}

impl Encode for CONTEXT_AMD64 {
    fn encode(&self, into: &mut Section) {
        into.records(&[self.p1_home, self.p2_home, self.p3_home])
            .records(&[self.p4_home, self.p5_home, self.p6_home])
            .u32(self.context_flags)
            .u32(self.mx_csr)
            .records(&[self.cs, self.ds, self.es, self.fs, self.gs, self.ss])
            .u32(self.eflags)
            .records(&[self.dr0, self.dr1, self.dr2, self.dr3, self.dr6, self.dr7])
            .records(&[self.rax, self.rcx, self.rdx, self.rbx])
            .records(&[self.rsp, self.rbp, self.rsi, self.rdi])
            .records(&[self.r8, self.r9, self.r10, self.r11])
            .records(&[self.r12, self.r13, self.r14, self.r15])
            .u64(self.rip)
            .bytes(&self.unused1)
            .records(&self.unused2)
            .records(&self.unused3);
    }
}

impl Encode for FLOATING_SAVE_AREA_ARM {
    fn encode(&self, into: &mut Section) {
        into.u64(self.fpscr)
            .records(&self.regs)
            .records(&self.extra);
    }
}

impl Encode for CONTEXT_ARM {
    fn encode(&self, into: &mut Section) {
        into.u32(self.context_flags)
            .records(&self.iregs)
            .u32(self.cpsr)
            .record(&self.float_save);
    }
}

impl Encode for CONTEXT_ARM64 {
    fn encode(&self, into: &mut Section) {
        into.u32(self.context_flags)
            .u32(self.cpsr)
            .records(&self.iregs)
            .u64(self.sp)
            .u64(self.pc)
            .records(&self.float_regs)
            .u32(self.fpcr)
            .u32(self.fpsr)
            .records(&self.bcr)
            .records(&self.bvr)
            .records(&self.wcr)
            .records(&self.wvr);
    }
}

impl Encode for CONTEXT_ARM64_OLD {
    fn encode(&self, into: &mut Section) {
        into.u64(self.context_flags)
            .records(&self.iregs)
            .u64(self.sp)
            .u64(self.pc)
            .u32(self.cpsr)
            .u32(self.fpsr)
            .u32(self.fpcr)
            .records(&self.float_regs);
    }
}
