use super::Encode;
use crate::Section;
use minidump_format::format::{ARMCpuInfo, MINIDUMP_SYSTEM_INFO, X86CpuInfo};

impl Encode for MINIDUMP_SYSTEM_INFO {
    fn encode(&self, into: &mut Section) {
        into.u16(self.processor_architecture)
            .u16(self.processor_level)
            .u16(self.processor_revision)
            .u8(self.number_of_processors)
            .u8(self.product_type)
            .u32(self.major_version)
            .u32(self.minor_version)
            .u32(self.build_number)
            .u32(self.platform_id)
            .u32(self.csd_version_rva)
            .u16(self.suite_mask)
            .u16(self.reserved)
            .bytes(&self.cpu);
    }
}

impl Encode for X86CpuInfo {
    fn encode(&self, into: &mut Section) {
        into.records(&self.vendor_id).records(&self.unused1);
    }
}

impl Encode for ARMCpuInfo {
    fn encode(&self, into: &mut Section) {
        into.u32(self.cpuid).u32(self.elf_hwcaps);
    }
}
