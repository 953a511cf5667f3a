use super::Encode;
use crate::Section;
use minidump_format::format::MINIDUMP_MEMORY_INFO;

impl Encode for MINIDUMP_MEMORY_INFO {
    fn encode(&self, into: &mut Section) {
        into.u64(self.base_address)
            .u64(self.allocation_base)
            .u32(self.allocation_protection)
            .u32(self.unused1)
            .u64(self.region_size)
            .u32(self.state)
            .u32(self.protection)
            .u32(self._type)
            .u32(self.unused2);
    }
}
