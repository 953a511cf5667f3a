use super::Encode;
use crate::Section;
use minidump_format::format::{
    MINIDUMP_HANDLE_DESCRIPTOR, MINIDUMP_HANDLE_DESCRIPTOR_2, MINIDUMP_HANDLE_OBJECT_INFORMATION,
};

impl Encode for MINIDUMP_HANDLE_DESCRIPTOR {
    fn encode(&self, into: &mut Section) {
        into.u64(self.handle)
            .u32(self.type_name_rva)
            .u32(self.object_name_rva)
            .u32(self.attributes)
            .u32(self.granted_access)
            .u32(self.handle_count)
            .u32(self.pointer_count);
    }
}

impl Encode for MINIDUMP_HANDLE_DESCRIPTOR_2 {
    fn encode(&self, into: &mut Section) {
        into.u64(self.handle)
            .u32(self.type_name_rva)
            .u32(self.object_name_rva)
            .u32(self.attributes)
            .u32(self.granted_access)
            .u32(self.handle_count)
            .u32(self.pointer_count)
            .u32(self.object_info_rva)
            .u32(self.reserved);
    }
}

impl Encode for MINIDUMP_HANDLE_OBJECT_INFORMATION {
    fn encode(&self, into: &mut Section) {
        into.u32(self.next_info_rva)
            .u32(self.info_type)
            .u32(self.size_of_info);
    }
}
