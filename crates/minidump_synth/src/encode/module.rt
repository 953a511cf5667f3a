use super::Encode;
use crate::Section;
use minidump_format::format::{GUID, MINIDUMP_MODULE, MINIDUMP_UNLOADED_MODULE, VS_FIXEDFILEINFO};

impl Encode for GUID {
    fn encode(&self, into: &mut Section) {
        into.u32(self.data1)
            .u16(self.data2)
            .u16(self.data3)
            .bytes(&self.data4);
    }
}

impl Encode for VS_FIXEDFILEINFO {
    fn encode(&self, into: &mut Section) {
        into.u32(self.signature)
            .u32(self.struct_version)
            .u32(self.file_version_hi)
            .u32(self.file_version_lo)
            .u32(self.product_version_hi)
            .u32(self.product_version_lo)
            .u32(self.file_flags_mask)
            .u32(self.file_flags)
            .u32(self.file_os)
            .u32(self.file_type)
            .u32(self.file_subtype)
            .u32(self.file_date_hi)
            .u32(self.file_date_lo);
    }
}

impl Encode for MINIDUMP_MODULE {
    fn encode(&self, into: &mut Section) {
        into.u64(self.base_of_image)
            .u32(self.size_of_image)
            .u32(self.checksum)
            .u32(self.time_date_stamp)
            .u32(self.module_name_rva)
            .record(&self.version_info)
            .record(&self.cv_record)
            .record(&self.misc_record)
            .bytes(&self.unused1);
    }
}

impl Encode for MINIDUMP_UNLOADED_MODULE {
    fn encode(&self, into: &mut Section) {
        into.u64(self.base_of_image)
            .u32(self.size_of_image)
            .u32(self.checksum)
            .u32(self.time_date_stamp)
            .u32(self.module_name_rva);
    }
}
