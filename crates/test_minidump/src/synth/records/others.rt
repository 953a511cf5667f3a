// Records with a field that no report prints.
use super::{Fields, follow, is_exact};
use minidump_bytes::Endian;
use minidump_format::format::{
    MINIDUMP_ANNOTATION, MINIDUMP_EXCEPTION, MINIDUMP_EXCEPTION_STREAM,
    MINIDUMP_HANDLE_DESCRIPTOR_2, MINIDUMP_MEMORY_INFO, MINIDUMP_MODULE, MINIDUMP_SYSTEM_INFO,
    SYSTEMTIME, X86CpuInfo, XSTATE_CONFIG_FEATURE_MSC_INFO,
};

impl Fields for MINIDUMP_SYSTEM_INFO {
    #[rattlefmt::skip]
    fn stand(&self, endian: Endian) -> bool {
        follow(endian, 0, 2, &[self.processor_architecture, self.processor_level, self.processor_revision])
            && follow(endian, 6, 1, &[self.number_of_processors, self.product_type])
            && follow(endian, 8, 4, &[self.major_version, self.minor_version, self.build_number, self.platform_id])
            && follow(endian, 24, 4, &[self.csd_version_rva])
            && follow(endian, 28, 2, &[self.suite_mask, self.reserved])
            && follow(endian, 32, 1, &self.cpu)
    }
}

impl Fields for X86CpuInfo {
    fn stand(&self, endian: Endian) -> bool {
        follow(endian, 0, 4, &self.vendor_id) && follow(endian, 12, 4, &self.unused1)
    }
}

impl Fields for XSTATE_CONFIG_FEATURE_MSC_INFO {
    #[rattlefmt::skip]
    fn stand(&self, endian: Endian) -> bool {
        follow(endian, 0, 4, &[self.size_of_info, self.context_size])
            && follow(endian, 8, 8, &[self.enabled_features])
            && follow(endian, 16, 4, &[self.features[0].offset, self.features[0].size, self.features[1].offset])
            && follow(endian, 520, 4, &[self.features[63].offset])
    }
}

impl Fields for MINIDUMP_MODULE {
    #[rattlefmt::skip]
    fn stand(&self, endian: Endian) -> bool {
        follow(endian, 0, 8, &[self.base_of_image])
            && follow(endian, 8, 4, &[self.size_of_image, self.checksum, self.time_date_stamp, self.module_name_rva])
            && follow(endian, 24, 4, &[self.version_info.signature])
            && follow(endian, 76, 4, &[self.cv_record.data_size])
            && follow(endian, 84, 4, &[self.misc_record.data_size])
            && follow(endian, 92, 1, &self.unused1)
    }
}

impl Fields for MINIDUMP_MEMORY_INFO {
    #[rattlefmt::skip]
    fn stand(&self, endian: Endian) -> bool {
        follow(endian, 0, 8, &[self.base_address, self.allocation_base])
            && follow(endian, 16, 4, &[self.allocation_protection, self.unused1])
            && follow(endian, 24, 8, &[self.region_size])
            && follow(endian, 32, 4, &[self.state, self.protection, self._type, self.unused2])
    }
}

impl Fields for MINIDUMP_HANDLE_DESCRIPTOR_2 {
    #[rattlefmt::skip]
    fn stand(&self, endian: Endian) -> bool {
        follow(endian, 0, 8, &[self.handle])
            && follow(endian, 8, 4, &[self.type_name_rva, self.object_name_rva, self.attributes])
            && follow(endian, 20, 4, &[self.granted_access, self.handle_count, self.pointer_count])
            && follow(endian, 32, 4, &[self.object_info_rva, self.reserved])
    }
}

impl Fields for MINIDUMP_EXCEPTION {
    #[rattlefmt::skip]
    fn stand(&self, endian: Endian) -> bool {
        follow(endian, 0, 4, &[self.exception_code, self.exception_flags])
            && follow(endian, 8, 8, &[self.exception_record, self.exception_address])
            && follow(endian, 24, 4, &[self.number_parameters, self.unused1])
            && follow(endian, 32, 8, &self.exception_information)
    }
}

impl Fields for MINIDUMP_EXCEPTION_STREAM {
    fn stand(&self, endian: Endian) -> bool {
        follow(endian, 0, 4, &[self.thread_id, self.unused1])
            && follow(endian, 8, 4, &[self.exception_record.exception_code])
            && follow(endian, 160, 4, &[self.thread_context.data_size])
    }
}

impl Fields for MINIDUMP_ANNOTATION {
    fn stand(&self, endian: Endian) -> bool {
        follow(endian, 0, 4, &[self.name])
            && follow(endian, 4, 2, &[self.ty, self.reserved])
            && follow(endian, 8, 4, &[self.value])
    }
}

impl Fields for SYSTEMTIME {
    #[rattlefmt::skip]
    fn stand(&self, endian: Endian) -> bool {
        follow(endian, 0, 2, &[self.year, self.month, self.day_of_week, self.day])
            && follow(endian, 8, 2, &[self.hour, self.minute, self.second, self.milliseconds])
    }
}

#[test]
fn records_have_their_fields(rt: HostRuntime) {
    let alloc = rt.alloc();
    let found = [
        is_exact::<MINIDUMP_SYSTEM_INFO>(alloc),
        is_exact::<X86CpuInfo>(alloc),
        is_exact::<XSTATE_CONFIG_FEATURE_MSC_INFO>(alloc),
        is_exact::<MINIDUMP_MODULE>(alloc),
        is_exact::<MINIDUMP_MEMORY_INFO>(alloc),
        is_exact::<MINIDUMP_HANDLE_DESCRIPTOR_2>(alloc),
        is_exact::<MINIDUMP_EXCEPTION>(alloc),
        is_exact::<MINIDUMP_EXCEPTION_STREAM>(alloc),
        is_exact::<MINIDUMP_ANNOTATION>(alloc),
        is_exact::<SYSTEMTIME>(alloc),
    ];
    assert!(rt; found == [true; 10]);
}
