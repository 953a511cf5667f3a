use super::Encode;
use crate::Section;
use minidump_format::format::{
    MINIDUMP_ANNOTATION, MINIDUMP_CRASHPAD_INFO, MINIDUMP_MODULE_CRASHPAD_INFO,
    MINIDUMP_MODULE_CRASHPAD_INFO_LINK, MINIDUMP_SIMPLE_STRING_DICTIONARY_ENTRY,
};

impl Encode for MINIDUMP_CRASHPAD_INFO {
    fn encode(&self, into: &mut Section) {
        into.u32(self.version)
            .record(&self.report_id)
            .record(&self.client_id)
            .record(&self.simple_annotations)
            .record(&self.module_list);
    }
}

impl Encode for MINIDUMP_MODULE_CRASHPAD_INFO_LINK {
    fn encode(&self, into: &mut Section) {
        into.u32(self.minidump_module_list_index)
            .record(&self.location);
    }
}

impl Encode for MINIDUMP_MODULE_CRASHPAD_INFO {
    fn encode(&self, into: &mut Section) {
        into.u32(self.version)
            .record(&self.list_annotations)
            .record(&self.simple_annotations)
            .record(&self.annotation_objects);
    }
}

impl Encode for MINIDUMP_SIMPLE_STRING_DICTIONARY_ENTRY {
    fn encode(&self, into: &mut Section) {
        into.u32(self.key).u32(self.value);
    }
}

impl Encode for MINIDUMP_ANNOTATION {
    fn encode(&self, into: &mut Section) {
        into.u32(self.name)
            .u16(self.ty)
            .u16(self.reserved)
            .u32(self.value);
    }
}
