use super::Encode;
use crate::Section;
use minidump_format::format::{MINIDUMP_EXCEPTION, MINIDUMP_EXCEPTION_STREAM};

impl Encode for MINIDUMP_EXCEPTION {
    fn encode(&self, into: &mut Section) {
        into.u32(self.exception_code)
            .u32(self.exception_flags)
            .u64(self.exception_record)
            .u64(self.exception_address)
            .u32(self.number_parameters)
            .u32(self.unused1)
            .records(&self.exception_information);
    }
}

impl Encode for MINIDUMP_EXCEPTION_STREAM {
    fn encode(&self, into: &mut Section) {
        into.u32(self.thread_id)
            .u32(self.unused1)
            .record(&self.exception_record)
            .record(&self.thread_context);
    }
}
