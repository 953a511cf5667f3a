use super::Encode;
use crate::Section;
use minidump_format::format::{MINIDUMP_ASSERTION_INFO, MINIDUMP_BREAKPAD_INFO};

impl Encode for MINIDUMP_BREAKPAD_INFO {
    fn encode(&self, into: &mut Section) {
        into.u32(self.validity)
            .u32(self.dump_thread_id)
            .u32(self.requesting_thread_id);
    }
}

impl Encode for MINIDUMP_ASSERTION_INFO {
    fn encode(&self, into: &mut Section) {
        into.records(&self.expression)
            .records(&self.function)
            .records(&self.file)
            .u32(self.line)
            .u32(self._type);
    }
}
