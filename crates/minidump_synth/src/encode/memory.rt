use super::Encode;
use crate::Section;
use minidump_format::format::{MINIDUMP_MEMORY_DESCRIPTOR, MINIDUMP_MEMORY_DESCRIPTOR64};

impl Encode for MINIDUMP_MEMORY_DESCRIPTOR {
    fn encode(&self, into: &mut Section) {
        into.u64(self.start_of_memory_range).record(&self.memory);
    }
}

impl Encode for MINIDUMP_MEMORY_DESCRIPTOR64 {
    fn encode(&self, into: &mut Section) {
        into.u64(self.start_of_memory_range).u64(self.data_size);
    }
}
