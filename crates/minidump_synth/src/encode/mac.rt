use super::Encode;
use crate::Section;
use minidump_format::format::{
    MINIDUMP_MAC_BOOTARGS, MINIDUMP_MAC_CRASH_INFO, MINIDUMP_MAC_CRASH_INFO_RECORD,
    MINIDUMP_MAC_CRASH_INFO_RECORD_4, MINIDUMP_MAC_CRASH_INFO_RECORD_5,
};

impl Encode for MINIDUMP_MAC_CRASH_INFO {
    fn encode(&self, into: &mut Section) {
        into.u32(self.stream_type)
            .u32(self.record_count)
            .u32(self.record_start_size)
            .records(&self.records);
    }
}

impl Encode for MINIDUMP_MAC_CRASH_INFO_RECORD {
    fn encode(&self, into: &mut Section) {
        into.u64(self.stream_type).u64(self.version);
    }
}

impl Encode for MINIDUMP_MAC_CRASH_INFO_RECORD_4 {
    fn encode(&self, into: &mut Section) {
        into.u64(self.stream_type)
            .u64(self.version)
            .u64(self.thread)
            .u64(self.dialog_mode);
    }
}

impl Encode for MINIDUMP_MAC_CRASH_INFO_RECORD_5 {
    fn encode(&self, into: &mut Section) {
        into.u64(self.stream_type)
            .u64(self.version)
            .u64(self.thread)
            .u64(self.dialog_mode)
            .u64(self.abort_cause);
    }
}

impl Encode for MINIDUMP_MAC_BOOTARGS {
    fn encode(&self, into: &mut Section) {
        into.u32(self.stream_type).u64(self.bootargs);
    }
}
