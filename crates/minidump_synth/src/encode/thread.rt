use super::Encode;
use crate::Section;
use minidump_format::format::{MINIDUMP_THREAD, MINIDUMP_THREAD_INFO, MINIDUMP_THREAD_NAME};

impl Encode for MINIDUMP_THREAD {
    fn encode(&self, into: &mut Section) {
        into.u32(self.thread_id)
            .u32(self.suspend_count)
            .u32(self.priority_class)
            .u32(self.priority)
            .u64(self.teb)
            .record(&self.stack)
            .record(&self.thread_context);
    }
}

impl Encode for MINIDUMP_THREAD_NAME {
    fn encode(&self, into: &mut Section) {
        into.u32(self.thread_id).u64(self.thread_name_rva);
    }
}

impl Encode for MINIDUMP_THREAD_INFO {
    fn encode(&self, into: &mut Section) {
        into.u32(self.thread_id)
            .u32(self.dump_flags)
            .u32(self.dump_error)
            .u32(self.exit_status)
            .u64(self.create_time)
            .u64(self.exit_time)
            .u64(self.kernel_time)
            .u64(self.user_time)
            .u64(self.start_address)
            .u64(self.affinity);
    }
}
