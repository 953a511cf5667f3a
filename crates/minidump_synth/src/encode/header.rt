use super::Encode;
use crate::Section;
use minidump_format::format::{MINIDUMP_DIRECTORY, MINIDUMP_HEADER, MINIDUMP_LOCATION_DESCRIPTOR};

impl Encode for MINIDUMP_HEADER {
    fn encode(&self, into: &mut Section) {
        into.u32(self.signature)
            .u32(self.version)
            .u32(self.stream_count)
            .u32(self.stream_directory_rva)
            .u32(self.checksum)
            .u32(self.time_date_stamp)
            .u64(self.flags);
    }
}

impl Encode for MINIDUMP_LOCATION_DESCRIPTOR {
    fn encode(&self, into: &mut Section) {
        into.u32(self.data_size).u32(self.rva);
    }
}

impl Encode for MINIDUMP_DIRECTORY {
    fn encode(&self, into: &mut Section) {
        into.u32(self.stream_type).record(&self.location);
    }
}
