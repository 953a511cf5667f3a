use crate::SynthMinidump;
use crate::section::saturate;
use minidump_format::format::{
    MINIDUMP_MEMORY_DESCRIPTOR, MINIDUMP_MEMORY_DESCRIPTOR64, MINIDUMP_STREAM_TYPE,
};

/// Five regions of memory: the second has the addresses of the first, the third and the fourth
/// share some with it, and the last begins right after it.
pub const OVERLAPPING: &[(u64, &[u8])] = &[
    (0x1000, &[0; 0x1000]),
    (0x1000, &[1; 0x1000]),
    (0x1001, &[2; 0x1000]),
    (0x1001, &[3; 0x100]),
    (0x2000, &[4; 0x1000]),
];

impl SynthMinidump {
    /// Adds the bytes of a region of memory, and returns its descriptor for a memory list.
    pub fn add_memory(&mut self, base: u64, bytes: &[u8]) -> MINIDUMP_MEMORY_DESCRIPTOR {
        MINIDUMP_MEMORY_DESCRIPTOR {
            start_of_memory_range: base,
            memory: self.add_located(&bytes),
        }
    }

    /// Adds the bytes of regions of memory, and the stream of their memory list.
    pub fn add_memory_list(&mut self, regions: &[(u64, &[u8])]) {
        let mut list = self.section();
        list.u32(saturate(regions.len()));
        for (base, bytes) in regions {
            let region = self.add_memory(*base, *bytes);
            list.record(&region);
        }
        self.add_stream(MINIDUMP_STREAM_TYPE::MemoryListStream as u32, &list);
    }

    /// Adds the bytes of regions of memory, one after another, and the stream of their 64-bit list.
    pub fn add_memory64_list(&mut self, regions: &[(u64, &[u8])]) {
        let rva = self.rva();
        let mut list = self.section();
        list.u64(regions.len() as u64).u64(u64::from(rva));
        for (base, bytes) in regions {
            self.add(bytes);
            list.record(&MINIDUMP_MEMORY_DESCRIPTOR64 {
                start_of_memory_range: *base,
                data_size: bytes.len() as u64,
            });
        }
        self.add_stream(MINIDUMP_STREAM_TYPE::Memory64ListStream as u32, &list);
    }
}
