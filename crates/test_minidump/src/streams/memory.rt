mod information;
mod map_lines;
mod regions;

use minidump::{Endian, MinidumpMemory, MinidumpMemory64};
use minidump_synth::zeroed;

// A region made by hand, whose descriptor names no bytes of a file.
fn region(base_address: u64, bytes: &[u8], endian: Endian) -> MinidumpMemory<'_> {
    MinidumpMemory {
        desc: zeroed(),
        base_address,
        size: bytes.len() as u64,
        bytes,
        endian,
    }
}

// The same of a 64-bit list.
fn region_64(base_address: u64, bytes: &[u8], endian: Endian) -> MinidumpMemory64<'_> {
    MinidumpMemory64 {
        desc: zeroed(),
        base_address,
        size: bytes.len() as u64,
        bytes,
        endian,
    }
}
