//! The texts of descriptors of regions.
ghost use Rattle.minidump_format.specs.MemoryText.{descriptor_64_text, descriptor_text};

use crate::Pushed;
use crate::format::{MINIDUMP_MEMORY_DESCRIPTOR, MINIDUMP_MEMORY_DESCRIPTOR64};
use minidump_bytes::{Piece, push_pieces};
use std::alloc::AllocError;

impl Pushed for MINIDUMP_MEMORY_DESCRIPTOR {
    ghost text = { descriptor_text };

    #[rattlefmt::skip]
    #[tactic(auto, unfolding(crate::specs::MemoryText::descriptor_text))]
    fn push(&self, out: &mut Vec<u8>) -> Result<(), AllocError> {
        push_pieces(out, &[
            Piece::Words("MINIDUMP_MEMORY_DESCRIPTOR\n"),
            Piece::Words("  start_of_memory_range = "), Piece::Hex(self.start_of_memory_range), Piece::Words("\n"),
            Piece::Words("  memory.data_size      = "), Piece::Hex(self.memory.data_size as u64), Piece::Words("\n"),
            Piece::Words("  memory.rva            = "), Piece::Hex(self.memory.rva as u64), Piece::Words("\n"),
        ])
    }
}

impl Pushed for MINIDUMP_MEMORY_DESCRIPTOR64 {
    ghost text = { descriptor_64_text };

    #[rattlefmt::skip]
    #[tactic(auto, unfolding(crate::specs::MemoryText::descriptor_64_text))]
    fn push(&self, out: &mut Vec<u8>) -> Result<(), AllocError> {
        push_pieces(out, &[
            Piece::Words("MINIDUMP_MEMORY_DESCRIPTOR64\n"),
            Piece::Words("  start_of_memory_range = "), Piece::Hex(self.start_of_memory_range), Piece::Words("\n"),
            Piece::Words("  memory.data_size      = "), Piece::Hex(self.data_size), Piece::Words("\n"),
        ])
    }
}
