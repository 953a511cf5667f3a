ghost use Rattle.std.specs.Prelude.{◌≡◌, ◌++◌};
ghost use Rattle.std.specs.List.{flat_map};
ghost use Rattle.minidump_format.specs.Print.{Prints};
ghost use Rattle.minidump_format.specs.Text.{line_end};
ghost use Rattle.minidump.specs.Text.{dump_text, entry_text, header_text, stream_type_name, stream_text};
ghost use Rattle.minidump.specs.Text.{streams_heading};
ghost use Rattle.minidump.specs.Dump.{streams_of};
ghost use Rattle.minidump.specs.DumpValue.{dump_of};

use crate::Minidump;
use crate::directory::DecidingEntry;
use minidump_bytes::{Piece, Told, push_pieces};
use minidump_format::format::{MINIDUMP_HEADER, MINIDUMP_STREAM_TYPE};
use minidump_format::{Error, Pushed, print_all, print_item, print_line_end, put_text};
use std::alloc::{AllocError, Global};
use std::io::Write;

impl<'a> Minidump<'a> {
    /// Prints the header and the directory: the entries of [`Minidump::all_streams`], each with its
    /// index in the directory, and a line for each of their streams.
    #[tactic(auto, using(minidump_format::proofs::Printing::prints_then, minidump_format::proofs::Printing::prints_exit))]
    pub fn print<W: Write>(&self, alloc: Global, f: &mut Told<W>) -> Result<(), Error>
        ensures { Prints W.contents f.old f.new (dump_text (dump_of self.now)) result }
    {
        self.print_entries(alloc, f)?;
        self.print_streams(alloc, f)
    }

    #[tactic(auto, using(minidump_format::proofs::Printing::prints_then, minidump_format::proofs::Printing::prints_exit))]
    fn print_entries<W: Write>(&self, alloc: Global, f: &mut Told<W>) -> Result<(), Error>
        ensures { Prints W.contents f.old f.new
            (header_text self.now.header
            ++ flat_map entry_text (streams_of (dump_of self.now))) result }
    {
        print_item(&HeaderText(&self.header), alloc, f)?;
        print_all(self.deciding_entries().iter(), alloc, f)
    }

    #[tactic(auto, unfolding(crate::specs::Text::streams_heading))]
    fn print_streams<W: Write>(&self, alloc: Global, f: &mut Told<W>) -> Result<(), Error>
        ensures { Prints W.contents f.old f.new
            (streams_heading
            ++ (flat_map stream_text (streams_of (dump_of self.now)) ++ line_end)) result }
    {
        put_text(f, "Streams:\n")?;
        self.print_stream_lines(alloc, f)?;
        print_line_end(f)
    }

    fn print_stream_lines<W: Write>(&self, alloc: Global, f: &mut Told<W>) -> Result<(), Error>
        ensures { Prints W.contents f.old f.new
            (flat_map stream_text (streams_of (dump_of self.now))) result }
    {
        let lines = self
            .deciding_entries()
            .iter()
            .map(|entry| StreamLine(entry));
        print_all(lines, alloc, f)
    }
}

#[derive(Clone, Copy)]
struct HeaderText<'a>(&'a MINIDUMP_HEADER);

impl<'a> Pushed for HeaderText<'a> {
    ghost text = { λ header. header_text header.0.now };

    #[rattlefmt::skip]
    #[tactic(auto, unfolding(crate::specs::Text::header_text))]
    fn push(&self, out: &mut Vec<u8>) -> Result<(), AllocError> {
        let h = self.0;
        push_pieces(out, &[
            Piece::Words("MDRawHeader\n"),
            Piece::Words("  signature            = "), Piece::Hex(h.signature as u64), Piece::Words("\n"),
            Piece::Words("  version              = "), Piece::Hex(h.version as u64), Piece::Words("\n"),
            Piece::Words("  stream_count         = "), Piece::Decimal(h.stream_count as u64), Piece::Words("\n"),
            Piece::Words("  stream_directory_rva = "), Piece::Hex(h.stream_directory_rva as u64), Piece::Words("\n"),
            Piece::Words("  checksum             = "), Piece::Hex(h.checksum as u64), Piece::Words("\n"),
            Piece::Words("  time_date_stamp      = "), Piece::Hex(h.time_date_stamp as u64), Piece::Words("\n"),
            Piece::Words("  flags                = "), Piece::Hex(h.flags), Piece::Words("\n\n"),
        ])
    }
}

impl Pushed for DecidingEntry {
    ghost text = { entry_text };

    #[rattlefmt::skip]
    #[tactic(auto, unfolding(crate::specs::Text::entry_text))]
    fn push(&self, out: &mut Vec<u8>) -> Result<(), AllocError> {
        let entry = &self.entry;
        push_pieces(out, &[
            Piece::Words("mDirectory["), Piece::Decimal(self.index as u64), Piece::Words("]\n"),
            Piece::Words("MDRawDirectory\n"),
            Piece::Words("  stream_type        = "), Piece::Hex(entry.stream_type as u64), Piece::Words(" ("), Piece::Words(type_name(entry.stream_type)), Piece::Words(")\n"),
            Piece::Words("  location.data_size = "), Piece::Decimal(entry.location.data_size as u64), Piece::Words("\n"),
            Piece::Words("  location.rva       = "), Piece::Hex(entry.location.rva as u64), Piece::Words("\n\n"),
        ])
    }
}

// The line of an entry in the list of streams.
#[derive(Clone, Copy)]
struct StreamLine<'a>(&'a DecidingEntry);

impl<'a> Pushed for StreamLine<'a> {
    ghost text = { λ line. stream_text line.0.now };

    #[rattlefmt::skip]
    #[tactic(auto, unfolding(crate::specs::Text::stream_text))]
    fn push(&self, out: &mut Vec<u8>) -> Result<(), AllocError> {
        let entry = &self.0.entry;
        push_pieces(out, &[
            Piece::Words("  stream type "), Piece::Hex(entry.stream_type as u64), Piece::Words(" ("), Piece::Words(type_name(entry.stream_type)), Piece::Words(") at index "), Piece::Decimal(self.0.index as u64), Piece::Words("\n"),
        ])
    }
}

// Returns the name of a type of stream.
#[tactic(auto, unfolding(crate::specs::Text::stream_type_name))]
pub(crate) fn type_name(stream_type: u32) -> &'static str
    ensures { result.now ≡ stream_type_name stream_type }
{
    match MINIDUMP_STREAM_TYPE::from_u32(stream_type) {
        Some(named) => named.name(),
        None => "unknown",
    }
}
