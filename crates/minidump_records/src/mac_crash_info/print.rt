ghost use Rattle.std.specs.Prelude.{◌≡◌, map};
ghost use Rattle.std.specs.Fmt.{decimal};
ghost use Rattle.std.specs.List.{enumerate_from, flat_map};
ghost use Rattle.std.specs.Option.{option_copied};
ghost use Rattle.minidump_bytes.specs.Piece.{piece_text, plain_hex};
ghost use Rattle.minidump_format.specs.Print.{Prints};
ghost use Rattle.minidump_format.specs.Text.{if_there};
ghost use Rattle.minidump_records.specs.Print.{text_or_nothing};
ghost use Rattle.minidump_records.specs.MacCrashInfo.Record.{mac_record_of};
ghost use Rattle.minidump_records.specs.MacCrashInfo.Text.{mac_crash_info_text, record_text};
ghost use Rattle.minidump_records.specs.MacCrashInfo.{mac_crash_info_of};

use super::{MinidumpMacCrashInfo, RawMacCrashInfo};
use minidump_bytes::{Piece, Told, push_pieces};
use minidump_format::{Error, Heading, Pushed, print_all, print_item};
use std::alloc::{AllocError, Global};
use std::io::Write;

impl MinidumpMacCrashInfo {
    /// Prints the number of records, and the fields of each record. After the label of a field that
    /// is `None` nothing is printed.
    #[tactic(auto, using(minidump_format::proofs::Printing::prints_then, minidump_format::proofs::Printing::prints_exit))]
    pub fn print<W: Write>(&self, alloc: Global, f: &mut Told<W>) -> Result<(), Error>
        ensures { Prints W.contents f.old f.new
            (mac_crash_info_text (mac_crash_info_of self.now).records) result }
    {
        let words = "MINIDUMP_MAC_CRASH_INFO\n  num_records = ";
        let records = self.raw.as_slice();
        let count = records.len();
        print_item(&Heading { words, count }, alloc, f)?;
        print_records(records, alloc, f)
    }
}

fn print_records<W: Write>(
    records: &[RawMacCrashInfo],
    alloc: Global,
    f: &mut Told<W>,
) -> Result<(), Error>
    ensures { Prints W.contents f.old f.new
        (flat_map record_text (enumerate_from 0 (map mac_record_of records.now))) result }
{
    let texts = records
        .iter()
        .enumerate()
        .map(|(index, raw)| RecordText { index, raw });
    print_all(texts, alloc, f)
}

// The lines of a record.
#[derive(Clone, Copy)]
struct RecordText<'a> {
    index: usize,
    raw: &'a RawMacCrashInfo,
}

impl<'a> Pushed for RecordText<'a> {
    ghost text = { λ r. record_text (r.index, mac_record_of r.raw.now) };

    #[rattlefmt::skip]
    #[tactic(auto, unfolding(crate::specs::MacCrashInfo::Text::record_text))]
    fn push(&self, out: &mut Vec<u8>) -> Result<(), AllocError> {
        let raw = self.raw;
        push_pieces(out, &[
            Piece::Words("  RECORD["), Piece::Decimal(self.index as u64), Piece::Words("] \n"),
            Piece::Words("    version           = "), decimal_piece(raw.version()), Piece::Words("\n"),
            Piece::Words("    thread            = "), decimal_piece(raw.thread()), Piece::Words("\n"),
            Piece::Words("    dialog_mode       = "), digits_piece(raw.dialog_mode()), Piece::Words("\n"),
            Piece::Words("    module_path       = "), words_piece(raw.module_path()), Piece::Words("\n"),
            Piece::Words("    message           = "), words_piece(raw.message()), Piece::Words("\n"),
            Piece::Words("    signature_string  = "), words_piece(raw.signature_string()), Piece::Words("\n"),
            Piece::Words("    backtrace         = "), words_piece(raw.backtrace()), Piece::Words("\n"),
            Piece::Words("    message2          = "), words_piece(raw.message2()), Piece::Words("\n"),
            Piece::Words("    abort_cause       = "), digits_piece(raw.abort_cause()), Piece::Words("\n\n"),
        ])
    }
}

// Returns a number in decimal, or no words if it is absent.
fn decimal_piece(n: Option<&u64>) -> Piece<'static>
    ensures { piece_text result ≡ if_there decimal (option_copied n.entry) }
{
    match n {
        Some(n) => Piece::Decimal(*n),
        None => Piece::Words(""),
    }
}

// Returns a number in hexadecimal, or no words if it is absent.
fn digits_piece(n: Option<&u64>) -> Piece<'static>
    ensures { piece_text result ≡ if_there plain_hex (option_copied n.entry) }
{
    match n {
        Some(n) => Piece::Digits(*n),
        None => Piece::Words(""),
    }
}

// Returns words, or none if they are absent.
fn words_piece(words: Option<&str>) -> Piece<'_>
    ensures { piece_text result ≡ text_or_nothing (option_copied words.entry) }
{
    match words {
        Some(words) => Piece::Words(words),
        None => Piece::Words(""),
    }
}
