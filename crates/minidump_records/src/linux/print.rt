ghost use Rattle.std.specs.Prelude.{◌≡◌, [], IfErr};
ghost use Rattle.std.specs.List.{flat_map};
ghost use Rattle.minidump_bytes.specs.LinuxOsStr.{text_lines};
ghost use Rattle.minidump_format.specs.Print.{Prints};
ghost use Rattle.minidump_format.specs.StreamType.{type_name};
ghost use Rattle.minidump_records.specs.Linux.Pairs.{pairs_of};
ghost use Rattle.minidump_records.specs.Linux.Text.{limit_line, linux_pairs_text, linux_proc_limits_text, name_line};
ghost use Rattle.minidump_records.specs.Linux.Text.{pair_line};
ghost use Rattle.minidump_records.specs.Linux.{linux_text_of};

use super::files::ProcLimits;
use super::pairs::LinuxPairs;
use super::text::{LinuxFile, LinuxPairsFile, LinuxText};
use minidump_bytes::{LinuxOsStr, Told};
use minidump_format::{Error, Pushed, print_all, print_line_end, put_text};
use std::alloc::{AllocError, Global};
use std::io::Write;

impl<'a, F: LinuxPairsFile> LinuxText<'a, F> {
    /// Prints the name of the type of stream, and a line for each pair, with the key and the value
    /// as the bytes that they are. The Rust crate has no such call: this is the text that a report
    /// has for the stream. Takes no memory if there is no pair.
    #[tactic(auto, using(minidump_format::proofs::Printing::prints_then, minidump_format::proofs::Printing::prints_exit))]
    pub fn print<W: Write>(&self, alloc: Global, f: &mut Told<W>) -> Result<(), Error>
        ensures prints { Prints W.contents f.old f.new
            (linux_pairs_text F.LinuxFile.stream_type F.SEPARATOR (linux_text_of self.now)) result }
        ensures none { pairs_of F.SEPARATOR (linux_text_of self.now) ≡ []
            → IfErr result (λ e. e ≡ Error.IoError) }
    {
        print_name::<F, W>(f)?;
        print_pairs(self.data, F::SEPARATOR, alloc, f)
    }
}

impl<'a> LinuxText<'a, ProcLimits> {
    /// Prints the name of the type of stream, and each limit on a line, as the bytes that it is.
    /// The Rust crate has no such call: this is the text that a report has for the stream. Takes no
    /// memory if there is no limit.
    #[tactic(auto, using(minidump_format::proofs::Printing::prints_then, minidump_format::proofs::Printing::prints_exit))]
    pub fn print<W: Write>(&self, alloc: Global, f: &mut Told<W>) -> Result<(), Error>
        ensures prints { Prints W.contents f.old f.new
            (linux_proc_limits_text (linux_text_of self.now)) result }
        ensures none { text_lines (linux_text_of self.now) ≡ []
            → IfErr result (λ e. e ≡ Error.IoError) }
    {
        print_name::<ProcLimits, W>(f)?;
        print_limits(self.data, alloc, f)
    }
}

// Prints the name of the type of stream on a line.
#[tactic(auto, unfolding(crate::specs::Linux::Text::name_line), using(minidump_format::proofs::Printing::prints_then, minidump_format::proofs::Printing::prints_exit))]
fn print_name<F: LinuxFile, W: Write>(f: &mut Told<W>) -> Result<(), Error>
    ensures prints { Prints W.contents f.old f.new (name_line F.stream_type) result }
    ensures error { IfErr result (λ e. e ≡ Error.IoError) }
{
    print_type::<F, W>(f)?;
    print_line_end(f)
}

fn print_type<F: LinuxFile, W: Write>(f: &mut Told<W>) -> Result<(), Error>
    ensures prints { Prints W.contents f.old f.new (type_name F.stream_type) result }
    ensures error { IfErr result (λ e. e ≡ Error.IoError) }
{
    put_text(f, F::name_of_type())
}

fn print_pairs<W: Write>(
    text: &[u8],
    separator: u8,
    alloc: Global,
    f: &mut Told<W>,
) -> Result<(), Error>
    ensures prints { Prints W.contents f.old f.new
        (flat_map pair_line (pairs_of separator text.now)) result }
    ensures none { pairs_of separator text.now ≡ [] → IfErr result (λ e. e ≡ Error.IoError) }
{
    let pairs = LinuxPairs::new(text, separator);
    print_all(pairs.map(|(key, value)| PairLine { key, value }), alloc, f)
}

fn print_limits<W: Write>(text: &[u8], alloc: Global, f: &mut Told<W>) -> Result<(), Error>
    ensures prints { Prints W.contents f.old f.new
        (flat_map limit_line (text_lines text.now)) result }
    ensures none { text_lines text.now ≡ [] → IfErr result (λ e. e ≡ Error.IoError) }
{
    let lines = LinuxOsStr::from_bytes(text).lines();
    print_all(lines.map(|line| LimitLine { line }), alloc, f)
}

// The line of a pair.
#[derive(Drop)]
struct PairLine<'a> {
    key: LinuxOsStr<'a>,
    value: LinuxOsStr<'a>,
}

impl<'a> Pushed for PairLine<'a> {
    ghost use Rattle.minidump_bytes.specs.LinuxOsStr.{text_of};

    ghost text = { λ p. pair_line (text_of p.key, text_of p.value) };

    #[tactic(auto, unfolding(crate::specs::Linux::Text::pair_line))]
    fn push(&self, out: &mut Vec<u8>) -> Result<(), AllocError> {
        out.extend_from_slice(b"  ")?;
        out.extend_from_slice(self.key.as_bytes())?;
        out.extend_from_slice(b" = ")?;
        out.extend_from_slice(self.value.as_bytes())?;
        out.extend_from_slice(b"\n")
    }
}

// The line of a limit.
#[derive(Drop)]
struct LimitLine<'a> {
    line: LinuxOsStr<'a>,
}

impl<'a> Pushed for LimitLine<'a> {
    ghost use Rattle.minidump_bytes.specs.LinuxOsStr.{text_of};

    ghost text = { λ l. limit_line (text_of l.line) };

    #[tactic(auto, unfolding(crate::specs::Linux::Text::limit_line))]
    fn push(&self, out: &mut Vec<u8>) -> Result<(), AllocError> {
        out.extend_from_slice(b"  ")?;
        out.extend_from_slice(self.line.as_bytes())?;
        out.extend_from_slice(b"\n")
    }
}
