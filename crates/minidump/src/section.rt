ghost use Rattle.std.specs.Prelude.{◌≡◌, ◌≢◌, ℕ, List, Ok, Err};
ghost use Rattle.minidump_format.specs.declared.error.Error.{Error};
ghost use Rattle.minidump_format.specs.Print.{Prints};
ghost use Rattle.minidump.specs.Dump.{IsStreamOf};
ghost use Rattle.minidump.specs.DumpValue.{dump_of};
ghost use Rattle.minidump.specs.Report.{IsUnreadText, error_line, section_text, unread_text};
ghost use Rattle.minidump.specs.Text.{stream_type_name};

use crate::Minidump;
use crate::print::type_name;
use crate::report::Section;
use minidump_bytes::{Piece, Told};
use minidump_format::{Error, no_memory, print_item, put_text};
use minidump_system::MinidumpStream;
use std::alloc::Global;
use std::io::Write;

// Reads the stream of a section of the report, and prints it by `print`, or what it adds if it
// can't be read.
pub(crate) fn print_stream<'a, S, W, P>(
    section: Section,
    dump: &Minidump<'a>,
    alloc: Global,
    f: &mut Told<W>,
    print: P,
) -> Result<(), Error>
where
    S: MinidumpStream<'a> + Drop,
    W: Write,
    P: FnOnce(&S, Global, &mut Told<W>) -> Result<(), Error>,
    requires callable { P.IsAlwaysCallable print }
    requires prints { (value old new printed : _)
        → IsStreamOf S.spec (dump_of dump.now) (Ok value.now)
        → P.post print value alloc old printed new
        → Prints W.contents old.now new.now (section_text (dump_of dump.now) section) printed }
    requires text { IsUnreadText S.spec (dump_of dump.now)
        (section_text (dump_of dump.now) section) }
    ensures { Prints W.contents f.old f.new (section_text (dump_of dump.now) section) result }
{
    match dump.get_stream::<S>(alloc) {
        Ok(stream) => print(&stream, alloc, f),
        Err(error) => print_unread::<S, W>(section, dump, error, alloc, f),
    }
}

// Prints what a stream of the type `S`, whose section of the report this is, adds to it if it can't
// be read: nothing if it is absent, else the name of its error.
pub(crate) fn print_unread<'a, S: MinidumpStream<'a>, W: Write>(
    section: Section,
    dump: &Minidump<'a>,
    error: Error,
    alloc: Global,
    f: &mut Told<W>,
) -> Result<(), Error>
    requires stream { IsStreamOf S.spec (dump_of dump.now) (Err error) }
    requires text { IsUnreadText S.spec (dump_of dump.now)
        (section_text (dump_of dump.now) section) }
    ensures { Prints W.contents f.old f.new (section_text (dump_of dump.now) section) result }
{
    print_error(S::number_of_type(), error, alloc, f)
}

// Prints the line of a stream's error, or nothing for `StreamNotFound`. `OutOfMemory` has no line:
// it ends the report.
pub(crate) fn print_error<W: Write>(
    stream_type: u32,
    error: Error,
    alloc: Global,
    f: &mut Told<W>,
) -> Result<(), Error>
    ensures { (text : List ℕ)
        → (error ≢ Error.OutOfMemory → text ≡ unread_text (stream_type_name stream_type) error)
        → Prints W.contents f.old f.new text result }
{
    match error {
        Error::StreamNotFound => put_text(f, ""),
        Error::OutOfMemory => Err(no_memory(f)),
        _ => print_line(type_name(stream_type), error, alloc, f),
    }
}

#[rattlefmt::skip]
#[tactic(auto, unfolding(crate::specs::Report::error_line))]
fn print_line<W: Write>(name: &'static str, error: Error, alloc: Global, f: &mut Told<W>) -> Result<(), Error>
    ensures { Prints W.contents f.old f.new (error_line name.now error) result }
{
    let line = [Piece::Words(name), Piece::Words(": "), Piece::Words(error.name()), Piece::Words("\n")];
    print_item(&line.as_slice(), alloc, f)
}
