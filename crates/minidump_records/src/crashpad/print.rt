ghost use Rattle.std.specs.Prelude.{◌≡◌, ◌++◌, ℕ, List, OnOk, map, string_bytes};
ghost use Rattle.std.specs.Iterator.{IsFinite};
ghost use Rattle.std.specs.List.{enumerate_from, flat_map};
ghost use Rattle.std.proofs.lemmas.Iterator.{YieldsList};
ghost use Rattle.minidump_format.specs.Print.{Prints};
ghost use Rattle.minidump_format.specs.Text.{line_end};
ghost use Rattle.minidump_records.specs.Crashpad.{Module, crashpad_info_of, module_of};
ghost use Rattle.minidump_records.specs.Crashpad.Annotations.{annotation_of};
ghost use Rattle.minidump_records.specs.Crashpad.Dictionary.{entries_of};
ghost use Rattle.minidump_records.specs.Crashpad.Text.{annotation_text, crashpad_info_text, list_line, module_lines};
ghost use Rattle.minidump_records.specs.Crashpad.Text.{module_text, object_line, objects_text, process_line};
ghost use Rattle.minidump_records.specs.Crashpad.Text.{process_lines, process_text, simple_line};

use super::{MinidumpAnnotation, MinidumpCrashpadInfo, MinidumpModuleCrashpadInfo};
use minidump_bytes::{Piece, Told, push_pieces};
use minidump_format::format::MINIDUMP_CRASHPAD_INFO;
use minidump_format::{Error, Pushed, print_all, print_item, print_line_end};
use std::alloc::{AllocError, Global};
use std::collections::BTreeMap;
use std::io::Write;

impl MinidumpCrashpadInfo {
    /// Prints the record and the texts of the process, and then each module with its texts and
    /// annotations.
    #[tactic(auto, using(minidump_format::proofs::Printing::prints_then, minidump_format::proofs::Printing::prints_exit))]
    pub fn print<W: Write>(&self, alloc: Global, f: &mut Told<W>) -> Result<(), Error>
        ensures { Prints W.contents f.old f.new
            (crashpad_info_text (crashpad_info_of self.now)) result }
    {
        print_item(&ProcessText { raw: &self.raw }, alloc, f)?;
        self.print_lists(alloc, f)
    }

    #[tactic(auto, using(minidump_format::proofs::Printing::prints_then, minidump_format::proofs::Printing::prints_exit))]
    fn print_lists<W: Write>(&self, alloc: Global, f: &mut Told<W>) -> Result<(), Error>
        ensures { Prints W.contents f.old f.new
            (flat_map process_line (entries_of string_bytes self.now.simple_annotations.entries)
            ++ (flat_map module_text (enumerate_from 0 (map module_of self.now.module_list.items))
            ++ line_end)) result }
    {
        print_process_lines(&self.simple_annotations, alloc, f)?;
        self.print_modules(alloc, f)
    }

    #[tactic(auto, using(minidump_format::proofs::Printing::prints_then, minidump_format::proofs::Printing::prints_exit))]
    fn print_modules<W: Write>(&self, alloc: Global, f: &mut Told<W>) -> Result<(), Error>
        ensures { Prints W.contents f.old f.new
            (flat_map module_text (enumerate_from 0 (map module_of self.now.module_list.items))
            ++ line_end) result }
    {
        print_module_list(self.module_list.as_slice(), alloc, f)?;
        print_line_end(f)
    }
}

fn print_process_lines<W: Write>(
    texts: &BTreeMap<String, String>,
    alloc: Global,
    f: &mut Told<W>,
) -> Result<(), Error>
    ensures { Prints W.contents f.old f.new
        (flat_map process_line (entries_of string_bytes texts.now.entries)) result }
{
    let lines = texts.iter().map(|(key, text)| ProcessLine { key, text });
    print_all(lines, alloc, f)
}

fn print_module_list<W: Write>(
    modules: &[MinidumpModuleCrashpadInfo],
    alloc: Global,
    f: &mut Told<W>,
) -> Result<(), Error>
    ensures { Prints W.contents f.old f.new
        (flat_map module_text (enumerate_from 0 (map module_of modules.now))) result }
{
    print_each_module(modules.iter().enumerate(), alloc, f)
}

fn print_each_module<
    'a,
    I: Iterator<Item = (usize, &'a MinidumpModuleCrashpadInfo)> + Drop,
    W: Write,
>(modules: I, alloc: Global, f: &mut Told<W>) -> Result<(), Error>
    requires can { I.can_next modules }
    requires ends { IsFinite (I.remaining modules) }
    ensures { (all : List (ℕ × Module))
        → YieldsList I.next_gives (λ m. (m.0, module_of m.1.now)) modules all
        → Prints W.contents f.old f.new (flat_map module_text all) result }
{
    if f.failed() {
        return Err(Error::IoError);
    }
    for item in modules {
        print_module(item.0, item.1, alloc, f)?;
    }
    Ok(())
}

#[tactic(auto, using(minidump_format::proofs::Printing::prints_then, minidump_format::proofs::Printing::prints_exit))]
fn print_module<W: Write>(
    index: usize,
    info: &MinidumpModuleCrashpadInfo,
    alloc: Global,
    f: &mut Told<W>,
) -> Result<(), Error>
    ensures { Prints W.contents f.old f.new (module_text (index, module_of info.now)) result }
{
    print_item(&ModuleLines { index, info }, alloc, f)?;
    print_annotations(index, info, alloc, f)
}

#[tactic(auto, using(minidump_format::proofs::Printing::prints_then, minidump_format::proofs::Printing::prints_exit))]
fn print_annotations<W: Write>(
    index: usize,
    info: &MinidumpModuleCrashpadInfo,
    alloc: Global,
    f: &mut Told<W>,
) -> Result<(), Error>
    ensures { Prints W.contents f.old f.new
        (flat_map (list_line index)
        (enumerate_from 0 (map string_bytes info.now.list_annotations.items))
        ++ objects_text (index, module_of info.now)) result }
{
    print_list(index, info.list_annotations.as_slice(), alloc, f)?;
    print_dictionaries(index, info, alloc, f)
}

#[tactic(auto, using(minidump_format::proofs::Printing::prints_then, minidump_format::proofs::Printing::prints_exit))]
fn print_dictionaries<W: Write>(
    index: usize,
    info: &MinidumpModuleCrashpadInfo,
    alloc: Global,
    f: &mut Told<W>,
) -> Result<(), Error>
    ensures { Prints W.contents f.old f.new (objects_text (index, module_of info.now)) result }
{
    print_simple(index, &info.simple_annotations, alloc, f)?;
    print_objects(index, &info.annotation_objects, alloc, f)
}

fn print_list<W: Write>(
    index: usize,
    texts: &[String],
    alloc: Global,
    f: &mut Told<W>,
) -> Result<(), Error>
    ensures { Prints W.contents f.old f.new
        (flat_map (list_line index) (enumerate_from 0 (map string_bytes texts.now))) result }
{
    let lines = texts.iter().enumerate().map(|(entry, text)| ListLine {
        module: index,
        index: entry,
        text,
    });
    print_all(lines, alloc, f)
}

fn print_simple<W: Write>(
    index: usize,
    texts: &BTreeMap<String, String>,
    alloc: Global,
    f: &mut Told<W>,
) -> Result<(), Error>
    ensures { Prints W.contents f.old f.new
        (flat_map (simple_line index) (entries_of string_bytes texts.now.entries)) result }
{
    let lines = texts
        .iter()
        .map(|(key, text)| SimpleLine { index, key, text });
    print_all(lines, alloc, f)
}

fn print_objects<W: Write>(
    index: usize,
    annotations: &BTreeMap<String, MinidumpAnnotation>,
    alloc: Global,
    f: &mut Told<W>,
) -> Result<(), Error>
    ensures { Prints W.contents f.old f.new
        (flat_map (object_line index) (entries_of annotation_of annotations.now.entries)) result }
{
    let lines = annotations.iter().map(|(name, annotation)| ObjectLine {
        index,
        name,
        annotation,
    });
    print_all(lines, alloc, f)
}

// The lines of the record of the process.
#[derive(Clone, Copy)]
struct ProcessText<'a> {
    raw: &'a MINIDUMP_CRASHPAD_INFO,
}

impl<'a> Pushed for ProcessText<'a> {
    ghost text = { λ p. process_text p.raw.now };

    fn push(&self, out: &mut Vec<u8>) -> Result<(), AllocError> {
        let report_id = format!(in *out.allocator(); "{}", self.raw.report_id)?;
        let client_id = format!(in *out.allocator(); "{}", self.raw.client_id)?;
        push_process(
            out,
            self.raw.version,
            report_id.as_str(),
            client_id.as_str(),
        )
    }
}

#[rattlefmt::skip]
#[tactic(auto, unfolding(crate::specs::Crashpad::Text::process_lines))]
fn push_process<'x>(
    out: &mut Vec<u8>,
    version: u32,
    report_id: &'x str,
    client_id: &'x str,
) -> Result<(), AllocError>
    ensures { OnOk result (out.new.items ≡ out.old.items
        ++ process_lines version report_id.now client_id.now) }
{
    push_pieces(out, &[
        Piece::Words("MDRawCrashpadInfo\n"),
        Piece::Words("  version = "), Piece::Decimal(version as u64), Piece::Words("\n"),
        Piece::Words("  report_id = "), Piece::Words(report_id), Piece::Words("\n"),
        Piece::Words("  client_id = "), Piece::Words(client_id), Piece::Words("\n"),
    ])
}

// The line of a key of the process and its text.
#[derive(Clone, Copy)]
struct ProcessLine<'a> {
    key: &'a String,
    text: &'a String,
}

impl<'a> Pushed for ProcessLine<'a> {
    ghost use Rattle.std.specs.Prelude.{string_bytes};

    ghost text = { λ l. process_line (string_bytes l.key.now, string_bytes l.text.now) };

    #[rattlefmt::skip]
    #[tactic(auto, unfolding(crate::specs::Crashpad::Text::process_line))]
    fn push(&self, out: &mut Vec<u8>) -> Result<(), AllocError> {
        push_pieces(out, &[
            Piece::Words("  simple_annotations[\""), Piece::Words(self.key.as_str()), Piece::Words("\"] = "), Piece::Words(self.text.as_str()), Piece::Words("\n"),
        ])
    }
}

// The lines of the link to a module and of its record.
#[derive(Clone, Copy)]
struct ModuleLines<'a> {
    index: usize,
    info: &'a MinidumpModuleCrashpadInfo,
}

impl<'a> Pushed for ModuleLines<'a> {
    ghost text = { λ m. module_lines (m.index, module_of m.info.now) };

    #[rattlefmt::skip]
    #[tactic(auto, unfolding(crate::specs::Crashpad::Text::module_lines))]
    fn push(&self, out: &mut Vec<u8>) -> Result<(), AllocError> {
        push_pieces(out, &[
            Piece::Words("  module_list["), Piece::Decimal(self.index as u64), Piece::Words("].minidump_module_list_index = "), Piece::Decimal(self.info.module_index as u64), Piece::Words("\n"),
            Piece::Words("  module_list["), Piece::Decimal(self.index as u64), Piece::Words("].version = "), Piece::Decimal(self.info.raw.version as u64), Piece::Words("\n"),
        ])
    }
}

// The line of a text of the list of a module.
#[derive(Clone, Copy)]
struct ListLine<'a> {
    module: usize,
    index: usize,
    text: &'a String,
}

impl<'a> Pushed for ListLine<'a> {
    ghost use Rattle.std.specs.Prelude.{string_bytes};

    ghost text = { λ l. list_line l.module (l.index, string_bytes l.text.now) };

    #[rattlefmt::skip]
    #[tactic(auto, unfolding(crate::specs::Crashpad::Text::list_line))]
    fn push(&self, out: &mut Vec<u8>) -> Result<(), AllocError> {
        push_pieces(out, &[
            Piece::Words("  module_list["), Piece::Decimal(self.module as u64), Piece::Words("].list_annotations["), Piece::Decimal(self.index as u64), Piece::Words("] = "), Piece::Words(self.text.as_str()), Piece::Words("\n"),
        ])
    }
}

// The line of a key of a module and its text.
#[derive(Clone, Copy)]
struct SimpleLine<'a> {
    index: usize,
    key: &'a String,
    text: &'a String,
}

impl<'a> Pushed for SimpleLine<'a> {
    ghost use Rattle.std.specs.Prelude.{string_bytes};

    ghost text = { λ l. simple_line l.index (string_bytes l.key.now, string_bytes l.text.now) };

    #[rattlefmt::skip]
    #[tactic(auto, unfolding(crate::specs::Crashpad::Text::simple_line))]
    fn push(&self, out: &mut Vec<u8>) -> Result<(), AllocError> {
        push_pieces(out, &[
            Piece::Words("  module_list["), Piece::Decimal(self.index as u64), Piece::Words("].simple_annotations[\""), Piece::Words(self.key.as_str()), Piece::Words("\"] = "), Piece::Words(self.text.as_str()), Piece::Words("\n"),
        ])
    }
}

// The line of a name of a module and its annotation.
#[derive(Clone, Copy)]
struct ObjectLine<'a> {
    index: usize,
    name: &'a String,
    annotation: &'a MinidumpAnnotation,
}

impl<'a> Pushed for ObjectLine<'a> {
    ghost use Rattle.std.specs.Prelude.{string_bytes};

    ghost text = { λ l. object_line l.index
        (string_bytes l.name.now, annotation_of l.annotation.now) };

    #[rattlefmt::skip]
    #[tactic(auto, unfolding(crate::specs::Crashpad::Text::object_line))]
    fn push(&self, out: &mut Vec<u8>) -> Result<(), AllocError> {
        push_pieces(out, &[
            Piece::Words("  module_list["), Piece::Decimal(self.index as u64), Piece::Words("].annotation_objects[\""), Piece::Words(self.name.as_str()), Piece::Words("\"] = "), Piece::Words(annotation_str(self.annotation)), Piece::Words("\n"),
        ])
    }
}

// Returns a text as it is, and the kind of any other annotation.
fn annotation_str(annotation: &MinidumpAnnotation) -> &str
    ensures { result.now ≡ annotation_text (annotation_of annotation.now) }
{
    match annotation {
        MinidumpAnnotation::Invalid => "<invalid>",
        MinidumpAnnotation::String(text) => text.as_str(),
        MinidumpAnnotation::UserDefined(_) => "<user defined>",
        MinidumpAnnotation::Unsupported(_) => "<unsupported>",
    }
}
