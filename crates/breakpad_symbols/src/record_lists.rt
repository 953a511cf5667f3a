ghost use Rattle.std.specs.Prelude.{◌≡◌, ◌++◌, [], IfOk, OnOk};
ghost use Rattle.std.specs.List.{cons_option};
ghost use Rattle.minidump_bytes.specs.LinuxOsStr.{text_of};
ghost use Rattle.breakpad_symbols.specs.Lines.{lines_of};
ghost use Rattle.breakpad_symbols.specs.RecordLists.{HaveMore, HoldRecords, may_be_record};

use crate::cfi::cfi_in;
use crate::function::function_in;
use crate::lines::first_line;
use crate::numbered_name::{NumberedName, file_line, origin_line};
use crate::public::public_line;
use crate::{CfiRecord, Function, PublicSymbol};
use minidump_bytes::LinuxOsStr;
use std::alloc::{AllocError, Global};

// The records of a file, those of each kind in the order of its lines.
#[derive(Drop)]
pub(crate) struct RecordLists<'a> {
    pub(crate) files: Vec<NumberedName<'a>>,
    pub(crate) functions: Vec<Function<'a>>,
    pub(crate) publics: Vec<PublicSymbol<'a>>,
    pub(crate) cfi: Vec<CfiRecord<'a>>,
    pub(crate) origins: Vec<NumberedName<'a>>,
}

impl<'a> RecordLists<'a> {
    // Reads all records, in one pass over the text.
    pub(crate) fn read(alloc: Global, text: &'a [u8]) -> Result<RecordLists<'a>, AllocError>
        ensures { IfOk result (λ lists. HoldRecords lists (lines_of text.now)) }
    {
        let mut lists = RecordLists {
            files: Vec::new(alloc),
            functions: Vec::new(alloc),
            publics: Vec::new(alloc),
            cfi: Vec::new(alloc),
            origins: Vec::new(alloc),
        };
        let mut rest = text;
        while let Some((line, after)) = first_line(rest) {
            lists.put(line, after)?;
            rest = after;
        }
        Ok(lists)
    }

    // Appends the record of a line, if it is one, by the text after it.
    fn put(&mut self, line: LinuxOsStr<'a>, rest: &'a [u8]) -> Result<(), AllocError>
        ensures { OnOk result (HaveMore self.old self.new (text_of line.entry) (lines_of rest.now)) }
    {
        if !may_be_record(line) {
            return Ok(());
        }
        push_some(&mut self.functions, function_in(line, rest))?;
        push_some(&mut self.cfi, cfi_in(line, rest))?;
        push_some(&mut self.publics, public_line(line))?;
        push_some(&mut self.files, file_line(line))?;
        push_some(&mut self.origins, origin_line(line))
    }
}

// Appends what there is.
fn push_some<R: Drop>(list: &mut Vec<R>, next: Option<R>) -> Result<(), AllocError>
    ensures { OnOk result (list.new.items ≡ list.old.items ++ cons_option next []) }
{
    if let Some(record) = next {
        list.push(record)?;
    }
    Ok(())
}

// Tells whether a line begins with the first letter of a keyword.
fn may_be_record(line: LinuxOsStr<'_>) -> bool
    ensures { result ≡ may_be_record (text_of line.entry) }
{
    match line.as_bytes() {
        [b'F' | b'I' | b'P' | b'S', ..] => true,
        _ => false,
    }
}
