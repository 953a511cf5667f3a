//! The entries of the list of modules that can't be read.
ghost use Rattle.std.specs.Prelude.{◌≡◌, [], IfOk, IsOkUnless, unwrap_or};
ghost use Rattle.minidump.specs.DumpValue.{dump_of};
ghost use Rattle.crash_process.specs.Modules.{entries_in, part_in, unreadable_among, unreadable_by};

use minidump::format::MINIDUMP_MODULE;
use minidump::own_streams::Entries;
use minidump::own_streams::framing::plain_entries;
use minidump::{Endian, Error, Minidump, MinidumpModule, Range, Source, Steps};
use std::alloc::Global;

/// An entry of the list of modules that can't be read, for which the list as a whole can't be.
#[derive(Clone, Copy, PartialEq, Eq)]
pub struct UnreadableModule {
    /// Its index among all entries of the list, from 0 on.
    pub index: usize,
    /// The base address.
    pub base: u64,
    /// The size of the image, in bytes.
    pub size: u32,
    /// What of it can't be read.
    pub part: ModulePart,
}

/// A part of an entry of the list of modules that can't be read.
#[derive(Clone, Copy, PartialEq, Eq)]
pub enum ModulePart {
    /// Its name: the bytes are not all in the file, their number is odd, or a surrogate lacks its
    /// partner.
    Name,
    /// Its CodeView record, by which its debug file is known.
    CodeView,
}

// Returns the entries of the list of modules that can't be read, if the list has an error.
pub(crate) fn unreadable_of(
    alloc: Global,
    dump: &Minidump<'_>,
    error: Option<Error>,
) -> Result<Vec<UnreadableModule>, Error>
    ensures modules { IfOk result (λ modules. modules.items
        ≡ unreadable_by (dump_of dump.now) error) }
    ensures memory { IsOkUnless result Error.OutOfMemory }
{
    match (error, entries_of(dump)) {
        (Some(_), Some(entries)) => unreadable_among(alloc, dump.bytes(), dump.endian, &entries),
        _ => Ok(Vec::new(alloc)),
    }
}

// Returns the entries of the list of modules, or `None` if its bytes or their framing can't be read.
fn entries_of<'a>(dump: &Minidump<'a>) -> Option<Entries<'a, MINIDUMP_MODULE>>
    ensures { unwrap_or result [] ≡ entries_in (dump_of dump.now) }
{
    let bytes = dump.get_raw_stream(4).ok()?;
    plain_entries(Source::new(bytes), dump.endian, &mut Steps::new()).ok()
}

// Returns those of some entries that can't be read.
fn unreadable_among(
    alloc: Global,
    file: &[u8],
    endian: Endian,
    entries: &Entries<'_, MINIDUMP_MODULE>,
) -> Result<Vec<UnreadableModule>, Error>
    ensures modules { IfOk result (λ modules. modules.items
        ≡ unreadable_among endian file.now entries.now) }
    ensures memory { IsOkUnless result Error.OutOfMemory }
{
    let mut modules = Vec::new(alloc);
    for index in 0..entries.len() {
        let raw = entries.read(index, &mut Steps::new());
        if let Some(part) = part_in(alloc, file, endian, &raw)? {
            modules.push(UnreadableModule {
                index,
                base: raw.base_of_image,
                size: raw.size_of_image,
                part,
            })?;
        }
    }
    Ok(modules)
}

// Returns what of an entry that has addresses can't be read: its name, else its CodeView record.
fn part_in(
    alloc: Global,
    file: &[u8],
    endian: Endian,
    raw: &MINIDUMP_MODULE,
) -> Result<Option<ModulePart>, Error>
    ensures part { IfOk result (λ part. part ≡ part_in endian file.now raw.now) }
    ensures memory { IsOkUnless result Error.OutOfMemory }
{
    if Range::from_size(raw.base_of_image, raw.size_of_image as u64).is_none() {
        return Ok(None);
    }
    let rva = raw.module_name_rva as u64;
    let name = Source::new(file).text16(alloc, rva, endian, &mut Steps::new())?;
    if name.is_none() {
        return Ok(Some(ModulePart::Name));
    }
    match MinidumpModule::read(alloc, *raw, file, endian, None) {
        Ok(_) => Ok(None),
        Err(Error::OutOfMemory) => Err(Error::OutOfMemory),
        Err(_) => Ok(Some(ModulePart::CodeView)),
    }
}
