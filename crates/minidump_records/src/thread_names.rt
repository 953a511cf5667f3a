ghost use Rattle.std.specs.Prelude.{◌≡◌, ◌^◌, ◌+◌, ◌*◌, ◌++◌, ◌≤◌, [], ◌↔◌, length, Any, IfOk, IsOkUnless, IsTrue};
ghost use Rattle.std.specs.Prelude.{OnErr, OnOk, map, string_bytes};
ghost use Rattle.std.specs.BTreeMap.{IsOrdered, Updates};
ghost use Rattle.std.specs.Option.{option_copied, option_map};
ghost use Rattle.std.specs.Ordering.{nat_cmp};
ghost use Rattle.minidump_bytes.specs.Source.{bytes_of};
ghost use Rattle.minidump_bytes.specs.Steps.{after};
ghost use Rattle.minidump_bytes.specs.Text16.{TakesMemory16, text16};
ghost use Rattle.minidump_format.specs.Print.{Prints};
ghost use Rattle.minidump_records.specs.ThreadNames.{NameTakesMemory, all_names_of, name_of_thread, names_in};
ghost use Rattle.minidump_records.specs.ThreadNames.{thread_name_text, thread_names_of};
ghost use Rattle.minidump_records.specs.ThreadNames.{thread_names_stream, thread_names_text};

use minidump_bytes::{Endian, Entries, Piece, Source, Steps, Told, push_pieces};
use minidump_format::format::MINIDUMP_THREAD_NAME;
use minidump_format::{Error, Pushed, print_numbered_all};
use minidump_system::framing::plain_entries;
use minidump_system::{MinidumpStream, MinidumpSystemInfo};
use std::alloc::{AllocError, Global};
use std::collections::{BTreeMap, btree_map};
use std::io::Write;

/// The names of threads, by their ids.
#[derive(Drop)]
pub struct MinidumpThreadNames {
    names: BTreeMap<u32, String>,
    unreadable: u64,
}

impl MinidumpThreadNames {
    /// Makes an empty map. Takes no memory.
    pub fn new(alloc: Global) -> MinidumpThreadNames
        ensures names { thread_names_of result ≡ [] }
        ensures unreadable { (all_names_of result).unreadable ≡ 0 }
    {
        MinidumpThreadNames {
            names: BTreeMap::new(alloc),
            unreadable: 0,
        }
    }

    /// Returns the number of threads that have a name.
    pub fn len(&self) -> usize
        ensures { result ≡ length (thread_names_of self.now) }
    {
        self.names.len()
    }

    /// Tells whether no thread has a name.
    pub fn is_empty(&self) -> bool
        ensures { IsTrue result ↔ (length (thread_names_of self.now) ≡ 0) }
    {
        self.names.len() == 0
    }

    /// Returns the name of a thread, or `None` if it has none.
    pub fn get_name(&self, thread_id: u32) -> Option<&str>
        ensures { option_copied result
            ≡ name_of_thread (thread_names_stream.value self.now).names thread_id }
    {
        let name = self.names.get(&thread_id)?;
        Some(name.as_str())
    }

    /// Returns how many entries of the stream name a text where none is. One whose RVA is 0 names
    /// none. Such an entry is damage, and gives no name. Returns 0 for names that no stream made.
    pub fn unreadable_names(&self) -> u64
        ensures { result ≡ (all_names_of self.now).unreadable }
    {
        self.unreadable
    }

    /// Copies the names. The only error is [`Error::OutOfMemory`].
    pub fn try_clone(&self, _alloc: Global) -> Result<MinidumpThreadNames, Error>
        ensures same { IfOk result (λ copy. all_names_of copy ≡ all_names_of self.now) }
        ensures memory { IsOkUnless result Error.OutOfMemory }
    {
        Ok(MinidumpThreadNames {
            names: self.names.clone()?,
            unreadable: self.unreadable,
        })
    }

    /// Prints the number of names, and each of them after its index, ascending by the ids of the
    /// threads.
    pub fn print<W: Write>(&self, alloc: Global, f: &mut Told<W>) -> Result<(), Error>
        ensures { Prints W.contents f.old f.new
            (thread_names_text (thread_names_of self.now)) result }
    {
        let heading = "MinidumpThreadNames\n  thread_count = ";
        let names = self.names.iter().map(|(id, name)| NameText { id, name });
        let count = self.names.len();
        print_numbered_all(heading, "thread_name", count, names.enumerate(), alloc, f)
    }
}

impl<'l> IntoIterator for &'l MinidumpThreadNames {
    ghost use Rattle.std.specs.Prelude.{◌≡◌, ◌^◌, ◌<◌, ℕ, String, length, map, string_bytes};
    ghost use Rattle.std.specs.Global.{Global};
    ghost use Rattle.std.specs.Map.Iter.{ShowsInOrder, deref_pair};
    ghost use Rattle.minidump_records.specs.ThreadNames.{ThreadName, thread_names_of};

    type Item = (&'l u32, &'l String);

    type IntoIter = btree_map::Iter<'l, u32, String>;

    ghost into_iter_gives = { λ names it. (map {B = ThreadName} (λ e. (e.0, string_bytes e.1)) it
        ≡ thread_names_of names.now) × (length it < 2 ^ 63)
        × ShowsInOrder (deref_pair {K = ℕ} {X = String Global}) };

    fn into_iter(self) -> btree_map::Iter<'l, u32, String> {
        self.names.iter()
    }
}

/// Reads Microsoft's `MINIDUMP_THREAD_NAME_LIST`: a plain list of entries. An entry whose name is
/// no text is skipped; of those whose RVA isn't 0
/// [`unreadable_names`](MinidumpThreadNames::unreadable_names) has the number. If several entries
/// name one thread, the last name is kept.
impl<'a> MinidumpStream<'a> for MinidumpThreadNames {
    ghost use Rattle.minidump_records.specs.ThreadNames.{ThreadNames, thread_names_stream};

    ghost Value = { ThreadNames };

    ghost spec = { thread_names_stream };

    const STREAM_TYPE: u32 = 24;

    fn number_of_type() -> u32 {
        Self::STREAM_TYPE
    }

    fn read(
        alloc: Global,
        bytes: Source<'a>,
        all: Source<'a>,
        endian: Endian,
        _system_info: Option<&MinidumpSystemInfo>,
        steps: &mut Steps,
    ) -> Result<Self, Error> {
        let raws = plain_entries::<MINIDUMP_THREAD_NAME>(bytes, endian, steps)?;
        Ok(read_names(alloc, raws, all, endian, steps)?)
    }
}

// Reads the names of entries, keeps the last name of each thread, and counts the entries that name a
// text where none is.
fn read_names(
    alloc: Global,
    raws: Entries<'_, MINIDUMP_THREAD_NAME>,
    all: Source<'_>,
    endian: Endian,
    steps: &mut Steps,
) -> Result<MinidumpThreadNames, AllocError>
    ensures names { IfOk result
        (λ names. all_names_of names ≡ names_in endian (bytes_of all.entry) raws.entry) }
    ensures memory { OnErr result (Any (NameTakesMemory endian (bytes_of all.entry)) raws.entry) }
    ensures within { steps.new ≤ steps.old + 2 * length raws.entry }
    ensures grows { steps.old ≤ steps.new }
    ensures steps { IfOk result (λ _. steps.new ≡ after steps.old (2 * length raws.entry)) }
{
    let mut names = BTreeMap::new(alloc);
    let mut unreadable = 0;
    for index in 0..raws.len() {
        let raw = raws.read(index, steps);
        match read_name(alloc, &raw, all, endian, steps)? {
            Some(name) => put_name(&mut names, raw.thread_id, name)?,
            None => unreadable += u64::from(raw.thread_name_rva != 0),
        }
    }
    Ok(MinidumpThreadNames { names, unreadable })
}

// Reads the name of an entry, or returns `Ok(None)` if it is no text.
fn read_name(
    alloc: Global,
    raw: &MINIDUMP_THREAD_NAME,
    all: Source<'_>,
    endian: Endian,
    steps: &mut Steps,
) -> Result<Option<String>, AllocError>
    ensures name { IfOk result (λ name. option_map string_bytes name
        ≡ text16 endian raw.now.thread_name_rva (bytes_of all.entry)) }
    ensures memory { OnErr result
        (TakesMemory16 endian raw.now.thread_name_rva (bytes_of all.entry)) }
    ensures step { steps.new ≡ after steps.old 1 }
{
    all.text16(alloc, raw.thread_name_rva, endian, steps)
}

// Inserts the name of a thread, in place of an earlier one.
fn put_name(
    names: &mut BTreeMap<u32, String>,
    thread_id: u32,
    name: String,
) -> Result<(), AllocError>
    ensures updates { OnOk result (Updates nat_cmp names.old names.new thread_id (Some name)) }
    ensures ordered { IsOrdered nat_cmp names.new }
{
    names.insert(thread_id, name)?;
    Ok(())
}

// The name of a thread.
#[derive(Drop)]
struct NameText<'a> {
    id: &'a u32,
    name: &'a String,
}

impl<'a> Pushed for NameText<'a> {
    ghost use Rattle.std.specs.Prelude.{string_bytes};
    ghost use Rattle.minidump_records.specs.ThreadNames.{thread_name_text};

    ghost text = { λ n. thread_name_text (n.id.now, string_bytes n.name.now) };

    fn push(&self, out: &mut Vec<u8>) -> Result<(), AllocError> {
        push_name(out, *self.id, self.name.as_str())
    }
}

#[rattlefmt::skip]
#[tactic(auto, unfolding(crate::specs::ThreadNames::thread_name_text))]
fn push_name(out: &mut Vec<u8>, id: u32, name: &str) -> Result<(), AllocError>
    ensures { OnOk result (out.new.items ≡ out.old.items ++ thread_name_text (id, name.now)) }
{
    push_pieces(out, &[
        Piece::Words("MINIDUMP_THREAD_NAME\n"),
        Piece::Words("  thread_id = "), Piece::Hex(id as u64), Piece::Words("\n"),
        Piece::Words("  name      = \""), Piece::Words(name), Piece::Words("\"\n\n"),
    ])
}
