ghost use Rattle.std.specs.Prelude.{◌≡◌, ◌+◌, ◌*◌, ◌<◌, ◌≤◌, [], ◌↔◌, IfErr, IfOk, IsOkUnless, IsTrue, OnErr, length};
ghost use Rattle.std.specs.Prelude.{map};
ghost use Rattle.std.specs.List.{sum_by};
ghost use Rattle.std.specs.Slice.Iter.{iter_rest};
ghost use Rattle.minidump_bytes.specs.Source.{bytes_of};
ghost use Rattle.minidump_bytes.specs.Steps.{after};
ghost use Rattle.minidump_records.specs.Handles.{handle_data_of, handle_in, handle_of, handle_reads};

use super::descriptor::read_handle;
use super::{MinidumpHandleDescriptor, RawHandleDescriptor};
use minidump_bytes::{Endian, Entries, Record, Source, Steps};
use minidump_format::Error;
use minidump_format::format::{MINIDUMP_HANDLE_DESCRIPTOR, MINIDUMP_HANDLE_DESCRIPTOR_2};
use minidump_system::framing::{HandleEntries, handle_entries};
use minidump_system::read_items::{ReadEntry, read_items};
use minidump_system::{MinidumpStream, MinidumpSystemInfo};
use std::alloc::Global;
use std::slice;

/// The open handles of a process.
#[derive(Drop)]
pub struct MinidumpHandleDataStream {
    /// The handles, in the order of the stream.
    pub handles: Vec<MinidumpHandleDescriptor>,
}

impl MinidumpHandleDataStream {
    /// Makes an empty list. Takes no memory.
    pub fn new(alloc: Global) -> MinidumpHandleDataStream
        ensures { result.handles.items ≡ [] }
    {
        MinidumpHandleDataStream {
            handles: Vec::new(alloc),
        }
    }

    /// Makes a list of handles.
    pub fn from_handles(handles: Vec<MinidumpHandleDescriptor>) -> MinidumpHandleDataStream
        ensures { result.handles ≡ handles }
    {
        MinidumpHandleDataStream { handles }
    }

    /// Returns the number of handles.
    pub fn len(&self) -> usize
        ensures { result ≡ length self.now.handles.items }
    {
        self.handles.len()
    }

    /// Tells whether the list has no handle.
    pub fn is_empty(&self) -> bool
        ensures { IsTrue result ↔ (length self.now.handles.items ≡ 0) }
    {
        self.handles.is_empty()
    }

    /// Returns an iterator over the handles, in the order of the list.
    pub fn iter(&self) -> slice::Iter<'_, MinidumpHandleDescriptor>
        ensures { iter_rest result ≡ self.now.handles.items }
    {
        self.handles.iter()
    }

    /// Copies the list. The only error is [`Error::OutOfMemory`], and only if there is a handle.
    pub fn try_clone(&self, alloc: Global) -> Result<MinidumpHandleDataStream, Error>
        ensures same { IfOk result (λ list. handle_data_of list ≡ handle_data_of self.now) }
        ensures memory { IsOkUnless result Error.OutOfMemory }
        ensures some { OnErr result (0 < length self.now.handles.items) }
    {
        let mut handles = Vec::with_capacity(alloc, self.handles.len())?;
        for handle in &self.handles {
            handles.push(handle.try_clone(alloc)?)?;
        }
        Ok(MinidumpHandleDataStream { handles })
    }
}

impl<'l> IntoIterator for &'l MinidumpHandleDataStream {
    ghost use Rattle.std.specs.Prelude.{◌≡◌};
    ghost use Rattle.std.specs.Slice.Iter.{iter_rest};

    type Item = &'l MinidumpHandleDescriptor;

    type IntoIter = slice::Iter<'l, MinidumpHandleDescriptor>;

    ghost into_iter_gives = { λ list it. iter_rest it ≡ list.now.handles.items };

    fn into_iter(self) -> slice::Iter<'l, MinidumpHandleDescriptor> {
        self.iter()
    }
}

/// Reads Microsoft's `MINIDUMP_HANDLE_DATA_STREAM`: a list of descriptors of 32 or 40 bytes. A name
/// is `None` if its RVA is 0 or no text is there. Descriptors of 40 bytes also name information on
/// their objects.
impl<'a> MinidumpStream<'a> for MinidumpHandleDataStream {
    ghost use Rattle.std.specs.Prelude.{List};
    ghost use Rattle.minidump_records.specs.Handles.{Handle, handle_data_stream};

    ghost Value = { List Handle };

    ghost spec = { handle_data_stream };

    const STREAM_TYPE: u32 = 12;

    fn number_of_type() -> u32 {
        Self::STREAM_TYPE
    }

    fn read(
        alloc: Global,
        bytes: Source<'a>,
        all: Source<'a>,
        endian: Endian,
        _system_info: Option<&MinidumpSystemInfo>,
        steps: &mut Steps,
    ) -> Result<Self, Error> {
        let handles = match handle_entries(bytes, endian, steps)? {
            HandleEntries::Short(raws) => read_handles(alloc, raws, all, endian, steps)?,
            HandleEntries::Long(raws) => read_handles(alloc, raws, all, endian, steps)?,
        };
        Ok(MinidumpHandleDataStream { handles })
    }
}

// A layout of the descriptors of a list.
trait Descriptor: Record {
    ghost use Rattle.minidump_records.specs.declared.handles.raw.RawHandleDescriptor.{RawHandleDescriptor};

    ghost raw: { Self → RawHandleDescriptor };

    // Wraps the descriptor in the variant of its layout.
    fn raw(self) -> RawHandleDescriptor
        ensures { result ≡ raw self };
}

impl Descriptor for MINIDUMP_HANDLE_DESCRIPTOR {
    ghost use Rattle.minidump_records.specs.declared.handles.raw.RawHandleDescriptor.TheVariants.{HandleDescriptor};

    ghost raw = { HandleDescriptor };

    fn raw(self) -> RawHandleDescriptor {
        RawHandleDescriptor::HandleDescriptor(self)
    }
}

impl Descriptor for MINIDUMP_HANDLE_DESCRIPTOR_2 {
    ghost use Rattle.minidump_records.specs.declared.handles.raw.RawHandleDescriptor.TheVariants.{HandleDescriptor2};

    ghost raw = { HandleDescriptor2 };

    fn raw(self) -> RawHandleDescriptor {
        RawHandleDescriptor::HandleDescriptor2(self)
    }
}

// Reads the handle of each descriptor.
fn read_handles<'a, R: Descriptor + Drop>(
    alloc: Global,
    raws: Entries<'_, R>,
    all: Source<'a>,
    endian: Endian,
    steps: &mut Steps,
) -> Result<Vec<MinidumpHandleDescriptor>, Error>
    ensures items { IfOk result
        (λ v. map handle_of v.items
        ≡ map (λ r. handle_in endian (bytes_of all.entry) (R.raw r)) raws.entry) }
    ensures within { steps.new ≤ steps.old
        + length raws.entry * (1 + (length (bytes_of all.entry) + 3)) }
    ensures grows { steps.old ≤ steps.new }
    ensures at_least { IfOk result
        (λ v. after steps.old (length v.items + sum_by handle_reads (map handle_of v.items))
        ≤ steps.new) }
    ensures some { IfErr result (λ e. (e ≡ Error.OutOfMemory) × (0 < length raws.entry)) }
{
    read_items(&Handles, alloc, raws, all, endian, steps)
}

// Reads the handle of each descriptor of a list.
#[derive(Clone, Copy)]
struct Handles;

impl<'a, R: Descriptor> ReadEntry<'a, R> for Handles {
    ghost use Rattle.std.specs.Prelude.{◌+◌, Ok, Some};
    ghost use Rattle.minidump_records.specs.Handles.{Handle, handle_in, handle_of, handle_reads};

    type Item = MinidumpHandleDescriptor;

    ghost Value = { Handle };

    ghost value = { handle_of };

    ghost entry_value = { λ _ order file raw. Ok (Some (handle_in order file (R.raw raw))) };

    ghost most = { λ n. n + 3 };

    ghost fewest_of = { handle_reads };

    fn read_entry(
        &self,
        alloc: Global,
        entry: R,
        all: Source<'a>,
        endian: Endian,
        steps: &mut Steps,
    ) -> Result<Option<MinidumpHandleDescriptor>, Error> {
        let handle = read_handle(alloc, entry.raw(), all, endian, steps)?;
        Ok(Some(handle))
    }
}
