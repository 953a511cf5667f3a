ghost use Rattle.std.specs.Prelude.{◌≡◌, ◌<◌, IfOk, IsOkUnless, OnErr, length};
ghost use Rattle.minidump_bytes.specs.Source.{bytes_of};
ghost use Rattle.minidump_bytes.specs.Steps.{after};
ghost use Rattle.minidump_bytes.specs.Text16.{TakesMemory16};
ghost use Rattle.minidump_format.specs.Answer.{Gives};
ghost use Rattle.minidump_modules.specs.UnloadedModule.{new_unloaded, read_unloaded, unloaded_of};
ghost use Rattle.minidump_modules.specs.UnloadedModule.{range_of_unloaded_struct};

use crate::text::copy_text;
use crate::{CodeId, DebugId, Module};
use minidump_bytes::{Endian, Source, Steps};
use minidump_format::Error;
use minidump_format::format::MINIDUMP_UNLOADED_MODULE;
use minidump_index::{Range, Region};
use std::alloc::Global;

/// A module that was unloaded before the dump was written.
#[derive(Drop)]
pub struct MinidumpUnloadedModule {
    /// The entry in the stream.
    pub raw: MINIDUMP_UNLOADED_MODULE,
    /// The name of its file.
    pub name: String,
}

impl MinidumpUnloadedModule {
    /// Makes a module of a base address, a size and a name, with nothing else. The only error is
    /// [`Error::OutOfMemory`], which comes only if the name isn't empty.
    pub fn new(
        alloc: Global,
        base: u64,
        size: u32,
        name: &str,
    ) -> Result<MinidumpUnloadedModule, Error>
        ensures value { IfOk result (λ m. unloaded_of m ≡ new_unloaded base size name.now) }
        ensures memory { IsOkUnless result Error.OutOfMemory }
        ensures some { OnErr result (0 < length name.now) }
    {
        Ok(MinidumpUnloadedModule {
            raw: MINIDUMP_UNLOADED_MODULE {
                base_of_image: base,
                size_of_image: size,
                checksum: 0,
                time_date_stamp: 0,
                module_name_rva: 0,
            },
            name: copy_text(alloc, name)?,
        })
    }

    /// Reads the name of an entry from the bytes of the file. Returns `DataError` if it is
    /// malformed, `OutOfMemory` if an allocation fails.
    pub fn read(
        alloc: Global,
        raw: MINIDUMP_UNLOADED_MODULE,
        bytes: &[u8],
        endian: Endian,
    ) -> Result<MinidumpUnloadedModule, Error>
        ensures { Gives unloaded_of (TakesMemory16 endian raw.module_name_rva bytes.now) result
            (read_unloaded endian bytes.now raw) }
    {
        MinidumpUnloadedModule::read_counted(
            alloc,
            &raw,
            Source::new(bytes),
            endian,
            &mut Steps::new(),
        )
    }

    // Reads as `read` does, and counts one read.
    #[tactic(auto, unfolding(crate::specs::UnloadedModule::read_unloaded))]
    pub(crate) fn read_counted(
        alloc: Global,
        raw: &MINIDUMP_UNLOADED_MODULE,
        all: Source<'_>,
        endian: Endian,
        steps: &mut Steps,
    ) -> Result<MinidumpUnloadedModule, Error>
        ensures means { Gives unloaded_of
            (TakesMemory16 endian raw.now.module_name_rva (bytes_of all.entry)) result
            (read_unloaded endian (bytes_of all.entry) raw.now) }
        ensures step { steps.new ≡ after steps.old 1 }
    {
        match all.text16(alloc, raw.module_name_rva as u64, endian, steps)? {
            Some(name) => Ok(MinidumpUnloadedModule { raw: *raw, name }),
            None => Err(Error::DataError),
        }
    }

    /// Copies the module. The only error is [`Error::OutOfMemory`], which comes only if its name
    /// isn't empty.
    pub fn try_clone(&self, alloc: Global) -> Result<MinidumpUnloadedModule, Error>
        ensures same { IfOk result (λ m. unloaded_of m ≡ unloaded_of self.now) }
        ensures memory { IsOkUnless result Error.OutOfMemory }
        ensures some { OnErr result (0 < length (unloaded_of self.now).name) }
    {
        Ok(MinidumpUnloadedModule {
            raw: self.raw,
            name: copy_text(alloc, self.name.as_str())?,
        })
    }
}

impl Module for MinidumpUnloadedModule {
    ghost use Rattle.minidump_modules.specs.UnloadedModule.{unloaded_identity};

    ghost identity = { unloaded_identity };

    fn base_address(&self) -> u64 {
        self.raw.base_of_image
    }

    fn size(&self) -> u64 {
        self.raw.size_of_image as u64
    }

    fn code_file(&self) -> &str {
        self.name.as_str()
    }

    fn code_identifier(&self, alloc: Global) -> Result<Option<CodeId>, Error> {
        let id = CodeId::from_stamp(alloc, self.raw.time_date_stamp, self.raw.size_of_image)?;
        Ok(Some(id))
    }

    fn debug_file(&self, _alloc: Global) -> Result<Option<String>, Error> {
        Ok(None)
    }

    fn debug_identifier(&self) -> Option<DebugId> {
        None
    }

    fn version(&self, _alloc: Global) -> Result<Option<String>, Error> {
        Ok(None)
    }
}

impl Region for MinidumpUnloadedModule {
    ghost range = { range_of_unloaded_struct };

    fn memory_range(&self) -> Option<Range> {
        Range::from_size(self.raw.base_of_image, self.raw.size_of_image as u64)
    }
}
