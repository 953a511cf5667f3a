ghost use Rattle.std.specs.Prelude.{◌≡◌, ◌<◌, IfErr, IfOk, map};
ghost use Rattle.minidump_context.specs.Context.{map_ok};
ghost use Rattle.minidump.specs.DumpValue.{dump_of};
ghost use Rattle.minidump.specs.Exception.{exception_stream};
ghost use Rattle.minidump.specs.Exceptions.{exception_of_entry, exceptions_in};

use crate::{Minidump, MinidumpException};
use minidump_bytes::{Source, Steps};
use minidump_format::Error;
use minidump_format::format::MINIDUMP_DIRECTORY;
use minidump_system::MinidumpStream;
use std::alloc::Global;

impl<'a> Minidump<'a> {
    /// Reads the exceptions of all entries of the directory that have their type, in the order of
    /// the directory: each the exception, or the error for which it can't be read. The last is the
    /// one that [`Minidump::get_stream`] reads.
    ///
    /// Reads the directory anew, one read for each entry. The outer error is [`Error::OutOfMemory`]
    /// alone. A directory without entries takes no memory.
    pub fn exceptions(
        &self,
        alloc: Global,
    ) -> Result<Vec<Result<MinidumpException<'a>, Error>>, Error>
        ensures means { IfOk result (λ v. map (map_ok exception_stream.value) v.items
            ≡ exceptions_in (dump_of self.now)) }
        ensures memory { IfErr result
            (λ e. (e ≡ Error.OutOfMemory) × (0 < (dump_of self.now).header.stream_count)) }
    {
        let entries = self.all_entries();
        let mut exceptions = Vec::new(alloc);
        for index in 0..entries.len() {
            let entry = entries.read(index, &mut Steps::new());
            if entry.stream_type == MinidumpException::STREAM_TYPE {
                exceptions.push(self.exception_of_entry(alloc, &entry))?;
            }
        }
        Ok(exceptions)
    }

    // Reads the exception of an entry of the directory, whether it decides or not.
    fn exception_of_entry(
        &self,
        alloc: Global,
        entry: &MINIDUMP_DIRECTORY,
    ) -> Result<MinidumpException<'a>, Error>
        ensures { map_ok exception_stream.value result
            ≡ exception_of_entry (dump_of self.now) entry.now }
    {
        let mut steps = Steps::new();
        let bytes = entry
            .location
            .bytes_in(self.source, &mut steps)
            .ok_or(Error::StreamReadFailure)?;
        MinidumpException::read(
            alloc,
            Source::new(bytes),
            self.source,
            self.endian,
            self.system_info(),
            &mut steps,
        )
    }
}
