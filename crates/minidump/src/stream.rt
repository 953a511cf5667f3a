ghost use Rattle.std.specs.Prelude.{◌≡◌, ◌≢◌, ◌+◌, ◌<◌, ◌≤◌, length, IfErr, IfOk, IfSome, OnOk, OnSome};
ghost use Rattle.minidump_bytes.specs.Steps.{after};
ghost use Rattle.minidump_format.specs.Answer.{Gives};
ghost use Rattle.minidump.specs.Dump.{IsFoundStream, IsStreamOf, IsTriedStream, dump_system, raw_stream};
ghost use Rattle.minidump.specs.DumpValue.{dump_of};

use crate::Minidump;
use crate::directory::raw_stream;
use minidump_bytes::{Source, Steps};
use minidump_format::Error;
use minidump_system::MinidumpStream;
use std::alloc::Global;

impl<'a> Minidump<'a> {
    /// Returns the bytes of the stream with the type `stream_type`, as they lie in the file.
    /// Returns `StreamNotFound` if the directory has no entry of the type, `StreamReadFailure` if
    /// the last such entry has a location that is not in the file. Takes no memory.
    pub fn get_raw_stream(&self, stream_type: u32) -> Result<&'a [u8], Error>
        ensures { Gives (λ b. b.now) ⊥ result (raw_stream stream_type (dump_of self.now)) }
    {
        raw_stream(
            self.entries.as_slice(),
            stream_type,
            self.source,
            &mut Steps::new(),
        )
    }

    /// Reads the stream of the type `S`, and hands it the dump's system information. Returns
    /// `StreamNotFound` and `StreamReadFailure` as [`Minidump::get_raw_stream`] does, else the
    /// errors of the type. A directory without entries takes no memory.
    pub fn get_stream<S: MinidumpStream<'a>>(&self, alloc: Global) -> Result<S, Error>
        ensures means { IsStreamOf S.spec (dump_of self.now) result }
        ensures entry { OnOk result (0 < (dump_of self.now).header.stream_count) }
        ensures memory { IfErr result
            (λ e. e ≡ Error.OutOfMemory → 0 < (dump_of self.now).header.stream_count) }
    {
        self.get_stream_counted(alloc, &mut Steps::new())
    }

    /// Reads as [`Minidump::get_stream`] does, and counts the reads: at most one more than the type
    /// takes, none if the directory has no entry of the type.
    pub fn get_stream_counted<S: MinidumpStream<'a>>(
        &self,
        alloc: Global,
        steps: &mut Steps,
    ) -> Result<S, Error>
        ensures means { IsStreamOf S.spec (dump_of self.now) result }
        ensures entry { OnOk result (0 < (dump_of self.now).header.stream_count) }
        ensures memory { IfErr result
            (λ e. e ≡ Error.OutOfMemory → 0 < (dump_of self.now).header.stream_count) }
        ensures within { steps.new ≤ steps.old + S.spec.most (length (dump_of self.now).file) + 1 }
        ensures grows { steps.old ≤ steps.new }
        ensures counted { raw_stream S.spec.stream_type (dump_of self.now)
            ≢ Err Error.StreamNotFound
            → after steps.old 1 ≤ steps.new }
        ensures absent { raw_stream S.spec.stream_type (dump_of self.now) ≡ Err Error.StreamNotFound
            → steps.new ≡ steps.old }
        ensures at_least { IfOk result (λ x. IfOk (raw_stream S.spec.stream_type (dump_of self.now))
            (λ b. after steps.old (1 + S.spec.fewest (dump_of self.now).order b
            (dump_system (dump_of self.now)) (S.spec.value x)) ≤ steps.new)) }
    {
        let entries = self.entries.as_slice();
        let bytes = raw_stream(entries, S::number_of_type(), self.source, steps)?;
        S::read(
            alloc,
            Source::new(bytes),
            self.source,
            self.endian,
            self.system_info(),
            steps,
        )
    }

    /// Reads the stream of the type `S`. The inner result is that of [`Minidump::get_stream`], but
    /// for [`Error::OutOfMemory`], which is the only outer error. A directory without entries takes
    /// no memory.
    pub fn try_stream<S: MinidumpStream<'a>>(
        &self,
        alloc: Global,
    ) -> Result<Result<S, Error>, Error>
        ensures means { IsTriedStream S.spec (dump_of self.now) result }
        ensures entry { IfOk result
            (λ tried. OnOk tried (0 < (dump_of self.now).header.stream_count)) }
        ensures memory { IfErr result
            (λ e. (e ≡ Error.OutOfMemory) × (0 < (dump_of self.now).header.stream_count)) }
    {
        self.try_stream_counted(alloc, &mut Steps::new())
    }

    /// Reads as [`Minidump::try_stream`] does, and counts the reads, within the limit of
    /// [`Minidump::get_stream_counted`].
    pub fn try_stream_counted<S: MinidumpStream<'a>>(
        &self,
        alloc: Global,
        steps: &mut Steps,
    ) -> Result<Result<S, Error>, Error>
        ensures means { IsTriedStream S.spec (dump_of self.now) result }
        ensures entry { IfOk result
            (λ tried. OnOk tried (0 < (dump_of self.now).header.stream_count)) }
        ensures memory { IfErr result
            (λ e. (e ≡ Error.OutOfMemory) × (0 < (dump_of self.now).header.stream_count)) }
        ensures within { steps.new ≤ steps.old + S.spec.most (length (dump_of self.now).file) + 1 }
        ensures grows { steps.old ≤ steps.new }
        ensures counted { raw_stream S.spec.stream_type (dump_of self.now)
            ≢ Err Error.StreamNotFound
            → after steps.old 1 ≤ steps.new }
        ensures absent { raw_stream S.spec.stream_type (dump_of self.now) ≡ Err Error.StreamNotFound
            → steps.new ≡ steps.old }
        ensures at_least { IfOk result (λ tried. IfOk tried
            (λ x. IfOk (raw_stream S.spec.stream_type (dump_of self.now))
            (λ b. after steps.old (1 + S.spec.fewest (dump_of self.now).order b
            (dump_system (dump_of self.now)) (S.spec.value x)) ≤ steps.new))) }
    {
        match self.get_stream_counted(alloc, steps) {
            Ok(stream) => Ok(Ok(stream)),
            Err(Error::OutOfMemory) => Err(Error::OutOfMemory),
            Err(error) => Ok(Err(error)),
        }
    }

    /// Reads the stream of the type `S`, or returns `None` if it is missing or malformed. The only
    /// error is [`Error::OutOfMemory`]. A directory without entries takes no memory.
    pub fn find_stream<S: MinidumpStream<'a>>(&self, alloc: Global) -> Result<Option<S>, Error>
        ensures means { IsFoundStream S.spec (dump_of self.now) result }
        ensures entry { IfOk result
            (λ found. OnSome found (0 < (dump_of self.now).header.stream_count)) }
        ensures memory { IfErr result
            (λ e. (e ≡ Error.OutOfMemory) × (0 < (dump_of self.now).header.stream_count)) }
    {
        self.find_stream_counted(alloc, &mut Steps::new())
    }

    /// Reads as [`Minidump::find_stream`] does, and counts the reads, within the limit of
    /// [`Minidump::get_stream_counted`].
    pub fn find_stream_counted<S: MinidumpStream<'a>>(
        &self,
        alloc: Global,
        steps: &mut Steps,
    ) -> Result<Option<S>, Error>
        ensures means { IsFoundStream S.spec (dump_of self.now) result }
        ensures entry { IfOk result
            (λ found. OnSome found (0 < (dump_of self.now).header.stream_count)) }
        ensures memory { IfErr result
            (λ e. (e ≡ Error.OutOfMemory) × (0 < (dump_of self.now).header.stream_count)) }
        ensures within { steps.new ≤ steps.old + S.spec.most (length (dump_of self.now).file) + 1 }
        ensures grows { steps.old ≤ steps.new }
        ensures counted { raw_stream S.spec.stream_type (dump_of self.now)
            ≢ Err Error.StreamNotFound
            → after steps.old 1 ≤ steps.new }
        ensures absent { raw_stream S.spec.stream_type (dump_of self.now) ≡ Err Error.StreamNotFound
            → steps.new ≡ steps.old }
        ensures at_least { IfOk result (λ found. IfSome found
            (λ x. IfOk (raw_stream S.spec.stream_type (dump_of self.now))
            (λ b. after steps.old (1 + S.spec.fewest (dump_of self.now).order b
            (dump_system (dump_of self.now)) (S.spec.value x)) ≤ steps.new))) }
    {
        match self.try_stream_counted(alloc, steps)? {
            Ok(stream) => Ok(Some(stream)),
            Err(_) => Ok(None),
        }
    }
}
