ghost use Rattle.std.specs.Prelude.{◌≡◌, ⊤, IfOk, IsOkUnless};
ghost use Rattle.std.specs.Option.{option_map};
ghost use Rattle.minidump.specs.Below.Contexts.Context.{map_ok};
ghost use Rattle.minidump.specs.Below.Format.Answer.{Gives};
ghost use Rattle.minidump.specs.Dump.{dump_in};
ghost use Rattle.minidump.specs.DumpValue.{dump_of};
ghost use Rattle.crash_streams.specs.Contents.{contents_in};
ghost use Rattle.crash.specs.Crash.{crash_by, crash_in, crash_of, status_of, walked_in};
ghost use Rattle.crash_threads.specs.Frames.{walked_of};

use crate::damage::{Damage, damage_of};
use crash_process::{
    CrashDirectory, CrashModules, CrashProcess, directory_of, modules_of, process_of,
};
use crash_streams::{Contents, read_contents};
use crash_threads::{
    CrashCause, CrashPoint, CrashThreads, cause_of, point_of, threads_of, walked_at,
};
use minidump::{CodeNames, Error, Minidump, MinidumpContext};
use stack_walk::Stack;
use std::alloc::Global;

/// What a minidump says of a crash.
#[derive(Drop)]
pub struct Crash<'a> {
    /// The streams.
    pub contents: Contents<'a>,
    /// What the header and the directory say.
    pub directory: CrashDirectory,
    /// What is known of the process, and of the system on which it ran.
    pub process: CrashProcess,
    /// Where and why it crashed.
    pub cause: CrashCause,
    /// Its threads.
    pub threads: CrashThreads,
    /// Where the thread that crashed stands, or `None` if it has no walk.
    pub point: Option<CrashPoint<'a>>,
    /// Its modules.
    pub modules: CrashModules,
    /// What is there and can't be read: streams, ascending by type, then what is told by its number
    /// (entries of the directory, regions of memory, modules, texts and records), exceptions, their
    /// parameters, their contexts, own contexts of threads, and stacks, each in the order of its
    /// list.
    pub damage: Vec<Damage>,
}

impl<'a> Crash<'a> {
    /// Reads the crash of a minidump, whose bytes are `bytes`. The names of codes are those of
    /// `names`. At most `scan` words of each stack are taken for candidates.
    ///
    /// Returns the error of [`Minidump::read`], else `OutOfMemory` if an allocation fails.
    pub fn read(
        alloc: Global,
        bytes: &'a [u8],
        names: &CodeNames<'_>,
        scan: usize,
    ) -> Result<Crash<'a>, Error>
        ensures { Gives crash_of ⊤ result (crash_in bytes.now names.now scan) }
    {
        let dump = Minidump::read(alloc, bytes)?;
        crash_of_dump(alloc, &dump, names, scan)
    }

    /// Returns the stack and the context by which the thread of an index in `threads.threads` is
    /// walked, or `None` if it has no walk, or there is no such thread. The walk of the thread is
    /// that of [`walk_stack`](stack_walk::walk_stack) by both, with the module of each frame.
    pub fn walked(&self, thread: usize) -> Option<(Stack<'_, 'a>, MinidumpContext)>
        ensures { option_map walked_of result ≡ walked_in (crash_of self.now) thread }
    {
        walked_at(
            &self.contents,
            self.threads.code_bits,
            self.cause.counts,
            thread,
        )
    }

    /// Drops the crash. By this call a caller's crate need not prove how it is dropped.
    pub fn close(self) {}
}

/// Returns the status with which a dump ends a program: 0, or 1 if `crash` is an error, or if
/// something of the dump is there and can't be read.
pub fn status_of(crash: &Result<Crash<'_>, Error>) -> u8
    ensures { result ≡ status_of (map_ok crash_of crash.now) }
{
    match crash {
        Ok(crash) if crash.damage.is_empty() => 0,
        _ => 1,
    }
}

// Reads the crash of a dump.
fn crash_of_dump<'a>(
    alloc: Global,
    dump: &Minidump<'a>,
    names: &CodeNames<'_>,
    scan: usize,
) -> Result<Crash<'a>, Error>
    ensures crash { IfOk result (λ c. crash_of c
        ≡ crash_by names.now scan (dump_of dump.now) (contents_in (dump_of dump.now))) }
    ensures memory { IsOkUnless result Error.OutOfMemory }
{
    let contents = read_contents(alloc, dump)?;
    let directory = directory_of(alloc, dump, &contents)?;
    let process = process_of(alloc, dump, &contents)?;
    let cause = cause_of(alloc, &contents, names)?;
    let threads = threads_of(alloc, &contents, names, scan)?;
    let point = point_of(
        alloc,
        &contents,
        threads.code_bits,
        cause.counts,
        threads.crashing,
    )?;
    let modules = modules_of(alloc, dump, &contents)?;
    let damage = damage_of(alloc, &contents, &directory, &process, &cause, &threads)?;
    Ok(Crash {
        contents,
        directory,
        process,
        cause,
        threads,
        point,
        modules,
        damage,
    })
}
