ghost use Rattle.std.specs.Prelude.{◌≡◌, ◌≤◌, ◌++◌, IfOk, IfSome, map, vec_items, vec_len};
ghost use Rattle.std.specs.Option.{option_map};
ghost use Rattle.whocrashed_inputs.specs.Input.{asked_in, asked_of, by_argument, by_list, within};

use std::alloc::{AllocError, Global};
use std::fs::File;
use std::io::Read;
use std::{io, str};

/// A dump that is asked for.
#[derive(Clone, Copy)]
pub enum Dump<'l> {
    /// The one on standard input.
    Input,
    /// The one in the file of a path.
    File(&'l str),
    /// A path that isn't UTF-8, in a list on standard input.
    Malformed(&'l [u8]),
}

/// Returns the dumps of the arguments, where `-` is standard input, and then those of a list of
/// paths, with NULs between them if it has any, else line feeds. Empty paths are left out.
pub fn dumps_in<'l>(
    alloc: Global,
    arguments: &[&'l str],
    list: &'l [u8],
) -> Result<Vec<Dump<'l>>, AllocError>
    ensures { IfOk result (λ dumps. map asked_of dumps.items
        ≡ map (λ a. by_argument a.now) arguments.now ++ asked_in list.now) }
{
    let separator = if list.contains(&0) { 0 } else { b'\n' };
    let paths = list
        .split(|byte| *byte == separator)
        .filter(|path| !path.is_empty());
    arguments
        .iter()
        .map(|path| by_argument(path))
        .chain(paths.map(|path| by_list(path)))
        .collect(alloc)
}

// Returns the dump of an argument.
fn by_argument(path: &str) -> Dump<'_>
    ensures { asked_of result ≡ by_argument path.now }
{
    if path == "-" {
        Dump::Input
    } else {
        Dump::File(path)
    }
}

// Returns the dump of a path in a list.
#[tactic(auto, using(crate::proofs::Utf8Lemmas::tells_utf8))]
fn by_list(path: &[u8]) -> Dump<'_>
    ensures { asked_of result ≡ by_list path.now }
{
    match str::from_utf8(path) {
        Ok(path) => Dump::File(path),
        Err(_) => Dump::Malformed(path),
    }
}

/// Reads dumps and the list of paths, or returns `None` if one has more bytes than may be read.
pub trait ReadDumps {
    ghost use Rattle.std.specs.Global.{Vec};
    ghost use Rattle.std.specs.Prelude.{ℕ, Option, Result};
    ghost use Rattle.std.specs.declared.io.Error.{Error};
    ghost use Rattle.whocrashed_inputs.specs.Input.{Asked, in_file, on_input};

    // what reading a dump may return
    ghost reads: { Self → Asked → Result (Option (Vec ℕ)) Error → Type 0 };

    /// Reads the dump in the file of a path.
    fn read_file(&self, path: &str) -> io::Result<Option<Vec<u8>>>
        ensures { reads self.now (in_file path.now) result };

    /// Reads the dump or the list on standard input.
    fn read_input(&self) -> io::Result<Option<Vec<u8>>>
        ensures { reads self.now on_input result };
}

/// The files of the system, and standard input.
#[derive(Clone, Copy)]
pub struct Files<'l> {
    pub rt: &'l HostRuntime,
    /// The most bytes of a dump, and of the list of paths.
    pub limit: usize,
}

impl ReadDumps for Files<'_> {
    ghost use Rattle.std.specs.Prelude.{◌≤◌, IfOk, IfSome, vec_len};

    // no more bytes than the limit; the contracts of files don't say which bytes a file has
    ghost reads = { λ files _ result. IfOk result
        (λ read. IfSome read (λ bytes. vec_len bytes ≤ files.limit)) };

    fn read_file(&self, path: &str) -> io::Result<Option<Vec<u8>>> {
        read_file(self.rt, path, self.limit)
    }

    fn read_input(&self) -> io::Result<Option<Vec<u8>>> {
        read_to_limit(self.rt.alloc(), self.rt.stdin(), self.limit)
    }
}

/// Reads a file, or returns `None` if it has more bytes than the limit.
pub(crate) fn read_file(rt: &HostRuntime, path: &str, limit: usize) -> io::Result<Option<Vec<u8>>>
    ensures { IfOk result (λ read. IfSome read (λ bytes. vec_len bytes ≤ limit)) }
{
    read_to_limit(rt.alloc(), File::open(rt, path)?, limit)
}

// Reads to the end, or returns `None` if there are more bytes than the limit.
fn read_to_limit<R: Read + Drop>(
    alloc: Global,
    input: R,
    limit: usize,
) -> io::Result<Option<Vec<u8>>>
    ensures whole { IfOk result (λ read. IfSome (R.remaining input)
        (λ bytes. option_map vec_items read ≡ within limit bytes)) }
    ensures bounded { IfOk result (λ read. IfSome read (λ bytes. vec_len bytes ≤ limit)) }
{
    let mut bytes = Vec::new(alloc);
    input
        .take((limit as u64).saturating_add(1))
        .read_to_end(&mut bytes)?;
    if bytes.len() > limit {
        Ok(None)
    } else {
        Ok(Some(bytes))
    }
}
