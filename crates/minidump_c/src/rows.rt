ghost use Rattle.std.specs.Prelude.{◌≡◌, ⊤, IfErr, IfOk, Ok};
ghost use Rattle.minidump.specs.Below.Format.Answer.{GivesError};
ghost use Rattle.crash.specs.Crash.{crash_of};
ghost use Rattle.minidump_c.specs.Status.{EndsNamed, IsNamed, IsNamedError};
ghost use Rattle.minidump_c.specs.Rows.{IsTold, buffers, rows_in, rows_of, rows_value};

use crate::frames::{FrameRow, frames_of};
use crate::numbers::{CrashRow, crash_row, registers_of, walk_of};
use crate::spans::make_rows;
use crate::status::CallError;
use crate::tables::{ModuleRow, RegisterRow, ThreadRow, UnloadedRow};
use crate::text::fill;
use crash::Crash;
use minidump::Error;
use minidump_names::NameTable;
use std::alloc::{AllocError, Global};

// A crash as numbers, tables and texts.
#[derive(Drop)]
struct Rows {
    crash: CrashRow,
    // those of the thread that crashed, and the candidates after them
    frames: Vec<FrameRow>,
    registers: Vec<RegisterRow>,
    threads: Vec<ThreadRow>,
    modules: Vec<ModuleRow>,
    unloaded: Vec<UnloadedRow>,
    texts: Vec<u8>,
}

/// Reads the crash of a minidump, with the names of codes that the text `names` lists and at most
/// `scan` candidates, and writes its numbers to `crash`. To the fronts of the other buffers go, as
/// far as they fit: the frames of the thread that crashed and the candidates after them, its
/// registers, the threads, the modules, the unloaded modules, and the texts in which their spans
/// lie.
#[unsafe(no_mangle)]
pub extern "C" fn minidump_crash(
    alloc: Global,
    bytes: &[u8],
    names: &[u8],
    scan: usize,
    crash: &mut CrashRow,
    frames: &mut [FrameRow],
    registers: &mut [RegisterRow],
    threads: &mut [ThreadRow],
    modules: &mut [ModuleRow],
    unloaded: &mut [UnloadedRow],
    texts: &mut [u8],
    line: &mut u64,
) -> u32
    ensures { let old = buffers crash.old frames.old registers.old threads.old modules.old
        unloaded.old texts.old in
        let new = buffers crash.new frames.new registers.new threads.new modules.new
        unloaded.new texts.new in
        EndsNamed result names.now line.old line.new
        (λ lists. IsTold (rows_in bytes.now scan lists) old new)
        (λ lists e. GivesError ⊤ e (rows_in bytes.now scan lists)) (new ≡ old) }
{
    match named_rows(alloc, bytes, names, scan) {
        Ok(rows) => {
            *crash = rows.crash;
            fill(rows.frames.as_slice(), frames);
            fill(rows.registers.as_slice(), registers);
            fill(rows.threads.as_slice(), threads);
            fill(rows.modules.as_slice(), modules);
            fill(rows.unloaded.as_slice(), unloaded);
            fill(rows.texts.as_slice(), texts);
            0
        }
        Err(error) => error.tell(line),
    }
}

// Reads a crash with the names of a text.
fn named_rows(alloc: Global, bytes: &[u8], names: &[u8], scan: usize) -> Result<Rows, CallError>
    ensures rows { IfOk result (λ rows. IsNamed names.now
        (λ lists rows. rows_in bytes.now scan lists ≡ Ok rows) (rows_value rows)) }
    ensures error { IfErr result (IsNamedError names.now
        (λ lists e. GivesError ⊤ e (rows_in bytes.now scan lists))) }
{
    let table = NameTable::read(alloc, names)?;
    let lists = table.lists(alloc)?;
    let crash = Crash::read(alloc, bytes, &lists.code_names(), scan)?;
    let rows = rows_of(alloc, &crash);
    crash.close();
    // (want of memory is told as the dump's error here, and not as that of the names)
    Ok(rows.map_err(Error::from)?)
}

// Makes the rows of a crash.
fn rows_of(alloc: Global, crash: &Crash<'_>) -> Result<Rows, AllocError>
    ensures { IfOk result (λ rows. rows_value rows ≡ rows_of (crash_of crash.now)) }
{
    let frames = frames_of(alloc, walk_of(crash))?;
    let mut texts = Vec::new(alloc);
    let mut row = crash_row(crash, frames.len(), &mut texts)?;
    let registers = make_rows(alloc, registers_of(crash), &mut texts)?;
    let threads = make_rows(alloc, crash.threads.threads.as_slice(), &mut texts)?;
    let modules = make_rows(alloc, crash.modules.loaded.as_slice(), &mut texts)?;
    let unloaded = make_rows(alloc, crash.modules.unloaded.as_slice(), &mut texts)?;
    row.texts_len = texts.len();
    Ok(Rows {
        crash: row,
        frames,
        registers,
        threads,
        modules,
        unloaded,
        texts,
    })
}
