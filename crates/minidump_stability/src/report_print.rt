ghost use Rattle.std.specs.Prelude.{◌≡◌, ◌++◌, OnOk};
ghost use Rattle.minidump_format.specs.Print.{Prints};
ghost use Rattle.minidump_format.specs.Text.{if_there};
ghost use Rattle.minidump_stability.specs.ReportText.{file_system_state_text, memory_state_text, number_line};
ghost use Rattle.minidump_stability.specs.ReportText.{posix_file_system_state_text, process_id_line};
ghost use Rattle.minidump_stability.specs.ReportText.{process_state_text, process_states_text};
ghost use Rattle.minidump_stability.specs.ReportText.{stability_report_text, state_line, system_memory_state_text};
ghost use Rattle.minidump_stability.specs.ReportText.{system_windows_memory_text, windows_file_system_state_text};
ghost use Rattle.minidump_stability.specs.ReportText.{windows_memory_text};
ghost use Rattle.minidump_stability.specs.StabilityReport.{stability_report_of};

use crate::process_state::file_system_state::{PosixFileSystemState, WindowsFileSystemState};
use crate::process_state::memory_state::WindowsMemory;
use crate::process_state::{FileSystemState, MemoryState};
use crate::{ProcessState, StabilityReport, SystemMemoryState, system_memory_state};
use minidump_bytes::{Piece, Told, push_pieces};
use minidump_format::{Error, Pushed, print_all, print_item, put_text};
use std::alloc::{AllocError, Global};
use std::io::Write;

impl StabilityReport {
    /// Prints a line for each number that the report has.
    pub fn print<W: Write>(&self, alloc: Global, f: &mut Told<W>) -> Result<(), Error>
        ensures { Prints W.contents f.old f.new
            (stability_report_text (stability_report_of self.now)) result }
    {
        put_text(f, "StabilityReport\n")?;
        print_process_states(self.process_states.as_slice(), alloc, f)?;
        let memory = self.system_memory_state;
        print_item(&SystemText { memory }, alloc, f)
    }
}

fn print_process_states<W: Write>(
    states: &[ProcessState],
    alloc: Global,
    f: &mut Told<W>,
) -> Result<(), Error>
    ensures { Prints W.contents f.old f.new (process_states_text states.now) result }
{
    let states = states.iter().enumerate();
    let texts = states.map(|(index, state)| StateText { index, state });
    print_all(texts, alloc, f)
}

// The lines of the state of a process.
#[derive(Clone, Copy)]
struct StateText<'a> {
    index: usize,
    state: &'a ProcessState,
}

impl<'a> Pushed for StateText<'a> {
    ghost text = { λ s. process_state_text s.index s.state.now };

    fn push(&self, out: &mut Vec<u8>) -> Result<(), AllocError> {
        push_process_id(out, self.index, self.state.process_id)?;
        push_memory(out, self.index, &self.state.memory_state)?;
        push_files(out, &self.state.file_system_state)
    }
}

// The lines of the memory of the system, if it is there.
#[derive(Clone, Copy)]
struct SystemText {
    memory: Option<SystemMemoryState>,
}

impl Pushed for SystemText {
    ghost text = { λ s. if_there system_memory_state_text s.memory };

    fn push(&self, out: &mut Vec<u8>) -> Result<(), AllocError> {
        match &self.memory {
            Some(memory) => push_system_memory(out, memory),
            None => Ok(()),
        }
    }
}

fn push_memory(
    out: &mut Vec<u8>,
    index: usize,
    memory: &Option<MemoryState>,
) -> Result<(), AllocError>
    ensures { OnOk result (out.new.items ≡ out.old.items
        ++ if_there (memory_state_text index) memory.now) }
{
    match memory {
        Some(
            MemoryState {
                windows_memory: Some(windows),
            },
        ) => push_windows_memory(out, index, windows),
        _ => Ok(()),
    }
}

#[rattlefmt::skip]
fn push_windows_memory(out: &mut Vec<u8>, index: usize, memory: &WindowsMemory) -> Result<(), AllocError>
    ensures { OnOk result (out.new.items ≡ out.old.items ++ windows_memory_text index memory.now) }
{
    push_state_line(out, index, "memory_state.process_private_usage", memory.process_private_usage)?;
    push_state_line(out, index, "memory_state.process_peak_workingset_size", memory.process_peak_workingset_size)?;
    push_state_line(out, index, "memory_state.process_peak_pagefile_usage", memory.process_peak_pagefile_usage)?;
    push_state_line(out, index, "memory_state.process_allocation_attempt", memory.process_allocation_attempt)
}

fn push_files(out: &mut Vec<u8>, files: &Option<FileSystemState>) -> Result<(), AllocError>
    ensures { OnOk result (out.new.items ≡ out.old.items
        ++ if_there file_system_state_text files.now) }
{
    match files {
        Some(files) => {
            push_posix_files(out, &files.posix_file_system_state)?;
            push_windows_files(out, &files.windows_file_system_state)
        }
        None => Ok(()),
    }
}

fn push_posix_files(
    out: &mut Vec<u8>,
    files: &Option<PosixFileSystemState>,
) -> Result<(), AllocError>
    ensures { OnOk result (out.new.items ≡ out.old.items
        ++ if_there posix_file_system_state_text files.now) }
{
    match files {
        Some(files) => push_line(
            out,
            "file_system_state.posix_file_system_state.open_file_descriptors",
            files.open_file_descriptors,
        ),
        None => Ok(()),
    }
}

fn push_windows_files(
    out: &mut Vec<u8>,
    files: &Option<WindowsFileSystemState>,
) -> Result<(), AllocError>
    ensures { OnOk result (out.new.items ≡ out.old.items
        ++ if_there windows_file_system_state_text files.now) }
{
    match files {
        Some(files) => push_line(
            out,
            "file_system_state.windows_file_system_state.process_handle_count",
            files.process_handle_count,
        ),
        None => Ok(()),
    }
}

fn push_system_memory(out: &mut Vec<u8>, memory: &SystemMemoryState) -> Result<(), AllocError>
    ensures { OnOk result (out.new.items ≡ out.old.items ++ system_memory_state_text memory.now) }
{
    match &memory.windows_memory {
        Some(windows) => push_system_windows_memory(out, windows),
        None => Ok(()),
    }
}

#[rattlefmt::skip]
fn push_system_windows_memory(
    out: &mut Vec<u8>,
    memory: &system_memory_state::WindowsMemory,
) -> Result<(), AllocError>
    ensures { OnOk result (out.new.items ≡ out.old.items ++ system_windows_memory_text memory.now) }
{
    push_line(out, "system_memory_state.windows_memory.system_commit_limit", memory.system_commit_limit)?;
    push_line(out, "system_memory_state.windows_memory.system_commit_remaining", memory.system_commit_remaining)?;
    push_line(out, "system_memory_state.windows_memory.system_handle_count", memory.system_handle_count)
}

// Appends the line of a number if it is there.
#[rattlefmt::skip]
#[tactic(auto, unfolding(crate::specs::ReportText::number_line))]
fn push_line(out: &mut Vec<u8>, name: &str, number: Option<u32>) -> Result<(), AllocError>
    ensures { OnOk result (out.new.items ≡ out.old.items
        ++ if_there (number_line name.now) number) }
{
    match number {
        Some(n) => push_pieces(out, &[
            Piece::Words("  "), Piece::Words(name), Piece::Words(" = "), Piece::Decimal(n as u64), Piece::Words("\n"),
        ]),
        None => Ok(()),
    }
}

// Appends the line of a number of the process with an index if it is there.
#[rattlefmt::skip]
#[tactic(auto, unfolding(crate::specs::ReportText::state_line))]
fn push_state_line(
    out: &mut Vec<u8>,
    index: usize,
    name: &str,
    number: Option<u32>,
) -> Result<(), AllocError>
    ensures { OnOk result (out.new.items ≡ out.old.items
        ++ if_there (state_line index name.now) number) }
{
    match number {
        Some(n) => push_pieces(out, &[
            Piece::Words("  process_state["), Piece::Decimal(index as u64), Piece::Words("]."), Piece::Words(name), Piece::Words(" = "), Piece::Decimal(n as u64), Piece::Words("\n"),
        ]),
        None => Ok(()),
    }
}

// Appends the line of the id of the process with an index if it is there.
fn push_process_id(out: &mut Vec<u8>, index: usize, id: Option<i64>) -> Result<(), AllocError>
    ensures { OnOk result (out.new.items ≡ out.old.items ++ if_there (process_id_line index) id) }
{
    match id {
        Some(id) => push_id_line(out, index, id),
        None => Ok(()),
    }
}

#[rattlefmt::skip]
#[tactic(auto, unfolding(crate::specs::ReportText::process_id_line))]
fn push_id_line(out: &mut Vec<u8>, index: usize, id: i64) -> Result<(), AllocError>
    ensures { OnOk result (out.new.items ≡ out.old.items ++ process_id_line index id) }
{
    push_pieces(out, &[
        Piece::Words("  process_state["), Piece::Decimal(index as u64), Piece::Words("].process_id = "), Piece::Signed(id), Piece::Words("\n"),
    ])
}
