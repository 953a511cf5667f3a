ghost use Rattle.std.specs.Prelude.{◌≡◌, [], IfOk, map};
ghost use Rattle.std.specs.Option.{option_copied, option_map, option_map_or};
ghost use Rattle.crash_threads.specs.Frames.{crash_walk_of};
ghost use Rattle.minidump_c.specs.Frames.{end_number, frame_row, frame_rows, trust_number};

use crate::spans::flag;
use crash::{CrashFrame, CrashWalk};
use stack_walk::{FrameTrust, WalkEnd};
use std::alloc::{AllocError, Global};

/// A frame of a stack. A number that is absent is 0.
#[repr(C)]
#[derive(Clone, Copy)]
pub struct FrameRow {
    /// The address by which it is looked up: of the context the instruction pointer; of a caller or
    /// a candidate the address below its return address, which lies in the call. On ARM of 32 bits
    /// bit 0 of the return address is cleared first. If no address lies below, this is the return
    /// address.
    pub address: u64,
    /// The instruction pointer of the context, or else the return address of the frame before.
    pub instruction: u64,
    /// The stack pointer: of a caller or a candidate, the address after its return address, and of the
    /// link register's candidate that of the context.
    pub stack_pointer: u64,
    /// The frame pointer.
    pub frame_pointer: u64,
    /// The index of the module that contains the address.
    pub module: usize,
    /// The offset of the address in that module.
    pub module_offset: u64,
    /// How the frame was found, as a number.
    pub trust: u32,
    /// 1 if the frame pointer is known, else 0.
    pub has_frame_pointer: u16,
    /// 1 if there is a module, else 0.
    pub has_module: u16,
}

// Returns the rows of the frames of a walk, and then those of its candidates; none without a walk.
pub(crate) fn frames_of(
    alloc: Global,
    walk: Option<&CrashWalk>,
) -> Result<Vec<FrameRow>, AllocError>
    ensures { IfOk result (λ rows. rows.items
        ≡ option_map_or frame_rows (option_map crash_walk_of (option_copied walk.entry)) []) }
{
    let Some(walk) = walk else {
        return Ok(Vec::new(alloc));
    };
    let mut frames = rows(alloc, walk.frames.as_slice())?;
    let candidates = rows(alloc, walk.candidates.as_slice())?;
    frames.extend_from_slice(candidates.as_slice())?;
    Ok(frames)
}

fn rows(alloc: Global, frames: &[CrashFrame]) -> Result<Vec<FrameRow>, AllocError>
    ensures { IfOk result (λ rows. rows.items ≡ map frame_row frames.now) }
{
    frames.iter().map(|frame| frame_row(frame)).collect(alloc)
}

fn frame_row(frame: &CrashFrame) -> FrameRow
    ensures { result ≡ frame_row frame.now }
{
    let (module, module_offset) = frame.module.unwrap_or((0, 0));
    FrameRow {
        address: frame.address.unwrap_or(frame.instruction),
        instruction: frame.instruction,
        stack_pointer: frame.stack_pointer,
        frame_pointer: frame.frame_pointer.unwrap_or(0),
        module,
        module_offset,
        trust: trust_number(frame.trust),
        has_frame_pointer: flag(&frame.frame_pointer) as u16,
        has_module: flag(&frame.module) as u16,
    }
}

// Returns the number of what a frame is known by.
fn trust_number(trust: FrameTrust) -> u32
    ensures { result ≡ trust_number trust }
{
    match trust {
        FrameTrust::Context => 1,
        FrameTrust::FramePointer => 2,
        FrameTrust::Scan => 3,
        FrameTrust::Cfi => 4,
        FrameTrust::Link => 5,
    }
}

// Returns the number of why the last frame has no caller.
pub(crate) fn end_number(end: WalkEnd) -> u8
    ensures { result ≡ end_number end }
{
    match end {
        WalkEnd::NoMemory => 1,
        WalkEnd::UnknownWidth => 2,
        WalkEnd::NoFramePointer => 3,
        WalkEnd::ZeroFramePointer => 4,
        WalkEnd::BelowStackPointer => 5,
        WalkEnd::NoRecord => 6,
        WalkEnd::NoCode => 7,
        WalkEnd::NoReturnRule => 8,
        WalkEnd::ZeroReturnAddress => 9,
    }
}
