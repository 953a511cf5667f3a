//! The frames of threads.

use crate::world::{World, stream};
use minidump::{
    Error, MinidumpException, MinidumpThreadList, UnifiedMemoryInfoList, UnifiedMemoryList,
};
use stack_walk::{Process, thread_frames};

// The most candidates of a thread.
const SCAN: usize = 16;

/// Finds the frames of each thread.
pub fn frames(world: &World<'_>) -> Result<(), Error> {
    let system = stream(world)?;
    let exception = stream::<MinidumpException<'_>>(world)?;
    let modules = stream(world)?;
    let memory = UnifiedMemoryList::Memory(stream(world)?);
    let infos = UnifiedMemoryInfoList::Info(stream(world)?);
    let process = Process {
        system: &system,
        exception: Some(&exception),
        modules: &modules,
        memory: &memory,
        infos: &infos,
        code_bits: 64,
    };
    walk_each(world, &process)
}

fn walk_each<'a>(world: &World<'a>, process: &Process<'_, 'a>) -> Result<(), Error> {
    let list = stream::<MinidumpThreadList<'a>>(world)?;
    for thread in list.threads.as_slice() {
        thread_frames(world.alloc, process, thread, SCAN)?;
    }
    Ok(())
}
