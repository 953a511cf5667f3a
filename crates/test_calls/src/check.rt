use crate::calls::{CALLS, Call, make};
use crate::world::World;
use anyhow::bail;
use minidump::{Endian, Error};
use minidump_synth::every_stream;
use std::alloc::{AllocError, Global};

/// Makes the call of a name, or all calls if the name is empty, on a dump with a stream of each
/// type, and writes a line for each. Returns an error if one answers otherwise than it has to.
pub fn make_calls(rt: &HostRuntime, wanted: &str) -> anyhow::Result<()> {
    let bytes = every_stream(rt.alloc(), Endian::Little)?;
    let world = World::read(rt.alloc(), &bytes)?;
    let mut holds = true;
    for (name, call) in CALLS {
        if wanted.is_empty() || wanted == *name {
            let answer = answer_of(&world, *call);
            println!(rt; "{name}: {answer}")?;
            holds = holds && answer != "wrong";
        }
    }
    if !holds {
        bail!("a call answers otherwise");
    }
    Ok(())
}

// A size of memory that no call asks for.
const MARK: usize = 65537;

// Takes memory of a size that tells `.ci/refusals` where a call begins and ends, and gives it back.
fn mark(alloc: Global) {
    let _memory: Result<Vec<u8>, AllocError> = Vec::with_capacity(alloc, MARK);
}

// Makes a call between two marks, and once more if it found no memory. Returns `ok` if it returned,
// `OutOfMemory, ok` if it did so at last, and else `wrong`.
fn answer_of(world: &World<'_>, call: Call) -> &'static str {
    mark(world.alloc);
    let made = make(world, call);
    mark(world.alloc);
    match made {
        Ok(()) => "ok",
        Err(Error::OutOfMemory) if make(world, call).is_ok() => "OutOfMemory, ok",
        Err(_) => "wrong",
    }
}
