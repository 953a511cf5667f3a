//! What is read by itself: a reader, and entries of lists.

use crate::world::{World, stream};
use minidump::{
    Error, Minidump, MinidumpCrashpadInfo, MinidumpModuleCrashpadInfo, MinidumpUnloadedModule,
    MinidumpUnloadedModuleList, Source, Steps, Told,
};

/// Reads a reader to its end. An error leaves nothing in the vector, or the bytes of the reader.
pub fn read_from(world: &World<'_>) -> Result<(), Error> {
    let mut into = Vec::from_slice(world.alloc, &[1])?;
    let mut told = Told::new(world.bytes);
    let error = Minidump::read_from(world.alloc, &mut told, &mut into).err();
    match error {
        None => Ok(()),
        Some(error) if into.is_empty() || into.as_slice() == world.bytes => Err(error),
        Some(_) => Err(Error::DataError),
    }
}

/// Reads each unloaded module anew from its record.
pub fn unloaded_modules(world: &World<'_>) -> Result<(), Error> {
    let list = stream::<MinidumpUnloadedModuleList>(world)?;
    for module in list.iter() {
        let (raw, endian) = (module.raw, world.dump.endian);
        MinidumpUnloadedModule::read(world.alloc, raw, world.bytes, endian)?;
    }
    Ok(())
}

/// Reads Crashpad's information on a module anew, which stands where the stream says, and copies
/// its annotations.
pub fn crashpad_module(world: &World<'_>) -> Result<(), Error> {
    let info = stream::<MinidumpCrashpadInfo>(world)?;
    let all = Source::new(world.bytes);
    let offset = u64::from(info.raw.module_list.rva).saturating_add(4);
    let link = all.record(offset, world.dump.endian, &mut Steps::new());
    let link = link.ok_or(Error::StreamReadFailure)?;
    let (bytes, endian) = (world.bytes, world.dump.endian);
    copy_annotations(
        world,
        &MinidumpModuleCrashpadInfo::read(world.alloc, link, bytes, endian)?,
    )
}

fn copy_annotations(world: &World<'_>, module: &MinidumpModuleCrashpadInfo) -> Result<(), Error> {
    for (_, annotation) in &module.annotation_objects {
        annotation.try_clone(world.alloc)?;
    }
    Ok(())
}
