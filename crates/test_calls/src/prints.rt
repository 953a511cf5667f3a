//! Prints that no report makes: of one item of a list, of bytes of memory, and of lists of either
//! kind.

use crate::world::{Sink, World, stream};
use minidump::{
    Error, MinidumpHandleDataStream, MinidumpMemory64List, MinidumpMemoryList, MinidumpModule,
    MinidumpThreadInfoList, MinidumpUnloadedModule, Told, UnifiedMemory, UnifiedMemoryInfoList,
};

/// Makes modules, and prints them.
pub fn new_modules(world: &World<'_>, out: &mut Told<Sink>) -> Result<(), Error> {
    MinidumpModule::new(world.alloc, 0x1000, 16, "a")?.print(world.alloc, out)?;
    MinidumpUnloadedModule::new(world.alloc, 0x1000, 16, "b")?.print(world.alloc, out)
}

/// Prints each region of the list of memory, as one of its type and as one of either type.
pub fn memory_texts(world: &World<'_>, out: &mut Told<Sink>) -> Result<(), Error> {
    let list = stream::<MinidumpMemoryList<'_>>(world)?;
    for region in list.iter() {
        region.print(world.alloc, out, true)?;
        region.print_contents(world.alloc, out)?;
        put_either(world, &UnifiedMemory::Memory(region), out)?;
    }
    Ok(())
}

/// Prints each region of the 64-bit list as one of either type, and a list of copies of them.
pub fn memory64_regions<'a>(world: &World<'a>, out: &mut Told<Sink>) -> Result<(), Error> {
    let list = stream::<MinidumpMemory64List<'a>>(world)?;
    for region in list.iter() {
        put_either(world, &UnifiedMemory::Memory64(region), out)?;
    }
    copy_of(world, &list)?.print(world.alloc, out, false)
}

// Makes a list of copies of the regions of a list.
fn copy_of<'a>(
    world: &World<'a>,
    list: &MinidumpMemory64List<'a>,
) -> Result<MinidumpMemory64List<'a>, Error> {
    let mut regions = Vec::new(world.alloc);
    for region in list.iter() {
        regions.push(region.clone()?)?;
    }
    MinidumpMemory64List::from_regions(world.alloc, regions)
}

fn put_either(
    world: &World<'_>,
    region: &UnifiedMemory<'_, '_>,
    out: &mut Told<Sink>,
) -> Result<(), Error> {
    region.print(world.alloc, out, false)?;
    region.print_contents(world.alloc, out)
}

/// Copies the information on memory as a list of either kind, and prints it and its regions.
pub fn infos(world: &World<'_>, out: &mut Told<Sink>) -> Result<(), Error> {
    put_copy(world, &UnifiedMemoryInfoList::Info(stream(world)?), out)
}

/// Copies the maps as a list of either kind, and prints it and its regions.
pub fn maps(world: &World<'_>, out: &mut Told<Sink>) -> Result<(), Error> {
    put_copy(world, &UnifiedMemoryInfoList::Maps(stream(world)?), out)
}

fn put_copy(
    world: &World<'_>,
    list: &UnifiedMemoryInfoList<'_>,
    out: &mut Told<Sink>,
) -> Result<(), Error> {
    let copy = list.try_clone(world.alloc)?;
    copy.print(world.alloc, out)?;
    for region in copy.iter() {
        region.print(world.alloc, out)?;
    }
    Ok(())
}

/// Prints each handle.
pub fn handles(world: &World<'_>, out: &mut Told<Sink>) -> Result<(), Error> {
    let list = stream::<MinidumpHandleDataStream>(world)?;
    for handle in list.iter() {
        handle.print(world.alloc, out)?;
    }
    Ok(())
}

/// Prints the information on each thread.
pub fn thread_infos(world: &World<'_>, out: &mut Told<Sink>) -> Result<(), Error> {
    let list = stream::<MinidumpThreadInfoList>(world)?;
    for info in &list.thread_infos {
        info.print(world.alloc, out)?;
    }
    Ok(())
}
