use crate::copies::{code_id, context, copy};
use crate::lookup::hits;
use crate::prints::{
    handles, infos, maps, memory_texts, memory64_regions, new_modules, thread_infos,
};
use crate::read::{crashpad_module, read_from, unloaded_modules};
use crate::walks::frames;
use crate::world::{Sink, World};
use minidump::format::MINIDUMP_STREAM_TYPE::{self, *};
use minidump::{Error, Told};

/// One or more calls that may run out of memory.
#[derive(Clone, Copy)]
pub enum Call {
    /// Reads and copies the stream of a type.
    Copy(MINIDUMP_STREAM_TYPE),
    CodeId,
    Context,
    ReadFrom,
    UnloadedModules,
    CrashpadModule,
    NewModules,
    MemoryTexts,
    Memory64Regions,
    Infos,
    Maps,
    Handles,
    ThreadInfos,
    Frames,
    Lookup,
    List,
}

/// Each call by its name.
pub const CALLS: &[(&str, Call)] = &[
    ("copy-SystemInfo", Call::Copy(SystemInfoStream)),
    ("copy-ModuleList", Call::Copy(ModuleListStream)),
    (
        "copy-UnloadedModuleList",
        Call::Copy(UnloadedModuleListStream),
    ),
    ("copy-ThreadNames", Call::Copy(ThreadNamesStream)),
    ("copy-HandleData", Call::Copy(HandleDataStream)),
    ("copy-MacCrashInfo", Call::Copy(MozMacosCrashInfoStream)),
    ("copy-MacBootargs", Call::Copy(MozMacosBootargsStream)),
    ("copy-StabilityReport", Call::Copy(StabilityReportStream)),
    ("code-id", Call::CodeId),
    ("context", Call::Context),
    ("read-from", Call::ReadFrom),
    ("unloaded-modules", Call::UnloadedModules),
    ("crashpad-module", Call::CrashpadModule),
    ("new-modules", Call::NewModules),
    ("memory-texts", Call::MemoryTexts),
    ("memory64-regions", Call::Memory64Regions),
    ("infos", Call::Infos),
    ("maps", Call::Maps),
    ("handles", Call::Handles),
    ("thread-infos", Call::ThreadInfos),
    ("frames", Call::Frames),
    ("lookup", Call::Lookup),
    ("list", Call::List),
];

/// Makes a call. What it prints is dropped.
pub fn make(world: &World<'_>, call: Call) -> Result<(), Error> {
    let out = &mut Told::new(Sink);
    match call {
        Call::Copy(stream) => copy(world, stream),
        Call::CodeId => code_id(world),
        Call::Context => context(world),
        Call::ReadFrom => read_from(world),
        Call::UnloadedModules => unloaded_modules(world),
        Call::CrashpadModule => crashpad_module(world),
        Call::NewModules => new_modules(world, out),
        Call::MemoryTexts => memory_texts(world, out),
        Call::Memory64Regions => memory64_regions(world, out),
        Call::Infos => infos(world, out),
        Call::Maps => maps(world, out),
        Call::Handles => handles(world, out),
        Call::ThreadInfos => thread_infos(world, out),
        Call::Frames => frames(world),
        Call::Lookup => lookups(world, "lookup"),
        Call::List => lookups(world, "list"),
    }
}

// Looks up a million addresses, of which 500650 lie in a range: half of the span is ranges, and the
// addresses are always the same. Another number is an error.
fn lookups(world: &World<'_>, verb: &str) -> Result<(), Error> {
    match hits(world.alloc, verb, 1000, 1)? {
        500650 => Ok(()),
        _ => Err(Error::DataError),
    }
}
