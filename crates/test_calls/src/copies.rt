//! Copies. That of a list copies its items, and makes a list of them.

use crate::world::{World, stream};
use minidump::format::MINIDUMP_STREAM_TYPE::{self, *};
use minidump::{
    CodeId, Error, MinidumpContext, MinidumpContextValidity, MinidumpHandleDataStream,
    MinidumpMacBootargs, MinidumpMacCrashInfo, MinidumpModuleList, MinidumpRawContext,
    MinidumpSystemInfo, MinidumpThreadNames, MinidumpUnloadedModuleList, StabilityReport,
};
use minidump_synth::zeroed;
use std::collections::HashSet;

/// Reads the stream of a type, and copies it.
pub fn copy(world: &World<'_>, kind: MINIDUMP_STREAM_TYPE) -> Result<(), Error> {
    macro_rules! copy_one_of {
        ($($name:ident: $type:ty;)*) => {
            match kind {
                $($name => {
                    stream::<$type>(world)?.try_clone(world.alloc)?;
                })*
                _ => return Err(Error::StreamNotFound),
            }
        };
    }
    copy_one_of! {
        SystemInfoStream: MinidumpSystemInfo;
        ModuleListStream: MinidumpModuleList;
        UnloadedModuleListStream: MinidumpUnloadedModuleList;
        ThreadNamesStream: MinidumpThreadNames;
        HandleDataStream: MinidumpHandleDataStream;
        MozMacosCrashInfoStream: MinidumpMacCrashInfo;
        MozMacosBootargsStream: MinidumpMacBootargs;
        StabilityReportStream: StabilityReport;
    }
    Ok(())
}

/// Makes an identifier of code, and copies it.
pub fn code_id(world: &World<'_>) -> Result<(), Error> {
    CodeId::new(world.alloc, "0a-1B")?.try_clone(world.alloc)?;
    Ok(())
}

/// Copies a context of which a register is valid, and formats the register.
pub fn context(world: &World<'_>) -> Result<(), Error> {
    let mut names = HashSet::new(world.alloc);
    names.insert("r11")?;
    let valid = MinidumpContextValidity::Some(names);
    let raw = MinidumpRawContext::Arm(zeroed());
    put_register(
        world,
        &MinidumpContext { raw, valid }.try_clone(world.alloc)?,
    )
}

fn put_register(world: &World<'_>, context: &MinidumpContext) -> Result<(), Error> {
    if context.memoize_register("r11").is_none() {
        return Err(Error::DataError);
    }
    context.format_register(world.alloc, "r11")?;
    Ok(())
}
