ghost use Rattle.std.specs.Prelude.{◌≡◌, IfOk, IsOkUnless, map, string_bytes};
ghost use Rattle.std.specs.Option.{option_map};
ghost use Rattle.minidump.specs.Below.Modules.DebugId.{breakpad_text};
ghost use Rattle.minidump.specs.Below.Modules.Module.{module_of};
ghost use Rattle.minidump.specs.Below.Modules.UnloadedModule.{unloaded_of};
ghost use Rattle.minidump.specs.DumpValue.{dump_of};
ghost use Rattle.crash_streams.specs.Contents.{contents_of};
ghost use Rattle.crash_process.specs.FileName.{file_name};
ghost use Rattle.crash_process.specs.Modules.{by_address, loaded_of, module_in, modules_in, modules_of};
ghost use Rattle.crash_process.specs.Modules.{unloaded_module_in, unloaded_module_of};

use crate::unreadable_modules::{UnreadableModule, unreadable_of};
use crash_streams::{Contents, owned_text, unloaded_entries};
use minidump::{DebugId, Error, Minidump, MinidumpModule, MinidumpUnloadedModule, Module};
use minidump_bytes::as_text;
use std::alloc::{AllocError, Global};
use std::collections::BTreeSet;

/// The modules of a process.
#[derive(Drop)]
pub struct CrashModules {
    /// The modules that were loaded, in the order of their list; none if it can't be read.
    pub loaded: Vec<CrashModule>,
    /// The indices of `loaded`, ascending by base address, those of one base address in the order of
    /// the list.
    pub by_address: Vec<usize>,
    /// The entries of that list that can't be read: one is enough for the whole list to be an error.
    /// None if the list can be read, and if it can't be told where its entries are.
    pub unreadable: Vec<UnreadableModule>,
    /// The modules that were unloaded before, in the order of their list; none if it can't be read.
    pub unloaded: Vec<UnloadedModule>,
}

/// A module, with what symbol tools ask of it.
#[derive(Drop)]
pub struct CrashModule {
    /// The base address.
    pub base: u64,
    /// The address after the module, or `None` if it has more than 64 bits.
    pub end: Option<u64>,
    /// The path of its file.
    pub path: String,
    /// The last part of that path.
    pub file: String,
    /// The version.
    pub version: Option<String>,
    /// The identifier of its code.
    pub code_id: Option<String>,
    /// The last part of the path of its debug file.
    pub debug_file: Option<String>,
    /// The identifier of its debug file, as Breakpad writes it.
    pub debug_id: Option<String>,
}

/// A module that was unloaded.
#[derive(Drop)]
pub struct UnloadedModule {
    /// The base address.
    pub base: u64,
    /// The address after the module, or `None` if it has more than 64 bits.
    pub end: Option<u64>,
    /// The path of its file.
    pub path: String,
    /// The last part of that path.
    pub file: String,
    /// The identifier of its code.
    pub code_id: Option<String>,
}

/// Returns the modules of a process.
pub fn modules_of(
    alloc: Global,
    dump: &Minidump<'_>,
    contents: &Contents<'_>,
) -> Result<CrashModules, Error>
    ensures modules { IfOk result (λ modules. modules_of modules
        ≡ modules_in (dump_of dump.now) (contents_of contents.now)) }
    ensures memory { IsOkUnless result Error.OutOfMemory }
{
    let loaded = loaded_of(alloc, contents.space.modules.as_slice())?;
    let by_address = by_address(alloc, loaded.as_slice())?;
    let unreadable = unreadable_of(alloc, dump, contents.space.modules_error)?;
    let unloaded = unloaded_of(alloc, unloaded_entries(&contents.space.unloaded))?;
    Ok(CrashModules {
        loaded,
        by_address,
        unreadable,
        unloaded,
    })
}

// Returns the modules of a list.
fn loaded_of(alloc: Global, list: &[MinidumpModule]) -> Result<Vec<CrashModule>, Error>
    ensures modules { IfOk result
        (λ modules. map loaded_of modules.items ≡ map module_in (map module_of list.now)) }
    ensures memory { IsOkUnless result Error.OutOfMemory }
{
    let mut modules = Vec::new(alloc);
    for item in list {
        modules.push(module_in(alloc, item)?)?;
    }
    Ok(modules)
}

// Returns a module of the list.
fn module_in(alloc: Global, item: &MinidumpModule) -> Result<CrashModule, Error>
    ensures made { IfOk result (λ made. loaded_of made ≡ module_in (module_of item.now)) }
    ensures memory { IsOkUnless result Error.OutOfMemory }
{
    let code_id = item.code_identifier(alloc)?;
    let debug_file = item.debug_file(alloc)?;
    Ok(CrashModule {
        base: item.base_address(),
        end: item.base_address().checked_add(item.size()),
        path: String::from_str(alloc, item.code_file())?,
        file: String::from_str(alloc, file_name(item.code_file()))?,
        version: item.version(alloc)?,
        code_id: owned_text(alloc, code_id.as_ref().map(|id| id.as_str()))?,
        debug_file: owned_text(alloc, as_text(&debug_file).map(|path| file_name(path)))?,
        debug_id: debug_id_text(alloc, item.debug_identifier())?,
    })
}

// Returns the modules of a list that were unloaded.
fn unloaded_of(alloc: Global, list: &[MinidumpUnloadedModule]) -> Result<Vec<UnloadedModule>, Error>
    ensures modules { IfOk result (λ modules. map unloaded_module_of modules.items
        ≡ map unloaded_module_in (map unloaded_of list.now)) }
    ensures memory { IsOkUnless result Error.OutOfMemory }
{
    let mut modules = Vec::new(alloc);
    for item in list {
        modules.push(unloaded_module_in(alloc, item)?)?;
    }
    Ok(modules)
}

// Returns a module that was unloaded.
fn unloaded_module_in(alloc: Global, item: &MinidumpUnloadedModule) -> Result<UnloadedModule, Error>
    ensures made { IfOk result
        (λ made. unloaded_module_of made ≡ unloaded_module_in (unloaded_of item.now)) }
    ensures memory { IsOkUnless result Error.OutOfMemory }
{
    let code_id = item.code_identifier(alloc)?;
    Ok(UnloadedModule {
        base: item.base_address(),
        end: item.base_address().checked_add(item.size()),
        path: String::from_str(alloc, item.code_file())?,
        file: String::from_str(alloc, file_name(item.code_file()))?,
        code_id: owned_text(alloc, code_id.as_ref().map(|id| id.as_str()))?,
    })
}

// Returns the indices of modules in the order of their base addresses.
fn by_address(alloc: Global, modules: &[CrashModule]) -> Result<Vec<usize>, AllocError>
    ensures { IfOk result (λ indices. indices.items ≡ by_address (map loaded_of modules.now)) }
{
    let bases: BTreeSet<(u64, usize)> = modules
        .iter()
        .enumerate()
        .map(|(index, module)| (module.base, index))
        .collect(alloc)?;
    bases.iter().map(|pair| pair.1).collect(alloc)
}

// Makes Breakpad's text of an identifier that may be absent.
fn debug_id_text(alloc: Global, id: Option<DebugId>) -> Result<Option<String>, Error>
    ensures text { IfOk result
        (λ text. option_map string_bytes text ≡ option_map breakpad_text id) }
    ensures memory { IsOkUnless result Error.OutOfMemory }
{
    match id {
        Some(id) => Ok(Some(format!(in alloc; "{}", id.breakpad())?)),
        None => Ok(None),
    }
}

/// Returns what comes after the last separator of a path, of Windows or of Unix.
pub fn file_name(path: &str) -> &str
    ensures { result.now ≡ file_name path.now }
{
    match path.rsplit_once(['/', '\\']) {
        Some((_, name)) => name,
        None => path,
    }
}
