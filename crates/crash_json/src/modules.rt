//! The modules, loaded and unloaded.
ghost use Rattle.std.specs.Prelude.{◌≡◌, map};
ghost use Rattle.std.specs.Option.{option_copied, option_map};
ghost use Rattle.json.specs.Json.{string};
ghost use Rattle.crash_process.specs.Modules.{loaded_of, unloaded_module_of};
ghost use Rattle.crash_symbols.specs.Shown.{symbolized_of};
ghost use Rattle.crash_json.specs.Tree.{Adds, Puts};
ghost use Rattle.crash_json.specs.ReportValue.{report_of};
ghost use Rattle.crash_json.specs.Modules.{flag_members, main_module, module_members, modules_json};
ghost use Rattle.crash_json.specs.Modules.{part_name, symbol_members, unloaded_json, unreadable_json};

use crate::report::Report;
use crate::tree::{Members, Numbered, NumberedJson, Put, ToJson, members};
use crash::{CrashModule, ModulePart, UnloadedModule, UnreadableModule};
use crash_symbols::{SymbolState, Symbolized};
use json::Writer;
use std::alloc::Global;

/// Returns the index of the main module, which is the first.
pub(crate) fn main_module(modules: &[CrashModule]) -> Option<usize>
    ensures { result ≡ main_module (map loaded_of modules.now) }
{
    if modules.is_empty() { None } else { Some(0) }
}

/// Puts the modules, with what is known of the symbols of each.
#[tactic(auto, unfolding(crate::specs::Modules::modules_json), using(crate::proofs::Tokens::numbered_values))]
pub(crate) fn put_modules(report: &Report<'_, '_, '_, '_>, out: &mut Writer, alloc: Global) -> Put
    ensures { Puts result out.old out.new (modules_json (report_of report.now).symbols
        (report_of report.now).crash.modules.loaded) }
{
    Numbered(&report.crash.modules.loaded, report).put(out, alloc)
}

impl NumberedJson<CrashModule> for Report<'_, '_, '_, '_> {
    ghost use Rattle.crash_json.specs.Modules.{module_json};

    ghost json_at = { λ r n m. module_json (report_of r).symbols n (loaded_of m) };

    fn put_at(&self, number: usize, item: &CrashModule, out: &mut Writer, alloc: Global) -> Put {
        let symbols = ModuleSymbols {
            symbols: self.symbols,
            index: number,
        };
        (item, symbols).put_object(out, alloc)
    }
}

impl Members for CrashModule {
    ghost members = { λ m. module_members (loaded_of m) };

    fn add(&self, out: &mut Writer, alloc: Global) -> Put {
        members! {
            "base_addr": self.base,
            "end_addr": self.end,
            "filename": &self.file,
            "path": &self.path,
            "code_id": &self.code_id,
            "debug_file": &self.debug_file,
            "debug_id": &self.debug_id,
            "version": &self.version,
        }
        .add(out, alloc)
    }
}

// The symbols of the module of an index, if symbols are known.
#[derive(Clone, Copy)]
struct ModuleSymbols<'l, 's, 'n> {
    symbols: Option<&'l Symbolized<'s, 'n>>,
    index: usize,
}

impl Members for ModuleSymbols<'_, '_, '_> {
    ghost members = { λ m. symbol_members (option_map symbolized_of (option_copied m.symbols)) m.index };

    #[tactic(auto, unfolding(crate::specs::Tree::member_list_tokens, crash_symbols::specs::Symbols::are_loaded))]
    fn add(&self, out: &mut Writer, alloc: Global) -> Put {
        match self.symbols {
            Some(known) => match known.symbols.state(self.index) {
                SymbolState::Unwanted => add_flags(out, alloc, false, false, false, false),
                SymbolState::Missing => add_flags(out, alloc, true, false, false, false),
                SymbolState::Loaded => add_flags(out, alloc, false, true, false, false),
                SymbolState::Corrupt => add_flags(out, alloc, false, false, true, false),
                SymbolState::OutOfMemory => add_flags(out, alloc, true, false, false, true),
            },
            None => Ok(()),
        }
    }
}

// Adds whether symbols are missing, whether they are there, whether they can't be used, and whether
// memory ran out for them.
fn add_flags(
    out: &mut Writer,
    alloc: Global,
    missing: bool,
    loaded: bool,
    corrupt: bool,
    lacks_memory: bool,
) -> Put
    ensures { Adds result out.old out.new (flag_members missing loaded corrupt lacks_memory) }
{
    members! {
        "missing_symbols": missing,
        "loaded_symbols": loaded,
        "corrupt_symbols": corrupt,
        "no_memory_for_symbols": lacks_memory,
    }
    .add(out, alloc)
}

impl ToJson for UnloadedModule {
    ghost json = { λ m. unloaded_json (unloaded_module_of m) };

    #[tactic(auto, unfolding(crate::specs::Modules::unloaded_json), using(crate::proofs::Tokens::views))]
    fn put(&self, out: &mut Writer, alloc: Global) -> Put {
        members! {
            "base_addr": self.base,
            "end_addr": self.end,
            "filename": &self.file,
            "path": &self.path,
            "code_id": &self.code_id,
        }
        .put_object(out, alloc)
    }
}

impl ToJson for UnreadableModule {
    ghost json = { unreadable_json };

    #[tactic(auto, unfolding(crate::specs::Modules::unreadable_json))]
    fn put(&self, out: &mut Writer, alloc: Global) -> Put {
        members! {
            "index": self.index,
            "base_addr": self.base,
            "size": self.size,
            "part": self.part,
        }
        .put_object(out, alloc)
    }
}

impl ToJson for ModulePart {
    ghost json = { λ part. string (part_name part) };

    fn put(&self, out: &mut Writer, _alloc: Global) -> Put {
        match *self {
            ModulePart::Name => out.string("name"),
            ModulePart::CodeView => out.string("code_view"),
        }
    }
}
