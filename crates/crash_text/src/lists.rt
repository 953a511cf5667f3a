//! The lines of the lists of a dump, and of what can't be read.
ghost use Rattle.std.specs.Prelude.{ℕ, List, [], ◌∷◌, codes, map, ◌≡◌};
ghost use Rattle.std.specs.List.{flat_map};
ghost use Rattle.minidump.specs.Below.Contexts.Context.{map_ok};
ghost use Rattle.minidump.specs.Below.MemoryLists.Unified.{UnifiedRegion, unified_list};
ghost use Rattle.minidump.specs.Below.MemoryLists.Unified.{unified_region, unified_regions};
ghost use Rattle.minidump.specs.Promise.{handle_data_stream, linux_environ_stream};
ghost use Rattle.minidump.specs.Promise.{linux_proc_limits_stream, unloaded_module_list_stream};
ghost use Rattle.crash_process.specs.HandleKinds.{KindValue, kind_of};
ghost use Rattle.crash_process.specs.Modules.{UnloadedModuleValue, unloaded_module_of};
ghost use Rattle.crash.specs.Crash.{crash_of};
ghost use Rattle.crash_process.specs.declared.directory.StreamEntry.{StreamEntry};
ghost use Rattle.minidump.specs.Below.Records.Handles.{Handle, handle_of};
ghost use Rattle.crash_process.specs.Linux.{LimitValue, limit_of};
ghost use Rattle.minidump.specs.Below.Bytes.LinuxOsStr.{parts_of};
ghost use Rattle.crash.specs.declared.damage.Damage.{Damage};
ghost use Rattle.crash_process.specs.declared.unreadable_modules.UnreadableModule.{UnreadableModule};
ghost use Rattle.crash_lines.specs.Lines.{Adds};
ghost use Rattle.crash_lines.specs.Parts.{part_text};
ghost use Rattle.crash_text.specs.Lists.{damage_lines, damage_row, entry_line, environment_lines};
ghost use Rattle.crash_text.specs.Lists.{handle_line, handles_lines, kind_line, limit_line};
ghost use Rattle.crash_text.specs.Lists.{limits_lines, list_lines, lists_lines, memory_lines};
ghost use Rattle.crash_text.specs.Lists.{part_words, region_line, unloaded_line, unloaded_lines};
ghost use Rattle.crash_text.specs.Lists.{unreadable_line, variable_line};
ghost use Rattle.crash_text.specs.Page.{page_of};

use crate::limits::TextLimits;
use crate::text::Page;
use crash::{
    Crash, Damage, HandleKind, ModulePart, ProcessLimit, StreamEntry, UnloadedModule,
    UnreadableModule, limits_of, regions_of, variables_of,
};
use crash_lines::Part::{Decimal, Failed, Hex, HexIf, Id, If, Key, Lossy, Stream, Text, Words};
use crash_lines::{Added, Part, push_count, push_row};
use minidump::strings::LinuxOsStr;
use minidump::{
    Error, MinidumpHandleDataStream, MinidumpHandleDescriptor, MinidumpLinuxEnviron,
    MinidumpLinuxProcLimits, MinidumpUnloadedModuleList, UnifiedMemory, UnifiedMemoryList,
};

/// What has a line.
pub(crate) trait Line {
    // its value
    ghost Value: { Type 0 };

    ghost value_of: { Self → Value };

    // the line of a value
    ghost line: { Value → List ℕ };

    /// Appends the line.
    fn push(&self, out: &mut String) -> Added
        ensures { Adds out.old out.new (line (value_of self.now) ∷ []) result };
}

/// Appends the line of each item of a list.
pub(crate) fn push_each<T: Line>(out: &mut String, items: &[T]) -> Added
    ensures { Adds out.old out.new (map T.line (map T.value_of items.now)) result }
{
    for item in items {
        item.push(out)?;
    }
    Ok(())
}

// Appends the number of items of a list, and their lines if they are asked for.
#[tactic(auto, using(crash_lines::proofs::LineLemmas::values))]
fn push_list<T: Line>(out: &mut String, is_asked: bool, what: &str, items: &[T]) -> Added
    ensures { Adds out.old out.new (list_lines is_asked what.now T.line
        (map T.value_of items.now)) result }
{
    push_count(out, what, items.len())?;
    if is_asked {
        push_each(out, items)
    } else {
        Ok(())
    }
}

// Appends the lists after the modules.
#[tactic(auto, using(crash_lines::proofs::LineLemmas::values))]
pub(crate) fn push_lists(out: &mut String, page: Page<'_, '_, '_, '_>) -> Added
    ensures { Adds out.old out.new (lists_lines (page_of page.entry)) result }
{
    let (limits, space) = (page.limits, &page.crash.contents.space);
    let unloaded = page.crash.modules.unloaded.as_slice();
    push_unloaded(out, limits, unloaded, &space.unloaded)?;
    push_list(
        out,
        limits.lists,
        "streams",
        page.crash.directory.entries.as_slice(),
    )?;
    push_memory(out, limits, &space.memory, space.memory_errors)?;
    if let Some(count) = space.map_count {
        push_count(out, "maps", count)?;
    }
    let process = &page.crash.contents.process;
    let kinds = page.crash.process.handle_kinds.as_slice();
    push_handles(out, limits, kinds, &process.handles)?;
    push_limits(out, limits, &process.limits)?;
    push_environment(out, limits, &process.environ)
}

// Appends the number of modules that were unloaded, and their lines if they are asked for, if their
// list can be read.
fn push_unloaded(
    out: &mut String,
    limits: &TextLimits,
    modules: &[UnloadedModule],
    list: &Result<MinidumpUnloadedModuleList, Error>,
) -> Added
    ensures { Adds out.old out.new (unloaded_lines limits.now (map unloaded_module_of modules.now)
        (map_ok unloaded_module_list_stream.value list.now)) result }
{
    let is_asked = limits.lists || limits.modules;
    match list {
        Ok(_) => push_list(out, is_asked, "unloaded modules", modules),
        Err(_) => Ok(()),
    }
}

impl Line for UnloadedModule {
    ghost Value = { UnloadedModuleValue };

    ghost value_of = { unloaded_module_of };

    ghost line = { unloaded_line };

    #[rattlefmt::skip]
    #[tactic(auto, unfolding(crate::specs::Lists::unloaded_line))]
    fn push(&self, out: &mut String) -> Added {
        push_row(out, &[
            Words("    "), Hex(self.base), HexIf("-", self.end), Words(" "),
            Words(self.path.as_str()), Key(", code ", self.file.as_str(), &self.code_id),
        ])
    }
}

impl Line for StreamEntry {
    ghost Value = { StreamEntry };

    ghost value_of = { λ e. e };

    ghost line = { entry_line };

    #[rattlefmt::skip]
    #[tactic(auto, unfolding(crate::specs::Lists::entry_line))]
    fn push(&self, out: &mut String) -> Added {
        push_row(out, &[
            Words("    "), Stream(self.number), Words(" ("), Hex(self.number as u64), Words("), "),
            Decimal(self.size as u64), Words(" bytes at "), Hex(self.rva as u64),
            Failed(self.error),
        ])
    }
}

// Appends the regions of memory, if one of their lists can be read.
fn push_memory(
    out: &mut String,
    limits: &TextLimits,
    memory: &UnifiedMemoryList<'_>,
    errors: (Option<Error>, Option<Error>),
) -> Added
    ensures { Adds out.old out.new (memory_lines limits.now
        (unified_regions (unified_list memory.now)) errors) result }
{
    if errors.0.is_none() || errors.1.is_none() {
        push_regions(out, limits, memory)
    } else {
        Ok(())
    }
}

// Appends the number of regions of memory, and their lines if lists are asked for.
fn push_regions(out: &mut String, limits: &TextLimits, memory: &UnifiedMemoryList<'_>) -> Added
    ensures { Adds out.old out.new (list_lines limits.now.lists (codes "memory regions")
        region_line (unified_regions (unified_list memory.now))) result }
{
    push_count(out, "memory regions", memory.len())?;
    if limits.lists {
        let regions = regions_of(*out.allocator(), memory)?;
        push_each(out, regions.as_slice())
    } else {
        Ok(())
    }
}

impl Line for UnifiedMemory<'_, '_> {
    ghost Value = { UnifiedRegion };

    ghost value_of = { unified_region };

    ghost line = { region_line };

    #[rattlefmt::skip]
    #[tactic(auto, unfolding(crate::specs::Lists::region_line))]
    fn push(&self, out: &mut String) -> Added {
        push_row(out, &[
            Words("    "), Hex(self.base_address()), Words(", "), Hex(self.size()), Words(" bytes"),
        ])
    }
}

// Appends the number of handles, the lines of their kinds, and their own if they are asked for, if
// their list can be read.
fn push_handles(
    out: &mut String,
    limits: &TextLimits,
    kinds: &[HandleKind],
    found: &Result<MinidumpHandleDataStream, Error>,
) -> Added
    ensures { Adds out.old out.new (handles_lines limits.now (map kind_of kinds.now)
        (map_ok handle_data_stream.value found.now)) result }
{
    let is_asked = limits.lists || limits.handles;
    match found {
        Ok(stream) => {
            let handles = stream.handles.as_slice();
            push_count(out, "handles", handles.len())?;
            push_each(out, kinds)?;
            if is_asked {
                push_each(out, handles)
            } else {
                Ok(())
            }
        }
        Err(_) => Ok(()),
    }
}

impl Line for HandleKind {
    ghost Value = { KindValue };

    ghost value_of = { kind_of };

    ghost line = { kind_line };

    #[rattlefmt::skip]
    #[tactic(auto, unfolding(crate::specs::Lists::kind_line))]
    fn push(&self, out: &mut String) -> Added {
        push_row(out, &[
            Words("    "), Words(self.type_name.as_str()), Words(" "), Decimal(self.count as u64),
        ])
    }
}

impl Line for MinidumpHandleDescriptor {
    ghost Value = { Handle };

    ghost value_of = { handle_of };

    ghost line = { handle_line };

    #[rattlefmt::skip]
    #[tactic(auto, unfolding(crate::specs::Lists::handle_line))]
    fn push(&self, out: &mut String) -> Added {
        let handle = self.raw.handle().copied();
        push_row(out, &[
            Words("    "), HexIf("", handle), If(handle.is_none(), "no value"),
            Text(" ", &self.type_name, ""), Text(" \"", &self.object_name, "\""),
        ])
    }
}

// ---- Linux's limits of the process

// Appends the number of limits of the process, and their lines if lists are asked for, if their
// stream can be read.
fn push_limits(
    out: &mut String,
    limits: &TextLimits,
    found: &Result<MinidumpLinuxProcLimits<'_>, Error>,
) -> Added
    ensures { Adds out.old out.new
        (limits_lines limits.now (map_ok linux_proc_limits_stream.value found.now)) result }
{
    match found {
        Ok(found) => {
            let items = limits_of(*out.allocator(), found)?;
            push_list(out, limits.lists, "limits", items.as_slice())
        }
        Err(_) => Ok(()),
    }
}

impl Line for ProcessLimit {
    ghost Value = { LimitValue };

    ghost value_of = { limit_of };

    ghost line = { limit_line };

    #[rattlefmt::skip]
    #[tactic(auto, unfolding(crate::specs::Lists::limit_line))]
    fn push(&self, out: &mut String) -> Added {
        push_row(out, &[
            Words("    "), Words(self.name.as_str()), Words(" soft "), Words(self.soft.as_str()),
            Words(" hard "), Words(self.hard.as_str()), Text(" ", &self.unit, ""),
        ])
    }
}

// ---- Linux's environment

// Appends the environment, if its stream can be read.
fn push_environment(
    out: &mut String,
    limits: &TextLimits,
    found: &Result<MinidumpLinuxEnviron<'_>, Error>,
) -> Added
    ensures { Adds out.old out.new
        (environment_lines limits.now (map_ok linux_environ_stream.value found.now)) result }
{
    match found {
        Ok(found) => {
            let variables = variables_of(*out.allocator(), found)?;
            push_list(
                out,
                limits.environment,
                "environment variables",
                variables.as_slice(),
            )
        }
        Err(_) => Ok(()),
    }
}

// A variable, by its name and its value.
impl Line for (LinuxOsStr<'_>, LinuxOsStr<'_>) {
    ghost Value = { List ℕ × List ℕ };

    ghost value_of = { parts_of };

    ghost line = { variable_line };

    #[tactic(auto, unfolding(crate::specs::Lists::variable_line))]
    fn push(&self, out: &mut String) -> Added {
        push_row(
            out,
            &[
                Lossy("environment ", Some(self.0)),
                Lossy("=", Some(self.1)),
            ],
        )
    }
}

// ---- what is there and can't be read

// Appends the lines of what is there and can't be read.
#[tactic(auto, using(crash_lines::proofs::LineLemmas::values))]
pub(crate) fn push_damage(out: &mut String, crash: &Crash<'_>) -> Added
    ensures { Adds out.old out.new (damage_lines (crash_of crash.now)) result }
{
    push_each(out, crash.damage.as_slice())?;
    push_each(out, crash.modules.unreadable.as_slice())
}

impl Line for Damage {
    ghost Value = { Damage };

    ghost value_of = { λ d. d };

    ghost line = { damage_row };

    fn push(&self, out: &mut String) -> Added {
        push_row(out, &parts_of(*self))
    }
}

// Returns the parts of the row of something that can't be read.
#[rattlefmt::skip]
#[tactic(auto, unfolding(crate::specs::Lists::damage_row))]
fn parts_of(damage: Damage) -> [Part<'static>; 4]
    ensures { flat_map part_text result ≡ damage_row damage }
{
    let none = Words("");
    match damage {
        Damage::Stream { number, error } =>
            [Words("can't be read: "), Stream(number), Failed(Some(error)), none],
        Damage::Entries { count } =>
            [Words("outside the file: entries of the directory: "), Decimal(count), none, none],
        Damage::Regions { count } => [
            Words("outside the file: regions of the plain list of memory: "), Decimal(count),
            none, none,
        ],
        Damage::Modules { count } =>
            [Words("can't be read: modules without addresses: "), Decimal(count), none, none],
        Damage::Texts { number, count } =>
            [Words("can't be read: texts of "), Stream(number), Words(": "), Decimal(count)],
        Damage::Records { number, count } =>
            [Words("can't be read: records of "), Stream(number), Words(": "), Decimal(count)],
        Damage::Exception { error } => [
            Words("can't be read: an exception before the last"), Failed(Some(error)), none, none,
        ],
        Damage::Parameters { thread, count } => [
            Id("can't be read: parameters of the exception on thread ", Some(thread)),
            Words(": "), Decimal(count), none,
        ],
        Damage::ExceptionContext { thread } => [
            Id("outside the file: the context of the exception on thread ", Some(thread)),
            none, none, none,
        ],
        Damage::ThreadContext { thread } =>
            [Id("outside the file: the context of thread ", Some(thread)), none, none, none],
        Damage::Stack { thread } =>
            [Id("outside the file: the stack of thread ", Some(thread)), none, none, none],
    }
}

// Returns the words for a part of a module's entry.
fn part_words(part: ModulePart) -> &'static str
    ensures { result.now ≡ part_words part }
{
    match part {
        ModulePart::Name => "the name of module ",
        ModulePart::CodeView => "the CodeView record of module ",
    }
}

impl Line for UnreadableModule {
    ghost Value = { UnreadableModule };

    ghost value_of = { λ m. m };

    ghost line = { unreadable_line };

    #[rattlefmt::skip]
    #[tactic(auto, unfolding(crate::specs::Lists::unreadable_line))]
    fn push(&self, out: &mut String) -> Added {
        push_row(out, &[
            Words("can't be read: "), Words(part_words(self.part)), Decimal(self.index as u64),
            Words(" at "), Hex(self.base), Words(", "), Hex(self.size as u64), Words(" bytes"),
        ])
    }
}
