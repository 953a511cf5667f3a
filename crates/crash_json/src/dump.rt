//! What a minidump says that the schema has no member for.
ghost use Rattle.std.specs.Prelude.{◌≡◌, Ok};
ghost use Rattle.std.specs.Result.{result_ok};
ghost use Rattle.minidump.specs.Below.Contexts.Context.{map_ok};
ghost use Rattle.json.specs.Json.{string};
ghost use Rattle.minidump.specs.Below.Format.StreamType.{type_name};
ghost use Rattle.minidump.specs.Below.MemoryLists.Unified.{unified_list, unified_region};
ghost use Rattle.minidump.specs.Below.MemoryLists.Unified.{unified_regions};
ghost use Rattle.minidump.specs.Promise.{breakpad_info_stream};
ghost use Rattle.crash.specs.Crash.{crash_of, status_of};
ghost use Rattle.crash_json.specs.Tree.{Adds, Puts, array_of};
ghost use Rattle.crash_json.specs.ReportValue.{report_of};
ghost use Rattle.crash_json.specs.Minidump.{breakpad_members, damage_json, damage_object};
ghost use Rattle.crash_json.specs.Minidump.{file_members, minidump_json, process_members, region_json};
ghost use Rattle.crash_json.specs.Minidump.{signature_members, stream_json, unless_zero};

use crate::report::Report;
use crate::system::Environment;
use crate::threads::registers_of;
use crate::tree::{Decimal, Members, Put, ToJson, members};
use crash::{Crash, Damage, StreamEntry, regions_of};
use crash_symbols::signature_of;
use json::Writer;
use minidump::format::MINIDUMP_STREAM_TYPE;
use minidump::{Error, MinidumpBreakpadInfo, UnifiedMemory, UnifiedMemoryList};
use std::alloc::Global;

/// Puts what a minidump says that the schema has no member for, with the environment if it is asked
/// for.
pub(crate) fn put_minidump(report: &Report<'_, '_, '_, '_>, out: &mut Writer, alloc: Global) -> Put
    ensures { Puts result out.old out.new (minidump_json (report_of report.now)) }
{
    out.begin_object()?;
    add_process(report.crash, report.limits.environment, out, alloc)?;
    add_file(report.crash, out, alloc)?;
    add_signature(report, out, alloc)?;
    out.end_object()
}

// Adds the process, with its environment, and who wrote the dump.
fn add_process(crash: &Crash<'_>, is_asked: bool, out: &mut Writer, alloc: Global) -> Put
    ensures { Adds result out.old out.new (process_members is_asked (crash_of crash.now)) }
{
    let environment = Environment {
        is_asked,
        found: &crash.contents.process.environ,
    };
    members! {
        "written": unless_zero(crash.directory.written),
        "uptime": Decimal(crash.process.uptime),
        "parent_process_id": crash.process.parent,
        "resident_size": Decimal(crash.process.resident),
        ..&crash.contents.system.breakpad,
        "command_line": &crash.process.command_line,
        ..environment,
        "comment": &crash.process.comments.narrow,
        "wide_comment": &crash.process.comments.wide,
    }
    .add(out, alloc)
}

// Returns a time stamp, or `None` if it is 0, which says nothing.
fn unless_zero(time: u32) -> Option<u32>
    ensures { result ≡ unless_zero time }
{
    if time == 0 { None } else { Some(time) }
}

// The ids of the threads that requested and wrote the dump, if Breakpad's information has them.
impl Members for Result<MinidumpBreakpadInfo, Error> {
    ghost members = { λ b. breakpad_members (result_ok (map_ok breakpad_info_stream.value b)) };

    fn add(&self, out: &mut Writer, alloc: Global) -> Put {
        match self {
            Ok(info) => members! {
                "requesting_thread_id": info.requesting_thread_id,
                "dump_thread_id": info.dump_thread_id,
            }
            .add(out, alloc),
            Err(_) => {
                members! { "requesting_thread_id": (), "dump_thread_id": (), }.add(out, alloc)
            }
        }
    }
}

// Adds what the dump holds, and what of it can't be read.
#[tactic(auto, unfolding(crate::specs::Minidump::file_members))]
fn add_file(crash: &Crash<'_>, out: &mut Writer, alloc: Global) -> Put
    ensures { Adds result out.old out.new (file_members (crash_of crash.now)) }
{
    members! {
        "status": status_of(crash),
        "streams": &crash.directory.entries,
        "memory": &crash.contents.space.memory,
        "damage": &crash.damage,
        "unreadable_modules": &crash.modules.unreadable,
    }
    .add(out, alloc)
}

// Returns the status with which the dump ends a program.
fn status_of(crash: &Crash<'_>) -> usize
    ensures { result ≡ status_of (Ok (crash_of crash.now)) }
{
    if crash.damage.is_empty() { 0 } else { 1 }
}

// Adds what is known of the crash, the kinds of handles, the assertion and Crashpad's annotations.
fn add_signature(report: &Report<'_, '_, '_, '_>, out: &mut Writer, alloc: Global) -> Put
    ensures { Adds result out.old out.new (signature_members (report_of report.now)) }
{
    let crash = report.crash;
    let signature = signature_of(alloc, crash, report.symbols)?;
    members! {
        "address": crash.cause.address,
        "point": &crash.point,
        "exceptions": &crash.cause.exceptions,
        "exception": crash.cause.counts,
        "signature": &signature,
        "registers_of": registers_of(&crash.threads),
        "handle_kinds": &crash.process.handle_kinds,
        "assertion": &crash.contents.messages.assertion,
        "crashpad": &crash.contents.messages.crashpad,
    }
    .add(out, alloc)
}

// ---- streams

impl ToJson for StreamEntry {
    ghost json = { stream_json };

    fn put(&self, out: &mut Writer, alloc: Global) -> Put {
        members! {
            "type": self.number as u64,
            "name": MINIDUMP_STREAM_TYPE::from_u32(self.number),
            "size": self.size,
            "rva": self.rva as u64,
            "error": self.error,
        }
        .put_object(out, alloc)
    }
}

impl ToJson for MINIDUMP_STREAM_TYPE {
    ghost json = { λ stream_type. string (type_name stream_type) };

    fn put(&self, out: &mut Writer, _alloc: Global) -> Put {
        out.string(self.name())
    }
}

// ---- memory

// The regions of memory.
impl ToJson for UnifiedMemoryList<'_> {
    ghost json = { λ memory. array_of region_json (unified_regions (unified_list memory)) };

    #[tactic(auto, using(crate::proofs::Tokens::views))]
    fn put(&self, out: &mut Writer, alloc: Global) -> Put {
        let regions = regions_of(alloc, self)?;
        regions.put(out, alloc)
    }
}

impl<'l, 'a> ToJson for UnifiedMemory<'l, 'a> {
    ghost json = { λ r. region_json (unified_region r) };

    #[tactic(auto, unfolding(crate::specs::Minidump::region_json))]
    fn put(&self, out: &mut Writer, alloc: Global) -> Put {
        members! { "base_addr": self.base_address(), "size": Decimal(Some(self.size())), }.put_object(
            out, alloc,
        )
    }
}

// ---- damage

impl ToJson for Damage {
    ghost json = { damage_json };

    fn put(&self, out: &mut Writer, alloc: Global) -> Put {
        let (what, number, count, thread, error) = parts_of(*self);
        members! {
            "what": what,
            "number": number,
            "count": Decimal(count),
            "thread_id": thread,
            "error": error,
        }
        .put_object(out, alloc)
    }
}

// What the members of a damage say: what is damaged, the type of a stream, how many entries, the id
// of a thread, and an error.
type DamageParts = (
    &'static str,
    Option<u64>,
    Option<u64>,
    Option<u32>,
    Option<Error>,
);

fn parts_of(damage: Damage) -> DamageParts
    ensures { damage_object result.0.now result.1 result.2 result.3 result.4 ≡ damage_json damage }
{
    match damage {
        Damage::Stream { number, error } => {
            ("stream", Some(number as u64), None, None, Some(error))
        }
        Damage::Entries { count } => ("entries", None, Some(count), None, None),
        Damage::Regions { count } => ("regions", None, Some(count), None, None),
        Damage::Modules { count } => ("modules", None, Some(count), None, None),
        Damage::Texts { number, count } => {
            ("texts", Some(number as u64), Some(count), None, None)
        }
        Damage::Records { number, count } => {
            ("records", Some(number as u64), Some(count), None, None)
        }
        Damage::Exception { error } => ("exception", None, None, None, Some(error)),
        Damage::Parameters { thread, count } => {
            ("parameters", None, Some(count), Some(thread), None)
        }
        Damage::ExceptionContext { thread } => {
            ("exception_context", None, None, Some(thread), None)
        }
        Damage::ThreadContext { thread } => ("thread_context", None, None, Some(thread), None),
        Damage::Stack { thread } => ("stack", None, None, Some(thread), None),
    }
}
