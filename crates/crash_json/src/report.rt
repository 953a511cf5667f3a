//! The line of a crash.
ghost use Rattle.std.specs.Option.{option_copied};
ghost use Rattle.crash.specs.Crash.{crash_of};
ghost use Rattle.crash_json.specs.Tree.{Adds};
ghost use Rattle.crash_json.specs.ReportValue.{report_of};
ghost use Rattle.crash_json.specs.Report.{path_members, before_threads, stream_members, system_members};

use crate::JsonLimits;
use crate::cause::CrashInfo;
use crate::dump::put_minidump;
use crate::modules::{main_module, put_modules};
use crate::threads::{put_crashing, put_threads};
use crate::tree::{Length, Members, Put, ToJson, members};
use crash::Crash;
use crash_symbols::Symbolized;
use json::Writer;
use std::alloc::Global;

/// A crash, with the path of its file if it has one, how much is written, and the symbols where they
/// are known.
#[derive(Clone, Copy)]
pub(crate) struct Report<'l, 'a, 's, 'n> {
    pub(crate) path: Option<&'l str>,
    pub(crate) crash: &'l Crash<'a>,
    pub(crate) limits: JsonLimits,
    pub(crate) symbols: Option<&'l Symbolized<'s, 'n>>,
}

impl ToJson for Report<'_, '_, '_, '_> {
    ghost use Rattle.crash_json.specs.Report.{line_json};

    ghost json = { λ r. line_json (report_of r) };

    fn put(&self, out: &mut Writer, alloc: Global) -> Put {
        out.begin_object()?;
        add_path(self.path, out, alloc)?;
        add_system(self.crash, out, alloc)?;
        out.key("modules")?;
        put_modules(self, out, alloc)?;
        add_before_threads(self.crash, out, alloc)?;
        out.key("threads")?;
        put_threads(self, out, alloc)?;
        out.key("crashing_thread")?;
        put_crashing(self, out, alloc)?;
        add_streams(self.crash, out, alloc)?;
        out.key("minidump")?;
        put_minidump(self, out, alloc)?;
        out.end_object()
    }
}

// Adds the path of the file, if it has one.
#[tactic(auto, unfolding(crate::specs::Tree::member_list_tokens))]
fn add_path(path: Option<&str>, out: &mut Writer, alloc: Global) -> Put
    ensures { Adds result out.old out.new (path_members (option_copied path.entry)) }
{
    match path {
        Some(path) => members! { "path": path, }.add(out, alloc),
        None => Ok(()),
    }
}

// Adds the system, the crash, and which module is the main one.
fn add_system(crash: &Crash<'_>, out: &mut Writer, alloc: Global) -> Put
    ensures { Adds result out.old out.new (system_members (crash_of crash.now)) }
{
    members! {
        "status": "OK",
        "system_info": &crash.process.system,
        "crash_info": CrashInfo(crash),
        "main_module": main_module(crash.modules.loaded.as_slice()),
    }
    .add(out, alloc)
}

// Adds what stands between the modules and the threads: the modules that were unloaded, the id of the
// process, and how many threads it has.
fn add_before_threads(crash: &Crash<'_>, out: &mut Writer, alloc: Global) -> Put
    ensures { Adds result out.old out.new (before_threads (crash_of crash.now)) }
{
    members! {
        "unloaded_modules": &crash.modules.unloaded,
        "pid": crash.process.id,
        "thread_count": Length(&crash.threads.threads),
    }
    .add(out, alloc)
}

// Adds what single streams hold.
fn add_streams(crash: &Crash<'_>, out: &mut Writer, alloc: Global) -> Put
    ensures { Adds result out.old out.new (stream_members (crash_of crash.now)) }
{
    members! {
        "lsb_release": &crash.process.release,
        "mac_crash_info": &crash.contents.messages.mac_crash_info,
        "mac_boot_args": &crash.contents.messages.mac_boot_args,
        "handles": &crash.contents.process.handles,
        "soft_errors": &crash.contents.messages.soft_errors,
        "linux_memory_map_count": crash.contents.space.map_count,
        "proc_limits": &crash.contents.process.limits,
    }
    .add(out, alloc)
}
