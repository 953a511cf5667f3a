ghost use Rattle.std.specs.Prelude.{◌≡◌, IfOk, IsOkUnless, string_bytes};
ghost use Rattle.std.specs.Option.{option_map};
ghost use Rattle.minidump.specs.Below.Contexts.Context.{map_ok};
ghost use Rattle.minidump.specs.DumpValue.{dump_of};
ghost use Rattle.minidump.specs.Promise.{linux_cpu_info_stream, linux_proc_status_stream};
ghost use Rattle.minidump.specs.Promise.{misc_info_stream, system_info_stream};
ghost use Rattle.crash_streams.specs.Contents.{contents_of};
ghost use Rattle.crash_process.specs.Process.{cpu_model, id_in, process_in, process_of, system_in, system_of};
ghost use Rattle.crash_process.specs.Process.{status_id, uptime_in, version_and_build};

use crate::handle_kinds::{HandleKind, kinds_of};
use crate::linux::{LsbRelease, release_of};
use crate::process_texts::{
    Comments, command_line_of, comments_of, cpu_text, status_number, status_size,
};
use crash_streams::Contents;
use minidump::format::PlatformId;
use minidump::system_info::{Cpu, Os};
use minidump::{
    Error, Minidump, MinidumpLinuxCpuInfo, MinidumpLinuxProcStatus, MinidumpMiscInfo,
    MinidumpSystemInfo,
};
use std::alloc::{AllocError, Global};

/// What is known of a process, and of the system on which it ran.
#[derive(Drop)]
pub struct CrashProcess {
    /// The system, or `None` if its information can't be read.
    pub system: Option<CrashSystem>,
    /// The id, by the misc information, else by Linux's status, `Tgid` or else `Pid`: that status is a
    /// thread's, whose own id is `Pid`. `None` if neither has it.
    pub id: Option<u32>,
    /// The id of its parent, `PPid` of Linux's status; 0 if that is outside of the process's
    /// namespace.
    pub parent: Option<u32>,
    /// For how many seconds it had run when the dump was written, or `None` if one of the times
    /// isn't there, is 0, or they are not in order.
    pub uptime: Option<u64>,
    /// How many bytes of it were in memory: `VmRSS` of Linux's status, which is in kB of 1,024 bytes.
    pub resident: Option<u64>,
    /// The release of Linux, or `None` if its stream can't be read.
    pub release: Option<LsbRelease>,
    /// The arguments of its command line, as the copy of Linux's `/proc/PID/cmdline` has them, with a
    /// space between two and U+FFFD for what isn't UTF-8, and without white space around them all;
    /// `None` if its stream can't be read.
    pub command_line: Option<String>,
    /// The comments of the dump.
    pub comments: Comments,
    /// The kinds of its handles, ascending by the bytes of their names; none if the stream can't be
    /// read. A handle whose type has no name is of no kind.
    pub handle_kinds: Vec<HandleKind>,
}

/// The system on which a process ran.
#[derive(Drop)]
pub struct CrashSystem {
    /// The operating system.
    pub os: Os,
    /// The architecture of the processors.
    pub cpu: Cpu,
    /// The number of processors.
    pub processors: u8,
    /// The version of the operating system, by [`MinidumpSystemInfo::os_parts`], where Android counts
    /// as Linux: of both Breakpad has it in a text.
    pub version: String,
    /// The build of that version, or on Windows its service pack, in the same way.
    pub build: Option<String>,
    /// The description of the processor, by the system information, else the first `model name` of
    /// Linux's `/proc/cpuinfo`, with U+FFFD for what isn't UTF-8.
    pub cpu_model: Option<String>,
    /// The version of the processor's microcode: the first `microcode` of Linux's `/proc/cpuinfo`, as
    /// `0xde`, with U+FFFD for what isn't UTF-8.
    pub microcode: Option<String>,
}

/// Returns what is known of the process of a dump with these contents.
pub fn process_of(
    alloc: Global,
    dump: &Minidump<'_>,
    contents: &Contents<'_>,
) -> Result<CrashProcess, Error>
    ensures process { IfOk result (λ process. process_of process
        ≡ process_in (dump_of dump.now) (contents_of contents.now)) }
    ensures memory { IsOkUnless result Error.OutOfMemory }
{
    Ok(CrashProcess {
        system: system_of(alloc, &contents.system.system, &contents.system.cpu_info)?,
        id: id_of(&contents.system.misc, &contents.process.status),
        parent: status_number(&contents.process.status, b"PPid"),
        uptime: uptime_of(dump.header.time_date_stamp, &contents.system.misc),
        resident: status_size(&contents.process.status, b"VmRSS"),
        release: release_of(alloc, &contents.system.lsb_release)?,
        command_line: command_line_of(alloc, dump)?,
        comments: comments_of(alloc, dump)?,
        handle_kinds: kinds_of(alloc, &contents.process.handles)?,
    })
}

// Returns the system, by its information and by Linux's description of the processors.
fn system_of(
    alloc: Global,
    system: &Result<MinidumpSystemInfo, Error>,
    cpu: &Result<MinidumpLinuxCpuInfo<'_>, Error>,
) -> Result<Option<CrashSystem>, Error>
    ensures system { IfOk result (λ found. option_map system_of found
        ≡ system_in (map_ok system_info_stream.value system.now)
        (map_ok linux_cpu_info_stream.value cpu.now)) }
    ensures memory { IsOkUnless result Error.OutOfMemory }
{
    let Ok(system) = system else {
        return Ok(None);
    };
    let (version, build) = version_and_build(alloc, system)?;
    Ok(Some(CrashSystem {
        os: system.os,
        cpu: system.cpu,
        processors: system.raw.number_of_processors,
        version,
        build,
        cpu_model: cpu_model_of(alloc, system, cpu)?,
        microcode: cpu_text(alloc, cpu, b"microcode")?,
    }))
}

// Makes the version of a system, and its build.
fn version_and_build(
    alloc: Global,
    system: &MinidumpSystemInfo,
) -> Result<(String, Option<String>), Error>
    ensures parts { IfOk result (λ r. (string_bytes r.0, option_map string_bytes r.1)
        ≡ version_and_build (system_info_stream.value system.now)) }
    ensures memory { IsOkUnless result Error.OutOfMemory }
{
    match system.os {
        Os::Android => {
            let mut as_linux = system.try_clone(alloc)?;
            as_linux.raw.platform_id = PlatformId::Linux.number();
            as_linux.os_parts(alloc)
        }
        _ => system.os_parts(alloc),
    }
}

// Copies the description of the processor.
fn cpu_model_of(
    alloc: Global,
    system: &MinidumpSystemInfo,
    cpu: &Result<MinidumpLinuxCpuInfo<'_>, Error>,
) -> Result<Option<String>, AllocError>
    ensures { IfOk result (λ model. option_map string_bytes model
        ≡ cpu_model (system_info_stream.value system.now)
        (map_ok linux_cpu_info_stream.value cpu.now)) }
{
    match system.cpu_info() {
        Some(model) => Ok(Some(String::from_str(alloc, model)?)),
        None => cpu_text(alloc, cpu, b"model name"),
    }
}

// Returns the id of the process, by the misc information, else by Linux's status.
fn id_of(
    misc: &Result<MinidumpMiscInfo, Error>,
    status: &Result<MinidumpLinuxProcStatus<'_>, Error>,
) -> Option<u32>
    ensures { result ≡ id_in (map_ok misc_info_stream.value misc.now)
        (map_ok linux_proc_status_stream.value status.now) }
{
    misc.as_ref()
        .map_or(None, |misc| misc.raw.process_id().copied())
        .or(status_id(status))
}

// Returns the id of the process by Linux's status.
fn status_id(status: &Result<MinidumpLinuxProcStatus<'_>, Error>) -> Option<u32>
    ensures { result ≡ status_id (map_ok linux_proc_status_stream.value status.now) }
{
    status_number(status, b"Tgid").or(status_number(status, b"Pid"))
}

// Returns for how many seconds the process had run.
fn uptime_of(stamp: u32, misc: &Result<MinidumpMiscInfo, Error>) -> Option<u64>
    ensures { result ≡ uptime_in stamp (map_ok misc_info_stream.value misc.now) }
{
    match misc.as_ref().ok()?.process_create_time()? {
        0 => None,
        begun => (stamp as u64).checked_sub(begun),
    }
}
