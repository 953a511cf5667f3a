//! The system on which a process ran, and what Linux says of it and of the process.
ghost use Rattle.json.specs.Json.{string};
ghost use Rattle.minidump.specs.Below.Bytes.LinuxOsStr.{parts_of};
ghost use Rattle.minidump.specs.Below.Contexts.Context.{map_ok};
ghost use Rattle.minidump.specs.Below.System.Cpu.{cpu_name};
ghost use Rattle.minidump.specs.Below.System.Os.{os_long_name};
ghost use Rattle.minidump.specs.Promise.{linux_environ_stream, linux_proc_limits_stream};
ghost use Rattle.crash_process.specs.Linux.{limit_of};
ghost use Rattle.crash_process.specs.Process.{system_of};
ghost use Rattle.crash_process.specs.Release.{release_of};
ghost use Rattle.crash_json.specs.System.{environment_members, limit_json, limits_json, release_json};
ghost use Rattle.crash_json.specs.System.{system_json, variable_json, with_build};

use crate::tree::{Members, Put, ToJson, members};
use crash::{CrashSystem, LsbRelease, ProcessLimit, limits_of, variables_of};
use json::Writer;
use minidump::strings::LinuxOsStr;
use minidump::system_info::{Cpu, Os};
use minidump::text::Piece::Words;
use minidump::text::format_pieces;
use minidump::{Error, MinidumpLinuxEnviron, MinidumpLinuxProcLimits};
use std::alloc::{AllocError, Global};

impl ToJson for CrashSystem {
    ghost json = { λ s. system_json (system_of s) };

    fn put(&self, out: &mut Writer, alloc: Global) -> Put {
        members! {
            "os": self.os,
            "os_ver": Version(self),
            "cpu_arch": self.cpu,
            "cpu_info": &self.cpu_model,
            "cpu_count": self.processors,
            "cpu_microcode_version": &self.microcode,
        }
        .put_object(out, alloc)
    }
}

impl ToJson for Os {
    ghost json = { λ os. string (os_long_name os) };

    fn put(&self, out: &mut Writer, alloc: Global) -> Put {
        match self.long_name(alloc) {
            Ok(name) => out.string(name.as_str()),
            Err(_) => Err(AllocError),
        }
    }
}

impl ToJson for Cpu {
    ghost json = { λ cpu. string (cpu_name cpu) };

    fn put(&self, out: &mut Writer, alloc: Global) -> Put {
        let cpu = *self;
        let text = format!(in alloc; "{cpu}")?;
        out.string(text.as_str())
    }
}

// The version of a system, and its build if that is known.
#[derive(Clone, Copy)]
struct Version<'l>(&'l CrashSystem);

impl ToJson for Version<'_> {
    ghost json = { λ v. string (with_build (system_of v.0.now).version (system_of v.0.now).build) };

    fn put(&self, out: &mut Writer, alloc: Global) -> Put {
        let version = self.0.version.as_str();
        match &self.0.build {
            Some(build) => {
                let pieces = [Words(version), Words(" "), Words(build.as_str())];
                let text = format_pieces(alloc, &pieces)?;
                out.string(text.as_str())
            }
            None => out.string(version),
        }
    }
}

impl ToJson for LsbRelease {
    ghost json = { λ r. release_json (release_of r) };

    #[tactic(auto, unfolding(crate::specs::System::release_json), using(crate::proofs::Tokens::views))]
    fn put(&self, out: &mut Writer, alloc: Global) -> Put {
        members! {
            "id": &self.id,
            "release": &self.release,
            "codename": &self.codename,
            "description": &self.description,
        }
        .put_object(out, alloc)
    }
}

// ---- the limits

impl ToJson for MinidumpLinuxProcLimits<'_> {
    ghost json = { λ l. limits_json (linux_proc_limits_stream.value l) };

    #[tactic(auto, unfolding(crate::specs::System::limits_json), using(crate::proofs::Tokens::views))]
    fn put(&self, out: &mut Writer, alloc: Global) -> Put {
        let limits = limits_of(alloc, self)?;
        members! { "limits": &limits, }.put_object(out, alloc)
    }
}

impl ToJson for ProcessLimit {
    ghost json = { λ l. limit_json (limit_of l) };

    fn put(&self, out: &mut Writer, alloc: Global) -> Put {
        members! {
            "name": &self.name,
            "soft": &self.soft,
            "hard": &self.hard,
            "unit": &self.unit,
        }
        .put_object(out, alloc)
    }
}

// ---- the environment

/// The environment, and whether its variables are asked for.
#[derive(Clone, Copy)]
pub(crate) struct Environment<'l, 'a> {
    pub(crate) is_asked: bool,
    pub(crate) found: &'l Result<MinidumpLinuxEnviron<'a>, Error>,
}

impl Members for Environment<'_, '_> {
    ghost members = { λ e. environment_members e.is_asked
        (map_ok linux_environ_stream.value e.found.now) };

    #[tactic(auto, using(crate::proofs::Tokens::views))]
    fn add(&self, out: &mut Writer, alloc: Global) -> Put {
        match self.found {
            Ok(found) => {
                let variables = variables_of(alloc, found)?;
                let asked = if self.is_asked {
                    Some(&variables)
                } else {
                    None
                };
                members! { "environment": asked, "environment_count": variables.len(), }.add(
                    out, alloc,
                )
            }
            Err(_) => members! { "environment": (), "environment_count": (), }.add(out, alloc),
        }
    }
}

impl<'a> ToJson for (LinuxOsStr<'a>, LinuxOsStr<'a>) {
    ghost json = { λ p. variable_json (parts_of p) };

    #[tactic(auto, unfolding(crate::specs::Crashpad::entry_json))]
    fn put(&self, out: &mut Writer, alloc: Global) -> Put {
        members! { "name": self.0, "value": self.1, }.put_object(out, alloc)
    }
}
