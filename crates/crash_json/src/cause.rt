//! Where and why a process crashed: the crash, the exceptions, and the address.
ghost use Rattle.std.specs.Prelude.{◌≡◌, IfOk, string_bytes};
ghost use Rattle.std.specs.Option.{option_and_then, option_map};
ghost use Rattle.minidump.specs.Below.Contexts.Context.{map_ok};
ghost use Rattle.minidump.specs.Below.Format.Error.{name_of_error};
ghost use Rattle.minidump.specs.Promise.{assertion_stream};
ghost use Rattle.json.specs.Json.{string};
ghost use Rattle.crash_threads.specs.Cause.{cause_of, counted_exception, exception_of};
ghost use Rattle.crash.specs.Crash.{crash_of};
ghost use Rattle.crash_streams.specs.Records.{signal_code_name};
ghost use Rattle.crash_json.specs.Cause.{access_name, address_json, address_members};
ghost use Rattle.crash_json.specs.Cause.{crash_info_json, exception_json, expression_in, memory_json};
ghost use Rattle.crash_json.specs.Cause.{place_members, problem_name, sender_json, state_name};

use crate::tree::{Decimal, Members, Put, ToJson, members};
use crash::{
    Access, AddressFacts, AddressMemory, ContextProblem, Crash, CrashCause, CrashException, Sender,
    SignalCode, unaccepted_size,
};
use json::Writer;
use minidump::own_streams::text_before_nul;
use minidump::{Error, MinidumpAssertion};
use std::alloc::{AllocError, Global};

// ---- the crash

/// The crash, by the exception that counts.
#[derive(Clone, Copy)]
pub(crate) struct CrashInfo<'l, 'a>(pub(crate) &'l Crash<'a>);

impl ToJson for CrashInfo<'_, '_> {
    ghost json = { λ c. crash_info_json (crash_of c.0.now) };

    fn put(&self, out: &mut Writer, alloc: Global) -> Put {
        let crash = self.0;
        let assertion = expression_of(alloc, &crash.contents.messages.assertion)?;
        members! {
            "type": crash.cause.reason(),
            "address": address_of(&crash.cause),
            "crashing_thread": crash.threads.crashing,
            "assertion": &assertion,
        }
        .put_object(out, alloc)
    }
}

// Returns the address of the crash.
fn address_of(cause: &CrashCause) -> Option<u64>
    ensures { result ≡ option_and_then (λ e. e.address) (counted_exception (cause_of cause.now)) }
{
    cause.counted()?.address
}

// Makes the text of the expression of an assertion.
fn expression_of(
    alloc: Global,
    assertion: &Result<MinidumpAssertion, Error>,
) -> Result<Option<String>, AllocError>
    ensures { IfOk result (λ text. option_map string_bytes text
        ≡ expression_in (map_ok assertion_stream.value assertion.now)) }
{
    match assertion {
        Ok(assertion) => text_before_nul(alloc, &assertion.raw.expression),
        Err(_) => Ok(None),
    }
}

// ---- exceptions

// An exception, or why it can't be read: not by the impl of any `Result`, since an exception has no
// value of its own.
impl ToJson for Result<CrashException, Error> {
    ghost json = { λ e. exception_json (map_ok exception_of e) };

    fn put(&self, out: &mut Writer, alloc: Global) -> Put {
        match self {
            Ok(exception) => members! {
                "thread_id": exception.thread,
                "code": exception.code as u64,
                "flags": exception.flags as u64,
                "exception_address": exception.at,
                "nested": exception.nested,
                "parameters": &exception.parameters,
                "access": exception.access,
                "sender": exception.sender,
                "address": exception.address,
                "type": &exception.reason,
                "description": &exception.description,
                "context_problem": exception.context_problem,
                "context_size": Decimal(unaccepted_size(exception.context_problem)),
                "error": (),
            }
            .put_object(out, alloc),
            Err(error) => members! {
                "thread_id": (),
                "code": (),
                "flags": (),
                "exception_address": (),
                "nested": (),
                "parameters": (),
                "access": (),
                "sender": (),
                "address": (),
                "type": (),
                "description": (),
                "context_problem": (),
                "context_size": (),
                "error": error,
            }
            .put_object(out, alloc),
        }
    }
}

// An error, by its name.
impl ToJson for Error {
    ghost json = { λ error. string (name_of_error error) };

    fn put(&self, out: &mut Writer, _alloc: Global) -> Put {
        out.string(self.name())
    }
}

impl ToJson for Access {
    ghost json = { λ access. string (access_name access) };

    fn put(&self, out: &mut Writer, _alloc: Global) -> Put {
        match *self {
            Access::Read => out.string("read"),
            Access::Write => out.string("write"),
            Access::Execute => out.string("execute"),
        }
    }
}

impl ToJson for ContextProblem {
    ghost json = { λ problem. string (problem_name problem) };

    fn put(&self, out: &mut Writer, _alloc: Global) -> Put {
        match *self {
            ContextProblem::Outside => out.string("outside"),
            ContextProblem::NoSystem => out.string("no system"),
            ContextProblem::NotAccepted { .. } => out.string("not accepted"),
        }
    }
}

impl ToJson for Sender {
    ghost json = { sender_json };

    #[tactic(auto, unfolding(crate::specs::Cause::sender_json))]
    fn put(&self, out: &mut Writer, alloc: Global) -> Put {
        members! {
            "process_id": self.process,
            "user_id": self.user,
            "code": self.code,
        }
        .put_object(out, alloc)
    }
}

impl ToJson for SignalCode {
    ghost json = { λ code. string (signal_code_name code) };

    fn put(&self, out: &mut Writer, _alloc: Global) -> Put {
        out.string(self.name())
    }
}

// ---- the address

impl ToJson for AddressFacts {
    ghost json = { address_json };

    fn put(&self, out: &mut Writer, alloc: Global) -> Put {
        self.put_object(out, alloc)
    }
}

impl Members for AddressFacts {
    ghost members = { address_members };

    #[tactic(auto, unfolding(crate::specs::Cause::address_members))]
    fn add(&self, out: &mut Writer, alloc: Global) -> Put {
        members! {
            "address": self.address,
            "null_offset": self.null_offset,
            "is_canonical": self.is_canonical,
            ..self.module,
            "unloaded_module": self.unloaded,
            "stack_of": self.stack_of,
            "below_stack": self.below_stack,
            "memory": self.memory,
        }
        .add(out, alloc)
    }
}

// The index of a module and the offset in it, or none.
impl Members for Option<(usize, u64)> {
    ghost members = { place_members };

    fn add(&self, out: &mut Writer, alloc: Global) -> Put {
        match *self {
            Some((index, offset)) => {
                members! { "module": index, "module_offset": offset, }.add(out, alloc)
            }
            None => members! { "module": (), "module_offset": (), }.add(out, alloc),
        }
    }
}

impl ToJson for AddressMemory {
    ghost json = { memory_json };

    #[tactic(auto, unfolding(crate::specs::Cause::memory_json))]
    fn put(&self, out: &mut Writer, alloc: Global) -> Put {
        let rights = self.rights();
        members! {
            "state": state_name(*self),
            "is_readable": rights.map(|rights| rights.is_readable),
            "is_writable": rights.map(|rights| rights.is_writable),
            "is_executable": rights.map(|rights| rights.is_executable),
            "is_guarded": rights.map(|rights| rights.is_guarded),
        }
        .put_object(out, alloc)
    }
}

// Returns the word for the state of memory.
fn state_name(memory: AddressMemory) -> &'static str
    ensures { result.now ≡ state_name memory }
{
    match memory {
        AddressMemory::Free => "free",
        AddressMemory::Reserved => "reserved",
        AddressMemory::Committed(_) => "committed",
    }
}
