//! Handles and their kinds, what macOS keeps of a crash and of its boot, Mozilla's soft errors, and an
//! assertion.
ghost use Rattle.std.specs.Prelude.{◌≡◌, IfOk, IfSome};
ghost use Rattle.std.specs.Option.{option_copied, option_map};
ghost use Rattle.json.specs.Tree.{HasNumbers};
ghost use Rattle.json.specs.Value.{value_view};
ghost use Rattle.minidump.specs.Below.Records.Record.{mac_record_of};
ghost use Rattle.minidump.specs.Promise.{assertion_stream, handle_data_stream};
ghost use Rattle.minidump.specs.Promise.{mac_bootargs_stream, mac_crash_info_stream};
ghost use Rattle.minidump.specs.Promise.{soft_errors_stream};
ghost use Rattle.minidump.specs.Below.Records.Handles.{handle_of};
ghost use Rattle.crash_process.specs.HandleKinds.{kind_of};
ghost use Rattle.crash_json.specs.Tree.{array_of};
ghost use Rattle.crash_json.specs.Records.{assertion_json, assertion_kind, boot_args_json, handle_json};
ghost use Rattle.crash_json.specs.Records.{kind_json, mac_crash_json};
ghost use Rattle.crash_json.specs.Records.{mac_record_json, soft_json, value_in};

use crate::tree::{Length, Members, Put, ToJson, members};
use crash::HandleKind;
use json::{Reader, Scratch, Value, Writer};
use minidump::own_streams::text_before_nul;
use minidump::{
    MinidumpAssertion, MinidumpHandleDataStream, MinidumpHandleDescriptor, MinidumpMacBootargs,
    MinidumpMacCrashInfo, MinidumpSoftErrors, RawMacCrashInfo,
};
use std::alloc::{AllocError, Global};

// ---- handles

impl ToJson for MinidumpHandleDataStream {
    ghost json = { λ handles. array_of handle_json (handle_data_stream.value handles) };

    #[tactic(auto, using(crate::proofs::Tokens::views))]
    fn put(&self, out: &mut Writer, alloc: Global) -> Put {
        self.handles.put(out, alloc)
    }
}

impl ToJson for MinidumpHandleDescriptor {
    ghost json = { λ h. handle_json (handle_of h) };

    #[tactic(auto, unfolding(crate::specs::Records::handle_json), using(crate::proofs::Tokens::views))]
    fn put(&self, out: &mut Writer, alloc: Global) -> Put {
        members! {
            "handle": self.raw.handle().copied(),
            "type_name": &self.type_name,
            "object_name": &self.object_name,
        }
        .put_object(out, alloc)
    }
}

impl ToJson for HandleKind {
    ghost json = { λ k. kind_json (kind_of k) };

    #[tactic(auto, unfolding(crate::specs::Records::kind_json))]
    fn put(&self, out: &mut Writer, alloc: Global) -> Put {
        members! { "type_name": &self.type_name, "count": self.count, }.put_object(out, alloc)
    }
}

// ---- macOS

impl ToJson for MinidumpMacCrashInfo {
    ghost json = { λ records. mac_crash_json (mac_crash_info_stream.value records) };

    fn put(&self, out: &mut Writer, alloc: Global) -> Put {
        members! { "num_records": Length(&self.raw), "records": &self.raw, }.put_object(out, alloc)
    }
}

impl ToJson for RawMacCrashInfo {
    ghost json = { λ r. mac_record_json (mac_record_of r) };

    fn put(&self, out: &mut Writer, alloc: Global) -> Put {
        members! {
            "thread": self.thread().copied(),
            "dialog_mode": self.dialog_mode().copied(),
            "abort_cause": self.abort_cause().copied(),
            "module": self.module_path(),
            "message": self.message(),
            "signature_string": self.signature_string(),
            "backtrace": self.backtrace(),
            "message2": self.message2(),
        }
        .put_object(out, alloc)
    }
}

// The arguments of the boot.
impl ToJson for MinidumpMacBootargs {
    ghost json = { λ b. boot_args_json (mac_bootargs_stream.value b) };

    #[tactic(auto, unfolding(crate::specs::Records::boot_args_json), using(crate::proofs::Tokens::views))]
    fn put(&self, out: &mut Writer, alloc: Global) -> Put {
        self.bootargs.put(out, alloc)
    }
}

// ---- soft errors

// The value of their text if that is JSON, else the text.
impl ToJson for MinidumpSoftErrors<'_> {
    ghost json = { λ e. soft_json (soft_errors_stream.value e) };

    #[tactic(auto, unfolding(crate::specs::Records::soft_json))]
    fn put(&self, out: &mut Writer, alloc: Global) -> Put {
        let text = self.as_ref();
        let mut scratch = Scratch::new(alloc);
        match value_in(alloc, text, &mut scratch)? {
            Some(value) => out.value(&value),
            None => out.string(text),
        }
    }
}

// Returns the value of a text that is JSON and nests at most 127 deep, or `None`.
fn value_in<'a>(
    alloc: Global,
    text: &'a str,
    scratch: &'a mut Scratch,
) -> Result<Option<Value<'a>>, AllocError>
    ensures value { IfOk result (λ found. option_map value_view found ≡ value_in text.now) }
    ensures writable { IfOk result (λ found. IfSome found (λ v. HasNumbers (value_view v))) }
{
    let mut reader = Reader::new(text, scratch)?;
    let value = match Value::read(alloc, &mut reader, 127) {
        Ok(value) => value,
        Err(json::Error::Invalid) => return Ok(None),
        Err(_) => return Err(AllocError),
    };
    match reader.next() {
        None => Ok(Some(value)),
        Some(_) => Ok(None),
    }
}

// ---- an assertion

impl ToJson for MinidumpAssertion {
    ghost json = { λ a. assertion_json (assertion_stream.value a) };

    fn put(&self, out: &mut Writer, alloc: Global) -> Put {
        let expression = text_before_nul(alloc, &self.raw.expression)?;
        let function = text_before_nul(alloc, &self.raw.function)?;
        let file = text_before_nul(alloc, &self.raw.file)?;
        members! {
            "kind": assertion_kind(self.raw._type),
            "expression": &expression,
            "function": &function,
            "file": &file,
            "line": self.raw.line,
        }
        .put_object(out, alloc)
    }
}

// Returns the words for the kind of an assertion, of those that Breakpad has.
fn assertion_kind(kind: u32) -> Option<&'static str>
    ensures { option_copied result ≡ assertion_kind kind }
{
    match kind {
        1 => Some("invalid parameter"),
        2 => Some("pure virtual call"),
        _ => None,
    }
}
