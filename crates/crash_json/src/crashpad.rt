//! Crashpad's information: its identifiers and its annotations.
ghost use Rattle.std.specs.Prelude.{string_bytes};
ghost use Rattle.json.specs.Json.{string};
ghost use Rattle.minidump.specs.Below.Format.Guid.{guid_text};
ghost use Rattle.minidump.specs.Below.Records.Annotations.{annotation_of};
ghost use Rattle.minidump.specs.Below.Records.Crashpad.{module_of};
ghost use Rattle.minidump.specs.Promise.{crashpad_info_stream};
ghost use Rattle.minidump.specs.Below.Records.CrashpadText.{annotation_text};
ghost use Rattle.crash_json.specs.Tree.{array_of};
ghost use Rattle.crash_json.specs.Crashpad.{crashpad_json, crashpad_module_json, entry_json};

use crate::tree::{Members, Put, ToJson, members};
use crash::annotation_text;
use json::Writer;
use minidump::format::GUID;
use minidump::{MinidumpAnnotation, MinidumpCrashpadInfo, MinidumpModuleCrashpadInfo};
use std::alloc::Global;
use std::collections::BTreeMap;

impl ToJson for MinidumpCrashpadInfo {
    ghost json = { λ c. crashpad_json (crashpad_info_stream.value c) };

    #[tactic(auto, unfolding(crate::specs::Crashpad::crashpad_json), using(crate::proofs::Tokens::views))]
    fn put(&self, out: &mut Writer, alloc: Global) -> Put {
        members! {
            "report_id": self.raw.report_id,
            "client_id": self.raw.client_id,
            "annotations": &self.simple_annotations,
            "modules": &self.module_list,
        }
        .put_object(out, alloc)
    }
}

impl ToJson for GUID {
    ghost json = { λ id. string (guid_text id) };

    fn put(&self, out: &mut Writer, alloc: Global) -> Put {
        let id = *self;
        let text = format!(in alloc; "{id}")?;
        out.string(text.as_str())
    }
}

impl ToJson for MinidumpModuleCrashpadInfo {
    ghost json = { λ m. crashpad_module_json (module_of m) };

    fn put(&self, out: &mut Writer, alloc: Global) -> Put {
        members! {
            "module_index": self.module_index,
            "list": &self.list_annotations,
            "annotations": &self.simple_annotations,
            "objects": &self.annotation_objects,
        }
        .put_object(out, alloc)
    }
}

// ---- annotations

// A text as it is, and the kind of any other annotation.
impl ToJson for MinidumpAnnotation {
    ghost json = { λ a. string (annotation_text (annotation_of a)) };

    fn put(&self, out: &mut Writer, _alloc: Global) -> Put {
        out.string(annotation_text(self))
    }
}

// The entries of a dictionary.
impl<V: ToJson> ToJson for BTreeMap<String, V> {
    ghost json = { λ d. array_of (λ e. entry_json (string_bytes e.0) (V.json e.1)) d.entries };

    fn put(&self, out: &mut Writer, alloc: Global) -> Put {
        let entries: Vec<(&String, &V)> = self.iter().collect(alloc)?;
        entries.put(out, alloc)
    }
}

impl<'l, V: ToJson> ToJson for (&'l String, &'l V) {
    ghost json = { λ e. entry_json (string_bytes e.0.now) (V.json e.1.now) };

    #[tactic(auto, unfolding(crate::specs::Crashpad::entry_json))]
    fn put(&self, out: &mut Writer, alloc: Global) -> Put {
        members! { "name": self.0, "value": self.1, }.put_object(out, alloc)
    }
}
