//! Where the thread that crashed stands.
ghost use Rattle.std.specs.Prelude.{◌≡◌, IfOk, filter, map};
ghost use Rattle.crash_threads.specs.Addresses.{is_placed};
ghost use Rattle.crash_threads.specs.Point.{point_of};
ghost use Rattle.crash_json.specs.Frames.{named_json, register_members};
ghost use Rattle.crash_json.specs.Point.{point_json, register_json, word_json};

use crate::tree::{Members, Put, ToJson, members};
use crash::{AddressFacts, CrashPoint, StackWord};
use json::Writer;
use std::alloc::{AllocError, Global};

impl ToJson for CrashPoint<'_> {
    ghost json = { λ p. point_json (point_of p) };

    fn put(&self, out: &mut Writer, alloc: Global) -> Put {
        let placed = placed_of(alloc, self.registers.as_slice())?;
        members! {
            "instruction": self.instruction,
            "registers": &placed,
            "code": self.code,
            "words": &self.words,
            "flags": &self.flags,
            "set_flags": &self.set_flags,
        }
        .put_object(out, alloc)
    }
}

impl ToJson for StackWord {
    ghost json = { word_json };

    #[tactic(auto, unfolding(crate::specs::Point::word_json))]
    fn put(&self, out: &mut Writer, alloc: Global) -> Put {
        members! { "address": self.address, "value": self.value, ..self.module }.put_object(
            out, alloc,
        )
    }
}

// Registers or flags, each by its name: an object, and not the array of the impl of any `Vec`.
impl ToJson for Vec<(&'static str, u64)> {
    ghost json = { λ named. named_json (map (λ r. (r.0.now, r.1)) named.items) };

    fn put(&self, out: &mut Writer, alloc: Global) -> Put {
        self.put_object(out, alloc)
    }
}

impl Members for Vec<(&'static str, u64)> {
    ghost members = { λ named. register_members (map (λ r. (r.0.now, r.1)) named.items) };

    #[tactic(auto, unfolding(crate::specs::Tree::member_list_tokens))]
    fn add(&self, out: &mut Writer, alloc: Global) -> Put {
        let named = self.as_slice();
        for (name, value) in named {
            out.key(*name)?;
            value.put(out, alloc)?;
        }
        Ok(())
    }
}

// Returns the registers whose values lie in a module, an unloaded module or the stack of a thread.
fn placed_of(
    alloc: Global,
    registers: &[(&'static str, AddressFacts)],
) -> Result<Vec<(&'static str, AddressFacts)>, AllocError>
    ensures { IfOk result (λ placed. placed.items ≡ filter (λ r. is_placed r.1) registers.now) }
{
    registers
        .iter()
        .copied()
        .filter(|r| r.1.is_placed())
        .collect(alloc)
}

impl ToJson for (&'static str, AddressFacts) {
    ghost json = { λ r. register_json (r.0.now, r.1) };

    fn put(&self, out: &mut Writer, alloc: Global) -> Put {
        members! { "name": self.0, ..self.1 }.put_object(out, alloc)
    }
}
