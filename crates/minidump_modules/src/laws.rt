//! Laws of modules, over the definitions that contracts cite.
ghost use Rattle.std.specs.Prelude.{◌≡◌, ◌↔◌, ◌<◌, ◌^◌, ℕ, All, IsTrue, List, length, Some};
ghost use Rattle.minidump_index.specs.Lookup.{HasRegionLaws};
ghost use Rattle.minidump_modules.specs.CodeId.{text_of};
ghost use Rattle.minidump_modules.specs.DebugId.{breakpad_text, by_guid, from_breakpad};
ghost use Rattle.minidump_modules.specs.Module.{ModuleValue, module_identity, range_of_module};
ghost use Rattle.minidump_modules.specs.UnloadedModule.{UnloadedValue, unloaded_identity};
ghost use Rattle.minidump_modules.specs.UnloadedOrder.{HasUnloadedLaws};

use crate::{CodeId, MinidumpModule, MinidumpUnloadedModule, Module};

/// The laws of a list of modules: how lookups, the order by address and the modules fit together.
#[tactic(auto, using(minidump_index::proofs::RegionLaws::region_laws))]
pub fn region_laws()
    ensures { (modules : List ModuleValue) → HasRegionLaws range_of_module modules }
{}

/// The laws of a list of unloaded modules: there is one order by start, with exactly the modules
/// that have a range, and one answer at each address, with exactly those that contain it.
#[tactic(auto, using(crate::proofs::UnloadedLaws::unloaded_laws))]
pub fn unloaded_laws()
    ensures { (modules : List UnloadedValue) → HasUnloadedLaws modules }
{}

/// Identifiers of code are equal where their digits are.
pub fn code_ids_compare_by_their_digits()
    ensures { (x y : CodeId) → IsTrue (⟦<CodeId as PartialEq>⟧.eq x y) ↔ (text_of x ≡ text_of y) }
{}

/// A loaded module is known by what its entry, its name and its CodeView record say; an unloaded
/// one by its entry and its name.
pub fn modules_are_identified_as_defined()
    ensures loaded { ⟦<MinidumpModule as Module>⟧.identity ≡ module_identity }
    ensures unloaded { ⟦<MinidumpUnloadedModule as Module>⟧.identity ≡ unloaded_identity }
{}

/// The text that `DebugId::breakpad` gives a GUID with an appendix is read by
/// `DebugId::from_breakpad` as the same identifier.
#[tactic(auto, using(crate::proofs::BreakpadLemmas::reads_back))]
pub fn breakpad_texts_are_read_back()
    ensures { (bytes : List ℕ) (appendix : ℕ) → length bytes ≡ 16 → All (λ b. b < 256) bytes
        → appendix < 2 ^ 32
        → from_breakpad (breakpad_text (by_guid bytes appendix)) ≡ Some (by_guid bytes appendix) }
{}
