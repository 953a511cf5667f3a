//! Laws of the names of codes and of crash reasons.
ghost use Rattle.std.specs.Prelude.{◌≡◌, ◌↔◌, ◌≤◌, ◌<◌, ◌^◌, ℕ, List, Some, false};
ghost use Rattle.minidump_bytes.specs.Exact.{IsExact};
ghost use Rattle.minidump_reason.specs.declared.family.CodeFamily.{CodeFamily as Family};
ghost use Rattle.minidump_reason.specs.Names.{HasName, is_in, name_of};

use crate::{CodeFamily, CodeNames, CodeNamesError, CrashReason};

/// A code of a family has a name exactly where the list of the family holds it with that name.
pub fn codes_have_their_listed_names(names: &CodeNames<'_>)
    ensures { (family : Family) → (code : ℕ) → (name : List ℕ)
        → (name_of names.now family code ≡ Some name) ↔ (HasName names.now family code name) }
{
    let _lists = names.lists();
}

/// A code of more than 32 bits is in no list.
pub fn wide_codes_are_unlisted(names: &CodeNames<'_>, family: CodeFamily, code: u64)
    ensures { 2 ^ 32 ≤ code → is_in names.now family code ≡ false }
{
    match names.find_code(family, code) {
        Some(code) => has_32_bits(code),
        None => {}
    }
}

// Proves that a code has at most 32 bits.
fn has_32_bits(_code: u32)
    ensures { _code < 2 ^ 32 }
{}

/// An error equals the same error alone, and a clone of it is the same error.
pub fn errors_compare_and_copy_exactly()
    ensures { IsExact ⟦<CodeNamesError as PartialEq>⟧.eq ⟦<CodeNamesError as Clone>⟧.is_clone }
{}

/// A reason equals the same reason alone, and a clone of it is the same reason.
pub fn reasons_compare_and_copy_exactly()
    ensures { IsExact ⟦<CrashReason as PartialEq>⟧.eq ⟦<CrashReason as Clone>⟧.is_clone }
{}
