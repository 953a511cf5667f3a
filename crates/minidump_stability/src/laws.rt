//! Laws of the stability report, over the definitions that its contracts cite.
ghost use Rattle.std.specs.Prelude.{◌≡◌, ◌↔◌, ℕ, IsTrue, List, MatchResult, None, Option, Some};
ghost use Rattle.minidump_bytes.specs.declared.endian.Endian.{Endian};
ghost use Rattle.minidump_bytes.specs.Exact.{IsExact};
ghost use Rattle.minidump_bytes.specs.Wire.{Field, SpellsFields};
ghost use Rattle.minidump_format.specs.declared.error.Error.TheVariants.{DataError};
ghost use Rattle.minidump_system.specs.SystemInfo.{System};
ghost use Rattle.minidump_stability.specs.Fields.{fields_in};
ghost use Rattle.minidump_stability.specs.StabilityReport.{report, stability_report_of, stability_report_in};

use crate::{ProcessState, StabilityReport};
use minidump_system::MinidumpStream;

/// Bytes have the fields that they spell, and no others.
pub fn fields_are_what_bytes_spell()
    ensures { (bytes : List ℕ) (fs : List Field) → (fields_in bytes ≡ Some fs)
        ↔ SpellsFields bytes fs }
{}

/// A stream holds a report exactly if it encodes fields that mean this report. For any other stream
/// the error is `DataError`.
pub fn report_is_what_its_fields_mean()
    ensures { (bytes : List ℕ) → MatchResult (stability_report_in bytes)
        (λ r. (fs : List Field) × SpellsFields bytes fs × (report fs ≡ Some r))
        (λ e. (e ≡ DataError) × ((fs : List Field) → SpellsFields bytes fs → report fs ≡ None)) }
{}

/// The report depends on the bytes of its stream alone.
pub fn report_depends_on_its_stream_alone()
    ensures { (bytes all other : List ℕ) (order another : Endian) (s t : Option System)
        → ⟦<StabilityReport as MinidumpStream<'static>>⟧.spec.meaning order all bytes s
        ≡ ⟦<StabilityReport as MinidumpStream<'static>>⟧.spec.meaning another other bytes t }
{}

/// States of a process are equal exactly if they are the same, and a clone is the same state.
pub fn process_states_compare_and_copy_exactly()
    ensures { IsExact ⟦<ProcessState as PartialEq>⟧.eq ⟦<ProcessState as Clone>⟧.is_clone }
{}

/// Reports are equal exactly if they hold the same states.
pub fn reports_compare_by_what_they_hold()
    ensures { (x y : StabilityReport) → IsTrue (⟦<StabilityReport as PartialEq>⟧.eq x y)
        ↔ (stability_report_of x ≡ stability_report_of y) }
{}
