//! Laws of the definitions, each as a function that does nothing: its clause is the law.
ghost use Rattle.std.specs.Prelude.{◌≡◌, ◌↔◌, ℕ, List};
ghost use Rattle.minidump.specs.Below.Records.Handles.{Handle};
ghost use Rattle.minidump.specs.Dump.{Dump};
ghost use Rattle.crash_process.specs.Directory.{HasErrorOfStream};
ghost use Rattle.crash_process.specs.HandleKinds.{IsTally, KindValue, tally};
ghost use Rattle.crash_process.specs.Modules.{IsByAddress, LoadedValue, by_address};

/// The entry of type ExceptionStream has the error for which [`minidump::Minidump::get_stream`]
/// can't read the exception of a dump, though all exceptions are read at once.
pub fn the_last_exception_has_the_error_of_the_stream()
    ensures { (d : Dump) → HasErrorOfStream d }
{
    minidump::laws::last_exception_is_the_stream();
}

/// Exactly one list of indices is by address, that of `by_address`: the indices in the pairs of a base
/// address and an index, one pair of each module, strictly ascending by the address, and by the index
/// where that is the same.
pub fn modules_are_by_address()
    ensures { (modules : List LoadedValue) (indices : List ℕ) → IsByAddress modules indices
        ↔ (indices ≡ by_address modules) }
{}

/// Exactly one list of kinds is the tally of handles, that of `tally`: it has a name exactly if the
/// type of a handle has it, once, strictly ascending by its bytes, with the number of handles that have
/// it.
pub fn handles_are_counted_by_type()
    ensures { (handles : List Handle) (kinds : List KindValue) → IsTally handles kinds
        ↔ (kinds ≡ tally handles) }
{}
