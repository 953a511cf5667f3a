//! A law of the definitions, as a function that does nothing: its clause is the law.
ghost use Rattle.std.specs.Prelude.{Bool, List};
ghost use Rattle.crash_threads.specs.Last.{IsLastOrNone, last_index};

/// The definition of the last item that is chosen, by which the exception that counts, the thread that
/// crashed, and the stack and the unloaded module of an address are defined, gives the one that is
/// chosen and after which none is, and none only where no item is chosen.
pub fn the_last_index_is_that_of_the_last_chosen<X>()
    ensures { (is_chosen : X → Bool) (items : List X)
        → IsLastOrNone is_chosen items (last_index is_chosen items) }
{}
