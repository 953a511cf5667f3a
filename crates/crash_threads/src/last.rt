//! The last item of a list that is chosen.
ghost use Rattle.std.specs.Fn.{FnReturnsAt};
ghost use Rattle.crash_threads.specs.Last.{IsLastIndex};

/// Returns the index of the last item that is chosen, or `None` if none is.
pub(crate) fn last_index<X, F: Fn(&X) -> bool>(items: &[X], is_chosen: F) -> Option<usize>
    requires { F.IsAlwaysCallable is_chosen }
    ensures { IsLastIndex (FnReturnsAt F.Fn is_chosen) items.now result }
{
    let mut last = None;
    for (index, item) in items.iter().enumerate() {
        if is_chosen(item) {
            last = Some(index);
        }
    }
    last
}
