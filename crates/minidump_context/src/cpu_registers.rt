ghost use Rattle.std.specs.Prelude.{◌≡◌};
ghost use Rattle.std.specs.Iterator.{YieldsFirstBy, item_count};
ghost use Rattle.std.specs.Option.{option_copied};
ghost use Rattle.minidump_context.specs.Register.{names_of, registers_left, is_valid, all_or};

use crate::{CpuContext, MinidumpContextValidity};

/// An iterator over the names and values of a context's registers, in the order of the list of
/// names.
#[derive(Clone, Drop)]
pub struct CpuRegisters<'a, T> {
    pub(crate) context: &'a T,
    // Which registers are yielded; `None` for all.
    pub(crate) valid: Option<&'a MinidumpContextValidity>,
    // The index in the list of names at which the search for the next register starts.
    pub(crate) index: usize,
}

impl<'a, T: CpuContext> Iterator for CpuRegisters<'a, T> {
    type Item = (&'static str, T::Register);

    ghost next_gives = { YieldsFirstBy (λ r. (r.0.now, r.1))
        (registers_left (names_of T.table) T.aliases T.values) };

    ghost remaining = { item_count
        (registers_left (names_of T.table) T.aliases T.values) };

    fn next(&mut self) -> Option<(&'static str, T::Register)> {
        let names = T::names();
        while self.index < names.len() {
            let index = self.index;
            self.index += 1;
            let name = names[index];
            if is_yielded(self.context, name, self.valid) {
                return Some((name, self.context.register_at(index)));
            }
        }
        None
    }
}

// Returns whether the iterator yields the register of a name.
fn is_yielded<T: CpuContext>(
    context: &T,
    name: &str,
    valid: Option<&MinidumpContextValidity>,
) -> bool
    ensures { result
        ≡ is_valid (all_or (option_copied valid.entry)) (names_of T.table) T.aliases name.now }
{
    match valid {
        Some(valid) => context.register_is_valid(name, valid),
        None => context.register_is_valid(name, &MinidumpContextValidity::All),
    }
}
