ghost use Rattle.std.specs.Prelude.{◌≡◌};
ghost use Rattle.std.specs.Iterator.{YieldsFirstBy, item_count};
ghost use Rattle.std.specs.Option.{option_copied};
ghost use Rattle.minidump_context.specs.Register.{all_or};
ghost use Rattle.minidump_context.specs.Context.{context_registers_left, registers_of, valid_value_in};

use crate::{MinidumpContextValidity, MinidumpRawContext};

/// An iterator over the names and values of a context's registers, in the order of the list of
/// names.
#[derive(Clone, Drop)]
pub struct ContextRegisters<'a> {
    pub(crate) raw: &'a MinidumpRawContext,
    // Which registers are valid; `None` if all are.
    pub(crate) valid: Option<&'a MinidumpContextValidity>,
    // The index in the list of names at which the search for the next register starts.
    pub(crate) index: usize,
}

impl<'a> ContextRegisters<'a> {
    // Returns the value of a register, or `None` if the iterator doesn't yield it.
    fn valid_value(&self, name: &str) -> Option<u64>
        ensures { result ≡ valid_value_in (all_or (option_copied self.now.valid))
            (registers_of self.now.raw.now) name.now }
    {
        match self.valid {
            Some(valid) => self.raw.get_register(name, valid),
            None => self.raw.get_register(name, &MinidumpContextValidity::All),
        }
    }
}

impl<'a> Iterator for ContextRegisters<'a> {
    type Item = (&'static str, u64);

    ghost next_gives = { YieldsFirstBy (λ r. (r.0.now, r.1)) context_registers_left };

    ghost remaining = { item_count context_registers_left };

    fn next(&mut self) -> Option<(&'static str, u64)> {
        let names = self.raw.names();
        while self.index < names.len() {
            let name = names[self.index];
            self.index += 1;
            if let Some(value) = self.valid_value(name) {
                return Some((name, value));
            }
        }
        None
    }
}
