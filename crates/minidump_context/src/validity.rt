ghost use Rattle.std.specs.Prelude.{◌≡◌, ◌&&◌, IfOk, IsOkUnless, IsSome, OnErr, map};
ghost use Rattle.std.specs.List.{list_any};
ghost use Rattle.std.specs.Str.{bytes_eq};
ghost use Rattle.minidump_context.specs.Register.{holds, holds_any, set_names};

use minidump_format::Error;
use std::alloc::Global;
use std::collections::HashSet;

/// Which registers of a context are valid.
#[derive(PartialEq, Eq, Drop)]
pub enum MinidumpContextValidity {
    /// All registers are valid.
    All,
    /// The registers with a name in the set are valid, be it the canonical name or an alias.
    Some(HashSet<&'static str>),
}

impl MinidumpContextValidity {
    /// Copies the set. The only error is `OutOfMemory`, and only if there is a set.
    pub fn try_clone(&self, alloc: Global) -> Result<Self, Error>
        ensures same { IfOk result (λ copy. set_names copy ≡ set_names self.now) }
        ensures memory { IsOkUnless result Error.OutOfMemory }
        ensures some { OnErr result (IsSome (set_names self.now)) }
    {
        match self {
            MinidumpContextValidity::All => Ok(MinidumpContextValidity::All),
            MinidumpContextValidity::Some(names) => {
                Ok(MinidumpContextValidity::Some(names.clone()?))
            }
        }
    }

    // Returns whether the set has a name.
    fn holds(&self, name: &str) -> bool
        ensures { result ≡ holds self.now name.now }
    {
        match self {
            MinidumpContextValidity::All => true,
            MinidumpContextValidity::Some(names) => names.contains(name),
        }
    }

    // Returns whether the set has a canonical name or an alias of it.
    pub(crate) fn holds_any(
        &self,
        aliases: &[(&'static str, &'static str)],
        canonical: &str,
    ) -> bool
        ensures { result
            ≡ holds_any self.now (map (λ a. (a.0.now, a.1.now)) aliases.now) canonical.now }
    {
        self.holds(canonical) || self.holds_alias(aliases, canonical)
    }

    // Returns whether the set has an alias of a canonical name.
    fn holds_alias(&self, aliases: &[(&'static str, &'static str)], canonical: &str) -> bool
        ensures { result
            ≡ list_any (λ a. bytes_eq a.1.now canonical.now && holds self.now a.0.now) aliases.now }
    {
        aliases
            .iter()
            .any(|alias| alias.1 == canonical && self.holds(alias.0))
    }
}
