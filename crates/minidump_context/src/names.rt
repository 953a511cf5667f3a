ghost use Rattle.std.specs.Prelude.{◌≡◌, ◌<◌, IfSome, length, map, position};
ghost use Rattle.std.specs.Str.{bytes_eq};
ghost use Rattle.minidump_context.specs.Register.{canonical_name, register_index};

// Returns the canonical name that a name is an alias of, or the name itself if it is none.
fn canonical_name<'a>(aliases: &[(&'static str, &'static str)], name: &'a str) -> &'a str
    ensures { result.now ≡ canonical_name (map (λ a. (a.0.now, a.1.now)) aliases.now) name.now }
{
    for alias in aliases {
        if alias.0 == name {
            return alias.1;
        }
    }
    name
}

// Returns the index in the list of the register that has a name, be it canonical or an alias.
pub(crate) fn register_index(
    names: &[&'static str],
    aliases: &[(&'static str, &'static str)],
    name: &str,
) -> Option<usize>
    ensures value { result ≡ register_index (map (λ n. n.now) names.now)
        (map (λ a. (a.0.now, a.1.now)) aliases.now) name.now }
    ensures within { IfSome result (λ i. i < length names.now) }
{
    first_index(names, canonical_name(aliases, name))
}

// Returns the index of the first occurrence of a name in a list.
fn first_index(names: &[&'static str], name: &str) -> Option<usize>
    ensures value { result ≡ position (λ n. bytes_eq n.now name.now) names.now }
    ensures within { IfSome result (λ i. i < length names.now) }
{
    names.iter().position(|n| *n == name)
}
