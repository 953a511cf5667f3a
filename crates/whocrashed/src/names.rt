ghost use Rattle.std.specs.Prelude.{◌≡◌, [], IfOk, Some, string_bytes};
ghost use Rattle.std.specs.Option.{option_map};
ghost use Rattle.whocrashed.specs.Run.{known_text};

use crate::complain::complain;
use minidump_names::{NameTable, family_name, listing_in};
use std::alloc::{AllocError, Global};
use std::collections::BTreeMap;
use std::fs;
use whocrashed_inputs::Options;

/// Returns the text of the names that are asked for: those that are compiled in, unless they are
/// left out, and those of each file. Of two names of a code that of the later file counts. Returns
/// `None` if a file can't be read, or isn't one of names, which it says on standard error.
pub(crate) fn names_text(
    rt: &HostRuntime,
    options: &Options<'_>,
) -> Result<Option<String>, AllocError>
    ensures { IfOk result (λ text. options.now.names.items ≡ []
        → option_map string_bytes text ≡ Some (known_text options.now.only_names)) }
{
    let known = if options.only_names {
        String::new(rt.alloc())
    } else {
        known_names::text(rt.alloc())?
    };
    if options.names.is_empty() {
        return Ok(Some(known));
    }
    match read_texts(rt, options.names.as_slice())? {
        Some(texts) => Ok(Some(merged(rt.alloc(), known.as_str(), texts.as_slice())?)),
        None => Ok(None),
    }
}

// Reads files of names. Returns `None` if one can't be read or isn't one of names, which it says.
fn read_texts(rt: &HostRuntime, paths: &[&str]) -> Result<Option<Vec<Vec<u8>>>, AllocError> {
    let mut texts = Vec::new(rt.alloc());
    for path in paths {
        match fs::read(rt, *path) {
            Ok(text) => {
                if let Err(error) = NameTable::read(rt.alloc(), &text) {
                    complain(rt, *path, &error)?;
                    return Ok(None);
                }
                texts.push(text)?;
            }
            Err(error) => {
                complain(rt, *path, &error)?;
                return Ok(None);
            }
        }
    }
    Ok(Some(texts))
}

// Makes one text of several, all of them of names. Of two names of a code the last counts.
fn merged(alloc: Global, first: &str, others: &[Vec<u8>]) -> Result<String, AllocError> {
    let mut names = BTreeMap::new(alloc);
    put_names(&mut names, first.as_bytes())?;
    for text in others {
        put_names(&mut names, text)?;
    }
    let mut out = String::new(alloc);
    for ((family, number), name) in names.iter() {
        write!(out, "{family} {number} {name}\n")?;
    }
    Ok(out)
}

// Puts the names of a text into a map, by the names of their families and their numbers.
fn put_names<'t>(
    names: &mut BTreeMap<(&'t str, u32), &'t str>,
    text: &'t [u8],
) -> Result<(), AllocError> {
    for line in text.split(|byte| *byte == b'\n') {
        if let Some(listing) = listing_in(line) {
            names.insert((family_name(listing.family), listing.number), listing.name)?;
        }
    }
    Ok(())
}
