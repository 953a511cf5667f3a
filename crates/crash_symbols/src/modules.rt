ghost use Rattle.std.specs.Prelude.{◌≡◌, IfOk, string_bytes};
ghost use Rattle.std.specs.List.{list_any};
ghost use Rattle.std.specs.Option.{option_map};
ghost use Rattle.breakpad_symbols.specs.SymbolFile.{symbols_of};
ghost use Rattle.crash_process.specs.Modules.{loaded_of};
ghost use Rattle.crash_symbols.specs.Modules.{is_of_module, is_plain_name, separates, stem};
ghost use Rattle.crash_symbols.specs.Modules.{symbol_path};

use breakpad_symbols::SymbolFile;
use crash::{CrashModule, file_name};
use std::alloc::{AllocError, Global};

/// Tells whether a symbol file is that of a module: the identifier in its MODULE line is the
/// module's debug identifier, in letters of either case.
pub fn is_of_module(file: &SymbolFile<'_>, module: &CrashModule) -> bool
    ensures { result ≡ is_of_module (symbols_of file.now) (loaded_of module.now) }
{
    match &module.debug_id {
        Some(id) => {
            let found = file.module_record().id.as_bytes();
            found.eq_ignore_ascii_case(id.as_str().as_bytes())
        }
        None => false,
    }
}

/// Returns the path of the symbol file of a module below a directory of symbol files, as Breakpad
/// lays it out: `NAME/ID/NAME.sym`. NAME is the name of the debug file, in the last part without
/// the ending `.pdb` in letters of either case, and ID is the debug identifier. Returns `None` if
/// the module lacks one of them, or if one can't be the name of a file: it is empty, `.` or `..`,
/// or has a `/`, a `\` or a NUL.
pub fn symbol_path(alloc: Global, module: &CrashModule) -> Result<Option<String>, AllocError>
    ensures { IfOk result (λ path. option_map string_bytes path
        ≡ symbol_path (loaded_of module.now)) }
{
    let (Some(file), Some(id)) = (&module.debug_file, &module.debug_id) else {
        return Ok(None);
    };
    let (name, id) = (file_name(file.as_str()), id.as_str());
    if !is_plain_name(name) || !is_plain_name(id) {
        return Ok(None);
    }
    Ok(Some(format!(in alloc; "{}/{}/{}.sym", name, id, stem(name))?))
}

// Tells whether a text can be the name of a file or a directory in another one.
fn is_plain_name(name: &str) -> bool
    ensures { result ≡ is_plain_name name.now }
{
    let bytes = name.as_bytes();
    !bytes.is_empty()
        && !has_separator(bytes)
        && bytes != b".".as_slice()
        && bytes != b"..".as_slice()
}

// Tells whether a text has a byte that no name can have.
fn has_separator(name: &[u8]) -> bool
    ensures { result ≡ list_any separates name.now }
{
    name.iter().any(|b| *b == b'/' || *b == b'\\' || *b == 0)
}

// Returns the name of a debug file without the ending `.pdb`.
#[tactic(auto, using(crate::proofs::PathLemmas::before_dot))]
fn stem(name: &str) -> &str
    ensures { result.now ≡ stem name.now }
{
    let len = name.len().saturating_sub(4);
    if name.as_bytes()[len..].eq_ignore_ascii_case(b".pdb") {
        &name[..len]
    } else {
        name
    }
}
