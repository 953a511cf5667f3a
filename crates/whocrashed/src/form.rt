ghost use Rattle.std.specs.Prelude.{◌≡◌, ◌++◌, [], ◌∷◌, IfOk, None, false, true};
ghost use Rattle.std.specs.Option.{option_copied, option_map};
ghost use Rattle.crash.specs.Crash.{crash_of};
ghost use Rattle.crash_symbols.specs.Shown.{symbolized_of};
ghost use Rattle.whocrashed.specs.Form.{IsByFiles, form_in, text_limits};
ghost use Rattle.whocrashed_inputs.specs.Options.{has_dirs};

use crate::report::Reporter;
use crash::Crash;
use crash_json::{JsonLimits, json_of};
use crash_symbols::{Backtraces, Symbolized};
use crash_text::{TextLimits, text_of};
use std::alloc::AllocError;
use std::str;
use whocrashed_inputs::{Form, SymbolCache, unknown};

// The most rounds in which symbol files are looked for, for one dump.
const ROUNDS: usize = 64;

impl Reporter<'_, '_, '_> {
    /// Makes the form of a crash that is asked for, by the symbol files of its modules if there are
    /// directories of these. They are read in rounds: the rules of those that are read may lead to
    /// frames in further modules.
    pub(crate) fn form_of(
        &self,
        path: &str,
        crash: &Crash<'_>,
        cache: &mut SymbolCache<'_>,
    ) -> Result<Vec<u8>, AllocError>
        ensures plain { has_dirs self.now.options.now ≡ false → IfOk result (λ form. form.items
            ≡ form_in self.now.options.now.form (text_limits self.now.options.now) path.now None
            (crash_of crash.now)) }
        ensures by_files { has_dirs self.now.options.now ≡ true → IfOk result (λ form. IsByFiles
            self.now.options.now.form (text_limits self.now.options.now)
            self.now.options.now.scan path.now (crash_of crash.now) form.items) }
    {
        if self.options.symbols.is_empty() {
            return self.form_by(path, crash, None);
        }
        let (alloc, scan) = (self.rt.alloc(), self.options.scan);
        let modules = crash.modules.loaded.as_slice();
        let mut symbols = unknown(alloc, modules)?;
        let mut backtraces = Backtraces::find(alloc, crash, &symbols, scan)?;
        for _ in 0..ROUNDS {
            let wanted = backtraces.wanted(alloc, crash, &symbols)?;
            if wanted.is_empty() {
                break;
            }
            cache.find(modules, &wanted, &mut symbols);
            backtraces = Backtraces::find(alloc, crash, &symbols, scan)?;
        }
        let symbols = Symbolized {
            symbols: &symbols,
            backtraces: &backtraces,
        };
        self.form_by(path, crash, Some(&symbols))
    }

    // Makes the form of a crash that is asked for, by these symbols. A JSON that isn't UTF-8, which
    // no crash has, is `null` in the page.
    #[tactic(auto, unfolding(crate::specs::Form::form_in, crate::specs::Form::json_in))]
    fn form_by(
        &self,
        path: &str,
        crash: &Crash<'_>,
        symbols: Option<&Symbolized<'_, '_>>,
    ) -> Result<Vec<u8>, AllocError>
        ensures { IfOk result (λ form. form.items ≡ form_in self.now.options.now.form
            (text_limits self.now.options.now) path.now
            (option_map symbolized_of (option_copied symbols.entry)) (crash_of crash.now)) }
    {
        let alloc = self.rt.alloc();
        let options = self.options;
        let text_limits = TextLimits {
            frames: options.frames,
            all_threads: options.all_threads,
            lists: options.lists,
            modules: options.modules,
            handles: options.handles,
            environment: options.environment,
        };
        let json_limits = JsonLimits {
            frames: options.frames,
            environment: options.environment,
        };
        match options.form {
            Form::Lines => Ok(text_of(alloc, crash, &text_limits, symbols)?.into_bytes()),
            Form::Json => end_line(json_of(alloc, Some(path), crash, &json_limits, symbols)?),
            Form::Html => {
                let json = json_of(alloc, Some(path), crash, &json_limits, symbols)?;
                let json = str::from_utf8(&json).unwrap_or("null");
                Ok(crash_html::page(alloc, json)?.into_bytes())
            }
        }
    }
}

/// Ends a line.
pub(crate) fn end_line(mut line: Vec<u8>) -> Result<Vec<u8>, AllocError>
    ensures { IfOk result (λ ended. ended.items ≡ line.items ++ 0x0a ∷ []) }
{
    line.push(b'\n')?;
    Ok(line)
}
