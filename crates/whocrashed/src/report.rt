ghost use Rattle.std.specs.Prelude.{◌≡◌, ◌≢◌, ◌<◌, ◌++◌, ℕ, List, [], ◌∷◌, IfOk, IsOk, IsSome};
ghost use Rattle.std.specs.Prelude.{OnErr, OnOk};
ghost use Rattle.crash.specs.Crash.{crash_in, status_of};
ghost use Rattle.crash_json.specs.Report.{error_text};
ghost use Rattle.minidump.specs.Below.Format.Error.{name_of_error};
ghost use Rattle.whocrashed_inputs.specs.Input.{asked_of};
ghost use Rattle.whocrashed.specs.Output.{Gains, GainsBy, failure_of};
ghost use Rattle.whocrashed.specs.Printed.{IsBegun, IsErrorLine, IsFailure, IsReport, IsPrintedOf};
ghost use Rattle.whocrashed.specs.Printed.{IsUnreported, heading_of};
ghost use Rattle.whocrashed.specs.Run.{HasReport, MayHave, path_of};
ghost use Rattle.whocrashed.specs.Status.{status_read};

use crate::complain::{complain, complain_in_any_case, say};
use crate::form::end_line;
use crate::output::{Output, OutputFailed, Stopped};
use crash::{Crash, status_of};
use crash_json::error_json;
use crash_text::push_line;
use minidump::text::Piece;
use minidump::{CodeNames, Error};
use std::alloc::AllocError;
use std::io::Write;
use std::{fmt, io};
use whocrashed_inputs::{Dump, Form, Options, ReadDumps, SymbolCache};

const NO_MEMORY: &str = "{\"path\":null,\"status\":\"OutOfMemory\"}\n";

/// What prints reports on dumps, as the options say.
#[derive(Clone, Copy)]
pub(crate) struct Reporter<'l, 'n, 'w> {
    pub(crate) rt: &'l HostRuntime,
    pub(crate) names: &'l CodeNames<'n>,
    pub(crate) options: &'l Options<'w>,
}

impl Reporter<'_, '_, '_> {
    /// Reports on a dump, which `source` reads, and returns the status: that of the crash of its
    /// bytes, or 1 if it can't be read or is too large, if its path isn't UTF-8, or if memory runs
    /// out for it.
    pub(crate) fn report<S: ReadDumps, O: Write>(
        &self,
        source: &S,
        dump: Dump<'_>,
        cache: &mut SymbolCache<'_>,
        out: &mut Output<O>,
    ) -> Result<u8, OutputFailed>
        ensures reported { IfOk result (λ status. Gains O.contents out.old out.new (MayHave
            (S.reads source.now) self.now.names.now self.now.options.now (asked_of dump.entry)
            status)) }
        ensures bound { IfOk result (λ status. status < 2) }
        ensures failed { OnErr result (IsSome (failure_of out.new)) }
    {
        match self.try_report(source, dump, cache, out) {
            Ok(status) => Ok(status),
            Err(Stopped::NoMemory(error)) => {
                self.complain_of_memory(dump, &error, out)?;
                Ok(1)
            }
            Err(Stopped::NoOutput) => Err(OutputFailed),
        }
    }

    // Does so, but running out of memory is an error, too.
    fn try_report<S: ReadDumps, O: Write>(
        &self,
        source: &S,
        dump: Dump<'_>,
        cache: &mut SymbolCache<'_>,
        out: &mut Output<O>,
    ) -> Result<u8, Stopped>
        ensures reported { GainsBy O.contents out.old out.new (HasReport (S.reads source.now)
            self.now.names.now self.now.options.now (asked_of dump.entry))
            (IsBegun self.now.options.now (path_of (asked_of dump.entry))) result }
        ensures bound { IfOk result (λ status. status < 2) }
    {
        match dump {
            Dump::Input => self.report_file("-", source.read_input(), cache, out),
            Dump::File(path) => self.report_file(path, source.read_file(path), cache, out),
            Dump::Malformed(path) => {
                // it is printed with U+FFFD for what isn't UTF-8
                let path = String::from_utf8_lossy(self.rt.alloc(), path)?;
                self.report_failure(path.as_str(), &"the path isn't UTF-8", out)
            }
        }
    }

    // Prints that memory ran out at a dump, with its path where that is UTF-8 and there is memory for
    // the line.
    fn complain_of_memory<O: Write>(
        &self,
        dump: Dump<'_>,
        error: &io::Error,
        out: &mut Output<O>,
    ) -> Result<(), OutputFailed>
        ensures printed { OnOk result (Gains O.contents out.old out.new (IsUnreported
            self.now.options.now.form (path_of (asked_of dump.entry))
            (name_of_error Error.OutOfMemory))) }
        ensures failed { OnErr result (IsSome (failure_of out.new)) }
    {
        let path = match dump {
            Dump::Input => Some("-"),
            Dump::File(path) => Some(path),
            Dump::Malformed(_) => None,
        };
        match (self.options.form, path) {
            (Form::Json, Some(path)) => self.print_error(path, Error::OutOfMemory.name(), out)?,
            (Form::Json, None) => out.put(NO_MEMORY.as_bytes())?,
            (Form::Lines | Form::Html, Some(path)) => complain_in_any_case(self.rt, path, error),
            (Form::Lines | Form::Html, None) => say(self.rt, "whocrashed: Out of memory\n"),
        }
        Ok(())
    }

    // Reports on what was read at a path, and returns its status.
    #[tactic(auto, unfolding(crate::specs::Printed::IsPrintedOf, crate::specs::Status::status_read))]
    fn report_file<O: Write>(
        &self,
        path: &str,
        read: io::Result<Option<Vec<u8>>>,
        cache: &mut SymbolCache<'_>,
        out: &mut Output<O>,
    ) -> Result<u8, Stopped>
        ensures reported { GainsBy O.contents out.old out.new (λ status text.
            (status ≡ status_read self.now.names.now self.now.options.now.scan read)
            × IsPrintedOf self.now.names.now self.now.options.now path.now read text)
            (IsBegun self.now.options.now path.now) result }
        ensures bound { IfOk result (λ status. status < 2) }
    {
        match read {
            Ok(Some(bytes)) => self.report_bytes(path, &bytes, cache, out),
            Ok(None) => {
                let limit = self.options.limit;
                let words = format!(in self.rt.alloc(); "larger than {limit} bytes")?;
                self.report_failure(path, &words, out)
            }
            Err(error) if error.kind() == io::ErrorKind::OutOfMemory => Err(Stopped::NoMemory(
                error,
            )),
            Err(error) => self.report_failure(path, &error, out),
        }
    }

    // Reports on a dump, whose bytes are `bytes`, and returns its status.
    fn report_bytes<O: Write>(
        &self,
        path: &str,
        bytes: &[u8],
        cache: &mut SymbolCache<'_>,
        out: &mut Output<O>,
    ) -> Result<u8, Stopped>
        ensures { GainsBy O.contents out.old out.new (λ status text. (status ≡ status_of
            (crash_in bytes.now self.now.names.now self.now.options.now.scan))
            × IsReport self.now.options.now path.now
            (crash_in bytes.now self.now.names.now self.now.options.now.scan) text)
            (IsBegun self.now.options.now path.now) result }
    {
        self.print_heading(path, out)?;
        let crash = Crash::read(self.rt.alloc(), bytes, self.names, self.options.scan);
        let status = status_of(&crash);
        match crash {
            Ok(crash) => {
                let form = self.form_of(path, &crash, cache);
                crash.close();
                out.put(&form?)?;
            }
            Err(error) => self.report_error(path, error, out)?,
        }
        Ok(status)
    }

    // Prints the path of a dump before its lines, unless it is the only argument and no list of
    // paths is asked for.
    #[tactic(auto, unfolding(crate::specs::Printed::heading_of))]
    fn print_heading<O: Write>(&self, path: &str, out: &mut Output<O>) -> Result<(), Stopped>
        ensures { GainsBy O.contents out.old out.new (λ _ text. text
            ≡ heading_of self.now.options.now path.now) (λ text. text ≡ []) result }
    {
        let is_one = self.options.dumps.len() == 1 && !self.options.are_listed;
        if matches!(self.options.form, Form::Lines) && !is_one {
            let mut text = String::new(self.rt.alloc());
            push_line(&mut text, &[Piece::Words("dump    "), Piece::Words(path)])?;
            out.put(text.as_bytes())?;
        }
        Ok(())
    }

    // Reports why bytes are no dump. That memory ran out is returned.
    fn report_error<O: Write>(
        &self,
        path: &str,
        error: Error,
        out: &mut Output<O>,
    ) -> Result<(), Stopped>
        ensures memory { IsOk result → error ≢ Error.OutOfMemory }
        ensures printed { GainsBy O.contents out.old out.new (λ _. IsUnreported
            self.now.options.now.form path.now (name_of_error error)) (λ text. text ≡ []) result }
    {
        match (error, self.options.form) {
            (Error::OutOfMemory, _) => Err(Stopped::from(AllocError)),
            (error, Form::Json) => Ok(self.print_error(path, error.name(), out)?),
            (error, Form::Lines | Form::Html) => Ok(complain(self.rt, path, &error)?),
        }
    }

    // Prints why there is no report on a file, on standard error or as its line of JSON, and
    // returns its status, 1.
    fn report_failure<E: fmt::Display, O: Write>(
        &self,
        path: &str,
        why: &E,
        out: &mut Output<O>,
    ) -> Result<u8, Stopped>
        ensures { GainsBy O.contents out.old out.new (λ status text. (status ≡ 1)
            × IsFailure (E.output why.now) self.now.options.now.form path.now text)
            (λ text. text ≡ []) result }
    {
        if matches!(self.options.form, Form::Json) {
            let words = format!(in self.rt.alloc(); "{why}")?;
            self.print_error(path, words.as_str(), out)?;
        } else {
            complain(self.rt, path, why)?;
        }
        Ok(1)
    }

    // Prints the line of JSON of a file without a report in one write, or a line that takes no
    // memory where there was none for that.
    fn print_error<O: Write>(
        &self,
        path: &str,
        status: &str,
        out: &mut Output<O>,
    ) -> Result<(), OutputFailed>
        ensures printed { OnOk result (Gains O.contents out.old out.new (IsErrorLine path.now
            status.now)) }
        ensures failed { OnErr result (IsSome (failure_of out.new)) }
    {
        match self.error_line(path, status) {
            Ok(line) => out.put(&line),
            Err(_) => out.put(NO_MEMORY.as_bytes()),
        }
    }

    // Makes the line of JSON of a file without a report.
    fn error_line(&self, path: &str, status: &str) -> Result<Vec<u8>, AllocError>
        ensures { IfOk result (λ line. line.items
            ≡ error_text path.now status.now ++ 0x0a ∷ []) }
    {
        end_line(error_json(self.rt.alloc(), path, status)?)
    }
}
