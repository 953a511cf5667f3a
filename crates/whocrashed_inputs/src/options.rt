ghost use Rattle.std.specs.Prelude.{◌≡◌, [], IfErr, IfNone, IfOk, IfSome, MatchOption, None, OnOk};
ghost use Rattle.std.specs.Prelude.{false, map, option_map, true};
ghost use Rattle.clap.specs.Kinds.{FailsBy};
ghost use Rattle.clap.specs.Words.{app_of, found_of, kind_of, rows_of, rule_of};
ghost use Rattle.whocrashed_inputs.specs.Options.{AreOptions, HasTwoForms, IsErrorOf, IsFlag};
ghost use Rattle.whocrashed_inputs.specs.Options.{IsNumber, bare_app, dumps_rule, faults_in};
ghost use Rattle.whocrashed_inputs.specs.Options.{has_several_inputs, is_html, is_json, refusal_in};
ghost use Rattle.whocrashed_inputs.specs.Options.{row_rule, rows_in, rule_by, values_in};
ghost use Rattle.whocrashed_inputs.specs.Options.{whocrashed_app, with_rules};

use clap::error::ErrorKind;
use clap::{Arg, ArgAction, ArgMatches, Command, Error, value_parser};
use std::alloc::{AllocError, Global};

const ABOUT: &str =
    "Prints who crashed, where, why and by whom called: for each minidump the system, the program and the process; the
thread, the address, the reason, the registers and the signature of the crash; what of the dump can't be read; the
frames of that thread; an assertion, Crashpad's annotations and macOS's messages; the first frame of each other
thread; and the modules that have the address of the crash or a printed frame, with what a symbol server is asked by.";

const EXAMPLES: &str = "Examples:
  whocrashed crash.dmp
  whocrashed --symbols symbols --all-threads --frames 100 crash.dmp
  whocrashed --html crash.dmp > crash.html
  curl -s https://example.org/crash.dmp | whocrashed -
  find dumps -name '*.dmp' -print0 | whocrashed --json --stdin-paths > crashes.jsonl

The exit status is 0; 1 if a file can't be read, is too large or is no minidump, if a FILE of names can't be read or has a
malformed line (then no DUMP is read), if something of a dump is there and can't be read, as a stream, a stack, a module or
a name, if memory ran out, or if the output failed; 2 if the arguments are refused. What is missing of symbols
doesn't change it. If the pipe that is written to is closed, the run ends with the status of the dumps before.";

// What follows an option.
enum Takes {
    // nothing: it is a flag
    Nothing,
    // a path, which the help calls so, each time that the option is given
    Paths(&'static str),
    // a number, which the help calls so, and the one that counts if the option isn't given
    Number(&'static str, &'static str),
}

// An option: its name, what follows it, and what it asks for.
type Row = (&'static str, Takes, &'static str);

// The options, in the order of the help.
#[rattlefmt::skip]
const OPTIONS: &[Row] = &[
    ("symbols", Takes::Paths("DIR"),
        "Find and name frames by Breakpad's symbol files, DIR/NAME/ID/NAME.sym; of several DIRs the first that has a file counts"),
    ("symbols-limit", Takes::Number("BYTES", GIBIBYTE), "Read no symbol file with more than BYTES"),
    ("names", Takes::Paths("FILE"),
        "Add the names of codes in FILE; of two names of a code that of the last FILE counts"),
    ("only-names", Takes::Nothing, "Leave out the names of codes that are compiled in"),
    ("all-threads", Takes::Nothing, "Print all frames of each thread in the lines of text"),
    ("lists", Takes::Nothing,
        "Print all streams, modules, regions of memory, handles and limits, and each frame's instruction, stack pointer and frame pointer, in the lines of text"),
    ("modules", Takes::Nothing, "Print all modules in the lines of text, those that were unloaded too"),
    ("handles", Takes::Nothing, "Print all handles in the lines of text"),
    ("environment", Takes::Nothing, "Print the variables of Linux's environment, which may hold secrets"),
    ("frames", Takes::Number("N", "64"), "Print at most N frames of a thread, its candidates included, where N is 1 or more"),
    ("scan", Takes::Number("N", "16"), "Print at most N candidates of a stack"),
    ("json", Takes::Nothing, "Print a line of JSON for each DUMP"),
    ("html", Takes::Nothing, "Print a page in HTML on the one DUMP"),
    ("progress", Takes::Nothing, "Say on standard error how many dumps are done"),
    ("stdin-paths", Takes::Nothing,
        "Take paths of dumps from standard input too, with NULs or else line feeds between them"),
    ("limit", Takes::Number("BYTES", GIBIBYTE), "Read no dump, and no list of paths, with more than BYTES"),
];

const GIBIBYTE: &str = "1073741824";

/// What is printed of a dump.
#[derive(Clone, Copy)]
pub enum Form {
    /// Lines of text.
    Lines,
    /// A line of JSON.
    Json,
    /// A page in HTML.
    Html,
}

/// What the arguments ask for.
#[derive(Drop)]
pub struct Options<'w> {
    /// What is printed of each dump.
    pub form: Form,
    /// The most frames of a thread that are printed: 1 or more.
    pub frames: usize,
    /// Whether all frames of each thread are printed.
    pub all_threads: bool,
    /// Whether the items of all lists are printed, and the instruction, stack pointer and frame
    /// pointer of each frame.
    pub lists: bool,
    /// Whether all modules are printed.
    pub modules: bool,
    /// Whether all handles are printed.
    pub handles: bool,
    /// Whether the variables of the environment are printed.
    pub environment: bool,
    /// The most candidates of a stack.
    pub scan: usize,
    /// The files of names. Of two names of a code that of the later file counts.
    pub names: Vec<&'w str>,
    /// Whether the names that are compiled in are left out.
    pub only_names: bool,
    /// The directories of symbol files, of which the first that has a file counts.
    pub symbols: Vec<&'w str>,
    /// The most bytes of a symbol file.
    pub symbols_limit: usize,
    /// Whether it is said on standard error how many dumps are done.
    pub shows_progress: bool,
    /// The paths of dumps, where `-` is the dump on standard input.
    pub dumps: Vec<&'w str>,
    /// Whether the paths of further dumps stand on standard input.
    pub are_listed: bool,
    /// The most bytes of a dump, and of the list of paths.
    pub limit: usize,
}

impl<'w> Options<'w> {
    /// Reads the arguments, without the program's own name. Returns clap's error if they are
    /// malformed or refused, and if they ask for the help or the version.
    pub fn read(alloc: Global, words: &'w [String]) -> Result<Options<'w>, Error>
        ensures formed { OnOk result (faults_in words.entry.now ≡ []) }
        ensures asked { IfOk result (λ options. AreOptions (rows_in words.entry.now) options) }
        ensures accepted { IfOk result (λ options. refusal_in options ≡ None) }
        ensures why { IfErr result (λ error. IsErrorOf words.entry.now (kind_of error)) }
    {
        let (mut command, matches) = parsed(alloc, words)?;
        let Some(options) = options_of(alloc, &matches)? else {
            return Err(command.error(ErrorKind::ArgumentConflict, "--html excludes --json")?);
        };
        match refusal(&options) {
            Some((kind, why)) => Err(command.error(kind, why)?),
            None => Ok(options),
        }
    }
}

// Makes the command, and has it parse the arguments.
fn parsed<'w>(alloc: Global, words: &'w [String]) -> Result<(Command<'w>, ArgMatches<'w>), Error>
    ensures fails { FailsBy (faults_in words.entry.now) result }
    ensures found { IfOk result (λ pair. rows_of (found_of pair.1) ≡ rows_in words.entry.now) }
{
    let mut command = command(alloc)?;
    let matches = command.try_get_matches_from_mut(words)?;
    Ok((command, matches))
}

// Returns why options that were read are refused, or `None` if they are not.
fn refusal(options: &Options<'_>) -> Option<(ErrorKind, &'static str)>
    ensures { option_map (λ why. why.0) result ≡ refusal_in options.now }
{
    let is_html = matches!(options.form, Form::Html);
    if is_html && options.are_listed {
        return Some((ErrorKind::ArgumentConflict, "--html excludes --stdin-paths"));
    }
    if is_html && options.dumps.len() > 1 {
        return Some((ErrorKind::TooManyValues, "--html takes one DUMP"));
    }
    if options.dumps.is_empty() && !options.are_listed {
        return Some((
            ErrorKind::MissingRequiredArgument,
            "no DUMP is given, and no --stdin-paths",
        ));
    }
    if has_several_inputs(options.dumps.as_slice(), options.are_listed) {
        return Some((
            ErrorKind::ArgumentConflict,
            "standard input is read once, by one of - and --stdin-paths",
        ));
    }
    if options.frames == 0 {
        return Some((ErrorKind::ValueValidation, "--frames is 1 or more"));
    }
    None
}

// Tells whether standard input is asked for more than once: as a dump, by `-`, or as a list of
// paths.
fn has_several_inputs(paths: &[&str], are_listed: bool) -> bool
    ensures { result ≡ has_several_inputs (map (λ p. p.now) paths.now) are_listed }
{
    let inputs = paths.iter().filter(|path| **path == "-").count();
    inputs > 1 || inputs == 1 && are_listed
}

// Returns what the matches ask for, or `None` if they ask for two forms.
fn options_of<'w>(
    alloc: Global,
    matches: &ArgMatches<'w>,
) -> Result<Option<Options<'w>>, AllocError>
    ensures { IfOk result (λ read. MatchOption read
        (HasTwoForms (rows_of (found_of matches.now)))
        (AreOptions (rows_of (found_of matches.now)))) }
{
    let Some(form) = form_by(flag_of(matches, "json"), flag_of(matches, "html")) else {
        return Ok(None);
    };
    let names = values_of(alloc, matches, "names")?;
    let symbols = values_of(alloc, matches, "symbols")?;
    let dumps = values_of(alloc, matches, "dumps")?;
    Ok(Some(Options {
        form,
        frames: number_of(matches, "frames"),
        all_threads: flag_of(matches, "all-threads"),
        lists: flag_of(matches, "lists"),
        modules: flag_of(matches, "modules"),
        handles: flag_of(matches, "handles"),
        environment: flag_of(matches, "environment"),
        scan: number_of(matches, "scan"),
        names,
        only_names: flag_of(matches, "only-names"),
        symbols,
        symbols_limit: number_of(matches, "symbols-limit"),
        shows_progress: flag_of(matches, "progress"),
        dumps,
        are_listed: flag_of(matches, "stdin-paths"),
        limit: number_of(matches, "limit"),
    }))
}

// Returns the form that the flags `--json` and `--html` ask for, or `None` if both are set.
fn form_by(json: bool, html: bool) -> Option<Form>
    ensures form { IfSome result (λ form. (is_json form ≡ json) × (is_html form ≡ html)) }
    ensures none { IfNone result ((json ≡ true) × (html ≡ true)) }
{
    match (json, html) {
        (false, false) => Some(Form::Lines),
        (true, false) => Some(Form::Json),
        (false, true) => Some(Form::Html),
        (true, true) => None,
    }
}

// Returns the values of an argument.
#[tactic(auto, using(crate::proofs::OptionLemmas::reads_rows))]
fn values_of<'w>(
    alloc: Global,
    matches: &ArgMatches<'w>,
    id: &str,
) -> Result<Vec<&'w str>, AllocError>
    ensures { IfOk result (λ values. map (λ v. v.now) values.items
        ≡ values_in (rows_of (found_of matches.now)) id.now) }
{
    Vec::from_slice(alloc, matches.get_strs(id).unwrap_or(&[]))
}

// Tells whether a flag is set.
#[tactic(auto, using(crate::proofs::OptionLemmas::reads_rows))]
fn flag_of(matches: &ArgMatches<'_>, id: &str) -> bool
    ensures { IsFlag (rows_of (found_of matches.now)) id.now result }
{
    matches.get_flag(id)
}

// Returns the number of an option. clap has a default for each, and returns an error for a text
// that is no number.
#[tactic(auto, using(crate::proofs::OptionLemmas::reads_rows))]
fn number_of(matches: &ArgMatches<'_>, id: &str) -> usize
    ensures { IsNumber (rows_of (found_of matches.now)) id.now result }
{
    matches.get_one::<usize>(id).unwrap_or(0)
}

// Makes the command, which knows the options and the dumps.
fn command<'w>(alloc: Global) -> Result<Command<'w>, AllocError>
    ensures { IfOk result (λ command. app_of command ≡ whocrashed_app) }
{
    with_options(alloc, bare_command(alloc), OPTIONS)?.arg(dumps_of(alloc))
}

// Makes the command before it is told of its options.
fn bare_command<'w>(alloc: Global) -> Command<'w>
    ensures { app_of result ≡ bare_app }
{
    Command::new(alloc, "whocrashed")
        .no_binary_name(true)
        .version("0.27.0+rattle.1")
        .about(ABOUT)
        .after_help(EXAMPLES)
}

// Tells the command of options.
fn with_options<'w>(
    alloc: Global,
    command: Command<'w>,
    options: &'static [Row],
) -> Result<Command<'w>, AllocError>
    ensures { IfOk result (λ told. app_of told
        ≡ with_rules (app_of command.entry) (map row_rule options.now)) }
{
    let mut told = command;
    for (name, takes, help) in options {
        told = told.arg(option_of(alloc, *name, takes, *help))?;
    }
    Ok(told)
}

// Returns an option, for clap.
fn option_of<'w>(
    alloc: Global,
    name: &'static str,
    takes: &'static Takes,
    help: &'static str,
) -> Arg<'w>
    ensures rule { rule_of result ≡ rule_by name.entry.now takes.entry.now }
    ensures local { result.global ≡ false }
{
    let arg = Arg::new(alloc, name).long(name).help(help);
    match takes {
        Takes::Nothing => arg.action(ArgAction::SetTrue),
        Takes::Paths(value) => arg.value_name(*value).action(ArgAction::Append),
        Takes::Number(value, default) => arg
            .value_name(*value)
            .value_parser(value_parser!(usize))
            .default_value(*default),
    }
}

// Returns the argument DUMP, for clap.
fn dumps_of<'w>(alloc: Global) -> Arg<'w>
    ensures rule { rule_of result ≡ dumps_rule }
    ensures local { result.global ≡ false }
{
    Arg::new(alloc, "dumps")
        .value_name("DUMP")
        .help("A minidump, or - for the one on standard input")
        .action(ArgAction::Append)
        .num_args(1..)
}
