//! What Linux says of its release and of a process: the variables of its environment, and its limits.
ghost use Rattle.std.specs.Prelude.{◌≡◌, IfOk, map, string_bytes};
ghost use Rattle.std.specs.Char.{is_ascii_digit};
ghost use Rattle.std.specs.List.{list_all, position};
ghost use Rattle.std.specs.Option.{option_map};
ghost use Rattle.minidump.specs.Below.Bytes.LinuxOsStr.{parts_of, text_of, words_of};
ghost use Rattle.minidump.specs.Below.Contexts.Context.{map_ok};
ghost use Rattle.minidump.specs.Below.Records.Pairs.{pairs_of};
ghost use Rattle.minidump.specs.Promise.{linux_environ_stream, linux_lsb_release_stream, linux_proc_limits_stream};
ghost use Rattle.crash_process.specs.Linux.{is_limit, joined_words, limit_from, limit_of, limits_in, unit_in};
ghost use Rattle.crash_process.specs.Linux.{words_limit};
ghost use Rattle.crash_process.specs.Release.{release_in, release_of, text_value, without_single_quotes};

use minidump::strings::LinuxOsStr;
use minidump::{Error, MinidumpLinuxEnviron, MinidumpLinuxLsbRelease, MinidumpLinuxProcLimits};
use std::alloc::{AllocError, Global};

/// A limit of a process, as the copy of Linux's `/proc/PID/limits` has it, with U+FFFD for what
/// isn't UTF-8.
#[derive(Drop)]
pub struct ProcessLimit {
    /// What is limited: the words before the limit, with a space between two.
    pub name: String,
    /// The soft limit, a number in decimal or `unlimited`.
    pub soft: String,
    /// The hard limit, a number in decimal or `unlimited`.
    pub hard: String,
    /// What the limit counts, such as `bytes`, or `None` if the line doesn't say it.
    pub unit: Option<String>,
}

/// The release of a Linux system, as the copy of its `/etc/lsb-release` has it, or of its
/// `/etc/os-release`, whose keys are others. Each is the value of the first line that has one of
/// its two keys, without quotes around it, with U+FFFD for what isn't UTF-8, and `None` if no line has
/// one.
#[derive(Drop)]
pub struct LsbRelease {
    /// The distribution: `DISTRIB_ID` or `ID`.
    pub id: Option<String>,
    /// The number of the release: `DISTRIB_RELEASE` or `VERSION_ID`.
    pub release: Option<String>,
    /// The codename of the release: `DISTRIB_CODENAME` or `VERSION_CODENAME`.
    pub codename: Option<String>,
    /// The description: `DISTRIB_DESCRIPTION` or `PRETTY_NAME`.
    pub description: Option<String>,
}

// ---- the environment

/// Returns the variables of an environment, each a name and a value, in the order of its lines.
pub fn variables_of<'a>(
    alloc: Global,
    environment: &MinidumpLinuxEnviron<'a>,
) -> Result<Vec<(LinuxOsStr<'a>, LinuxOsStr<'a>)>, AllocError>
    ensures { IfOk result (λ variables. map parts_of variables.items
        ≡ pairs_of 0x3d (linux_environ_stream.value environment.now)) }
{
    environment.iter().collect(alloc)
}

// ---- the limits

/// Makes the limits of a process, in the order of their lines. A line without two limits, such as
/// that of the headings, has none.
pub fn limits_of(
    alloc: Global,
    limits: &MinidumpLinuxProcLimits<'_>,
) -> Result<Vec<ProcessLimit>, AllocError>
    ensures { IfOk result (λ made. map limit_of made.items
        ≡ limits_in (linux_proc_limits_stream.value limits.now)) }
{
    let mut made = Vec::new(alloc);
    for line in limits.iter() {
        let words = words_of(alloc, line)?;
        if let Some(limit) = words_limit(alloc, words.as_slice())? {
            made.push(limit)?;
        }
    }
    Ok(made)
}

// Returns the words of a line.
fn words_of<'a>(alloc: Global, line: LinuxOsStr<'a>) -> Result<Vec<LinuxOsStr<'a>>, AllocError>
    ensures { IfOk result (λ words. map text_of words.items ≡ words_of (text_of line.entry)) }
{
    line.split_ascii_whitespace().collect(alloc)
}

// Makes the limit of the words of a line, if they have one.
#[tactic(auto, using(crate::proofs::Found::around_first))]
fn words_limit(alloc: Global, words: &[LinuxOsStr<'_>]) -> Result<Option<ProcessLimit>, AllocError>
    ensures { IfOk result (λ limit. option_map limit_of limit
        ≡ words_limit (map text_of words.now)) }
{
    match first_limit(words) {
        Some(at) => {
            let (name, limits) = words.split_at(at);
            limit_from(alloc, name, limits)
        }
        None => Ok(None),
    }
}

// Makes the limit of the words of its name, and of the words from the soft limit on, if the second of
// these is a limit too.
fn limit_from(
    alloc: Global,
    name: &[LinuxOsStr<'_>],
    limits: &[LinuxOsStr<'_>],
) -> Result<Option<ProcessLimit>, AllocError>
    ensures { IfOk result (λ limit. option_map limit_of limit
        ≡ limit_from (map text_of name.now) (map text_of limits.now)) }
{
    match limits {
        [soft, hard, rest @ ..] if is_limit(*hard) => Ok(Some(ProcessLimit {
            name: joined_words(alloc, name)?,
            soft: soft.to_string_lossy(alloc)?,
            hard: hard.to_string_lossy(alloc)?,
            unit: unit_in(alloc, rest)?,
        })),
        _ => Ok(None),
    }
}

// Returns the index of the first word that is a limit.
fn first_limit(words: &[LinuxOsStr<'_>]) -> Option<usize>
    ensures { result ≡ position (λ word. is_limit (text_of word)) words.now }
{
    words.iter().position(|word| is_limit(*word))
}

// Tells whether a word is a limit.
fn is_limit(word: LinuxOsStr<'_>) -> bool
    ensures { result ≡ is_limit (text_of word.entry) }
{
    word.as_bytes() == b"unlimited".as_slice() || is_number(word.as_bytes())
}

// Tells whether bytes are digits.
fn is_number(bytes: &[u8]) -> bool
    ensures { result ≡ list_all is_ascii_digit bytes.now }
{
    bytes.iter().all(|byte| byte.is_ascii_digit())
}

// Joins words, with a space between two.
fn joined_words(alloc: Global, words: &[LinuxOsStr<'_>]) -> Result<String, AllocError>
    ensures { IfOk result (λ text. string_bytes text ≡ joined_words (map text_of words.now)) }
{
    let [first, others @ ..] = words else {
        return Ok(String::new(alloc));
    };
    let mut text = first.to_string_lossy(alloc)?;
    for other in others {
        text.push(' ')?;
        text.push_str(other.to_string_lossy(alloc)?.as_str())?;
    }
    Ok(text)
}

// Copies the first word, if there is one.
fn unit_in(alloc: Global, words: &[LinuxOsStr<'_>]) -> Result<Option<String>, AllocError>
    ensures { IfOk result (λ unit. option_map string_bytes unit
        ≡ unit_in (map text_of words.now)) }
{
    match words {
        [unit, ..] => Ok(Some(unit.to_string_lossy(alloc)?)),
        [] => Ok(None),
    }
}

// ---- the release

// Returns the release, or `None` if its stream can't be read.
pub(crate) fn release_of(
    alloc: Global,
    release: &Result<MinidumpLinuxLsbRelease<'_>, Error>,
) -> Result<Option<LsbRelease>, AllocError>
    ensures { IfOk result (λ found. option_map release_of found
        ≡ release_in (map_ok linux_lsb_release_stream.value release.now)) }
{
    let Ok(release) = release else {
        return Ok(None);
    };
    Ok(Some(LsbRelease {
        id: text_value(alloc, release, b"DISTRIB_ID", b"ID")?,
        release: text_value(alloc, release, b"DISTRIB_RELEASE", b"VERSION_ID")?,
        codename: text_value(alloc, release, b"DISTRIB_CODENAME", b"VERSION_CODENAME")?,
        description: text_value(alloc, release, b"DISTRIB_DESCRIPTION", b"PRETTY_NAME")?,
    }))
}

// Copies the value of the first pair that has one of two keys, without single quotes.
fn text_value(
    alloc: Global,
    stream: &MinidumpLinuxLsbRelease<'_>,
    key: &[u8],
    other: &[u8],
) -> Result<Option<String>, AllocError>
    ensures { IfOk result (λ text. option_map string_bytes text
        ≡ text_value (linux_lsb_release_stream.value stream.now) key.now other.now) }
{
    for (name, value) in stream.iter() {
        if name.as_bytes() == key || name.as_bytes() == other {
            return Ok(Some(without_single_quotes(value).to_string_lossy(alloc)?));
        }
    }
    Ok(None)
}

// Returns a value without the single quotes at its ends, or as it is if one of them is missing.
#[tactic(auto, unfolding(crate::specs::Release::without_single_quotes))]
fn without_single_quotes(value: LinuxOsStr<'_>) -> LinuxOsStr<'_>
    ensures { text_of result ≡ without_single_quotes (text_of value.entry) }
{
    let bytes = value.as_bytes();
    let end = bytes.len();
    if end >= 2 && bytes[0] == b'\'' && bytes[end - 1] == b'\'' {
        LinuxOsStr::from_bytes(&bytes[1..end - 1])
    } else {
        value
    }
}
