ghost use Rattle.std.specs.Prelude.{◌≡◌, [], All, MatchBool, MatchOption, MatchResult, if◌then◌else◌};
ghost use Rattle.std.specs.List.{list_any};
ghost use Rattle.std.specs.Option.{option_copied};
ghost use Rattle.minidump_reason.specs.Names.{AreCodeNames, IsAscending, IsFirstListError, entries_of, is_family};
ghost use Rattle.minidump_reason.specs.Names.{is_in, list_of, lists_of, name_in, name_of};

use crate::CodeFamily;
use std::marker::Model;

/// The error of [`CodeNames::new`].
#[derive(Clone, Copy, Debug, PartialEq, Eq)]
pub enum CodeNamesError {
    /// The codes in the list of this family are not strictly ascending.
    NotAscending(CodeFamily),
    /// This family has two lists.
    Repeated(CodeFamily),
}

/// The names of codes, in at most one borrowed list for each family.
#[derive(Drop)]
pub struct CodeNames<'n> {
    lists: &'n [(CodeFamily, &'n [(u32, &'n str)])],
}

impl<'n> Model for CodeNames<'n> {
    ghost use Rattle.minidump_reason.specs.Names.{AreCodeNames, Lists, lists_of};

    ghost Value = { Lists };

    ghost view = { λ s. lists_of s.lists.now };

    ghost invariant = { λ s. AreCodeNames s.lists.now };
}

impl<'n> CodeNames<'n> {
    /// Creates names without any list. With them the reason of each exception is
    /// [`CrashReason::Unknown`](crate::CrashReason::Unknown), or on Windows
    /// [`CrashReason::WindowsUnknown`](crate::CrashReason::WindowsUnknown): the lists decide which
    /// reason an exception has, not only its text.
    pub fn empty() -> CodeNames<'n>
        ensures { result ≡ [] }
    {
        CodeNames { lists: &[] }
    }

    /// Creates names from lists, each of which is sorted by its codes. Takes no memory.
    ///
    /// Returns the error of the first list that has one: [`CodeNamesError::Repeated`] if an earlier
    /// list is of the same family, otherwise [`CodeNamesError::NotAscending`] if its codes are not
    /// strictly ascending.
    pub fn new(
        lists: &'n [(CodeFamily, &'n [(u32, &'n str)])],
    ) -> Result<CodeNames<'n>, CodeNamesError>
        ensures { MatchResult result
            (λ names. (names ≡ lists_of lists.entry.now) × AreCodeNames lists.entry.now)
            (λ e. IsFirstListError lists.entry.now e) }
    {
        for index in 0..lists.len() {
            let (family, entries) = lists[index];
            if has_family(&lists[..index], family) {
                return Err(CodeNamesError::Repeated(family));
            }
            if !is_ascending(entries) {
                return Err(CodeNamesError::NotAscending(family));
            }
        }
        Ok(CodeNames { lists })
    }

    // Returns the borrowed lists.
    pub(crate) fn lists(&self) -> &'n [(CodeFamily, &'n [(u32, &'n str)])]
        ensures same { self.now ≡ lists_of result.now }
        ensures names { AreCodeNames result.now }
    {
        self.lists
    }

    // Finds the entry of a code in the list of a family.
    fn entry(&self, family: CodeFamily, code: u64) -> Option<(u32, &'n str)>
        ensures { MatchOption result (name_of self.now family code ≡ None)
            (λ entry. (entry.0 ≡ code) × (name_of self.now family code ≡ Some entry.1.now)) }
    {
        entry_in(list_of(self.lists, family), code)
    }

    // Returns the name of a code of a family.
    pub(crate) fn name(&self, family: CodeFamily, code: u64) -> Option<&'n str>
        ensures { option_copied result ≡ name_of self.now family code }
    {
        match self.entry(family, code) {
            Some((_, name)) => Some(name),
            None => None,
        }
    }

    // Returns the code if the list of the family has it.
    pub(crate) fn find_code(&self, family: CodeFamily, code: u64) -> Option<u32>
        ensures { result ≡ (if is_in self.now family code then Some code else None) }
    {
        match self.entry(family, code) {
            Some((code, _)) => Some(code),
            None => None,
        }
    }

    // Tests whether the list of the family has the code.
    pub(crate) fn has(&self, family: CodeFamily, code: u32) -> bool
        ensures { result ≡ is_in self.now family code }
    {
        self.entry(family, code as u64).is_some()
    }
}

// Tests whether one of the lists is of the family.
fn has_family<'n>(lists: &[(CodeFamily, &'n [(u32, &'n str)])], family: CodeFamily) -> bool
    ensures { result ≡ list_any (λ list. is_family list.0 family) lists.now }
{
    lists.iter().any(|list| list.0 == family)
}

// Tests whether the codes are strictly ascending.
fn is_ascending<'n>(entries: &[(u32, &'n str)]) -> bool
    ensures { MatchBool result (IsAscending entries.now) (¬ (IsAscending entries.now)) }
{
    for i in 1..entries.len() {
        if entries[i].0 <= entries[i - 1].0 {
            return false;
        }
    }
    true
}

// Returns the list of a family, which is empty if the family has none.
fn list_of<'n>(
    lists: &'n [(CodeFamily, &'n [(u32, &'n str)])],
    family: CodeFamily,
) -> &'n [(u32, &'n str)]
    requires { All (λ list. IsAscending list.1.now) lists.now }
    ensures same { entries_of result.now ≡ list_of (lists_of lists.entry.now) family }
    ensures ascending { IsAscending result.now }
{
    for list in lists {
        if list.0 == family {
            return list.1;
        }
    }
    &[]
}

// Finds the entry of a code by binary search.
fn entry_in<'n>(entries: &[(u32, &'n str)], code: u64) -> Option<(u32, &'n str)>
    requires { IsAscending entries.now }
    ensures { MatchOption result (name_in (entries_of entries.now) code ≡ None)
        (λ entry. (entry.0 ≡ code) × (name_in (entries_of entries.now) code ≡ Some entry.1.now)) }
{
    match entries.binary_search_by_key(&code, |&(number, _)| number as u64) {
        Ok(index) => Some(entries[index]),
        Err(_) => None,
    }
}
