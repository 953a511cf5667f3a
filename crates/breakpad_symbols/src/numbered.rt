ghost use Rattle.std.specs.Prelude.{◌≡◌, ℕ, ◌==◌, Some, None, IfOk, OnOk, if◌then◌else◌};
ghost use Rattle.std.specs.BTreeMap.{get};
ghost use Rattle.std.specs.Option.{option_copied, option_or};
ghost use Rattle.std.specs.Ordering.{nat_cmp};
ghost use Rattle.breakpad_symbols.specs.Numbered.{IsNearestFound, first_numbered};

use std::alloc::{AllocError, Global};
use std::collections::BTreeMap;
use std::marker::Model;

// A record that others name by its number.
pub(crate) trait Numbered: Copy {
    // its number
    ghost number_of: { Self → ℕ };

    // Returns its number.
    fn number(&self) -> u64
        ensures { result ≡ number_of self.now };
}

// A list of records, which finds the first of a number.
#[derive(Drop)]
pub(crate) struct NumberedList<R: Numbered> {
    records: Vec<R>,
    firsts: BTreeMap<u64, R>,
}

impl<R: Numbered> Model for NumberedList<R> {
    ghost use Rattle.std.specs.Prelude.{List};
    ghost use Rattle.breakpad_symbols.specs.Numbered.{HasFirsts};

    ghost Value = { List R };

    ghost view = { λ s. s.records.items };

    ghost invariant = { λ s. HasFirsts R.number_of s.records.items s.firsts };
}

impl<R: Numbered + Drop> NumberedList<R> {
    // Makes the list of some records.
    pub(crate) fn from_records(
        alloc: Global,
        records: Vec<R>,
    ) -> Result<NumberedList<R>, AllocError>
        ensures { IfOk result (λ list. list ≡ records.items) }
    {
        let mut firsts = BTreeMap::new(alloc);
        for record in &records {
            put_first(&mut firsts, record)?;
        }
        Ok(NumberedList { records, firsts })
    }

    // Returns all records, in the order of the file.
    pub(crate) fn as_slice(&self) -> &[R]
        ensures { result.now ≡ self.now }
    {
        self.records.as_slice()
    }

    // Returns the first record of a number.
    pub(crate) fn first(&self, number: u64) -> Option<&R>
        ensures { option_copied result ≡ first_numbered R.number_of number self.now }
    {
        self.firsts.get(&number)
    }

    // Returns the first record of the greatest number that isn't above another.
    pub(crate) fn nearest(&self, number: u64) -> Option<&R>
        ensures { IsNearestFound R.number_of self.now number (option_copied result) }
    {
        let (_, record) = self.firsts.range(..=number).next_back()?;
        Some(record)
    }
}

// Inserts a record, unless there is one of its number.
fn put_first<R: Numbered + Drop>(firsts: &mut BTreeMap<u64, R>, next: &R) -> Result<(), AllocError>
    ensures { OnOk result ((number : ℕ) → get nat_cmp firsts.new number
        ≡ option_or (get nat_cmp firsts.old number)
        (if R.number_of next.now == number then Some next.now else None)) }
{
    if firsts.contains_key(&next.number()) {
        return Ok(());
    }
    firsts.insert(next.number(), *next)?;
    Ok(())
}
