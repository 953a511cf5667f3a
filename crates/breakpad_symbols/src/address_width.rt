ghost use Rattle.std.specs.Prelude.{◌≡◌};
ghost use Rattle.minidump_bytes.specs.Digits.{number_of_digits};
ghost use Rattle.breakpad_symbols.specs.AddressWidth.{bits_of, cut, negative};

use minidump_bytes::{number_32, number_64};

/// The width of an address, and of every value that rules have.
#[derive(Clone, Copy, PartialEq, Eq)]
pub enum AddressWidth {
    /// 32 bits.
    Bits32,
    /// 64 bits.
    Bits64,
}

impl AddressWidth {
    // Returns the lowest bits of a number.
    #[tactic(auto, using(crate::proofs::WidthLemmas::cut_whole))]
    pub(crate) fn cut(self, number: u64) -> u64
        ensures { result ≡ cut (bits_of self) number }
    {
        match self {
            AddressWidth::Bits32 => number % (1 << 32),
            AddressWidth::Bits64 => number,
        }
    }

    // Returns the number that gives 0 if it is added.
    #[tactic(auto, using(crate::proofs::WidthLemmas::negative_cut))]
    pub(crate) fn negative(self, number: u64) -> u64
        ensures { result ≡ negative (bits_of self) number }
    {
        self.cut(0u64.wrapping_sub(number))
    }

    // Reads decimal digits of a number of this width.
    pub(crate) fn number(self, digits: &[u8]) -> Option<u64>
        ensures { result ≡ number_of_digits 10 (bits_of self) digits.now }
    {
        match self {
            AddressWidth::Bits32 => Some(number_32(digits, 10)? as u64),
            AddressWidth::Bits64 => number_64(digits, 10),
        }
    }
}
