ghost use Rattle.std.specs.Prelude.{◌≡◌, ◌^◌, ◌<◌};
ghost use Rattle.minidump_reason.specs.Bits.{bits_of};

// Returns the bit field of a number that begins at the bit `lowest`.
pub(crate) fn bits_of(number: u64, lowest: u32, count: u32) -> u64
    requires low { lowest < 64 }
    requires few { count < 64 }
    ensures bits { result ≡ bits_of number lowest count }
    ensures small { result < 2 ^ count }
{
    (number >> lowest) & ((1 << count) - 1)
}
