ghost use Rattle.std.proofs.Common.{rules};
ghost use Rattle.std.proofs.lemmas.Slice.Eq.{bytes_eq-Decides};
ghost use Rattle.std.specs.Prelude.{◌≡◌, ◌<◌, All, Some, length};
ghost use Rattle.minidump_format.specs.Guid.{guid_bytes, guid_text};

use minidump_bytes::{Endian, Exact, Record, array_at};
use std::fmt;
use uuid::Uuid;

/// A globally unique identifier: Microsoft's `GUID`.
#[derive(Clone, Copy, PartialEq, Eq)]
pub struct GUID {
    /// The first eight hexadecimal digits.
    pub data1: u32,
    /// The first group of four hexadecimal digits.
    pub data2: u16,
    /// The second group of four hexadecimal digits.
    pub data3: u16,
    /// The third group of four hexadecimal digits, and the last twelve.
    pub data4: [u8; 8],
}

impl Record for GUID {
    ghost use Rattle.minidump_format.specs.Guid.{guid};

    ghost SIZE = { 16 };

    const SIZE: usize = 16;

    ghost layout = { guid };

    fn decode(bytes: &[u8], endian: Endian) -> Self {
        GUID {
            data1: endian.u32_at(bytes, 0),
            data2: endian.u16_at(bytes, 4),
            data3: endian.u16_at(bytes, 6),
            data4: array_at(bytes, 8, endian),
        }
    }

    ghost fits = { Prim.search rules };
}

impl Exact for GUID {
    ghost exact = { record {
      equal = λ x y. (
        (λ h. Prim.grind (rules, bytes_eq-Decides x.data4 y.data4)),
        (λ h. rw h (Prim.search (rules, bytes_eq-Decides))),
      );
      copy = λ x y h. Prim.search rules;
    } };
}

/// Makes the UUID of a GUID: the highest byte of each number comes first.
pub fn uuid_of(guid: &GUID) -> Uuid
    ensures { result ≡ guid_bytes guid.now }
{
    let uuid = Uuid::from_fields(guid.data1, guid.data2, guid.data3, &guid.data4);
    bytes_fit(uuid.as_bytes());
    uuid
}

// Reads each byte, so that each is below 256 in the contract. It is compiled away.
fn bytes_fit(bytes: &[u8; 16])
    ensures { (length bytes.now ≡ 16) × All (λ b. b < 256) bytes.now }
{
    for i in 0..16 {
        let _ = bytes[i];
    }
}

/// Formats the identifier in lower case with hyphens, as `00112233-4455-6677-8899-aabbccddeeff`.
impl fmt::Display for GUID {
    ghost output = { λ g. Some (guid_text g) };

    #[tactic(auto, unfolding(crate::specs::Guid::uuid_text))]
    fn fmt<W: fmt::Write>(&self, f: &mut fmt::Formatter<W>) -> fmt::Result {
        fmt::Display::fmt(&uuid_of(self), f)
    }
}
