ghost use Rattle.std.proofs.Common.{rules};
ghost use Rattle.std.proofs.lemmas.Slice.Eq.{bytes_eq-Decides};

use minidump_bytes::{Endian, Exact, Record, array_at};

/// An assertion that failed: Breakpad's `MDRawAssertionInfo`.
#[derive(Clone, Copy, PartialEq, Eq)]
pub struct MINIDUMP_ASSERTION_INFO {
    /// The assertion, in UTF-16, up to the first 0.
    pub expression: [u16; 128],
    /// The function that has the assertion, in UTF-16, up to the first 0.
    pub function: [u16; 128],
    /// The source file, in UTF-16, up to the first 0.
    pub file: [u16; 128],
    /// The line of the source file.
    pub line: u32,
    /// The kind of the assertion, Breakpad's `MD_ASSERTION_INFO_TYPE_` numbers: 1 an invalid
    /// parameter, 2 a call of a pure virtual function.
    pub _type: u32,
}

impl Record for MINIDUMP_ASSERTION_INFO {
    ghost use Rattle.minidump_format.specs.Assertion.{assertion_info};

    ghost SIZE = { 776 };

    const SIZE: usize = 776;

    ghost layout = { assertion_info };

    fn decode(bytes: &[u8], endian: Endian) -> Self {
        MINIDUMP_ASSERTION_INFO {
            expression: array_at(bytes, 0, endian),
            function: array_at(bytes, 256, endian),
            file: array_at(bytes, 512, endian),
            line: endian.u32_at(bytes, 768),
            _type: endian.u32_at(bytes, 772),
        }
    }

    ghost fits = { Prim.search rules };
}

impl Exact for MINIDUMP_ASSERTION_INFO {
    ghost exact = { record {
      equal = λ x y. (
        (λ h. Prim.grind (
          rules,
          bytes_eq-Decides x.expression y.expression,
          bytes_eq-Decides x.function y.function,
          bytes_eq-Decides x.file y.file,
        )),
        (λ h. rw h (Prim.search (rules, bytes_eq-Decides))),
      );
      copy = λ x y h. Prim.search rules;
    } };
}
