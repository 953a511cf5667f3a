ghost use Rattle.std.proofs.Common.{rules};
ghost use Rattle.std.proofs.lemmas.Slice.Eq.{bytes_eq-Decides};

use super::MINIDUMP_LOCATION_DESCRIPTOR;
use minidump_bytes::{Endian, Exact, Record, array_at};

/// An exception: Microsoft's `MINIDUMP_EXCEPTION`.
#[derive(Clone, Copy, PartialEq, Eq)]
pub struct MINIDUMP_EXCEPTION {
    /// The exception code of the operating system.
    pub exception_code: u32,
    /// The exception flags of the operating system.
    pub exception_flags: u32,
    /// The address of the exception that this one is chained to, or 0.
    pub exception_record: u64,
    /// The address at which the exception happened.
    pub exception_address: u64,
    /// The number of elements of `exception_information` that are set.
    pub number_parameters: u32,
    /// Padding.
    pub unused1: u32,
    /// The parameters, whose meaning depends on the code.
    pub exception_information: [u64; 15],
}

impl Record for MINIDUMP_EXCEPTION {
    ghost use Rattle.minidump_format.specs.Exception.{exception};

    ghost SIZE = { 152 };

    const SIZE: usize = 152;

    ghost layout = { exception };

    fn decode(bytes: &[u8], endian: Endian) -> Self {
        MINIDUMP_EXCEPTION {
            exception_code: endian.u32_at(bytes, 0),
            exception_flags: endian.u32_at(bytes, 4),
            exception_record: endian.u64_at(bytes, 8),
            exception_address: endian.u64_at(bytes, 16),
            number_parameters: endian.u32_at(bytes, 24),
            unused1: endian.u32_at(bytes, 28),
            exception_information: array_at(bytes, 32, endian),
        }
    }

    ghost fits = { Prim.search rules };
}

impl Exact for MINIDUMP_EXCEPTION {
    ghost exact = { record {
      equal = λ x y. (
        (λ h. Prim.grind (rules, bytes_eq-Decides x.exception_information y.exception_information)),
        (λ h. rw h (Prim.search (rules, bytes_eq-Decides))),
      );
      copy = λ x y h. Prim.search rules;
    } };
}

/// An exception with its thread: Microsoft's `MINIDUMP_EXCEPTION_STREAM`.
#[derive(Clone, Copy, PartialEq, Eq)]
pub struct MINIDUMP_EXCEPTION_STREAM {
    /// The id of the thread on which the exception happened.
    pub thread_id: u32,
    /// Padding.
    pub unused1: u32,
    /// The exception.
    pub exception_record: MINIDUMP_EXCEPTION,
    /// The location of the thread's context.
    pub thread_context: MINIDUMP_LOCATION_DESCRIPTOR,
}

impl Record for MINIDUMP_EXCEPTION_STREAM {
    ghost use Rattle.minidump_format.specs.Exception.{exception_layout};

    ghost SIZE = { 168 };

    const SIZE: usize = 168;

    ghost layout = { exception_layout };

    fn decode(bytes: &[u8], endian: Endian) -> Self {
        MINIDUMP_EXCEPTION_STREAM {
            thread_id: endian.u32_at(bytes, 0),
            unused1: endian.u32_at(bytes, 4),
            exception_record: MINIDUMP_EXCEPTION::decode(&bytes[8..160], endian),
            thread_context: MINIDUMP_LOCATION_DESCRIPTOR::decode(&bytes[160..168], endian),
        }
    }

    ghost fits = { Prim.search rules };
}

impl Exact for MINIDUMP_EXCEPTION_STREAM {
    ghost exact = { record {
      equal = λ x y. (
        (λ h. Prim.grind (
          rules,
          bytes_eq-Decides x.exception_record.exception_information
              y.exception_record.exception_information,
        )),
        (λ h. rw h (Prim.search (rules, bytes_eq-Decides))),
      );
      copy = λ x y h. Prim.search rules;
    } };
}
