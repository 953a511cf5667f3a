ghost use Rattle.std.proofs.Common.{rules};
ghost use Rattle.std.specs.Prelude.{◌≡◌};
ghost use Rattle.minidump_format.specs.Handle.{information_type_number, information_type_of};

use super::RVA;
use minidump_bytes::{Endian, Exact, Record};

/// An open handle: Microsoft's `MINIDUMP_HANDLE_DESCRIPTOR`.
#[derive(Clone, Copy, PartialEq, Eq)]
pub struct MINIDUMP_HANDLE_DESCRIPTOR {
    /// The value of the handle.
    pub handle: u64,
    /// The RVA of the name of its type, or 0.
    pub type_name_rva: RVA,
    /// The RVA of the name of its object, or 0.
    pub object_name_rva: RVA,
    /// The attributes of the handle.
    pub attributes: u32,
    /// The access that was granted.
    pub granted_access: u32,
    /// The number of handles of its object.
    pub handle_count: u32,
    /// The number of pointers that the kernel has to its object.
    pub pointer_count: u32,
}

impl Record for MINIDUMP_HANDLE_DESCRIPTOR {
    ghost use Rattle.minidump_format.specs.Handle.{handle_descriptor};

    ghost SIZE = { 32 };

    const SIZE: usize = 32;

    ghost layout = { handle_descriptor };

    fn decode(bytes: &[u8], endian: Endian) -> Self {
        MINIDUMP_HANDLE_DESCRIPTOR {
            handle: endian.u64_at(bytes, 0),
            type_name_rva: endian.u32_at(bytes, 8),
            object_name_rva: endian.u32_at(bytes, 12),
            attributes: endian.u32_at(bytes, 16),
            granted_access: endian.u32_at(bytes, 20),
            handle_count: endian.u32_at(bytes, 24),
            pointer_count: endian.u32_at(bytes, 28),
        }
    }

    ghost fits = { Prim.search rules };
}

impl Exact for MINIDUMP_HANDLE_DESCRIPTOR {
    ghost exact = { Prim.search rules };
}

/// An open handle, with further information on its object: Microsoft's
/// `MINIDUMP_HANDLE_DESCRIPTOR_2`.
#[derive(Clone, Copy, PartialEq, Eq)]
pub struct MINIDUMP_HANDLE_DESCRIPTOR_2 {
    /// The value of the handle.
    pub handle: u64,
    /// The RVA of the name of its type, or 0.
    pub type_name_rva: RVA,
    /// The RVA of the name of its object, or 0.
    pub object_name_rva: RVA,
    /// The attributes of the handle.
    pub attributes: u32,
    /// The access that was granted.
    pub granted_access: u32,
    /// The number of handles of its object.
    pub handle_count: u32,
    /// The number of pointers that the kernel has to its object.
    pub pointer_count: u32,
    /// The RVA of the first piece of information on its object, or 0.
    pub object_info_rva: RVA,
    /// Reserved; 0.
    pub reserved: u32,
}

impl Record for MINIDUMP_HANDLE_DESCRIPTOR_2 {
    ghost use Rattle.minidump_format.specs.Handle.{handle_descriptor_2};

    ghost SIZE = { 40 };

    const SIZE: usize = 40;

    ghost layout = { handle_descriptor_2 };

    fn decode(bytes: &[u8], endian: Endian) -> Self {
        MINIDUMP_HANDLE_DESCRIPTOR_2 {
            handle: endian.u64_at(bytes, 0),
            type_name_rva: endian.u32_at(bytes, 8),
            object_name_rva: endian.u32_at(bytes, 12),
            attributes: endian.u32_at(bytes, 16),
            granted_access: endian.u32_at(bytes, 20),
            handle_count: endian.u32_at(bytes, 24),
            pointer_count: endian.u32_at(bytes, 28),
            object_info_rva: endian.u32_at(bytes, 32),
            reserved: endian.u32_at(bytes, 36),
        }
    }

    ghost fits = { Prim.search rules };
}

impl Exact for MINIDUMP_HANDLE_DESCRIPTOR_2 {
    ghost exact = { Prim.search rules };
}

/// The head of a piece of information on the object of a handle: Microsoft's
/// `MINIDUMP_HANDLE_OBJECT_INFORMATION`.
#[derive(Clone, Copy, PartialEq, Eq)]
pub struct MINIDUMP_HANDLE_OBJECT_INFORMATION {
    /// The RVA of the next piece of information, or 0.
    pub next_info_rva: RVA,
    /// The type: [`MINIDUMP_HANDLE_OBJECT_INFORMATION_TYPE`], as a number.
    pub info_type: u32,
    /// The number of bytes that follow.
    pub size_of_info: u32,
}

impl Record for MINIDUMP_HANDLE_OBJECT_INFORMATION {
    ghost use Rattle.minidump_format.specs.Handle.{object_information};

    ghost SIZE = { 12 };

    const SIZE: usize = 12;

    ghost layout = { object_information };

    fn decode(bytes: &[u8], endian: Endian) -> Self {
        MINIDUMP_HANDLE_OBJECT_INFORMATION {
            next_info_rva: endian.u32_at(bytes, 0),
            info_type: endian.u32_at(bytes, 4),
            size_of_info: endian.u32_at(bytes, 8),
        }
    }

    ghost fits = { Prim.search rules };
}

impl Exact for MINIDUMP_HANDLE_OBJECT_INFORMATION {
    ghost exact = { Prim.search rules };
}

/// The type of information on the object of a handle: Microsoft's
/// `MINIDUMP_HANDLE_OBJECT_INFORMATION_TYPE`.
#[allow(non_camel_case_types)]
#[derive(Clone, Copy, Debug, PartialEq, Eq)]
pub enum MINIDUMP_HANDLE_OBJECT_INFORMATION_TYPE {
    /// No information.
    MiniHandleObjectInformationNone = 0,
    /// Information on a thread.
    MiniThreadInformation1 = 1,
    /// Information on a mutant, which is a mutex.
    MiniMutantInformation1 = 2,
    /// Other information on a mutant.
    MiniMutantInformation2 = 3,
    /// Information on a process.
    MiniProcessInformation1 = 4,
    /// Other information on a process.
    MiniProcessInformation2 = 5,
    /// Information on an event.
    MiniEventInformation1 = 6,
    /// Information on a section.
    MiniSectionInformation1 = 7,
    /// Information on a semaphore.
    MiniSemaphoreInformation1 = 8,
}

impl MINIDUMP_HANDLE_OBJECT_INFORMATION_TYPE {
    /// Returns the type with the number `n`, or `None` if there is none.
    pub fn from_u32(n: u32) -> Option<MINIDUMP_HANDLE_OBJECT_INFORMATION_TYPE>
        ensures { result ≡ information_type_of n }
    {
        Some(match n {
            0 => MINIDUMP_HANDLE_OBJECT_INFORMATION_TYPE::MiniHandleObjectInformationNone,
            1 => MINIDUMP_HANDLE_OBJECT_INFORMATION_TYPE::MiniThreadInformation1,
            2 => MINIDUMP_HANDLE_OBJECT_INFORMATION_TYPE::MiniMutantInformation1,
            3 => MINIDUMP_HANDLE_OBJECT_INFORMATION_TYPE::MiniMutantInformation2,
            4 => MINIDUMP_HANDLE_OBJECT_INFORMATION_TYPE::MiniProcessInformation1,
            5 => MINIDUMP_HANDLE_OBJECT_INFORMATION_TYPE::MiniProcessInformation2,
            6 => MINIDUMP_HANDLE_OBJECT_INFORMATION_TYPE::MiniEventInformation1,
            7 => MINIDUMP_HANDLE_OBJECT_INFORMATION_TYPE::MiniSectionInformation1,
            8 => MINIDUMP_HANDLE_OBJECT_INFORMATION_TYPE::MiniSemaphoreInformation1,
            _ => return None,
        })
    }

    /// Returns the number of the type.
    pub fn number(self) -> u32
        ensures { result ≡ information_type_number self }
    {
        self as u32
    }
}

impl Exact for MINIDUMP_HANDLE_OBJECT_INFORMATION_TYPE {
    ghost exact = { Prim.search rules };
}
