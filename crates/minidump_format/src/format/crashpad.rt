ghost use Rattle.std.proofs.Common.{rules};
ghost use Rattle.std.proofs.lemmas.Slice.Eq.{bytes_eq-Decides};

use super::{GUID, MINIDUMP_LOCATION_DESCRIPTOR, RVA};
use minidump_bytes::{Endian, Exact, Record};

/// Crashpad's information on the process: `MinidumpCrashpadInfo`.
#[derive(Clone, Copy, PartialEq, Eq)]
pub struct MINIDUMP_CRASHPAD_INFO {
    /// The version of the record.
    pub version: u32,
    /// The identifier of this report.
    pub report_id: GUID,
    /// The identifier of the client that crashed.
    pub client_id: GUID,
    /// The location of the process's dictionary.
    pub simple_annotations: MINIDUMP_LOCATION_DESCRIPTOR,
    /// The location of the list of modules.
    pub module_list: MINIDUMP_LOCATION_DESCRIPTOR,
}

impl Record for MINIDUMP_CRASHPAD_INFO {
    ghost use Rattle.minidump_format.specs.Crashpad.{crashpad_info};

    ghost SIZE = { 52 };

    const SIZE: usize = 52;

    ghost layout = { crashpad_info };

    fn decode(bytes: &[u8], endian: Endian) -> Self {
        MINIDUMP_CRASHPAD_INFO {
            version: endian.u32_at(bytes, 0),
            report_id: GUID::decode(&bytes[4..20], endian),
            client_id: GUID::decode(&bytes[20..36], endian),
            simple_annotations: MINIDUMP_LOCATION_DESCRIPTOR::decode(&bytes[36..44], endian),
            module_list: MINIDUMP_LOCATION_DESCRIPTOR::decode(&bytes[44..52], endian),
        }
    }

    ghost fits = { Prim.search rules };
}

impl Exact for MINIDUMP_CRASHPAD_INFO {
    ghost exact = { record {
      equal = λ x y. (
        (λ h. Prim.grind (
          rules,
          bytes_eq-Decides x.report_id.data4 y.report_id.data4,
          bytes_eq-Decides x.client_id.data4 y.client_id.data4,
        )),
        (λ h. rw h (Prim.search (rules, bytes_eq-Decides))),
      );
      copy = λ x y h. Prim.search rules;
    } };
}

/// A link from a module to Crashpad's information on it: `MinidumpModuleCrashpadInfoLink`.
#[derive(Clone, Copy, PartialEq, Eq)]
pub struct MINIDUMP_MODULE_CRASHPAD_INFO_LINK {
    /// The index of the module in the module list.
    pub minidump_module_list_index: u32,
    /// The location of its [`MINIDUMP_MODULE_CRASHPAD_INFO`].
    pub location: MINIDUMP_LOCATION_DESCRIPTOR,
}

impl Record for MINIDUMP_MODULE_CRASHPAD_INFO_LINK {
    ghost use Rattle.minidump_format.specs.Crashpad.{module_link};

    ghost SIZE = { 12 };

    const SIZE: usize = 12;

    ghost layout = { module_link };

    fn decode(bytes: &[u8], endian: Endian) -> Self {
        MINIDUMP_MODULE_CRASHPAD_INFO_LINK {
            minidump_module_list_index: endian.u32_at(bytes, 0),
            location: MINIDUMP_LOCATION_DESCRIPTOR::decode(&bytes[4..12], endian),
        }
    }

    ghost fits = { Prim.search rules };
}

impl Exact for MINIDUMP_MODULE_CRASHPAD_INFO_LINK {
    ghost exact = { Prim.search rules };
}

/// Crashpad's information on a module: `MinidumpModuleCrashpadInfo`.
#[derive(Clone, Copy, PartialEq, Eq)]
pub struct MINIDUMP_MODULE_CRASHPAD_INFO {
    /// The version of the record.
    pub version: u32,
    /// The location of its list of texts.
    pub list_annotations: MINIDUMP_LOCATION_DESCRIPTOR,
    /// The location of its dictionary.
    pub simple_annotations: MINIDUMP_LOCATION_DESCRIPTOR,
    /// The location of its list of annotations.
    pub annotation_objects: MINIDUMP_LOCATION_DESCRIPTOR,
}

impl Record for MINIDUMP_MODULE_CRASHPAD_INFO {
    ghost use Rattle.minidump_format.specs.Crashpad.{module_crashpad_info};

    ghost SIZE = { 28 };

    const SIZE: usize = 28;

    ghost layout = { module_crashpad_info };

    fn decode(bytes: &[u8], endian: Endian) -> Self {
        MINIDUMP_MODULE_CRASHPAD_INFO {
            version: endian.u32_at(bytes, 0),
            list_annotations: MINIDUMP_LOCATION_DESCRIPTOR::decode(&bytes[4..12], endian),
            simple_annotations: MINIDUMP_LOCATION_DESCRIPTOR::decode(&bytes[12..20], endian),
            annotation_objects: MINIDUMP_LOCATION_DESCRIPTOR::decode(&bytes[20..28], endian),
        }
    }

    ghost fits = { Prim.search rules };
}

impl Exact for MINIDUMP_MODULE_CRASHPAD_INFO {
    ghost exact = { Prim.search rules };
}

/// An entry of a dictionary: Crashpad's `MinidumpSimpleStringDictionaryEntry`.
#[derive(Clone, Copy, PartialEq, Eq)]
pub struct MINIDUMP_SIMPLE_STRING_DICTIONARY_ENTRY {
    /// The RVA of the key, a `MinidumpUTF8String`.
    pub key: RVA,
    /// The RVA of the value, a `MinidumpUTF8String`.
    pub value: RVA,
}

impl Record for MINIDUMP_SIMPLE_STRING_DICTIONARY_ENTRY {
    ghost use Rattle.minidump_format.specs.Crashpad.{dictionary_entry};

    ghost SIZE = { 8 };

    const SIZE: usize = 8;

    ghost layout = { dictionary_entry };

    fn decode(bytes: &[u8], endian: Endian) -> Self {
        MINIDUMP_SIMPLE_STRING_DICTIONARY_ENTRY {
            key: endian.u32_at(bytes, 0),
            value: endian.u32_at(bytes, 4),
        }
    }

    ghost fits = { Prim.search rules };
}

impl Exact for MINIDUMP_SIMPLE_STRING_DICTIONARY_ENTRY {
    ghost exact = { Prim.search rules };
}

/// A named value: Crashpad's `MinidumpAnnotation`.
#[derive(Clone, Copy, PartialEq, Eq)]
pub struct MINIDUMP_ANNOTATION {
    /// The RVA of the name, a `MinidumpUTF8String`.
    pub name: RVA,
    /// The type of the value: one of the `TYPE_` constants, or a user-defined number.
    pub ty: u16,
    /// Reserved; 0.
    pub reserved: u16,
    /// The RVA of the value.
    pub value: RVA,
}

impl Record for MINIDUMP_ANNOTATION {
    ghost use Rattle.minidump_format.specs.Crashpad.{annotation};

    ghost SIZE = { 12 };

    const SIZE: usize = 12;

    ghost layout = { annotation };

    fn decode(bytes: &[u8], endian: Endian) -> Self {
        MINIDUMP_ANNOTATION {
            name: endian.u32_at(bytes, 0),
            ty: endian.u16_at(bytes, 4),
            reserved: endian.u16_at(bytes, 6),
            value: endian.u32_at(bytes, 8),
        }
    }

    ghost fits = { Prim.search rules };
}

impl Exact for MINIDUMP_ANNOTATION {
    ghost exact = { Prim.search rules };
}

impl MINIDUMP_ANNOTATION {
    /// The `ty` of an annotation without a value.
    pub const TYPE_INVALID: u16 = 0;

    /// The `ty` of a text.
    pub const TYPE_STRING: u16 = 1;

    /// The least `ty` that is user-defined.
    pub const TYPE_USER_DEFINED: u16 = 0x8000;
}
