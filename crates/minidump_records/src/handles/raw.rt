ghost use Rattle.std.specs.Prelude.{◌≡◌};
ghost use Rattle.std.specs.Option.{option_copied};
ghost use Rattle.minidump_records.specs.Handles.Descriptor.{handle, type_name_rva, object_name_rva, attributes};
ghost use Rattle.minidump_records.specs.Handles.Descriptor.{granted_access, handle_count, pointer_count};
ghost use Rattle.minidump_records.specs.Handles.Descriptor.{object_info_rva};
ghost use Rattle.minidump_records.specs.Handles.{shared_fields};

use minidump_format::format::{MINIDUMP_HANDLE_DESCRIPTOR, MINIDUMP_HANDLE_DESCRIPTOR_2, RVA};

/// The descriptor of a handle, in one of two layouts. The second has the fields of the first, and
/// two more.
#[derive(Clone, Copy)]
pub enum RawHandleDescriptor {
    /// The first layout, of 32 bytes.
    HandleDescriptor(MINIDUMP_HANDLE_DESCRIPTOR),
    /// The second layout, of 40 bytes.
    HandleDescriptor2(MINIDUMP_HANDLE_DESCRIPTOR_2),
}

// One body for both layouts.
macro_rules! of_either {
    ($descriptor:expr, $raw:ident => $body:expr) => {
        match $descriptor {
            RawHandleDescriptor::HandleDescriptor($raw) => $body,
            RawHandleDescriptor::HandleDescriptor2($raw) => $body,
        }
    };
}

/// The fields. Only `object_info_rva` may be `None`, since the first layout doesn't have it.
impl RawHandleDescriptor {
    /// Returns the value of the handle.
    pub fn handle(&self) -> Option<&u64>
        ensures { option_copied result ≡ handle self.now }
    {
        of_either!(self, raw => Some(&raw.handle))
    }

    /// Returns the RVA of the name of its type, or 0 if it has no such name.
    pub fn type_name_rva(&self) -> Option<&RVA>
        ensures { option_copied result ≡ type_name_rva self.now }
    {
        of_either!(self, raw => Some(&raw.type_name_rva))
    }

    /// Returns the RVA of the name of its object, or 0 if it has no name.
    pub fn object_name_rva(&self) -> Option<&RVA>
        ensures { option_copied result ≡ object_name_rva self.now }
    {
        of_either!(self, raw => Some(&raw.object_name_rva))
    }

    /// Returns the attributes of the handle.
    pub fn attributes(&self) -> Option<&u32>
        ensures { option_copied result ≡ attributes self.now }
    {
        of_either!(self, raw => Some(&raw.attributes))
    }

    /// Returns the access that was granted.
    pub fn granted_access(&self) -> Option<&u32>
        ensures { option_copied result ≡ granted_access self.now }
    {
        of_either!(self, raw => Some(&raw.granted_access))
    }

    /// Returns the number of handles of its object.
    pub fn handle_count(&self) -> Option<&u32>
        ensures { option_copied result ≡ handle_count self.now }
    {
        of_either!(self, raw => Some(&raw.handle_count))
    }

    /// Returns the number of pointers that the kernel has to its object.
    pub fn pointer_count(&self) -> Option<&u32>
        ensures { option_copied result ≡ pointer_count self.now }
    {
        of_either!(self, raw => Some(&raw.pointer_count))
    }

    /// Returns the RVA of the first piece of information on its object, which is 0 if there is
    /// none, or `None` if the descriptor has the first layout.
    pub fn object_info_rva(&self) -> Option<&RVA>
        ensures { option_copied result ≡ object_info_rva self.now }
    {
        match self {
            RawHandleDescriptor::HandleDescriptor(_) => None,
            RawHandleDescriptor::HandleDescriptor2(raw) => Some(&raw.object_info_rva),
        }
    }

    // Returns the fields that both layouts have.
    pub(super) fn shared_fields(&self) -> MINIDUMP_HANDLE_DESCRIPTOR
        ensures { result ≡ shared_fields self.now }
    {
        match self {
            RawHandleDescriptor::HandleDescriptor(raw) => *raw,
            RawHandleDescriptor::HandleDescriptor2(raw) => MINIDUMP_HANDLE_DESCRIPTOR {
                handle: raw.handle,
                type_name_rva: raw.type_name_rva,
                object_name_rva: raw.object_name_rva,
                attributes: raw.attributes,
                granted_access: raw.granted_access,
                handle_count: raw.handle_count,
                pointer_count: raw.pointer_count,
            },
        }
    }
}
