// What `==` and `clone` of each record, enum and flag set say.
ghost use Rattle.std.proofs.Common.{rules};

use crate::Error;
use crate::format::{
    ARMCpuInfo, ArmElfHwCaps, MINIDUMP_DIRECTORY, MINIDUMP_HEADER, MINIDUMP_LOCATION_DESCRIPTOR,
    MINIDUMP_MEMORY_DESCRIPTOR, MINIDUMP_MEMORY_DESCRIPTOR64, MINIDUMP_MISC_INFO,
    MINIDUMP_MISC_INFO_2, MINIDUMP_STREAM_TYPE, MINIDUMP_SYSTEM_INFO, MiscInfoFlags, PlatformId,
    ProcessorArchitecture, SYSTEMTIME, X86CpuInfo, XSTATE_FEATURE, XstateFeatureIndex,
};
use minidump_bytes::Exact;

impl Exact for Error {
    ghost exact = { Prim.search rules };
}

impl Exact for MINIDUMP_HEADER {
    ghost exact = { Prim.search rules };
}

impl Exact for MINIDUMP_LOCATION_DESCRIPTOR {
    ghost exact = { Prim.search rules };
}

impl Exact for MINIDUMP_DIRECTORY {
    ghost exact = { Prim.search rules };
}

impl Exact for MINIDUMP_MEMORY_DESCRIPTOR {
    ghost exact = { Prim.search rules };
}

impl Exact for MINIDUMP_MEMORY_DESCRIPTOR64 {
    ghost exact = { Prim.search rules };
}

impl Exact for MINIDUMP_SYSTEM_INFO {
    ghost exact = { record {
      equal = λ x y. ((λ h. Prim.grind rules), (λ h. Prim.grind rules));
      copy = λ x y h. Prim.search rules;
    } };
}

impl Exact for X86CpuInfo {
    ghost exact = { Prim.search rules };
}

impl Exact for ARMCpuInfo {
    ghost exact = { Prim.search rules };
}

impl Exact for MINIDUMP_MISC_INFO {
    ghost exact = { Prim.search rules };
}

impl Exact for MINIDUMP_MISC_INFO_2 {
    ghost exact = { record {
      equal = λ x y. ((λ h. Prim.grind rules), (λ h. Prim.grind rules));
      copy = λ x y h. Prim.search rules;
    } };
}

impl Exact for SYSTEMTIME {
    ghost exact = { Prim.search rules };
}

impl Exact for XSTATE_FEATURE {
    ghost exact = { Prim.search rules };
}

impl Exact for MINIDUMP_STREAM_TYPE {
    ghost exact = { record {
      equal = λ x y. ((λ h. Prim.grind rules), (λ h. Prim.grind rules));
      copy = λ x y h. Prim.search rules;
    } };
}

impl Exact for ProcessorArchitecture {
    ghost exact = { Prim.search rules };
}

impl Exact for PlatformId {
    ghost exact = { Prim.search rules };
}

impl Exact for XstateFeatureIndex {
    ghost exact = { Prim.search rules };
}

impl Exact for MiscInfoFlags {
    ghost exact = { Prim.search rules };
}

impl Exact for ArmElfHwCaps {
    ghost exact = { Prim.search rules };
}
