//! The texts of Linux's files that a dump keeps.
mod files;
mod pairs;
mod print;
mod text;

pub(crate) use files::{CpuInfo, Environ, LsbRelease, ProcStatus};
pub use files::{
    MinidumpLinuxCpuInfo, MinidumpLinuxEnviron, MinidumpLinuxLsbRelease, MinidumpLinuxProcLimits,
    MinidumpLinuxProcStatus,
};
pub use pairs::LinuxPairs;
pub(crate) use text::LinuxPairsFile;
