//! The contexts: the registers of a thread, a record for each processor.
mod amd64;
mod arm;
mod arm64;
mod flags;
mod x86;

pub use amd64::CONTEXT_AMD64;
pub use arm::{CONTEXT_ARM, FLOATING_SAVE_AREA_ARM};
pub use arm64::{CONTEXT_ARM64, CONTEXT_ARM64_OLD};
pub use flags::ContextFlagsCpu;
pub use x86::{CONTEXT_X86, FLOATING_SAVE_AREA_X86};
