//! Crashpad's information on a process and its modules.

mod annotation;
mod dictionary;
mod info;
mod module_info;
mod part;
mod print;
mod text;

pub use annotation::MinidumpAnnotation;
pub use info::MinidumpCrashpadInfo;
pub use module_info::MinidumpModuleCrashpadInfo;
