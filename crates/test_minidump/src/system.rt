// Tests of `minidump_system`.
mod names;
