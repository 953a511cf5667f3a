//! What no contract says of the crates that read streams, by their public functions that `minidump`
//! passes on. What is read of streams, rows of `samples/` show.
mod context;
mod files;
mod memory;
mod modules;
mod reason;
mod stability;
