mod chain;
mod data_stream;
mod descriptor;
mod information;
mod print;
mod raw;

pub use data_stream::MinidumpHandleDataStream;
pub use descriptor::MinidumpHandleDescriptor;
pub use information::MinidumpHandleObjectInformation;
pub use raw::RawHandleDescriptor;
