// Tests of `minidump_synth`, and of the records of `minidump_format` that it writes.
mod devices;
mod dumps;
mod records;
mod sections;
