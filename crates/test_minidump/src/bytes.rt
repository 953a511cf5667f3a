// Tests of `minidump_bytes`.
mod linux_texts;
mod texts;
mod wire;
