// Tests of `minidump_format`. The records are those of `synth`, which writes them too.
mod errors;
mod flags;
mod stream_type;
