//! Copies of texts and bytes.
ghost use Rattle.std.specs.Prelude.{◌≡◌, ◌<◌, IfOk, OnErr, length, string_bytes};

use std::alloc::{AllocError, Global};

// Copies a text. An empty one takes no memory.
pub(crate) fn copy_text(alloc: Global, text: &str) -> Result<String, AllocError>
    ensures same { IfOk result (λ copy. string_bytes copy ≡ text.now) }
    ensures some { OnErr result (0 < length text.now) }
{
    if text.is_empty() {
        return Ok(String::new(alloc));
    }
    String::from_str(alloc, text)
}

// Copies bytes. Takes no memory if there are none.
pub(crate) fn copy_bytes(alloc: Global, bytes: &[u8]) -> Result<Vec<u8>, AllocError>
    ensures same { IfOk result (λ copy. copy.items ≡ bytes.now) }
    ensures some { OnErr result (0 < length bytes.now) }
{
    if bytes.is_empty() {
        return Ok(Vec::new(alloc));
    }
    Vec::from_slice(alloc, bytes)
}
