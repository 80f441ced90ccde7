//! Bytes in hexadecimal digits.

use std::alloc::Global;

/// Whether these bytes are those of the digits.
pub fn is_hex(alloc: Global, bytes: &[u8], digits: &str) -> bool {
    match hex::encode(alloc, bytes) {
        Ok(text) => text.as_str() == digits,
        Err(_) => false,
    }
}
