//! Texts in hexadecimal digits.

use depot_base::Memory;
use std::alloc::Global;

/// The bytes of a text in hexadecimal digits, two a byte; other characters are skipped.
pub fn bytes(alloc: Global, hex: &str) -> Result<Vec<u8>, Memory> {
    let mut out = Vec::new(alloc);
    let mut high = None;
    for digit in hex.bytes() {
        let digit = match digit {
            b'0'..=b'9' => digit - b'0',
            b'a'..=b'f' => digit - b'a' + 10,
            _ => continue,
        };
        match high.take() {
            None => high = Some(digit),
            Some(high) => out.push((high << 4) | digit)?,
        }
    }
    Ok(out)
}
