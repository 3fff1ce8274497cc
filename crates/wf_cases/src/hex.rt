//! Bytes in hexadecimal.

ghost use Rattle.std.specs.Prelude.{◌<◌};

use std::alloc::{AllocError, Global};

/// Returns the value of a hexadecimal digit, or 0.
pub(crate) fn digit(byte: u8) -> u8
    ensures { result < 16 }
{
    match byte {
        b'0'..=b'9' => byte - b'0',
        b'a'..=b'f' => byte - b'a' + 10,
        _ => 0,
    }
}

/// Adds the bytes that `text` has in hexadecimal to `bytes`.
pub fn push_hex(bytes: &mut Vec<u8>, text: &str) -> Result<(), AllocError> {
    for pair in text.as_bytes().chunks_exact(2) {
        bytes.push(16 * digit(pair[0]) + digit(pair[1]))?;
    }
    Ok(())
}

/// Tells `bytes` in hexadecimal.
pub fn told_hex(alloc: Global, bytes: &[u8]) -> Result<String, AllocError> {
    let mut told = String::new(alloc);
    for byte in bytes {
        let pair = format!(in alloc; "{byte:02x}")?;
        told.push_str(&pair)?;
    }
    Ok(told)
}
