//! Bytes by their hexadecimal digits; spaces are left out.
ghost use Rattle.std.specs.Prelude.{◌<◌};

use std::alloc::{AllocError, Global};

/// The bytes of these digits, two a byte.
pub fn bytes_of(alloc: Global, digits: &str) -> Result<Vec<u8>, AllocError> {
    let mut bytes = Vec::new(alloc);
    let mut high = None;
    for digit in digits.as_bytes() {
        if *digit == b' ' {
            continue;
        }
        let value = value_of(*digit);
        match high {
            None => high = Some(value),
            Some(first) => {
                bytes.push(joined(first, value))?;
                high = None;
            }
        }
    }
    Ok(bytes)
}

// The byte of two digits.
fn joined(high: u8, low: u8) -> u8 {
    (high % 16) * 16 + low % 16
}

// What a digit stands for.
fn value_of(digit: u8) -> u8
    ensures { result < 16 }
{
    if digit.is_ascii_digit() {
        return digit - b'0';
    }
    if b'a' <= digit && digit <= b'f' {
        return digit - b'a' + 10;
    }
    0
}
