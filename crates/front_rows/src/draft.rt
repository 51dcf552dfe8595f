//! Texts of rows as they are written.

use anyhow::{Result, bail};
use std::alloc::Global;

/// How often a part may stand in a text.
const MOST_TIMES: u32 = 1000000;

/// A number of times and what stands behind it.
pub fn counted(text: &str) -> Result<(u32, &str)> {
    let Some((digits, part)) = text.split_once(' ') else {
        bail!("no number and part");
    };
    let Ok(times) = digits.parse::<u32>() else {
        bail!("no number");
    };
    if times > MOST_TIMES {
        bail!("too many times");
    }
    Ok((times, part))
}

/// The bytes of a text with `\n`, `\r`, `\t`, `\s` for a blank, `\\`, and `\x` with two digits for any byte.
pub fn unescaped(alloc: Global, text: &str) -> Result<Vec<u8>> {
    let mut bytes = Vec::new(alloc);
    let mut escaped = false;
    // how many digits of a byte are still to be read, and what was read of it
    let mut digits: u8 = 0;
    let mut read: u8 = 0;
    for &byte in text.as_bytes() {
        if digits > 0 {
            digits -= 1;
            read = read.wrapping_mul(16).wrapping_add(digit(byte)?);
            if digits == 0 {
                bytes.push(read)?;
            }
        } else if escaped {
            escaped = false;
            match byte {
                b'n' => bytes.push(b'\n')?,
                b'r' => bytes.push(b'\r')?,
                b't' => bytes.push(b'\t')?,
                b's' => bytes.push(b' ')?,
                b'\\' => bytes.push(b'\\')?,
                b'x' => digits = 2,
                _ => bail!("an unknown escape"),
            }
        } else if byte == b'\\' {
            escaped = true;
        } else {
            bytes.push(byte)?;
        }
    }
    if escaped || digits > 0 {
        bail!("an escape without its end");
    }
    Ok(bytes)
}

fn digit(byte: u8) -> Result<u8> {
    match byte {
        b'0'..=b'9' => Ok(byte - b'0'),
        b'a'..=b'f' => Ok(byte - b'a' + 10),
        _ => bail!("no digit of a byte"),
    }
}
