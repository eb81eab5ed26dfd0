//! Words of the command line, as they are printed.
ghost use Rattle.std.specs.Prelude.{◌<◌};

use std::alloc::{AllocError, Global};

/// A digit of base 16.
fn digit(value: u8) -> u8
    requires { value < 16 }
{
    if value < 10 {
        b'0' + value
    } else {
        b'a' + (value - 10)
    }
}

/// Adds a byte by its number.
fn push_number(bytes: &mut Vec<u8>, byte: u8) -> Result<(), AllocError> {
    bytes.extend_from_slice(&[b'\\', b'x', digit(byte / 16), digit(byte % 16)])
}

/// A word as it is printed: bytes that are not letters, digits, signs or spaces of ASCII are escapes, so that a word is never a line or a control code of the
/// program's own. Fails only if memory runs out.
fn shown(alloc: Global, word: &str) -> Result<Vec<u8>, AllocError> {
    let mut bytes = Vec::new(alloc);
    for byte in word.as_bytes() {
        match *byte {
            32..=126 => bytes.push(*byte)?,
            other => push_number(&mut bytes, other)?,
        }
    }
    Ok(bytes)
}

/// The name of a file as it is printed: the same, with backslashes and colons as escapes too, so that two names never read alike, and no name is a place in
/// another file. Fails only if memory runs out.
pub fn shown_file(alloc: Global, name: &str) -> Result<Vec<u8>, AllocError> {
    let mut bytes = Vec::new(alloc);
    for byte in name.as_bytes() {
        match *byte {
            b':' | b'\\' => push_number(&mut bytes, *byte)?,
            32..=126 => bytes.push(*byte)?,
            other => push_number(&mut bytes, other)?,
        }
    }
    Ok(bytes)
}

/// The words as they are printed. Fails only if memory runs out.
pub fn all_shown(alloc: Global, words: &[String]) -> Result<Vec<String>, AllocError> {
    let mut all = Vec::new(alloc);
    for word in words {
        let bytes = shown(alloc, word.as_str())?;
        all.push(String::from_utf8_lossy(alloc, bytes.as_slice())?)?;
    }
    Ok(all)
}
