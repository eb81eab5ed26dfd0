//! Bytes with escapes.
ghost use Rattle.std.specs.Prelude.{◌≡◌, ◌<◌, ◌++◌, OnOk};
ghost use Rattle.hurd_words.specs.Escapes.{escaped, escaped_byte, hex_letter};

use std::alloc::AllocError;

/// A hexadecimal digit.
fn hex_digit(value: u8) -> u8
    requires { value < 16 }
    ensures { result ≡ hex_letter value }
{
    if value < 10 {
        b'0' + value
    } else {
        b'a' + (value - 10)
    }
}

/// Prints a byte, by an escape where no word has it as it is.
fn push_escaped_byte(text: &mut Vec<u8>, byte: u8) -> Result<(), AllocError>
    ensures { OnOk result (text.new.items ≡ text.old.items ++ escaped_byte byte) }
{
    match byte {
        b' ' => text.extend_from_slice(b"\\s")?,
        b'\n' => text.extend_from_slice(b"\\n")?,
        b'\\' => text.extend_from_slice(b"\\\\")?,
        33..=126 => text.push(byte)?,
        _ => { text.extend_from_slice(&[b'\\', b'x', hex_digit(byte / 16), hex_digit(byte % 16)])? }
    }
    Ok(())
}

/// Prints bytes, each by an escape where no word has it as it is.
pub fn push_escaped(text: &mut Vec<u8>, bytes: &[u8]) -> Result<(), AllocError>
    ensures { OnOk result (text.new.items ≡ text.old.items ++ escaped bytes.now) }
{
    for byte in bytes {
        push_escaped_byte(text, *byte)?;
    }
    Ok(())
}
