//! How bytes of users are spelled in a sentence.
ghost use Rattle.std.specs.Prelude.{◌≡◌, ◌<◌, ◌++◌, OnOk};
ghost use Rattle.hurd_words.specs.Escapes.{hex_letter};
ghost use Rattle.hurd_words.specs.Spelling.{is_joint, spelled, spelled_by, spelled_byte, spelled_name, spelled_words};

use crate::escapes::push_escaped;
use hurd_creds::Bytes;
use std::alloc::AllocError;

/// A hexadecimal digit.
fn hex_digit(value: u8) -> u8
    requires { value < 16 }
    ensures { result ≡ hex_letter value }
{
    if value < 10 {
        b'0' + value
    } else {
        b'a' + (value - 10)
    }
}

/// Whether what a sentence says is told apart by a byte from what users wrote; in a path a slash too.
fn is_joint(path: bool, byte: u8) -> bool
    ensures { result ≡ is_joint path byte }
{
    byte == b','
        || byte == b':'
        || byte == b'('
        || byte == b')'
        || byte == b'>'
        || path && byte == b'/'
}

/// Adds a byte, as it is spelled in a word, or in a path.
fn push_byte(text: &mut Vec<u8>, path: bool, byte: u8) -> Result<(), AllocError>
    ensures { OnOk result (text.new.items ≡ text.old.items ++ spelled_byte path byte) }
{
    if is_joint(path, byte) {
        text.extend_from_slice(&[b'\\', b'x', hex_digit(byte / 16), hex_digit(byte % 16)])
    } else {
        push_escaped(text, &[byte])
    }
}

/// Adds bytes, as they are spelled in a word, or in a path.
fn push_bytes(text: &mut Vec<u8>, path: bool, bytes: &[u8]) -> Result<(), AllocError>
    ensures { OnOk result (text.new.items ≡ text.old.items ++ spelled_by path bytes.now) }
{
    for byte in bytes {
        push_byte(text, path, *byte)?;
    }
    Ok(())
}

/// Adds a word of a user's: spaces, newlines, backslashes, commas, colons, brackets, `>` and all bytes but printable ASCII by escapes. Fails only if memory runs out.
pub fn push_spelled(text: &mut Vec<u8>, word: &[u8]) -> Result<(), AllocError>
    ensures { OnOk result (text.new.items ≡ text.old.items ++ spelled word.now) }
{
    push_bytes(text, false, word)
}

/// Adds a name that is in a path: slashes by escapes too. Fails only if memory runs out.
pub fn push_spelled_name(text: &mut Vec<u8>, name: &[u8]) -> Result<(), AllocError>
    ensures { OnOk result (text.new.items ≡ text.old.items ++ spelled_name name.now) }
{
    push_bytes(text, true, name)
}

/// Adds words of a user's, each after a space. Fails only if memory runs out.
pub fn push_spelled_words(text: &mut Vec<u8>, words: &[Bytes]) -> Result<(), AllocError>
    ensures { OnOk result (text.new.items ≡ text.old.items ++ spelled_words words.now) }
{
    for word in words {
        text.push(b' ')?;
        push_spelled(text, word.as_slice())?;
    }
    Ok(())
}
