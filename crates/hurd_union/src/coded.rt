//! Words as one text: a byte 0 ends each word, and in a word a byte 1 comes before each 0 and 1.
ghost use Rattle.std.specs.Prelude.{◌≡◌, ◌++◌, ◌∷◌, [], IfOk};
ghost use Rattle.hurd_trans_iface.specs.Kinds.Union.{marked, text_of};

use hurd_creds::Bytes;
use std::alloc::{AllocError, Global};

/// The text of these words.
pub(crate) fn coded(alloc: Global, words: &[Bytes]) -> Result<Bytes, AllocError>
    ensures { IfOk result (λ text. text ≡ text_of words.now) }
{
    let mut text = Vec::new(alloc);
    for word in words {
        push_word(&mut text, word.as_slice())?;
    }
    Ok(Bytes::new(text))
}

/// One more word of a text.
fn push_word(text: &mut Vec<u8>, word: &[u8]) -> Result<(), AllocError>
    ensures { IfOk result (λ _. text.new.items ≡ text.old.items ++ text_of (word.now ∷ [])) }
{
    for byte in word {
        push_byte(text, *byte)?;
    }
    text.push(0)?;
    Ok(())
}

/// One more byte of a word.
fn push_byte(text: &mut Vec<u8>, byte: u8) -> Result<(), AllocError>
    ensures { IfOk result (λ _. text.new.items ≡ text.old.items ++ marked (byte ∷ [])) }
{
    match byte {
        0 => text.extend_from_slice(&[1, 0])?,
        1 => text.extend_from_slice(&[1, 1])?,
        _ => text.push(byte)?,
    }
    Ok(())
}
