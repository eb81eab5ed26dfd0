//! The words of a line.
ghost use Rattle.std.specs.Prelude.{◌≡◌, ◌==◌, ◌<◌, ◌⊎◌, ◌∷◌, ◌++◌, [], ℕ, List, false, true, None, IfErr, IfOk, IfSome, OnOk, map, string_bytes};
ghost use Rattle.std.specs.List.{slice_split};
ghost use Rattle.hurd_words.specs.Reading.{Reads, Refuses, RefusesByte, Takes, TakesByte, behind, good_word, good_words};
ghost use Rattle.hurd_words.specs.Words.{escape_code, has_hidden_byte, is_hidden, text_after, text_of};

use crate::fault::ReadFault;
use std::alloc::{AllocError, Global};

/// The parts between bytes of one kind.
pub fn pieces<'a>(alloc: Global, bytes: &'a [u8], at: u8) -> Result<Vec<&'a [u8]>, AllocError>
    ensures { IfOk result (λ v. map (λ x. x.now) v.items ≡ slice_split (λ b. b == at) bytes.entry.now) }
{
    bytes.split(|b| *b == at).collect(alloc)
}

/// The words of a line, with their escapes resolved.
pub fn words_of(alloc: Global, line: &[u8]) -> Result<Vec<String>, ReadFault>
    ensures { Reads (λ v. map string_bytes v.items) (good_words text_of (slice_split (λ b. b == 32) line.now)) result }
{
    let mut words = Vec::new(alloc);
    let parts = pieces(alloc, line, b' ')?;
    for piece in parts.as_slice() {
        add_word(alloc, &mut words, piece)?;
    }
    Ok(words)
}

/// One piece of a line more: a word, or nothing between two spaces.
fn add_word(alloc: Global, words: &mut Vec<String>, piece: &[u8]) -> Result<(), ReadFault>
    ensures ok { OnOk result (Takes (good_words text_of) piece.now (map string_bytes words.old.items) (map string_bytes words.new.items)) }
    ensures err { IfErr result (λ e. (e ≡ ReadFault.Memory) ⊎ Refuses (good_words text_of) piece.now) }
{
    if piece.is_empty() {
        return Ok(());
    }
    let word = unescaped(alloc, piece)?;
    words.push(word)?;
    Ok(())
}

/// What a word spells.
fn unescaped(alloc: Global, word: &[u8]) -> Result<String, ReadFault>
    ensures { Reads string_bytes (good_word text_of word.now) result }
{
    if has_hidden_byte(word) {
        return Err(ReadFault::Bad);
    }
    let mut text = String::new(alloc);
    let mut escaped = false;
    for byte in word {
        escaped = take_byte(&mut text, escaped, *byte)?;
    }
    if escaped {
        Err(ReadFault::Bad)
    } else {
        Ok(text)
    }
}

pub fn has_hidden_byte(word: &[u8]) -> bool
    ensures { result ≡ has_hidden_byte word.now }
{
    word.iter().any(|byte| !(*byte >= 33 && *byte <= 126))
}

/// Takes a byte of a word, after a backslash or not, and answers whether the next comes after one.
fn take_byte(text: &mut String, escaped: bool, byte: u8) -> Result<bool, ReadFault>
    requires { is_hidden byte ≡ false }
    ensures ok { IfOk result (λ next. TakesByte escaped byte next (string_bytes text.old) (string_bytes text.new)) }
    ensures err { IfErr result (λ e. (e ≡ ReadFault.Memory) ⊎ RefusesByte escaped byte) }
{
    if escaped {
        let Some(code) = escape_code(byte) else {
            return Err(ReadFault::Bad);
        };
        push_ascii(text, code)?;
        return Ok(false);
    }
    if byte == b'\\' {
        return Ok(true);
    }
    push_ascii(text, byte)?;
    Ok(false)
}

/// What a byte after a backslash stands for.
pub fn escape_code(byte: u8) -> Option<u8>
    ensures code { result ≡ escape_code byte }
    ensures ascii { IfSome result (λ b. b < 128) }
{
    match byte {
        b's' => Some(b' '),
        b'n' => Some(b'\n'),
        b'\\' => Some(b'\\'),
        _ => None,
    }
}

/// One ASCII byte more.
fn push_ascii(text: &mut String, byte: u8) -> Result<(), ReadFault>
    requires { byte < 128 }
    ensures ok { OnOk result (string_bytes text.new ≡ string_bytes text.old ++ byte ∷ []) }
    ensures err { IfErr result (λ e. e ≡ ReadFault.Memory) }
{
    text.push(char::from(byte))?;
    Ok(())
}
