//! The words of a line.
ghost use Rattle.std.specs.Prelude.{◌≡◌, ◌==◌, ◌<◌, ◌⊎◌, IfErr, IfOk, IfSome, OnOk};
ghost use Rattle.std.specs.List.{slice_split};
ghost use Rattle.hurd_words.specs.Reading.{Reads, Refuses, Takes, good_word, good_words};
ghost use Rattle.hurd_lists.specs.Reading.{RefusesByte, TakesByte};
ghost use Rattle.hurd_lists.specs.Words.{bytes_of, hex_byte, hex_digit};

use hurd_creds::Bytes;
use hurd_words::fault::ReadFault;
use hurd_words::words::{escape_code, has_hidden_byte, pieces};
use std::alloc::Global;

/// How far an escape of a word has come.
#[derive(Clone, Copy, Debug, PartialEq, Eq)]
pub enum Escape {
    /// Outside of any.
    Plain,
    /// After the backslash.
    Begun,
    /// After `\x`.
    Hex,
    /// After `\x` and this digit.
    Half(u8),
}

/// The words of a line, with their escapes resolved.
pub fn words_of(alloc: Global, line: &[u8]) -> Result<Vec<Bytes>, ReadFault>
    ensures { Reads (λ v. v.items) (good_words bytes_of (slice_split (λ b. b == 32) line.now)) result }
{
    let mut words = Vec::new(alloc);
    let parts = pieces(alloc, line, b' ')?;
    for piece in parts.as_slice() {
        add_word(alloc, &mut words, piece)?;
    }
    Ok(words)
}

/// One piece of a line more: a word, or nothing between two spaces.
fn add_word(alloc: Global, words: &mut Vec<Bytes>, piece: &[u8]) -> Result<(), ReadFault>
    ensures ok { OnOk result (Takes (good_words bytes_of) piece.now words.old.items words.new.items) }
    ensures err { IfErr result (λ e. (e ≡ ReadFault.Memory) ⊎ Refuses (good_words bytes_of) piece.now) }
{
    if piece.is_empty() {
        return Ok(());
    }
    let word = unescaped(alloc, piece)?;
    words.push(word)?;
    Ok(())
}

/// What a word spells.
fn unescaped(alloc: Global, word: &[u8]) -> Result<Bytes, ReadFault>
    ensures { Reads (λ b. b) (good_word bytes_of word.now) result }
{
    if has_hidden_byte(word) {
        return Err(ReadFault::Bad);
    }
    let mut bytes = Vec::new(alloc);
    let mut escape = Escape::Plain;
    for byte in word {
        escape = take_byte(&mut bytes, escape, *byte)?;
    }
    match escape {
        Escape::Plain => Ok(Bytes::new(bytes)),
        Escape::Begun | Escape::Hex | Escape::Half(_) => Err(ReadFault::Bad),
    }
}

/// Takes a byte of a word, and answers how far an escape has come then.
fn take_byte(bytes: &mut Vec<u8>, escape: Escape, byte: u8) -> Result<Escape, ReadFault>
    ensures ok { IfOk result (λ next. TakesByte escape byte next bytes.old.items bytes.new.items) }
    ensures err { IfErr result (λ e. (e ≡ ReadFault.Memory) ⊎ RefusesByte escape byte) }
{
    match escape {
        Escape::Plain => take_plain(bytes, byte),
        Escape::Begun => take_code(bytes, byte),
        Escape::Hex => Ok(Escape::Half(byte)),
        Escape::Half(high) => take_pair(bytes, high, byte),
    }
}

/// Takes a byte outside of any escape.
fn take_plain(bytes: &mut Vec<u8>, byte: u8) -> Result<Escape, ReadFault>
    ensures ok { IfOk result (λ next. TakesByte Escape.Plain byte next bytes.old.items bytes.new.items) }
    ensures err { IfErr result (λ e. (e ≡ ReadFault.Memory) ⊎ RefusesByte Escape.Plain byte) }
{
    if byte == b'\\' {
        return Ok(Escape::Begun);
    }
    bytes.push(byte)?;
    Ok(Escape::Plain)
}

/// Takes the byte after a backslash.
fn take_code(bytes: &mut Vec<u8>, byte: u8) -> Result<Escape, ReadFault>
    ensures ok { IfOk result (λ next. TakesByte Escape.Begun byte next bytes.old.items bytes.new.items) }
    ensures err { IfErr result (λ e. (e ≡ ReadFault.Memory) ⊎ RefusesByte Escape.Begun byte) }
{
    if byte == b'x' {
        return Ok(Escape::Hex);
    }
    let Some(code) = escape_code(byte) else {
        return Err(ReadFault::Bad);
    };
    bytes.push(code)?;
    Ok(Escape::Plain)
}

/// Takes the second digit after `\x`.
fn take_pair(bytes: &mut Vec<u8>, high: u8, low: u8) -> Result<Escape, ReadFault>
    ensures ok { IfOk result (λ next. TakesByte (Escape.Half high) low next bytes.old.items bytes.new.items) }
    ensures err { IfErr result (λ e. (e ≡ ReadFault.Memory) ⊎ RefusesByte (Escape.Half high) low) }
{
    let Some(code) = hex_byte(high, low) else {
        return Err(ReadFault::Bad);
    };
    bytes.push(code)?;
    Ok(Escape::Plain)
}

/// The byte of two hexadecimal digits.
fn hex_byte(high: u8, low: u8) -> Option<u8>
    ensures { result ≡ hex_byte high low }
{
    let high = hex_digit(high)?;
    let low = hex_digit(low)?;
    Some(high * 16 + low)
}

/// The value of a hexadecimal digit.
fn hex_digit(byte: u8) -> Option<u8>
    ensures value { result ≡ hex_digit byte }
    ensures digit { IfSome result (λ d. d < 16) }
{
    match byte {
        b'0'..=b'9' => Some(byte - b'0'),
        b'a'..=b'f' => Some(byte - b'a' + 10),
        b'A'..=b'F' => Some(byte - b'A' + 10),
        _ => None,
    }
}
