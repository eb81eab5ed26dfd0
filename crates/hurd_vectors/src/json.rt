//! Texts and numbers as JSON.
ghost use Rattle.std.specs.Prelude.{◌≡◌, ◌<◌, ◌++◌, ◌∷◌, ◌/◌, ◌%◌, [], OnOk, bytes_eq, codes, decimal, drop};
ghost use Rattle.hurd_creds.specs.Numbers.{long_number_of};
ghost use Rattle.hurd_words.specs.Escapes.{hex_letter};
ghost use Rattle.hurd_words.specs.Reading.{said};
ghost use Rattle.hurd_vectors.specs.Json.{below, found, joined_numbers, joined_texts, json, json_byte, more_numbers, more_texts, name_byte, name_bytes, names, natural, number, numbers, quoted, texts, truth};

use hurd_creds::{Bytes, long_number};
use hurd_words::words::pieces;
use itoa::Buffer;
use std::alloc::{AllocError, Global};

/// A hexadecimal digit.
fn hex_digit(value: u8) -> u8
    requires { value < 16 }
    ensures { result ≡ hex_letter value }
{
    if value < 10 {
        b'0' + value
    } else {
        b'a' + (value - 10)
    }
}

/// Prints a byte of a text, by an escape where it is a quote, a backslash, or not printable ASCII.
fn push_byte(text: &mut Vec<u8>, byte: u8) -> Result<(), AllocError>
    ensures { OnOk result (text.new.items ≡ text.old.items ++ json_byte byte) }
{
    match byte {
        b'"' => text.extend_from_slice(b"\\\"")?,
        b'\\' => text.extend_from_slice(b"\\\\")?,
        8 => text.extend_from_slice(b"\\b")?,
        b'\t' => text.extend_from_slice(b"\\t")?,
        b'\n' => text.extend_from_slice(b"\\n")?,
        12 => text.extend_from_slice(b"\\f")?,
        b'\r' => text.extend_from_slice(b"\\r")?,
        32..=126 => text.push(byte)?,
        _ => push_code(text, byte)?,
    }
    Ok(())
}

/// Prints a byte by its number, in four hexadecimal digits.
fn push_code(text: &mut Vec<u8>, byte: u8) -> Result<(), AllocError>
    ensures { OnOk result (text.new.items ≡ text.old.items ++ (codes "\\u00" ++ hex_letter (byte / 16 % 16) ∷ hex_letter (byte % 16) ∷ [])) }
{
    text.extend_from_slice(b"\\u00")?;
    text.extend_from_slice(&[hex_digit(byte / 16 % 16), hex_digit(byte % 16)])?;
    Ok(())
}

/// Prints the bytes of a text.
fn push_bytes(text: &mut Vec<u8>, bytes: &[u8]) -> Result<(), AllocError>
    ensures { OnOk result (text.new.items ≡ text.old.items ++ json bytes.now) }
{
    for byte in bytes {
        push_byte(text, *byte)?;
    }
    Ok(())
}

/// Prints a text between quotes.
pub(crate) fn push_quoted(text: &mut Vec<u8>, bytes: &[u8]) -> Result<(), AllocError>
    ensures { OnOk result (text.new.items ≡ text.old.items ++ quoted bytes.now) }
{
    text.push(b'"')?;
    push_bytes(text, bytes)?;
    text.push(b'"')?;
    Ok(())
}

/// Whether a word is `-`, which stands for none.
fn is_dash(word: &[u8]) -> bool
    ensures { result ≡ bytes_eq word.now (codes "-") }
{
    word == b"-".as_slice()
}

/// Prints a byte of names that are joined by commas.
fn push_name_byte(text: &mut Vec<u8>, byte: u8) -> Result<(), AllocError>
    ensures { OnOk result (text.new.items ≡ text.old.items ++ name_byte byte) }
{
    if byte == b',' {
        text.extend_from_slice(b"\", \"")?;
        return Ok(());
    }
    push_byte(text, byte)
}

/// Prints the bytes of names that are joined by commas.
fn push_name_bytes(text: &mut Vec<u8>, bytes: &[u8]) -> Result<(), AllocError>
    ensures { OnOk result (text.new.items ≡ text.old.items ++ name_bytes bytes.now) }
{
    for byte in bytes {
        push_name_byte(text, *byte)?;
    }
    Ok(())
}

/// Prints names that are joined by commas, or `-` for none, as an array.
pub(crate) fn push_names(text: &mut Vec<u8>, word: &[u8]) -> Result<(), AllocError>
    ensures { OnOk result (text.new.items ≡ text.old.items ++ names word.now) }
{
    if is_dash(word) {
        text.extend_from_slice(b"[]")?;
        return Ok(());
    }
    text.extend_from_slice(b"[\"")?;
    push_name_bytes(text, word)?;
    text.extend_from_slice(b"\"]")?;
    Ok(())
}

/// Prints a number.
pub(crate) fn push_decimal(text: &mut Vec<u8>, number: u64) -> Result<(), AllocError>
    ensures { OnOk result (text.new.items ≡ text.old.items ++ decimal number) }
{
    text.extend_from_slice(Buffer::new().format(number).as_bytes())?;
    Ok(())
}

/// The number of digits; zero where they are none.
fn found(digits: &[u8]) -> u64
    ensures { result ≡ found (long_number_of digits.now) }
{
    match long_number(digits) {
        Some(number) => number,
        None => 0,
    }
}

/// Prints digits as a number, without zeros that lead.
fn push_natural(text: &mut Vec<u8>, digits: &[u8]) -> Result<(), AllocError>
    ensures { OnOk result (text.new.items ≡ text.old.items ++ natural digits.now) }
{
    push_decimal(text, found(digits))
}

/// Prints so much below zero.
fn push_below(text: &mut Vec<u8>, amount: u64) -> Result<(), AllocError>
    ensures { OnOk result (text.new.items ≡ text.old.items ++ below amount) }
{
    if amount != 0 {
        text.push(b'-')?;
    }
    push_decimal(text, amount)
}

/// Prints digits as a number, after `-` where it is below zero.
pub(crate) fn push_number(text: &mut Vec<u8>, word: &[u8]) -> Result<(), AllocError>
    ensures { OnOk result (text.new.items ≡ text.old.items ++ number word.now) }
{
    match word {
        [b'-', digits @ ..] => push_below(text, found(digits)),
        _ => push_natural(text, word),
    }
}

/// Prints numbers, each after a comma.
fn push_more_numbers(text: &mut Vec<u8>, words: &[&[u8]]) -> Result<(), AllocError>
    ensures { OnOk result (text.new.items ≡ text.old.items ++ more_numbers (said words.now)) }
{
    for word in words {
        push_next_number(text, word)?;
    }
    Ok(())
}

/// Prints a number after a comma.
fn push_next_number(text: &mut Vec<u8>, word: &[u8]) -> Result<(), AllocError>
    ensures { OnOk result (text.new.items ≡ text.old.items ++ (codes ", " ++ natural word.now)) }
{
    text.extend_from_slice(b", ")?;
    push_natural(text, word)
}

/// Prints numbers, with commas between them.
fn push_joined_numbers(text: &mut Vec<u8>, words: &[&[u8]]) -> Result<(), AllocError>
    ensures { OnOk result (text.new.items ≡ text.old.items ++ joined_numbers (said words.now)) }
{
    let Some((first, rest)) = words.split_first() else {
        return Ok(());
    };
    push_natural(text, first)?;
    push_more_numbers(text, rest)
}

/// Prints numbers that are joined by commas, or `-` for none, as an array.
pub(crate) fn push_numbers(alloc: Global, text: &mut Vec<u8>, word: &[u8]) -> Result<(), AllocError>
    ensures { OnOk result (text.new.items ≡ text.old.items ++ numbers word.now) }
{
    if is_dash(word) {
        text.extend_from_slice(b"[]")?;
        return Ok(());
    }
    let words = pieces(alloc, word, b',')?;
    text.push(b'[')?;
    push_joined_numbers(text, words.as_slice())?;
    text.push(b']')?;
    Ok(())
}

/// The bytes after so many.
pub(crate) fn behind(bytes: &[u8], skip: usize) -> &[u8]
    ensures { result.now ≡ drop skip bytes.now }
{
    if skip <= bytes.len() {
        &bytes[skip..]
    } else {
        &[]
    }
}

/// Prints a text without so many of its first bytes, after a comma.
fn push_next_text(text: &mut Vec<u8>, skip: usize, bytes: &[u8]) -> Result<(), AllocError>
    ensures { OnOk result (text.new.items ≡ text.old.items ++ (codes ", " ++ quoted (drop skip bytes.now))) }
{
    text.extend_from_slice(b", ")?;
    push_quoted(text, behind(bytes, skip))
}

/// Prints texts without so many of their first bytes, each after a comma.
fn push_more_texts(text: &mut Vec<u8>, skip: usize, items: &[Bytes]) -> Result<(), AllocError>
    ensures { OnOk result (text.new.items ≡ text.old.items ++ more_texts skip items.now) }
{
    for item in items {
        push_next_text(text, skip, item.as_slice())?;
    }
    Ok(())
}

/// Prints texts without so many of their first bytes, with commas between them.
fn push_joined_texts(text: &mut Vec<u8>, skip: usize, items: &[Bytes]) -> Result<(), AllocError>
    ensures { OnOk result (text.new.items ≡ text.old.items ++ joined_texts skip items.now) }
{
    let Some((first, rest)) = items.split_first() else {
        return Ok(());
    };
    push_quoted(text, behind(first.as_slice(), skip))?;
    push_more_texts(text, skip, rest)
}

/// Prints texts without so many of their first bytes, as an array.
pub(crate) fn push_texts(text: &mut Vec<u8>, skip: usize, items: &[Bytes]) -> Result<(), AllocError>
    ensures { OnOk result (text.new.items ≡ text.old.items ++ texts skip items.now) }
{
    text.push(b'[')?;
    push_joined_texts(text, skip, items)?;
    text.push(b']')?;
    Ok(())
}

/// Prints whether something holds.
pub(crate) fn push_truth(text: &mut Vec<u8>, holds: bool) -> Result<(), AllocError>
    ensures { OnOk result (text.new.items ≡ text.old.items ++ truth holds) }
{
    if holds {
        text.extend_from_slice(b"true")?;
    } else {
        text.extend_from_slice(b"false")?;
    }
    Ok(())
}
