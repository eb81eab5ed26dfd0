//! The lines that `ls -d`, `showtrans` and `fsysopts` print, and what they are made of.
ghost use Rattle.std.specs.Prelude.{◌≡◌, ◌++◌, IfOk, OnOk};
ghost use Rattle.hurd_words.specs.Printing.{kind_letter, octal_digit, six_octal_digits, spaced, spaced_words, spelled, spelled_byte, stat_line, stat_words, text_if, words_line};

use bitflags::Flags;
use hurd_creds::{Bytes, Kind, Mode, Stat};
use itoa::Buffer;
use std::alloc::{AllocError, Global};

/// The letter of a kind.
pub fn kind_letter(kind: Kind) -> u8
    ensures { result ≡ kind_letter kind }
{
    match kind {
        Kind::File => b'-',
        Kind::Dir => b'd',
        Kind::Link => b'l',
        Kind::Fifo => b'p',
        Kind::Char => b'c',
    }
}

/// The last octal digit of a number.
pub fn octal_digit(number: u32) -> u8
    ensures { result ≡ octal_digit number }
{
    b'0' + (number % 8) as u8
}

/// Prints a mode as six octal digits.
pub fn push_mode(line: &mut Vec<u8>, mode: Mode) -> Result<(), AllocError>
    ensures { OnOk result (line.new.items ≡ line.old.items ++ six_octal_digits mode.0) }
{
    let bits = mode.bits();
    let digits = [
        octal_digit(bits / 0o100000),
        octal_digit(bits / 0o10000),
        octal_digit(bits / 0o1000),
        octal_digit(bits / 0o100),
        octal_digit(bits / 0o10),
        octal_digit(bits),
    ];
    line.extend_from_slice(&digits)?;
    Ok(())
}

/// Prints a number after a space.
pub fn push_number(line: &mut Vec<u8>, number: u64) -> Result<(), AllocError>
    ensures { OnOk result (line.new.items ≡ line.old.items ++ spaced number) }
{
    push_long_number(line, u128::from(number))
}

/// The same of greater numbers.
pub fn push_long_number(line: &mut Vec<u8>, number: u128) -> Result<(), AllocError>
    ensures { OnOk result (line.new.items ≡ line.old.items ++ spaced number) }
{
    let mut buffer = Buffer::new();
    line.push(b' ')?;
    line.extend_from_slice(buffer.format(number).as_bytes())?;
    Ok(())
}

/// Prints a text, where something holds.
pub fn push_if(line: &mut Vec<u8>, holds: bool, text: &str) -> Result<(), AllocError>
    ensures { OnOk result (line.new.items ≡ line.old.items ++ text_if holds text.now) }
{
    if holds {
        line.extend_from_slice(text.as_bytes())?;
    }
    Ok(())
}

/// Prints a node's kind and mode, then its links, owner, group and size.
pub fn push_stat(line: &mut Vec<u8>, stat: &Stat) -> Result<(), AllocError>
    ensures { OnOk result (line.new.items ≡ line.old.items ++ stat_words stat.now) }
{
    line.push(kind_letter(stat.kind))?;
    push_mode(line, stat.mode)?;
    push_number(line, u64::from(stat.links))?;
    push_number(line, u64::from(stat.owner))?;
    push_number(line, u64::from(stat.group))?;
    push_number(line, stat.size)
}

/// The same on a line.
pub fn stat_line(alloc: Global, stat: &Stat) -> Result<Vec<u8>, AllocError>
    ensures { IfOk result (λ line. line.items ≡ stat_line stat.now) }
{
    let mut line = Vec::new(alloc);
    push_stat(&mut line, stat)?;
    line.push(b'\n')?;
    Ok(line)
}

/// Prints a byte as it is written in a script.
fn push_byte(line: &mut Vec<u8>, byte: u8) -> Result<(), AllocError>
    ensures { OnOk result (line.new.items ≡ line.old.items ++ spelled_byte byte) }
{
    match byte {
        b' ' => line.extend_from_slice(b"\\s")?,
        b'\n' => line.extend_from_slice(b"\\n")?,
        b'\\' => line.extend_from_slice(b"\\\\")?,
        plain => line.push(plain)?,
    }
    Ok(())
}

/// Prints a word as it is written in a script.
pub fn push_word(line: &mut Vec<u8>, word: &[u8]) -> Result<(), AllocError>
    ensures { OnOk result (line.new.items ≡ line.old.items ++ spelled word.now) }
{
    for byte in word {
        push_byte(line, *byte)?;
    }
    Ok(())
}

/// Prints words, each after a space.
pub fn push_words(line: &mut Vec<u8>, words: &[Bytes]) -> Result<(), AllocError>
    ensures { OnOk result (line.new.items ≡ line.old.items ++ spaced_words words.now) }
{
    for word in words {
        line.push(b' ')?;
        push_word(line, word.as_slice())?;
    }
    Ok(())
}

/// Words on a line, with a space between them.
pub fn words_line(alloc: Global, words: &[Bytes]) -> Result<Vec<u8>, AllocError>
    ensures { IfOk result (λ line. line.items ≡ words_line words.now) }
{
    let mut line = Vec::new(alloc);
    if let Some((first, rest)) = words.split_first() {
        push_word(&mut line, first.as_slice())?;
        push_words(&mut line, rest)?;
    }
    line.push(b'\n')?;
    Ok(line)
}
