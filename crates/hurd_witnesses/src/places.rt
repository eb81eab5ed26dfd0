//! Where something is that a line of what is learned tells.
ghost use Rattle.std.specs.Prelude.{◌≡◌, ◌++◌, ◌∷◌, ℕ, IfOk, List, OnOk};
ghost use Rattle.hurd_witnesses.specs.Trials.{by_digits, by_value, child_of, digit_of, is_path, part_at, place_of, scripted, scripted_from};

use crate::children::child_of;
use hurd_creds::Bytes;
use hurd_words::words::pieces;
use std::alloc::{AllocError, Global};

/// Where a byte of a spelled place stands: in no escape, after a backslash, and after `\x` as its first digit or its second, after that.
#[derive(Clone, Copy, Debug)]
pub enum Stand {
    Plain,
    Backslash,
    First,
    Second(u8),
}

/// A part of a line between bytes of one kind, counted from 0; nothing where there are fewer. Fails only if memory runs out.
pub fn part_at<'a>(
    alloc: Global,
    line: &'a [u8],
    at: u8,
    number: usize,
) -> Result<&'a [u8], AllocError>
    ensures { IfOk result (λ part. part.now ≡ part_at at number line.entry.now) }
{
    let parts = pieces(alloc, line, at)?;
    match parts.as_slice().get(number) {
        Some(part) => Ok(*part),
        None => Ok(b""),
    }
}

/// Where something is that a line tells, up to a space or a bracket. Fails only if memory runs out.
fn place_of<'a>(alloc: Global, line: &'a [u8]) -> Result<&'a [u8], AllocError>
    ensures { IfOk result (λ place. place.now ≡ place_of line.entry.now) }
{
    let behind = part_at(alloc, line, b':', 1)?;
    let word = part_at(alloc, behind, b' ', 1)?;
    part_at(alloc, word, b'(', 0)
}

/// What a digit of base 16 counts.
fn digit_of(byte: u8) -> u32
    ensures { result ≡ digit_of byte }
{
    let code = u32::from(byte);
    if code < 58 {
        code.saturating_sub(48)
    } else {
        code.saturating_sub(87)
    }
}

/// Adds the byte of a number in two digits, where a script's word may have it as it is; else as it was spelled.
fn push_value(text: &mut Vec<u8>, value: u32, high: u8, low: u8) -> Result<(), AllocError>
    ensures { OnOk result (text.new.items ≡ text.old.items ++ by_value value high low) }
{
    if value >= 33 && value <= 126 {
        text.push(value as u8)?;
        Ok(())
    } else {
        text.extend_from_slice(&[b'\\', b'x', high, low])
    }
}

/// The same of two digits.
fn push_digits(text: &mut Vec<u8>, high: u8, low: u8) -> Result<(), AllocError>
    ensures { OnOk result (text.new.items ≡ text.old.items ++ by_digits high low) }
{
    push_value(text, digit_of(high) * 16 + digit_of(low), high, low)
}

/// Takes a byte of a spelled place, and answers where the next stands.
fn take_byte(text: &mut Vec<u8>, stand: Stand, byte: u8) -> Result<Stand, AllocError>
    ensures { IfOk result (λ next. (rest : List ℕ) → text.new.items ++ scripted_from next rest ≡ text.old.items ++ scripted_from stand (byte ∷ rest)) }
{
    match stand {
        Stand::Plain if byte == b'\\' => Ok(Stand::Backslash),
        Stand::Plain => {
            text.push(byte)?;
            Ok(Stand::Plain)
        }
        Stand::Backslash if byte == b'x' => Ok(Stand::First),
        Stand::Backslash => {
            text.push(b'\\')?;
            text.push(byte)?;
            Ok(Stand::Plain)
        }
        Stand::First => Ok(Stand::Second(byte)),
        Stand::Second(high) => {
            push_digits(text, high, byte)?;
            Ok(Stand::Plain)
        }
    }
}

/// A place as a script writes it. Fails only if memory runs out.
pub fn scripted(alloc: Global, place: &[u8]) -> Result<Vec<u8>, AllocError>
    ensures { IfOk result (λ word. word.items ≡ scripted place.now) }
{
    let mut text = Vec::new(alloc);
    let mut stand = Stand::Plain;
    for byte in place {
        stand = take_byte(&mut text, stand, *byte)?;
    }
    Ok(text)
}

/// Whether a place is a path.
pub(crate) fn is_path(place: &[u8]) -> bool
    ensures { result ≡ is_path place.now }
{
    !place.is_empty() && place[0] == b'/'
}

/// Where something is that a line tells, as a script writes it. Fails only if memory runs out.
pub(crate) fn word_in(alloc: Global, line: &[u8]) -> Result<Bytes, AllocError>
    ensures { IfOk result (λ word. word ≡ scripted (place_of line.now)) }
{
    let place = place_of(alloc, line)?;
    Ok(Bytes::new(scripted(alloc, place)?))
}

/// The name of the first entry that a line tells is new or gone, as a script writes it. Fails only if memory runs out.
pub(crate) fn child_in(alloc: Global, line: &[u8]) -> Result<Bytes, AllocError>
    ensures { IfOk result (λ name. name ≡ scripted (child_of line.now)) }
{
    let name = child_of(alloc, line)?;
    Ok(Bytes::new(scripted(alloc, name.as_slice())?))
}
