//! What is said of a bad line.
ghost use Rattle.std.specs.Prelude.{◌≡◌, ◌++◌, IfOk, OnOk, take};
ghost use Rattle.hurd_dialogue.specs.Complaints.{complaint_at, complaint_on, line_at, shown, shown_byte, shown_line};

use hurd_words::escapes::push_escaped;
use hurd_words::printing::push_if;
use hurd_words::words::pieces;
use itoa::Buffer;
use std::alloc::{AllocError, Global};

/// How many bytes of a line are shown.
const MOST_SHOWN: usize = 200;

/// A line of a text, by its number, counted from 1; nothing where there is none. Fails only if memory runs out.
fn line_at<'a>(alloc: Global, text: &'a [u8], number: u64) -> Result<&'a [u8], AllocError>
    ensures { IfOk result (λ line. line.now ≡ line_at text.entry.now number) }
{
    let lines = pieces(alloc, text, b'\n')?;
    match lines.as_slice().get(number.saturating_sub(1) as usize) {
        Some(line) => Ok(*line),
        None => Ok(b""),
    }
}

/// Prints a byte of a line: a space as it is, another with the escapes of lists.
fn push_shown_byte(text: &mut Vec<u8>, byte: u8) -> Result<(), AllocError>
    ensures { OnOk result (text.new.items ≡ text.old.items ++ shown_byte byte) }
{
    if byte == b' ' {
        text.push(byte)?;
        return Ok(());
    }
    push_escaped(text, &[byte])
}

/// Prints the bytes of a line.
fn push_shown(text: &mut Vec<u8>, bytes: &[u8]) -> Result<(), AllocError>
    ensures { OnOk result (text.new.items ≡ text.old.items ++ shown bytes.now) }
{
    for byte in bytes {
        push_shown_byte(text, *byte)?;
    }
    Ok(())
}

/// The first bytes of a line, as many as are shown.
fn front(line: &[u8]) -> &[u8]
    ensures { result.now ≡ take 200 line.now }
{
    if line.len() <= MOST_SHOWN {
        return line;
    }
    let (front, _) = line.split_at(MOST_SHOWN);
    front
}

/// Prints a line, or a text as one line: its first 200 bytes, and dots where there are more. A space stays as it is, and another byte has the escapes of
/// lists. Fails only if memory runs out.
pub fn push_shown_line(text: &mut Vec<u8>, line: &[u8]) -> Result<(), AllocError>
    ensures { OnOk result (text.new.items ≡ text.old.items ++ shown_line line.now) }
{
    push_shown(text, front(line))?;
    push_if(text, line.len() > MOST_SHOWN, " ..")
}

/// What is said after a file's name of a bad line with this number: the number, what the text is, as `: bad script: `, the reason, and below that the line.
/// Fails only if memory runs out.
pub fn complaint_on(
    alloc: Global,
    noun: &str,
    line: &[u8],
    number: u64,
    reason: &str,
) -> Result<Vec<u8>, AllocError>
    ensures { IfOk result (λ c. c.items ≡ complaint_on noun.now line.now number reason.now) }
{
    let mut said = Vec::from_slice(alloc, b":")?;
    said.extend_from_slice(Buffer::new().format(number).as_bytes())?;
    said.extend_from_slice(noun.as_bytes())?;
    said.extend_from_slice(reason.as_bytes())?;
    said.extend_from_slice(b"\n  ")?;
    push_shown_line(&mut said, line)?;
    said.push(b'\n')?;
    Ok(said)
}

/// The same of a text that is bad at a line for this reason; at line 0 the reason alone. Fails only if memory runs out.
pub fn complaint(
    alloc: Global,
    noun: &str,
    text: &[u8],
    line: u64,
    reason: &str,
) -> Result<Vec<u8>, AllocError>
    ensures { IfOk result (λ c. c.items ≡ complaint_at noun.now text.now line reason.now) }
{
    if line == 0 {
        let mut said = Vec::from_slice(alloc, b": ")?;
        said.extend_from_slice(reason.as_bytes())?;
        said.push(b'\n')?;
        return Ok(said);
    }
    complaint_on(alloc, noun, line_at(alloc, text, line)?, line, reason)
}
