//! How an answer is printed between sentences.
ghost use Rattle.std.specs.Prelude.{◌≡◌, ◌∷◌, ◌++◌, [], true, if◌then◌else◌, codes, OnOk};
ghost use Rattle.hurd_words.specs.Marks.{marked, marked_content, marked_ending, marked_from, marked_names, spread, spread_byte, spread_bytes, unended};

use crate::answers::{Answer, Content, Ending};
use hurd_creds::Bytes;
use std::alloc::AllocError;

/// The mark of a line that was put out.
const MARK: &[u8] = b"| ";

/// The line after a text whose last line has no newline.
const UNENDED: &[u8] = b"\n\\ no newline\n";

/// Adds a byte of a text, with a mark where a line begins.
fn push_marked_byte(text: &mut Vec<u8>, due: bool, byte: u8) -> Result<(), AllocError>
    ensures { OnOk result (text.new.items ≡ text.old.items ++ ((if due then codes "| " else []) ++ byte ∷ [])) }
{
    if due {
        text.extend_from_slice(MARK)?;
    }
    text.push(byte)?;
    Ok(())
}

/// Adds the line after a text whose last line has no newline, unless a line begins there.
fn push_end(text: &mut Vec<u8>, due: bool) -> Result<(), AllocError>
    ensures { OnOk result (text.new.items ≡ text.old.items ++ (if due then [] else unended)) }
{
    if due {
        return Ok(());
    }
    text.extend_from_slice(UNENDED)
}

/// Adds a text with a mark before each line, and says where its last line has no newline.
fn push_text(text: &mut Vec<u8>, bytes: &[u8]) -> Result<(), AllocError>
    ensures { OnOk result (text.new.items ≡ text.old.items ++ marked_from true bytes.now) }
{
    let mut due = true;
    for byte in bytes {
        push_marked_byte(text, due, *byte)?;
        due = *byte == b'\n';
    }
    push_end(text, due)
}

/// Adds a byte of a name; the next line of a name has a mark of its own.
fn push_spread_byte(text: &mut Vec<u8>, byte: u8) -> Result<(), AllocError>
    ensures { OnOk result (text.new.items ≡ text.old.items ++ spread_byte byte) }
{
    if byte == b'\n' {
        return text.extend_from_slice(b"\n: ");
    }
    text.push(byte)?;
    Ok(())
}

/// Adds the bytes of a name.
fn push_spread_bytes(text: &mut Vec<u8>, bytes: &[u8]) -> Result<(), AllocError>
    ensures { OnOk result (text.new.items ≡ text.old.items ++ spread_bytes bytes.now) }
{
    for byte in bytes {
        push_spread_byte(text, *byte)?;
    }
    Ok(())
}

/// Adds a name, and a newline.
fn push_spread(text: &mut Vec<u8>, name: &[u8]) -> Result<(), AllocError>
    ensures { OnOk result (text.new.items ≡ text.old.items ++ spread name.now) }
{
    push_spread_bytes(text, name)?;
    text.push(b'\n')?;
    Ok(())
}

/// Adds names, each with a mark.
fn push_names(text: &mut Vec<u8>, names: &[Bytes]) -> Result<(), AllocError>
    ensures { OnOk result (text.new.items ≡ text.old.items ++ marked_names names.now) }
{
    for name in names {
        text.extend_from_slice(MARK)?;
        push_spread(text, name.as_slice())?;
    }
    Ok(())
}

/// Adds what was put out, with marks.
fn push_content(text: &mut Vec<u8>, content: &Content) -> Result<(), AllocError>
    ensures { OnOk result (text.new.items ≡ text.old.items ++ marked_content content.now) }
{
    match content {
        Content::Text(bytes) => push_text(text, bytes.as_slice()),
        Content::Names(names) => push_names(text, names.as_slice()),
    }
}

/// Adds what ended a command, with its mark.
fn push_ending(text: &mut Vec<u8>, ending: Ending) -> Result<(), AllocError>
    ensures { OnOk result (text.new.items ≡ text.old.items ++ marked_ending ending) }
{
    match ending {
        Ending::Done => Ok(()),
        Ending::Refused(errno) => {
            text.extend_from_slice(b"! ")?;
            text.extend_from_slice(errno.name().as_bytes())?;
            text.push(b'\n')?;
            Ok(())
        }
        Ending::Usage => text.extend_from_slice(b"! usage\n"),
    }
}

/// Adds an answer: its line as it is, then what was put out and what ended it, with marks. Fails only if memory runs out.
pub fn push_marked(text: &mut Vec<u8>, answer: &Answer) -> Result<(), AllocError>
    ensures { OnOk result (text.new.items ≡ text.old.items ++ marked answer.now) }
{
    push_spread(text, answer.line.as_slice())?;
    push_content(text, &answer.content)?;
    push_ending(text, answer.ending)
}
