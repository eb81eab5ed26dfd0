//! Who learns, and of which script.
ghost use Rattle.std.specs.Prelude.{◌≡◌, ◌==◌, ◌++◌, ℕ, IfOk, OnOk, drop, take};
ghost use Rattle.std.specs.List.{slice_split};
ghost use Rattle.hurd_words.specs.Lines.{lines_of};
ghost use Rattle.hurd_witnesses.specs.Trials.{head_of};
ghost use Rattle.hurd_witnesses.specs.Witnesses.{IsHunt, ended, said_of, text_of, text_up_to};

use hurd_creds::Bytes;
use hurd_words::lines::is_skipped;
use hurd_words::users::parts;
use hurd_words::words::pieces;
use std::alloc::{AllocError, Global};

/// Those who learn, and a script.
#[derive(Drop)]
pub struct Hunt {
    /// Their names.
    pub users: Vec<Bytes>,
    /// What is in front of what they learn.
    pub head: Bytes,
    /// The text of the lines of the script that stand before its commands.
    pub front: Bytes,
    /// The lines of its commands.
    pub commands: Vec<Bytes>,
}

/// Adds a line with its newline.
pub(crate) fn push_line(text: &mut Vec<u8>, line: &[u8]) -> Result<(), AllocError>
    ensures { OnOk result (text.new.items ≡ text.old.items ++ ended line.now) }
{
    text.extend_from_slice(line)?;
    text.push(b'\n')?;
    Ok(())
}

/// The lines of a text that say something. Fails only if memory runs out.
fn said_lines(alloc: Global, text: &[u8]) -> Result<Vec<Bytes>, AllocError>
    ensures { IfOk result (λ lines. lines.items ≡ said_of (lines_of text.now)) }
{
    let lines = pieces(alloc, text, b'\n')?;
    let mut said = Vec::new(alloc);
    for line in lines.as_slice() {
        if !is_skipped(line) {
            said.push(Bytes::copied(alloc, line)?)?;
        }
    }
    Ok(said)
}

/// The names in a word between commas. Fails only if memory runs out.
fn names_in(alloc: Global, word: &str) -> Result<Vec<Bytes>, AllocError>
    ensures { IfOk result (λ names. names.items ≡ slice_split (λ (b : ℕ). b == 44) word.now) }
{
    let parts = parts(alloc, word)?;
    let mut names = Vec::new(alloc);
    for part in parts.as_slice() {
        names.push(Bytes::copied(alloc, part.as_bytes())?)?;
    }
    Ok(names)
}

/// What is in front of what so many learn who are called so. Fails only if memory runs out.
fn head_of(alloc: Global, who: &str, users: usize) -> Result<Bytes, AllocError>
    ensures { IfOk result (λ head. head ≡ head_of who.now users) }
{
    let mut head = Vec::from_slice(alloc, b"  ")?;
    head.extend_from_slice(who.as_bytes())?;
    if users > 1 {
        head.extend_from_slice(b" learn")?;
    } else {
        head.extend_from_slice(b" learns")?;
    }
    Ok(Bytes::new(head))
}

/// The first of some lines, as many as there are up to a number.
fn first(lines: &[Bytes], count: usize) -> &[Bytes]
    ensures { result.now ≡ take count lines.now }
{
    match lines.get(..count) {
        Some(first) => first,
        None => lines,
    }
}

/// The text of the first of some lines. Fails only if memory runs out.
pub(crate) fn text_of(alloc: Global, lines: &[Bytes], count: usize) -> Result<Vec<u8>, AllocError>
    ensures { IfOk result (λ text. text.items ≡ text_of (take count lines.now)) }
{
    let mut text = Vec::new(alloc);
    for line in first(lines, count) {
        push_line(&mut text, line.as_slice())?;
    }
    Ok(text)
}

/// Lines that are copied. Fails only if memory runs out.
fn copied(alloc: Global, lines: &[Bytes]) -> Result<Vec<Bytes>, AllocError>
    ensures { IfOk result (λ copies. copies.items ≡ lines.now) }
{
    let mut copies = Vec::new(alloc);
    for line in lines {
        copies.push(Bytes::copied(alloc, line.as_slice())?)?;
    }
    Ok(copies)
}

/// Some lines without the first, as many as there are up to a number. Fails only if memory runs out.
fn behind(alloc: Global, lines: &[Bytes], count: usize) -> Result<Vec<Bytes>, AllocError>
    ensures { IfOk result (λ behind. behind.items ≡ drop count lines.now) }
{
    match lines.get(count..) {
        Some(behind) => copied(alloc, behind),
        None => Ok(Vec::new(alloc)),
    }
}

/// The text of a script up to a command: the first lines that say something, and so many commands after them. Fails only if memory runs out.
pub fn text_up_to(
    alloc: Global,
    script: &[u8],
    first: usize,
    made: usize,
) -> Result<Vec<u8>, AllocError>
    ensures { IfOk result (λ text. text.items ≡ text_up_to script.now first made) }
{
    let lines = said_lines(alloc, script)?;
    let mut text = text_of(alloc, lines.as_slice(), first)?;
    let commands = behind(alloc, lines.as_slice(), first)?;
    let more = text_of(alloc, commands.as_slice(), made)?;
    text.extend_from_slice(more.as_slice())?;
    Ok(text)
}

/// Those that WHO names, and a script in which so many lines that say something stand before its commands. Fails only if memory runs out.
pub(crate) fn hunt_of(
    alloc: Global,
    who: &str,
    script: &[u8],
    first: usize,
) -> Result<Hunt, AllocError>
    ensures { IfOk result (λ hunt. IsHunt who.now script.now first hunt) }
{
    let users = names_in(alloc, who)?;
    let head = head_of(alloc, who, users.len())?;
    let lines = said_lines(alloc, script)?;
    let front = Bytes::new(text_of(alloc, lines.as_slice(), first)?);
    let commands = behind(alloc, lines.as_slice(), first)?;
    Ok(Hunt {
        users,
        head,
        front,
        commands,
    })
}
