//! How an answer is shown on one line.
ghost use Rattle.std.specs.Prelude.{◌≡◌, ◌++◌, ◌∷◌, [], IfOk, OnOk, List, length, map, take};
ghost use Rattle.hurd_witnesses.specs.Answers.{first_difference, mark_in, marks_of, marks_of_names, same_at, same_mark, shown_answer, shown_both, shown_ending, shown_front, shown_gap, shown_mark, shown_marks, shown_nothing};
ghost use Rattle.hurd_words.specs.Escapes.{escaped_byte};
ghost use Rattle.hurd_witnesses.specs.declared.shown.Mark.TheVariants.{Byte};

use hurd_creds::Bytes;
use hurd_words::answers::{Answer, Content, Ending};
use hurd_words::escapes::push_escaped;
use hurd_words::printing::push_if;
use std::alloc::{AllocError, Global};

/// How many bytes of an answer are shown.
const MOST_SHOWN: usize = 200;

/// A byte that was put out.
#[derive(Clone, Copy, Debug)]
pub(crate) enum Mark {
    Byte(u8),
    /// A newline within a name.
    Within,
}

/// A byte of a name.
fn mark_in(byte: u8) -> Mark
    ensures { result ≡ mark_in byte }
{
    if byte == b'\n' {
        Mark::Within
    } else {
        Mark::Byte(byte)
    }
}

/// Whether two are the same.
fn same_mark(one: Mark, other: Mark) -> bool
    ensures { result ≡ same_mark one other }
{
    match (one, other) {
        (Mark::Byte(one), Mark::Byte(other)) => one == other,
        (Mark::Within, Mark::Within) => true,
        _ => false,
    }
}

/// Adds the bytes of a text.
fn add_text(marks: &mut Vec<Mark>, bytes: &[u8]) -> Result<(), AllocError>
    ensures { OnOk result (marks.new.items ≡ marks.old.items ++ map Byte bytes.now) }
{
    for byte in bytes {
        marks.push(Mark::Byte(*byte))?;
    }
    Ok(())
}

/// Adds the bytes of a name.
fn add_name(marks: &mut Vec<Mark>, name: &[u8]) -> Result<(), AllocError>
    ensures { OnOk result (marks.new.items ≡ marks.old.items ++ map mark_in name.now) }
{
    for byte in name {
        marks.push(mark_in(*byte))?;
    }
    Ok(())
}

/// Adds the bytes of names, each with the newline after it.
fn add_names(marks: &mut Vec<Mark>, names: &[Bytes]) -> Result<(), AllocError>
    ensures { OnOk result (marks.new.items ≡ marks.old.items ++ marks_of_names names.now) }
{
    for name in names {
        add_name(marks, name.as_slice())?;
        marks.push(Mark::Byte(b'\n'))?;
    }
    Ok(())
}

/// What was put out, byte by byte. Fails only if memory runs out.
pub(crate) fn marks_of(alloc: Global, content: &Content) -> Result<Vec<Mark>, AllocError>
    ensures { IfOk result (λ marks. marks.items ≡ marks_of content.now) }
{
    let mut marks = Vec::new(alloc);
    match content {
        Content::Text(bytes) => add_text(&mut marks, bytes.as_slice())?,
        Content::Names(names) => add_names(&mut marks, names.as_slice())?,
    }
    Ok(marks)
}

/// Adds a byte with the escapes of lists.
fn push_by_escape(text: &mut Vec<u8>, byte: u8) -> Result<(), AllocError>
    ensures { OnOk result (text.new.items ≡ text.old.items ++ escaped_byte byte) }
{
    push_escaped(text, &[byte])
}

/// Adds a byte as it is shown: a space as it is, and the signs by which the program says what it adds by escapes.
fn push_byte(text: &mut Vec<u8>, byte: u8) -> Result<(), AllocError>
    ensures { OnOk result (text.new.items ≡ text.old.items ++ shown_mark (Byte byte)) }
{
    match byte {
        b'(' => text.extend_from_slice(b"\\x28"),
        b'!' => text.extend_from_slice(b"\\x21"),
        b' ' => text.extend_from_slice(b" "),
        _ => push_by_escape(text, byte),
    }
}

/// The same of a newline within a name.
fn push_mark(text: &mut Vec<u8>, mark: Mark) -> Result<(), AllocError>
    ensures { OnOk result (text.new.items ≡ text.old.items ++ shown_mark mark) }
{
    match mark {
        Mark::Byte(byte) => push_byte(text, byte),
        Mark::Within => text.extend_from_slice(b"\\x0a"),
    }
}

/// Adds bytes as they are shown.
fn push_marks(text: &mut Vec<u8>, marks: &[Mark]) -> Result<(), AllocError>
    ensures { OnOk result (text.new.items ≡ text.old.items ++ shown_marks marks.now) }
{
    for mark in marks {
        push_mark(text, *mark)?;
    }
    Ok(())
}

/// The first of some bytes, as many as are shown.
fn front(marks: &[Mark]) -> &[Mark]
    ensures { result.now ≡ take 200 marks.now }
{
    if marks.len() <= MOST_SHOWN {
        return marks;
    }
    let (front, _) = marks.split_at(MOST_SHOWN);
    front
}

/// Adds the first 200 bytes, and dots if there are more.
fn push_front(text: &mut Vec<u8>, marks: &[Mark]) -> Result<(), AllocError>
    ensures { OnOk result (text.new.items ≡ text.old.items ++ shown_front marks.now) }
{
    push_marks(text, front(marks))?;
    push_if(text, marks.len() > MOST_SHOWN, " ..")
}

/// What separates what was put out from what ended a command.
fn gap(marks: &[Mark], ending: Ending) -> &'static [u8]
    ensures { result.now ≡ shown_gap marks.now ending }
{
    match ending {
        Ending::Done => b"",
        Ending::Refused(_) | Ending::Usage => { if marks.is_empty() { b"" } else { b" " } }
    }
}

/// What stands for an answer in which there is nothing to show.
fn nothing(marks: &[Mark], ending: Ending) -> &'static [u8]
    ensures { result.now ≡ shown_nothing marks.now ending }
{
    match ending {
        Ending::Done => { if marks.is_empty() { b"(nothing)" } else { b"" } }
        Ending::Refused(_) | Ending::Usage => b"",
    }
}

/// Adds what ended a command.
fn push_ending(text: &mut Vec<u8>, ending: Ending) -> Result<(), AllocError>
    ensures { OnOk result (text.new.items ≡ text.old.items ++ shown_ending ending) }
{
    match ending {
        Ending::Done => Ok(()),
        Ending::Refused(errno) => {
            text.extend_from_slice(b"! ")?;
            text.extend_from_slice(errno.name().as_bytes())
        }
        Ending::Usage => text.extend_from_slice(b"! usage"),
    }
}

/// Adds the gap, and what ended a command.
fn push_end(text: &mut Vec<u8>, marks: &[Mark], ending: Ending) -> Result<(), AllocError>
    ensures { OnOk result (text.new.items ≡ text.old.items ++ (shown_gap marks.now ending ++ shown_ending ending)) }
{
    text.extend_from_slice(gap(marks, ending))?;
    push_ending(text, ending)
}

/// Adds what was put out, and what ended the command.
fn push_body(text: &mut Vec<u8>, marks: &[Mark], ending: Ending) -> Result<(), AllocError>
    ensures { OnOk result (text.new.items ≡ text.old.items ++ (shown_front marks.now ++ (shown_gap marks.now ending ++ shown_ending ending))) }
{
    push_front(text, marks)?;
    push_end(text, marks, ending)
}

/// Adds the same, or that there is nothing.
fn push_both(text: &mut Vec<u8>, marks: &[Mark], ending: Ending) -> Result<(), AllocError>
    ensures { OnOk result (text.new.items ≡ text.old.items ++ shown_both marks.now ending) }
{
    text.extend_from_slice(nothing(marks, ending))?;
    push_body(text, marks, ending)
}

/// An answer on one line, without the command itself. Fails only if memory runs out.
#[tactic(auto, unfolding(crate::specs::Answers::shown_answer))]
pub(crate) fn shown_answer(alloc: Global, answer: &Answer) -> Result<Vec<u8>, AllocError>
    ensures { IfOk result (λ text. text.items ≡ shown_answer answer.now) }
{
    let marks = marks_of(alloc, &answer.content)?;
    let mut text = Vec::new(alloc);
    push_both(&mut text, marks.as_slice(), answer.ending)?;
    Ok(text)
}

/// Whether both have the same byte at a place.
fn same_at(one: &[Mark], other: &[Mark], at: usize) -> bool
    ensures { result ≡ same_at one.now other.now at }
{
    match (one.get(at), other.get(at)) {
        (Some(one), Some(other)) => same_mark(*one, *other),
        _ => false,
    }
}

/// The place, counted from 1, of the first byte that differs.
pub(crate) fn first_difference(one: &[Mark], other: &[Mark]) -> usize
    ensures { result ≡ first_difference one.now other.now }
{
    for at in 0..one.len() {
        if !same_at(one, other, at) {
            return at + 1;
        }
    }
    one.len() + 1
}
