//! The tasks of a list.
ghost use Rattle.std.specs.Prelude.{◌≡◌, ◌++◌, ◌∷◌, List, ℕ, Some, true, IfOk, OnOk, codes};
ghost use Rattle.hurd_words.specs.Reading.{said};
ghost use Rattle.hurd_words.specs.Users.{begins_with};
ghost use Rattle.hurd_vectors.specs.Lines.{header_of, ids_of, ids_text, tasks_text};

use crate::json::push_numbers;
use crate::telling::{line_words, word_at};
use hurd_creds::Bytes;
use hurd_words::lines::is_skipped;
use hurd_words::words::pieces;
use std::alloc::{AllocError, Global};

/// Whether the first word is `task`.
fn is_task(words: &[Bytes]) -> bool
    ensures { result ≡ begins_with (codes "task") words.now }
{
    match words.first() {
        Some(word) => word.is(b"task"),
        None => false,
    }
}

/// Prints the ids of a task, by the words of its line, after a comma but where it is the first.
fn push_ids(
    alloc: Global,
    text: &mut Vec<u8>,
    first: bool,
    words: &[Bytes],
) -> Result<(), AllocError>
    ensures { OnOk result (text.new.items ≡ text.old.items ++ ids_text first (Some (ids_of words.now))) }
{
    if !first {
        text.extend_from_slice(b", ")?;
    }
    text.extend_from_slice(b"{\"uids\": ")?;
    push_numbers(alloc, text, word_at(words, 1))?;
    text.extend_from_slice(b", \"gids\": ")?;
    push_numbers(alloc, text, word_at(words, 2))?;
    text.push(b'}')?;
    Ok(())
}

/// Prints the ids of a line's task, if it is one's, and answers whether none was printed yet.
fn push_task(
    alloc: Global,
    text: &mut Vec<u8>,
    first: bool,
    line: &[u8],
) -> Result<bool, AllocError>
    ensures { IfOk result (λ none. (lines : List (List ℕ)) → text.new.items ++ tasks_text none lines ≡ text.old.items ++ tasks_text first (line.now ∷ lines)) }
{
    if is_skipped(line) {
        return Ok(first);
    }
    let words = line_words(alloc, line)?;
    if !is_task(words.as_slice()) {
        return Ok(first);
    }
    push_ids(alloc, text, first, words.as_slice())?;
    Ok(false)
}

/// Prints the ids of all tasks that lines say.
fn push_tasks(alloc: Global, text: &mut Vec<u8>, lines: &[&[u8]]) -> Result<(), AllocError>
    ensures { OnOk result (text.new.items ≡ text.old.items ++ tasks_text true (said lines.now)) }
{
    let mut first = true;
    for line in lines {
        first = push_task(alloc, text, first, line)?;
    }
    Ok(())
}

/// The tasks of a list, on a line. Fails only if memory runs out.
pub(crate) fn header_of(alloc: Global, list: &[u8]) -> Result<Vec<u8>, AllocError>
    ensures { IfOk result (λ line. line.items ≡ header_of list.now) }
{
    let lines = pieces(alloc, list, b'\n')?;
    let mut header = Vec::from_slice(alloc, b"{\"tasks\": [")?;
    push_tasks(alloc, &mut header, lines.as_slice())?;
    header.extend_from_slice(b"]}\n")?;
    Ok(header)
}
