//! Where a text asks what is seen, and where lessons begin.
ghost use Rattle.std.specs.Prelude.{◌≡◌, IfOk, drop};
ghost use Rattle.hurd_words.specs.Lines.{lines_of};
ghost use Rattle.hurd_teaching.specs.Looks.{asks_of, is_look, is_start, said_before, starts_of};

use hurd_words::lines::is_skipped;
use hurd_words::words::pieces;
use std::alloc::{AllocError, Global};

/// The line that asks.
const LOOK: &[u8] = b"# see";

/// The line from which on lessons are told.
const START: &[u8] = b"# from here";

/// Whether a line asks what is seen.
fn is_look(line: &[u8]) -> bool
    ensures { result ≡ is_look line.now }
{
    line == LOOK
}

/// Where a text asks, by its lines that say something. Fails only if memory runs out.
fn asks(alloc: Global, text: &[u8]) -> Result<Vec<bool>, AllocError>
    ensures { IfOk result (λ asks. asks.items ≡ asks_of (lines_of text.now)) }
{
    let lines = pieces(alloc, text, b'\n')?;
    let mut asks = Vec::new(alloc);
    asks.push(false)?;
    let mut asked = false;
    for line in lines.as_slice() {
        if is_look(line) {
            asked = true;
        } else if !is_skipped(line) {
            asks.push(asked)?;
            asked = false;
        }
    }
    asks.push(asked)?;
    Ok(asks)
}

/// Where a text asks what is seen, without the first so many places. Fails only if memory runs out.
pub(crate) fn asked_looks(alloc: Global, text: &[u8], first: usize) -> Result<Vec<bool>, AllocError>
    ensures { IfOk result (λ looks. looks.items ≡ drop first (asks_of (lines_of text.now))) }
{
    let asks = asks(alloc, text)?;
    match asks.as_slice().get(first..) {
        Some(looks) => Vec::from_slice(alloc, looks),
        None => Ok(Vec::new(alloc)),
    }
}

/// Whether lessons are told from a line on.
fn is_start(line: &[u8]) -> bool
    ensures { result ≡ is_start line.now }
{
    line == START
}

/// How many lines that say something stand before the first from which on lessons are told, if there is one. Fails only if memory runs out.
fn said_before(alloc: Global, text: &[u8]) -> Result<Option<usize>, AllocError>
    ensures { IfOk result (λ said. said ≡ said_before (lines_of text.now)) }
{
    let lines = pieces(alloc, text, b'\n')?;
    let mut said = 0usize;
    for line in lines.as_slice() {
        if is_start(line) {
            return Ok(Some(said));
        }
        if !is_skipped(line) {
            said += 1;
        }
    }
    Ok(None)
}

/// How many things are done before lessons begin, where the first so many places of a text are after none of them. Fails only if memory runs out.
pub(crate) fn lessons_begin(alloc: Global, text: &[u8], first: usize) -> Result<usize, AllocError>
    ensures { IfOk result (λ from. from ≡ starts_of first (lines_of text.now)) }
{
    match said_before(alloc, text)? {
        Some(said) => Ok(said.saturating_sub(first.saturating_sub(1))),
        None => Ok(0),
    }
}
