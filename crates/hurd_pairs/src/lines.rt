//! At which line of a text a part of it stands.
ghost use Rattle.std.specs.Prelude.{◌≡◌, IfOk};
ghost use Rattle.hurd_words.specs.Lines.{lines_of};
ghost use Rattle.hurd_shell.specs.Scripts.{scripts};
ghost use Rattle.hurd_pairs.specs.Lines.{line_before, numbers_from};
ghost use Rattle.hurd_pairs.specs.Reports.{lines_in};

use hurd_script::parse_script;
use hurd_words::lines::is_skipped;
use hurd_words::words::pieces;
use std::alloc::{AllocError, Global};

/// The numbers of the lines that say something, counted from 1. Fails only if memory runs out.
fn said_lines(alloc: Global, text: &[u8]) -> Result<Vec<usize>, AllocError>
    ensures { IfOk result (λ numbers. numbers.items ≡ numbers_from 1 (lines_of text.now)) }
{
    let lines = pieces(alloc, text, b'\n')?;
    let mut numbers = Vec::new(alloc);
    for (index, line) in lines.as_slice().iter().enumerate() {
        if !is_skipped(line) {
            numbers.push(index + 1)?;
        }
    }
    Ok(numbers)
}

/// The line, counted from 1, of the part before which so many stand in a text whose parts are preceded by so many lines that say something, and one; none
/// where there are fewer parts. Fails only if memory runs out.
pub(crate) fn line_before(
    alloc: Global,
    heading: usize,
    text: &[u8],
    made: usize,
) -> Result<Option<usize>, AllocError>
    ensures { IfOk result (λ line. line ≡ line_before heading text.now made) }
{
    let numbers = said_lines(alloc, text)?;
    let Some(parts) = numbers.as_slice().get(heading.saturating_sub(1)..) else {
        return Ok(None);
    };
    match parts.get(made) {
        Some(line) => Ok(Some(*line)),
        None => Ok(None),
    }
}

/// The line of the command before which so many stand in a good script; none where there are fewer. Fails if memory runs out, or if the script is bad.
pub fn line_in_script(alloc: Global, text: &[u8], made: usize) -> Result<Option<usize>, AllocError>
    ensures { IfOk result (λ line. line ≡ lines_in scripts text.now made) }
{
    match parse_script(alloc, text) {
        Ok(script) => line_before(alloc, script.names.len(), text, made),
        Err(_) => Err(AllocError),
    }
}
