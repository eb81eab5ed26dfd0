//! The lines of what is printed.
ghost use Rattle.std.specs.Prelude.{◌≡◌, ◌++◌, ◌+◌, ◌==◌, ◌<◌, ◌^◌, IfOk, OnOk, if◌then◌else◌, length};
ghost use Rattle.hurd_words.specs.Lines.{lines_of};
ghost use Rattle.hurd_witnesses.specs.Witnesses.{ended, how_of, if_learned, witnessed};

use crate::hunt::{Hunt, push_line};
use crate::places::part_at;
use crate::trials::trials_of;
use crate::witness::push_said;
use hurd_dialogue::Telling;
use hurd_words::words::pieces;
use std::alloc::{AllocError, Global};

/// Adds how somebody could be told what a line says that was learned by the command before which so many stand.
fn push_how<T: Telling>(
    alloc: Global,
    text: &mut Vec<u8>,
    hunt: &Hunt,
    made: usize,
    line: &[u8],
) -> Result<(), AllocError>
    ensures { OnOk result (text.new.items ≡ text.old.items ++ how_of T.sort hunt.now made line.now) }
{
    let trials = trials_of(alloc, hunt.users.as_slice(), line)?;
    push_said::<T>(alloc, text, hunt, made, trials.as_slice())
}

/// The same of any line: nothing where it tells no such thing.
fn push_if_learned<T: Telling>(
    alloc: Global,
    text: &mut Vec<u8>,
    hunt: &Hunt,
    made: usize,
    line: &[u8],
) -> Result<(), AllocError>
    ensures { OnOk result (text.new.items ≡ text.old.items ++ if_learned T.sort hunt.now made line.now) }
{
    let head = part_at(alloc, line, b':', 0)?;
    if head == hunt.head.as_slice() {
        push_how::<T>(alloc, text, hunt, made, line)?;
    }
    Ok(())
}

/// Adds a line, with what is said of it.
fn push_told<T: Telling>(
    alloc: Global,
    text: &mut Vec<u8>,
    hunt: &Hunt,
    made: usize,
    line: &[u8],
) -> Result<(), AllocError>
    ensures { OnOk result (text.new.items ≡ text.old.items ++ (ended line.now ++ if_learned T.sort hunt.now made line.now)) }
{
    push_line(text, line)?;
    push_if_learned::<T>(alloc, text, hunt, made, line)
}

/// How many commands stand before that of which the next line tells: an empty line ends what is told of one.
fn made_behind(made: usize, line: &[u8]) -> usize
    requires { made < 2 ^ 63 }
    ensures { result ≡ (if length line.now == 0 then made + 1 else made) }
{
    if line.is_empty() { made + 1 } else { made }
}

/// What is printed, each line of what is learned with how somebody could be told it. Fails only if memory runs out.
pub(crate) fn witnessed<T: Telling>(
    alloc: Global,
    hunt: &Hunt,
    learned: &[u8],
) -> Result<Vec<u8>, AllocError>
    ensures { IfOk result (λ text. text.items ≡ witnessed T.sort hunt.now 0 (lines_of learned.now)) }
{
    let lines = pieces(alloc, learned, b'\n')?;
    let mut text = Vec::new(alloc);
    let mut made = 0usize;
    for line in lines.as_slice() {
        push_told::<T>(alloc, &mut text, hunt, made, line)?;
        made = made_behind(made, line);
    }
    Ok(text)
}
