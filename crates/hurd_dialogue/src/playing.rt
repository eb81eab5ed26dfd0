//! Printing all that a text tells.
ghost use Rattle.std.specs.Prelude.{◌≡◌, ◌≢◌, true, Err, IfErr, OnOk};
ghost use Rattle.std.specs.Io.KnownBytes.{Appends};
ghost use Rattle.hurd_terminal.specs.Faults.{AppendsFront, IsPrintFault};
ghost use Rattle.hurd_terminal.specs.Runs.{Adds};
ghost use Rattle.hurd_dialogue.specs.Parts.{joined, world_behind};
ghost use Rattle.hurd_dialogue.specs.Sorts.{running};

use crate::telling::Telling;
use hurd_terminal::{Fault, Output};
use std::alloc::{AllocError, Global};
use std::io::Write;

/// Prints all that is left to tell.
///
/// `Write` where that can't be written, `Memory`; then a front of it is printed.
pub fn play<T: Telling, W: Write>(
    alloc: Global,
    telling: &mut T,
    output: &mut Output<W>,
) -> Result<(), Fault>
    ensures ok { OnOk result (Appends (W.contents output.old.writer) (W.contents output.new.writer) (joined (T.way telling.old).left)) }
    ensures err { IfErr result (λ fault. IsPrintFault output.new fault
        × AppendsFront (W.contents output.old.writer) (W.contents output.new.writer) (joined (T.way telling.old).left)) }
{
    while let Some(answer) = telling.next(alloc)? {
        let text = answer.plain(alloc)?;
        output.print(text.as_slice())?;
    }
    Ok(())
}

/// Goes on to the end, and prints nothing of what is left to tell. Fails only if memory runs out.
pub fn play_silently<T: Telling>(alloc: Global, telling: &mut T) -> Result<(), AllocError>
    ensures { OnOk result ((T.way telling.new).world ≡ world_behind (T.way telling.old).world (T.way telling.old).left) }
{
    while let Some(_answer) = telling.next(alloc)? {}
    Ok(())
}

/// Begins a text, and prints all that it tells.
///
/// `Bad` with the line at which it is bad, `Boot` with its world's refusal: then nothing is printed. `Write`, `Memory`: then a front is.
pub fn transcribe<T: Telling, W: Write>(
    alloc: Global,
    text: &[u8],
    output: &mut Output<W>,
) -> Result<(), Fault>
    ensures adds { Adds (running T.sort) text.now (W.contents output.old.writer) (W.contents output.new.writer) result }
    ensures read { result ≢ Err Fault.Read }
    ensures write { result ≡ Err Fault.Write → output.new.failed ≡ true }
{
    let mut telling = T::begun(alloc, text)?;
    play(alloc, &mut *telling, output)
}
