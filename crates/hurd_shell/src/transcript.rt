//! What a command is answered.
ghost use Rattle.std.specs.Prelude.{◌≡◌, IfOk, Ok, Some};
ghost use Rattle.hurd_shell.specs.Transcript.{answer_to};
ghost use Rattle.hurd_shell.specs.Turns.{turn_of};

use crate::commands::{Printed, refuses};
use crate::fault::Stop;
use crate::stages::{Progress, Waiting};
use hurd_creds::Bytes;
use hurd_script::Command;
use hurd_words::answers::Answer;
use std::alloc::{AllocError, Global};

/// What a session comes to with a command.
#[derive(Debug, Drop)]
pub(crate) enum Turn {
    /// The command is made, and this is its answer.
    Told(Answer),
    /// It waits for a server.
    Waits(Waiting),
}

/// What a command is answered that put this out. Fails only if memory runs out.
fn answered(alloc: Global, command: &Command, printed: Printed) -> Result<Answer, AllocError>
    ensures { IfOk result (λ answer. answer ≡ answer_to command.now (Ok printed)) }
{
    let line = Bytes::copied(alloc, command.header())?;
    Ok(Answer {
        line,
        content: printed.output,
        ending: printed.ending,
    })
}

/// What is told of a command that came to its end, or waits for a server.
pub(crate) fn told(
    alloc: Global,
    command: &Command,
    progress: Result<Progress, Stop>,
) -> Result<Turn, AllocError>
    ensures { IfOk result (λ turn. Some turn ≡ turn_of command.now progress) }
{
    match progress {
        Ok(Progress::Ended(printed)) => Ok(Turn::Told(answered(alloc, command, printed)?)),
        Ok(Progress::Waits(waiting)) => Ok(Turn::Waits(waiting)),
        Err(Stop::Refused(errno)) => {
            let refused = refuses(Vec::new(alloc), errno);
            Ok(Turn::Told(answered(alloc, command, refused)?))
        }
        Err(Stop::Memory) => Err(AllocError),
    }
}
