//! A script is printed with what some learn, and how they could be told it.
ghost use Rattle.std.specs.Prelude.{◌≡◌};
ghost use Rattle.hurd_shell.specs.Scripts.{scripts};
ghost use Rattle.hurd_terminal.specs.Runs.{Ends, Exits};
ghost use Rattle.hurd_witnesses.specs.Finding.{finding};
ghost use Rattle.hurd_program.specs.Requests.{bad_line};

use crate::performing::{blame, named_line, stranger};
use crate::request::TextSort;
use hurd_run::RunningScript;
use hurd_terminal::{Fault, Input, Output, finish, read_text};
use hurd_witnesses::find_text;
use std::alloc::Global;
use std::io::{Read, Write};

/// The line at which a text is bad, where a run of it ended so.
fn bad_line(ended: Result<(), Fault>) -> Option<u64>
    ensures { result ≡ bad_line ended }
{
    match ended {
        Err(Fault::Bad { line }) => Some(line),
        Err(Fault::Read | Fault::Write | Fault::Unknown | Fault::Boot(_) | Fault::Memory) => None,
        Ok(()) => None,
    }
}

/// Prints what those that WHO names learn of a script, with how they could be told it, and says of a fault why, by the name of its file; returns the exit
/// status.
fn find_read<W: Write, E: Write>(
    alloc: Global,
    who: &str,
    stranger: &[u8],
    file: &[u8],
    text: &[u8],
    output: &mut Output<W>,
    errors: &mut Output<E>,
) -> u8
    requires { stranger.now ≡ (finding scripts who.now).stranger }
    ensures { Ends (finding scripts who.now) file.now text.now W.contents E.contents output.old output.new errors.old errors.new result }
{
    let ended = find_text::<RunningScript, W>(alloc, who, text, output);
    match bad_line(ended) {
        Some(line) => blame(alloc, TextSort::Script, text, line, file, errors),
        None => finish(ended, file, b"", stranger, errors),
    }
}

/// The whole program for witnesses: reads a script, prints what those learn by it, and after each line of that a command of theirs that is
/// answered otherwise; and says of a fault why, by the name of its file; returns the exit status.
pub fn perform_witnesses<R: Read, W: Write, E: Write>(
    alloc: Global,
    who: &str,
    file: &[u8],
    input: &mut Input<R>,
    output: &mut Output<W>,
    errors: &mut Output<E>,
) -> u8
    ensures { Exits (finding scripts who.now) file.now R.remaining W.contents E.contents input.old input.new output.old output.new errors.old errors.new result }
{
    let Ok(stranger) = named_line(alloc, stranger(TextSort::Script), who) else {
        return finish(Err(Fault::Memory), file, b"", b"", errors);
    };
    match read_text(alloc, input) {
        Ok(text) => find_read(
            alloc,
            who,
            stranger.as_slice(),
            file,
            text.as_slice(),
            output,
            errors,
        ),
        Err(fault) => finish(Err(fault), file, b"", b"", errors),
    }
}
