//! What is asked is done.
ghost use Rattle.std.specs.Prelude.{◌≡◌, ◌≢◌, ◌⊎◌, ◌++◌, [], true, Result, Err, IfOk, codes};
ghost use Rattle.hurd_terminal.specs.declared.fault.Fault.{Fault};
ghost use Rattle.hurd_terminal.specs.Faults.{Says, line_of, status_of};
ghost use Rattle.hurd_terminal.specs.Runs.{Adds, Ends, Exits};
ghost use Rattle.hurd_words.specs.Escapes.{escaped};
ghost use Rattle.hurd_program.specs.Requests.{asked, asked_of, sort_of};

use crate::request::{Request, TextSort, Verb};
use hurd_calls::RunningCalls;
use hurd_can::could_text;
use hurd_dialogue::{Telling, transcribe};
use hurd_run::RunningScript;
use hurd_teaching::{draw_text, learn_text, see_text};
use hurd_terminal::{Fault, Input, Output, finish, read_text};
use hurd_words::escapes::push_escaped;
use std::alloc::{AllocError, Global};
use std::io::{Read, Write};

/// Does what is asked of a text of some sort. Faults as of `transcribe`, `learn_text`, `see_text`, `could_text` and `draw_text`.
fn done_of<T: Telling, W: Write>(
    alloc: Global,
    verb: &Verb,
    text: &[u8],
    output: &mut Output<W>,
) -> Result<(), Fault>
    ensures adds { Adds (asked_of T.sort verb.now) text.now (W.contents output.old.writer) (W.contents output.new.writer) result }
    ensures read { result ≢ Err Fault.Read }
    ensures write { result ≡ Err Fault.Write → output.new.failed ≡ true }
{
    match verb {
        Verb::Run => transcribe::<T, W>(alloc, text, output),
        Verb::Learn { who, most } => learn_text::<T, W>(alloc, who.as_str(), *most, text, output),
        Verb::See { who, most } => see_text::<T, W>(alloc, who.as_str(), *most, text, output),
        Verb::Can { who, every, how } => {
            could_text::<T, W>(alloc, who.as_str(), *every, *how, text, output)
        }
        Verb::Draw { who, can } => draw_text::<T, W>(alloc, who, *can, text, output),
    }
}

/// The same, by the sort that is asked.
pub(crate) fn done<W: Write>(
    alloc: Global,
    request: &Request,
    text: &[u8],
    output: &mut Output<W>,
) -> Result<(), Fault>
    ensures adds { Adds (asked request.now) text.now (W.contents output.old.writer) (W.contents output.new.writer) result }
    ensures read { result ≢ Err Fault.Read }
    ensures write { result ≡ Err Fault.Write → output.new.failed ≡ true }
{
    match request.sort {
        TextSort::Script => done_of::<RunningScript, W>(alloc, &request.verb, text, output),
        TextSort::Calls => done_of::<RunningCalls, W>(alloc, &request.verb, text, output),
    }
}

/// What is said after the name of a file whose text is bad. Fails only if memory runs out.
pub(crate) fn complaint(alloc: Global, sort: TextSort, text: &[u8]) -> Result<Vec<u8>, AllocError>
    ensures { IfOk result (λ said. said.items ≡ (sort_of sort).complaint text.now) }
{
    match sort {
        TextSort::Script => RunningScript::complaint(alloc, text),
        TextSort::Calls => RunningCalls::complaint(alloc, text),
    }
}

/// Says of a file why its text is bad, at this line, or that memory was refused for that; returns the exit status.
pub(crate) fn blame<E: Write>(
    alloc: Global,
    sort: TextSort,
    text: &[u8],
    line: u64,
    file: &[u8],
    errors: &mut Output<E>,
) -> u8
    ensures { (ended : Result (Unit {0}) Fault) × ((ended ≡ Err (Fault.Bad line)) ⊎ (ended ≡ Err Fault.Memory))
        × Says E.contents errors.old errors.new (line_of file.now ((sort_of sort).complaint text.now) [] ended) × (result ≡ status_of ended) }
{
    match complaint(alloc, sort, text) {
        Ok(said) => finish(Err(Fault::Bad { line }), file, said.as_slice(), b"", errors),
        Err(_) => finish(Err(Fault::Memory), file, b"", b"", errors),
    }
}

/// What is said in front of somebody who isn't in a text.
pub(crate) fn stranger(sort: TextSort) -> &'static [u8]
    ensures { result.now ≡ (sort_of sort).stranger }
{
    match sort {
        TextSort::Script => RunningScript::stranger(),
        TextSort::Calls => RunningCalls::stranger(),
    }
}

/// What is said after the name of a file where somebody is named who isn't in it. Fails only if memory runs out.
pub(crate) fn named_line(alloc: Global, stranger: &[u8], who: &str) -> Result<Vec<u8>, AllocError>
    ensures { IfOk result (λ line. line.items ≡ stranger.now ++ (escaped who.now ++ codes "\n")) }
{
    let mut line = Vec::from_slice(alloc, stranger)?;
    push_escaped(&mut line, who.as_bytes())?;
    line.push(b'\n')?;
    Ok(line)
}

/// The same of what is asked; nothing where nobody is named. Fails only if memory runs out.
pub(crate) fn stranger_line(alloc: Global, request: &Request) -> Result<Vec<u8>, AllocError>
    ensures { IfOk result (λ line. line.items ≡ (asked request.now).stranger) }
{
    match &request.verb {
        Verb::Run => Ok(Vec::new(alloc)),
        Verb::Learn { who, .. } | Verb::See { who, .. } | Verb::Can { who, .. } => {
            named_line(alloc, stranger(request.sort), who.as_str())
        }
        Verb::Draw { who: Some(who), .. } => named_line(
            alloc,
            stranger(request.sort),
            who.as_str(),
        ),
        Verb::Draw { who: None, .. } => Ok(Vec::new(alloc)),
    }
}

/// Does what is asked of a text, and says of a fault why, by the name of its file; returns the exit status.
fn perform_on<W: Write, E: Write>(
    alloc: Global,
    request: &Request,
    stranger: &[u8],
    file: &[u8],
    text: &[u8],
    output: &mut Output<W>,
    errors: &mut Output<E>,
) -> u8
    requires { stranger.now ≡ (asked request.now).stranger }
    ensures { Ends (asked request.now) file.now text.now W.contents E.contents output.old output.new errors.old errors.new result }
{
    match done(alloc, request, text, output) {
        Err(Fault::Bad { line }) => blame(alloc, request.sort, text, line, file, errors),
        ended => finish(ended, file, b"", stranger, errors),
    }
}

/// The whole program: reads a text, does what is asked of it, and says of a fault why, by the name of its file; returns the exit status.
pub fn perform<R: Read, W: Write, E: Write>(
    alloc: Global,
    request: &Request,
    file: &[u8],
    input: &mut Input<R>,
    output: &mut Output<W>,
    errors: &mut Output<E>,
) -> u8
    ensures { Exits (asked request.now) file.now R.remaining W.contents E.contents input.old input.new output.old output.new errors.old errors.new result }
{
    let Ok(stranger) = stranger_line(alloc, request) else {
        return finish(Err(Fault::Memory), file, b"", b"", errors);
    };
    match read_text(alloc, input) {
        Ok(text) => perform_on(
            alloc,
            request,
            stranger.as_slice(),
            file,
            text.as_slice(),
            output,
            errors,
        ),
        Err(fault) => finish(Err(fault), file, b"", b"", errors),
    }
}
