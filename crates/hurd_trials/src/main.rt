//! Trials of the library: an example to copy, what becomes of boxes, and how long a user's work takes.
//!
//! `hurd_trials example` is a first program over the tree.
//! `hurd_trials counts [at-once|last-port|script|script-over-a-file|chain N]` is for tests: it makes the calls of a list with boxes that count.
//! `hurd_trials bench [NODES [hello|firmlink]]` measures the work of a user on files.
//! Each is a module that says more. Other words have status 2, with the usage on standard error.
#![tactic(auto)]

mod bench;
mod counts;
mod example;

use hurd_terminal::Output;
use std::process::ExitCode;
use std::{env, io};

/// What is said where there is no memory, as `hurd` says it.
const NO_MEMORY: &[u8] = b"hurd: out of memory\n";

/// What is said of other words.
const USAGE: &[u8] =
    b"usage: hurd_trials example | counts [at-once|last-port|script|script-over-a-file|chain N] | bench [NODES [hello|firmlink]]\n";

/// What is said where the example can't print.
const NO_OUTPUT: &[u8] = b"hurd: cannot write\n";

/// Says this on standard error; the status is 2.
fn complain(rt: &HostRuntime, said: &[u8]) -> ExitCode {
    let _ = Output::new(rt.stderr()).print(said);
    ExitCode::from(2)
}

/// The words, with the program's name before them; else what is said.
fn read_words(rt: &HostRuntime) -> Result<Vec<String>, &'static [u8]> {
    let arguments = match env::args(rt) {
        Ok(arguments) => arguments,
        Err(error) if error.kind() == io::ErrorKind::OutOfMemory => return Err(NO_MEMORY),
        Err(_) => return Err(USAGE),
    };
    match arguments.collect::<Vec<String>>(rt.alloc()) {
        Ok(words) => Ok(words),
        Err(_) => Err(NO_MEMORY),
    }
}

/// Does what the words ask for.
fn obey(rt: &HostRuntime, words: &[String]) -> ExitCode {
    match words {
        [_, word] if word.as_str() == "example" => match example::start(rt) {
            Ok(()) => ExitCode::SUCCESS,
            Err(_) => complain(rt, NO_OUTPUT),
        },
        [_, word, rest @ ..] if word.as_str() == "counts" => counts::start(rt, rest),
        [_, word, rest @ ..] if word.as_str() == "bench" => bench::start(rt, rest),
        _ => complain(rt, USAGE),
    }
}

fn main(rt: HostRuntime) -> ExitCode {
    match read_words(&rt) {
        Ok(words) => obey(&rt, words.as_slice()),
        Err(said) => complain(&rt, said),
    }
}
