//! For tests: makes a list of calls, as `hurd run --calls -` does, with boxes that count what becomes of them.
//!
//! `hurd_trials counts < list` prints what that prints, and after each call a line for each box of which something became: how often in all it was told that it is
//! sent away, and how often it was dropped. Boxes are numbered as they come; number 0 is the boot server's. In the end the world is dropped.
//! `hurd_trials counts at-once < list` makes all calls by one `World::run`, and says after the last what became of boxes.
//! `hurd_trials counts chain N` reads nothing: it makes a chain of N servers, each on a file of the one before, of 1 to 100,000, and says how many go in the one
//! call by which the first loses its seat.
//! `hurd_trials counts script < script` makes the commands of a script so, by a session; with `script-over-a-file` the session is refused.
//! `hurd_trials counts last-port` reads nothing: it gives a task the last ports that have numbers, and asks for more. Statuses and lines on standard error are those of `hurd`; other words have status 2.

mod at_once;
mod boxes;
mod chain;
mod counted;
mod last_port;
mod run;
mod script;

use chain::chain;
use hurd_terminal::{Input, Output, finish};
use last_port::last_port;
use run::{Manner, program};
use script::{Under, script};
use std::io::{self, Write};
use std::process::ExitCode;

/// What is said of other words.
const OTHER_WORDS: &[u8] =
    b"hurd_trials counts: its only words are at-once, last-port, script, script-over-a-file, or chain and a number of servers, from 1 to 100,000\n";

/// The most servers of a chain.
const MOST_SERVERS: u64 = 100_000;

/// What is asked for.
enum Asked {
    /// The calls of a list.
    List(Manner),
    /// The commands of a script.
    Script(Under),
    /// A chain of so many servers.
    Chain(u64),
    /// The last ports.
    LastPort,
}

/// What the words after `counts` ask for, if they are right.
fn asked_by(words: &[String]) -> Option<Asked> {
    match words {
        [] => Some(Asked::List(Manner::InTurn)),
        [word] if word.as_str() == "at-once" => Some(Asked::List(Manner::AtOnce)),
        [word] if word.as_str() == "last-port" => Some(Asked::LastPort),
        [word] if word.as_str() == "script" => Some(Asked::Script(Under::Tree)),
        [word] if word.as_str() == "script-over-a-file" => Some(Asked::Script(Under::File)),
        [word, number] if word.as_str() == "chain" => Some(Asked::Chain(servers(number)?)),
        _ => None,
    }
}

/// The number of servers that digits name, if there may be so many.
fn servers(text: &str) -> Option<u64> {
    if !text.bytes().all(|byte| byte.is_ascii_digit()) {
        return None;
    }
    let number = text.parse::<u64>().ok()?;
    if number == 0 || number > MOST_SERVERS {
        return None;
    }
    Some(number)
}

/// Does what is asked for; returns the exit status.
fn make<E: Write>(rt: &HostRuntime, asked: Asked, errors: &mut Output<E>) -> u8 {
    let mut output = Output::new(io::writer(rt));
    match asked {
        Asked::List(manner) => {
            let mut input = Input::new(rt.reader());
            program(rt.alloc(), manner, &mut input, &mut output, errors)
        }
        Asked::Script(under) => {
            let mut input = Input::new(rt.reader());
            script(rt.alloc(), under, &mut input, &mut output, errors)
        }
        Asked::Chain(servers) => finish(
            chain(rt.alloc(), servers, &mut output),
            b"the chain",
            b"",
            b"",
            errors,
        ),
        Asked::LastPort => finish(
            last_port(rt.alloc(), &mut output),
            b"the last port",
            b"",
            b"",
            errors,
        ),
    }
}

/// Does what the words after `counts` ask for, and says on standard error what went wrong.
pub fn start(rt: &HostRuntime, words: &[String]) -> ExitCode {
    let mut errors = Output::new(rt.stderr());
    let Some(asked) = asked_by(words) else {
        let _ = errors.print(OTHER_WORDS);
        return ExitCode::from(2);
    };
    ExitCode::from(make(rt, asked, &mut errors))
}
