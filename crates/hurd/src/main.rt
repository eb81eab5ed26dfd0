//! Runs scripts of several users' commands and call lists over a file tree in memory, and reports what users learn by them.
//!
//! `hurd --help` says how it is called. The exit status is 0 on success; 1 for a bad text, if somebody is named who isn't in it, or if two scripts cannot be
//! compared; 2 if a read or a write fails, memory runs out, or the command line is wrong; 3 if somebody gets a different reply in the second of two
//! scripts; 4 if there was more output than may be printed.
#![tactic(auto)]

mod command;
mod files;
mod limited;
mod release;
mod shown;
mod words;

use std::process::ExitCode;

fn main(rt: HostRuntime) -> ExitCode {
    let status = match words::read_words(&rt) {
        Ok(words) => files::serve(&rt, &words),
        Err(status) => status,
    };
    ExitCode::from(status)
}
