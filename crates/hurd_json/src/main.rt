//! For tests: whether each line of standard input is an object of JSON, as the kit's reader takes it.
//!
//! It prints how many lines are, up to the first that isn't, which it names by its number; the status is then 1. One that can't be read, or finds no memory, is 2.
#![tactic(auto)]

use serde_json::Value;
use std::alloc::Global;
use std::io;
use std::process::ExitCode;

/// How lines were read.
enum Verdict {
    /// All of so many are objects.
    Objects(u64),
    /// The line of this number is none.
    Other(u64),
}

/// Whether a line is an object. None: no memory was found.
fn is_object(alloc: Global, line: &str) -> Option<bool> {
    match Value::from_str(alloc, line) {
        Ok(value) => Some(value.is_object()),
        Err(error) if error.is_memory() => None,
        Err(_) => Some(false),
    }
}

/// Reads all lines, up to the first that is no object.
fn read_lines(rt: &HostRuntime) -> io::Result<Verdict> {
    let mut count = 0u64;
    for line in rt.lines(rt.alloc()) {
        let line = line?;
        count = count.saturating_add(1);
        match is_object(rt.alloc(), line.as_str()) {
            Some(true) => {}
            Some(false) => return Ok(Verdict::Other(count)),
            None => return Err(io::ErrorKind::OutOfMemory.into()),
        }
    }
    Ok(Verdict::Objects(count))
}

fn main(rt: HostRuntime) -> ExitCode {
    match read_lines(&rt) {
        Ok(Verdict::Objects(count)) => {
            let _ = println!(rt; "{count} objects");
            ExitCode::SUCCESS
        }
        Ok(Verdict::Other(line)) => {
            let _ = println!(rt; "line {line} is no object");
            ExitCode::from(1)
        }
        Err(_) => ExitCode::from(2),
    }
}
