//! The files that are asked for.
use crate::limited::{LIMITED, Limited, cut_line};
use crate::shown::shown_file;
use crate::words::{Asked, TROUBLE, Wanted, Words, trouble};
use hurd_program::{
    TextSort, perform, perform_pair, perform_sample, perform_vectors, perform_witnesses,
};
use hurd_record::perform_record;
use hurd_terminal::{Input, Output};
use std::alloc::{AllocError, Global};
use std::fs::File;
use std::io;
use std::io::{ErrorKind, IsTerminal, Read, Write};

/// What standard input is called.
const STANDARD_INPUT: &[u8] = b"standard input";

/// The name of a file as it is printed, so that it is never a line, a place or a reason of the program's own. Fails only if memory runs out.
fn name_of(alloc: Global, file: &str) -> Result<Vec<u8>, AllocError> {
    if file != "-" {
        return shown_file(alloc, file);
    }
    let mut name = Vec::new(alloc);
    name.extend_from_slice(STANDARD_INPUT)?;
    Ok(name)
}

/// Says that the output was cut off; returns the exit status.
fn say_cut(rt: &HostRuntime, most: usize) -> u8 {
    let line = cut_line(most);
    trouble(rt, line.as_str().as_bytes());
    LIMITED
}

/// Says what a run of the program has to say, which was kept in memory; or that the output was cut off, if it was. Returns the exit status.
fn close(
    rt: &HostRuntime,
    most: Option<usize>,
    cut: bool,
    errors: &Output<Vec<u8>>,
    status: u8,
) -> u8 {
    match most {
        Some(most) if cut => say_cut(rt, most),
        _ if errors.failed => trouble(rt, b"hurd: out of memory\n"),
        _ => {
            trouble(rt, errors.writer.as_slice());
            status
        }
    }
}

/// Does what is asked with what a reader gives, and prints at most so many bytes; returns the exit status.
fn serve_from<R: Read + Drop>(
    rt: &HostRuntime,
    wanted: &Wanted,
    most: Option<usize>,
    name: &[u8],
    reader: R,
) -> u8 {
    let alloc = rt.alloc();
    let mut input = match wanted {
        Wanted::Record(_) => Input::long(reader),
        Wanted::Request(_) | Wanted::Vectors | Wanted::Witnesses { .. } => Input::new(reader),
    };
    let mut output = Output::new(Limited::new(io::writer(rt), most));
    let mut errors = Output::new(Vec::new(alloc));
    let status = match wanted {
        Wanted::Record(report) => {
            perform_record(alloc, report, name, &mut input, &mut output, &mut errors)
        }
        Wanted::Request(request) => {
            perform(alloc, request, name, &mut input, &mut output, &mut errors)
        }
        Wanted::Vectors => perform_vectors(alloc, name, &mut input, &mut output, &mut errors),
        Wanted::Witnesses { who } => {
            let who = who.as_str();
            perform_witnesses(alloc, who, name, &mut input, &mut output, &mut errors)
        }
    };
    close(rt, most, output.writer.cut, &errors, status)
}

/// Prints a random text, or at most so many bytes of it; returns the exit status.
fn give_sample(rt: &HostRuntime, sort: TextSort, seed: u64, count: u64, most: Option<usize>) -> u8 {
    let alloc = rt.alloc();
    let mut output = Output::new(Limited::new(io::writer(rt), most));
    let mut errors = Output::new(Vec::new(alloc));
    let status = perform_sample(alloc, sort, seed, count, &mut output, &mut errors);
    close(rt, most, output.writer.cut, &errors, status)
}

/// Two scripts that are to be compared for some users.
#[derive(Clone, Copy)]
struct Pair<'a> {
    who: &'a str,
    /// The names of their files, as they are printed.
    first: &'a [u8],
    second: &'a [u8],
    /// How many bytes may be printed, if that is limited.
    most: Option<usize>,
}

/// Compares two scripts that two readers give; returns the exit status.
fn compare_from<R: Read + Drop, Q: Read + Drop>(
    rt: &HostRuntime,
    pair: &Pair<'_>,
    one: R,
    two: Q,
) -> u8 {
    let alloc = rt.alloc();
    let mut first = Input::new(one);
    let mut second = Input::new(two);
    let mut output = Output::new(Limited::new(io::writer(rt), pair.most));
    let mut errors = Output::new(Vec::new(alloc));
    let status = perform_pair(
        alloc,
        pair.who,
        pair.first,
        pair.second,
        &mut first,
        &mut second,
        &mut output,
        &mut errors,
    );
    close(rt, pair.most, output.writer.cut, &errors, status)
}

/// Why a file can't be opened.
fn reason(kind: ErrorKind) -> &'static [u8] {
    match kind {
        ErrorKind::NotFound => b": no such file\n",
        ErrorKind::PermissionDenied => b": permission denied\n",
        _ => b": cannot read\n",
    }
}

/// Says that a file can't be opened, and why; returns the exit status.
fn unopened(rt: &HostRuntime, name: &[u8], kind: ErrorKind) -> u8 {
    let mut errors = Output::new(rt.stderr());
    let _ = errors.print(b"hurd: ");
    let _ = errors.print(name);
    let _ = errors.print(reason(kind));
    TROUBLE
}

/// Says that a text is awaited, where a person types it.
fn await_text(rt: &HostRuntime) {
    if rt.stdin().is_terminal() {
        trouble(
            rt,
            b"hurd: reading from the terminal; Ctrl-D ends the input\n",
        );
    }
}

/// Does what is asked of one file; returns the exit status.
fn serve_one(
    rt: &HostRuntime,
    wanted: &Wanted,
    most: Option<usize>,
    file: &str,
    name: &[u8],
) -> u8 {
    if file == "-" {
        await_text(rt);
        return serve_from(rt, wanted, most, name, rt.reader());
    }
    match File::open(rt, file) {
        Ok(opened) => serve_from(rt, wanted, most, name, opened),
        Err(error) => unopened(rt, name, error.kind()),
    }
}

/// Compares a script that a reader gives with that of a second file; returns the exit status.
fn compare_second<R: Read + Drop>(rt: &HostRuntime, pair: &Pair<'_>, one: R, two: &str) -> u8 {
    if two == "-" {
        await_text(rt);
        return compare_from(rt, pair, one, rt.reader());
    }
    match File::open(rt, two) {
        Ok(opened) => compare_from(rt, pair, one, opened),
        Err(error) => unopened(rt, pair.second, error.kind()),
    }
}

/// Compares the scripts of two files; returns the exit status.
fn compare_files(rt: &HostRuntime, pair: &Pair<'_>, one: &str, two: &str) -> u8 {
    if one != "-" {
        return match File::open(rt, one) {
            Ok(opened) => compare_second(rt, pair, opened, two),
            Err(error) => unopened(rt, pair.first, error.kind()),
        };
    }
    if two == "-" {
        return trouble(
            rt,
            b"hurd: only one of the two scripts can be standard input\n",
        );
    }
    await_text(rt);
    compare_second(rt, pair, rt.reader(), two)
}

/// Compares the scripts that are asked for; returns the exit status.
fn compare_pair(rt: &HostRuntime, who: &str, one: &str, two: &str, most: Option<usize>) -> u8 {
    let (Ok(first), Ok(second)) = (name_of(rt.alloc(), one), name_of(rt.alloc(), two)) else {
        return trouble(rt, b"hurd: out of memory\n");
    };
    let pair = Pair {
        who,
        first: first.as_slice(),
        second: second.as_slice(),
        most,
    };
    compare_files(rt, &pair, one, two)
}

/// Does what is asked of the files; returns the exit status.
pub fn serve(rt: &HostRuntime, words: &Words) -> u8 {
    let most = words.most;
    match &words.asked {
        Asked::Text { wanted, file } => match name_of(rt.alloc(), file.as_str()) {
            Ok(name) => serve_one(rt, wanted, most, file.as_str(), name.as_slice()),
            Err(_) => trouble(rt, b"hurd: out of memory\n"),
        },
        Asked::Pair { who, one, two } => {
            compare_pair(rt, who.as_str(), one.as_str(), two.as_str(), most)
        }
        Asked::Sample { sort, seed, count } => give_sample(rt, *sort, *seed, *count, most),
    }
}
