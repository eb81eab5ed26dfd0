//! A list of calls is printed as vectors.
ghost use Rattle.hurd_terminal.specs.Runs.{Ends, Exits};
ghost use Rattle.hurd_vectors.specs.Vectors.{vectors};

use crate::performing::blame;
use crate::request::TextSort;
use hurd_terminal::{Fault, Input, Output, finish, read_text};
use hurd_vectors::print_vectors;
use std::alloc::Global;
use std::io::{Read, Write};

/// Prints the vectors of a list, and says of a fault why, by the name of its file; returns the exit status.
fn tell_vectors<W: Write, E: Write>(
    alloc: Global,
    file: &[u8],
    text: &[u8],
    output: &mut Output<W>,
    errors: &mut Output<E>,
) -> u8
    ensures { Ends vectors file.now text.now W.contents E.contents output.old output.new errors.old errors.new result }
{
    match print_vectors(alloc, text, output) {
        Err(Fault::Bad { line }) => blame(alloc, TextSort::Calls, text, line, file, errors),
        ended => finish(ended, file, b"", b"", errors),
    }
}

/// The whole program for vectors: reads a list of calls, prints each with its reply as a line of JSON, and says of a fault why, by the name of its file; answers the
/// exit status.
pub fn perform_vectors<R: Read, W: Write, E: Write>(
    alloc: Global,
    file: &[u8],
    input: &mut Input<R>,
    output: &mut Output<W>,
    errors: &mut Output<E>,
) -> u8
    ensures { Exits vectors file.now R.remaining W.contents E.contents input.old input.new output.old output.new errors.old errors.new result }
{
    match read_text(alloc, input) {
        Ok(text) => tell_vectors(alloc, file, text.as_slice(), output, errors),
        Err(fault) => finish(Err(fault), file, b"", b"", errors),
    }
}
