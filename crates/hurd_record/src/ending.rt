//! What is printed at the end of a record.
ghost use Rattle.std.specs.Prelude.{IfErr};
ghost use Rattle.hurd_terminal.specs.Faults.{IsPrintFault};

use crate::report::Report;
use hurd_calls::RunningCalls;
use hurd_creds::Bytes;
use hurd_dialogue::Telling;
use hurd_kinds::ServerBox;
use hurd_lessons::Tally;
use hurd_teaching::{Learners, helped_picture, marked_picture, plain_picture, shortened, shown};
use hurd_terminal::{Fault, Output};
use hurd_world::World;
use std::alloc::{AllocError, Global};
use std::io::Write;

/// The last line of what some learned. Fails only if memory runs out.
fn last_line(alloc: Global, learners: &Learners, tally: Tally) -> Result<Bytes, AllocError> {
    let line = tally.line(alloc, learners.names.as_slice(), RunningCalls::thing())?;
    Ok(Bytes::new(line))
}

/// All that some see, of which at most `most` bytes are given. Fails only if memory runs out.
fn sight(
    alloc: Global,
    world: &World<ServerBox>,
    learners: &Learners,
    most: Option<usize>,
) -> Result<Bytes, AllocError> {
    let seen = shown(alloc, world, learners, true)?;
    shortened(alloc, most, learners.sees.as_slice(), seen)
}

/// The picture of a world, in which it is marked what some see, if there are any, and what others could show them, if that is wanted. Fails only if memory
/// runs out.
fn drawn(
    alloc: Global,
    world: &World<ServerBox>,
    learners: &Option<Learners>,
    can: bool,
) -> Result<Bytes, AllocError> {
    let names = Vec::new(alloc);
    match learners {
        Some(learners) if can => helped_picture(alloc, world, names, learners),
        Some(learners) => marked_picture(alloc, world, names, learners),
        None => plain_picture(alloc, world, names),
    }
}

/// What a report has at the end of a record. Fails only if memory runs out.
fn end_text(
    alloc: Global,
    report: &Report,
    world: &World<ServerBox>,
    learners: &Option<Learners>,
    tally: Tally,
) -> Result<Bytes, AllocError> {
    match (report, learners) {
        (Report::Lessons { .. }, Some(learners)) => last_line(alloc, learners, tally),
        (Report::Sight { most, .. }, Some(learners)) => sight(alloc, world, learners, *most),
        (Report::Picture { can, .. }, _) => drawn(alloc, world, learners, *can),
        _ => Ok(Bytes::new(Vec::new(alloc))),
    }
}

/// Prints what a report has at the end of a record.
///
/// `Write` if that can't be written: then a front of it is; `Memory`.
pub(crate) fn print_end<W: Write>(
    alloc: Global,
    report: &Report,
    world: &World<ServerBox>,
    learners: &Option<Learners>,
    tally: Tally,
    output: &mut Output<W>,
) -> Result<(), Fault>
    ensures { IfErr result (λ fault. IsPrintFault output.new fault) }
{
    let text = end_text(alloc, report, world, learners, tally)?;
    output.print(text.as_slice())
}
