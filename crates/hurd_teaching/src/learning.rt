//! A text from its beginning to the last line, with what is learned on the way.
ghost use Rattle.std.specs.Prelude.{◌≡◌, ◌≢◌, true, Err, IfErr, OnOk};
ghost use Rattle.hurd_machine.specs.Sound.{Sound};
ghost use Rattle.hurd_terminal.specs.Runs.{Adds};
ghost use Rattle.hurd_teaching.specs.Programs.{learning};
ghost use Rattle.hurd_teaching.specs.Shown.{NotShown, Shown};

use crate::learners::Learners;
use crate::naming::learners_of;
use crate::steps::tell_all;
use crate::watch::Watch;
use hurd_dialogue::Telling;
use hurd_lessons::Tally;
use hurd_terminal::{Fault, Output};
use std::alloc::Global;
use std::io::Write;

/// Prints all that is told and learned of a text by tasks of which nothing was seen yet, at most so many bytes of each thing, if that is limited; and the last
/// line.
///
/// `Write` where something can't be written, `Memory`: then a front of it is printed.
fn learn<T: Telling, W: Write>(
    alloc: Global,
    telling: &mut T,
    most: Option<usize>,
    learners: &Learners,
    output: &mut Output<W>,
) -> Result<(), Fault>
    requires begun { (T.way telling.old).told ≡ 0 }
    requires sound { Sound (T.way telling.old).world }
    ensures ok { OnOk result (Shown most learners.now T.sort.thing (T.way telling.old).world (T.way telling.old).left (W.contents output.old.writer) (W.contents output.new.writer)) }
    ensures err { IfErr result (λ fault. NotShown most learners.now T.sort.thing (T.way telling.old).world (T.way telling.old).left
        output.new (W.contents output.old.writer) fault (W.contents output.new.writer)) }
{
    let mut watch = Watch::new();
    let mut tally = Tally::new();
    tell_all(
        alloc, telling, most, learners, &mut watch, &mut tally, output,
    )?;
    let line = tally.line(alloc, learners.names.as_slice(), T::thing())?;
    output.print(line.as_slice())
}

/// Begins a text, and prints all that it tells, with what those that WHO names learn, and the last line. Of a lesson, and of what they see each time that the
/// text asks, at most `most` bytes are printed, in whole lines, and then a line that says how many bytes more there are.
///
/// `Bad` with the line at which it is bad, `Boot` with its world's refusal, `Unknown` where somebody is named who isn't in it: then nothing is printed.
/// `Write`, `Memory`: then a front is.
pub fn learn_text<T: Telling, W: Write>(
    alloc: Global,
    word: &str,
    most: Option<usize>,
    text: &[u8],
    output: &mut Output<W>,
) -> Result<(), Fault>
    ensures adds { Adds (learning T.sort most word.now) text.now (W.contents output.old.writer) (W.contents output.new.writer) result }
    ensures read { result ≢ Err Fault.Read }
    ensures write { result ≡ Err Fault.Write → output.new.failed ≡ true }
{
    let mut telling = T::begun(alloc, text)?;
    match learners_of(alloc, &*telling, word, text)? {
        Some(learners) => learn(alloc, &mut *telling, most, &learners, output),
        None => Err(Fault::Unknown),
    }
}
