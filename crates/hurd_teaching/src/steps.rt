//! A text on its way that is watched, part by part.
ghost use Rattle.std.specs.Prelude.{◌≡◌, false, None, IfErr, IfOk, OnOk};
ghost use Rattle.hurd_dialogue.specs.Parts.{next_task};
ghost use Rattle.hurd_machine.specs.Sound.{Sound};
ghost use Rattle.hurd_terminal.specs.Faults.{IsPrintFault};
ghost use Rattle.hurd_teaching.specs.Learners.{is_next_quiet, speech};
ghost use Rattle.hurd_teaching.specs.Shown.{StepsTo, StopsAt, ToldAll, ToldSome};
ghost use Rattle.hurd_teaching.specs.Watched.{SeenOf, Sees};

use crate::learners::Learners;
use crate::telling::{counted, look_before, print_all, said_if_moved, shown};
use crate::watch::Watch;
use hurd_dialogue::Telling;
use hurd_lessons::Tally;
use hurd_terminal::{Fault, Output};
use std::alloc::{AllocError, Global};
use std::io::Write;

/// Whether nothing is said of the next part; so of none.
fn is_quiet<T: Telling>(telling: &T, learners: &Learners) -> bool
    ensures { result ≡ is_next_quiet learners.now.tasks.items learners.now.from (T.way telling.now).told (next_task (T.way telling.now).left) }
{
    match telling.task() {
        Some(task) => learners.are_quiet(telling.told(), task),
        None => true,
    }
}

/// Whether nothing is said of the next part. Before any other it is looked at what these see, unless that was done, and noted from then on what is touched.
/// Fails only if memory runs out.
fn looked<T: Telling>(
    alloc: Global,
    telling: &mut T,
    learners: &Learners,
    watch: &mut Watch,
) -> Result<bool, AllocError>
    requires { SeenOf learners.now.tasks.items (T.way telling.old).world watch.old.seen }
    ensures same { T.way telling.new ≡ T.way telling.old }
    ensures quiet { IfOk result (λ quiet. quiet ≡ is_next_quiet learners.now.tasks.items learners.now.from (T.way telling.old).told (next_task (T.way telling.old).left)) }
    ensures sees { IfOk result (λ quiet. quiet ≡ false → Sees learners.now.tasks.items (T.way telling.old).world watch.new.seen) }
{
    let quiet = is_quiet(telling, learners);
    look_before(alloc, telling.world(), learners, watch, quiet)?;
    if !quiet {
        telling.note();
    }
    Ok(quiet)
}

/// Tells the next part: prints its paragraph, its text, what these tasks learn by it, and what they see if that is asked for, of both at most so many bytes, if
/// that is limited; and counts what they learn. Whether there was one.
///
/// `Write` where it can't be written: then only some first bytes of it were; `Memory`.
pub fn tell_next<T: Telling, W: Write>(
    alloc: Global,
    telling: &mut T,
    most: Option<usize>,
    learners: &Learners,
    watch: &mut Watch,
    tally: &mut Tally,
    output: &mut Output<W>,
) -> Result<bool, Fault>
    requires seen { SeenOf learners.now.tasks.items (T.way telling.old).world watch.old.seen }
    requires sound { Sound (T.way telling.old).world }
    ensures sound { OnOk result (Sound (T.way telling.new).world) }
    ensures ok { IfOk result (λ more. StepsTo most learners.now.tasks.items (speech learners.now) (T.way telling.old) tally.old (W.contents output.old.writer)
        more (T.way telling.new) watch.new.seen tally.new (W.contents output.new.writer)) }
    ensures err { IfErr result (λ fault. IsPrintFault output.new fault
        × StopsAt most learners.now.tasks.items (speech learners.now) (T.way telling.old) (W.contents output.old.writer) (W.contents output.new.writer)) }
{
    let quiet = looked(alloc, telling, learners, watch)?;
    let Some(answer) = telling.next(alloc)? else {
        return Ok(false);
    };
    let unmoved = !quiet && watch.misses(telling.noted());
    let said = said_if_moved(alloc, telling.world(), learners, watch, quiet, unmoved)?;
    let asked = learners.are_shown(telling.told());
    let shown = shown(alloc, telling.world(), learners, asked)?;
    let count = counted(*tally, quiet, &said);
    print_all(alloc, most, learners, &answer, said, shown, output)?;
    *tally = count;
    Ok(true)
}

/// Tells all parts that are left, each with what these tasks learn by it, of which at most so many bytes are printed, if that is limited; and counts that.
/// Nothing was seen yet.
///
/// `Write` where something can't be written, `Memory`: then a front is printed.
pub(crate) fn tell_all<T: Telling, W: Write>(
    alloc: Global,
    telling: &mut T,
    most: Option<usize>,
    learners: &Learners,
    watch: &mut Watch,
    tally: &mut Tally,
    output: &mut Output<W>,
) -> Result<(), Fault>
    requires anew { watch.old.seen ≡ None }
    requires sound { Sound (T.way telling.old).world }
    ensures ok { OnOk result (ToldAll most learners.now.tasks.items (speech learners.now) (T.way telling.old).told (T.way telling.old).world (T.way telling.old).left
        tally.old (W.contents output.old.writer) tally.new (W.contents output.new.writer)) }
    ensures err { IfErr result (λ fault. IsPrintFault output.new fault
        × ToldSome most learners.now.tasks.items (speech learners.now) (T.way telling.old).told (T.way telling.old).world (T.way telling.old).left
        (W.contents output.old.writer) (W.contents output.new.writer)) }
{
    'steps: loop {
        if !tell_next(alloc, telling, most, learners, watch, tally, output)? {
            return Ok(());
        }
    }
}
