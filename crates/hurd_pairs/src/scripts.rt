//! Two scripts from their beginnings to the report on them.
ghost use Rattle.std.specs.Prelude.{◌≡◌, ℕ, List, true, Err, IfErr, IfOk};
ghost use Rattle.std.specs.Io.KnownBytes.{Appends};
ghost use Rattle.hurd_dialogue.specs.Sorts.{Begins};
ghost use Rattle.hurd_shell.specs.Scripts.{scripts};
ghost use Rattle.hurd_teaching.specs.Programs.{AreThese};
ghost use Rattle.hurd_terminal.specs.declared.fault.Fault.TheVariants.{Write};
ghost use Rattle.hurd_pairs.specs.Reports.{IsFaulty, PairPrints};
ghost use Rattle.hurd_pairs.specs.Whole.{PrintsReport};
ghost use Rattle.hurd_pairs.specs.declared.difference.PairFault.TheVariants.{First};

use crate::comparing::compare;
use crate::difference::{PairFault, Verdict};
use crate::matching::mismatch;
use crate::reports::{Lined, report, verdict};
use hurd_dialogue::Telling;
use hurd_teaching::{Learners, learners_of};
use hurd_terminal::{Fault, Output};
use std::alloc::Global;
use std::io::Write;

/// Begins a text, and finds those that WHO names.
///
/// `Bad` with the line at which it is bad, `Boot` with its world's refusal, `Unknown` where somebody is named who isn't in it; `Memory`.
fn fit<T: Telling>(alloc: Global, word: &str, text: &[u8]) -> Result<(Box<T>, Learners), Fault>
    ensures ok { IfOk result (λ fit. Begins T.sort text.now (T.way fit.0.value) × AreThese T.sort word.now text.now fit.1) }
    ensures err { IfErr result (λ fault. IsFaulty T.sort word.now text.now fault) }
{
    let telling = T::begun(alloc, text)?;
    match learners_of(alloc, &*telling, word, text)? {
        Some(learners) => Ok((telling, learners)),
        None => Err(Fault::Unknown),
    }
}

/// Compares two texts on their way, and prints the report; returns whether those get the same replies.
///
/// `Write` where it can't be written: then only some first bytes of it were printed; `Memory`: then nothing was.
fn compare_fit<T: Telling, W: Write>(
    alloc: Global,
    one: &[u8],
    two: &[u8],
    first: &mut T,
    second: &mut T,
    learners: &Learners,
    output: &mut Output<W>,
) -> Result<Verdict, Fault>
    ensures { PrintsReport learners.now one.now two.now (T.way first.old) (T.way second.old) output.new (W.contents output.old.writer) (W.contents output.new.writer) result }
{
    let one = Lined {
        text: one,
        heading: first.heading(),
    };
    let two = Lined {
        text: two,
        heading: second.heading(),
    };
    let compared = compare(alloc, first, second, learners)?;
    let text = report(alloc, learners, &one, &two, &compared)?;
    output.print(text.as_slice())?;
    Ok(verdict(&compared))
}

/// Runs two scripts side by side, each as a `T`, and prints where those that WHO names first see something different in the second, and where they first get a
/// different reply; returns whether they get the same replies.
///
/// Errors, in order, of the first and then of the second script: `Bad` with the line at which it is bad, `Boot` with its world's refusal, `Unknown` where
/// somebody is named who isn't in it. Then `NoPair`. Nothing is printed then, nor where there is no memory. `Write`: then a front is.
pub fn compare_scripts<T: Telling, W: Write>(
    alloc: Global,
    word: &str,
    one: &[u8],
    two: &[u8],
    output: &mut Output<W>,
) -> Result<Verdict, PairFault>
    requires { T.sort ≡ scripts }
    ensures adds { (printed : List ℕ) × Appends (W.contents output.old.writer) (W.contents output.new.writer) printed × PairPrints word.now one.now two.now result printed }
    ensures write { result ≡ Err (First Write) → output.new.failed ≡ true }
{
    let (mut first, learners) = match fit::<T>(alloc, word, one) {
        Ok(fit) => fit,
        Err(fault) => return Err(PairFault::First(fault)),
    };
    let (mut second, _others) = match fit::<T>(alloc, word, two) {
        Ok(fit) => fit,
        Err(fault) => return Err(PairFault::Second(fault)),
    };
    if let Some(why) = mismatch(alloc, one, two, &learners)? {
        return Err(PairFault::NoPair(why));
    }
    match compare_fit(
        alloc,
        one,
        two,
        &mut *first,
        &mut *second,
        &learners,
        output,
    ) {
        Ok(verdict) => Ok(verdict),
        Err(fault) => Err(PairFault::First(fault)),
    }
}
