//! A record whose world has begun.
ghost use Rattle.std.specs.Prelude.{◌≡◌, IfErr, OnOk};
ghost use Rattle.hurd_kinds.specs.Boxes.{box_meaning};
ghost use Rattle.hurd_machine.specs.Sound.{Sound};
ghost use Rattle.hurd_teaching.specs.Watched.{SeenOf};
ghost use Rattle.hurd_terminal.specs.Faults.{IsPrintFault};
ghost use Rattle.hurd_world.specs.Held.{world_of};
ghost use Rattle.hurd_record.specs.Faults.{IsBeginFault};
ghost use Rattle.hurd_record.specs.Watching.{SeenIf};

use crate::ending::print_end;
use crate::report::Report;
use hurd_calls::RunningCalls;
use hurd_creds::Ids;
use hurd_dialogue::Telling;
use hurd_kinds::ServerBox;
use hurd_lessons::Tally;
use hurd_lists::ListedCall;
use hurd_teaching::{Learners, Watch, learners_at_once, tell_next};
use hurd_terminal::{Fault, Output};
use std::alloc::{AllocError, Global};
use std::io::Write;
use std::marker::Model;

/// A record whose world has begun, with those whom the report names, what they saw, and what they learned.
#[derive(Drop)]
pub(crate) struct Begun {
    running: Box<RunningCalls>,
    learners: Option<Learners>,
    watch: Watch,
    tally: Tally,
}

impl Model for Begun {
    ghost use Rattle.std.specs.Prelude.{Option};
    ghost use Rattle.hurd_kinds.specs.Boxes.{box_meaning};
    ghost use Rattle.hurd_machine.specs.Sound.{Sound};
    ghost use Rattle.hurd_teaching.specs.declared.learners.Learners.{Learners};
    ghost use Rattle.hurd_world.specs.Held.{world_of};
    ghost use Rattle.hurd_record.specs.Watching.{SeenIf, coded_learners};

    ghost Value = { Option Learners };

    ghost coded = { coded_learners };

    ghost view = { λ b. b.learners };

    ghost invariant = { λ b. Sound (world_of box_meaning b.running.value.world.value) × SeenIf b.learners (world_of box_meaning b.running.value.world.value) b.watch.seen };
}

/// Those whom a report names, if it names any.
///
/// Errors, in order: `Unknown` if one of them isn't in the record; `Memory` at any point.
fn heard(alloc: Global, report: &Report, running: &RunningCalls) -> Result<Option<Learners>, Fault>
    ensures { IfErr result IsBeginFault }
{
    let Some(who) = report.who() else {
        return Ok(None);
    };
    match learners_at_once(alloc, running, who)? {
        Some(learners) => Ok(Some(learners)),
        None => Err(Fault::Unknown),
    }
}

/// Makes the call that is next, and prints its line and its reply.
///
/// `Write` if that can't be written; `Memory`.
fn tell_plainly<W: Write>(
    alloc: Global,
    running: &mut RunningCalls,
    output: &mut Output<W>,
) -> Result<(), Fault>
    ensures sound { OnOk result (Sound (world_of box_meaning running.old.world.value) → Sound (world_of box_meaning running.new.world.value)) }
    ensures err { IfErr result (λ fault. IsPrintFault output.new fault) }
{
    let Some(answer) = running.next(alloc)? else {
        return Ok(());
    };
    let text = answer.plain(alloc)?;
    output.print(text.as_slice())
}

/// Makes the call that is next, and prints nothing. Fails only if memory runs out.
fn tell_nothing(alloc: Global, running: &mut RunningCalls) -> Result<(), AllocError>
    ensures { OnOk result (Sound (world_of box_meaning running.old.world.value) → Sound (world_of box_meaning running.new.world.value)) }
{
    let _answer = running.next(alloc)?;
    Ok(())
}

/// Makes the call that is next, and prints it with what these learn by it, of which at most so many bytes are printed, if that is limited.
///
/// `Write` if that can't be written; `Memory`.
fn tell_lesson<W: Write>(
    alloc: Global,
    most: Option<usize>,
    learners: &Learners,
    running: &mut RunningCalls,
    watch: &mut Watch,
    tally: &mut Tally,
    output: &mut Output<W>,
) -> Result<(), Fault>
    requires sound { Sound (world_of box_meaning running.old.world.value) }
    requires seen { SeenOf learners.now.tasks.items (world_of box_meaning running.old.world.value) watch.old.seen }
    ensures sound { OnOk result (Sound (world_of box_meaning running.new.world.value)) }
    ensures seen { OnOk result (SeenOf learners.now.tasks.items (world_of box_meaning running.new.world.value) watch.new.seen) }
    ensures err { IfErr result (λ fault. IsPrintFault output.new fault) }
{
    if tell_next(alloc, running, most, learners, watch, tally, output)? {
        return Ok(());
    }
    *watch = Watch::new();
    Ok(())
}

/// Makes the call that is next, and prints what a report has of it. What was seen before a call of which no lessons are printed is forgotten.
///
/// `Write` if that can't be written; `Memory`.
fn tell_call<W: Write>(
    alloc: Global,
    report: &Report,
    learners: &Option<Learners>,
    running: &mut RunningCalls,
    watch: &mut Watch,
    tally: &mut Tally,
    output: &mut Output<W>,
) -> Result<(), Fault>
    requires sound { Sound (world_of box_meaning running.old.world.value) }
    requires seen { SeenIf learners.now (world_of box_meaning running.old.world.value) watch.old.seen }
    ensures sound { OnOk result (Sound (world_of box_meaning running.new.world.value)) }
    ensures seen { OnOk result (SeenIf learners.now (world_of box_meaning running.new.world.value) watch.new.seen) }
    ensures err { IfErr result (λ fault. IsPrintFault output.new fault) }
{
    if let (Report::Lessons { most, .. }, Some(learners)) = (report, learners) {
        return tell_lesson(alloc, *most, learners, running, watch, tally, output);
    }
    *watch = Watch::new();
    match report {
        Report::Transcript => tell_plainly(alloc, running, output),
        Report::Lessons { .. } | Report::Sight { .. } | Report::Picture { .. } => Ok(tell_nothing(
            alloc, running,
        )?),
    }
}

impl Begun {
    /// Begins the world of tasks with these ids.
    ///
    /// Errors, in order: `Boot` with the world's refusal; `Unknown` if somebody is named who isn't in it; `Memory` at any point.
    pub(crate) fn over(alloc: Global, report: &Report, tasks: Vec<Ids>) -> Result<Begun, Fault>
        ensures { IfErr result IsBeginFault }
    {
        let running = RunningCalls::over(alloc, tasks)?;
        let learners = heard(alloc, report, &running)?;
        Ok(Begun {
            running,
            learners,
            watch: Watch::new(),
            tally: Tally::new(),
        })
    }

    /// Makes a call, and prints what the report has of it.
    ///
    /// `Write` if that can't be written; `Memory`.
    pub(crate) fn tell<W: Write>(
        self,
        alloc: Global,
        report: &Report,
        listed: ListedCall<ServerBox>,
        output: &mut Output<W>,
    ) -> Result<Begun, Fault>
        ensures { IfErr result (λ fault. IsPrintFault output.new fault) }
    {
        let Begun {
            mut running,
            learners,
            mut watch,
            mut tally,
        } = self;
        running.take(listed)?;
        tell_call(
            alloc,
            report,
            &learners,
            &mut running,
            &mut watch,
            &mut tally,
            output,
        )?;
        Ok(Begun {
            running,
            learners,
            watch,
            tally,
        })
    }

    /// Prints what the report has at the end.
    ///
    /// `Write` if that can't be written; `Memory`.
    pub(crate) fn end<W: Write>(
        &self,
        alloc: Global,
        report: &Report,
        output: &mut Output<W>,
    ) -> Result<(), Fault>
        ensures { IfErr result (λ fault. IsPrintFault output.new fault) }
    {
        print_end(
            alloc,
            report,
            self.running.world(),
            &self.learners,
            self.tally,
            output,
        )
    }
}
