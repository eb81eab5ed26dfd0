//! A text from its beginning to its end, and what could be shown then.
ghost use Rattle.std.specs.Prelude.{◌≡◌, ◌≢◌, ◌++◌, [], ◌∷◌, true, Err, IfOk, OnOk};
ghost use Rattle.hurd_dialogue.specs.Parts.{world_behind};
ghost use Rattle.hurd_teaching.specs.Owners.{all_tasks};
ghost use Rattle.hurd_terminal.specs.Runs.{Adds};
ghost use Rattle.hurd_world.specs.Held.{world_of};
ghost use Rattle.hurd_sight.specs.Reach.{among};
ghost use Rattle.hurd_can.specs.Dated.{worlds_from};
ghost use Rattle.hurd_can.specs.Programs.{IsCould, asking_of, could, others_of};
ghost use Rattle.hurd_can.specs.Remembered.{Each, Remembers};
ghost use Rattle.hurd_can.specs.Saying.{SaysAll};
ghost use Rattle.hurd_can.specs.Ending.{HelpsAtEnd};

use crate::helped::Helped;
use crate::listing::unseen;
use crate::looking::{helpers_of, look};
use crate::remembering::remember;
use crate::saying::lines;
use crate::text::Scene;
use hurd_creds::{Bytes, TaskId};
use hurd_dialogue::{Telling, play_silently};
use hurd_teaching::{Learners, all_tasks, copied_names, learners_of, view_of};
use hurd_terminal::{Fault, Output};
use hurd_trans_iface::Server;
use hurd_views::View;
use hurd_world::World;
use std::alloc::{AllocError, Global};
use std::io::Write;

/// What is asked of a text.
#[derive(Clone, Copy)]
pub struct Asking<'a> {
    /// The names of its tasks, if they have names.
    pub names: &'a [Bytes],
    /// WHO, that is, those to whom something could be shown.
    pub learners: &'a Learners,
    /// Whether all other parts are listed too.
    pub every: bool,
    /// Whether ways are wanted.
    pub how: bool,
    /// The text.
    pub script: &'a [u8],
}

/// Whether a task is one of these.
fn is_among(tasks: &[TaskId], task: TaskId) -> bool
    ensures { result ≡ among tasks.now task.0 }
{
    for own in tasks {
        if own.0 == task.0 {
            return true;
        }
    }
    false
}

/// Adds a task, unless it is one of these.
fn add_other(others: &mut Vec<TaskId>, who: &[TaskId], task: TaskId) -> Result<(), AllocError>
    ensures { OnOk result (others.new.items ≡ others.old.items ++ others_of who.now (task ∷ [])) }
{
    if !is_among(who, task) {
        others.push(task)?;
    }
    Ok(())
}

/// Those of the tasks that are none of these. Fails only if memory runs out.
fn others_of(alloc: Global, who: &[TaskId], tasks: &[TaskId]) -> Result<Vec<TaskId>, AllocError>
    ensures { IfOk result (λ others. others.items ≡ others_of who.now tasks.now) }
{
    let mut others = Vec::new(alloc);
    for task in tasks {
        add_other(&mut others, who, *task)?;
    }
    Ok(others)
}

/// The parts that some tasks don't see, each with those of all tasks who could help. Fails only if memory runs out.
fn helped_now<S: Server>(
    alloc: Global,
    world: &World<S>,
    view: &View,
    who: &[TaskId],
    tasks: &[TaskId],
    every: bool,
) -> Result<Vec<Helped>, AllocError>
    ensures { IfOk result (λ all. HelpsAtEnd (world_of S.meaning world.now) view.now who.now tasks.now every all.items) }
{
    let core = world.core();
    let sight = look(alloc, core.nodes(), core.ports(), who)?;
    let parts = unseen(alloc, core.nodes(), &sight, view, every)?;
    let others = others_of(alloc, who, tasks)?;
    helpers_of(
        alloc,
        core.nodes(),
        core.ports(),
        who,
        others.as_slice(),
        parts.as_slice(),
    )
}

/// Goes through a text to its end, and notes who saw the parts on the way as the last view shows them. Fails only if memory runs out.
fn remember_all<T: Telling>(
    alloc: Global,
    telling: &mut T,
    last: &View,
    all: &mut Vec<Helped>,
    tasks: &[TaskId],
) -> Result<(), AllocError>
    ensures { OnOk result (Each (Remembers (worlds_from (T.way telling.old).world (T.way telling.old).left) last.now tasks.now) all.old.items all.new.items) }
{
    remember(alloc, telling.world().core(), last, all, tasks)?;
    while let Some(_answer) = telling.next(alloc)? {
        remember(alloc, telling.world().core(), last, all, tasks)?;
    }
    Ok(())
}

/// What could be shown WHO, in lines.
fn lines_of<S: Server, T: Telling>(
    alloc: Global,
    world: &World<S>,
    view: &View,
    asking: &Asking<'_>,
    tasks: &[TaskId],
    all: &[Helped],
) -> Result<Bytes, AllocError>
    ensures { IfOk result (λ text. SaysAll (asking_of T.sort asking.now) view.now (world_of S.meaning world.now).tasks tasks.now all.now text) }
{
    let learners = asking.learners;
    let scene = Scene {
        view,
        names: asking.names,
        seats: world.core().ports().seats(),
        tasks,
        who: learners.names.as_slice(),
        sees: learners.sees.as_slice(),
        learners: learners.tasks.as_slice(),
        how: asking.how,
        script: asking.script,
    };
    lines::<T>(alloc, &scene, all)
}

/// What could be shown some in a world, whose tasks are these, by who could help now, and by who saw it while the same text goes to its end once more.
fn looked<S: Server, T: Telling>(
    alloc: Global,
    world: &World<S>,
    again: &mut T,
    asking: &Asking<'_>,
    tasks: &[TaskId],
) -> Result<Bytes, AllocError>
    requires { tasks.now ≡ all_tasks (world_of S.meaning world.now).tasks }
    ensures { IfOk result (λ text. IsCould (asking_of T.sort asking.now) asking.now.every (worlds_from (T.way again.old).world (T.way again.old).left) (world_of S.meaning world.now) text) }
{
    let view = view_of(alloc, world, tasks)?;
    let who = asking.learners.tasks.as_slice();
    let mut all = helped_now(alloc, world, &view, who, tasks, asking.every)?;
    remember_all(alloc, again, &view, &mut all, tasks)?;
    lines_of::<S, T>(alloc, world, &view, asking, tasks, all.as_slice())
}

/// What could be shown some at the end of a text that was begun twice. Fails only if memory runs out.
fn could_at_end<T: Telling>(
    alloc: Global,
    telling: &mut T,
    again: &mut T,
    asking: &Asking<'_>,
) -> Result<Bytes, AllocError>
    ensures { IfOk result (λ text. IsCould (asking_of T.sort asking.now) asking.now.every (worlds_from (T.way again.old).world (T.way again.old).left)
        (world_behind (T.way telling.old).world (T.way telling.old).left) text) }
{
    play_silently(alloc, telling)?;
    let world = telling.world();
    let tasks = all_tasks(alloc, world.core().ports().seats())?;
    looked(alloc, world, again, asking, tasks.as_slice())
}

/// Begins a text, goes to its end, and prints what could be shown those that WHO names: a line for each part that is listed and that they don't see, with the others
/// who could help, and those who saw it before. Bytes, entries and nodes are listed, and all other parts if these are wanted. If ways are wanted, the line is followed
/// by one for each set of helpers, and by a script of theirs that shows the part at the end of the text, if one was found.
///
/// `Bad` with the line at which it is bad, `Boot` with its world's refusal, `Unknown` if somebody is named who isn't in it, `Memory`: then nothing is printed.
/// `Write`: then a prefix of it is.
pub fn could_text<T: Telling, W: Write>(
    alloc: Global,
    word: &str,
    every: bool,
    how: bool,
    text: &[u8],
    output: &mut Output<W>,
) -> Result<(), Fault>
    ensures adds { Adds (could T.sort every how word.now) text.now (W.contents output.old.writer) (W.contents output.new.writer) result }
    ensures read { result ≢ Err Fault.Read }
    ensures write { result ≡ Err Fault.Write → output.new.failed ≡ true }
{
    let mut telling = T::begun(alloc, text)?;
    let Some(learners) = learners_of(alloc, &*telling, word, text)? else {
        return Err(Fault::Unknown);
    };
    let mut again = T::begun(alloc, text)?;
    let names = copied_names(alloc, telling.names())?;
    let asking = Asking {
        names: names.as_slice(),
        learners: &learners,
        every,
        how,
        script: text,
    };
    let said = could_at_end(alloc, &mut *telling, &mut *again, &asking)?;
    output.print(said.as_slice())
}
