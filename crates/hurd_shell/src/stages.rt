//! A command from its opening to its end, and where it stops for a server.
ghost use Rattle.std.specs.Prelude.{◌≡◌, None, Err, IfOk};
ghost use Rattle.hurd_creds.specs.declared.errno.Errno.{Errno};
ghost use Rattle.hurd_script.specs.Actions.{action_of};
ghost use Rattle.hurd_shell.specs.Commands as written;
ghost use Rattle.hurd_client.specs.Programs.{bind, closing, gives};
ghost use Rattle.hurd_shell.specs.Progress.{Arrived};
ghost use Rattle.hurd_shell.specs.Stages.{answered_on, entry_work_of, progress_on, reached_on, work_of};

use crate::calls;
use crate::commands::{NodeWork, Printed, misused, prints, work_on};
use crate::entries::{EntryWork, work_at};
use crate::fault::Stop;
use crate::flags::{setting_of, to_change, to_control, to_enter, to_list, to_set, to_write};
use crate::looking::{Reached, go_on_with, open};
use hurd_client::Opening;
use hurd_creds::{Bytes, Errno, OpenFlags, TaskId};
use hurd_machine::Setting;
use hurd_script::{Action, Command, EntryPlace};
use hurd_trans_iface::{Server, Words};
use hurd_world::World;
use std::alloc::{AllocError, Global};
use std::marker::Model;

/// What a command does with its open node.
#[derive(Debug, Drop)]
pub(crate) enum Work {
    /// Something that it stops for nothing in.
    Node(NodeWork),
    /// Something at a name of a second directory.
    Entry(EntryWork, EntryPlace),
    /// A translator is set, perhaps with a server of these words.
    Set {
        setting: Setting,
        words: Words,
        active: bool,
    },
}

/// Where a command stops for a server.
#[derive(Debug, Drop)]
pub(crate) enum Stage {
    /// While its node is opened.
    Opens {
        opening: Opening,
        work: Work,
    },
    /// While a second directory is opened, to do something at this name in it; a node is held by this port.
    Enters {
        port: u64,
        opening: Opening,
        name: Bytes,
        work: EntryWork,
    },
    /// Before it sets a translator on the node of this port.
    Sets {
        port: u64,
        setting: Setting,
    },
}

/// A stage in a box: what is kept of a command is moved, and dropped by a call.
#[derive(Debug, Drop)]
pub(crate) struct KeptStage {
    stage: Box<Stage>,
}

impl Model for KeptStage {
    ghost use Rattle.hurd_shell.specs.declared.stages.Stage.{Stage};
    ghost use Rattle.hurd_shell.specs.contracts.stages.Stage as code;

    ghost Value = { Stage };

    ghost coded = { code.the_row.coded };

    ghost view = { λ k. k.stage.value };
}

impl KeptStage {
    /// A stage, kept.
    fn keep(alloc: Global, stage: Stage) -> Result<KeptStage, AllocError>
        ensures { IfOk result (λ kept. kept ≡ stage) }
    {
        Ok(KeptStage {
            stage: Box::new(alloc, stage)?,
        })
    }

    /// The stage, lent.
    pub(crate) fn as_stage(&self) -> &Stage
        ensures { result.now ≡ self.now }
    {
        &self.stage
    }

    /// The stage, out of its box.
    pub(crate) fn into_stage(self) -> Stage
        ensures { result ≡ self }
    {
        Box::into_inner(self.stage)
    }
}

/// A command that waits for a server of these words.
#[derive(Debug, Drop)]
pub(crate) struct Waiting {
    pub(crate) words: Words,
    pub(crate) stage: KeptStage,
}

impl Waiting {
    /// A command that waits at a stage.
    fn at(alloc: Global, words: Words, stage: Stage) -> Result<Waiting, AllocError>
        ensures { IfOk result (λ waiting. waiting ≡ record { words = words; stage = stage }) }
    {
        let stage = KeptStage::keep(alloc, stage)?;
        Ok(Waiting { words, stage })
    }
}

/// What a command comes to.
#[derive(Debug, Drop)]
pub(crate) enum Progress {
    Ended(Printed),
    Waits(Waiting),
}

/// Does something with an open node, and gives it up.
fn work_and_close<S: Server>(
    world: &mut World<S>,
    alloc: Global,
    task: TaskId,
    port: u64,
    work: NodeWork,
) -> Result<Progress, Stop>
    ensures { Arrived S.meaning task.0 (closing port (work_of (Work.Node work) port)) world.old progress_on result world.new }
{
    let done = work_on(world, alloc, task, port, work);
    calls::deallocate(world, alloc, task, port)?;
    Ok(Progress::Ended(done?))
}

/// Does something at a name of an open directory, and gives both that and the node that is held up.
fn enter_and_close<S: Server>(
    world: &mut World<S>,
    alloc: Global,
    task: TaskId,
    port: u64,
    dir: u64,
    name: Bytes,
    work: EntryWork,
) -> Result<Progress, Stop>
    ensures { Arrived S.meaning task.0 (closing port (closing dir (entry_work_of work port dir name))) world.old progress_on result world.new }
{
    let done = work_at(world, alloc, task, port, dir, name, work);
    calls::deallocate(world, alloc, task, dir)?;
    calls::deallocate(world, alloc, task, port)?;
    Ok(Progress::Ended(done?))
}

/// Gives up a node that is held, where something was refused.
fn close_refused<S: Server>(
    world: &mut World<S>,
    alloc: Global,
    task: TaskId,
    port: u64,
    stop: Stop,
) -> Result<Progress, Stop>
    ensures refused { (errno : Errno) → stop ≡ Stop.Refused errno
        → Arrived S.meaning task.0 (closing port (gives (Err errno))) world.old progress_on result world.new }
    ensures lost { stop ≡ Stop.Memory → result ≡ Err Stop.Memory }
{
    calls::deallocate(world, alloc, task, port)?;
    Err(stop)
}

/// Goes on with a command whose second directory was opened, or waits for a server.
fn entered<S: Server>(
    world: &mut World<S>,
    alloc: Global,
    task: TaskId,
    port: u64,
    reached: Reached,
    name: Bytes,
    work: EntryWork,
) -> Result<Progress, Stop>
    ensures { Arrived S.meaning task.0 (closing port (bind (reached_on reached) (λ q. closing q (entry_work_of work port q name))))
        world.old progress_on result world.new }
{
    match reached {
        Reached::Opened(dir) => enter_and_close(world, alloc, task, port, dir, name, work),
        Reached::Waits { words, opening } => {
            let stage = Stage::Enters {
                port,
                opening,
                name,
                work,
            };
            Ok(Progress::Waits(Waiting::at(alloc, words, stage)?))
        }
    }
}

/// Opens a second directory while a node is held, and does something at a name in it.
fn enter<S: Server>(
    world: &mut World<S>,
    alloc: Global,
    task: TaskId,
    port: u64,
    place: EntryPlace,
    work: EntryWork,
) -> Result<Progress, Stop>
    ensures { Arrived S.meaning task.0 (closing port (work_of (Work.Entry work place) port)) world.old progress_on result world.new }
{
    let EntryPlace { directory, name } = place;
    match open(world, alloc, task, directory, to_enter()) {
        Ok(reached) => entered(world, alloc, task, port, reached, name, work),
        Err(stop) => close_refused(world, alloc, task, port, stop),
    }
}

/// Goes on with the opening of a second directory that was answered.
fn enter_with<S: Server>(
    world: &mut World<S>,
    alloc: Global,
    task: TaskId,
    port: u64,
    opening: Opening,
    answer: Result<(), Errno>,
    name: Bytes,
    work: EntryWork,
) -> Result<Progress, Stop>
    ensures { Arrived S.meaning task.0 (answered_on (Stage.Enters port opening name work) answer) world.old progress_on result world.new }
{
    match go_on_with(world, alloc, task, opening, answer) {
        Ok(reached) => entered(world, alloc, task, port, reached, name, work),
        Err(stop) => close_refused(world, alloc, task, port, stop),
    }
}

/// Sets a translator without a server, and gives the node up.
fn set_and_close<S: Server>(
    world: &mut World<S>,
    alloc: Global,
    task: TaskId,
    port: u64,
    setting: Setting,
    words: Words,
) -> Result<Progress, Stop>
    ensures { Arrived S.meaning task.0 (closing port (written.silent (written.set port setting words None))) world.old progress_on result world.new }
{
    let done = calls::set(world, alloc, task, port, setting, words);
    calls::deallocate(world, alloc, task, port)?;
    done?;
    Ok(Progress::Ended(prints(Vec::new(alloc))))
}

/// Gives up the node whose translator was set, or wasn't.
fn close_set<S: Server>(
    world: &mut World<S>,
    alloc: Global,
    task: TaskId,
    port: u64,
    answer: Result<(), Errno>,
) -> Result<Progress, Stop>
    ensures { Arrived S.meaning task.0 (closing port (written.silent (gives answer))) world.old progress_on result world.new }
{
    calls::deallocate(world, alloc, task, port)?;
    match answer {
        Ok(()) => Ok(Progress::Ended(prints(Vec::new(alloc)))),
        Err(errno) => Err(Stop::Refused(errno)),
    }
}

/// Sets a translator, perhaps with a server of these words, which is waited for.
fn set<S: Server>(
    world: &mut World<S>,
    alloc: Global,
    task: TaskId,
    port: u64,
    setting: Setting,
    words: Words,
    active: bool,
) -> Result<Progress, Stop>
    ensures { Arrived S.meaning task.0 (closing port (work_of (Work.Set setting words active) port)) world.old progress_on result world.new }
{
    if active && words.has_any() {
        let stage = Stage::Sets { port, setting };
        Ok(Progress::Waits(Waiting::at(alloc, words, stage)?))
    } else {
        set_and_close(world, alloc, task, port, setting, words)
    }
}

/// Does a command's work with its open node, and gives the node up; or waits for a server.
fn work_at_node<S: Server>(
    world: &mut World<S>,
    alloc: Global,
    task: TaskId,
    port: u64,
    work: Work,
) -> Result<Progress, Stop>
    ensures { Arrived S.meaning task.0 (closing port (work_of work port)) world.old progress_on result world.new }
{
    match work {
        Work::Node(work) => work_and_close(world, alloc, task, port, work),
        Work::Entry(work, place) => enter(world, alloc, task, port, place, work),
        Work::Set {
            setting,
            words,
            active,
        } => set(world, alloc, task, port, setting, words, active),
    }
}

/// Goes on with a command whose node was opened, or waits for a server.
fn opened<S: Server>(
    world: &mut World<S>,
    alloc: Global,
    task: TaskId,
    reached: Reached,
    work: Work,
) -> Result<Progress, Stop>
    ensures { Arrived S.meaning task.0 (bind (reached_on reached) (λ q. closing q (work_of work q))) world.old progress_on result world.new }
{
    match reached {
        Reached::Opened(port) => work_at_node(world, alloc, task, port, work),
        Reached::Waits { words, opening } => {
            let stage = Stage::Opens { opening, work };
            Ok(Progress::Waits(Waiting::at(alloc, words, stage)?))
        }
    }
}

/// Opens a node, does a command's work with it, and gives it up; or waits for a server.
fn with_open<S: Server>(
    world: &mut World<S>,
    alloc: Global,
    task: TaskId,
    path: Bytes,
    flags: OpenFlags,
    work: Work,
) -> Result<Progress, Stop>
    ensures { Arrived S.meaning task.0 (written.with_open path flags (work_of work)) world.old progress_on result world.new }
{
    let reached = open(world, alloc, task, path, flags)?;
    opened(world, alloc, task, reached, work)
}

/// Opens the directory of a place, does a command's work with it, and gives it up; or waits for a server.
fn in_place<S: Server>(
    world: &mut World<S>,
    alloc: Global,
    task: TaskId,
    directory: Bytes,
    work: NodeWork,
) -> Result<Progress, Stop>
    ensures { Arrived S.meaning task.0 (written.with_open directory written.to_enter (work_of (Work.Node work))) world.old progress_on result world.new }
{
    with_open(world, alloc, task, directory, to_enter(), Work::Node(work))
}

/// Begins a command.
pub(crate) fn begin<S: Server>(
    world: &mut World<S>,
    alloc: Global,
    command: &Command,
) -> Result<Progress, Stop>
    ensures { Arrived S.meaning command.now.task (written.program_of (action_of command.now)) world.old progress_on result world.new }
{
    let task = command.task();
    match command.action(alloc)? {
        Action::Cat { node } => {
            let work = Work::Node(NodeWork::Cat);
            with_open(world, alloc, task, node, OpenFlags::READ, work)
        }
        Action::Ls { node } => {
            let work = Work::Node(NodeWork::Ls);
            with_open(world, alloc, task, node, to_list(), work)
        }
        Action::Stat { node } => {
            let work = Work::Node(NodeWork::Stat);
            with_open(world, alloc, task, node, OpenFlags::NOLINK, work)
        }
        Action::Put { node, text } => {
            let work = Work::Node(NodeWork::Put(text));
            with_open(world, alloc, task, node, to_write(), work)
        }
        Action::Mkdir { place } => {
            let EntryPlace { directory, name } = place;
            in_place(world, alloc, task, directory, NodeWork::Mkdir(name))
        }
        Action::Rm { place } => {
            let EntryPlace { directory, name } = place;
            in_place(world, alloc, task, directory, NodeWork::Rm(name))
        }
        Action::Rmdir { place } => {
            let EntryPlace { directory, name } = place;
            in_place(world, alloc, task, directory, NodeWork::Rmdir(name))
        }
        Action::Ln { file, new } => {
            let work = Work::Entry(EntryWork::Ln, new);
            with_open(world, alloc, task, file, to_change(), work)
        }
        Action::Mv { old, new } => {
            let EntryPlace { directory, name } = old;
            let work = Work::Entry(EntryWork::Mv(name), new);
            with_open(world, alloc, task, directory, to_enter(), work)
        }
        Action::Chmod { mode, node } => {
            let work = Work::Node(NodeWork::Chmod(mode));
            with_open(world, alloc, task, node, to_change(), work)
        }
        Action::Chown { owner, group, node } => {
            let work = Work::Node(NodeWork::Chown(owner, group));
            with_open(world, alloc, task, node, to_change(), work)
        }
        Action::Showtrans { node } => {
            let work = Work::Node(NodeWork::Showtrans);
            with_open(world, alloc, task, node, OpenFlags::NOTRANS, work)
        }
        Action::Fsysopts { node, words } => {
            let work = Work::Node(NodeWork::Fsysopts(words));
            with_open(world, alloc, task, node, to_control(), work)
        }
        Action::Settrans { flags, node, words } => {
            let work = Work::Set {
                setting: setting_of(flags),
                words,
                active: flags.active,
            };
            with_open(world, alloc, task, node, to_set(flags), work)
        }
        Action::Usage => Ok(Progress::Ended(misused(alloc))),
    }
}

/// Goes on with a command that was answered.
pub(crate) fn resume<S: Server>(
    world: &mut World<S>,
    alloc: Global,
    task: TaskId,
    stage: Stage,
    answer: Result<(), Errno>,
) -> Result<Progress, Stop>
    ensures { Arrived S.meaning task.0 (answered_on stage answer) world.old progress_on result world.new }
{
    match stage {
        Stage::Opens { opening, work } => {
            let reached = go_on_with(world, alloc, task, opening, answer)?;
            opened(world, alloc, task, reached, work)
        }
        Stage::Enters {
            port,
            opening,
            name,
            work,
        } => enter_with(world, alloc, task, port, opening, answer, name, work),
        Stage::Sets { port, setting: _ } => close_set(world, alloc, task, port, answer),
    }
}
