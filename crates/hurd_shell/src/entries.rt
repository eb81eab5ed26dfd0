//! What commands do with an entry of a second directory.
ghost use Rattle.hurd_shell.specs.Progress.{Ran};
ghost use Rattle.hurd_shell.specs.Stages.{entry_change_of, entry_work_of};

use crate::calls;
use crate::commands::{Printed, prints};
use crate::fault::Stop;
use hurd_creds::{Bytes, TaskId};
use hurd_trans_iface::Server;
use hurd_world::World;
use std::alloc::Global;

/// What a command does at a name of a second directory, while it holds an open node.
#[derive(Debug, Drop)]
pub(crate) enum EntryWork {
    /// The open file gets the name.
    Ln,
    /// The entry of this name comes here from the open directory.
    Mv(Bytes),
}

/// Makes a change at a name of an open directory, while a node is held.
fn change<S: Server>(
    world: &mut World<S>,
    alloc: Global,
    task: TaskId,
    held: u64,
    dir: u64,
    name: Bytes,
    work: EntryWork,
) -> Result<(), Stop>
    ensures { Ran S.meaning task.0 (entry_change_of work held dir name) world.old result world.new }
{
    match work {
        EntryWork::Ln => calls::link(world, alloc, task, dir, name, held),
        EntryWork::Mv(old) => calls::rename(world, alloc, task, held, old, dir, name),
    }
}

/// Makes a change at a name of an open directory, while a node is held, and prints nothing.
pub(crate) fn work_at<S: Server>(
    world: &mut World<S>,
    alloc: Global,
    task: TaskId,
    held: u64,
    dir: u64,
    name: Bytes,
    work: EntryWork,
) -> Result<Printed, Stop>
    ensures { Ran S.meaning task.0 (entry_work_of work held dir name) world.old result world.new }
{
    change(world, alloc, task, held, dir, name, work)?;
    Ok(prints(Vec::new(alloc)))
}
