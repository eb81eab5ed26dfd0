//! Making files that no entry names.
ghost use Rattle.std.specs.Prelude.{◌≡◌};
ghost use Rattle.hurd_machine.specs.Plan.{Planned};
ghost use Rattle.hurd_machine.specs.declared.call.Reply.TheVariants as reply;
ghost use Rattle.hurd_core.specs.Core.{world_of};
ghost use Rattle.hurd_dirs.specs.File.{mkfile_asks, plan_mkfile, by_named};

use crate::entry::dir_asked;
use hurd_core::{Core, NodeToMake, PortNode};
use hurd_creds::{Errno, Mode, OpenFlags, TaskId};
use hurd_trans_iface::Server;
use std::alloc::Global;

/// A file that is to be made, and the port of the directory whose server is to make it.
#[derive(Clone, Copy, Debug)]
struct FileToMake<'a> {
    above: PortNode<'a>,
    file: NodeToMake<'static>,
}

/// The file that is to be made of a port's directory's server: the least uid's of the port.
///
/// Errors, in order: `ESRCH` no such task, `EBADF` no such port, `EDIED` no such node, those of `dir_asked`, `EACCES` the
/// port has no uids.
#[tactic(auto, unfolding(hurd_machine::specs::Plan::on, hurd_machine::specs::Plan::first))]
fn mkfile_asked<'a, S: Server>(
    core: &'a Core<S>,
    task: TaskId,
    port: u64,
    mode: Mode,
) -> Result<FileToMake<'a>, Errno>
    ensures { by_named result ≡ mkfile_asks (world_of S.meaning core.entry.now) task.0 port mode }
{
    let above = core.port_node(task, port)?;
    dir_asked(core, &above)?;
    let Some(owner) = above.right.ids.least_uid() else {
        return Err(Errno::EACCES);
    };
    let file = NodeToMake {
        dir: above.right.node,
        entry: None,
        owner,
        group: above.attrs.group,
        mode: mode.known(),
    };
    Ok(FileToMake { above, file })
}

/// Makes a file that no entry names, of the server of a port's directory, and opens it with the port's ids, without a test
/// of its mode (`fs.defs`). It belongs to the least uid of the port and to the group of that directory, has the known bits
/// of the mode and no links; it stays while a right is on it, or once `dir_link` gave it a name.
///
/// Errors, in order: `ESRCH` no such task, `EBADF` no such port, `EDIED` no such node, `ENOTDIR`, `EROFS` its server keeps
/// no tree, `EACCES` the port's ids may not search the directory, or may not write it, `ENOENT` a removed directory,
/// `EACCES` the port has no uids, `EOVERFLOW` the task can have no port more, or can't name two things more, `ENOMEM`.
#[tactic(auto, unfolding(hurd_machine::specs::Plan::answered))]
pub fn dir_mkfile<S: Server>(
    core: &mut Core<S>,
    alloc: Global,
    task: TaskId,
    port: u64,
    flags: OpenFlags,
    mode: Mode,
) -> Result<u64, Errno>
    ensures { let w = world_of S.meaning core.old in
        Planned w (plan_mkfile w task.0 port flags mode) reply.Port result (world_of S.meaning core.new) }
{
    let made = mkfile_asked(core, task, port, mode)?;
    let file = made.file;
    core.can_make_file(task, &file)?;
    let ids = made.above.right.ids.copied(alloc)?;
    let parents = made.above.right.parents.copied(alloc)?;
    core.make_file(alloc, task, file, ids, parents, flags.open_modes())
}
