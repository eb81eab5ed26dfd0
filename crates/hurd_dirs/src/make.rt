//! Making directories.
ghost use Rattle.std.specs.Prelude.{◌≡◌};
ghost use Rattle.hurd_machine.specs.Plan.{Planned};
ghost use Rattle.hurd_machine.specs.declared.call.Reply.TheVariants as reply;
ghost use Rattle.hurd_core.specs.Core.{world_of};
ghost use Rattle.hurd_dirs.specs.Make.{mkdir_asks, plan_mkdir, to_make};

use crate::entry::entry_asked;
use hurd_core::{Core, NodeToMake};
use hurd_creds::{Errno, Mode, TaskId};
use hurd_trans_iface::Server;
use std::alloc::Global;

/// The directory that is to be made under a name in a port's directory: the least uid's of the port.
///
/// Errors, in order: those of `entry_asked`, `EACCES` the port has no uids, `EEXIST`.
#[tactic(auto, unfolding(hurd_machine::specs::Plan::on, hurd_machine::specs::Plan::given, hurd_machine::specs::Plan::first))]
fn mkdir_asked<'n, S: Server>(
    core: &Core<S>,
    task: TaskId,
    port: u64,
    name: &'n [u8],
    mode: Mode,
) -> Result<NodeToMake<'n>, Errno>
    ensures { to_make result ≡ mkdir_asks (world_of S.meaning core.now) task.0 port name.entry.now mode }
{
    let above = entry_asked(core, task, port, name)?;
    let dir = above.right.node;
    let Some(owner) = above.right.ids.least_uid() else {
        return Err(Errno::EACCES);
    };
    if core.step(dir, name).is_some() {
        return Err(Errno::EEXIST);
    }
    Ok(NodeToMake {
        dir,
        entry: Some(name),
        owner,
        group: above.attrs.group,
        mode: mode.known(),
    })
}

/// Makes a directory under a name in the directory of a port (`fs.defs`). It belongs to the least uid of the port and to the
/// group of that directory, has the known bits of the mode, and is the last entry; it isn't opened. A name has at most 255
/// bytes.
///
/// Errors, in order: `ESRCH` no such task, `EBADF` no such port, `EDIED` no such node, `EINVAL` no name, `ENAMETOOLONG`,
/// `ENOTDIR`, `EROFS` its server keeps no tree, `EACCES` the port's ids may not search the directory, or may not write it,
/// `ENOENT` a removed directory, `EACCES` the port has no uids, `EEXIST`, `EOVERFLOW` the task can name nothing more,
/// `ENOMEM`.
#[tactic(auto, unfolding(hurd_machine::specs::Plan::answered))]
pub fn dir_mkdir<S: Server>(
    core: &mut Core<S>,
    alloc: Global,
    task: TaskId,
    port: u64,
    name: &[u8],
    mode: Mode,
) -> Result<(), Errno>
    ensures { let w = world_of S.meaning core.old in
        Planned w (plan_mkdir w task.0 port name.now mode) (λ u. reply.Done) result (world_of S.meaning core.new) }
{
    let dir = mkdir_asked(core, task, port, name, mode)?;
    core.make_dir(alloc, task, dir)
}
