//! Names for files.
ghost use Rattle.std.specs.Prelude.{◌≡◌};
ghost use Rattle.hurd_machine.specs.Plan.{Planned};
ghost use Rattle.hurd_machine.specs.declared.call.Reply.TheVariants as reply;
ghost use Rattle.hurd_core.specs.Core.{world_of};
ghost use Rattle.hurd_dirs.specs.Link.{link_asks, plan_link};

use crate::entry::{dir_asked, name_asked};
use hurd_core::Core;
use hurd_creds::{Errno, NodeName, TaskId};
use hurd_trans_iface::Server;
use std::alloc::Global;

/// A directory, and a file that is to have a name there.
#[derive(Clone, Copy, Debug)]
struct FileToName {
    dir: NodeName,
    file: NodeName,
}

/// The file that is to have a name in a port's directory.
///
/// Errors, in order: those of `Core::port_nodes`, of `name_asked`, of `dir_asked`.
#[tactic(auto, unfolding(hurd_machine::specs::Plan::first))]
fn link_asked<S: Server>(
    core: &Core<S>,
    task: TaskId,
    port: u64,
    name: &[u8],
    file: u64,
) -> Result<FileToName, Errno>
    ensures { result ≡ link_asks (world_of S.meaning core.now) task.0 port name.now file }
{
    let (dir, file) = core.port_nodes(task, port, file)?;
    name_asked(name)?;
    dir_asked(core, &dir)?;
    Ok(FileToName {
        dir: dir.right.node,
        file: file.right.node,
    })
}

/// Gives the file of a port another name in the directory of a port (`fs.defs`); the entry is the directory's last, and the
/// file has one link more. A name has at most 255 bytes.
///
/// Errors, in order: `ESRCH` no such task, `EBADF` no such port of the directory, `EBADF` none of the file, `EDIED` no such
/// directory, `EDIED` no such file, `EINVAL` no name, `ENAMETOOLONG`, `ENOTDIR`, `EROFS` the directory's server keeps no
/// tree, `EACCES` the port's ids may not search the directory, or may not write it, `ENOENT` a removed directory, `EXDEV` a
/// file of another server, `EISDIR` the file is a directory, `EEXIST`, `EOVERFLOW` the file has 4,294,967,295 links,
/// `ENOMEM`.
#[tactic(auto, unfolding(hurd_machine::specs::Plan::answered))]
pub fn dir_link<S: Server>(
    core: &mut Core<S>,
    alloc: Global,
    task: TaskId,
    port: u64,
    name: &[u8],
    file: u64,
) -> Result<(), Errno>
    ensures { let w = world_of S.meaning core.old in
        Planned w (plan_link w task.0 port name.now file) (λ u. reply.Done) result (world_of S.meaning core.new) }
{
    let named = link_asked(core, task, port, name, file)?;
    core.link(alloc, named.dir, name, named.file)
}
