//! Sizes of files, and names in directories.
ghost use Rattle.std.specs.Prelude.{◌≡◌, ◌∷◌, codes, IfOk};
ghost use Rattle.hurd_creds.specs.Memory.{Meets};
ghost use Rattle.hurd_machine.specs.Plan.{Follows, Planned, told};
ghost use Rattle.hurd_machine.specs.declared.call.Reply.TheVariants as reply;
ghost use Rattle.hurd_core.specs.Core.{world_of};
ghost use Rattle.hurd_files.specs.Files.{free_set_size, set_size_asks, plan_set_size, readdir_asks, plan_readdir};

use crate::listing::all_names;
use hurd_core::Core;
use hurd_creds::{Bytes, Errno, Kind, NodeName, OpenFlags, TaskId};
use hurd_trans_iface::{Names, Server};
use std::alloc::{AllocError, Global};

/// The node of a port that is open to write.
///
/// Errors, in order: `ESRCH`, `EBADF`, `EDIED`.
#[tactic(auto, unfolding(hurd_machine::specs::Plan::first))]
fn set_size_asked<S: Server>(core: &Core<S>, task: TaskId, port: u64) -> Result<NodeName, Errno>
    ensures { result ≡ set_size_asks (world_of S.meaning core.now) task.0 port }
{
    Ok(core.handle(task, port, OpenFlags::WRITE)?.node)
}

/// Cuts the file that a port has open to this many bytes, or grows it by zero bytes (`fs.defs`). A cut takes no memory, nor does a
/// stream.
///
/// Errors, in order: `ESRCH` no such task, `EBADF` no such port, or not opened to write, `EDIED` no such node, `EFBIG` a
/// size past 16,777,216, `ENOMEM`.
#[tactic(auto, unfolding(hurd_machine::specs::Plan::answered))]
pub fn file_set_size<S: Server>(
    core: &mut Core<S>,
    task: TaskId,
    port: u64,
    size: u64,
) -> Result<(), Errno>
    ensures planned { let w = world_of S.meaning core.old in
        Planned w (plan_set_size w task.0 port size) (λ u. reply.Done) result (world_of S.meaning core.new) }
    ensures free { let w = world_of S.meaning core.old in
        free_set_size w task.0 port size → Follows w (plan_set_size w task.0 port size) (told (λ u. reply.Done) result) (world_of S.meaning core.new) }
{
    let node = set_size_asked(core, task, port)?;
    core.set_size(node, size)
}

/// The names of the entries of a directory that a port has open to read, and those of its branches that its ids may read.
///
/// Errors, in order: `ESRCH`, `EBADF`, `EDIED`, `ENOTDIR`, `ENOMEM`.
#[tactic(auto, unfolding(hurd_machine::specs::Plan::given, hurd_machine::specs::Plan::first))]
fn readdir_asked<S: Server>(
    core: &Core<S>,
    alloc: Global,
    task: TaskId,
    port: u64,
) -> Result<Names, Errno>
    ensures { Meets (readdir_asks (world_of S.meaning core.now) task.0 port) result }
{
    let handle = core.handle(task, port, OpenFlags::READ)?;
    let Kind::Dir = handle.kind else {
        return Err(Errno::ENOTDIR);
    };
    let right = core.io_right(task, port)?;
    let own = core.names(alloc, handle.node)?;
    let branches = core.branches_at(handle.node);
    Ok(all_names(core, alloc, &right.ids, branches, own)?)
}

/// These names after `.` and `..`.
fn with_dots(alloc: Global, mut names: Names) -> Result<Names, AllocError>
    ensures { IfOk result (λ all. all ≡ codes "." ∷ codes ".." ∷ names) }
{
    names.push_front(Bytes::copied(alloc, b"..")?)?;
    names.push_front(Bytes::copied(alloc, b".")?)?;
    Ok(names)
}

/// The names in the directory that a port has open: `.`, `..`, and those of its entries, in order of making (`fs.defs`).
///
/// Of a union they are followed by the names in its branches, in order, each name once: the first of those that are the same
/// stays. A branch that is gone, is no directory, or that the port's ids may not read, has no names.
///
/// Errors, in order: `ESRCH` no such task, `EBADF` no such port, or not opened to read, `EDIED` no such node, `ENOTDIR`,
/// `ENOMEM`.
#[tactic(auto, unfolding(hurd_machine::specs::Plan::answered))]
pub fn dir_readdir<S: Server>(
    core: &Core<S>,
    alloc: Global,
    task: TaskId,
    port: u64,
) -> Result<Names, Errno>
    ensures { let w = world_of S.meaning core.now in
        Planned w (plan_readdir w task.0 port) reply.Names result w }
{
    let names = readdir_asked(core, alloc, task, port)?;
    Ok(with_dots(alloc, names)?)
}
