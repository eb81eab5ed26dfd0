//! Taking entries out of directories.
ghost use Rattle.std.specs.Prelude.{◌≡◌, IfOk};
ghost use Rattle.hurd_machine.specs.World.{body_at};
ghost use Rattle.hurd_machine.specs.Plan.{Follows, told};
ghost use Rattle.hurd_machine.specs.declared.call.Reply.TheVariants as reply;
ghost use Rattle.hurd_core.specs.Core.{world_of};
ghost use Rattle.hurd_dirs.specs.Remove.{entered, found_asks, is_empty_at, plan_rmdir, plan_unlink, rmdir_asks, taking_asks, unlink_asks};

use crate::entry::{entry_asked, may_take};
use hurd_core::Core;
use hurd_creds::{Attrs, Errno, NodeName, TaskId};
use hurd_trans_iface::{Server, is_dir};

/// An entry: its directory, and the node that it names, with that one's attributes.
#[derive(Drop)]
pub(crate) struct EntryNode {
    dir: NodeName,
    node: NodeName,
    attrs: Attrs,
}

/// The first entry of a name in a directory, which names a node of the directory's server.
///
/// Errors, in order: `ENOENT`, `EDIED` no such node of that server.
#[tactic(auto, unfolding(hurd_machine::specs::Plan::on, hurd_machine::specs::Plan::given))]
fn found_asked<S: Server>(core: &Core<S>, dir: NodeName, name: &[u8]) -> Result<EntryNode, Errno>
    ensures is { let w = world_of S.meaning core.now in entered w result ≡ found_asks w dir name.now }
    ensures empty { IfOk result (λ x. x.attrs.empty ≡ is_empty_at (body_at (world_of S.meaning core.now) x.node)) }
{
    let Some(node) = core.step(dir, name) else {
        return Err(Errno::ENOENT);
    };
    let Some(attrs) = core.attrs(node) else {
        return Err(Errno::EDIED);
    };
    if !core.are_kin(dir, node) {
        return Err(Errno::EDIED);
    }
    Ok(EntryNode { dir, node, attrs })
}

/// An entry that the ids of a port may take out of its directory.
///
/// Errors, in order: those of `entry_asked`, those of `found_asked`, `EACCES` in a sticky directory the ids hold neither
/// its owner nor the entry's.
#[tactic(auto, unfolding(hurd_machine::specs::Plan::given, hurd_machine::specs::Plan::first))]
fn taking_asked<S: Server>(
    core: &Core<S>,
    task: TaskId,
    port: u64,
    name: &[u8],
) -> Result<EntryNode, Errno>
    ensures is { let w = world_of S.meaning core.now in entered w result ≡ taking_asks w task.0 port name.now }
    ensures empty { IfOk result (λ x. x.attrs.empty ≡ is_empty_at (body_at (world_of S.meaning core.now) x.node)) }
{
    let dir = entry_asked(core, task, port, name)?;
    let entry = found_asked(core, dir.right.node, name)?;
    if !may_take(&dir.right.ids, &dir.attrs, &entry.attrs) {
        return Err(Errno::EACCES);
    }
    Ok(entry)
}

/// The entry that is to be unlinked.
///
/// Errors, in order: those of `taking_asked`, `EISDIR`.
#[tactic(auto, unfolding(hurd_machine::specs::Plan::given, hurd_machine::specs::Plan::first))]
fn unlink_asked<S: Server>(
    core: &Core<S>,
    task: TaskId,
    port: u64,
    name: &[u8],
) -> Result<EntryNode, Errno>
    ensures { let w = world_of S.meaning core.now in entered w result ≡ unlink_asks w task.0 port name.now }
{
    let entry = taking_asked(core, task, port, name)?;
    if is_dir(entry.attrs.kind) {
        return Err(Errno::EISDIR);
    }
    Ok(entry)
}

/// Takes the first entry of a name out of the directory of a port (`fs.defs`). It names no directory; what it names has one
/// link less, and goes with its last link, unless a port is on it. Takes no memory.
///
/// Errors, in order: `ESRCH` no such task, `EBADF` no such port, `EDIED` no such node, `EINVAL` no name, `ENAMETOOLONG`,
/// `ENOTDIR`, `EROFS` its server keeps no tree, `EACCES` the port's ids may not search the directory, or may not write it,
/// `ENOENT` a removed directory, or no such entry, `EDIED` no such node of the directory's server, `EACCES` in a sticky
/// directory the ids hold neither its owner nor the entry's, `EISDIR`.
#[tactic(auto, unfolding(hurd_machine::specs::Plan::answered))]
pub fn dir_unlink<S: Server>(
    core: &mut Core<S>,
    task: TaskId,
    port: u64,
    name: &[u8],
) -> Result<(), Errno>
    ensures { let w = world_of S.meaning core.old in
        Follows w (plan_unlink w task.0 port name.now) (told (λ u. reply.Done) result) (world_of S.meaning core.new) }
{
    let entry = unlink_asked(core, task, port, name)?;
    core.unlink(entry.dir, name)
}

/// The entry of the directory that is to be removed.
///
/// Errors, in order: those of `taking_asked`, `ENOTDIR`, `EBUSY` a server is active on it, `ENOTEMPTY`.
#[tactic(auto, unfolding(hurd_machine::specs::Plan::given, hurd_machine::specs::Plan::first))]
fn rmdir_asked<S: Server>(
    core: &Core<S>,
    task: TaskId,
    port: u64,
    name: &[u8],
) -> Result<EntryNode, Errno>
    ensures { let w = world_of S.meaning core.now in entered w result ≡ rmdir_asks w task.0 port name.now }
{
    let entry = taking_asked(core, task, port, name)?;
    if !is_dir(entry.attrs.kind) {
        return Err(Errno::ENOTDIR);
    }
    if core.active(entry.node).is_some() {
        return Err(Errno::EBUSY);
    }
    if !entry.attrs.empty {
        return Err(Errno::ENOTEMPTY);
    }
    Ok(entry)
}

/// Removes the directory of a name from the directory of a port (`fs.defs`). It has no entries, no server is active on it, and
/// it loses its parent; it goes, unless a port is on it. Takes no memory.
///
/// Errors, in order: `ESRCH` no such task, `EBADF` no such port, `EDIED` no such node, `EINVAL` no name, `ENAMETOOLONG`,
/// `ENOTDIR`, `EROFS` its server keeps no tree, `EACCES` the port's ids may not search the directory, or may not write it,
/// `ENOENT` a removed directory, or no such entry, `EDIED` no such node of the directory's server, `EACCES` in a sticky
/// directory the ids hold neither its owner nor the entry's, `ENOTDIR` what the entry names, `EBUSY` a server is active on it,
/// `ENOTEMPTY`.
#[tactic(auto, unfolding(hurd_machine::specs::Plan::answered))]
pub fn dir_rmdir<S: Server>(
    core: &mut Core<S>,
    task: TaskId,
    port: u64,
    name: &[u8],
) -> Result<(), Errno>
    ensures { let w = world_of S.meaning core.old in
        Follows w (plan_rmdir w task.0 port name.now) (told (λ u. reply.Done) result) (world_of S.meaning core.new) }
{
    let entry = rmdir_asked(core, task, port, name)?;
    core.unlink(entry.dir, name)
}
