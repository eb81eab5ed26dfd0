//! Names in directories, and who may change which entries.
ghost use Rattle.std.specs.Prelude.{◌≡◌, IfOk};
ghost use Rattle.hurd_nodes.specs.Shown.{header_in};
ghost use Rattle.hurd_trans_iface.specs.Nodes.{is_dir};
ghost use Rattle.hurd_core.specs.Core.{world_of};
ghost use Rattle.hurd_core.specs.PortNode.{IsTold, named, named_of};
ghost use Rattle.hurd_dirs.specs.Entry.{is_name, name_asks, tree_asks, may_change, change_asks, dir_asks, entry_asks, may_take};

use bitflags::Flags;
use hurd_core::{Core, PortNode};
use hurd_creds::{Attrs, Errno, Ids, MOST_NAME, Mode, TaskId, Want};
use hurd_trans_iface::{Server, is_dir};

/// Whether these bytes can be a name: there are some, none is a slash, and they are neither `.` nor `..`.
fn is_name(name: &[u8]) -> bool
    ensures { result ≡ is_name name.now }
{
    name != b"".as_slice()
        && name != b".".as_slice()
        && name != b"..".as_slice()
        && !name.contains(&b'/')
}

/// Whether an entry may have this name.
///
/// Errors, in order: `EINVAL` it is empty, `.` or `..`, or has a slash, `ENAMETOOLONG` it has more than 255 bytes.
#[tactic(auto, unfolding(hurd_machine::specs::Plan::given))]
pub(crate) fn name_asked(name: &[u8]) -> Result<(), Errno>
    ensures { result ≡ name_asks name.now }
{
    if !is_name(name) {
        return Err(Errno::EINVAL);
    }
    if name.len() > MOST_NAME {
        return Err(Errno::ENAMETOOLONG);
    }
    Ok(())
}

/// Whether a node is a directory of a tree.
///
/// Errors, in order: `ENOTDIR`, `EROFS` its server keeps no tree.
#[tactic(auto, unfolding(hurd_machine::specs::Plan::given))]
pub(crate) fn tree_asked<S: Server>(core: &Core<S>, node: &PortNode) -> Result<(), Errno>
    ensures { result ≡ tree_asks (world_of S.meaning core.now) (named_of node.now) }
{
    if !is_dir(node.attrs.kind) {
        return Err(Errno::ENOTDIR);
    }
    if !core.keeps_tree(node.right.node) {
        return Err(Errno::EROFS);
    }
    Ok(())
}

/// Whether the ids of a port may search and write its node.
pub(crate) fn may_change(node: &PortNode) -> bool
    ensures { result ≡ may_change (named_of node.now) }
{
    let ids = &node.right.ids;
    ids.may(&node.attrs, Want::Exec) && ids.may(&node.attrs, Want::Write)
}

/// Whether the entries of a port's directory may be changed.
///
/// Errors, in order: `EACCES` the port's ids may not search it, or may not write it, `ENOENT` it is removed.
#[tactic(auto, unfolding(hurd_machine::specs::Plan::given))]
pub(crate) fn change_asked<S: Server>(core: &Core<S>, node: &PortNode) -> Result<(), Errno>
    ensures { result ≡ change_asks (world_of S.meaning core.now) (named_of node.now) }
{
    if !may_change(node) {
        return Err(Errno::EACCES);
    }
    if core.is_removed(node.right.node, &node.attrs) {
        return Err(Errno::ENOENT);
    }
    Ok(())
}

/// Whether a node is a directory in which entries may be made, changed and taken away.
///
/// Errors, in order: `ENOTDIR`, `EROFS` its server keeps no tree, `EACCES` the port's ids may not search it, or may not
/// write it, `ENOENT` it is removed.
#[tactic(auto, unfolding(hurd_machine::specs::Plan::first))]
pub(crate) fn dir_asked<S: Server>(core: &Core<S>, node: &PortNode) -> Result<(), Errno>
    ensures { result ≡ dir_asks (world_of S.meaning core.now) (named_of node.now) }
{
    tree_asked(core, node)?;
    change_asked(core, node)
}

/// The directory of a port, in which an entry of this name may be made, changed or taken away.
///
/// Errors, in order: `ESRCH` no such task, `EBADF` no such port, `EDIED` no such node, those of `name_asked`, those of
/// `dir_asked`.
#[tactic(auto, unfolding(hurd_machine::specs::Plan::first))]
pub(crate) fn entry_asked<'a, S: Server>(
    core: &'a Core<S>,
    task: TaskId,
    port: u64,
    name: &[u8],
) -> Result<PortNode<'a>, Errno>
    ensures is { named result ≡ entry_asks (world_of S.meaning core.entry.now) task.0 port name.now }
    ensures told { IfOk result IsTold }
{
    let node = core.port_node(task, port)?;
    name_asked(name)?;
    dir_asked(core, &node)?;
    Ok(node)
}

/// Whether ids may take an entry out of a directory: out of a sticky one only uid 0, the directory's owner or the entry's
/// own owner may.
pub(crate) fn may_take(ids: &Ids, dir: &Attrs, entry: &Attrs) -> bool
    ensures { result ≡ may_take ids.now (header_in dir.now) (header_in entry.now) }
{
    !dir.mode.contains(Mode::STICKY) || ids.owns(dir) || ids.owns(entry)
}
