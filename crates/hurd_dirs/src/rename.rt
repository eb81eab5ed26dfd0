//! Entries that go to another directory, or get another name.
ghost use Rattle.std.specs.Prelude.{◌≡◌};
ghost use Rattle.hurd_creds.specs.Names.{is_one};
ghost use Rattle.hurd_nodes.specs.Shown.{header_in};
ghost use Rattle.hurd_machine.specs.Plan.{Planned};
ghost use Rattle.hurd_machine.specs.declared.call.Reply.TheVariants as reply;
ghost use Rattle.hurd_core.specs.Core.{world_of};
ghost use Rattle.hurd_core.specs.PortNode.{named_of};
ghost use Rattle.hurd_dirs.specs.Rename.{is_inside, trees_ask, leaves_asks, leaving, leaving_of, gives_way, old_asks, rename_asks, plan_rename};

use crate::entry::{may_change, may_take, name_asked};
use hurd_core::{Core, PortNode};
use hurd_creds::{Attrs, Errno, NodeName, TaskId, is_one};
use hurd_trans_iface::{Server, is_dir};
use std::alloc::Global;

/// What goes where: a node, from which directory to which, and what is there under its new name.
#[derive(Clone, Copy, Debug)]
struct Renaming {
    from: NodeName,
    to: NodeName,
    node: NodeName,
    old: Option<NodeName>,
}

/// Whether a directory is a node, or below it: whether one meets the node on the way up from it.
#[tactic(auto, using(crate::proofs::ClimbLaws::climb_step, crate::proofs::ClimbLaws::climb_end), unfolding(crate::specs::Rename::is_inside))]
fn is_inside<S: Server>(core: &Core<S>, node: NodeName, dir: NodeName) -> bool
    ensures { result ≡ is_inside (world_of S.meaning core.now) node dir }
{
    let mut at = dir;
    for _ in 0..u64::MAX {
        if at == node {
            return true;
        }
        let Some(attrs) = core.attrs(at) else {
            return false;
        };
        let Some(parent) = attrs.parent else {
            return false;
        };
        at = parent;
    }
    true
}

/// Whether entries may go from a directory to another.
///
/// Errors, in order: `ENOTDIR`, `EROFS` the server of one keeps no tree, `EXDEV` they are of different servers, `EACCES` the
/// ids of a port may not search its directory, or may not write it.
#[tactic(auto, unfolding(hurd_machine::specs::Plan::given))]
fn trees_asked<S: Server>(core: &Core<S>, from: &PortNode, to: &PortNode) -> Result<(), Errno>
    ensures { result ≡ trees_ask (world_of S.meaning core.now) (named_of from.now) (named_of to.now) }
{
    let dirs = is_dir(from.attrs.kind) && is_dir(to.attrs.kind);
    if !dirs {
        return Err(Errno::ENOTDIR);
    }
    let trees = core.keeps_tree(from.right.node) && core.keeps_tree(to.right.node);
    if !trees {
        return Err(Errno::EROFS);
    }
    if !core.are_kin(from.right.node, to.right.node) {
        return Err(Errno::EXDEV);
    }
    let may = may_change(from) && may_change(to);
    if !may {
        return Err(Errno::EACCES);
    }
    Ok(())
}

/// What goes: the node of the old name.
///
/// Errors, in order: `ENOENT` the directory that it is to go to is removed, or there is no such entry, `EDIED` no such node of
/// the directory's server, `EACCES` in a sticky directory the ids hold neither its owner nor the entry's, `EINVAL` a
/// directory into itself, or below.
#[tactic(auto, unfolding(hurd_machine::specs::Plan::on, hurd_machine::specs::Plan::given))]
fn leaves_asked<S: Server>(
    core: &Core<S>,
    from: &PortNode,
    name: &[u8],
    to: &PortNode,
) -> Result<(NodeName, Attrs), Errno>
    ensures { let w = world_of S.meaning core.now in leaving w result ≡ leaves_asks w name.now (named_of from.now) (named_of to.now) }
{
    if core.is_removed(to.right.node, &to.attrs) {
        return Err(Errno::ENOENT);
    }
    let Some(node) = core.step(from.right.node, name) else {
        return Err(Errno::ENOENT);
    };
    let Some(attrs) = core.attrs(node) else {
        return Err(Errno::EDIED);
    };
    if !core.are_kin(from.right.node, node) {
        return Err(Errno::EDIED);
    }
    if !may_take(&from.right.ids, &from.attrs, &attrs) {
        return Err(Errno::EACCES);
    }
    let inside = is_dir(attrs.kind) && is_inside(core, node, to.right.node);
    if inside {
        return Err(Errno::EINVAL);
    }
    Ok((node, attrs))
}

/// Whether what is under the new name gives way to a node of these attributes.
///
/// Errors, in order: `EDIED` no such node of the directory's server, `EACCES` in a sticky directory the ids hold neither its
/// owner nor the entry's, `ENOTDIR` a directory over none, `EISDIR` none over a directory, `EBUSY` a server is active on a
/// directory, `ENOTEMPTY`.
#[tactic(auto, unfolding(hurd_machine::specs::Plan::on, hurd_machine::specs::Plan::given))]
fn gives_way<S: Server>(
    core: &Core<S>,
    to: &PortNode,
    attrs: &Attrs,
    old: NodeName,
) -> Result<(), Errno>
    ensures { result ≡ gives_way (world_of S.meaning core.now) (named_of to.now) (header_in attrs.now) old }
{
    let Some(other) = core.attrs(old) else {
        return Err(Errno::EDIED);
    };
    if !core.are_kin(to.right.node, old) {
        return Err(Errno::EDIED);
    }
    if !may_take(&to.right.ids, &to.attrs, &other) {
        return Err(Errno::EACCES);
    }
    let dir = is_dir(attrs.kind);
    let other_dir = is_dir(other.kind);
    if dir && !other_dir {
        return Err(Errno::ENOTDIR);
    }
    if !dir && other_dir {
        return Err(Errno::EISDIR);
    }
    let busy = other_dir && core.active(old).is_some();
    if busy {
        return Err(Errno::EBUSY);
    }
    if other_dir && !other.empty {
        return Err(Errno::ENOTEMPTY);
    }
    Ok(())
}

/// Whether a node may stand under the new name: nothing does, or the node itself, or what gives way.
///
/// Errors, in order: those of `gives_way`.
fn old_asked<S: Server>(
    core: &Core<S>,
    to: &PortNode,
    node: NodeName,
    attrs: &Attrs,
    old: Option<NodeName>,
) -> Result<(), Errno>
    ensures { let w = world_of S.meaning core.now in result ≡ old_asks w (named_of to.now) (leaving_of w (node, attrs.now)) old }
{
    let Some(old) = old else {
        return Ok(());
    };
    if node == old {
        return Ok(());
    }
    gives_way(core, to, attrs, old)
}

/// What a rename is to do.
///
/// Errors, in order: those of `Core::port_nodes`, those of `name_asked` of the old name, of the new one, those of `trees_asked`, of
/// `leaves_asked`, of `old_asked`.
#[tactic(auto, unfolding(hurd_machine::specs::Plan::first))]
fn rename_asked<S: Server>(
    core: &Core<S>,
    task: TaskId,
    port: u64,
    name: &[u8],
    to: u64,
    new: &[u8],
) -> Result<Renaming, Errno>
    ensures { result ≡ rename_asks (world_of S.meaning core.now) task.0 port name.now to new.now }
{
    let (from, to) = core.port_nodes(task, port, to)?;
    name_asked(name)?;
    name_asked(new)?;
    trees_asked(core, &from, &to)?;
    let (node, attrs) = leaves_asked(core, &from, name, &to)?;
    let old = core.step(to.right.node, new);
    old_asked(core, &to, node, &attrs, old)?;
    Ok(Renaming {
        from: from.right.node,
        to: to.right.node,
        node,
        old,
    })
}

/// Takes the first entry of a name out of the directory of a port, and puts it last into the directory of another, or the
/// same, under a new name (`fs.defs`). What is there under that name gives way to it, as if it were unlinked or removed; a
/// directory gets its new parent. Where the new name names the same node, nothing changes. A name has at most 255 bytes.
///
/// Errors, in order: `ESRCH` no such task, `EBADF` no such port, `EBADF` no such other port, `EDIED` no such node of the
/// first, `EDIED` none of the other, `EINVAL` no old name, `ENAMETOOLONG` of it, `EINVAL` no new name, `ENAMETOOLONG` of it,
/// `ENOTDIR` one of the two, `EROFS` the server of one keeps no tree, `EXDEV` they are of different servers, `EACCES` the ids of a
/// port may not search its directory, or may not write it, `ENOENT` the second directory is removed, or there is no such entry,
/// `EDIED` no such node of the directory's server, `EACCES` in a sticky directory the ids hold neither its owner nor the
/// entry's, `EINVAL` a directory into itself, or below; and of another node that is under the new name: `EDIED` no such node
/// of the directory's server, `EACCES` in a sticky directory the ids hold neither its owner nor the entry's, `ENOTDIR` a directory
/// over none, `EISDIR` none over a directory, `EBUSY` a server is active on that directory, `ENOTEMPTY`; `ENOMEM`.
#[tactic(auto, unfolding(hurd_machine::specs::Plan::answered))]
pub fn dir_rename<S: Server>(
    core: &mut Core<S>,
    alloc: Global,
    task: TaskId,
    port: u64,
    name: &[u8],
    to: u64,
    new: &[u8],
) -> Result<(), Errno>
    ensures { let w = world_of S.meaning core.old in
        Planned w (plan_rename w task.0 port name.now to new.now) (λ u. reply.Done) result (world_of S.meaning core.new) }
{
    let renaming = rename_asked(core, task, port, name, to, new)?;
    let there = is_one(renaming.node, renaming.old);
    if there {
        return Ok(());
    }
    core.rename(alloc, renaming.from, name, renaming.to, new)
}
