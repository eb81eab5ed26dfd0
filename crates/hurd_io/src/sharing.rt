//! Ports that share an open, and whether two are on one node.
ghost use Rattle.hurd_machine.specs.Plan.{Follows, Planned, told};
ghost use Rattle.hurd_machine.specs.declared.call.Reply.TheVariants as reply;
ghost use Rattle.hurd_core.specs.Core.{world_of};
ghost use Rattle.hurd_io.specs.Sharing.{plan_duplicate, plan_identity, plan_reauthenticate, plan_restrict_auth};

use hurd_core::Core;
use hurd_creds::{Errno, Ids, TaskId};
use hurd_ports::Right;
use hurd_trans_iface::Server;
use std::alloc::Global;

/// Makes another port like this one, with its ids; the two share the open (`io.defs`).
///
/// Errors, in order: `ESRCH` no such task, `EBADF` no such port, `EDIED` no such node, `EOVERFLOW` no number is left, `ENOMEM`.
#[tactic(auto, unfolding(hurd_machine::specs::Plan::answered, hurd_machine::specs::Plan::first, hurd_machine::specs::Plan::on, hurd_machine::specs::Plan::given))]
pub fn io_duplicate<S: Server>(
    core: &mut Core<S>,
    alloc: Global,
    task: TaskId,
    port: u64,
) -> Result<u64, Errno>
    ensures { let w = world_of S.meaning core.old in
        Planned w (plan_duplicate w task.0 port) reply.Port result (world_of S.meaning core.new) }
{
    let right = core.port_node(task, port)?.right;
    core.room(task, 0)?;
    let right = right.copied(alloc)?;
    core.share(task, Right::Io(right))
}

/// Makes another port like this one, with the task's ids; the two share the open (`io.defs`; GNU Hurd Reference Manual,
/// Authentication).
///
/// Errors, in order: `ESRCH` no such task, `EBADF` no such port, `EDIED` no such node, `EOVERFLOW` no number is left, `ENOMEM`.
#[tactic(auto, unfolding(hurd_machine::specs::Plan::answered, hurd_machine::specs::Plan::first, hurd_machine::specs::Plan::on, hurd_machine::specs::Plan::given))]
pub fn io_reauthenticate<S: Server>(
    core: &mut Core<S>,
    alloc: Global,
    task: TaskId,
    port: u64,
) -> Result<u64, Errno>
    ensures { let w = world_of S.meaning core.old in
        Planned w (plan_reauthenticate w task.0 port) reply.Port result (world_of S.meaning core.new) }
{
    let right = core.port_node(task, port)?.right;
    core.room(task, 0)?;
    let ids = core.ids(task)?.copied(alloc)?;
    let right = right.with_ids(alloc, ids)?;
    core.share(task, Right::Io(right))
}

/// Makes another port like this one, with those of the ids asked for that it has; with uid 0 it has all. The two share the
/// open (`io.defs`).
///
/// Errors, in order: `ESRCH` no such task, `EBADF` no such port, `EDIED` no such node, `EOVERFLOW` no number is left, `ENOMEM`.
#[tactic(auto, unfolding(hurd_machine::specs::Plan::answered, hurd_machine::specs::Plan::first, hurd_machine::specs::Plan::on, hurd_machine::specs::Plan::given))]
pub fn io_restrict_auth<S: Server>(
    core: &mut Core<S>,
    alloc: Global,
    task: TaskId,
    port: u64,
    ids: Ids,
) -> Result<u64, Errno>
    ensures { let w = world_of S.meaning core.old in
        Planned w (plan_restrict_auth w task.0 port ids) reply.Port result (world_of S.meaning core.new) }
{
    let right = core.port_node(task, port)?.right;
    core.room(task, 0)?;
    let ids = right.ids.restrict(alloc, &ids)?;
    let right = right.with_ids(alloc, ids)?;
    core.share(task, Right::Io(right))
}

/// Whether two ports are on one node (`io.defs`). Takes no memory.
///
/// Errors, in order: `ESRCH` no such task, `EBADF` no such first port, `EBADF` no such second one, `EDIED` the first one's
/// node isn't there, `EDIED` the second one's isn't.
#[tactic(auto, unfolding(hurd_machine::specs::Plan::answered))]
pub fn io_identity<S: Server>(
    core: &Core<S>,
    task: TaskId,
    port: u64,
    other: u64,
) -> Result<bool, Errno>
    ensures { let w = world_of S.meaning core.now in Follows w (plan_identity w task.0 port other) (told reply.Same result) w }
{
    let (node, other) = core.port_nodes(task, port, other)?;
    Ok(node.right.node == other.right.node)
}
