//! Rights and ids: giving a port up, sending it, taking what was sent, and other ids for a task.
ghost use Rattle.hurd_machine.specs.Plan.{Follows, Planned, told};
ghost use Rattle.hurd_machine.specs.declared.call.Reply.TheVariants.{Done, Port};
ghost use Rattle.hurd_core.specs.Core.{world_of};
ghost use Rattle.hurd_rights.specs.Rights.{plan_deallocate, plan_makeauth, plan_receive, plan_send};

use hurd_core::Core;
use hurd_creds::{Errno, Ids, TaskId};
use hurd_trans_iface::Server;
use std::alloc::Global;

/// Gives up a port of a task, whatever its node; its open goes where no other right names it. Takes no memory.
///
/// Errors, in order: `ESRCH` no such task, `EBADF` no such port.
pub fn port_deallocate<S: Server>(core: &mut Core<S>, task: TaskId, port: u64) -> Result<(), Errno>
    ensures { let w = world_of S.meaning core.old in
        Follows w (plan_deallocate w task.0 port) (told (λ u. Done) result) (world_of S.meaning core.new) }
{
    core.drop_port(task, port)
}

/// Gives a copy of a port's right, whatever its node, to a task, last of those that it was sent; a task may send to itself.
/// The copy shares the open.
///
/// Errors, in order: `ESRCH` no such task, `EBADF` no such port, `ESRCH` no task to send it to, `ENOMEM`.
pub fn port_send<S: Server>(
    core: &mut Core<S>,
    alloc: Global,
    task: TaskId,
    port: u64,
    to: TaskId,
) -> Result<(), Errno>
    ensures { let w = world_of S.meaning core.old in
        Planned w (plan_send w task.0 port to.0) (λ u. Done) result (world_of S.meaning core.new) }
{
    core.send(alloc, task, port, to)
}

/// Takes the first right that a task was sent, as a port, under the task's next number.
///
/// Errors, in order: `ESRCH` no such task, `EWOULDBLOCK` none is left that it was sent, `EOVERFLOW` no number is left,
/// `ENOMEM`.
pub fn port_receive<S: Server>(core: &mut Core<S>, task: TaskId) -> Result<u64, Errno>
    ensures { let w = world_of S.meaning core.old in
        Planned w (plan_receive w task.0) Port result (world_of S.meaning core.new) }
{
    core.receive(task)
}

/// Gives a task other ids; those of its ports stay as they are (GNU Hurd Reference Manual, Authentication). Takes no memory.
///
/// Errors, in order: `ESRCH` no such task, `EPERM` one of them it doesn't hold, nor uid 0.
pub fn auth_makeauth<S: Server>(core: &mut Core<S>, task: TaskId, ids: Ids) -> Result<(), Errno>
    ensures { let w = world_of S.meaning core.old in
        Follows w (plan_makeauth w task.0 ids) (told (λ u. Done) result) (world_of S.meaning core.new) }
{
    if !core.ids(task)?.may_take(&ids) {
        return Err(Errno::EPERM);
    }
    core.take_ids(task, ids)
}
