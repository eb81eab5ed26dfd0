//! Ports on nodes that their ids own.
ghost use Rattle.std.specs.Prelude.{◌≡◌};
ghost use Rattle.hurd_core.specs.Core.{world_of};
ghost use Rattle.hurd_core.specs.PortNode.{named};
ghost use Rattle.hurd_fsys.specs.Owned.{owned_asks};

use hurd_core::{Core, PortNode};
use hurd_creds::{Errno, TaskId};
use hurd_trans_iface::Server;

/// The node of a port whose ids own it.
///
/// Errors, in order: `ESRCH` no such task, `EBADF` no such port, or one that controls a server, `EDIED` no such node, `EPERM` the
/// port's ids don't own it.
#[tactic(auto, unfolding(hurd_machine::specs::Plan::given, hurd_machine::specs::Plan::first))]
pub(crate) fn owned<S: Server>(core: &Core<S>, task: TaskId, port: u64) -> Result<PortNode, Errno>
    ensures { named result ≡ owned_asks (world_of S.meaning core.now) task.0 port }
{
    let found = core.port_node(task, port)?;
    if !found.right.ids.owns(&found.attrs) {
        return Err(Errno::EPERM);
    }
    Ok(found)
}
