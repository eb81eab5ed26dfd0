//! What ids may do with a node, and its owner, group and mode.
ghost use Rattle.std.specs.Prelude.{◌≡◌};
ghost use Rattle.hurd_creds.specs.Access.{owns};
ghost use Rattle.hurd_machine.specs.Plan.{Follows, told};
ghost use Rattle.hurd_machine.specs.declared.call.Reply.TheVariants as reply;
ghost use Rattle.hurd_core.specs.Core.{world_of};
ghost use Rattle.hurd_core.specs.PortNode.{named};
ghost use Rattle.hurd_files.specs.Access.{plan_check_access, setting_asks, plan_chmod, gives, plan_chown};

use hurd_core::{Core, PortNode};
use hurd_creds::{Errno, Mode, OpenFlags, TaskId};
use hurd_trans_iface::{HeaderEdit, Server};

/// Those of `READ`, `WRITE` and `EXEC` that the ids of a port may, of its node, whatever the port has it open for
/// (`fs.defs`). Takes no memory.
///
/// Errors, in order: `ESRCH` no such task, `EBADF` no such port, `EDIED` no such node.
#[tactic(auto, unfolding(hurd_machine::specs::Plan::answered))]
pub fn file_check_access<S: Server>(
    core: &Core<S>,
    task: TaskId,
    port: u64,
) -> Result<OpenFlags, Errno>
    ensures { let w = world_of S.meaning core.now in Follows w (plan_check_access w task.0 port) (told reply.Modes result) w }
{
    let named = core.port_node(task, port)?;
    Ok(named.right.ids.access(&named.attrs))
}

/// The node of a port whose attributes may be set, by ids that own it.
///
/// Errors, in order: `ESRCH`, `EBADF`, `EDIED`, `EOPNOTSUPP`, `EPERM`.
#[tactic(auto, unfolding(hurd_machine::specs::Plan::given, hurd_machine::specs::Plan::first))]
fn chmod_asked<S: Server>(core: &Core<S>, task: TaskId, port: u64) -> Result<PortNode, Errno>
    ensures { named result ≡ setting_asks (world_of S.meaning core.now) task.0 port owns }
{
    let named = core.port_node(task, port)?;
    core.can_set_attrs(named.right.node)?;
    if !named.right.ids.owns(&named.attrs) {
        return Err(Errno::EPERM);
    }
    Ok(named)
}

/// Sets the mode of the node of a port to the known bits of this one; its owner and its group stay (`fs.defs`). Takes no
/// memory.
///
/// Errors, in order: `ESRCH` no such task, `EBADF` no such port, `EDIED` no such node, `EOPNOTSUPP` its server keeps no
/// tree, `EPERM` the port's ids hold neither the node's owner nor uid 0.
#[tactic(auto, unfolding(hurd_machine::specs::Plan::answered))]
pub fn file_chmod<S: Server>(
    core: &mut Core<S>,
    task: TaskId,
    port: u64,
    mode: Mode,
) -> Result<(), Errno>
    ensures { let w = world_of S.meaning core.old in
        Follows w (plan_chmod w task.0 port mode) (told (λ u. reply.Done) result) (world_of S.meaning core.new) }
{
    let named = chmod_asked(core, task, port)?;
    let (node, attrs) = (named.right.node, named.attrs);
    let edit = HeaderEdit::SetAttrs {
        owner: attrs.owner,
        group: attrs.group,
        mode: mode.known(),
    };
    core.edit_header(node, edit)
}

/// The node of a port whose attributes may be set, by ids that may give it to this owner and group.
///
/// Errors, in order: `ESRCH`, `EBADF`, `EDIED`, `EOPNOTSUPP`, `EPERM`.
#[tactic(auto, unfolding(hurd_machine::specs::Plan::given, hurd_machine::specs::Plan::first))]
fn chown_asked<S: Server>(
    core: &Core<S>,
    task: TaskId,
    port: u64,
    owner: u32,
    group: u32,
) -> Result<PortNode, Errno>
    ensures { named result ≡ setting_asks (world_of S.meaning core.now) task.0 port (gives owner group) }
{
    let named = core.port_node(task, port)?;
    core.can_set_attrs(named.right.node)?;
    if !named.right.ids.may_give(&named.attrs, owner, group) {
        return Err(Errno::EPERM);
    }
    Ok(named)
}

/// Gives the node of a port to an owner and a group; its mode stays (`fs.defs`). Takes no memory.
///
/// Errors, in order: `ESRCH` no such task, `EBADF` no such port, `EDIED` no such node, `EOPNOTSUPP` its server keeps no
/// tree, `EPERM` unless the port's ids hold uid 0, or the node's owner who keeps it, with its present group or one of the
/// port's gids.
#[tactic(auto, unfolding(hurd_machine::specs::Plan::answered))]
pub fn file_chown<S: Server>(
    core: &mut Core<S>,
    task: TaskId,
    port: u64,
    owner: u32,
    group: u32,
) -> Result<(), Errno>
    ensures { let w = world_of S.meaning core.old in
        Follows w (plan_chown w task.0 port owner group) (told (λ u. reply.Done) result) (world_of S.meaning core.new) }
{
    let named = chown_asked(core, task, port, owner, group)?;
    let (node, mode) = (named.right.node, named.attrs.mode);
    core.edit_header(node, HeaderEdit::SetAttrs { owner, group, mode })
}
