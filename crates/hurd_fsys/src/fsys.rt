//! Sending servers away, getting control of them, and their options (`fsys.defs`, `fs.defs`).
ghost use Rattle.std.specs.Prelude.{◌≡◌, []};
ghost use Rattle.hurd_machine.specs.Plan.{Follows, Planned, told};
ghost use Rattle.hurd_machine.specs.declared.call.Reply.TheVariants.{Done, Port};
ghost use Rattle.hurd_machine.specs.declared.call.Reply.TheVariants as reply;
ghost use Rattle.hurd_core.specs.Core.{world_of};
ghost use Rattle.hurd_fsys.specs.Fsys.{goaway_asks, may_control, options_asks, plan_cntl, plan_get_options, plan_getcontrol, plan_goaway, plan_set_options, seated_asks, served_asks};

use crate::owned::owned;
use hurd_core::Core;
use hurd_creds::{Errno, GoawayFlags, Ids, ServerName, TaskId};
use hurd_nodes::BOOT_NAME;
use hurd_ports::Right;
use hurd_trans_iface::{Server, Words};
use std::alloc::Global;

/// Sends the server away that a port controls, with its nodes. Takes no memory.
///
/// Errors, in order: `ESRCH` no such task, `EBADF` no such port, or one to use a node, `EDIED` the server is gone, `EBUSY` the boot
/// server, or one that has users, without `FORCE`.
#[tactic(auto, unfolding(hurd_machine::specs::Plan::answered))]
pub fn fsys_goaway<S: Server>(
    core: &mut Core<S>,
    task: TaskId,
    control: u64,
    flags: GoawayFlags,
) -> Result<(), Errno>
    ensures { let w = world_of S.meaning core.old in
        Follows w (plan_goaway w task.0 control flags) (told (λ u. Done) result) (world_of S.meaning core.new) }
{
    let server = who_may_go(core, task, control, flags)?;
    core.send_away(server);
    Ok(())
}

/// The server that a port controls, if it may be sent away.
///
/// Errors, in order: those of `fsys_goaway`.
#[tactic(auto, unfolding(hurd_machine::specs::Plan::on, hurd_machine::specs::Plan::given, hurd_machine::specs::Plan::first))]
fn who_may_go<S: Server>(
    core: &Core<S>,
    task: TaskId,
    control: u64,
    flags: GoawayFlags,
) -> Result<ServerName, Errno>
    ensures { result ≡ goaway_asks (world_of S.meaning core.now) task.0 control flags }
{
    let server = core.control(task, control)?;
    if core.root_of(server).is_none() {
        return Err(Errno::EDIED);
    }
    if server == BOOT_NAME {
        return Err(Errno::EBUSY);
    }
    if flags.asks(GoawayFlags::FORCE) {
        return Ok(server);
    }
    if core.users(server) > 0 {
        return Err(Errno::EBUSY);
    }
    Ok(server)
}

/// A port that controls the server which is active on a port's node, for who owns that node.
///
/// Errors, in order: `ESRCH` no such task, `EBADF` no such port, or one that controls a server, `EDIED` no such node, `EPERM` the
/// port's ids don't own it, `ENXIO` no server is active on it, `EOVERFLOW`, `ENOMEM`.
#[tactic(auto, unfolding(hurd_machine::specs::Plan::answered))]
pub fn file_get_translator_cntl<S: Server>(
    core: &mut Core<S>,
    task: TaskId,
    port: u64,
) -> Result<u64, Errno>
    ensures { let w = world_of S.meaning core.old in
        Planned w (plan_cntl w task.0 port) Port result (world_of S.meaning core.new) }
{
    let server = seated(core, task, port)?;
    core.share(task, Right::Control(server))
}

/// The server that is active on a port's node, which the port's ids own.
///
/// Errors, in order: those of `file_get_translator_cntl` but the last two.
#[tactic(auto, unfolding(hurd_machine::specs::Plan::on, hurd_machine::specs::Plan::given, hurd_machine::specs::Plan::first))]
fn seated<S: Server>(core: &Core<S>, task: TaskId, port: u64) -> Result<ServerName, Errno>
    ensures { result ≡ seated_asks (world_of S.meaning core.now) task.0 port }
{
    let found = owned(core, task, port)?;
    core.active(found.right.node).ok_or(Errno::ENXIO)
}

/// A port that controls the server of a port's node, for who holds that server's uid, or 0.
///
/// Errors, in order: `ESRCH` no such task, `EBADF` no such port, or one that controls a server, `EDIED` no such node, `EPERM` the
/// port's ids hold neither the server's uid nor 0, `EOVERFLOW`, `ENOMEM`.
#[tactic(auto, unfolding(hurd_machine::specs::Plan::answered))]
pub fn file_getcontrol<S: Server>(core: &mut Core<S>, task: TaskId, port: u64) -> Result<u64, Errno>
    ensures { let w = world_of S.meaning core.old in
        Planned w (plan_getcontrol w task.0 port) Port result (world_of S.meaning core.new) }
{
    let server = served(core, task, port)?;
    core.share(task, Right::Control(server))
}

/// The server of a port's node, which the port's ids may control.
///
/// Errors, in order: those of `file_getcontrol` but the last two.
#[tactic(auto, unfolding(hurd_machine::specs::Plan::on, hurd_machine::specs::Plan::given, hurd_machine::specs::Plan::first))]
fn served<S: Server>(core: &Core<S>, task: TaskId, port: u64) -> Result<ServerName, Errno>
    ensures { result ≡ served_asks (world_of S.meaning core.now) task.0 port }
{
    let found = core.port_node(task, port)?;
    let Some(server) = core.home(found.right.node) else {
        return Err(Errno::EDIED);
    };
    let Some(ids) = core.server_ids(server) else {
        return Err(Errno::EDIED);
    };
    if !may_control(&found.right.ids, ids) {
        return Err(Errno::EPERM);
    }
    Ok(server)
}

/// Whether ids may control a server of these ids: they hold its uid, or 0.
fn may_control(ids: &Ids, served: &Ids) -> bool
    ensures { result ≡ may_control ids.now served.now }
{
    ids.is_root()
        || match served.least_uid() {
            Some(uid) => ids.holds_uid(uid),
            None => false,
        }
}

/// The program and the words of the server that a port controls.
///
/// Errors, in order: `ESRCH` no such task, `EBADF` no such port, or one to use a node, `EDIED` the server is gone, `ENOMEM`.
#[tactic(auto, unfolding(hurd_machine::specs::Plan::on, hurd_machine::specs::Plan::first, hurd_machine::specs::Plan::answered))]
pub fn fsys_get_options<S: Server>(
    core: &Core<S>,
    alloc: Global,
    task: TaskId,
    control: u64,
) -> Result<Words, Errno>
    ensures { let w = world_of S.meaning core.now in
        Planned w (plan_get_options w task.0 control) reply.Words result w }
{
    let server = core.control(task, control)?;
    core.options(alloc, server)
}

/// Gives options to the server that a port controls. Without words nothing changes, and no memory is taken.
///
/// Errors, in order: `ESRCH` no such task, `EBADF` no such port, or one to use a node, `EDIED` the server is gone, `EINVAL` words
/// that the server doesn't take, `ENOMEM`.
#[tactic(auto, unfolding(hurd_machine::specs::Plan::answered))]
pub fn fsys_set_options<S: Server>(
    core: &mut Core<S>,
    alloc: Global,
    task: TaskId,
    control: u64,
    words: &Words,
) -> Result<(), Errno>
    ensures planned { let w = world_of S.meaning core.old in
        Planned w (plan_set_options w task.0 control words.now) (λ u. Done) result (world_of S.meaning core.new) }
    ensures free { let w = world_of S.meaning core.old in
        words.now ≡ [] → Follows w (plan_set_options w task.0 control words.now) (told (λ u. Done) result) (world_of S.meaning core.new) }
{
    let server = core.control(task, control)?;
    core.set_options(alloc, server, words)
}
