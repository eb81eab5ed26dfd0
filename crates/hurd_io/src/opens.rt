//! What an open is: its cursor, and what it is for.
ghost use Rattle.std.specs.Prelude.{◌≡◌, ◌+ℤ◌, pos};
ghost use Rattle.hurd_machine.specs.Plan.{Follows, told};
ghost use Rattle.hurd_machine.specs.declared.call.Reply.TheVariants as reply;
ghost use Rattle.hurd_core.specs.Core.{world_of};
ghost use Rattle.hurd_io.specs.Opens.{origin, place_asks, plan_get_openmodes, plan_readable, plan_seek, plan_set_openmodes, readable_asks, seek_asks};

use crate::offset::MOST_PLACE;
use hurd_core::Core;
use hurd_creds::{Errno, Kind, OpenFlags, OpenName, TaskId};
use hurd_machine::{Handle, Whence};
use hurd_trans_iface::Server;

/// Every open has these modes: none is asked for.
fn any_mode() -> OpenFlags
    ensures { result ≡ record { 0 = 0 } }
{
    OpenFlags::from_bits_truncate(0)
}

/// From where a seek counts.
fn origin(whence: Whence, handle: Handle) -> u64
    ensures { result ≡ origin whence handle }
{
    match whence {
        Whence::Set => 0,
        Whence::Current => handle.opened.cursor,
        Whence::End => handle.size,
    }
}

/// The place at this distance. `EINVAL`: below 0, or past the greatest.
fn place(origin: u64, offset: i64) -> Result<u64, Errno>
    ensures { result ≡ place_asks (pos origin +ℤ offset) }
{
    let Some(place) = origin.checked_add_signed(offset) else {
        return Err(Errno::EINVAL);
    };
    if place > MOST_PLACE {
        return Err(Errno::EINVAL);
    }
    Ok(place)
}

/// The open of a port, and the place in it that a seek goes to.
///
/// Errors, in order: `ESRCH`, `EBADF`, `EDIED`, `EINVAL`.
#[tactic(auto, unfolding(hurd_machine::specs::Plan::first))]
fn seek_asked<S: Server>(
    core: &Core<S>,
    task: TaskId,
    port: u64,
    offset: i64,
    whence: Whence,
) -> Result<(OpenName, u64), Errno>
    ensures { result ≡ seek_asks (world_of S.meaning core.now) task.0 port offset whence }
{
    let handle = core.handle(task, port, any_mode())?;
    let place = place(origin(whence, handle), offset)?;
    Ok((handle.open_name, place))
}

/// Moves the cursor of what a port has open: to `offset` from the beginning, the cursor or the end, which is the size of its
/// node, whatever its kind; answers the new cursor (`io.defs`). Takes no memory.
///
/// Errors, in order: `ESRCH` no such task, `EBADF` no such port, `EDIED` no such node, `EINVAL` a place below 0 or past
/// 9,223,372,036,854,775,807.
#[tactic(auto, unfolding(hurd_machine::specs::Plan::answered))]
pub fn io_seek<S: Server>(
    core: &mut Core<S>,
    task: TaskId,
    port: u64,
    offset: i64,
    whence: Whence,
) -> Result<u64, Errno>
    ensures { let w = world_of S.meaning core.old in
        Follows w (plan_seek w task.0 port offset whence) (told reply.Count result) (world_of S.meaning core.new) }
{
    let (open_name, place) = seek_asked(core, task, port, offset, whence)?;
    core.move_cursor(open_name, place);
    Ok(place)
}

/// How many bytes there are from the cursor on of what a port has open to read, which is no directory.
///
/// Errors, in order: `ESRCH`, `EBADF`, `EDIED`, `EISDIR`.
#[tactic(auto, unfolding(hurd_machine::specs::Plan::given, hurd_machine::specs::Plan::first))]
fn readable_asked<S: Server>(core: &Core<S>, task: TaskId, port: u64) -> Result<u64, Errno>
    ensures { result ≡ readable_asks (world_of S.meaning core.now) task.0 port }
{
    let handle = core.handle(task, port, OpenFlags::READ)?;
    if let Kind::Dir = handle.kind {
        return Err(Errno::EISDIR);
    }
    Ok(core.readable(handle.node, handle.opened.cursor))
}

/// How many bytes the server has to read from the cursor on of what a port has open (`io.defs`). Takes no memory.
///
/// Errors, in order: `ESRCH` no such task, `EBADF` no such port, or not opened to read, `EDIED` no such node, `EISDIR`.
#[tactic(auto, unfolding(hurd_machine::specs::Plan::answered))]
pub fn io_readable<S: Server>(core: &Core<S>, task: TaskId, port: u64) -> Result<u64, Errno>
    ensures { let w = world_of S.meaning core.now in Follows w (plan_readable w task.0 port) (told reply.Count result) w }
{
    readable_asked(core, task, port)
}

/// What a port has its node open for: those of `READ`, `WRITE`, `EXEC` and `APPEND` (`io.defs`). Takes no memory.
///
/// Errors, in order: `ESRCH` no such task, `EBADF` no such port, `EDIED` no such node.
#[tactic(auto, unfolding(hurd_machine::specs::Plan::answered))]
pub fn io_get_openmodes<S: Server>(
    core: &Core<S>,
    task: TaskId,
    port: u64,
) -> Result<OpenFlags, Errno>
    ensures { let w = world_of S.meaning core.now in Follows w (plan_get_openmodes w task.0 port) (told reply.Modes result) w }
{
    Ok(core.handle(task, port, any_mode())?.opened.modes)
}

/// Lets what a port has open append, where `APPEND` is given, or else not; its other modes stay (`io.defs`). Takes no memory.
///
/// Errors, in order: `ESRCH` no such task, `EBADF` no such port, `EDIED` no such node.
#[tactic(auto, unfolding(hurd_machine::specs::Plan::answered))]
pub fn io_set_all_openmodes<S: Server>(
    core: &mut Core<S>,
    task: TaskId,
    port: u64,
    flags: OpenFlags,
) -> Result<(), Errno>
    ensures { let w = world_of S.meaning core.old in
        Follows w (plan_set_openmodes w task.0 port flags) (told (λ u. reply.Done) result) (world_of S.meaning core.new) }
{
    let handle = core.handle(task, port, any_mode())?;
    core.set_append(handle.open_name, flags.asks(OpenFlags::APPEND));
    Ok(())
}
