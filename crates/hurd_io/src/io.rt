//! Reading, writing, and what is told of a node.
ghost use Rattle.std.specs.Prelude.{◌≡◌};
ghost use Rattle.hurd_machine.specs.Plan.{Planned, Follows, told};
ghost use Rattle.hurd_machine.specs.declared.call.Reply.TheVariants as reply;
ghost use Rattle.hurd_core.specs.Core.{world_of};
ghost use Rattle.hurd_io.specs.Io.{free_read, free_write, read_asks, plan_read, write_cursor, write_asks, plan_write, plan_stat};

use crate::offset::{IoAt, Offset};
use hurd_core::Core;
use hurd_creds::{Bytes, Errno, Kind, MOST_READ, OpenFlags, Stat, TaskId};
use hurd_machine::Handle;
use hurd_trans_iface::Server;
use std::alloc::Global;

/// Where a read from what a port has open begins.
///
/// Errors, in order: `ESRCH`, `EBADF`, `EDIED`, `EISDIR`, `EINVAL` an offset below -1.
#[tactic(auto, unfolding(hurd_machine::specs::Plan::given, hurd_machine::specs::Plan::first))]
fn read_asked<S: Server>(
    core: &Core<S>,
    task: TaskId,
    port: u64,
    offset: i64,
) -> Result<IoAt, Errno>
    ensures { result ≡ read_asks (world_of S.meaning core.now) task.0 port offset }
{
    let handle = core.handle(task, port, OpenFlags::READ)?;
    if let Kind::Dir = handle.kind {
        return Err(Errno::EISDIR);
    }
    let offset = Offset::new(offset)?;
    let is_stream = core.is_stream(handle.node);
    Ok(IoAt::new(handle, is_stream, handle.opened.cursor, offset))
}

/// Reads at most `amount` bytes, and no more than 65,536, from what a port has open: from `offset` on, or from the
/// cursor, which moves past them, where that is -1. A stream has no places: its bytes are those that its server gives, and the
/// cursor stays (`io.defs`). Takes no memory where there are none.
///
/// Errors, in order: `ESRCH` no such task, `EBADF` no such port, or not opened to read, `EDIED` no such node, `EISDIR`,
/// `EINVAL` an offset below -1, `EWOULDBLOCK` a pipe that is empty and has a writer, `EIO` a drip with nothing left, `ENOMEM`.
#[tactic(auto, unfolding(hurd_machine::specs::Plan::answered))]
pub fn io_read<S: Server>(
    core: &mut Core<S>,
    alloc: Global,
    task: TaskId,
    port: u64,
    amount: u64,
    offset: i64,
) -> Result<Bytes, Errno>
    ensures planned { let w = world_of S.meaning core.old in
        Planned w (plan_read w task.0 port amount offset) reply.Data result (world_of S.meaning core.new) }
    ensures free { let w = world_of S.meaning core.old in
        free_read w task.0 port amount offset → Follows w (plan_read w task.0 port amount offset) (told reply.Data result) (world_of S.meaning core.new) }
{
    let from = read_asked(core, task, port, offset)?;
    let bytes = core.read(alloc, from.node, from.at, amount.min(MOST_READ))?;
    from.advance(core, bytes.len() as u64);
    Ok(bytes)
}

/// The cursor that a write begins at: with `APPEND` it is first set to the size.
fn write_cursor(handle: Handle) -> u64
    ensures { result ≡ write_cursor handle }
{
    if handle.opened.modes.asks(OpenFlags::APPEND) {
        handle.size
    } else {
        handle.opened.cursor
    }
}

/// Where a write to what a port has open begins.
///
/// Errors, in order: `ESRCH`, `EBADF`, `EDIED`, `EINVAL` an offset below -1.
#[tactic(auto, unfolding(hurd_machine::specs::Plan::first))]
fn write_asked<S: Server>(
    core: &Core<S>,
    task: TaskId,
    port: u64,
    offset: i64,
) -> Result<IoAt, Errno>
    ensures { result ≡ write_asks (world_of S.meaning core.now) task.0 port offset }
{
    let handle = core.handle(task, port, OpenFlags::WRITE)?;
    let offset = Offset::new(offset)?;
    let is_stream = core.is_stream(handle.node);
    Ok(IoAt::new(handle, is_stream, write_cursor(handle), offset))
}

/// Writes bytes to what a port has open, and answers how many: at `offset`, or at the cursor, which moves past them,
/// where that is -1. With `APPEND` the cursor is first set to the size. A gap becomes zero bytes; no data grows nothing.
/// On a stream the cursor stays (`io.defs`). Takes no memory where there is no data, where the bytes that are written over are
/// there, and on a stream.
///
/// Errors, in order: `ESRCH` no such task, `EBADF` no such port, or not opened to write, `EDIED` no such node, `EINVAL` an
/// offset below -1, `EFBIG` an end past 16,777,216, `EPIPE` a pipe without a reader, `EWOULDBLOCK` a pipe that is full, `ENOMEM`.
#[tactic(auto, unfolding(hurd_machine::specs::Plan::answered))]
pub fn io_write<S: Server>(
    core: &mut Core<S>,
    task: TaskId,
    port: u64,
    bytes: &[u8],
    offset: i64,
) -> Result<u64, Errno>
    ensures planned { let w = world_of S.meaning core.old in
        Planned w (plan_write w task.0 port bytes.now offset) reply.Count result (world_of S.meaning core.new) }
    ensures free { let w = world_of S.meaning core.old in
        free_write w task.0 port bytes.now offset → Follows w (plan_write w task.0 port bytes.now offset) (told reply.Count result) (world_of S.meaning core.new) }
{
    let to = write_asked(core, task, port, offset)?;
    let count = core.write(to.node, to.at, bytes)?;
    to.advance(core, count);
    Ok(count)
}

/// The attributes of the node of a port, whatever the port has it open for, and whether a server is active on it (`io.defs`). Takes no memory.
///
/// Errors, in order: `ESRCH` no such task, `EBADF` no such port, `EDIED` no such node.
#[tactic(auto, unfolding(hurd_machine::specs::Plan::answered, hurd_machine::specs::Plan::first))]
pub fn io_stat<S: Server>(core: &Core<S>, task: TaskId, port: u64) -> Result<Stat, Errno>
    ensures { let w = world_of S.meaning core.now in Follows w (plan_stat w task.0 port) (told reply.Stat result) w }
{
    let named = core.port_node(task, port)?;
    Ok(Stat {
        active: core.active(named.right.node).is_some(),
        ..named.attrs.stat()
    })
}
