//! Calls that a command makes, and what it reads of their replies.
ghost use Rattle.std.specs.Prelude.{◌≡◌, IfOk, IfErr, Ok, None, Some, IsSome};
ghost use Rattle.hurd_creds.specs.Limits.{most_read};
ghost use Rattle.hurd_machine.specs.Calls.{BringsBegun, box_in, call_by, refusal, reply_by};
ghost use Rattle.hurd_laws.specs.Called.{Lacks};
ghost use Rattle.hurd_world.specs.Held.{state_of, world_of};
ghost use Rattle.hurd_client.specs.Programs.{made, data_of, done_of, names_of, port_of, set_of, stat_of, unread, words_of};
ghost use Rattle.hurd_shell.specs.Commands.{at_cursor, directory_mode};
ghost use Rattle.hurd_shell.specs.Progress.{Ran, Stepped, stopped};

use crate::fault::{NoMemory, Stop};
use hurd_client::{port_of, set_of};
use hurd_creds::{Bytes, Errno, MOST_READ, Mode, Stat, TaskId};
use hurd_machine::Setting;
use hurd_trans_iface::{Names, Server, Words};
use hurd_world::{Call, PlainCall, Reply, World};
use std::alloc::Global;

/// The offset that stands for the cursor.
const AT_CURSOR: i64 = -1;

/// The mode of a directory that a command makes.
const DIRECTORY_MODE: u32 = 0o755;

/// Makes a call of a task. Where memory was refused, a server that the call brought is dropped.
pub(crate) fn made<S: Server>(
    world: &mut World<S>,
    alloc: Global,
    task: TaskId,
    call: Call<S>,
) -> Result<Reply<S>, NoMemory>
    requires { BringsBegun (call_by S.meaning call) }
    ensures ok { IfOk result (λ reply.
        Stepped (state_of S.meaning world.old) task.0 (call_by S.meaning call) (reply_by S.meaning reply) (state_of S.meaning world.new)) }
    ensures err { let c = call_by S.meaning call in IfErr result (λ e.
        Lacks (world_of S.meaning world.old) task.0 c (refusal (box_in c) Errno.ENOMEM) (world_of S.meaning world.new)) }
{
    let reply = world.call(alloc, task, call);
    if reply.lacks_memory() {
        return Err(NoMemory);
    }
    Ok(reply)
}

/// The bytes that a read gave.
fn data_of<S: Server>(reply: Reply<S>) -> Result<Bytes, Stop>
    ensures { result ≡ stopped (data_of (reply_by S.meaning reply)) }
{
    match reply {
        Reply::Data(bytes) => Ok(bytes),
        Reply::Refused(errno) => Err(Stop::Refused(errno)),
        Reply::Done
        | Reply::Found(_)
        | Reply::Port(_)
        | Reply::Count(_)
        | Reply::Names(_)
        | Reply::Stat(_)
        | Reply::Words(_)
        | Reply::Modes(_)
        | Reply::Same(_)
        | Reply::Back(_, _) => Err(Stop::Refused(Errno::EIO)),
    }
}

/// The names in a directory.
fn names_of<S: Server>(reply: Reply<S>) -> Result<Names, Stop>
    ensures { result ≡ stopped (names_of (reply_by S.meaning reply)) }
{
    match reply {
        Reply::Names(names) => Ok(names),
        Reply::Refused(errno) => Err(Stop::Refused(errno)),
        Reply::Done
        | Reply::Found(_)
        | Reply::Port(_)
        | Reply::Data(_)
        | Reply::Count(_)
        | Reply::Stat(_)
        | Reply::Words(_)
        | Reply::Modes(_)
        | Reply::Same(_)
        | Reply::Back(_, _) => Err(Stop::Refused(Errno::EIO)),
    }
}

/// What is told of a node.
fn stat_of<S: Server>(reply: Reply<S>) -> Result<Stat, Stop>
    ensures { result ≡ stopped (stat_of (reply_by S.meaning reply)) }
{
    match reply {
        Reply::Stat(stat) => Ok(stat),
        Reply::Refused(errno) => Err(Stop::Refused(errno)),
        Reply::Done
        | Reply::Found(_)
        | Reply::Port(_)
        | Reply::Data(_)
        | Reply::Count(_)
        | Reply::Names(_)
        | Reply::Words(_)
        | Reply::Modes(_)
        | Reply::Same(_)
        | Reply::Back(_, _) => Err(Stop::Refused(Errno::EIO)),
    }
}

/// The words that were told.
fn words_of<S: Server>(reply: Reply<S>) -> Result<Words, Stop>
    ensures { result ≡ stopped (words_of (reply_by S.meaning reply)) }
{
    match reply {
        Reply::Words(words) => Ok(words),
        Reply::Refused(errno) => Err(Stop::Refused(errno)),
        Reply::Done
        | Reply::Found(_)
        | Reply::Port(_)
        | Reply::Data(_)
        | Reply::Count(_)
        | Reply::Names(_)
        | Reply::Stat(_)
        | Reply::Modes(_)
        | Reply::Same(_)
        | Reply::Back(_, _) => Err(Stop::Refused(Errno::EIO)),
    }
}

/// Whether a change was made.
fn done_of<S: Server>(reply: Reply<S>) -> Result<(), Stop>
    ensures { result ≡ stopped (done_of (reply_by S.meaning reply)) }
{
    match reply {
        Reply::Done | Reply::Count(_) => Ok(()),
        Reply::Refused(errno) => Err(Stop::Refused(errno)),
        Reply::Found(_)
        | Reply::Port(_)
        | Reply::Data(_)
        | Reply::Names(_)
        | Reply::Stat(_)
        | Reply::Words(_)
        | Reply::Modes(_)
        | Reply::Same(_)
        | Reply::Back(_, _) => Err(Stop::Refused(Errno::EIO)),
    }
}

/// The mode of a directory that a command makes.
fn directory_mode() -> Mode
    ensures { result ≡ directory_mode }
{
    Mode::from_bits_truncate(DIRECTORY_MODE)
}

/// Gives up a port.
pub(crate) fn deallocate<S: Server>(
    world: &mut World<S>,
    alloc: Global,
    task: TaskId,
    port: u64,
) -> Result<(), NoMemory>
    ensures { IfOk result (λ u. Ran S.meaning task.0 (made (Call.Plain (PlainCall.PortDeallocate port)) unread) world.old (Ok u) world.new) }
{
    let _reply = made(
        world,
        alloc,
        task,
        Call::Plain(PlainCall::PortDeallocate { port }),
    )?;
    Ok(())
}

/// Reads a file from the cursor on.
pub(crate) fn read<S: Server>(
    world: &mut World<S>,
    alloc: Global,
    task: TaskId,
    port: u64,
) -> Result<Bytes, Stop>
    ensures { Ran S.meaning task.0 (made (Call.Plain (PlainCall.IoRead port most_read at_cursor)) data_of) world.old result world.new }
{
    let call = Call::Plain(PlainCall::IoRead {
        port,
        amount: MOST_READ,
        offset: AT_CURSOR,
    });
    data_of(made(world, alloc, task, call)?)
}

/// Writes to a file at the cursor.
pub(crate) fn write<S: Server>(
    world: &mut World<S>,
    alloc: Global,
    task: TaskId,
    port: u64,
    bytes: Bytes,
) -> Result<(), Stop>
    ensures { Ran S.meaning task.0 (made (Call.Plain (PlainCall.IoWrite port bytes at_cursor)) done_of) world.old result world.new }
{
    let call = Call::Plain(PlainCall::IoWrite {
        port,
        bytes,
        offset: AT_CURSOR,
    });
    done_of(made(world, alloc, task, call)?)
}

/// Cuts a file to nothing.
pub(crate) fn cut<S: Server>(
    world: &mut World<S>,
    alloc: Global,
    task: TaskId,
    port: u64,
) -> Result<(), Stop>
    ensures { Ran S.meaning task.0 (made (Call.Plain (PlainCall.FileSetSize port 0)) done_of) world.old result world.new }
{
    let call = Call::Plain(PlainCall::FileSetSize { port, size: 0 });
    done_of(made(world, alloc, task, call)?)
}

/// The names in a directory.
pub(crate) fn names<S: Server>(
    world: &mut World<S>,
    alloc: Global,
    task: TaskId,
    port: u64,
) -> Result<Names, Stop>
    ensures { Ran S.meaning task.0 (made (Call.Plain (PlainCall.DirReaddir port)) names_of) world.old result world.new }
{
    let call = Call::Plain(PlainCall::DirReaddir { port });
    names_of(made(world, alloc, task, call)?)
}

/// What is told of a node.
pub(crate) fn stat<S: Server>(
    world: &mut World<S>,
    alloc: Global,
    task: TaskId,
    port: u64,
) -> Result<Stat, Stop>
    ensures { Ran S.meaning task.0 (made (Call.Plain (PlainCall.IoStat port)) stat_of) world.old result world.new }
{
    let call = Call::Plain(PlainCall::IoStat { port });
    stat_of(made(world, alloc, task, call)?)
}

/// Sets a node's mode.
pub(crate) fn chmod<S: Server>(
    world: &mut World<S>,
    alloc: Global,
    task: TaskId,
    port: u64,
    mode: Mode,
) -> Result<(), Stop>
    ensures { Ran S.meaning task.0 (made (Call.Plain (PlainCall.FileChmod port mode)) done_of) world.old result world.new }
{
    let call = Call::Plain(PlainCall::FileChmod { port, mode });
    done_of(made(world, alloc, task, call)?)
}

/// Gives a node to an owner and a group.
pub(crate) fn chown<S: Server>(
    world: &mut World<S>,
    alloc: Global,
    task: TaskId,
    port: u64,
    owner: u32,
    group: u32,
) -> Result<(), Stop>
    ensures { Ran S.meaning task.0 (made (Call.Plain (PlainCall.FileChown port owner group)) done_of) world.old result world.new }
{
    let call = Call::Plain(PlainCall::FileChown { port, owner, group });
    done_of(made(world, alloc, task, call)?)
}

/// Makes a directory.
pub(crate) fn mkdir<S: Server>(
    world: &mut World<S>,
    alloc: Global,
    task: TaskId,
    dir: u64,
    name: Bytes,
) -> Result<(), Stop>
    ensures { Ran S.meaning task.0 (made (Call.Plain (PlainCall.DirMkdir dir name directory_mode)) done_of) world.old result world.new }
{
    let call = Call::Plain(PlainCall::DirMkdir {
        dir,
        name,
        mode: directory_mode(),
    });
    done_of(made(world, alloc, task, call)?)
}

/// Takes the name of a file away.
pub(crate) fn unlink<S: Server>(
    world: &mut World<S>,
    alloc: Global,
    task: TaskId,
    dir: u64,
    name: Bytes,
) -> Result<(), Stop>
    ensures { Ran S.meaning task.0 (made (Call.Plain (PlainCall.DirUnlink dir name)) done_of) world.old result world.new }
{
    let call = Call::Plain(PlainCall::DirUnlink { dir, name });
    done_of(made(world, alloc, task, call)?)
}

/// Removes a directory.
pub(crate) fn rmdir<S: Server>(
    world: &mut World<S>,
    alloc: Global,
    task: TaskId,
    dir: u64,
    name: Bytes,
) -> Result<(), Stop>
    ensures { Ran S.meaning task.0 (made (Call.Plain (PlainCall.DirRmdir dir name)) done_of) world.old result world.new }
{
    let call = Call::Plain(PlainCall::DirRmdir { dir, name });
    done_of(made(world, alloc, task, call)?)
}

/// Gives a file another name.
pub(crate) fn link<S: Server>(
    world: &mut World<S>,
    alloc: Global,
    task: TaskId,
    dir: u64,
    name: Bytes,
    file: u64,
) -> Result<(), Stop>
    ensures { Ran S.meaning task.0 (made (Call.Plain (PlainCall.DirLink dir name file)) done_of) world.old result world.new }
{
    let call = Call::Plain(PlainCall::DirLink { dir, name, file });
    done_of(made(world, alloc, task, call)?)
}

/// Moves an entry to another name, in this directory or another.
pub(crate) fn rename<S: Server>(
    world: &mut World<S>,
    alloc: Global,
    task: TaskId,
    dir: u64,
    name: Bytes,
    to: u64,
    new: Bytes,
) -> Result<(), Stop>
    ensures { Ran S.meaning task.0 (made (Call.Plain (PlainCall.DirRename dir name to new)) done_of) world.old result world.new }
{
    let call = Call::Plain(PlainCall::DirRename { dir, name, to, new });
    done_of(made(world, alloc, task, call)?)
}

/// The words of the passive translator of a node.
pub(crate) fn passive<S: Server>(
    world: &mut World<S>,
    alloc: Global,
    task: TaskId,
    port: u64,
) -> Result<Words, Stop>
    ensures { Ran S.meaning task.0 (made (Call.Plain (PlainCall.FileGetTranslator port)) words_of) world.old result world.new }
{
    let call = Call::Plain(PlainCall::FileGetTranslator { port });
    words_of(made(world, alloc, task, call)?)
}

/// Makes a port that controls the server of a node.
pub(crate) fn control<S: Server>(
    world: &mut World<S>,
    alloc: Global,
    task: TaskId,
    port: u64,
) -> Result<u64, Stop>
    ensures { Ran S.meaning task.0 (made (Call.Plain (PlainCall.FileGetcontrol port)) port_of) world.old result world.new }
{
    let call = Call::Plain(PlainCall::FileGetcontrol { port });
    Ok(port_of(made(world, alloc, task, call)?)?)
}

/// The program and the words of a server.
pub(crate) fn options<S: Server>(
    world: &mut World<S>,
    alloc: Global,
    task: TaskId,
    control: u64,
) -> Result<Words, Stop>
    ensures { Ran S.meaning task.0 (made (Call.Plain (PlainCall.FsysGetOptions control)) words_of) world.old result world.new }
{
    let call = Call::Plain(PlainCall::FsysGetOptions { control });
    words_of(made(world, alloc, task, call)?)
}

/// Gives a server these words.
pub(crate) fn set_options<S: Server>(
    world: &mut World<S>,
    alloc: Global,
    task: TaskId,
    control: u64,
    words: Words,
) -> Result<(), Stop>
    ensures { Ran S.meaning task.0 (made (Call.Plain (PlainCall.FsysSetOptions control words)) done_of) world.old result world.new }
{
    let call = Call::Plain(PlainCall::FsysSetOptions { control, words });
    done_of(made(world, alloc, task, call)?)
}

/// Sets a translator without a server.
pub(crate) fn set<S: Server>(
    world: &mut World<S>,
    alloc: Global,
    task: TaskId,
    port: u64,
    setting: Setting,
    words: Words,
) -> Result<(), Stop>
    ensures { Ran S.meaning task.0 (made (Call.FileSetTranslator port setting words None) set_of) world.old result world.new }
{
    let call = Call::FileSetTranslator {
        port,
        setting,
        words,
        server: None,
    };
    Ok(set_of(made(world, alloc, task, call)?)?)
}

/// Gives up what was to be started.
pub(crate) fn start_failed<S: Server>(
    world: &mut World<S>,
    alloc: Global,
    task: TaskId,
) -> Result<(), NoMemory>
    ensures { IfOk result (λ u. Ran S.meaning task.0 (made (Call.Plain PlainCall.StartFailed) unread) world.old (Ok u) world.new) }
{
    let _reply = made(world, alloc, task, Call::Plain(PlainCall::StartFailed))?;
    Ok(())
}

/// Makes a call that brings a server, and drops a server that comes back; except for lack of memory, where it is given back.
pub(crate) fn offered<S: Server>(
    world: &mut World<S>,
    alloc: Global,
    task: TaskId,
    call: Call<S>,
) -> Result<Result<(), Errno>, S>
    requires begun { BringsBegun (call_by S.meaning call) }
    requires brings { IsSome (box_in call) }
    ensures ok { IfOk result (λ answer. Ran S.meaning task.0 (made (call_by S.meaning call) set_of) world.old (stopped answer) world.new) }
    ensures err { IfErr result (λ server. (box_in call ≡ Some server) × (world_of S.meaning world.new ≡ world_of S.meaning world.old)) }
{
    match world.call(alloc, task, call) {
        Reply::Done => Ok(Ok(())),
        Reply::Refused(errno) => Ok(Err(errno)),
        Reply::Back(errno, server) => {
            if errno.is_no_memory() {
                Err(server)
            } else {
                Ok(Err(errno))
            }
        }
        Reply::Found(_)
        | Reply::Port(_)
        | Reply::Data(_)
        | Reply::Count(_)
        | Reply::Names(_)
        | Reply::Stat(_)
        | Reply::Words(_)
        | Reply::Modes(_)
        | Reply::Same(_) => Ok(Err(Errno::EIO)),
    }
}
