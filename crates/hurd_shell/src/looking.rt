//! Opening what a path leads to, up to a translator that is to be started.
ghost use Rattle.std.specs.Prelude.{◌≡◌, ◌≤◌, ◌-◌, IfOk};
ghost use Rattle.hurd_client.specs.Openings.{IsNext, opening_after, opening_of, steps_of, steps_of_turn, turn_on};
ghost use Rattle.hurd_client.specs.Programs.{gives};
ghost use Rattle.hurd_shell.specs.Commands as written;
ghost use Rattle.hurd_shell.specs.Progress.{Arrived};
ghost use Rattle.hurd_shell.specs.Stages.{reached_on};

use crate::calls;
use crate::fault::Stop;
use hurd_client::{Next, NextCall, OpenHow, Opening, Turn};
use hurd_creds::{Bytes, Errno, Mode, OpenFlags, TaskId};
use hurd_trans_iface::{Server, Words};
use hurd_world::{Call, World};
use std::alloc::Global;

/// The port of a task's working directory.
const DIRECTORY_PORT: u64 = 2;

/// The mode of a file that a command makes.
const FILE_MODE: u32 = 0o644;

/// What an opening comes to.
#[derive(Debug, Drop)]
pub(crate) enum Reached {
    /// The node's port.
    Opened(u64),
    /// A server of these words is to be started, and then it goes on.
    Waits { words: Words, opening: Opening },
}

/// How a command opens a node.
fn how(flags: OpenFlags) -> OpenHow
    ensures { result ≡ written.how flags }
{
    OpenHow {
        flags,
        mode: Mode::from_bits_truncate(FILE_MODE),
    }
}

/// Makes a call of an opening, which goes on after the reply.
fn turn<S: Server>(
    world: &mut World<S>,
    alloc: Global,
    task: TaskId,
    opening: Opening,
    call: NextCall,
) -> Result<Turn, Stop>
    requires { IsNext opening (Next.Call call) }
    ensures comes { Arrived S.meaning task.0 (opening_of opening) world.old turn_on result world.new }
    ensures fewer { IfOk result (λ turn. steps_of_turn turn ≤ steps_of opening - 1) }
{
    let reply = calls::made(world, alloc, task, Call::Plain(call.into_call()))?;
    Ok(opening.replied(alloc, reply)?)
}

/// Goes on with an opening, up to the node or to a translator that is to be started. At the end, and at a refusal, the ports
/// that were got on the way are given up.
fn go_on<S: Server>(
    world: &mut World<S>,
    alloc: Global,
    task: TaskId,
    opening: Opening,
) -> Result<Reached, Stop>
    ensures { Arrived S.meaning task.0 (opening_of opening) world.old reached_on result world.new }
{
    let mut opening = opening;
    'turns: loop {
        match opening.next(alloc)? {
            Next::Ends(Ok(port)) => return Ok(Reached::Opened(port)),
            Next::Ends(Err(errno)) => return Err(Stop::Refused(errno)),
            Next::Call(call) => match turn(world, alloc, task, opening, call)? {
                Turn::Onward(next) => opening = next,
                Turn::Starts { words, opening } => return Ok(Reached::Waits { words, opening }),
            },
        }
    }
}

/// Goes on with an opening whose server was asked for, or gives up its ports if that was refused.
pub(crate) fn go_on_with<S: Server>(
    world: &mut World<S>,
    alloc: Global,
    task: TaskId,
    opening: Opening,
    answer: Result<(), Errno>,
) -> Result<Reached, Stop>
    ensures { Arrived S.meaning task.0 (opening_after opening (gives answer)) world.old reached_on result world.new }
{
    go_on(world, alloc, task, opening.started(answer))
}

/// Opens what a path leads to, up to the node or to a translator that is to be started.
pub(crate) fn open<S: Server>(
    world: &mut World<S>,
    alloc: Global,
    task: TaskId,
    path: Bytes,
    flags: OpenFlags,
) -> Result<Reached, Stop>
    ensures { Arrived S.meaning task.0 (written.open_path path flags) world.old reached_on result world.new }
{
    let opening = Opening::at(alloc, DIRECTORY_PORT, path, how(flags));
    go_on(world, alloc, task, opening)
}
