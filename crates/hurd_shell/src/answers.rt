//! What is done with the server that a command waited for.
ghost use Rattle.std.specs.Prelude.{◌≡◌, ℕ, List, Err, IfErr, IfOk, None, Some};
ghost use Rattle.hurd_trans_iface.specs.Meaning.{Begins};
ghost use Rattle.hurd_machine.specs.Calls.{call_by};
ghost use Rattle.hurd_machine.specs.Sound.{Sound};
ghost use Rattle.hurd_world.specs.Held.{world_of};
ghost use Rattle.hurd_shell.specs.Progress.{Ran, stopped};
ghost use Rattle.hurd_shell.specs.Stages.{answer_with, offer_of, read_at};

use crate::calls::{offered, start_failed};
use crate::fault::NoMemory;
use crate::stages::{KeptStage, Stage, Waiting};
use hurd_client::started;
use hurd_creds::{Errno, TaskId};
use hurd_trans_iface::{Server, Words};
use hurd_world::{Call, World};
use std::alloc::Global;

/// The call that takes the server at a stage.
fn offer<S>(stage: &Stage, words: Words, server: S) -> Call<S>
    ensures { result ≡ offer_of stage.now words server }
{
    match stage {
        Stage::Sets { port, setting } => Call::FileSetTranslator {
            port: *port,
            setting: *setting,
            words,
            server: Some(server),
        },
        Stage::Opens { .. } | Stage::Enters { .. } => Call::FsysStartup { server },
    }
}

/// What is read of the answer at a stage.
fn read_at(stage: &Stage, answer: Result<(), Errno>) -> Result<(), Errno>
    ensures { result ≡ read_at stage.now answer }
{
    match stage {
        Stage::Sets { .. } => answer,
        Stage::Opens { .. } | Stage::Enters { .. } => started(answer),
    }
}

/// Makes the call that takes the server. Where it finds no memory, the server comes back; else one that comes back is dropped.
pub(crate) fn bring<S: Server>(
    world: &mut World<S>,
    alloc: Global,
    task: TaskId,
    waiting: Waiting,
    server: S,
) -> Result<(KeptStage, Result<(), Errno>), S>
    requires { Begins (S.meaning server) }
    ensures ok { IfOk result (λ answered. (answered.0 ≡ waiting.stage)
        × Ran S.meaning task.0 (answer_with waiting.stage waiting.words (Some (S.meaning server))) world.old (stopped answered.1) world.new) }
    ensures err { IfErr result (λ back. back ≡ server) }
    ensures sound { Sound (world_of S.meaning world.old) → Sound (world_of S.meaning world.new) }
{
    let Waiting { words, stage } = waiting;
    let call = offer(stage.as_stage(), words, server);
    match offered(world, alloc, task, call) {
        Ok(answer) => {
            let answer = read_at(stage.as_stage(), answer);
            Ok((stage, answer))
        }
        Err(server) => Err(server),
    }
}

/// Gives up what was to be started, if something was.
fn give_up_start<S: Server>(
    world: &mut World<S>,
    alloc: Global,
    task: TaskId,
    stage: &Stage,
) -> Result<(), NoMemory>
    ensures { IfOk result (λ u. (words : List (List ℕ)) → Ran S.meaning task.0 (answer_with stage.now words None) world.old
        (stopped (Err Errno.ENOENT)) world.new) }
{
    match stage {
        Stage::Sets { .. } => Ok(()),
        Stage::Opens { .. } | Stage::Enters { .. } => start_failed(world, alloc, task),
    }
}

/// Goes on without a server: there is no node.
pub(crate) fn go_without<S: Server>(
    world: &mut World<S>,
    alloc: Global,
    task: TaskId,
    waiting: Waiting,
) -> Result<(KeptStage, Result<(), Errno>), NoMemory>
    ensures { IfOk result (λ answered. (answered.0 ≡ waiting.stage)
        × Ran S.meaning task.0 (answer_with waiting.stage waiting.words None) world.old (stopped answered.1) world.new) }
{
    let Waiting { words: _, stage } = waiting;
    give_up_start(world, alloc, task, stage.as_stage())?;
    Ok((stage, Err(Errno::ENOENT)))
}
