//! Opening what a path leads to, and telling each call.
ghost use Rattle.std.specs.Prelude.{◌≡◌, ◌⊎◌, IfErr, IfOk};
ghost use Rattle.std.specs.Option.{is_some};
ghost use Rattle.hurd_client.specs.Openings.{call_of, opening_of};
ghost use Rattle.hurd_kinds.specs.Boxes.{box_meaning};
ghost use Rattle.hurd_laws.specs.Step.{after};
ghost use Rattle.hurd_lists.specs.Lists.{listed_by};
ghost use Rattle.hurd_machine.specs.Calls.{start_call};
ghost use Rattle.hurd_machine.specs.declared.call.Call.TheVariants.{Plain};
ghost use Rattle.hurd_numbers.specs.Lines.{HasLine};
ghost use Rattle.hurd_trans_iface.specs.Meaning.{begin};
ghost use Rattle.hurd_world.specs.Held.{world_of};
ghost use Rattle.hurd_sitting.specs.Openings.{Ran, RanSome, Starts, made_by, port_numbers};

use crate::stage::Stage;
use bitflags::Flags;
use hurd_client::{Next, NextCall, Opening, Turn, started_of};
use hurd_creds::{Errno, TaskId};
use hurd_kinds::{ServerBox, server_for};
use hurd_lists::ListedCall;
use hurd_numbers::{Numbers, listed, listed_start};
use hurd_trans_iface::Words;
use hurd_words::fault::ReadFault;
use std::alloc::{AllocError, Global};

/// The calls of an opening, as `hurd_numbers` numbers them.
const PORT_DEALLOCATE: u32 = 1;

const IO_REAUTHENTICATE: u32 = 13;

const START_FAILED: u32 = 25;

const DIR_LOOKUP: u32 = 30;

/// The numbers of a task's call on a port.
fn numbers(task: TaskId, call: u32, port: u64) -> Numbers
    ensures { result ≡ port_numbers task call port }
{
    Numbers {
        task: task.0,
        call,
        port,
        other: 0,
        amount: 0,
        offset: 0,
        flags: 0,
        mode: 0,
        owner: 0,
        group: 0,
        to: 0,
        active: 0,
        goaway: 0,
        brings: 0,
    }
}

/// A call of a task's opening, with its line.
///
/// Errors: `Bad` if it has none, since the line would be longer than a list may be, or a flag has no name; `Memory` at any point.
fn next_call(
    alloc: Global,
    task: TaskId,
    call: NextCall,
) -> Result<ListedCall<ServerBox>, ReadFault>
    ensures { IfOk result (λ c. HasLine (made_by task (Plain (call_of call))) (listed_by box_meaning c)) }
{
    match call {
        NextCall::DirLookup { dir, path, how } => {
            let numbers = Numbers {
                flags: u32::from(how.flags.bits()),
                mode: how.mode.bits(),
                ..numbers(task, DIR_LOOKUP, dir)
            };
            listed(alloc, &numbers, path.as_slice())
        }
        NextCall::IoReauthenticate { port } => {
            listed(alloc, &numbers(task, IO_REAUTHENTICATE, port), &[])
        }
        NextCall::PortDeallocate { port } => {
            listed(alloc, &numbers(task, PORT_DEALLOCATE, port), &[])
        }
    }
}

/// The call that starts a translator of these words, with its line; if no kind takes the words, the call that gives the start up.
fn starting(
    alloc: Global,
    task: TaskId,
    words: Words,
    begun: bool,
) -> Result<ListedCall<ServerBox>, ReadFault>
    requires { begun ≡ is_some (begin words) }
    ensures { IfOk result (λ c. HasLine (made_by task (start_call (begin words))) (listed_by box_meaning c)) }
{
    if begun {
        listed_start(alloc, task, words)
    } else {
        listed(alloc, &numbers(task, START_FAILED, 0), &[])
    }
}

/// Whether a kind takes these words. Fails only if memory runs out.
fn has_server(alloc: Global, words: &Words) -> Result<bool, AllocError>
    ensures { IfOk result (λ some. some ≡ is_some (begin words.now)) }
{
    Ok(server_for(alloc, words)?.is_some())
}

/// Starts the translator of these words, which the task is to start, and tells it; if no kind takes the words, gives the start up.
fn start(
    stage: &mut Stage,
    alloc: Global,
    task: TaskId,
    words: Words,
    told: &mut Vec<u8>,
) -> Result<Result<(), Errno>, ReadFault>
    ensures ok { IfOk result (λ end. Starts stage.old.learners task (begin words) (world_of box_meaning stage.old.world) end told.old.items told.new.items (world_of box_meaning stage.new.world)) }
    ensures err { IfErr result (λ _. (told.new.items ≡ told.old.items) × ((world_of box_meaning stage.new.world ≡ world_of box_meaning stage.old.world)
        ⊎ (world_of box_meaning stage.new.world ≡ after (world_of box_meaning stage.old.world) task.0 (start_call (begin words))))) }
    ensures learners { stage.new.learners ≡ stage.old.learners }
{
    let begun = has_server(alloc, &words)?;
    let call = starting(alloc, task, words, begun)?;
    let reply = stage.tell(alloc, call, told)?;
    if begun {
        Ok(started_of(reply))
    } else {
        Ok(Err(Errno::ENOENT))
    }
}

/// Makes the calls of an opening, and adds what each tells.
///
/// Errors: `Bad` if a call has no line; `Memory` at any point. Then some first calls were made and told, and perhaps the next was made.
pub(crate) fn open(
    stage: &mut Stage,
    alloc: Global,
    task: TaskId,
    opening: Opening,
    told: &mut Vec<u8>,
) -> Result<Result<u64, Errno>, ReadFault>
    ensures ok { IfOk result (λ end. Ran stage.old.learners task (opening_of opening) (world_of box_meaning stage.old.world) end told.old.items told.new.items (world_of box_meaning stage.new.world)) }
    ensures err { IfErr result (λ _. RanSome stage.old.learners task (opening_of opening) (world_of box_meaning stage.old.world) told.old.items told.new.items (world_of box_meaning stage.new.world)) }
    ensures learners { stage.new.learners ≡ stage.old.learners }
{
    let mut opening = opening;
    'turns: loop {
        match opening.next(alloc)? {
            Next::Ends(end) => return Ok(end),
            Next::Call(call) => {
                let call = next_call(alloc, task, call)?;
                let reply = stage.tell(alloc, call, told)?;
                match opening.replied(alloc, reply)? {
                    Turn::Onward(next) => opening = next,
                    Turn::Starts {
                        words,
                        opening: waiting,
                    } => {
                        let answer = start(stage, alloc, task, words, told)?;
                        opening = waiting.started(answer);
                    }
                }
            }
        }
    }
}
