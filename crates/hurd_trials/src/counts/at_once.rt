//! A list whose calls are made at once, by `World::run`.
ghost use Rattle.std.specs.Prelude.{◌≡◌, IfOk, OnOk};
ghost use Rattle.std.specs.Option.{option_map};
ghost use Rattle.hurd_kinds.specs.Boxes.{box_meaning};
ghost use Rattle.hurd_lists.specs.Calls.{begun};
ghost use Rattle.hurd_world.specs.Held.{AllBegun};

use crate::counts::boxes::Boxes;
use crate::counts::counted::Counted;
use crate::counts::run::followed;
use hurd_calls::brought;
use hurd_creds::{Bytes, TaskId};
use hurd_kinds::ServerBox;
use hurd_lists::{ListedCall, answered, with_server};
use hurd_terminal::{Fault, Output};
use hurd_trans_iface::Server;
use hurd_world::{Call, Reply, World};
use std::alloc::{AllocError, Global};
use std::io::Write;

/// Calls with the servers that they bring, and the lines that they stand on.
#[derive(Drop)]
struct Ready<S> {
    calls: Vec<(TaskId, Call<S>)>,
    lines: Vec<Bytes>,
}

/// One call more, with the server that its words make. Fails only if memory runs out.
fn add<S: Server>(
    ready: &mut Ready<S>,
    listed: ListedCall<S>,
    server: Option<S>,
) -> Result<(), AllocError>
    requires made { begun listed.server ≡ option_map S.meaning server }
    requires before { AllBegun S.meaning ready.old.calls.items }
    ensures { OnOk result (AllBegun S.meaning ready.new.calls.items) }
{
    let call = with_server(listed.call, server);
    ready.lines.push(listed.line)?;
    ready.calls.push((listed.task, call))?;
    Ok(())
}

/// The same, where the server is followed from now on. `Memory`.
fn add_followed<S: Server>(
    alloc: Global,
    boxes: &mut Boxes,
    ready: &mut Ready<Counted<S>>,
    listed: ListedCall<Counted<S>>,
    server: Option<S>,
) -> Result<(), Fault>
    requires made { begun listed.server ≡ option_map S.meaning server }
    requires before { AllBegun (λ (c : Counted S). S.meaning c.server) ready.old.calls.items }
    ensures { OnOk result (AllBegun (λ (c : Counted S). S.meaning c.server) ready.new.calls.items) }
{
    let server = followed(alloc, boxes, server)?;
    add(ready, listed, server)?;
    Ok(())
}

/// The calls of a list, with the servers that they bring. `Memory`.
fn all_ready(
    alloc: Global,
    boxes: &mut Boxes,
    calls: Vec<ListedCall<Counted<ServerBox>>>,
) -> Result<Ready<Counted<ServerBox>>, Fault>
    ensures { IfOk result (λ ready. AllBegun (λ (c : Counted ServerBox). box_meaning c.server) ready.calls.items) }
{
    let mut ready = Ready {
        calls: Vec::new(alloc),
        lines: Vec::new(alloc),
    };
    for listed in calls {
        let server = brought(alloc, &listed.server)?;
        add_followed(alloc, boxes, &mut ready, listed, server)?;
    }
    Ok(ready)
}

/// Prints a call and its reply. `Write`, `Memory`, also if the call found no memory.
fn tell<S: Server, W: Write>(
    alloc: Global,
    line: &Bytes,
    reply: &Reply<S>,
    output: &mut Output<W>,
) -> Result<(), Fault> {
    if reply.lacks_memory() {
        return Err(Fault::Memory);
    }
    let line = Bytes::copied(alloc, line.as_slice())?;
    let text = answered(alloc, line, reply)?.plain(alloc)?;
    output.print(text.as_slice())
}

/// Prints calls and their replies.
///
/// Faults as of `tell`.
fn tell_all<S: Server, W: Write>(
    alloc: Global,
    lines: &[Bytes],
    replies: &[Reply<S>],
    output: &mut Output<W>,
) -> Result<(), Fault> {
    for i in 0..lines.len() {
        if let Some(reply) = replies.get(i) {
            tell(alloc, &lines[i], reply, output)?;
        }
    }
    Ok(())
}

/// Makes all calls of a list at once, each with the server that it brings, and prints them with their replies; after these, what became of boxes.
///
/// Faults as of `tell`.
pub fn make_at_once<W: Write>(
    world: &mut World<Counted<ServerBox>>,
    alloc: Global,
    boxes: &mut Boxes,
    calls: Vec<ListedCall<Counted<ServerBox>>>,
    output: &mut Output<W>,
) -> Result<(), Fault> {
    let Ready { calls, lines } = all_ready(alloc, boxes, calls)?;
    let Ok(replies) = world.run(alloc, calls) else {
        return Err(Fault::Memory);
    };
    tell_all(alloc, &lines, &replies, output)?;
    drop(replies);
    boxes.tell(alloc, output)
}
