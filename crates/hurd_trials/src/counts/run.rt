//! A list of calls whose boxes are followed.
ghost use Rattle.std.specs.Prelude.{◌≡◌, IfOk};
ghost use Rattle.std.specs.Option.{option_map};
ghost use Rattle.hurd_lists.specs.Calls.{begun};
ghost use Rattle.hurd_tmpfs.specs.Tree.{new_tmpfs};

use crate::counts::at_once::make_at_once;
use crate::counts::boxes::Boxes;
use crate::counts::counted::Counted;
use hurd_calls::{answer, begun, brought, complaint_of, parsed};
use hurd_creds::{Bytes, Ids};
use hurd_kinds::{ServerBox, empty_tree};
use hurd_lists::{CallList, ListedCall};
use hurd_terminal::{Fault, Input, Output, finish, read_text};
use hurd_trans_iface::Server;
use hurd_world::World;
use std::alloc::Global;
use std::io::{Read, Write};

/// The server that a call brings, followed from now on, if it brings one. `Memory`.
pub fn followed<S: Server>(
    alloc: Global,
    boxes: &mut Boxes,
    server: Option<S>,
) -> Result<Option<Counted<S>>, Fault>
    ensures { IfOk result (λ counted. option_map (λ (c : Counted S). c.server) counted ≡ server) }
{
    match server {
        Some(server) => Ok(Some(boxes.follow(alloc, server)?)),
        None => Ok(None),
    }
}

/// A world of tasks over an empty tree in memory, whose box is followed.
///
/// `Boot` with the world's refusal, `Memory`.
pub fn boot<S: Server>(
    alloc: Global,
    boxes: &mut Boxes,
    root: S,
    tasks: Vec<Ids>,
) -> Result<Box<World<Counted<S>>>, Fault>
    requires { S.meaning root ≡ new_tmpfs }
{
    let root = boxes.follow(alloc, root)?;
    begun(alloc, root, tasks)
}

/// Makes a call with the server that its words make, and gives what is printed of it and its reply. `Memory`.
pub fn made<S: Server>(
    world: &mut World<Counted<S>>,
    alloc: Global,
    boxes: &mut Boxes,
    listed: ListedCall<Counted<S>>,
    server: Option<S>,
) -> Result<Bytes, Fault>
    requires { begun listed.server ≡ option_map S.meaning server }
{
    let server = followed(alloc, boxes, server)?;
    let answer = answer(world, alloc, listed, server)?;
    Ok(Bytes::new(answer.plain(alloc)?))
}

/// Makes a call with the server that its words make, and prints it, its reply, and what became of boxes.
///
/// `Write`, `Memory`.
fn make<S: Server, W: Write>(
    world: &mut World<Counted<S>>,
    alloc: Global,
    boxes: &mut Boxes,
    listed: ListedCall<Counted<S>>,
    server: Option<S>,
    output: &mut Output<W>,
) -> Result<(), Fault>
    requires { begun listed.server ≡ option_map S.meaning server }
{
    let part = made(world, alloc, boxes, listed, server)?;
    output.print(part.as_slice())?;
    boxes.tell(alloc, output)
}

/// Makes calls, each with the server that it brings.
///
/// Faults as of `make`.
fn make_all<W: Write>(
    world: &mut World<Counted<ServerBox>>,
    alloc: Global,
    boxes: &mut Boxes,
    calls: Vec<ListedCall<Counted<ServerBox>>>,
    output: &mut Output<W>,
) -> Result<(), Fault> {
    for listed in calls {
        let server = brought(alloc, &listed.server)?;
        make(world, alloc, boxes, listed, server, output)?;
    }
    Ok(())
}

/// How the calls of a list are made.
#[derive(Clone, Copy)]
pub enum Manner {
    /// One after another, by `World::call`.
    InTurn,
    /// All at once, by `World::run`.
    AtOnce,
}

/// Makes the calls of a list over an empty tree in memory, and says what became of boxes: after each call, or after all where they are made at once.
///
/// `Bad`, `Boot`, `Write`, `Memory`.
#[tactic(auto, unfolding(hurd_kinds::specs::Boxes::box_meaning))]
fn perform<W: Write>(
    alloc: Global,
    text: &[u8],
    manner: Manner,
    boxes: &mut Boxes,
    output: &mut Output<W>,
) -> Result<(), Fault> {
    let CallList { tasks, calls } = parsed(alloc, text)?;
    let root = ServerBox::Tmpfs(empty_tree(alloc)?);
    let mut world = boot(alloc, boxes, root, tasks)?;
    match manner {
        Manner::InTurn => make_all(&mut world, alloc, boxes, calls, output),
        Manner::AtOnce => make_at_once(&mut world, alloc, boxes, calls, output),
    }
}

/// Makes the calls of a list, and says what became of boxes, also in the end, when the world is dropped.
///
/// `Bad` with its first bad line, `Boot` with the world's refusal, `Write`, `Memory`.
fn run_text<W: Write>(
    alloc: Global,
    text: &[u8],
    manner: Manner,
    output: &mut Output<W>,
) -> Result<(), Fault> {
    let mut boxes = Boxes::new(alloc);
    perform(alloc, text, manner, &mut boxes, output)?;
    output.print(b"the world is dropped\n")?;
    boxes.tell(alloc, output)
}

/// Says why a list is bad, or that memory was refused for that; returns the exit status.
fn blame<E: Write>(alloc: Global, text: &[u8], line: u64, errors: &mut Output<E>) -> u8 {
    match complaint_of(alloc, text) {
        Ok(said) => finish(
            Err(Fault::Bad { line }),
            b"standard input",
            said.as_slice(),
            b"",
            errors,
        ),
        Err(_) => finish(Err(Fault::Memory), b"standard input", b"", b"", errors),
    }
}

/// Runs a list, and says of a fault why; returns the exit status.
fn run<W: Write, E: Write>(
    alloc: Global,
    text: &[u8],
    manner: Manner,
    output: &mut Output<W>,
    errors: &mut Output<E>,
) -> u8 {
    match run_text(alloc, text, manner, output) {
        Err(Fault::Bad { line }) => blame(alloc, text, line, errors),
        ended => finish(ended, b"standard input", b"", b"", errors),
    }
}

/// The whole program: reads a list, runs it, and says of a fault why; returns the exit status.
pub fn program<R: Read, W: Write, E: Write>(
    alloc: Global,
    manner: Manner,
    input: &mut Input<R>,
    output: &mut Output<W>,
    errors: &mut Output<E>,
) -> u8 {
    match read_text(alloc, input) {
        Ok(text) => run(alloc, text.as_slice(), manner, output, errors),
        Err(fault) => finish(Err(fault), b"standard input", b"", b"", errors),
    }
}
