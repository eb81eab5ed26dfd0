//! A script whose boxes are followed: what becomes of those that its session is supplied with.
ghost use Rattle.std.specs.Prelude.{IfOk, IfSome};
ghost use Rattle.hurd_trans_iface.specs.Meaning.{Begins};
ghost use Rattle.hurd_kinds.specs.Boxes.{box_meaning};

use crate::counts::boxes::Boxes;
use crate::counts::counted::Counted;
use hurd_dialogue::boxed;
use hurd_kinds::{ServerBox, empty_tree, server_for};
use hurd_shell::{Session, Want};
use hurd_small::FixedServer;
use hurd_terminal::{Fault, Input, Output, finish, read_text};
use hurd_trans_iface::Words;
use std::alloc::Global;
use std::io::{Read, Write};

/// Over which server a session begins.
#[derive(Clone, Copy)]
pub enum Under {
    /// An empty tree in memory.
    Tree,
    /// A file, over which no session begins.
    File,
}

/// The server under a session. `Memory`.
#[tactic(auto, unfolding(hurd_kinds::specs::Boxes::box_meaning))]
fn root(alloc: Global, under: Under) -> Result<ServerBox, Fault>
    ensures { IfOk result (λ root. Begins (box_meaning root)) }
{
    match under {
        Under::Tree => Ok(ServerBox::Tmpfs(empty_tree(alloc)?)),
        Under::File => {
            let Ok(words) = Words::new(alloc, &[b"/hurd/hello"]) else {
                return Err(Fault::Memory);
            };
            let Ok(server) = FixedServer::new(alloc, &words) else {
                return Err(Fault::Memory);
            };
            Ok(ServerBox::Fixed(boxed(alloc, server)?))
        }
    }
}

/// Supplies a session with a followed server, or says that there is none. `Memory`.
fn supply(
    alloc: Global,
    session: &mut Session<Counted<ServerBox>>,
    boxes: &mut Boxes,
    server: Option<ServerBox>,
) -> Result<(), Fault>
    requires { IfSome server (λ s. Begins (box_meaning s)) }
{
    match server {
        Some(server) => {
            let server = boxes.follow(alloc, server)?;
            session.supply(alloc, server).map_err(|_| Fault::Memory)
        }
        None => session.supply_none(alloc).map_err(|_| Fault::Memory),
    }
}

/// Goes on by one answer, or to the next server that is asked for; whether there was anything. `Write`, `Memory`.
fn go_on<W: Write>(
    alloc: Global,
    session: &mut Session<Counted<ServerBox>>,
    boxes: &mut Boxes,
    output: &mut Output<W>,
) -> Result<bool, Fault> {
    match session.next(alloc)? {
        Want::Output(answer) => {
            let text = answer.plain(alloc)?;
            output.print(text.as_slice())?;
            boxes.tell(alloc, output)?;
            Ok(true)
        }
        Want::Server(words) => {
            let server = server_for(alloc, &words)?;
            supply(alloc, session, boxes, server)?;
            Ok(true)
        }
        Want::Done => Ok(false),
    }
}

/// Makes the commands of a script, and says after each what became of boxes. `Bad`, `Boot`, `Write`, `Memory`.
fn perform<W: Write>(
    alloc: Global,
    text: &[u8],
    under: Under,
    boxes: &mut Boxes,
    output: &mut Output<W>,
) -> Result<(), Fault> {
    let root = root(alloc, under)?;
    let root = boxes.follow(alloc, root)?;
    let mut session = boxed(alloc, Session::new(alloc, text, root)?)?;
    for _ in 0..u64::MAX {
        if !go_on(alloc, &mut session, boxes, output)? {
            return Ok(());
        }
    }
    Ok(())
}

/// The same; and in the end, when the session is dropped, or its world was refused, what became of boxes then.
fn run_text<W: Write>(
    alloc: Global,
    text: &[u8],
    under: Under,
    output: &mut Output<W>,
) -> Result<(), Fault> {
    let mut boxes = Boxes::new(alloc);
    let ended = perform(alloc, text, under, &mut boxes, output);
    match ended {
        Ok(()) => output.print(b"the session is dropped\n")?,
        Err(Fault::Boot(_)) => output.print(b"no session was begun\n")?,
        Err(_) => return ended,
    }
    boxes.tell(alloc, output)?;
    ended
}

/// Reads a script, makes its commands, and says of a fault why; returns the exit status.
pub fn script<R: Read, W: Write, E: Write>(
    alloc: Global,
    under: Under,
    input: &mut Input<R>,
    output: &mut Output<W>,
    errors: &mut Output<E>,
) -> u8 {
    let ended = match read_text(alloc, input) {
        Ok(text) => run_text(alloc, text.as_slice(), under, output),
        Err(fault) => Err(fault),
    };
    finish(ended, b"standard input", b"", b"", errors)
}
