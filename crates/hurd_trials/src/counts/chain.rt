//! A chain of servers, each on a file of the one before, that all go in one call.
//!
//! One list of calls has no room for ten thousand of them, so each comes by a list of its own.
use crate::counts::boxes::Boxes;
use crate::counts::counted::Counted;
use crate::counts::run::{boot, made};
use hurd_calls::{brought, parsed};
use hurd_kinds::{ServerBox, empty_tree};
use hurd_lists::CallList;
use hurd_terminal::{Fault, Output};
use hurd_world::World;
use std::alloc::{AllocError, Global};
use std::io::Write;

/// The port on the root of the server of this number; number 0 is the boot server.
fn root_port(number: u64) -> u64 {
    if number == 0 {
        return 1;
    }
    number.saturating_mul(3).saturating_add(2)
}

/// The calls that put the tree of this number on a file of the one before, and keep a port on its root alone.
fn link(alloc: Global, number: u64) -> Result<String, AllocError> {
    let root = root_port(number.saturating_sub(1));
    let seat = number.saturating_mul(3);
    let control = seat.saturating_add(1);
    format!(in alloc;
        "task 0 0\n\
        0 dir_lookup {root} =f CREATE,NOTRANS 0\n\
        0 file_set_translator {seat} - SET - box =/hurd/tmpfs\n\
        0 file_get_translator_cntl {seat}\n\
        0 fsys_getroot {control} 1 -\n\
        0 port_deallocate {control}\n"
    )
}

/// The calls that give up what the link of this number left except for the root of its own server.
fn less(alloc: Global, number: u64) -> Result<String, AllocError> {
    let root = root_port(number.saturating_sub(1));
    let seat = number.saturating_mul(3);
    format!(in alloc; "task 0 0\n0 port_deallocate {seat}\n0 port_deallocate {root}\n")
}

/// The call that gives up the root of the server of this number, the last.
fn end(alloc: Global, number: u64) -> Result<String, AllocError> {
    let root = root_port(number);
    format!(in alloc; "task 0 0\n0 port_deallocate {root}\n")
}

/// Makes the calls of a list, and prints nothing.
///
/// `Bad`, `Memory`.
fn make_silently(
    world: &mut World<Counted<ServerBox>>,
    alloc: Global,
    boxes: &mut Boxes,
    text: &[u8],
) -> Result<(), Fault> {
    let CallList { tasks: _, calls } = parsed(alloc, text)?;
    for listed in calls {
        let server = brought(alloc, &listed.server)?;
        made(world, alloc, boxes, listed, server)?;
    }
    Ok(())
}

/// Puts the server of this number on a file of the one before.
///
/// Faults as of `make_silently`.
fn extend(
    world: &mut World<Counted<ServerBox>>,
    alloc: Global,
    boxes: &mut Boxes,
    number: u64,
) -> Result<(), Fault> {
    let text = link(alloc, number)?;
    make_silently(world, alloc, boxes, text.as_bytes())?;
    if number == 1 {
        return Ok(());
    }
    let text = less(alloc, number)?;
    make_silently(world, alloc, boxes, text.as_bytes())
}

/// Makes a chain of so many servers, and lets the first lose its seat; says before and after that call what became of boxes in all.
///
/// `Bad`, `Boot`, `Write`, `Memory`.
#[tactic(auto, unfolding(hurd_kinds::specs::Boxes::box_meaning))]
fn chained<W: Write>(
    alloc: Global,
    servers: u64,
    boxes: &mut Boxes,
    output: &mut Output<W>,
) -> Result<(), Fault> {
    let CallList { tasks, calls: _ } = parsed::<Counted<ServerBox>>(alloc, b"task 0 0\n")?;
    let root = ServerBox::Tmpfs(empty_tree(alloc)?);
    let mut world = boot(alloc, boxes, root, tasks)?;
    for number in 1..=servers {
        extend(&mut world, alloc, boxes, number)?;
    }
    let text = end(alloc, servers)?;
    make_silently(&mut world, alloc, boxes, text.as_bytes())?;
    boxes.tell_all(alloc, output)?;
    make_silently(
        &mut world,
        alloc,
        boxes,
        b"task 0 0\n0 file_set_translator 3 - SET,ORPHAN -\n",
    )?;
    boxes.tell_all(alloc, output)
}

/// The same, and says also what became of boxes when the world was dropped.
///
/// Faults as of `chained`.
pub fn chain<W: Write>(alloc: Global, servers: u64, output: &mut Output<W>) -> Result<(), Fault> {
    let mut boxes = Boxes::new(alloc);
    chained(alloc, servers, &mut boxes, output)?;
    output.print(b"the world is dropped\n")?;
    boxes.tell_all(alloc, output)
}
