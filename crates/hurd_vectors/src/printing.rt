//! Printing the vectors of a list.
ghost use Rattle.std.specs.Prelude.{◌≡◌, ◌≢◌, ℕ, true, Err, IfErr, IfOk, OnOk, Vec};
ghost use Rattle.std.specs.Global.{Global};
ghost use Rattle.std.specs.Option.{option_map};
ghost use Rattle.std.specs.Io.KnownBytes.{Appends};
ghost use Rattle.std.specs.List.{concat};
ghost use Rattle.hurd_terminal.specs.Faults.{AppendsFront, IsPrintFault};
ghost use Rattle.hurd_terminal.specs.Runs.{Adds};
ghost use Rattle.hurd_dialogue.specs.Sorts.{NotBegun};
ghost use Rattle.hurd_calls.specs.Lists.{lists};
ghost use Rattle.hurd_vectors.specs.Vectors.{vectors};
ghost use Rattle.hurd_vectors.specs.Ways.{Begins, Goes, left_of};

use crate::calling::vector;
use crate::header::header_of;
use hurd_calls::{begun, brought, parsed};
use hurd_kinds::{ServerBox, empty_tree};
use hurd_lists::{CallList, ListedCall};
use hurd_terminal::{Fault, Output};
use hurd_world::World;
use std::alloc::{AllocError, Global};
use std::collections::VecDeque;
use std::io::Write;

/// The calls of a list that are still to be made, and their world.
#[derive(Drop)]
struct Calls {
    world: Box<World<ServerBox>>,
    calls: VecDeque<ListedCall<ServerBox>>,
}

/// Reads a list, and begins the world of its tasks over an empty tree in memory.
///
/// Errors, in order: `Bad` with its first bad line, `Boot` with its world's refusal; `Memory` at any point.
#[tactic(auto, unfolding(hurd_kinds::specs::Boxes::box_meaning))]
fn begun_calls(alloc: Global, text: &[u8]) -> Result<Calls, Fault>
    ensures ok { IfOk result (λ calls. Begins text.now calls) }
    ensures err { IfErr result (λ fault. NotBegun lists text.now fault) }
{
    let CallList { tasks, calls } = parsed(alloc, text)?;
    let root = ServerBox::Tmpfs(empty_tree(alloc)?);
    let world = begun(alloc, root, tasks)?;
    Ok(Calls {
        world,
        calls: VecDeque::from(calls),
    })
}

/// Makes the next call, and gives its vector; none where all were made. Fails only if memory runs out.
fn next_vector(alloc: Global, calls: &mut Calls) -> Result<Option<Vec<u8>>, AllocError>
    ensures { IfOk result (λ vector. Goes calls.old (option_map (λ (v : Vec ℕ Global). v.items) vector) calls.new) }
{
    let Some(listed) = calls.calls.pop_front() else {
        return Ok(None);
    };
    let server = brought(alloc, &listed.server)?;
    Ok(Some(vector(&mut calls.world, alloc, listed, server)?))
}

/// Makes all calls that are left, and prints their vectors.
///
/// `Write` where these can't be written, `Memory`; then a front of them is printed.
fn print_calls<W: Write>(
    alloc: Global,
    calls: &mut Calls,
    output: &mut Output<W>,
) -> Result<(), Fault>
    ensures ok { OnOk result (Appends (W.contents output.old.writer) (W.contents output.new.writer) (concat (left_of calls.old))) }
    ensures err { IfErr result (λ fault. IsPrintFault output.new fault
        × AppendsFront (W.contents output.old.writer) (W.contents output.new.writer) (concat (left_of calls.old))) }
{
    while let Some(vector) = next_vector(alloc, calls)? {
        output.print(vector.as_slice())?;
    }
    Ok(())
}

/// Reads a list of calls, makes them over an empty tree in memory, and prints a line of JSON with its tasks, and one for each call with its reply.
///
/// `Bad` with the line at which it is bad, `Boot` with its world's refusal: then nothing is printed. `Write`, `Memory`: then a front is.
pub fn print_vectors<W: Write>(
    alloc: Global,
    text: &[u8],
    output: &mut Output<W>,
) -> Result<(), Fault>
    ensures adds { Adds vectors text.now (W.contents output.old.writer) (W.contents output.new.writer) result }
    ensures read { result ≢ Err Fault.Read }
    ensures write { result ≡ Err Fault.Write → output.new.failed ≡ true }
{
    let mut calls = begun_calls(alloc, text)?;
    let header = header_of(alloc, text)?;
    output.print(header.as_slice())?;
    print_calls(alloc, &mut calls, output)
}
