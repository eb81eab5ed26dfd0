//! Reading a list, and beginning the world of its tasks.
ghost use Rattle.std.specs.Prelude.{◌≡◌, Ok, Err, IfErr, IfOk};
ghost use Rattle.hurd_tmpfs.specs.Tree.{new_tmpfs};
ghost use Rattle.hurd_machine.specs.Sound.{Sound};
ghost use Rattle.hurd_world.specs.Boot.{boot_of, first_world};
ghost use Rattle.hurd_world.specs.Held.{world_of};
ghost use Rattle.hurd_kinds.specs.Boxes.{box_meaning};
ghost use Rattle.hurd_lists.specs.Lists.{Parses, reading_of, said_by};
ghost use Rattle.hurd_calls.specs.Faults.{NotBegun, NotRead};
ghost use Rattle.hurd_calls.specs.Lists.{lists};

use hurd_creds::{Errno, Ids};
use hurd_dialogue::{boxed, complaint};
use hurd_kinds::ServerBox;
use hurd_lists::{CallList, ListFault, parse_calls};
use hurd_terminal::Fault;
use hurd_trans_iface::Server;
use hurd_world::World;
use std::alloc::{AllocError, Global};

/// A world of tasks over an empty tree in memory.
///
/// Errors, in order: `Boot` with the world's refusal, `Memory`.
pub fn begun<S: Server>(alloc: Global, root: S, tasks: Vec<Ids>) -> Result<Box<World<S>>, Fault>
    requires { S.meaning root ≡ new_tmpfs }
    ensures ok { IfOk result (λ world. (boot_of new_tmpfs tasks.items ≡ Ok tt) × (world_of S.meaning world.value ≡ first_world new_tmpfs tasks.items)) }
    ensures err { IfErr result (λ fault. NotBegun new_tmpfs tasks.items fault) }
    ensures sound { IfOk result (λ world. Sound (world_of S.meaning world.value)) }
{
    match World::boot(alloc, root, tasks) {
        Ok(world) => Ok(boxed(alloc, world)?),
        Err((Errno::ENOMEM, _)) => Err(Fault::Memory),
        Err((errno, _)) => Err(Fault::Boot(errno)),
    }
}

/// Reads a list's text.
///
/// Errors: `Bad` with its first bad line, `Memory`.
pub fn parsed<S: Server>(alloc: Global, text: &[u8]) -> Result<CallList<S>, Fault>
    ensures ok { IfOk result (λ list. reading_of text.now ≡ Ok (said_by S.meaning list)) }
    ensures err { IfErr result (λ fault. NotRead (reading_of text.now) fault) }
{
    match parse_calls(alloc, text) {
        Ok(list) => Ok(list),
        Err(ListFault::Bad { line, .. }) => Err(Fault::Bad { line }),
        Err(ListFault::Memory) => Err(Fault::Memory),
    }
}

/// The same of a list that was not read for this reason.
fn blamed(alloc: Global, text: &[u8], fault: ListFault) -> Result<Vec<u8>, AllocError>
    requires { Parses box_meaning (reading_of text.now) (Err fault) }
    ensures { IfOk result (λ said. said.items ≡ lists.complaint text.now) }
{
    match fault {
        ListFault::Bad { line, flaw } => complaint(
            alloc,
            ": bad call list: ",
            text,
            line,
            flaw.text(),
        ),
        ListFault::Memory => Err(AllocError),
    }
}

/// What is said after the name of a file whose list is bad: the line, why, and what is there; of a good one nothing. Fails only if memory runs out.
pub fn complaint_of(alloc: Global, text: &[u8]) -> Result<Vec<u8>, AllocError>
    ensures { IfOk result (λ said. said.items ≡ lists.complaint text.now) }
{
    match parse_calls::<ServerBox>(alloc, text) {
        Ok(_) => Ok(Vec::new(alloc)),
        Err(fault) => blamed(alloc, text, fault),
    }
}
