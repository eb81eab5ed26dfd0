//! Making a call of a list, and telling it with its reply.
ghost use Rattle.std.specs.Prelude.{◌≡◌, IfOk, OnOk};
ghost use Rattle.std.specs.Option.{option_map};
ghost use Rattle.hurd_machine.specs.Calls.{reply_by};
ghost use Rattle.hurd_laws.specs.Step.{reply_of};
ghost use Rattle.hurd_lists.specs.Calls.{begun};
ghost use Rattle.hurd_lists.specs.Lists.{listed_by};
ghost use Rattle.hurd_world.specs.Held.{world_of};
ghost use Rattle.hurd_calls.specs.Making.{after_call};
ghost use Rattle.hurd_vectors.specs.Lines.{vector_of};
ghost use Rattle.hurd_vectors.specs.Vectors.{vector_in};

use crate::reply::push_reply;
use crate::telling::{line_words, push_call};
use hurd_lists::{ListedCall, with_server};
use hurd_trans_iface::Server;
use hurd_world::{Reply, World};
use std::alloc::{AllocError, Global};

/// A call's line with its reply, on a line. Fails only if memory runs out.
fn vector_of<S: Server>(alloc: Global, line: &[u8], reply: &Reply<S>) -> Result<Vec<u8>, AllocError>
    ensures { IfOk result (λ vector. vector.items ≡ vector_of line.now (reply_by S.meaning reply.now)) }
{
    let words = line_words(alloc, line)?;
    let mut vector = Vec::from_slice(alloc, b"{")?;
    push_call(alloc, &mut vector, words.as_slice())?;
    vector.extend_from_slice(b"\"reply\": ")?;
    push_reply(alloc, &mut vector, reply)?;
    vector.extend_from_slice(b"}\n")?;
    Ok(vector)
}

/// Makes a call with the server that its words make, and gives its vector. Fails only if memory runs out.
pub(crate) fn vector<S: Server>(
    world: &mut World<S>,
    alloc: Global,
    listed: ListedCall<S>,
    server: Option<S>,
) -> Result<Vec<u8>, AllocError>
    requires { begun listed.server ≡ option_map S.meaning server }
    ensures vector { IfOk result (λ vector. vector.items ≡ vector_in (listed_by S.meaning listed) (world_of S.meaning world.old)) }
    ensures world { OnOk result (world_of S.meaning world.new ≡ after_call (listed_by S.meaning listed) (world_of S.meaning world.old)) }
{
    let ListedCall {
        task,
        call,
        line,
        server: _,
    } = listed;
    let reply = world.call(alloc, task, with_server(call, server));
    if reply.lacks_memory() {
        return Err(AllocError);
    }
    vector_of(alloc, line.as_slice(), &reply)
}
