//! Making a call of a list, with the server that it brings.
ghost use Rattle.std.specs.Prelude.{◌≡◌, ◌⊎◌, IfErr, IfOk, OnOk};
ghost use Rattle.std.specs.Option.{option_map};
ghost use Rattle.hurd_kinds.specs.Boxes.{box_meaning};
ghost use Rattle.hurd_world.specs.Held.{state_of, world_of};
ghost use Rattle.hurd_world.specs.Noting.{NotesWhatIsTouched};
ghost use Rattle.hurd_lists.specs.Calls.{begun};
ghost use Rattle.hurd_lists.specs.Lists.{listed_by};
ghost use Rattle.hurd_calls.specs.Making.{after_call, answer_to};

use hurd_creds::Errno;
use hurd_kinds::{ServerBox, server_for};
use hurd_lists::{ListedCall, answered, with_server};
use hurd_trans_iface::{Server, Words};
use hurd_words::answers::Answer;
use hurd_world::{Reply, World};
use std::alloc::{AllocError, Global};

/// The server that the words of a call make, where it brings any; none also where no kind takes them. Fails only if memory runs out.
pub fn brought(alloc: Global, words: &Option<Words>) -> Result<Option<ServerBox>, AllocError>
    ensures { IfOk result (λ server. begun words.now ≡ option_map box_meaning server) }
{
    match words {
        Some(words) => server_for(alloc, words),
        None => Ok(None),
    }
}

/// Makes a call with the server that its words make, and gives its answer. Fails only if memory runs out: then the call was made, or nothing changed.
pub fn answer<S: Server>(
    world: &mut World<S>,
    alloc: Global,
    listed: ListedCall<S>,
    server: Option<S>,
) -> Result<Answer, AllocError>
    requires { begun listed.server ≡ option_map S.meaning server }
    ensures answer { IfOk result (λ answer. answer ≡ answer_to (listed_by S.meaning listed) (world_of S.meaning world.old)) }
    ensures world { OnOk result (world_of S.meaning world.new ≡ after_call (listed_by S.meaning listed) (world_of S.meaning world.old)) }
    ensures err { IfErr result (λ _. (world_of S.meaning world.new ≡ world_of S.meaning world.old)
        ⊎ (world_of S.meaning world.new ≡ after_call (listed_by S.meaning listed) (world_of S.meaning world.old))) }
    ensures noted { NotesWhatIsTouched (state_of S.meaning world.old) (state_of S.meaning world.new) }
{
    let ListedCall {
        task,
        call,
        line,
        server: _,
    } = listed;
    let reply = world.call(alloc, task, with_server(call, server));
    if reply.lacks_memory() {
        return Err(AllocError);
    }
    Ok(answered(alloc, line, &reply)?)
}
