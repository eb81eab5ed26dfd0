//! Making one call, and giving its reply.
ghost use Rattle.std.specs.Prelude.{◌≡◌, ◌⊎◌, false, IfErr, IfOk, OnOk, Some};
ghost use Rattle.std.specs.Option.{option_map};
ghost use Rattle.hurd_kinds.specs.Boxes.{box_meaning};
ghost use Rattle.hurd_laws.specs.Step.{reply_of};
ghost use Rattle.hurd_lists.specs.Calls.{begun};
ghost use Rattle.hurd_lists.specs.Lists.{listed_by};
ghost use Rattle.hurd_machine.specs.Calls.{reply_by};
ghost use Rattle.hurd_machine.specs.Sound.{Sound};
ghost use Rattle.hurd_world.specs.Held.{state_of, world_of};
ghost use Rattle.hurd_world.specs.Noting.{NotesWhatIsTouched};
ghost use Rattle.hurd_calls.specs.Making.{after_call};
ghost use Rattle.hurd_teaching.specs.Watched.{SeenOf, Sees};
ghost use Rattle.hurd_sitting.specs.Replies.{Replies};
ghost use Rattle.hurd_sitting.specs.Watching.{SeenBy};

use hurd_calls::brought;
use hurd_creds::Bytes;
use hurd_kinds::ServerBox;
use hurd_lists::{ListedCall, with_server};
use hurd_machine::Reply;
use hurd_teaching::{Learners, Watch, look_before, said_if_moved};
use hurd_trans_iface::Server;
use hurd_world::World;
use std::alloc::{AllocError, Global};

/// The reply to a call, and what is told of it.
#[derive(Drop)]
pub(crate) struct Replied {
    pub reply: Reply<ServerBox>,
    pub told: Bytes,
}

/// Makes a call with the server that it brings, and gives its reply. Fails only if memory runs out: then the call was made, or nothing changed.
fn reply_to<S: Server>(
    world: &mut World<S>,
    alloc: Global,
    listed: ListedCall<S>,
    server: Option<S>,
) -> Result<Reply<S>, AllocError>
    requires { begun listed.server ≡ option_map S.meaning server }
    ensures reply { IfOk result (λ reply. reply_by S.meaning reply ≡ reply_of (world_of S.meaning world.old) listed.task.0 (listed_by S.meaning listed).call) }
    ensures world { OnOk result (world_of S.meaning world.new ≡ after_call (listed_by S.meaning listed) (world_of S.meaning world.old)) }
    ensures err { IfErr result (λ _. (world_of S.meaning world.new ≡ world_of S.meaning world.old)
        ⊎ (world_of S.meaning world.new ≡ after_call (listed_by S.meaning listed) (world_of S.meaning world.old))) }
    ensures noted { NotesWhatIsTouched (state_of S.meaning world.old) (state_of S.meaning world.new) }
    ensures sound { Sound (world_of S.meaning world.old) → Sound (world_of S.meaning world.new) }
{
    let ListedCall {
        task,
        call,
        line: _,
        server: _,
    } = listed;
    let reply = world.call(alloc, task, with_server(call, server));
    if reply.lacks_memory() {
        return Err(AllocError);
    }
    Ok(reply)
}

/// The same, with the server that its words make.
fn reply_by_words(
    world: &mut World<ServerBox>,
    alloc: Global,
    listed: ListedCall<ServerBox>,
) -> Result<Reply<ServerBox>, AllocError>
    ensures reply { IfOk result (λ reply. reply_by box_meaning reply ≡ reply_of (world_of box_meaning world.old) listed.task.0 (listed_by box_meaning listed).call) }
    ensures world { OnOk result (world_of box_meaning world.new ≡ after_call (listed_by box_meaning listed) (world_of box_meaning world.old)) }
    ensures err { IfErr result (λ _. (world_of box_meaning world.new ≡ world_of box_meaning world.old)
        ⊎ (world_of box_meaning world.new ≡ after_call (listed_by box_meaning listed) (world_of box_meaning world.old))) }
    ensures noted { OnOk result (NotesWhatIsTouched (state_of box_meaning world.old) (state_of box_meaning world.new)) }
    ensures sound { Sound (world_of box_meaning world.old) → Sound (world_of box_meaning world.new) }
{
    let server = brought(alloc, &listed.server)?;
    reply_to(world, alloc, listed, server)
}

/// Looks at what these see before a call by another, unless that was done, and notes from then on what is touched. Fails only if memory runs out.
fn looked(
    world: &mut World<ServerBox>,
    alloc: Global,
    learners: &Learners,
    watch: &mut Watch,
    quiet: bool,
) -> Result<(), AllocError>
    requires { SeenOf learners.now.tasks.items (world_of box_meaning world.old) watch.old.seen }
    ensures sees { OnOk result (quiet ≡ false → Sees learners.now.tasks.items (world_of box_meaning world.old) watch.new.seen) }
    ensures world { world_of box_meaning world.new ≡ world_of box_meaning world.old }
{
    look_before(alloc, world, learners, watch, quiet)?;
    if !quiet {
        world.note();
    }
    Ok(())
}

/// Makes a call, and gives its reply, and what these learn by it. Fails only if memory runs out: then the call was made, or nothing changed.
fn replied_before(
    world: &mut World<ServerBox>,
    alloc: Global,
    listed: ListedCall<ServerBox>,
    learners: &Learners,
    watch: &mut Watch,
) -> Result<Replied, AllocError>
    requires sound { Sound (world_of box_meaning world.old) }
    requires seen { SeenOf learners.now.tasks.items (world_of box_meaning world.old) watch.old.seen }
    ensures replies { IfOk result (λ r. Replies (Some learners.now) (listed_by box_meaning listed) (world_of box_meaning world.old) (reply_by box_meaning r.reply) r.told (world_of box_meaning world.new)) }
    ensures seen { OnOk result (SeenOf learners.now.tasks.items (world_of box_meaning world.new) watch.new.seen) }
    ensures sound { Sound (world_of box_meaning world.new) }
    ensures err { IfErr result (λ _. (world_of box_meaning world.new ≡ world_of box_meaning world.old)
        ⊎ (world_of box_meaning world.new ≡ after_call (listed_by box_meaning listed) (world_of box_meaning world.old))) }
{
    let quiet = learners.have(listed.task);
    looked(world, alloc, learners, watch, quiet)?;
    let reply = reply_by_words(world, alloc, listed)?;
    let unmoved = !quiet && watch.misses(world.noted());
    let told = said_if_moved(alloc, world, learners, watch, quiet, unmoved)?;
    Ok(Replied { reply, told })
}

/// Makes a call, and gives its reply, and what is told of it where some are told what they learn. Fails only if memory runs out: then the call was made, or
/// nothing changed.
pub(crate) fn replied_with(
    world: &mut World<ServerBox>,
    alloc: Global,
    listed: ListedCall<ServerBox>,
    learners: &Option<Box<Learners>>,
    watch: &mut Watch,
) -> Result<Replied, AllocError>
    requires sound { Sound (world_of box_meaning world.old) }
    requires seen { SeenBy (option_map (λ v. v.value) learners.now) (world_of box_meaning world.old) watch.old.seen }
    ensures replies { IfOk result (λ r. Replies (option_map (λ v. v.value) learners.now) (listed_by box_meaning listed) (world_of box_meaning world.old) (reply_by box_meaning r.reply) r.told (world_of box_meaning world.new)) }
    ensures seen { OnOk result (SeenBy (option_map (λ v. v.value) learners.now) (world_of box_meaning world.new) watch.new.seen) }
    ensures sound { Sound (world_of box_meaning world.new) }
    ensures err { IfErr result (λ _. (world_of box_meaning world.new ≡ world_of box_meaning world.old)
        ⊎ (world_of box_meaning world.new ≡ after_call (listed_by box_meaning listed) (world_of box_meaning world.old))) }
{
    match learners {
        Some(learners) => replied_before(world, alloc, listed, learners, watch),
        None => {
            let reply = reply_by_words(world, alloc, listed)?;
            let told = Bytes::new(Vec::new(alloc));
            Ok(Replied { reply, told })
        }
    }
}
