//! Starting the translator that a lookup came to, or giving that up (`fsys.defs`).
//!
//! In the Hurd the server that has a node starts its passive translator, and that one calls `fsys_startup`. Here both are done by the
//! task whose lookup came there.
ghost use Rattle.std.specs.Prelude.{◌≡◌, IfErr, option_copied};
ghost use Rattle.hurd_trans_iface.specs.Meaning.{Begins};
ghost use Rattle.hurd_machine.specs.Plan.{Follows, told};
ghost use Rattle.hurd_machine.specs.declared.call.Reply.TheVariants.{Done};
ghost use Rattle.hurd_machine.specs.World.{words_at};
ghost use Rattle.hurd_core.specs.Core.{without_box, world_of};
ghost use Rattle.hurd_core.specs.PortNode.{or_no_words};
ghost use Rattle.hurd_creds.specs.Memory.{MeetsOr};
ghost use Rattle.hurd_fsys.specs.Aims.{HasTargets};
ghost use Rattle.hurd_lookup.specs.Lacking.{TriedOr};
ghost use Rattle.hurd_fsys.specs.Starting.{StartFinds, StartLacks, header_told, plan_start_failed, plan_startup, same_words, start_aims, waiting_asks};

use crate::aims::aims;
use crate::setting::{root_mode, seat};
use hurd_core::{Core, ServerToMake};
use hurd_creds::{Attrs, Bytes, Errno, NodeName, TaskId};
use hurd_ports::PendingStart;
use hurd_trans_iface::{Server, Words};
use std::alloc::Global;

/// The task gives up what it was to start. Takes no memory.
///
/// Errors: `ESRCH` no such task, or it is to start nothing.
#[tactic(auto, unfolding(hurd_machine::specs::Plan::on, hurd_machine::specs::Plan::answered))]
pub fn start_failed<S: Server>(core: &mut Core<S>, task: TaskId) -> Result<(), Errno>
    ensures { let w = world_of S.meaning core.old in
        Follows w (plan_start_failed w task.0) (told (λ u. Done) result) (world_of S.meaning core.new) }
{
    let Some(_) = core.pending(task) else {
        return Err(Errno::ESRCH);
    };
    core.unpend(task)
}

/// Starts the translator that the task is to start, with this server, which becomes active on the node. It runs with the uid of
/// the node's owner; its root is like the node. The task is then to start nothing any more; nor is it where this is refused, except for
/// ENOMEM.
///
/// Errors, in order, with the box back: `ESRCH` no such task, or it is to start nothing, `EDIED` the node is gone, `EBUSY` a server is
/// active on it, or its words are others than those that the lookup found; of each target in order `EBUSY` a translator waits there that is to be started first, or those of its lookup, with the uid of the node's owner where the task
/// holds it or 0, else with no ids; `ENOTDIR` a union's target is no directory, `EOVERFLOW`, `ENOMEM`, which may come in place of what is asked of targets, or after that.
pub fn fsys_startup<S: Server>(
    core: &mut Core<S>,
    alloc: Global,
    task: TaskId,
    server: S,
) -> Result<(), (Errno, S)>
    requires { Begins (S.meaning server) }
    ensures tried { let w = world_of S.meaning core.old in let m = S.meaning server in
        TriedOr (StartLacks w task.0 m) w (plan_startup w task.0 m) (λ u. Done) (without_box result) (world_of S.meaning core.new) }
    ensures back { IfErr result (λ e. e.1 ≡ server) }
{
    let Some(start) = core.pending(task) else {
        return Err((Errno::ESRCH, server));
    };
    let node = start.node;
    let (attrs, targets) = match startup_asked(core, alloc, task, start, &server) {
        Ok(found) => found,
        Err(errno) if errno.is_no_memory() => return Err((errno, server)),
        Err(errno) => {
            let _ = core.unpend(task);
            return Err((errno, server));
        }
    };
    let place = ServerToMake {
        seat: node,
        owner: attrs.owner,
        group: attrs.group,
        mode: root_mode(server.root().kind, attrs.mode),
        instead: None,
        starts: true,
    };
    seat(core, alloc, task, place, targets, server)
}

/// The attributes of the node whose translator a task is to start, and the targets of its server, where that can be done, and the task can name two things more.
///
/// Errors, in order: `EDIED`, `EBUSY`, those of `aims`, `EOVERFLOW`.
fn startup_asked<S: Server>(
    core: &Core<S>,
    alloc: Global,
    task: TaskId,
    start: &PendingStart,
    server: &S,
) -> Result<(Attrs, Vec<NodeName>), Errno>
    ensures { StartFinds (world_of S.meaning core.now) task.0 (S.meaning server.now) start.now result }
{
    let attrs = waiting(core, start)?;
    let targets = start_aims(core, alloc, task, attrs.owner, server)?;
    core.naming(task, 2)?;
    Ok((attrs, targets))
}

/// The targets of a server that a task starts for a node of this owner.
///
/// Errors: `ESRCH` no such task, those of `aims`.
fn start_aims<S: Server>(
    core: &Core<S>,
    alloc: Global,
    task: TaskId,
    owner: u32,
    server: &S,
) -> Result<Vec<NodeName>, Errno>
    ensures { let m = S.meaning server.now in
        MeetsOr (HasTargets m) (λ nodes. nodes.items) (start_aims (world_of S.meaning core.now) task.0 m owner) result }
{
    let ids = core.ids(task)?;
    aims(core, alloc, ids, owner, server, Errno::EBUSY)
}

/// The attributes of a node that is there, with nothing active on it, and with the words that a lookup found.
///
/// Errors, in order: `EDIED`, `EBUSY`.
#[tactic(auto, unfolding(hurd_machine::specs::Plan::on, hurd_machine::specs::Plan::given))]
fn waiting<S: Server>(core: &Core<S>, start: &PendingStart) -> Result<Attrs, Errno>
    ensures { let w = world_of S.meaning core.now in header_told (words_at w start.now.node) result ≡ waiting_asks w start.now }
{
    let Some(attrs) = core.attrs(start.node) else {
        return Err(Errno::EDIED);
    };
    if core.active(start.node).is_some() || !is_stored(core.passive(start.node), &start.words) {
        return Err(Errno::EBUSY);
    }
    Ok(attrs)
}

/// Whether the words that are stored with a node, if there are any, are these.
fn is_stored(stored: Option<&Words>, words: &Words) -> bool
    ensures { result ≡ same_words (or_no_words (option_copied stored.entry)) words.now }
{
    match stored {
        Some(stored) => same_words(stored.as_slice(), words.as_slice()),
        None => !words.has_any(),
    }
}

/// Whether two lists of words are the same.
fn same_words(words: &[Bytes], others: &[Bytes]) -> bool
    ensures { result ≡ same_words words.now others.now }
{
    match words {
        [] => others.is_empty(),
        [word, words @ ..] => match others {
            [] => false,
            [other, others @ ..] => word.is(other.as_slice()) && same_words(words, others),
        },
    }
}
