//! Doing what a lookup found.
ghost use Rattle.std.specs.Prelude.{◌≡◌, IsOk, Ok};
ghost use Rattle.std.specs.Option.{option_map};
ghost use Rattle.hurd_machine.specs.Plan.{Planned};
ghost use Rattle.hurd_machine.specs.declared.call.Reply.TheVariants.{Found};
ghost use Rattle.hurd_creds.specs.declared.open_flags.OpenFlags.{OpenFlags};
ghost use Rattle.hurd_core.specs.Core.{asked_only, world_of};
ghost use Rattle.hurd_lookup.specs.Lookup.{Retries, ending_asks, finding};
ghost use Rattle.hurd_lookup.specs.Ends.{CanBe, IsReady, Readies, found_of, port_of, ready_of};

use crate::authority::{Authority, NewPort};
use crate::end::Outcome;
use crate::retry::Onward;
use bitflags::Flags;
use hurd_core::{Core, NodeToMake};
use hurd_creds::{Bytes, Errno, Ids, OpenFlags, TaskId};
use hurd_machine::{Lookup, RetryKind};
use hurd_ports::{Parents, PendingStart};
use hurd_trans_iface::{Server, Words};
use std::alloc::Global;

/// What a lookup is to do, and by what it went.
#[derive(Clone, Copy, Debug)]
pub(crate) struct FoundAt<'a, 'p> {
    pub(crate) authority: Authority<'a>,
    pub(crate) outcome: Outcome<'p>,
}

/// The same, with all that a port of it has.
#[derive(Debug, Drop)]
pub(crate) enum Ready<'p> {
    Opens(NewPort),
    Makes(NodeToMake<'p>, Ids, Parents),
    /// How a name is looked up elsewhere, the name, and the port at which, if at one.
    Retries(RetryKind, Bytes, Option<NewPort>),
    /// What the task is to start, and the words that it is told.
    Starts(PendingStart, Words),
}

impl<'p> FoundAt<'_, 'p> {
    /// Whether the task has room for a port of it, if it makes one.
    ///
    /// Errors, in order: `ESRCH` no such task, `EOVERFLOW`.
    #[tactic(auto, unfolding(hurd_machine::specs::Plan::on))]
    #[inline(always)]
    fn has_room<S: Server>(&self, core: &Core<S>, task: TaskId) -> Result<(), Errno>
        ensures { let w = world_of S.meaning core.now in result ≡ asked_only (ending_asks w task.0 (found_of w self.now)) }
    {
        match &self.outcome {
            Outcome::Opens(_, _) => core.room(task, 1),
            Outcome::Makes(_) => core.room(task, 2),
            Outcome::Retries(retry) => match retry.onward {
                Onward::FromTop(_) => {
                    core.ids(task)?;
                    Ok(())
                }
                Onward::Within(_)
                | Onward::Aimed(_)
                | Onward::Into(_)
                | Onward::Back(_)
                | Onward::Beside(_, _) => core.room(task, 1),
            },
            Outcome::Starts(_) => {
                core.ids(task)?;
                Ok(())
            }
        }
    }

    /// Takes room for a port of it, the ids and ways that the port has, and the name that is told.
    ///
    /// Errors, in order: those of `has_room`, `ENOMEM`.
    #[inline(always)]
    pub(crate) fn ready<S: Server>(
        self,
        core: &Core<S>,
        alloc: Global,
        task: TaskId,
    ) -> Result<Ready<'p>, Errno>
        requires { CanBe (world_of S.meaning core.now) self }
        ensures { let w = world_of S.meaning core.now in Readies w task.0 (found_of w self.entry) result }
    {
        self.has_room(core, task)?;
        let authority = self.authority;
        match self.outcome {
            Outcome::Opens(node, entered) => {
                Ok(Ready::Opens(authority.port(alloc, node, entered)?))
            }
            Outcome::Makes(file) => {
                let ids = authority.ids.copied(alloc)?;
                let parents = authority.ways.copied(alloc)?;
                Ok(Ready::Makes(file, ids, parents))
            }
            Outcome::Retries(retry) => {
                let name = retry.name(core, alloc)?;
                let port = retry.onward.port(alloc, authority)?;
                Ok(Ready::Retries(retry.onward.kind(), name, port))
            }
            Outcome::Starts(node) => {
                let Some(words) = core.passive(node) else {
                    return Err(Errno::EDIED);
                };
                let told = words.copied(alloc)?;
                let words = words.copied(alloc)?;
                Ok(Ready::Starts(PendingStart { node, words }, told))
            }
        }
    }
}

impl Ready<'_> {
    /// Opens the node, makes the file and opens it, makes the port of a retry, or has the task start what waits on a node.
    ///
    /// `ENOMEM`.
    #[tactic(auto, unfolding(hurd_machine::specs::Plan::answered, hurd_machine::specs::Plan::first, hurd_machine::specs::Plan::on))]
    #[inline(always)]
    pub(crate) fn done<S: Server>(
        self,
        core: &mut Core<S>,
        alloc: Global,
        task: TaskId,
        flags: OpenFlags,
    ) -> Result<Lookup, Errno>
        requires { let w = world_of S.meaning core.old in IsReady w self × IsOk (ending_asks w task.0 (ready_of w self)) }
        ensures { let w = world_of S.meaning core.old in
            Planned w (finding w task.0 flags (Ok (ready_of w self.entry))) Found result (world_of S.meaning core.new) }
    {
        let modes = flags.open_modes();
        match self {
            Ready::Opens(port) => Ok(Lookup::Done(port.open(core, task, modes)?)),
            Ready::Makes(file, ids, parents) => {
                let port = core.make_file(alloc, task, file, ids, parents, modes)?;
                Ok(Lookup::Done(port))
            }
            Ready::Retries(kind, name, port) => retried(core, task, kind, name, port),
            Ready::Starts(start, words) => {
                core.pend(task, start)?;
                Ok(Lookup::Start { words })
            }
        }
    }
}

/// Makes the port of a retry, if it has one: that has no modes.
///
/// `ENOMEM`.
#[tactic(auto, unfolding(hurd_machine::specs::Plan::answered, hurd_machine::specs::Plan::first))]
fn retried<S: Server>(
    core: &mut Core<S>,
    task: TaskId,
    kind: RetryKind,
    name: Bytes,
    port: Option<NewPort>,
) -> Result<Lookup, Errno>
    requires { IsOk (ending_asks (world_of S.meaning core.old) task.0 (Retries kind name (option_map port_of port))) }
    ensures { (flags : OpenFlags) → let w = world_of S.meaning core.old in
        Planned w (finding w task.0 flags (Ok (Retries kind name (option_map port_of port)))) Found result (world_of S.meaning core.new) }
{
    match port {
        None => Ok(Lookup::Retry {
            kind,
            name,
            port: None,
        }),
        Some(port) => {
            let port = Some(port.open(core, task, OpenFlags::empty())?);
            Ok(Lookup::Retry { kind, name, port })
        }
    }
}
