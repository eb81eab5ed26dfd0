//! The world, and the calls of its tasks.
ghost use Rattle.std.specs.Prelude.{◌≡◌, ◌⊎◌, [], IfOk, IfErr, IsOk, map, Ok, Err};
ghost use Rattle.hurd_trans_iface.specs.Meaning.{Begins};
ghost use Rattle.hurd_nodes.specs.Shown.{HideNothing};
ghost use Rattle.hurd_machine.specs.Calls.{BringsBegun, call_by, reply_by};
ghost use Rattle.hurd_machine.specs.Sound.{Sound};
ghost use Rattle.hurd_laws.specs.Called.{Called};
ghost use Rattle.hurd_laws.specs.Integrity.{KeepsIntegrity};
ghost use Rattle.hurd_laws.specs.Refusals.{LeavesIfRefused};
ghost use Rattle.hurd_laws.specs.Served.{Served, BoundedRun, ComparedRun, IsolatedRun, kept};
ghost use Rattle.hurd_laws.specs.ServedByLooks.{ComparedByLooks};
ghost use Rattle.hurd_laws.specs.Spared.{SparesAll};
ghost use Rattle.hurd_world.specs.Held.{AllBegun, AllComeBack, ComesBack, made_by, state_of, world_of};
ghost use Rattle.hurd_world.specs.Noting.{NotesWhatIsTouched};
ghost use Rattle.hurd_world.specs.Boot.{boot_of, first_world};

use crate::boot::{first_ports, is_aimed};
use crate::rows::dispatch;
use hurd_core::Core;
use hurd_creds::{Errno, Ids, Kind, TaskId};
use hurd_machine::{Call, Reply};
use hurd_touches::Noted;
use hurd_trans_iface::Server;
use std::alloc::{AllocError, Global};
use std::marker::Model;

/// Tasks with their ports over a tree of nodes (GNU Hurd Reference Manual), and the parts that calls touched since these were to be
/// noted: at first any.
#[derive(Drop)]
pub struct World<S: Server = Box<dyn Server>> {
    core: Core<S>,
    noted: Noted,
}

impl<S: Server> Model for World<S> {
    ghost use Rattle.hurd_world.specs.Held.{Whole, coded_whole};

    ghost Value = { Whole S };

    ghost coded = { coded_whole S.code };

    ghost view = { λ w. record { core = w.core; noted = w.noted } };
}

impl<S: Server> World<S> {
    /// Begins a world over a boot server, which some words made, for tasks of these ids; each has the boot root as port 1,
    /// its root, and as port 2, its working directory.
    ///
    /// Errors, in order, each with the box back: `ENOTDIR` the server's root is no directory, `EINVAL` it aims at targets, `EINVAL` more
    /// than 64 tasks, `ENOMEM`.
    pub fn boot(alloc: Global, boot: S, tasks: Vec<Ids>) -> Result<World<S>, (Errno, S)>
        requires { Begins (S.meaning boot) }
        ensures ok { IfOk result (λ w. (boot_of (S.meaning boot) tasks.items ≡ Ok tt)
            × (world_of S.meaning w ≡ first_world (S.meaning boot) tasks.items)) }
        ensures sound { IfOk result (λ w. Sound (world_of S.meaning w)) }
        ensures err { let asked = boot_of (S.meaning boot) tasks.items in
            IfErr result (λ e. (e.1 ≡ boot) × ((asked ≡ Err e.0) ⊎ ((e.0 ≡ Errno.ENOMEM) × IsOk asked))) }
    {
        let root = boot.root();
        let Kind::Dir = root.kind else {
            return Err((Errno::ENOTDIR, boot));
        };
        if is_aimed(root.crossing) {
            return Err((Errno::EINVAL, boot));
        }
        let ports = match first_ports(alloc, tasks) {
            Ok(ports) => ports,
            Err(errno) => return Err((errno, boot)),
        };
        let core = Core::starting(alloc, boot, ports)?;
        Ok(World {
            core,
            noted: Noted::All,
        })
    }

    /// Servers, nodes, tasks and opens, to be looked at from outside all tasks. Takes no memory.
    pub fn core(&self) -> &Core<S>
        ensures { result.now ≡ self.now.core }
    {
        &self.core
    }

    /// Notes from now on which parts calls touch.
    pub fn note(&mut self)
        ensures core { self.new.core ≡ self.old.core }
        ensures noted { self.new.noted ≡ Noted.These [] }
    {
        self.noted = Noted::none();
    }

    /// The parts that calls touched since `note`, or any.
    pub fn noted(&self) -> &Noted
        ensures { result.now ≡ self.now.noted }
    {
        &self.noted
    }

    /// Makes one call of a task. A refused call changes nothing, and gives back the server that it brought, which some words made;
    /// a refused `fsys_startup` alone gives up what the task was to start, unless memory ran out. Nothing changes that a set of tasks
    /// in which the caller is may not change, but that what nobody sees any more goes, and that another task is sent a right. No server has a node beside those of the world.
    ///
    /// The parts that the call touches are noted before it. Whoever saw none of the noted parts when that began has the same view still.
    ///
    /// Errors: `ESRCH` where there is no such task, then those of the call, in its order. `ENOMEM` where a call that takes
    /// memory, and needs some as the world stands, isn't refused, and finds none.
    pub fn call(&mut self, alloc: Global, task: TaskId, call: Call<S>) -> Reply<S>
        requires { BringsBegun (call_by S.meaning call) }
        ensures answer { Called (world_of S.meaning self.old) task.0 (call_by S.meaning call) (reply_by S.meaning result) (world_of S.meaning self.new) }
        ensures back { ComesBack call result }
        ensures refused { LeavesIfRefused (world_of S.meaning self.old) (call_by S.meaning call) (reply_by S.meaning result) (world_of S.meaning self.new) }
        ensures sound { Sound (world_of S.meaning self.old) → Sound (world_of S.meaning self.new) }
        ensures integrity { Sound (world_of S.meaning self.old) → KeepsIntegrity (world_of S.meaning self.old) task.0 (world_of S.meaning self.new) }
        ensures hidden { HideNothing S.meaning self.new.core.nodes }
        ensures noted { NotesWhatIsTouched (state_of S.meaning self.old) (state_of S.meaning self.new) }
    {
        self.noted.note(&self.core, task, &call);
        let reply = dispatch(&mut self.core, alloc, task, call);
        self.core.nodes().boxes_hide_nothing();
        reply
    }

    /// Makes calls in their order, and gives a reply for each; room for the replies is taken first. A server that a call brings was
    /// made by some words, and comes back in that call's reply where it is refused.
    ///
    /// What a set of tasks is told is what the written machine tells it in any sound world that it sees alike, where the
    /// calls of the others touch nothing that it sees; and wherever it makes each of its calls in a world that it sees as
    /// here, or as here except for internal names, whatever the others did before. What a set may change at none of its calls, and no call of the others touches, stays as
    /// it was, or goes unseen. Of old things some tasks come to see only what a larger set together saw before, if the others touch nothing that this set sees.
    /// A call that found no memory counts as not made.
    ///
    /// `ENOMEM`, with the list back and no call made, where there is no room for the replies.
    pub fn run(
        &mut self,
        alloc: Global,
        calls: Vec<(TaskId, Call<S>)>,
    ) -> Result<Vec<Reply<S>>, (Errno, Vec<(TaskId, Call<S>)>)>
        requires { AllBegun S.meaning calls.items }
        ensures exact { let w = world_of S.meaning self.old in let x = world_of S.meaning self.new in
            IfOk result (λ replies. Served w (map (made_by S.meaning) calls.items) (map (reply_by S.meaning) replies.items) x) }
        ensures isolated { let w = world_of S.meaning self.old in let x = world_of S.meaning self.new in
            IfOk result (λ replies. Sound w → IsolatedRun w (map (made_by S.meaning) calls.items) (map (reply_by S.meaning) replies.items) x) }
        ensures bounded { let w = world_of S.meaning self.old in let x = world_of S.meaning self.new in
            IfOk result (λ replies. Sound w → BoundedRun w (map (made_by S.meaning) calls.items) (map (reply_by S.meaning) replies.items) x) }
        ensures compared { let w = world_of S.meaning self.old in
            IfOk result (λ replies. Sound w → ComparedRun w (map (made_by S.meaning) calls.items) (map (reply_by S.meaning) replies.items)) }
        ensures looks { let w = world_of S.meaning self.old in
            IfOk result (λ replies. Sound w → ComparedByLooks w (map (made_by S.meaning) calls.items) (map (reply_by S.meaning) replies.items)) }
        ensures spared { let w = world_of S.meaning self.old in let x = world_of S.meaning self.new in
            IfOk result (λ replies. Sound w → SparesAll w (kept (map (made_by S.meaning) calls.items) (map (reply_by S.meaning) replies.items)) x) }
        ensures back { IfOk result (λ replies. AllComeBack calls.items replies.items) }
        ensures sound { Sound (world_of S.meaning self.old) → Sound (world_of S.meaning self.new) }
        ensures err { IfErr result (λ e. (e ≡ (Errno.ENOMEM, calls)) × (self.new ≡ self.old)) }
    {
        let mut replies = match Vec::with_capacity(alloc, calls.len()) {
            Ok(replies) => replies,
            Err(AllocError) => return Err((Errno::ENOMEM, calls)),
        };
        for (task, call) in calls {
            replies.push_reserved(self.call(alloc, task, call));
        }
        Ok(replies)
    }
}
