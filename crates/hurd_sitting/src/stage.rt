//! A world, with the tasks that are watched in it and what they saw of it.
ghost use Rattle.std.specs.Prelude.{◌≡◌, ◌⊎◌, None, IfErr, IfOk, OnOk};
ghost use Rattle.std.specs.Option.{option_map};
ghost use Rattle.hurd_kinds.specs.Boxes.{box_meaning};
ghost use Rattle.hurd_lists.specs.Lists.{listed_by};
ghost use Rattle.hurd_machine.specs.Calls.{reply_by};
ghost use Rattle.hurd_machine.specs.Sound.{Sound};
ghost use Rattle.hurd_world.specs.Held.{world_of};
ghost use Rattle.hurd_calls.specs.Making.{after_call};
ghost use Rattle.hurd_sitting.specs.Replies.{Answers, Replies};
ghost use Rattle.hurd_sitting.specs.Watching.{NotWatched, Watches};

use crate::answering::{Replied, replied_with};
use crate::making::text_of;
use crate::naming::watched;
use hurd_creds::Bytes;
use hurd_kinds::ServerBox;
use hurd_lists::ListedCall;
use hurd_machine::Reply;
use hurd_teaching::{Learners, Watch};
use hurd_terminal::Fault;
use hurd_world::World;
use std::alloc::{AllocError, Global};
use std::marker::Model;
use std::mem;

/// A world, the tasks that are watched in it, and what these saw when they were last looked at.
#[derive(Drop)]
pub struct Stage {
    world: Box<World<ServerBox>>,
    learners: Option<Box<Learners>>,
    watch: Watch,
}

impl Model for Stage {
    ghost use Rattle.std.specs.Option.{option_map};
    ghost use Rattle.hurd_kinds.specs.Boxes.{box_meaning};
    ghost use Rattle.hurd_machine.specs.Sound.{Sound};
    ghost use Rattle.hurd_world.specs.Held.{world_of};
    ghost use Rattle.hurd_sitting.specs.Staged.{Staged, coded_staged};
    ghost use Rattle.hurd_sitting.specs.Watching.{SeenBy};

    ghost Value = { Staged };

    ghost coded = { coded_staged };

    ghost view = { λ s. record { world = s.world.value; learners = option_map (λ v. v.value) s.learners } };

    ghost invariant = { λ s. Sound (world_of box_meaning s.world.value) × SeenBy (option_map (λ v. v.value) s.learners) (world_of box_meaning s.world.value) s.watch.seen };
}

impl Stage {
    /// A world in which no task is watched.
    pub(crate) fn of(world: Box<World<ServerBox>>) -> Stage
        requires { Sound (world_of box_meaning world.value) }
        ensures { result ≡ record { world = world.value; learners = None } }
    {
        Stage {
            world,
            learners: None,
            watch: Watch::new(),
        }
    }

    /// Makes a call, and gives its reply, and what is told of it. Fails only if memory runs out: then the call was made, or nothing changed.
    pub(crate) fn call(
        &mut self,
        alloc: Global,
        listed: ListedCall<ServerBox>,
    ) -> Result<Replied, AllocError>
        ensures replies { IfOk result (λ r. Replies self.old.learners (listed_by box_meaning listed) (world_of box_meaning self.old.world) (reply_by box_meaning r.reply) r.told (world_of box_meaning self.new.world)) }
        ensures err { IfErr result (λ _. (world_of box_meaning self.new.world ≡ world_of box_meaning self.old.world)
            ⊎ (world_of box_meaning self.new.world ≡ after_call (listed_by box_meaning listed) (world_of box_meaning self.old.world))) }
        ensures learners { self.new.learners ≡ self.old.learners }
    {
        let mut watch = mem::replace(&mut self.watch, Watch::new());
        let replied = replied_with(&mut self.world, alloc, listed, &self.learners, &mut watch)?;
        self.watch = watch;
        Ok(replied)
    }

    /// Makes a call, adds what it tells, and gives its reply. Fails only if memory runs out: then nothing is added, and the call was made, or nothing changed.
    pub(crate) fn tell(
        &mut self,
        alloc: Global,
        listed: ListedCall<ServerBox>,
        told: &mut Vec<u8>,
    ) -> Result<Reply<ServerBox>, AllocError>
        ensures ok { IfOk result (λ reply. Answers self.old.learners (listed_by box_meaning listed) (world_of box_meaning self.old.world) (reply_by box_meaning reply)
            told.old.items told.new.items (world_of box_meaning self.new.world)) }
        ensures err { IfErr result (λ _. (told.new.items ≡ told.old.items) × ((world_of box_meaning self.new.world ≡ world_of box_meaning self.old.world)
            ⊎ (world_of box_meaning self.new.world ≡ after_call (listed_by box_meaning listed) (world_of box_meaning self.old.world)))) }
        ensures learners { self.new.learners ≡ self.old.learners }
    {
        let line = Bytes::copied(alloc, listed.line.as_slice())?;
        let watched = self.learners.is_some();
        let Replied { reply, told: said } = self.call(alloc, listed)?;
        let text = text_of(alloc, line, &reply, &said, watched)?;
        told.extend_from_slice(text.as_slice())?;
        Ok(reply)
    }

    /// Watches the tasks whose numbers `who` lists, separated by commas; no task if it has no bytes. There are `count` tasks.
    ///
    /// Errors, in order: `Unknown` if one of them doesn't exist; `Memory` at any point. Then nothing changes.
    pub(crate) fn watch(&mut self, alloc: Global, count: usize, who: &[u8]) -> Result<(), Fault>
        ensures ok { OnOk result (Watches count who.now self.new.learners) }
        ensures err { IfErr result (λ fault. NotWatched count who.now fault × (self.new ≡ self.old)) }
        ensures world { self.new.world ≡ self.old.world }
    {
        let learners = watched(alloc, count, who)?;
        self.watch = Watch::new();
        self.learners = learners;
        Ok(())
    }

    /// The world.
    pub(crate) fn world(&self) -> &World<ServerBox>
        ensures { result.now ≡ self.now.world }
    {
        &self.world
    }
}
