//! A world that is kept, with what the last text told.
ghost use Rattle.std.specs.Prelude.{◌≡◌, ◌⊎◌, [], None, IfErr, IfOk, OnOk, length};
ghost use Rattle.hurd_kinds.specs.Boxes.{box_meaning};
ghost use Rattle.hurd_lists.specs.Lists.{listed_by, reading_of};
ghost use Rattle.hurd_machine.specs.Calls.{reply_by};
ghost use Rattle.hurd_calls.specs.Lists.{lists};
ghost use Rattle.hurd_calls.specs.Making.{after_call};
ghost use Rattle.hurd_calls.specs.Readings.{said_in};
ghost use Rattle.hurd_dialogue.specs.Sorts.{NotBegun};
ghost use Rattle.hurd_world.specs.Held.{world_of};
ghost use Rattle.hurd_sitting.specs.Sittings.{Begins, Makes, NotMade};
ghost use Rattle.hurd_sitting.specs.Kept.{SameStand, SameWatch, learners_in, tasks_in, told_in, world_in};
ghost use Rattle.hurd_client.specs.Looking.{open_node};
ghost use Rattle.hurd_sitting.specs.Openings.{Ran, RanSome};
ghost use Rattle.hurd_sitting.specs.Replies.{Replies};
ghost use Rattle.hurd_sitting.specs.Watching.{NotWatched, Watches};

use crate::answering::Replied;
use crate::making::make_all;
use crate::opening::open;
use crate::stage::Stage;
use hurd_calls::{begun, parsed};
use hurd_client::{OpenHow, Opening};
use hurd_creds::{Bytes, Errno, TaskId};
use hurd_dialogue::boxed;
use hurd_kinds::{ServerBox, empty_tree};
use hurd_lists::{CallList, ListedCall};
use hurd_machine::Reply;
use hurd_terminal::Fault;
use hurd_words::fault::ReadFault;
use hurd_world::World;
use std::alloc::{AllocError, Global};

/// A world that is kept, with the tasks that are watched in it; what the last text told; and how many tasks there are.
#[derive(Drop)]
pub struct Sitting {
    stage: Stage,
    told: Vec<u8>,
    tasks: usize,
}

impl Sitting {
    /// Reads a list of calls with its `task` lines, begins their world over an empty tree in memory, and makes its calls.
    ///
    /// Errors, in order: `Bad` with the line at which the list is bad, `Boot` with the world's refusal; `Memory` at any point. Then there is no sitting.
    #[tactic(auto, unfolding(hurd_kinds::specs::Boxes::box_meaning))]
    pub fn begun(alloc: Global, list: &[u8]) -> Result<Box<Sitting>, Fault>
        ensures ok { IfOk result (λ sitting. Begins list.now (told_in sitting.value) (world_in sitting.value)) }
        ensures tasks { IfOk result (λ sitting. tasks_in sitting.value ≡ length (said_in (reading_of list.now)).tasks) }
        ensures learners { IfOk result (λ sitting. learners_in sitting.value ≡ None) }
        ensures err { IfErr result (λ fault. NotBegun lists list.now fault) }
    {
        let CallList { tasks, calls } = parsed(alloc, list)?;
        let count = tasks.len();
        let root = ServerBox::Tmpfs(empty_tree(alloc)?);
        let mut stage = Stage::of(begun(alloc, root, tasks)?);
        let mut told = Vec::new(alloc);
        make_all(&mut stage, alloc, calls, &mut told)?;
        let sitting = Sitting {
            stage,
            told,
            tasks: count,
        };
        Ok(boxed(alloc, sitting)?)
    }

    /// Makes the calls of a text of calls alone. Where tasks are watched it tells a paragraph for each, with what these learn of others' calls.
    ///
    /// Errors: `Bad` with the line at which the text is bad, and with line 0 where it is too long or has a `task` line: then nothing is made or told.
    /// `Memory`: then nothing is made or told, or some first calls are made and told, and perhaps the next is made. The world stays usable.
    pub fn make(&mut self, alloc: Global, calls: &[u8]) -> Result<(), Fault>
        ensures ok { OnOk result (Makes (learners_in self.old) calls.now (world_in self.old) (told_in self.new) (world_in self.new)) }
        ensures err { IfErr result (λ fault. NotMade (learners_in self.old) calls.now fault (world_in self.old) (told_in self.new) (world_in self.new)) }
        ensures watch { SameWatch self.old self.new }
    {
        self.told.clear();
        let CallList { tasks, calls } = parsed(alloc, calls)?;
        if !tasks.is_empty() {
            return Err(Fault::Bad { line: 0 });
        }
        Ok(make_all(&mut self.stage, alloc, calls, &mut self.told)?)
    }

    /// Makes one call, and gives its reply. Then `told` is what those who are watched learn by it: nothing of a call of their own.
    ///
    /// Fails only if memory runs out: then nothing is told, and the call was made, or nothing changed.
    pub fn call(
        &mut self,
        alloc: Global,
        listed: ListedCall<ServerBox>,
    ) -> Result<Reply<ServerBox>, AllocError>
        ensures replies { IfOk result (λ reply. Replies (learners_in self.old) (listed_by box_meaning listed) (world_in self.old) (reply_by box_meaning reply) (told_in self.new) (world_in self.new)) }
        ensures err { IfErr result (λ _. (told_in self.new ≡ []) × ((world_in self.new ≡ world_in self.old) ⊎ (world_in self.new ≡ after_call (listed_by box_meaning listed) (world_in self.old)))) }
        ensures watch { SameWatch self.old self.new }
    {
        self.told.clear();
        let Replied { reply, told } = self.stage.call(alloc, listed)?;
        self.told = told.into_vec();
        Ok(reply)
    }

    /// Opens what a path leads to, as commands of a script do: looks it up from a directory, or from the root if it begins with a slash; follows at most 32 retries and
    /// starts; makes the servers that are to be started, of their words; and gives up the ports of the way. Gives the port, or the refusal. Then `told` is what `make` would
    /// tell of the same calls.
    ///
    /// Errors: `Bad` if a call has no line, since that would be longer than a list may be, or a flag has no name; `Memory` at any point. Then some first calls were made and told,
    /// and perhaps the next was made.
    pub fn open(
        &mut self,
        alloc: Global,
        task: TaskId,
        directory: u64,
        path: Bytes,
        how: OpenHow,
    ) -> Result<Result<u64, Errno>, ReadFault>
        ensures ok { IfOk result (λ end. Ran (learners_in self.old) task (open_node directory path how) (world_in self.old) end [] (told_in self.new) (world_in self.new)) }
        ensures err { IfErr result (λ _. RanSome (learners_in self.old) task (open_node directory path how) (world_in self.old) [] (told_in self.new) (world_in self.new)) }
        ensures watch { SameWatch self.old self.new }
    {
        self.told.clear();
        let opening = Opening::at(alloc, directory, path, how);
        open(&mut self.stage, alloc, task, opening, &mut self.told)
    }

    /// From now on `make`, `open` and `call` tell what the tasks learn whose numbers `who` lists, separated by commas; nothing of that if it has no bytes.
    ///
    /// Errors, in order: `Unknown` where one of them isn't there; `Memory` at any point. Then nothing changes.
    pub fn watch(&mut self, alloc: Global, who: &[u8]) -> Result<(), Fault>
        ensures ok { OnOk result (Watches (tasks_in self.old) who.now (learners_in self.new)) }
        ensures err { IfErr result (λ fault. NotWatched (tasks_in self.old) who.now fault × (self.new ≡ self.old)) }
        ensures stand { SameStand self.old self.new }
    {
        self.stage.watch(alloc, self.tasks, who)
    }

    /// What the last text told: each call's line and reply, as `hurd run --calls` prints it. Where tasks were watched, a paragraph for each, as
    /// `hurd learn --calls` prints it.
    pub fn told(&self) -> &[u8]
        ensures { result.now ≡ told_in self.now }
    {
        self.told.as_slice()
    }

    /// The world after all texts.
    pub fn world(&self) -> &World<ServerBox>
        ensures { world_of box_meaning result.now ≡ world_in self.now }
    {
        self.stage.world()
    }
}
