//! A list of calls on its way.
ghost use Rattle.std.specs.Prelude.{◌≡◌, ◌+◌, ◌<◌, ◌≤◌, IfErr, IfOk, Ok, OnOk, length};
ghost use Rattle.std.specs.Option.{option_map};
ghost use Rattle.hurd_creds.specs.declared.name.TaskId.{TaskId};
ghost use Rattle.hurd_kinds.specs.Boxes.{box_meaning};
ghost use Rattle.hurd_lists.specs.Lists.{listed_by};
ghost use Rattle.hurd_machine.specs.Sound.{Sound};
ghost use Rattle.hurd_tmpfs.specs.Tree.{new_tmpfs};
ghost use Rattle.hurd_world.specs.Boot.{boot_of, first_world};
ghost use Rattle.hurd_world.specs.Held.{world_of};
ghost use Rattle.hurd_calls.specs.Faults.{NotBegun};
ghost use Rattle.hurd_calls.specs.Lists.{lists, way_of};
ghost use Rattle.hurd_calls.specs.Running.{given};
ghost use Rattle.hurd_calls.specs.Tasks.{noun_of, task_of};

use crate::beginning::{begun, complaint_of, parsed};
use crate::calling::{answer, brought};
use hurd_creds::{Ids, TaskId, number};
use hurd_dialogue::{Telling, boxed};
use hurd_kinds::{ServerBox, empty_tree};
use hurd_lists::{CallList, ListedCall};
use hurd_terminal::Fault;
use hurd_words::answers::Answer;
use hurd_world::{Noted, World};
use std::alloc::{AllocError, Global};
use std::collections::VecDeque;

/// A list of calls on its way, begun over an empty tree in memory.
#[derive(Drop)]
pub struct RunningCalls {
    world: Box<World<ServerBox>>,
    calls: VecDeque<ListedCall<ServerBox>>,
    told: usize,
    tasks: usize,
    ghost few: { told + length calls.items < 18446744073709551615 },
    ghost room: { tasks < 18446744073709551615 },
}

/// What is in front of the numbers of tasks.
fn noun(tasks: &[TaskId]) -> &'static [u8]
    ensures { result.now ≡ noun_of tasks.now }
{
    if tasks.len() > 1 { b"tasks " } else { b"task " }
}

/// The task that a word numbers, of so many.
pub fn task_of(count: usize, word: &str) -> Option<TaskId>
    ensures { option_map (λ (t : TaskId). t.0) result ≡ task_of count word.now }
{
    let task = number(word)?;
    if (task as usize) < count {
        Some(TaskId(task))
    } else {
        None
    }
}

impl RunningCalls {
    /// Begins a list of tasks with these ids, which has no calls yet.
    ///
    /// Errors, in order: `Boot` with its world's refusal; `Memory` at any point.
    #[tactic(auto, unfolding(hurd_kinds::specs::Boxes::box_meaning))]
    pub fn over(alloc: Global, tasks: Vec<Ids>) -> Result<Box<RunningCalls>, Fault>
        ensures boots { IfOk result (λ running. boot_of new_tmpfs tasks.items ≡ Ok tt) }
        ensures world { IfOk result (λ running. world_of box_meaning running.value.world.value ≡ first_world new_tmpfs tasks.items) }
        ensures sound { IfOk result (λ running. Sound (world_of box_meaning running.value.world.value)) }
        ensures tasks { IfOk result (λ running. running.value.tasks ≡ length tasks.items) }
        ensures err { IfErr result (λ fault. NotBegun new_tmpfs tasks.items fault) }
    {
        let count = tasks.len();
        let root = ServerBox::Tmpfs(empty_tree(alloc)?);
        let world = begun(alloc, root, tasks)?;
        let running = RunningCalls {
            world,
            calls: VecDeque::new(alloc),
            told: 0,
            tasks: count,
        };
        Ok(boxed(alloc, running)?)
    }

    /// Has this call alone to tell next, as if it were the first. Fails only if memory runs out.
    pub fn take(&mut self, listed: ListedCall<ServerBox>) -> Result<(), AllocError>
        ensures { OnOk result (way_of self.new.world.value self.new.calls.items self.new.told self.new.tasks ≡ given (listed_by box_meaning listed) (way_of self.old.world.value self.old.calls.items self.old.told self.old.tasks)) }
    {
        self.calls.clear();
        self.told = 0;
        self.calls.push_back(listed)?;
        Ok(())
    }
}

impl Telling for RunningCalls {
    ghost sort = { lists };

    ghost way = { λ c. way_of c.world.value c.calls.items c.told c.tasks };

    ghost noted = { λ c. c.world.value.noted };

    #[tactic(auto, unfolding(hurd_kinds::specs::Boxes::box_meaning))]
    fn begun(alloc: Global, text: &[u8]) -> Result<Box<RunningCalls>, Fault> {
        let CallList { tasks, calls } = parsed(alloc, text)?;
        let count = tasks.len();
        let root = ServerBox::Tmpfs(empty_tree(alloc)?);
        let world = begun(alloc, root, tasks)?;
        let running = RunningCalls {
            world,
            calls: VecDeque::from(calls),
            told: 0,
            tasks: count,
        };
        Ok(boxed(alloc, running)?)
    }

    fn next(&mut self, alloc: Global) -> Result<Option<Answer>, AllocError> {
        let Some(listed) = self.calls.pop_front() else {
            return Ok(None);
        };
        self.told += 1;
        let server = brought(alloc, &listed.server)?;
        Ok(Some(answer(&mut self.world, alloc, listed, server)?))
    }

    fn note(&mut self) {
        self.world.note();
    }

    fn noted(&self) -> &Noted {
        self.world.noted()
    }

    fn task(&self) -> Option<TaskId> {
        match self.calls.front() {
            Some(listed) => Some(listed.task),
            None => None,
        }
    }

    fn told(&self) -> usize {
        self.told
    }

    fn world(&self) -> &World<ServerBox> {
        &self.world
    }

    fn heading(&self) -> usize {
        self.tasks + 1
    }

    fn names(&self) -> &[String] {
        &[]
    }

    fn finds(&self, name: &str) -> Option<TaskId> {
        task_of(self.tasks, name)
    }

    fn called(alloc: Global, word: &str, tasks: &[TaskId]) -> Result<Vec<u8>, AllocError> {
        let mut names = Vec::from_slice(alloc, noun(tasks))?;
        names.extend_from_slice(word.as_bytes())?;
        Ok(names)
    }

    fn thing() -> &'static [u8] {
        b" call"
    }

    fn complaint(alloc: Global, text: &[u8]) -> Result<Vec<u8>, AllocError> {
        complaint_of(alloc, text)
    }

    fn stranger() -> &'static [u8] {
        b": no such task: "
    }
}
