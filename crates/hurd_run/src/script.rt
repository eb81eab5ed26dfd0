//! A script on its way.
ghost use Rattle.std.specs.Prelude.{◌≤◌, length, map, string_bytes};
ghost use Rattle.hurd_shell.specs.Scripts.{scripts, way_of};

use crate::session::{booted, complaint_of, next_part, parsed};
use hurd_creds::TaskId;
use hurd_dialogue::{Telling, boxed};
use hurd_kinds::{ServerBox, empty_tree};
use hurd_script::Script;
use hurd_shell::Session;
use hurd_terminal::Fault;
use hurd_words::answers::Answer;
use hurd_words::users::task_of;
use hurd_world::{Noted, World};
use std::alloc::{AllocError, Global};

/// A script on its way, begun over an empty tree in memory, with the names of its users.
#[derive(Drop)]
pub struct RunningScript {
    session: Box<Session<ServerBox>>,
    names: Vec<String>,
    ghost few: { length names.items ≤ 64 },
}

impl Telling for RunningScript {
    ghost sort = { scripts };

    ghost way = { λ s. way_of s.session.value (map string_bytes s.names.items) };

    ghost noted = { λ s. s.session.value.world.noted };

    #[tactic(auto, unfolding(hurd_kinds::specs::Boxes::box_meaning))]
    fn begun(alloc: Global, text: &[u8]) -> Result<Box<RunningScript>, Fault> {
        let Script {
            names,
            users,
            commands,
        } = parsed(alloc, text)?;
        let root = ServerBox::Tmpfs(empty_tree(alloc)?);
        let script = Script {
            names: Vec::new(alloc),
            users,
            commands,
        };
        let session = booted(alloc, script, root)?;
        Ok(boxed(alloc, RunningScript { session, names })?)
    }

    fn next(&mut self, alloc: Global) -> Result<Option<Answer>, AllocError> {
        next_part(alloc, &mut self.session)
    }

    fn note(&mut self) {
        self.session.note();
    }

    fn noted(&self) -> &Noted {
        self.session.world().noted()
    }

    fn task(&self) -> Option<TaskId> {
        self.session.task()
    }

    fn told(&self) -> usize {
        self.session.made()
    }

    fn world(&self) -> &World<ServerBox> {
        self.session.world()
    }

    fn heading(&self) -> usize {
        self.names.len()
    }

    fn names(&self) -> &[String] {
        self.names.as_slice()
    }

    fn finds(&self, name: &str) -> Option<TaskId> {
        match task_of(self.names.as_slice(), name) {
            Some(task) => Some(TaskId(task as u32)),
            None => None,
        }
    }

    fn called(alloc: Global, word: &str, _tasks: &[TaskId]) -> Result<Vec<u8>, AllocError> {
        Vec::from_slice(alloc, word.as_bytes())
    }

    fn thing() -> &'static [u8] {
        b" command"
    }

    fn complaint(alloc: Global, text: &[u8]) -> Result<Vec<u8>, AllocError> {
        complaint_of(alloc, text)
    }

    fn stranger() -> &'static [u8] {
        b": no such user: "
    }
}
