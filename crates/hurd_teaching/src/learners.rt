//! The tasks that are told what they learn.
ghost use Rattle.std.specs.Prelude.{◌≡◌, IfOk};
ghost use Rattle.hurd_sight.specs.Reach.{among};
ghost use Rattle.hurd_teaching.specs.Learners.{AreCalled, is_quiet, see_of, verb_of};
ghost use Rattle.hurd_teaching.specs.Looks.{is_due};

use hurd_creds::TaskId;
use std::alloc::{AllocError, Global};

/// Some tasks, and what is written in front of what they learn.
#[derive(Drop)]
pub struct Learners {
    /// Their tasks.
    pub tasks: Vec<TaskId>,
    /// As `alice learns`, or `tasks 1,2 learn`.
    pub who: Vec<u8>,
    /// As `alice sees`, or `tasks 1,2 see`.
    pub sees: Vec<u8>,
    /// As `alice`, or `tasks 1,2`.
    pub names: Vec<u8>,
    /// Whether all that they see is to be shown, by how many things are done.
    pub looks: Vec<bool>,
    /// How many things are done before lessons begin.
    pub from: usize,
}

/// What comes after the names of those who learn.
fn verb(tasks: &[TaskId]) -> &'static [u8]
    ensures { result.now ≡ verb_of tasks.now }
{
    if tasks.len() > 1 {
        b" learn"
    } else {
        b" learns"
    }
}

/// The same where it is told what they see.
fn see(tasks: &[TaskId]) -> &'static [u8]
    ensures { result.now ≡ see_of tasks.now }
{
    if tasks.len() > 1 { b" see" } else { b" sees" }
}

impl Learners {
    /// Tasks that are called so, with where all that they see is to be shown, and where lessons begin. Fails only if memory runs out.
    pub fn called(
        alloc: Global,
        tasks: Vec<TaskId>,
        names: Vec<u8>,
        looks: Vec<bool>,
        from: usize,
    ) -> Result<Learners, AllocError>
        ensures { IfOk result (λ learners. AreCalled tasks.items names.items looks.items from learners) }
    {
        let mut who = Vec::from_slice(alloc, names.as_slice())?;
        who.extend_from_slice(verb(tasks.as_slice()))?;
        let mut sees = Vec::from_slice(alloc, names.as_slice())?;
        sees.extend_from_slice(see(tasks.as_slice()))?;
        Ok(Learners {
            tasks,
            who,
            sees,
            names,
            looks,
            from,
        })
    }

    /// Whether a task is one of these.
    pub fn have(&self, task: TaskId) -> bool
        ensures { result ≡ among self.now.tasks.items task.0 }
    {
        for own in &self.tasks {
            if own.0 == task.0 {
                return true;
            }
        }
        false
    }

    /// Whether nothing is said of what a task does where so many things are done: it is one of these, or lessons have not begun.
    pub fn are_quiet(&self, done: usize, task: TaskId) -> bool
        ensures { result ≡ is_quiet self.now.tasks.items self.now.from done task.0 }
    {
        done < self.from || self.have(task)
    }

    /// Whether all that they see is to be shown where so many things are done.
    pub fn are_shown(&self, done: usize) -> bool
        ensures { result ≡ is_due self.now.looks.items done }
    {
        match self.looks.get(done) {
            Some(look) => *look,
            None => false,
        }
    }
}
