//! A part, with those who could help to see it.
ghost use Rattle.std.specs.Prelude.{◌≡◌, ◌++◌, ◌&&◌, not, [], ◌∷◌, OnOk};
ghost use Rattle.hurd_sight.specs.Reach.{among};

use hurd_creds::TaskId;
use hurd_sight::SeenPart;
use std::alloc::{AllocError, Global};
use std::marker::Model;

/// Two tasks.
#[derive(Clone, Copy, Debug, PartialEq, Eq)]
pub struct Pair {
    pub one: TaskId,
    pub other: TaskId,
}

/// A part, with those who could help to see it.
#[derive(Drop)]
pub struct Helped {
    part: SeenPart,
    ones: Vec<TaskId>,
    twos: Vec<Pair>,
    before: Vec<TaskId>,
}

impl Model for Helped {
    ghost use Rattle.hurd_can.specs.Help.{Help};

    ghost Value = { Help };

    ghost view = { λ h. record { part = h.part; ones = h.ones.items; twos = h.twos.items; before = h.before.items } };
}

impl Helped {
    /// A part without helpers.
    pub(crate) fn of(alloc: Global, part: SeenPart) -> Helped
        ensures { result ≡ record { part = part; ones = []; twos = []; before = [] } }
    {
        Helped {
            part,
            ones: Vec::new(alloc),
            twos: Vec::new(alloc),
            before: Vec::new(alloc),
        }
    }

    /// The part.
    pub fn part(&self) -> SeenPart
        ensures { result ≡ self.now.part }
    {
        self.part
    }

    /// Each of these alone could help to see it.
    pub fn ones(&self) -> &[TaskId]
        ensures { result.now ≡ self.now.ones }
    {
        self.ones.as_slice()
    }

    /// Each of these pairs could, and neither of the two alone.
    pub fn twos(&self) -> &[Pair]
        ensures { result.now ≡ self.now.twos }
    {
        self.twos.as_slice()
    }

    /// These saw it before.
    pub fn before(&self) -> &[TaskId]
        ensures { result.now ≡ self.now.before }
    {
        self.before.as_slice()
    }

    /// One helper more.
    pub(crate) fn add_one(&mut self, one: TaskId) -> Result<(), AllocError>
        ensures { OnOk result (self.new ≡ record self.old { ones = self.old.ones ++ one ∷ [] }) }
    {
        self.ones.push(one)?;
        Ok(())
    }

    /// One pair more.
    pub(crate) fn add_two(&mut self, pair: Pair) -> Result<(), AllocError>
        ensures { OnOk result (self.new ≡ record self.old { twos = self.old.twos ++ pair ∷ [] }) }
    {
        self.twos.push(pair)?;
        Ok(())
    }

    /// One more who saw it before.
    pub(crate) fn add_before(&mut self, task: TaskId) -> Result<(), AllocError>
        ensures { OnOk result (self.new ≡ record self.old { before = self.old.before ++ task ∷ [] }) }
    {
        self.before.push(task)?;
        Ok(())
    }

    /// Whether a task is noted as one that saw it before.
    pub fn remembers(&self, task: TaskId) -> bool
        ensures { result ≡ among self.now.before task.0 }
    {
        for own in &self.before {
            if own.0 == task.0 {
                return true;
            }
        }
        false
    }

    /// Whether a task alone could help.
    pub fn has(&self, task: TaskId) -> bool
        ensures { result ≡ among self.now.ones task.0 }
    {
        for one in &self.ones {
            if one.0 == task.0 {
                return true;
            }
        }
        false
    }

    /// Whether neither of two could help alone.
    pub(crate) fn lacks(&self, pair: Pair) -> bool
        ensures { result ≡ (not (among self.now.ones pair.one.0) && not (among self.now.ones pair.other.0)) }
    {
        !self.has(pair.one) && !self.has(pair.other)
    }
}
