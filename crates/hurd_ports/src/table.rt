//! Rights, opens, and the tables of tasks.
ghost use Rattle.std.specs.Prelude.{◌≡◌, ℕ, ◌+◌, ◌<◌, Ok, Some, length, IfOk, IfSome, OnOk, option_copied};
ghost use Rattle.hurd_creds.specs.Memory.{Steps};
ghost use Rattle.hurd_ports.specs.Tables.{can_name, fresh, has_room, right_in};
ghost use Rattle.hurd_ports.specs.Steps.{named, received, with_ids, with_ids_for, with_pending, with_port, with_sent, without_port};
ghost use Rattle.hurd_ports.specs.Seats.{AreInOrder, HasSpare, place_of_port, seat_task};

use crate::parents::Parents;
use hurd_creds::{Errno, Ids, Name, NodeName, OpenFlags, OpenName, ServerName, TaskId};
use hurd_trans_iface::Words;
use std::alloc::{AllocError, Global};

/// The right to use a node, with the ids that decide what is allowed, an open of it, and the ways that it came in by
/// (GNU Hurd Reference Manual, Files).
#[derive(Debug, Drop)]
pub struct IoRight {
    pub node: NodeName,
    pub ids: Ids,
    pub open_name: OpenName,
    pub parents: Parents,
}

impl IoRight {
    /// A copy, which shares the open.
    pub fn copied(&self, alloc: Global) -> Result<IoRight, AllocError>
        ensures { IfOk result (λ right. right ≡ self.now) }
    {
        self.with_ids(alloc, self.ids.copied(alloc)?)
    }

    /// The same right with other ids, which shares the open.
    pub fn with_ids(&self, alloc: Global, ids: Ids) -> Result<IoRight, AllocError>
        ensures { IfOk result (λ right. right ≡ with_ids_for ids self.now) }
    {
        Ok(IoRight {
            node: self.node,
            ids,
            open_name: self.open_name,
            parents: self.parents.copied(alloc)?,
        })
    }
}

/// A right: to use a node, to control a server (`hurd/fsys.defs`), or to start a translator.
#[derive(Debug, Drop)]
pub enum Right {
    Io(IoRight),
    Control(ServerName),
    /// To start the translator that waits on a node. It is in no table and no inbox: a task has one at most, its pending start.
    Start(NodeName),
}

impl Right {
    /// A copy, which shares the open.
    pub fn copied(&self, alloc: Global) -> Result<Right, AllocError>
        ensures { IfOk result (λ right. right ≡ self.now) }
    {
        match self {
            Right::Io(right) => Ok(Right::Io(right.copied(alloc)?)),
            Right::Control(server) => Ok(Right::Control(*server)),
            Right::Start(node) => Ok(Right::Start(*node)),
        }
    }
}

/// An open: its node, where the next read or write without an offset begins, and what it was opened for.
#[derive(Clone, Copy, Debug, PartialEq, Eq)]
pub struct Opened {
    pub node: NodeName,
    pub cursor: u64,
    pub modes: OpenFlags,
}

/// How many opens read a node, and how many write it.
#[derive(Clone, Copy, Debug, PartialEq, Eq)]
pub struct Ends {
    pub readers: u128,
    pub writers: u128,
}

/// A right under its number.
#[derive(Debug, Drop)]
pub struct Port {
    pub number: u64,
    pub right: Right,
}

/// What a task is to start: the translator that waits on a node, and its words as a lookup found them.
#[derive(Debug, Drop)]
pub struct PendingStart {
    pub node: NodeName,
    pub words: Words,
}

/// A task: its ids, its ports in order of their numbers, the next number, the rights that it was sent, how many things it
/// has made, and what it is to start.
#[derive(Debug, Drop)]
pub struct TaskSeat {
    pub ids: Ids,
    pub ports: Vec<Port>,
    pub next: u64,
    pub inbox: Vec<Right>,
    pub made: u64,
    pub pending: Option<PendingStart>,
}

impl TaskSeat {
    /// Whether so many more things can be named.
    pub(crate) fn can_name(&self, names: u64) -> bool
        ensures { result ≡ can_name names (seat_task self.now) }
    {
        names <= u64::MAX - self.made
    }

    /// Whether another port can be numbered, and so many more things named.
    pub(crate) fn has_room(&self, names: u64) -> bool
        ensures { result ≡ has_room names (seat_task self.now) }
    {
        self.next < u64::MAX && self.can_name(names)
    }

    /// The task's next name.
    pub(crate) fn next_name(&self, task: TaskId) -> Name
        ensures { result ≡ fresh task.0 (seat_task self.now) }
    {
        Name {
            task,
            count: self.made,
        }
    }

    /// The task's next name, which it has then given.
    pub(crate) fn take_name(&mut self, task: TaskId) -> Name
        requires { self.old.made < u64.MAX }
        ensures name { result ≡ fresh task.0 (seat_task self.old) }
        ensures named { seat_task self.new ≡ named 1 (seat_task self.old) }
        ensures ports { self.new.ports ≡ self.old.ports }
    {
        let name = self.next_name(task);
        self.made += 1;
        name
    }

    /// Adds a port with this right; answers its number.
    pub(crate) fn add(&mut self, right: Right) -> u64
        requires number { self.old.next < u64.MAX }
        requires spare { HasSpare self.old.ports }
        ensures number { result ≡ self.old.next }
        ensures added { seat_task self.new ≡ with_port right (seat_task self.old) }
    {
        let number = self.next;
        self.next += 1;
        self.ports.push_reserved(Port { number, right });
        number
    }

    /// Takes room for one port more.
    pub(crate) fn reserve_port(&mut self) -> Result<(), AllocError>
        ensures kept { seat_task self.new ≡ seat_task self.old }
        ensures room { OnOk result (HasSpare self.new.ports) }
    {
        self.ports.reserve(1)
    }

    /// Takes room for one right more in the inbox.
    pub(crate) fn reserve_sent(&mut self) -> Result<(), AllocError>
        ensures kept { seat_task self.new ≡ seat_task self.old }
        ensures room { OnOk result (HasSpare self.new.inbox) }
    {
        self.inbox.reserve(1)
    }

    /// Takes the first right of the inbox as a port; answers its number. `ENOMEM`: no memory, and nothing changes.
    pub(crate) fn receive(&mut self) -> Result<u64, Errno>
        requires number { self.old.next < u64.MAX }
        requires sent { 0 < length self.old.inbox.items }
        ensures { Steps (seat_task self.old) (Ok self.old.next, received (seat_task self.old)) result (seat_task self.new) }
    {
        let Ok(()) = self.ports.reserve(1) else {
            return Err(Errno::ENOMEM);
        };
        let right = self.inbox.remove(0);
        Ok(self.add(right))
    }

    /// Puts a right last into the inbox. There is room for it.
    pub(crate) fn accept(&mut self, right: Right)
        requires { HasSpare self.old.inbox }
        ensures { seat_task self.new ≡ with_sent right (seat_task self.old) }
    {
        self.inbox.push_reserved(right);
    }

    /// Gives the task other ids; those of its rights stay.
    pub(crate) fn take_ids(&mut self, ids: Ids)
        ensures ids { seat_task self.new ≡ with_ids ids (seat_task self.old) }
        ensures ports { self.new.ports ≡ self.old.ports }
    {
        self.ids = ids;
    }

    /// The task is to start this from now on, or nothing.
    pub(crate) fn set_pending(&mut self, pending: Option<PendingStart>)
        ensures pending { seat_task self.new ≡ with_pending pending (seat_task self.old) }
        ensures ports { self.new.ports ≡ self.old.ports }
    {
        self.pending = pending;
    }

    /// The index of the port of this number, if it is there: a binary search.
    #[inline(always)]
    pub(crate) fn place(&self, number: u64) -> Option<usize>
        requires { AreInOrder self.now.ports.items }
        ensures is { result ≡ place_of_port number self.now.ports.items }
        ensures below { IfSome result (λ i. i < length self.now.ports.items) }
    {
        self.ports
            .binary_search_by_key(&number, |port| port.number)
            .ok()
    }

    /// Takes out the port at this index. No search.
    pub(crate) fn remove(&mut self, index: usize)
        requires { index < length self.old.ports.items }
        ensures { (number : ℕ) → place_of_port number self.old.ports.items ≡ Some index → seat_task self.new ≡ without_port number (seat_task self.old) }
    {
        self.ports.remove(index);
    }

    /// The right under this number.
    pub(crate) fn find(&self, number: u64) -> Option<&Right>
        requires { AreInOrder self.now.ports.items }
        ensures { option_copied result ≡ right_in number self.now.ports.items }
    {
        match self.place(number) {
            Some(i) => Some(&self.ports[i].right),
            None => None,
        }
    }
}
