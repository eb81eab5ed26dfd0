//! Whether two rights, ports or tasks are the same, and copies of them.
ghost use Rattle.std.specs.Prelude.{◌≡◌, ◌↔◌, IsTrue, IfOk};
ghost use Rattle.hurd_ports.specs.Seats.{seat_task};

use crate::table::{IoRight, PendingStart, Port, Right, TaskSeat};
use hurd_creds::{Same, all_same};
use std::alloc::{AllocError, Global};

impl IoRight {
    /// Whether these are the same right. Takes no memory.
    pub(crate) fn is_same(&self, other: &IoRight) -> bool
        ensures { IsTrue result ↔ (self.now ≡ other.now) }
    {
        self.node == other.node
            && self.open_name == other.open_name
            && self.ids.is_same(&other.ids)
            && self.parents.is_same(&other.parents)
    }
}

impl Right {
    /// Whether these are the same right. Takes no memory.
    pub(crate) fn is_same(&self, other: &Right) -> bool
        ensures { IsTrue result ↔ (self.now ≡ other.now) }
    {
        match (self, other) {
            (Right::Io(right), Right::Io(other)) => right.is_same(other),
            (Right::Control(server), Right::Control(other)) => *server == *other,
            (Right::Start(node), Right::Start(other)) => *node == *other,
            _ => false,
        }
    }
}

impl Same for Right {
    fn same(&self, other: &Right) -> bool {
        self.is_same(other)
    }
}

impl Port {
    /// Whether these are the same right under the same number. Takes no memory.
    pub(crate) fn is_same(&self, other: &Port) -> bool
        ensures { IsTrue result ↔ (self.now ≡ other.now) }
    {
        self.number == other.number && self.right.is_same(&other.right)
    }

    /// A copy, which shares the open.
    pub(crate) fn copied(&self, alloc: Global) -> Result<Port, AllocError>
        ensures { IfOk result (λ port. port ≡ self.now) }
    {
        Ok(Port {
            number: self.number,
            right: self.right.copied(alloc)?,
        })
    }
}

impl Same for Port {
    fn same(&self, other: &Port) -> bool {
        self.is_same(other)
    }
}

impl PendingStart {
    /// Whether these are the same node and the same words. Takes no memory.
    pub(crate) fn is_same(&self, other: &PendingStart) -> bool
        ensures { IsTrue result ↔ (self.now ≡ other.now) }
    {
        self.node == other.node && self.words.is_same(&other.words)
    }

    /// A copy.
    pub(crate) fn copied(&self, alloc: Global) -> Result<PendingStart, AllocError>
        ensures { IfOk result (λ pending. pending ≡ self.now) }
    {
        Ok(PendingStart {
            node: self.node,
            words: self.words.copied(alloc)?,
        })
    }
}

impl TaskSeat {
    /// Whether these stand for the same task. Takes no memory.
    pub fn is_same(&self, other: &TaskSeat) -> bool
        ensures { IsTrue result ↔ (seat_task self.now ≡ seat_task other.now) }
    {
        self.next == other.next
            && self.made == other.made
            && self.ids.is_same(&other.ids)
            && all_same(self.ports.as_slice(), other.ports.as_slice())
            && all_same(self.inbox.as_slice(), other.inbox.as_slice())
            && are_the_same(&self.pending, &other.pending)
    }

    /// A copy, whose rights share the opens.
    pub fn copied(&self, alloc: Global) -> Result<TaskSeat, AllocError>
        ensures { IfOk result (λ seat. seat_task seat ≡ seat_task self.now) }
    {
        Ok(TaskSeat {
            ids: self.ids.copied(alloc)?,
            ports: ports_copied(alloc, self.ports.as_slice())?,
            next: self.next,
            inbox: rights_copied(alloc, self.inbox.as_slice())?,
            made: self.made,
            pending: pending_copied(alloc, &self.pending)?,
        })
    }
}

/// Whether both are nothing, or the same start. Takes no memory.
fn are_the_same(some: &Option<PendingStart>, other: &Option<PendingStart>) -> bool
    ensures { IsTrue result ↔ (some.now ≡ other.now) }
{
    match (some, other) {
        (Some(some), Some(other)) => some.is_same(other),
        (None, None) => true,
        _ => false,
    }
}

/// A copy of what is to be started, if anything is.
fn pending_copied(
    alloc: Global,
    pending: &Option<PendingStart>,
) -> Result<Option<PendingStart>, AllocError>
    ensures { IfOk result (λ copied. copied ≡ pending.now) }
{
    match pending {
        Some(pending) => Ok(Some(pending.copied(alloc)?)),
        None => Ok(None),
    }
}

/// A copy of each of these ports, which share the opens.
fn ports_copied(alloc: Global, ports: &[Port]) -> Result<Vec<Port>, AllocError>
    ensures { IfOk result (λ copied. copied.items ≡ ports.now) }
{
    let mut copied = Vec::with_capacity(alloc, ports.len())?;
    for port in ports {
        copied.push_reserved(port.copied(alloc)?);
    }
    Ok(copied)
}

/// A copy of each of these rights, which share the opens.
fn rights_copied(alloc: Global, rights: &[Right]) -> Result<Vec<Right>, AllocError>
    ensures { IfOk result (λ copied. copied.items ≡ rights.now) }
{
    let mut copied = Vec::with_capacity(alloc, rights.len())?;
    for right in rights {
        copied.push_reserved(right.copied(alloc)?);
    }
    Ok(copied)
}
