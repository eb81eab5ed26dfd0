//! The ids that a set of tasks may act with.
ghost use Rattle.std.specs.Prelude.{◌≡◌, ◌↔◌, ℕ, ◌||◌, ◌==◌, length, slice_get, IfOk, OnOk, IsTrue};
ghost use Rattle.std.specs.List.{list_any};
ghost use Rattle.std.specs.FinSet as set;
ghost use Rattle.indexmap.specs.IndexSet.{index_set_len};
ghost use Rattle.hurd_creds.specs.Access.{has_no_uids, holds_gid, holds_uid, is_among, owns};
ghost use Rattle.hurd_ports.specs.Seats.{seat_task};
ghost use Rattle.hurd_sight.specs.Reach.{CouldIsEnough, Gains, Gathers, ReachIsGathered, Serves, could_with, holds_at, others_or_group, right_holds, serves, task_holds};

use bitflags::Flags;
use hurd_creds::{Attrs, Ids, Mode, TaskId, Want, group_bit, others_bit, unknown_bit};
use hurd_ports::{Port, Ports, Right, TaskSeat};
use indexmap::IndexSet;
use std::alloc::{AllocError, Global};
use std::marker::Model;

/// The user and group ids that a set of tasks may act with: those of its tasks, and of the rights that these have.
#[derive(Drop)]
pub struct Reach {
    uids: IndexSet<u32>,
    gids: IndexSet<u32>,
}

impl Model for Reach {
    ghost use Rattle.std.specs.FinSet as set;
    ghost use Rattle.hurd_creds.specs.Access.{IdSets, coded_ids};

    ghost Value = { IdSets };

    ghost coded = { coded_ids };

    ghost view = { λ r. record { uids = set.from_list r.uids.keys; gids = set.from_list r.gids.keys } };
}

impl Reach {
    /// The ids of these tasks, where they are there, and of their rights.
    pub fn of(alloc: Global, ports: &Ports, tasks: &[TaskId]) -> Result<Reach, AllocError>
        ensures { IfOk result (λ reach. Gathers ports.now.state.tasks tasks.now reach) }
    {
        let mut reach = Reach {
            uids: IndexSet::new(alloc),
            gids: IndexSet::new(alloc),
        };
        for task in tasks {
            reach.add_of(ports, *task)?;
        }
        Ok(reach)
    }

    /// Adds the ids of a task, if it is there, and of its rights.
    fn add_of(&mut self, ports: &Ports, task: TaskId) -> Result<(), AllocError>
        ensures { OnOk result (Gains self.old self.new (λ holds. holds_at holds (slice_get ports.now.state.tasks task.0))) }
    {
        match ports.seat(task) {
            Some(seat) => self.add_task(seat),
            None => Ok(()),
        }
    }

    /// Adds the ids of a row, and of its rights.
    fn add_task(&mut self, seat: &TaskSeat) -> Result<(), AllocError>
        ensures { OnOk result (Gains self.old self.new (λ holds. task_holds holds (seat_task seat.now))) }
    {
        self.add_ids(&seat.ids)?;
        self.add_ports(&seat.ports)?;
        self.add_rights(&seat.inbox)
    }

    /// Adds the ids of the rights of these ports.
    fn add_ports(&mut self, ports: &[Port]) -> Result<(), AllocError>
        ensures { OnOk result (Gains self.old self.new (λ holds. list_any (λ p. right_holds holds p.right) ports.now)) }
    {
        for port in ports {
            self.add_right(&port.right)?;
        }
        Ok(())
    }

    /// Adds the ids of these rights.
    fn add_rights(&mut self, rights: &[Right]) -> Result<(), AllocError>
        ensures { OnOk result (Gains self.old self.new (λ holds. list_any (right_holds holds) rights.now)) }
    {
        for right in rights {
            self.add_right(right)?;
        }
        Ok(())
    }

    /// Adds the ids of a right.
    fn add_right(&mut self, right: &Right) -> Result<(), AllocError>
        ensures { OnOk result (Gains self.old self.new (λ holds. right_holds holds right.now)) }
    {
        match right {
            Right::Io(right) => self.add_ids(&right.ids),
            Right::Control(_) => Ok(()),
            Right::Start(_) => Ok(()),
        }
    }

    /// Adds these ids.
    fn add_ids(&mut self, ids: &Ids) -> Result<(), AllocError>
        ensures { OnOk result (Gains self.old self.new (λ holds. holds ids.now)) }
    {
        gather(&mut self.uids, ids.uids())?;
        gather(&mut self.gids, ids.gids())
    }

    /// Whether a node's owner or 0 is among the uids.
    pub fn owns(&self, attrs: &Attrs) -> bool
        ensures { result ≡ owns self.now attrs.now }
    {
        self.holds_uid(attrs.owner) || self.holds_uid(0)
    }

    /// Whether the node's owner or 0 is among the uids, or some of the ids, taken by themselves, may do this with a node of these attributes.
    pub fn could(&self, attrs: &Attrs, want: Want) -> bool
        ensures { result ≡ could_with self.now attrs.now want }
    {
        if self.owns(attrs) {
            return true;
        }
        if !attrs.mode.contains(Mode::USE_UNK) {
            return self.allowed_as_other(attrs, want);
        }
        if attrs.mode.contains(unknown_bit(want)) {
            return true;
        }
        if self.has_no_uids() {
            return false;
        }
        self.allowed_as_other(attrs, want)
    }

    /// Whether the others' bits allow it, or the group's where that group is among the gids.
    fn allowed_as_other(&self, attrs: &Attrs, want: Want) -> bool
        ensures { result ≡ others_or_group self.now attrs.now want }
    {
        if attrs.mode.contains(others_bit(want)) {
            return true;
        }
        self.holds_gid(attrs.group) && attrs.mode.contains(group_bit(want))
    }

    /// Whether a uid of a server of these ids is among the uids, or 0 is.
    pub fn could_serve(&self, ids: &Ids) -> bool
        ensures test { result ≡ serves self.now ids.now }
        ensures means { IsTrue result ↔ Serves self.now ids.now }
    {
        self.holds_uid(0) || self.holds_any(ids.uids())
    }

    /// Whether one of these is among the uids.
    fn holds_any(&self, uids: &[u32]) -> bool
        ensures { result ≡ list_any (holds_uid self.now) uids.now }
    {
        for uid in uids {
            if self.holds_uid(*uid) {
                return true;
            }
        }
        false
    }

    /// Whether this is among the uids.
    fn holds_uid(&self, uid: u32) -> bool
        ensures { result ≡ holds_uid self.now uid }
    {
        has(&self.uids, uid)
    }

    /// Whether this is among the gids.
    fn holds_gid(&self, gid: u32) -> bool
        ensures { result ≡ holds_gid self.now gid }
    {
        has(&self.gids, gid)
    }

    /// Whether there is no uid.
    fn has_no_uids(&self) -> bool
        ensures { result ≡ has_no_uids self.now }
    {
        self.uids.is_empty()
    }
}

/// Whether an id is in a set.
fn has(held: &IndexSet<u32>, id: u32) -> bool
    ensures { result ≡ is_among held.now.keys id }
{
    held.contains(&id)
}

/// Adds ids to a set.
fn gather(held: &mut IndexSet<u32>, ids: &[u32]) -> Result<(), AllocError>
    ensures { OnOk result ((id : ℕ) → is_among held.new.keys id ≡ (is_among held.old.keys id || is_among ids.now id)) }
{
    for id in ids {
        held.reserve(1)?;
        held.insert(*id).unwrap();
    }
    Ok(())
}

/// A law: the ids that some tasks and their rights hold are what the tasks can act with, in every world that has these tasks.
pub fn reach_is_gathered()
    ensures { ReachIsGathered }
{}

/// A law: what a set of tasks could do, with some ids taken from those that it reaches, is told by a few tests of these.
pub fn could_is_enough()
    ensures { CouldIsEnough }
{}
