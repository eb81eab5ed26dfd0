//! What the rights of a set of tasks name beside the nodes that they show: opens, nodes that are open to read or to write, and servers.
ghost use Rattle.std.specs.Prelude.{◌≡◌, IfOk, OnOk, map, slice_get};
ghost use Rattle.std.specs.FinMap as fin;
ghost use Rattle.hurd_ports.specs.declared.table.Right.TheVariants.{Io};
ghost use Rattle.hurd_ports.specs.Tables.{rights_of};
ghost use Rattle.hurd_ports.specs.Seats.{seat_task};
ghost use Rattle.hurd_sight.specs.Parts.{is_for, named, no_names, node_for, rights_at, rights_held, with_right, with_rights};

use crate::names::NameSet;
use hurd_creds::{OpenFlags, OpenName, TaskId};
use hurd_ports::{IoRight, Port, Ports, Right, TaskSeat};
use std::alloc::{AllocError, Global};

/// The opens, the nodes that are open to read and to write, and the servers that are controlled, of some rights.
#[derive(Drop)]
pub struct RightNames {
    pub(crate) opens: NameSet,
    pub(crate) readable: NameSet,
    pub(crate) writable: NameSet,
    pub(crate) controlled: NameSet,
}

impl RightNames {
    /// Those of all rights of these tasks, where they are there.
    pub(crate) fn of(
        alloc: Global,
        ports: &Ports,
        tasks: &[TaskId],
    ) -> Result<RightNames, AllocError>
        ensures { IfOk result (λ names. names ≡ with_rights ports.now.state.opens (rights_held ports.now.state.tasks tasks.now) no_names) }
    {
        let mut names = RightNames {
            opens: NameSet::new(alloc),
            readable: NameSet::new(alloc),
            writable: NameSet::new(alloc),
            controlled: NameSet::new(alloc),
        };
        for task in tasks {
            names.add_task(ports, *task)?;
        }
        Ok(names)
    }

    /// Those of a task, if it is there.
    fn add_task(&mut self, ports: &Ports, task: TaskId) -> Result<(), AllocError>
        ensures { OnOk result (self.new ≡ with_rights ports.now.state.opens (rights_at (slice_get ports.now.state.tasks task.0)) self.old) }
    {
        match ports.seat(task) {
            Some(seat) => self.add_seat(ports, seat),
            None => Ok(()),
        }
    }

    /// Those of a row; a pending start names none.
    fn add_seat(&mut self, ports: &Ports, seat: &TaskSeat) -> Result<(), AllocError>
        ensures { OnOk result (self.new ≡ with_rights ports.now.state.opens (rights_of (seat_task seat.now)) self.old) }
    {
        self.add_ports(ports, &seat.ports)?;
        self.add_rights(ports, &seat.inbox)
    }

    /// Those of the rights of some ports.
    fn add_ports(&mut self, ports: &Ports, some: &[Port]) -> Result<(), AllocError>
        ensures { OnOk result (self.new ≡ with_rights ports.now.state.opens (map (λ p. p.right) some.now) self.old) }
    {
        for port in some {
            self.add_right(ports, &port.right)?;
        }
        Ok(())
    }

    /// Those of some rights.
    fn add_rights(&mut self, ports: &Ports, rights: &[Right]) -> Result<(), AllocError>
        ensures { OnOk result (self.new ≡ with_rights ports.now.state.opens rights.now self.old) }
    {
        for right in rights {
            self.add_right(ports, right)?;
        }
        Ok(())
    }

    /// Those of a right.
    fn add_right(&mut self, ports: &Ports, right: &Right) -> Result<(), AllocError>
        ensures { OnOk result (self.new ≡ with_right ports.now.state.opens right.now self.old) }
    {
        match right {
            Right::Io(right) => {
                self.opens.add(right.open_name)?;
                add_node(&mut self.readable, ports, right, OpenFlags::READ)?;
                add_node(&mut self.writable, ports, right, OpenFlags::WRITE)
            }
            Right::Control(server) => self.controlled.add(*server),
            Right::Start(_) => Ok(()),
        }
    }
}

/// One name more, the node of a right, if that has it open in this mode.
fn add_node(
    names: &mut NameSet,
    ports: &Ports,
    right: &IoRight,
    mode: OpenFlags,
) -> Result<(), AllocError>
    ensures { OnOk result (names.new ≡ named (node_for mode.0 ports.now.state.opens (Io right.now)) names.old) }
{
    if has_mode(ports, right.open_name, mode) {
        names.add(right.node)
    } else {
        Ok(())
    }
}

/// Whether an open is there, and in this mode.
fn has_mode(ports: &Ports, open_name: OpenName, mode: OpenFlags) -> bool
    ensures { result ≡ is_for mode.0 (fin.get ports.now.state.opens open_name) }
{
    match ports.opened(open_name) {
        Some(opened) => opened.modes.asks(mode),
        None => false,
    }
}
