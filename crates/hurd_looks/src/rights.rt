//! Rights and tasks of two views.
ghost use Rattle.std.specs.Prelude.{◌↔◌, IfOk, IsTrue};
ghost use Rattle.hurd_machine.specs.Renamed.{task_renamed};
ghost use Rattle.hurd_ports.specs.Seats.{seat_task};
ghost use Rattle.hurd_looks.specs.Pairings.{PairUp};
ghost use Rattle.hurd_looks.specs.Renamed.{HaveSameNumbers};

use crate::meet::{Meet, meet_all};
use crate::pairs::Pairs;
use hurd_ports::{IoRight, Parent, PendingStart, Port, Right, TaskSeat};
use hurd_views::SeatRow;
use std::alloc::AllocError;

impl Meet for Parent {
    ghost use Rattle.hurd_machine.specs.Renamed.{way_renamed};

    ghost renamed = { way_renamed };

    fn meet(&self, other: &Parent, pairs: &mut Pairs) -> Result<bool, AllocError> {
        if !self.at.meet(&other.at, pairs)? {
            return Ok(false);
        }
        self.parent.meet(&other.parent, pairs)
    }
}

impl Meet for IoRight {
    ghost use Rattle.hurd_machine.specs.Renamed.{io_renamed};

    ghost renamed = { io_renamed };

    fn meet(&self, other: &IoRight, pairs: &mut Pairs) -> Result<bool, AllocError> {
        if !self.ids.is_same(&other.ids) {
            return Ok(false);
        }
        if !self.node.meet(&other.node, pairs)? {
            return Ok(false);
        }
        if !self.open_name.meet(&other.open_name, pairs)? {
            return Ok(false);
        }
        meet_all(self.parents.as_slice(), other.parents.as_slice(), pairs)
    }
}

impl Meet for Right {
    ghost use Rattle.hurd_machine.specs.Renamed.{right_renamed};

    ghost renamed = { right_renamed };

    fn meet(&self, other: &Right, pairs: &mut Pairs) -> Result<bool, AllocError> {
        match (self, other) {
            (Right::Io(right), Right::Io(other)) => right.meet(other, pairs),
            (Right::Control(server), Right::Control(other)) => server.meet(other, pairs),
            (Right::Start(node), Right::Start(other)) => node.meet(other, pairs),
            _ => Ok(false),
        }
    }
}

impl Meet for Port {
    ghost use Rattle.hurd_machine.specs.Renamed.{port_renamed};

    ghost renamed = { port_renamed };

    fn meet(&self, other: &Port, pairs: &mut Pairs) -> Result<bool, AllocError> {
        if self.number != other.number {
            return Ok(false);
        }
        self.right.meet(&other.right, pairs)
    }
}

impl Meet for PendingStart {
    ghost use Rattle.hurd_machine.specs.Renamed.{start_renamed};

    ghost renamed = { start_renamed };

    fn meet(&self, other: &PendingStart, pairs: &mut Pairs) -> Result<bool, AllocError> {
        if !self.words.is_same(&other.words) {
            return Ok(false);
        }
        self.node.meet(&other.node, pairs)
    }
}

/// Whether two tasks are the same beside what their rights name. Takes no memory.
fn same_numbers(seat: &TaskSeat, other: &TaskSeat) -> bool
    ensures { IsTrue result ↔ HaveSameNumbers (seat_task seat.now) (seat_task other.now) }
{
    seat.next == other.next && seat.made == other.made && seat.ids.is_same(&other.ids)
}

/// Pairs the names in the rights of two tasks; whether they are the same except for names. Fails only if memory runs out.
fn meet_seats(seat: &TaskSeat, other: &TaskSeat, pairs: &mut Pairs) -> Result<bool, AllocError>
    ensures { IfOk result (λ met. PairUp (λ f x. task_renamed f 0 x) (seat_task seat.now) (seat_task other.now) pairs.old met pairs.new) }
{
    if !same_numbers(seat, other) {
        return Ok(false);
    }
    if !meet_all(seat.ports.as_slice(), other.ports.as_slice(), pairs)? {
        return Ok(false);
    }
    if !meet_all(seat.inbox.as_slice(), other.inbox.as_slice(), pairs)? {
        return Ok(false);
    }
    seat.pending.meet(&other.pending, pairs)
}

impl Meet for SeatRow {
    ghost use Rattle.std.specs.Option.{option_map};
    ghost use Rattle.hurd_machine.specs.Renamed.{task_renamed};

    ghost renamed = { λ f o. option_map (task_renamed f 0) o };

    fn meet(&self, other: &SeatRow, pairs: &mut Pairs) -> Result<bool, AllocError> {
        match (self.seat(), other.seat()) {
            (Some(seat), Some(other)) => meet_seats(seat, other, pairs),
            (None, None) => Ok(true),
            _ => Ok(false),
        }
    }
}
