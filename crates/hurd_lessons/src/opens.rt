//! The node of an open, by the rights that have it.
ghost use Rattle.std.specs.Prelude.{◌≡◌};
ghost use Rattle.hurd_lessons.specs.Seen.{opened_by, opened_by_ports, opened_by_rights, opened_by_task, opened_by_tasks};

use hurd_creds::{Name, NodeName};
use hurd_ports::{Port, Right};
use hurd_views::SeatRow;

/// The node of a right that has an open.
fn opened_by(wanted: Name, right: &Right) -> Option<NodeName>
    ensures { result ≡ opened_by wanted right.now }
{
    match right {
        Right::Io(right) if right.open_name == wanted => Some(right.node),
        _ => None,
    }
}

/// The node of the first of these that has it.
fn opened_by_ports(wanted: Name, ports: &[Port]) -> Option<NodeName>
    ensures { result ≡ opened_by_ports wanted ports.now }
{
    for port in ports {
        let node = opened_by(wanted, &port.right);
        if node.is_some() {
            return node;
        }
    }
    None
}

/// The same of rights that were sent.
fn opened_by_rights(wanted: Name, rights: &[Right]) -> Option<NodeName>
    ensures { result ≡ opened_by_rights wanted rights.now }
{
    for right in rights {
        let node = opened_by(wanted, right);
        if node.is_some() {
            return node;
        }
    }
    None
}

/// The same of a task's: its ports, and then those that it was sent.
fn opened_by_task(wanted: Name, row: &SeatRow) -> Option<NodeName>
    ensures { result ≡ opened_by_task wanted row.now }
{
    let seat = row.seat()?;
    match opened_by_ports(wanted, seat.ports.as_slice()) {
        Some(node) => Some(node),
        None => opened_by_rights(wanted, seat.inbox.as_slice()),
    }
}

/// The same of some tasks.
pub(crate) fn opened_by_tasks(wanted: Name, rows: &[SeatRow]) -> Option<NodeName>
    ensures { result ≡ opened_by_tasks wanted rows.now }
{
    for row in rows {
        let node = opened_by_task(wanted, row);
        if node.is_some() {
            return node;
        }
    }
    None
}
