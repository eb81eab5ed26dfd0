//! Tasks, and the ports that they have beside those that they began with.
ghost use Rattle.std.specs.Prelude.{◌≡◌, ◌++◌, OnOk};
ghost use Rattle.hurd_ports.specs.declared.table.Right.TheVariants.{Io};
ghost use Rattle.hurd_pictures.specs.Tasks.{cursor_text, ids_text, inbox_text, modes_text, node_of_right, number_text, open_at, open_text, opened_text, port_text, ports_text, right_text, same_ids, seat_text, seats_text, task_arrow, task_name, task_node, use_text};

use crate::bytes::push_text;
use crate::names::{Titles, push_count, push_node_name, root_of};
use crate::nodes::push_unseen;
use hurd_creds::{Ids, NodeName, OpenFlags, OpenName, TaskId};
use hurd_ports::{IoRight, Opened, Port, Right, TaskSeat};
use hurd_views::{OpenRow, SeatRow, View};
use hurd_words::printing::{push_if, push_number};
use std::alloc::AllocError;

/// The ports with which a task begins are not drawn: those below this number.
const FIRST_PORT: u64 = 3;

/// Adds the name of a task in the picture's text, as `t2`.
fn push_task_name(text: &mut Vec<u8>, task: TaskId) -> Result<(), AllocError>
    ensures { OnOk result (text.new.items ≡ text.old.items ++ task_name task) }
{
    text.push(b't')?;
    push_count(text, task.0 as u64)
}

/// Adds a task.
#[tactic(auto, unfolding(crate::specs::Tasks::task_node))]
fn push_task(text: &mut Vec<u8>, titles: &Titles, task: TaskId) -> Result<(), AllocError>
    ensures { OnOk result (text.new.items ≡ text.old.items ++ task_node titles.now task) }
{
    push_text(text, b"  ")?;
    push_task_name(text, task)?;
    push_text(text, b" [shape=ellipse, fillcolor=\"#d6e6ff\", label=<<b>")?;
    titles.push_task(text, task)?;
    push_text(text, b"</b>>];\n")
}

/// Whether these are the same ids.
fn same_ids(ids: &Ids, other: &Ids) -> bool
    ensures { result ≡ same_ids ids.now other.now }
{
    ids.is_same(other)
}

/// Adds as whom a right is used, where its ids are others than the task's.
#[tactic(auto, unfolding(crate::specs::Tasks::ids_text))]
fn push_ids(text: &mut Vec<u8>, titles: &Titles, own: &Ids, ids: &Ids) -> Result<(), AllocError>
    ensures { OnOk result (text.new.items ≡ text.old.items ++ ids_text titles.now own.now ids.now) }
{
    if same_ids(own, ids) {
        return Ok(());
    }
    push_text(text, b"<br/>as ")?;
    titles.push_runner(text, ids)
}

/// Adds what an open allows, each mode after a space.
fn push_modes(text: &mut Vec<u8>, modes: OpenFlags) -> Result<(), AllocError>
    ensures { OnOk result (text.new.items ≡ text.old.items ++ modes_text modes) }
{
    push_if(text, modes.asks(OpenFlags::READ), " read")?;
    push_if(text, modes.asks(OpenFlags::WRITE), " write")?;
    push_if(text, modes.asks(OpenFlags::EXEC), " exec")?;
    push_if(text, modes.asks(OpenFlags::APPEND), " append")
}

/// Adds where an open stands, unless at its begin.
fn push_cursor(text: &mut Vec<u8>, cursor: u64) -> Result<(), AllocError>
    ensures { OnOk result (text.new.items ≡ text.old.items ++ cursor_text cursor) }
{
    if cursor == 0 {
        return Ok(());
    }
    push_text(text, b" at")?;
    push_number(text, cursor)
}

/// Adds what an open allows, where it stands, and whether several rights share it.
fn push_opened(text: &mut Vec<u8>, opened: &Opened, holders: u128) -> Result<(), AllocError>
    ensures { OnOk result (text.new.items ≡ text.old.items ++ opened_text opened.now holders) }
{
    push_modes(text, opened.modes)?;
    push_cursor(text, opened.cursor)?;
    push_if(text, holders > 1, " shared")
}

/// Adds the same of an open that may be there.
fn push_open(text: &mut Vec<u8>, row: &Option<OpenRow>) -> Result<(), AllocError>
    ensures { OnOk result (text.new.items ≡ text.old.items ++ open_text row.now) }
{
    let Some(row) = row else {
        return Ok(());
    };
    match &row.opened {
        Some(opened) => push_opened(text, opened, row.holders),
        None => Ok(()),
    }
}

/// Adds the same of an open by its name.
#[tactic(auto, unfolding(crate::specs::Tasks::open_at))]
fn push_open_at(text: &mut Vec<u8>, view: &View, name: OpenName) -> Result<(), AllocError>
    ensures { OnOk result (text.new.items ≡ text.old.items ++ open_at view.now name) }
{
    match view.rows.get(name) {
        Some(row) => push_open(text, &row.opened),
        None => Ok(()),
    }
}

/// Adds the number of a port, or that the right was sent and is not taken yet.
fn push_port_number(text: &mut Vec<u8>, number: Option<u64>) -> Result<(), AllocError>
    ensures { OnOk result (text.new.items ≡ text.old.items ++ number_text number) }
{
    let Some(number) = number else {
        return push_text(text, b"sent");
    };
    push_text(text, b"port ")?;
    push_count(text, number)
}

/// What a right is on: a node, the root of the server that it controls, or the node on which a translator is to be started.
fn node_of_right(view: &View, right: &Right) -> Option<NodeName>
    ensures { result ≡ node_of_right view.now right.now }
{
    match right {
        Right::Io(right) => Some(right.node),
        Right::Control(server) => root_of(view, *server),
        Right::Start(node) => Some(*node),
    }
}

/// Adds what a right to use a node allows.
fn push_io(
    text: &mut Vec<u8>,
    titles: &Titles,
    view: &View,
    own: &Ids,
    right: &IoRight,
) -> Result<(), AllocError>
    ensures { OnOk result (text.new.items ≡ text.old.items ++ use_text titles.now view.now own.now (Io right.now)) }
{
    push_open_at(text, view, right.open_name)?;
    push_ids(text, titles, own, &right.ids)?;
    push_text(text, b">, color=\"#7a3fa0\", fontcolor=\"#7a3fa0\"];\n")
}

/// Adds what a right allows.
fn push_use(
    text: &mut Vec<u8>,
    titles: &Titles,
    view: &View,
    own: &Ids,
    right: &Right,
) -> Result<(), AllocError>
    ensures { OnOk result (text.new.items ≡ text.old.items ++ use_text titles.now view.now own.now right.now) }
{
    match right {
        Right::Io(right) => push_io(text, titles, view, own, right),
        Right::Control(_) => {
            push_text(
                text,
                b" controls>, color=\"#a02020\", fontcolor=\"#a02020\"];\n",
            )
        }
        Right::Start(_) => push_text(text, b" is to start>];\n"),
    }
}

/// Adds an arrow from a task to a node, up to its label.
#[tactic(auto, unfolding(crate::specs::Tasks::task_arrow))]
fn push_arrow_from(text: &mut Vec<u8>, task: TaskId, node: NodeName) -> Result<(), AllocError>
    ensures { OnOk result (text.new.items ≡ text.old.items ++ task_arrow task node) }
{
    push_text(text, b"  ")?;
    push_task_name(text, task)?;
    push_text(text, b" -> ")?;
    push_node_name(text, node)?;
    push_text(text, b" [label=<")
}

/// Adds a task and an arrow from it to the node that a right of its is on, if there is one.
fn push_right(
    text: &mut Vec<u8>,
    titles: &Titles,
    view: &View,
    task: TaskId,
    own: &Ids,
    right: &Right,
    number: Option<u64>,
) -> Result<(), AllocError>
    ensures { OnOk result (text.new.items ≡ text.old.items ++ right_text titles.now view.now task own.now right.now number) }
{
    let Some(node) = node_of_right(view, right) else {
        return Ok(());
    };
    push_task(text, titles, task)?;
    push_unseen(text, view, node)?;
    push_arrow_from(text, task, node)?;
    push_port_number(text, number)?;
    push_use(text, titles, view, own, right)
}

/// Adds the arrow of a port, unless the task began with it.
fn push_port(
    text: &mut Vec<u8>,
    titles: &Titles,
    view: &View,
    task: TaskId,
    own: &Ids,
    port: &Port,
) -> Result<(), AllocError>
    ensures { OnOk result (text.new.items ≡ text.old.items ++ port_text titles.now view.now task own.now port.now) }
{
    if port.number < FIRST_PORT {
        return Ok(());
    }
    push_right(
        text,
        titles,
        view,
        task,
        own,
        &port.right,
        Some(port.number),
    )
}

/// Adds the arrows of ports.
fn push_ports(
    text: &mut Vec<u8>,
    titles: &Titles,
    view: &View,
    task: TaskId,
    own: &Ids,
    ports: &[Port],
) -> Result<(), AllocError>
    ensures { OnOk result (text.new.items ≡ text.old.items ++ ports_text titles.now view.now task own.now ports.now) }
{
    for port in ports {
        push_port(text, titles, view, task, own, port)?;
    }
    Ok(())
}

/// Adds the arrows of rights that were sent.
fn push_inbox(
    text: &mut Vec<u8>,
    titles: &Titles,
    view: &View,
    task: TaskId,
    own: &Ids,
    rights: &[Right],
) -> Result<(), AllocError>
    ensures { OnOk result (text.new.items ≡ text.old.items ++ inbox_text titles.now view.now task own.now rights.now) }
{
    for right in rights {
        push_right(text, titles, view, task, own, right, None)?;
    }
    Ok(())
}

/// Adds the arrows of a task that may be there.
fn push_seat(
    text: &mut Vec<u8>,
    titles: &Titles,
    view: &View,
    task: TaskId,
    row: &SeatRow,
) -> Result<(), AllocError>
    ensures { OnOk result (text.new.items ≡ text.old.items ++ seat_text titles.now view.now task row.now) }
{
    let Some(seat) = row.seat() else {
        return Ok(());
    };
    push_ports(text, titles, view, task, &seat.ids, seat.ports.as_slice())?;
    push_inbox(text, titles, view, task, &seat.ids, seat.inbox.as_slice())
}

/// Adds the arrows of these tasks; the rows are theirs, in the same order.
pub(crate) fn push_seats(
    text: &mut Vec<u8>,
    titles: &Titles,
    view: &View,
    tasks: &[TaskId],
    rows: &[SeatRow],
) -> Result<(), AllocError>
    ensures { OnOk result (text.new.items ≡ text.old.items ++ seats_text titles.now view.now tasks.now rows.now) }
{
    for (i, task) in tasks.iter().enumerate() {
        let Some(row) = rows.get(i) else {
            return Ok(());
        };
        push_seat(text, titles, view, *task, row)?;
    }
    Ok(())
}
