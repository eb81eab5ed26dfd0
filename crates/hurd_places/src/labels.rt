//! How rights are called that tasks have.
ghost use Rattle.std.specs.Prelude.{◌≡◌, ◌++◌, Some, codes, OnOk};
ghost use Rattle.hurd_words.specs.Printing.{spaced, text_if};
ghost use Rattle.hurd_ports.specs.Seats.{seat_task};
ghost use Rattle.hurd_places.specs.Places.{beside, beside_port, beside_ports, beside_task, beside_tasks, holder_word, is_held, is_wanted, label_of, label_of_task, label_of_tasks, label_or, label_text, names_tasks, port_wanted, sent_wanted, wants};

use hurd_creds::{NodeName, OpenName, TaskId};
use hurd_ports::{IoRight, Port, Right, TaskSeat};
use hurd_sight::Why;
use hurd_views::{SeatRow, View};
use hurd_words::printing::push_number;
use std::alloc::AllocError;

/// What holds a right of a task.
#[derive(Clone, Copy)]
pub(crate) enum Holder {
    Port,
    Inbox,
}

/// How a right is called: its task, what holds it, and its number there.
#[derive(Clone, Copy)]
pub(crate) struct Label {
    pub task: TaskId,
    pub holder: Holder,
    pub number: u64,
}

/// Which rights are looked for: those to use a node, or those of an open.
#[derive(Clone, Copy)]
pub(crate) enum Wanted {
    Node(NodeName),
    Open(OpenName),
}

/// The greatest number of the ports that each task is given first.
const FIRST_PORTS: u64 = 2;

impl Wanted {
    /// Whether a right to use a node is looked for.
    fn wants(self, right: &IoRight) -> bool
        ensures { result ≡ wants self right.now }
    {
        match self {
            Wanted::Node(node) => node == right.node,
            Wanted::Open(open_name) => open_name == right.open_name,
        }
    }

    /// Whether a right is looked for.
    fn is_wanted(self, right: &Right) -> bool
        ensures { result ≡ is_wanted self right.now }
    {
        match right {
            Right::Io(right) => self.wants(right),
            Right::Control(_) | Right::Start(_) => false,
        }
    }

    /// The number of the first port with such a right.
    fn port(self, ports: &[Port]) -> Option<u64>
        ensures { result ≡ port_wanted self ports.now }
    {
        for port in ports {
            if self.is_wanted(&port.right) {
                return Some(port.number);
            }
        }
        None
    }

    /// The number of the first such right in an inbox, counted from 1.
    fn sent(self, rights: &[Right]) -> Option<u64>
        ensures { result ≡ sent_wanted self 1 rights.now }
    {
        let mut number = 1;
        for right in rights {
            if self.is_wanted(right) {
                return Some(number);
            }
            number += 1;
        }
        None
    }

    /// The label of the first such right of a task.
    fn label_of_seat(self, task: TaskId, seat: &TaskSeat) -> Option<Label>
        ensures { result ≡ label_of_task self task (Some (seat_task seat.now)) }
    {
        if let Some(number) = self.port(&seat.ports) {
            return Some(Label {
                task,
                holder: Holder::Port,
                number,
            });
        }
        let number = self.sent(&seat.inbox)?;
        Some(Label {
            task,
            holder: Holder::Inbox,
            number,
        })
    }

    /// The same of a task that may be there.
    fn label_of_task(self, task: TaskId, row: &SeatRow) -> Option<Label>
        ensures { result ≡ label_of_task self task row.now }
    {
        match row.seat() {
            Some(seat) => self.label_of_seat(task, seat),
            None => None,
        }
    }

    /// The same of some tasks.
    fn label_of_tasks(self, tasks: &[TaskId], rows: &[SeatRow]) -> Option<Label>
        ensures { result ≡ label_of_tasks self tasks.now rows.now }
    {
        for (i, task) in tasks.iter().enumerate() {
            let Some(row) = rows.get(i) else {
                return None;
            };
            if let Some(label) = self.label_of_task(*task, row) {
                return Some(label);
            }
        }
        None
    }

    /// The same of the tasks of a view.
    fn label_of(self, view: &View) -> Option<Label>
        ensures { result ≡ label_of view.now self }
    {
        self.label_of_tasks(view.sight.tasks(), view.seats.as_slice())
    }
}

/// Whether labels name their task: where there is more than one.
fn names_tasks(view: &View) -> bool
    ensures { result ≡ names_tasks view.now }
{
    view.sight.tasks().len() > 1
}

/// What holds a right, in a word.
fn holder_word(holder: Holder) -> &'static [u8]
    ensures { result.now ≡ holder_word holder }
{
    match holder {
        Holder::Port => b"port",
        Holder::Inbox => b"inbox",
    }
}

/// Adds a task, where labels name it.
fn push_task(text: &mut Vec<u8>, many: bool, task: TaskId) -> Result<(), AllocError>
    ensures { OnOk result (text.new.items ≡ text.old.items ++ text_if many (codes "task" ++ (spaced task.0 ++ codes " "))) }
{
    if many {
        text.extend_from_slice(b"task")?;
        push_number(text, u64::from(task.0))?;
        text.push(b' ')?;
    }
    Ok(())
}

/// Adds a label.
fn push_label(text: &mut Vec<u8>, many: bool, label: Label) -> Result<(), AllocError>
    ensures { OnOk result (text.new.items ≡ text.old.items ++ label_text many label) }
{
    push_task(text, many, label.task)?;
    text.extend_from_slice(holder_word(label.holder))?;
    push_number(text, label.number)
}

/// Adds the label of the first right that is looked for, or else a word.
pub(crate) fn push_label_or(
    text: &mut Vec<u8>,
    view: &View,
    wanted: Wanted,
    word: &[u8],
) -> Result<(), AllocError>
    ensures { OnOk result (text.new.items ≡ text.old.items ++ label_or (names_tasks view.now) word.now (label_of view.now wanted)) }
{
    match wanted.label_of(view) {
        Some(label) => push_label(text, names_tasks(view), label),
        None => text.extend_from_slice(word),
    }
}

/// Adds a port's label, where the port is on a node and none of the first three.
fn push_port(
    text: &mut Vec<u8>,
    many: bool,
    task: TaskId,
    node: NodeName,
    port: &Port,
) -> Result<(), AllocError>
    ensures { OnOk result (text.new.items ≡ text.old.items ++ beside_port many task node port.now) }
{
    if port.number > FIRST_PORTS && Wanted::Node(node).is_wanted(&port.right) {
        text.extend_from_slice(b" (")?;
        let label = Label {
            task,
            holder: Holder::Port,
            number: port.number,
        };
        push_label(text, many, label)?;
        text.push(b')')?;
    }
    Ok(())
}

/// The same of each of some ports.
fn push_ports(
    text: &mut Vec<u8>,
    many: bool,
    task: TaskId,
    node: NodeName,
    ports: &[Port],
) -> Result<(), AllocError>
    ensures { OnOk result (text.new.items ≡ text.old.items ++ beside_ports many task node ports.now) }
{
    for port in ports {
        push_port(text, many, task, node, port)?;
    }
    Ok(())
}

/// The same of the ports of a task that may be there.
fn push_task_ports(
    text: &mut Vec<u8>,
    many: bool,
    task: TaskId,
    node: NodeName,
    row: &SeatRow,
) -> Result<(), AllocError>
    ensures { OnOk result (text.new.items ≡ text.old.items ++ beside_task many task node row.now) }
{
    match row.seat() {
        Some(seat) => push_ports(text, many, task, node, &seat.ports),
        None => Ok(()),
    }
}

/// The same of some tasks.
fn push_tasks_ports(
    text: &mut Vec<u8>,
    many: bool,
    node: NodeName,
    tasks: &[TaskId],
    rows: &[SeatRow],
) -> Result<(), AllocError>
    ensures { OnOk result (text.new.items ≡ text.old.items ++ beside_tasks many node tasks.now rows.now) }
{
    for (i, task) in tasks.iter().enumerate() {
        let Some(row) = rows.get(i) else {
            return Ok(());
        };
        push_task_ports(text, many, *task, node, row)?;
    }
    Ok(())
}

/// Adds the ports that are told beside a node: none where it was found by a right, which its path says.
pub(crate) fn push_beside(text: &mut Vec<u8>, view: &View, node: NodeName) -> Result<(), AllocError>
    ensures { OnOk result (text.new.items ≡ text.old.items ++ beside view.now node) }
{
    if is_held(view.sight.nodes().why(node)) {
        return Ok(());
    }
    push_tasks_ports(
        text,
        names_tasks(view),
        node,
        view.sight.tasks(),
        view.seats.as_slice(),
    )
}

/// Whether a node was found by a right.
fn is_held(why: Option<Why>) -> bool
    ensures { result ≡ is_held why }
{
    match why {
        Some(Why::Held) => true,
        _ => false,
    }
}
