//! What is seen of some tasks themselves, a line for each.
ghost use Rattle.std.specs.Prelude.{◌≡◌, ◌++◌, codes, length, IfOk, OnOk, Some};
ghost use Rattle.std.specs.Option.{option_map};
ghost use Rattle.hurd_words.specs.Printing.{spaced};
ghost use Rattle.hurd_lessons.specs.Seen.{uid_text, port_numbers, seat_line, seat_lines, seat_text, start_text, task_text};
ghost use Rattle.hurd_lessons.specs.Values.{with_part};
ghost use Rattle.hurd_ports.specs.Seats.{seat_task};

use crate::lines::add_from;
use crate::seen_parts::uid_of;
use crate::values::{part, push_all_words};
use hurd_creds::{Ids, TaskId};
use hurd_places::node_path;
use hurd_ports::{PendingStart, Port, Right, TaskSeat};
use hurd_views::{SeatRow, View};
use hurd_words::printing::push_number;
use std::alloc::{AllocError, Global};

/// Adds the part of whom a task acts for.
fn add_ids(alloc: Global, words: &mut Vec<u8>, ids: &Ids) -> Result<(), AllocError>
    ensures { OnOk result (words.new.items ≡ with_part words.old.items (Some (codes "uid " ++ uid_text ids.now))) }
{
    let uid = uid_of(alloc, ids)?;
    part(words)?;
    words.extend_from_slice(b"uid ")?;
    words.extend_from_slice(uid.as_slice())
}

/// Adds the numbers of ports, each after a space.
fn push_ports(words: &mut Vec<u8>, ports: &[Port]) -> Result<(), AllocError>
    ensures { OnOk result (words.new.items ≡ words.old.items ++ port_numbers ports.now) }
{
    for port in ports {
        push_number(words, port.number)?;
    }
    Ok(())
}

/// Adds the part of them.
fn add_ports(words: &mut Vec<u8>, ports: &[Port]) -> Result<(), AllocError>
    ensures { OnOk result (words.new.items ≡ with_part words.old.items (Some (codes "ports" ++ port_numbers ports.now))) }
{
    part(words)?;
    words.extend_from_slice(b"ports")?;
    push_ports(words, ports)
}

/// Adds the part of a number by its word.
fn add_count(words: &mut Vec<u8>, word: &[u8], count: u64) -> Result<(), AllocError>
    ensures { OnOk result (words.new.items ≡ with_part words.old.items (Some (word.now ++ spaced count))) }
{
    part(words)?;
    words.extend_from_slice(word)?;
    push_number(words, count)
}

/// Adds the part of how many rights a task was sent.
fn add_inbox(words: &mut Vec<u8>, inbox: &[Right]) -> Result<(), AllocError>
    ensures { OnOk result (words.new.items ≡ with_part words.old.items (Some (codes "inbox" ++ spaced (length inbox.now)))) }
{
    add_count(words, b"inbox", inbox.len() as u64)
}

/// Adds the part of what a task is to start, if it is to start anything.
fn add_start(
    alloc: Global,
    words: &mut Vec<u8>,
    view: &View,
    pending: &Option<PendingStart>,
) -> Result<(), AllocError>
    ensures { OnOk result (words.new.items ≡ with_part words.old.items (option_map (start_text view.now) pending.now)) }
{
    let Some(pending) = pending else {
        return Ok(());
    };
    let path = node_path(alloc, view, pending.node)?;
    part(words)?;
    words.extend_from_slice(b"to start ")?;
    push_all_words(words, pending.words.as_slice())?;
    words.extend_from_slice(b" on ")?;
    words.extend_from_slice(path.as_slice())
}

/// What is seen of a task that is there.
fn task_text(alloc: Global, view: &View, seat: &TaskSeat) -> Result<Vec<u8>, AllocError>
    ensures { IfOk result (λ words. words.items ≡ task_text view.now (seat_task seat.now)) }
{
    let mut words = Vec::new(alloc);
    add_ids(alloc, &mut words, &seat.ids)?;
    add_ports(&mut words, seat.ports.as_slice())?;
    add_inbox(&mut words, seat.inbox.as_slice())?;
    add_count(&mut words, b"next port", seat.next)?;
    add_count(&mut words, b"made", seat.made)?;
    add_start(alloc, &mut words, view, &seat.pending)?;
    Ok(words)
}

/// The same of a task that may be there.
fn seat_text(alloc: Global, view: &View, row: &SeatRow) -> Result<Vec<u8>, AllocError>
    ensures { IfOk result (λ words. words.items ≡ seat_text view.now row.now) }
{
    match row.seat() {
        Some(seat) => task_text(alloc, view, seat),
        None => Vec::from_slice(alloc, b"gone"),
    }
}

/// What stands for a task in a line: its number.
fn task_place(alloc: Global, task: TaskId) -> Result<Vec<u8>, AllocError>
    ensures { IfOk result (λ place. place.items ≡ codes "task" ++ spaced task.0) }
{
    let mut place = Vec::from_slice(alloc, b"task")?;
    push_number(&mut place, task.0 as u64)?;
    Ok(place)
}

/// Adds the line of a task.
fn add_seat(
    alloc: Global,
    text: &mut Vec<u8>,
    who: &[u8],
    view: &View,
    task: TaskId,
    row: &SeatRow,
) -> Result<(), AllocError>
    ensures { OnOk result (text.new.items ≡ text.old.items ++ seat_line who.now view.now task row.now) }
{
    let place = task_place(alloc, task)?;
    let words = seat_text(alloc, view, row)?;
    add_from(text, who, place.as_slice(), words.as_slice())
}

/// Adds the lines of some tasks.
pub(crate) fn add_seats(
    alloc: Global,
    text: &mut Vec<u8>,
    who: &[u8],
    view: &View,
    tasks: &[TaskId],
    rows: &[SeatRow],
) -> Result<(), AllocError>
    ensures { OnOk result (text.new.items ≡ text.old.items ++ seat_lines who.now view.now tasks.now rows.now) }
{
    for (i, task) in tasks.iter().enumerate() {
        let Some(row) = rows.get(i) else {
            return Ok(());
        };
        add_seat(alloc, text, who, view, *task, row)?;
    }
    Ok(())
}
