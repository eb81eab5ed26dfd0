//! All that a set of tasks sees, a line for each thing.
ghost use Rattle.std.specs.Prelude.{◌≡◌, ◌++◌, codes, decimal, IfOk, OnOk};
ghost use Rattle.hurd_views.specs.Views.{no_row};
ghost use Rattle.hurd_lessons.specs.Seen.{seen_at, seen_line, seen_lines, seen_text};
ghost use Rattle.hurd_lessons.specs.Values.{line_from, names_of};

use crate::changes::{no_row, shows};
use crate::lines::{add_from, row_at};
use crate::seen_parts::seen_of;
use crate::seen_tasks::add_seats;
use hurd_creds::{Bytes, Name};
use hurd_places::place;
use hurd_views::{Row, View};
use itoa::Buffer;
use std::alloc::{AllocError, Global};

/// Adds a name's line, where anything is seen under it; where the view has no row of it, this one stands for that.
fn add_line_by(
    alloc: Global,
    text: &mut Vec<u8>,
    who: &[u8],
    view: &View,
    name: Name,
    nothing: &Row,
) -> Result<(), AllocError>
    requires { nothing.now ≡ no_row }
    ensures { OnOk result (text.new.items ≡ text.old.items ++ seen_line who.now view.now name) }
{
    let row = row_at(view, name, nothing);
    if !shows(row) {
        return Ok(());
    }
    let place = place(alloc, view, name, row)?;
    let words = seen_of(alloc, view, name, row)?;
    add_from(text, who, place.as_slice(), words.as_slice())
}

/// Adds a name's line, where anything is seen under it.
fn add_line(
    alloc: Global,
    text: &mut Vec<u8>,
    who: &[u8],
    view: &View,
    name: Name,
) -> Result<(), AllocError>
    ensures { OnOk result (text.new.items ≡ text.old.items ++ seen_line who.now view.now name) }
{
    add_line_by(alloc, text, who, view, name, &no_row())
}

/// Adds a name's line, if there is a name.
fn add_line_at(
    alloc: Global,
    text: &mut Vec<u8>,
    who: &[u8],
    view: &View,
    name: Option<Name>,
) -> Result<(), AllocError>
    ensures { OnOk result (text.new.items ≡ text.old.items ++ seen_at who.now view.now name) }
{
    match name {
        Some(name) => add_line(alloc, text, who, view, name),
        None => Ok(()),
    }
}

/// The lines of all names of a view, in its order.
fn lines(alloc: Global, who: &[u8], view: &View) -> Result<Vec<u8>, AllocError>
    ensures { IfOk result (λ text. text.items ≡ seen_lines who.now view.now (names_of view.now)) }
{
    let mut text = Vec::new(alloc);
    for i in 0..view.rows.len() {
        add_line_at(alloc, &mut text, who, view, view.rows.name_at(i))?;
    }
    Ok(text)
}

/// Adds the line that says how many tasks there are.
fn add_count(text: &mut Vec<u8>, who: &[u8], count: usize) -> Result<(), AllocError>
    ensures { OnOk result (text.new.items ≡ text.old.items ++ line_from who.now (codes "tasks") (decimal count)) }
{
    add_from(text, who, b"tasks", Buffer::new().format(count).as_bytes())
}

/// All that is seen in a view, a line for each thing, in its order: what has a name, then the tasks themselves, then how many there are. The lines begin
/// with two spaces and these words, as `alice sees`, and say where the thing is, and what is seen of it. Fails only if memory runs out.
pub fn seen(alloc: Global, who: &[u8], view: &View) -> Result<Bytes, AllocError>
    ensures { IfOk result (λ text. text ≡ seen_text who.now view.now) }
{
    let mut text = lines(alloc, who, view)?;
    add_seats(
        alloc,
        &mut text,
        who,
        view,
        view.sight.tasks(),
        view.seats.as_slice(),
    )?;
    add_count(&mut text, who, view.count)?;
    Ok(Bytes::new(text))
}
