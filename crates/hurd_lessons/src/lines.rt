//! What a set of tasks learns between two looks, a line for each thing.
ghost use Rattle.std.specs.Prelude.{◌≡◌, ◌++◌, [], if◌then◌else◌, codes, IfOk, OnOk};
ghost use Rattle.hurd_views.specs.Views.{no_row, row_at};
ghost use Rattle.hurd_lessons.specs.Added.{Adds, AddsAt, AddsLines};
ghost use Rattle.hurd_lessons.specs.Lessons.{GoneLineOf, Lessons, LineOf, OneText, SilentWhereSame, Unless, count_line, moved, place_in, tasks_line};
ghost use Rattle.hurd_lessons.specs.Values.{line_from, names_of};

use crate::changes::{Change, no_row, shows};
use crate::differences::said;
use hurd_creds::{Bytes, Name, all_same};
use hurd_places::place;
use hurd_views::{Row, View};
use std::alloc::{AllocError, Global};

/// What is seen under a name; nothing is seen where there is no row.
pub(crate) fn row_at<'a>(view: &'a View, name: Name, nothing: &'a Row) -> &'a Row
    requires { nothing.now ≡ no_row }
    ensures { result.now ≡ row_at view.now.rows name }
{
    match view.rows.get(name) {
        Some(row) => row,
        None => nothing,
    }
}

/// A place before, and the one after it where that is another.
pub(crate) fn moved(mut old: Vec<u8>, new: &[u8]) -> Result<Vec<u8>, AllocError>
    ensures { IfOk result (λ place. place.items ≡ moved old.items new.now) }
{
    if old.as_slice() != new {
        old.extend_from_slice(b" -> ")?;
        old.extend_from_slice(new)?;
    }
    Ok(old)
}

/// Where something is: where it was seen, and where it is seen then if that is another place.
fn place_in(alloc: Global, before: &View, after: &View, name: Name) -> Result<Vec<u8>, AllocError>
    ensures { IfOk result (λ place. place.items ≡ place_in before.now after.now name) }
{
    let nothing = no_row();
    let old = row_at(before, name, &nothing);
    let new = row_at(after, name, &nothing);
    if !shows(old) {
        return place(alloc, after, name, new);
    }
    let was = place(alloc, before, name, old)?;
    if !shows(new) {
        return Ok(was);
    }
    let is = place(alloc, after, name, new)?;
    moved(was, is.as_slice())
}

/// Adds a line: to whom, where and what.
pub(crate) fn add_from(
    text: &mut Vec<u8>,
    who: &[u8],
    place: &[u8],
    said: &[u8],
) -> Result<(), AllocError>
    ensures { OnOk result (text.new.items ≡ text.old.items ++ line_from who.now place.now said.now) }
{
    text.extend_from_slice(b"  ")?;
    text.extend_from_slice(who)?;
    text.extend_from_slice(b": ")?;
    text.extend_from_slice(place)?;
    text.extend_from_slice(b": ")?;
    text.extend_from_slice(said)?;
    text.push(b'\n')?;
    Ok(())
}

/// Adds the line of a name, unless nothing changed under it; where a view has no row of it, this one stands for that.
fn add_line_by(
    alloc: Global,
    text: &mut Vec<u8>,
    who: &[u8],
    before: &View,
    after: &View,
    name: Name,
    nothing: &Row,
) -> Result<(), AllocError>
    requires { nothing.now ≡ no_row }
    ensures { OnOk result (Adds (LineOf who.now before.now after.now name) text.old.items text.new.items) }
{
    let old = row_at(before, name, nothing);
    let new = row_at(after, name, nothing);
    let change = Change::of(old, new);
    if change.is_kept() {
        return Ok(());
    }
    let place = place_in(alloc, before, after, name)?;
    let said = said(alloc, before, after, old, new, &change)?;
    add_from(text, who, place.as_slice(), said.as_slice())
}

/// Adds the line of a name, unless nothing changed under it.
fn add_line(
    alloc: Global,
    text: &mut Vec<u8>,
    who: &[u8],
    before: &View,
    after: &View,
    name: Name,
) -> Result<(), AllocError>
    ensures { OnOk result (Adds (LineOf who.now before.now after.now name) text.old.items text.new.items) }
{
    add_line_by(alloc, text, who, before, after, name, &no_row())
}

/// Adds the line of a name that is only in the view before; one that is in both has its line already.
fn add_gone_line(
    alloc: Global,
    text: &mut Vec<u8>,
    who: &[u8],
    before: &View,
    after: &View,
    name: Name,
) -> Result<(), AllocError>
    ensures { OnOk result (Adds (GoneLineOf who.now before.now after.now name) text.old.items text.new.items) }
{
    if after.rows.has(name) {
        return Ok(());
    }
    add_line(alloc, text, who, before, after, name)
}

/// Adds the line of a name, if there is one.
fn add_line_at(
    alloc: Global,
    text: &mut Vec<u8>,
    who: &[u8],
    before: &View,
    after: &View,
    name: Option<Name>,
) -> Result<(), AllocError>
    ensures { OnOk result (AddsAt (LineOf who.now before.now after.now) name text.old.items text.new.items) }
{
    match name {
        Some(name) => add_line(alloc, text, who, before, after, name),
        None => Ok(()),
    }
}

/// Adds the line of a name that is only in the view before, if there is one.
fn add_gone_at(
    alloc: Global,
    text: &mut Vec<u8>,
    who: &[u8],
    before: &View,
    after: &View,
    name: Option<Name>,
) -> Result<(), AllocError>
    ensures { OnOk result (AddsAt (GoneLineOf who.now before.now after.now) name text.old.items text.new.items) }
{
    match name {
        Some(name) => add_gone_line(alloc, text, who, before, after, name),
        None => Ok(()),
    }
}

/// Adds the lines of what is seen in the later view.
fn add_seen(
    alloc: Global,
    text: &mut Vec<u8>,
    who: &[u8],
    before: &View,
    after: &View,
) -> Result<(), AllocError>
    ensures { OnOk result (AddsLines (LineOf who.now before.now after.now) (names_of after.now) text.old.items text.new.items) }
{
    for i in 0..after.rows.len() {
        add_line_at(alloc, text, who, before, after, after.rows.name_at(i))?;
    }
    Ok(())
}

/// Adds the lines of what is no longer seen.
fn add_gone(
    alloc: Global,
    text: &mut Vec<u8>,
    who: &[u8],
    before: &View,
    after: &View,
) -> Result<(), AllocError>
    ensures { OnOk result (AddsLines (GoneLineOf who.now before.now after.now) (names_of before.now) text.old.items text.new.items) }
{
    for i in 0..before.rows.len() {
        add_gone_at(alloc, text, who, before, after, before.rows.name_at(i))?;
    }
    Ok(())
}

/// Adds a line about these tasks, unless something holds.
pub(crate) fn add_unless(
    text: &mut Vec<u8>,
    holds: bool,
    who: &[u8],
    said: &[u8],
) -> Result<(), AllocError>
    ensures { OnOk result (text.new.items ≡ text.old.items ++ (if holds then [] else codes "  " ++ (who.now ++ said.now))) }
{
    if holds {
        return Ok(());
    }
    text.extend_from_slice(b"  ")?;
    text.extend_from_slice(who)?;
    text.extend_from_slice(said)?;
    Ok(())
}

/// Adds what is learned of the tasks themselves.
fn add_tasks(text: &mut Vec<u8>, who: &[u8], before: &View, after: &View) -> Result<(), AllocError>
    ensures { OnOk result (Adds (Unless (before.now.seats.items ≡ after.now.seats.items) (tasks_line who.now)) text.old.items text.new.items) }
{
    let same = all_same(before.seats.as_slice(), after.seats.as_slice());
    add_unless(text, same, who, b": own ports\n")
}

/// Adds what is learned of how many tasks there are.
fn add_count(text: &mut Vec<u8>, who: &[u8], before: &View, after: &View) -> Result<(), AllocError>
    ensures { OnOk result (Adds (Unless (before.now.count ≡ after.now.count) (count_line who.now)) text.old.items text.new.items) }
{
    add_unless(
        text,
        before.count == after.count,
        who,
        b": number of tasks\n",
    )
}

/// What is learned between two looks of the same tasks, in lines that begin with two spaces and these words, as `alice learns`: what is
/// seen in the later view, in its order, then what is no longer seen, then of the tasks themselves. Nothing where nothing differs.
pub fn lessons(alloc: Global, who: &[u8], before: &View, after: &View) -> Result<Bytes, AllocError>
    ensures { IfOk result (λ text. Lessons who.now before.now after.now text) }
{
    let mut text = Vec::new(alloc);
    add_seen(alloc, &mut text, who, before, after)?;
    add_gone(alloc, &mut text, who, before, after)?;
    add_tasks(&mut text, who, before, after)?;
    add_count(&mut text, who, before, after)?;
    Ok(Bytes::new(text))
}

/// A law: nothing is said exactly where nothing differs, and two views have one text.
pub fn silent_where_same()
    ensures silent { SilentWhereSame }
    ensures one { OneText }
{}
