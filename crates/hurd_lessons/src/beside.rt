//! What differs of what some tasks see in two scripts, a line for each thing.
ghost use Rattle.std.specs.Prelude.{◌≡◌, ◌++◌, [], codes, if◌then◌else◌, map, IfOk, OnOk};
ghost use Rattle.hurd_words.specs.Printing.{spaced};
ghost use Rattle.hurd_views.specs.Views.{no_row, row_at};
ghost use Rattle.hurd_places.specs.Places.{place_of};
ghost use Rattle.hurd_lessons.specs.Added.{Adds, AddsLines};
ghost use Rattle.hurd_lessons.specs.Beside.{AloneLine, Beside, FirstLine, IsOfPair, IsSide, PairLine, SecondLine, key_by, keyed, mate_of, or_unnamed, pair_text, sort_of, spot_of, tasks_beside, thing_at, told_by, with_key, with_thing, with_things};
ghost use Rattle.hurd_lessons.specs.Lessons.{moved};
ghost use Rattle.hurd_lessons.specs.Seen.{seat_lines};
ghost use Rattle.hurd_lessons.specs.Values.{names_of};

use crate::changes::{Change, no_row, shows};
use crate::differences::parts;
use crate::lines::{add_from, add_unless, moved, row_at};
use crate::seen_tasks::add_seats;
use crate::values::add_number;
use hurd_creds::{Bytes, Name, is_one};
use hurd_places::{node_path, place};
use hurd_views::{Row, View};
use hurd_words::printing::push_number;
use indexmap::IndexMap;
use std::alloc::{AllocError, Global};

/// The things of a view by their keys; of several that have one key, the first.
type Things = IndexMap<Vec<u8>, Name>;

/// A view with its things by their keys, and what stands for a row that it doesn't have.
#[derive(Clone, Copy)]
struct Side<'a> {
    view: &'a View,
    things: &'a Things,
    nothing: &'a Row,
}

/// Of what sort a thing is: a node, an open or a server.
fn sort(row: &Row) -> &'static [u8]
    ensures { result.now ≡ sort_of row.now }
{
    if row.attributes.is_some() {
        b"node"
    } else if row.opened.is_some() {
        b"open"
    } else {
        b"server"
    }
}

/// Where a thing is, without the ports on it.
fn spot(alloc: Global, view: &View, name: Name, row: &Row) -> Result<Vec<u8>, AllocError>
    ensures { IfOk result (λ spot. spot.items ≡ spot_of view.now name row.now) }
{
    if row.attributes.is_some() {
        return node_path(alloc, view, name);
    }
    place(alloc, view, name, row)
}

/// What tells a thing from others of its sort: its name if one of these tasks made it, else where it is.
fn told_by(alloc: Global, view: &View, name: Name, row: &Row) -> Result<Vec<u8>, AllocError>
    ensures { IfOk result (λ text. text.items ≡ told_by view.now name row.now) }
{
    if !view.sight.tasks().contains(&name.task) {
        return spot(alloc, view, name, row);
    }
    let mut text = Vec::new(alloc);
    push_number(&mut text, u64::from(name.task.0))?;
    push_number(&mut text, name.count)?;
    Ok(text)
}

/// The key of a thing, by which it is found in the other view.
fn key(alloc: Global, view: &View, name: Name, row: &Row) -> Result<Vec<u8>, AllocError>
    ensures { IfOk result (λ key. key.items ≡ key_by view.now name row.now) }
{
    let told = told_by(alloc, view, name, row)?;
    let mut key = Vec::from_slice(alloc, sort(row))?;
    key.extend_from_slice(told.as_slice())?;
    Ok(key)
}

/// Notes a name by its key, unless one has that key already.
fn note_key(things: &mut Things, key: Vec<u8>, name: Name) -> Result<(), AllocError>
    ensures { OnOk result (map keyed things.new.entries ≡ with_key (map keyed things.old.entries) key.items name) }
{
    if things.contains_key(key.as_slice()) {
        return Ok(());
    }
    things.reserve(1)?;
    things.insert(key, name).unwrap();
    Ok(())
}

/// Notes a name under which anything is seen; where the view has no row of it, this one stands for that.
fn note_thing(
    alloc: Global,
    things: &mut Things,
    view: &View,
    nothing: &Row,
    name: Name,
) -> Result<(), AllocError>
    requires { nothing.now ≡ no_row }
    ensures { OnOk result (map keyed things.new.entries ≡ with_thing view.now (map keyed things.old.entries) name) }
{
    let row = row_at(view, name, nothing);
    if !shows(row) {
        return Ok(());
    }
    let key = key(alloc, view, name, row)?;
    note_key(things, key, name)
}

/// The things of a view by their keys.
fn things_of(alloc: Global, view: &View, nothing: &Row) -> Result<Things, AllocError>
    requires { nothing.now ≡ no_row }
    ensures { IfOk result (λ things. map keyed things.entries ≡ with_things view.now [] (names_of view.now)) }
{
    let mut things = IndexMap::new(alloc);
    for i in 0..view.rows.len() {
        let Some(name) = view.rows.name_at(i) else {
            return Ok(things);
        };
        note_thing(alloc, &mut things, view, nothing, name)?;
    }
    Ok(things)
}

impl Side<'_> {
    /// What is seen under a name.
    fn row(&self, name: Name) -> &Row
        requires { IsSide self.now.view.now self.now.things.now.entries self.now.nothing.now }
        ensures { result.now ≡ row_at self.now.view.now.rows name }
    {
        row_at(self.view, name, self.nothing)
    }

    /// The first thing that has a key.
    fn thing_at(&self, key: &[u8]) -> Option<Name>
        requires { IsSide self.now.view.now self.now.things.now.entries self.now.nothing.now }
        ensures { result ≡ thing_at self.now.view.now key.now }
    {
        self.things.get(key).copied()
    }

    /// What a thing is paired with in another view: each is the first in its view that has the key.
    fn mate(&self, alloc: Global, other: &Side<'_>, name: Name) -> Result<Option<Name>, AllocError>
        requires this { IsSide self.now.view.now self.now.things.now.entries self.now.nothing.now }
        requires other { IsSide other.now.view.now other.now.things.now.entries other.now.nothing.now }
        ensures { IfOk result (λ mate. mate ≡ mate_of self.now.view.now other.now.view.now name) }
    {
        let key = key(alloc, self.view, name, self.row(name))?;
        if is_one(name, self.thing_at(key.as_slice())) {
            Ok(other.thing_at(key.as_slice()))
        } else {
            Ok(None)
        }
    }
}

/// Adds the line of a thing that is seen in one view alone.
fn add_alone(
    alloc: Global,
    text: &mut Vec<u8>,
    who: &[u8],
    word: &[u8],
    other: &View,
    side: &Side<'_>,
    name: Name,
) -> Result<(), AllocError>
    requires { IsSide side.now.view.now side.now.things.now.entries side.now.nothing.now }
    ensures { OnOk result (Adds (AloneLine who.now word.now other.now side.now.view.now name) text.old.items text.new.items) }
{
    let row = side.row(name);
    let change = Change::of(side.nothing, row);
    if !shows(row) {
        return Ok(());
    }
    let place = place(alloc, side.view, name, row)?;
    let parts = parts(alloc, other, side.view, side.nothing, row, &change)?;
    let mut said = Vec::from_slice(alloc, word)?;
    said.extend_from_slice(parts.as_slice())?;
    add_from(text, who, place.as_slice(), said.as_slice())
}

/// Adds what is said of a pair: what differs, or else that its place does.
fn add_pair_text(
    text: &mut Vec<u8>,
    who: &[u8],
    old: Vec<u8>,
    new: &[u8],
    parts: &[u8],
) -> Result<(), AllocError>
    ensures { OnOk result (text.new.items ≡ text.old.items ++ pair_text who.now old.items new.now parts.now) }
{
    if parts.is_empty() {
        if old.as_slice() == new {
            return Ok(());
        }
        let place = moved(old, new)?;
        return add_from(text, who, place.as_slice(), b"place");
    }
    let place = moved(old, new)?;
    add_from(text, who, place.as_slice(), parts)
}

/// The parts of a pair that differ, and at last which task made it.
fn pair_parts(
    alloc: Global,
    first: &Side<'_>,
    second: &Side<'_>,
    one: Name,
    two: Name,
) -> Result<Vec<u8>, AllocError>
    requires first { IsSide first.now.view.now first.now.things.now.entries first.now.nothing.now }
    requires second { IsSide second.now.view.now second.now.things.now.entries second.now.nothing.now }
    ensures { IfOk result (λ words. IsOfPair first.now.view.now second.now.view.now one two words.items) }
{
    let old = first.row(one);
    let new = second.row(two);
    let change = Change::of(old, new).between(old, new);
    let mut words = parts(alloc, first.view, second.view, old, new, &change)?;
    add_number(
        &mut words,
        b"made by task",
        u128::from(one.task.0),
        u128::from(two.task.0),
    )?;
    Ok(words)
}

/// Adds the line of a pair, if it has one.
fn add_pair(
    alloc: Global,
    text: &mut Vec<u8>,
    who: &[u8],
    first: &Side<'_>,
    second: &Side<'_>,
    one: Name,
    two: Name,
) -> Result<(), AllocError>
    requires first { IsSide first.now.view.now first.now.things.now.entries first.now.nothing.now }
    requires second { IsSide second.now.view.now second.now.things.now.entries second.now.nothing.now }
    ensures { OnOk result (Adds (PairLine who.now first.now.view.now second.now.view.now one two) text.old.items text.new.items) }
{
    let parts = pair_parts(alloc, first, second, one, two)?;
    let was = place(alloc, first.view, one, first.row(one))?;
    let is = place(alloc, second.view, two, second.row(two))?;
    add_pair_text(text, who, was, is.as_slice(), parts.as_slice())
}

/// Adds the line of a thing of the second view.
fn add_second(
    alloc: Global,
    text: &mut Vec<u8>,
    who: &[u8],
    first: &Side<'_>,
    second: &Side<'_>,
    name: Name,
) -> Result<(), AllocError>
    requires first { IsSide first.now.view.now first.now.things.now.entries first.now.nothing.now }
    requires second { IsSide second.now.view.now second.now.things.now.entries second.now.nothing.now }
    ensures { OnOk result (Adds (SecondLine who.now first.now.view.now second.now.view.now name) text.old.items text.new.items) }
{
    match second.mate(alloc, first, name)? {
        Some(mate) => add_pair(alloc, text, who, first, second, mate, name),
        None => add_alone(
            alloc,
            text,
            who,
            b"only in the second: ",
            first.view,
            second,
            name,
        ),
    }
}

/// Adds the line of a thing of the first view, if it has no mate.
fn add_first(
    alloc: Global,
    text: &mut Vec<u8>,
    who: &[u8],
    first: &Side<'_>,
    second: &Side<'_>,
    name: Name,
) -> Result<(), AllocError>
    requires first { IsSide first.now.view.now first.now.things.now.entries first.now.nothing.now }
    requires second { IsSide second.now.view.now second.now.things.now.entries second.now.nothing.now }
    ensures { OnOk result (Adds (FirstLine who.now first.now.view.now second.now.view.now name) text.old.items text.new.items) }
{
    match first.mate(alloc, second, name)? {
        Some(_) => Ok(()),
        None => add_alone(
            alloc,
            text,
            who,
            b"only in the first: ",
            second.view,
            first,
            name,
        ),
    }
}

/// Adds the lines of the things of the second view.
fn add_all_second(
    alloc: Global,
    text: &mut Vec<u8>,
    who: &[u8],
    first: &Side<'_>,
    second: &Side<'_>,
) -> Result<(), AllocError>
    requires first { IsSide first.now.view.now first.now.things.now.entries first.now.nothing.now }
    requires second { IsSide second.now.view.now second.now.things.now.entries second.now.nothing.now }
    ensures { OnOk result (AddsLines (SecondLine who.now first.now.view.now second.now.view.now) (names_of second.now.view.now) text.old.items text.new.items) }
{
    for i in 0..second.view.rows.len() {
        let Some(name) = second.view.rows.name_at(i) else {
            return Ok(());
        };
        add_second(alloc, text, who, first, second, name)?;
    }
    Ok(())
}

/// Adds the lines of what is in the first view alone.
fn add_all_first(
    alloc: Global,
    text: &mut Vec<u8>,
    who: &[u8],
    first: &Side<'_>,
    second: &Side<'_>,
) -> Result<(), AllocError>
    requires first { IsSide first.now.view.now first.now.things.now.entries first.now.nothing.now }
    requires second { IsSide second.now.view.now second.now.things.now.entries second.now.nothing.now }
    ensures { OnOk result (AddsLines (FirstLine who.now first.now.view.now second.now.view.now) (names_of first.now.view.now) text.old.items text.new.items) }
{
    for i in 0..first.view.rows.len() {
        let Some(name) = first.view.rows.name_at(i) else {
            return Ok(());
        };
        add_first(alloc, text, who, first, second, name)?;
    }
    Ok(())
}

/// What is printed of the tasks themselves.
fn tasks_text(alloc: Global, who: &[u8], view: &View) -> Result<Vec<u8>, AllocError>
    ensures { IfOk result (λ text. text.items ≡ seat_lines who.now view.now view.now.sight.tasks.items view.now.seats.items) }
{
    let mut text = Vec::new(alloc);
    add_seats(
        alloc,
        &mut text,
        who,
        view,
        view.sight.tasks(),
        view.seats.as_slice(),
    )?;
    Ok(text)
}

/// Adds the line of the tasks themselves, unless the same is printed of them.
fn add_tasks(
    alloc: Global,
    text: &mut Vec<u8>,
    who: &[u8],
    first: &View,
    second: &View,
) -> Result<(), AllocError>
    ensures { OnOk result (text.new.items ≡ text.old.items ++ tasks_beside who.now first.now second.now) }
{
    let old = tasks_text(alloc, who, first)?;
    let new = tasks_text(alloc, who, second)?;
    add_unless(
        text,
        old.as_slice() == new.as_slice(),
        who,
        b": own ports\n",
    )
}

/// Where no line says what differs, the line that something does.
fn or_unnamed(mut text: Vec<u8>, who: &[u8]) -> Result<Vec<u8>, AllocError>
    ensures { IfOk result (λ new. new.items ≡ or_unnamed who.now text.items) }
{
    if text.is_empty() {
        text.extend_from_slice(b"  ")?;
        text.extend_from_slice(who)?;
        text.extend_from_slice(b": a difference that no line names\n")?;
    }
    Ok(text)
}

/// What differs between two views, in lines.
fn tell_sides(
    alloc: Global,
    who: &[u8],
    first: &Side<'_>,
    second: &Side<'_>,
) -> Result<Bytes, AllocError>
    requires first { IsSide first.now.view.now first.now.things.now.entries first.now.nothing.now }
    requires second { IsSide second.now.view.now second.now.things.now.entries second.now.nothing.now }
    ensures { IfOk result (λ text. Beside who.now first.now.view.now second.now.view.now text) }
{
    let mut text = Vec::new(alloc);
    add_all_second(alloc, &mut text, who, first, second)?;
    add_all_first(alloc, &mut text, who, first, second)?;
    add_tasks(alloc, &mut text, who, first.view, second.view)?;
    Ok(Bytes::new(or_unnamed(text, who)?))
}

/// What differs between two views, in lines; a row that serves if a view has none is given.
fn tell_by(
    alloc: Global,
    who: &[u8],
    first: &View,
    second: &View,
    nothing: &Row,
) -> Result<Bytes, AllocError>
    requires { nothing.now ≡ no_row }
    ensures { IfOk result (λ text. Beside who.now first.now second.now text) }
{
    let things = things_of(alloc, first, nothing)?;
    let others = things_of(alloc, second, nothing)?;
    let one = Side {
        view: first,
        things: &things,
        nothing,
    };
    let two = Side {
        view: second,
        things: &others,
        nothing,
    };
    tell_sides(alloc, who, &one, &two)
}

/// What differs between the views of some tasks in two scripts, in lines that begin with two spaces and these words, as `alice sees`: the things of the second,
/// in their order, then what is in the first alone, then the tasks themselves. What these tasks made is paired by its name, and all else by where it is. Fails
/// only if memory runs out.
pub fn tell_apart(
    alloc: Global,
    who: &[u8],
    first: &View,
    second: &View,
) -> Result<Bytes, AllocError>
    ensures { IfOk result (λ text. Beside who.now first.now second.now text) }
{
    tell_by(alloc, who, first, second, &no_row())
}
