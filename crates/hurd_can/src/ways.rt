//! Commands that may show WHO a part: helpers, or WHO with them, open the way to it.
ghost use Rattle.std.specs.Prelude.{◌≡◌, ◌++◌, [], ◌∷◌, codes, drop, map, IfOk, OnOk};
ghost use Rattle.hurd_ports.specs.Seats.{seat_task};
ghost use Rattle.hurd_teaching.specs.Aides.{is_root_task};
ghost use Rattle.hurd_can.specs.Could.{is_wanted, task_name};
ghost use Rattle.hurd_can.specs.Ways.{called, each_does, helper_names, line_by, look_at, names_on, opened, opens, opens_along, opens_at, path_of, set_name, sets_of, sets_of_one, sets_of_two, way_by_all, way_by_helpers};

use crate::helped::{Helped, Pair};
use crate::listing::{body_at, has_entries};
use crate::text::{is_wanted, push_task};
use hurd_creds::{Bytes, TaskId};
use hurd_ports::TaskSeat;
use hurd_sight::SeenPart;
use hurd_teaching::is_root_task;
use hurd_views::View;
use hurd_witnesses::{part_at, scripted};
use hurd_words::words::pieces;
use std::alloc::{AllocError, Global};

/// A set of helpers.
#[derive(Clone, Copy, Debug)]
pub enum HelpSet {
    One(TaskId),
    Two(Pair),
}

/// Adds each of these tasks that has the uid of root, or hasn't, as a set of its own.
fn add_ones(
    sets: &mut Vec<HelpSet>,
    seats: &[TaskSeat],
    root: bool,
    ones: &[TaskId],
) -> Result<(), AllocError>
    ensures { OnOk result (sets.new.items ≡ sets_of_one (map seat_task seats.now) root sets.old.items ones.now) }
{
    for one in ones {
        if is_wanted(root, is_root_task(seats, *one)) {
            sets.push(HelpSet::One(*one))?;
        }
    }
    Ok(())
}

/// Adds each of these pairs.
fn add_twos(sets: &mut Vec<HelpSet>, twos: &[Pair]) -> Result<(), AllocError>
    ensures { OnOk result (sets.new.items ≡ sets_of_two sets.old.items twos.now) }
{
    for pair in twos {
        sets.push(HelpSet::Two(*pair))?;
    }
    Ok(())
}

/// All sets of helpers of a part, in the order in which its line names them. Fails only if memory runs out.
pub(crate) fn sets_of(
    alloc: Global,
    seats: &[TaskSeat],
    helped: &Helped,
) -> Result<Vec<HelpSet>, AllocError>
    ensures { IfOk result (λ sets. sets.items ≡ sets_of (map seat_task seats.now) helped.now.ones helped.now.twos) }
{
    let mut sets = Vec::new(alloc);
    add_ones(&mut sets, seats, false, helped.ones())?;
    add_twos(&mut sets, helped.twos())?;
    add_ones(&mut sets, seats, true, helped.ones())?;
    Ok(sets)
}

/// Adds a set in words.
pub(crate) fn push_set(text: &mut Vec<u8>, names: &[Bytes], set: HelpSet) -> Result<(), AllocError>
    ensures { OnOk result (text.new.items ≡ text.old.items ++ set_name names.now set) }
{
    match set {
        HelpSet::One(one) => push_task(text, names, one),
        HelpSet::Two(pair) => {
            push_task(text, names, pair.one)?;
            text.extend_from_slice(b" and ")?;
            push_task(text, names, pair.other)
        }
    }
}

/// The name of a task. Fails only if memory runs out.
fn task_name(alloc: Global, names: &[Bytes], task: TaskId) -> Result<Bytes, AllocError>
    ensures { IfOk result (λ name. name ≡ task_name names.now task) }
{
    let mut name = Vec::new(alloc);
    push_task(&mut name, names, task)?;
    Ok(Bytes::new(name))
}

/// Adds the names of these tasks.
pub(crate) fn add_names(
    alloc: Global,
    members: &mut Vec<Bytes>,
    names: &[Bytes],
    tasks: &[TaskId],
) -> Result<(), AllocError>
    ensures { OnOk result (members.new.items ≡ called names.now members.old.items tasks.now) }
{
    for task in tasks {
        members.push(task_name(alloc, names, *task)?)?;
    }
    Ok(())
}

/// The names of the helpers. Fails only if memory runs out.
pub(crate) fn helper_names(
    alloc: Global,
    names: &[Bytes],
    set: HelpSet,
) -> Result<Vec<Bytes>, AllocError>
    ensures { IfOk result (λ helpers. helpers.items ≡ helper_names names.now set) }
{
    let mut helpers = Vec::new(alloc);
    match set {
        HelpSet::One(one) => add_names(alloc, &mut helpers, names, &[one])?,
        HelpSet::Two(pair) => add_names(alloc, &mut helpers, names, &[pair.one, pair.other])?,
    }
    Ok(helpers)
}

/// The path of a place, without the words in brackets after it, as a script writes it. Fails only if memory runs out.
pub(crate) fn path_of(alloc: Global, place: &[u8]) -> Result<Vec<u8>, AllocError>
    ensures { IfOk result (λ path. path.items ≡ path_of place.now) }
{
    let word = part_at(alloc, place, b' ', 0)?;
    let path = part_at(alloc, word, b'(', 0)?;
    scripted(alloc, path)
}

/// Adds a line of a script: a user's command on a path.
fn push_line(
    alloc: Global,
    lines: &mut Vec<Bytes>,
    member: &Bytes,
    word: &[u8],
    path: &[u8],
    tail: &[u8],
) -> Result<(), AllocError>
    ensures { OnOk result (lines.new.items ≡ lines.old.items ++ line_by member.now word.now path.now tail.now ∷ []) }
{
    let mut line = Vec::from_slice(alloc, member.as_slice())?;
    line.extend_from_slice(word)?;
    line.extend_from_slice(path)?;
    line.extend_from_slice(tail)?;
    lines.push(Bytes::new(line))?;
    Ok(())
}

/// Adds that somebody opens what is at a path; and before that, if it is wanted, the root of the server that is active there.
fn push_opened(
    alloc: Global,
    lines: &mut Vec<Bytes>,
    roots: bool,
    name: &Bytes,
    path: &[u8],
) -> Result<(), AllocError>
    ensures { OnOk result (lines.new.items ≡ opened roots path.now lines.old.items name.now) }
{
    if roots {
        push_line(alloc, lines, name, b" chmod 755 ", path, b"/.")?;
    }
    push_line(alloc, lines, name, b" chmod 755 ", path, b"")
}

/// Adds that each of these does.
fn push_opens_at(
    alloc: Global,
    lines: &mut Vec<Bytes>,
    roots: bool,
    members: &[Bytes],
    path: &[u8],
) -> Result<(), AllocError>
    ensures { OnOk result (lines.new.items ≡ opens_at roots path.now lines.old.items members.now) }
{
    for member in members {
        push_opened(alloc, lines, roots, member, path)?;
    }
    Ok(())
}

/// Adds that they do so at each step of a path.
fn push_opens_along(
    alloc: Global,
    lines: &mut Vec<Bytes>,
    roots: bool,
    members: &[Bytes],
    names: &[&[u8]],
) -> Result<(), AllocError>
    ensures { OnOk result (lines.new.items ≡ opens_along roots members.now [] lines.old.items (map (λ name. name.now) names.now)) }
{
    let mut path = Vec::new(alloc);
    for name in names {
        path.push(b'/')?;
        path.extend_from_slice(name)?;
        push_opens_at(alloc, lines, roots, members, path.as_slice())?;
    }
    Ok(())
}

/// A path without its first byte.
fn after_slash(path: &[u8]) -> &[u8]
    ensures { result.now ≡ drop 1 path.now }
{
    match path.get(1..) {
        Some(rest) => rest,
        None => path,
    }
}

/// Adds that they open the way to a path: the root, and each step.
fn push_opens(
    alloc: Global,
    lines: &mut Vec<Bytes>,
    roots: bool,
    members: &[Bytes],
    path: &[u8],
) -> Result<(), AllocError>
    ensures { OnOk result (lines.new.items ≡ opens roots members.now path.now lines.old.items) }
{
    push_opens_at(alloc, lines, roots, members, b"/")?;
    let names = pieces(alloc, after_slash(path), b'/')?;
    push_opens_along(alloc, lines, roots, members, names.as_slice())
}

/// Adds that each of these members gives this command on a path.
pub(crate) fn push_each(
    alloc: Global,
    lines: &mut Vec<Bytes>,
    members: &[Bytes],
    word: &[u8],
    path: &[u8],
) -> Result<(), AllocError>
    ensures { OnOk result (lines.new.items ≡ each_does word.now path.now lines.old.items members.now) }
{
    for member in members {
        push_line(alloc, lines, member, word, path, b"")?;
    }
    Ok(())
}

/// The command that looks at a part.
pub(crate) fn look_at(view: &View, part: SeenPart) -> &'static [u8]
    ensures { result.now ≡ look_at view.now part }
{
    match part {
        SeenPart::Body(name) if has_entries(body_at(view, name)) => b" ls ",
        SeenPart::Body(_) => b" cat ",
        SeenPart::Options(_) | SeenPart::Text(_) => b" fsysopts ",
        _ => b" ls -d ",
    }
}

/// A script in which the helpers open the way to a path. Fails only if memory runs out.
pub(crate) fn way_by_helpers(
    alloc: Global,
    names: &[Bytes],
    set: HelpSet,
    path: &[u8],
) -> Result<Vec<Bytes>, AllocError>
    ensures { IfOk result (λ lines. lines.items ≡ way_by_helpers names.now set path.now) }
{
    let helpers = helper_names(alloc, names, set)?;
    let mut lines = Vec::new(alloc);
    push_opens(alloc, &mut lines, false, helpers.as_slice(), path)?;
    Ok(lines)
}

/// A script in which the helpers and WHO send away the server that is active at a path, and open the way to it, and the roots of servers on the way.
/// Fails only if memory runs out.
pub(crate) fn way_by_all(
    alloc: Global,
    names: &[Bytes],
    set: HelpSet,
    who: &[TaskId],
    path: &[u8],
) -> Result<Vec<Bytes>, AllocError>
    ensures { IfOk result (λ lines. lines.items ≡ way_by_all names.now set who.now path.now) }
{
    let mut members = helper_names(alloc, names, set)?;
    add_names(alloc, &mut members, names, who)?;
    let mut lines = Vec::new(alloc);
    push_each(
        alloc,
        &mut lines,
        members.as_slice(),
        b" settrans -g ",
        path,
    )?;
    push_opens(alloc, &mut lines, true, members.as_slice(), path)?;
    Ok(lines)
}
