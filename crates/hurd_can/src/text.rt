//! What is printed of who could help to see what.
ghost use Rattle.std.specs.Prelude.{◌≡◌, ◌&&◌, ◌++◌, [], ◌∷◌, not, codes, decimal, if◌then◌else◌, length, map, IfOk, OnOk};
ghost use Rattle.hurd_ports.specs.Seats.{seat_task};
ghost use Rattle.hurd_places.specs.Places.{place_of};
ghost use Rattle.hurd_sight.specs.Reach.{among};
ghost use Rattle.hurd_teaching.specs.Aides.{is_root_task};
ghost use Rattle.hurd_can.specs.Could.{before_more, before_text, could_line, count_text, help_text, helpers_text, is_wanted, line_head, line_tail, or_more, part_place, part_word, parts_word, task_name, with_ones, with_twos};

use crate::helped::{Helped, Pair};
use crate::listing::{body_at, has_entries};
use hurd_creds::{Bytes, Name, TaskId};
use hurd_places::{place, server_path};
use hurd_ports::TaskSeat;
use hurd_sight::SeenPart;
use hurd_teaching::is_root_task;
use hurd_views::View;
use hurd_words::spelling::push_spelled;
use itoa::Buffer;
use std::alloc::{AllocError, Global};

/// All that a text of who could see what is made of.
#[derive(Clone, Copy)]
pub struct Scene<'a> {
    /// What all tasks see together.
    pub view: &'a View,
    /// The names of tasks, if they have names.
    pub names: &'a [Bytes],
    /// The tasks.
    pub seats: &'a [TaskSeat],
    /// Their numbers.
    pub tasks: &'a [TaskId],
    /// WHO, as they are called.
    pub who: &'a [u8],
    /// That they see, as `alice sees`.
    pub sees: &'a [u8],
    /// Their tasks.
    pub learners: &'a [TaskId],
    /// Whether the ways are looked for, by which helpers could show a part.
    pub how: bool,
    /// The script that is told.
    pub script: &'a [u8],
}

/// Adds a number.
fn push_decimal(text: &mut Vec<u8>, number: usize) -> Result<(), AllocError>
    ensures { OnOk result (text.new.items ≡ text.old.items ++ decimal number) }
{
    let mut buffer = Buffer::new();
    text.extend_from_slice(buffer.format(number).as_bytes())?;
    Ok(())
}

/// Adds a task by its name, or by its number if it has none.
pub(crate) fn push_task(text: &mut Vec<u8>, names: &[Bytes], task: TaskId) -> Result<(), AllocError>
    ensures { OnOk result (text.new.items ≡ text.old.items ++ task_name names.now task) }
{
    match names.get(task.0 as usize) {
        Some(name) => push_spelled(text, name.as_slice()),
        None => {
            text.extend_from_slice(b"task ")?;
            push_decimal(text, task.0 as usize)
        }
    }
}

/// Whether a test comes out as it is wanted.
pub(crate) fn is_wanted(wanted: bool, holds: bool) -> bool
    ensures { result ≡ is_wanted wanted holds }
{
    if wanted { holds } else { !holds }
}

/// Adds what comes before one set of helpers more.
fn push_with(text: &mut Vec<u8>) -> Result<(), AllocError>
    ensures { OnOk result (text.new.items ≡ or_more text.old.items (codes "with ")) }
{
    if !text.is_empty() {
        text.extend_from_slice(b", or ")?;
    }
    text.extend_from_slice(b"with ")?;
    Ok(())
}

/// Adds one helper as a set of its own.
fn add_one(text: &mut Vec<u8>, names: &[Bytes], one: TaskId) -> Result<(), AllocError>
    ensures { OnOk result (text.new.items ≡ or_more text.old.items (codes "with " ++ task_name names.now one)) }
{
    push_with(text)?;
    push_task(text, names, one)
}

/// Adds a helper, if he has the uid of root, or if he hasn't.
fn add_one_if(
    text: &mut Vec<u8>,
    names: &[Bytes],
    seats: &[TaskSeat],
    root: bool,
    one: TaskId,
) -> Result<(), AllocError>
    ensures { OnOk result (text.new.items ≡ (if is_wanted root (is_root_task (map seat_task seats.now) one) then or_more text.old.items (codes "with " ++ task_name names.now one) else text.old.items)) }
{
    if is_wanted(root, is_root_task(seats, one)) {
        return add_one(text, names, one);
    }
    Ok(())
}

/// Adds each of these helpers that has the uid of root, or hasn't.
fn add_ones(
    text: &mut Vec<u8>,
    names: &[Bytes],
    seats: &[TaskSeat],
    root: bool,
    ones: &[TaskId],
) -> Result<(), AllocError>
    ensures { OnOk result (text.new.items ≡ with_ones names.now (map seat_task seats.now) root text.old.items ones.now) }
{
    for one in ones {
        add_one_if(text, names, seats, root, *one)?;
    }
    Ok(())
}

/// Adds a pair of helpers.
fn add_two(text: &mut Vec<u8>, names: &[Bytes], pair: Pair) -> Result<(), AllocError>
    ensures { OnOk result (text.new.items ≡ or_more text.old.items (codes "with " ++ (task_name names.now pair.one ++ (codes " and " ++ task_name names.now pair.other)))) }
{
    push_with(text)?;
    push_task(text, names, pair.one)?;
    text.extend_from_slice(b" and ")?;
    push_task(text, names, pair.other)
}

/// Adds each of these pairs.
fn add_twos(text: &mut Vec<u8>, names: &[Bytes], twos: &[Pair]) -> Result<(), AllocError>
    ensures { OnOk result (text.new.items ≡ with_twos names.now text.old.items twos.now) }
{
    for pair in twos {
        add_two(text, names, *pair)?;
    }
    Ok(())
}

/// Each set of helpers that is enough: those without root's uid come first, those with it last.
fn helpers_text(alloc: Global, scene: &Scene<'_>, helped: &Helped) -> Result<Vec<u8>, AllocError>
    ensures { IfOk result (λ text. text.items ≡ helpers_text scene.now.names.now (map seat_task scene.now.seats.now) helped.now) }
{
    let mut text = Vec::new(alloc);
    add_ones(&mut text, scene.names, scene.seats, false, helped.ones())?;
    add_twos(&mut text, scene.names, helped.twos())?;
    add_ones(&mut text, scene.names, scene.seats, true, helped.ones())?;
    if text.is_empty() {
        text.extend_from_slice(b"with more than two others")?;
    }
    Ok(text)
}

/// Adds one more who saw the part before.
fn add_before(text: &mut Vec<u8>, names: &[Bytes], task: TaskId) -> Result<(), AllocError>
    ensures { OnOk result (text.new.items ≡ before_more names.now text.old.items task) }
{
    if text.is_empty() {
        text.extend_from_slice(b"; seen before by ")?;
    } else {
        text.extend_from_slice(b", ")?;
    }
    push_task(text, names, task)
}

/// Adds a task, if he saw the part before, and his help alone isn't enough.
fn add_before_if(
    text: &mut Vec<u8>,
    names: &[Bytes],
    helped: &Helped,
    task: TaskId,
) -> Result<(), AllocError>
    ensures { OnOk result (text.new.items ≡ (if among helped.now.before task.0 && not (among helped.now.ones task.0) then before_more names.now text.old.items task else text.old.items)) }
{
    if helped.remembers(task) && !helped.has(task) {
        return add_before(text, names, task);
    }
    Ok(())
}

/// Those of the tasks who saw the part before, and whose help alone isn't enough.
fn before_text(alloc: Global, scene: &Scene<'_>, helped: &Helped) -> Result<Vec<u8>, AllocError>
    ensures { IfOk result (λ text. text.items ≡ before_text scene.now.names.now helped.now [] scene.now.tasks.now) }
{
    let mut text = Vec::new(alloc);
    add_befores(&mut text, scene.names, helped, scene.tasks)?;
    Ok(text)
}

/// Adds those of these tasks.
fn add_befores(
    text: &mut Vec<u8>,
    names: &[Bytes],
    helped: &Helped,
    tasks: &[TaskId],
) -> Result<(), AllocError>
    ensures { OnOk result (text.new.items ≡ before_text names.now helped.now text.old.items tasks.now) }
{
    for task in tasks {
        add_before_if(text, names, helped, *task)?;
    }
    Ok(())
}

/// What a part is called.
fn part_word(view: &View, part: SeenPart) -> &'static [u8]
    ensures { result.now ≡ part_word view.now part }
{
    match part {
        SeenPart::Attributes(_) => b"attributes",
        SeenPart::Empty(_) => b"whether it is empty",
        SeenPart::Body(name) if has_entries(body_at(view, name)) => b"entries",
        SeenPart::Body(_) => b"bytes",
        SeenPart::Ends(_) => b"readers and writers",
        SeenPart::Open(_) => b"open",
        SeenPart::Options(_) => b"server",
        SeenPart::Text(_) => b"text of the server",
        SeenPart::Users(_) => b"users of the server",
        SeenPart::Total(_) => b"total of the server",
        SeenPart::Task(_) => b"ports",
    }
}

/// Where a part of a task is.
fn task_place(alloc: Global, task: TaskId) -> Result<Vec<u8>, AllocError>
    ensures { IfOk result (λ place. place.items ≡ codes "task " ++ decimal task.0) }
{
    let mut place = Vec::from_slice(alloc, b"task ")?;
    push_decimal(&mut place, task.0 as usize)?;
    Ok(place)
}

/// Where what has a name is.
fn name_place(alloc: Global, view: &View, name: Name) -> Result<Vec<u8>, AllocError>
    ensures { IfOk result (λ place. place.items ≡ place_of view.now name) }
{
    match view.rows.get(name) {
        Some(row) => place(alloc, view, name, row),
        None => server_path(alloc, view, name),
    }
}

/// Where a part is.
pub(crate) fn part_place(alloc: Global, view: &View, part: SeenPart) -> Result<Vec<u8>, AllocError>
    ensures { IfOk result (λ place. place.items ≡ part_place view.now part) }
{
    match part {
        SeenPart::Attributes(name)
        | SeenPart::Empty(name)
        | SeenPart::Body(name)
        | SeenPart::Ends(name)
        | SeenPart::Open(name)
        | SeenPart::Options(name)
        | SeenPart::Text(name)
        | SeenPart::Users(name)
        | SeenPart::Total(name) => name_place(alloc, view, name),
        SeenPart::Task(task) => task_place(alloc, task),
    }
}

/// Adds where a part is, and what it is.
fn push_head(text: &mut Vec<u8>, who: &[u8], place: &[u8], word: &[u8]) -> Result<(), AllocError>
    ensures { OnOk result (text.new.items ≡ text.old.items ++ line_head who.now place.now word.now) }
{
    text.extend_from_slice(b"  ")?;
    text.extend_from_slice(who)?;
    text.extend_from_slice(b" could see: ")?;
    text.extend_from_slice(place)?;
    text.extend_from_slice(b": ")?;
    text.extend_from_slice(word)?;
    text.extend_from_slice(b": ")?;
    Ok(())
}

/// Adds who could help to see a part, and who saw it before.
fn push_tail(text: &mut Vec<u8>, helpers: &[u8], before: &[u8]) -> Result<(), AllocError>
    ensures { OnOk result (text.new.items ≡ text.old.items ++ line_tail helpers.now before.now) }
{
    text.extend_from_slice(helpers)?;
    text.extend_from_slice(before)?;
    text.push(b'\n')?;
    Ok(())
}

/// Adds the line of a part.
pub(crate) fn add_line(
    alloc: Global,
    text: &mut Vec<u8>,
    scene: &Scene<'_>,
    helped: &Helped,
) -> Result<(), AllocError>
    ensures { OnOk result (text.new.items ≡ text.old.items ++ could_line scene.now.view.now scene.now.names.now (map seat_task scene.now.seats.now) scene.now.tasks.now scene.now.who.now helped.now) }
{
    let place = part_place(alloc, scene.view, helped.part())?;
    let helpers = helpers_text(alloc, scene, helped)?;
    let before = before_text(alloc, scene, helped)?;
    let word = part_word(scene.view, helped.part());
    push_head(text, scene.who, place.as_slice(), word)?;
    push_tail(text, helpers.as_slice(), before.as_slice())
}

/// One part, or several.
fn parts_word(count: usize) -> &'static [u8]
    ensures { result.now ≡ parts_word count }
{
    if count == 1 { b" part" } else { b" parts" }
}

/// Adds how many parts there are.
pub(crate) fn add_count(text: &mut Vec<u8>, who: &[u8], count: usize) -> Result<(), AllocError>
    ensures { OnOk result (text.new.items ≡ text.old.items ++ count_text who.now count) }
{
    text.extend_from_slice(who)?;
    text.extend_from_slice(b" could be shown ")?;
    push_decimal(text, count)?;
    text.extend_from_slice(parts_word(count))?;
    Ok(())
}

/// Adds what help is.
pub(crate) fn add_help(text: &mut Vec<u8>, sees: &[u8]) -> Result<(), AllocError>
    ensures { OnOk result (text.new.items ≡ text.old.items ++ help_text sees.now) }
{
    text.extend_from_slice(b"; help is any act that touches what ")?;
    text.extend_from_slice(sees)?;
    text.extend_from_slice(b", meant or not\n")?;
    Ok(())
}
