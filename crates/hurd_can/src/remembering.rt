//! Who saw a part before as it is now.
ghost use Rattle.std.specs.Prelude.{◌≡◌, ◌↔◌, [], ◌∷◌, option_copied, IfOk, OnOk, IsTrue};
ghost use Rattle.hurd_core.specs.Core.{world_of};
ghost use Rattle.hurd_views.specs.Views.{Views, or_no_row};
ghost use Rattle.hurd_can.specs.Remembered.{Each, Remembers, SawAs, ShowsAlike, row_of};
ghost use Rattle.hurd_can.specs.Recalling.{NotesIf};

use crate::helped::Helped;
use hurd_core::Core;
use hurd_creds::{Same, TaskId};
use hurd_sight::SeenPart;
use hurd_trans_iface::Server;
use hurd_views::{Row, View};
use std::alloc::{AllocError, Global};

/// What is seen under the name of a part, if anything.
fn row_of(view: &View, part: SeenPart) -> Option<&Row>
    ensures { or_no_row (option_copied result) ≡ row_of view.now part }
{
    match part {
        SeenPart::Attributes(name)
        | SeenPart::Empty(name)
        | SeenPart::Body(name)
        | SeenPart::Ends(name)
        | SeenPart::Open(name)
        | SeenPart::Options(name)
        | SeenPart::Text(name)
        | SeenPart::Users(name)
        | SeenPart::Total(name) => view.rows.get(name),
        SeenPart::Task(_) => None,
    }
}

/// Whether a row shows a part of this kind, and as another row does. Takes no memory.
fn shows_alike(row: &Row, other: &Row, part: SeenPart) -> bool
    ensures { IsTrue result ↔ ShowsAlike row.now other.now part }
{
    match part {
        SeenPart::Attributes(_) => {
            row.attributes.is_some() && row.attributes.same(&other.attributes)
        }
        SeenPart::Empty(_) => row.empty.is_some() && row.empty == other.empty,
        SeenPart::Body(_) => row.body.is_some() && row.body.same(&other.body),
        SeenPart::Ends(_) => row.ends.is_some() && row.ends == other.ends,
        SeenPart::Open(_) => row.opened.is_some() && row.opened == other.opened,
        SeenPart::Options(_) => row.server.is_some() && row.server.same(&other.server),
        SeenPart::Text(_) => row.text.is_some() && row.text.same(&other.text),
        SeenPart::Users(_) => row.users.is_some() && row.users == other.users,
        SeenPart::Total(_) => row.total.is_some() && row.total == other.total,
        SeenPart::Task(_) => false,
    }
}

/// Whether a view shows a part, and as another view does. Takes no memory.
pub(crate) fn saw_as(view: &View, last: &View, part: SeenPart) -> bool
    ensures { IsTrue result ↔ SawAs view.now last.now part }
{
    match (row_of(view, part), row_of(last, part)) {
        (Some(row), Some(other)) => shows_alike(row, other, part),
        _ => false,
    }
}

/// Notes that a task saw a part, if its view shows it as the last view does.
fn note_view(view: &View, last: &View, helped: &mut Helped, task: TaskId) -> Result<(), AllocError>
    ensures { OnOk result (NotesIf (SawAs view.now last.now helped.old.part) task helped.old helped.new) }
{
    if saw_as(view, last, helped.part()) && !helped.remembers(task) {
        return helped.add_before(task);
    }
    Ok(())
}

/// Notes of each part that a task saw it, if its view shows it as the last view does.
fn note_views(
    view: &View,
    last: &View,
    all: &mut Vec<Helped>,
    task: TaskId,
) -> Result<(), AllocError>
    ensures { OnOk result (Each (λ old new. NotesIf (SawAs view.now last.now old.part) task old new) all.old.items all.new.items) }
{
    for helped in all.iter_mut() {
        note_view(view, last, helped, task)?;
    }
    Ok(())
}

/// What a task alone sees, in a box. Fails only if memory runs out.
fn own_view<S: Server>(alloc: Global, core: &Core<S>, task: TaskId) -> Result<Box<View>, AllocError>
    ensures { IfOk result (λ view. Views (task ∷ []) (world_of S.meaning core.now) view.value) }
{
    Ok(Box::new(alloc, View::of(alloc, core, &[task])?)?)
}

/// Notes which of the parts a task sees now as the last view shows them.
fn remember_one<S: Server>(
    alloc: Global,
    core: &Core<S>,
    last: &View,
    all: &mut Vec<Helped>,
    task: TaskId,
) -> Result<(), AllocError>
    ensures { OnOk result (Each (Remembers (world_of S.meaning core.now ∷ []) last.now (task ∷ [])) all.old.items all.new.items) }
{
    let view = own_view(alloc, core, task)?;
    note_views(&view, last, all, task)
}

/// Notes which of the parts each of these tasks alone sees now as the last view shows them. Fails only if memory runs out.
pub fn remember<S: Server>(
    alloc: Global,
    core: &Core<S>,
    last: &View,
    all: &mut Vec<Helped>,
    tasks: &[TaskId],
) -> Result<(), AllocError>
    ensures { OnOk result (Each (Remembers (world_of S.meaning core.now ∷ []) last.now tasks.now) all.old.items all.new.items) }
{
    for task in tasks {
        remember_one(alloc, core, last, all, *task)?;
    }
    Ok(())
}
