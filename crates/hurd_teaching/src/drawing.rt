//! The picture of a text.
ghost use Rattle.std.specs.Prelude.{◌≡◌, ◌≢◌, Some, None, Err, IfOk, false, option_copied, string_bytes, true};
ghost use Rattle.std.specs.Option.{option_map};
ghost use Rattle.hurd_world.specs.Held.{world_of};
ghost use Rattle.hurd_terminal.specs.Runs.{Adds};
ghost use Rattle.hurd_dialogue.specs.Parts.{world_behind};
ghost use Rattle.hurd_views.specs.Views.{Views};
ghost use Rattle.hurd_teaching.specs.Aides.{aides_of};
ghost use Rattle.hurd_teaching.specs.Drawings.{IsDrawn, IsPicture, drawing, marked_by};

use crate::aides::aides_of;
use crate::learners::Learners;
use crate::naming::learners_of;
use crate::owners::{all_tasks, copied_names, owners_of};
use crate::seeing::view_of;
use hurd_creds::Bytes;
use hurd_dialogue::{Telling, play_silently};
use hurd_pictures::{Titles, picture};
use hurd_terminal::{Fault, Output};
use hurd_trans_iface::Server;
use hurd_views::View;
use hurd_world::World;
use std::alloc::{AllocError, Global};
use std::io::Write;

/// The picture of a world whose tasks have these names, with what those see who are called so, and a wider view. Fails only if memory runs out.
fn picture_of<S: Server>(
    alloc: Global,
    world: &World<S>,
    names: Vec<Bytes>,
    who: &[u8],
    theirs: Option<&View>,
    wide: Option<&View>,
) -> Result<Bytes, AllocError>
    ensures { IfOk result (λ text. IsPicture names.items who.now (option_copied theirs.entry) (option_copied wide.entry) (world_of S.meaning world.now) text) }
{
    let seats = world.core().ports().seats();
    let owners = owners_of(alloc, names.as_slice(), seats)?;
    let tasks = all_tasks(alloc, seats)?;
    let view = view_of(alloc, world, tasks.as_slice())?;
    let titles = Titles {
        tasks: names,
        owners,
    };
    picture(alloc, &titles, tasks.as_slice(), &view, who, theirs, wide)
}

/// The picture of a world whose tasks have these names, in which nobody is marked. Fails only if memory runs out.
pub fn plain_picture<S: Server>(
    alloc: Global,
    world: &World<S>,
    names: Vec<Bytes>,
) -> Result<Bytes, AllocError>
    ensures { IfOk result (λ text. IsDrawn names.items None (world_of S.meaning world.now) text) }
{
    picture_of(alloc, world, names, b"", None, None)
}

/// The same, in which it is marked what some see. Fails only if memory runs out.
pub fn marked_picture<S: Server>(
    alloc: Global,
    world: &World<S>,
    names: Vec<Bytes>,
    learners: &Learners,
) -> Result<Bytes, AllocError>
    ensures { IfOk result (λ text. IsDrawn names.items (Some (marked_by false learners.now (world_of S.meaning world.now))) (world_of S.meaning world.now) text) }
{
    let theirs = view_of(alloc, world, learners.tasks.as_slice())?;
    picture_of(
        alloc,
        world,
        names,
        learners.sees.as_slice(),
        Some(&theirs),
        None,
    )
}

/// What some and all tasks that do not have the uid of root see of a world together. Fails only if memory runs out.
fn wide_view<S: Server>(
    alloc: Global,
    world: &World<S>,
    learners: &Learners,
) -> Result<Box<View>, AllocError>
    ensures { IfOk result (λ view. Views (aides_of learners.now.tasks.items (world_of S.meaning world.now).tasks) (world_of S.meaning world.now) view.value) }
{
    let seats = world.core().ports().seats();
    let aides = aides_of(alloc, learners, seats)?;
    view_of(alloc, world, aides.as_slice())
}

/// The same, in which it is marked what some see, and what others could show them. Fails only if memory runs out.
pub fn helped_picture<S: Server>(
    alloc: Global,
    world: &World<S>,
    names: Vec<Bytes>,
    learners: &Learners,
) -> Result<Bytes, AllocError>
    ensures { IfOk result (λ text. IsDrawn names.items (Some (marked_by true learners.now (world_of S.meaning world.now))) (world_of S.meaning world.now) text) }
{
    let theirs = view_of(alloc, world, learners.tasks.as_slice())?;
    let wide = wide_view(alloc, world, learners)?;
    picture_of(
        alloc,
        world,
        names,
        learners.sees.as_slice(),
        Some(&theirs),
        Some(&wide),
    )
}

/// The picture of a text at its end. Fails only if memory runs out.
fn drawn<T: Telling>(alloc: Global, telling: &mut T) -> Result<Bytes, AllocError>
    ensures { IfOk result (λ text. IsDrawn (T.way telling.old).names None (world_behind (T.way telling.old).world (T.way telling.old).left) text) }
{
    let names = copied_names(alloc, telling.names())?;
    play_silently(alloc, telling)?;
    plain_picture(alloc, telling.world(), names)
}

/// The same, in which it is marked what some see, and what others could show them, if that is wanted. Fails only if memory runs out.
fn drawn_for<T: Telling>(
    alloc: Global,
    telling: &mut T,
    learners: &Learners,
    can: bool,
) -> Result<Bytes, AllocError>
    ensures { IfOk result (λ text. IsDrawn (T.way telling.old).names (Some (marked_by can learners.now (world_behind (T.way telling.old).world (T.way telling.old).left)))
        (world_behind (T.way telling.old).world (T.way telling.old).left) text) }
{
    let names = copied_names(alloc, telling.names())?;
    play_silently(alloc, telling)?;
    if can {
        return helped_picture(alloc, telling.world(), names, learners);
    }
    marked_picture(alloc, telling.world(), names, learners)
}

/// Begins a text, and prints its picture.
fn draw_all<T: Telling, W: Write>(
    alloc: Global,
    text: &[u8],
    output: &mut Output<W>,
) -> Result<(), Fault>
    ensures adds { Adds (drawing T.sort false None) text.now (W.contents output.old.writer) (W.contents output.new.writer) result }
    ensures read { result ≢ Err Fault.Read }
    ensures write { result ≡ Err Fault.Write → output.new.failed ≡ true }
{
    let mut telling = T::begun(alloc, text)?;
    let drawn = drawn(alloc, &mut *telling)?;
    output.print(drawn.as_slice())
}

/// The same, in which it is marked what those that WHO names see, and what others could show them, if that is wanted.
fn draw_for<T: Telling, W: Write>(
    alloc: Global,
    word: &str,
    can: bool,
    text: &[u8],
    output: &mut Output<W>,
) -> Result<(), Fault>
    ensures adds { Adds (drawing T.sort can (Some word.now)) text.now (W.contents output.old.writer) (W.contents output.new.writer) result }
    ensures read { result ≢ Err Fault.Read }
    ensures write { result ≡ Err Fault.Write → output.new.failed ≡ true }
{
    let mut telling = T::begun(alloc, text)?;
    let Some(learners) = learners_of(alloc, &*telling, word, text)? else {
        return Err(Fault::Unknown);
    };
    let drawn = drawn_for(alloc, &mut *telling, &learners, can)?;
    output.print(drawn.as_slice())
}

/// Begins a text, and prints a picture of the world at its end. If there is a WHO, it is marked what those that it names see; if `can` is set too, also
/// what others could show them.
///
/// `Bad` with the line at which it is bad, `Boot` with its world's refusal, `Unknown` where somebody is named who isn't in it; `Memory`: then nothing is
/// printed. `Write`: then a front is.
pub fn draw_text<T: Telling, W: Write>(
    alloc: Global,
    who: &Option<String>,
    can: bool,
    text: &[u8],
    output: &mut Output<W>,
) -> Result<(), Fault>
    ensures adds { Adds (drawing T.sort can (option_map string_bytes who.now)) text.now (W.contents output.old.writer) (W.contents output.new.writer) result }
    ensures read { result ≢ Err Fault.Read }
    ensures write { result ≡ Err Fault.Write → output.new.failed ≡ true }
{
    match who {
        Some(word) => draw_for::<T, W>(alloc, word.as_str(), can, text, output),
        None => draw_all::<T, W>(alloc, text, output),
    }
}
