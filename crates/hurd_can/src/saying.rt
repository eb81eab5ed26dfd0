//! All that is said of the parts that could be shown.
ghost use Rattle.std.specs.Prelude.{◌≡◌, ◌++◌, ℕ, List, map, IfOk, OnOk};
ghost use Rattle.hurd_ports.specs.Seats.{seat_task};
ghost use Rattle.hurd_can.specs.Could.{part_place};
ghost use Rattle.hurd_can.specs.Saying.{SaysAll, SaysPart, SaysWays, asked_of};
ghost use Rattle.hurd_can.specs.Tried.{AllSaid, SaysWay};
ghost use Rattle.hurd_can.specs.Ways.{path_of};
ghost use Rattle.hurd_can.specs.Dated.{SinceIn};
ghost use Rattle.hurd_can.specs.Remembered.{row_of};

use crate::dating::{made_before, since_in};
use crate::helped::Helped;
use crate::text::{Scene, add_count, add_help, add_line, part_place};
use crate::trying::{Trial, way_said};
use crate::ways::{HelpSet, look_at, path_of, sets_of};
use hurd_creds::Bytes;
use hurd_dialogue::Telling;
use std::alloc::{AllocError, Global};

/// Adds the way of each of these sets of helpers.
fn push_sets<T: Telling>(
    alloc: Global,
    text: &mut Vec<u8>,
    trial: &Trial<'_>,
    names: &[Bytes],
    path: &[u8],
    sets: &[HelpSet],
) -> Result<(), AllocError>
    ensures { OnOk result ((said : List ℕ) × AllSaid (SaysWay T.sort trial.now.text.now names.now trial.now.who.now trial.now.part trial.now.made trial.now.look.now path.now) sets.now said × (text.new.items ≡ text.old.items ++ said)) }
{
    for set in sets {
        let said = way_said::<T>(alloc, trial, names, path, *set)?;
        text.extend_from_slice(said.as_slice())?;
    }
    Ok(())
}

/// Adds the ways to show a part, one for each set of helpers, if they are wanted.
fn push_ways<T: Telling>(
    alloc: Global,
    text: &mut Vec<u8>,
    scene: &Scene<'_>,
    helped: &Helped,
) -> Result<(), AllocError>
    ensures { OnOk result ((said : List ℕ) × SaysWays scene.now.how (asked_of T.sort scene.now) scene.now.view.now (map seat_task scene.now.seats.now) scene.now.tasks.now helped.now said × (text.new.items ≡ text.old.items ++ said)) }
{
    if !scene.how {
        return Ok(());
    }
    let part = helped.part();
    let since = since_in::<T>(alloc, scene.script, scene.view, scene.tasks, part)?;
    let trial = Trial {
        who: scene.learners,
        part,
        made: made_before(since),
        look: look_at(scene.view, part),
        text: scene.script,
    };
    let place = part_place(alloc, scene.view, part)?;
    let path = path_of(alloc, place.as_slice())?;
    let sets = sets_of(alloc, scene.seats, helped)?;
    push_sets::<T>(
        alloc,
        text,
        &trial,
        scene.names,
        path.as_slice(),
        sets.as_slice(),
    )
}

/// Adds the line of a part, and the ways to show it.
fn push_part<T: Telling>(
    alloc: Global,
    text: &mut Vec<u8>,
    scene: &Scene<'_>,
    helped: &Helped,
) -> Result<(), AllocError>
    ensures { OnOk result ((said : List ℕ) × SaysPart (asked_of T.sort scene.now) scene.now.view.now (map seat_task scene.now.seats.now) scene.now.tasks.now helped.now said × (text.new.items ≡ text.old.items ++ said)) }
{
    add_line(alloc, text, scene, helped)?;
    push_ways::<T>(alloc, text, scene, helped)
}

/// Adds what is said of these parts.
fn push_parts<T: Telling>(
    alloc: Global,
    text: &mut Vec<u8>,
    scene: &Scene<'_>,
    all: &[Helped],
) -> Result<(), AllocError>
    ensures { OnOk result ((said : List ℕ) × AllSaid (SaysPart (asked_of T.sort scene.now) scene.now.view.now (map seat_task scene.now.seats.now) scene.now.tasks.now) all.now said × (text.new.items ≡ text.old.items ++ said)) }
{
    for helped in all {
        push_part::<T>(alloc, text, scene, helped)?;
    }
    Ok(())
}

/// What is printed of these parts: a line for each, with the ways to show it if they are wanted, and how many parts there are. Fails only if memory runs out.
pub fn lines<T: Telling>(
    alloc: Global,
    scene: &Scene<'_>,
    all: &[Helped],
) -> Result<Bytes, AllocError>
    ensures { IfOk result (λ text. SaysAll (asked_of T.sort scene.now) scene.now.view.now (map seat_task scene.now.seats.now) scene.now.tasks.now all.now text) }
{
    let mut text = Vec::new(alloc);
    push_parts::<T>(alloc, &mut text, scene, all)?;
    add_count(&mut text, scene.who, all.len())?;
    add_help(&mut text, scene.sees)?;
    Ok(Bytes::new(text))
}
