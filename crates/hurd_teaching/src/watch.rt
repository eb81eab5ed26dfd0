//! What some tasks saw when they were last looked at.
ghost use Rattle.std.specs.Prelude.{◌≡◌, None, Some, IfErr, IfOk, OnOk};
ghost use Rattle.std.specs.List.{list_any};
ghost use Rattle.std.specs.Option.{option_map};
ghost use Rattle.hurd_world.specs.Held.{world_of};
ghost use Rattle.hurd_touches.specs.Touched.{listed};
ghost use Rattle.hurd_views.specs.Views.{tells_in};
ghost use Rattle.hurd_teaching.specs.Watched.{LearnedSince, Learns, SeesOr, misses};

use crate::seeing::view_of;
use hurd_creds::{Bytes, TaskId};
use hurd_lessons::lessons;
use hurd_sight::SeenPart;
use hurd_trans_iface::Server;
use hurd_views::View;
use hurd_world::{Noted, World};
use std::alloc::{AllocError, Global};
use std::marker::Model;

/// What some tasks saw when they were last looked at, if nothing came since that they did themselves.
#[derive(Drop)]
pub struct Watch {
    seen: Option<Box<View>>,
}

impl Model for Watch {
    ghost use Rattle.std.specs.Option.{option_map};
    ghost use Rattle.hurd_teaching.specs.Watched.{Watched, coded_watched};

    ghost Value = { Watched };

    ghost coded = { coded_watched };

    ghost view = { λ w. record { seen = option_map (λ v. v.value) w.seen } };
}

/// What is learned since something was looked at; nothing where nothing was.
fn learned_since(
    alloc: Global,
    who: &[u8],
    before: &Option<Box<View>>,
    after: &View,
) -> Result<Bytes, AllocError>
    ensures { IfOk result (λ text. LearnedSince who.now (option_map (λ v. v.value) before.now) after.now text) }
{
    match before {
        Some(before) => lessons(alloc, who, before, after),
        None => Ok(Bytes::new(Vec::new(alloc))),
    }
}

/// Whether any of these parts was seen.
fn tells_any(view: &View, parts: &[SeenPart]) -> bool
    ensures { result ≡ list_any (tells_in view.now) parts.now }
{
    for part in parts {
        if view.tells(*part) {
            return true;
        }
    }
    false
}

impl Watch {
    /// Nothing was looked at.
    pub fn new() -> Watch
        ensures { result ≡ record { seen = None } }
    {
        Watch { seen: None }
    }

    /// Looks at what these tasks see of a world, unless that was done. Fails only if memory runs out; then what was seen is kept.
    pub fn look<S: Server>(
        &mut self,
        alloc: Global,
        world: &World<S>,
        tasks: &[TaskId],
    ) -> Result<(), AllocError>
        ensures ok { OnOk result (SeesOr tasks.now (world_of S.meaning world.now) self.old.seen self.new.seen) }
        ensures err { IfErr result (λ e. self.new.seen ≡ self.old.seen) }
    {
        if self.seen.is_none() {
            let view = view_of(alloc, world, tasks)?;
            self.keep(view);
        }
        Ok(())
    }

    /// Whether it is known which parts were touched, and none of them was seen when there was a look.
    pub fn misses(&self, noted: &Noted) -> bool
        ensures { result ≡ misses (listed noted.now) self.now.seen }
    {
        match (noted.parts(), &self.seen) {
            (Some(parts), Some(view)) => !tells_any(view, parts),
            _ => false,
        }
    }

    /// These tasks do something themselves: they are to be looked at anew.
    pub fn forget(&mut self)
        ensures { self.new.seen ≡ None }
    {
        self.seen = None;
    }

    /// What these tasks learn of a world since they were looked at, a line for each thing, and looks at them. Fails only if memory runs out,
    /// and then what was seen is kept.
    pub fn learned<S: Server>(
        &mut self,
        alloc: Global,
        world: &World<S>,
        tasks: &[TaskId],
        who: &[u8],
    ) -> Result<Bytes, AllocError>
        ensures ok { IfOk result (λ text. Learns tasks.now who.now (world_of S.meaning world.now) self.old.seen self.new.seen text) }
        ensures err { IfErr result (λ e. self.new.seen ≡ self.old.seen) }
    {
        let after = view_of(alloc, world, tasks)?;
        let learned = learned_since(alloc, who, &self.seen, &after)?;
        self.keep(after);
        Ok(learned)
    }

    /// What is seen now is kept, in place of what was.
    fn keep(&mut self, view: Box<View>)
        ensures { self.new.seen ≡ Some view.value }
    {
        self.seen = Some(view);
    }
}
