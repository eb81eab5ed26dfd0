//! What a set of tasks sees of a world.
ghost use Rattle.std.specs.Prelude.{IfOk};
ghost use Rattle.hurd_world.specs.Held.{world_of};
ghost use Rattle.hurd_sight.specs.Found.{IsSight};
ghost use Rattle.hurd_sight.specs.Looks.{Looks};
ghost use Rattle.hurd_sight.specs.Reach.{Reaches, among};
ghost use Rattle.hurd_views.specs.Views.{Views};

use hurd_creds::TaskId;
use hurd_sight::{Found, Reach, Sight};
use hurd_trans_iface::Server;
use hurd_views::View;
use hurd_world::World;
use std::alloc::{AllocError, Global};

/// The ids that a set of tasks can act with: those of its tasks, where they are there, and of their rights.
pub fn reached<S: Server>(
    alloc: Global,
    world: &World<S>,
    tasks: &[TaskId],
) -> Result<Reach, AllocError>
    ensures { IfOk result (λ reach. Reaches (among tasks.now) (world_of S.meaning world.now) reach) }
{
    Reach::of(alloc, world.core().ports(), tasks)
}

/// The nodes that a set of tasks sees, each once, with why, in the order in which they are found: the root and what rights show first,
/// then what each of them shows in turn.
pub fn seen<S: Server>(
    alloc: Global,
    world: &World<S>,
    tasks: &[TaskId],
) -> Result<Found, AllocError>
    ensures { IfOk result (λ found. IsSight (among tasks.now) (world_of S.meaning world.now) found) }
{
    let core = world.core();
    let reach = reached(alloc, world, tasks)?;
    Found::of(alloc, core.nodes(), core.ports(), &reach, tasks)
}

/// All that says which parts of a world a set of tasks sees, as it is now.
pub fn look<S: Server>(
    alloc: Global,
    world: &World<S>,
    tasks: &[TaskId],
) -> Result<Sight, AllocError>
    ensures { IfOk result (λ sight. Looks (among tasks.now) (world_of S.meaning world.now) sight) }
{
    let core = world.core();
    Sight::of(alloc, core.nodes(), core.ports(), tasks)
}

/// All that a set of tasks sees of a world, kept to be compared with what they see later.
pub fn view_of<S: Server>(
    alloc: Global,
    world: &World<S>,
    tasks: &[TaskId],
) -> Result<Box<View>, AllocError>
    ensures { IfOk result (λ view. Views tasks.now (world_of S.meaning world.now) view.value) }
{
    Ok(Box::new(alloc, View::of(alloc, world.core(), tasks)?)?)
}
