//! Going on to what some tasks do themselves.
ghost use Rattle.std.specs.Prelude.{◌≡◌, IfOk};
ghost use Rattle.hurd_sight.specs.Reach.{among};
ghost use Rattle.hurd_pairs.specs.Moments.{moments_left};
ghost use Rattle.hurd_pairs.specs.Steps.{IsAtOwn};

use hurd_dialogue::Telling;
use hurd_teaching::Learners;
use std::alloc::{AllocError, Global};

/// Tells nobody what others do, up to the next part of these tasks, or to the end; whether there is one. Fails only if memory runs out.
pub(crate) fn reach_own<T: Telling>(
    alloc: Global,
    telling: &mut T,
    learners: &Learners,
) -> Result<bool, AllocError>
    ensures same { IfOk result (λ there. moments_left (among learners.now.tasks.items) (T.way telling.new) ≡ moments_left (among learners.now.tasks.items) (T.way telling.old)) }
    ensures at { IfOk result (λ there. IsAtOwn (among learners.now.tasks.items) there (T.way telling.new).left) }
{
    while let Some(task) = telling.task() {
        if learners.have(task) {
            return Ok(true);
        }
        let _part = telling.next(alloc)?;
    }
    Ok(false)
}
