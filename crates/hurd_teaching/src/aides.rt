//! The tasks that could show some tasks more, with these.
ghost use Rattle.std.specs.Prelude.{◌≡◌, ◌≤◌, IfOk, filter, length, map};
ghost use Rattle.hurd_creds.specs.Limits.{most_tasks};
ghost use Rattle.hurd_ports.specs.Seats.{seat_task};
ghost use Rattle.hurd_teaching.specs.Aides.{aides_of, is_aide, is_root_task};

use crate::learners::Learners;
use crate::owners::all_tasks;
use hurd_creds::TaskId;
use hurd_ports::TaskSeat;
use std::alloc::{AllocError, Global};

/// Whether a task has the uid of root.
pub fn is_root_task(seats: &[TaskSeat], task: TaskId) -> bool
    ensures { result ≡ is_root_task (map seat_task seats.now) task }
{
    match seats.get(task.0 as usize) {
        Some(seat) => seat.ids.is_root(),
        None => false,
    }
}

/// Whether a task is one of these, or does not have the uid of root.
fn is_aide(learners: &Learners, seats: &[TaskSeat], task: TaskId) -> bool
    ensures { result ≡ is_aide learners.now.tasks.items (map seat_task seats.now) task }
{
    learners.have(task) || !is_root_task(seats, task)
}

/// Of some tasks those that are among these or do not have the uid of root. Fails only if memory runs out.
fn aides_among(
    alloc: Global,
    learners: &Learners,
    seats: &[TaskSeat],
    tasks: &[TaskId],
) -> Result<Vec<TaskId>, AllocError>
    ensures { IfOk result (λ aides. aides.items ≡ filter (is_aide learners.now.tasks.items (map seat_task seats.now)) tasks.now) }
{
    let mut aides = Vec::new(alloc);
    for &task in tasks {
        if is_aide(learners, seats, task) {
            aides.push(task)?;
        }
    }
    Ok(aides)
}

/// Of all tasks those that are among these or do not have the uid of root, in their order. Fails only if memory runs out.
pub(crate) fn aides_of(
    alloc: Global,
    learners: &Learners,
    seats: &[TaskSeat],
) -> Result<Vec<TaskId>, AllocError>
    requires { length seats.now ≤ most_tasks }
    ensures { IfOk result (λ aides. aides.items ≡ aides_of learners.now.tasks.items (map seat_task seats.now)) }
{
    let tasks = all_tasks(alloc, seats)?;
    aides_among(alloc, learners, seats, tasks.as_slice())
}
