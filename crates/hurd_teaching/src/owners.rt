//! All tasks of a world, and what their users' ids are called.
ghost use Rattle.std.specs.Prelude.{◌≡◌, ◌≤◌, ◌++◌, IfOk, OnOk, length, map, string_bytes};
ghost use Rattle.hurd_creds.specs.Access.{least_uid};
ghost use Rattle.hurd_creds.specs.Limits.{most_tasks};
ghost use Rattle.hurd_ports.specs.Seats.{seat_task};
ghost use Rattle.hurd_teaching.specs.Owners.{owner_by, owners_of, tasks_below};

use hurd_creds::{Bytes, Ids, TaskId};
use hurd_pictures::Owner;
use hurd_ports::TaskSeat;
use std::alloc::{AllocError, Global};

/// All tasks, by their rows. Fails only if memory runs out.
pub fn all_tasks(alloc: Global, seats: &[TaskSeat]) -> Result<Vec<TaskId>, AllocError>
    requires { length seats.now ≤ most_tasks }
    ensures { IfOk result (λ tasks. tasks.items ≡ tasks_below (length seats.now)) }
{
    let mut tasks = Vec::new(alloc);
    for number in 0..seats.len() {
        tasks.push(TaskId(number as u32))?;
    }
    Ok(tasks)
}

/// The names of tasks, as bytes. Fails only if memory runs out.
pub fn copied_names(alloc: Global, names: &[String]) -> Result<Vec<Bytes>, AllocError>
    ensures { IfOk result (λ copies. copies.items ≡ map string_bytes names.now) }
{
    let mut copies = Vec::new(alloc);
    for name in names {
        copies.push(Bytes::copied(alloc, name.as_bytes())?)?;
    }
    Ok(copies)
}

/// Adds what the least of some uids is called, where there is one.
fn add_owner(
    alloc: Global,
    owners: &mut Vec<Owner>,
    name: &Bytes,
    ids: &Ids,
) -> Result<(), AllocError>
    ensures { OnOk result (owners.new.items ≡ owners.old.items ++ owner_by name.now (least_uid ids.now)) }
{
    let Some(uid) = ids.least_uid() else {
        return Ok(());
    };
    let name = Bytes::copied(alloc, name.as_slice())?;
    owners.push(Owner { uid, name })?;
    Ok(())
}

/// What the users' ids of these tasks are called, by their names. Fails only if memory runs out.
pub(crate) fn owners_of(
    alloc: Global,
    names: &[Bytes],
    seats: &[TaskSeat],
) -> Result<Vec<Owner>, AllocError>
    ensures { IfOk result (λ owners. owners.items ≡ owners_of names.now (map seat_task seats.now)) }
{
    let mut owners = Vec::new(alloc);
    for (i, name) in names.iter().enumerate() {
        let Some(seat) = seats.get(i) else {
            return Ok(owners);
        };
        add_owner(alloc, &mut owners, name, &seat.ids)?;
    }
    Ok(owners)
}
