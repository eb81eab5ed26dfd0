//! The first ports of tasks.
ghost use Rattle.std.specs.Prelude.{◌≡◌, ◌⊎◌, IfOk, IfErr, IsOk, Ok, Err};
ghost use Rattle.hurd_ports.specs.Tables.{room_of};
ghost use Rattle.hurd_world.specs.Boot.{boot_ports, few_of, is_aimed};
ghost use Rattle.hurd_world.specs.BootPort.{IsNew, ids_in, with_boot_port};

use hurd_creds::{Errno, Ids, OpenFlags, TaskId};
use hurd_nodes::BOOT_NAME;
use hurd_ports::{Parents, Ports};
use hurd_trans_iface::Crossing;
use std::alloc::Global;

/// Whether a root that is crossed like this leads to the targets of its server: there is nothing yet that these could be.
pub(crate) fn is_aimed(crossing: Crossing) -> bool
    ensures { result ≡ is_aimed crossing }
{
    match crossing {
        Crossing::Firm | Crossing::Union => true,
        Crossing::Plain | Crossing::Link { .. } => false,
    }
}

/// The tables of tasks of these ids: each has the boot root as port 1, its root, and as port 2, its working directory.
///
/// Errors, in order: `EINVAL` more than 64 tasks, `ENOMEM`.
pub(crate) fn first_ports(alloc: Global, tasks: Vec<Ids>) -> Result<Ports, Errno>
    ensures ok { IfOk result (λ ports. (few_of tasks.items ≡ Ok tt) × (ports.state ≡ boot_ports tasks.items)) }
    ensures err { let asked = few_of tasks.items in IfErr result (λ e. (asked ≡ Err e) ⊎ ((e ≡ Errno.ENOMEM) × IsOk asked)) }
{
    let mut ports = Ports::starting_at(alloc, tasks, 1)?;
    add_boot_ports(alloc, &mut ports)?;
    Ok(ports)
}

/// Gives each task, in tables that have no port yet, its two ports on the boot root. `ENOMEM`.
fn add_boot_ports(alloc: Global, ports: &mut Ports) -> Result<(), Errno>
    requires { IsNew ports.old.state }
    ensures ok { IfOk result (λ u. ports.new.state ≡ boot_ports (ids_in ports.old.state)) }
    ensures err { IfErr result (λ e. e ≡ Errno.ENOMEM) }
{
    let count = ports.seats().len();
    for task in 0..count as u32 {
        add_boot_port(alloc, ports, TaskId(task))?;
        add_boot_port(alloc, ports, TaskId(task))?;
    }
    Ok(())
}

/// Gives a task one port more on the boot root, with the task's ids and no modes. `ENOMEM`.
fn add_boot_port(alloc: Global, ports: &mut Ports, task: TaskId) -> Result<(), Errno>
    requires { room_of ports.old.state task.0 1 ≡ Ok tt }
    ensures ok { IfOk result (λ u. ports.new.state ≡ with_boot_port task.0 ports.old.state) }
    ensures err { IfErr result (λ e. e ≡ Errno.ENOMEM) }
{
    let ids = ports.ids(task)?.copied(alloc)?;
    ports.insert(
        task,
        BOOT_NAME,
        ids,
        Parents::none(alloc),
        OpenFlags::from_bits_truncate(0),
    )?;
    Ok(())
}
