//! The last number that a port may have. No list of calls reaches it: a task would need some 2 to the 64th ports before.
use hurd_creds::{Errno, Ids, Name, OpenFlags, TaskId};
use hurd_ports::{Parents, Ports};
use hurd_terminal::{Fault, Output};
use std::alloc::{AllocError, Global};
use std::io::Write;

/// The task that gets the ports.
const TASK: TaskId = TaskId(0);

/// The number of its first port here.
const FIRST: u64 = u64::MAX - 2;

/// How many ports it asks for.
const ASKED: usize = 4;

/// The ids of the task.
fn tasks(alloc: Global) -> Result<Vec<Ids>, AllocError> {
    let mut tasks = Vec::new(alloc);
    let Ok(ids) = Ids::new(alloc, &[0], &[0]) else {
        return Err(AllocError);
    };
    tasks.push(ids)?;
    Ok(tasks)
}

/// The tables of that task, without ports.
fn without_ports(alloc: Global) -> Result<Ports, Errno> {
    Ports::starting_at(alloc, tasks(alloc)?, FIRST)
}

/// One port more, on the root: its number, or why there is none.
fn port(alloc: Global, ports: &mut Ports) -> Result<u64, Errno> {
    ports.room(TASK, 1)?;
    let ids = Ids::new(alloc, &[0], &[0])?;
    let root = Name {
        task: TASK,
        count: 0,
    };
    ports.insert(TASK, root, ids, Parents::none(alloc), OpenFlags::READ)
}

/// What is printed of a port that was asked for. `Memory`.
fn line(alloc: Global, asked: Result<u64, Errno>) -> Result<String, Fault> {
    match asked {
        Ok(number) => Ok(format!(in alloc; "port {number}\n")?),
        Err(Errno::ENOMEM) => Err(Fault::Memory),
        Err(errno) => {
            let name = errno.name();
            Ok(format!(in alloc; "{name}\n")?)
        }
    }
}

/// Gives a task ports up to the last number, and asks for more: prints each number, and then why there is no port.
pub fn last_port<W: Write>(alloc: Global, output: &mut Output<W>) -> Result<(), Fault> {
    let mut ports = match without_ports(alloc) {
        Ok(ports) => ports,
        Err(_) => return Err(Fault::Memory),
    };
    for _ in 0..ASKED {
        let said = line(alloc, port(alloc, &mut ports))?;
        output.print(said.as_bytes())?;
    }
    Ok(())
}
