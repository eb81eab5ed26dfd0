//! The tables of all tasks, and the opens.
ghost use Rattle.std.specs.Prelude.{◌≡◌, ◌≤◌, ◌<◌, Bool, Some, None, Ok, Err, if◌then◌else◌, length, map, nat_lt, option_copied, slice_get, IfErr, IfOk, IsSomeAnd};
ghost use Rattle.std.specs.Option.{option_map, option_map_or};
ghost use Rattle.std.specs.FinMap as fin;
ghost use Rattle.hurd_creds.specs.Bits.{READ, WRITE};
ghost use Rattle.hurd_creds.specs.Limits.{most_tasks};
ghost use Rattle.hurd_creds.specs.Memory.{Meets, Steps};
ghost use Rattle.hurd_creds.specs.declared.errno.Errno.{Errno};
ghost use Rattle.hurd_ports.specs.Tables.{IsSettled, count_rights, ends, fresh, ids_at, io_right_of, is_controlled, is_named, lent, names_open, naming_of, pending_of, right_of, room_of, uses_node};
ghost use Rattle.hurd_ports.specs.declared.table.Right.{Right};
ghost use Rattle.hurd_ports.specs.Steps as step;
ghost use Rattle.hurd_ports.specs.Counts.{most_counted};
ghost use Rattle.hurd_ports.specs.Seats.{seat_task};

use crate::book::Book;
use crate::opens::Opens;
use crate::parents::Parents;
use crate::table::{IoRight, Opened, PendingStart, Right, TaskSeat};
use hurd_creds::{Errno, Ids, MOST_TASKS, Name, NodeName, OpenFlags, OpenName, ServerName, TaskId};
use std::alloc::Global;
use std::marker::Model;

/// The ports of all tasks, and what is open (GNU Hurd Reference Manual, Ports).
#[derive(Drop)]
pub struct Ports {
    opens: Opens,
    /// How often rights name each open, node and server.
    book: Book,
    tasks: Vec<TaskSeat>,
    /// The task for whose next port, its open and what it names there is room in memory.
    ready: Option<TaskId>,
}

impl Model for Ports {
    ghost use Rattle.hurd_ports.specs.Tables.{Tables, coded_tables};

    ghost Value = { Tables };

    ghost coded = { coded_tables };

    ghost use Rattle.hurd_ports.specs.Seats.{tables_of, IsKept};

    ghost view = { λ p. tables_of p.opens.all p.tasks.items p.ready };

    ghost invariant = { λ p. IsKept p.opens.all p.opens.room p.book p.tasks.items p.ready };
}

/// Takes out the open that goes, if one does.
fn settle(opens: &mut Opens, gone: Option<OpenName>)
    ensures { opens.new.all ≡ option_map_or (λ name. fin.remove opens.old.all name) gone opens.old.all }
{
    if let Some(name) = gone {
        opens.remove(name);
    }
}

impl Ports {
    /// Empty tables for tasks with these ids, whose next number is `next`.
    ///
    /// Errors, in order: `EINVAL` more than 64 tasks, `ENOMEM`.
    pub fn starting_at(alloc: Global, tasks: Vec<Ids>, next: u64) -> Result<Ports, Errno>
        ensures { Meets (step.begun_at tasks.items next) result }
    {
        if tasks.len() > MOST_TASKS {
            return Err(Errno::EINVAL);
        }
        let Ok(mut seats) = Vec::with_capacity(alloc, tasks.len()) else {
            return Err(Errno::ENOMEM);
        };
        for ids in tasks {
            seats.push_reserved(TaskSeat {
                ids,
                ports: Vec::new(alloc),
                next,
                inbox: Vec::new(alloc),
                made: 0,
                pending: None,
            });
        }
        Ok(Ports {
            opens: Opens::new(alloc),
            book: Book::new(alloc),
            tasks: seats,
            ready: None,
        })
    }

    /// How many tasks there are.
    pub fn task_count(&self) -> usize
        ensures { result ≡ length self.now.state.tasks }
    {
        self.tasks.len()
    }

    /// The rows of all tasks, lent. Takes no memory.
    pub fn seats(&self) -> &[TaskSeat]
        ensures all { map seat_task result.now ≡ self.now.state.tasks }
        ensures few { length result.now ≤ most_tasks }
    {
        self.tasks.as_slice()
    }

    /// The row of a task, lent, if the task is there. Takes no memory.
    pub fn seat(&self, task: TaskId) -> Option<&TaskSeat>
        ensures { option_map seat_task (option_copied result) ≡ slice_get self.now.state.tasks task.0 }
    {
        self.tasks.get(task.0 as usize)
    }

    /// The ids of a task. `ESRCH`: no such task.
    pub fn ids(&self, task: TaskId) -> Result<&Ids, Errno>
        ensures { lent result ≡ ids_at (slice_get self.now.state.tasks task.0) }
    {
        match self.tasks.get(task.0 as usize) {
            Some(seat) => Ok(&seat.ids),
            None => Err(Errno::ESRCH),
        }
    }

    /// What a task is to start, if it is there and is to start anything.
    pub fn pending(&self, task: TaskId) -> Option<&PendingStart>
        ensures { option_copied result ≡ pending_of self.now.state task.0 }
    {
        match self.tasks.get(task.0 as usize) {
            Some(seat) => seat.pending.as_ref(),
            None => None,
        }
    }

    /// The right of a task under a number.
    ///
    /// Errors, in order: `ESRCH` no such task, `EBADF` no such port.
    #[inline(always)]
    pub fn right(&self, task: TaskId, port: u64) -> Result<&Right, Errno>
        ensures { lent result ≡ right_of self.now.state task.0 port }
    {
        let Some(seat) = self.tasks.get(task.0 as usize) else {
            return Err(Errno::ESRCH);
        };
        match seat.find(port) {
            Some(right) => Ok(right),
            None => Err(Errno::EBADF),
        }
    }

    /// The right to use a node of a task under a number.
    ///
    /// Errors, in order: `ESRCH` no such task, `EBADF` no such port, or one that controls a server.
    #[inline(always)]
    pub fn io_right(&self, task: TaskId, port: u64) -> Result<&IoRight, Errno>
        ensures { lent result ≡ io_right_of self.now.state task.0 port }
    {
        match self.right(task, port)? {
            Right::Io(right) => Ok(right),
            Right::Control(_) => Err(Errno::EBADF),
            Right::Start(_) => Err(Errno::EBADF),
        }
    }

    /// Whether a task is there. `ESRCH`: it isn't.
    pub fn has_task(&self, task: TaskId) -> Result<(), Errno>
        ensures { result ≡ (if nat_lt task.0 (length self.now.state.tasks) then Ok tt else Err Errno.ESRCH) }
    {
        if (task.0 as usize) < self.tasks.len() {
            Ok(())
        } else {
            Err(Errno::ESRCH)
        }
    }

    /// What an open is, if it is there.
    pub fn opened(&self, name: OpenName) -> Option<Opened>
        ensures { result ≡ fin.get self.now.state.opens name }
    {
        self.opens.opened(name)
    }

    /// How many opens of the node are to read it. No search.
    pub fn readers(&self, node: NodeName) -> u128
        ensures { result ≡ ends self.now.state.opens node READ }
    {
        self.opens.reader_count(node)
    }

    /// How many opens of the node are to write it. No search.
    pub fn writers(&self, node: NodeName) -> u128
        ensures { result ≡ ends self.now.state.opens node WRITE }
    {
        self.opens.writer_count(node)
    }

    /// How many rights name the open, in tables and in inboxes.
    pub fn holders(&self, name: OpenName) -> u128
        ensures { result ≡ count_rights (names_open name) self.now.state.tasks }
    {
        self.book.open_count(name)
    }

    /// How many rights are to use the node, in tables and in inboxes. No search.
    pub fn uses(&self, node: NodeName) -> u128
        ensures { result ≡ count_rights (uses_node node) self.now.state.tasks }
    {
        self.book.use_count(node)
    }

    /// There are 2^100 rights at most, so that a count of them fits.
    pub fn rights_are_few(&self)
        ensures { (test : Right → Bool) → count_rights test self.now.state.tasks ≤ most_counted }
    {
        let _ = &self.book;
    }

    /// Whether a right names the node: one to use it, one that came in by a way over it, or a start that is pending. No search.
    pub fn names_node(&self, node: NodeName) -> bool
        ensures { result ≡ is_named self.now.state.tasks node }
    {
        self.book.names_node(node)
    }

    /// Whether a right is to control the server. No search.
    pub fn controls(&self, server: ServerName) -> bool
        ensures { result ≡ is_controlled self.now.state.tasks server }
    {
        self.book.names_server(server)
    }

    /// Whether a task can have one more port, and name so many more things.
    ///
    /// Errors, in order: `ESRCH` no such task, `EOVERFLOW`.
    pub fn room(&self, task: TaskId, names: u64) -> Result<(), Errno>
        ensures room { result ≡ room_of self.now.state task.0 names }
        ensures settled { IsSettled self.now.state }
    {
        let Some(seat) = self.tasks.get(task.0 as usize) else {
            return Err(Errno::ESRCH);
        };
        if seat.has_room(names) {
            Ok(())
        } else {
            Err(Errno::EOVERFLOW)
        }
    }

    /// Whether a task can name so many more things.
    ///
    /// Errors, in order: `ESRCH` no such task, `EOVERFLOW`.
    pub fn naming(&self, task: TaskId, names: u64) -> Result<(), Errno>
        ensures { result ≡ naming_of self.now.state task.0 names }
    {
        let Some(seat) = self.tasks.get(task.0 as usize) else {
            return Err(Errno::ESRCH);
        };
        if seat.can_name(names) {
            Ok(())
        } else {
            Err(Errno::EOVERFLOW)
        }
    }

    /// The next name of a task, if the task is there.
    pub fn next_name(&self, task: TaskId) -> Option<Name>
        ensures { result ≡ option_map (fresh task.0) (slice_get self.now.state.tasks task.0) }
    {
        match self.tasks.get(task.0 as usize) {
            Some(seat) => Some(seat.next_name(task)),
            None => None,
        }
    }

    /// Takes the next name of a task, which it has then given. Takes no memory, and keeps what is reserved.
    pub fn take_name(&mut self, task: TaskId) -> Name
        requires { IsSomeAnd (slice_get self.old.state.tasks task.0) (λ x. x.made < u64.MAX) }
        ensures name { Some result ≡ option_map (fresh task.0) (slice_get self.old.state.tasks task.0) }
        ensures named { self.new.state ≡ step.name_step task.0 self.old.state }
        ensures ready { self.new.ready ≡ self.old.ready }
    {
        self.tasks[task.0 as usize].take_name(task)
    }

    /// Takes the memory for the task's next port, its open and what it names. It lasts until any port is filled or given up, a right
    /// is shared, sent or received, a start is pended or no longer so, or memory is reserved anew.
    ///
    /// `ENOMEM`.
    #[inline(always)]
    pub fn reserve(&mut self, task: TaskId) -> Result<(), Errno>
        requires { task.0 < length self.old.state.tasks }
        ensures ready { IfOk result (λ _. self.new.ready ≡ Some task.0) }
        ensures err { IfErr result (λ e. e ≡ Errno.ENOMEM) }
        ensures kept { self.new.state ≡ self.old.state }
        ensures settled { IsSettled self.new.state }
    {
        self.ready = None;
        let Ok(()) = self.opens.reserve() else {
            return Err(Errno::ENOMEM);
        };
        let Ok(()) = self.book.reserve() else {
            return Err(Errno::ENOMEM);
        };
        let Ok(()) = self.tasks[task.0 as usize].reserve_port() else {
            return Err(Errno::ENOMEM);
        };
        self.ready = Some(task);
        Ok(())
    }

    /// A port of the task on the node, with an open of its own, in the memory that was reserved; answers its number,
    /// the task's next. Takes no memory.
    #[inline(always)]
    pub fn fill(
        &mut self,
        task: TaskId,
        node: NodeName,
        ids: Ids,
        parents: Parents,
        modes: OpenFlags,
    ) -> u64
        requires ready { self.old.ready ≡ Some task.0 }
        requires room { room_of self.old.state task.0 1 ≡ Ok tt }
        ensures answer { step.insert_step task.0 node ids parents modes self.old.state ≡ (Ok result, self.new.state) }
        ensures new { right_of self.old.state task.0 result ≡ Err Errno.EBADF }
        ensures settled { IsSettled self.new.state }
    {
        let seat = &mut self.tasks[task.0 as usize];
        let name = seat.take_name(task);
        let right = Right::Io(IoRight {
            node,
            ids,
            open_name: name,
            parents,
        });
        self.book.add(&right);
        let number = seat.add(right);
        self.opens.add(name, node, modes);
        self.ready = None;
        number
    }

    /// A port of the task on the node, with an open of its own; answers its number, the task's next. There is room for it.
    ///
    /// `ENOMEM`, and no port changes.
    #[inline(always)]
    pub fn insert(
        &mut self,
        task: TaskId,
        node: NodeName,
        ids: Ids,
        parents: Parents,
        modes: OpenFlags,
    ) -> Result<u64, Errno>
        requires { room_of self.old.state task.0 1 ≡ Ok tt }
        ensures ok { IfOk result (λ number. step.insert_step task.0 node ids parents modes self.old.state ≡ (Ok number, self.new.state)) }
        ensures err { IfErr result (λ e. (e ≡ Errno.ENOMEM) × (self.new.state ≡ self.old.state)) }
        ensures new { IfOk result (λ number. right_of self.old.state task.0 number ≡ Err Errno.EBADF) }
        ensures settled { IsSettled self.new.state }
    {
        self.reserve(task)?;
        Ok(self.fill(task, node, ids, parents, modes))
    }

    /// A port more of the task, with this right, whose open is another's too; answers its number, the task's next. There is
    /// room for it.
    ///
    /// `ENOMEM`, and no port changes.
    pub fn share(&mut self, task: TaskId, right: Right) -> Result<u64, Errno>
        requires { room_of self.old.state task.0 0 ≡ Ok tt }
        ensures ok { IfOk result (λ number. step.share_step task.0 right self.old.state ≡ (Ok number, self.new.state)) }
        ensures err { IfErr result (λ e. (e ≡ Errno.ENOMEM) × (self.new.state ≡ self.old.state)) }
        ensures new { IfOk result (λ number. right_of self.new.state task.0 number ≡ Ok right) }
        ensures settled { IsSettled self.new.state }
    {
        self.ready = None;
        let Ok(()) = self.book.reserve() else {
            return Err(Errno::ENOMEM);
        };
        let seat = &mut self.tasks[task.0 as usize];
        let Ok(()) = seat.reserve_port() else {
            return Err(Errno::ENOMEM);
        };
        self.book.add(&right);
        Ok(seat.add(right))
    }

    /// Gives a copy of a port's right to a task, last in its inbox; a task may send to itself.
    ///
    /// Errors, in order: `ESRCH` no such task, `EBADF` no such port, `ESRCH` nobody to send it to, `ENOMEM`. A refused call
    /// changes no port.
    pub fn send(&mut self, alloc: Global, task: TaskId, port: u64, to: TaskId) -> Result<(), Errno>
        ensures answer { Steps self.old.state (step.send_step task.0 port to.0 self.old.state) result self.new.state }
        ensures port { right_of self.new.state task.0 port ≡ right_of self.old.state task.0 port }
        ensures settled { IsSettled self.new.state }
    {
        let right = self.right(task, port)?;
        self.has_task(to)?;
        let Ok(right) = right.copied(alloc) else {
            return Err(Errno::ENOMEM);
        };
        self.ready = None;
        let Ok(()) = self.book.reserve() else {
            return Err(Errno::ENOMEM);
        };
        let seat = &mut self.tasks[to.0 as usize];
        let Ok(()) = seat.reserve_sent() else {
            return Err(Errno::ENOMEM);
        };
        self.book.add(&right);
        seat.accept(right);
        Ok(())
    }

    /// Takes the first right of a task's inbox, as a port; answers its number, the task's next.
    ///
    /// Errors, in order: `ESRCH` no such task, `EWOULDBLOCK` its inbox is empty, `EOVERFLOW`, `ENOMEM`. A refused call
    /// changes no port.
    pub fn receive(&mut self, task: TaskId) -> Result<u64, Errno>
        ensures answer { Steps self.old.state (step.receive_step task.0 self.old.state) result self.new.state }
        ensures settled { IsSettled self.new.state }
    {
        let Some(seat) = self.tasks.get(task.0 as usize) else {
            return Err(Errno::ESRCH);
        };
        if seat.inbox.is_empty() {
            return Err(Errno::EWOULDBLOCK);
        }
        if !seat.has_room(0) {
            return Err(Errno::EOVERFLOW);
        }
        self.ready = None;
        self.tasks[task.0 as usize].receive()
    }

    /// Gives a task other ids; those of its rights stay. Takes no memory.
    ///
    /// `ESRCH`: no such task.
    pub fn take_ids(&mut self, task: TaskId, ids: Ids) -> Result<(), Errno>
        ensures answer { (result, self.new.state) ≡ step.take_ids_step task.0 ids self.old.state }
        ensures settled { IsSettled self.new.state }
    {
        if task.0 as usize >= self.tasks.len() {
            return Err(Errno::ESRCH);
        }
        self.tasks[task.0 as usize].take_ids(ids);
        Ok(())
    }

    /// The task is to start this from now on, in place of what it was to start before.
    ///
    /// Errors, in order: `ESRCH` no such task, `ENOMEM`.
    pub fn pend(&mut self, task: TaskId, start: PendingStart) -> Result<(), Errno>
        ensures answer { Steps self.old.state (step.pend_step task.0 (Some start) self.old.state) result self.new.state }
        ensures settled { IsSettled self.new.state }
    {
        if task.0 as usize >= self.tasks.len() {
            return Err(Errno::ESRCH);
        }
        self.ready = None;
        let Ok(()) = self.book.reserve() else {
            return Err(Errno::ENOMEM);
        };
        self.book.add(&Right::Start(start.node));
        let seat = &mut self.tasks[task.0 as usize];
        self.book.subtract_start(&seat.pending);
        seat.set_pending(Some(start));
        Ok(())
    }

    /// The task is to start nothing from now on. Takes no memory.
    ///
    /// `ESRCH`: no such task.
    pub fn unpend(&mut self, task: TaskId) -> Result<(), Errno>
        ensures answer { (result, self.new.state) ≡ step.pend_step task.0 None self.old.state }
        ensures settled { IsSettled self.new.state }
    {
        if task.0 as usize >= self.tasks.len() {
            return Err(Errno::ESRCH);
        }
        self.ready = None;
        let seat = &mut self.tasks[task.0 as usize];
        self.book.subtract_start(&seat.pending);
        seat.set_pending(None);
        Ok(())
    }

    /// Gives up a port; its open goes where no other right names it. Takes no memory.
    ///
    /// Errors, in order: `ESRCH` no such task, `EBADF` no such port.
    pub fn deallocate(&mut self, task: TaskId, port: u64) -> Result<(), Errno>
        ensures answer { (result, self.new.state) ≡ step.deallocate_step task.0 port self.old.state }
        ensures settled { IsSettled self.new.state }
    {
        let Some(seat) = self.tasks.get(task.0 as usize) else {
            return Err(Errno::ESRCH);
        };
        let Some(index) = seat.place(port) else {
            return Err(Errno::EBADF);
        };
        let gone = self.book.subtract(&seat.ports[index].right);
        self.ready = None;
        self.tasks[task.0 as usize].remove(index);
        settle(&mut self.opens, gone);
        Ok(())
    }

    /// Moves the cursor of an open; where it isn't there, nothing changes. Takes no memory.
    pub fn move_cursor(&mut self, name: OpenName, cursor: u64)
        ensures moved { self.new.state ≡ step.move_cursor_step name cursor self.old.state }
        ensures settled { IsSettled self.new.state }
    {
        self.opens.move_cursor(name, cursor);
    }

    /// Lets an open append, or not; where it isn't there, nothing changes. Takes no memory.
    pub fn set_append(&mut self, name: OpenName, append: bool)
        ensures set { self.new.state ≡ step.set_append_step name append self.old.state }
        ensures settled { IsSettled self.new.state }
    {
        self.opens.set_append(name, append);
    }
}
