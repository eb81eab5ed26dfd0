//! The core.
ghost use Rattle.std.specs.Prelude.{◌≡◌, [], ◌∷◌, Some, None, Ok, Err, IfErr, IfOk};
ghost use Rattle.std.specs.Option.{option_map};
ghost use Rattle.hurd_trans_iface.specs.Answers.{header_after, link_edits};
ghost use Rattle.hurd_trans_iface.specs.Behaviour.{edits_of, reading, told_of, writing, resizing};
ghost use Rattle.hurd_trans_iface.specs.Meaning.{Begins};
ghost use Rattle.hurd_nodes.specs.Shown.{booted, rename_edits_at, shown, state_of, unlink_edits_at};
ghost use Rattle.hurd_nodes.specs.Needs.{FreeRead, FreeSize, FreeWrite};
ghost use Rattle.hurd_ports.specs.Tables.{right_of, task_of};
ghost use Rattle.hurd_ports.specs.Steps.{appending, at_cursor, received, with_ids, with_port};
ghost use Rattle.hurd_machine.specs.World.{world_from, nodes_of, ports_of, asked_at, ends_at, links_at, readers_at, renames_at, sets_attrs_at, unlinks_at, writers_at};
ghost use Rattle.hurd_machine.specs.Change.{DropServer, EditHeader, EditOpen, EditTask, Send, Settle, Unseat, apply, apply_all, changes_of, dropping, opening, pending, settle};
ghost use Rattle.hurd_machine.specs.Plan.{Follows, Planned, answered, told};
ghost use Rattle.hurd_machine.specs.declared.call.Reply.TheVariants.{Done};
ghost use Rattle.hurd_core.specs.Core.{Does, attaching, naming_asks, without_box, making_asks, making_dir, making_dir_asks, making_open, receive_asks, room_asks, send_asks, settled_edits, started_over, world_of};
ghost use Rattle.hurd_core.specs.Control.{plan_options};
ghost use Rattle.hurd_core.specs.ToMake.{new_node_of};
ghost use Rattle.hurd_core.specs.Users.{AreUsers, home_of};

use crate::named::NamedByRights;
use crate::to_make::{NodeToMake, ServerToMake};
use crate::users::{self, NodeUse, Users};
use hurd_creds::{Bytes, Errno, Ids, Kind, NodeName, OpenFlags, OpenName, ServerName, TaskId};
use hurd_nodes::{BOOT_NAME, Nodes};
use hurd_ports::{Ends, Parents, PendingStart, Ports, Right};
use hurd_trans_iface::{HeaderEdit, Server, Words};
use std::alloc::Global;
use std::marker::Model;

/// Servers with their nodes, and the ports of tasks.
#[derive(Drop)]
pub struct Core<S: Server = Box<dyn Server>> {
    pub(crate) nodes: Nodes<S>,
    pub(crate) ports: Ports,
    /// How many rights there are to use nodes of each server.
    pub(crate) users: Users,
}

impl<S: Server> Model for Core<S> {
    ghost use Rattle.hurd_core.specs.Core.{Whole, coded_whole};

    ghost Value = { Whole S };

    ghost coded = { coded_whole S.code };

    ghost view = { λ c. record { nodes = c.nodes; ports = c.ports } };

    ghost use Rattle.hurd_core.specs.Users.{AreUsers};

    ghost invariant = { λ c. AreUsers c.users.entries c.nodes.sites c.ports.state.tasks };
}

impl<S: Server> Core<S> {
    /// A boot server alone, whose root belongs to uid 0 and gid 0 and has the mode 0o755, and these ports.
    ///
    /// `ENOMEM`, with the box back.
    pub fn starting(alloc: Global, boot: S, ports: Ports) -> Result<Core<S>, (Errno, S)>
        requires { Begins (S.meaning boot) }
        ensures ok { IfOk result (λ c. world_of S.meaning c ≡ world_from (state_of (booted (S.meaning boot))) ports.state) }
        ensures err { IfErr result (λ e. e ≡ (Errno.ENOMEM, boot)) }
    {
        let Some(users) = users::first(alloc, &ports) else {
            return Err((Errno::ENOMEM, boot));
        };
        Core::over(Nodes::starting(alloc, boot), ports, users)
    }

    /// A core of the first nodes, unless these were refused, with these ports, whose users are counted.
    fn over(
        nodes: Result<Nodes<S>, (Errno, S)>,
        ports: Ports,
        users: Users,
    ) -> Result<Core<S>, (Errno, S)>
        requires { IfOk nodes (λ n. AreUsers users.entries n.sites ports.state.tasks) }
        ensures ok { IfOk result (λ c. (nodes ≡ Ok c.nodes) × (c.ports ≡ ports)) }
        ensures err { IfErr result (λ e. nodes ≡ Err e) }
    {
        match nodes {
            Ok(nodes) => Ok(Core {
                nodes,
                ports,
                users,
            }),
            Err(refused) => Err(refused),
        }
    }

    /// The servers with their nodes, to be looked at. Takes no memory.
    pub fn nodes(&self) -> &Nodes<S>
        ensures { result.now ≡ self.now.nodes }
    {
        &self.nodes
    }

    /// The tasks with their ports, and the opens, to be looked at. Takes no memory.
    pub fn ports(&self) -> &Ports
        ensures { result.now ≡ self.now.ports }
    {
        &self.ports
    }

    /// What nothing keeps any more goes. Takes no memory.
    fn settle(&mut self)
        ensures { world_of S.meaning self.new ≡ settle (world_of S.meaning self.old) }
    {
        self.nodes.nodes_are_served();
        self.nodes.settle(&NamedByRights { ports: &self.ports });
    }

    /// Opens a node: a port of the task with these ids and an open of its own, under the task's next number.
    ///
    /// Errors, in order: `ESRCH` no such task, `EOVERFLOW`, `ENOMEM`.
    #[inline(always)]
    pub fn open(
        &mut self,
        task: TaskId,
        node: NodeName,
        ids: Ids,
        parents: Parents,
        modes: OpenFlags,
    ) -> Result<u64, Errno>
        ensures { let w = world_of S.meaning self.old in
            Does w (room_asks w task.0 1) (λ x. opening task.0 x node ids parents modes) (λ x. x.next) result (world_of S.meaning self.new) }
    {
        self.ports.room(task, 1)?;
        self.users.reserve(1)?;
        let port = self.ports.insert(task, node, ids, parents, modes)?;
        self.ports.rights_are_few();
        users::add(&mut self.users, self.nodes.home(node), 1);
        Ok(port)
    }

    /// Makes a file in a directory, under a name or without an entry, and opens it as `open` does.
    ///
    /// Errors, in order: `ESRCH` no such task, `EOVERFLOW`, those of `can_make`, `ENOMEM`.
    pub fn make_file(
        &mut self,
        alloc: Global,
        task: TaskId,
        file: NodeToMake,
        ids: Ids,
        parents: Parents,
        modes: OpenFlags,
    ) -> Result<u64, Errno>
        ensures { let w = world_of S.meaning self.old in
            Does w (making_asks w task.0 (new_node_of file.entry)) (making_open task.0 (new_node_of file.entry) ids parents modes) (λ a. a.0.next)
            result (world_of S.meaning self.new) }
    {
        self.ports.room(task, 2)?;
        self.nodes.can_make(file.dir, file.entry, Kind::File)?;
        self.ports.reserve(task)?;
        self.users.reserve(1)?;
        let Some(name) = self.ports.next_name(task) else {
            return Err(Errno::ESRCH);
        };
        let before = NodeUse::of(&self.nodes, &self.ports, name);
        self.nodes
            .make(alloc, file.dir, file.entry, file.node(Kind::File, name))?;
        self.ports.take_name(task);
        let port = self.ports.fill(task, name, ids, parents, modes);
        let now = NodeUse::of(&self.nodes, &self.ports, name);
        users::rehouse(&mut self.users, before, now);
        Ok(port)
    }

    /// Makes a directory in a directory.
    ///
    /// Errors, in order: those of `can_make`, `ESRCH` no such task, `EOVERFLOW`, `ENOMEM`.
    pub fn make_dir(&mut self, alloc: Global, task: TaskId, dir: NodeToMake) -> Result<(), Errno>
        ensures { let w = world_of S.meaning self.old in
            Does w (making_dir_asks w task.0 (new_node_of dir.entry)) (making_dir task.0 (new_node_of dir.entry)) (λ a. tt)
            result (world_of S.meaning self.new) }
    {
        self.nodes.can_make(dir.dir, dir.entry, Kind::Dir)?;
        self.ports.naming(task, 1)?;
        self.users.reserve(1)?;
        let Some(name) = self.ports.next_name(task) else {
            return Err(Errno::ESRCH);
        };
        let before = NodeUse::of(&self.nodes, &self.ports, name);
        self.nodes
            .make(alloc, dir.dir, dir.entry, dir.node(Kind::Dir, name))?;
        self.ports.take_name(task);
        let now = NodeUse::of(&self.nodes, &self.ports, name);
        users::rehouse(&mut self.users, before, now);
        Ok(())
    }

    /// The server of the node that a port is to use; none where there is no such port, or no such node.
    #[inline(always)]
    fn home_used(&self, task: TaskId, port: u64) -> Option<ServerName>
        ensures { result ≡ home_of self.now.nodes.sites (right_of self.now.ports.state task.0 port) }
    {
        match self.ports.right(task, port) {
            Ok(right) => users::home_used(&self.nodes, right),
            Err(_) => None,
        }
    }

    /// Gives up a port. Its open goes where no other right names it, and its node where nothing else keeps it. Takes no memory.
    ///
    /// Errors, in order: `ESRCH` no such task, `EBADF` no such port.
    pub fn drop_port(&mut self, task: TaskId, port: u64) -> Result<(), Errno>
        ensures { let w = world_of S.meaning self.old in
            Follows w (answered (right_of (ports_of w) task.0 port) (λ r. record { reply = Done; changes = dropping task.0 port r }))
            (told (λ u. Done) result) (world_of S.meaning self.new) }
    {
        let server = self.home_used(task, port);
        self.ports.deallocate(task, port)?;
        users::subtract(&mut self.users, server, 1);
        self.settle();
        Ok(())
    }

    /// Gives a task one port more, with this right, whose open is another's too; answers its number, the task's next.
    ///
    /// Errors, in order: `ESRCH` no such task, `EOVERFLOW`, `ENOMEM`.
    pub fn share(&mut self, task: TaskId, right: Right) -> Result<u64, Errno>
        ensures { let w = world_of S.meaning self.old in
            Does w (room_asks w task.0 0) (λ x. EditTask task.0 (with_port right) ∷ []) (λ x. x.next) result (world_of S.meaning self.new) }
    {
        self.ports.room(task, 0)?;
        self.users.reserve(1)?;
        let server = users::home_used(&self.nodes, &right);
        let number = self.ports.share(task, right)?;
        self.ports.rights_are_few();
        users::add(&mut self.users, server, 1);
        Ok(number)
    }

    /// Gives a copy of a port's right to a task, last of those that it was sent.
    ///
    /// Errors, in order: `ESRCH` no such task, `EBADF` no such port, `ESRCH` nobody to send it to, `ENOMEM`.
    pub fn send(&mut self, alloc: Global, task: TaskId, port: u64, to: TaskId) -> Result<(), Errno>
        ensures { let w = world_of S.meaning self.old in
            Does w (send_asks w task.0 port to.0) (λ r. Send r to.0 ∷ []) (λ r. tt) result (world_of S.meaning self.new) }
    {
        let server = users::home_used(&self.nodes, self.ports.right(task, port)?);
        self.ports.has_task(to)?;
        self.users.reserve(1)?;
        self.ports.send(alloc, task, port, to)?;
        self.ports.rights_are_few();
        users::add(&mut self.users, server, 1);
        Ok(())
    }

    /// Takes the first right that a task was sent, as a port; answers its number, the task's next.
    ///
    /// Errors, in order: `ESRCH` no such task, `EWOULDBLOCK` it has no right left that it was sent, `EOVERFLOW`, `ENOMEM`.
    pub fn receive(&mut self, task: TaskId) -> Result<u64, Errno>
        ensures { let w = world_of S.meaning self.old in
            Does w (receive_asks w task.0) (λ x. EditTask task.0 received ∷ []) (λ x. x.next) result (world_of S.meaning self.new) }
    {
        self.ports.receive(task)
    }

    /// Gives a task other ids; those of its rights stay. Takes no memory.
    ///
    /// `ESRCH`: no such task.
    pub fn take_ids(&mut self, task: TaskId, ids: Ids) -> Result<(), Errno>
        ensures { let w = world_of S.meaning self.old in
            Follows w (answered (task_of (ports_of w) task.0) (λ x. record { reply = Done; changes = EditTask task.0 (with_ids ids) ∷ [] }))
            (told (λ u. Done) result) (world_of S.meaning self.new) }
    {
        self.ports.take_ids(task, ids)
    }

    /// The task is to start this from now on, in place of what it was to start before. What nothing keeps any more goes.
    ///
    /// Errors, in order: `ESRCH` no such task, `ENOMEM`.
    pub fn pend(&mut self, task: TaskId, start: PendingStart) -> Result<(), Errno>
        ensures { let w = world_of S.meaning self.old in
            Does w (task_of (ports_of w) task.0) (λ x. pending task.0 (Some start)) (λ x. tt) result (world_of S.meaning self.new) }
    {
        self.ports.pend(task, start)?;
        self.settle();
        Ok(())
    }

    /// The task is to start nothing any more. What nothing keeps any more goes. Takes no memory.
    ///
    /// `ESRCH`: no such task.
    pub fn unpend(&mut self, task: TaskId) -> Result<(), Errno>
        ensures { let w = world_of S.meaning self.old in
            Follows w (answered (task_of (ports_of w) task.0) (λ x. record { reply = Done; changes = pending task.0 None }))
            (told (λ u. Done) result) (world_of S.meaning self.new) }
    {
        self.ports.unpend(task)?;
        self.settle();
        Ok(())
    }

    /// Lets an open append, or not, if it is there. Takes no memory.
    pub fn set_append(&mut self, open_name: OpenName, append: bool)
        ensures { world_of S.meaning self.new ≡ apply (EditOpen open_name (appending append)) (world_of S.meaning self.old) }
    {
        self.ports.set_append(open_name, append)
    }

    /// Moves the cursor of an open, if it is there. Takes no memory.
    pub fn move_cursor(&mut self, open_name: OpenName, cursor: u64)
        ensures { world_of S.meaning self.new ≡ apply (EditOpen open_name (at_cursor cursor)) (world_of S.meaning self.old) }
    {
        self.ports.move_cursor(open_name, cursor)
    }

    /// How many opens read a node, and how many write it, where its server is told. Takes no memory.
    pub fn ends(&self, node: NodeName) -> Option<Ends>
        ensures { result ≡ ends_at (world_of S.meaning self.now) node }
    {
        if !self.nodes.counts(node) {
            return None;
        }
        Some(Ends {
            readers: self.ports.readers(node),
            writers: self.ports.writers(node),
        })
    }

    /// How many opens write a node, as its server is told when it is read. Takes no memory.
    fn writers(&self, node: NodeName) -> u128
        ensures { result ≡ writers_at (world_of S.meaning self.now) node }
    {
        match self.ends(node) {
            Some(ends) => ends.writers,
            None => 0,
        }
    }

    /// How many opens read a node, as its server is told when it is written. Takes no memory.
    fn readers(&self, node: NodeName) -> u128
        ensures { result ≡ readers_at (world_of S.meaning self.now) node }
    {
        match self.ends(node) {
            Some(ends) => ends.readers,
            None => 0,
        }
    }

    /// At most `amount` bytes of a node from `at` on, as its server gives them; where there are none, no memory is taken.
    pub fn read(
        &mut self,
        alloc: Global,
        node: NodeName,
        at: u64,
        amount: u64,
    ) -> Result<Bytes, Errno>
        ensures does { let w = world_of S.meaning self.old in
            Does w (asked_at (reading at amount (writers_at w node)) node w) (λ d. changes_of (edits_of node (Ok d))) (λ d. d.told) result
            (world_of S.meaning self.new) }
        ensures free { let w = world_of S.meaning self.old in
            FreeRead at amount (writers_at w node) node (nodes_of w) → result ≡ told_of (asked_at (reading at amount (writers_at w node)) node w) }
    {
        let writers = self.writers(node);
        self.nodes.read(alloc, node, at, amount, writers)
    }

    /// Puts bytes into a node at `at`, and answers how many its server took. Takes no memory where there is no data, where the bytes that are written over are there, and in
    /// a stream.
    pub fn write(&mut self, node: NodeName, at: u64, bytes: &[u8]) -> Result<u64, Errno>
        ensures does { let w = world_of S.meaning self.old in
            Does w (asked_at (writing at bytes.now (readers_at w node)) node w) (λ d. changes_of (edits_of node (Ok d))) (λ d. d.told) result
            (world_of S.meaning self.new) }
        ensures free { let w = world_of S.meaning self.old in
            FreeWrite at bytes.now node (nodes_of w) → result ≡ told_of (asked_at (writing at bytes.now (readers_at w node)) node w) }
    {
        let readers = self.readers(node);
        self.nodes.write(node, at, bytes, readers)
    }

    /// Cuts a node to a size, or grows it, as its server does. A cut takes no memory, nor does a stream.
    pub fn set_size(&mut self, node: NodeName, size: u64) -> Result<(), Errno>
        ensures does { let w = world_of S.meaning self.old in
            Does w (asked_at (resizing size) node w) (λ d. changes_of (edits_of node (Ok d))) (λ d. d.told) result
            (world_of S.meaning self.new) }
        ensures free { let w = world_of S.meaning self.old in
            FreeSize size node (nodes_of w) → result ≡ told_of (asked_at (resizing size) node w) }
    {
        self.nodes.set_size(node, size)
    }

    /// Gives a file another name in a directory.
    ///
    /// Errors, in order: those of `can_link`, `ENOMEM`.
    pub fn link(
        &mut self,
        alloc: Global,
        dir: NodeName,
        name: &[u8],
        node: NodeName,
    ) -> Result<(), Errno>
        ensures { let w = world_of S.meaning self.old in
            Does w (links_at w dir name.now node) (λ u. changes_of (link_edits dir name.now node)) (λ u. tt) result (world_of S.meaning self.new) }
    {
        self.nodes.link(alloc, dir, name, node)
    }

    /// Takes an entry out of a directory: of what it names, a directory loses its parent, and any other node a link. What nothing
    /// keeps any more goes. Takes no memory.
    ///
    /// Errors, in order: `EDIED` no such directory, `ENOTDIR`, `EROFS` its server keeps no tree, `ENOENT`.
    pub fn unlink(&mut self, dir: NodeName, name: &[u8]) -> Result<(), Errno>
        ensures { let w = world_of S.meaning self.old in
            Follows w (answered (unlinks_at w dir name.now) (λ u. record { reply = Done; changes = settled_edits (unlink_edits_at dir name.now (nodes_of w)) }))
            (told (λ u. Done) result) (world_of S.meaning self.new) }
    {
        self.nodes.unlink(dir, name)?;
        self.settle();
        Ok(())
    }

    /// Takes an entry out of a directory and puts it last into another one, or the same, under a new name: in place of
    /// the entry of that name, where there is one. What nothing keeps any more goes.
    ///
    /// Errors, in order: `EDIED` no such directory, `ENOTDIR`, `EROFS` its server keeps no tree, `EXDEV` the two are of
    /// different servers, `EDIED` no such directory `to`, `ENOTDIR`, `ENOENT`, `ENOMEM`.
    pub fn rename(
        &mut self,
        alloc: Global,
        dir: NodeName,
        name: &[u8],
        to: NodeName,
        new: &[u8],
    ) -> Result<(), Errno>
        ensures { let w = world_of S.meaning self.old in
            Does w (renames_at w dir name.now to) (λ u. settled_edits (rename_edits_at dir name.now to new.now (nodes_of w))) (λ u. tt) result
            (world_of S.meaning self.new) }
    {
        self.nodes.rename(alloc, dir, name, to, new)?;
        self.settle();
        Ok(())
    }

    /// Seats a new server on a node, with these targets, after another has left for it, if one is to: the task gives it its next name, and its root
    /// the one after. If the task was to start it, it is to start nothing any more. What nothing keeps any more goes.
    ///
    /// Errors, in order, with the box back: `ESRCH` no such task, `EOVERFLOW`, `ENOMEM`.
    pub fn attach(
        &mut self,
        task: TaskId,
        place: ServerToMake,
        ids: Ids,
        targets: Vec<NodeName>,
        server: S,
    ) -> Result<(), (Errno, S)>
        requires { Begins (S.meaning server) }
        ensures does { let w = world_of S.meaning self.old in
            Does w (naming_asks w task.0 2) (attaching task.0 place ids targets.items (S.meaning server)) (λ x. tt) (without_box result) (world_of S.meaning self.new) }
        ensures back { IfErr result (λ e. e.1 ≡ server) }
    {
        if let Err(refused) = self.ports.naming(task, 2) {
            return Err((refused, server));
        }
        let Some(name) = self.ports.next_name(task) else {
            return Err((Errno::ESRCH, server));
        };
        let Ok(()) = self.users.reserve(1) else {
            return Err((Errno::ENOMEM, server));
        };
        let at = place.place(name);
        let root = NodeUse::of(&self.nodes, &self.ports, at.root);
        self.nodes.attach(at, ids, targets, place.instead, server)?;
        users::reseat(&mut self.users, root, place.instead, at.name);
        self.ports.take_name(task);
        self.ports.take_name(task);
        self.start_over(task, place.starts);
        self.settle();
        Ok(())
    }

    /// A task that was to start a server is to start nothing any more.
    fn start_over(&mut self, task: TaskId, starts: bool)
        ensures nodes { self.new.nodes ≡ self.old.nodes }
        ensures ports { self.new.ports.state ≡ started_over task.0 starts self.old.ports.state }
    {
        if starts {
            let _ = self.ports.unpend(task);
        }
    }

    /// Takes a server out with its nodes, wherever it is active. What nothing keeps any more goes. Takes no memory.
    pub fn send_away(&mut self, server: ServerName)
        ensures { world_of S.meaning self.new ≡ apply_all (DropServer server ∷ Settle ∷ []) (world_of S.meaning self.old) }
    {
        self.nodes.detach(server);
        users::forget(&mut self.users, Some(server));
        self.settle();
    }

    /// No server is active on a node any more. What nothing keeps any more goes. Takes no memory.
    pub fn unseat(&mut self, node: NodeName)
        ensures { world_of S.meaning self.new ≡ apply_all (Unseat node ∷ Settle ∷ []) (world_of S.meaning self.old) }
    {
        self.nodes.unseat(node);
        self.settle();
    }

    /// Edits what the header of a node says. Takes no memory.
    ///
    /// Errors, in order: `EDIED` no such node, `EOPNOTSUPP` its server makes no such edit.
    pub fn edit_header(&mut self, node: NodeName, edit: HeaderEdit) -> Result<(), Errno>
        ensures { let w = world_of S.meaning self.old in
            Follows w (answered (sets_attrs_at w node) (λ u. record { reply = Done; changes = EditHeader node (header_after edit) ∷ [] }))
            (told (λ u. Done) result) (world_of S.meaning self.new) }
    {
        self.nodes.edit_header(node, edit)
    }

    /// Gives a server other options in place of those that it has. Without words nothing changes, and no memory is taken.
    ///
    /// Errors, in order: `EDIED` no such server, `EINVAL` words that it doesn't take, `ENOMEM`.
    pub fn set_options(
        &mut self,
        alloc: Global,
        server: ServerName,
        words: &Words,
    ) -> Result<(), Errno>
        ensures planned { let w = world_of S.meaning self.old in
            Planned w (plan_options w server words.now) (λ u. Done) result (world_of S.meaning self.new) }
        ensures free { let w = world_of S.meaning self.old in
            words.now ≡ [] → Follows w (plan_options w server words.now) (told (λ u. Done) result) (world_of S.meaning self.new) }
    {
        self.nodes.set_options(alloc, server, words)
    }
}
