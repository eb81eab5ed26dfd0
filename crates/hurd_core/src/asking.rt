//! What a call asks of the core. Nothing of this takes memory but `names` and `options`, and nothing changes.
ghost use Rattle.std.specs.Prelude.{◌≡◌, Some, None, Ok, IfOk, option_copied};
ghost use Rattle.std.specs.Option.{option_map};
ghost use Rattle.std.specs.FinMap as fin;
ghost use Rattle.hurd_creds.specs.Memory.{Meets};
ghost use Rattle.hurd_trans_iface.specs.Nodes.{attrs_of, passive_of};
ghost use Rattle.hurd_trans_iface.specs.Answers.{entry_of, names_of};
ghost use Rattle.hurd_trans_iface.specs.Meaning.{root_of};
ghost use Rattle.hurd_nodes.specs.Shown.{ServerInfo, are_kin, options_in, header_in, shown, tree_by};
ghost use Rattle.hurd_ports.specs.Tables.{ids_at, io_right_of, lent, naming_of, pending_of, room_of};
ghost use Rattle.hurd_machine.specs.World.{ports_of, active_at, body_at, header_at, home_at, info_at, is_removed, is_server_root, links_at, makes_at, node_at, readable_at, server_at, sets_attrs_at, stream_at, task_at, words_at, targets_at};
ghost use Rattle.hurd_machine.specs.Handle.{both_asks, port_asks, handle_asks};
ghost use Rattle.hurd_core.specs.Branches.{branches_at};
ghost use Rattle.hurd_core.specs.Core.{world_of, asked_only, making_asks};
ghost use Rattle.hurd_core.specs.Control.{control_of};
ghost use Rattle.hurd_core.specs.ToMake.{new_node_of};
ghost use Rattle.hurd_core.specs.PortNode.{IsTold, both_named, header_with, named};

use crate::port_node::PortNode;
use crate::the_core::Core;
use crate::to_make::NodeToMake;
use hurd_creds::{Attrs, Errno, Ids, Kind, NodeName, OpenFlags, ServerName, TaskId};
use hurd_machine::Handle;
use hurd_nodes::Nodes;
use hurd_ports::{IoRight, PendingStart, Right};
use hurd_trans_iface::{Crossing, Names, Root, Server, Words};
use std::alloc::Global;

/// The words of the passive translator of a node of these attributes. They tell whether there are any: else it isn't asked.
#[tactic(auto, using(crate::proofs::NamedLaws::wordless))]
fn words_told<'a, S: Server>(
    nodes: &'a Nodes<S>,
    node: NodeName,
    attrs: &Attrs,
) -> Option<&'a Words>
    requires { option_map attrs_of (fin.get (shown S.meaning nodes.now).nodes node) ≡ Some attrs.now }
    ensures { option_copied result ≡ passive_of (fin.get (shown S.meaning nodes.entry.now).nodes node) }
{
    if attrs.passive {
        nodes.passive(node)
    } else {
        None
    }
}

impl<S: Server> Core<S> {
    /// The right to use a node of a task under a number.
    ///
    /// Errors, in order: `ESRCH` no such task, `EBADF` no such port, or one that controls a server.
    #[inline(always)]
    pub fn io_right(&self, task: TaskId, port: u64) -> Result<&IoRight, Errno>
        ensures { lent result ≡ io_right_of (ports_of (world_of S.meaning self.now)) task.0 port }
    {
        self.ports.io_right(task, port)
    }

    /// What a task is to start, if it is there and is to start anything.
    pub fn pending(&self, task: TaskId) -> Option<&PendingStart>
        ensures { option_copied result ≡ pending_of (ports_of (world_of S.meaning self.now)) task.0 }
    {
        self.ports.pending(task)
    }

    /// The server that a port of a task controls.
    ///
    /// Errors, in order: `ESRCH` no such task, `EBADF` no such port, or one to use a node.
    pub fn control(&self, task: TaskId, port: u64) -> Result<ServerName, Errno>
        ensures { result ≡ control_of (ports_of (world_of S.meaning self.now)) task.0 port }
    {
        match self.ports.right(task, port)? {
            Right::Control(server) => Ok(*server),
            Right::Io(_) => Err(Errno::EBADF),
            Right::Start(_) => Err(Errno::EBADF),
        }
    }

    /// The right of a task under a number, with the attributes of its node.
    ///
    /// Errors, in order: `ESRCH` no such task, `EBADF` no such port, or one that controls a server, `EDIED` no such node.
    #[tactic(auto, unfolding(hurd_machine::specs::Plan::on, hurd_machine::specs::Plan::first))]
    #[inline(always)]
    pub fn port_node(&self, task: TaskId, port: u64) -> Result<PortNode, Errno>
        ensures is { named result ≡ port_asks (world_of S.meaning self.now) task.0 port }
        ensures told { IfOk result IsTold }
    {
        let right = self.ports.io_right(task, port)?;
        let Some(attrs) = self.nodes.attrs(right.node) else {
            return Err(Errno::EDIED);
        };
        let words = words_told(&self.nodes, right.node, &attrs);
        Ok(PortNode {
            right,
            attrs,
            words,
        })
    }

    /// The rights of two ports of a task, with the attributes of their nodes.
    ///
    /// Errors, in order: `ESRCH` no such task, `EBADF` no such first port, or one that controls a server, `EBADF` no such second
    /// one, or one that controls a server, `EDIED` the first one's node isn't there, `EDIED` the second one's isn't.
    #[tactic(auto, unfolding(hurd_machine::specs::Plan::on, hurd_machine::specs::Plan::first))]
    pub fn port_nodes(
        &self,
        task: TaskId,
        port: u64,
        other: u64,
    ) -> Result<(PortNode, PortNode), Errno>
        ensures is { both_named result ≡ both_asks (world_of S.meaning self.entry.now) task.0 port other }
        ensures told { IfOk result (λ p. IsTold p.0 × IsTold p.1) }
    {
        let right = self.ports.io_right(task, port)?;
        let second = self.ports.io_right(task, other)?;
        let Some(attrs) = self.nodes.attrs(right.node) else {
            return Err(Errno::EDIED);
        };
        let Some(others) = self.nodes.attrs(second.node) else {
            return Err(Errno::EDIED);
        };
        let first = PortNode {
            right,
            attrs,
            words: words_told(&self.nodes, right.node, &attrs),
        };
        let second = PortNode {
            right: second,
            attrs: others,
            words: words_told(&self.nodes, second.node, &others),
        };
        Ok((first, second))
    }

    /// The ids of a task. `ESRCH`: no such task.
    pub fn ids(&self, task: TaskId) -> Result<&Ids, Errno>
        ensures { lent result ≡ ids_at (task_at (world_of S.meaning self.now) task.0) }
    {
        self.ports.ids(task)
    }

    /// What a port has open, if that was opened for this.
    ///
    /// Errors, in order: `ESRCH` no such task, `EBADF` no such port, one that controls a server, or one not opened for this,
    /// `EDIED` no such node.
    #[tactic(auto, unfolding(hurd_machine::specs::Plan::on, hurd_machine::specs::Plan::given, hurd_machine::specs::Plan::first))]
    pub fn handle(&self, task: TaskId, port: u64, mode: OpenFlags) -> Result<Handle, Errno>
        ensures { result ≡ handle_asks (world_of S.meaning self.now) task.0 port mode.0 }
    {
        let right = self.ports.io_right(task, port)?;
        let Some(opened) = self.ports.opened(right.open_name) else {
            return Err(Errno::EBADF);
        };
        if !opened.modes.asks(mode) {
            return Err(Errno::EBADF);
        }
        let Some(attrs) = self.nodes.attrs(right.node) else {
            return Err(Errno::EDIED);
        };
        Ok(Handle {
            node: right.node,
            open_name: right.open_name,
            opened,
            kind: attrs.kind,
            size: attrs.size,
        })
    }

    /// Whether a task can have one more port, and name so many more things.
    ///
    /// Errors, in order: `ESRCH` no such task, `EOVERFLOW`.
    pub fn room(&self, task: TaskId, names: u64) -> Result<(), Errno>
        ensures { result ≡ room_of (ports_of (world_of S.meaning self.now)) task.0 names }
    {
        self.ports.room(task, names)
    }

    /// Whether a task can name so many more things.
    ///
    /// Errors, in order: `ESRCH` no such task, `EOVERFLOW`.
    pub fn naming(&self, task: TaskId, names: u64) -> Result<(), Errno>
        ensures { result ≡ naming_of (ports_of (world_of S.meaning self.now)) task.0 names }
    {
        self.ports.naming(task, names)
    }

    /// The attributes of a node, if it is there.
    #[inline(always)]
    pub fn attrs(&self, node: NodeName) -> Option<Attrs>
        ensures all { result ≡ option_map attrs_of (fin.get (world_of S.meaning self.now).nodes node) }
        ensures header { let w = world_of S.meaning self.now in option_map (header_with (words_at w node)) result ≡ header_at w node }
    {
        self.nodes.attrs(node)
    }

    /// The server that is active on a node, if one is, and the node's attributes, if it is there: it is looked up once.
    #[inline(always)]
    pub fn met(&self, node: NodeName) -> (Option<ServerName>, Option<Attrs>)
        ensures active { result.0 ≡ active_at (world_of S.meaning self.now) node }
        ensures all { result.1 ≡ option_map attrs_of (fin.get (world_of S.meaning self.now).nodes node) }
        ensures header { let w = world_of S.meaning self.now in option_map (header_with (words_at w node)) result.1 ≡ header_at w node }
    {
        self.nodes.met(node)
    }

    /// The words of the passive translator of a node, if the node is there and has any.
    pub fn passive(&self, node: NodeName) -> Option<&Words>
        ensures { option_copied result ≡ passive_of (node_at (world_of S.meaning self.now) node) }
    {
        self.nodes.passive(node)
    }

    /// The server of a node, if the node is there.
    pub fn home(&self, node: NodeName) -> Option<ServerName>
        ensures { result ≡ home_at (world_of S.meaning self.now) node }
    {
        self.nodes.home(node)
    }

    /// The server that is active on a node, if one is.
    #[inline(always)]
    pub fn active(&self, node: NodeName) -> Option<ServerName>
        ensures { result ≡ active_at (world_of S.meaning self.now) node }
    {
        self.nodes.active(node)
    }

    /// The root of a server, if the server is there.
    pub fn root_of(&self, server: ServerName) -> Option<NodeName>
        ensures { result ≡ option_map (λ (i : ServerInfo). i.root) (server_at (world_of S.meaning self.now) server) }
    {
        self.nodes.root_of(server)
    }

    /// The ids of a server, if the server is there.
    pub fn server_ids(&self, server: ServerName) -> Option<&Ids>
        ensures { option_copied result ≡ option_map (λ (i : ServerInfo). i.ids) (server_at (world_of S.meaning self.now) server) }
    {
        self.nodes.ids_of(server)
    }

    /// Whether a node is the root of its server.
    pub fn is_root(&self, node: NodeName) -> bool
        ensures { result ≡ is_server_root (world_of S.meaning self.now) node }
    {
        self.nodes.is_root(node)
    }

    /// Whether the server of a node keeps a tree.
    pub fn keeps_tree(&self, node: NodeName) -> bool
        ensures { result ≡ tree_by (info_at (world_of S.meaning self.now) node) }
    {
        self.nodes.keeps_tree(node)
    }

    /// What the root of a node's server is, if the node has a server.
    pub fn root(&self, node: NodeName) -> Option<Root>
        ensures { result ≡ option_map (λ (i : ServerInfo). root_of i.kind i.text) (info_at (world_of S.meaning self.now) node) }
    {
        self.nodes.root(node)
    }

    /// Whether a directory of these attributes is removed: it has no parent, and is no server's root.
    pub fn is_removed(&self, dir: NodeName, attrs: &Attrs) -> bool
        ensures { result ≡ is_removed (world_of S.meaning self.now) dir (header_in attrs.now) }
    {
        !self.is_root(dir) && attrs.parent.is_none()
    }

    /// Whether two nodes are of one server.
    pub fn are_kin(&self, node: NodeName, other: NodeName) -> bool
        ensures { let w = world_of S.meaning self.now in result ≡ are_kin (home_at w node) (home_at w other) }
    {
        self.nodes.are_kin(node, other)
    }

    /// The node of this name in a directory.
    #[inline(always)]
    pub fn step(&self, dir: NodeName, name: &[u8]) -> Option<NodeName>
        ensures { result ≡ entry_of name.now (body_at (world_of S.meaning self.now) dir) }
    {
        self.nodes.step(dir, name)
    }

    /// The names in a directory.
    ///
    /// Errors, in order: `EDIED` no such node, `ENOTDIR`, `ENOMEM`.
    pub fn names(&self, alloc: Global, dir: NodeName) -> Result<Names, Errno>
        ensures { Meets (names_of (body_at (world_of S.meaning self.now) dir)) result }
    {
        self.nodes.names(alloc, dir)
    }

    /// The program and the words of a server, as they would be given to make such a server now.
    ///
    /// Errors, in order: `EDIED` no such server, `ENOMEM`.
    pub fn options(&self, alloc: Global, server: ServerName) -> Result<Words, Errno>
        ensures { Meets (options_in (server_at (world_of S.meaning self.now) server)) result }
    {
        self.nodes.options(alloc, server)
    }

    /// How many bytes there are to read in a node at a place; none where it is gone.
    pub fn readable(&self, node: NodeName, at: u64) -> u64
        ensures { result ≡ readable_at (world_of S.meaning self.now) node at }
    {
        match self.nodes.readable(node, at) {
            Some(count) => count,
            None => 0,
        }
    }

    /// Whether a node's server is there, and a stream: calls leave the cursors of its opens.
    pub fn is_stream(&self, node: NodeName) -> bool
        ensures { result ≡ stream_at (world_of S.meaning self.now) node }
    {
        match self.nodes.root(node) {
            Some(root) => root.is_stream,
            None => false,
        }
    }

    /// The text of the server of a node, lent, if the node has a server. Takes no memory.
    pub fn text_at(&self, node: NodeName) -> Option<&[u8]>
        ensures { option_copied result ≡ option_map (λ (i : ServerInfo). i.text) (info_at (world_of S.meaning self.now) node) }
    {
        self.nodes.text_at(node)
    }

    /// The targets of the server of a node, in order, lent: none where it has no server. Takes no memory.
    pub fn targets_at(&self, node: NodeName) -> &[NodeName]
        ensures { result.now ≡ targets_at (world_of S.meaning self.entry.now) node }
    {
        match self.nodes.targets_at(node) {
            Some(targets) => targets,
            None => &[],
        }
    }

    /// The directories that a node shows as one, in order, lent: the targets of a union, whose root it is; none of any other. Takes no memory.
    pub fn branches_at(&self, node: NodeName) -> &[NodeName]
        ensures { result.now ≡ branches_at (world_of S.meaning self.entry.now) node }
    {
        let Some(root) = self.root(node) else {
            return &[];
        };
        match root.crossing {
            Crossing::Union => self.targets_at(node),
            Crossing::Plain | Crossing::Link { .. } | Crossing::Firm => &[],
        }
    }

    /// Whether a node of this kind may be made in a directory, under a name or without an entry.
    ///
    /// Errors, in order: `EDIED` no such directory, `ENOTDIR`, `EROFS` its server keeps no tree, `EEXIST`, `EOPNOTSUPP`.
    pub fn can_make(&self, dir: NodeName, entry: Option<&[u8]>, kind: Kind) -> Result<(), Errno>
        ensures { result ≡ makes_at (world_of S.meaning self.now) dir (option_copied entry.entry) kind }
    {
        self.nodes.can_make(dir, entry, kind)
    }

    /// Whether a task can make a file, and open it.
    ///
    /// Errors, in order: `ESRCH` no such task, `EOVERFLOW`, those of `can_make`.
    pub fn can_make_file(&self, task: TaskId, file: &NodeToMake) -> Result<(), Errno>
        ensures { result ≡ asked_only (making_asks (world_of S.meaning self.now) task.0 (new_node_of file.now)) }
    {
        self.ports.room(task, 2)?;
        self.nodes.can_make(file.dir, file.entry, Kind::File)
    }

    /// Whether a file may get another name in a directory.
    ///
    /// Errors, in order: `EDIED` no such directory, `ENOTDIR`, `EROFS` its server keeps no tree, `EDIED` no such node, `EXDEV` one of another server, `EISDIR`, `EEXIST`,
    /// `EOVERFLOW` it has 4,294,967,295 links.
    pub fn can_link(&self, dir: NodeName, name: &[u8], node: NodeName) -> Result<(), Errno>
        ensures { result ≡ links_at (world_of S.meaning self.now) dir name.now node }
    {
        self.nodes.can_link(dir, name, node)
    }

    /// Whether the owner, the group and the mode of a node may be set.
    ///
    /// Errors, in order: `EDIED` no such node, `EOPNOTSUPP` its server keeps no tree.
    pub fn can_set_attrs(&self, node: NodeName) -> Result<(), Errno>
        ensures { result ≡ sets_attrs_at (world_of S.meaning self.now) node }
    {
        self.nodes.can_set_attrs(node)
    }

    // What a call changes.
}
