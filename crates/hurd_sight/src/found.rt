//! The nodes that a set of tasks sees, and why.
ghost use Rattle.std.specs.Prelude.{◌≡◌, ◌<◌, ◌≤◌, ◌^◌, ◌∷◌, [], false, if◌then◌else◌, length, option_and_then, IfOk, OnOk, slice_get, take};
ghost use Rattle.std.specs.List.{flat_map};
ghost use Rattle.std.specs.Option.{option_map};
ghost use Rattle.hurd_creds.specs.declared.name.Name.{Name};
ghost use Rattle.hurd_creds.specs.declared.name.TaskId.{TaskId};
ghost use Rattle.hurd_creds.specs.Memory.{is_no_memory};
ghost use Rattle.hurd_trans_iface.specs.Nodes.{body_of, header_of, is_dir};
ghost use Rattle.hurd_nodes.specs.Held.{home_in};
ghost use Rattle.hurd_nodes.specs.Shown.{shown};
ghost use Rattle.hurd_machine.specs.World.{boot_root};
ghost use Rattle.hurd_ports.specs.Seats.{seat_task};
ghost use Rattle.hurd_ports.specs.Tables.{rights_of, start_of};
ghost use Rattle.hurd_ports.specs.declared.table.Port.{Port};
ghost use Rattle.hurd_sight.specs.Found.{AllThatFollows, FoundAll, FoundIsOne, FoundIsSeen, PlainIsFirst, found_more, gathered, is_found, of_active, of_children, of_entry, of_node, of_nodes, of_parent, of_plain, of_rest, of_right, of_server, of_target, of_targets, of_task, of_way, parent_in, root_of, searched_by, served_root, targets_of, why_of, with_why};
ghost use Rattle.hurd_sight.specs.declared.found.Why.{Why};
ghost use Rattle.hurd_sight.specs.declared.found.Why.TheVariants as why;

use crate::reach::Reach;
use hurd_creds::{Attrs, Errno, NodeName, ServerName, TaskId, Want};
use hurd_nodes::{BOOT_NAME, Nodes};
use hurd_ports::{Parent, PendingStart, Port, Ports, Right, TaskSeat};
use hurd_trans_iface::{Names, Server, is_dir};
use indexmap::IndexMap;
use std::alloc::{AllocError, Global};
use std::marker::Model;

/// Why a node is seen: by what it was found first. A node in it is one that was found before.
#[derive(Clone, Copy, Debug, PartialEq, Eq)]
pub enum Why {
    /// It is the root of the tree.
    Root,
    /// A right is on it.
    Held,
    /// A right came in by it.
    Way,
    /// It is the root of a server that is controlled.
    Controlled,
    /// Its translator is to be started.
    Pending,
    /// An entry of this directory, which could be searched, names it.
    Child(NodeName),
    /// It is the parent of this directory.
    Parent(NodeName),
    /// It is the root of the server that is active on this node.
    Active(NodeName),
    /// It is the root of this node's server, which could be served.
    ServerRoot(NodeName),
    /// A target of the server of this node, or of the one that is active on it.
    Target(NodeName),
}

/// Nodes in the order in which they were found, each once, with why.
#[derive(Drop)]
pub struct Found {
    nodes: IndexMap<NodeName, Why>,
}

impl Model for Found {
    ghost use Rattle.std.specs.Prelude.{List};
    ghost use Rattle.hurd_creds.specs.declared.name.Name.{Name};
    ghost use Rattle.hurd_creds.specs.Memory.{is_no_memory};
    ghost use Rattle.hurd_sight.specs.declared.found.Why.TheVariants.{the_data as Why};

    ghost Value = { List (Name × Why) };

    ghost view = { λ f. f.nodes.entries };
}

impl Found {
    /// All nodes that the rights of these tasks show, with the ids that they reach.
    pub fn of<S: Server>(
        alloc: Global,
        nodes: &Nodes<S>,
        ports: &Ports,
        reach: &Reach,
        tasks: &[TaskId],
    ) -> Result<Found, AllocError>
        ensures { IfOk result (λ found. FoundAll (shown S.meaning nodes.now) ports.now.state.tasks reach.now tasks.now found) }
    {
        let mut found = Found::plain(alloc, nodes, reach)?;
        let plain = found.len();
        found.add_tasks(nodes, ports, tasks)?;
        found.follow(alloc, nodes, reach, plain)?;
        Ok(found)
    }

    /// The nodes to which entries and active servers alone lead from the root.
    fn plain<S: Server>(alloc: Global, nodes: &Nodes<S>, reach: &Reach) -> Result<Found, AllocError>
        ensures { IfOk result (λ found. AllThatFollows (of_plain (shown S.meaning nodes.now) reach.now) ((boot_root, why.Root) ∷ []) found) }
    {
        let mut found = Found {
            nodes: IndexMap::new(alloc),
        };
        found.add(BOOT_NAME, Why::Root)?;
        found.follow_plain(alloc, nodes, reach)?;
        Ok(found)
    }

    /// How many there are.
    pub fn len(&self) -> usize
        ensures { result ≡ length self.now }
    {
        self.nodes.len()
    }

    /// The node at an index with why it is seen, if there are so many.
    pub fn get(&self, index: usize) -> Option<(NodeName, Why)>
        ensures { result ≡ slice_get self.now index }
    {
        match self.nodes.get_index(index) {
            Some((node, why)) => Some((*node, *why)),
            None => None,
        }
    }

    /// The node at an index, if there are so many; there are less than 2 to the 63rd.
    fn node_at(&self, index: usize) -> Option<NodeName>
        ensures node { result ≡ option_map (λ (e : Name × Why). e.0) (slice_get self.now index) }
        ensures few { length self.now < 2 ^ 63 }
    {
        let _few = self.nodes.len();
        match self.nodes.get_index(index) {
            Some((node, _)) => Some(*node),
            None => None,
        }
    }

    /// Whether a node is among them.
    pub fn has(&self, node: NodeName) -> bool
        ensures { result ≡ is_found node self.now }
    {
        self.nodes.contains_key(&node)
    }

    /// Why a node is seen, if it is among them.
    pub fn why(&self, node: NodeName) -> Option<Why>
        ensures { result ≡ why_of node self.now }
    {
        self.nodes.get(&node).copied()
    }

    /// One node more, unless it is there.
    fn add(&mut self, node: NodeName, why: Why) -> Result<(), AllocError>
        ensures { OnOk result (self.new ≡ found_more node why self.old) }
    {
        if self.has(node) {
            return Ok(());
        }
        self.nodes.reserve(1)?;
        self.nodes.insert(node, why).unwrap();
        Ok(())
    }

    /// What the rights of these tasks show.
    fn add_tasks<S: Server>(
        &mut self,
        nodes: &Nodes<S>,
        ports: &Ports,
        tasks: &[TaskId],
    ) -> Result<(), AllocError>
        ensures { OnOk result (self.new ≡ gathered (flat_map (λ (t : TaskId). of_task (shown S.meaning nodes.now) (slice_get ports.now.state.tasks t.0)) tasks.now) self.old) }
    {
        for task in tasks {
            self.add_task(nodes, ports, *task)?;
        }
        Ok(())
    }

    /// What the rights of a task show, if it is there.
    fn add_task<S: Server>(
        &mut self,
        nodes: &Nodes<S>,
        ports: &Ports,
        task: TaskId,
    ) -> Result<(), AllocError>
        ensures { OnOk result (self.new ≡ gathered (of_task (shown S.meaning nodes.now) (slice_get ports.now.state.tasks task.0)) self.old) }
    {
        match ports.seat(task) {
            Some(seat) => self.add_seat(nodes, seat),
            None => Ok(()),
        }
    }

    /// What the rights of a row show: those of its ports, those that it was sent, and its pending start.
    fn add_seat<S: Server>(&mut self, nodes: &Nodes<S>, seat: &TaskSeat) -> Result<(), AllocError>
        ensures { OnOk result (self.new ≡ gathered (flat_map (of_right (shown S.meaning nodes.now)) (rights_of (seat_task seat.now))) self.old) }
    {
        self.add_start(nodes, &seat.pending)?;
        self.add_ports(nodes, &seat.ports)?;
        self.add_rights(nodes, &seat.inbox)
    }

    /// The node on which a translator is to be started, if one is.
    fn add_start<S: Server>(
        &mut self,
        _nodes: &Nodes<S>,
        pending: &Option<PendingStart>,
    ) -> Result<(), AllocError>
        ensures { OnOk result (self.new ≡ gathered (flat_map (of_right (shown S.meaning _nodes.now)) (start_of pending.now)) self.old) }
    {
        match pending {
            Some(start) => self.add(start.node, Why::Pending),
            None => Ok(()),
        }
    }

    /// What the rights of these ports show.
    fn add_ports<S: Server>(&mut self, nodes: &Nodes<S>, ports: &[Port]) -> Result<(), AllocError>
        ensures { OnOk result (self.new ≡ gathered (flat_map (λ (p : Port). of_right (shown S.meaning nodes.now) p.right) ports.now) self.old) }
    {
        for port in ports {
            self.add_right(nodes, &port.right)?;
        }
        Ok(())
    }

    /// What these rights show.
    fn add_rights<S: Server>(
        &mut self,
        nodes: &Nodes<S>,
        rights: &[Right],
    ) -> Result<(), AllocError>
        ensures { OnOk result (self.new ≡ gathered (flat_map (of_right (shown S.meaning nodes.now)) rights.now) self.old) }
    {
        for right in rights {
            self.add_right(nodes, right)?;
        }
        Ok(())
    }

    /// What a right shows.
    fn add_right<S: Server>(&mut self, nodes: &Nodes<S>, right: &Right) -> Result<(), AllocError>
        ensures { OnOk result (self.new ≡ gathered (of_right (shown S.meaning nodes.now) right.now) self.old) }
    {
        match right {
            Right::Io(right) => {
                self.add(right.node, Why::Held)?;
                self.add_ways(right.parents.as_slice())
            }
            Right::Control(server) => self.add_controlled(nodes, *server),
            Right::Start(node) => self.add(*node, Why::Pending),
        }
    }

    /// Both nodes of each of these ways.
    fn add_ways(&mut self, ways: &[Parent]) -> Result<(), AllocError>
        ensures { OnOk result (self.new ≡ gathered (flat_map of_way ways.now) self.old) }
    {
        for way in ways {
            self.add_way(*way)?;
        }
        Ok(())
    }

    /// Both nodes of a way.
    fn add_way(&mut self, way: Parent) -> Result<(), AllocError>
        ensures { OnOk result (self.new ≡ gathered (of_way way) self.old) }
    {
        self.add(way.at, Why::Way)?;
        self.add(way.parent, Why::Way)
    }

    /// The root of a server that is controlled, if the server is there.
    fn add_controlled<S: Server>(
        &mut self,
        nodes: &Nodes<S>,
        server: ServerName,
    ) -> Result<(), AllocError>
        ensures { OnOk result (self.new ≡ gathered (with_why (root_of (shown S.meaning nodes.now) server) Why.Controlled) self.old) }
    {
        match nodes.root_of(server) {
            Some(root) => self.add(root, Why::Controlled),
            None => Ok(()),
        }
    }

    /// Follows each node to its entries and the root of its active server, and these in turn, until all are there.
    fn follow_plain<S: Server>(
        &mut self,
        alloc: Global,
        nodes: &Nodes<S>,
        reach: &Reach,
    ) -> Result<(), AllocError>
        ensures { OnOk result (AllThatFollows (of_plain (shown S.meaning nodes.now) reach.now) self.old self.new) }
    {
        let mut index = 0;
        while let Some(node) = self.node_at(index) {
            self.add_plain(alloc, nodes, reach, node)?;
            index += 1;
        }
        Ok(())
    }

    /// Follows each node to all that it shows, and these in turn, until all are there.
    /// The entries and active servers of the first nodes, so many, are there already.
    fn follow<S: Server>(
        &mut self,
        alloc: Global,
        nodes: &Nodes<S>,
        reach: &Reach,
        plain: usize,
    ) -> Result<(), AllocError>
        requires so_many { plain ≤ length self.now }
        requires there { self.now ≡ gathered (of_nodes (of_plain (shown S.meaning nodes.now) reach.now) (take plain self.now)) self.now }
        ensures { OnOk result (AllThatFollows (of_node (shown S.meaning nodes.now) reach.now) self.old self.new) }
    {
        let mut index = 0;
        while let Some(node) = self.node_at(index) {
            self.add_shown(alloc, nodes, reach, node, index < plain)?;
            index += 1;
        }
        Ok(())
    }

    /// What a node shows, or only the rest of it, where its entries and its active server were followed.
    fn add_shown<S: Server>(
        &mut self,
        alloc: Global,
        nodes: &Nodes<S>,
        reach: &Reach,
        node: NodeName,
        followed: bool,
    ) -> Result<(), AllocError>
        ensures { OnOk result (self.new ≡ gathered (if followed then of_rest (shown S.meaning nodes.now) reach.now node else of_node (shown S.meaning nodes.now) reach.now node) self.old) }
    {
        if followed {
            self.add_rest(nodes, reach, node)
        } else {
            self.add_neighbours(alloc, nodes, reach, node)
        }
    }

    /// The entries of a node, and the root of the server that is active on it.
    fn add_plain<S: Server>(
        &mut self,
        alloc: Global,
        nodes: &Nodes<S>,
        reach: &Reach,
        node: NodeName,
    ) -> Result<(), AllocError>
        ensures { OnOk result (self.new ≡ gathered (of_plain (shown S.meaning nodes.now) reach.now node) self.old) }
    {
        self.add_below(alloc, nodes, reach, node)?;
        self.add_active(nodes, node)
    }

    /// What a node shows beside these.
    fn add_rest<S: Server>(
        &mut self,
        nodes: &Nodes<S>,
        reach: &Reach,
        node: NodeName,
    ) -> Result<(), AllocError>
        ensures { OnOk result (self.new ≡ gathered (of_rest (shown S.meaning nodes.now) reach.now node) self.old) }
    {
        self.add_parent(nodes, node)?;
        self.add_server(nodes, reach, node)?;
        self.add_targets(nodes, node)
    }

    /// What a node shows.
    fn add_neighbours<S: Server>(
        &mut self,
        alloc: Global,
        nodes: &Nodes<S>,
        reach: &Reach,
        node: NodeName,
    ) -> Result<(), AllocError>
        ensures { OnOk result (self.new ≡ gathered (of_node (shown S.meaning nodes.now) reach.now node) self.old) }
    {
        self.add_below(alloc, nodes, reach, node)?;
        self.add_parent(nodes, node)?;
        self.add_active(nodes, node)?;
        self.add_server(nodes, reach, node)?;
        self.add_targets(nodes, node)
    }

    /// What the entries of a directory name that could be searched.
    fn add_below<S: Server>(
        &mut self,
        alloc: Global,
        nodes: &Nodes<S>,
        reach: &Reach,
        dir: NodeName,
    ) -> Result<(), AllocError>
        ensures { OnOk result (self.new ≡ gathered (of_children (shown S.meaning nodes.now) reach.now dir) self.old) }
    {
        if !could_search(nodes, reach, dir) {
            return Ok(());
        }
        match nodes.names(alloc, dir) {
            Ok(names) => self.add_entries(nodes, dir, &names),
            Err(errno) => unless_memory(errno),
        }
    }

    /// What the entries of these names name in a directory.
    fn add_entries<S: Server>(
        &mut self,
        nodes: &Nodes<S>,
        dir: NodeName,
        names: &Names,
    ) -> Result<(), AllocError>
        ensures { OnOk result (self.new ≡ gathered (flat_map (of_entry dir (body_of (shown S.meaning nodes.now).nodes dir)) names.now) self.old) }
    {
        for name in names.as_slice() {
            self.add_entry(nodes, dir, name.as_slice())?;
        }
        Ok(())
    }

    /// What an entry names in a directory, if it is there.
    fn add_entry<S: Server>(
        &mut self,
        nodes: &Nodes<S>,
        dir: NodeName,
        name: &[u8],
    ) -> Result<(), AllocError>
        ensures { OnOk result (self.new ≡ gathered (of_entry dir (body_of (shown S.meaning nodes.now).nodes dir) name.now) self.old) }
    {
        match nodes.step(dir, name) {
            Some(node) => self.add(node, Why::Child(dir)),
            None => Ok(()),
        }
    }

    /// The parent of a directory that has one.
    fn add_parent<S: Server>(&mut self, nodes: &Nodes<S>, dir: NodeName) -> Result<(), AllocError>
        ensures { OnOk result (self.new ≡ gathered (of_parent (shown S.meaning nodes.now) dir) self.old) }
    {
        match parent_of(nodes, dir) {
            Some(parent) => self.add(parent, Why::Parent(dir)),
            None => Ok(()),
        }
    }

    /// The root of the server that is active on a node.
    fn add_active<S: Server>(&mut self, nodes: &Nodes<S>, node: NodeName) -> Result<(), AllocError>
        ensures { OnOk result (self.new ≡ gathered (of_active (shown S.meaning nodes.now) node) self.old) }
    {
        let Some(server) = nodes.active(node) else {
            return Ok(());
        };
        match nodes.root_of(server) {
            Some(root) => self.add(root, Why::Active(node)),
            None => Ok(()),
        }
    }

    /// The root of a node's server that could be served.
    fn add_server<S: Server>(
        &mut self,
        nodes: &Nodes<S>,
        reach: &Reach,
        node: NodeName,
    ) -> Result<(), AllocError>
        ensures { OnOk result (self.new ≡ gathered (of_server (shown S.meaning nodes.now) reach.now node) self.old) }
    {
        match served_root(nodes, reach, node) {
            Some(root) => self.add(root, Why::ServerRoot(node)),
            None => Ok(()),
        }
    }

    /// The targets of a node's server, and of the one that is active on it.
    fn add_targets<S: Server>(&mut self, nodes: &Nodes<S>, node: NodeName) -> Result<(), AllocError>
        ensures { OnOk result (self.new ≡ gathered (of_targets (shown S.meaning nodes.now) node) self.old) }
    {
        self.add_aims(nodes, node, nodes.home(node))?;
        self.add_aims(nodes, node, nodes.active(node))
    }

    /// The targets of a server of a node, if there is one.
    fn add_aims<S: Server>(
        &mut self,
        nodes: &Nodes<S>,
        node: NodeName,
        server: Option<ServerName>,
    ) -> Result<(), AllocError>
        ensures { OnOk result (self.new ≡ gathered (flat_map (of_target node) (targets_of (shown S.meaning nodes.now) server)) self.old) }
    {
        let Some(server) = server else {
            return Ok(());
        };
        match nodes.targets_of(server) {
            Some(targets) => self.add_each(targets, node),
            None => Ok(()),
        }
    }

    /// Each of these, as a target of a server of a node.
    fn add_each(&mut self, targets: &[NodeName], node: NodeName) -> Result<(), AllocError>
        ensures { OnOk result (self.new ≡ gathered (flat_map (of_target node) targets.now) self.old) }
    {
        for target in targets {
            self.add(*target, Why::Target(node))?;
        }
        Ok(())
    }
}

/// Whether a node is a directory that could be searched with some of these ids.
fn could_search<S: Server>(nodes: &Nodes<S>, reach: &Reach, node: NodeName) -> bool
    ensures { result ≡ searched_by reach.now (header_of (shown S.meaning nodes.now).nodes node) }
{
    match nodes.attrs(node) {
        Some(attrs) => is_dir(attrs.kind) && reach.could(&attrs, Want::Exec),
        None => false,
    }
}

/// ENOMEM, where an error is that.
fn unless_memory(errno: Errno) -> Result<(), AllocError>
    ensures { OnOk result (is_no_memory errno ≡ false) }
{
    match errno {
        Errno::ENOMEM => Err(AllocError),
        _ => Ok(()),
    }
}

/// The parent of a directory that has one.
fn parent_of<S: Server>(nodes: &Nodes<S>, node: NodeName) -> Option<NodeName>
    ensures { result ≡ parent_in (header_of (shown S.meaning nodes.now).nodes node) }
{
    match nodes.attrs(node) {
        Some(attrs) => attrs.parent,
        None => None,
    }
}

/// The root of a node's server, if that is there, and could be served with one of these uids.
fn served_root<S: Server>(nodes: &Nodes<S>, reach: &Reach, node: NodeName) -> Option<NodeName>
    ensures { result ≡ option_and_then (served_root (shown S.meaning nodes.now) reach.now) (home_in (shown S.meaning nodes.now).sites node) }
{
    let server = nodes.home(node)?;
    let ids = nodes.ids_of(server)?;
    if reach.could_serve(ids) {
        nodes.root_of(server)
    } else {
        None
    }
}

/// A law: what is found from the rights of some tasks, with the ids that they reach, is what the set of these tasks sees; and it is found in
/// one way. What entries and active servers alone lead to from the root is found by these.
pub fn found_is_seen()
    ensures seen { FoundIsSeen }
    ensures plain { PlainIsFirst }
    ensures one { FoundIsOne }
{}
