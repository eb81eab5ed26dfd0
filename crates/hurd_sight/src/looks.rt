//! All that says which parts of a world a set of tasks sees.
ghost use Rattle.std.specs.Prelude.{◌≡◌, ◌||◌, ◌&&◌, Some, IfOk};
ghost use Rattle.hurd_trans_iface.specs.Nodes.{Header, is_dir};
ghost use Rattle.hurd_nodes.specs.Shown.{header_in, shown, told_header};
ghost use Rattle.hurd_machine.specs.World.{world_from};
ghost use Rattle.hurd_trans_iface.specs.Texts.{goes_on, is_file, reads_text};
ghost use Rattle.hurd_sight.specs.Parts.{is_in};
ghost use Rattle.hurd_sight.specs.Looks.{Gathered, Looks, PartsAreSeen, puts_with, reads_with, sees_with, shows_root, shows_total, tells_text, writes_at};
ghost use Rattle.hurd_sight.specs.Reach.{among};
ghost use Rattle.hurd_sight.specs.declared.parts.SeenPart.TheVariants as seen;

use crate::found::Found;
use crate::held::RightNames;
use crate::names::NameSet;
use crate::near::Near;
use crate::parts::SeenPart;
use crate::reach::Reach;
use hurd_creds::{Attrs, Kind, NodeName, ServerName, TaskId, Want};
use hurd_nodes::{BOOT_NAME, Nodes};
use hurd_ports::Ports;
use hurd_trans_iface::{Crossing, Root, Server, is_dir};
use std::alloc::{AllocError, Global};

/// What a set of tasks sees of a world, as it was when it was looked at.
#[derive(Drop)]
pub struct Sight {
    tasks: Vec<TaskId>,
    reach: Reach,
    found: Found,
    rights: RightNames,
    /// The servers of seen nodes, and those that are active on them.
    known: NameSet,
    /// Those of them that may be sent away by what is seen.
    sendable: NameSet,
}

impl Sight {
    /// What these tasks see of the world that these nodes and ports are.
    pub fn of<S: Server>(
        alloc: Global,
        nodes: &Nodes<S>,
        ports: &Ports,
        tasks: &[TaskId],
    ) -> Result<Sight, AllocError>
        ensures looks { IfOk result (λ sight. Looks (among tasks.now) (world_from (shown S.meaning nodes.now) ports.now.state) sight) }
        ensures gathered { IfOk result (λ sight. (sight.tasks.items ≡ tasks.now) × Gathered (world_from (shown S.meaning nodes.now) ports.now.state) sight) }
    {
        let rights = RightNames::of(alloc, ports, tasks)?;
        let own_tasks = Vec::from_slice(alloc, tasks)?;
        let near = Near::of(alloc, nodes, ports, tasks)?;
        Ok(Sight {
            tasks: own_tasks,
            reach: near.reach,
            found: near.found,
            rights,
            known: near.known,
            sendable: near.sendable,
        })
    }

    /// The tasks of the set.
    pub fn tasks(&self) -> &[TaskId]
        ensures { result.now ≡ self.now.tasks.items }
    {
        self.tasks.as_slice()
    }

    /// The nodes that are seen, each with why.
    pub fn nodes(&self) -> &Found
        ensures { result.now ≡ self.now.found }
    {
        &self.found
    }

    /// The opens that the tasks' rights have.
    pub fn opens(&self) -> &NameSet
        ensures { result.now ≡ self.now.rights.opens }
    {
        &self.rights.opens
    }

    /// The servers that the tasks' rights control.
    pub fn controlled(&self) -> &NameSet
        ensures { result.now ≡ self.now.rights.controlled }
    {
        &self.rights.controlled
    }

    /// The servers of seen nodes, and those that are active on them.
    pub fn known(&self) -> &NameSet
        ensures { result.now ≡ self.now.known }
    {
        &self.known
    }

    /// Whether a part is seen of the nodes that were looked at.
    pub fn sees<S: Server>(&self, nodes: &Nodes<S>, part: SeenPart) -> bool
        ensures { result ≡ sees_with (shown S.meaning nodes.now) self.now part }
    {
        match part {
            SeenPart::Attributes(node) => self.found.has(node),
            SeenPart::Empty(node) => self.sees_empty(nodes, node),
            SeenPart::Body(node) => self.sees_body(nodes, node),
            SeenPart::Ends(node) => nodes.counts(node) && self.sees_body(nodes, node),
            SeenPart::Open(open_name) => self.rights.opens.has(open_name),
            SeenPart::Options(server) => self.knows(server),
            SeenPart::Text(server) => self.sees_text(nodes, server),
            SeenPart::Users(server) => self.may_send(nodes, server),
            SeenPart::Total(server) => self.knows(server) && self.sees_total(nodes, server),
            SeenPart::Task(task) => self.has_task(task),
        }
    }

    /// Whether a node's bytes or entries are seen.
    fn sees_body<S: Server>(&self, nodes: &Nodes<S>, node: NodeName) -> bool
        ensures { result ≡ sees_with (shown S.meaning nodes.now) self.now (seen.Body node) }
    {
        if !self.found.has(node) {
            return false;
        }
        match nodes.attrs(node) {
            Some(attrs) => self.reads(nodes, node, &attrs),
            None => false,
        }
    }

    /// Whether it is seen if a directory is empty.
    fn sees_empty<S: Server>(&self, nodes: &Nodes<S>, node: NodeName) -> bool
        ensures { result ≡ sees_with (shown S.meaning nodes.now) self.now (seen.Empty node) }
    {
        if !self.found.has(node) {
            return false;
        }
        match nodes.attrs(node) {
            Some(attrs) => is_dir(attrs.kind) && self.tells_empty(nodes, node, &attrs),
            None => false,
        }
    }

    /// Whether a directory's entries are seen, or its parent could be written.
    fn tells_empty<S: Server>(&self, nodes: &Nodes<S>, node: NodeName, attrs: &Attrs) -> bool
        ensures { (x : Header) → header_in attrs.now ≡ told_header x → result ≡ (reads_with (shown S.meaning nodes.now) self.now node (Some x) || writes_at (shown S.meaning nodes.now) self.now.reach x.parent) }
    {
        self.reads(nodes, node, attrs) || self.writes(nodes, attrs.parent)
    }

    /// Whether a node of these attributes could be read, or searched if it is a directory, or is open to read; or its server is told who reads and who writes, and it
    /// could be written or is open to write.
    fn reads<S: Server>(&self, nodes: &Nodes<S>, node: NodeName, attrs: &Attrs) -> bool
        ensures { (x : Header) → header_in attrs.now ≡ told_header x → result ≡ reads_with (shown S.meaning nodes.now) self.now node (Some x) }
    {
        if self.reach.could(attrs, Want::Read) {
            return true;
        }
        if is_dir(attrs.kind) && self.reach.could(attrs, Want::Exec) {
            return true;
        }
        if self.rights.readable.has(node) {
            return true;
        }
        nodes.counts(node) && self.puts(node, attrs)
    }

    /// Whether a node of these attributes could be written, or is open to write.
    fn puts(&self, node: NodeName, attrs: &Attrs) -> bool
        ensures { (x : Header) → header_in attrs.now ≡ told_header x → result ≡ puts_with self.now node x }
    {
        self.reach.could(attrs, Want::Write) || self.rights.writable.has(node)
    }

    /// Whether a node could be written, if there is one.
    fn writes<S: Server>(&self, nodes: &Nodes<S>, node: Option<NodeName>) -> bool
        ensures { result ≡ writes_at (shown S.meaning nodes.now) self.now.reach node }
    {
        match node {
            Some(node) => could_write(nodes, &self.reach, node),
            None => false,
        }
    }

    /// Whether a server is known: by a node, or by a right to control it.
    fn knows(&self, server: ServerName) -> bool
        ensures { result ≡ (is_in server self.now.known || is_in server self.now.rights.controlled) }
    {
        self.known.has(server) || self.rights.controlled.has(server)
    }

    /// Whether the text of a server is seen: it may be sent away, or reading its root gives it.
    fn sees_text<S: Server>(&self, nodes: &Nodes<S>, server: ServerName) -> bool
        ensures { result ≡ sees_with (shown S.meaning nodes.now) self.now (seen.Text server) }
    {
        match nodes.root_of(server) {
            Some(root) => self.is_commanded(server) || self.sees_root(nodes, server, root),
            None => false,
        }
    }

    /// Whether a server may be sent away by what is seen of it.
    fn is_commanded(&self, server: ServerName) -> bool
        ensures { result ≡ (is_in server self.now.sendable || is_in server self.now.rights.controlled) }
    {
        self.sendable.has(server) || self.rights.controlled.has(server)
    }

    /// Whether a node is one of a server's, it is seen what is in it, and reading that gives the text.
    fn sees_root<S: Server>(&self, nodes: &Nodes<S>, server: ServerName, root: NodeName) -> bool
        ensures { result ≡ shows_root (shown S.meaning nodes.now) self.now server root }
    {
        match nodes.home(root) {
            Some(home) => {
                server == home && tells_text(nodes.root(root)) && self.sees_body(nodes, root)
            }
            None => false,
        }
    }

    /// Whether a server is there that may be sent away, which is not the boot server.
    fn may_send<S: Server>(&self, nodes: &Nodes<S>, server: ServerName) -> bool
        ensures { result ≡ sees_with (shown S.meaning nodes.now) self.now (seen.Users server) }
    {
        if server == BOOT_NAME {
            return false;
        }
        if nodes.root_of(server).is_none() {
            return false;
        }
        self.is_commanded(server)
    }

    /// Whether a server keeps a tree that has a limit, or that may be given one by what is seen of it.
    fn sees_total<S: Server>(&self, nodes: &Nodes<S>, server: ServerName) -> bool
        ensures { result ≡ shows_total (shown S.meaning nodes.now) self.now server }
    {
        nodes.total_of(server).is_some() && (nodes.has_limit(server) || self.is_commanded(server))
    }

    /// Whether a task is one of the set.
    fn has_task(&self, task: TaskId) -> bool
        ensures { result ≡ among self.now.tasks.items task.0 }
    {
        for own in &self.tasks {
            if own.0 == task.0 {
                return true;
            }
        }
        false
    }
}

/// Whether a node is there that could be written with some of these ids.
fn could_write<S: Server>(nodes: &Nodes<S>, reach: &Reach, node: NodeName) -> bool
    ensures { result ≡ writes_at (shown S.meaning nodes.now) reach.now (Some node) }
{
    match nodes.attrs(node) {
        Some(attrs) => reach.could(&attrs, Want::Write),
        None => false,
    }
}

/// A law: the parts that are told are those that the set of tasks sees, and no others.
pub fn parts_are_seen()
    ensures { PartsAreSeen }
{}

/// Whether it is a file.
fn is_file(kind: Kind) -> bool
    ensures { result ≡ is_file kind }
{
    matches!(kind, Kind::File)
}

/// Whether a lookup goes on at a root.
fn goes_on(crossing: Crossing) -> bool
    ensures { result ≡ goes_on crossing }
{
    matches!(crossing, Crossing::Plain)
}

/// Whether reading the root of a server gives its text.
fn reads_text(root: Root) -> bool
    ensures { result ≡ reads_text root }
{
    is_file(root.kind) && !root.is_stream && goes_on(root.crossing)
}

/// The same of a root that may not be there.
fn tells_text(root: Option<Root>) -> bool
    ensures { result ≡ tells_text root }
{
    match root {
        Some(root) => reads_text(root),
        None => false,
    }
}
