//! Parts that go with entries of directories.
ghost use Rattle.std.specs.Prelude.{◌⊎◌};
ghost use Rattle.hurd_machine.specs.Touched.{OnNode};
ghost use Rattle.hurd_core.specs.Core.{world_of};
ghost use Rattle.hurd_touches.specs.Touched.{Adds, AreItsEntries, OnLinked, OnPort, OnTaken};

use crate::noted::Noted;
use hurd_core::Core;
use hurd_creds::{Bytes, NodeName, TaskId};
use hurd_sight::SeenPart;
use hurd_trans_iface::Server;

impl Noted {
    /// The entries of a port's directory, and whether it is empty.
    pub(crate) fn add_entries<S: Server>(&mut self, core: &Core<S>, task: TaskId, port: u64)
        ensures { Adds (OnPort (world_of S.meaning core.now) task.0 port AreItsEntries) self.old self.new }
    {
        if let Ok(right) = core.io_right(task, port) {
            self.add(SeenPart::Body(right.node));
            self.add(SeenPart::Empty(right.node));
        }
    }

    /// The users of the server of a port's directory.
    pub(crate) fn add_made<S: Server>(&mut self, core: &Core<S>, task: TaskId, port: u64)
        ensures { let w = world_of S.meaning core.now in Adds (OnPort w task.0 port (λ r. OnNode w r.node)) self.old self.new }
    {
        if let Ok(right) = core.io_right(task, port) {
            self.add_users(core, right.node);
        }
    }

    /// The links of a node, and with them what all files have in all.
    fn add_links<S: Server>(&mut self, core: &Core<S>, node: NodeName)
        ensures { Adds (OnLinked (world_of S.meaning core.now) node) self.old self.new }
    {
        self.add(SeenPart::Attributes(node));
        self.add_total(core, node);
    }

    /// The links of a port's node.
    pub(crate) fn add_linked<S: Server>(&mut self, core: &Core<S>, task: TaskId, port: u64)
        ensures { let w = world_of S.meaning core.now in Adds (OnPort w task.0 port (λ r. OnLinked w r.node)) self.old self.new }
    {
        if let Ok(right) = core.io_right(task, port) {
            self.add_links(core, right.node);
        }
    }

    /// The entries of a port's directory, and the links of what has a name there.
    pub(crate) fn add_taken<S: Server>(
        &mut self,
        core: &Core<S>,
        task: TaskId,
        port: u64,
        name: &Bytes,
    )
        ensures { let w = world_of S.meaning core.now in Adds (OnPort w task.0 port (λ r. OnTaken w r.node name.now)) self.old self.new }
    {
        let Ok(right) = core.io_right(task, port) else {
            return;
        };
        self.add(SeenPart::Body(right.node));
        self.add(SeenPart::Empty(right.node));
        if let Some(node) = core.step(right.node, name.as_slice()) {
            self.add_links(core, node);
        }
    }

    /// What another name for a port's node, in a port's directory, touches.
    pub(crate) fn add_named<S: Server>(&mut self, core: &Core<S>, task: TaskId, dir: u64, file: u64)
        ensures { let w = world_of S.meaning core.now in
            Adds (λ k. OnPort w task.0 dir AreItsEntries k ⊎ OnPort w task.0 file (λ r. OnLinked w r.node) k) self.old self.new }
    {
        self.add_entries(core, task, dir);
        self.add_linked(core, task, file);
    }

    /// What an entry touches that goes from a port's directory to another.
    pub(crate) fn add_renamed<S: Server>(
        &mut self,
        core: &Core<S>,
        task: TaskId,
        dir: u64,
        name: &Bytes,
        to: u64,
        new: &Bytes,
    )
        ensures { let w = world_of S.meaning core.now in
            Adds (λ k. OnPort w task.0 dir (λ r. OnTaken w r.node name.now) k ⊎ OnPort w task.0 to (λ r. OnTaken w r.node new.now) k) self.old self.new }
    {
        self.add_taken(core, task, dir, name);
        self.add_taken(core, task, to, new);
    }
}
