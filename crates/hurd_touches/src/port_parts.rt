//! Parts that go with what a port of a task names.
ghost use Rattle.std.specs.Prelude.{◌≡◌, ◌⊎◌};
ghost use Rattle.hurd_machine.specs.Sight.{TaskOf};
ghost use Rattle.hurd_machine.specs.Touched.{OnDrop, OnRight};
ghost use Rattle.hurd_ports.specs.declared.table.Right.TheVariants.{Io};
ghost use Rattle.hurd_core.specs.Core.{world_of};
ghost use Rattle.hurd_touches.specs.Touched.{Adds, IsItsNode, IsItsOpen, OnBytes, OnItsRight, OnPort, OnRead, OnStart, OnWrite};

use crate::noted::Noted;
use hurd_core::Core;
use hurd_creds::TaskId;
use hurd_sight::SeenPart;
use hurd_trans_iface::Server;

impl Noted {
    /// What giving a port up touches.
    pub(crate) fn add_deallocated<S: Server>(&mut self, core: &Core<S>, task: TaskId, port: u64)
        ensures { let w = world_of S.meaning core.now in Adds (OnItsRight w task.0 port (OnDrop w)) self.old self.new }
    {
        if let Ok(right) = core.ports().right(task, port) {
            self.add_dropped(core, right);
        }
    }

    /// What sending a port's right to a task touches.
    pub(crate) fn add_sent<S: Server>(
        &mut self,
        core: &Core<S>,
        task: TaskId,
        port: u64,
        to: TaskId,
    )
        ensures { let w = world_of S.meaning core.now in Adds (OnItsRight w task.0 port (λ r k. OnRight w r k ⊎ (k ≡ TaskOf to.0))) self.old self.new }
    {
        if let Ok(right) = core.ports().right(task, port) {
            self.add_right(core, right);
            self.add(SeenPart::Task(to));
        }
    }

    /// What one right more like a port's touches.
    pub(crate) fn add_shared<S: Server>(&mut self, core: &Core<S>, task: TaskId, port: u64)
        ensures { let w = world_of S.meaning core.now in Adds (OnPort w task.0 port (λ r. OnRight w (Io r))) self.old self.new }
    {
        if let Ok(right) = core.io_right(task, port) {
            self.add_held(core, right);
        }
    }

    /// The open of a port.
    pub(crate) fn add_open<S: Server>(&mut self, core: &Core<S>, task: TaskId, port: u64)
        ensures { Adds (OnPort (world_of S.meaning core.now) task.0 port IsItsOpen) self.old self.new }
    {
        if let Ok(right) = core.io_right(task, port) {
            self.add(SeenPart::Open(right.open_name));
        }
    }

    /// The attributes of a port's node.
    pub(crate) fn add_attributes<S: Server>(&mut self, core: &Core<S>, task: TaskId, port: u64)
        ensures { Adds (OnPort (world_of S.meaning core.now) task.0 port IsItsNode) self.old self.new }
    {
        if let Ok(right) = core.io_right(task, port) {
            self.add(SeenPart::Attributes(right.node));
        }
    }

    /// What a write to a port's node touches.
    pub(crate) fn add_written<S: Server>(&mut self, core: &Core<S>, task: TaskId, port: u64)
        ensures { let w = world_of S.meaning core.now in Adds (OnPort w task.0 port (OnWrite w)) self.old self.new }
    {
        if let Ok(right) = core.io_right(task, port) {
            self.add(SeenPart::Open(right.open_name));
            self.add_bytes(core, right.node);
        }
    }

    /// What another size of a port's node touches.
    pub(crate) fn add_resized<S: Server>(&mut self, core: &Core<S>, task: TaskId, port: u64)
        ensures { let w = world_of S.meaning core.now in Adds (OnPort w task.0 port (λ r. OnBytes w r.node)) self.old self.new }
    {
        if let Ok(right) = core.io_right(task, port) {
            self.add_bytes(core, right.node);
        }
    }

    /// What a read of a port's node touches: the bytes only of a stream.
    pub(crate) fn add_read<S: Server>(&mut self, core: &Core<S>, task: TaskId, port: u64)
        ensures { let w = world_of S.meaning core.now in Adds (OnPort w task.0 port (OnRead w)) self.old self.new }
    {
        let Ok(right) = core.io_right(task, port) else {
            return;
        };
        self.add(SeenPart::Open(right.open_name));
        if core.is_stream(right.node) {
            self.add_bytes(core, right.node);
        }
    }

    /// The attributes of the node on which a task is to start a translator.
    pub(crate) fn add_started<S: Server>(&mut self, core: &Core<S>, task: TaskId)
        ensures { Adds (OnStart (world_of S.meaning core.now) task.0) self.old self.new }
    {
        if let Some(start) = core.pending(task) {
            self.add(SeenPart::Attributes(start.node));
        }
    }
}
