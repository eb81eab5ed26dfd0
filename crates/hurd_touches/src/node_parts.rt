//! Parts that go with nodes and with rights on them.
ghost use Rattle.hurd_machine.specs.Touched.{OnDrop, OnNode, OnOpen, OnRight, OnTotal};
ghost use Rattle.hurd_ports.specs.declared.table.Right.TheVariants.{Io};
ghost use Rattle.hurd_core.specs.Core.{world_of};
ghost use Rattle.hurd_lookup.specs.Touching.{TouchedBy};
ghost use Rattle.hurd_touches.specs.Touched.{Adds, OnBytes};

use crate::noted::Noted;
use hurd_core::Core;
use hurd_creds::NodeName;
use hurd_lookup::touches::Touching;
use hurd_ports::{IoRight, Right};
use hurd_sight::SeenPart;
use hurd_trans_iface::Server;

impl Noted {
    /// The users of a node's server.
    pub(crate) fn add_users<S: Server>(&mut self, core: &Core<S>, node: NodeName)
        ensures { Adds (OnNode (world_of S.meaning core.now) node) self.old self.new }
    {
        if let Some(server) = core.home(node) {
            self.add(SeenPart::Users(server));
        }
    }

    /// What a port more on a node touches, or one less.
    pub(crate) fn add_opening<S: Server>(&mut self, core: &Core<S>, node: NodeName)
        ensures { Adds (OnOpen (world_of S.meaning core.now) node) self.old self.new }
    {
        self.add_users(core, node);
        self.add(SeenPart::Ends(node));
    }

    /// What a right to use a node touches that comes or goes: its open, and the users of its node's server.
    pub(crate) fn add_held<S: Server>(&mut self, core: &Core<S>, right: &IoRight)
        ensures { Adds (OnRight (world_of S.meaning core.now) (Io right.now)) self.old self.new }
    {
        self.add(SeenPart::Open(right.open_name));
        self.add_users(core, right.node);
    }

    /// What a right touches that comes.
    pub(crate) fn add_right<S: Server>(&mut self, core: &Core<S>, right: &Right)
        ensures { Adds (OnRight (world_of S.meaning core.now) right.now) self.old self.new }
    {
        if let Right::Io(right) = right {
            self.add_held(core, right);
        }
    }

    /// What a right touches that goes, and with it maybe its open.
    pub(crate) fn add_dropped<S: Server>(&mut self, core: &Core<S>, right: &Right)
        ensures { Adds (OnDrop (world_of S.meaning core.now) right.now) self.old self.new }
    {
        if let Right::Io(right) = right {
            self.add_held(core, right);
            self.add(SeenPart::Ends(right.node));
        }
    }

    /// What all files of a node's server have in all, where that keeps a tree.
    pub(crate) fn add_total<S: Server>(&mut self, core: &Core<S>, node: NodeName)
        ensures { Adds (OnTotal (world_of S.meaning core.now) node) self.old self.new }
    {
        if let Some(server) = core.home(node) {
            self.add(SeenPart::Total(server));
        }
    }

    /// All that its server may do to a node: to its bytes, its size, and what all files have in all.
    pub(crate) fn add_bytes<S: Server>(&mut self, core: &Core<S>, node: NodeName)
        ensures { Adds (OnBytes (world_of S.meaning core.now) node) self.old self.new }
    {
        self.add(SeenPart::Body(node));
        self.add(SeenPart::Attributes(node));
        self.add_total(core, node);
    }

    /// What a lookup touches.
    pub(crate) fn add_looked_up<S: Server>(&mut self, core: &Core<S>, touching: Touching)
        ensures { Adds (TouchedBy (world_of S.meaning core.now) touching) self.old self.new }
    {
        match touching {
            Touching::Nothing => {}
            Touching::Opens(node) => self.add_opening(core, node),
            Touching::Makes(dir) => {
                self.add_users(core, dir);
                self.add(SeenPart::Body(dir));
                self.add(SeenPart::Empty(dir));
            }
        }
    }
}
