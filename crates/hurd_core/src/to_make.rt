//! Nodes and servers that are to be made.
ghost use Rattle.std.specs.Prelude.{◌≡◌, ◌<◌};
ghost use Rattle.hurd_core.specs.Core.{asked_node, placed};
ghost use Rattle.hurd_core.specs.ToMake.{new_node_of};

use hurd_creds::{Kind, Mode, Name, NodeName, ServerName};
use hurd_nodes::Place;
use hurd_trans_iface::NewNode;

/// A node that is to be made: in which directory, under which name, if an entry is to name it, and whose it is.
#[derive(Clone, Copy, Debug)]
pub struct NodeToMake<'a> {
    pub dir: NodeName,
    pub entry: Option<&'a [u8]>,
    pub owner: u32,
    pub group: u32,
    pub mode: Mode,
}

impl NodeToMake<'_> {
    /// The node as its server is asked for it, under this name of the node.
    pub(crate) fn node(&self, kind: Kind, name: NodeName) -> NewNode
        ensures { result ≡ asked_node kind (new_node_of self.now) name }
    {
        NewNode {
            name,
            kind,
            owner: self.owner,
            group: self.group,
            mode: self.mode,
        }
    }
}

/// A server that is to be made: on which node it is to be active, whose its root is, which server leaves for it, and whether the task was to
/// start it.
#[derive(Clone, Copy, Debug)]
pub struct ServerToMake {
    pub seat: NodeName,
    pub owner: u32,
    pub group: u32,
    pub mode: Mode,
    pub instead: Option<ServerName>,
    pub starts: bool,
}

impl ServerToMake {
    /// Where it is to stand under this name: its root has the name after it.
    pub(crate) fn place(&self, name: Name) -> Place
        requires { name.count < u64.MAX }
        ensures { result ≡ placed self.now name }
    {
        let ServerToMake {
            seat,
            owner,
            group,
            mode,
            ..
        } = *self;
        Place {
            name,
            seat,
            root: Name {
                task: name.task,
                count: name.count + 1,
            },
            owner,
            group,
            mode,
        }
    }
}
