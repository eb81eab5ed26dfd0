//! A node on the way, with what it is.
ghost use Rattle.std.specs.Prelude.{◌≡◌};
ghost use Rattle.std.specs.Option.{option_map};
ghost use Rattle.hurd_machine.specs.World.{active_at};
ghost use Rattle.hurd_core.specs.Core.{world_of};
ghost use Rattle.hurd_lookup.specs.Ends.{IsHere, tells_words};

use hurd_core::Core;
use hurd_creds::{Attrs, NodeName, ServerName};
use hurd_trans_iface::Server;

/// A node, with its attributes if it is there: it is asked for them once, however often a lookup goes by them.
#[derive(Clone, Copy, Debug)]
pub(crate) struct Here {
    pub(crate) node: NodeName,
    pub(crate) attrs: Option<Attrs>,
}

impl Here {
    /// The node of this name.
    #[inline(always)]
    pub(crate) fn at<S: Server>(core: &Core<S>, node: NodeName) -> Here
        ensures node { result.node ≡ node }
        ensures here { IsHere (world_of S.meaning core.now) result }
    {
        Here {
            node,
            attrs: core.attrs(node),
        }
    }

    /// The node of this name, and the server that is active there, if one is.
    #[inline(always)]
    pub(crate) fn met<S: Server>(core: &Core<S>, node: NodeName) -> (Option<ServerName>, Here)
        ensures active { result.0 ≡ active_at (world_of S.meaning core.now) node }
        ensures node { result.1.node ≡ node }
        ensures here { IsHere (world_of S.meaning core.now) result.1 }
    {
        let (active, attrs) = core.met(node);
        (active, Here { node, attrs })
    }

    /// Whether a translator waits there: words are stored with the node.
    #[inline(always)]
    pub(crate) fn has_words(self) -> bool
        ensures { result ≡ tells_words self.attrs }
    {
        match self.attrs {
            Some(attrs) => attrs.passive,
            None => false,
        }
    }
}
