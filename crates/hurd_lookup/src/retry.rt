//! Names that are left to be looked up elsewhere.
ghost use Rattle.std.specs.Prelude.{◌≡◌, ◌<◌, length, IfOk, IfSome, Ok};
ghost use Rattle.hurd_creds.specs.Memory.{Meets};
ghost use Rattle.hurd_ports.specs.Limits.{most_parents};
ghost use Rattle.hurd_core.specs.Core.{world_of};
ghost use Rattle.hurd_lookup.specs.Ends.{authority_of, kind_of, link_of, name_of, port_by, ports_told, text_at, way_of};

use crate::authority::{Authority, NewPort};
use crate::rest::{onto, rest_of};
use hurd_core::Core;
use hurd_creds::{Bytes, Errno, NodeName};
use hurd_machine::RetryKind;
use hurd_ports::Parent;
use hurd_trans_iface::Server;
use std::alloc::{AllocError, Global};

/// Where a lookup goes on.
#[derive(Clone, Copy, Debug)]
pub(crate) enum Onward {
    /// In a server, entered by this way.
    Within(Parent),
    /// At the node at which a server aims, come to by this way.
    Aimed(Parent),
    /// In a branch of the union that the port came in by.
    Into(NodeName),
    /// At the node from which the server was entered that the port came in by.
    Back(NodeName),
    /// From the directory in which a link stands, along that, by its root.
    Beside(NodeName, NodeName),
    /// From the root of the tree, along a link, by its root.
    FromTop(NodeName),
}

/// A name that is left: where it is looked up, the names that follow in the path, and whether that ended with a slash.
#[derive(Clone, Copy, Debug)]
pub(crate) struct Retry<'a> {
    pub(crate) onward: Onward,
    pub(crate) rest: &'a [u8],
    pub(crate) slash: bool,
}

/// The text of the server of a node; none where it has no server.
pub(crate) fn text_at<S: Server>(core: &Core<S>, node: NodeName) -> &[u8]
    ensures { result.now ≡ text_at (world_of S.meaning core.entry.now) node }
{
    match core.text_at(node) {
        Some(text) => text,
        None => &[],
    }
}

impl Onward {
    /// How it goes on.
    pub(crate) fn kind(self) -> RetryKind
        ensures { result ≡ kind_of self }
    {
        match self {
            Onward::Within(_) => RetryKind::Normal,
            Onward::Aimed(_) | Onward::Into(_) | Onward::Back(_) | Onward::Beside(_, _) => {
                RetryKind::Reauth
            }
            Onward::FromTop(_) => RetryKind::Magical,
        }
    }

    /// The root of the link that it goes along, if it does.
    fn link(self) -> Option<NodeName>
        ensures { result ≡ link_of self }
    {
        match self {
            Onward::Beside(_, root) | Onward::FromTop(root) => Some(root),
            Onward::Within(_) | Onward::Aimed(_) | Onward::Into(_) | Onward::Back(_) => None,
        }
    }

    /// The port at which it goes on, if at one. A port has ids only within the server that was entered.
    ///
    /// `ENOMEM`.
    pub(crate) fn port(self, alloc: Global, authority: Authority) -> Result<Option<NewPort>, Errno>
        requires { IfSome (way_of self) (λ way. length (authority_of authority).ways < most_parents) }
        ensures { Meets (Ok (port_by (authority_of authority.entry) self)) (ports_told result) }
    {
        let ways = authority.ways;
        let port = match self {
            Onward::Within(way) => authority.port(alloc, way.at, Some(way))?,
            Onward::Aimed(way) => {
                NewPort::without_ids(alloc, way.at, authority.ways_by(alloc, Some(way))?)?
            }
            Onward::Into(node) => {
                NewPort::without_ids(alloc, node, authority.ways_into(alloc, node)?)?
            }
            Onward::Back(node) => NewPort::without_ids(alloc, node, ways.left(alloc)?)?,
            Onward::Beside(dir, _) => NewPort::without_ids(alloc, dir, ways.copied(alloc)?)?,
            Onward::FromTop(_) => return Ok(None),
        };
        Ok(Some(port))
    }
}

impl Retry<'_> {
    /// The name: after the text of a link, where it goes along one.
    pub(crate) fn name<S: Server>(self, core: &Core<S>, alloc: Global) -> Result<Bytes, AllocError>
        ensures { IfOk result (λ name. name ≡ name_of (world_of S.meaning core.now) self.entry) }
    {
        let rest = rest_of(alloc, self.rest, self.slash)?;
        let name = match self.onward.link() {
            Some(root) => onto(Vec::from_slice(alloc, text_at(core, root))?, &rest)?,
            None => rest,
        };
        Ok(Bytes::new(name))
    }
}
