//! What is to be done at the end of the names: a node is opened there, or a file made.
ghost use Rattle.std.specs.Prelude.{◌≡◌};
ghost use Rattle.hurd_nodes.specs.Shown.{header_in};
ghost use Rattle.hurd_trans_iface.specs.Nodes.{is_dir};
ghost use Rattle.hurd_machine.specs.World.{info_at, is_removed, is_text, only_reads};
ghost use Rattle.hurd_core.specs.Core.{world_of};
ghost use Rattle.hurd_lookup.specs.Lookup.{make_asks, may_open, open_asks};
ghost use Rattle.hurd_lookup.specs.Ends.{CanEnd, Finds, HasRoom, IsHere, authority_of, outcome_of, ways_by};

use crate::authority::Authority;
use crate::here::Here;
use crate::request::Request;
use crate::retry::Retry;
use hurd_core::{Core, NodeToMake};
use hurd_creds::{Attrs, Errno, Ids, Kind, NodeName, OpenFlags, Want};
use hurd_ports::Parent;
use hurd_trans_iface::{Server, is_dir};

/// What names lead to.
#[derive(Clone, Copy, Debug)]
pub(crate) enum Outcome<'a> {
    /// A node is opened: of a server that was entered by a way, if one was.
    Opens(NodeName, Option<Parent>),
    /// A file is made by its directory's server, and opened.
    Makes(NodeToMake<'a>),
    /// A name is looked up elsewhere.
    Retries(Retry<'a>),
    /// A translator is to be started first, which waits on a node.
    Starts(NodeName),
}

/// Whether the ids may do what the flags ask for.
fn may_open(ids: &Ids, attrs: &Attrs, flags: OpenFlags) -> bool
    ensures { result ≡ may_open ids.now (header_in attrs.now) flags }
{
    (!flags.asks(OpenFlags::READ) || ids.may(attrs, Want::Read))
        && (!flags.asks(OpenFlags::WRITE) || ids.may(attrs, Want::Write))
        && (!flags.asks(OpenFlags::EXEC) || ids.may(attrs, Want::Exec))
}

/// Whether a server only gives its text: its root is a file or a link.
fn is_text(kind: Kind) -> bool
    ensures { result ≡ is_text kind }
{
    match kind {
        Kind::File | Kind::Link => true,
        Kind::Dir | Kind::Fifo | Kind::Char => false,
    }
}

/// Whether the server of a node, if it has one, only gives its text.
fn only_reads<S: Server>(core: &Core<S>, node: NodeName) -> bool
    ensures { let w = world_of S.meaning core.now in result ≡ only_reads (info_at w node) }
{
    match core.root(node) {
        Some(root) => is_text(root.kind),
        None => false,
    }
}

/// Opens the node at the end of the names: of a server that was entered by a way, if one was.
///
/// Errors, in order: `EDIED` no such node, `ENOTDIR` a directory is wanted, `EISDIR` to write a directory, `EROFS` to write
/// a node of a server that only gives its text, `EACCES`.
#[tactic(auto, unfolding(hurd_machine::specs::Plan::on, hurd_machine::specs::Plan::given))]
pub(crate) fn open_asked<'a, S: Server>(
    core: &Core<S>,
    authority: Authority,
    request: Request,
    here: &Here,
    entered: Option<Parent>,
) -> Result<Outcome<'a>, Errno>
    requires here { IsHere (world_of S.meaning core.now) here.now }
    requires room { HasRoom (authority_of authority) entered }
    ensures { let w = world_of S.meaning core.now in let q = authority_of authority.entry in
        Finds (outcome_of w q) (CanEnd w q) (open_asks w q.ids request here.now.node (ways_by entered q.ways)) result }
{
    let Some(attrs) = here.attrs else {
        return Err(Errno::EDIED);
    };
    let is_dir = is_dir(attrs.kind);
    if request.wants_dir && !is_dir {
        return Err(Errno::ENOTDIR);
    }
    let writes = request.flags.asks(OpenFlags::WRITE);
    if is_dir && writes {
        return Err(Errno::EISDIR);
    }
    if writes && only_reads(core, here.node) {
        return Err(Errno::EROFS);
    }
    if !may_open(authority.ids, &attrs, request.flags) {
        return Err(Errno::EACCES);
    }
    Ok(Outcome::Opens(here.node, entered))
}

/// Whether a directory of these attributes is removed. Where it has a parent, its server isn't asked.
fn is_removed<S: Server>(core: &Core<S>, dir: NodeName, attrs: &Attrs) -> bool
    ensures { result ≡ is_removed (world_of S.meaning core.now) dir (header_in attrs.now) }
{
    attrs.parent.is_none() && core.is_removed(dir, attrs)
}

/// Makes a file in a directory under a name, which belongs to the least uid.
///
/// Errors, in order: those of `Core::can_make`, `EACCES` the ids may not write the directory, or have no uids, `ENOENT` a
/// removed directory.
#[tactic(auto, using(crate::proofs::MakerLaws::maker_is), unfolding(hurd_machine::specs::Plan::on, hurd_machine::specs::Plan::given, hurd_machine::specs::Plan::first))]
pub(crate) fn make_asked<'a, S: Server>(
    core: &Core<S>,
    authority: Authority,
    request: Request,
    here: &Here,
    name: &'a [u8],
) -> Result<Outcome<'a>, Errno>
    requires { IsHere (world_of S.meaning core.now) here.now }
    ensures { let w = world_of S.meaning core.now in let q = authority_of authority.entry in
        Finds (outcome_of w q) (CanEnd w q) (make_asks w q request here.now.node name.entry.now) result }
{
    let dir = here.node;
    core.can_make(dir, Some(name), Kind::File)?;
    let Some(attrs) = here.attrs else {
        return Err(Errno::EDIED);
    };
    if !authority.ids.may(&attrs, Want::Write) {
        return Err(Errno::EACCES);
    }
    let Some(owner) = authority.ids.least_uid() else {
        return Err(Errno::EACCES);
    };
    if is_removed(core, dir, &attrs) {
        return Err(Errno::ENOENT);
    }
    let file = NodeToMake {
        dir,
        entry: Some(name),
        owner,
        group: attrs.group,
        mode: request.mode.known(),
    };
    Ok(Outcome::Makes(file))
}
