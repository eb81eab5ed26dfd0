//! Crossing the servers that are active on nodes.
ghost use Rattle.std.specs.Prelude.{◌≡◌, ◌&&◌, option_and_then};
ghost use Rattle.std.specs.Option.{option_map};
ghost use Rattle.hurd_creds.specs.Bits.{NOLINK, asks};
ghost use Rattle.hurd_nodes.specs.Shown.{ServerInfo};
ghost use Rattle.hurd_machine.specs.World.{server_at};
ghost use Rattle.hurd_core.specs.Core.{world_of};
ghost use Rattle.hurd_lookup.specs.Path.{names_in};
ghost use Rattle.hurd_lookup.specs.Lookup.{Authority as AuthorityAt, cross, enter, follow, hold_on, is_last, to_cross};
ghost use Rattle.hurd_lookup.specs.Ends.{CanEnd, Crosses, Finds, IsHere, authority_of, outcome_of, text_at};

use crate::authority::Authority;
use crate::end::{Outcome, open_asked};
use crate::here::Here;
use crate::request::Request;
use crate::rest::{fits, is_last};
use crate::retry::{Onward, Retry, text_at};
use hurd_core::Core;
use hurd_creds::{Errno, NodeName, OpenFlags, ServerName};
use hurd_ports::Parent;
use hurd_trans_iface::{Crossing, Server};

/// What is crossed at a node.
#[derive(Clone, Copy, Debug)]
pub(crate) enum Crossed {
    /// Nothing: it goes on at the node.
    Nothing,
    /// The server that is active there, by its root.
    Active(NodeName),
    /// A translator that waits there to be started.
    Waiting,
}

/// The root of a server, if there is one and it is there.
#[inline(always)]
fn root_by<S: Server>(core: &Core<S>, server: Option<ServerName>) -> Option<NodeName>
    ensures { let w = world_of S.meaning core.now in result ≡ option_and_then (λ s. option_map (λ (i : ServerInfo). i.root) (server_at w s)) server }
{
    core.root_of(server?)
}

/// What is to be crossed at a node, before what is left of the path: nothing at the last node with `NOTRANS`; else the server that is active there, or the
/// translator that waits there, if one does. The node is `here` then.
#[inline(always)]
pub(crate) fn to_cross<S: Server>(
    core: &Core<S>,
    request: Request,
    node: NodeName,
    rest: &[u8],
    here: &mut Here,
) -> Crossed
    ensures { let w = world_of S.meaning core.now in Crosses w node (to_cross w request node (names_in rest.now)) here.new result }
{
    let is_held = is_last(rest) && request.flags.asks(OpenFlags::NOTRANS);
    let (active, met) = Here::met(core, node);
    *here = met;
    if !is_held {
        if let Some(root) = root_by(core, active) {
            return Crossed::Active(root);
        }
    }
    if !is_held && active.is_none() && here.has_words() {
        Crossed::Waiting
    } else {
        Crossed::Nothing
    }
}

/// Into a server that is active on a node of this directory, by its root: the last node is opened there, and more names
/// are looked up there.
///
/// Errors, in order: `ELOOP` a port came in by 64 ways, at the last node those of `open_asked`.
#[tactic(auto, unfolding(hurd_machine::specs::Plan::given))]
fn enter<'a, S: Server>(
    core: &Core<S>,
    authority: Authority,
    request: Request,
    dir: NodeName,
    root: &Here,
    rest: &'a [u8],
) -> Result<Outcome<'a>, Errno>
    requires { IsHere (world_of S.meaning core.now) root.now }
    ensures { let w = world_of S.meaning core.now in let q = authority_of authority.entry in
        Finds (outcome_of w q) (CanEnd w q) (enter w q request dir root.now.node (names_in rest.entry.now)) result }
{
    if authority.ways.is_full() {
        return Err(Errno::ELOOP);
    }
    let way = Parent {
        at: root.node,
        parent: dir,
    };
    if is_last(rest) {
        return open_asked(core, authority, request, root, Some(way));
    }
    Ok(Outcome::Retries(Retry {
        onward: Onward::Within(way),
        rest,
        slash: request.slash,
    }))
}

/// Along a link in a directory, by its root. `ENAMETOOLONG`: its text, with what is left of the path, is too long for a path.
#[tactic(auto, unfolding(hurd_machine::specs::Plan::given))]
fn follow<'a, S: Server>(
    core: &Core<S>,
    absolute: bool,
    request: Request,
    dir: NodeName,
    root: NodeName,
    rest: &'a [u8],
) -> Result<Outcome<'a>, Errno>
    ensures { (q : AuthorityAt) → let w = world_of S.meaning core.now in
        Finds (outcome_of w q) (CanEnd w q) (follow absolute q request dir (text_at w root) (names_in rest.entry.now)) result }
{
    if !fits(text_at(core, root), rest, request.slash) {
        return Err(Errno::ENAMETOOLONG);
    }
    let onward = if absolute {
        Onward::FromTop(root)
    } else {
        Onward::Beside(dir, root)
    };
    Ok(Outcome::Retries(Retry {
        onward,
        rest,
        slash: request.slash,
    }))
}

/// On at the node at which a server aims that is active on a node of this directory.
///
/// Errors, in order: `EDIED` there is none, or it is gone, `ELOOP` a port came in by 64 ways.
#[tactic(auto, unfolding(hurd_machine::specs::Plan::on, hurd_machine::specs::Plan::given))]
fn hold_on<'a, S: Server>(
    core: &Core<S>,
    authority: Authority,
    request: Request,
    dir: NodeName,
    target: Option<NodeName>,
    rest: &'a [u8],
) -> Result<Outcome<'a>, Errno>
    ensures { let w = world_of S.meaning core.now in let q = authority_of authority.entry in
        Finds (outcome_of w q) (CanEnd w q) (hold_on w q request dir target (names_in rest.entry.now)) result }
{
    let Some(node) = target else {
        return Err(Errno::EDIED);
    };
    if core.attrs(node).is_none() {
        return Err(Errno::EDIED);
    }
    if authority.ways.is_full() {
        return Err(Errno::ELOOP);
    }
    let way = Parent {
        at: node,
        parent: dir,
    };
    Ok(Outcome::Retries(Retry {
        onward: Onward::Aimed(way),
        rest,
        slash: request.slash,
    }))
}

/// Whether a link is not followed: it is the last node, and `NOLINK` is set.
fn is_final(request: Request, rest: &[u8]) -> bool
    ensures { result ≡ (is_last (names_in rest.now) && asks request.flags NOLINK) }
{
    is_last(rest) && request.flags.asks(OpenFlags::NOLINK)
}

/// Across the root of a server that is active on a node of this directory: a link leads on, unless it is the last and
/// `NOLINK` is set, a firm link leads to its target, and any other is entered.
///
/// Errors, in order: `EDIED` the root is gone, or a firm link's target, `ENAMETOOLONG` along a link, `ELOOP` along a firm link, those of `enter` into any other.
#[tactic(auto, unfolding(hurd_machine::specs::Plan::on, hurd_machine::specs::Plan::first))]
pub(crate) fn cross<'a, S: Server>(
    core: &Core<S>,
    authority: Authority,
    request: Request,
    dir: NodeName,
    root: NodeName,
    rest: &'a [u8],
) -> Result<Outcome<'a>, Errno>
    ensures { let w = world_of S.meaning core.now in let q = authority_of authority.entry in
        Finds (outcome_of w q) (CanEnd w q) (cross w q request dir root (names_in rest.entry.now)) result }
{
    let here = Here::at(core, root);
    if here.attrs.is_none() {
        return Err(Errno::EDIED);
    }
    let Some(served) = core.root(root) else {
        return Err(Errno::EDIED);
    };
    match served.crossing {
        Crossing::Plain => enter(core, authority, request, dir, &here, rest),
        Crossing::Union => enter(core, authority, request, dir, &here, rest),
        Crossing::Firm => {
            let target = core.targets_at(root).first().copied();
            hold_on(core, authority, request, dir, target, rest)
        }
        Crossing::Link { absolute } => {
            if is_final(request, rest) {
                return enter(core, authority, request, dir, &here, rest);
            }
            follow(core, absolute, request, dir, root, rest)
        }
    }
}
