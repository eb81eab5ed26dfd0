//! Following a path inside the core, to the targets of servers.
ghost use Rattle.std.specs.Prelude.{◌≡◌, ◌<◌, [], ◌∷◌, IfOk, IfSome, IsOk, OnOk, length};
ghost use Rattle.hurd_creds.specs.Memory.{MeetsOr};
ghost use Rattle.hurd_ports.specs.Limits.{most_parents};
ghost use Rattle.hurd_core.specs.Core.{world_of};
ghost use Rattle.hurd_lookup.specs.Ends.{CanEnd, authority_of, name_of, outcome_of, port_by, way_of};
ghost use Rattle.hurd_lookup.specs.Resolve.{from_top, landed, path_end, leg_asks, leg_at, resolve, resolve_all};
ghost use Rattle.hurd_lookup.specs.Legs.{CanStart, Leads, leg_of};

use crate::authority::{Authority, NewPort};
use crate::end::Outcome;
use crate::here::Here;
use crate::path::is_short;
use crate::request::Request;
use crate::retry::Retry;
use crate::walk::walk;
use bitflags::Flags;
use hurd_core::Core;
use hurd_creds::{Bytes, Errno, Ids, Mode, NodeName, OpenFlags};
use hurd_nodes::BOOT_NAME;
use hurd_ports::Parents;
use hurd_trans_iface::{Server, is_absolute};
use std::alloc::{AllocError, Global};

/// So many looks are made along a path at most: the first, and 32 retries.
const MOST_LOOKS: u64 = 33;

/// From which node, come in by which ways, and along which path it goes on.
#[derive(Debug, Drop)]
pub(crate) struct Leg {
    pub(crate) node: NodeName,
    pub(crate) ways: Parents,
    pub(crate) path: Bytes,
}

/// Where a path ends.
#[derive(Clone, Copy, Debug, PartialEq, Eq)]
pub(crate) enum Landing {
    /// At a node.
    Lands(NodeName),
    /// At a node on which a translator waits to be started.
    Sleeps(NodeName),
}

/// After one look: at the end, or on.
#[derive(Debug, Drop)]
pub(crate) enum Looked {
    Ends(Landing),
    Goes(Leg),
}

/// Along a path from the root of the tree.
///
/// Errors, in order: `ENOENT` it is no such path, `ENOMEM`.
#[tactic(auto, unfolding(hurd_machine::specs::Plan::given))]
fn from_top(alloc: Global, path: &[u8]) -> Result<Leg, Errno>
    ensures { MeetsOr (Unit {0}) leg_of (from_top path.now) result }
{
    if !is_absolute(path) {
        return Err(Errno::ENOENT);
    }
    Ok(Leg {
        node: BOOT_NAME,
        ways: Parents::none(alloc),
        path: Bytes::copied(alloc, path)?,
    })
}

/// Along a name that is left by a look: at the port of its retry, or from the root of the tree.
///
/// Errors: `ENOENT` it is no path from the root; `ENOMEM`.
fn onward<S: Server>(
    core: &Core<S>,
    alloc: Global,
    authority: Authority,
    retry: Retry,
) -> Result<Leg, Errno>
    requires { IfSome (way_of retry.onward) (λ way. length (authority_of authority).ways < most_parents) }
    ensures { let w = world_of S.meaning core.now in
        MeetsOr (Unit {0}) leg_of (leg_at (name_of w retry.entry) (port_by (authority_of authority.entry) retry.entry.onward)) result }
{
    let name = retry.name(core, alloc)?;
    match retry.onward.port(alloc, authority)? {
        None => from_top(alloc, name.as_slice()),
        Some(
            NewPort {
                node,
                ids: _,
                parents,
            },
        ) => Ok(Leg {
            node,
            ways: parents,
            path: name,
        }),
    }
}

/// Where a walk ended.
///
/// Errors: `ENOENT` no such entry, those of `onward`.
#[tactic(auto, unfolding(hurd_machine::specs::Plan::first))]
fn ended<S: Server>(
    core: &Core<S>,
    alloc: Global,
    authority: Authority,
    outcome: Outcome,
) -> Result<Looked, Errno>
    requires { CanEnd (world_of S.meaning core.now) (authority_of authority) outcome }
    ensures { let w = world_of S.meaning core.now in
        Leads w (λ onward. landed onward (outcome_of w (authority_of authority.entry) outcome.entry)) result }
{
    match outcome {
        Outcome::Opens(node, _) => Ok(Looked::Ends(Landing::Lands(node))),
        Outcome::Makes(_) => Err(Errno::ENOENT),
        Outcome::Retries(retry) => Ok(Looked::Goes(onward(core, alloc, authority, retry)?)),
        Outcome::Starts(node) => Ok(Looked::Ends(Landing::Sleeps(node))),
    }
}

/// One look, with these ids: nothing is opened, made or started.
///
/// Errors, in order: `EDIED` no such node, `ENAMETOOLONG`, those of `walk`, those of `ended`; `ENOMEM`.
#[tactic(auto, unfolding(hurd_machine::specs::Plan::on, hurd_machine::specs::Plan::given, hurd_machine::specs::Plan::first))]
fn look<S: Server>(core: &Core<S>, alloc: Global, ids: &Ids, leg: Leg) -> Result<Looked, Errno>
    ensures { let w = world_of S.meaning core.now in Leads w (leg_asks w ids.now (leg_of leg)) result }
{
    let Leg { node, ways, path } = leg;
    let here = Here::at(core, node);
    if here.attrs.is_none() {
        return Err(Errno::EDIED);
    }
    if !is_short(path.as_slice()) {
        return Err(Errno::ENAMETOOLONG);
    }
    let authority = Authority { ids, ways: &ways };
    let request = Request::new(path.as_slice(), OpenFlags::empty(), Mode::empty());
    let outcome = walk(core, authority, request, here, path.as_slice())?;
    ended(core, alloc, authority, outcome)
}

/// Where a path from the root of the tree ends for who has these ids, along links and across servers: the client's loop inside the core, with the same ids throughout.
/// Nothing is opened, made or started.
///
/// Errors: `ENOENT` no path from the root of the tree; at each look `EDIED`, `ENAMETOOLONG`, those of a lookup without flags along the path; `ELOOP` a retry past the 32nd; at
/// the end `EDIED`, `ENOTDIR` the path asks for a directory. `ENOMEM`, where a retry's name or ways find no memory.
#[tactic(auto, unfolding(hurd_machine::specs::Plan::first, crate::specs::Resolve::path_end))]
pub(crate) fn path_end<S: Server>(
    core: &Core<S>,
    alloc: Global,
    ids: &Ids,
    path: &[u8],
) -> Result<Landing, Errno>
    ensures found { MeetsOr (Unit {0}) (λ l. l) (path_end (world_of S.meaning core.now) ids.now path.now) result }
    ensures starts { IfOk result (CanStart (world_of S.meaning core.now)) }
{
    let mut leg = from_top(alloc, path)?;
    let mut left = MOST_LOOKS;
    while left > 0 {
        left -= 1;
        match look(core, alloc, ids, leg)? {
            Looked::Ends(end) => return Ok(end),
            Looked::Goes(next) => leg = next,
        }
    }
    Err(Errno::ELOOP)
}

/// Where a path from the root of the tree leads who has these ids.
///
/// Errors: those of `path_end`; as `asleep` says where a translator waits to be started at its end.
#[tactic(auto, unfolding(hurd_machine::specs::Plan::first, crate::specs::Resolve::resolve))]
fn resolve<S: Server>(
    core: &Core<S>,
    alloc: Global,
    ids: &Ids,
    path: &[u8],
    asleep: Errno,
) -> Result<NodeName, Errno>
    ensures { MeetsOr (Unit {0}) (λ n. n) (resolve asleep (world_of S.meaning core.now) ids.now path.now) result }
{
    match path_end(core, alloc, ids, path)? {
        Landing::Lands(node) => Ok(node),
        Landing::Sleeps(_) => Err(asleep),
    }
}

/// One node more, before the others. `ENOMEM`.
fn push_front(nodes: &mut Vec<NodeName>, node: NodeName) -> Result<(), AllocError>
    ensures { OnOk result (nodes.new.items ≡ node ∷ nodes.old.items) }
{
    nodes.insert(0, node)?;
    Ok(())
}

/// Where several paths lead, in order.
///
/// Errors: those of `path_end`, and `asleep` where a translator waits to be started at the end, of the first path that is refused. Where there is none, no memory is taken.
#[tactic(auto, unfolding(hurd_machine::specs::Plan::first))]
pub fn resolve_all<S: Server>(
    core: &Core<S>,
    alloc: Global,
    ids: &Ids,
    paths: &[Bytes],
    asleep: Errno,
) -> Result<Vec<NodeName>, Errno>
    ensures found { MeetsOr (Unit {0}) (λ nodes. nodes.items) (resolve_all asleep (world_of S.meaning core.now) ids.now paths.now) result }
    ensures nothing { paths.now ≡ [] → IsOk result }
{
    match paths {
        [] => Ok(Vec::new(alloc)),
        [path, paths @ ..] => {
            let node = resolve(core, alloc, ids, path.as_slice(), asleep)?;
            let mut nodes = resolve_all(core, alloc, ids, paths, asleep)?;
            push_front(&mut nodes, node)?;
            Ok(nodes)
        }
    }
}
