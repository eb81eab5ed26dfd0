//! Going along the names of a path.
ghost use Rattle.std.specs.Prelude.{◌≡◌, ◌∷◌, ◌&&◌, not, Ok};
ghost use Rattle.hurd_creds.specs.declared.errno.Errno.TheVariants.{EEXIST};
ghost use Rattle.hurd_nodes.specs.Shown.{header_in};
ghost use Rattle.hurd_machine.specs.World.{World, header_at};
ghost use Rattle.hurd_machine.specs.Plan.{first, given};
ghost use Rattle.hurd_core.specs.Core.{world_of};
ghost use Rattle.hurd_lookup.specs.Path.{names_in};
ghost use Rattle.hurd_lookup.specs.Lookup.{Authority as AuthorityAt, arrive, branch_in, came_in_at, go_back, go_into, is_exclusive, is_last, miss, over, shows_name, step_asks, step_by, step_up, stepped, to_cross, walk};
ghost use Rattle.hurd_lookup.specs.Ends.{CanEnd, Finds, Goes, IsHere, authority_of, outcome_of};

use crate::authority::Authority;
use crate::cross::{Crossed, cross, to_cross};
use crate::end::{Outcome, make_asked, open_asked};
use crate::here::Here;
use crate::path::first_name;
use crate::request::Request;
use crate::rest::is_last;
use crate::retry::{Onward, Retry};
use hurd_core::Core;
use hurd_creds::{Attrs, Errno, Ids, Kind, NodeName, OpenFlags, Want};
use hurd_ports::Parents;
use hurd_trans_iface::{Server, is_dir};

/// Where one name leads from a directory.
#[derive(Clone, Copy, Debug, PartialEq, Eq)]
pub(crate) enum Next {
    /// A directory, by `.` or `..`.
    There(NodeName),
    /// The node of an entry.
    Entry(NodeName),
    /// A branch of a union, which shows the name.
    Branch(NodeName),
    /// Out of a server's tree, by the way that the port came in.
    Back,
    /// No entry has the name.
    Absent,
}

/// Whether a port came into a server's tree at this node.
fn came_in_at(parents: &Parents, dir: NodeName) -> bool
    ensures { result ≡ came_in_at parents.now dir }
{
    match parents.first() {
        Some(way) => dir == way.at,
        None => false,
    }
}

/// Where `..` leads: from where the port came in, back; a server's root stays, a removed directory leads nowhere, any
/// other goes to its parent.
fn step_up<S: Server>(
    core: &Core<S>,
    parents: &Parents,
    dir: NodeName,
    attrs: &Attrs,
) -> Result<Next, Errno>
    ensures { result ≡ step_up (world_of S.meaning core.now) parents.now dir (header_in attrs.now) }
{
    if came_in_at(parents, dir) {
        return Ok(Next::Back);
    }
    if core.is_root(dir) {
        return Ok(Next::There(dir));
    }
    match attrs.parent {
        Some(parent) => Ok(Next::There(parent)),
        None => Err(Errno::ENOENT),
    }
}

/// Whether a node is a directory that these ids may search, and has the name.
fn shows_name<S: Server>(core: &Core<S>, ids: &Ids, branch: NodeName, name: &[u8]) -> bool
    ensures { let w = world_of S.meaning core.now in result ≡ shows_name w ids.now name.now branch (header_at w branch) }
{
    let Some(attrs) = core.attrs(branch) else {
        return false;
    };
    is_dir(attrs.kind) && ids.may(&attrs, Want::Exec) && core.step(branch, name).is_some()
}

/// The first of these directories that shows a name.
fn branch_in<S: Server>(core: &Core<S>, ids: &Ids, branches: &[NodeName], name: &[u8]) -> Next
    ensures { result ≡ branch_in (world_of S.meaning core.now) ids.now name.now branches.now }
{
    for branch in branches {
        if shows_name(core, ids, *branch, name) {
            return Next::Branch(*branch);
        }
    }
    Next::Absent
}

/// Where a name leads from a directory of these attributes.
#[inline(always)]
fn step_by<S: Server>(
    core: &Core<S>,
    authority: Authority,
    dir: NodeName,
    attrs: &Attrs,
    name: &[u8],
) -> Result<Next, Errno>
    ensures { result ≡ step_by (world_of S.meaning core.now) (authority_of authority.entry) dir (header_in attrs.now) name.now }
{
    if name == b".".as_slice() {
        return Ok(Next::There(dir));
    }
    if name == b"..".as_slice() {
        return step_up(core, authority.ways, dir, attrs);
    }
    match core.step(dir, name) {
        Some(node) => Ok(Next::Entry(node)),
        None => Ok(branch_in(core, authority.ids, core.branches_at(dir), name)),
    }
}

/// Looks one name up in a node.
///
/// Errors, in order: `EDIED` no such node, `ENOTDIR`, `EACCES` the ids may not search it, `ENOENT` for `..` in a removed
/// directory.
#[tactic(auto, unfolding(hurd_machine::specs::Plan::on, hurd_machine::specs::Plan::given))]
#[inline(always)]
fn step_asked<S: Server>(
    core: &Core<S>,
    authority: Authority,
    here: &Here,
    name: &[u8],
) -> Result<Next, Errno>
    requires { IsHere (world_of S.meaning core.now) here.now }
    ensures { result ≡ step_asks (world_of S.meaning core.now) (authority_of authority.entry) here.now.node name.now }
{
    let Some(attrs) = here.attrs else {
        return Err(Errno::EDIED);
    };
    let Kind::Dir = attrs.kind else {
        return Err(Errno::ENOTDIR);
    };
    if !authority.ids.may(&attrs, Want::Exec) {
        return Err(Errno::EACCES);
    }
    step_by(core, authority, here.node, &attrs, name)
}

impl Request {
    /// Whether a node that is there is refused: with `CREATE` and `EXCL`.
    fn is_exclusive(self) -> bool
        ensures { result ≡ is_exclusive self }
    {
        self.flags.asks(OpenFlags::CREATE) && self.flags.asks(OpenFlags::EXCL)
    }

    /// Past a node where something is to be crossed. `EEXIST`: it is the last, and a node that is there is refused.
    #[tactic(auto, unfolding(hurd_machine::specs::Plan::given))]
    fn passes(self, rest: &[u8]) -> Result<(), Errno>
        ensures { result ≡ given EEXIST (not (is_last (names_in rest.now) && is_exclusive self)) (Ok tt) }
    {
        if is_last(rest) && self.is_exclusive() {
            return Err(Errno::EEXIST);
        }
        Ok(())
    }
}

/// At the end of the names.
///
/// Errors, in order: `EEXIST` a node that is there is refused, those of `open_asked`.
#[tactic(auto, unfolding(hurd_machine::specs::Plan::given))]
fn arrive<'a, S: Server>(
    core: &Core<S>,
    authority: Authority,
    request: Request,
    here: &Here,
) -> Result<Outcome<'a>, Errno>
    requires { IsHere (world_of S.meaning core.now) here.now }
    ensures { let w = world_of S.meaning core.now in let q = authority_of authority.entry in
        Finds (outcome_of w q) (CanEnd w q) (arrive w q request here.now.node) result }
{
    if request.is_exclusive() {
        return Err(Errno::EEXIST);
    }
    open_asked(core, authority, request, here, None)
}

/// A name that no entry has.
///
/// Errors, in order: `ENOENT` it is not the last, a directory is asked for, or `CREATE` is not, those of `make_asked`.
#[tactic(auto, unfolding(hurd_machine::specs::Plan::given))]
fn miss<'a, S: Server>(
    core: &Core<S>,
    authority: Authority,
    request: Request,
    here: &Here,
    name: &'a [u8],
    is_last: bool,
) -> Result<Outcome<'a>, Errno>
    requires { IsHere (world_of S.meaning core.now) here.now }
    ensures { let w = world_of S.meaning core.now in let q = authority_of authority.entry in
        Finds (outcome_of w q) (CanEnd w q) (miss w q request here.now.node name.entry.now is_last) result }
{
    if is_last && request.flags.asks(OpenFlags::CREATE) && !request.wants_dir {
        make_asked(core, authority, request, here, name)
    } else {
        Err(Errno::ENOENT)
    }
}

/// Back by the latest way that a port came in by.
///
/// Errors, in order: `ENOENT` there is none, `EDIED` the node is gone from which it came.
#[tactic(auto, unfolding(hurd_machine::specs::Plan::on))]
fn go_back<'a, S: Server>(
    core: &Core<S>,
    authority: Authority,
    request: Request,
    rest: &'a [u8],
) -> Result<Outcome<'a>, Errno>
    ensures { let w = world_of S.meaning core.now in let q = authority_of authority.entry in
        Finds (outcome_of w q) (CanEnd w q) (go_back w request (names_in rest.entry.now) q.ways) result }
{
    let Some(way) = authority.ways.first() else {
        return Err(Errno::ENOENT);
    };
    if core.attrs(way.parent).is_none() {
        return Err(Errno::EDIED);
    }
    Ok(Outcome::Retries(Retry {
        onward: Onward::Back(way.parent),
        rest,
        slash: request.slash,
    }))
}

/// At the node of an entry: on from there, or across what is there: the server that is active on it, or the translator that waits to be started.
///
/// Errors, in order: `EEXIST` it is the last, and refused where it is there, those of `cross`.
#[tactic(auto, unfolding(hurd_machine::specs::Plan::given))]
#[inline(always)]
fn over<'a, S: Server>(
    core: &Core<S>,
    authority: Authority,
    request: Request,
    dir: NodeName,
    node: NodeName,
    rest: &'a [u8],
    here: &mut Here,
) -> Result<Option<Outcome<'a>>, Errno>
    ensures { let w = world_of S.meaning core.now in let q = authority_of authority.entry in let names = names_in rest.entry.now in
        Goes w q (λ onward. over w q request dir node (to_cross w request node names) names (onward node)) here.new result }
{
    match to_cross(core, request, node, rest, here) {
        Crossed::Nothing => Ok(None),
        Crossed::Active(root) => {
            request.passes(rest)?;
            let outcome = cross(core, authority, request, dir, root, rest)?;
            Ok(Some(outcome))
        }
        Crossed::Waiting => {
            request.passes(rest)?;
            Ok(Some(Outcome::Starts(node)))
        }
    }
}

/// On at a branch of a union, with what is left of the path.
fn go_into<'a>(request: Request, branch: NodeName, path: &'a [u8]) -> Outcome<'a>
    ensures outcome { (w : World) (q : AuthorityAt) → outcome_of w q result ≡ go_into q request branch (names_in path.entry.now) }
    ensures can { (w : World) (q : AuthorityAt) → CanEnd w q result }
{
    Outcome::Retries(Retry {
        onward: Onward::Into(branch),
        rest: path,
        slash: request.slash,
    })
}

/// From a directory by the first name of a path, after which its rest follows: on at the node that is `here` then, or to an end.
///
/// Errors, in order: those of `step_asked`, those of `over`, of `go_back`, or of `miss`.
#[tactic(auto, unfolding(hurd_machine::specs::Plan::first))]
#[inline(always)]
fn stepped<'a, S: Server>(
    core: &Core<S>,
    authority: Authority,
    request: Request,
    path: &'a [u8],
    name: &'a [u8],
    rest: &'a [u8],
    here: &mut Here,
) -> Result<Option<Outcome<'a>>, Errno>
    requires names { names_in path.now ≡ name.now ∷ names_in rest.now }
    requires here { IsHere (world_of S.meaning core.now) here.old }
    ensures { let w = world_of S.meaning core.now in let q = authority_of authority.entry in let dir = here.old.node in
        Goes w q (λ onward. first (step_asks w q dir name.entry.now) (stepped w q request dir name.entry.now (names_in rest.entry.now) onward)) here.new result }
{
    let dir = here.node;
    match step_asked(core, authority, here, name)? {
        Next::There(node) => {
            *here = Here::at(core, node);
            Ok(None)
        }
        Next::Entry(node) => over(core, authority, request, dir, node, rest, here),
        Next::Branch(branch) => Ok(Some(go_into(request, branch, path))),
        Next::Back => Ok(Some(go_back(core, authority, request, rest)?)),
        Next::Absent => {
            let outcome = miss(core, authority, request, here, name, is_last(rest))?;
            Ok(Some(outcome))
        }
    }
}

/// Goes from a node along the names of a path. Each node on the way is asked once what it is.
///
/// Errors, at each name: those of `stepped`; at the end those of `arrive`.
#[inline(always)]
pub(crate) fn walk<'a, S: Server>(
    core: &Core<S>,
    authority: Authority,
    request: Request,
    start: Here,
    path: &'a [u8],
) -> Result<Outcome<'a>, Errno>
    requires { IsHere (world_of S.meaning core.now) start }
    ensures { let w = world_of S.meaning core.now in let q = authority_of authority.entry in
        Finds (outcome_of w q) (CanEnd w q) (walk w q request start.node (names_in path.entry.now)) result }
{
    let mut here = start;
    let mut rest = path;
    while let Some((name, after)) = first_name(rest) {
        if let Some(outcome) = stepped(core, authority, request, rest, name, after, &mut here)? {
            return Ok(outcome);
        }
        rest = after;
    }
    arrive(core, authority, request, &here)
}
