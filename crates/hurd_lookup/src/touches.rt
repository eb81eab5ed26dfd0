//! What a lookup touches, said before it is made.
ghost use Rattle.hurd_machine.specs.Sight.{Part};
ghost use Rattle.hurd_machine.specs.World.{World};
ghost use Rattle.hurd_core.specs.Core.{world_of};
ghost use Rattle.hurd_lookup.specs.Lookup.{Authority as AuthorityAt, lookup_parts, port_parts};
ghost use Rattle.hurd_lookup.specs.Seeking.{touches_lookup};
ghost use Rattle.hurd_lookup.specs.Ends.{CanEnd, outcome_of, port_by};
ghost use Rattle.hurd_lookup.specs.Touching.{TouchedBy};

use crate::end::Outcome;
use crate::lookup::found_asked;
use crate::request::Request;
use crate::retry::Onward;
use hurd_core::Core;
use hurd_creds::{Mode, NodeName, OpenFlags, TaskId};
use hurd_trans_iface::Server;

/// What a lookup touches beside its caller's task.
#[derive(Clone, Copy, Debug, PartialEq, Eq)]
pub enum Touching {
    /// Nothing: it is refused, or makes no port.
    Nothing,
    /// What a port more on a node touches.
    Opens(NodeName),
    /// A directory, in which a file is made and opened.
    Makes(NodeName),
}

/// What a port touches that goes on like this, if there is one.
fn by_onward(onward: Onward) -> Touching
    ensures { (w : World) (q : AuthorityAt) (p : Part) → port_parts w (port_by q onward) p → TouchedBy w result p }
{
    match onward {
        Onward::Within(way) => Touching::Opens(way.at),
        Onward::Aimed(way) => Touching::Opens(way.at),
        Onward::Into(node) => Touching::Opens(node),
        Onward::Back(node) => Touching::Opens(node),
        Onward::Beside(dir, _) => Touching::Opens(dir),
        Onward::FromTop(_) => Touching::Nothing,
    }
}

/// What is touched where this is done.
fn by_outcome(outcome: Outcome) -> Touching
    ensures { (w : World) (q : AuthorityAt) (p : Part) → CanEnd w q outcome.entry → lookup_parts w (outcome_of w q outcome.entry) p → TouchedBy w result p }
{
    match outcome {
        Outcome::Opens(node, _) => Touching::Opens(node),
        Outcome::Makes(file) => Touching::Makes(file.dir),
        Outcome::Retries(retry) => by_onward(retry.onward),
        Outcome::Starts(_) => Touching::Nothing,
    }
}

/// What `dir_lookup` would touch, as the world stands, beside the caller's task. Takes no memory.
pub fn dir_lookup_touches<S: Server>(
    core: &Core<S>,
    task: TaskId,
    dir: u64,
    path: &[u8],
    flags: OpenFlags,
    mode: Mode,
) -> Touching
    ensures { let w = world_of S.meaning core.now in (p : Part) → touches_lookup w task.0 dir path.now flags mode p → TouchedBy w result p }
{
    let request = Request::new(path, flags, mode);
    match found_asked(core, task, dir, path, request) {
        Ok(found) => by_outcome(found.outcome),
        Err(_) => Touching::Nothing,
    }
}
