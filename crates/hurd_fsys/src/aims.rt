//! At which nodes a server is to aim that comes.
ghost use Rattle.std.specs.Prelude.{◌≡◌};
ghost use Rattle.hurd_core.specs.Core.{world_of};
ghost use Rattle.hurd_lookup.specs.Lent.{lent};
ghost use Rattle.hurd_creds.specs.Memory.{MeetsOr};
ghost use Rattle.hurd_fsys.specs.Aims.{HasTargets, aims_asks, are_dirs, fits};

use hurd_core::Core;
use hurd_creds::{Errno, Ids, NodeName};
use hurd_lookup::lent::lent;
use hurd_lookup::resolve::resolve_all;
use hurd_trans_iface::{Crossing, Server, is_dir};
use std::alloc::Global;

/// Whether each is a directory that is there.
fn are_dirs<S: Server>(core: &Core<S>, nodes: &[NodeName]) -> bool
    ensures { result ≡ are_dirs (world_of S.meaning core.now) nodes.now }
{
    match nodes {
        [] => true,
        [node, nodes @ ..] => match core.attrs(*node) {
            Some(attrs) => is_dir(attrs.kind) && are_dirs(core, nodes),
            None => false,
        },
    }
}

/// Whether a server that is crossed like this may aim at these: a union at directories alone.
fn fits<S: Server>(core: &Core<S>, crossing: Crossing, nodes: &[NodeName]) -> bool
    ensures { result ≡ fits (world_of S.meaning core.now) crossing nodes.now }
{
    match crossing {
        Crossing::Union => are_dirs(core, nodes),
        Crossing::Plain | Crossing::Link { .. } | Crossing::Firm => true,
    }
}

/// The targets of a server for a node of this owner, which somebody starts who has these ids, in order. Where it has none, no memory is taken.
///
/// Errors: those of `resolve_all`, of the first target that is refused, with `asleep` where a translator waits at one, `ENOTDIR` a union's target is no directory; `ENOMEM`.
#[tactic(auto, unfolding(hurd_machine::specs::Plan::first, hurd_machine::specs::Plan::given))]
pub(crate) fn aims<S: Server>(
    core: &Core<S>,
    alloc: Global,
    ids: &Ids,
    owner: u32,
    server: &S,
    asleep: Errno,
) -> Result<Vec<NodeName>, Errno>
    ensures { let m = S.meaning server.now in
        MeetsOr (HasTargets m) (λ nodes. nodes.items) (aims_asks asleep (world_of S.meaning core.now) (lent ids.now owner) m) result }
{
    let paths = server.targets(alloc)?;
    let own = lent(alloc, ids, owner)?;
    let nodes = resolve_all(core, alloc, &own, paths.as_slice(), asleep)?;
    if !fits(core, server.root().crossing, &nodes) {
        return Err(Errno::ENOTDIR);
    }
    Ok(nodes)
}
