//! What a look with helpers shows.
ghost use Rattle.std.specs.Prelude.{◌≡◌, map, OnOk};
ghost use Rattle.hurd_nodes.specs.Shown.{shown};
ghost use Rattle.hurd_sight.specs.Looks.{sees_with};
ghost use Rattle.hurd_can.specs.Noting.{noted_one, noted_two};

use crate::helped::{Helped, Pair};
use hurd_creds::TaskId;
use hurd_nodes::Nodes;
use hurd_sight::Sight;
use hurd_trans_iface::Server;
use std::alloc::AllocError;

/// Notes a helper, if a look with his shows the part.
fn note_one<S: Server>(
    nodes: &Nodes<S>,
    sight: &Sight,
    helped: &mut Helped,
    one: TaskId,
) -> Result<(), AllocError>
    ensures { OnOk result (helped.new ≡ noted_one (sees_with (shown S.meaning nodes.now) sight.now) one helped.old) }
{
    if sight.sees(nodes, helped.part()) {
        return helped.add_one(one);
    }
    Ok(())
}

/// Notes a helper of each part that a look with his shows.
pub(crate) fn note_ones<S: Server>(
    nodes: &Nodes<S>,
    sight: &Sight,
    all: &mut Vec<Helped>,
    one: TaskId,
) -> Result<(), AllocError>
    ensures { OnOk result (all.new.items ≡ map (noted_one (sees_with (shown S.meaning nodes.now) sight.now) one) all.old.items) }
{
    for helped in all.iter_mut() {
        note_one(nodes, sight, helped, one)?;
    }
    Ok(())
}

/// Notes a pair of helpers, if neither was enough alone, and a look with theirs shows the part.
fn note_two<S: Server>(
    nodes: &Nodes<S>,
    sight: &Sight,
    helped: &mut Helped,
    pair: Pair,
) -> Result<(), AllocError>
    ensures { OnOk result (helped.new ≡ noted_two (sees_with (shown S.meaning nodes.now) sight.now) pair helped.old) }
{
    if helped.lacks(pair) && sight.sees(nodes, helped.part()) {
        return helped.add_two(pair);
    }
    Ok(())
}

/// Notes a pair of helpers of each part that a look with theirs shows, if neither was enough alone.
pub(crate) fn note_twos<S: Server>(
    nodes: &Nodes<S>,
    sight: &Sight,
    all: &mut Vec<Helped>,
    pair: Pair,
) -> Result<(), AllocError>
    ensures { OnOk result (all.new.items ≡ map (noted_two (sees_with (shown S.meaning nodes.now) sight.now) pair) all.old.items) }
{
    for helped in all.iter_mut() {
        note_two(nodes, sight, helped, pair)?;
    }
    Ok(())
}
