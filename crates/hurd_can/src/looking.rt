//! Looks with helpers, one after another.
ghost use Rattle.std.specs.Prelude.{◌≡◌, ◌++◌, [], ◌∷◌, map, IfOk, OnOk};
ghost use Rattle.hurd_machine.specs.World.{world_from};
ghost use Rattle.hurd_nodes.specs.Shown.{shown};
ghost use Rattle.hurd_sight.specs.Looks.{Looks};
ghost use Rattle.hurd_sight.specs.Reach.{among};
ghost use Rattle.hurd_can.specs.Help.{AreHelped, pairs_of, with_each};
ghost use Rattle.hurd_can.specs.Noting.{AddsOnes, AddsTwos, unhelped};

use crate::helped::{Helped, Pair};
use crate::noting::{note_ones, note_twos};
use hurd_creds::TaskId;
use hurd_nodes::Nodes;
use hurd_ports::Ports;
use hurd_sight::{SeenPart, Sight};
use hurd_trans_iface::Server;
use std::alloc::{AllocError, Global};

/// Some tasks, and one more. Fails only if memory runs out.
fn with_one(alloc: Global, who: &[TaskId], one: TaskId) -> Result<Vec<TaskId>, AllocError>
    ensures { IfOk result (λ tasks. tasks.items ≡ who.now ++ one ∷ []) }
{
    let mut tasks = Vec::from_slice(alloc, who)?;
    tasks.push(one)?;
    Ok(tasks)
}

/// Some tasks, and two more. Fails only if memory runs out.
fn with_two(alloc: Global, who: &[TaskId], pair: Pair) -> Result<Vec<TaskId>, AllocError>
    ensures { IfOk result (λ tasks. tasks.items ≡ who.now ++ pair.one ∷ pair.other ∷ []) }
{
    let mut tasks = Vec::from_slice(alloc, who)?;
    tasks.push(pair.one)?;
    tasks.push(pair.other)?;
    Ok(tasks)
}

/// What these tasks see together, in a box. Fails only if memory runs out.
pub(crate) fn look<S: Server>(
    alloc: Global,
    nodes: &Nodes<S>,
    ports: &Ports,
    tasks: &[TaskId],
) -> Result<Box<Sight>, AllocError>
    ensures { IfOk result (λ sight. Looks (among tasks.now) (world_from (shown S.meaning nodes.now) ports.now.state) sight.value) }
{
    Ok(Box::new(alloc, Sight::of(alloc, nodes, ports, tasks)?)?)
}

/// Tries one task as a helper.
fn try_one<S: Server>(
    alloc: Global,
    nodes: &Nodes<S>,
    ports: &Ports,
    who: &[TaskId],
    all: &mut Vec<Helped>,
    one: TaskId,
) -> Result<(), AllocError>
    ensures { OnOk result (AddsOnes (world_from (shown S.meaning nodes.now) ports.now.state) who.now (one ∷ []) all.old.items all.new.items) }
{
    let tasks = with_one(alloc, who, one)?;
    let sight = look(alloc, nodes, ports, tasks.as_slice())?;
    note_ones(nodes, &sight, all, one)
}

/// Tries these tasks as helpers, one after another.
fn try_ones<S: Server>(
    alloc: Global,
    nodes: &Nodes<S>,
    ports: &Ports,
    who: &[TaskId],
    all: &mut Vec<Helped>,
    others: &[TaskId],
) -> Result<(), AllocError>
    ensures { OnOk result (AddsOnes (world_from (shown S.meaning nodes.now) ports.now.state) who.now others.now all.old.items all.new.items) }
{
    for one in others {
        try_one(alloc, nodes, ports, who, all, *one)?;
    }
    Ok(())
}

/// Tries a pair of helpers.
fn try_two<S: Server>(
    alloc: Global,
    nodes: &Nodes<S>,
    ports: &Ports,
    who: &[TaskId],
    all: &mut Vec<Helped>,
    pair: Pair,
) -> Result<(), AllocError>
    ensures { OnOk result (AddsTwos (world_from (shown S.meaning nodes.now) ports.now.state) who.now (pair ∷ []) all.old.items all.new.items) }
{
    let tasks = with_two(alloc, who, pair)?;
    let sight = look(alloc, nodes, ports, tasks.as_slice())?;
    note_twos(nodes, &sight, all, pair)
}

/// Tries these pairs of helpers, one after another.
fn try_twos<S: Server>(
    alloc: Global,
    nodes: &Nodes<S>,
    ports: &Ports,
    who: &[TaskId],
    all: &mut Vec<Helped>,
    pairs: &[Pair],
) -> Result<(), AllocError>
    ensures { OnOk result (AddsTwos (world_from (shown S.meaning nodes.now) ports.now.state) who.now pairs.now all.old.items all.new.items) }
{
    for pair in pairs {
        try_two(alloc, nodes, ports, who, all, *pair)?;
    }
    Ok(())
}

/// Adds a task with each of these.
fn add_pairs(pairs: &mut Vec<Pair>, one: TaskId, others: &[TaskId]) -> Result<(), AllocError>
    ensures { OnOk result (pairs.new.items ≡ pairs.old.items ++ with_each one others.now) }
{
    for other in others {
        pairs.push(Pair { one, other: *other })?;
    }
    Ok(())
}

/// Each two of these tasks, in their order. Fails only if memory runs out.
fn pairs_of(alloc: Global, others: &[TaskId]) -> Result<Vec<Pair>, AllocError>
    ensures { IfOk result (λ pairs. pairs.items ≡ pairs_of others.now) }
{
    let mut pairs = Vec::new(alloc);
    for (i, one) in others.iter().enumerate() {
        add_pairs(&mut pairs, *one, &others[i + 1..])?;
    }
    Ok(pairs)
}

/// These parts, without helpers. Fails only if memory runs out.
fn unhelped(alloc: Global, parts: &[SeenPart]) -> Result<Vec<Helped>, AllocError>
    ensures { IfOk result (λ all. all.items ≡ map unhelped parts.now) }
{
    let mut all = Vec::new(alloc);
    for part in parts {
        all.push(Helped::of(alloc, *part))?;
    }
    Ok(all)
}

/// For each of these parts, who of the others could help some tasks to see it: alone, or in pairs, if neither of the two is enough alone. Fails only if memory runs out.
pub fn helpers_of<S: Server>(
    alloc: Global,
    nodes: &Nodes<S>,
    ports: &Ports,
    who: &[TaskId],
    others: &[TaskId],
    parts: &[SeenPart],
) -> Result<Vec<Helped>, AllocError>
    ensures { IfOk result (λ all. AreHelped (world_from (shown S.meaning nodes.now) ports.now.state) who.now others.now parts.now all.items) }
{
    let mut all = unhelped(alloc, parts)?;
    try_ones(alloc, nodes, ports, who, &mut all, others)?;
    let pairs = pairs_of(alloc, others)?;
    try_twos(alloc, nodes, ports, who, &mut all, pairs.as_slice())?;
    Ok(all)
}
