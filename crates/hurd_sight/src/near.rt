//! The nodes that are seen, and their servers: those that are known by them, and those that may be sent away by what is seen.
ghost use Rattle.std.specs.Prelude.{◌≡◌, [], if◌then◌else◌, IfOk, OnOk, slice_get};
ghost use Rattle.hurd_trans_iface.specs.Nodes.{header_of};
ghost use Rattle.hurd_nodes.specs.Held.{active_in, home_in};
ghost use Rattle.hurd_nodes.specs.Shown.{shown};
ghost use Rattle.hurd_sight.specs.Reach.{Gathers};
ghost use Rattle.hurd_sight.specs.Found.{FoundAll};
ghost use Rattle.hurd_sight.specs.Parts.{at_entry, known_at, maybe_named, named, named_more, of_found, owned_by, sendable_at, served_in};

use crate::found::Found;
use crate::names::NameSet;
use crate::reach::Reach;
use hurd_creds::{Name, NodeName, TaskId};
use hurd_nodes::Nodes;
use hurd_ports::Ports;
use hurd_trans_iface::Server;
use std::alloc::{AllocError, Global};

/// The nodes that a set of tasks sees, with the ids by which it finds them, and their servers.
#[derive(Drop)]
pub(crate) struct Near {
    pub(crate) reach: Reach,
    pub(crate) found: Found,
    /// The servers of seen nodes, and those that are active on them.
    pub(crate) known: NameSet,
    /// Those of them that may be sent away by what is seen.
    pub(crate) sendable: NameSet,
}

impl Near {
    /// What these tasks see of the nodes.
    pub(crate) fn of<S: Server>(
        alloc: Global,
        nodes: &Nodes<S>,
        ports: &Ports,
        tasks: &[TaskId],
    ) -> Result<Near, AllocError>
        ensures reach { IfOk result (λ near. Gathers ports.now.state.tasks tasks.now near.reach) }
        ensures found { IfOk result (λ near. FoundAll (shown S.meaning nodes.now) ports.now.state.tasks near.reach tasks.now near.found) }
        ensures known { IfOk result (λ near. near.known ≡ named (of_found (known_at (shown S.meaning nodes.now)) near.found) []) }
        ensures sendable { IfOk result (λ near. near.sendable ≡ named (of_found (sendable_at (shown S.meaning nodes.now) near.reach) near.found) []) }
    {
        let reach = Reach::of(alloc, ports, tasks)?;
        let found = Found::of(alloc, nodes, ports, &reach, tasks)?;
        let (known, sendable) = near_servers(alloc, nodes, &reach, &found)?;
        Ok(Near {
            reach,
            found,
            known,
            sendable,
        })
    }
}

/// The servers of these nodes that are known, and those that may be sent away.
fn near_servers<S: Server>(
    alloc: Global,
    nodes: &Nodes<S>,
    reach: &Reach,
    found: &Found,
) -> Result<(NameSet, NameSet), AllocError>
    ensures known { IfOk result (λ near. near.0 ≡ named (of_found (known_at (shown S.meaning nodes.now)) found.now) []) }
    ensures sendable { IfOk result (λ near. near.1 ≡ named (of_found (sendable_at (shown S.meaning nodes.now) reach.now) found.now) []) }
{
    let known = known_servers(alloc, nodes, found)?;
    Ok((known, sendable_servers(alloc, nodes, reach, found)?))
}

/// The servers of these nodes, and those that are active on them.
fn known_servers<S: Server>(
    alloc: Global,
    nodes: &Nodes<S>,
    found: &Found,
) -> Result<NameSet, AllocError>
    ensures { IfOk result (λ names. names ≡ named (of_found (known_at (shown S.meaning nodes.now)) found.now) []) }
{
    let mut names = NameSet::new(alloc);
    for i in 0..found.len() {
        add_known(&mut names, nodes, found, i)?;
    }
    Ok(names)
}

/// Those of the node at an index.
fn add_known<S: Server>(
    names: &mut NameSet,
    nodes: &Nodes<S>,
    found: &Found,
    index: usize,
) -> Result<(), AllocError>
    ensures { OnOk result (names.new ≡ named (at_entry (known_at (shown S.meaning nodes.now)) (slice_get found.now index)) names.old) }
{
    match found.get(index) {
        Some((node, _)) => add_both(names, nodes, node),
        None => Ok(()),
    }
}

/// The server of a node, and the one that is active on it.
fn add_both<S: Server>(
    names: &mut NameSet,
    nodes: &Nodes<S>,
    node: NodeName,
) -> Result<(), AllocError>
    ensures { OnOk result (names.new ≡ named (known_at (shown S.meaning nodes.now) node) names.old) }
{
    add_maybe(names, nodes.home(node))?;
    add_maybe(names, nodes.active(node))
}

/// A name, if there is one.
fn add_maybe(names: &mut NameSet, name: Option<Name>) -> Result<(), AllocError>
    ensures { OnOk result (names.new ≡ named (maybe_named name) names.old) }
{
    match name {
        Some(name) => names.add(name),
        None => Ok(()),
    }
}

/// The servers of these nodes that could be served, and those that are active on one that is owned.
fn sendable_servers<S: Server>(
    alloc: Global,
    nodes: &Nodes<S>,
    reach: &Reach,
    found: &Found,
) -> Result<NameSet, AllocError>
    ensures { IfOk result (λ names. names ≡ named (of_found (sendable_at (shown S.meaning nodes.now) reach.now) found.now) []) }
{
    let mut names = NameSet::new(alloc);
    for i in 0..found.len() {
        add_sendable(&mut names, nodes, reach, found, i)?;
    }
    Ok(names)
}

/// Those of the node at an index.
fn add_sendable<S: Server>(
    names: &mut NameSet,
    nodes: &Nodes<S>,
    reach: &Reach,
    found: &Found,
    index: usize,
) -> Result<(), AllocError>
    ensures { OnOk result (names.new ≡ named (at_entry (sendable_at (shown S.meaning nodes.now) reach.now) (slice_get found.now index)) names.old) }
{
    match found.get(index) {
        Some((node, _)) => add_sent(names, nodes, reach, node),
        None => Ok(()),
    }
}

/// The server of a node, if it could be served, and the one that is active on it, if it is owned.
fn add_sent<S: Server>(
    names: &mut NameSet,
    nodes: &Nodes<S>,
    reach: &Reach,
    node: NodeName,
) -> Result<(), AllocError>
    ensures { OnOk result (names.new ≡ named (sendable_at (shown S.meaning nodes.now) reach.now node) names.old) }
{
    add_served(names, nodes, reach, node)?;
    add_owned(names, nodes, reach, node)
}

/// The server of a node, if it is there and could be served.
fn add_served<S: Server>(
    names: &mut NameSet,
    nodes: &Nodes<S>,
    reach: &Reach,
    node: NodeName,
) -> Result<(), AllocError>
    ensures { OnOk result (names.new ≡ named (served_in (shown S.meaning nodes.now) reach.now (home_in (shown S.meaning nodes.now).sites node)) names.old) }
{
    let Some(server) = nodes.home(node) else {
        return Ok(());
    };
    match nodes.ids_of(server) {
        Some(ids) => add_if(names, server, reach.could_serve(ids)),
        None => Ok(()),
    }
}

/// The server that is active on a node, if that is owned.
fn add_owned<S: Server>(
    names: &mut NameSet,
    nodes: &Nodes<S>,
    reach: &Reach,
    node: NodeName,
) -> Result<(), AllocError>
    ensures { OnOk result (names.new ≡ named (owned_by reach.now (header_of (shown S.meaning nodes.now).nodes node) (active_in (shown S.meaning nodes.now).sites node)) names.old) }
{
    let Some(attrs) = nodes.attrs(node) else {
        return Ok(());
    };
    match nodes.active(node) {
        Some(server) => add_if(names, server, reach.owns(&attrs)),
        None => Ok(()),
    }
}

/// A name, where the test holds.
fn add_if(names: &mut NameSet, name: Name, test: bool) -> Result<(), AllocError>
    ensures { OnOk result (names.new ≡ (if test then named_more name names.old else names.old)) }
{
    if test { names.add(name) } else { Ok(()) }
}
