//! The servers of nodes, by what is seen of these.
ghost use Rattle.std.specs.Prelude.{◌≡◌, ◌≤◌, ◌^◌};
ghost use Rattle.std.proofs.Common.{◌+◌};
ghost use Rattle.hurd_places.specs.Places.{bound_by, bound_to, first_bound, is_covered, is_server, number_in, server_node, target_at, target_number, targets_in, targets_of};

use hurd_creds::{NodeName, ServerName};
use hurd_sight::Found;
use hurd_views::{NodeRow, ServerRow, View};

/// How a node is bound to a server: it is the server's, or the server is active on it.
#[derive(Clone, Copy)]
pub(crate) enum Bond {
    Home,
    Active,
}

/// The server to which a node is bound so, where its row is seen.
fn bound_by(bond: Bond, row: &Option<NodeRow>) -> Option<ServerName>
    ensures { result ≡ bound_by bond row.now }
{
    match row {
        Some(row) => match bond {
            Bond::Home => row.home,
            Bond::Active => row.active,
        },
        None => None,
    }
}

/// The same of a node by its name.
fn bound_to(view: &View, bond: Bond, node: NodeName) -> Option<ServerName>
    ensures { result ≡ bound_to view.now bond node }
{
    match view.rows.get(node) {
        Some(row) => bound_by(bond, &row.attributes),
        None => None,
    }
}

/// Whether a server is active on a node.
pub(crate) fn is_covered(view: &View, node: NodeName) -> bool
    ensures { result ≡ is_covered view.now node }
{
    bound_to(view, Bond::Active, node).is_some()
}

/// The targets of a server, where they are seen.
fn targets_in(row: &Option<Option<ServerRow>>) -> &[NodeName]
    ensures { result.now ≡ targets_in row.now }
{
    match row {
        Some(Some(row)) => row.targets.as_slice(),
        _ => &[],
    }
}

/// The same of a server by its name, if there is one.
fn targets_of(view: &View, server: Option<ServerName>) -> &[NodeName]
    ensures { result.now ≡ targets_of view.now server }
{
    let Some(server) = server else {
        return &[];
    };
    match view.rows.get(server) {
        Some(row) => targets_in(&row.server),
        None => &[],
    }
}

/// The number of a node among some, where the first has this number.
fn number_in(node: NodeName, first: u64, nodes: &[NodeName]) -> Option<u64>
    requires { first ≤ 2 ^ 63 }
    ensures { result ≡ number_in node first nodes.now }
{
    let mut number = first;
    for other in nodes {
        if node == *other {
            return Some(number);
        }
        number += 1;
    }
    None
}

/// The number of a node among some targets, and then among others that count on; 0 where it isn't there.
fn target_number(node: NodeName, own: &[NodeName], active: &[NodeName]) -> u64
    ensures { result ≡ target_number node own.now active.now }
{
    if let Some(number) = number_in(node, 1, own) {
        return number;
    }
    match number_in(node, own.len() as u64 + 1, active) {
        Some(number) => number,
        None => 0,
    }
}

/// The number of a target of a node: those of its own server come first, then those of the one that is active on it.
pub(crate) fn target_at(view: &View, node: NodeName, target: NodeName) -> u64
    ensures { result ≡ target_at view.now node target }
{
    let own = targets_of(view, bound_to(view, Bond::Home, node));
    let active = targets_of(view, bound_to(view, Bond::Active, node));
    target_number(target, own, active)
}

/// Whether a server is the one that may be there.
fn is_server(server: ServerName, other: Option<ServerName>) -> bool
    ensures { result ≡ is_server server other }
{
    match other {
        Some(other) => server == other,
        None => false,
    }
}

/// The first found node that is bound to a server.
#[tactic(auto, using(crate::proofs::PlaceLaws::here))]
fn first_bound(view: &View, bond: Bond, server: ServerName, found: &Found) -> Option<NodeName>
    ensures { result ≡ first_bound view.now bond server found.now }
{
    for i in 0..found.len() {
        let Some((node, _)) = found.get(i) else {
            return None;
        };
        if is_server(server, bound_to(view, bond, node)) {
            return Some(node);
        }
    }
    None
}

/// The first node of a server, or else the first on which it is active.
pub(crate) fn server_node(view: &View, server: ServerName) -> Option<NodeName>
    ensures { result ≡ server_node view.now server }
{
    let found = view.sight.nodes();
    match first_bound(view, Bond::Home, server, found) {
        Some(node) => Some(node),
        None => first_bound(view, Bond::Active, server, found),
    }
}
