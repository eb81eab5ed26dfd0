//! The list that a server's seat keeps of its nodes: all but the root, and some that are gone or were never made.
ghost use Rattle.std.specs.Prelude.{◌≡◌, ◌<◌, ℕ, true, ◌||◌, ◌&&◌, length, Some, OnOk};
ghost use Rattle.std.specs.List.{list_any};
ghost use Rattle.hurd_creds.specs.Names.{is_one, same_name};
ghost use Rattle.hurd_trans_iface.specs.Nodes.{is_listed};
ghost use Rattle.hurd_nodes.specs.Held.{AreApart, home_in, place_of_home, seat_key, seats_of, sites_of};
ghost use Rattle.hurd_trans_iface.specs.Meaning.{Meaning};
ghost use Rattle.hurd_nodes.specs.Quiet.{AreCalm, Behind, IsTold, Lists};
ghost use Rattle.hurd_nodes.specs.declared.seat.Seat.{Seat};
ghost use Rattle.hurd_nodes.specs.Tables.{AreTables};
ghost use Rattle.hurd_nodes.specs.Settle.{any_in};

use crate::namings::Namings;
use crate::search::{home_of, is_active_on, is_own};
use crate::seat::{Seat, Seats, Sites};
use hurd_creds::{NodeName, ServerName};
use std::alloc::AllocError;

/// Puts a node that is to be made on the list of the seat at this index, which is that of another node's server. Where the list is full it is weeded first, and then
/// grows, unless half of it is free.
///
/// `ENOMEM`: what is held is as it was.
pub(crate) fn list_node<S>(
    sites: &Sites,
    seats: &mut Seats<S>,
    i: usize,
    node: NodeName,
    kin: NodeName,
) -> Result<(), AllocError>
    requires apart { AreApart seat_key seats.old.entries }
    requires place { Some i ≡ place_of_home seats.old.entries (home_in (sites_of sites.now.entries) kin) }
    requires below { i < length seats.old.entries }
    ensures is { seats_of seats.new.entries ≡ seats_of seats.old.entries }
    ensures place { Some i ≡ place_of_home seats.new.entries (home_in (sites_of sites.now.entries) kin) }
    ensures below { i < length seats.new.entries }
    ensures tables { (k : ℕ) → AreTables sites.now.entries seats.old.entries k → AreTables sites.now.entries seats.new.entries k }
    ensures calm { (f : S → Meaning) (k : ℕ) → AreCalm f seats.old.entries k → AreCalm f seats.new.entries k }
    ensures names { (k : ℕ) (x : _) → Behind k seats.new.entries x → (y : Seat S) × Behind k seats.old.entries (x.0, y) }
    ensures lists { OnOk result (Lists seats.new.entries (home_in (sites_of sites.now.entries) kin) node) }
{
    push_own(sites, &mut seats[i].own, node, kin)
}

/// Puts a node on the list of the server of another. `ENOMEM`: that server's nodes are on it as before.
fn push_own(
    sites: &Sites,
    own: &mut Vec<NodeName>,
    node: NodeName,
    kin: NodeName,
) -> Result<(), AllocError>
    ensures kept { let m = sites_of sites.now.entries in
        (n : _) → home_in m n ≡ home_in m kin → is_listed n own.old.items ≡ true → is_listed n own.new.items ≡ true }
    ensures listed { OnOk result (is_listed node own.new.items ≡ true) }
{
    if own.len() == own.capacity() {
        weed(sites, own, kin);
        own.reserve(own.len())?;
    }
    own.push(node)?;
    Ok(())
}

/// Takes off a list what is no node of the server of this one.
fn weed(sites: &Sites, own: &mut Vec<NodeName>, kin: NodeName)
    ensures { let m = sites_of sites.now.entries in
        (n : _) → home_in m n ≡ home_in m kin → is_listed n own.old.items ≡ true → is_listed n own.new.items ≡ true }
{
    if let Some(server) = home_of(sites, kin) {
        own.retain(|node| is_own(sites, server, *node));
    }
}

/// Whether a server keeps itself: it is active on a node, or has one that is named. Its seat tells where to look.
pub(crate) fn keeps_itself<S, N: Namings>(
    sites: &Sites,
    server: ServerName,
    seat: &Seat<S>,
    namings: &N,
) -> bool
    requires { IsTold (sites_of sites.now.entries) (server, seat.now) }
    ensures { let m = sites_of sites.now.entries in
        result ≡ (any_in (λ n r. is_one server r.active) m || any_in (λ n r. same_name server r.home && (N.outside namings.now).held n) m) }
{
    if is_active_on(sites, server, seat.at) {
        return true;
    }
    if is_held(sites, server, seat.root, namings) {
        return true;
    }
    are_held(sites, server, &seat.own, namings)
}

/// Whether one of these is a node of this server, and named.
fn are_held<N: Namings>(sites: &Sites, server: ServerName, nodes: &[NodeName], namings: &N) -> bool
    ensures { result ≡ list_any (λ n. is_one server (home_in (sites_of sites.now.entries) n) && (N.outside namings.now).held n) nodes.now }
{
    nodes
        .iter()
        .any(|node| is_held(sites, server, *node, namings))
}

/// Whether a node is of this server, and named.
fn is_held<N: Namings>(sites: &Sites, server: ServerName, node: NodeName, namings: &N) -> bool
    ensures { result ≡ (is_one server (home_in (sites_of sites.now.entries) node) && (N.outside namings.now).held node) }
{
    is_own(sites, server, node) && namings.names(node)
}
