//! Sites and seats by name.
ghost use Rattle.std.specs.Option.{option_map};
ghost use Rattle.std.specs.Prelude.{◌≡◌, ◌<◌, ◌≤◌, ◌⊎◌, ℕ, is_some, length, slice_get, Some, None, option_and_then, IfOk, IfSome};
ghost use Rattle.std.specs.FinMap as fin;
ghost use Rattle.indexmap.specs.IndexMap.{spare};
ghost use Rattle.hurd_creds.specs.NameMaps.{edit, place_by};
ghost use Rattle.hurd_creds.specs.Names.{is_one};
ghost use Rattle.hurd_nodes.specs.Held.{AreApart, active_in, home_in, new_site, place_of_home, row_key, sites_of, seat_key, seat_value, seats_of};
ghost use Rattle.hurd_nodes.specs.Quiet.{AreOld, Behind, IsUnknown, Lists};
ghost use Rattle.hurd_nodes.specs.Tables.{AreTables};
ghost use Rattle.hurd_nodes.specs.Shown.{with_active, with_home};
ghost use Rattle.hurd_nodes.specs.Settle.{any_in};

use crate::aims::Aims;
use crate::asked::{active_on, ask, ask_active};
use crate::seat::{Seat, Seats, Site, Sites};
use hurd_creds::{NodeName, ServerName, is_one};
use std::alloc::AllocError;

/// The server of a node.
#[tactic(auto, using(crate::proofs::HomeLaws::by_map))]
#[inline(always)]
pub(crate) fn home_of(sites: &Sites, node: NodeName) -> Option<ServerName>
    ensures { result ≡ home_in (sites_of sites.now.entries) node }
{
    Some(sites.get(&node)?.home)
}

/// The server of a node, and the one that is active on it: the node is looked up once.
#[inline(always)]
#[tactic(auto, using(crate::proofs::HomeLaws::by_map))]
pub(crate) fn servers_at(sites: &Sites, node: NodeName) -> (Option<ServerName>, Option<ServerName>)
    ensures home { result.0 ≡ home_in (sites_of sites.now.entries) node }
    ensures active { result.1 ≡ active_in (sites_of sites.now.entries) node }
{
    match sites.get(&node) {
        Some(site) => (Some(site.home), site.active),
        None => (None, None),
    }
}

/// Whether the first seat is that of this server.
#[inline(always)]
fn is_first<S>(seats: &Seats<S>, name: ServerName) -> bool
    ensures { result ≡ is_one name (option_map seat_key (slice_get seats.now.entries 0)) }
{
    match seats.get_index(0) {
        Some((first, _)) => name == *first,
        None => false,
    }
}

/// The index of the seat of a server. The first seat is looked at first: where there is one server alone, that is it.
#[inline(always)]
pub(crate) fn place_of_seat<S>(seats: &Seats<S>, name: ServerName) -> Option<usize>
    ensures is { result ≡ place_by seat_key name seats.now.entries }
    ensures below { IfSome result (λ i. i < length seats.now.entries) }
{
    if is_first(seats, name) {
        return Some(0);
    }
    seats.get_index_of(&name)
}

/// The index of the seat of a server, if one is given.
#[inline(always)]
pub(crate) fn place_of_home<S>(seats: &Seats<S>, home: Option<ServerName>) -> Option<usize>
    ensures is { result ≡ place_of_home seats.now.entries home }
    ensures below { IfSome result (λ i. i < length seats.now.entries) }
{
    match home {
        Some(name) => place_of_seat(seats, name),
        None => None,
    }
}

/// The index of the seat of a node's server.
#[inline(always)]
pub(crate) fn place_of_server<S>(sites: &Sites, seats: &Seats<S>, node: NodeName) -> Option<usize>
    ensures is { result ≡ place_of_home seats.now.entries (home_in (sites_of sites.now.entries) node) }
    ensures below { IfSome result (λ i. i < length seats.now.entries) }
{
    place_of_home(seats, home_of(sites, node))
}

/// Gives a node a site with this server, in place of the one that it has. There is room for one more.
#[tactic(auto, using(crate::proofs::HomeLaws::by_map))]
pub(crate) fn put_site(sites: &mut Sites, node: NodeName, server: ServerName)
    requires { 0 < spare sites.old }
    ensures is { sites_of sites.new.entries ≡ fin.insert (sites_of sites.old.entries) node (new_site server) }
    ensures apart { AreApart row_key sites.new.entries }
{
    let site = Site {
        home: server,
        active: None,
    };
    sites.insert(node, site).unwrap();
}

/// Takes out the site of a node; answers the node's server, and the one that is active on it.
#[tactic(auto, using(crate::proofs::HomeLaws::by_map))]
pub(crate) fn remove_site(
    sites: &mut Sites,
    node: NodeName,
) -> (Option<ServerName>, Option<ServerName>)
    ensures home { result.0 ≡ home_in (sites_of sites.old.entries) node }
    ensures active { result.1 ≡ active_in (sites_of sites.old.entries) node }
    ensures is { sites_of sites.new.entries ≡ fin.remove (sites_of sites.old.entries) node }
    ensures apart { AreApart row_key sites.new.entries }
    ensures room { spare sites.old ≤ spare sites.new }
{
    match sites.swap_remove(&node) {
        Some(site) => (Some(site.home), site.active),
        None => (None, None),
    }
}

/// Says what is active on a node from now on, if the node has a site; whether it has one.
#[tactic(auto, using(crate::proofs::HomeLaws::by_map))]
pub(crate) fn set_active(sites: &mut Sites, node: NodeName, active: Option<ServerName>) -> bool
    ensures there { result ≡ is_some (fin.get (sites_of sites.old.entries) node) }
    ensures is { sites_of sites.new.entries ≡ edit node (with_active active) (sites_of sites.old.entries) }
    ensures apart { AreApart row_key sites.old.entries → AreApart row_key sites.new.entries }
    ensures room { spare sites.old ≤ spare sites.new }
{
    match sites.get_mut(&node) {
        Some(site) => {
            site.active = active;
            true
        }
        None => false,
    }
}

/// Gives a node a site with the server that another has, if it has one; answers how many servers are asked then. There is room for one more.
pub(crate) fn put_kin<S>(
    sites: &mut Sites,
    seats: &mut Seats<S>,
    asked: usize,
    node: NodeName,
    kin: NodeName,
) -> usize
    requires room { 0 < spare sites.old }
    requires tables { AreTables sites.old.entries seats.old.entries asked }
    requires lists { Lists seats.old.entries (home_in (sites_of sites.old.entries) kin) node }
    ensures is { sites_of sites.new.entries ≡ with_home node (home_in (sites_of sites.old.entries) kin) (sites_of sites.old.entries) }
    ensures seats { seats_of seats.new.entries ≡ seats_of seats.old.entries }
    ensures tables { AreTables sites.new.entries seats.new.entries result }
    ensures old { AreOld asked seats.old.entries result seats.new.entries }
{
    let Some(server) = home_of(sites, kin) else {
        return asked;
    };
    let asked = ask_active(sites, seats, asked, node);
    put_site(sites, node, server);
    asked
}

/// Gives a server a seat, in place of the one that it has. There is room for one more.
#[tactic(auto, using(crate::proofs::HomeLaws::by_map, crate::proofs::AskedLaws::put))]
pub(crate) fn put_seat<S: Drop>(seats: &mut Seats<S>, name: ServerName, seat: Seat<S>)
    requires { 0 < spare seats.old }
    ensures is { seats_of seats.new.entries ≡ fin.insert (seats_of seats.old.entries) name (seat_value seat) }
    ensures apart { AreApart seat_key seats.new.entries }
    ensures more { (k : ℕ) (x : _) → Behind k seats.new.entries x → (x ≡ (name, seat)) ⊎ Behind k seats.old.entries x }
{
    seats.insert(name, seat).unwrap();
}

/// Seats a server that comes, whose root is to have a site and which no site knows; answers how many servers are asked then. There is room for one more.
pub(crate) fn seat_new<S: Drop>(
    sites: &mut Sites,
    seats: &mut Seats<S>,
    asked: usize,
    name: ServerName,
    node: NodeName,
    seat: Seat<S>,
) -> usize
    requires room { (0 < spare sites.old) × (0 < spare seats.old) }
    requires tables { AreTables sites.old.entries seats.old.entries asked }
    requires unknown { IsUnknown (sites_of sites.old.entries) name }
    requires absent { fin.get (seats_of seats.old.entries) name ≡ None }
    requires at { seat.at ≡ Some node }
    ensures sites { sites_of sites.new.entries ≡ edit node (with_active (Some name)) (fin.insert (sites_of sites.old.entries) seat.root (new_site name)) }
    ensures seats { seats_of seats.new.entries ≡ fin.insert (seats_of seats.old.entries) name (seat_value seat) }
    ensures tables { AreTables sites.new.entries seats.new.entries result }
    ensures old { (x : _) → Behind result seats.new.entries x → (x ≡ (name, seat)) ⊎ Behind asked seats.old.entries x }
{
    let first = ask_active(sites, seats, asked, seat.root);
    put_site(sites, seat.root, name);
    let then = ask_active(sites, seats, first, node);
    let seated = set_active(sites, node, Some(name));
    put_seat(seats, name, seat);
    if seated {
        return then;
    }
    ask(seats, then, name)
}

/// Takes room for one more server, which has so many targets. `ENOMEM`: what is in the tables is as it was.
pub(crate) fn reserve_rows<S>(
    sites: &mut Sites,
    seats: &mut Seats<S>,
    aims: &mut Aims,
    targets: usize,
) -> Result<(), AllocError>
    ensures sites { sites.new.entries ≡ sites.old.entries }
    ensures seats { seats.new.entries ≡ seats.old.entries }
    ensures aims { aims.new.entries ≡ aims.old.entries }
    ensures room { IfOk result (λ u. (0 < spare sites.new) × (0 < spare seats.new) × (targets ≤ spare aims.new)) }
{
    sites.reserve(1)?;
    seats.reserve(1)?;
    aims.reserve(targets)
}

/// Whether a server is active on this node, if one is given.
pub(crate) fn is_active_on(sites: &Sites, server: ServerName, node: Option<NodeName>) -> bool
    ensures { result ≡ is_one server (option_and_then (active_in (sites_of sites.now.entries)) node) }
{
    let Some(node) = node else {
        return false;
    };
    is_one(server, active_on(sites, node))
}

/// Whether a node is of this server.
pub(crate) fn is_own(sites: &Sites, server: ServerName, node: NodeName) -> bool
    ensures { result ≡ is_one server (home_in (sites_of sites.now.entries) node) }
{
    is_one(server, home_of(sites, node))
}
