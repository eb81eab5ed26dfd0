//! A server that goes: its seat, the sites of its nodes, and its place on the node where it is active.
//!
//! Its seat says where it was attached, and lists its nodes: so no other site is looked at.
ghost use Rattle.std.specs.Prelude.{◌≡◌, ◌≢◌, ◌≤◌, ℕ, true, ◌∷◌, Some, None, IfSome};
ghost use Rattle.std.specs.FinMap as fin;
ghost use Rattle.indexmap.specs.IndexMap.{spare};
ghost use Rattle.hurd_creds.specs.NameMaps.{place_by};
ghost use Rattle.hurd_trans_iface.specs.Nodes.{is_listed};
ghost use Rattle.hurd_nodes.specs.Held.{AreApart, held_of, home_in, row_key, sites_of, seat_key, seat_value, seats_of};
ghost use Rattle.hurd_nodes.specs.Quiet.{AreLess, AreOld, Behind, IsClearing, vacated_at};
ghost use Rattle.hurd_nodes.specs.Tables.{AreKept};
ghost use Rattle.hurd_nodes.specs.Shown.{less_old, without_server};

use crate::aims::{Aims, subtract_targets};
use crate::asked::{ask_given, put_last};
use crate::search::{is_active_on, place_of_seat, remove_site, servers_at, set_active};
use crate::seat::{Seat, Seats, Sites};
use hurd_creds::{NodeName, ServerName, is_one};
use hurd_trans_iface::Server;

/// Takes out a server: the sites of its nodes, wherever it is active itself, and its seat with its box; answers how many servers are asked then.
/// Where it isn't there, nothing changes.
pub(crate) fn remove_server<S: Drop>(
    sites: &mut Sites,
    seats: &mut Seats<S>,
    aims: &mut Aims,
    asked: usize,
    server: ServerName,
) -> usize
    requires { AreKept sites.old.entries seats.old.entries aims.old.entries asked }
    ensures is { held_of sites.new.entries seats.new.entries ≡ without_server (held_of sites.old.entries seats.old.entries) server }
    ensures kept { AreKept sites.new.entries seats.new.entries aims.new.entries result }
    ensures less { AreLess server asked seats.old.entries result seats.new.entries }
    ensures room { (spare sites.old ≤ spare sites.new) × (spare seats.old ≤ spare seats.new) × (spare aims.old ≤ spare aims.new) }
{
    let asked = put_last(seats, asked, server);
    let Some(seat) = take_seat(seats, server) else {
        return asked;
    };
    subtract_targets(aims, &seat.targets);
    let asked = clear_sites(sites, seats, asked, server, seat.root, &seat.own);
    vacate_at(sites, server, seat.at);
    asked
}

/// Takes out the seat of a server, if it is there; the last seat takes its place.
#[tactic(auto, using(crate::proofs::HomeLaws::by_map))]
fn take_seat<S>(seats: &mut Seats<S>, name: ServerName) -> Option<Seat<S>>
    requires { AreApart seat_key seats.old.entries }
    ensures is { seats_of seats.new.entries ≡ fin.remove (seats_of seats.old.entries) name }
    ensures apart { AreApart seat_key seats.new.entries }
    ensures less { (k : ℕ) → AreLess name k seats.old.entries k seats.new.entries }
    ensures taken { IfSome result (λ seat. Behind 0 seats.old.entries (name, seat)) }
    ensures found { IfSome result (λ seat. fin.get (seats_of seats.old.entries) name ≡ Some (seat_value seat)) }
    ensures none { result ≡ None → place_by seat_key name seats.old.entries ≡ None }
    ensures room { spare seats.old ≤ spare seats.new }
{
    seats.swap_remove(&name)
}

/// Takes out the sites of a server's nodes: its root, and those on its list. Answers how many servers are asked then.
fn clear_sites<S>(
    sites: &mut Sites,
    seats: &mut Seats<S>,
    asked: usize,
    server: ServerName,
    root: NodeName,
    own: &[NodeName],
) -> usize
    requires { AreApart seat_key seats.old.entries }
    ensures step { IsClearing server (sites_of sites.old.entries) (sites_of sites.new.entries) asked seats.old.entries result seats.new.entries }
    ensures gone { (n : _) → is_listed n (root ∷ own.now) ≡ true → home_in (sites_of sites.new.entries) n ≢ Some server }
    ensures sites_apart { AreApart row_key sites.old.entries → AreApart row_key sites.new.entries }
    ensures is { seats_of seats.new.entries ≡ seats_of seats.old.entries }
    ensures apart { AreApart seat_key seats.new.entries }
    ensures room { (spare sites.old ≤ spare sites.new) × (spare seats.old ≤ spare seats.new) }
{
    let mut asked = clear_site(sites, seats, asked, server, root);
    for node in own {
        asked = clear_site(sites, seats, asked, server, *node);
    }
    asked
}

/// Takes out the site of a node, if it is one of this server; the server that is active there is asked from then on. Answers how many are asked then.
fn clear_site<S>(
    sites: &mut Sites,
    seats: &mut Seats<S>,
    asked: usize,
    server: ServerName,
    node: NodeName,
) -> usize
    requires { AreApart seat_key seats.old.entries }
    ensures step { IsClearing server (sites_of sites.old.entries) (sites_of sites.new.entries) asked seats.old.entries result seats.new.entries }
    ensures gone { home_in (sites_of sites.new.entries) node ≢ Some server }
    ensures sites_apart { AreApart row_key sites.old.entries → AreApart row_key sites.new.entries }
    ensures is { seats_of seats.new.entries ≡ seats_of seats.old.entries }
    ensures apart { AreApart seat_key seats.new.entries }
    ensures room { (spare sites.old ≤ spare sites.new) × (spare seats.old ≤ spare seats.new) }
{
    let (home, active) = servers_at(sites, node);
    if !is_one(server, home) {
        return asked;
    }
    let asked = ask_given(seats, asked, active);
    remove_site(sites, node);
    asked
}

/// A server is active on this node no more, if one is given, and it was.
fn vacate_at(sites: &mut Sites, server: ServerName, at: Option<NodeName>)
    ensures is { sites_of sites.new.entries ≡ vacated_at server at (sites_of sites.old.entries) }
    ensures apart { AreApart row_key sites.old.entries → AreApart row_key sites.new.entries }
    ensures room { spare sites.old ≤ spare sites.new }
{
    if let Some(node) = at {
        if is_active_on(sites, server, at) {
            set_active(sites, node, None);
        }
    }
}

/// Tells the box of a server, if it is there, that it is sent away.
#[tactic(auto, using(crate::proofs::SeatedLaws::seated))]
fn tell_away<S: Server>(seats: &mut Seats<S>, server: ServerName)
    ensures others { fin.remove (seats_of seats.new.entries) server ≡ fin.remove (seats_of seats.old.entries) server }
    ensures kept { (sites es : _) (k : ℕ) → AreKept sites seats.old.entries es k → AreKept sites seats.new.entries es k }
    ensures old { (k : ℕ) (x : _) → x.0 ≢ server → Behind k seats.new.entries x → Behind k seats.old.entries x }
    ensures room { spare seats.old ≤ spare seats.new }
{
    if let Some(i) = place_of_seat(seats, server) {
        seats[i].server.goaway();
    }
}

/// Sends a server away: its box is told, and then it is taken out as by `remove_server`.
pub(crate) fn send_away<S: Server>(
    sites: &mut Sites,
    seats: &mut Seats<S>,
    aims: &mut Aims,
    asked: usize,
    server: ServerName,
) -> usize
    requires { AreKept sites.old.entries seats.old.entries aims.old.entries asked }
    ensures is { held_of sites.new.entries seats.new.entries ≡ without_server (held_of sites.old.entries seats.old.entries) server }
    ensures kept { AreKept sites.new.entries seats.new.entries aims.new.entries result }
    ensures less { AreLess server asked seats.old.entries result seats.new.entries }
    ensures room { (spare sites.old ≤ spare sites.new) × (spare seats.old ≤ spare seats.new) × (spare aims.old ≤ spare aims.new) }
{
    tell_away(seats, server);
    remove_server(sites, seats, aims, asked, server)
}

/// Sends the server away that leaves, if one does.
pub(crate) fn remove_old<S: Server>(
    sites: &mut Sites,
    seats: &mut Seats<S>,
    aims: &mut Aims,
    asked: usize,
    old: Option<ServerName>,
) -> usize
    requires { AreKept sites.old.entries seats.old.entries aims.old.entries asked }
    ensures is { held_of sites.new.entries seats.new.entries ≡ less_old (held_of sites.old.entries seats.old.entries) old }
    ensures kept { AreKept sites.new.entries seats.new.entries aims.new.entries result }
    ensures old { AreOld asked seats.old.entries result seats.new.entries }
    ensures room { (spare sites.old ≤ spare sites.new) × (spare seats.old ≤ spare seats.new) × (spare aims.old ≤ spare aims.new) }
{
    match old {
        Some(server) => send_away(sites, seats, aims, asked, server),
        None => asked,
    }
}
