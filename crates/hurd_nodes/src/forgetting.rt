//! Boxes that forget a node.
ghost use Rattle.std.specs.Prelude.{◌≡◌, ◌≤◌, ℕ};
ghost use Rattle.indexmap.specs.IndexMap.{spare};
ghost use Rattle.hurd_nodes.specs.Held.{home_in, mean, seats_of, sites_of};
ghost use Rattle.hurd_nodes.specs.Quiet.{AreCalm, Lists};
ghost use Rattle.hurd_nodes.specs.Shown.{are_kin, forgotten, forgotten_elsewhere};
ghost use Rattle.hurd_nodes.specs.Tables.{AreKept};

use crate::search::{home_of, place_of_home};
use crate::seat::{Seats, Sites};
use hurd_creds::{NodeName, ServerName};
use hurd_trans_iface::Server;

/// Lets the box of a server forget a node, if one is given that is there.
#[tactic(auto, using(crate::proofs::TakeLaws::takings, crate::proofs::SeatLaws::boxes))]
pub(crate) fn forget_at<S: Server>(seats: &mut Seats<S>, home: Option<ServerName>, node: NodeName)
    ensures boxes { mean S.meaning (seats_of seats.new.entries) ≡ forgotten node home (mean S.meaning (seats_of seats.old.entries)) }
    ensures kept { (rs es : _) (k : ℕ) → AreKept rs seats.old.entries es k → AreKept rs seats.new.entries es k }
    ensures calm { (k : ℕ) → AreCalm S.meaning seats.old.entries k → AreCalm S.meaning seats.new.entries k }
    ensures lists { (o n : _) → Lists seats.old.entries o n → Lists seats.new.entries o n }
    ensures room { spare seats.old ≤ spare seats.new }
{
    if let Some(i) = place_of_home(seats, home) {
        seats[i].server.forget(node);
    }
}

/// Lets the box of a node's server forget it, if it has a server that another node hasn't too. The node's site stays for now.
pub(crate) fn forget_elsewhere<S: Server>(
    sites: &Sites,
    seats: &mut Seats<S>,
    node: NodeName,
    kin: NodeName,
)
    ensures boxes { let m = sites_of sites.now.entries in
        mean S.meaning (seats_of seats.new.entries) ≡ forgotten_elsewhere node (home_in m node) (home_in m kin) (mean S.meaning (seats_of seats.old.entries)) }
    ensures kept { (es : _) (k : ℕ) → AreKept sites.now.entries seats.old.entries es k → AreKept sites.now.entries seats.new.entries es k }
    ensures calm { (k : ℕ) → AreCalm S.meaning seats.old.entries k → AreCalm S.meaning seats.new.entries k }
    ensures lists { (o n : _) → Lists seats.old.entries o n → Lists seats.new.entries o n }
{
    let home = home_of(sites, node);
    if !are_kin(home, home_of(sites, kin)) {
        forget_at(seats, home, node);
    }
}

/// Whether two servers are given, and are the same.
pub(crate) fn are_kin(home: Option<ServerName>, other: Option<ServerName>) -> bool
    ensures { result ≡ are_kin home other }
{
    match (home, other) {
        (Some(server), Some(kin)) => server == kin,
        _ => false,
    }
}
