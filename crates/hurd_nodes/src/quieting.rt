//! Servers that were asked whether they stay, and need not be asked any more.
ghost use Rattle.std.specs.Prelude.{◌≡◌, ◌<◌, true, false, length, Some, slice_get, swap};
ghost use Rattle.std.specs.List.{list_all};
ghost use Rattle.std.specs.FinMap as fin;
ghost use Rattle.hurd_creds.specs.Names.{same_name};
ghost use Rattle.hurd_trans_iface.specs.Nodes.{is_entered_at};
ghost use Rattle.hurd_nodes.specs.Held.{AreApart, seat_key, seats_of, sites_of};
ghost use Rattle.hurd_nodes.specs.Quiet.{AreAmong, AreCalm, IsCalm, IsQuiet};
ghost use Rattle.hurd_nodes.specs.Tables.{AreTables};

use crate::search::is_active_on;
use crate::seat::{Seats, Sites};
use hurd_creds::NodeName;
use hurd_trans_iface::Server;

/// Lets those go that are asked and need not be; answers how many are asked then.
pub(crate) fn quieten<S: Server>(sites: &Sites, seats: &mut Seats<S>, asked: usize) -> usize
    requires tables { AreTables sites.now.entries seats.old.entries asked }
    requires calm { AreCalm S.meaning seats.old.entries asked }
    ensures is { seats_of seats.new.entries ≡ seats_of seats.old.entries }
    ensures tables { AreTables sites.now.entries seats.new.entries result }
    ensures calm { AreCalm S.meaning seats.new.entries result }
{
    let mut left = asked;
    for turn in 0..asked {
        left = let_go(sites, seats, left, asked - 1 - turn);
    }
    left
}

/// Lets the server go whose seat has this index, if it is asked and need not be; answers how many are asked then.
fn let_go<S: Server>(sites: &Sites, seats: &mut Seats<S>, asked: usize, i: usize) -> usize
    requires tables { AreTables sites.now.entries seats.old.entries asked }
    requires calm { AreCalm S.meaning seats.old.entries asked }
    ensures is { seats_of seats.new.entries ≡ seats_of seats.old.entries }
    ensures tables { AreTables sites.now.entries seats.new.entries result }
    ensures calm { AreCalm S.meaning seats.new.entries result }
{
    if i >= asked || asked > seats.len() {
        return asked;
    }
    if !is_quiet(sites, seats, i) {
        return asked;
    }
    exchange(seats, i, asked - 1);
    asked - 1
}

/// Two seats change places.
#[tactic(auto, using(crate::proofs::AskedLaws::asks))]
fn exchange<S>(seats: &mut Seats<S>, i: usize, j: usize)
    requires { (i < length seats.old.entries) × (j < length seats.old.entries) }
    ensures entries { seats.new.entries ≡ swap seats.old.entries i j }
    ensures is { seats_of seats.new.entries ≡ seats_of seats.old.entries }
    ensures apart { AreApart seat_key seats.new.entries }
    ensures among { AreAmong seats.old.entries seats.new.entries }
{
    seats.swap_indices(i, j);
}

/// Whether the server whose seat has this index is active where it was attached, and has no node without an entry but its root.
fn is_quiet<S: Server>(sites: &Sites, seats: &Seats<S>, i: usize) -> bool
    ensures { result ≡ true → (x : _) → slice_get seats.now.entries i ≡ Some x → IsQuiet (sites_of sites.now.entries) x × IsCalm S.meaning x }
{
    match seats.get_index(i) {
        Some((server, seat)) => {
            is_active_on(sites, *server, seat.at) && is_calm(&seat.server, seat.root)
        }
        None => false,
    }
}

/// Whether a server says that it has no node without an entry but its root.
fn is_calm<S: Server>(server: &S, root: NodeName) -> bool
    ensures { result ≡ true → (n : _) → is_entered_at (fin.get (S.meaning server.now).nodes n) ≡ false → n ≡ root }
{
    match server.nameless() {
        Some(names) => are_all(names, root),
        None => false,
    }
}

/// Whether each of these is this node.
fn are_all(names: &[NodeName], node: NodeName) -> bool
    ensures { result ≡ list_all (λ n. same_name n node) names.now }
{
    names.iter().all(|name| *name == node)
}
