//! What the files that entries name have in all.
ghost use Rattle.std.specs.Prelude.{◌≡◌};
ghost use Rattle.std.specs.FinMap as fin;
ghost use Rattle.hurd_trans_iface.specs.Totals.{overfills};
ghost use Rattle.hurd_tmpfs.specs.Totals.{IsTotal, WasTotal, counted_at};
ghost use Rattle.hurd_tmpfs.specs.Tree.{nodes_of};

use crate::inodes::Inodes;
use crate::search::find;
use hurd_creds::NodeName;

/// What a node counts for, if it is there.
pub(crate) fn counted(nodes: &Inodes, node: NodeName) -> u64
    ensures { result ≡ counted_at (fin.get (nodes_of nodes.now) node) }
{
    match find(nodes, node) {
        Some(inode) => inode.counted(),
        None => 0,
    }
}

/// The total where one node that counted for so much counts for what it does now.
pub(crate) fn recounted(nodes: &Inodes, total: u128, node: NodeName, before: u64) -> u128
    requires { WasTotal (nodes_of nodes.now) node before total }
    ensures { IsTotal (nodes_of nodes.now) result }
{
    // There are fewer than 2^63 names, and each node counts for less than 2^64: 128 bits hold the sum.
    let _count = nodes.keys.len();
    total - before as u128 + counted(nodes, node) as u128
}

/// Whether what counted for so much comes to count for more than there is space for.
pub(crate) fn overfills(space: Option<u64>, before: u64, after: u64) -> bool
    ensures { result ≡ overfills space before after }
{
    match space {
        Some(space) => after.saturating_sub(before) > space,
        None => false,
    }
}
