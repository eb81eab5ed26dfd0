//! How often servers aim at each node.
ghost use Rattle.std.specs.Prelude.{◌≡◌, ◌≤◌, ◌+◌, length, nat_lt};
ghost use Rattle.indexmap.specs.IndexMap.{spare};
ghost use Rattle.hurd_creds.specs.declared.name.Name.{Name};
ghost use Rattle.hurd_creds.specs.Counts.{counted};
ghost use Rattle.hurd_nodes.specs.Aims.{listings};

use hurd_creds::NodeName;
use hurd_creds::counts::{Counts, add, count, subtract};

/// How often each node is a target of a server.
pub(crate) type Aims = Counts;

/// Whether a node is a target of a server. No search.
pub(crate) fn is_aimed(aims: &Aims, node: NodeName) -> bool
    ensures { result ≡ nat_lt 0 (counted aims.now.entries node) }
{
    count(aims, node) > 0
}

/// Counts each of these nodes once more. There is room for as many.
pub(crate) fn add_targets(aims: &mut Aims, targets: &[NodeName])
    requires room { length targets.now ≤ spare aims.old }
    requires fits { (n : Name) → counted aims.old.entries n + listings n targets.now ≤ u128.MAX }
    ensures { (n : Name) → counted aims.new.entries n ≡ counted aims.old.entries n + listings n targets.now }
{
    for target in targets {
        add(aims, *target, 1);
    }
}

/// Counts each of these nodes once less. Takes no room.
pub(crate) fn subtract_targets(aims: &mut Aims, targets: &[NodeName])
    requires { (n : Name) → listings n targets.now ≤ counted aims.old.entries n }
    ensures less { (n : Name) → counted aims.new.entries n + listings n targets.now ≡ counted aims.old.entries n }
    ensures room { spare aims.old ≤ spare aims.new }
{
    for target in targets {
        subtract(aims, *target, 1);
    }
}
