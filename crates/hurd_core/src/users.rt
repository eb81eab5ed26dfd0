//! How many rights there are to use nodes of each server: a running count.
//!
//! A right is counted as it comes and goes, and all of a node where the node gets another server, or its server goes. What settles was
//! used by nobody, so then nothing is counted anew.
ghost use Rattle.std.specs.Prelude.{◌≡◌, ◌≤◌, ◌<◌, ◌+◌, Bool, if◌then◌else◌, IfSome};
ghost use Rattle.indexmap.specs.IndexMap.{spare};
ghost use Rattle.hurd_creds.specs.declared.name.Name.{Name};
ghost use Rattle.hurd_nodes.specs.Held.{home_in};
ghost use Rattle.hurd_nodes.specs.Shown.{boot_name};
ghost use Rattle.hurd_creds.specs.Weights.{if_so};
ghost use Rattle.hurd_creds.specs.Counts.{counted};
ghost use Rattle.hurd_creds.specs.Names.{is_one, same_name};
ghost use Rattle.hurd_ports.specs.Counts.{most_counted};
ghost use Rattle.hurd_ports.specs.Tables.{count_rights, uses_node};
ghost use Rattle.hurd_ports.specs.declared.table.Right.{Right};
ghost use Rattle.hurd_machine.specs.Sight.{users};
ghost use Rattle.hurd_core.specs.Core.{world_of};
ghost use Rattle.hurd_core.specs.Users.{home_used, reseated};

use crate::the_core::Core;
use hurd_creds::counts::{self, Counts};
use hurd_creds::{NodeName, ServerName};
use hurd_nodes::{BOOT_NAME, Nodes};
use hurd_ports::{Ports, Right};
use hurd_trans_iface::Server;
use std::alloc::Global;

/// How many rights there are to use nodes of each server.
pub(crate) type Users = Counts;

impl<S: Server> Core<S> {
    /// How many rights there are to use nodes of a server, in tables and in inboxes. No search.
    pub fn users(&self, server: ServerName) -> u128
        ensures { result ≡ users (world_of S.meaning self.now) server }
    {
        counts::count(&self.users, server)
    }
}

/// The server of the node that a right is to use; none where it is to use none, or the node is gone.
#[inline(always)]
pub(crate) fn home_used<S: Server>(nodes: &Nodes<S>, right: &Right) -> Option<ServerName>
    ensures { result ≡ home_used nodes.now.sites right.now }
{
    match right {
        Right::Io(right) => nodes.home(right.node),
        Right::Control(_) => None,
        Right::Start(_) => None,
    }
}

/// How many rights use the boot root, if its server is the only one; none if memory runs out.
pub(crate) fn first(alloc: Global, ports: &Ports) -> Option<Users>
    ensures { IfSome result (λ users. (s : Name) → counted users.entries s ≡ if_so (same_name s boot_name) (count_rights (uses_node boot_name) ports.now.state.tasks)) }
{
    let Ok(mut users) = Users::with_capacity(alloc, 1) else {
        return None;
    };
    ports.rights_are_few();
    add(&mut users, Some(BOOT_NAME), ports.uses(BOOT_NAME));
    Some(users)
}

/// So many users of a server more, if there is a server. There is room for one server more.
#[inline(always)]
pub(crate) fn add(users: &mut Users, server: Option<ServerName>, more: u128)
    requires room { 0 < spare users.old }
    requires fits { IfSome server (λ s. counted users.old.entries s + more ≤ u128.MAX) }
    ensures { (s : Name) → counted users.new.entries s ≡ counted users.old.entries s + if_so (is_one s server) more }
{
    if let Some(server) = server {
        if more > 0 {
            counts::add(users, server, more);
        }
    }
}

/// So many users of a server less, if there is a server.
#[inline(always)]
pub(crate) fn subtract(users: &mut Users, server: Option<ServerName>, less: u128)
    requires { (s : Name) → if_so (is_one s server) less ≤ counted users.old.entries s }
    ensures less { (s : Name) → counted users.new.entries s + if_so (is_one s server) less ≡ counted users.old.entries s }
    ensures room { spare users.old ≤ spare users.new }
{
    if let Some(server) = server {
        counts::subtract(users, server, less);
    }
}

/// No users of a server any more, if there is a server.
pub(crate) fn forget(users: &mut Users, server: Option<ServerName>)
    ensures none { (s : Name) → counted users.new.entries s ≡ (if is_one s server then 0 else counted users.old.entries s) }
    ensures room { spare users.old ≤ spare users.new }
{
    if let Some(server) = server {
        let count = counts::count(users, server);
        counts::subtract(users, server, count);
    }
}

/// How many rights there are to use a node, and the server for which they count: none where the node is gone.
#[derive(Clone, Copy, Debug)]
pub(crate) struct NodeUse {
    server: Option<ServerName>,
    uses: u128,
}

impl NodeUse {
    /// Those of a node as it stands.
    pub(crate) fn of<S: Server>(nodes: &Nodes<S>, ports: &Ports, node: NodeName) -> NodeUse
        ensures server { result.server ≡ home_in nodes.now.sites node }
        ensures uses { result.uses ≡ count_rights (uses_node node) ports.now.state.tasks }
        ensures few { (test : Right → Bool) → count_rights test ports.now.state.tasks ≤ most_counted }
    {
        ports.rights_are_few();
        NodeUse {
            server: nodes.home(node),
            uses: ports.uses(node),
        }
    }
}

/// Counts the users of a node as they are now, in place of those that were. There is room for one server more.
pub(crate) fn rehouse(users: &mut Users, before: NodeUse, now: NodeUse)
    requires room { 0 < spare users.old }
    requires counted { (s : Name) → if_so (is_one s before.server) before.uses ≤ counted users.old.entries s }
    requires fits { (s : Name) → counted users.old.entries s + now.uses ≤ u128.MAX }
    ensures { (s : Name) → counted users.new.entries s + if_so (is_one s before.server) before.uses ≡ counted users.old.entries s + if_so (is_one s now.server) now.uses }
{
    subtract(users, before.server, before.uses);
    add(users, now.server, now.uses);
}

/// Counts users where a server came: those of its root, whom the root's old server has no more, and none of the server that left for it.
/// There is room for one server more.
pub(crate) fn reseat(
    users: &mut Users,
    root: NodeUse,
    instead: Option<ServerName>,
    server: ServerName,
)
    requires room { 0 < spare users.old }
    requires counted { (s : Name) → if_so (is_one s root.server) root.uses ≤ counted users.old.entries s }
    ensures { (s : Name) → counted users.new.entries s ≡ reseated root.server root.uses instead server s (counted users.old.entries s) }
{
    subtract(users, root.server, root.uses);
    forget(users, instead);
    forget(users, Some(server));
    add(users, Some(server), root.uses);
}
