//! How often rights name each open, node and server.
ghost use Rattle.std.specs.Prelude.{◌≡◌, ◌≤◌, ◌<◌, ◌+◌, ◌||◌, if◌then◌else◌, Some, None, length, nat_lt, OnOk};
ghost use Rattle.indexmap.specs.IndexMap.{spare};
ghost use Rattle.hurd_creds.specs.Names.{same_name};
ghost use Rattle.hurd_creds.specs.declared.name.Name.{Name};
ghost use Rattle.hurd_ports.specs.Limits.{most_parents};
ghost use Rattle.hurd_creds.specs.Weights.{count_list, one_if, weigh_list};
ghost use Rattle.hurd_ports.specs.Tables.{open_of, start_of, ways_of};
ghost use Rattle.hurd_creds.specs.Counts.{counted};
ghost use Rattle.hurd_ports.specs.Counts.{Besides, HasRoom, Opens, Servers, Sort, Uses, count_of, excess, is_counted, most_counted, naming, unheld};

use crate::parents::{MOST_PARENTS, Parent};
use crate::table::{PendingStart, Right};
use hurd_creds::counts::{Counts, add, count, subtract};
use hurd_creds::{Name, NodeName, OpenName, ServerName};
use std::alloc::{AllocError, Global};

/// What one right can name of nodes besides its own: two for each way.
const MOST_BESIDES: usize = 2 * MOST_PARENTS;

/// How often rights name each open, each node as what they are to use and besides, and each server.
#[derive(Drop)]
pub(crate) struct Book {
    pub(crate) opens: Counts,
    pub(crate) uses: Counts,
    pub(crate) besides: Counts,
    pub(crate) servers: Counts,
}

impl Book {
    /// Nothing is named. Takes no memory.
    pub(crate) fn new(alloc: Global) -> Book
        ensures { (k : Sort) (n : Name) → count_of k n result ≡ 0 }
    {
        Book {
            opens: Counts::new(alloc),
            uses: Counts::new(alloc),
            besides: Counts::new(alloc),
            servers: Counts::new(alloc),
        }
    }

    /// Takes room for all that one right can name.
    pub(crate) fn reserve(&mut self) -> Result<(), AllocError>
        ensures kept { (k : Sort) (n : Name) → count_of k n self.new ≡ count_of k n self.old }
        ensures room { OnOk result (HasRoom self.new) }
    {
        self.opens.reserve(1)?;
        self.uses.reserve(1)?;
        self.besides.reserve(MOST_BESIDES)?;
        self.servers.reserve(1)
    }

    /// Counts a right more. There is room for what it names.
    #[inline(always)]
    pub(crate) fn add(&mut self, right: &Right)
        requires room { HasRoom self.old }
        requires fits { (k : Sort) (n : Name) → count_of k n self.old ≤ most_counted }
        ensures more { (k : Sort) (n : Name) → count_of k n self.new ≡ count_of k n self.old + naming k n right.now }
        ensures short { excess right.now ≡ 0 }
    {
        match right {
            Right::Io(right) => {
                add(&mut self.opens, right.open_name, 1);
                add(&mut self.uses, right.node, 1);
                add_ways(&mut self.besides, right.parents.as_slice());
            }
            Right::Control(server) => add(&mut self.servers, *server, 1),
            Right::Start(node) => add(&mut self.besides, *node, 1),
        }
    }

    /// Counts a right less; answers the open that it had, if no right names that any more.
    #[inline(always)]
    pub(crate) fn subtract(&mut self, right: &Right) -> Option<OpenName>
        requires { (k : Sort) (n : Name) → naming k n right.now ≤ count_of k n self.old }
        ensures less { (k : Sort) (n : Name) → count_of k n self.new + naming k n right.now ≡ count_of k n self.old }
        ensures gone { result ≡ unheld (is_counted Opens self.new) (open_of right.now) }
    {
        match right {
            Right::Io(right) => {
                subtract(&mut self.uses, right.node, 1);
                subtract_ways(&mut self.besides, right.parents.as_slice());
                subtract(&mut self.opens, right.open_name, 1)
            }
            Right::Control(server) => {
                subtract(&mut self.servers, *server, 1);
                None
            }
            Right::Start(node) => {
                subtract(&mut self.besides, *node, 1);
                None
            }
        }
    }

    /// Counts the right less that a pending start is, if there is one.
    pub(crate) fn subtract_start(&mut self, pending: &Option<PendingStart>)
        requires { (k : Sort) (n : Name) → weigh_list (naming k n) (start_of pending.now) ≤ count_of k n self.old }
        ensures { (k : Sort) (n : Name) → count_of k n self.new + weigh_list (naming k n) (start_of pending.now) ≡ count_of k n self.old }
    {
        if let Some(start) = pending {
            subtract(&mut self.besides, start.node, 1);
        }
    }

    /// How many rights name the open.
    pub(crate) fn open_count(&self, name: OpenName) -> u128
        ensures { result ≡ count_of Opens name self.now }
    {
        count(&self.opens, name)
    }

    /// How many rights are to use the node.
    pub(crate) fn use_count(&self, name: NodeName) -> u128
        ensures { result ≡ count_of Uses name self.now }
    {
        count(&self.uses, name)
    }

    /// Whether a right names the node, as what it is to use, or besides.
    pub(crate) fn names_node(&self, name: NodeName) -> bool
        ensures { result ≡ (is_counted Uses self.now name || is_counted Besides self.now name) }
    {
        count(&self.uses, name) > 0 || count(&self.besides, name) > 0
    }

    /// Whether a right controls the server.
    pub(crate) fn names_server(&self, name: ServerName) -> bool
        ensures { result ≡ is_counted Servers self.now name }
    {
        count(&self.servers, name) > 0
    }
}

/// Counts both nodes of each way once more. There is room for two names more for each.
fn add_ways(nodes: &mut Counts, ways: &[Parent])
    requires room { length ways.now + length ways.now ≤ spare nodes.old }
    requires short { length ways.now ≤ most_parents }
    requires fits { (n : Name) → counted nodes.old.entries n ≤ most_counted + 1 }
    ensures { (n : Name) → counted nodes.new.entries n ≡ counted nodes.old.entries n + count_list (same_name n) (ways_of ways.now) }
{
    for way in ways {
        add(nodes, way.at, 1);
        add(nodes, way.parent, 1);
    }
}

/// Counts both nodes of each way once less.
fn subtract_ways(nodes: &mut Counts, ways: &[Parent])
    requires { (n : Name) → count_list (same_name n) (ways_of ways.now) ≤ counted nodes.old.entries n }
    ensures { (n : Name) → counted nodes.new.entries n + count_list (same_name n) (ways_of ways.now) ≡ counted nodes.old.entries n }
{
    for way in ways {
        subtract(nodes, way.at, 1);
        subtract(nodes, way.parent, 1);
    }
}
