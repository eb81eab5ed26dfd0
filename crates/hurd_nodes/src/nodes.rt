//! Nodes and their servers.
ghost use Rattle.std.specs.Prelude.{◌≡◌, is_some, option_copied, IfOk, IfErr};
ghost use Rattle.std.specs.Option.{option_map};
ghost use Rattle.std.specs.FinMap as fin;
ghost use Rattle.hurd_creds.specs.Memory.{Meets};
ghost use Rattle.hurd_trans_iface.specs.Nodes.{attrs_of, header_of, body_of, content_of, passive_of};
ghost use Rattle.hurd_trans_iface.specs.Answers.{entry_of, names_of};
ghost use Rattle.hurd_nodes.specs.Shown.{ServerInfo, server_of, shown, state_of, header_in, told_header, booted, is_root, are_kin, limit_by, options_in, readable_at, tree_by, HideNothing};
ghost use Rattle.hurd_nodes.specs.Totals.{total_of};
ghost use Rattle.hurd_trans_iface.specs.Meaning.{Begins, root_of};
ghost use Rattle.hurd_trans_iface.specs.Texts.{told_text};
ghost use Rattle.hurd_nodes.specs.Needs.{counts_by};
ghost use Rattle.hurd_nodes.specs.Settle.{AreServed};
ghost use Rattle.hurd_nodes.specs.Held.{active_in, box_by, home_in, mean};

use crate::aims::Aims;
use crate::asking::{has_limit, has_tree, told_text, total_in};
use crate::forgetting::are_kin;
use crate::search::{
    home_of, place_of_home, place_of_seat, place_of_server, put_seat, put_site, servers_at,
};
use crate::seat::{Seat, Seats, Sites};
use bitflags::Flags;
use hurd_creds::{Attrs, Errno, Ids, Mode, Name, NodeName, ServerName, TaskId};
use hurd_trans_iface::{Names, Root, Server, Words};
use std::alloc::Global;
use std::marker::Model;

/// The name of the boot server and of its root, which no task makes.
pub const BOOT_NAME: Name = Name {
    task: TaskId(4294967295),
    count: 0,
};

/// The servers of a world, and their nodes.
#[derive(Drop)]
pub struct Nodes<S: Server = Box<dyn Server>> {
    pub(crate) sites: Sites,
    pub(crate) seats: Seats<S>,
    /// How often each node is a target.
    pub(crate) aims: Aims,
    /// How many servers are asked whether they stay: the first of the seats. Each of the others is quiet.
    pub(crate) asked: usize,
}

impl<S: Server> Model for Nodes<S> {
    ghost use Rattle.hurd_nodes.specs.Held.{Held, coded_held, held_of};
    ghost use Rattle.hurd_nodes.specs.Tables.{AreWhole};

    ghost Value = { Held S };

    ghost coded = { coded_held S.code };

    ghost view = { λ n. held_of n.sites.entries n.seats.entries };

    ghost invariant = { λ n. AreWhole S.meaning n.sites.entries n.seats.entries n.aims.entries n.asked };
}

impl<S: Server> Nodes<S> {
    /// The boot server alone, whose root belongs to uid 0 and gid 0, and has the mode 0o755.
    ///
    /// `ENOMEM`, with the box back.
    pub fn starting(alloc: Global, boot: S) -> Result<Nodes<S>, (Errno, S)>
        requires { Begins (S.meaning boot) }
        ensures shown { IfOk result (λ n. shown S.meaning n ≡ state_of (booted (S.meaning boot))) }
        ensures err { IfErr result (λ e. e ≡ (Errno.ENOMEM, boot)) }
    {
        let Ok(ids) = Ids::new(alloc, &[0], &[]) else {
            return Err((Errno::ENOMEM, boot));
        };
        let Ok(mut sites) = Sites::with_capacity(alloc, 1) else {
            return Err((Errno::ENOMEM, boot));
        };
        let Ok(mut seats) = Seats::with_capacity(alloc, 1) else {
            return Err((Errno::ENOMEM, boot));
        };
        let mut server = boot;
        server.begin_root(BOOT_NAME, 0, 0, Mode::from_bits_retain(0o755));
        put_site(&mut sites, BOOT_NAME, BOOT_NAME);
        let seat = Seat {
            root: BOOT_NAME,
            at: None,
            ids,
            targets: Vec::new(alloc),
            own: Vec::new(alloc),
            server,
        };
        put_seat(&mut seats, BOOT_NAME, seat);
        let asked = seats.len();
        Ok(Nodes {
            sites,
            seats,
            aims: Aims::new(alloc),
            asked,
        })
    }

    /// The box of a server, if one is given that is there.
    #[inline(always)]
    #[tactic(auto, using(crate::proofs::SeatLaws::boxes))]
    pub(crate) fn box_of(&self, home: Option<ServerName>) -> Option<&S>
        ensures { option_map S.meaning (option_copied result) ≡ box_by (mean S.meaning self.now.seats) home }
    {
        match place_of_home(&self.seats, home) {
            Some(i) => Some(&self.seats[i].server),
            None => None,
        }
    }

    /// The box that serves a node.
    #[inline(always)]
    pub(crate) fn server_of(&self, node: NodeName) -> Option<&S>
        ensures { option_map S.meaning (option_copied result) ≡ box_by (mean S.meaning self.now.seats) (home_in self.now.sites node) }
    {
        self.box_of(home_of(&self.sites, node))
    }

    /// The server that is active on a node, if one is, and the node's attributes, if it is there: it is looked up once.
    #[inline(always)]
    #[tactic(auto, using(crate::proofs::ShownLaws::by_box))]
    pub fn met(&self, node: NodeName) -> (Option<ServerName>, Option<Attrs>)
        ensures active { result.0 ≡ active_in (shown S.meaning self.now).sites node }
        ensures all { result.1 ≡ option_map attrs_of (fin.get (shown S.meaning self.now).nodes node) }
        ensures header { option_map header_in result.1 ≡ option_map told_header (header_of (shown S.meaning self.now).nodes node) }
    {
        let (home, active) = servers_at(&self.sites, node);
        match self.box_of(home) {
            Some(server) => (active, server.attrs(node)),
            None => (active, None),
        }
    }

    /// The attributes of a node, if it is there.
    #[tactic(auto, using(crate::proofs::ShownLaws::by_box))]
    #[inline(always)]
    pub fn attrs(&self, node: NodeName) -> Option<Attrs>
        ensures all { result ≡ option_map attrs_of (fin.get (shown S.meaning self.now).nodes node) }
        ensures header { option_map header_in result ≡ option_map told_header (header_of (shown S.meaning self.now).nodes node) }
    {
        match self.server_of(node) {
            Some(server) => server.attrs(node),
            None => None,
        }
    }

    /// The server of a node, if it has one.
    #[inline(always)]
    pub fn home(&self, node: NodeName) -> Option<ServerName>
        ensures { result ≡ home_in (shown S.meaning self.now).sites node }
    {
        home_of(&self.sites, node)
    }

    /// The server of each node is there.
    pub fn nodes_are_served(&self)
        ensures { AreServed (shown S.meaning self.now) }
    {
        let _ = &self.sites;
    }

    /// A box has no node beside those that are shown.
    pub fn boxes_hide_nothing(&self)
        ensures { HideNothing S.meaning self.now }
    {
        let _ = &self.sites;
    }

    /// The server that is active on a node, if one is.
    #[tactic(auto, using(crate::proofs::HomeLaws::by_map))]
    #[inline(always)]
    pub fn active(&self, node: NodeName) -> Option<ServerName>
        ensures { result ≡ active_in (shown S.meaning self.now).sites node }
    {
        self.sites.get(&node)?.active
    }

    /// The root of a server, if the server is there.
    #[tactic(auto, using(crate::proofs::StayLaws::by_place))]
    #[inline(always)]
    pub fn root_of(&self, server: ServerName) -> Option<NodeName>
        ensures { result ≡ option_map (λ (i : ServerInfo). i.root) (fin.get (shown S.meaning self.now).servers server) }
    {
        match place_of_seat(&self.seats, server) {
            Some(i) => Some(self.seats[i].root),
            None => None,
        }
    }

    /// The text of a server, lent, if the server is there. Takes no memory.
    #[tactic(auto, using(crate::proofs::StayLaws::by_place))]
    pub fn text_of(&self, server: ServerName) -> Option<&[u8]>
        ensures { option_copied result ≡ option_map (λ (i : ServerInfo). i.text) (fin.get (shown S.meaning self.now).servers server) }
    {
        match place_of_seat(&self.seats, server) {
            Some(i) => Some(self.seats[i].server.text()),
            None => None,
        }
    }

    /// The text of a server that whoever knows it is told, a link's or a tree's, lent, if the server is there. Takes no memory.
    #[tactic(auto, using(crate::proofs::StayLaws::by_place))]
    pub fn told_text_of(&self, server: ServerName) -> Option<&[u8]>
        ensures { option_copied result ≡ option_map (λ (i : ServerInfo). told_text (root_of i.kind i.text) i.text) (fin.get (shown S.meaning self.now).servers server) }
    {
        match place_of_seat(&self.seats, server) {
            Some(i) => Some(told_text(&self.seats[i].server)),
            None => None,
        }
    }

    /// Whether what the files of a server that entries name may have in all is limited; not, if the server isn't there. Takes no memory.
    #[tactic(auto, using(crate::proofs::StayLaws::by_place))]
    pub fn has_limit(&self, server: ServerName) -> bool
        ensures { result ≡ is_some (limit_by (fin.get (shown S.meaning self.now).servers server)) }
    {
        match place_of_seat(&self.seats, server) {
            Some(i) => has_limit(&self.seats[i].server),
            None => false,
        }
    }

    /// What those files have in all, if the server is there and keeps a tree. Takes no memory.
    pub fn total_of(&self, server: ServerName) -> Option<u128>
        ensures { result ≡ total_of (shown S.meaning self.now) server }
    {
        match place_of_seat(&self.seats, server) {
            Some(i) => total_in(&self.seats[i].server),
            None => None,
        }
    }

    /// The text of the server of a node, lent, if the node has a server. Takes no memory.
    #[tactic(auto, using(crate::proofs::ShownLaws::by_box))]
    pub fn text_at(&self, node: NodeName) -> Option<&[u8]>
        ensures { option_copied result ≡ option_map (λ (i : ServerInfo). i.text) (server_of (shown S.meaning self.now) node) }
    {
        match self.server_of(node) {
            Some(server) => Some(server.text()),
            None => None,
        }
    }

    /// The ids of a server, if the server is there.
    #[tactic(auto, using(crate::proofs::StayLaws::by_place))]
    pub fn ids_of(&self, server: ServerName) -> Option<&Ids>
        ensures { option_copied result ≡ option_map (λ (i : ServerInfo). i.ids) (fin.get (shown S.meaning self.now).servers server) }
    {
        match place_of_seat(&self.seats, server) {
            Some(i) => Some(&self.seats[i].ids),
            None => None,
        }
    }

    /// The targets of a server, lent, if the server is there: the nodes that it aims at, in order. Takes no memory.
    #[tactic(auto, using(crate::proofs::StayLaws::by_place))]
    pub fn targets_of(&self, server: ServerName) -> Option<&[NodeName]>
        ensures { option_copied result ≡ option_map (λ (i : ServerInfo). i.targets) (fin.get (shown S.meaning self.now).servers server) }
    {
        match place_of_seat(&self.seats, server) {
            Some(i) => Some(&self.seats[i].targets),
            None => None,
        }
    }

    /// The targets of the server of a node, lent, if the node has a server. Takes no memory.
    pub fn targets_at(&self, node: NodeName) -> Option<&[NodeName]>
        ensures { option_copied result ≡ option_map (λ (i : ServerInfo). i.targets) (server_of (shown S.meaning self.now) node) }
    {
        let server = self.home(node)?;
        self.targets_of(server)
    }

    /// The program and its words, as they would be given to make such a server now.
    ///
    /// Errors, in order: `EDIED` no such server, `ENOMEM`.
    #[tactic(auto, using(crate::proofs::StayLaws::by_place))]
    pub fn options(&self, alloc: Global, server: ServerName) -> Result<Words, Errno>
        ensures { Meets (options_in (fin.get (shown S.meaning self.now).servers server)) result }
    {
        match place_of_seat(&self.seats, server) {
            Some(i) => self.seats[i].server.options(alloc),
            None => Err(Errno::EDIED),
        }
    }

    /// Whether a node is the root of its server.
    #[tactic(auto, using(crate::proofs::StayLaws::by_place))]
    pub fn is_root(&self, node: NodeName) -> bool
        ensures { result ≡ is_root (shown S.meaning self.now) node }
    {
        match place_of_server(&self.sites, &self.seats, node) {
            Some(i) => node == self.seats[i].root,
            None => false,
        }
    }

    /// The node of this name in a directory.
    #[tactic(auto, using(crate::proofs::ShownLaws::by_box))]
    #[inline(always)]
    pub fn step(&self, dir: NodeName, name: &[u8]) -> Option<NodeName>
        ensures { result ≡ entry_of name.now (body_of (shown S.meaning self.now).nodes dir) }
    {
        match self.server_of(dir) {
            Some(server) => server.step(dir, name),
            None => None,
        }
    }

    /// The names in a directory.
    ///
    /// Errors, in order: `EDIED` no such node, `ENOTDIR`, `ENOMEM`.
    #[tactic(auto, using(crate::proofs::ShownLaws::by_box))]
    pub fn names(&self, alloc: Global, dir: NodeName) -> Result<Names, Errno>
        ensures { Meets (names_of (body_of (shown S.meaning self.now).nodes dir)) result }
    {
        match self.server_of(dir) {
            Some(server) => server.names(alloc, dir),
            None => Err(Errno::EDIED),
        }
    }

    /// Whether a node has a server, and that keeps a tree.
    #[tactic(auto, using(crate::proofs::ShownLaws::by_box))]
    pub fn keeps_tree(&self, node: NodeName) -> bool
        ensures { result ≡ tree_by (server_of (shown S.meaning self.now) node) }
    {
        match self.server_of(node) {
            Some(server) => has_tree(server),
            None => false,
        }
    }

    /// What the root of a node's server is, if the node has a server.
    #[tactic(auto, using(crate::proofs::ShownLaws::by_box))]
    pub fn root(&self, node: NodeName) -> Option<Root>
        ensures { result ≡ option_map (λ (i : ServerInfo). root_of i.kind i.text) (server_of (shown S.meaning self.now) node) }
    {
        match self.server_of(node) {
            Some(server) => Some(server.root()),
            None => None,
        }
    }

    /// Whether a node's server is there, and is told how many opens read and write each of its nodes. Takes no memory.
    #[tactic(auto, using(crate::proofs::ShownLaws::by_box))]
    pub fn counts(&self, node: NodeName) -> bool
        ensures { result ≡ counts_by (server_of (shown S.meaning self.now) node) }
    {
        match self.server_of(node) {
            Some(server) => server.counts(),
            None => false,
        }
    }

    /// Whether two nodes are of one server.
    pub fn are_kin(&self, node: NodeName, other: NodeName) -> bool
        ensures { result ≡ are_kin (home_in self.now.sites node) (home_in self.now.sites other) }
    {
        are_kin(self.home(node), self.home(other))
    }

    /// How many bytes there are to read in a node at a place, if the node is there. Takes no memory.
    #[tactic(auto, using(crate::proofs::ShownLaws::by_box))]
    pub fn readable(&self, node: NodeName, at: u64) -> Option<u64>
        ensures { result ≡ readable_at node at (shown S.meaning self.now) }
    {
        match self.server_of(node) {
            Some(server) => server.readable(node, at),
            None => None,
        }
    }

    /// The bytes that a node holds, lent, if it is there and no directory. Takes no memory.
    #[tactic(auto, using(crate::proofs::ShownLaws::by_box))]
    pub fn content(&self, node: NodeName) -> Option<&[u8]>
        ensures { option_copied result ≡ content_of (shown S.meaning self.now).nodes node }
    {
        match self.server_of(node) {
            Some(server) => server.content(node),
            None => None,
        }
    }

    /// The words of the passive translator of a node, lent, if the node is there and has any. Takes no memory.
    #[tactic(auto, using(crate::proofs::ShownLaws::by_box))]
    pub fn passive(&self, node: NodeName) -> Option<&Words>
        ensures { option_copied result ≡ passive_of (fin.get (shown S.meaning self.now).nodes node) }
    {
        match self.server_of(node) {
            Some(server) => server.passive(node),
            None => None,
        }
    }
}
