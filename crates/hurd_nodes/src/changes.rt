//! Changes of nodes by their servers: what is written, made, linked, renamed, taken out of directories, stored with nodes, and set as options.
ghost use Rattle.std.specs.Prelude.{◌≡◌, [], None, option_copied};
ghost use Rattle.std.specs.FinMap as fin;
ghost use Rattle.hurd_creds.specs.Memory.{Steps};
ghost use Rattle.hurd_trans_iface.specs.Behaviour.{reading, writing, resizing};
ghost use Rattle.hurd_nodes.specs.Shown.{shown, asked_step, make_at, link_at, edit_header_at, set_options_at, unlink_at, rename_at};
ghost use Rattle.hurd_nodes.specs.Needs.{FreeRead, FreeSize, FreeWrite};

use crate::asked::ask_given;
use crate::asking::can_make_in;
use crate::forgetting::forget_elsewhere;
use crate::nodes::Nodes;
use crate::own::list_node;
use crate::search::{home_of, place_of_home, place_of_seat, place_of_server, put_kin};
use hurd_creds::{Bytes, Errno, NodeName, ServerName};
use hurd_trans_iface::{HeaderEdit, NewNode, Server, Words};
use std::alloc::Global;

impl<S: Server> Nodes<S> {
    /// At most `amount` bytes of a node from `at` on, where so many opens write it; where there are none, no memory is taken.
    ///
    /// Errors, in order: `EDIED` no such node, the server's own refusals, `ENOMEM`.
    #[tactic(auto, using(crate::proofs::ShownLaws::refusals, crate::proofs::SeatLaws::boxes))]
    pub fn read(
        &mut self,
        alloc: Global,
        node: NodeName,
        at: u64,
        amount: u64,
        writers: u128,
    ) -> Result<Bytes, Errno>
        ensures shown { let h = shown S.meaning self.old in
            Steps h (asked_step (reading at amount writers) node h) result (shown S.meaning self.new) }
        ensures free { let h = shown S.meaning self.old in
            FreeRead at amount writers node h → result ≡ (asked_step (reading at amount writers) node h).0 }
    {
        match place_of_server(&self.sites, &self.seats, node) {
            Some(i) => self.seats[i].server.read(alloc, node, at, amount, writers),
            None => Err(Errno::EDIED),
        }
    }

    /// Puts bytes into a node at `at`, where so many opens read it, and answers how many. Takes no memory where there is no data, where the bytes that are written over are there, and in a stream.
    ///
    /// Errors, in order: `EDIED` no such node, the server's own refusals, `ENOMEM`.
    #[tactic(auto, using(crate::proofs::ShownLaws::refusals, crate::proofs::SeatLaws::boxes))]
    pub fn write(
        &mut self,
        node: NodeName,
        at: u64,
        bytes: &[u8],
        readers: u128,
    ) -> Result<u64, Errno>
        ensures shown { let h = shown S.meaning self.old in
            Steps h (asked_step (writing at bytes.now readers) node h) result (shown S.meaning self.new) }
        ensures free { let h = shown S.meaning self.old in
            FreeWrite at bytes.now node h → result ≡ (asked_step (writing at bytes.now readers) node h).0 }
    {
        match place_of_server(&self.sites, &self.seats, node) {
            Some(i) => self.seats[i].server.write(node, at, bytes, readers),
            None => Err(Errno::EDIED),
        }
    }

    /// Cuts a node's bytes, or grows them by zero bytes. A cut takes no memory, nor does a stream.
    ///
    /// Errors, in order: `EDIED` no such node, the server's own refusals, `ENOMEM`.
    #[tactic(auto, using(crate::proofs::ShownLaws::refusals, crate::proofs::SeatLaws::boxes))]
    pub fn set_size(&mut self, node: NodeName, size: u64) -> Result<(), Errno>
        ensures shown { let h = shown S.meaning self.old in
            Steps h (asked_step (resizing size) node h) result (shown S.meaning self.new) }
        ensures free { let h = shown S.meaning self.old in
            FreeSize size node h → result ≡ (asked_step (resizing size) node h).0 }
    {
        match place_of_server(&self.sites, &self.seats, node) {
            Some(i) => self.seats[i].server.set_size(node, size),
            None => Err(Errno::EDIED),
        }
    }

    /// Makes a node in a directory, under a name or without an entry, of the directory's server.
    ///
    /// Errors, in order: those of `can_make`, `ENOMEM`.
    #[tactic(auto, using(crate::proofs::ShownLaws::refusals, crate::proofs::SeatLaws::boxes))]
    pub fn make(
        &mut self,
        alloc: Global,
        dir: NodeName,
        entry: Option<&[u8]>,
        new: NewNode,
    ) -> Result<(), Errno>
        ensures shown { let h = shown S.meaning self.old in
            Steps h (make_at dir (option_copied entry.entry) new h) result (shown S.meaning self.new) }
    {
        let home = home_of(&self.sites, dir);
        self.asked = ask_given(&mut self.seats, self.asked, home);
        let Some(i) = place_of_home(&self.seats, home) else {
            return Err(Errno::EDIED);
        };
        can_make_in(&self.seats[i].server, dir, entry, new.kind)?;
        self.sites.reserve(1)?;
        list_node(&self.sites, &mut self.seats, i, new.name, dir)?;
        self.seats[i].server.make(alloc, dir, entry, new)?;
        forget_elsewhere(&self.sites, &mut self.seats, new.name, dir);
        self.asked = put_kin(&mut self.sites, &mut self.seats, self.asked, new.name, dir);
        Ok(())
    }

    /// Gives a file another name in a directory.
    ///
    /// Errors, in order: those of `can_link`, `ENOMEM`.
    #[tactic(auto, using(crate::proofs::ShownLaws::refusals, crate::proofs::SeatLaws::boxes))]
    pub fn link(
        &mut self,
        alloc: Global,
        dir: NodeName,
        name: &[u8],
        node: NodeName,
    ) -> Result<(), Errno>
        ensures shown { let h = shown S.meaning self.old in
            Steps h (link_at dir name.now node h) result (shown S.meaning self.new) }
    {
        self.can_link(dir, name, node)?;
        match place_of_server(&self.sites, &self.seats, dir) {
            Some(i) => self.seats[i].server.link(alloc, dir, name, node),
            None => Err(Errno::EDIED),
        }
    }

    /// Takes the first entry of a name out of a directory: of what it names, a directory loses its parent, and any other node a link. Whether that is a directory, and
    /// whether it is empty, is for who asks. Takes no memory.
    ///
    /// Errors, in order: `EDIED` no such directory, `ENOTDIR`, `EROFS` its server keeps no tree, `ENOENT`.
    #[tactic(auto, using(crate::proofs::ShownLaws::refusals, crate::proofs::SeatLaws::boxes))]
    pub fn unlink(&mut self, dir: NodeName, name: &[u8]) -> Result<(), Errno>
        ensures shown { (result, shown S.meaning self.new) ≡ unlink_at dir name.now (shown S.meaning self.old) }
    {
        let home = home_of(&self.sites, dir);
        self.asked = ask_given(&mut self.seats, self.asked, home);
        match place_of_home(&self.seats, home) {
            Some(i) => self.seats[i].server.unlink(dir, name),
            None => Err(Errno::EDIED),
        }
    }

    /// Takes the first entry `name` out of a directory and puts it last into another one, or the same, as `new`: in place of the entry of that name, where there is
    /// one, whose node loses it as by `unlink`. A directory gets its new parent. Where both entries name one node nothing changes. What the two nodes are is for who asks.
    ///
    /// Errors, in order: `EDIED` no such directory, `ENOTDIR`, `EROFS` its server keeps no tree, `EXDEV` the two are of different servers, `EDIED` no such directory
    /// `to`, `ENOTDIR`, `ENOENT`, `ENOMEM`.
    #[tactic(auto, using(crate::proofs::ShownLaws::refusals, crate::proofs::SeatLaws::boxes))]
    pub fn rename(
        &mut self,
        alloc: Global,
        dir: NodeName,
        name: &[u8],
        to: NodeName,
        new: &[u8],
    ) -> Result<(), Errno>
        ensures shown { let h = shown S.meaning self.old in
            Steps h (rename_at dir name.now to new.now h) result (shown S.meaning self.new) }
    {
        self.can_rename(dir, name, to)?;
        let home = home_of(&self.sites, dir);
        self.asked = ask_given(&mut self.seats, self.asked, home);
        match place_of_home(&self.seats, home) {
            Some(i) => self.seats[i].server.rename(alloc, dir, name, to, new),
            None => Err(Errno::EDIED),
        }
    }

    /// Edits what the header of a node says. Whether words may be stored with the node is for who asks. Takes no memory.
    ///
    /// Errors, in order: `EDIED` no such node, `EOPNOTSUPP` its server keeps no tree.
    #[tactic(auto, using(crate::proofs::ShownLaws::refusals, crate::proofs::SeatLaws::boxes))]
    pub fn edit_header(&mut self, node: NodeName, edit: HeaderEdit) -> Result<(), Errno>
        ensures shown { (result, shown S.meaning self.new) ≡ edit_header_at node edit (shown S.meaning self.old) }
    {
        match place_of_server(&self.sites, &self.seats, node) {
            Some(i) => self.seats[i].server.edit_header(node, edit),
            None => Err(Errno::EDIED),
        }
    }

    /// Gives a server other options in place of those that it has; without words nothing changes, and no memory is taken.
    ///
    /// Errors, in order: `EDIED` no such server, `EINVAL` words that it doesn't take, `ENOMEM`.
    #[tactic(auto, using(crate::proofs::TextLaws::sets))]
    pub fn set_options(
        &mut self,
        alloc: Global,
        server: ServerName,
        words: &Words,
    ) -> Result<(), Errno>
        ensures shown { let h = shown S.meaning self.old in
            Steps h (set_options_at server words.now h) result (shown S.meaning self.new) }
        ensures no_words { let h = shown S.meaning self.old in
            words.now ≡ [] → (result, shown S.meaning self.new) ≡ set_options_at server words.now h }
    {
        match place_of_seat(&self.seats, server) {
            Some(i) => self.seats[i].server.set_options(alloc, words),
            None => Err(Errno::EDIED),
        }
    }
}
