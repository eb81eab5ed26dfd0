//! A server that counts what becomes of it: how often it is told that it is sent away, and how often it is dropped.
ghost use Rattle.std.specs.Prelude.{◌≡◌, IfErr, IfOk};
ghost use Rattle.hurd_creds.specs.declared.errno.Errno.TheVariants.{ENOMEM};

use hurd_creds::{Attrs, Bytes, Errno, Mode, NodeName};
use hurd_trans_iface::{HeaderEdit, Names, NewNode, Root, Server, Words};
use std::alloc::Global;
use std::cell::Cell;
use std::rc::Rc;

/// How many servers were told that they are sent away, and how many were dropped.
#[derive(Drop)]
pub struct Counts {
    sent_away: Rc<Cell<u32>>,
    dropped: Rc<Cell<u32>>,
}

/// A count of none.
fn none(alloc: Global) -> Result<Rc<Cell<u32>>, Errno>
    ensures { IfErr result (λ e. e ≡ ENOMEM) }
{
    match Rc::new(alloc, Cell::new(0u32)) {
        Ok(count) => Ok(count),
        Err(_) => Err(Errno::ENOMEM),
    }
}

fn add_one(count: &Cell<u32>) {
    count.set(count.get().wrapping_add(1))
}

impl Counts {
    /// None so far. Errors: `ENOMEM`.
    pub fn new(alloc: Global) -> Result<Counts, Errno>
        ensures { IfErr result (λ e. e ≡ ENOMEM) }
    {
        Ok(Counts {
            sent_away: none(alloc)?,
            dropped: none(alloc)?,
        })
    }

    /// How many were told.
    pub fn sent_away(&self) -> u32 {
        self.sent_away.get()
    }

    /// How many were dropped.
    pub fn dropped(&self) -> u32 {
        self.dropped.get()
    }

    /// A server that counts here what becomes of it, and else is this one. Errors: `ENOMEM`, and the server is dropped.
    pub fn counting<S: Server>(&self, server: S) -> Result<Counted<S>, Errno>
        ensures ok { IfOk result (λ counted. counted.server ≡ server) }
        ensures err { IfErr result (λ e. e ≡ ENOMEM) }
    {
        Ok(Counted {
            sent_away: self.sent_away.clone()?,
            dropped: self.dropped.clone()?,
            server,
        })
    }
}

/// A server that counts what becomes of it.
pub struct Counted<S> {
    server: S,
    sent_away: Rc<Cell<u32>>,
    dropped: Rc<Cell<u32>>,
}

impl<S: Drop> Drop for Counted<S> {
    fn drop(self) {
        let Counted {
            server: _server,
            sent_away: _sent_away,
            dropped,
        } = self;
        add_one(&dropped);
    }
}

impl<S: Server> Server for Counted<S> {
    ghost meaning = { λ c. S.meaning c.server };

    fn begin_root(&mut self, root: NodeName, owner: u32, group: u32, mode: Mode) {
        self.server.begin_root(root, owner, group, mode)
    }

    fn root(&self) -> Root {
        self.server.root()
    }

    fn text(&self) -> &[u8] {
        self.server.text()
    }

    fn options(&self, alloc: Global) -> Result<Words, Errno> {
        self.server.options(alloc)
    }

    fn set_options(&mut self, alloc: Global, words: &Words) -> Result<(), Errno> {
        self.server.set_options(alloc, words)
    }

    fn targets(&self, alloc: Global) -> Result<Names, Errno> {
        self.server.targets(alloc)
    }

    fn attrs(&self, node: NodeName) -> Option<Attrs> {
        self.server.attrs(node)
    }

    fn step(&self, dir: NodeName, name: &[u8]) -> Option<NodeName> {
        self.server.step(dir, name)
    }

    fn names(&self, alloc: Global, dir: NodeName) -> Result<Names, Errno> {
        self.server.names(alloc, dir)
    }

    fn read(
        &mut self,
        alloc: Global,
        node: NodeName,
        at: u64,
        amount: u64,
        writers: u128,
    ) -> Result<Bytes, Errno> {
        self.server.read(alloc, node, at, amount, writers)
    }

    fn write(
        &mut self,
        node: NodeName,
        at: u64,
        bytes: &[u8],
        readers: u128,
    ) -> Result<u64, Errno> {
        self.server.write(node, at, bytes, readers)
    }

    fn set_size(&mut self, node: NodeName, size: u64) -> Result<(), Errno> {
        self.server.set_size(node, size)
    }

    fn content(&self, node: NodeName) -> Option<&[u8]> {
        self.server.content(node)
    }

    fn readable(&self, node: NodeName, at: u64) -> Option<u64> {
        self.server.readable(node, at)
    }

    fn make(
        &mut self,
        alloc: Global,
        dir: NodeName,
        entry: Option<&[u8]>,
        new: NewNode,
    ) -> Result<(), Errno> {
        self.server.make(alloc, dir, entry, new)
    }

    fn link(
        &mut self,
        alloc: Global,
        dir: NodeName,
        name: &[u8],
        node: NodeName,
    ) -> Result<(), Errno> {
        self.server.link(alloc, dir, name, node)
    }

    fn unlink(&mut self, dir: NodeName, name: &[u8]) -> Result<(), Errno> {
        self.server.unlink(dir, name)
    }

    fn rename(
        &mut self,
        alloc: Global,
        dir: NodeName,
        name: &[u8],
        to: NodeName,
        new: &[u8],
    ) -> Result<(), Errno> {
        self.server.rename(alloc, dir, name, to, new)
    }

    fn passive(&self, node: NodeName) -> Option<&Words> {
        self.server.passive(node)
    }

    fn edit_header(&mut self, node: NodeName, edit: HeaderEdit) -> Result<(), Errno> {
        self.server.edit_header(node, edit)
    }

    fn forget(&mut self, node: NodeName) {
        self.server.forget(node)
    }

    fn nameless(&self) -> Option<&[NodeName]> {
        self.server.nameless()
    }

    fn counts(&self) -> bool {
        self.server.counts()
    }

    fn space(&self) -> Option<u64> {
        self.server.space()
    }

    fn total(&self) -> u128 {
        self.server.total()
    }

    fn goaway(&mut self) {
        add_one(&self.sent_away);
        self.server.goaway()
    }
}
