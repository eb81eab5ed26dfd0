//! Each call on a server of some kind is the call on the server in its box.
ghost use Rattle.hurd_kinds.specs.Boxes.{box_meaning};

use crate::server_box::ServerBox;
use hurd_creds::{Attrs, Bytes, Errno, Mode, NodeName};
use hurd_trans_iface::{HeaderEdit, Names, NewNode, Root, Server, Words};
use std::alloc::Global;

/// What a call on the server in the box gives, whatever its kind is.
macro_rules! in_box {
    ($of:expr, $server:ident => $call:expr) => {
        match $of {
            ServerBox::Tmpfs($server) => $call,
            ServerBox::Fixed($server) => $call,
            ServerBox::Union($server) => $call,
            ServerBox::Kept($server) => $call,
        }
    };
}

#[tactic(auto, unfolding(crate::specs::Boxes::box_meaning))]
impl Server for ServerBox {
    ghost meaning = { box_meaning };

    fn begin_root(&mut self, root: NodeName, owner: u32, group: u32, mode: Mode) {
        in_box!(self, server => server.begin_root(root, owner, group, mode))
    }

    fn root(&self) -> Root {
        in_box!(self, server => server.root())
    }

    fn text(&self) -> &[u8] {
        in_box!(self, server => server.text())
    }

    fn options(&self, alloc: Global) -> Result<Words, Errno> {
        in_box!(self, server => server.options(alloc))
    }

    fn set_options(&mut self, alloc: Global, words: &Words) -> Result<(), Errno> {
        in_box!(self, server => server.set_options(alloc, words))
    }

    fn targets(&self, alloc: Global) -> Result<Names, Errno> {
        in_box!(self, server => server.targets(alloc))
    }

    #[inline(always)]
    fn attrs(&self, node: NodeName) -> Option<Attrs> {
        in_box!(self, server => server.attrs(node))
    }

    #[inline(always)]
    fn step(&self, dir: NodeName, name: &[u8]) -> Option<NodeName> {
        in_box!(self, server => server.step(dir, name))
    }

    fn names(&self, alloc: Global, dir: NodeName) -> Result<Names, Errno> {
        in_box!(self, server => server.names(alloc, dir))
    }

    fn read(
        &mut self,
        alloc: Global,
        node: NodeName,
        at: u64,
        amount: u64,
        writers: u128,
    ) -> Result<Bytes, Errno> {
        in_box!(self, server => server.read(alloc, node, at, amount, writers))
    }

    fn write(
        &mut self,
        node: NodeName,
        at: u64,
        bytes: &[u8],
        readers: u128,
    ) -> Result<u64, Errno> {
        in_box!(self, server => server.write(node, at, bytes, readers))
    }

    fn set_size(&mut self, node: NodeName, size: u64) -> Result<(), Errno> {
        in_box!(self, server => server.set_size(node, size))
    }

    fn content(&self, node: NodeName) -> Option<&[u8]> {
        in_box!(self, server => server.content(node))
    }

    fn readable(&self, node: NodeName, at: u64) -> Option<u64> {
        in_box!(self, server => server.readable(node, at))
    }

    fn make(
        &mut self,
        alloc: Global,
        dir: NodeName,
        entry: Option<&[u8]>,
        new: NewNode,
    ) -> Result<(), Errno> {
        in_box!(self, server => server.make(alloc, dir, entry, new))
    }

    fn link(
        &mut self,
        alloc: Global,
        dir: NodeName,
        name: &[u8],
        node: NodeName,
    ) -> Result<(), Errno> {
        in_box!(self, server => server.link(alloc, dir, name, node))
    }

    fn unlink(&mut self, dir: NodeName, name: &[u8]) -> Result<(), Errno> {
        in_box!(self, server => server.unlink(dir, name))
    }

    fn rename(
        &mut self,
        alloc: Global,
        dir: NodeName,
        name: &[u8],
        to: NodeName,
        new: &[u8],
    ) -> Result<(), Errno> {
        in_box!(self, server => server.rename(alloc, dir, name, to, new))
    }

    fn passive(&self, node: NodeName) -> Option<&Words> {
        in_box!(self, server => server.passive(node))
    }

    fn edit_header(&mut self, node: NodeName, edit: HeaderEdit) -> Result<(), Errno> {
        in_box!(self, server => server.edit_header(node, edit))
    }

    fn forget(&mut self, node: NodeName) {
        in_box!(self, server => server.forget(node))
    }

    fn nameless(&self) -> Option<&[NodeName]> {
        in_box!(self, server => server.nameless())
    }

    fn counts(&self) -> bool {
        in_box!(self, server => server.counts())
    }

    fn space(&self) -> Option<u64> {
        in_box!(self, server => server.space())
    }

    fn total(&self) -> u128 {
        in_box!(self, server => server.total())
    }

    fn goaway(&mut self) {
        in_box!(self, server => server.goaway())
    }
}
