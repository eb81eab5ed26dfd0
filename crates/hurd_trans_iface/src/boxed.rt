//! A boxed server is a server.
use crate::header_edit::HeaderEdit;
use crate::names::Names;
use crate::new_node::NewNode;
use crate::root::Root;
use crate::server::Server;
use crate::words::Words;
use hurd_creds::{Attrs, Bytes, Errno, Mode, NodeName};
use std::alloc::Global;

impl Server for Box<dyn Server> {
    ghost meaning = { λ b. (Server-box b).meaning b.value };

    fn begin_root(&mut self, root: NodeName, owner: u32, group: u32, mode: Mode) {
        (**self).begin_root(root, owner, group, mode)
    }

    fn root(&self) -> Root {
        (**self).root()
    }

    fn text(&self) -> &[u8] {
        (**self).text()
    }

    fn options(&self, alloc: Global) -> Result<Words, Errno> {
        (**self).options(alloc)
    }

    fn set_options(&mut self, alloc: Global, words: &Words) -> Result<(), Errno> {
        (**self).set_options(alloc, words)
    }

    fn targets(&self, alloc: Global) -> Result<Names, Errno> {
        (**self).targets(alloc)
    }

    fn attrs(&self, node: NodeName) -> Option<Attrs> {
        (**self).attrs(node)
    }

    fn step(&self, dir: NodeName, name: &[u8]) -> Option<NodeName> {
        (**self).step(dir, name)
    }

    fn names(&self, alloc: Global, dir: NodeName) -> Result<Names, Errno> {
        (**self).names(alloc, dir)
    }

    fn read(
        &mut self,
        alloc: Global,
        node: NodeName,
        at: u64,
        amount: u64,
        writers: u128,
    ) -> Result<Bytes, Errno> {
        (**self).read(alloc, node, at, amount, writers)
    }

    fn write(
        &mut self,
        node: NodeName,
        at: u64,
        bytes: &[u8],
        readers: u128,
    ) -> Result<u64, Errno> {
        (**self).write(node, at, bytes, readers)
    }

    fn set_size(&mut self, node: NodeName, size: u64) -> Result<(), Errno> {
        (**self).set_size(node, size)
    }

    fn content(&self, node: NodeName) -> Option<&[u8]> {
        (**self).content(node)
    }

    fn readable(&self, node: NodeName, at: u64) -> Option<u64> {
        (**self).readable(node, at)
    }

    fn make(
        &mut self,
        alloc: Global,
        dir: NodeName,
        entry: Option<&[u8]>,
        new: NewNode,
    ) -> Result<(), Errno> {
        (**self).make(alloc, dir, entry, new)
    }

    fn link(
        &mut self,
        alloc: Global,
        dir: NodeName,
        name: &[u8],
        node: NodeName,
    ) -> Result<(), Errno> {
        (**self).link(alloc, dir, name, node)
    }

    fn unlink(&mut self, dir: NodeName, name: &[u8]) -> Result<(), Errno> {
        (**self).unlink(dir, name)
    }

    fn rename(
        &mut self,
        alloc: Global,
        dir: NodeName,
        name: &[u8],
        to: NodeName,
        new: &[u8],
    ) -> Result<(), Errno> {
        (**self).rename(alloc, dir, name, to, new)
    }

    fn passive(&self, node: NodeName) -> Option<&Words> {
        (**self).passive(node)
    }

    fn edit_header(&mut self, node: NodeName, edit: HeaderEdit) -> Result<(), Errno> {
        (**self).edit_header(node, edit)
    }

    fn forget(&mut self, node: NodeName) {
        (**self).forget(node)
    }

    fn nameless(&self) -> Option<&[NodeName]> {
        (**self).nameless()
    }

    fn counts(&self) -> bool {
        (**self).counts()
    }

    fn space(&self) -> Option<u64> {
        (**self).space()
    }

    fn total(&self) -> u128 {
        (**self).total()
    }

    fn goaway(&mut self) {
        (**self).goaway()
    }
}
