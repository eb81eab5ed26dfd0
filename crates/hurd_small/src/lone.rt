//! A server of one node.
ghost use Rattle.std.specs.Prelude.{◌≡◌};
ghost use Rattle.std.specs.FinMap as fin;
ghost use Rattle.hurd_trans_iface.specs.Nodes.{is_dir};
ghost use Rattle.hurd_trans_iface.specs.Meaning.{root_of};
ghost use Rattle.hurd_small.specs.Lone.{barred_by, lone_meaning, nodes_of};

use crate::keeper::Keeper;
use crate::presence::{LoneNode, Presence};
use hurd_creds::{Attrs, Bytes, Errno, Mode, NodeName};
use hurd_trans_iface::{HeaderEdit, Names, NewNode, Root, Server, Words, is_dir};
use std::alloc::Global;

/// A server of one node, a directory without entries or no directory, of which nothing changes but its options, what it keeps of the node, and that it gets its name and is forgotten.
#[derive(Drop)]
pub struct Lone<K> {
    pub(crate) keeper: K,
    pub(crate) presence: Presence,
}

impl<K: Keeper> Lone<K> {
    /// Whether its node is a directory.
    fn has_dir(&self) -> bool
        ensures { result ≡ is_dir (root_of (K.kind self.now.keeper) (K.text self.now.keeper)).kind }
    {
        is_dir(self.keeper.root().kind)
    }

    /// Why nothing changes in a directory of this name: `EDIED` no such node, `ENOTDIR`, `EROFS`.
    fn bars(&self, dir: NodeName) -> Errno
        ensures { result ≡ barred_by (fin.get (nodes_of (K.kind self.now.keeper) (K.text self.now.keeper) (K.held self.now.keeper) self.now.presence) dir) }
    {
        match self.presence.find(dir) {
            Some(_) if self.has_dir() => Errno::EROFS,
            Some(_) => Errno::ENOTDIR,
            None => Errno::EDIED,
        }
    }
}

impl<K: Keeper> Server for Lone<K> {
    ghost meaning = { λ s. lone_meaning (K.kind s.keeper) (K.text s.keeper) (K.held s.keeper) s.presence };

    #[tactic(auto, using(crate::proofs::LoneLaws::root_begun))]
    fn begin_root(&mut self, root: NodeName, owner: u32, group: u32, mode: Mode) {
        self.keeper.begin();
        self.presence = Presence::There(LoneNode {
            name: root,
            owner,
            group,
            mode,
        });
    }

    fn root(&self) -> Root {
        self.keeper.root()
    }

    fn text(&self) -> &[u8] {
        self.keeper.said()
    }

    fn options(&self, alloc: Global) -> Result<Words, Errno> {
        self.keeper.options(alloc)
    }

    fn set_options(&mut self, alloc: Global, words: &Words) -> Result<(), Errno> {
        self.keeper.set_options(alloc, words)
    }

    fn targets(&self, alloc: Global) -> Result<Names, Errno> {
        self.keeper.targets(alloc)
    }

    fn attrs(&self, node: NodeName) -> Option<Attrs> {
        let lone = self.presence.find(node)?;
        Some(Attrs {
            kind: self.keeper.root().kind,
            owner: lone.owner,
            group: lone.group,
            mode: lone.mode,
            links: 1,
            size: self.keeper.size(),
            empty: self.has_dir(),
            passive: false,
            active: false,
            parent: None,
        })
    }

    #[tactic(auto, using(crate::proofs::LoneLaws::step_none))]
    fn step(&self, _dir: NodeName, _name: &[u8]) -> Option<NodeName> {
        None
    }

    fn names(&self, alloc: Global, dir: NodeName) -> Result<Names, Errno> {
        match self.presence.find(dir) {
            Some(_) if self.has_dir() => Ok(Names::new(alloc)),
            Some(_) => Err(Errno::ENOTDIR),
            None => Err(Errno::EDIED),
        }
    }

    fn read(
        &mut self,
        alloc: Global,
        node: NodeName,
        at: u64,
        amount: u64,
        writers: u128,
    ) -> Result<Bytes, Errno> {
        match self.presence.find(node) {
            Some(_) => self.keeper.read(alloc, at, amount, writers),
            None => Err(Errno::EDIED),
        }
    }

    fn write(
        &mut self,
        node: NodeName,
        at: u64,
        bytes: &[u8],
        readers: u128,
    ) -> Result<u64, Errno> {
        match self.presence.find(node) {
            Some(_) => self.keeper.write(at, bytes, readers),
            None => Err(Errno::EDIED),
        }
    }

    fn set_size(&mut self, node: NodeName, size: u64) -> Result<(), Errno> {
        match self.presence.find(node) {
            Some(_) => self.keeper.set_size(size),
            None => Err(Errno::EDIED),
        }
    }

    fn content(&self, node: NodeName) -> Option<&[u8]> {
        match self.presence.find(node) {
            Some(_) if !self.has_dir() => Some(self.keeper.bytes()),
            _ => None,
        }
    }

    #[tactic(auto, unfolding(crate::specs::Calls::Readable))]
    fn readable(&self, node: NodeName, at: u64) -> Option<u64> {
        match self.presence.find(node) {
            Some(_) => Some(self.keeper.readable(at)),
            None => None,
        }
    }

    fn make(
        &mut self,
        _alloc: Global,
        _dir: NodeName,
        _entry: Option<&[u8]>,
        _new: NewNode,
    ) -> Result<(), Errno> {
        Err(Errno::EROFS)
    }

    fn link(
        &mut self,
        _alloc: Global,
        _dir: NodeName,
        _name: &[u8],
        _node: NodeName,
    ) -> Result<(), Errno> {
        Err(Errno::EROFS)
    }

    #[tactic(auto, using(crate::proofs::LoneLaws::unlink_barred))]
    fn unlink(&mut self, dir: NodeName, _name: &[u8]) -> Result<(), Errno> {
        Err(self.bars(dir))
    }

    fn rename(
        &mut self,
        _alloc: Global,
        _dir: NodeName,
        _name: &[u8],
        _to: NodeName,
        _new: &[u8],
    ) -> Result<(), Errno> {
        Err(Errno::EROFS)
    }

    #[tactic(auto, using(crate::proofs::LoneLaws::passive_none))]
    fn passive(&self, _node: NodeName) -> Option<&Words> {
        None
    }

    #[tactic(auto, using(crate::proofs::LoneLaws::header_barred))]
    fn edit_header(&mut self, node: NodeName, _edit: HeaderEdit) -> Result<(), Errno> {
        match self.presence.find(node) {
            Some(_) => Err(Errno::EOPNOTSUPP),
            None => Err(Errno::EDIED),
        }
    }

    #[tactic(auto, using(crate::proofs::LoneLaws::forget_there, crate::proofs::LoneLaws::forget_absent))]
    fn forget(&mut self, node: NodeName) {
        if self.presence.find(node).is_some() {
            self.presence = Presence::Forgotten(node);
        }
    }

    #[tactic(auto, using(crate::proofs::LoneLaws::all_entered))]
    fn nameless(&self) -> Option<&[NodeName]> {
        if self.has_dir() {
            return None;
        }
        Some(&[])
    }

    fn counts(&self) -> bool {
        self.keeper.counts()
    }

    #[tactic(auto, using(crate::proofs::LoneLaws::space_none))]
    fn space(&self) -> Option<u64> {
        None
    }

    fn total(&self) -> u128 {
        0
    }

    fn goaway(&mut self) {}
}
